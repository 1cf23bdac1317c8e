//! Runs by threads that a gate delays, each time otherwise: whatever order that brings, an exploration tells the report.

use crate::threads::NOBODY;
use acc_base::{HostId, QueueAt};
use acc_driver::{
    Aim, Explored, Exploring, Form, Gate, NoMonitor, Options, Remains, explore_script, run_script,
};
use std::alloc::Global;
use std::process::Abort;
use std::sync::Wait;
use std::test::Fail;
use std::thread;
use std::thread::Threads;

/// Two loops compute with one range on two queues, and a question asks for the first. Four reports.
const TWO_LOOPS: &[u8] =
    b"long a[2] = {1,2};\nhost {\n#pragma acc enter data copyin(a)\n#pragma acc parallel loop present(a) async(1)\nfor (i = 0; i < 2; i++) a[i] = a[i] + 1;\n#pragma acc parallel loop present(a) async(2)\nfor (i = 0; i < 2; i++) a[i] = a[i] * 10;\nprint(acc_async_test(1));\n#pragma acc wait\nacc_update_self(a);\nprint(a);\n}\n";

/// A host has the lifetime of a range that another host finds, or joins, or comes too late for. Twelve reports.
const TWO_LIFETIMES: &[u8] =
    b"long a[1] = {5};\nhost {\n#pragma acc enter data copyin(a) async(1)\n#pragma acc parallel loop present(a) async(1)\nfor (i = 0; i < 1; i++) a[i] = a[i] * 3;\n#pragma acc exit data copyout(a) async(1)\n#pragma acc wait(1)\nprint(a);\n}\nhost {\nprint(acc_is_present(a[0:1]));\n#pragma acc enter data copyin(a) async(2)\n#pragma acc wait(2)\n#pragma acc exit data delete(a) async(2)\nprint(acc_is_present(a[0:1]));\n}\n";

/// Three hosts share two ranges, which the third ends, or doesn't make. Thirty reports.
const THREE_HOSTS: &[u8] =
    b"long a[1] = {1};\nlong b[1] = {2};\nhost {\n#pragma acc enter data copyin(a, b)\n#pragma acc parallel loop present(a) async(1)\nfor (i = 0; i < 1; i++) a[i] = a[i] + 1;\n#pragma acc update self(a) async(1)\n#pragma acc wait(1)\nprint(a);\n}\nhost {\n#pragma acc parallel loop present(a, b) async(2)\nfor (i = 0; i < 1; i++) b[i] = a[i] + b[i];\n#pragma acc exit data copyout(b) async(2)\n#pragma acc wait(2)\nprint(b);\n}\nhost {\n#pragma acc enter data create(b)\nprint(acc_async_test(2));\n#pragma acc exit data delete(a) finalize\n}\n";

/// A gate at which each thread gives its turn away so often as a seed says, and who comes.
#[derive(Drop)]
struct Delays {
    seed: u64,
}

impl Delays {
    // Gives so many turns away: from none to 31, or in one of eight cases to 255.
    fn delay(&self, comer: u64, number: u64) {
        let mixed = self
            .seed
            .wrapping_mul(1_009)
            .wrapping_add(comer)
            .wrapping_mul(1_009)
            .wrapping_add(number)
            .wrapping_mul(6_364_136_223_846_793_005);
        let most = if mixed >> 61 == 0 { 256 } else { 32 };
        for _ in 0..(mixed >> 32) % most {
            thread::yield_now();
        }
    }
}

impl Gate for Delays {
    fn pass(&self, at: QueueAt, number: u64) -> bool {
        self.delay(u64::from(at.queue.number()), number);
        true
    }

    fn host(&self, host: HostId) {
        self.delay(100, u64::from(host.number()));
    }

    fn work(&self, at: QueueAt, number: u64) {
        self.delay(200 + u64::from(at.queue.number()), number);
    }
}

// All that an exploration tells of a script, which has so many reports.
fn explored(rt: &impl Abort, alloc: Global, script: &[u8], reports: usize) -> Vec<u8> {
    let mut script = script;
    let mut told = Vec::new(alloc);
    let exploring = Exploring {
        closing: false,
        states: 10_000,
        aim: Aim::Reports(Form::Whole),
    };
    let answer = explore_script(
        alloc,
        &mut script,
        Options::DEFAULT,
        exploring,
        &mut told,
        &NoMonitor,
    );
    let found = match answer {
        Ok(Explored::Reports(counts)) => (counts.whole, counts.reports),
        _ => (false, 0),
    };
    assert_eq!(rt; found, (true, reports));
    told
}

// What threads report of a script at a gate.
fn delayed<R: Abort + Threads + Wait + Sync>(
    rt: &R,
    alloc: Global,
    script: &[u8],
    gate: &Delays,
) -> Vec<u8> {
    let mut script = script;
    let mut written = Vec::new(alloc);
    let answer = run_script(
        rt,
        alloc,
        &mut script,
        Options::DEFAULT,
        gate,
        NOBODY,
        &mut written,
        &mut Remains::nothing(),
    );
    assert!(rt; answer.is_ok());
    written
}

// Whether a report is part of what was told.
fn is_told(told: &[u8], report: &[u8]) -> bool {
    !report.is_empty() && told.windows(report.len()).any(|bytes| bytes == report)
}

/// Two hundred runs of each script: each report is one that is told of all orders.
#[test]
fn whatever_delays_bring_is_told_of_all_orders(rt: HostRuntime) -> Result<(), Fail> {
    let alloc = rt.alloc();
    for (script, reports) in [(TWO_LOOPS, 4usize), (TWO_LIFETIMES, 12), (THREE_HOSTS, 30)] {
        let told = explored(&rt, alloc, script, reports);
        for seed in 0..200u64 {
            let report = delayed(&rt, alloc, script, &Delays { seed });
            assert!(rt; is_told(told.as_slice(), report.as_slice()), "seed {seed}");
        }
    }
    Ok(())
}
