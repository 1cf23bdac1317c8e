//! Scripts that threads run, whose reports don't depend on who is first, and a gate at which threads wait for one another.

use crate::answers::{Answer, ENDED, REFUSED, check_answer, check_bytes, script_fault};
use crate::scripts::{DOUBLED, DOUBLED_REPORT, TWO_HOSTS, TWO_HOSTS_REPORT};
use crate::streams::{End, Narrow, Trickle};
use acc_base::{Fault, HostId, QUEUES, QueueAt};
use acc_driver::{DriverFault, Gate, NoMonitor, OpenGate, Options, ReadKind, Remains, run_script};
use std::alloc::Global;
use std::process::Abort;
use std::sync::Wait;
use std::sync::atomic::{AtomicU64, Ordering};
use std::test::Fail;
use std::thread;
use std::thread::Threads;

/// No monitor.
pub const NOBODY: Option<&NoMonitor> = None;

// A script is answered so with these options and this gate, and this is written.
pub fn check_run<R: Abort + Threads + Wait + Sync, G: Gate + Sync>(
    rt: &R,
    alloc: Global,
    script: &[u8],
    options: Options,
    gate: &G,
    wanted: Answer,
    report: &[u8],
) {
    let mut script = script;
    let mut written = Vec::new(alloc);
    let answer = run_script(
        rt,
        alloc,
        &mut script,
        options,
        gate,
        NOBODY,
        &mut written,
        &mut Remains::nothing(),
    );
    check_bytes(rt, written.as_slice(), report);
    check_answer(rt, answer, wanted);
}

/// A script, the room of its queues, its answer and its report.
type Worked = (&'static [u8], u32, Answer, &'static [u8]);

/// A value is multiplied on queue `noval`, which the host waits for.
const ON_NOVAL: &[u8] =
    b"long a[1];\nhost {\na[0] = 7;\n#pragma acc enter data copyin(a) async\n#pragma acc parallel loop present(a) async\nfor (i = 0; i < 1; i++) a[i] = a[i] * 6;\n#pragma acc exit data copyout(a) async\n#pragma acc wait\nprint(a);\n}\n";

const ON_NOVAL_REPORT: &[u8] =
    b"host 0\n42\ndone\nqueue 0 noval batches 3 operations 5 of 5\nend\n";

/// What one host says, or two on queues and arrays of their own.
const WORKED: &[Worked] = &[
    (b"", 64, ENDED, b"end\n"),
    (DOUBLED, 64, ENDED, DOUBLED_REPORT),
    (ON_NOVAL, 64, ENDED, ON_NOVAL_REPORT),
    (ON_NOVAL, 1, ENDED, ON_NOVAL_REPORT),
    (
        b"long a[4] = {1,2,3,4};\nhost {\n#pragma acc enter data copyin(a)\na[0] = 9;\n#pragma acc exit data copyout(a)\nprint(a);\n}\n",
        64,
        ENDED,
        b"host 0\n1 2 3 4\ndone\nqueue 0 sync batches 2 operations 4 of 4\nend\n",
    ),
    (
        b"long a[2] = {3,-3};\nlong b[2];\nhost {\n#pragma acc parallel loop\nfor (i = 0; i < 2; i++) b[i] = 1 + 2 * -a[i] < 0 == 1 ? 5 : 6;\nprint(b);\n}\n",
        64,
        ENDED,
        b"host 0\n5 6\ndone\nqueue 0 sync batches 1 operations 9 of 9\nend\n",
    ),
    (TWO_HOSTS, 64, ENDED, TWO_HOSTS_REPORT),
    (
        b"long a[8];\nhost {\n#pragma acc enter data copyin(a[0:4])\n#pragma acc enter data copyin(a[2:4])\n}\nhost {\n}\n",
        64,
        REFUSED,
        b"host 0\nrefused 4 F6 PartlyPresent\nhost 1\ndone\npresent 0 a[0:4] s 0 d 1\nqueue 0 sync batches 1 operations 2 of 2\nend\n",
    ),
];

#[test]
fn worked_scripts_have_their_reports(rt: HostRuntime) -> Result<(), Fail> {
    for (script, room, wanted, report) in WORKED {
        let options = Options {
            room: *room,
            ..Options::DEFAULT
        };
        check_run(&rt, rt.alloc(), script, options, &OpenGate, *wanted, report);
    }
    Ok(())
}

/// Eight hosts on four devices, two on each: a host has an array and a queue of its own, on which it doubles the array.
const EIGHT_HOSTS: &[u8] =
    b"long a[2] = {1,10};\nlong b[2] = {2,20};\nlong c[2] = {3,30};\nlong d[2] = {4,40};\nlong e[2] = {5,50};\nlong f[2] = {6,60};\nlong g[2] = {7,70};\nlong h[2] = {8,80};\nhost {\nacc_set_device_num(0);\n#pragma acc enter data copyin(a) async(0)\n#pragma acc parallel loop present(a) async(0)\nfor (i = 0; i < 2; i++) a[i] = a[i] * 2;\n#pragma acc exit data copyout(a) async(0)\n#pragma acc wait(0)\nprint(a);\n}\nhost {\nacc_set_device_num(1);\n#pragma acc enter data copyin(b) async(0)\n#pragma acc parallel loop present(b) async(0)\nfor (i = 0; i < 2; i++) b[i] = b[i] * 2;\n#pragma acc exit data copyout(b) async(0)\n#pragma acc wait(0)\nprint(b);\n}\nhost {\nacc_set_device_num(2);\n#pragma acc enter data copyin(c) async(0)\n#pragma acc parallel loop present(c) async(0)\nfor (i = 0; i < 2; i++) c[i] = c[i] * 2;\n#pragma acc exit data copyout(c) async(0)\n#pragma acc wait(0)\nprint(c);\n}\nhost {\nacc_set_device_num(3);\n#pragma acc enter data copyin(d) async(0)\n#pragma acc parallel loop present(d) async(0)\nfor (i = 0; i < 2; i++) d[i] = d[i] * 2;\n#pragma acc exit data copyout(d) async(0)\n#pragma acc wait(0)\nprint(d);\n}\nhost {\nacc_set_device_num(0);\n#pragma acc enter data copyin(e) async(1)\n#pragma acc parallel loop present(e) async(1)\nfor (i = 0; i < 2; i++) e[i] = e[i] * 2;\n#pragma acc exit data copyout(e) async(1)\n#pragma acc wait(1)\nprint(e);\n}\nhost {\nacc_set_device_num(1);\n#pragma acc enter data copyin(f) async(1)\n#pragma acc parallel loop present(f) async(1)\nfor (i = 0; i < 2; i++) f[i] = f[i] * 2;\n#pragma acc exit data copyout(f) async(1)\n#pragma acc wait(1)\nprint(f);\n}\nhost {\nacc_set_device_num(2);\n#pragma acc enter data copyin(g) async(1)\n#pragma acc parallel loop present(g) async(1)\nfor (i = 0; i < 2; i++) g[i] = g[i] * 2;\n#pragma acc exit data copyout(g) async(1)\n#pragma acc wait(1)\nprint(g);\n}\nhost {\nacc_set_device_num(3);\n#pragma acc enter data copyin(h) async(1)\n#pragma acc parallel loop present(h) async(1)\nfor (i = 0; i < 2; i++) h[i] = h[i] * 2;\n#pragma acc exit data copyout(h) async(1)\n#pragma acc wait(1)\nprint(h);\n}\n";

const EIGHT_HOSTS_REPORT: &[u8] =
    b"host 0\n2 20\ndone\nhost 1\n4 40\ndone\nhost 2\n6 60\ndone\nhost 3\n8 80\ndone\nhost 4\n10 100\ndone\nhost 5\n12 120\ndone\nhost 6\n14 140\ndone\nhost 7\n16 160\ndone\nqueue 0 0 batches 3 operations 5 of 5\nqueue 0 1 batches 3 operations 5 of 5\nqueue 1 0 batches 3 operations 5 of 5\nqueue 1 1 batches 3 operations 5 of 5\nqueue 2 0 batches 3 operations 5 of 5\nqueue 2 1 batches 3 operations 5 of 5\nqueue 3 0 batches 3 operations 5 of 5\nqueue 3 1 batches 3 operations 5 of 5\nend\n";

/// A thousand runs, with room for one batch and for two: each has the report that every schedule has in which all end.
#[test]
fn a_thousand_runs_have_one_report(rt: HostRuntime) -> Result<(), Fail> {
    for round in 0..1_000u32 {
        let options = Options {
            devices: 4,
            room: 1 + round % 2,
            ..Options::DEFAULT
        };
        check_run(
            &rt,
            rt.alloc(),
            EIGHT_HOSTS,
            options,
            &OpenGate,
            ENDED,
            EIGHT_HOSTS_REPORT,
        );
    }
    Ok(())
}

/// The turns after which who waits for another thread gives up: some seconds, as a thread that is ready may not be scheduled for long.
const TURNS: u32 = 30_000_000;

// A thread comes, and goes on once so many have come, or notes a failure.
fn meet(here: &AtomicU64, wanted: u64, failures: &AtomicU64) {
    here.fetch_add(1, Ordering::SeqCst);
    for _ in 0..TURNS {
        if here.load(Ordering::SeqCst) >= wanted {
            return;
        }
        thread::yield_now();
    }
    failures.fetch_add(1, Ordering::SeqCst);
}

/// A gate where both hosts wait for one another; the workers of queues `1` and `2` with their first batch; and all workers with
/// their close. It notes each that comes, and each that nobody joined.
#[derive(Drop)]
struct Meeting {
    hosts: AtomicU64,
    batches: AtomicU64,
    closes: AtomicU64,
    failures: AtomicU64,
}

impl Gate for Meeting {
    fn pass(&self, at: QueueAt, number: u64) -> bool {
        // `1` has number 3, and `2` number 4
        if number == 1 && (at.queue.number() == 3 || at.queue.number() == 4) {
            meet(&self.batches, 2, &self.failures);
        } else {
            meet(&self.closes, u64::from(QUEUES), &self.failures);
        }
        true
    }

    fn host(&self, _host: HostId) {
        meet(&self.hosts, 2, &self.failures);
    }
}

/// Each host has a thread of its own, and each queue a worker in its own: all that should meet do, and no one else comes.
#[test]
fn hosts_and_workers_meet_at_the_gate(rt: HostRuntime) -> Result<(), Fail> {
    let gate = Meeting {
        hosts: AtomicU64::new(0),
        batches: AtomicU64::new(0),
        closes: AtomicU64::new(0),
        failures: AtomicU64::new(0),
    };
    check_run(
        &rt,
        rt.alloc(),
        TWO_HOSTS,
        Options::DEFAULT,
        &gate,
        ENDED,
        TWO_HOSTS_REPORT,
    );
    assert_eq!(rt; gate.failures.load(Ordering::SeqCst), 0);
    assert_eq!(rt; gate.hosts.load(Ordering::SeqCst), 2);
    assert_eq!(rt; gate.batches.load(Ordering::SeqCst), 2);
    assert_eq!(rt; gate.closes.load(Ordering::SeqCst), u64::from(QUEUES));
    Ok(())
}

/// Two hosts' loops meet: each goes on once both are to be computed.
#[derive(Drop)]
struct LoopsMeet {
    here: AtomicU64,
    failures: AtomicU64,
}

impl Gate for LoopsMeet {
    fn pass(&self, _at: QueueAt, _number: u64) -> bool {
        true
    }

    fn work(&self, _at: QueueAt, _number: u64) {
        meet(&self.here, 2, &self.failures);
    }
}

/// A loop on each of two queues, on an array of its own.
const TWO_LOOPS: &[u8] =
    b"long a[2];\nlong b[2];\nhost {\n#pragma acc parallel loop async(1)\nfor (i = 0; i < 2; i++) a[i] = 1;\n#pragma acc parallel loop async(2)\nfor (i = 0; i < 2; i++) b[i] = 2;\n#pragma acc wait\nprint(a);\nprint(b);\n}\n";

/// No lock is held where a loop is computed.
#[test]
fn loops_are_computed_at_once(rt: HostRuntime) -> Result<(), Fail> {
    let gate = LoopsMeet {
        here: AtomicU64::new(0),
        failures: AtomicU64::new(0),
    };
    check_run(
        &rt,
        rt.alloc(),
        TWO_LOOPS,
        Options::DEFAULT,
        &gate,
        ENDED,
        b"host 0\n1 1\n2 2\ndone\nqueue 0 1 batches 1 operations 5 of 5\nqueue 0 2 batches 1 operations 5 of 5\nend\n",
    );
    assert_eq!(rt; gate.here.load(Ordering::SeqCst), 2);
    assert_eq!(rt; gate.failures.load(Ordering::SeqCst), 0);
    Ok(())
}

/// A gate that so many batches of queue `2` pass, and all others.
#[derive(Drop)]
struct Second {
    passes: u64,
}

impl Gate for Second {
    fn pass(&self, at: QueueAt, number: u64) -> bool {
        // `2` has number 4
        at.queue.number() != 4 || number <= self.passes
    }
}

/// The first batch of queue `2` doesn't pass, and what queue `2` has is discarded.
const SECOND_DISCARDED: &[u8] =
    b"host 0\ndone\nhost 1\ndone\npresent 0 a[0:2] s 0 d 1\npresent 0 b[0:2] s 0 d 1\nqueue 0 1 batches 1 operations 2 of 2\nqueue 0 2 batches 1 operations 0 of 2 discarded 2\nend\n";

/// Where a gate keeps a queue from its batches, the run is reported all the same. A close isn't counted.
#[test]
fn what_a_gate_keeps_back_is_discarded(rt: HostRuntime) -> Result<(), Fail> {
    for (passes, report) in [
        (0u64, SECOND_DISCARDED),
        (1, TWO_HOSTS_REPORT),
        (2, TWO_HOSTS_REPORT),
    ] {
        check_run(
            &rt,
            rt.alloc(),
            TWO_HOSTS,
            Options::DEFAULT,
            &Second { passes },
            ENDED,
            report,
        );
    }
    Ok(())
}

/// A gate that no batch passes.
#[derive(Drop)]
struct Shut;

impl Gate for Shut {
    fn pass(&self, _at: QueueAt, _number: u64) -> bool {
        false
    }
}

/// Hosts that wait for no queue end without them.
#[test]
fn a_shut_gate_discards_all(rt: HostRuntime) -> Result<(), Fail> {
    check_run(
        &rt,
        rt.alloc(),
        TWO_HOSTS,
        Options::DEFAULT,
        &Shut,
        ENDED,
        b"host 0\ndone\nhost 1\ndone\npresent 0 a[0:2] s 0 d 1\npresent 0 b[0:2] s 0 d 1\nqueue 0 1 batches 1 operations 0 of 2 discarded 2\nqueue 0 2 batches 1 operations 0 of 2 discarded 2\nend\n",
    );
    Ok(())
}

/// The script's fault comes before that of the options.
#[test]
fn scripts_and_options_are_refused(rt: HostRuntime) -> Result<(), Fail> {
    let none = Options {
        devices: 0,
        ..Options::DEFAULT
    };
    let no_room = Options {
        room: 0,
        ..Options::DEFAULT
    };
    let faulty = script_fault(1, ReadKind::Form);
    let no_device = Err(DriverFault::Runtime(Fault::BadDevice));
    let too_many = Err(DriverFault::Runtime(Fault::TooMany));
    for (script, options, wanted) in [
        (b"long a[01];\n".as_slice(), none, faulty),
        (TWO_HOSTS, none, no_device),
        (TWO_HOSTS, no_room, too_many),
    ] {
        check_run(&rt, rt.alloc(), script, options, &OpenGate, wanted, b"");
    }
    Ok(())
}

// A writer with room for so many bytes, which then fails, gets these.
fn check_narrow<R: Abort + Threads + Wait + Sync>(rt: &R, alloc: Global, room: usize) {
    let mut narrow = Narrow {
        taken: Vec::new(alloc),
        room,
        fails: true,
        was_interrupted: false,
    };
    let mut script = ON_NOVAL;
    let answer = run_script(
        rt,
        alloc,
        &mut script,
        Options::DEFAULT,
        &OpenGate,
        NOBODY,
        &mut narrow,
        &mut Remains::nothing(),
    );
    check_answer(rt, answer, Err(DriverFault::Output));
    let (taken, _) = ON_NOVAL_REPORT.split_at(room.min(ON_NOVAL_REPORT.len()));
    check_bytes(rt, narrow.taken.as_slice(), taken);
}

/// A writer that fails at the first byte, within the report, or at its last byte has what stands before.
#[test]
fn writers_fail(rt: HostRuntime) -> Result<(), Fail> {
    for room in [0, 20, ON_NOVAL_REPORT.len().saturating_sub(1)] {
        check_narrow(&rt, rt.alloc(), room);
    }
    Ok(())
}

/// A reader that fails behind its bytes.
#[test]
fn readers_fail(rt: HostRuntime) -> Result<(), Fail> {
    let alloc = rt.alloc();
    let mut script = Trickle {
        left: TWO_HOSTS,
        end: End::Fails,
    };
    let mut written = Vec::new(alloc);
    let answer = run_script(
        &rt,
        alloc,
        &mut script,
        Options::DEFAULT,
        &OpenGate,
        NOBODY,
        &mut written,
        &mut Remains::nothing(),
    );
    check_answer(&rt, answer, Err(DriverFault::Input));
    check_bytes(&rt, written.as_slice(), b"");
    Ok(())
}
