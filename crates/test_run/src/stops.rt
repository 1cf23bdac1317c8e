//! A worker that its gate stops leaves the batch in its lane, and the next one takes it up, which passes the gate again.

use crate::fixtures::{close_all, config_of, entry_of, queue};
use acc_base::{DeviceId, Fault, QueueAt};
use acc_place::Clause;
use acc_run::{Gate, Runtime};
use std::alloc::Global;
use std::sync::Wait;
use std::sync::atomic::{AtomicU64, Ordering};
use std::test::Fail;
use tool_directives::counts_of;

// Each batch is stopped once, and passes when it comes again.
#[derive(Drop)]
struct Turnstile {
    passed: AtomicU64,
    stopped: AtomicU64,
}

impl Gate for Turnstile {
    fn pass(&self, _at: QueueAt, number: u64) -> bool {
        if self.stopped.load(Ordering::SeqCst) < number {
            self.stopped.store(number, Ordering::SeqCst);
            return false;
        }
        self.passed.fetch_add(1, Ordering::SeqCst);
        true
    }
}

// How many batches were stopped, and how many passed, of ten entries on a queue.
fn stopped<R: Wait>(rt: &R, alloc: Global) -> Result<(u64, u64), Fault> {
    let config = config_of(alloc, 1, 1, 64)?;
    let (runtime, mut tokens) = Runtime::new(alloc, &config)?;
    let Some(mut token) = tokens.pop() else {
        return Err(Fault::Unfinished);
    };
    for round in 0..10u8 {
        let create = entry_of(alloc, Clause::Create, round % 8, 1)?;
        let _ = runtime.place(rt, &mut token, &create)?;
    }
    close_all(rt, &runtime);
    let gate = Turnstile {
        passed: AtomicU64::new(0),
        stopped: AtomicU64::new(0),
    };
    for _ in 0..9u8 {
        runtime.serve(rt, queue(3), &gate);
    }
    let before = gate.passed.load(Ordering::SeqCst);
    runtime.serve(rt, queue(3), &gate);
    runtime.wait_for(rt, &mut token, DeviceId::new(0), counts_of(&[(3, 9)]))?;
    Ok((before, gate.passed.load(Ordering::SeqCst)))
}

/// Ten creates of eight arrays have eight batches.
#[test]
fn each_batch_is_stopped_once(rt: HostRuntime) -> Result<(), Fail> {
    assert!(rt; stopped(&rt, rt.alloc())? == (8, 9));
    Ok(())
}
