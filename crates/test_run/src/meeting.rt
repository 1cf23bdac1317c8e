//! Two workers meet at the gate: each has a thread of its own, and no lock is held there.

use crate::fixtures::{TURNS, close_all, config_of, entry_of, have_come, queue};
use acc_base::{DeviceId, Fault, QueueAt};
use acc_place::Clause;
use acc_run::{Gate, HostToken, Runtime};
use std::alloc::Global;
use std::sync::Wait;
use std::sync::atomic::{AtomicU64, Ordering};
use std::test::Fail;
use std::thread;
use std::thread::{Scope, Threads};
use tool_directives::counts_of;

// The first batches of queues `1` and `2` go on once both workers stand here. A close goes at once.
#[derive(Drop)]
struct Meeting {
    here: AtomicU64,
    failed: AtomicU64,
}

impl Gate for Meeting {
    fn pass(&self, _at: QueueAt, number: u64) -> bool {
        if number != 1 {
            return true;
        }
        self.here.fetch_add(1, Ordering::SeqCst);
        if !have_come(&self.here, 2, TURNS) {
            self.failed.fetch_add(1, Ordering::SeqCst);
        }
        true
    }
}

// Each host enters an array on a queue of its own, and waits until both have been.
fn place_both<R: Wait>(
    rt: &R,
    alloc: Global,
    runtime: &Runtime,
    tokens: &mut Vec<HostToken>,
) -> Result<(), Fault> {
    let first = entry_of(alloc, Clause::Copyin, 0, 1)?;
    let second = entry_of(alloc, Clause::Copyin, 1, 2)?;
    let (Some(mut other), Some(mut token)) = (tokens.pop(), tokens.pop()) else {
        return Err(Fault::Unfinished);
    };
    let _ = runtime.place(rt, &mut token, &first)?;
    let _ = runtime.place(rt, &mut other, &second)?;
    runtime.wait_for(
        rt,
        &mut token,
        DeviceId::new(0),
        counts_of(&[(3, 1), (4, 1)]),
    )
}

// The worker of a queue.
fn serve_on<R: Wait>(rt: &R, runtime: &Runtime, number: u8, gate: &Meeting) {
    runtime.serve(rt, queue(number), gate);
}

// Each of both queues has a worker, in a thread of its own. Whether both could be had.
fn start_both<'s, E, R: Threads + Wait + Sync>(
    scope: &Scope<'s, E>,
    rt: &'s R,
    runtime: &'s Runtime,
    gate: &'s Meeting,
) -> bool {
    let first = scope.spawn(move || serve_on(rt, runtime, 3, gate));
    let second = scope.spawn(move || serve_on(rt, runtime, 4, gate));
    first.is_ok() && second.is_ok()
}

// Whether both batches are performed, and no worker waited for the other in vain. The workers stand before anything is placed.
fn meet<R: Threads + Wait + Sync>(rt: &R, alloc: Global) -> Result<bool, Fault> {
    let config = config_of(alloc, 1, 2, 64)?;
    let (runtime, mut tokens) = Runtime::new(alloc, &config)?;
    let gate = Meeting {
        here: AtomicU64::new(0),
        failed: AtomicU64::new(0),
    };
    let shared = &runtime;
    let meeting = &gate;
    let placed = thread::scope(thread::scope_env(), rt, |scope| -> Result<(), Fault> {
        let both_serve = start_both(scope, rt, shared, meeting);
        let placed = if both_serve {
            place_both(rt, alloc, shared, &mut tokens)
        } else {
            Err(Fault::Memory)
        };
        close_all(rt, shared);
        placed
    });
    placed?;
    Ok(gate.failed.load(Ordering::SeqCst) == 0)
}

#[test]
fn two_workers_meet(rt: HostRuntime) -> Result<(), Fail> {
    assert!(rt; meet(&rt, rt.alloc())?);
    Ok(())
}
