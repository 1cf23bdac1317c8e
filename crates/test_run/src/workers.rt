//! Where all memory is refused, what was placed is performed, a loop among it, which has no room to be computed in.

ghost use Rattle.std.specs.Prelude.{◌≡◌, IfOk};

use crate::fixtures::{Open, close_all, queue, serve_all};
use crate::jobs::{WIDE, arrays_of, comes, directives_of, hold, place_loop};
use crate::runs::{one_host, run_programs};
use acc_base::{Config, Fault, QUEUES, QueueAt};
use acc_run::{Gate, Runtime};
use std::alloc::Global;
use std::sync::atomic::{AtomicU64, Ordering};
use std::sync::{Mutex, Wait};
use std::test::Fail;
use std::thread::Threads;
use tool_scarce::Hoard;

// Two arrays of a thousand cells.
fn wide_arrays(alloc: Global) -> Result<Config, Fault>
    ensures { IfOk result (λ config. config.hosts ≡ 1) }
{
    let a = vec![in alloc; 0i64; 1_000]?;
    let b = vec![in alloc; 0i64; 1_000]?;
    arrays_of(alloc, 1, a, b)
}

// Whether the arrays hold what they should where no request for memory is granted behind the last directive, until all is performed.
fn is_performed<R: Wait>(rt: &R, alloc: Global) -> Result<bool, Fault> {
    let (runtime, mut tokens) = Runtime::new(alloc, &wide_arrays(alloc)?)?;
    for token in tokens.as_mut_slice() {
        place_loop(rt, alloc, &runtime, token, &WIDE)?;
    }
    let mut hoard = Hoard::new(alloc)?;
    hoard.fill(alloc);
    close_all(rt, &runtime);
    serve_all(rt, &runtime, &Open);
    hoard.free();
    hold(rt, alloc, runtime, tokens, &WIDE)
}

#[test]
fn a_loop_is_performed_without_memory(rt: HostRuntime) -> Result<(), Fail> {
    assert!(rt; is_performed(&rt, rt.alloc())?);
    Ok(())
}

// A worker goes on once the hosts have ended, and first takes all memory that is left.
#[derive(Drop)]
struct Drain {
    alloc: Global,
    is_closing: AtomicU64,
    // by the seats of the queues
    hoards: Vec<Mutex<Hoard>>,
    failed: AtomicU64,
}

impl Drain {
    fn new(alloc: Global) -> Result<Drain, Fault> {
        let mut hoards = Vec::new(alloc);
        for _ in 0..QUEUES {
            hoards.push(Mutex::new(Hoard::new(alloc)?))?;
        }
        Ok(Drain {
            alloc,
            is_closing: AtomicU64::new(0),
            hoards,
            failed: AtomicU64::new(0),
        })
    }

    // The worker of a queue takes all memory. Whether it could.
    fn fill(&self, at: QueueAt) -> bool {
        let Some(hoard) = self.hoards.get(at.seat()) else {
            return false;
        };
        match hoard.try_lock() {
            None => false,
            Some(mut hoard) => {
                hoard.fill(self.alloc);
                true
            }
        }
    }
}

impl Gate for Drain {
    // The only batch of the synchronous queue is its close, which is placed once the hosts have ended.
    fn pass(&self, at: QueueAt, _number: u64) -> bool {
        if at == queue(0) {
            self.is_closing.store(1, Ordering::SeqCst);
        }
        if !comes(&self.is_closing) || !self.fill(at) {
            self.failed.fetch_add(1, Ordering::SeqCst);
        }
        true
    }
}

// Whether the arrays hold what they should where each worker has no memory, and how often one of them had.
fn performed<R: Threads + Wait + Sync>(rt: &R, alloc: Global) -> Result<(bool, u64), Fault> {
    let config = wide_arrays(alloc)?;
    let programs = one_host(alloc, directives_of(alloc, &WIDE)?)?;
    let gate = Drain::new(alloc)?;
    let (runtime, _, tokens) = run_programs(rt, alloc, &config, &gate, programs)?;
    let Drain { hoards, failed, .. } = gate;
    drop(hoards);
    Ok((
        hold(rt, alloc, runtime, tokens, &WIDE)?,
        failed.load(Ordering::SeqCst),
    ))
}

#[test]
fn workers_perform_a_loop_without_memory(rt: HostRuntime) -> Result<(), Fail> {
    assert!(rt; performed(&rt, rt.alloc())? == (true, 0));
    Ok(())
}
