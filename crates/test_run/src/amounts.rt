//! A run whose host has memory for no request, for one, and so on, until it finishes.

ghost use Rattle.std.specs.Prelude.{◌≡◌, IfOk, length};
ghost use Rattle.acc_host.specs.Hosts.{AreNumbered};

use crate::fixtures::config_of;
use crate::runs::{push_round, run_programs};
use crate::threads::{Stacks, WORKERS};
use acc_base::{Fault, HostId, Listed, QueueAt};
use acc_host::{HostProgram, HostState};
use acc_run::Gate;
use std::alloc::Global;
use std::sync::atomic::{AtomicU64, Ordering};
use std::sync::{Mutex, Wait};
use std::test::Fail;
use std::thread::Threads;
use tool_scarce::{Hoard, Purse};

// The thread of a host takes all memory that is left, but for so many pieces.
#[derive(Drop)]
struct Allowance {
    alloc: Global,
    hoard: Mutex<Hoard>,
    pieces: AtomicU64,
    failed: AtomicU64,
}

impl Allowance {
    fn new(alloc: Global) -> Result<Allowance, Fault> {
        Ok(Allowance {
            alloc,
            hoard: Mutex::new(Hoard::new(alloc)?),
            pieces: AtomicU64::new(0),
            failed: AtomicU64::new(0),
        })
    }

    fn fill(&self) -> Result<(), Fault> {
        let mut pieces = Vec::new(self.alloc);
        for _ in 0..self.pieces.load(Ordering::SeqCst) {
            let piece: Vec<u8> = Vec::with_capacity(self.alloc, 16)?;
            pieces.push(piece)?;
        }
        match self.hoard.try_lock() {
            None => return Err(Fault::Unfinished),
            Some(mut hoard) => hoard.fill(self.alloc),
        }
        drop(pieces);
        Ok(())
    }

    // Gives what was taken back. Whether it could.
    fn free(&self) -> bool {
        match self.hoard.try_lock() {
            None => false,
            Some(mut hoard) => {
                hoard.free();
                true
            }
        }
    }
}

impl Gate for Allowance {
    fn pass(&self, _at: QueueAt, _number: u64) -> bool {
        true
    }

    fn host(&self, _host: HostId) {
        if self.fill().is_err() {
            self.failed.fetch_add(1, Ordering::SeqCst);
        }
    }
}

// A host that does a round.
fn one_round(alloc: Global) -> Result<Vec<HostProgram>, Fault>
    ensures numbered { IfOk result (λ programs. AreNumbered 0 programs.items) }
    ensures count { IfOk result (λ programs. length programs.items ≡ 1) }
{
    let mut statements = Vec::new(alloc);
    push_round(alloc, 0, &mut statements)?;
    let mut programs = Vec::new(alloc);
    programs.push(HostProgram {
        host: HostId::new(0),
        statements: Listed::from_vec(statements),
    })?;
    Ok(programs)
}

// How many statements a host ends before it is refused memory, none where it finishes. Its run is finished.
fn ended<R: Threads + Wait + Sync>(
    rt: &R,
    alloc: Global,
    gate: &Allowance,
) -> Result<Option<usize>, Fault> {
    let config = config_of(alloc, 1, 1, 8)?;
    let (runtime, hosts, tokens) = run_programs(rt, alloc, &config, gate, one_round(alloc)?)?;
    let is_filled = gate.failed.load(Ordering::SeqCst) == 0;
    if !is_filled || !gate.free() || runtime.finish(tokens).is_err() {
        return Err(Fault::Unfinished);
    }
    match hosts.as_slice() {
        [host] => match host.state() {
            HostState::Finished => Ok(None),
            HostState::Refused {
                ended,
                fault: Fault::Memory,
                ..
            } => Ok(Some(ended)),
            _ => Err(Fault::Unfinished),
        },
        _ => Err(Fault::HostsDiffer),
    }
}

// How many statements the host of each run ends before it is refused memory, with one piece more each time, until it finishes.
fn all_ended<R: Threads + Wait + Sync>(rt: &R, alloc: Global) -> Result<Vec<usize>, Fault> {
    let gate = Allowance::new(alloc)?;
    let mut stacks = Stacks::new(alloc, 2 * WORKERS + 8)?;
    let purse = Purse::new(alloc)?;
    let mut hoard = Hoard::new(alloc)?;
    hoard.fill(alloc);
    drop(purse);
    stacks.give_all();
    let mut all = Vec::new(alloc);
    for pieces in 0..400u64 {
        gate.pieces.store(pieces, Ordering::SeqCst);
        match ended(rt, alloc, &gate)? {
            None => return Ok(all),
            Some(ended) => all.push(ended)?,
        }
    }
    Err(Fault::Memory)
}

#[test]
fn a_host_is_refused_until_there_is_memory(rt: HostRuntime) -> Result<(), Fail> {
    let ended = all_ended(&rt, rt.alloc())?;
    assert!(rt; ended.first() == Some(&0), "{ended:?}");
    assert!(rt; ended.iter().any(|count| 0 < *count), "{ended:?}");
    Ok(())
}
