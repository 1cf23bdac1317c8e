//! A host that is refused memory stops, and another one goes on.

ghost use Rattle.std.specs.Prelude.{◌≡◌, IfOk, length};
ghost use Rattle.acc_host.specs.Hosts.{AreNumbered};

use crate::jobs::{arrays_of, comes};
use crate::runs::{count_in, push_round, run_programs};
use acc_base::{Config, Fault, HostId, Listed, QueueAt, Range};
use acc_host::{Act, Host, HostProgram, HostState, Statement};
use acc_place::{Clause, DataItem, Target, Waits};
use acc_run::{Gate, HostToken};
use std::alloc::Global;
use std::sync::atomic::{AtomicU64, Ordering};
use std::sync::{Mutex, Wait};
use std::test::Fail;
use std::thread::Threads;
use tool_directives::{Form, directive_of};
use tool_scarce::{Hoard, Purse};

/// The cells of an array that is larger than a purse.
const LARGE: u32 = 65_536;

/// How often the second host does its statements.
const ROUNDS: u32 = 20;

/// What a host does with a large array.
#[derive(Clone, Copy, Debug)]
enum Use {
    Entered,
    Printed,
}

// What needs a large piece of memory.
fn large_act(alloc: Global, wanted: Use) -> Result<Act, Fault> {
    let range = Range {
        array: 0,
        lo: 0,
        len: LARGE,
    };
    match wanted {
        Use::Printed => Ok(Act::Print { range }),
        Use::Entered => {
            let clause = Clause::Create;
            let items = [DataItem { clause, range }];
            let target = Target::Value { value: 1 };
            let directive = directive_of(alloc, Form::EnterData, &items, target, Waits::Nothing)?;
            Ok(Act::Place { directive })
        }
    }
}

// The first host writes a cell of the large array, and then needs a large piece.
fn first_program(alloc: Global, wanted: Use) -> Result<HostProgram, Fault>
    ensures { IfOk result (λ program. program.host ≡ 0) }
{
    let write = Act::Write {
        array: 0,
        cell: 1,
        value: 7,
    };
    let mut statements = Vec::new(alloc);
    for act in [write, large_act(alloc, wanted)?] {
        statements.push(Statement { line: 0, act })?;
    }
    Ok(HostProgram {
        host: HostId::new(0),
        statements: Listed::from_vec(statements),
    })
}

// The second host does its rounds with an array of two cells.
fn second_program(alloc: Global) -> Result<HostProgram, Fault>
    ensures { IfOk result (λ program. program.host ≡ 1) }
{
    let mut statements = Vec::new(alloc);
    for _ in 0..ROUNDS {
        push_round(alloc, 1, &mut statements)?;
    }
    Ok(HostProgram {
        host: HostId::new(1),
        statements: Listed::from_vec(statements),
    })
}

// Both hosts.
fn programs_of(alloc: Global, wanted: Use) -> Result<Vec<HostProgram>, Fault>
    ensures numbered { IfOk result (λ programs. AreNumbered 0 programs.items) }
    ensures count { IfOk result (λ programs. length programs.items ≡ 2) }
{
    let mut programs = Vec::new(alloc);
    programs.push(first_program(alloc, wanted)?)?;
    programs.push(second_program(alloc)?)?;
    Ok(programs)
}

// A large array, and a small one.
fn large_and_small(alloc: Global) -> Result<Config, Fault>
    ensures { IfOk result (λ config. config.hosts ≡ 2) }
{
    let large = vec![in alloc; 0i64; LARGE as usize]?;
    let small = vec![in alloc; 0i64; 2]?;
    arrays_of(alloc, 2, large, small)
}

// Once both hosts stand here, the first one takes all memory that is left, but for a purse of each.
#[derive(Drop)]
struct Drain {
    alloc: Global,
    hoard: Mutex<Hoard>,
    is_ready: AtomicU64,
    is_full: AtomicU64,
    missed: AtomicU64,
}

impl Drain {
    fn new(alloc: Global) -> Result<Drain, Fault> {
        Ok(Drain {
            alloc,
            hoard: Mutex::new(Hoard::new(alloc)?),
            is_ready: AtomicU64::new(0),
            is_full: AtomicU64::new(0),
            missed: AtomicU64::new(0),
        })
    }

    // Whether the first host could take all memory.
    fn fill(&self) -> bool {
        if !comes(&self.is_ready) {
            return false;
        }
        match self.hoard.try_lock() {
            None => false,
            Some(mut hoard) => {
                hoard.fill(self.alloc);
                self.is_full.store(1, Ordering::SeqCst);
                true
            }
        }
    }

    // Whether the second host saw it.
    fn see(&self) -> bool {
        self.is_ready.store(1, Ordering::SeqCst);
        comes(&self.is_full)
    }
}

impl Gate for Drain {
    fn pass(&self, _at: QueueAt, _number: u64) -> bool {
        true
    }

    fn host(&self, host: HostId) {
        let purse = Purse::new(self.alloc);
        let done = if host.number() == 0 {
            self.fill()
        } else {
            self.see()
        };
        if purse.is_err() || !done {
            self.missed.fetch_add(1, Ordering::SeqCst);
        }
    }
}

// Whether the first host was refused behind its first statement, and the second one has done all.
fn second_alone_finished(hosts: &[Host], tokens: &[HostToken]) -> bool {
    let refused = HostState::Refused {
        ended: 1,
        line: 0,
        fault: Fault::Memory,
    };
    match (hosts, tokens) {
        ([first, second], [write, rounds]) => {
            first.state() == refused
                && second.state() == HostState::Finished
                && count_in(write) == (0, 1)
                && count_in(rounds) == (4 * ROUNDS, 2 * ROUNDS)
        }
        _ => false,
    }
}

// Whether the second host goes on where the first one needs more memory than there is.
fn goes_on<R: Threads + Wait + Sync>(rt: &R, alloc: Global, wanted: Use) -> Result<bool, Fault> {
    let config = large_and_small(alloc)?;
    let programs = programs_of(alloc, wanted)?;
    let gate = Drain::new(alloc)?;
    let (runtime, hosts, tokens) = run_programs(rt, alloc, &config, &gate, programs)?;
    let Drain { hoard, missed, .. } = gate;
    drop(hoard);
    Ok(
        missed.load(Ordering::SeqCst) == 0
            && second_alone_finished(hosts.as_slice(), tokens.as_slice())
            && runtime.finish(tokens).is_ok(),
    )
}

#[test]
fn a_host_that_is_refused_memory_stops_alone(rt: HostRuntime) -> Result<(), Fail> {
    for wanted in [Use::Entered, Use::Printed] {
        assert!(rt; goes_on(&rt, rt.alloc(), wanted)?, "{wanted:?}");
    }
    Ok(())
}
