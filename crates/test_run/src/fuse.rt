//! A gate lets so many batches of a run pass in all: the run ends, what was kept back can be performed later, and it can be discarded.

use crate::abandon::count_in;
use crate::finish::finish_later;
use crate::fixtures::{Fuse, config_of};
use crate::readers::both_programs;
use crate::runs::{one_host, run_programs, updates_on};
use acc_base::{Fault, QUEUES};
use acc_host::{Host, HostState};
use acc_run::{HostToken, Runtime};
use std::alloc::Global;
use std::sync::Wait;
use std::test::Fail;
use std::thread::Threads;

/// Hosts that place two batches.
#[derive(Clone, Copy)]
enum Hosts {
    /// Each of two enters an array on a queue of its own.
    Two,
    /// One enters an array and updates it, both on queue `1`, and updates it on a queue that can't be.
    One,
}

/// Two batches, and a close of each queue.
const BATCHES: u64 = 2 + QUEUES as u64;

/// Two directives, the closing, and a close of each queue.
const PLACES: usize = 3 + QUEUES as usize;

/// How many operations there are beyond one for each batch, and where the hosts stand behind the run.
struct Case {
    hosts: Hosts,
    beyond: usize,
    states: &'static [HostState],
}

const CASES: [Case; 2] = [
    Case {
        hosts: Hosts::Two,
        beyond: 2,
        states: &[HostState::Finished, HostState::Finished],
    },
    Case {
        hosts: Hosts::One,
        beyond: 0,
        states: &[HostState::Refused {
            ended: 2,
            line: 0,
            fault: Fault::BadAsync,
        }],
    },
];

impl Case {
    // How many operations all batches have.
    fn all(&self) -> usize {
        self.beyond.wrapping_add(BATCHES as usize)
    }

    // Whether so many operations can be those of so many batches.
    fn can_have(&self, batches: u64, operations: usize) -> bool {
        let least = batches as usize;
        least <= operations && operations <= least.wrapping_add(self.beyond)
    }

    fn stand(&self, hosts: &[Host]) -> bool {
        let mut wanted = self.states.iter();
        for host in hosts {
            if wanted.next() != Some(&host.state()) {
                return false;
            }
        }
        wanted.next().is_none()
    }
}

// A run whose gate lets so many batches pass, and behind which each queue is closed.
fn run<R: Threads + Wait + Sync>(
    rt: &R,
    alloc: Global,
    hosts: Hosts,
    batches: u64,
) -> Result<(Runtime, Vec<Host>, Vec<HostToken>), Fault> {
    let gate = Fuse::new(batches);
    let (runtime, hosts, tokens) = match hosts {
        Hosts::Two => {
            let config = config_of(alloc, 1, 2, 8)?;
            run_programs(rt, alloc, &config, &gate, both_programs(alloc)?)?
        }
        Hosts::One => {
            let config = config_of(alloc, 1, 1, 8)?;
            let programs = one_host(alloc, updates_on(alloc, &[15, 1, -5])?)?;
            run_programs(rt, alloc, &config, &gate, programs)?
        }
    };
    if runtime.close(rt) == 0 {
        Ok((runtime, hosts, tokens))
    } else {
        Err(Fault::QueueFull)
    }
}

// Whether a run is finished, at once if all batches passed, and else once the others are performed.
fn is_finished<R: Threads + Wait + Sync>(
    rt: &R,
    alloc: Global,
    case: &Case,
    batches: u64,
) -> Result<bool, Fault> {
    let (runtime, hosts, tokens) = run(rt, alloc, case.hosts, batches)?;
    let (at_once, outcome) = finish_later(rt, runtime, tokens)?;
    Ok(
        case.stand(hosts.as_slice())
            && at_once == (batches == BATCHES)
            && outcome.places.len() == PLACES
            && count_in(&outcome) == (case.all(), 0),
    )
}

#[test]
fn what_a_fuse_kept_back_is_performed_later(rt: HostRuntime) -> Result<(), Fail> {
    for (place, case) in CASES.iter().enumerate() {
        for batches in 0..BATCHES + 1 {
            let is_finished = is_finished(&rt, rt.alloc(), case, batches)?;
            assert!(rt; is_finished, "case {place}, {batches} batches");
        }
    }
    Ok(())
}

// Whether a run is abandoned, with nothing lost, and nothing discarded if all batches passed.
fn is_abandoned<R: Threads + Wait + Sync>(
    rt: &R,
    alloc: Global,
    case: &Case,
    batches: u64,
) -> Result<bool, Fault> {
    let (runtime, hosts, tokens) = run(rt, alloc, case.hosts, batches)?;
    match runtime.abandon(alloc, tokens) {
        Err(refused) => Err(refused.fault),
        Ok(outcome) => {
            let (performed, discarded) = count_in(&outcome);
            Ok(
                case.stand(hosts.as_slice())
                    && outcome.places.len() == PLACES
                    && case.can_have(batches, performed)
                    && performed.wrapping_add(discarded) == case.all()
                    && (discarded == 0) == (batches == BATCHES),
            )
        }
    }
}

#[test]
fn what_a_fuse_kept_back_is_discarded(rt: HostRuntime) -> Result<(), Fail> {
    for (place, case) in CASES.iter().enumerate() {
        for batches in 0..BATCHES + 1 {
            let is_abandoned = is_abandoned(&rt, rt.alloc(), case, batches)?;
            assert!(rt; is_abandoned, "case {place}, {batches} batches");
        }
    }
    Ok(())
}
