//! What an abandoned run leaves, and when it can't be abandoned.

use crate::finish::{Wrong, acted, made_wrong};
use crate::fixtures::{Fuse, config_of, entry_of, serve_all};
use acc_base::{Fault, QUEUES};
use acc_host::Outcome;
use acc_place::Clause;
use acc_run::{HostToken, Runtime};
use acc_work::WorkEntry;
use std::alloc::Global;
use std::sync::Wait;
use std::test::Fail;
use tool_scarce::{Hoard, Purse, at_each_amount};

// A runtime whose host entered so many arrays in turns on two queues, each of which is two operations; all queues are closed, and so many
// batches have passed.
pub fn served<R: Wait>(
    rt: &R,
    alloc: Global,
    arrays: u8,
    passes: u64,
) -> Result<(Runtime, Vec<HostToken>), Fault> {
    let config = config_of(alloc, 1, 1, 8)?;
    let (runtime, mut tokens) = Runtime::new(alloc, &config)?;
    for token in tokens.as_mut_slice() {
        for array in 0..arrays {
            let copyin = entry_of(alloc, Clause::Copyin, array, i64::from(array % 2))?;
            let _ = runtime.place(rt, token, &copyin)?;
        }
    }
    let _ = runtime.close(rt);
    serve_all(rt, &runtime, &Fuse::new(passes));
    Ok((runtime, tokens))
}

/// How many operations an outcome has that were performed, and how many that were discarded.
pub fn count_in(outcome: &Outcome) -> (usize, usize) {
    let mut performed = 0usize;
    for entry in outcome.works.iter() {
        if let WorkEntry::Op { .. } = entry {
            performed = performed.wrapping_add(1);
        }
    }
    (performed, outcome.discarded.len())
}

fn abandon(
    alloc: Global,
    runtime: Runtime,
    tokens: Vec<HostToken>,
) -> Result<(usize, usize), Fault> {
    match runtime.abandon(alloc, tokens) {
        Ok(outcome) => Ok(count_in(&outcome)),
        Err(refused) => Err(refused.fault),
    }
}

/// How many operations eight batches of two have, and a close of each queue.
pub const ALL: usize = 16 + QUEUES as usize;

/// Eight batches of two operations, and a close of each queue: whatever passes, nothing more is performed, and nothing is lost.
#[test]
fn what_is_performed_and_what_is_discarded_are_all(rt: HostRuntime) -> Result<(), Fail> {
    let alloc = rt.alloc();
    let mut before = 0;
    for passes in 0..u64::from(QUEUES) + 9 {
        let (runtime, tokens) = served(&rt, alloc, 8, passes)?;
        let (performed, discarded) = abandon(alloc, runtime, tokens)?;
        assert!(rt;
            performed.wrapping_add(discarded) == ALL,
            "{passes}: {performed}, {discarded}"
        );
        assert!(rt; passes == 0 || before < performed, "{passes}: {performed}");
        before = performed;
    }
    assert!(rt; before == ALL);
    Ok(())
}

#[test]
fn other_tokens_abandon_nothing(rt: HostRuntime) -> Result<(), Fail> {
    let alloc = rt.alloc();
    for wrong in [Wrong::Missing, Wrong::Exchanged, Wrong::Others] {
        let (runtime, tokens) = acted(&rt, alloc)?;
        let tokens = made_wrong(alloc, tokens, wrong)?;
        assert!(rt; abandon(alloc, runtime, tokens) == Err(Fault::HostsDiffer));
    }
    Ok(())
}

// A runtime that is tried with the tokens of another, and then abandoned with its own.
fn abandoned_later<R: Wait>(rt: &R, alloc: Global) -> Result<(usize, usize), Fault> {
    let (runtime, tokens) = served(rt, alloc, 1, 0)?;
    let (_, others) = served(rt, alloc, 0, 0)?;
    match runtime.abandon(alloc, others) {
        Ok(_) => Err(Fault::TooMany),
        Err(refused) => {
            if refused.fault != Fault::HostsDiffer {
                return Err(refused.fault);
            }
            abandon(alloc, refused.runtime, tokens)
        }
    }
}

/// One directive was placed.
#[test]
fn a_run_comes_back_and_is_abandoned_later(rt: HostRuntime) -> Result<(), Fail> {
    let all = 2 + usize::from(QUEUES);
    assert!(rt; abandoned_later(&rt, rt.alloc())? == (0, all));
    Ok(())
}

// A runtime and its tokens, until it is abandoned.
type Held = Option<(Runtime, Vec<HostToken>)>;

// Abandons a runtime; where it is refused, it is held again.
fn try_abandon(alloc: Global, held: &mut Held) -> Result<(usize, usize), Fault> {
    let Some((runtime, tokens)) = held.take() else {
        return Err(Fault::TooMany);
    };
    match runtime.abandon(alloc, tokens) {
        Ok(outcome) => Ok(count_in(&outcome)),
        Err(refused) => {
            *held = Some((refused.runtime, refused.tokens));
            Err(refused.fault)
        }
    }
}

#[test]
fn a_run_is_refused_until_there_is_memory_for_the_list(rt: HostRuntime) -> Result<(), Fail> {
    let alloc = rt.alloc();
    let mut held = Some(served(&rt, alloc, 8, 3)?);
    let (refusals, counts) = at_each_amount(alloc, || try_abandon(alloc, &mut held))?;
    let (performed, discarded) = counts;
    assert!(rt; 1 < refusals, "{refusals}");
    assert!(rt; performed.wrapping_add(discarded) == ALL);
    Ok(())
}

// Whether so many runs can be abandoned one after another.
fn abandon_many<R: Wait>(rt: &R, alloc: Global, runs: u64) -> Result<bool, Fault> {
    for run in 0..runs {
        let (runtime, tokens) = served(rt, alloc, 4, run % 4)?;
        let (performed, discarded) = abandon(alloc, runtime, tokens)?;
        if performed.wrapping_add(discarded) != 8 + QUEUES as usize {
            return Ok(false);
        }
    }
    Ok(true)
}

/// There is memory for one run at a time.
#[test]
fn what_an_abandoned_run_held_is_free_again(rt: HostRuntime) -> Result<(), Fail> {
    let alloc = rt.alloc();
    let mut hoard = Hoard::new(alloc)?;
    let purse = Purse::new(alloc)?;
    hoard.fill(alloc);
    drop(purse);
    let answer = abandon_many(&rt, alloc, 200);
    hoard.free();
    assert!(rt; answer?);
    Ok(())
}
