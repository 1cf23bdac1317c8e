//! What a finished run leaves, and when it can't be finished.

use crate::fixtures::{Open, config_of, entries, entry_of, print, serve_all, whole};
use acc_base::{Fault, QUEUES};
use acc_host::Outcome;
use acc_place::Clause;
use acc_run::{HostToken, Runtime};
use std::alloc::Global;
use std::sync::Wait;
use std::test::Fail;

/// What is wrong with the tokens of two hosts.
#[derive(Clone, Copy)]
pub enum Wrong {
    Nothing,
    Missing,
    Exchanged,
    // They are those of another runtime, whose hosts have done nothing.
    Others,
}

// How many entries the place history and the work log have, or why they couldn't be had.
type Left = Result<(usize, usize), Fault>;

/// A runtime of two hosts, each of which enters an array on a queue of its own, and prints it.
pub fn acted<R: Wait>(rt: &R, alloc: Global) -> Result<(Runtime, Vec<HostToken>), Fault> {
    let config = config_of(alloc, 1, 2, 64)?;
    let (runtime, mut tokens) = Runtime::new(alloc, &config)?;
    for token in tokens.as_mut_slice() {
        let array = token.host().number();
        let create = entry_of(alloc, Clause::Create, array, i64::from(array))?;
        let _ = runtime.place(rt, token, &create)?;
        print(rt, alloc, &runtime, token, whole(array))?;
    }
    Ok((runtime, tokens))
}

// The queues of the device are closed, and each performs all that was placed on it.
fn perform_all<R: Wait>(rt: &R, runtime: &Runtime) {
    let _ = runtime.close(rt);
    serve_all(rt, runtime, &Open);
}

/// Tokens that are wrong in this way, in place of these.
pub fn made_wrong(
    alloc: Global,
    mut tokens: Vec<HostToken>,
    wrong: Wrong,
) -> Result<Vec<HostToken>, Fault> {
    match wrong {
        Wrong::Nothing => {}
        Wrong::Missing => {
            let _ = tokens.pop();
        }
        Wrong::Exchanged => tokens.reverse(),
        Wrong::Others => {
            let config = config_of(alloc, 1, 2, 64)?;
            let (_, others) = Runtime::new(alloc, &config)?;
            tokens = others;
        }
    }
    Ok(tokens)
}

fn finish(runtime: Runtime, tokens: Vec<HostToken>) -> Left {
    match runtime.finish(tokens) {
        Ok(outcome) => Ok((outcome.places.len(), entries(&outcome.works))),
        Err(refused) => Err(refused.fault),
    }
}

// What finishing answers with these tokens, once all is performed, or before.
fn left<R: Wait>(rt: &R, alloc: Global, wrong: Wrong, performed: bool) -> Result<Left, Fault> {
    let (runtime, tokens) = acted(rt, alloc)?;
    if performed {
        perform_all(rt, &runtime);
    }
    let tokens = made_wrong(alloc, tokens, wrong)?;
    Ok(finish(runtime, tokens))
}

/// Two directives, the closing and a close of each queue are accepted; two arrays are made and printed, and each close is performed.
const WHOLE: (usize, usize) = (3 + QUEUES as usize, 4 + QUEUES as usize);

#[test]
fn a_finished_run_leaves_both_histories(rt: HostRuntime) -> Result<(), Fail> {
    assert!(rt; left(&rt, rt.alloc(), Wrong::Nothing, true)? == Ok(WHOLE));
    Ok(())
}

#[test]
fn other_tokens_are_refused(rt: HostRuntime) -> Result<(), Fail> {
    for wrong in [Wrong::Missing, Wrong::Exchanged, Wrong::Others] {
        assert!(rt; left(&rt, rt.alloc(), wrong, true)? == Err(Fault::HostsDiffer));
    }
    Ok(())
}

// Also where the tokens are wrong.
#[test]
fn an_unfinished_run_is_told_first(rt: HostRuntime) -> Result<(), Fail> {
    for wrong in [Wrong::Nothing, Wrong::Missing, Wrong::Exchanged] {
        assert!(rt; left(&rt, rt.alloc(), wrong, false)? == Err(Fault::Unfinished));
    }
    Ok(())
}

/// What a run leaves, and whether it was finished at once: one that is unfinished comes back, performs what is left, and is finished then.
pub fn finish_later<R: Wait>(
    rt: &R,
    runtime: Runtime,
    tokens: Vec<HostToken>,
) -> Result<(bool, Outcome), Fault> {
    match runtime.finish(tokens) {
        Ok(outcome) => Ok((true, outcome)),
        Err(refused) => {
            if refused.fault != Fault::Unfinished {
                return Err(refused.fault);
            }
            perform_all(rt, &refused.runtime);
            match refused.runtime.finish(refused.tokens) {
                Ok(outcome) => Ok((false, outcome)),
                Err(refused) => Err(refused.fault),
            }
        }
    }
}

#[test]
fn a_run_comes_back_and_is_finished_later(rt: HostRuntime) -> Result<(), Fail> {
    let (runtime, tokens) = acted(&rt, rt.alloc())?;
    let (at_once, outcome) = finish_later(&rt, runtime, tokens)?;
    assert!(rt; !at_once);
    assert!(rt; (outcome.places.len(), entries(&outcome.works)) == WHOLE);
    Ok(())
}
