//! Each call is refused for want of memory, at each amount in turn, until there is enough; a token then lists what was done, once. What was
//! placed is performed without any; and what a dropped runtime held is free again.

use crate::abandon::{ALL, served};
use crate::finish::finish_later;
use crate::fixtures::{config_of, entries, entry_of, print, queue, whole};
use acc_base::{DeviceId, Fault};
use acc_place::Clause;
use acc_run::{HostToken, Runtime};
use std::alloc::Global;
use std::sync::Wait;
use std::test::Fail;
use tool_directives::counts_of;
use tool_scarce::{Hoard, at_each_amount};

// A runtime whose queues have room for two batches, with the token of its one host.
fn runtime_of(alloc: Global) -> Result<(Runtime, HostToken), Fault> {
    let config = config_of(alloc, 1, 1, 2)?;
    let (runtime, mut tokens) = Runtime::new(alloc, &config)?;
    match tokens.pop() {
        Some(token) => Ok((runtime, token)),
        None => Err(Fault::Unfinished),
    }
}

#[test]
fn a_runtime_is_refused_until_there_is_memory(rt: HostRuntime) -> Result<(), Fail> {
    let alloc = rt.alloc();
    let (refusals, (_, token)) = at_each_amount(alloc, || runtime_of(alloc))?;
    assert!(rt; 1 < refusals);
    assert!(rt; token.entries().is_empty());
    Ok(())
}

#[test]
fn a_directive_is_refused_until_there_is_memory(rt: HostRuntime) -> Result<(), Fail> {
    let alloc = rt.alloc();
    let (runtime, mut token) = runtime_of(alloc)?;
    let create = entry_of(alloc, Clause::Create, 0, 1)?;
    let (refusals, placed) = at_each_amount(alloc, || runtime.place(&rt, &mut token, &create))?;
    assert!(rt; 1 < refusals);
    assert!(rt; placed.batch == Some((queue(3), 1)));
    assert!(rt; token.entries().len() == 1);
    Ok(())
}

#[test]
fn a_wait_is_refused_until_there_is_memory(rt: HostRuntime) -> Result<(), Fail> {
    let alloc = rt.alloc();
    let (runtime, mut token) = runtime_of(alloc)?;
    let device = DeviceId::new(0);
    let (refusals, ()) = at_each_amount(alloc, || {
        runtime.wait_for(&rt, &mut token, device, counts_of(&[]))
    })?;
    assert!(rt; 0 < refusals);
    assert!(rt; token.items() == 1);
    Ok(())
}

#[test]
fn an_item_is_refused_until_there_is_memory(rt: HostRuntime) -> Result<(), Fail> {
    let alloc = rt.alloc();
    let (runtime, mut token) = runtime_of(alloc)?;
    let (refusals, ()) = at_each_amount(alloc, || {
        print(&rt, alloc, &runtime, &mut token, whole(0))
    })?;
    assert!(rt; 1 < refusals);
    assert!(rt; token.items() == 1);
    Ok(())
}

/// Eight batches of two operations, and a close of each queue, of which three were performed: no request for memory is granted behind the
/// last of them, and the run comes back, goes on and is finished.
#[test]
fn what_was_placed_is_performed_without_memory(rt: HostRuntime) -> Result<(), Fail> {
    let alloc = rt.alloc();
    let (runtime, tokens) = served(&rt, alloc, 8, 3)?;
    let mut hoard = Hoard::new(alloc)?;
    hoard.fill(alloc);
    let answer = finish_later(&rt, runtime, tokens);
    hoard.free();
    let (at_once, outcome) = answer?;
    assert!(rt; !at_once);
    assert!(rt; entries(&outcome.works) == ALL);
    Ok(())
}

// Drops many runtimes, with their tokens and what is present, printed, performed and left in queues.
fn drop_many<R: Wait>(rt: &R, alloc: Global) -> Result<(), Fault> {
    for run in 0..300u64 {
        let (runtime, mut tokens) = served(rt, alloc, 4, run % 9)?;
        for token in tokens.as_mut_slice() {
            print(rt, alloc, &runtime, token, whole(0))?;
        }
    }
    Ok(())
}

/// There is memory for one at a time.
#[test]
fn what_a_dropped_runtime_held_is_free_again(rt: HostRuntime) -> Result<(), Fail> {
    let alloc = rt.alloc();
    let (refusals, ()) = at_each_amount(alloc, || drop_many(&rt, alloc))?;
    assert!(rt; 1 < refusals);
    Ok(())
}
