//! A queue is had where memory is ample, and refused at each amount that isn't enough; and what a dropped one still
//! held is free again.

ghost use Rattle.std.specs.Prelude.{◌≡◌};
ghost use Rattle.test_threads.specs.Here.{here};

use crate::batches::{batch_of, here};
use acc_base::Fault;
use acc_queue::{Activity, Sender};
use std::alloc::Global;
use std::sync::Wait;
use std::test::Fail;
use tool_scarce::{Hoard, at_each_amount};

/// More batches than there is memory for.
const ROOM: u64 = 128;

#[test]
fn a_queue_is_refused_until_there_is_memory(rt: HostRuntime) -> Result<(), Fail> {
    let alloc = rt.alloc();
    let (refusals, _ends) = at_each_amount(alloc, || Activity::new(alloc, here(), 64))?;
    assert!(rt; 2 < refusals, "{refusals}");
    Ok(())
}

// Pushes batches until there is no memory for one more: how many.
fn push_all<R: Wait>(rt: &R, alloc: Global, sender: &mut Sender) -> u64
    requires { sender.old.at ≡ here }
{
    for number in 0..ROOM {
        match batch_of(alloc, 3 * number) {
            Ok(batch) => {
                let _ = sender.push(rt, batch);
            }
            Err(_) => return number,
        }
    }
    ROOM
}

// How many batches a new queue is given before memory is refused; then both its ends are dropped, in either order.
fn count_pushed<R: Wait>(rt: &R, alloc: Global, is_sender_first: bool) -> Result<u64, Fault> {
    let (mut sender, taker) = Activity::new(alloc, here(), ROOM as u32)?;
    let count = push_all(rt, alloc, &mut sender);
    if is_sender_first {
        drop(sender);
        drop(taker);
    } else {
        drop(taker);
        drop(sender);
    }
    Ok(count)
}

#[test]
fn what_a_dropped_queue_held_is_free_again(rt: HostRuntime) -> Result<(), Fail> {
    let alloc = rt.alloc();
    let mut hoard = Hoard::new(alloc)?;
    let spare: Vec<u8> = Vec::with_capacity(alloc, 120_000)?;
    hoard.fill(alloc);
    drop(spare);
    let first = count_pushed(&rt, alloc, true);
    let second = count_pushed(&rt, alloc, false);
    let third = count_pushed(&rt, alloc, true);
    hoard.free();
    let (first, second, third) = (first?, second?, third?);
    assert!(rt; 50 < first && first < ROOM, "{first}");
    // memory that wasn't given back would be missing here; what is in pieces may be
    assert!(rt;
        first / 2 < second && first / 2 < third,
        "{first}, {second}, {third}"
    );
    Ok(())
}
