//! Both ends in one thread: room, order, and an empty queue.

ghost use Rattle.std.specs.Prelude.{◌≡◌, IfOk, IfSome};
ghost use Rattle.acc_queue.specs.Tied.{IsFor};
ghost use Rattle.test_threads.specs.Here.{here};

use crate::batches::{batch_of, here, is_batch};
use acc_base::Fault;
use acc_batch::Batch;
use acc_queue::{Activity, Full, Sender, Taker};
use std::alloc::Global;
use std::process::Abort;
use std::sync::Wait;
use std::test::Fail;

// Pushes the batch with this number, for which there is room.
fn push<R: Wait + Abort>(
    rt: &R,
    alloc: Global,
    sender: &mut Sender,
    number: u64,
) -> Result<(), Fault>
    requires { sender.old.at ≡ here }
    ensures { sender.new.at ≡ here }
{
    let batch = batch_of(alloc, number)?;
    assert!(rt; sender.push(rt, batch).is_ok());
    Ok(())
}

// The batch with this number, for which there is no room, as it came back.
fn push_back<R: Wait>(
    rt: &R,
    alloc: Global,
    sender: &mut Sender,
    number: u64,
) -> Result<Option<Batch>, Fault>
    requires { sender.old.at ≡ here }
    ensures same { sender.new.at ≡ here }
    ensures back { IfOk result (λ back. IfSome back (IsFor here)) }
{
    match sender.push(rt, batch_of(alloc, number)?) {
        Ok(()) => Ok(None),
        Err((batch, Full)) => Ok(Some(batch)),
    }
}

// Pushes the batch that came back, for which there is room now.
fn push_again<R: Wait + Abort>(rt: &R, sender: &mut Sender, back: Option<Batch>)
    requires sender { sender.old.at ≡ here }
    requires back { IfSome back (IsFor here) }
{
    match back {
        Some(batch) => assert!(rt; sender.push(rt, batch).is_ok()),
        None => panic!(rt; "no batch came back"),
    }
}

// The next batch has this number.
fn check_next<R: Wait + Abort>(rt: &R, taker: &mut Taker, number: u64) {
    match taker.pop(rt) {
        Some(batch) => assert!(rt; is_batch(batch, number)),
        None => assert!(rt; false),
    }
}

// The next batches have these numbers, and there are no others.
fn check_all<R: Wait + Abort>(rt: &R, taker: &mut Taker, from: u64, to: u64) {
    for number in from..to {
        check_next(rt, taker, number);
    }
    assert!(rt; taker.pop(rt).is_none());
}

// The third batch finds no room beside two others, and room behind one.
fn check_full<R: Wait + Abort>(
    rt: &R,
    alloc: Global,
    sender: &mut Sender,
    taker: &mut Taker,
) -> Result<(), Fault>
    requires { sender.old.at ≡ here }
{
    push(rt, alloc, sender, 1)?;
    push(rt, alloc, sender, 2)?;
    let third = push_back(rt, alloc, sender, 3)?;
    check_next(rt, taker, 1);
    push_again(rt, sender, third);
    check_all(rt, taker, 2, 4);
    Ok(())
}

#[test]
fn a_full_queue_gives_the_batch_back(rt: HostRuntime) -> Result<(), Fail> {
    let (mut sender, mut taker) = Activity::new(rt.alloc(), here(), 2)?;
    Ok(check_full(&rt, rt.alloc(), &mut sender, &mut taker)?)
}

// An empty queue takes the batches of these numbers and no other one, and gives them back in order.
fn fill_and_empty<R: Wait + Abort>(
    rt: &R,
    alloc: Global,
    sender: &mut Sender,
    taker: &mut Taker,
    from: u64,
    to: u64,
) -> Result<(), Fault>
    requires { sender.old.at ≡ here }
    ensures { sender.new.at ≡ here }
{
    for number in from..to {
        push(rt, alloc, sender, number)?;
    }
    assert!(rt; push_back(rt, alloc, sender, 0)?.is_some());
    check_all(rt, taker, from, to);
    Ok(())
}

// A queue with this room has it twice.
fn check_room<R: Wait + Abort>(rt: &R, alloc: Global, room: u32) -> Result<(), Fault> {
    if room == 0 {
        return Ok(());
    }
    let (mut sender, mut taker) = Activity::new(alloc, here(), room)?;
    let many = u64::from(room);
    fill_and_empty(rt, alloc, &mut sender, &mut taker, 0, many)?;
    fill_and_empty(rt, alloc, &mut sender, &mut taker, many, 2 * many)
}

#[test]
fn queues_have_the_room_that_was_asked_for(rt: HostRuntime) -> Result<(), Fail> {
    for room in [1u32, 2, 64, 1_024] {
        check_room(&rt, rt.alloc(), room)?;
    }
    Ok(())
}
