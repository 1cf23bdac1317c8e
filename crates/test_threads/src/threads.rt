//! A thread that places batches, and one that takes them.

ghost use Rattle.std.specs.Prelude.{◌≡◌, IfOk};
ghost use Rattle.std.specs.List.{All};
ghost use Rattle.acc_queue.specs.Tied.{IsFor};
ghost use Rattle.test_threads.specs.Here.{here};

use crate::batches::{batch_of, here, is_batch};
use acc_base::Fault;
use acc_batch::Batch;
use acc_queue::{Activity, Full, Sender, Taker};
use std::alloc::Global;
use std::sync::Wait;
use std::test::Fail;
use std::thread;
use std::thread::Threads;

/// How many batches cross.
const MANY: u64 = 10_000;

// These batches, the first one last.
fn batches_of(alloc: Global) -> Result<Vec<Batch>, Fault>
    ensures { IfOk result (λ batches. All (IsFor here) batches.items) }
{
    let mut batches = Vec::with_capacity(alloc, MANY as usize)?;
    for number in (0..MANY).rev() {
        batches.push(batch_of(alloc, number)?)?;
    }
    Ok(batches)
}

// Pushes it, as often as it takes.
fn push<R: Wait>(rt: &R, sender: &mut Sender, batch: Batch)
    requires sender { sender.old.at ≡ here }
    requires batch { IsFor here batch }
    ensures { sender.new.at ≡ here }
{
    let mut left = batch;
    for _ in rt.forever() {
        match sender.push(rt, left) {
            Ok(()) => return,
            Err((batch, Full)) => left = batch,
        }
        thread::yield_now();
    }
}

// Pushes these, the last one first.
fn push_all<R: Wait>(rt: &R, mut sender: Sender, mut batches: Vec<Batch>)
    requires sender { sender.at ≡ here }
    requires batches { All (IsFor here) batches.items }
{
    for _ in 0..MANY {
        if let Some(batch) = batches.pop() {
            push(rt, &mut sender, batch);
        }
    }
}

// The next batch, once it is there.
fn pop<R: Wait>(rt: &R, taker: &mut Taker) -> Batch {
    for _ in rt.forever() {
        if let Some(batch) = taker.pop(rt) {
            return batch;
        }
        thread::yield_now();
    }
    unreachable!()
}

// Whether each of these batches came where it was due.
fn take_all<R: Wait>(rt: &R, mut taker: Taker) -> bool {
    let mut in_order = true;
    for number in 0..MANY {
        if !is_batch(pop(rt, &mut taker), number) {
            in_order = false;
        }
    }
    in_order
}

// Whether each batch came where it was due, through a queue with this room.
fn exchange<R: Threads + Wait + Sync>(rt: &R, alloc: Global, room: u32) -> Result<bool, Fault> {
    if room == 0 {
        return Ok(false);
    }
    let batches = batches_of(alloc)?;
    let (sender, taker) = Activity::new(alloc, here(), room)?;
    let ((), in_order) = thread::join(
        rt,
        move || push_all(rt, sender, batches),
        move || take_all(rt, taker),
    );
    Ok(in_order)
}

#[test]
fn batches_cross_in_order_and_once(rt: HostRuntime) -> Result<(), Fail> {
    for room in [1u32, 4, 1_024] {
        assert!(rt; exchange(&rt, rt.alloc(), room)?);
    }
    Ok(())
}
