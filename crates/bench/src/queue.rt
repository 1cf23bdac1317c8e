//! Batches that go round between two threads, through a queue each way.

ghost use Rattle.std.specs.Prelude.{◌≡◌, IfOk};
ghost use Rattle.std.specs.List.{All};
ghost use Rattle.acc_queue.specs.Tied.{IsFor};
ghost use Rattle.bench.specs.Here.{here};

use acc_base::{DeviceId, Fault, Few, HostId, QueueAt, QueueId, Shared};
use acc_batch::{Batch, Label, OpLabel};
use acc_queue::{Activity, Sender, Taker};
use std::alloc::Global;
use std::fmt::{Display, Formatter, Write};
use std::sync::Wait;
use std::thread::Threads;
use std::{fmt, thread};

/// The room that is taken where none is said.
pub const ROOM: u32 = 64;

/// How often a batch crossed from one thread to the other, and how often it found no room.
#[derive(Clone, Copy)]
pub struct Crossings {
    crossed: u64,
    refused: u64,
}

impl Display for Crossings {
    fn fmt<W: Write>(&self, f: &mut Formatter<W>) -> fmt::Result {
        let Crossings { crossed, refused } = self;
        write!(f, "crossed {crossed} refused {refused}")
    }
}

// The name of both queues: what comes out of either may be placed on the other.
fn here() -> QueueAt
    ensures { result ≡ here }
{
    QueueAt::sync(DeviceId::new(0))
}

// A batch that awaits another queue's.
fn batch_of(alloc: Global, number: u64) -> Result<Batch, Fault>
    ensures { IfOk result (IsFor here) }
{
    let mut ops = Few::new(alloc);
    ops.push(OpLabel::Await {
        queue: QueueId::new(1),
        number,
    })?;
    let label = Label {
        at: here(),
        number,
        host: HostId::new(0),
        items_done: 0,
        ops: Shared::new(alloc, ops)?,
    };
    if label.ops.get().as_slice().is_empty() || !label.has_its_cells() {
        return Err(Fault::Unfinished);
    }
    Batch::new(alloc, label)
}

// So many batches.
fn batches_of(alloc: Global, count: u32) -> Result<Vec<Batch>, Fault>
    ensures { IfOk result (λ batches. All (IsFor here) batches.items) }
{
    let mut batches = Vec::new(alloc);
    for number in 0..count {
        batches.push(batch_of(alloc, u64::from(number))?)?;
    }
    Ok(batches)
}

// The next batch, once it is there.
fn pop<R: Wait>(rt: &R, taker: &mut Taker) -> Batch
    requires { taker.old.at ≡ here }
    ensures taker { taker.new.at ≡ here }
    ensures batch { IsFor here result }
{
    for _ in rt.forever() {
        if let Some(batch) = taker.pop(rt) {
            return batch;
        }
        thread::yield_now();
    }
    unreachable!()
}

// The last of these batches; where there is none, the next that comes back.
fn next_of<R: Wait>(rt: &R, batches: &mut Vec<Batch>, back: &mut Taker) -> Batch
    requires batches { All (IsFor here) batches.old.items }
    requires back { back.old.at ≡ here }
    ensures batches { All (IsFor here) batches.new.items }
    ensures back { back.new.at ≡ here }
    ensures batch { IsFor here result }
{
    match batches.pop() {
        Some(batch) => batch,
        None => pop(rt, back),
    }
}

// Sends these batches, and then each that comes back, so many in all.
fn send_round<R: Wait>(
    rt: &R,
    mut sender: Sender,
    mut back: Taker,
    mut batches: Vec<Batch>,
    times: u32,
) -> Crossings
    requires sender { sender.at ≡ here }
    requires back { back.at ≡ here }
    requires batches { All (IsFor here) batches.items }
{
    let mut crossings = Crossings {
        crossed: 0,
        refused: 0,
    };
    for _ in 0..times {
        let batch = next_of(rt, &mut batches, &mut back);
        match sender.push(rt, batch) {
            Ok(()) => crossings.crossed = crossings.crossed.wrapping_add(1),
            Err(_) => crossings.refused = crossings.refused.wrapping_add(1),
        }
    }
    crossings
}

// Sends each batch back that comes, so many in all.
fn send_back<R: Wait>(rt: &R, mut taker: Taker, mut sender: Sender, times: u32)
    requires taker { taker.at ≡ here }
    requires sender { sender.at ≡ here }
{
    for _ in 0..times {
        let _ = sender.push(rt, pop(rt, &mut taker));
    }
}

/// Sends as many batches as there is room for to another thread and back, so many times in all.
///
/// # Errors
///
/// `Memory` where memory is refused.
pub fn crossings_of<R: Threads + Wait + Sync>(
    rt: &R,
    alloc: Global,
    room: u32,
    times: u32,
) -> Result<Crossings, Fault> {
    let room = room.max(1);
    let batches = batches_of(alloc, room)?;
    let (there, taker) = Activity::new(alloc, here(), room)?;
    let (sender, back) = Activity::new(alloc, here(), room)?;
    let (crossings, ()) = thread::join(
        rt,
        move || send_round(rt, there, back, batches, times),
        move || send_back(rt, taker, sender, times),
    );
    Ok(crossings)
}
