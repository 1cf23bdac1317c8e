//! The close of each queue, made with the place.

ghost use Rattle.std.specs.Prelude.{◌≡◌, ◌<◌, length, IfOk};
ghost use Rattle.acc_base.specs.Faults.{OnlyMemory};
ghost use Rattle.acc_base.specs.declared.ids.QueueAt.{QueueAt};
ghost use Rattle.acc_base.specs.Queues.{queue_count, seat};
ghost use Rattle.acc_place.specs.Histories.{IsQueue};
ghost use Rattle.acc_place.specs.inner.Places.{close_in, new_close};

use acc_base::{Config, Fault, Few, HostId, QueueAt, Shared};
use acc_batch::{Batch, Label, OpLabel};
use std::alloc::Global;

/// What a place keeps of a queue's close: its batch, unless that is out or placed, and its label, until that is placed.
#[derive(Drop)]
pub struct Close {
    pub batch: Option<Batch>,
    pub label: Option<Label>,
}

impl Close {
    fn new(alloc: Global, at: QueueAt) -> Result<Self, Fault>
        ensures new { IfOk result (λ c. c ≡ new_close at) }
        ensures fault { OnlyMemory result }
    {
        let mut ops = Few::new(alloc);
        ops.push(OpLabel::Close)?;
        let label = Label {
            at,
            number: 1,
            host: HostId::new(0),
            items_done: 0,
            ops: Shared::new(alloc, ops)?,
        };
        let copy = label.try_clone()?;
        let batch = Batch::new(alloc, copy)?;
        Ok(Close {
            batch: Some(batch),
            label: Some(label),
        })
    }
}

/// The closes of all queues of a configuration, by device, then in queue order.
///
/// # Errors
///
/// `Memory` where memory is refused.
pub(crate) fn closes_of(alloc: Global, config: &Config) -> Result<Vec<Close>, Fault>
    ensures count { IfOk result (λ closes. length closes.items ≡ queue_count config.now) }
    ensures new { IfOk result (λ closes. (at : QueueAt) → IsQueue config.now at
        → close_in closes.items at ≡ new_close at) }
    ensures fault { OnlyMemory result }
{
    let mut closes = Vec::new(alloc);
    for index in 0..config.queue_count() {
        closes.push(Close::new(alloc, QueueAt::at_seat(index))?)?;
    }
    Ok(closes)
}
