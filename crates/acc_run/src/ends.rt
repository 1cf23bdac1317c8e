//! The ends of the queues of all devices.

ghost use Rattle.std.specs.Prelude.{◌≡◌, IfOk};
ghost use Rattle.acc_base.specs.Faults.{OnlyMemory};
ghost use Rattle.acc_run.specs.WorkSides.{AreEnds};

use acc_base::{Config, Fault, QueueAt};
use acc_queue::{Activity, Sender, Taker};
use std::alloc::Global;

/// The two ends of each queue of a configuration, by device, then in queue order.
///
/// # Errors
///
/// `Memory` where memory is refused.
pub(crate) fn ends_of(alloc: Global, config: &Config) -> Result<(Vec<Sender>, Vec<Taker>), Fault>
    ensures ends { IfOk result (λ r. AreEnds config.now r.0.items × AreEnds config.now r.1.items) }
    ensures fault { OnlyMemory result }
{
    config.keeps();
    let mut senders = Vec::new(alloc);
    let mut takers = Vec::new(alloc);
    for index in 0..config.queue_count() {
        let (sender, taker) = Activity::new(alloc, QueueAt::at_seat(index), config.room())?;
        senders.push(sender)?;
        takers.push(taker)?;
    }
    Ok((senders, takers))
}
