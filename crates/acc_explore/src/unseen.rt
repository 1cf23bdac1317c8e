//! Whether a queue's next operation is one that nobody sees.

ghost use Rattle.std.specs.Prelude.{◌≡◌, ◌<◌, ◌≤◌, IsTrue, false};
ghost use Rattle.acc_base.specs.declared.ids.TheConstants.{QUEUES};
ghost use Rattle.acc_core.specs.Machine.{labels_of};
ghost use Rattle.acc_explore.specs.UnseenOperations.{is_at_unseen, is_unseen, nobody_asks};
ghost use Rattle.acc_explore.specs.inner.Unseen.{GoesOn};
ghost use Rattle.acc_work.specs.Logs.{batches_done};

use acc_base::{QUEUES, QueueAt};
use acc_batch::OpLabel;
use acc_core::World;

// Whether an operation reads no cell, and writes those alone of a block that it makes.
fn is_unseen(op: &OpLabel) -> bool
    ensures { result ≡ is_unseen op.now }
{
    match op {
        OpLabel::Make { .. } | OpLabel::Release { .. } | OpLabel::Await { .. } => true,
        OpLabel::CopyIn { .. } | OpLabel::CopyOut { .. } | OpLabel::Run { .. } | OpLabel::Close =>
            false,
    }
}

/// Whether a queue has performed so many batches.
pub(crate) fn has_performed(world: &World, at: QueueAt, count: u64) -> bool
    ensures performed { IsTrue result
        → count ≤ batches_done (labels_of world.now) world.now.work at }
    ensures not_yet { result ≡ false → at.queue < QUEUES
        → batches_done (labels_of world.now) world.now.work at < count }
{
    let queue = usize::from(at.queue.number());
    if queue >= usize::from(QUEUES) {
        return false;
    }
    let mut counts = [0; QUEUES as usize];
    counts[queue] = count;
    world.reached(at.device, &counts)
}

/// Whether more of a batch is left behind the operation that a queue performs next.
pub(crate) fn goes_on(world: &World, at: QueueAt) -> bool
    ensures { IsTrue result → GoesOn world.now at }
{
    let QueueAt { device, queue } = at;
    let taken = world.taken(QueueAt { device, queue });
    world.ops_left(QueueAt { device, queue }) > 1
        && has_performed(world, QueueAt { device, queue }, taken.saturating_sub(1))
}

/// Whether a queue's next operation may go first: nobody sees it, it can be performed, and more of its batch is left, or no host asks
/// how far queues have come, now or later.
pub fn stands_unseen(world: &World, at: QueueAt, unasked: bool) -> bool
    requires { IsTrue unasked → IsTrue (nobody_asks world.now) }
    ensures { IsTrue result → IsTrue (is_at_unseen at world.now) }
{
    let QueueAt { device, queue } = at;
    let Some(op) = world.next_op(QueueAt { device, queue }) else {
        return false;
    };
    if !is_unseen(op) {
        return false;
    }
    if !world.enabled(QueueAt { device, queue }) {
        return false;
    }
    unasked || goes_on(world, QueueAt { device, queue })
}
