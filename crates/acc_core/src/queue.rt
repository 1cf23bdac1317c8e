//! The batches that a queue holds.

ghost use Rattle.std.specs.Prelude.{◌≡◌, ◌==◌, true, [], ◌∷◌, List, All, length, IfOk, IfSome, IfNone, OnOk, OnErr};
ghost use Rattle.acc_base.specs.Faults.{OnlyMemory};
ghost use Rattle.acc_base.specs.Queues.{queue_count};
ghost use Rattle.acc_batch.specs.declared.label.Label.{Label};
ghost use Rattle.acc_core.specs.inner.Queues.{empty_queue, held_with, queue_in};

use acc_base::{Config, DeviceId, Fault, QUEUES, QueueAt, QueueId};
use acc_batch::Batch;
use std::alloc::Global;
use std::collections::VecDeque;
use std::marker::Model;

/// The batches of a queue that were placed and not taken. Until its close it has a place for one more, so that closing takes no memory.
#[derive(Drop)]
pub struct Queue {
    batches: VecDeque<Batch>,
}

impl Model for Queue {
    ghost use Rattle.std.specs.Coded.{codes};
    ghost use Rattle.std.specs.Prelude.{nat_lt, length};
    ghost use Rattle.std.specs.VecDeque.{deque_capacity};
    ghost use Rattle.acc_core.specs.inner.Queues.{QueueView};
    ghost use Rattle.acc_kernel.specs.contracts.expr.Expr as expr;

    ghost Value = { QueueView };

    ghost coded = { Prim.hlevel (codes, expr.the_row.coded) };

    ghost view = { λ q. record { held = q.batches.items; has_place = nat_lt (length q.batches.items) (deque_capacity q.batches) } };
}

impl Queue {
    /// Without a batch.
    ///
    /// # Errors
    ///
    /// `Memory` where memory is refused.
    pub(crate) fn new(alloc: Global) -> Result<Self, Fault>
        ensures empty { IfOk result (λ queue. queue ≡ empty_queue) }
        ensures fault { OnlyMemory result }
    {
        let batches = VecDeque::with_capacity(alloc, 1)?;
        Ok(Queue { batches })
    }

    /// How many batches it holds.
    pub(crate) fn len(&self) -> usize
        ensures { result ≡ length self.now.held }
    {
        self.batches.len()
    }

    /// Puts a directive's batch behind the others.
    ///
    /// # Errors
    ///
    /// `Memory` where memory is refused. The queue is as it was then.
    pub(crate) fn push(&mut self, batch: Batch) -> Result<(), Fault>
        requires { self.old.has_place ≡ true }
        ensures pushed { OnOk result
            (self.new ≡ record { held = held_with self.old batch; has_place = true }) }
        ensures kept { OnErr result (self.new ≡ self.old) }
        ensures fault { OnlyMemory result }
    {
        self.batches.reserve(2)?;
        self.batches.push_back_reserved(batch);
        Ok(())
    }

    /// Puts the last batch, its close, behind the others. It takes no memory.
    pub(crate) fn push_last(&mut self, batch: Batch)
        requires { self.old.has_place ≡ true }
        ensures { self.new.held ≡ held_with self.old batch }
    {
        self.batches.push_back_reserved(batch);
    }

    /// Takes the first batch out.
    pub(crate) fn pop(&mut self) -> Option<Batch>
        ensures next { IfSome result (λ batch. (held : List Label) × (self.old.held ≡ batch ∷ held)
            × (self.new ≡ record { held = held; has_place = true })) }
        ensures none { IfNone result ((self.old.held ≡ []) × (self.new ≡ self.old)) }
    {
        self.batches.pop_front()
    }
}

/// Whether a queue holds no batch. One that isn't there holds none.
pub(crate) fn holds_none(queues: &[Queue], at: QueueAt) -> bool
    ensures { result ≡ (length (queue_in queues.now at).held == 0) }
{
    if at.queue.number() >= QUEUES {
        return true;
    }
    match queues.get(at.seat()) {
        None => true,
        Some(queue) => queue.len() == 0,
    }
}

/// So many queues as all devices of a configuration have, without a batch.
///
/// # Errors
///
/// `Memory` where memory is refused.
pub(crate) fn queues_of(alloc: Global, config: &Config) -> Result<Vec<Queue>, Fault>
    ensures count { IfOk result (λ queues. length queues.items ≡ queue_count config.now) }
    ensures empty { IfOk result (λ queues. All (λ queue. queue ≡ empty_queue) queues.items) }
    ensures fault { OnlyMemory result }
{
    let mut queues = Vec::new(alloc);
    for _ in 0..config.queue_count() {
        queues.push(Queue::new(alloc)?)?;
    }
    Ok(queues)
}
