//! The labels of the batches on each queue of each device.

ghost use Rattle.std.specs.Prelude.{ℕ, All, ◌≡◌, ◌<◌, ◌≤◌, ◌++◌, [], ◌∷◌, length, slice_index_or, slice_set, IfOk, OnOk, OnErr, IfSome};
ghost use Rattle.acc_base.specs.Faults.{OnlyMemory};
ghost use Rattle.acc_base.specs.Queues.{queue_count, seat};
ghost use Rattle.acc_place.specs.inner.Places.{queue_in, queues_after};

use acc_base::{Config, Fault, QUEUES, QueueAt};
use acc_batch::Label;
use std::alloc::Global;
use std::marker::Model;

/// The labels of the batches on each queue of each device. Each queue has room for its close besides.
#[derive(Drop)]
pub struct Labels {
    // by device, then in queue order
    queues: Vec<Vec<Label>>,
}

impl Model for Labels {
    ghost use Rattle.std.specs.Prelude.{All, map, vec_capacity, ◌-◌, ◌<◌};
    ghost use Rattle.std.specs.Coded.{codes};
    ghost use Rattle.acc_kernel.specs.contracts.expr.Expr as expr;
    ghost use Rattle.acc_place.specs.inner.Places.{LabelsView};

    ghost Value = { LabelsView };

    ghost coded = { Prim.hlevel (codes, expr.the_row.coded) };

    ghost view = { λ w. record { queues = map (λ v. v.items) w.queues.items; room = map (λ v. vec_capacity v - 1) w.queues.items } };

    ghost invariant = { λ w. All (λ v. 0 < vec_capacity v) w.queues.items };
}

impl Labels {
    /// No labels of a run's queues.
    ///
    /// # Errors
    ///
    /// `Memory` where memory is refused.
    pub(crate) fn new(alloc: Global, config: &Config) -> Result<Self, Fault>
        ensures count { IfOk result (λ w. length w.queues ≡ queue_count config.now) }
        ensures none { IfOk result (λ w. All (λ labels. labels ≡ []) w.queues) }
        ensures fault { OnlyMemory result }
    {
        let mut queues = Vec::new(alloc);
        for _ in 0..config.queue_count() {
            queues.push(Vec::with_capacity(alloc, 1)?)?;
        }
        Ok(Labels { queues })
    }

    /// The labels of a queue's batches, in their order.
    pub(crate) fn on(&self, at: QueueAt) -> &[Label]
        ensures { result.now ≡ queue_in self.now.queues at }
    {
        if at.queue.number() >= QUEUES {
            return &[];
        }
        match self.queues.get(at.seat()) {
            Some(labels) => labels.as_slice(),
            None => &[],
        }
    }

    /// Makes room for one more label of a queue, where it is missing.
    ///
    /// # Errors
    ///
    /// `Memory` where memory is refused.
    pub(crate) fn spare(&mut self, at: QueueAt) -> Result<(), Fault>
        requires { seat at < length self.old.queues }
        ensures queues { self.new.queues ≡ self.old.queues }
        ensures room { (i : ℕ)
            → slice_index_or self.old.room i 0 ≤ slice_index_or self.new.room i 0 }
        ensures ok { OnOk result (length (slice_index_or self.new.queues
            (seat at) []) < slice_index_or self.new.room (seat at) 0) }
        ensures fault { OnlyMemory result }
        ensures missing { OnErr result
            (¬ (length (slice_index_or self.old.queues (seat at) []) < slice_index_or self.old.room
            (seat at) 0)) }
    {
        self.queues[at.seat()].reserve(2)?;
        Ok(())
    }

    /// Adds a label to its queue, which may be its close. Takes no memory.
    pub(crate) fn push(&mut self, label: Label)
        requires seat { seat label.at < length self.old.queues }
        requires room { length
            (slice_index_or self.old.queues (seat label.at) []) ≤ slice_index_or self.old.room
            (seat label.at) 0 }
        ensures queues { self.new.queues
            ≡ slice_set self.old.queues (seat label.at)
            (slice_index_or self.old.queues (seat label.at) [] ++ label ∷ []) }
        ensures room { self.new.room ≡ self.old.room }
    {
        let seat = label.at.seat();
        self.queues[seat].push_reserved(label);
    }
}

// Adds the label of a batch, if there is one.
pub(crate) fn push_label(labels: &mut Labels, label: Option<Label>)
    requires { IfSome label (λ l. (seat l.at < length labels.old.queues)
        × (length (slice_index_or labels.old.queues (seat l.at) []) < slice_index_or labels.old.room
        (seat l.at) 0)) }
    ensures queues { labels.new.queues ≡ queues_after labels.old.queues label }
    ensures room { labels.new.room ≡ labels.old.room }
{
    match label {
        None => {}
        Some(label) => labels.push(label),
    }
}
