//! The batches that a queue took, and what is left of the last one.

ghost use Rattle.std.specs.Prelude.{◌≡◌, ◌↔◌, nat_le, IsTrue, true, false, ◌<◌, ◌≤◌, [], ◌∷◌, ◌++◌, List, length, drop, slice_get, is_some, Some, IfSome, IfNone};
ghost use Rattle.std.specs.Option.{option_map};
ghost use Rattle.acc_batch.specs.declared.label.OpLabel.{OpLabel};
ghost use Rattle.acc_batch.specs.Ops.{first_loop, loop_of, op_label, op_labels, AllReady, IsReady};
ghost use Rattle.acc_work.specs.Lanes.{IsFresh, IsLoopNext, next_loop, lane_with_batch, lane_with_left, lane_with_out, last_of, lane_done};

use crate::ahead::Ahead;
use acc_base::{BlockId, Range};
use acc_batch::{Label, Op, Ops};
use acc_kernel::{Job, Kernel};
use acc_raw::{Chain, Node};
use std::alloc::Global;
use std::marker::Model;

/// The batches that a queue took, by their labels, and what is left of the last one.
#[derive(Drop)]
pub struct Lane {
    taken: Chain<Label>,
    // how many of them are performed, or the greatest number where they are more
    done: u64,
    left: Ops,
    // whether the next of them, a loop, is out
    out: bool,
}

impl Model for Lane {
    ghost use Rattle.std.specs.Coded.{codes};
    ghost use Rattle.acc_kernel.specs.contracts.expr.Expr as expr;
    ghost use Rattle.acc_batch.specs.Ops.{op_labels, AllReady};
    ghost use Rattle.acc_work.specs.Lanes.{LaneView};
    ghost use Rattle.acc_work.specs.inner.Lanes.{IsCounted};

    ghost Value = { LaneView };

    ghost coded = { Prim.hlevel (codes, expr.the_row.coded) };

    ghost view = { λ l. record { taken = l.taken; left = op_labels l.left; out = l.out } };

    ghost invariant = { λ l. AllReady l.left × IsCounted (record { taken = l.taken; left = op_labels l.left; out = l.out }) l.done };
}

impl Lane {
    pub(crate) fn new(alloc: Global) -> Self
        ensures { IsFresh result }
    {
        Lane {
            taken: Chain::new(alloc),
            done: 0,
            left: Ops::none(alloc),
            out: false,
        }
    }

    /// How many operations are left of the last batch.
    pub(crate) fn ops_left(&self) -> usize
        ensures { result ≡ length self.now.left }
    {
        self.left.len()
    }

    /// The next operation, with what performing it takes.
    pub(crate) fn first(&self) -> Option<&Op>
        ensures { option_map (λ t. op_label t.now) result ≡ slice_get self.now.left 0 }
    {
        self.left.first()
    }

    /// Whether the labels of those that were taken stand first among these, in this order.
    pub(crate) fn took_first(&self, labels: &[Label]) -> bool
        ensures { IsTrue result
            ↔ labels.now ≡ self.now.taken ++ drop (length self.now.taken) labels.now }
    {
        let mut behind = labels;
        for taken in self.taken.iter() {
            match behind.split_first() {
                None => return false,
                Some((label, rest)) => {
                    if !label.is_same(taken) {
                        return false;
                    }
                    behind = rest;
                }
            }
        }
        true
    }

    /// Those of some labels that stand behind as many as were taken.
    pub(crate) fn behind_taken<'a>(&self, labels: &'a [Label]) -> &'a [Label]
        ensures { result.now ≡ drop (length self.now.taken) labels.now }
    {
        let mut behind = labels;
        for _taken in self.taken.iter() {
            match behind.split_first() {
                None => return behind,
                Some((_, rest)) => behind = rest,
            }
        }
        behind
    }

    /// Whether so many of them are performed.
    pub(crate) fn reached(&self, count: u64) -> bool
        ensures { result ≡ nat_le count (lane_done self.now) }
    {
        count <= self.done
    }

    /// The last batch.
    pub(crate) fn last(&self) -> Option<&Label>
        ensures { option_map (λ l. l.now) result ≡ last_of self.now.taken }
    {
        self.taken.last()
    }

    /// Takes a batch, of which all is left, where nothing is left of the one before. It takes no memory.
    pub(crate) fn offer(&mut self, label: Node<Label>, ops: Ops)
        requires ops { op_labels ops ≡ label.ops }
        requires ready { AllReady ops }
        requires filled { 0 < length label.ops }
        requires empty { length self.old.left ≤ 0 }
        ensures { self.new ≡ lane_with_batch self.old label }
    {
        self.taken.push_back(label);
        self.left = ops;
        self.out = false;
    }

    /// Takes the next operation out, to be performed.
    pub(crate) fn next(&mut self) -> Option<Op>
        ensures next { IfSome result (λ t. (ops : List OpLabel) × (self.old.left ≡ op_label t ∷ ops)
            × (self.new ≡ lane_with_left self.old ops)) }
        ensures ready { IfSome result IsReady }
        ensures none { IfNone result ((self.old.left ≡ []) × (self.new ≡ self.old)) }
    {
        let next = self.left.take_next()?;
        self.out = false;
        if self.left.len() == 0 {
            self.done = self.done.saturating_add(1);
        }
        Some(next)
    }

    /// Whether the next operation is out.
    pub(crate) fn is_out(&self) -> bool
        ensures { result ≡ self.now.out }
    {
        self.out
    }

    /// The next operation, if it is a loop, with its uses.
    pub(crate) fn next_loop(&self) -> Option<(&Kernel, &[(BlockId, Range)])>
        ensures { option_map (λ l. (l.0.now, l.1.now)) result ≡ next_loop self.now.left }
    {
        match self.first() {
            None => None,
            Some(op) => loop_of(op),
        }
    }

    /// Whether the next operation is a loop.
    pub(crate) fn has_loop_next(&self) -> bool
        ensures { result ≡ is_some (next_loop self.now.left) }
    {
        self.next_loop().is_some()
    }

    /// The first loop that is left, with room to be made for it. None also where it can't be shared.
    pub(crate) fn ahead(&self) -> Option<Ahead>
        ensures { IfSome result (λ a. first_loop self.now.left ≡ Some a) }
    {
        let (kernel, uses) = self.left.first_loop()?;
        Ahead::new(kernel, uses).ok()
    }

    /// Takes the next operation, a loop, out.
    pub(crate) fn take_out(&mut self)
        ensures { self.new ≡ lane_with_out self.old true }
    {
        self.out = true;
    }

    /// Whether the next operation is a job's loop.
    pub(crate) fn is_next(&self, job: &Job) -> bool
        ensures { IsTrue result ↔ IsLoopNext job.now.kernel job.now.uses self.now.left }
    {
        match self.next_loop() {
            None => false,
            Some((kernel, uses)) => job.is_of(kernel, uses),
        }
    }

    /// Takes back what was out.
    pub(crate) fn put_back(&mut self)
        ensures { self.new ≡ lane_with_out self.old false }
    {
        self.out = false;
    }
}

// The loop that an operation is, with its uses.
fn loop_of(op: &Op) -> Option<(&Kernel, &[(BlockId, Range)])>
    ensures { option_map (λ l. (l.0.now, l.1.now)) result ≡ loop_of (op_label op.now) }
{
    match op {
        Op::Run { kernel, uses } => Some((kernel.get(), uses.get().as_slice())),
        Op::Make { .. } | Op::CopyIn { .. } | Op::CopyOut { .. } | Op::Release { .. } => None,
        Op::Await { .. } | Op::Close => None,
    }
}
