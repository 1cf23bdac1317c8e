//! A batch: contracts see its label.

ghost use Rattle.std.specs.Prelude.{◌≡◌, ◌<◌, length, IfOk};
ghost use Rattle.std.specs.List.{All};
ghost use Rattle.acc_base.specs.Faults.{OnlyMemory};
ghost use Rattle.acc_batch.specs.Ops.{op_labels, HasItsCells, AllReady};
ghost use Rattle.acc_batch.specs.Pages.{HasRoomFor};

use crate::label::Label;
use crate::ops::Ops;
use crate::page::Page;
use acc_base::Fault;
use acc_raw::Node;
use std::alloc::Global;
use std::marker::Model;

/// A batch in a queue: its label, the operations that the label describes, and a page with room for what the log will tell of
/// them, all in memory of their own. Contracts see the label.
#[derive(Drop)]
pub struct Batch {
    label: Node<Label>,
    ops: Ops,
    page: Node<Page>,
}

impl Model for Batch {
    ghost use Rattle.std.specs.Prelude.{◌≡◌, length};
    ghost use Rattle.std.specs.Coded.{codes};
    ghost use Rattle.acc_kernel.specs.contracts.expr.Expr as expr;
    ghost use Rattle.acc_batch.specs.declared.label.Label.{Label};
    ghost use Rattle.acc_batch.specs.Ops.{op_labels, AllReady};
    ghost use Rattle.acc_batch.specs.Pages.{HasRoomFor};

    ghost Value = { Label };

    ghost coded = { Prim.hlevel (codes, expr.the_row.coded) };

    ghost view = { λ b. b.label };

    ghost invariant = { λ b. (op_labels b.ops ≡ b.label.ops) × AllReady b.ops × HasRoomFor b.page (length b.label.ops) };
}

impl Batch {
    /// The batch of a label, with the memory that performing it needs. The label has an operation, and its operations
    /// have their cells, by `Label::has_its_cells`.
    ///
    /// # Errors
    ///
    /// `Memory` where memory is refused.
    pub fn new(alloc: Global, label: Label) -> Result<Self, Fault>
        requires operation { 0 < length label.ops }
        requires cells { All HasItsCells label.ops }
        ensures label { IfOk result (λ b. b ≡ label) }
        ensures fault { OnlyMemory result }
    {
        let ops = Ops::new(alloc, label.ops.get().as_slice())?;
        let page = Page::new(alloc, ops.len())?;
        match Node::new(alloc, label) {
            Ok(label) => Ok(Batch { label, ops, page }),
            Err((_, fault)) => Err(fault),
        }
    }

    /// Its plain description.
    pub fn label(&self) -> &Label
        ensures { result.now ≡ self.now }
    {
        self.label.value()
    }

    /// Gives the label this number. It changes nothing else, and takes no memory.
    pub fn renumber(&mut self, number: u64)
        ensures { self.new ≡ record self.old { number = number } }
    {
        let label = self.label.value_mut();
        label.number = number;
    }

    /// Its operations, in their order.
    pub fn ops(&self) -> &Ops
        ensures ops { op_labels result.now ≡ self.now.ops }
        ensures ready { AllReady result.now }
    {
        &self.ops
    }

    /// Its label, its operations, in their order, and a page of the log with room for them.
    pub fn into_parts(self) -> (Node<Label>, Ops, Node<Page>)
        ensures label { result.0 ≡ self }
        ensures ops { op_labels result.1 ≡ self.ops }
        ensures ready { AllReady result.1 }
        ensures page { HasRoomFor result.2 (length self.ops) }
    {
        let Batch { label, ops, page } = self;
        (label, ops, page)
    }
}
