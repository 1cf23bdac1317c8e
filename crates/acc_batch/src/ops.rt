//! The operations of a batch, taken out one by one.

ghost use Rattle.std.specs.Prelude.{◌≡◌, [], ◌∷◌, length, reverse, slice_get, All, IfOk, IfSome, IfNone};
ghost use Rattle.std.specs.Option.{option_map};
ghost use Rattle.acc_base.specs.Faults.{OnlyMemory};
ghost use Rattle.acc_batch.specs.Ops.{first_loop, op_labels, HasItsCells, AllReady};

use crate::label::OpLabel;
use crate::op::Op;
use acc_base::{BlockId, Fault, Few, Listed, Range, Shared};
use acc_kernel::Kernel;
use std::alloc::Global;
use std::marker::Model;

/// The operations of a batch, in their order. Contracts see the list of them.
#[derive(Drop)]
pub struct Ops {
    // the next one last
    ops: Few<Op>,
}

impl Model for Ops {
    ghost use Rattle.std.specs.Prelude.{List, reverse};
    ghost use Rattle.std.specs.Coded.{codes};
    ghost use Rattle.acc_kernel.specs.contracts.expr.Expr as expr;
    ghost use Rattle.acc_batch.specs.declared.op.Op.{Op};

    ghost Value = { List Op };

    ghost coded = { Prim.hlevel (codes, expr.the_row.coded) };

    ghost view = { λ t. reverse t.ops };
}

impl Ops {
    /// No operation. Takes no memory.
    pub fn none(alloc: Global) -> Self
        ensures { result ≡ [] }
    {
        Ops {
            ops: Few::new(alloc),
        }
    }

    /// The operations of these labels, which have their cells, by `OpLabel::has_its_cells`.
    ///
    /// # Errors
    ///
    /// `Memory` where memory is refused.
    pub fn new(alloc: Global, labels: &[OpLabel]) -> Result<Self, Fault>
        requires { All HasItsCells labels.now }
        ensures ops { IfOk result (λ ops. op_labels ops ≡ labels.now) }
        ensures ready { IfOk result (λ ops. AllReady ops) }
        ensures fault { OnlyMemory result }
    {
        let ops = ops_of(alloc, labels)?;
        Ok(Ops { ops })
    }

    /// How many there are.
    pub fn len(&self) -> usize
        ensures { result ≡ length self.now }
    {
        self.ops.as_slice().len()
    }

    /// The next one.
    pub fn first(&self) -> Option<&Op>
        ensures next { option_map (λ t. t.now) result ≡ slice_get self.now 0 }
    {
        self.ops.as_slice().last()
    }

    /// The first loop among them, with what it uses.
    pub fn first_loop(&self) -> Option<(&Shared<Kernel>, &Shared<Listed<(BlockId, Range)>>)>
        ensures { option_map (λ l. (l.0.now, l.1.now)) result ≡ first_loop (op_labels self.now) }
    {
        for op in self.ops.as_slice().iter().rev() {
            if let Op::Run { kernel, uses } = op {
                return Some((kernel, uses));
            }
        }
        None
    }

    /// Takes the next one out. Takes no memory.
    pub fn take_next(&mut self) -> Option<Op>
        ensures next { IfSome result (λ t. self.old ≡ t ∷ self.new) }
        ensures none { IfNone result ((self.old ≡ []) × (self.new ≡ [])) }
    {
        self.ops.pop()
    }
}

// The operations of these labels, the next one last.
fn ops_of(alloc: Global, labels: &[OpLabel]) -> Result<Few<Op>, Fault>
    requires { All HasItsCells labels.now }
    ensures ops { IfOk result (λ ops. op_labels (reverse ops) ≡ labels.now) }
    ensures ready { IfOk result (λ ops. AllReady (reverse ops)) }
    ensures fault { OnlyMemory result }
{
    let mut ops = Few::new(alloc);
    for label in labels.iter().rev() {
        ops.push(Op::new(alloc, label)?)?;
    }
    Ok(ops)
}
