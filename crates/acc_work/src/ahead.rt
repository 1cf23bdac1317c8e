//! A loop that a queue will come to, and room to compute it in.

ghost use Rattle.std.specs.Prelude.{◌≡◌, IfOk, IfSome};
ghost use Rattle.acc_kernel.specs.Jobs.{AreDistinct, HoldReached};

use acc_base::{BlockId, Fault, Listed, Range, Shared};
use acc_kernel::{Job, Kernel};
use std::alloc::Global;
use std::marker::Model;

/// A loop among what is left of a batch, with what it uses, shared.
#[derive(Drop)]
pub struct Ahead {
    kernel: Shared<Kernel>,
    uses: Shared<Listed<(BlockId, Range)>>,
}

impl Model for Ahead {
    ghost use Rattle.std.specs.Prelude.{List};
    ghost use Rattle.std.specs.Coded.{codes};
    ghost use Rattle.acc_kernel.specs.contracts.expr.Expr as expr;
    ghost use Rattle.acc_kernel.specs.Jobs.{AreDistinct, HoldReached, Use};
    ghost use Rattle.acc_kernel.specs.Kernels.{Loop};

    ghost Value = { Loop × List Use };

    ghost coded = { Prim.hlevel (codes, expr.the_row.coded) };

    ghost view = { λ a. (a.kernel, a.uses) };

    ghost invariant = { λ a. AreDistinct a.uses × HoldReached a.kernel a.uses };
}

impl Ahead {
    /// Shares a loop and its uses, which name each array at most once and have all cells that it reaches.
    ///
    /// # Errors
    ///
    /// `Memory` where they can't be shared.
    pub(crate) fn new(
        kernel: &Shared<Kernel>,
        uses: &Shared<Listed<(BlockId, Range)>>,
    ) -> Result<Self, Fault>
        requires distinct { AreDistinct uses.now }
        requires reached { HoldReached kernel.now uses.now }
        ensures { IfOk result (λ a. a ≡ (kernel.now, uses.now)) }
    {
        let kernel = kernel.try_clone()?;
        let uses = uses.try_clone()?;
        Ok(Ahead { kernel, uses })
    }

    /// Room for its inputs and outputs, in the memory of other room where that is as long. None where memory is refused.
    pub fn room(&self, alloc: Global, spare: Option<Box<Job>>) -> Option<Box<Job>>
        ensures { IfSome result (λ b. (b.value.kernel ≡ self.now.0) × (b.value.uses ≡ self.now.1)) }
    {
        self.made(alloc, spare).ok()
    }

    fn made(&self, alloc: Global, spare: Option<Box<Job>>) -> Result<Box<Job>, Fault>
        ensures { IfOk result (λ b. (b.value.kernel ≡ self.now.0) × (b.value.uses ≡ self.now.1)) }
    {
        match spare {
            None => Ok(Box::new(alloc, Job::new(alloc, &self.kernel, &self.uses)?)?),
            Some(job) => {
                if job.is_of(self.kernel.get(), self.uses.get().as_slice()) {
                    return Ok(job);
                }
                let job = Box::into_inner(job).renewed(alloc, &self.kernel, &self.uses)?;
                Ok(Box::new(alloc, job)?)
            }
        }
    }
}
