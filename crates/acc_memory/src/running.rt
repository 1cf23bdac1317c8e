//! Loops run over the blocks of a device.

ghost use Rattle.std.specs.Prelude.{◌≡◌, ℕ, ℤ, map};
ghost use Rattle.acc_kernel.specs.Jobs.{AreDistinct, HoldReached, computed};
ghost use Rattle.acc_memory.specs.Memories.{ShowsRows, HasRanges, SameBlocks, made_of};
ghost use Rattle.acc_memory.specs.Values.{Cell, after_op};

use crate::blocks::Blocks;
use crate::window::{commit_over, run_over};
use acc_base::{BlockId, Range};
use acc_kernel::{Job, Kernel};

impl Blocks {
    ghost use Rattle.acc_batch.specs.declared.label.OpLabel.TheVariants as op;

    /// Runs the loop over the blocks that it uses. Takes no memory.
    pub(crate) fn run(&mut self, kernel: &Kernel, uses: &[(BlockId, Range)])
        requires held { HasRanges (map made_of self.old) uses.now }
        requires distinct { AreDistinct uses.now }
        requires reached { HoldReached kernel.now uses.now }
        ensures shows { (device : ℕ) (was : Cell → ℤ) → ShowsRows device self.old was
            → ShowsRows device self.new (after_op device (op.Run kernel.now uses.now) was) }
        ensures blocks { SameBlocks (map made_of self.new) (map made_of self.old) }
    {
        self.keeps();
        run_over(self, uses, kernel);
    }

    /// Gives the blocks that a job uses what its loop gives them, as `run` does. Its outputs were computed, and serve where
    /// its inputs are what the blocks show. Takes no memory.
    pub(crate) fn commit(&mut self, job: &Job)
        requires computed { job.now.outputs ≡ computed job.now }
        requires held { HasRanges (map made_of self.old) job.now.uses }
        ensures shows { (device : ℕ) (was : Cell → ℤ) → ShowsRows device self.old was
            → ShowsRows device self.new (after_op device (op.Run job.now.kernel job.now.uses) was) }
        ensures blocks { SameBlocks (map made_of self.new) (map made_of self.old) }
    {
        self.keeps();
        job.keeps();
        commit_over(self, job);
    }
}
