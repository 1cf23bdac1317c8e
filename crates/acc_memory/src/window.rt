//! The blocks of one device as a loop sees them, each by its array.

ghost use Rattle.std.specs.Prelude.{◌≡◌, ℕ, ℤ, IsTrue};
ghost use Rattle.acc_kernel.specs.Jobs.{HasUses, computed};
ghost use Rattle.acc_kernel.specs.Kernels.{Reaches, value_after};
ghost use Rattle.acc_memory.specs.inner.Windows.{window_has, window_cells, KeepsRows};
ghost use Rattle.acc_memory.specs.Values.{block_of};

use crate::blocks::Blocks;
use acc_base::{BlockId, Range};
use acc_kernel::{Job, Kernel, Window, distance};

/// The blocks of a device as a loop sees them: the cells of an array are those of the block that is used for it.
#[derive(Drop)]
struct LoopBlocks<'a> {
    blocks: &'a mut Blocks,
    uses: &'a [(BlockId, Range)],
}

/// Runs the loop over the blocks of these uses. Takes no memory.
pub(crate) fn run_over(blocks: &mut Blocks, uses: &[(BlockId, Range)], kernel: &Kernel)
    requires { (array : ℕ) (cell : ℤ) → Reaches kernel.now array cell
        → IsTrue (window_has blocks.old uses.now array cell) }
    ensures kept { KeepsRows uses.now blocks.old blocks.new }
    ensures cells { window_cells blocks.new uses.now
        ≡ value_after kernel.now (window_cells blocks.old uses.now) }
{
    let mut window = LoopBlocks { blocks, uses };
    run_all(kernel, &mut window);
}

// Runs the loop over what it sees, which stays the same blocks.
fn run_all(kernel: &Kernel, window: &mut LoopBlocks<'_>)
    requires { (array : ℕ) (cell : ℤ) → Reaches kernel.now array cell
        → IsTrue (window_has window.old.blocks.now window.old.uses.now array cell) }
    ensures same_reference { window.new.blocks.ghost_name ≡ window.old.blocks.ghost_name }
    ensures kept { KeepsRows window.old.uses.now window.old.blocks.now window.new.blocks.now }
    ensures cells { window_cells window.new.blocks.now window.old.uses.now
        ≡ value_after kernel.now (window_cells window.old.blocks.now window.old.uses.now) }
{
    kernel.run(window);
}

/// Gives the blocks that a job uses what its loop, which was computed, gives them. Takes no memory.
pub(crate) fn commit_over(blocks: &mut Blocks, job: &Job)
    requires computed { job.now.outputs ≡ computed job.now }
    requires has { HasUses job.now.uses (window_has blocks.old job.now.uses) }
    ensures kept { KeepsRows job.now.uses blocks.old blocks.new }
    ensures cells { window_cells blocks.new job.now.uses
        ≡ value_after job.now.kernel (window_cells blocks.old job.now.uses) }
{
    let mut window = LoopBlocks {
        blocks,
        uses: job.uses(),
    };
    commit_all(job, &mut window);
}

// Gives them to what it sees, which stays the same blocks.
fn commit_all(job: &Job, window: &mut LoopBlocks<'_>)
    requires computed { job.now.outputs ≡ computed job.now }
    requires has { HasUses job.now.uses (window_has window.old.blocks.now window.old.uses.now) }
    ensures same_reference { window.new.blocks.ghost_name ≡ window.old.blocks.ghost_name }
    ensures kept { KeepsRows window.old.uses.now window.old.blocks.now window.new.blocks.now }
    ensures cells { window_cells window.new.blocks.now window.old.uses.now
        ≡ value_after job.now.kernel (window_cells window.old.blocks.now window.old.uses.now) }
{
    job.commit(window);
}

// The block that is used for an array.
fn block_of(uses: &[(BlockId, Range)], array: u8) -> BlockId
    ensures { result ≡ block_of uses.now array }
{
    match uses {
        [] => BlockId::new(0),
        [(block, range), rest @ ..] => {
            if range.array == array {
                *block
            } else {
                block_of(rest, array)
            }
        }
    }
}

impl<'a> Window for LoopBlocks<'a> {
    ghost use Rattle.std.specs.Prelude.{◌≡◌, refl};
    ghost use Rattle.std.proofs.Common.{◌∙◌, sym, ap};
    ghost use Rattle.acc_memory.specs.inner.Windows.{window_has, window_cells, KeepsRows};
    ghost use Rattle.acc_memory.specs.Values.{block_of};

    ghost has = { λ w. window_has w.blocks.now w.uses.now };

    ghost cells = { λ w. window_cells w.blocks.now w.uses.now };

    ghost keeps = { λ w v. (v.blocks.ghost_name ≡ w.blocks.ghost_name) × (v.uses.now ≡ w.uses.now) × KeepsRows w.uses.now w.blocks.now v.blocks.now };

    fn get(&self, array: u8, cell: i64) -> i64 {
        let blocks = &*self.blocks;
        match blocks.get(block_of(self.uses, array)) {
            None => 0,
            Some(block) => block.cells.get(distance(cell, block.range.lo)),
        }
    }

    fn set(&mut self, array: u8, cell: i64, value: i64) {
        self.write(array, cell, &[value]);
    }

    fn read(&self, array: u8, first: i64, into: &mut [i64]) {
        let blocks = &*self.blocks;
        if let Some(block) = blocks.get(block_of(self.uses, array)) {
            block.cells.copy_to(distance(first, block.range.lo), into);
        }
    }

    fn has_values(&self, array: u8, first: i64, values: &[i64]) -> bool {
        let blocks = &*self.blocks;
        match blocks.get(block_of(self.uses, array)) {
            None => false,
            Some(block) => block
                .cells
                .has_values(distance(first, block.range.lo), values),
        }
    }

    fn write(&mut self, array: u8, first: i64, values: &[i64]) {
        let block = block_of(self.uses, array);
        let blocks = &mut *self.blocks;
        blocks.store(block, distance(first, 0), values);
    }

    ghost keeps_itself = { λ w. (refl, refl, record { blocks = λ n. refl; others = λ n row at apart. at }) };

    ghost keeps_on = { λ u v w e f. (
      f.0 ∙ e.0,
      f.1 ∙ e.1,
      record {
        blocks = λ n. f.2.blocks n ∙ e.2.blocks n;
        others = λ n row at apart. f.2.others n row (e.2.others n row at apart) (λ there. apart (ap (λ us. block_of us row.range.array) (sym e.1) ∙ there));
      },
    ) };
}
