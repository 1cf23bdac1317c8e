//! The blocks of one device.

ghost use Rattle.std.specs.Prelude.{◌≡◌, ◌+◌, ◌-◌, ◌<◌, ◌≤◌, ℕ, ℤ, pos, [], length, map, replicate, is_some, true, None, Some, IfSome, IfOk};
ghost use Rattle.std.specs.Option.{option_copied, option_map};
ghost use Rattle.acc_base.specs.Faults.{OnlyMemory};
ghost use Rattle.acc_kernel.specs.Jobs.{read_uses, shown};
ghost use Rattle.acc_memory.specs.Memories.{Row, ShowsRows, ShowsArray, HasRange, HasRanges, SameBlocks, IsCopy, made_of, blocks_after, find_row, find_block, has_cell, is_whole, row_cell, row_has};
ghost use Rattle.acc_memory.specs.Values.{Cell, after_op, cells_by, is_in};
ghost use Rattle.acc_memory.specs.inner.Rows.{AreWhole, HasRoom, IsSetAt, range_values, stored};

use crate::buckets::Buckets;
use acc_base::{BlockId, Fault, Range};
use acc_batch::Block;
use acc_kernel::Job;
use acc_raw::{Cells, Node};
use std::alloc::Global;
use std::marker::Model;

/// The blocks of a device, each with as many cells as its range. Contracts see a row for each.
#[derive(Drop)]
pub struct Blocks {
    buckets: Buckets<Block>,
}

impl Model for Blocks {
    ghost use Rattle.std.specs.Prelude.{List};
    ghost use Rattle.acc_memory.specs.Memories.{Row};
    ghost use Rattle.acc_memory.specs.inner.Rows.{AreWhole};

    ghost Value = { List Row };

    ghost view = { λ b. b.buckets };

    ghost invariant = { λ b. AreWhole b.buckets };
}

impl Blocks {
    ghost use Rattle.acc_batch.specs.declared.label.OpLabel.TheVariants as op;

    /// No block, and room to spread blocks over chains up to this one.
    ///
    /// # Errors
    ///
    /// `Memory` where memory is refused.
    pub(crate) fn new(alloc: Global, last: u16) -> Result<Self, Fault>
        ensures rows { IfOk result (λ b. b ≡ []) }
        ensures fault { OnlyMemory result }
    {
        let buckets = Buckets::new(alloc, last)?;
        Ok(Blocks { buckets })
    }

    /// The block of this number, if it is there.
    pub(crate) fn get(&self, block: BlockId) -> Option<&Block>
        ensures { option_copied result ≡ find_row self.now block }
    {
        self.buckets.get(block.number())
    }

    /// What a cell of a block holds, if the block is there and has the cell.
    pub(crate) fn cell(&self, block: BlockId, cell: u32) -> Option<i64>
        ensures there { is_some result ≡ has_cell (find_block (map made_of self.now) block) cell }
        ensures held { is_some result ≡ row_has (find_row self.now block) cell }
        ensures value { IfSome result (λ x. x ≡ row_cell (find_row self.now block) cell) }
    {
        self.keeps();
        match self.get(block) {
            None => None,
            Some(held) => cell_in(held, cell),
        }
    }

    /// Writes some cells of a block, if it is there, side by side from one on, which is named by its number in the host array. Takes no
    /// memory.
    pub(crate) fn store(&mut self, block: BlockId, first: usize, values: &[i64])
        requires { (row : Row) → find_row self.old block ≡ Some row
            → HasRoom row first (length values.now) }
        ensures { IsSetAt block
            (option_map (λ row. stored row (first - row.range.lo) values.now)
            (find_row self.old block)) self.old self.new }
    {
        self.buckets.store(block.number(), first, values);
    }

    /// Takes in a block whose cells are all zero. Takes no memory.
    pub(crate) fn make(&mut self, block: Node<Block>)
        requires fresh { find_block (map made_of self.old) block.block ≡ None }
        requires zeros { block.cells ≡ replicate block.range.len (pos 0) }
        ensures shows { (device : ℕ) (was : Cell → ℤ) → ShowsRows device self.old was
            → ShowsRows device self.new (after_op device (op.Make block.range block.block) was) }
        ensures blocks { SameBlocks (map made_of self.new)
            (blocks_after (op.Make block.range block.block) (map made_of self.old)) }
    {
        self.buckets.put(block);
    }

    /// Copies the range's cells, of which there is one, from the host array into the block. Takes no memory.
    pub(crate) fn copy_in(&mut self, block: BlockId, range: Range, cells: &[i64])
        requires held { HasRange (map made_of self.old) block range }
        requires some { 0 < range.len }
        requires array { range.lo + range.len ≤ length cells.now }
        ensures shows { (device : ℕ) (was : Cell → ℤ) → ShowsArray range.array cells.now was
            → ShowsRows device self.old was
            → ShowsRows device self.new (after_op device (op.CopyIn range block) was) }
        ensures blocks { SameBlocks (map made_of self.new) (map made_of self.old) }
    {
        self.keeps();
        let first = range.lo as usize;
        self.store(block, first, &cells[first..first + range.len as usize]);
    }

    /// Copies the range's cells, of which there is one, from the block into the host array.
    pub(crate) fn copy_out(&self, block: BlockId, range: Range, cells: &mut [i64])
        requires held { HasRange (map made_of self.now) block range }
        requires some { 0 < range.len }
        requires array { range.lo + range.len ≤ length cells.old }
        ensures shows { (device : ℕ) (was : Cell → ℤ) → ShowsArray range.array cells.old was
            → ShowsRows device self.now was
            → ShowsArray range.array cells.new (after_op device (op.CopyOut range block) was) }
        ensures len { length cells.new ≡ length cells.old }
    {
        self.keeps();
        match self.get(block) {
            None => (),
            Some(held) => copy_cells(
                &held.cells,
                (range.lo - held.range.lo) as usize,
                cells,
                range.lo as usize,
                range.len as usize,
            ),
        }
    }

    /// Lets the block go.
    pub(crate) fn release(&mut self, block: BlockId)
        requires held { is_some (find_block (map made_of self.old) block) ≡ true }
        ensures shows { (device : ℕ) (was : Cell → ℤ) → ShowsRows device self.old was
            → ShowsRows device self.new (after_op device (op.Release block) was) }
        ensures blocks { SameBlocks (map made_of self.new)
            (blocks_after (op.Release block) (map made_of self.old)) }
    {
        self.buckets.remove(block.number());
    }

    /// Makes a job's inputs the values of what it reads of the blocks that it uses. Takes no memory.
    pub(crate) fn load(&self, job: &mut Job)
        requires { HasRanges (map made_of self.now) job.old.uses }
        ensures { (device : ℕ) (was : Cell → ℤ) → ShowsRows device self.now was
            → job.new ≡ record job.old {
              inputs = shown (read_uses job.old.kernel job.old.uses)
                  (cells_by job.old.uses device was);
            } }
    {
        job.keeps();
        for place in 0..job.read_uses().len() {
            let used = job.read_uses()[place];
            job.set_input(place, self.values(used.0, used.1));
        }
    }

    // The values of a range's cells, which a block has.
    fn values(&self, block: BlockId, range: Range) -> &[i64]
        requires { HasRange (map made_of self.now) block range }
        ensures len { length result.now ≡ range.len }
        ensures cells { (device : ℕ) (was : Cell → ℤ) → ShowsRows device self.now was
            → result.now ≡ range_values device block range was }
    {
        if range.len == 0 {
            return &[];
        }
        self.keeps();
        match self.get(block) {
            None => &[],
            Some(held) => {
                let first = (range.lo - held.range.lo) as usize;
                &held.cells.as_slice()[first..first + range.len as usize]
            }
        }
    }

    // A block that is there has as many cells as its range.
    pub(crate) fn keeps(&self)
        ensures { AreWhole self.now }
    {
        let _ = &self.buckets;
    }
}

// What a cell of a block holds, if the block has it.
fn cell_in(block: &Block, cell: u32) -> Option<i64>
    requires { is_whole block.now ≡ true }
    ensures there { is_some result ≡ is_in block.now.range cell }
    ensures value { IfSome result (λ x. x ≡ row_cell (Some block.now) cell) }
{
    let index = cell.checked_sub(block.range.lo)? as usize;
    if index < block.cells.len() {
        Some(block.cells.get(index))
    } else {
        None
    }
}

// Copies so many cells of a block, from one index on, to another of a host array.
fn copy_cells(source: &Cells, from: usize, target: &mut [i64], at: usize, count: usize)
    requires source { from + count ≤ length source.now }
    requires target { at + count ≤ length target.old }
    ensures { IsCopy source.now target.old target.new from at count }
{
    source.copy_to(from, &mut target[at..at + count]);
}
