//! A row of cells: where its block of memory begins, its length, and the block's owner. Contracts see the list of its values.

ghost use Rattle.std.specs.Prelude.{◌≡◌, ◌↔◌, ◌+◌, ◌<◌, ◌≤◌, pos, [], ◌++◌, length, take, drop, replicate, slice_get, slice_set, slice_range, Some, IfOk, IsTrue};
ghost use Rattle.std.specs.Borrow.{Lends, LendsBoth, Array, sem, i64 as cell};
ghost use Rattle.std.specs.List.{refill};
ghost use Rattle.acc_base.specs.Faults.{OnlyMemory};
ghost use Rattle.acc_raw.specs.Windows.{IsWithin, AreApart, cells_in, with_window, with_both, with_windows};
ghost use Rattle.acc_raw.specs.contracts.cells.Cells.{the_row};

use crate::block::{Block, Start, allocate, deallocate};
use acc_base::Fault;
use std::alloc::Global;
use std::marker::Model;
use std::slice::from_raw_parts_mut;

/// Some cells of a row, side by side: the index of the first, from 0, and how many there are.
#[derive(Clone, Copy, Debug, PartialEq, Eq)]
pub struct Window {
    pub start: usize,
    pub len: usize,
}

// The most cells that one block can have.
const MOST: usize = 0x0fff_ffff_ffff_ffff;

/// A row of cells, counted from 0 and as long as it was made. Contracts see the list of its values.
pub struct Cells {
    start: Start,
    len: usize,
    block: Block,
    alloc: Global,
}

impl Model for Cells {
    ghost use Rattle.std.specs.Prelude.{◌≡◌, List, ℤ, length};

    ghost Value = { List ℤ };

    ghost view = { λ c. c.block.cells };

    ghost invariant = { λ c. (c.start.ptr ≡ c.block.at) × (c.len ≡ length c.block.cells) × (c.len ≡ c.block.len) };
}

impl Drop for Cells {
    fn drop(self) {
        let Cells {
            start,
            len,
            block,
            alloc,
        } = self;
        deallocate(&alloc, start, len, block);
    }
}

impl Cells {
    /// So many cells, all zero.
    ///
    /// # Errors
    ///
    /// `Memory` where memory is refused.
    pub fn zeroed(alloc: Global, len: usize) -> Result<Self, Fault>
        ensures zeros { IfOk result (λ cells. cells ≡ replicate len (pos 0)) }
        ensures fault { OnlyMemory result }
    {
        if MOST < len {
            return Err(Fault::Memory);
        }
        let (start, mut block) = allocate(&alloc, len)?;
        fill(&mut block, start, len);
        Ok(Cells {
            start,
            len,
            block,
            alloc,
        })
    }

    /// How many cells there are.
    pub fn len(&self) -> usize
        ensures { result ≡ length self.now }
    {
        self.len
    }

    /// All values, in their order.
    pub fn as_slice(&self) -> &[i64]
        ensures { result.now ≡ self.now }
    {
        self.block.slice(self.start, self.len)
    }

    /// All values, in their order, to be written.
    pub fn as_mut_slice(&mut self) -> &mut [i64]
        ensures value { result.now ≡ self.old }
        ensures* writes_back { sem 𝓛 (Lends the_row (Array cell 0) self.entry result
            (refill (length self.old) self.old)) }
    {
        self.block.slice_mut(self.start, self.len)
    }

    /// The value of a cell, one before `len`.
    pub fn get(&self, at: usize) -> i64
        requires { at < length self.now }
        ensures { slice_get self.now at ≡ Some result }
    {
        self.as_slice()[at]
    }

    /// Writes one cell, one before `len`.
    pub fn set(&mut self, at: usize, value: i64)
        requires { at < length self.old }
        ensures { self.new ≡ slice_set self.old at value }
    {
        self.as_mut_slice()[at] = value;
    }

    /// Writes the source's values over as many cells, from `at` on, which end by `len`.
    pub fn copy_from(&mut self, at: usize, source: &[i64])
        requires { at + length source.now ≤ length self.old }
        ensures { self.new ≡ take at self.old ++ source.now
            ++ drop (at + length source.now) self.old }
    {
        self.as_mut_slice()[at..at + source.len()].copy_from_slice(source);
    }

    /// Fills the target with the values of as many cells, from `at` on, which end by `len`.
    pub fn copy_to(&self, at: usize, target: &mut [i64])
        requires { at + length target.old ≤ length self.now }
        ensures { target.new ≡ slice_range self.now at (at + length target.old) }
    {
        target.copy_from_slice(&self.as_slice()[at..at + target.len()]);
    }

    /// Whether as many cells, from `at` on, which end by `len`, have these values.
    pub fn has_values(&self, at: usize, values: &[i64]) -> bool
        requires { at + length values.now ≤ length self.now }
        ensures { IsTrue result ↔ slice_range self.now at (at + length values.now) ≡ values.now }
    {
        are_equal(&self.as_slice()[at..at + values.len()], values)
    }

    /// Lends two windows at once, in the order in which they are named, whichever comes first in the row.
    /// One has to end where the other begins, or before.
    pub fn two(&mut self, first: Window, second: Window) -> (&mut [i64], &mut [i64])
        requires first { IsWithin (length self.old) first }
        requires second { IsWithin (length self.old) second }
        requires apart { AreApart first second }
        ensures first { result.0.now ≡ cells_in first self.old }
        ensures second { result.1.now ≡ cells_in second self.old }

        // Once both borrows end, the row has what was written to the windows, and its other cells are as before.
        ensures* writes_back { sem 𝓛
            (LendsBoth the_row (Array cell 0) (Array cell 0) self.entry result
            (with_windows self.old first second)) }
    {
        windows(self.as_mut_slice(), first, second)
    }
}

// Lends two windows of a slice, whichever comes first.
fn windows(cells: &mut [i64], first: Window, second: Window) -> (&mut [i64], &mut [i64])
    requires first { IsWithin (length cells.old) first }
    requires second { IsWithin (length cells.old) second }
    requires apart { AreApart first second }
    ensures first { result.0.now ≡ cells_in first cells.old }
    ensures second { result.1.now ≡ cells_in second cells.old }
    ensures* writes_back { sem 𝓛 (LendsBoth (Array cell 0) (Array cell 0)
        (Array cell 0) cells.entry result (with_both cells.old first second)) }
{
    if first.start + first.len <= second.start {
        return in_order(cells, first, second);
    }
    let (later, earlier) = in_order(cells, second, first);
    (earlier, later)
}

// Lends two windows of a slice, of which the first comes first.
fn in_order(cells: &mut [i64], first: Window, second: Window) -> (&mut [i64], &mut [i64])
    requires within { IsWithin (length cells.old) second }
    requires apart { first.start + first.len ≤ second.start }
    ensures first { result.0.now ≡ cells_in first cells.old }
    ensures second { result.1.now ≡ cells_in second cells.old }
    ensures* writes_back { sem 𝓛 (LendsBoth (Array cell 0) (Array cell 0)
        (Array cell 0) cells.entry result (λ xs ys.
        with_window (with_window cells.old second ys) first xs)) }
{
    let start = cells.as_mut_ptr();
    unsafe {
        (
            from_raw_parts_mut(start.add(first.start), first.len),
            from_raw_parts_mut(start.add(second.start), second.len),
        )
    }
}

// Writes a zero into each cell of a block.
fn fill(block: &mut Block, start: Start, len: usize)
    requires { (start.ptr ≡ block.old.at) × (block.old.len ≡ len) × (block.old.cells ≡ []) }
    ensures { (block.new.at ≡ start.ptr) × (block.new.len ≡ len)
        × (block.new.cells ≡ replicate len (pos 0)) }
{
    for at in 0..len {
        block.push_zero(start, at);
    }
}

// Goes through all of them, so that several are compared at once.
fn are_equal(left: &[i64], right: &[i64]) -> bool
    requires { length left.now ≡ length right.now }
    ensures { IsTrue result ↔ left.now ≡ right.now }
{
    let mut same = true;
    for k in 0..left.len() {
        if left[k] != right[k] {
            same = false;
        }
    }
    same
}
