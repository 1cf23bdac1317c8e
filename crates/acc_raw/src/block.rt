//! The memory of a row: where it begins, and its owner.
ghost use Rattle.std.specs.Prelude.{◌≡◌, ℕ, ◌+◌, ◌<◌, ◌≤◌, ◌^◌, ◌*◌, [], ◌∷◌, ◌++◌, List, ℤ, pos, length, IfOk};
ghost use Rattle.std.specs.Borrow.{sem};
ghost use denote.RawPtr.{Ptr};
ghost use Rattle.acc_raw.specs.Blocks.{block_owns, block_lends};

use std::alloc::{AllocError, Allocator, Global};
use std::marker::Model;
use std::slice::{from_raw_parts, from_raw_parts_mut};

/// The address of a row's first cell, a plain pointer.
#[derive(Clone, Copy)]
pub(crate) struct Start {
    pub(crate) ptr: *mut i64,
}

unsafe impl Send for Start {}

unsafe impl Sync for Start {}

/// The owner of a block for `len` cells, of which the first are written: of the cells, of the room behind them, and of the
/// right to give the block back. It takes no bytes, and can't be dropped.
pub(crate) struct Block {
    pub ghost at: { Ptr },
    pub ghost len: { ℕ },
    pub ghost cells: { List ℤ },
}

impl Model for Block {
    ghost also_owns = { λ b. block_owns b.at b.len b.cells };

    ghost also_shares = { λ b _ κ. block_lends b.at b.len b.cells κ };
}

unsafe impl Send for Block {}

unsafe impl Sync for Block {}

/// A block for so many cells, none of them written.
pub(crate) fn allocate(alloc: &Global, len: usize) -> Result<(Start, Block), AllocError>
    requires { len * 8 < 2 ^ 63 }
    ensures { IfOk result (λ r. (r.1.at ≡ r.0.ptr) × (r.1.len ≡ len) × (r.1.cells ≡ [])) }
{
    match alloc.allocate(len * 8, 8) {
        Ok(memory) => Ok((
            Start {
                ptr: memory as *mut i64,
            },
            Block {},
        )),
        Err(error) => Err(error),
    }
}

/// Gives a block back, all of whose cells are written.
pub(crate) fn deallocate(alloc: &Global, start: Start, len: usize, block: Block)
    requires { (start.ptr ≡ block.at) × (len ≡ block.len) × (len ≡ length block.cells) }
{
    let Block {} = block;
    unsafe {
        alloc.deallocate(start.ptr as *mut u8, len * 8, 8);
    }
}

impl Block {
    ghost use Rattle.acc_raw.specs.Lends.{lends_cells};

    /// Writes a zero behind the cells that are written.
    pub(crate) fn push_zero(&mut self, start: Start, at: usize)
        requires { (start.ptr ≡ self.old.at) × (at ≡ length self.old.cells) × (at < self.old.len) }
        ensures { (self.new.at ≡ self.old.at) × (self.new.len ≡ self.old.len)
            × (self.new.cells ≡ self.old.cells ++ pos 0 ∷ []) }
    {
        unsafe {
            start.ptr.add(at).write(0);
        }
    }

    /// The cells.
    pub(crate) fn slice(&self, start: Start, len: usize) -> &[i64]
        requires { (start.ptr ≡ self.now.at) × (len ≡ length self.now.cells)
            × (len ≡ self.now.len) }
        ensures { result.now ≡ self.now.cells }
    {
        unsafe { from_raw_parts(start.ptr, len) }
    }

    /// The cells, to be written.
    pub(crate) fn slice_mut(&mut self, start: Start, len: usize) -> &mut [i64]
        requires { (start.ptr ≡ self.old.at) × (len ≡ length self.old.cells)
            × (len ≡ self.old.len) }
        ensures* writes_back { sem 𝓛 (lends_cells self.entry result) }
        ensures value { result.now ≡ self.old.cells }
    {
        unsafe { from_raw_parts_mut(start.ptr, len) }
    }
}
