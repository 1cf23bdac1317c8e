//! Whether live cells hold the same in two worlds.

ghost use Rattle.std.specs.Prelude.{All, ℕ, ◌≡◌, ◌<◌, IsTrue, length, reverse, slice_get, Some};
ghost use Rattle.acc_base.specs.Configurations.{has_range};
ghost use Rattle.acc_explore.specs.inner.Comparing.{HoldSameArray, HoldSameBlock, HoldSameMade};

use acc_base::{BlockId, DeviceId, Range};
use acc_batch::OpLabel;
use acc_core::World;
use acc_work::WorkEntry;

// Whether a host array holds the same in both.
fn hold_same_array(old: &World, new: &World, array: u8) -> bool
    requires { array < length old.now.config.arrays }
    ensures { IsTrue result → HoldSameArray old.now new.now array }
{
    let config = old.place().config();
    config.keeps();
    for cell in 0..config.array(array).len() as u32 {
        if old.host_cell(array, cell) != new.host_cell(array, cell) {
            return false;
        }
    }
    true
}

// Whether all do.
fn hold_same_arrays(old: &World, new: &World) -> bool
    ensures { IsTrue result → (array : ℕ) → array < length old.now.config.arrays
        → HoldSameArray old.now new.now array }
{
    let config = old.place().config();
    config.keeps();
    for array in 0..config.arrays() {
        if !hold_same_array(old, new, array as u8) {
            return false;
        }
    }
    true
}

// Whether a block holds the same in both in the cells of a range that it has, if it is there.
fn hold_same_block(
    old: &World,
    new: &World,
    device: DeviceId,
    block: BlockId,
    range: &Range,
) -> bool
    ensures { IsTrue result → HoldSameBlock old.now new.now device block range.now }
{
    for index in 0..range.len {
        let Some(cell) = range.lo.checked_add(index) else {
            return false;
        };
        if old.block_cell(device, block, cell) != new.block_cell(device, block, cell) {
            return false;
        }
    }
    true
}

// Whether a block that an entry of a work log made does.
fn hold_same_made(old: &World, new: &World, entry: &WorkEntry) -> bool
    ensures { IsTrue result → HoldSameMade old.now new.now entry.now }
{
    match entry {
        WorkEntry::Op {
            at,
            what: OpLabel::Make { block, range },
        } => hold_same_block(old, new, at.device, *block, range),
        _ => true,
    }
}

// Whether all blocks do that are there.
fn hold_same_blocks(old: &World, new: &World) -> bool
    ensures { IsTrue result → All (HoldSameMade old.now new.now) (reverse old.now.work) }
{
    old.log()
        .iter()
        .all(|entry| hold_same_made(old, new, entry))
}

/// Whether the host arrays hold the same in both worlds, and the blocks that the first one's log made and that are there.
pub(crate) fn hold_same_cells(old: &World, new: &World) -> bool
    ensures arrays { IsTrue result → (array : ℕ) → array < length old.now.config.arrays
        → HoldSameArray old.now new.now array }
    ensures blocks { IsTrue result → All (HoldSameMade old.now new.now) (reverse old.now.work) }
{
    hold_same_arrays(old, new) && hold_same_blocks(old, new)
}
