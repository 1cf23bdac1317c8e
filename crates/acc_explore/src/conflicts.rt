//! Whether operations and statements conflict: who reads and writes which cells.

ghost use Rattle.std.specs.Prelude.{◌≡◌, ◌&&◌, ◌||◌, List, length, map};
ghost use Rattle.std.specs.List.{list_any};
ghost use Rattle.std.specs.Option.{option_to_list};
ghost use Rattle.acc_base.specs.Ranges.{range_overlaps};
ghost use Rattle.acc_explore.specs.ApartOperations.{act_accesses, any_conflict, block_accesses, conflict, host_accesses, in_block, ops_conflict, reads_only, writes_too};
ghost use Rattle.acc_explore.specs.inner.Apart.{use_access};
ghost use Rattle.acc_host.specs.Hosts.{bare_act};
ghost use Rattle.acc_kernel.specs.Faults.{is_assigned};
ghost use Rattle.acc_kernel.specs.Jobs.{Use};

use acc_base::{BlockId, DeviceId, Range};
use acc_batch::OpLabel;
use acc_host::Act;
use acc_kernel::Kernel;

/// Cells of a host array that are read, or written too.
#[derive(Clone, Copy)]
pub struct Access {
    pub cells: Range,
    pub writes: bool,
}

// Reads cells.
fn reads_only(cells: Range) -> Access
    ensures { result ≡ reads_only cells }
{
    Access {
        cells,
        writes: false,
    }
}

// Writes cells, and may read them.
fn writes_too(cells: Range) -> Access
    ensures { result ≡ writes_too cells }
{
    Access {
        cells,
        writes: true,
    }
}

// The range of a cell.
fn one_cell(array: u8, cell: u32) -> Range
    ensures { result ≡ record { array = array; lo = cell; len = 1 } }
{
    Range {
        array,
        lo: cell,
        len: 1,
    }
}

/// What a statement accesses of the host arrays.
pub(crate) fn act_access(act: &Act) -> Option<Access>
    ensures { act_accesses (bare_act act.now) ≡ option_to_list result }
{
    match act {
        Act::Write { array, cell, .. } => Some(writes_too(one_cell(*array, *cell))),
        Act::Print { range } => Some(reads_only(*range)),
        Act::Place { .. }
        | Act::SetDevice { .. }
        | Act::SetAsync { .. }
        | Act::ShowDevice
        | Act::ShowDevices => None,
    }
}

/// What an operation accesses of them.
pub(crate) fn host_access(op: &OpLabel) -> Option<Access>
    ensures { host_accesses op.now ≡ option_to_list result }
{
    match op {
        OpLabel::CopyIn { range, .. } => Some(reads_only(*range)),
        OpLabel::CopyOut { range, .. } => Some(writes_too(*range)),
        OpLabel::Make { .. } | OpLabel::Release { .. } | OpLabel::Run { .. } => None,
        OpLabel::Await { .. } | OpLabel::Close => None,
    }
}

/// Whether two such accesses conflict, if there are two.
pub(crate) fn host_conflict(first: Option<Access>, second: Option<Access>) -> bool
    ensures { result ≡ any_conflict (option_to_list first) (option_to_list second) }
{
    match (first, second) {
        (Some(a), Some(b)) => (a.writes || b.writes) && a.cells.overlaps(&b.cells),
        _ => false,
    }
}

// Whether some cell of a block is in both ranges.
#[tactic(auto, unfolding(acc_base::specs::Ranges::range_overlaps))]
fn meet(block: BlockId, range: &Range, other: BlockId, other_range: &Range) -> bool
    ensures { result ≡ range_overlaps (in_block block range.now) (in_block other other_range.now) }
{
    let first = range.lo.max(other_range.lo);
    block == other && u64::from(first) < range.end().min(other_range.end())
}

// Whether a loop assigns an array.
fn assigns(kernel: &Kernel, array: u8) -> bool
    ensures { result ≡ is_assigned kernel.now.statements array }
{
    kernel
        .statements()
        .iter()
        .any(|statement| statement.array == array)
}

// Whether a loop that uses these blocks conflicts with who reads the cells of a block, or writes them too.
fn loop_conflicts(
    kernel: &Kernel,
    uses: &[(BlockId, Range)],
    block: BlockId,
    range: &Range,
    writes: bool,
) -> bool
    ensures { result ≡ list_any (λ (u : Use). conflict
        (record { cells = in_block block range.now; writes = writes })
        (use_access kernel.now u)) uses.now }
{
    uses.iter().any(|(other, cells)| {
        (writes || assigns(kernel, cells.array)) && meet(block, range, *other, cells)
    })
}

// Whether an operation does, on the same device.
fn op_conflicts(op: &OpLabel, block: BlockId, range: &Range, writes: bool) -> bool
    ensures { result
        ≡ list_any (conflict (record { cells = in_block block range.now; writes = writes }))
        (block_accesses op.now) }
{
    match op {
        OpLabel::Make {
            range: cells,
            block: other,
        } => meet(block, range, *other, cells),
        OpLabel::CopyIn {
            range: cells,
            block: other,
        } => meet(block, range, *other, cells),
        OpLabel::CopyOut {
            range: cells,
            block: other,
        } => writes && meet(block, range, *other, cells),
        OpLabel::Run { kernel, uses } => {
            loop_conflicts(kernel.get(), uses.get().as_slice(), block, range, writes)
        }
        OpLabel::Release { .. } | OpLabel::Await { .. } | OpLabel::Close => false,
    }
}

// Whether a loop that uses these blocks conflicts with an operation of the same device.
fn uses_conflict(kernel: &Kernel, uses: &[(BlockId, Range)], other: &OpLabel) -> bool
    ensures { result ≡ list_any (λ (u : Use). list_any (conflict (use_access kernel.now u))
        (block_accesses other.now)) uses.now }
{
    uses.iter().any(|(block, cells)| {
        op_conflicts(other, *block, cells, assigns(kernel, cells.array))
    })
}

// Whether two operations of one device conflict over blocks.
fn block_conflict(op: &OpLabel, other: &OpLabel) -> bool
    ensures { result ≡ any_conflict (block_accesses op.now) (block_accesses other.now) }
{
    match op {
        OpLabel::Make { range, block } => op_conflicts(other, *block, range, true),
        OpLabel::CopyIn { range, block } => op_conflicts(other, *block, range, true),
        OpLabel::CopyOut { range, block } => op_conflicts(other, *block, range, false),
        OpLabel::Run { kernel, uses } => {
            uses_conflict(kernel.get(), uses.get().as_slice(), other)
        }
        OpLabel::Release { .. } | OpLabel::Await { .. } | OpLabel::Close => false,
    }
}

/// Whether two operations conflict, each of a device.
pub(crate) fn ops_conflict(
    device: DeviceId,
    op: &OpLabel,
    other_device: DeviceId,
    other: &OpLabel,
) -> bool
    ensures { result ≡ ops_conflict device op.now other_device other.now }
{
    host_conflict(host_access(op), host_access(other))
        || (device == other_device && block_conflict(op, other))
}
