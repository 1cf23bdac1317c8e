//! What the memory requires of an operation and of a range, asked while a test runs.

ghost use Rattle.std.specs.Prelude.{◌≡◌, ◌<◌, IsTrue, is_some, length, true};
ghost use Rattle.acc_memory.specs.Memories.{HasRange, HasRanges, MayPerform, ends_in, find_block, held_blocks};
ghost use Rattle.acc_base.specs.Configurations.{lengths_of};

use acc_base::{BlockId, Config, DeviceId, Range};
use acc_batch::OpLabel;
use acc_memory::Memory;

/// Whether a range ends in its array.
pub fn ends_in_array(config: &Config, range: Range) -> bool
    ensures { IsTrue result → ends_in (lengths_of config.now.arrays) range ≡ true }
{
    if usize::from(range.array) >= config.arrays() {
        return false;
    }
    range.end() <= config.array(range.array).len() as u64
}

/// Whether an operation may be performed on the first device.
pub fn is_allowed(config: &Config, memory: &Memory, op: &OpLabel) -> bool
    requires device { 0 < length memory.now.devices }
    requires lengths { lengths_of memory.now.arrays ≡ lengths_of config.now.arrays }
    ensures { IsTrue result → MayPerform memory.now 0 op.now }
{
    match op {
        OpLabel::Make { block, range } => !is_there(memory, *block)
            && ends_in_array(config, *range),
        OpLabel::CopyIn { block, range } | OpLabel::CopyOut { block, range } => {
            holds_range(memory, *block, *range)
        }
        OpLabel::Release { block } => is_there(memory, *block),
        OpLabel::Run { uses, .. } => holds_ranges(memory, uses.get().as_slice()),
        OpLabel::Await { .. } | OpLabel::Close => true,
    }
}

fn is_there(memory: &Memory, block: BlockId) -> bool
    requires { 0 < length memory.now.devices }
    ensures { result ≡ is_some (find_block (held_blocks memory.now 0) block) }
{
    memory.block(DeviceId::new(0), block).is_some()
}

fn holds_range(memory: &Memory, block: BlockId, range: Range) -> bool
    requires { 0 < length memory.now.devices }
    ensures { IsTrue result → HasRange (held_blocks memory.now 0) block range }
{
    match memory.block(DeviceId::new(0), block) {
        Some((whole, _)) => whole.contains(&range),
        None => false,
    }
}

fn holds_ranges(memory: &Memory, uses: &[(BlockId, Range)]) -> bool
    requires { 0 < length memory.now.devices }
    ensures { IsTrue result → HasRanges (held_blocks memory.now 0) uses.now }
{
    for (block, range) in uses {
        if !holds_range(memory, *block, *range) {
            return false;
        }
    }
    true
}
