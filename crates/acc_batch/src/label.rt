//! The label of a batch, its plain description, and those of its operations.

ghost use Rattle.std.specs.Prelude.{◌≡◌, ◌↔◌, IfOk, IsTrue};
ghost use Rattle.std.specs.List.{All};
ghost use Rattle.acc_base.specs.Faults.{OnlyMemory};
ghost use Rattle.acc_batch.specs.Ops.{HasItsCells};

use acc_base::{BlockId, Fault, Few, HostId, Listed, QueueAt, QueueId, Range, Shared};
use acc_kernel::{Kernel, are_distinct};
use std::mem::size_of;

/// The plain description of an operation: what a queue performs on the blocks of its device.
#[derive(Drop)]
pub enum OpLabel {
    /// Makes the block, with the cells of the range, all zero.
    Make {
        range: Range,
        block: BlockId,
    },
    /// Copies the range's cells from the host array into the block.
    CopyIn {
        range: Range,
        block: BlockId,
    },
    /// Copies the range's cells from the block into the host array.
    CopyOut {
        range: Range,
        block: BlockId,
    },
    /// Releases the block.
    Release {
        block: BlockId,
    },
    /// Runs the loop; it uses each of these blocks in the range beside it.
    Run {
        kernel: Shared<Kernel>,
        uses: Shared<Listed<(BlockId, Range)>>,
    },
    /// Waits until the batch with this number is performed on the queue of the same device.
    Await {
        queue: QueueId,
        number: u64,
    },
    /// Closes its queue.
    Close,
}

/// The plain description of a batch: its queue and its number there, the host that placed it, how many
/// items that host had before, and the operations.
#[derive(Drop)]
pub struct Label {
    pub at: QueueAt,
    pub host: HostId,
    pub number: u64,
    pub items_done: u64,
    pub ops: Shared<Few<OpLabel>>,
}

// The histories keep each operation and each label.
const _: () = prove!(size_of::<OpLabel>() == 24);

const _: () = prove!(size_of::<Label>() == 32);

impl OpLabel {
    /// Whether it is no loop, or what the loop uses names each array at most once and has all cells that it reaches.
    pub fn has_its_cells(&self) -> bool
        ensures { IsTrue result ↔ HasItsCells self.now }
    {
        match self {
            OpLabel::Run { kernel, uses } => {
                let uses = uses.get().as_slice();
                are_distinct(uses) && kernel.get().is_held_by(uses)
            }
            OpLabel::Make { .. }
            | OpLabel::CopyIn { .. }
            | OpLabel::CopyOut { .. }
            | OpLabel::Release { .. } => true,
            OpLabel::Await { .. } | OpLabel::Close => true,
        }
    }

    /// An equal operation, which shares the loop that it runs and what that uses. It takes no memory.
    ///
    /// # Errors
    ///
    /// `Memory` where the count of their owners is full.
    pub fn try_clone(&self) -> Result<Self, Fault>
        ensures equal { IfOk result (λ l. l ≡ self.now) }
        ensures fault { OnlyMemory result }
    {
        match self {
            OpLabel::Make { block, range } => Ok(OpLabel::Make {
                block: *block,
                range: *range,
            }),
            OpLabel::CopyIn { block, range } => Ok(OpLabel::CopyIn {
                block: *block,
                range: *range,
            }),
            OpLabel::CopyOut { block, range } => Ok(OpLabel::CopyOut {
                block: *block,
                range: *range,
            }),
            OpLabel::Release { block } => Ok(OpLabel::Release { block: *block }),
            OpLabel::Run { kernel, uses } => {
                let kernel = kernel.try_clone()?;
                let uses = uses.try_clone()?;
                Ok(OpLabel::Run { kernel, uses })
            }
            OpLabel::Await { queue, number } => Ok(OpLabel::Await {
                queue: *queue,
                number: *number,
            }),
            OpLabel::Close => Ok(OpLabel::Close),
        }
    }
}

impl Label {
    /// Whether each of its operations has its cells.
    pub fn has_its_cells(&self) -> bool
        ensures { IsTrue result ↔ All HasItsCells self.now.ops }
    {
        let ops = self.ops.get().as_slice();
        for op in ops {
            if !op.has_its_cells() {
                return false;
            }
        }
        true
    }

    /// An equal label, which shares the operations. It takes no memory.
    ///
    /// # Errors
    ///
    /// `Memory` where the count of their owners is full.
    pub fn try_clone(&self) -> Result<Self, Fault>
        ensures equal { IfOk result (λ l. l ≡ self.now) }
        ensures fault { OnlyMemory result }
    {
        let ops = self.ops.try_clone()?;
        Ok(Label {
            at: self.at,
            number: self.number,
            host: self.host,
            items_done: self.items_done,
            ops,
        })
    }
}
