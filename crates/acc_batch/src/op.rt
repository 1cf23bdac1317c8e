//! An operation in a queue, with the memory that performing it needs.

ghost use Rattle.std.specs.Prelude.{◌≡◌, replicate, pos, IfOk};
ghost use Rattle.acc_base.specs.Faults.{OnlyMemory};
ghost use Rattle.acc_batch.specs.Ops.{op_label, HasItsCells, IsReady};

use crate::label::OpLabel;
use acc_base::{BlockId, Fault, Listed, QueueId, Range, Shared};
use acc_kernel::Kernel;
use acc_raw::{Cells, Keyed, Node};
use std::alloc::Global;
use std::mem::size_of;

/// A block of a device: its range and its cells.
#[derive(Drop)]
pub struct Block {
    pub block: BlockId,
    pub range: Range,
    pub cells: Cells,
}

impl Keyed for Block {
    ghost key_of = { λ b. b.block };

    fn key(&self) -> u64 {
        self.block.number()
    }
}

/// The mark of a block that was made, found by its number.
#[derive(Clone, Copy, Debug, PartialEq, Eq)]
pub struct Mark {
    pub block: BlockId,
}

impl Keyed for Mark {
    ghost key_of = { λ m. m.block };

    fn key(&self) -> u64 {
        self.block.number()
    }
}

/// An operation in a queue, with the memory that performing it needs.
#[derive(Drop)]
pub enum Op {
    /// The block is in the node in which the memory keeps it, and its mark too. Its cells are as many as its range has, all zero.
    Make {
        block: Node<Block>,
        mark: Node<Mark>,
    },
    CopyIn {
        range: Range,
        block: BlockId,
    },
    CopyOut {
        range: Range,
        block: BlockId,
    },
    Release {
        block: BlockId,
    },
    /// What the loop uses names each array at most once, and has all cells that the loop reaches.
    Run {
        kernel: Shared<Kernel>,
        uses: Shared<Listed<(BlockId, Range)>>,
    },
    Await {
        queue: QueueId,
        number: u64,
    },
    Close,
}

// A batch moves with two of them.
const _: () = prove!(size_of::<Op>() == 24);

impl Op {
    /// The operation of a label, one that has its cells, by `OpLabel::has_its_cells`.
    ///
    /// # Errors
    ///
    /// `Memory` where memory is refused.
    pub fn new(alloc: Global, label: &OpLabel) -> Result<Self, Fault>
        requires cells { HasItsCells label.now }
        ensures label { IfOk result (λ op. op_label op ≡ label.now) }
        ensures ready { IfOk result IsReady }
        ensures fault { OnlyMemory result }
    {
        match label {
            OpLabel::Make { block, range } => {
                let mark = mark_of(alloc, *block)?;
                let block = zero_block(alloc, *block, *range)?;
                Ok(Op::Make { block, mark })
            }
            OpLabel::CopyIn { block, range } => Ok(Op::CopyIn {
                block: *block,
                range: *range,
            }),
            OpLabel::CopyOut { block, range } => Ok(Op::CopyOut {
                block: *block,
                range: *range,
            }),
            OpLabel::Release { block } => Ok(Op::Release { block: *block }),
            OpLabel::Run { kernel, uses } => {
                let kernel = kernel.try_clone()?;
                let uses = uses.try_clone()?;
                Ok(Op::Run { kernel, uses })
            }
            OpLabel::Await { queue, number } => Ok(Op::Await {
                queue: *queue,
                number: *number,
            }),
            OpLabel::Close => Ok(Op::Close),
        }
    }

    /// Its label, without the memory that performing it needs. It takes no memory.
    pub fn into_label(self) -> OpLabel
        ensures { result ≡ op_label self }
    {
        match self {
            Op::Make { block, .. } => OpLabel::Make {
                block: block.value().block,
                range: block.value().range,
            },
            Op::CopyIn { block, range } => OpLabel::CopyIn { block, range },
            Op::CopyOut { block, range } => OpLabel::CopyOut { block, range },
            Op::Release { block } => OpLabel::Release { block },
            Op::Run { kernel, uses } => OpLabel::Run { kernel, uses },
            Op::Await { queue, number } => OpLabel::Await { queue, number },
            Op::Close => OpLabel::Close,
        }
    }
}

// A block whose cells are all zero, in its node.
fn zero_block(alloc: Global, block: BlockId, range: Range) -> Result<Node<Block>, Fault>
    ensures block { IfOk result (λ b.
        b ≡ record { block = block; range = range; cells = replicate range.len (pos 0) }) }
    ensures fault { OnlyMemory result }
{
    let cells = Cells::zeroed(alloc, range.len as usize)?;
    let block = Block {
        block,
        range,
        cells,
    };
    match Node::new(alloc, block) {
        Ok(block) => Ok(block),
        Err((_, fault)) => Err(fault),
    }
}

// The mark of a block, in its node.
fn mark_of(alloc: Global, block: BlockId) -> Result<Node<Mark>, Fault>
    ensures mark { IfOk result (λ m. m ≡ record { block = block }) }
    ensures fault { OnlyMemory result }
{
    match Node::new(alloc, Mark { block }) {
        Ok(mark) => Ok(mark),
        Err((_, fault)) => Err(fault),
    }
}
