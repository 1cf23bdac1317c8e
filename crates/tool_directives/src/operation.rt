//! Operations as a table writes them, also read off a label and off what a queue performs, so that
//! all three can be compared.

use acc_base::{BlockId, QueueId, Range};
use acc_batch::{Op, OpLabel};

/// What a table says of an operation: of a loop, how many ranges it uses, and the first two with their blocks.
#[derive(Clone, Copy, Debug, PartialEq, Eq)]
pub enum Operation {
    Make {
        block: BlockId,
        range: Range,
    },
    CopyIn {
        block: BlockId,
        range: Range,
    },
    CopyOut {
        block: BlockId,
        range: Range,
    },
    Release {
        block: BlockId,
    },
    Run {
        count: usize,
        first: Option<(BlockId, Range)>,
        second: Option<(BlockId, Range)>,
    },
    Await {
        queue: QueueId,
        number: u64,
    },
    Close,
}

// A loop that uses these ranges.
fn run(uses: &[(BlockId, Range)]) -> Operation {
    Operation::Run {
        count: uses.len(),
        first: uses.first().copied(),
        second: uses.get(1).copied(),
    }
}

/// What a table says of it.
pub fn operation_of(op: &OpLabel) -> Operation {
    match op {
        OpLabel::Make { block, range } => Operation::Make {
            block: *block,
            range: *range,
        },
        OpLabel::CopyIn { block, range } => Operation::CopyIn {
            block: *block,
            range: *range,
        },
        OpLabel::CopyOut { block, range } => Operation::CopyOut {
            block: *block,
            range: *range,
        },
        OpLabel::Release { block } => Operation::Release { block: *block },
        OpLabel::Run { uses, .. } => run(uses.get().as_slice()),
        OpLabel::Await { queue, number } => Operation::Await {
            queue: *queue,
            number: *number,
        },
        OpLabel::Close => Operation::Close,
    }
}

/// What an operation performs.
pub fn performed_by(op: &Op) -> Operation {
    match op {
        Op::Make { block, .. } => Operation::Make {
            block: block.value().block,
            range: block.value().range,
        },
        Op::CopyIn { block, range } => Operation::CopyIn {
            block: *block,
            range: *range,
        },
        Op::CopyOut { block, range } => Operation::CopyOut {
            block: *block,
            range: *range,
        },
        Op::Release { block } => Operation::Release { block: *block },
        Op::Run { uses, .. } => run(uses.get().as_slice()),
        Op::Await { queue, number } => Operation::Await {
            queue: *queue,
            number: *number,
        },
        Op::Close => Operation::Close,
    }
}
