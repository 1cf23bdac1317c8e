//! Words for the tables of the tests. The tables are constants, which cost the proofs nothing.

use acc_base::{BlockId, Listed, QueueId, Range};
use acc_place::{Clause, DataItem, Waits};
use std::alloc::{AllocError, Global};
use tool_directives::{EXIT, FINALIZE, Form, Operation, UPDATE, UPDATE_IF_PRESENT, over};
use tool_loops::Body;

/// So many cells of an array, from one on: of the first array, or of the second.
#[derive(Clone, Copy)]
pub enum Cells {
    A(u32, u32),
    B(u32, u32),
}

/// Which directive it is.
#[derive(Clone, Copy)]
pub enum Word {
    Data,
    End,
    Enter,
    Exit,
    Finalize,
    Update,
    UpdateIfPresent,
    Wait,
    Test,
    Ask,
    /// A loop from one index to before another.
    Over(i64, i64, Body),
}

/// What a wait clause names.
#[derive(Clone, Copy)]
pub enum Named {
    Nothing,
    All,
    These(&'static [i64]),
}

/// An operation, with its block and its cells; an await with its queue and its number there.
#[derive(Clone, Copy)]
pub enum Deed {
    Make(u64, Cells),
    In(u64, Cells),
    Out(u64, Cells),
    Release(u64),
    Run(&'static [(u64, Cells)]),
    Await(u8, u64),
    Close,
}

/// A range that is present: its block, its structured and its dynamic counter.
pub type Held = (Cells, u64, u64, u64);

/// A host's directive, the operations of its batch, and what is present behind it.
#[derive(Clone, Copy)]
pub struct Step {
    pub host: u8,
    pub word: Word,
    pub items: &'static [(Clause, Cells)],
    pub ops: &'static [Deed],
    pub present: &'static [Held],
}

pub fn range_of(cells: Cells) -> Range {
    let (array, lo, len) = match cells {
        Cells::A(lo, len) => (0, lo, len),
        Cells::B(lo, len) => (1, lo, len),
    };
    Range { array, lo, len }
}

pub fn form_of(word: Word) -> Form {
    match word {
        Word::Data => Form::Data,
        Word::End => Form::EndData,
        Word::Enter => Form::EnterData,
        Word::Exit => EXIT,
        Word::Finalize => FINALIZE,
        Word::Update => UPDATE,
        Word::UpdateIfPresent => UPDATE_IF_PRESENT,
        Word::Wait => Form::Wait,
        Word::Test => Form::AsyncTest,
        Word::Ask => Form::IsPresent,
        Word::Over(lo, hi, body) => over(lo, hi, body),
    }
}

pub fn items_of(alloc: Global, items: &[(Clause, Cells)]) -> Result<Vec<DataItem>, AllocError> {
    let mut listed = Vec::with_capacity(alloc, items.len())?;
    for (clause, cells) in items {
        listed.push(DataItem {
            clause: *clause,
            range: range_of(*cells),
        })?;
    }
    Ok(listed)
}

pub fn waits_of(alloc: Global, named: Named) -> Result<Waits, AllocError> {
    match named {
        Named::Nothing => Ok(Waits::Nothing),
        Named::All => Ok(Waits::All),
        Named::These(values) => Ok(Waits::Listed {
            values: Listed::from_vec(Vec::from_slice(alloc, values)?),
        }),
    }
}

// A range that a loop uses, with its block.
pub fn used(part: &(u64, Cells)) -> (BlockId, Range) {
    let (block, cells) = *part;
    (BlockId::new(block), range_of(cells))
}

pub fn operation(deed: Deed) -> Operation {
    match deed {
        Deed::Make(block, cells) => Operation::Make {
            block: BlockId::new(block),
            range: range_of(cells),
        },
        Deed::In(block, cells) => Operation::CopyIn {
            block: BlockId::new(block),
            range: range_of(cells),
        },
        Deed::Out(block, cells) => Operation::CopyOut {
            block: BlockId::new(block),
            range: range_of(cells),
        },
        Deed::Release(block) => Operation::Release {
            block: BlockId::new(block),
        },
        Deed::Run(uses) => Operation::Run {
            count: uses.len(),
            first: uses.first().map(used),
            second: uses.get(1).map(used),
        },
        Deed::Await(queue, number) => Operation::Await {
            queue: QueueId::new(queue),
            number,
        },
        Deed::Close => Operation::Close,
    }
}
