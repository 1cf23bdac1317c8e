//! Batches of three kinds, told apart by their numbers, and the queue that they are for.

ghost use Rattle.std.specs.Prelude.{◌≡◌, IfOk};
ghost use Rattle.acc_queue.specs.Tied.{IsFor};
ghost use Rattle.test_threads.specs.Here.{here};

use acc_base::{BlockId, DeviceId, Fault, Few, HostId, Listed, QueueAt, QueueId, Range, Shared};
use acc_batch::{Batch, Label, Op, OpLabel, Ops};
use std::alloc::Global;
use tool_loops::{Body, Loop, kernel_of};

/// How many cells a made block has.
const CELLS: u32 = 100;

fn block_of(number: u64) -> BlockId {
    BlockId::new(number)
}

fn cells_of(number: u64) -> Range {
    Range {
        array: 0,
        lo: (number % 1_000) as u32,
        len: CELLS,
    }
}

// A loop over the cells of a block.
fn run_of(alloc: Global, number: u64) -> Result<OpLabel, Fault> {
    let table = Loop {
        lo: 3,
        hi: 6,
        body: Body::NextBack,
    };
    let kernel = Shared::new(alloc, kernel_of(alloc, table)?)?;
    let whole = Range {
        array: 0,
        lo: 0,
        len: CELLS,
    };
    let other = Range {
        array: 1,
        lo: 0,
        len: CELLS,
    };
    let mut uses = Vec::new(alloc);
    uses.push((block_of(number), whole))?;
    uses.push((block_of(0), other))?;
    let uses = Shared::new(alloc, Listed::from_vec(uses))?;
    Ok(OpLabel::Run { kernel, uses })
}

fn put_entry(ops: &mut Few<OpLabel>, block: BlockId, range: Range) -> Result<(), Fault> {
    ops.push(OpLabel::Make { block, range })?;
    ops.push(OpLabel::CopyIn { block, range })?;
    Ok(())
}

fn put_ops(alloc: Global, ops: &mut Few<OpLabel>, number: u64) -> Result<(), Fault> {
    match number % 3 {
        0 => put_entry(ops, block_of(number), cells_of(number))?,
        1 => ops.push(run_of(alloc, number)?)?,
        _ => ops.push(OpLabel::Await {
            queue: QueueId::new(1),
            number,
        })?,
    }
    Ok(())
}

fn ops_of(alloc: Global, number: u64) -> Result<Few<OpLabel>, Fault> {
    let mut ops = Few::new(alloc);
    put_ops(alloc, &mut ops, number)?;
    Ok(ops)
}

/// The queue that the batches are for.
pub fn here() -> QueueAt
    ensures { result ≡ here }
{
    QueueAt {
        device: DeviceId::new(0),
        queue: QueueId::new(2),
    }
}

/// The batch with this number: by turns it makes a block and copies its cells in, runs a loop, and awaits.
///
/// # Errors
///
/// `Memory` where memory is refused.
pub fn batch_of(alloc: Global, number: u64) -> Result<Batch, Fault>
    ensures { IfOk result (IsFor here) }
{
    let label = Label {
        at: here(),
        number,
        host: HostId::new(0),
        items_done: number,
        ops: Shared::new(alloc, ops_of(alloc, number)?)?,
    };
    if label.ops.get().as_slice().is_empty() || !label.has_its_cells() {
        return Err(Fault::BadRange);
    }
    Batch::new(alloc, label)
}

/// Whether it is that batch, with the memory that it needs.
pub fn is_batch(batch: Batch, number: u64) -> bool {
    let (label, mut ops, _page) = batch.into_parts();
    let label = label.value();
    label.number == number && label.items_done == number && has_ops(&mut ops, number)
}

fn has_ops(ops: &mut Ops, number: u64) -> bool {
    let has_first = match number % 3 {
        0 => makes(ops.take_next(), number) && copies_in(ops.take_next(), number),
        1 => runs(ops.take_next(), number),
        _ => awaits(ops.take_next(), number),
    };
    has_first && ops.take_next().is_none()
}

fn makes(op: Option<Op>, number: u64) -> bool {
    match &op {
        Some(Op::Make { block, .. }) => {
            let block = block.value();
            block.block == block_of(number)
                && block.range == cells_of(number)
                && block.cells.len() == CELLS as usize
        }
        _ => false,
    }
}

fn copies_in(op: Option<Op>, number: u64) -> bool {
    match &op {
        Some(Op::CopyIn { block, range }) => {
            *block == block_of(number) && *range == cells_of(number)
        }
        _ => false,
    }
}

fn runs(op: Option<Op>, number: u64) -> bool {
    match &op {
        Some(Op::Run { kernel, uses }) => {
            let uses = uses.get().as_slice();
            kernel.get().lo() == 3
                && kernel.get().hi() == 6
                && uses.len() == 2
                && uses[0].0 == block_of(number)
        }
        _ => false,
    }
}

fn awaits(op: Option<Op>, number: u64) -> bool {
    match &op {
        Some(
            Op::Await {
                number: awaited,
                ..
            },
        ) => *awaited == number,
        _ => false,
    }
}
