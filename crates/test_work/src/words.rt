//! Operations by short words, the batches of them that a queue takes, and how far it gets with these.

ghost use Rattle.std.specs.Prelude.{◌≡◌, ◌<◌, IfOk, length};
ghost use Rattle.acc_base.specs.declared.config.TheConstants.{MAX_HOSTS};
ghost use Rattle.acc_work.specs.Works.{HasQueue};

use crate::runs::range;
use acc_base::{
    BlockId, Config, DeviceId, Fault, Few, HostId, Listed, QueueAt, QueueId, Range, Shared,
};
use acc_batch::{Batch, Label, OpLabel};
use acc_work::{Done, Work, WorkLog};
use std::alloc::Global;
use tool_loops::{Body, Loop, kernel_of};

/// An operation, whose blocks stand by their numbers; the loop is `b[i] = a[i] + 1` over two cells of each, and a's block stands first.
#[derive(Clone, Copy, Debug)]
pub enum Word {
    Make(u64, Span),
    CopyIn(u64, Span),
    CopyOut(u64, Span),
    Release(u64),
    Run(u64, u64),
    Await(u8, u64),
}

/// Cells of an array: its number, the first one, and how many.
pub type Span = (u8, u32, u32);

/// Both cells of a.
pub const A: Span = (0, 0, 2);

/// Both cells of b.
pub const B: Span = (1, 0, 2);

fn range_of(span: Span) -> Range {
    let (array, lo, len) = span;
    range(array, lo, len)
}

// The loop, which uses these two blocks.
fn successors(alloc: Global, a: u64, b: u64) -> Result<OpLabel, Fault> {
    let table = Loop {
        lo: 0,
        hi: 2,
        body: Body::Successor,
    };
    let kernel = Shared::new(alloc, kernel_of(alloc, table)?)?;
    let uses = vec![in alloc;
        (BlockId::new(a), range_of(A)),
        (BlockId::new(b), range_of(B)),
    ]?;
    let uses = Shared::new(alloc, Listed::from_vec(uses))?;
    Ok(OpLabel::Run { kernel, uses })
}

fn op_of(alloc: Global, word: Word) -> Result<OpLabel, Fault> {
    Ok(match word {
        Word::Make(number, span) => OpLabel::Make {
            range: range_of(span),
            block: BlockId::new(number),
        },
        Word::CopyIn(number, span) => OpLabel::CopyIn {
            range: range_of(span),
            block: BlockId::new(number),
        },
        Word::CopyOut(number, span) => OpLabel::CopyOut {
            range: range_of(span),
            block: BlockId::new(number),
        },
        Word::Release(number) => OpLabel::Release {
            block: BlockId::new(number),
        },
        Word::Run(a, b) => successors(alloc, a, b)?,
        Word::Await(queue, number) => OpLabel::Await {
            queue: QueueId::new(queue),
            number,
        },
    })
}

fn ops_of(alloc: Global, words: &[Word]) -> Result<Few<OpLabel>, Fault> {
    let mut ops = Few::new(alloc);
    for word in words {
        ops.push(op_of(alloc, *word)?)?;
    }
    Ok(ops)
}

/// A queue of the first device; those of the async values `1` and `2` have the numbers 3 and 4.
pub fn queue(number: u8) -> QueueAt
    ensures device { result.device ≡ 0 }
    ensures queue { result.queue ≡ number }
{
    QueueAt {
        device: DeviceId::new(0),
        queue: QueueId::new(number),
    }
}

/// A work side of two devices and of two arrays, a and b, of which a has 7 and 9.
pub fn work_side(alloc: Global) -> Result<Work, Fault>
    ensures { IfOk result (λ work. length work.memory.devices ≡ 2) }
{
    let first = vec![in alloc; 7i64, 9]?;
    let second = vec![in alloc; 0i64; 2]?;
    let config = Config::new(alloc, 2, 1, vec![in alloc; first, second]?, 100, 4)?;
    config.keeps();
    Work::new(alloc, &config)
}

// A batch of these operations, the first of its queue, whose host has told so many items before.
fn batch_of(alloc: Global, at: QueueAt, items_done: u64, words: &[Word]) -> Result<Batch, Fault>
    ensures place { IfOk result (λ batch. batch.at ≡ at) }
    ensures host { IfOk result (λ batch. batch.host < MAX_HOSTS) }
    ensures filled { IfOk result (λ batch. 0 < length batch.ops) }
{
    let label = Label {
        at,
        number: 1,
        host: HostId::new(0),
        items_done,
        ops: Shared::new(alloc, ops_of(alloc, words)?)?,
    };
    if label.ops.get().as_slice().is_empty() || !label.has_its_cells() {
        return Err(Fault::BadRange);
    }
    Batch::new(alloc, label)
}

/// A queue takes a batch of these operations.
pub fn offer(alloc: Global, work: &mut Work, at: QueueAt, words: &[Word]) -> Result<(), Fault>
    requires { HasQueue work.old at }
    ensures { length work.new.memory.devices ≡ length work.old.memory.devices }
{
    offer_behind(alloc, work, at, 0, words)
}

/// The same, where the host of the batch has told so many items before.
pub fn offer_behind(
    alloc: Global,
    work: &mut Work,
    at: QueueAt,
    items_done: u64,
    words: &[Word],
) -> Result<(), Fault>
    requires { HasQueue work.old at }
    ensures { length work.new.memory.devices ≡ length work.old.memory.devices }
{
    let QueueAt { device, queue } = at;
    let batch = batch_of(alloc, QueueAt { device, queue }, items_done, words)?;
    if !work.lane_empty(QueueAt { device, queue }) {
        return Err(Fault::BadRange);
    }
    work.offer(QueueAt { device, queue }, batch);
    Ok(())
}

/// How many operations of the queue with this number were performed, of so many.
pub fn performed(work: &mut Work, number: u8, count: u8) -> u8 {
    let mut done = 0u8;
    for _ in 0..count {
        if work.perform(queue(number)) == Done::Op {
            done = done.wrapping_add(1);
        }
    }
    done
}

/// How many entries a log has.
pub fn entries(log: &WorkLog) -> usize {
    let mut count = 0usize;
    for _ in log.iter() {
        count = count.wrapping_add(1);
    }
    count
}
