//! Ranges, operations and batches in words.

ghost use Rattle.std.specs.Prelude.{◌≡◌, ◌+◌, ◌++◌, [], codes, decimal, Option, slice_index_or};
ghost use Rattle.std.specs.Option.{option_map};
ghost use Rattle.std.specs.List.{flat_map};
ghost use Rattle.acc_present.specs.Presences.{Presence};
ghost use Rattle.acc_script.specs.Arrays.{texts};
ghost use Rattle.acc_report.specs.Puts.{Puts, sink};
ghost use Rattle.acc_report.specs.Lines.{each_below};
ghost use Rattle.acc_steps.specs.Lines.{accepted_text, batch_by, batch_in, batch_text, cell_text, counters_text, entry_text, item_text, op_text, op_word, op_words, queue_at_text, range_text, use_text, waits_text};

use crate::found::held_on;
use crate::head::put_queue;
use acc_base::{BlockId, DeviceId, QueueAt, QueueId, Range};
use acc_batch::OpLabel;
use acc_core::World;
use acc_place::{Answer, DataItem, PlaceEntry};
use acc_report::{put, put_number};
use std::io::Write;

/// A range, as it is written in a clause.
#[tactic(auto, unfolding(crate::specs::Lines::range_text))]
pub(crate) fn put_range<W: Write>(out: &mut W, failed: &mut bool, names: &[&[u8]], range: Range)
    ensures { Puts (sink (W.contents out.old) failed.old) (sink (W.contents out.new) failed.new)
        (range_text (texts names.now) range) }
{
    put(out, failed, name_at(names, range.array));
    put(out, failed, b"[");
    put_number(out, failed, range.lo);
    put(out, failed, b":");
    put_number(out, failed, range.len);
    put(out, failed, b"]");
}

// The name of an array, or no bytes where there is no such array.
fn name_at<'a>(names: &[&'a [u8]], array: u8) -> &'a [u8]
    ensures { result.now ≡ slice_index_or (texts names.now) array [] }
{
    match names.get(usize::from(array)) {
        Some(name) => name,
        None => &[],
    }
}

/// A range of a directive, and the counters of what holds it on a device.
#[tactic(auto, unfolding(crate::specs::Lines::item_text))]
pub(crate) fn put_item<W: Write>(
    out: &mut W,
    failed: &mut bool,
    names: &[&[u8]],
    world: &World,
    device: DeviceId,
    item: &DataItem,
)
    ensures { Puts (sink (W.contents out.old) failed.old) (sink (W.contents out.new) failed.new)
        (item_text (texts names.now) world.now device item.now) }
{
    put(out, failed, b" | ");
    put_range(out, failed, names, item.range);
    put_counters(out, failed, held_on(world, device, item.range));
}

/// The counters of what holds a range, or that nothing does.
pub(crate) fn put_counters<W: Write>(out: &mut W, failed: &mut bool, counters: Option<(u64, u64)>)
    ensures { (p : Option Presence) → counters ≡ option_map (λ p. (p.s, p.d)) p
        → Puts (sink (W.contents out.old) failed.old) (sink (W.contents out.new) failed.new)
        (counters_text p) }
{
    match counters {
        None => put(out, failed, b" absent"),
        Some((structured, dynamic)) => {
            put(out, failed, b" s ");
            put_number(out, failed, structured);
            put(out, failed, b" d ");
            put_number(out, failed, dynamic);
        }
    }
}

/// The directive that was accepted last: what holds each of its ranges now, and its batch.
#[tactic(auto, unfolding(crate::specs::Lines::accepted_text))]
pub(crate) fn put_accepted<W: Write>(out: &mut W, failed: &mut bool, names: &[&[u8]], world: &World)
    ensures { Puts (sink (W.contents out.old) failed.old) (sink (W.contents out.new) failed.new)
        (accepted_text (texts names.now) world.now) }
{
    put_entry(out, failed, names, world, world.place().history().last());
    put_placed(out, failed, world, world.place().answers().last());
}

// The batch of a directive that was answered so, if it has one.
fn put_placed<W: Write>(out: &mut W, failed: &mut bool, world: &World, answer: Option<&Answer>)
    ensures { Puts (sink (W.contents out.old) failed.old) (sink (W.contents out.new) failed.new)
        (batch_by world.now (batch_in (option_map (λ a. a.now) answer.entry))) }
{
    let Some(answer) = answer else {
        return;
    };
    match answer.placed().batch {
        Some((at, number)) => put_batch(out, failed, world, at, number),
        None => {}
    }
}

// The ranges of an accepted directive.
fn put_entry<W: Write>(
    out: &mut W,
    failed: &mut bool,
    names: &[&[u8]],
    world: &World,
    entry: Option<&PlaceEntry>,
)
    ensures { Puts (sink (W.contents out.old) failed.old) (sink (W.contents out.new) failed.new)
        (entry_text (texts names.now) world.now (option_map (λ e. e.now) entry.entry)) }
{
    if let Some(PlaceEntry::Accepted { host: _, directive }) = entry {
        for item in directive.items().as_slice() {
            put_item(out, failed, names, world, directive.device(), item);
        }
    }
}

// A batch by its number and its queue, and its operations.
#[tactic(auto, unfolding(crate::specs::Lines::batch_text))]
fn put_batch<W: Write>(out: &mut W, failed: &mut bool, world: &World, at: QueueAt, number: u64)
    ensures { Puts (sink (W.contents out.old) failed.old) (sink (W.contents out.new) failed.new)
        (batch_text world.now at number) }
{
    let QueueAt { device, queue } = at;
    put(out, failed, b" | batch ");
    put_number(out, failed, number);
    put(out, failed, b" of ");
    put_queue(out, failed, QueueAt { device, queue });
    if let Some(label) = world.place().placed(QueueAt { device, queue }, number) {
        put(out, failed, b": ");
        put_op_words(out, failed, label.ops.get().as_slice());
    }
}

// Operations, each by a word.
fn put_op_words<W: Write>(out: &mut W, failed: &mut bool, ops: &[OpLabel])
    ensures { Puts (sink (W.contents out.old) failed.old) (sink (W.contents out.new) failed.new)
        (op_words ops.now) }
{
    if let Some((first, others)) = ops.split_first() {
        put(out, failed, op_word(first));
        for op in others {
            put(out, failed, b", ");
            put(out, failed, op_word(op));
        }
    }
}

pub(crate) fn op_word(op: &OpLabel) -> &'static [u8]
    ensures { result.now ≡ op_word op.now }
{
    match op {
        OpLabel::Make { .. } => b"make",
        OpLabel::CopyIn { .. } => b"copy in",
        OpLabel::CopyOut { .. } => b"copy out",
        OpLabel::Release { .. } => b"release",
        OpLabel::Run { .. } => b"loop",
        OpLabel::Await { .. } => b"await",
        OpLabel::Close => b"close",
    }
}

/// What an operation of a device does.
#[tactic(auto, unfolding(crate::specs::Lines::op_text))]
pub(crate) fn put_op<W: Write>(
    out: &mut W,
    failed: &mut bool,
    names: &[&[u8]],
    device: DeviceId,
    op: &OpLabel,
)
    ensures { Puts (sink (W.contents out.old) failed.old) (sink (W.contents out.new) failed.new)
        (op_text (texts names.now) device op.now) }
{
    match op {
        OpLabel::Make { range, block } => {
            put(out, failed, b"makes block ");
            put_number(out, failed, block.number());
            put(out, failed, b" for ");
            put_range(out, failed, names, *range);
        }
        OpLabel::CopyIn { range, block } => {
            put(out, failed, b"copies ");
            put_range(out, failed, names, *range);
            put(out, failed, b" into block ");
            put_number(out, failed, block.number());
        }
        OpLabel::CopyOut { range, block } => {
            put(out, failed, b"copies ");
            put_range(out, failed, names, *range);
            put(out, failed, b" out of block ");
            put_number(out, failed, block.number());
        }
        OpLabel::Release { block } => {
            put(out, failed, b"releases block ");
            put_number(out, failed, block.number());
        }
        OpLabel::Run { kernel: _, uses } => {
            put(out, failed, b"runs its loop, with");
            put_uses(out, failed, names, uses.get().as_slice());
        }
        OpLabel::Await { queue, number } => {
            put(out, failed, b"has awaited batch ");
            put_batch_of(out, failed, device, *queue, *number);
        }
        OpLabel::Close => put(out, failed, b"closes"),
    }
}

// The blocks that a loop uses, each with the range that it stands for.
fn put_uses<W: Write>(out: &mut W, failed: &mut bool, names: &[&[u8]], uses: &[(BlockId, Range)])
    ensures { Puts (sink (W.contents out.old) failed.old) (sink (W.contents out.new) failed.new)
        (flat_map (use_text (texts names.now)) uses.now) }
{
    for used in uses {
        put_use(out, failed, names, used.0, used.1);
    }
}

#[tactic(auto, unfolding(crate::specs::Lines::use_text))]
fn put_use<W: Write>(out: &mut W, failed: &mut bool, names: &[&[u8]], block: BlockId, range: Range)
    ensures { Puts (sink (W.contents out.old) failed.old) (sink (W.contents out.new) failed.new)
        (use_text (texts names.now) (block, range)) }
{
    put(out, failed, b" ");
    put_range(out, failed, names, range);
    put(out, failed, b" in block ");
    put_number(out, failed, block.number());
}

// A batch by its number, and its queue.
fn put_batch_of<W: Write>(
    out: &mut W,
    failed: &mut bool,
    device: DeviceId,
    queue: QueueId,
    number: u64,
)
    ensures { Puts (sink (W.contents out.old) failed.old) (sink (W.contents out.new) failed.new)
        (decimal number
        ++ (codes " of " ++ queue_at_text (record { device = device; queue = queue }))) }
{
    put_number(out, failed, number);
    put(out, failed, b" of ");
    put_queue(out, failed, QueueAt { device, queue });
}

/// What keeps a queue from performing the operation that comes next.
pub(crate) fn put_waits<W: Write>(
    out: &mut W,
    failed: &mut bool,
    device: DeviceId,
    next: Option<&OpLabel>,
)
    ensures { Puts (sink (W.contents out.old) failed.old) (sink (W.contents out.new) failed.new)
        (waits_text device (option_map (λ op. op.now) next.entry)) }
{
    let Some(next) = next else {
        put(out, failed, b"performs nothing");
        return;
    };
    match next {
        OpLabel::Await { queue, number } => {
            put(out, failed, b"waits for batch ");
            put_batch_of(out, failed, device, *queue, *number);
        }
        OpLabel::Make { .. } | OpLabel::CopyIn { .. } | OpLabel::CopyOut { .. } => {
            put(out, failed, b"performs nothing");
        }
        OpLabel::Release { .. } | OpLabel::Run { .. } | OpLabel::Close => {
            put(out, failed, b"performs nothing");
        }
    }
}

/// The values of a range of a host array.
pub(crate) fn put_cells<W: Write>(out: &mut W, failed: &mut bool, world: &World, range: Range)
    ensures { Puts (sink (W.contents out.old) failed.old) (sink (W.contents out.new) failed.new)
        (each_below range.len (λ i. cell_text world.now range.array (range.lo + i))) }
{
    world.place().config().keeps();
    for index in 0..range.len {
        if let Some(cell) = range.lo.checked_add(index) {
            put_cell(out, failed, world, range.array, cell);
        }
    }
}

// A cell of a host array, if it is there.
#[tactic(auto, unfolding(crate::specs::Lines::cell_text))]
fn put_cell<W: Write>(out: &mut W, failed: &mut bool, world: &World, array: u8, cell: u32)
    ensures { Puts (sink (W.contents out.old) failed.old) (sink (W.contents out.new) failed.new)
        (cell_text world.now array cell) }
{
    if let Some(value) = world.host_cell(array, cell) {
        put(out, failed, b" ");
        put_number(out, failed, value);
    }
}
