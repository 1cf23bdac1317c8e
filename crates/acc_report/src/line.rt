//! The lines of a report.

ghost use Rattle.std.specs.Prelude.{◌≡◌, [], ◌∷◌, slice_index_or};
ghost use Rattle.acc_present.specs.Tables.{entry_presence};
ghost use Rattle.acc_script.specs.Arrays.{texts};
ghost use Rattle.acc_report.specs.Lines.{line_text, refusal_text, state_text, presence_text, queue_name, totals_text, discarded_text};
ghost use Rattle.acc_report.specs.Puts.{Puts, sink};

use crate::bytes::{put, put_number};
use crate::page::{PAGE, add, add_number, add_spaced, hand_on};
use acc_base::{DeviceId, FIRST_VALUE, Fault, QueueAt, QueueId};
use acc_batch::ValuesIter;
use acc_host::HostState;
use acc_present::Entry;
use std::io::Write;

/// A line of values, separated by one space.
pub(crate) fn put_values<W: Write>(out: &mut W, failed: &mut bool, values: ValuesIter<'_>)
    ensures { Puts (sink (W.contents out.old) failed.old) (sink (W.contents out.new) failed.new)
        (line_text values.entry) }
{
    let mut values = values;
    match values.next() {
        Some(first) => put_from(out, failed, first, values),
        None => put(out, failed, b"\n"),
    }
}

// A line of a value and more of them. They wait on a page, which is handed on where it is full.
fn put_from<W: Write>(out: &mut W, failed: &mut bool, first: i64, values: ValuesIter<'_>)
    ensures { Puts (sink (W.contents out.old) failed.old) (sink (W.contents out.new) failed.new)
        (line_text (first ∷ values.entry)) }
{
    let mut page = [0u8; PAGE];
    let mut waiting = add_number(&mut page, 0, first);
    for value in values {
        waiting = hand_on(out, failed, &page, waiting);
        waiting = add_spaced(&mut page, waiting, value);
    }
    waiting = hand_on(out, failed, &page, waiting);
    waiting = add(&mut page, waiting, b"\n");
    let (text, _) = page.split_at(waiting);
    put(out, failed, text);
}

/// Where a host stands.
#[tactic(auto, unfolding(crate::specs::Lines::state_text))]
pub(crate) fn put_state<W: Write>(out: &mut W, failed: &mut bool, state: HostState)
    ensures { Puts (sink (W.contents out.old) failed.old) (sink (W.contents out.new) failed.new)
        (state_text state) }
{
    match state {
        HostState::Running { ended: _ } => put(out, failed, b"unfinished\n"),
        HostState::Finished => put(out, failed, b"done\n"),
        HostState::Refused {
            ended: _,
            line,
            fault,
        } => put_refusal(out, failed, line, fault),
    }
}

// The line of a refusal.
fn put_refusal<W: Write>(out: &mut W, failed: &mut bool, line: u32, fault: Fault)
    ensures { Puts (sink (W.contents out.old) failed.old) (sink (W.contents out.new) failed.new)
        (refusal_text line fault) }
{
    put(out, failed, b"refused ");
    put_number(out, failed, line);
    put(out, failed, b" F");
    put_number(out, failed, fault.number());
    put(out, failed, b" ");
    put(out, failed, fault.name().as_bytes());
    put(out, failed, b"\n");
}

/// A range that is present on a device, with its counters.
pub(crate) fn put_presence<W: Write>(
    out: &mut W,
    failed: &mut bool,
    names: &[&[u8]],
    device: DeviceId,
    entry: &Entry,
)
    ensures { Puts (sink (W.contents out.old) failed.old) (sink (W.contents out.new) failed.new)
        (presence_text (texts names.now) device (entry_presence entry.now)) }
{
    put(out, failed, b"present ");
    put_number(out, failed, device.number());
    put(out, failed, b" ");
    put(out, failed, name_at(names, entry.range.array));
    put(out, failed, b"[");
    put_number(out, failed, entry.range.lo);
    put(out, failed, b":");
    put_number(out, failed, entry.range.len);
    put(out, failed, b"] s ");
    put_number(out, failed, entry.s);
    put(out, failed, b" d ");
    put_number(out, failed, entry.d);
    put(out, failed, b"\n");
}

// The name of an array, or no bytes where there is no such array.
fn name_at<'a>(names: &[&'a [u8]], array: u8) -> &'a [u8]
    ensures { result.now ≡ slice_index_or (texts names.now) array [] }
{
    match names.get(usize::from(array)) {
        Some(name) => name,
        None => &[],
    }
}

/// What a queue has performed, and what of it was discarded; one that has no batch has no line.
pub(crate) fn put_totals<W: Write>(
    out: &mut W,
    failed: &mut bool,
    at: &QueueAt,
    batches: u64,
    performed: u64,
    operations: u128,
    discarded: u64,
)
    ensures { Puts (sink (W.contents out.old) failed.old) (sink (W.contents out.new) failed.new)
        (totals_text at.now batches performed operations discarded) }
{
    if batches > 0 {
        put(out, failed, b"queue ");
        put_number(out, failed, at.device.number());
        put(out, failed, b" ");
        put_queue_name(out, failed, at.queue);
        put(out, failed, b" batches ");
        put_number(out, failed, batches);
        put(out, failed, b" operations ");
        put_number(out, failed, performed);
        put(out, failed, b" of ");
        put_number(out, failed, operations);
        put_discarded(out, failed, discarded);
        put(out, failed, b"\n");
    }
}

// How many operations were discarded, if there is one.
fn put_discarded<W: Write>(out: &mut W, failed: &mut bool, count: u64)
    ensures { Puts (sink (W.contents out.old) failed.old) (sink (W.contents out.new) failed.new)
        (discarded_text count) }
{
    if count > 0 {
        put(out, failed, b" discarded ");
        put_number(out, failed, count);
    }
}

/// Puts the name of a queue. That of an async value stands so far behind that value as the first of them.
pub fn put_queue_name<W: Write>(out: &mut W, failed: &mut bool, queue: QueueId)
    ensures { Puts (sink (W.contents out.old) failed.old) (sink (W.contents out.new) failed.new)
        (queue_name queue) }
{
    match queue.number() {
        0 => put(out, failed, b"sync"),
        1 => put(out, failed, b"noval"),
        number => put_number(out, failed, number - FIRST_VALUE),
    }
}
