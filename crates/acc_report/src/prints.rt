//! What a host's ended statements printed.

ghost use Rattle.std.specs.Prelude.{◌≡◌, ◌-◌, ◌==◌, [], ◌∷◌, drop, pos, false, if◌then◌else◌, IfNone, IfSome};
ghost use Rattle.std.specs.List.{flat_map};
ghost use Rattle.acc_kernel.specs.Values.{truth};
ghost use Rattle.acc_host.specs.Engines.{Had};
ghost use Rattle.acc_host.specs.Steps.{nothing_owed, owed_by};
ghost use Rattle.acc_report.specs.Lines.{line_text};
ghost use Rattle.acc_report.specs.Prints.{answer_line, device_after, entries_taken, statement_lines, printed_lines, placed_line, placed_size, shown_line, entry_count, tested_value, tested};
ghost use Rattle.acc_report.specs.Puts.{Puts, sink};

use crate::bytes::{put, put_number};
use crate::line::put_values;
use acc_base::QueueId;
use acc_host::{Act, OwnEntries, OwnEntry, Statement};
use acc_place::{Answer, Directive, Kind};
use acc_work::Told;
use std::io::Write;

/// Puts the lines of statements that a host has ended one after another, whose entries are the next ones.
pub(crate) fn put_lines<W: Write>(
    out: &mut W,
    failed: &mut bool,
    devices: u8,
    statements: &[Statement],
    entries: &mut OwnEntries,
)
    ensures { Puts (sink (W.contents out.old) failed.old) (sink (W.contents out.new) failed.new)
        (flat_map line_text (printed_lines devices 0 statements.now entries.old)) }
{
    let mut device = 0u32;
    for statement in statements {
        device = put_statement(out, failed, devices, device, &statement.act, entries);
    }
}

// Puts the line of a statement, if it has one, and gives the device behind it; its entries are then read.
fn put_statement<W: Write>(
    out: &mut W,
    failed: &mut bool,
    devices: u8,
    device: u32,
    act: &Act,
    entries: &mut OwnEntries,
) -> u32
    ensures puts { Puts (sink (W.contents out.old) failed.old)
        (sink (W.contents out.new) failed.new)
        (flat_map line_text (statement_lines devices device act.now entries.old)) }
    ensures device { result ≡ device_after act.now device }
    ensures left { entries.new ≡ drop (entries_taken act.now entries.old) entries.old }
{
    match act {
        Act::Place { directive: _ } => put_placed(out, failed, entries),
        Act::Print { range: _ } => put_shown(out, failed, entries),
        Act::Write { .. } => pass_one(entries),
        Act::SetDevice { device: set } => return *set,
        Act::SetAsync { value: _ } => {}
        Act::ShowDevice => put_line(out, failed, device),
        Act::ShowDevices => put_line(out, failed, u32::from(devices)),
    }
    device
}

// Puts a line with a number.
fn put_line<W: Write>(out: &mut W, failed: &mut bool, number: u32)
    ensures { Puts (sink (W.contents out.old) failed.old) (sink (W.contents out.new) failed.new)
        (flat_map line_text ((pos number ∷ []) ∷ [])) }
{
    put_number(out, failed, number);
    put(out, failed, b"\n");
}

// Puts the line of an answer.
fn put_truth<W: Write>(out: &mut W, failed: &mut bool, answer: bool)
    ensures { Puts (sink (W.contents out.old) failed.old) (sink (W.contents out.new) failed.new)
        (flat_map line_text ((truth answer ∷ []) ∷ [])) }
{
    put_line(out, failed, u32::from(answer));
}

// Passes the next entry, if there is one.
fn pass_one(entries: &mut OwnEntries)
    ensures { entries.new ≡ drop 1 entries.old }
{
    let _ = entries.next();
}

// Puts the values of a print that is next.
fn put_shown<W: Write>(out: &mut W, failed: &mut bool, entries: &mut OwnEntries)
    ensures puts { Puts (sink (W.contents out.old) failed.old)
        (sink (W.contents out.new) failed.new) (flat_map line_text (shown_line entries.old)) }
    ensures left { entries.new ≡ drop 1 entries.old }
{
    if let Some(OwnEntry::Had { what }) = entries.next() {
        put_told(out, failed, what);
    }
}

// Puts the values of an item, if it is a print.
fn put_told<W: Write>(out: &mut W, failed: &mut bool, what: &Told)
    ensures { Puts (sink (W.contents out.old) failed.old) (sink (W.contents out.new) failed.new)
        (flat_map line_text (shown_line (Had what.now ∷ []))) }
{
    if let Told::Print { range: _, values } = what {
        put_values(out, failed, values.get().iter());
    }
}

// Puts the answer of a directive that is next, if it is a question.
fn put_placed<W: Write>(out: &mut W, failed: &mut bool, entries: &mut OwnEntries)
    ensures puts { Puts (sink (W.contents out.old) failed.old)
        (sink (W.contents out.new) failed.new) (flat_map line_text (placed_line entries.old)) }
    ensures left { entries.new ≡ drop (placed_size entries.old) entries.old }
{
    if let Some(OwnEntry::Gave { own }) = entries.next() {
        put_answer(out, failed, own.directive, own.answer, entries);
    }
}

// Puts the answer of a directive, if it is a question, and passes what settles it. These entries stand behind it.
fn put_answer<W: Write>(
    out: &mut W,
    failed: &mut bool,
    directive: &Directive,
    answer: &Answer,
    entries: &mut OwnEntries,
)
    ensures puts { Puts (sink (W.contents out.old) failed.old)
        (sink (W.contents out.new) failed.new)
        (flat_map line_text (answer_line directive.now.kind directive.now answer.now entries.old)) }
    ensures left { entries.new
        ≡ drop (entry_count (owed_by directive.now answer.now) - 1) entries.old }
{
    let owed = is_owed(directive, answer);
    match directive.kind() {
        Kind::AsyncTest => put_truth(out, failed, !owed || is_tested(entries)),
        kind => {
            if owed {
                pass_one(entries);
            }
            if matches!(kind, Kind::IsPresent) {
                put_truth(out, failed, answer.is_present());
            }
        }
    }
}

// Whether something is owed for a directive that was answered so, which the next item settles.
fn is_owed(directive: &Directive, answer: &Answer) -> bool
    ensures size { entry_count (owed_by directive.now answer.now) ≡ (if result then 2 else 1) }
    ensures none { result ≡ false → owed_by directive.now answer.now ≡ nothing_owed }
{
    match directive.kind() {
        Kind::Wait | Kind::AsyncTest => !answer.counts_nothing(),
        _ => is_on_sync(answer),
    }
}

// Whether a batch was placed on queue sync.
fn is_on_sync(answer: &Answer) -> bool
    ensures none { IfNone answer.now.batch (result ≡ false) }
    ensures some { IfSome answer.now.batch (λ batch. result ≡ (batch.0.queue == 0)) }
{
    match answer.batch() {
        Some((at, _)) => at.queue == QueueId::SYNC,
        None => false,
    }
}

// The answer of the test that is next.
fn is_tested(entries: &mut OwnEntries) -> bool
    ensures answer { truth result ≡ tested entries.old }
    ensures left { entries.new ≡ drop 1 entries.old }
{
    if let Some(OwnEntry::Had { what }) = entries.next()
        && let Told::Test { answer, .. } = what
    {
        return *answer;
    }
    true
}
