//! The line that tells what an event did.

ghost use Rattle.std.specs.Prelude.{◌≡◌};
ghost use Rattle.std.specs.Option.{option_map};
ghost use Rattle.acc_script.specs.Arrays.{texts};
ghost use Rattle.acc_report.specs.Puts.{Puts, sink};
ghost use Rattle.acc_steps.specs.Lines.{answer_text, deed_text, device_in, batch_host_text, did_nothing, batch_label, nothing_text, step_text, words_told};

use crate::deed::Deed;
use crate::head::put_head;
use crate::refusal::put_refusal;
use crate::source::put_statement;
use crate::words::{put_accepted, put_cells, put_op, put_waits};
use acc_base::DeviceId;
use acc_batch::Label;
use acc_core::World;
use acc_host::Event;
use acc_report::{plain_ops, put, put_number};
use std::io::Write;

/// What steps are told with: the names of the arrays, the lines of the script, and whether events that did nothing are told too.
#[derive(Clone, Copy)]
pub struct Telling<'a, 't> {
    pub names: &'a [&'t [u8]],
    pub source: &'a [&'t [u8]],
    pub idle: bool,
}

/// Puts the line of an event: its number, the line of the schedule, who went on, the line of the statement, if it is a host's, and what
/// it did. An event that did nothing has a line only where that is asked for.
#[tactic(auto, unfolding(crate::specs::Lines::step_text))]
pub fn put_step<W: Write>(
    out: &mut W,
    failed: &mut bool,
    telling: &Telling,
    number: u64,
    line: u32,
    event: Event,
    statement: u32,
    deed: &Deed,
    world: &World,
)
    ensures { Puts (sink (W.contents out.old) failed.old) (sink (W.contents out.new) failed.new)
        (step_text (words_told telling.now) number line event statement deed.now world.now) }
{
    if is_nothing(deed) && !telling.idle {
        return;
    }
    put_head(out, failed, number, line, &event);
    put_statement(out, failed, telling.source, statement);
    put_deed(out, failed, telling.names, world, event, deed);
    put(out, failed, b"\n");
}

pub(crate) fn is_nothing(deed: &Deed) -> bool
    ensures { result ≡ did_nothing deed.now }
{
    match deed {
        Deed::Nothing => true,
        Deed::Accepted | Deed::Saw | Deed::Wrote | Deed::Set => false,
        Deed::Printed { .. } | Deed::Tested { .. } | Deed::Refused { .. } => false,
        Deed::Took { .. } | Deed::Performed { .. } | Deed::Closed { .. } => false,
    }
}

// What an event did.
#[tactic(auto, unfolding(crate::specs::Lines::deed_text))]
fn put_deed<W: Write>(
    out: &mut W,
    failed: &mut bool,
    names: &[&[u8]],
    world: &World,
    event: Event,
    deed: &Deed,
)
    ensures { Puts (sink (W.contents out.old) failed.old) (sink (W.contents out.new) failed.new)
        (deed_text (texts names.now) world.now event deed.now) }
{
    match deed {
        Deed::Nothing => put_nothing(out, failed, world, event),
        Deed::Accepted => put_accepted(out, failed, names, world),
        Deed::Saw => put(out, failed, b" | all that it waits for is performed"),
        Deed::Wrote | Deed::Set => {}
        Deed::Printed { range } => {
            put(out, failed, b" | prints");
            put_cells(out, failed, world, *range);
        }
        Deed::Tested { answer } => put_answer(out, failed, *answer),
        Deed::Refused { fault } => put_refusal(out, failed, names, world, event, *fault),
        Deed::Took { number } => {
            put(out, failed, b"takes batch ");
            put_number(out, failed, *number);
            put_host(out, failed, label_in(world, event, *number));
        }
        Deed::Performed { number, what } => {
            put(out, failed, b"batch ");
            put_number(out, failed, *number);
            put(out, failed, b": ");
            put_op(out, failed, names, device_in(event), what);
        }
        Deed::Closed { left } => {
            put(out, failed, b"closes; ");
            put_number(out, failed, *left);
            put(out, failed, b" queues hold their room and stay open");
        }
    }
}

// What a question was answered.
fn put_answer<W: Write>(out: &mut W, failed: &mut bool, answer: bool)
    ensures { Puts (sink (W.contents out.old) failed.old) (sink (W.contents out.new) failed.new)
        (answer_text answer) }
{
    if answer {
        put(out, failed, b" | prints 1");
    } else {
        put(out, failed, b" | prints 0");
    }
}

// An event that did nothing.
#[tactic(auto, unfolding(crate::specs::Lines::nothing_text))]
fn put_nothing<W: Write>(out: &mut W, failed: &mut bool, world: &World, event: Event)
    ensures { Puts (sink (W.contents out.old) failed.old) (sink (W.contents out.new) failed.new)
        (nothing_text world.now event) }
{
    match event {
        Event::Host(_) => put(out, failed, b" | does nothing"),
        Event::Take(_) => put(out, failed, b"takes nothing"),
        Event::Perform(at) => put_waits(out, failed, at.device, world.next_op(at)),
        Event::Close => {}
    }
}

// The label of the batch with this number on the queue of an event.
fn label_in(world: &World, event: Event, number: u64) -> Option<&Label>
    ensures { option_map (λ l. l.now) result ≡ batch_label world.now event number }
{
    match event {
        Event::Take(at) | Event::Perform(at) => world.place().placed(at, number),
        Event::Host(_) | Event::Close => None,
    }
}

fn device_in(event: Event) -> DeviceId
    ensures { result ≡ device_in event }
{
    match event {
        Event::Take(at) | Event::Perform(at) => at.device,
        Event::Host(_) | Event::Close => DeviceId::new(0),
    }
}

// The host of a batch, or that it is the queue's close.
fn put_host<W: Write>(out: &mut W, failed: &mut bool, label: Option<&Label>)
    ensures { Puts (sink (W.contents out.old) failed.old) (sink (W.contents out.new) failed.new)
        (batch_host_text (option_map (λ l. l.now) label.entry)) }
{
    if let Some(label) = label {
        if plain_ops(label.ops.get().as_slice()) > 0 {
            put(out, failed, b" of host ");
            put_number(out, failed, label.host.number());
        } else {
            put(out, failed, b", its close");
        }
    }
}
