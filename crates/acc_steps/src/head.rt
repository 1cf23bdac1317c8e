//! The head of a line: the number of the event, the line of the schedule, and who.

ghost use Rattle.std.specs.Prelude.{◌≡◌, ◌<◌, ◌-◌, ◌++◌, length, decimal};
ghost use Rattle.acc_report.specs.Puts.{Puts, sink};
ghost use Rattle.acc_report.specs.Lines.{queue_name};
ghost use Rattle.acc_steps.specs.Lines.{head_text, queue_at_text, spaces, who_text};

use acc_base::{FIRST_VALUE, QueueAt, QueueId};
use acc_host::Event;
use acc_report::{put, put_number, put_queue_name};
use itoa::Buffer;
use std::io::Write;

/// The number of an event, the line of the schedule, and who goes on, in columns.
pub(crate) fn put_head<W: Write>(
    out: &mut W,
    failed: &mut bool,
    number: u64,
    line: u32,
    event: &Event,
)
    ensures { Puts (sink (W.contents out.old) failed.old) (sink (W.contents out.new) failed.new)
        (head_text number line event.now) }
{
    put_spaces(out, failed, 5usize.saturating_sub(digits(number)));
    put_number(out, failed, number);
    put(out, failed, b"  line ");
    put_number(out, failed, line);
    put_spaces(out, failed, 4usize.saturating_sub(digits(u64::from(line))));
    put_who(out, failed, event);
    put_spaces(out, failed, 15usize.saturating_sub(who_len(event)));
}

// So many spaces.
fn put_spaces<W: Write>(out: &mut W, failed: &mut bool, count: usize)
    ensures { Puts (sink (W.contents out.old) failed.old) (sink (W.contents out.new) failed.new)
        (spaces count) }
{
    for _ in 0..count {
        put(out, failed, b" ");
    }
}

// How many digits a number has.
fn digits(number: u64) -> usize
    ensures value { result ≡ length (decimal number) }
    ensures short { result < 21 }
{
    Buffer::new().format(number).len()
}

// Who goes on.
#[tactic(auto, unfolding(crate::specs::Lines::who_text))]
fn put_who<W: Write>(out: &mut W, failed: &mut bool, event: &Event)
    ensures { Puts (sink (W.contents out.old) failed.old) (sink (W.contents out.new) failed.new)
        (who_text event.now) }
{
    match event {
        Event::Host(host) => {
            put(out, failed, b"host ");
            put_number(out, failed, host.number());
        }
        Event::Take(at) | Event::Perform(at) => put_queue(out, failed, *at),
        Event::Close => put(out, failed, b"owner"),
    }
}

/// A queue, by its device and its name.
#[tactic(auto, unfolding(crate::specs::Lines::queue_at_text))]
pub(crate) fn put_queue<W: Write>(out: &mut W, failed: &mut bool, at: QueueAt)
    ensures { Puts (sink (W.contents out.old) failed.old) (sink (W.contents out.new) failed.new)
        (queue_at_text at) }
{
    put(out, failed, b"queue ");
    put_number(out, failed, at.device.number());
    put(out, failed, b" ");
    put_queue_name(out, failed, at.queue);
}

// How many bytes that takes.
#[tactic(auto, unfolding(crate::specs::Lines::who_text, crate::specs::Lines::queue_at_text))]
fn who_len(event: &Event) -> usize
    ensures { result ≡ length (who_text event.now) }
{
    match event {
        Event::Host(host) => 5 + digits(u64::from(host.number())),
        Event::Take(at) | Event::Perform(at) => {
            7 + digits(u64::from(at.device.number())) + name_len(at.queue)
        }
        Event::Close => 5,
    }
}

// How many bytes the name of a queue has.
fn name_len(queue: QueueId) -> usize
    ensures value { result ≡ length (queue_name queue) }
    ensures short { result < 21 }
{
    match queue.number() {
        0 => 4,
        1 => 5,
        number => digits(u64::from(number - FIRST_VALUE)),
    }
}
