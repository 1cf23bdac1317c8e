//! Events as a schedule.

ghost use Rattle.acc_explore.specs.Spellings.{event_words, joins, event_line, lines_from, queue_words, schedule_text, times_text};
ghost use Rattle.acc_report.specs.Puts.{Puts, sink};
ghost use Rattle.std.specs.Prelude.{◌≡◌};

use acc_base::QueueAt;
use acc_host::Event;
use acc_report::{put, put_number, put_queue_name};
use acc_schedule::MAX_TIMES;
use std::io::Write;

/// Puts events as a schedule that says them again: a line for each, or for up to `MAX_TIMES` of one in a row. `failed` tells afterwards
/// whether a write has failed; then nothing more is written.
pub fn put_schedule<W: Write>(out: &mut W, failed: &mut bool, events: &[Event])
    ensures { Puts (sink (W.contents out.old) failed.old) (sink (W.contents out.new) failed.new)
        (schedule_text events.now) }
{
    match events {
        [] => {}
        [first, others @ ..] => put_lines(out, failed, first, others),
    }
}

// The lines of an event and of those behind it.
fn put_lines<W: Write>(out: &mut W, failed: &mut bool, first: &Event, others: &[Event])
    ensures { Puts (sink (W.contents out.old) failed.old) (sink (W.contents out.new) failed.new)
        (lines_from first.now 1 others.now) }
{
    let mut event = *first;
    let mut times = 1;
    for next in others {
        if joins(&event, times, next) {
            times += 1;
        } else {
            put_line(out, failed, &event, times);
            event = *next;
            times = 1;
        }
    }
    put_line(out, failed, &event, times);
}

// Whether an event joins the line of one that has come so many times.
fn joins(event: &Event, times: u32, next: &Event) -> bool
    ensures { result ≡ joins event.now times next.now }
{
    *event != Event::Close && event == next && times < MAX_TIMES
}

// The line of an event that comes so many times in a row.
fn put_line<W: Write>(out: &mut W, failed: &mut bool, event: &Event, times: u32)
    ensures { Puts (sink (W.contents out.old) failed.old) (sink (W.contents out.new) failed.new)
        (event_line event.now times) }
{
    put_event(out, failed, event);
    put_times(out, failed, times);
    put(out, failed, b"\n");
}

// How often, unless it is once.
fn put_times<W: Write>(out: &mut W, failed: &mut bool, times: u32)
    ensures { Puts (sink (W.contents out.old) failed.old) (sink (W.contents out.new) failed.new)
        (times_text times) }
{
    if times != 1 {
        put(out, failed, b" ");
        put_number(out, failed, times);
    }
}

// What a line says of an event.
#[tactic(auto, unfolding(crate::specs::Spellings::event_words))]
fn put_event<W: Write>(out: &mut W, failed: &mut bool, event: &Event)
    ensures { Puts (sink (W.contents out.old) failed.old) (sink (W.contents out.new) failed.new)
        (event_words event.now) }
{
    match event {
        Event::Host(host) => {
            put(out, failed, b"host ");
            put_number(out, failed, host.number());
        }
        Event::Take(at) => {
            put(out, failed, b"take ");
            put_queue(out, failed, *at);
        }
        Event::Perform(at) => {
            put(out, failed, b"do ");
            put_queue(out, failed, *at);
        }
        Event::Close => put(out, failed, b"close"),
    }
}

// A queue, by its device and its name.
fn put_queue<W: Write>(out: &mut W, failed: &mut bool, at: QueueAt)
    ensures { Puts (sink (W.contents out.old) failed.old) (sink (W.contents out.new) failed.new)
        (queue_words at) }
{
    put_number(out, failed, at.device.number());
    put(out, failed, b" ");
    put_queue_name(out, failed, at.queue);
}
