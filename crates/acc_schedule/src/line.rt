//! What a line of a schedule says.

ghost use Rattle.std.specs.Prelude.{◌≡◌, ℕ, option_map, List, MatchOption, if◌then◌else◌};
ghost use Rattle.acc_host.specs.declared.event.Event.{Event};
ghost use Rattle.acc_host.specs.declared.event.Event.TheVariants.{Take, Perform};
ghost use Rattle.acc_schedule.specs.Schedules.{words, host_named, async_queue, queue_by_word, queue_named, turn_of, one_turn, times_of, asked_turn, times_word, host_events, queue_events, close_events, round_events, events_by, line_events, turn_read, line_read};

use crate::turn::{MAX_TIMES, ScheduleLine, Turn, queue_at};
use crate::words::{are_plain, is_number, next_word, number_below};
use acc_base::{HostId, QueueAt, QueueId, VALUES};
use acc_host::Event;
use acc_token::{ReadKind, is, value_of};

// The event of a host that is there.
fn host_named(word: &[u8], hosts: u8) -> Option<Event>
    ensures { result ≡ host_named hosts word.now }
{
    let host = number_below(word, hosts)?;
    Some(Event::Host(HostId::new(host)))
}

fn async_queue(word: &[u8]) -> Option<u8>
    ensures { result ≡ async_queue word.now }
{
    if !is_number(word) {
        return None;
    }
    let value = number_below(word, VALUES)?;
    Some(QueueId::of_value(u64::from(value)).number())
}

// The queue that a word stands for.
fn queue_of(word: &[u8]) -> Option<u8>
    ensures { result ≡ queue_by_word word.now }
{
    if is(word, b"sync") {
        Some(QueueId::SYNC.number())
    } else if is(word, b"noval") {
        Some(QueueId::NOVAL.number())
    } else {
        async_queue(word)
    }
}

// A queue of a device that is there.
fn queue_named(device: &[u8], queue: &[u8], devices: u8) -> Option<QueueAt>
    ensures { result ≡ queue_named devices device.now queue.now }
{
    let device = number_below(device, devices)?;
    let queue = queue_of(queue)?;
    Some(queue_at(device, queue))
}

// The event of a queue, if there is one.
fn queue_event(at: Option<QueueAt>, takes: bool) -> Option<Event>
    ensures { result ≡ option_map (λ q. if takes then Take q else Perform q) at }
{
    let at = at?;
    if takes {
        Some(Event::Take(at))
    } else {
        Some(Event::Perform(at))
    }
}

// How often, as a number says it.
#[tactic(auto, unfolding(crate::specs::Schedules::times_of))]
fn times_of(word: &[u8]) -> Result<u32, ReadKind>
    ensures { result ≡ times_of word.now }
{
    match value_of(word, u64::from(MAX_TIMES)) {
        None | Some(0) => Err(ReadKind::Limit),
        Some(times) => Ok(times as u32),
    }
}

// A turn, if the words before the last one name what is there, so often as that says.
fn asked_turn(formed: bool, turn: Option<Turn>, times: &[u8]) -> Result<ScheduleLine, ReadKind>
    ensures { (round : List Event)
        → asked_turn formed (turn_read round turn) (Some times.now) ≡ line_read round result }
{
    if !formed || !is_number(times) {
        return Err(ReadKind::Form);
    }
    let Some(turn) = turn else {
        return Err(ReadKind::Name);
    };
    let times = times_of(times)?;
    Ok(ScheduleLine { turn, times })
}

fn one_turn(event: Option<Event>) -> Option<Turn>
    ensures { (round : List Event) → turn_read round result ≡ one_turn event }
{
    let event = event?;
    Some(Turn::One(event))
}

// The word that says how often, where it is the last one or is missing.
fn times_word(others: &[u8]) -> Option<&[u8]>
    ensures { MatchOption result (times_word (words others.now) ≡ None) (λ word.
        times_word (words others.now) ≡ Some word.now) }
{
    let (word, behind) = next_word(others);
    if word.is_empty() {
        return Some(b"1");
    }
    let (more, _) = next_word(behind);
    if more.is_empty() { Some(word) } else { None }
}

// What a `host` line says, by the words behind the first.
#[tactic(auto, unfolding(crate::specs::Schedules::host_events))]
fn host_line(others: &[u8], hosts: u8) -> Result<ScheduleLine, ReadKind>
    ensures { (round : List Event) → host_events hosts (words others.now) ≡ line_read round result }
{
    let (host, behind) = next_word(others);
    if host.is_empty() {
        return Err(ReadKind::Form);
    }
    let Some(times) = times_word(behind) else {
        return Err(ReadKind::Form);
    };
    asked_turn(is_number(host), one_turn(host_named(host, hosts)), times)
}

// The same of a `take` line, or a `do` line.
#[tactic(auto, unfolding(crate::specs::Schedules::queue_events))]
fn queue_line(others: &[u8], devices: u8, takes: bool) -> Result<ScheduleLine, ReadKind>
    ensures { (round : List Event)
        → queue_events devices (λ q. if takes then Take q else Perform q) (words others.now)
        ≡ line_read round result }
{
    let (device, behind) = next_word(others);
    let (queue, behind) = next_word(behind);
    if device.is_empty() || queue.is_empty() {
        return Err(ReadKind::Form);
    }
    let Some(times) = times_word(behind) else {
        return Err(ReadKind::Form);
    };
    let event = queue_event(queue_named(device, queue, devices), takes);
    asked_turn(is_number(device), one_turn(event), times)
}

// The same of a `close` line.
#[tactic(auto, unfolding(crate::specs::Schedules::close_events))]
fn close_line(others: &[u8]) -> Result<ScheduleLine, ReadKind>
    ensures { (round : List Event) → close_events (words others.now) ≡ line_read round result }
{
    let (more, _) = next_word(others);
    if !more.is_empty() {
        return Err(ReadKind::Form);
    }
    let turn = Turn::One(Event::Close);
    Ok(ScheduleLine { turn, times: 1 })
}

// The same of a `round` line.
#[tactic(auto, unfolding(crate::specs::Schedules::round_events))]
fn round_line(others: &[u8]) -> Result<ScheduleLine, ReadKind>
    ensures { (hosts devices : ℕ)
        → round_events hosts devices (words others.now) ≡ line_read (turn_of hosts devices) result }
{
    let (times, behind) = next_word(others);
    let (more, _) = next_word(behind);
    if times.is_empty() || !more.is_empty() {
        return Err(ReadKind::Form);
    }
    asked_turn(true, Some(Turn::Round), times)
}

// What the words of a line say, by the first of them.
fn line_by(first: &[u8], others: &[u8], hosts: u8, devices: u8) -> Result<ScheduleLine, ReadKind>
    ensures { events_by hosts devices first.now (words others.now)
        ≡ line_read (turn_of hosts devices) result }
{
    if is(first, b"host") {
        host_line(others, hosts)
    } else if is(first, b"take") {
        queue_line(others, devices, true)
    } else if is(first, b"do") {
        queue_line(others, devices, false)
    } else if is(first, b"close") {
        close_line(others)
    } else if is(first, b"round") {
        round_line(others)
    } else {
        Err(ReadKind::Form)
    }
}

// What a line says.
#[tactic(auto, unfolding(crate::specs::Schedules::events_of, crate::specs::Schedules::line_events))]
pub(crate) fn line_of(line: &[u8], hosts: u8, devices: u8) -> Result<ScheduleLine, ReadKind>
    ensures { line_events hosts devices line.now ≡ line_read (turn_of hosts devices) result }
{
    if !are_plain(line) {
        return Err(ReadKind::Text);
    }
    let (first, others) = next_word(line);
    line_by(first, others, hosts, devices)
}
