//! Schedules.

ghost use Rattle.std.specs.Prelude.{◌≡◌, ◌≤◌, length, List, Ok, IfOk, IfErr};
ghost use Rattle.acc_host.specs.declared.event.Event.{Event};
ghost use Rattle.acc_token.specs.Faults.{Gives};
ghost use Rattle.acc_token.specs.declared.read_fault.ReadError.TheVariants.{Memory};
ghost use Rattle.acc_token.specs.declared.text.TheConstants.{MAX_TEXT};
ghost use Rattle.acc_schedule.specs.Schedules.{turn_of, joined_events, events_behind, schedule_of, kept_events, all_events};

use crate::line::line_of;
use crate::turn::{ScheduleLine, events_len, push_line, round_of};
use crate::words::{is_skipped, next_line};
use acc_host::Event;
use acc_token::{ReadError, ReadFault, ReadKind, check_length};
use std::alloc::Global;
use std::marker::Model;

/// How many events a schedule can have.
pub const MAX_EVENTS: usize = 1_000_000;

/// A schedule, line by line, with the events of a round. A contract sees the list of all its events.
#[derive(Drop)]
pub struct Schedule {
    round: Vec<Event>,
    kept: Vec<ScheduleLine>,
}

impl Model for Schedule {
    ghost use Rattle.std.specs.Prelude.{List};
    ghost use Rattle.acc_host.specs.declared.event.Event.{Event};
    ghost use Rattle.acc_schedule.specs.Schedules.{all_events};

    ghost Value = { List Event };

    ghost view = { λ s. all_events s.round.items s.kept.items };
}

impl Schedule {
    /// The schedule that a text is, for hosts and devices by number. It takes memory for its lines and one round, and
    /// none for each event.
    ///
    /// # Errors
    ///
    /// As `read_schedule`.
    pub fn read(alloc: Global, text: &[u8], hosts: u8, devices: u8) -> Result<Self, ReadError>
        ensures { Gives (λ schedule. schedule) result (schedule_of hosts devices text.now) }
    {
        let kept = lines_of(alloc, text, hosts, devices)?;
        let round = round_of(alloc, hosts, devices)?;
        Ok(Schedule { round, kept })
    }

    /// The events of a round, and the lines, which stand for all events in their order.
    pub fn lines(&self) -> (&[Event], &[ScheduleLine])
        ensures { self.now ≡ all_events result.0.now result.1.now }
    {
        (self.round.as_slice(), self.kept.as_slice())
    }
}

// Keeps a line behind those before it, which have so many events, and counts its events with theirs.
#[tactic(auto, using(crate::proofs::LineEvents::one_more))]
fn keep_line(
    kept: &mut Vec<ScheduleLine>,
    before: u64,
    hosts: u8,
    devices: u8,
    number: u32,
    line: &ScheduleLine,
) -> Result<u64, ReadError>
    requires counted { before ≡ length (all_events (turn_of hosts devices) kept.old.items) }
    requires few { before ≤ MAX_EVENTS }
    ensures found { Gives (λ _. all_events (turn_of hosts devices) kept.new.items) result
        (joined_events number (all_events (turn_of hosts devices) kept.old.items)
        (Ok (kept_events (turn_of hosts devices) line.now))) }
    ensures counted { IfOk result (λ count.
        count ≡ length (all_events (turn_of hosts devices) kept.new.items)) }
    ensures few { IfOk result (λ count. count ≤ MAX_EVENTS) }
{
    let count = before + events_len(line, hosts, devices);
    if count > MAX_EVENTS as u64 {
        let kind = ReadKind::Limit;
        return Err(ReadError::Fault(ReadFault { line: number, kind }));
    }
    let ScheduleLine { turn, times } = *line;
    kept.push(ScheduleLine { turn, times })?;
    Ok(count)
}

// Reads a line, and keeps what it says.
#[tactic(auto, unfolding(crate::specs::Schedules::events_behind))]
fn read_line(
    kept: &mut Vec<ScheduleLine>,
    before: u64,
    hosts: u8,
    devices: u8,
    number: u32,
    line: &[u8],
) -> Result<u64, ReadError>
    requires counted { before ≡ length (all_events (turn_of hosts devices) kept.old.items) }
    requires few { before ≤ MAX_EVENTS }
    ensures found { Gives (λ _. all_events (turn_of hosts devices) kept.new.items) result
        (events_behind hosts devices number
        (all_events (turn_of hosts devices) kept.old.items) line.now) }
    ensures counted { IfOk result (λ count.
        count ≡ length (all_events (turn_of hosts devices) kept.new.items)) }
    ensures few { IfOk result (λ count. count ≤ MAX_EVENTS) }
{
    if is_skipped(line) {
        return Ok(before);
    }
    match line_of(line, hosts, devices) {
        Ok(said) => keep_line(kept, before, hosts, devices, number, &said),
        Err(kind) => Err(ReadError::Fault(ReadFault { line: number, kind })),
    }
}

// The lines of a schedule.
#[tactic(auto, unfolding(crate::specs::Schedules::schedule_of))]
fn lines_of(
    alloc: Global,
    text: &[u8],
    hosts: u8,
    devices: u8,
) -> Result<Vec<ScheduleLine>, ReadError>
    ensures found { Gives (λ kept. all_events (turn_of hosts devices) kept.items) result
        (schedule_of hosts devices text.now) }
    ensures long { IfErr result (λ error. error ≡ Memory → length text.now ≤ MAX_TEXT) }
{
    if let Err(fault) = check_length(text) {
        return Err(ReadError::Fault(fault));
    }
    let mut kept = Vec::new(alloc);
    let mut count = 0;
    let mut rest = text;
    let last = text.len() as u32 + 1;
    for number in 1..last + 1 {
        let (line, others) = next_line(rest);
        count = read_line(&mut kept, count, hosts, devices, number, line)?;
        match others {
            None => return Ok(kept),
            Some(others) => rest = others,
        }
    }
    unreachable!()
}

// All events of the lines.
fn all_events(
    alloc: Global,
    round: &[Event],
    kept: &[ScheduleLine],
) -> Result<Vec<Event>, ReadError>
    ensures { Gives (λ events. events.items) result (Ok (all_events round.now kept.now)) }
{
    let mut events = Vec::new(alloc);
    for line in kept {
        push_line(&mut events, round, *line)?;
    }
    Ok(events)
}

/// The events of the schedule that a text is, for hosts and devices by number.
///
/// # Errors
///
/// The first fault of the text, or `Memory` for want of memory. A text of more than `MAX_TEXT` bytes is `Limit`, before
/// all else. In a line that is neither empty nor a comment, the first of: a byte that is no tab and no printed character is
/// `Text`; another word, count of words or form of number is `Form`; a host, device or queue that is not there is `Name`;
/// a number of times that is not 1 to `MAX_TIMES`, and more than `MAX_EVENTS` events up to this line, are `Limit`.
pub fn read_schedule(
    alloc: Global,
    text: &[u8],
    hosts: u8,
    devices: u8,
) -> Result<Vec<Event>, ReadError>
    ensures { Gives (λ events. events.items) result (schedule_of hosts devices text.now) }
{
    let schedule = Schedule::read(alloc, text, hosts, devices)?;
    let (round, kept) = schedule.lines();
    all_events(alloc, round, kept)
}
