//! The events of a schedule with the numbers of their lines, and the lines that tell what they did.

ghost use Rattle.std.specs.Prelude.{◌≡◌, ◌+◌, ◌++◌, ◌∷◌, [], ℕ, take, IfOk, OnOk, OnErr};
ghost use Rattle.acc_base.specs.Faults.{OnlyMemory};
ghost use Rattle.acc_report.specs.Puts.{Puts, sink};
ghost use Rattle.acc_schedule.specs.Schedules.{kept_events, lines};
ghost use Rattle.acc_script.specs.Arrays.{texts};
ghost use Rattle.acc_steps.specs.Lines.{words_told};
ghost use Rattle.acc_steps.specs.Walks.{numbered_from, events_in_line, on_line, TellsSteps, TellsOne};

use crate::deed::{line_at, take_step};
use crate::line::{Telling, put_step};
use acc_base::Fault;
use acc_core::World;
use acc_host::Event;
use acc_schedule::{Schedule, ScheduleLine};
use acc_token::{ReadError, line_len};
use std::alloc::Global;
use std::io::Write;

/// An event of a schedule, and the number of its line, from 1.
#[derive(Clone, Copy, Debug, PartialEq, Eq)]
pub struct Numbered {
    pub line: u32,
    pub event: Event,
}

/// The lines of a text.
///
/// # Errors
///
/// `Memory` where memory is refused.
pub fn lines_of<'a>(alloc: Global, text: &'a [u8]) -> Result<Vec<&'a [u8]>, Fault>
    ensures lines { IfOk result (λ list. texts list.items ≡ lines text.now) }
    ensures fault { OnlyMemory result }
{
    let mut list = Vec::new(alloc);
    let mut rest = text;
    for _ in 0..text.len() {
        let (line, behind) = rest.split_at(line_len(rest));
        match behind {
            [] => {
                list.push(line)?;
                return Ok(list);
            }
            [_, others @ ..] => {
                list.push(line)?;
                rest = others;
            }
        }
    }
    list.push(rest)?;
    Ok(list)
}

/// The events of a schedule, by its lines, for hosts and devices by number, each with the number of its line.
///
/// # Errors
///
/// `Memory` where memory is refused, or there are more lines than a number of 32 bits tells.
pub fn numbered_events(
    alloc: Global,
    lines: &[&[u8]],
    hosts: u8,
    devices: u8,
) -> Result<Vec<Numbered>, Fault>
    ensures events { IfOk result (λ list.
        list.items ≡ numbered_from hosts devices 1 (texts lines.now)) }
    ensures fault { OnlyMemory result }
{
    let mut list = Vec::new(alloc);
    let mut number = 0u32;
    for line in lines {
        match number.checked_add(1) {
            Some(next) => number = next,
            None => return Err(Fault::Memory),
        }
        push_line(alloc, &mut list, number, line, hosts, devices)?;
    }
    Ok(list)
}

// Puts the events of a line behind the others.
fn push_line(
    alloc: Global,
    list: &mut Vec<Numbered>,
    number: u32,
    line: &[u8],
    hosts: u8,
    devices: u8,
) -> Result<(), Fault>
    ensures events { OnOk result (list.new.items ≡ list.old.items
        ++ on_line number (events_in_line hosts devices line.now)) }
    ensures fault { OnlyMemory result }
{
    let schedule = match Schedule::read(alloc, line, hosts, devices) {
        Ok(schedule) => schedule,
        Err(ReadError::Fault(_)) => return Ok(()),
        Err(ReadError::Memory) => return Err(Fault::Memory),
    };
    let (round, kept) = schedule.lines();
    for turn in kept {
        push_turns(list, number, round, turn)?;
    }
    Ok(())
}

// Puts the events of a turn behind the others, as often as it comes.
fn push_turns(
    list: &mut Vec<Numbered>,
    number: u32,
    round: &[Event],
    turn: &ScheduleLine,
) -> Result<(), Fault>
    ensures events { OnOk result (list.new.items ≡ list.old.items
        ++ on_line number (kept_events round.now turn.now)) }
    ensures fault { OnlyMemory result }
{
    let events = turn.turn.events(round);
    for _ in 0..turn.times {
        push_events(list, number, events)?;
    }
    Ok(())
}

fn push_events(list: &mut Vec<Numbered>, number: u32, events: &[Event]) -> Result<(), Fault>
    ensures events { OnOk result (list.new.items ≡ list.old.items ++ on_line number events.now) }
    ensures fault { OnlyMemory result }
{
    for event in events {
        list.push(Numbered {
            line: number,
            event: *event,
        })?;
    }
    Ok(())
}

/// Runs events on a world, and puts a line for each, from the first on, as `put_step` does.
///
/// # Errors
///
/// `Memory` where the count of the owners of a loop is full; the events before were run, and their lines put.
pub fn tell_steps<W: Write>(
    out: &mut W,
    failed: &mut bool,
    telling: &Telling,
    events: &[Numbered],
    world: &mut World,
) -> Result<(), Fault>
    ensures told { OnOk result (TellsSteps (words_told telling.now) events.now world.old world.new
        (sink (W.contents out.old) failed.old) (sink (W.contents out.new) failed.new)) }
    ensures front { OnErr result ((n : ℕ)
        × TellsSteps (words_told telling.now) (take n events.now) world.old world.new
        (sink (W.contents out.old) failed.old) (sink (W.contents out.new) failed.new)) }
    ensures fault { OnlyMemory result }
{
    let mut number = 0u64;
    for next in events {
        number += 1;
        tell_step(out, failed, telling, number, next, world)?;
    }
    Ok(())
}

// Runs an event, which has this number, and puts its line.
fn tell_step<W: Write>(
    out: &mut W,
    failed: &mut bool,
    telling: &Telling,
    number: u64,
    next: &Numbered,
    world: &mut World,
) -> Result<(), Fault>
    ensures told { OnOk result
        (TellsOne (words_told telling.now) number next.now world.old world.new
        (sink (W.contents out.old) failed.old) (sink (W.contents out.new) failed.new)) }
    ensures kept { OnErr result ((world.new ≡ world.old)
        × (sink (W.contents out.new) failed.new ≡ sink (W.contents out.old) failed.old)) }
    ensures fault { OnlyMemory result }
{
    let statement = line_at(world, next.event);
    let deed = take_step(world, next.event)?;
    put_step(
        out, failed, telling, number, next.line, next.event, statement, &deed, world,
    );
    Ok(())
}
