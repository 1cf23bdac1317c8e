//! A turn, and how often it comes.

ghost use Rattle.std.specs.Prelude.{◌≡◌, ◌+◌, ◌*◌, ◌^◌, ◌<◌, ◌++◌, length, map, Ok};
ghost use Rattle.std.specs.List.{flat_map, range_with_len};
ghost use Rattle.acc_host.specs.declared.event.Event.TheVariants.{Host};
ghost use Rattle.acc_token.specs.Faults.{Gives};
ghost use Rattle.acc_base.specs.declared.ids.TheConstants.{QUEUES};
ghost use Rattle.acc_schedule.specs.Schedules.{queue_turn, device_turn, turn_of, turn_events, kept_events};

use acc_base::{DeviceId, HostId, QUEUES, QueueAt, QueueId};
use acc_host::Event;
use acc_token::ReadError;
use std::alloc::Global;
use std::slice;

/// How often one line's events can come.
pub const MAX_TIMES: u32 = 10_000;

/// What a line of a schedule repeats.
#[derive(Clone, Copy, Debug, PartialEq, Eq)]
pub enum Turn {
    /// One event.
    One(Event),
    /// Each host goes on; then each queue, by device and in queue order, takes a batch and performs one operation.
    Round,
}

impl Turn {
    /// The events of a turn, of those of a round.
    pub fn events<'a>(&'a self, round: &'a [Event]) -> &'a [Event]
        ensures { result.now ≡ turn_events round.now self.now }
    {
        match self {
            Turn::One(event) => slice::from_ref(event),
            Turn::Round => round,
        }
    }
}

/// A line of a schedule: a turn, and how often it comes.
#[derive(Clone, Copy, Debug, PartialEq, Eq)]
pub struct ScheduleLine {
    pub turn: Turn,
    pub times: u32,
}

fn push_hosts(events: &mut Vec<Event>, hosts: u8) -> Result<(), ReadError>
    ensures { Gives (λ _. events.new.items) result
        (Ok (events.old.items ++ map Host (range_with_len 0 hosts))) }
{
    for host in 0..hosts {
        events.push(Event::Host(HostId::new(host)))?;
    }
    Ok(())
}

fn push_queue(events: &mut Vec<Event>, device: u8, queue: u8) -> Result<(), ReadError>
    ensures { Gives (λ _. events.new.items) result
        (Ok (events.old.items ++ queue_turn (record { device = device; queue = queue }))) }
{
    events.push(Event::Take(queue_at(device, queue)))?;
    events.push(Event::Perform(queue_at(device, queue)))?;
    Ok(())
}

fn push_device(events: &mut Vec<Event>, device: u8) -> Result<(), ReadError>
    ensures { Gives (λ _. events.new.items) result (Ok (events.old.items ++ device_turn device)) }
{
    for queue in 0..QUEUES {
        push_queue(events, device, queue)?;
    }
    Ok(())
}

fn push_devices(events: &mut Vec<Event>, devices: u8) -> Result<(), ReadError>
    ensures { Gives (λ _. events.new.items) result
        (Ok (events.old.items ++ flat_map device_turn (range_with_len 0 devices))) }
{
    for device in 0..devices {
        push_device(events, device)?;
    }
    Ok(())
}

// Puts one turn behind the events: first the hosts, then the queues.
fn push_turn(events: &mut Vec<Event>, hosts: u8, devices: u8) -> Result<(), ReadError>
    ensures { Gives (λ _. events.new.items) result
        (Ok (events.old.items ++ turn_of hosts devices)) }
{
    push_hosts(events, hosts)?;
    push_devices(events, devices)
}

// One round: first the hosts, then the queues.
pub(crate) fn round_of(alloc: Global, hosts: u8, devices: u8) -> Result<Vec<Event>, ReadError>
    ensures { Gives (λ round. round.items) result (Ok (turn_of hosts devices)) }
{
    let mut round = Vec::new(alloc);
    push_turn(&mut round, hosts, devices)?;
    Ok(round)
}

// How many events a turn has.
#[tactic(auto, using(crate::proofs::RepeatedTurns::round_length))]
fn turn_len(turn: Turn, hosts: u8, devices: u8) -> u64
    ensures value { result ≡ length (turn_events (turn_of hosts devices) turn) }
    ensures few { result < 512 * (QUEUES + 1) }
{
    match turn {
        Turn::One(_) => 1,
        Turn::Round => u64::from(hosts) + 2 * u64::from(QUEUES) * u64::from(devices),
    }
}

// How many events a line has.
#[tactic(auto, using(crate::proofs::RepeatedTurns::repeated_length))]
pub(crate) fn events_len(line: &ScheduleLine, hosts: u8, devices: u8) -> u64
    ensures value { result ≡ length (kept_events (turn_of hosts devices) line.now) }
    ensures few { result < 2 ^ 48 }
{
    let ScheduleLine { turn, times } = *line;
    u64::from(times) * turn_len(turn, hosts, devices)
}

// Puts the events of a line behind the others.
pub(crate) fn push_line(
    events: &mut Vec<Event>,
    round: &[Event],
    line: ScheduleLine,
) -> Result<(), ReadError>
    ensures { Gives (λ _. events.new.items) result
        (Ok (events.old.items ++ kept_events round.now line)) }
{
    let ScheduleLine { turn, times } = line;
    let turn = turn.events(round);
    for _ in 0..times {
        events.extend_from_slice(turn)?;
    }
    Ok(())
}

pub(crate) fn queue_at(device: u8, queue: u8) -> QueueAt
    ensures { result ≡ record { device = device; queue = queue } }
{
    QueueAt {
        device: DeviceId::new(device),
        queue: QueueId::new(queue),
    }
}
