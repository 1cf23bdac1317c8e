//! Worlds of scripts, and their events.

ghost use Rattle.std.specs.Prelude.{◌≤◌, length, IfOk};
ghost use Rattle.acc_base.specs.declared.config.TheConstants.{MAX_HOSTS};
ghost use Rattle.acc_host.specs.Hosts.{AreNumbered};

use acc_base::{Config, DeviceId, Fault, HostId, MAX_CAPACITY, QUEUES, QueueAt, QueueId};
use acc_core::{Event, Reply, World};
use acc_script::{ReadError, Script, read};
use std::alloc::Global;

/// How many batches each queue of a world holds, as a rule.
pub const ROOM: u32 = 64;

// A fault of a text is `Unfinished` here.
fn fault_of(error: ReadError) -> Fault {
    match error {
        ReadError::Memory => Fault::Memory,
        ReadError::Fault(_) => Fault::Unfinished,
    }
}

// What a script says.
pub fn script_of<'a>(alloc: Global, text: &'a [u8]) -> Result<Script<'a>, Fault>
    ensures numbered { IfOk result (λ s. AreNumbered 0 s.programs.items) }
    ensures few { IfOk result (λ s. length s.programs.items ≤ MAX_HOSTS) }
{
    match read(alloc, text) {
        Ok(script) => Ok(script),
        Err(error) => Err(fault_of(error)),
    }
}

// The world of a script on one device, before the first event. It is boxed: a function that owns one itself takes five
// times as long to prove.
pub fn world_of(alloc: Global, text: &[u8], room: u32) -> Result<Box<World>, Fault> {
    let Script {
        names: _,
        arrays,
        programs,
    } = script_of(alloc, text)?;
    let hosts = programs.len() as u8;
    let config = Config::new(alloc, 1, hosts, arrays, MAX_CAPACITY, room)?;
    Ok(Box::new(alloc, World::new(alloc, config, programs)?)?)
}

// A queue by its device and its number.
pub fn queue(device: u8, number: u8) -> QueueAt {
    QueueAt {
        device: DeviceId::new(device),
        queue: QueueId::new(number),
    }
}

// The queue of the first device for an async value.
pub fn on(value: u8) -> QueueAt {
    QueueAt {
        device: DeviceId::new(0),
        queue: QueueId::of_value(u64::from(value)),
    }
}

pub fn host(number: u8) -> Event {
    Event::Host(HostId::new(number))
}

// One event, of whose reply alone the callers make something.
pub fn reply_to(world: &mut World, event: Event) -> Reply {
    world.step(event)
}

// Each queue of a device takes a batch, and performs an operation.
fn serve(world: &mut World, device: u8) {
    for number in 0..QUEUES {
        let _ = reply_to(world, Event::Take(queue(device, number)));
        let _ = reply_to(world, Event::Perform(queue(device, number)));
    }
}

// A turn: each host goes on by a step, and then the queues do.
fn turn(world: &mut World) {
    for number in 0..world.hosts() {
        let _ = reply_to(world, host(number));
    }
    for device in 0..world.devices() {
        serve(world, device);
    }
}

pub fn turns(world: &mut World, count: u32) {
    for _ in 0..count {
        turn(world);
    }
}
