//! A world that is made again from its beginning.

ghost use Rattle.std.specs.Prelude.{◌≡◌, ◌≤◌, ◌↔◌, IfOk, IsTrue, OnOk, length, reverse};
ghost use Rattle.acc_base.specs.Faults.{OnlyMemory};
ghost use Rattle.acc_base.specs.declared.fault.Fault.TheVariants as fault;
ghost use Rattle.acc_core.specs.Worlds.{OnePerHost, first_state};
ghost use Rattle.acc_explore.specs.Arrivals.{found_at};
ghost use Rattle.acc_explore.specs.Runs.{after};
ghost use Rattle.acc_host.specs.declared.state.Reply.TheVariants.{Idle, Refused};

use crate::arrival::{Arrival, path};
use crate::laws::arrivals_are_reached;
use acc_base::{Config, Fault};
use acc_core::World;
use acc_host::{Event, HostProgram, Reply, copies_of};
use std::alloc::Global;

// Whether a step was refused for want of memory.
pub(crate) fn is_scarce(answer: Reply) -> bool
    ensures { IsTrue result ↔ answer ≡ Refused fault.Memory }
{
    answer == Reply::Refused(Fault::Memory)
}

// Whether a step did nothing.
pub(crate) fn is_idle(answer: Reply) -> bool
    ensures { IsTrue result ↔ answer ≡ Idle }
{
    answer == Reply::Idle
}

// Makes a world step at each event.
fn go_on(world: &mut World, events: &[Event]) -> Result<(), Fault>
    ensures world { OnOk result (world.new ≡ after world.old events.now) }
    ensures fault { OnlyMemory result }
{
    for event in events {
        if is_scarce(world.step(*event)) {
            return Err(Fault::Memory);
        }
    }
    Ok(())
}

/// The world of these programs behind these events.
///
/// # Errors
///
/// `Memory` where memory is refused, to a step too.
pub fn world_behind(
    alloc: Global,
    config: &Config,
    programs: &[HostProgram],
    events: &[Event],
) -> Result<World, Fault>
    requires { OnePerHost config.now programs.now }
    ensures world { IfOk result (λ w. w ≡ after (first_state config.now programs.now) events.now) }
    ensures fault { OnlyMemory result }
{
    let mut world = World::new(alloc, config.try_clone()?, copies_of(alloc, programs)?)?;
    go_on(&mut world, events)?;
    Ok(world)
}

/// The world that was found with this number behind these events.
///
/// # Errors
///
/// `Memory` where memory is refused, to a step too.
pub fn world_found(
    alloc: Global,
    config: &Config,
    programs: &[HostProgram],
    before: &[Event],
    arrivals: &[Arrival],
    number: u32,
) -> Result<World, Fault>
    requires hosts { OnePerHost config.now programs.now }
    requires there { number ≤ length arrivals.now }
    ensures world { IfOk result (λ w.
        w ≡ (found_at (after (first_state config.now programs.now) before.now)
        (reverse arrivals.now) number).state) }
    ensures fault { OnlyMemory result }
{
    arrivals_are_reached();
    let events = path(alloc, arrivals, number)?;
    let mut world = world_behind(alloc, config, programs, before)?;
    go_on(&mut world, events.as_slice())?;
    Ok(world)
}
