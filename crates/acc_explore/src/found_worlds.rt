//! The world of a state that was found, and whether another world is like it.

ghost use Rattle.std.specs.Prelude.{◌≡◌, ◌≤◌, IfOk, IsTrue, length, reverse};
ghost use Rattle.acc_base.specs.Faults.{OnlyMemory};
ghost use Rattle.acc_core.specs.Worlds.{OnePerHost};
ghost use Rattle.acc_explore.specs.Alike.{Alike};
ghost use Rattle.acc_explore.specs.Arrivals.{found_at};
ghost use Rattle.acc_explore.specs.Scripts.{AreOfOneScript};
ghost use Rattle.acc_explore.specs.inner.Searching.{AreAtHand, IsHere, IsLikeOne, start_of};

use crate::alike::are_alike;
use crate::arrival::Arrival;
use crate::replay::world_found;
use crate::task::Task;
use crate::worlds::Worlds;
use acc_base::Fault;
use acc_core::World;

// The world that was found with a number, made again.
pub(crate) fn world_again(task: &Task, arrivals: &[Arrival], number: u32) -> Result<World, Fault>
    requires hosts { OnePerHost task.now.config.now task.now.programs.now }
    requires there { number ≤ length arrivals.now }
    ensures world { IfOk result (λ w.
        w ≡ (found_at (start_of task.now) (reverse arrivals.now) number).state) }
    ensures fault { OnlyMemory result }
{
    world_found(
        task.alloc,
        task.config,
        task.programs,
        task.before,
        arrivals,
        number,
    )
}

// The world that was found with a number: the one at hand, or one that is made again.
pub(crate) fn world_at(
    task: &Task,
    worlds: &mut Worlds,
    arrivals: &[Arrival],
    number: u32,
) -> Result<World, Fault>
    requires hosts { OnePerHost task.now.config.now task.now.programs.now }
    requires there { number ≤ length arrivals.now }
    requires worlds { AreAtHand (start_of task.now) (reverse arrivals.now) worlds.old.seats.items }
    ensures world { IfOk result (λ w.
        w ≡ (found_at (start_of task.now) (reverse arrivals.now) number).state) }
    ensures worlds { AreAtHand (start_of task.now) (reverse arrivals.now) worlds.new.seats.items }
    ensures fault { OnlyMemory result }
{
    match worlds.take(number) {
        Some(world) => Ok(world),
        None => world_again(task, arrivals, number),
    }
}

// The world at hand, or where there is none the one that was found with a number, made again.
pub(crate) fn world_here(
    task: &Task,
    arrivals: &[Arrival],
    number: u32,
    at_hand: Option<World>,
) -> Result<World, Fault>
    requires hosts { OnePerHost task.now.config.now task.now.programs.now }
    requires there { number ≤ length arrivals.now }
    requires here { IsHere (start_of task.now) (reverse arrivals.now) number at_hand }
    ensures world { IfOk result (λ w.
        w ≡ (found_at (start_of task.now) (reverse arrivals.now) number).state) }
    ensures fault { OnlyMemory result }
{
    match at_hand {
        Some(world) => Ok(world),
        None => world_again(task, arrivals, number),
    }
}

// Whether a world is like the one that was found with a number.
fn is_like(
    task: &Task,
    worlds: &Worlds,
    arrivals: &[Arrival],
    number: u32,
    world: &World,
) -> Result<bool, Fault>
    requires hosts { OnePerHost task.now.config.now task.now.programs.now }
    requires there { number ≤ length arrivals.now }
    requires worlds { AreAtHand (start_of task.now) (reverse arrivals.now) worlds.now.seats.items }
    requires script { AreOfOneScript (start_of task.now) world.now }
    ensures like { IfOk result (λ like. IsTrue like
        → Alike (found_at (start_of task.now) (reverse arrivals.now) number).state world.now) }
    ensures fault { OnlyMemory result }
{
    match worlds.get(number) {
        Some(old) => Ok(are_alike(old, world)),
        None => {
            let old = world_again(task, arrivals, number)?;
            Ok(are_alike(&old, world))
        }
    }
}

// Whether a world is like one that was found: the one with this number is compared, if there is one.
pub(crate) fn is_like_one(
    task: &Task,
    worlds: &Worlds,
    arrivals: &[Arrival],
    number: Option<u32>,
    world: &World,
) -> Result<bool, Fault>
    requires hosts { OnePerHost task.now.config.now task.now.programs.now }
    requires worlds { AreAtHand (start_of task.now) (reverse arrivals.now) worlds.now.seats.items }
    requires script { AreOfOneScript (start_of task.now) world.now }
    ensures like { IfOk result (λ like. IsTrue like
        → IsLikeOne (start_of task.now) (reverse arrivals.now) world.now) }
    ensures fault { OnlyMemory result }
{
    match number {
        Some(number) if number as usize <= arrivals.len() => {
            is_like(task, worlds, arrivals, number, world)
        }
        _ => Ok(false),
    }
}
