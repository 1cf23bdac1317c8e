//! How many directives are still to be placed, and whether a queue has room for them.

ghost use Rattle.std.specs.Prelude.{◌≡◌, ◌&&◌, ◌≤◌, ◌^◌, IfSome, IsNone, IsTrue, drop, map};
ghost use Rattle.acc_core.specs.Machine.{batches_held, is_there, labels_of};
ghost use Rattle.acc_explore.specs.Takes.{count_directives, never_fills, places_directive, unplaced, unplaced_by};
ghost use Rattle.acc_host.specs.Hosts.{bare, bare_act};

use acc_base::{HostId, QueueAt};
use acc_core::World;
use acc_host::{Act, Host, Phase, Statement};

/// Whether a host places it.
pub(crate) fn is_directive(act: &Act) -> bool
    ensures { result ≡ places_directive (bare_act act.now) }
{
    match act {
        Act::Place { .. } => true,
        Act::Write { .. }
        | Act::Print { .. }
        | Act::SetDevice { .. }
        | Act::SetAsync { .. }
        | Act::ShowDevice
        | Act::ShowDevices => false,
    }
}

// How many of these are directives.
fn directives_in(statements: &[Statement]) -> usize
    ensures { result ≡ count_directives (map bare statements.now) }
{
    statements
        .iter()
        .filter(|statement| is_directive(&statement.act))
        .count()
}

// How many of those behind the first one are.
fn directives_behind(statements: &[Statement]) -> usize
    ensures { result ≡ count_directives (drop 1 (map bare statements.now)) }
{
    if statements.is_empty() {
        return 0;
    }
    directives_in(&statements[1..])
}

/// How many directives a host has still to place: where it waits or asks, it has placed the one that it stands at, and where it was
/// refused, it places none.
pub(crate) fn unplaced_by(host: &Host) -> usize
    ensures { result ≡ unplaced_by host.now }
{
    let remaining = host.remaining();
    match host.phase() {
        Phase::Ready => directives_in(remaining),
        Phase::Waits { .. } | Phase::Asks { .. } => directives_behind(remaining),
        Phase::Refused { .. } => 0,
    }
}

/// How many all hosts have; `None` where they are too many to be counted.
pub(crate) fn unplaced(world: &World) -> Option<u64>
    ensures count { IfSome result (λ count. count ≡ unplaced world.now.hosts) }
    ensures many { IsNone result → 2 ^ 64 ≤ unplaced world.now.hosts }
{
    let mut count = 0u64;
    for number in 0..world.hosts() {
        let Some(host) = world.host(HostId::new(number)) else {
            return None;
        };
        let Some(more) = count.checked_add(unplaced_by(host) as u64) else {
            return None;
        };
        count = more;
    }
    Some(count)
}

/// How many batches a queue holds, if it is there.
pub(crate) fn held(world: &World, at: QueueAt) -> u64
    ensures { IsTrue (is_there world.now at)
        → result ≡ batches_held world.now (labels_of world.now) at }
{
    let QueueAt { device, queue } = at;
    world
        .place()
        .placed_count(QueueAt { device, queue })
        .saturating_sub(world.taken(QueueAt { device, queue }))
}

/// Whether a queue is there, and has room for the batches of so many directives as are still to be placed, with those that it holds.
pub(crate) fn has_room(world: &World, at: QueueAt, to_place: u64) -> bool
    requires { to_place ≡ unplaced world.now.hosts }
    ensures { result ≡ (is_there world.now at && never_fills world.now at) }
{
    let QueueAt { device, queue } = at;
    let config = world.place().config();
    if !config.has_queue(QueueAt { device, queue }) {
        return false;
    }
    let room = u64::from(config.room());
    let held = held(world, QueueAt { device, queue });
    held <= room && to_place <= room - held
}
