//! Whether a host's directive, or a queue's take, may go first: where no queue can be full.

ghost use Rattle.std.specs.Prelude.{◌≡◌, ℕ};
ghost use Rattle.acc_explore.specs.Placements.{all_have_room, is_placement, may_place};
ghost use Rattle.acc_explore.specs.Takes.{may_take, unplaced};
ghost use Rattle.acc_host.specs.Hosts.{wants};

use crate::unplaced::{has_room, held, is_directive, unplaced_by};
use acc_base::{HostId, QueueAt};
use acc_core::World;
use acc_host::{Host, Phase};

/// Whether a queue's take may go first, where so many directives are still to be placed, and the owner may not close.
pub(crate) fn may_take(world: &World, at: QueueAt, to_place: u64) -> bool
    requires { to_place ≡ unplaced world.now.hosts }
    ensures { result ≡ may_take at world.now }
{
    let QueueAt { device, queue } = at;
    has_room(world, QueueAt { device, queue }, to_place)
        && world.ops_left(QueueAt { device, queue }) == 0
        && held(world, QueueAt { device, queue }) > 0
}

// Whether each queue has room.
fn all_have_room(world: &World, to_place: u64) -> bool
    requires { to_place ≡ unplaced world.now.hosts }
    ensures { result ≡ all_have_room world.now }
{
    let config = world.place().config();
    for seat in 0..config.queue_count() {
        if !has_room(world, QueueAt::at_seat(seat), to_place) {
            return false;
        }
    }
    true
}

// Whether a host is ready to place the directive that it stands at.
fn stands_at_directive(host: &Host) -> bool
    ensures { (devices : ℕ) → result ≡ is_placement (wants devices host.now) }
{
    let Some(statement) = host.statement() else {
        return false;
    };
    matches!(host.phase(), Phase::Ready) && is_directive(&statement.act)
}

/// Whether a host's step may go first, as it places a directive, where so many are still to be placed, and the owner may not close.
pub(crate) fn may_place(world: &World, host: HostId, to_place: u64) -> bool
    requires { to_place ≡ unplaced world.now.hosts }
    ensures { result ≡ may_place host world.now }
{
    let Some(host) = world.host(host) else {
        return false;
    };
    stands_at_directive(host)
        && unplaced_by(host) as u64 == to_place
        && all_have_room(world, to_place)
}
