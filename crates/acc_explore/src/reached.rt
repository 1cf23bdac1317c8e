//! Whether a host waits, or asks, for what is performed.

ghost use Rattle.std.specs.Prelude.{◌≡◌, ◌-◌, IfSome, IsTrue, length};
ghost use Rattle.acc_explore.specs.ReachedWaits.{is_at_reached, is_reached, items_fit, statements_left};
ghost use Rattle.acc_host.specs.Hosts.{wants};

use acc_base::HostId;
use acc_core::{MAX_HOST_ITEMS, World};
use acc_host::{Host, Phase};

// Whether a host waits or asks for what each queue has performed.
fn is_reached(world: &World, host: &Host) -> bool
    ensures { IsTrue result
        → IsTrue (is_reached world.now (wants world.now.config.devices host.now)) }
{
    if host.statement().is_none() {
        return false;
    }
    match host.phase() {
        Phase::Waits { device, counts } => world.reached(*device, counts),
        Phase::Asks { device, counts } => world.reached(*device, counts),
        Phase::Ready | Phase::Refused { .. } => false,
    }
}

// How many statements a host has still to end.
fn statements_of(host: &Host) -> usize
    ensures { result ≡ length host.now.statements - host.now.ended }
{
    host.remaining().len()
}

// How many all hosts have; `None` where they are too many to be counted.
#[tactic(auto, using(crate::proofs::StatementsLeft::left_more))]
fn statements_left(world: &World) -> Option<u64>
    ensures { IfSome result (λ count. count ≡ statements_left world.now.hosts) }
{
    let mut count = 0u64;
    for number in 0..world.hosts() {
        let Some(host) = world.host(HostId::new(number)) else {
            return None;
        };
        let Some(more) = count.checked_add(statements_of(host) as u64) else {
            return None;
        };
        count = more;
    }
    Some(count)
}

// Whether the items of all statements to come are within the limit, with those that the hosts have.
fn items_fit(world: &World) -> bool
    ensures { IsTrue result → IsTrue (items_fit world.now) }
{
    let Some(left) = statements_left(world) else {
        return false;
    };
    left <= MAX_HOST_ITEMS && world.items() <= MAX_HOST_ITEMS - left
}

/// Whether a host's step may go first, as what it waits or asks for is performed. It takes no memory.
pub(crate) fn is_at_reached(world: &World, host: HostId) -> bool
    ensures { IsTrue result → IsTrue (is_at_reached host world.now) }
{
    let Some(host) = world.host(host) else {
        return false;
    };
    is_reached(world, host) && items_fit(world)
}
