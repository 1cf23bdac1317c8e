//! Which event may go first.

ghost use Rattle.std.specs.Prelude.{◌≡◌, Bool, Contains, IfSome, IsTrue, false, not};
ghost use Rattle.std.specs.List.{list_all};
ghost use Rattle.acc_explore.specs.Closed.{is_all_closed};
ghost use Rattle.acc_explore.specs.OwnStatements.{is_at_own, is_own};
ghost use Rattle.acc_explore.specs.Reductions.{MayGoFirst};
ghost use Rattle.acc_explore.specs.Takes.{unplaced};
ghost use Rattle.acc_explore.specs.UnseenOperations.{asks_no_more, asks_queues, nobody_asks};
ghost use Rattle.acc_host.specs.Hosts.{bare_act, ready};
ghost use Rattle.acc_host.specs.Steps.{wanted};
ghost use Rattle.acc_host.specs.declared.program.HostProgram.{HostProgram};
ghost use Rattle.acc_host.specs.declared.program.Statement.{Statement};
ghost use Rattle.acc_host.specs.declared.state.Ids.{Ids};

use crate::apart::stands_apart;
use crate::placing::{may_place, may_take};
use crate::reached::is_at_reached;
use crate::unplaced::unplaced;
use crate::unseen::stands_unseen;
use acc_base::{HostId, QueueAt};
use acc_core::World;
use acc_host::{Act, Event, HostProgram, Phase, Statement};
use acc_place::{ASYNC_SYNC, Kind};

// Whether a statement asks how far queues have come.
fn asks_queues(act: &Act) -> bool
    ensures { result ≡ asks_queues (bare_act act.now) }
{
    match act {
        Act::Place { directive } => matches!(directive.kind(), Kind::AsyncTest),
        Act::Write { .. }
        | Act::Print { .. }
        | Act::SetDevice { .. }
        | Act::SetAsync { .. }
        | Act::ShowDevice
        | Act::ShowDevices => false,
    }
}

// Whether none of these does.
fn ask_nothing(statements: &[Statement]) -> bool
    ensures { result ≡ list_all (λ (s : Statement). not
        (asks_queues (bare_act s.act))) statements.now }
{
    statements
        .iter()
        .all(|statement| !asks_queues(&statement.act))
}

// Whether none of a program does.
fn asks_nothing(program: &HostProgram) -> bool
    ensures { result ≡ asks_no_more (ready program.now) }
{
    ask_nothing(program.statements.as_slice())
}

/// Whether no host of these programs asks how far queues have come.
pub(crate) fn nobody_asks(programs: &[HostProgram]) -> bool
    ensures { result ≡ list_all (λ (program : HostProgram).
        asks_no_more (ready program)) programs.now }
{
    programs.iter().all(asks_nothing)
}

// Whether a statement sets its host's ids or asks for them, and isn't refused.
fn is_own(act: &Act, devices: u8) -> bool
    ensures { (ids : Ids) → result ≡ is_own (wanted devices ids (bare_act act.now)) }
{
    match act {
        Act::SetDevice { device } => *device < u32::from(devices),
        Act::SetAsync { value } => *value >= ASYNC_SYNC,
        Act::ShowDevice | Act::ShowDevices => true,
        Act::Place { .. } | Act::Write { .. } | Act::Print { .. } => false,
    }
}

// Whether a host stands at such a statement.
fn stands_at_own(world: &World, host: HostId) -> bool
    ensures { IsTrue result → IsTrue (is_at_own host world.now) }
{
    let Some(host) = world.host(host) else {
        return false;
    };
    let Some(statement) = host.statement() else {
        return false;
    };
    matches!(host.phase(), Phase::Ready) && is_own(&statement.act, world.devices())
}

// Whether an event may go first, whether the owner closes or not.
fn may_go_freely(world: &World, event: Event, unasked: bool) -> bool
    requires { IsTrue unasked → IsTrue (nobody_asks world.now) }
    ensures { IsTrue result → (closing : Bool) → MayGoFirst closing world.now event }
{
    world.keeps();
    match event {
        Event::Host(host) => stands_at_own(world, host) || is_at_reached(world, host),
        Event::Perform(at) => stands_unseen(world, at, unasked),
        Event::Take(_) | Event::Close => false,
    }
}

// One of these events that may.
fn goes_freely(world: &World, events: &[Event], unasked: bool) -> Option<Event>
    requires { IsTrue unasked → IsTrue (nobody_asks world.now) }
    ensures first { IfSome result (λ event. (closing : Bool) → MayGoFirst closing world.now event) }
    ensures listed { IfSome result (λ event. Contains events.now event) }
{
    for event in events {
        if may_go_freely(world, *event, unasked) {
            return Some(*event);
        }
    }
    None
}

// Whether an event may go first where the owner may not close, and so many directives are still to be placed: the queues have room for
// them, or nothing to come conflicts with the operation that it performs.
fn may_go_unclosed(world: &World, event: Event, unasked: bool, to_place: u64) -> bool
    requires asked { IsTrue unasked → IsTrue (nobody_asks world.now) }
    requires placing { to_place ≡ unplaced world.now.hosts }
    ensures { IsTrue result → MayGoFirst false world.now event }
{
    world.keeps();
    match event {
        Event::Host(host) => may_place(world, host, to_place),
        Event::Take(at) => may_take(world, at, to_place),
        Event::Perform(at) => stands_apart(world, at, unasked),
        Event::Close => false,
    }
}

// One of these events that may.
fn goes_unclosed(world: &World, events: &[Event], unasked: bool) -> Option<Event>
    requires { IsTrue unasked → IsTrue (nobody_asks world.now) }
    ensures first { IfSome result (λ event. MayGoFirst false world.now event) }
    ensures listed { IfSome result (λ event. Contains events.now event) }
{
    let Some(to_place) = unplaced(world) else {
        return None;
    };
    for event in events {
        if may_go_unclosed(world, *event, unasked, to_place) {
            return Some(*event);
        }
    }
    None
}

// Whether closing has begun, and each queue is closed: it has begun where one is.
fn is_all_closed(world: &World) -> bool
    ensures { IsTrue result → IsTrue (is_all_closed world.now) }
{
    world.keeps();
    let place = world.place();
    let queues = place.config().queue_count();
    for seat in 0..queues {
        if !place.is_closed(QueueAt::at_seat(seat)) {
            return false;
        }
    }
    queues > 0
}

/// One of these events that may go first, where the owner may close or not; it takes no memory.
pub(crate) fn goes_first(
    world: &World,
    events: &[Event],
    unasked: bool,
    closing: bool,
) -> Option<Event>
    requires { IsTrue unasked → IsTrue (nobody_asks world.now) }
    ensures first { IfSome result (λ event. MayGoFirst closing world.now event) }
    ensures listed { IfSome result (λ event. Contains events.now event) }
{
    match goes_freely(world, events, unasked) {
        Some(event) => Some(event),
        None if closing && !is_all_closed(world) => None,
        None => goes_unclosed(world, events, unasked),
    }
}
