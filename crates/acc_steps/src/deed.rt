//! What an event of a replay did.

ghost use Rattle.std.specs.Prelude.{◌≡◌, IfOk, OnErr};
ghost use Rattle.std.specs.Option.{option_map};
ghost use Rattle.acc_base.specs.Faults.{OnlyMemory};
ghost use Rattle.acc_core.specs.Machine.{State, Step};
ghost use Rattle.acc_host.specs.Hosts.{bare_act, line_of};
ghost use Rattle.acc_host.specs.declared.state.Reply.{Reply};
ghost use Rattle.acc_steps.specs.Deeds.{deed_of, deed_by, first_step, line_at, made, performed_by, statement_of, step_by};

use acc_base::{Fault, Range};
use acc_batch::OpLabel;
use acc_core::World;
use acc_host::{Act, Event, Host, Phase, Reply};

/// What an event of a replay did.
#[derive(Drop)]
pub enum Deed {
    /// The event wasn't possible.
    Nothing,
    /// The host's directive was accepted.
    Accepted,
    /// The host has seen that all is performed that it waits for.
    Saw,
    /// The host wrote a cell.
    Wrote,
    /// The host printed a range.
    Printed { range: Range },
    /// The host was told whether all is performed that it asks for.
    Tested { answer: bool },
    /// The host set its device or its default async value, or showed a number of devices.
    Set,
    /// The host's statement was refused.
    Refused { fault: Fault },
    /// The queue took its batch with this number.
    Took { number: u64 },
    /// The queue performed an operation of the batch with this number.
    Performed { number: u64, what: OpLabel },
    /// The owner closed, and so many queues are left without their last batch.
    Closed { left: u32 },
}

/// One step of a world, and what it did.
///
/// # Errors
///
/// `Memory` where the count of the owners of a loop is full; then nothing was done.
pub fn take_step(world: &mut World, event: Event) -> Result<Deed, Fault>
    ensures step { IfOk result (λ deed. (r : Reply) × Step world.old event r world.new
        × (deed ≡ deed_of world.old event r world.new)) }
    ensures kept { OnErr result (world.new ≡ world.old) }
    ensures fault { OnlyMemory result }
{
    let made = made(world, event)?;
    Ok(match world.step(event) {
        Reply::Did => did(made, world, event),
        Reply::Idle => Deed::Nothing,
        Reply::Refused(fault) => Deed::Refused { fault },
        Reply::Remaining(left) => Deed::Closed { left },
    })
}

// What an event did that was made, behind it.
fn did(made_before: Deed, world: &World, event: Event) -> Deed
    ensures { (old : State) → made_before ≡ made old event → result ≡ deed_by old world.now event }
{
    match event {
        Event::Take(at) => Deed::Took {
            number: world.taken(at),
        },
        Event::Host(_) | Event::Perform(_) => made_before,
        Event::Close => Deed::Nothing,
    }
}

/// The line of the statement that an event makes its host go on with, or 0.
pub(crate) fn line_at(world: &World, event: Event) -> u32
    ensures { result ≡ line_at world.now event }
{
    match event {
        Event::Host(host) => match world.host(host) {
            Some(host) => line_of(host),
            None => 0,
        },
        Event::Take(_) | Event::Perform(_) | Event::Close => 0,
    }
}

// The line of the statement that a host stands at, or 0.
fn line_of(host: &Host) -> u32
    ensures { result ≡ line_of (statement_of host.now) }
{
    match host.statement() {
        Some(statement) => statement.line,
        None => 0,
    }
}

// What an event does, if it is made.
fn made(world: &World, event: Event) -> Result<Deed, Fault>
    ensures made { IfOk result (λ deed. deed ≡ made world.now event) }
    ensures fault { OnlyMemory result }
{
    match event {
        Event::Host(host) => Ok(step_by(world, world.host(host))),
        Event::Take(_) => Ok(Deed::Nothing),
        Event::Perform(at) => match world.next_op(at) {
            Some(op) => Ok(Deed::Performed {
                number: world.taken(at),
                what: op.try_clone()?,
            }),
            None => Ok(Deed::Nothing),
        },
        Event::Close => Ok(Deed::Nothing),
    }
}

// What a host does, if it goes on.
fn step_by(world: &World, host: Option<&Host>) -> Deed
    ensures { result ≡ step_by world.now (option_map (λ h. h.now) host.entry) }
{
    let Some(host) = host else {
        return Deed::Nothing;
    };
    let Some(statement) = host.statement() else {
        return Deed::Nothing;
    };
    match host.phase() {
        Phase::Ready => first_step(&statement.act),
        Phase::Waits { .. } => Deed::Saw,
        Phase::Asks { device, counts } => Deed::Tested {
            answer: world.reached(*device, counts),
        },
        Phase::Refused { .. } => Deed::Nothing,
    }
}

// What a host does that makes the first step of a statement.
fn first_step(act: &Act) -> Deed
    ensures bare { result ≡ first_step (bare_act act.now) }
{
    match act {
        Act::Place { .. } => Deed::Accepted,
        Act::Write { .. } => Deed::Wrote,
        Act::Print { range } => Deed::Printed { range: *range },
        Act::SetDevice { .. } | Act::SetAsync { .. } => Deed::Set,
        Act::ShowDevice | Act::ShowDevices => Deed::Set,
    }
}
