//! One step of a statement.

ghost use Rattle.std.specs.Prelude.{◌≡◌, ◌+◌, ◌<◌, ◌^◌, length, map, slice_get, Some, Result, true};
ghost use Rattle.acc_base.specs.declared.fault.Fault.{Fault};
ghost use Rattle.acc_base.specs.declared.fault.Fault.TheVariants.{BadAsync};
ghost use Rattle.acc_host.specs.Engines.{Record, Keeps, MayRecord};
ghost use Rattle.acc_host.specs.Hosts.{bare, wants_at, Asks, Adds, bare_act, IsSet, owing, after_answer};
ghost use Rattle.acc_host.specs.inner.Moves.{GoesOn, Moves};
ghost use Rattle.acc_host.specs.declared.program.Act.TheVariants.{SetDevice, SetAsync};
ghost use Rattle.acc_host.specs.Steps.{wanted, set_by, set_or_refuse, ids_after, owed_batch, owed_by, is_async, set_default, records, awaits};
ghost use Rattle.acc_work.specs.declared.item.Shown.{Shown};

use crate::engine::Engine;
use crate::program::{Act, Statement};
use crate::state::{After, Awaited, Ids, Phase, Reply};
use acc_base::{DeviceId, Fault, HostId, QUEUES, QueueCounts, QueueId, is_nothing};
use acc_place::{ASYNC_NOVAL, ASYNC_SYNC, Directive, Kind, Placed};
use acc_work::Item;
use std::alloc::Global;

// A batch on queue sync is waited for.
fn owed_batch(placed: Placed) -> After
    ensures { result ≡ owing (owed_batch placed.batch) }
{
    match placed.batch {
        Some((at, number)) if at.queue == QueueId::SYNC => {
            let mut counts = [0; QUEUES as usize];
            counts[0] = number;
            After::Waits {
                what: Awaited {
                    device: at.device,
                    counts,
                },
            }
        }
        _ => After::Ended,
    }
}

/// What a host owes after a directive that was answered so: nothing more, or that it waits, or asks.
// Inlined, so that the counts are not moved.
#[inline(always)]
pub fn owed_by(directive: &Directive, placed: Placed) -> After
    ensures { result ≡ owing (owed_by directive.now placed) }
{
    match directive.kind() {
        Kind::Wait if is_nothing(&placed.counts) => After::Ended,
        Kind::Wait => After::Waits {
            what: Awaited {
                device: directive.device(),
                counts: placed.counts,
            },
        },
        Kind::AsyncTest if is_nothing(&placed.counts) => After::Ended,
        Kind::AsyncTest => After::Asks {
            what: Awaited {
                device: directive.device(),
                counts: placed.counts,
            },
        },
        _ => owed_batch(placed),
    }
}

// A directive gets the ids of its host.
fn set_in(act: &mut Act, ids: Ids)
    ensures bare { bare_act act.new ≡ bare_act act.old }
    ensures set { IsSet ids act.new }
{
    match act {
        Act::Place { directive } => {
            directive.set_ids(ids.device, ids.default);
        }
        _ => {}
    }
}

// Whether a value is an async value.
fn is_async(value: i64) -> bool
    ensures { result ≡ is_async value }
{
    value >= ASYNC_SYNC
}

// A default of `acc_async_noval` changes nothing.
fn set_default(value: i64, old: i64) -> i64
    ensures { result ≡ set_default value old }
{
    if value == ASYNC_NOVAL { old } else { value }
}

// A host's ids with another device, if it is there.
fn with_device(ids: Ids, device: u32, devices: u8) -> Result<Ids, Fault>
    ensures { set_by result ≡ wanted devices ids (SetDevice device) }
{
    if device < u32::from(devices) {
        Ok(Ids {
            device: DeviceId::new(device as u8),
            default: ids.default,
        })
    } else {
        Err(Fault::BadDevice)
    }
}

// A host's ids with another default, if it is an async value.
fn with_default(ids: Ids, value: i64) -> Result<Ids, Fault>
    ensures { set_by result
        ≡ set_or_refuse (is_async value) BadAsync (ids_after (SetAsync value) ids) }
{
    if is_async(value) {
        Ok(Ids {
            device: ids.device,
            default: set_default(value, ids.default),
        })
    } else {
        Err(Fault::BadAsync)
    }
}

// An item is recorded.
fn record_item<E: Engine>(engine: &mut E, host: HostId, item: Item) -> Result<After, Fault>
    requires host { E.serves engine.old host }
    requires item { MayRecord item }
    ensures asks { (answer : Result Shown Fault)
        × E.makes engine.old host (Record item answer) engine.new × (result ≡ after_answer answer) }
    ensures adds { Adds (records item) result (E.entries engine.old host)
        (E.entries engine.new host) }
    ensures keeps { Keeps E.devices E.serves E.entries host engine.old engine.new }
{
    match engine.item(host, item) {
        Ok(_) => Ok(After::Ended),
        Err((_, fault)) => Err(fault),
    }
}

// What was waited for is seen.
fn wait<E: Engine>(
    engine: &mut E,
    host: HostId,
    device: DeviceId,
    counts: QueueCounts,
) -> Result<After, Fault>
    requires { E.serves engine.old host }
    ensures asks { Asks E.makes engine.old host (awaits device counts) result engine.new }
    ensures adds { Adds (awaits device counts) result (E.entries engine.old host)
        (E.entries engine.new host) }
    ensures keeps { Keeps E.devices E.serves E.entries host engine.old engine.new }
{
    match engine.wait_for(host, device, counts) {
        Ok(true) => Ok(After::Ended),
        Ok(false) => Ok(After::Idle),
        Err(fault) => Err(fault),
    }
}

// A host goes on. Asked for where the form is known, and inlined, so that no counts are moved but to where they stay.
#[inline(always)]
fn move_on(ended: &mut usize, ids: &mut Ids, phase: &mut Phase, goes: Result<After, Fault>) -> Reply
    requires { ended.old + 1 < 2 ^ 64 }
    ensures { GoesOn goes ended.old ids.old phase.old result ended.new ids.new phase.new }
{
    match goes {
        Ok(After::Idle) => Reply::Idle,
        Ok(After::Ended) => {
            *ended += 1;
            *phase = Phase::Ready;
            Reply::Did
        }
        Ok(After::Set { ids: set }) => {
            *ended += 1;
            *ids = set;
            *phase = Phase::Ready;
            Reply::Did
        }
        Ok(After::Waits { what }) => {
            let counts = what.counts;
            *phase = Phase::Waits {
                device: what.device,
                counts,
            };
            Reply::Did
        }
        Ok(After::Asks { what }) => {
            let counts = what.counts;
            *phase = Phase::Asks {
                device: what.device,
                counts,
            };
            Reply::Did
        }
        Err(fault) => {
            *phase = Phase::Refused { fault };
            Reply::Refused(fault)
        }
    }
}

// The first step of a statement.
fn act<E: Engine>(
    engine: &mut E,
    alloc: Global,
    host: HostId,
    act: &Act,
    ended: &mut usize,
    ids: &mut Ids,
    phase: &mut Phase,
) -> Reply
    requires host { E.serves engine.old host }
    requires set { IsSet ids.old act.now }
    requires few { ended.old + 1 < 2 ^ 64 }
    ensures moves { Moves E.makes E.entries engine.old host
        (wanted (E.devices engine.old) ids.old act.now) ended.old ids.old phase.old
        result engine.new ended.new ids.new phase.new }
    ensures keeps { Keeps E.devices E.serves E.entries host engine.old engine.new }
{
    match act {
        Act::Place { directive } => match engine.place(host, directive) {
            Ok(placed) => move_on(ended, ids, phase, Ok(owed_by(directive, placed))),
            Err(fault) => move_on(ended, ids, phase, Err(fault)),
        },
        Act::Write { array, cell, value } => {
            let goes = record_item(engine, host, Item::write(*array, *cell, *value));
            move_on(ended, ids, phase, goes)
        }
        Act::Print { range } => match Item::print(alloc, *range) {
            Ok(item) => {
                let goes = record_item(engine, host, item);
                move_on(ended, ids, phase, goes)
            }
            Err(fault) => move_on(ended, ids, phase, Err(fault)),
        },
        Act::SetDevice { device } => match with_device(*ids, *device, engine.ask()) {
            Ok(set) => move_on(ended, ids, phase, Ok(After::Set { ids: set })),
            Err(fault) => move_on(ended, ids, phase, Err(fault)),
        },
        Act::SetAsync { value } => match with_default(*ids, *value) {
            Ok(set) => move_on(ended, ids, phase, Ok(After::Set { ids: set })),
            Err(fault) => move_on(ended, ids, phase, Err(fault)),
        },
        Act::ShowDevice | Act::ShowDevices => {
            let goes = Ok(After::Set { ids: *ids });
            move_on(ended, ids, phase, goes)
        }
    }
}

// One step of a host that stands at this statement.
fn turn<E: Engine>(
    engine: &mut E,
    alloc: Global,
    host: HostId,
    statement: &mut Statement,
    ended: &mut usize,
    ids: &mut Ids,
    phase: &mut Phase,
) -> Reply
    requires host { E.serves engine.old host }
    requires few { ended.old + 1 < 2 ^ 64 }
    ensures bare { bare statement.new ≡ bare statement.old }
    ensures moves { Moves E.makes E.entries engine.old host
        (wants_at (E.devices engine.old) ids.old phase.old (Some (bare statement.old)))
        ended.old ids.old phase.old result engine.new ended.new ids.new phase.new }
    ensures keeps { Keeps E.devices E.serves E.entries host engine.old engine.new }
{
    match &*phase {
        Phase::Ready => {
            set_in(&mut statement.act, *ids);
            act(engine, alloc, host, &statement.act, ended, ids, phase)
        }
        Phase::Waits { device, counts } => {
            let goes = wait(engine, host, *device, *counts);
            move_on(ended, ids, phase, goes)
        }
        Phase::Asks { device, counts } => match Item::test(alloc, *device, *counts) {
            Ok(item) => {
                let goes = record_item(engine, host, item);
                move_on(ended, ids, phase, goes)
            }
            Err(fault) => move_on(ended, ids, phase, Err(fault)),
        },
        Phase::Refused { .. } => Reply::Idle,
    }
}

/// One step of a host that stands at one of these statements.
pub(crate) fn turn_at<E: Engine>(
    engine: &mut E,
    alloc: Global,
    host: HostId,
    statements: &mut [Statement],
    ended: &mut usize,
    ids: &mut Ids,
    phase: &mut Phase,
) -> Reply
    requires host { E.serves engine.old host }
    requires within { ended.old < length statements.old }
    requires few { ended.old + 1 < 2 ^ 64 }
    ensures bare { map bare statements.new ≡ map bare statements.old }
    ensures moves { Moves E.makes E.entries engine.old host
        (wants_at (E.devices engine.old) ids.old phase.old
        (slice_get (map bare statements.old) ended.old))
        ended.old ids.old phase.old result engine.new ended.new ids.new phase.new }
    ensures keeps { Keeps E.devices E.serves E.entries host engine.old engine.new }
{
    let at = *ended;
    turn(engine, alloc, host, &mut statements[at], ended, ids, phase)
}
