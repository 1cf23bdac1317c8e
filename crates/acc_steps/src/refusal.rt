//! Why a statement was refused: how its ranges stand on the device, how many cells are in use there, or which queue holds its room.

ghost use Rattle.std.specs.Prelude.{◌≡◌};
ghost use Rattle.std.specs.List.{flat_map};
ghost use Rattle.std.specs.Option.{option_map};
ghost use Rattle.acc_host.specs.Hosts.{bare_act};
ghost use Rattle.acc_report.specs.Puts.{Puts, sink};
ghost use Rattle.acc_script.specs.Arrays.{texts};
ghost use Rattle.acc_steps.specs.Lines.{act_reason, cells_text, host_in, limit_by, limit_text, named_text, reason_by, refused_text, room_text, standing_text};

use crate::found::{held_on, is_partly_present, used_cells};
use crate::head::put_queue;
use crate::words::{put_counters, put_range};
use acc_base::{DeviceId, Fault, QueueAt, QueueId, Range};
use acc_core::World;
use acc_host::{Act, Event, Host, Ids};
use acc_place::{DataItem, Directive, Kind, target_queue};
use acc_report::{put, put_number};
use std::io::Write;

/// The fault that an event's host was refused for, and where it comes from. The host stands at the statement.
#[tactic(auto, unfolding(crate::specs::Lines::refused_text))]
pub(crate) fn put_refusal<W: Write>(
    out: &mut W,
    failed: &mut bool,
    names: &[&[u8]],
    world: &World,
    event: Event,
    fault: Fault,
)
    ensures { Puts (sink (W.contents out.old) failed.old) (sink (W.contents out.new) failed.new)
        (refused_text (texts names.now) world.now event fault) }
{
    put(out, failed, b" | refused F");
    put_number(out, failed, fault.number());
    put(out, failed, b" ");
    put(out, failed, fault.name().as_bytes());
    put_reason(out, failed, names, world, host_in(world, event), fault);
}

// The host of an event.
fn host_in(world: &World, event: Event) -> Option<&Host>
    ensures { option_map (λ h. h.now) result ≡ host_in world.now event }
{
    match event {
        Event::Host(host) => world.host(host),
        Event::Take(_) | Event::Perform(_) | Event::Close => None,
    }
}

// Where the fault of the statement comes from that a host stands at.
fn put_reason<W: Write>(
    out: &mut W,
    failed: &mut bool,
    names: &[&[u8]],
    world: &World,
    host: Option<&Host>,
    fault: Fault,
)
    ensures { Puts (sink (W.contents out.old) failed.old) (sink (W.contents out.new) failed.new)
        (reason_by (texts names.now) world.now fault (option_map (λ h. h.now) host.entry)) }
{
    let Some(host) = host else {
        return;
    };
    let Some(statement) = host.statement() else {
        return;
    };
    put_act(
        out,
        failed,
        names,
        world,
        *host.ids(),
        fault,
        &statement.act,
    );
}

// Where the fault of a statement comes from, whose host has these ids.
fn put_act<W: Write>(
    out: &mut W,
    failed: &mut bool,
    names: &[&[u8]],
    world: &World,
    ids: Ids,
    fault: Fault,
    act: &Act,
)
    ensures { Puts (sink (W.contents out.old) failed.old) (sink (W.contents out.new) failed.new)
        (act_reason (texts names.now) world.now ids fault (bare_act act.now)) }
{
    match act {
        Act::Place { directive } => {
            put_items(
                out,
                failed,
                names,
                world,
                ids.device,
                directive.items().as_slice(),
            );
            put_limit(out, failed, world, ids, directive, fault);
        }
        Act::Write {
            array,
            cell,
            value: _,
        } => {
            let range = Range {
                array: *array,
                lo: *cell,
                len: 1,
            };
            put_named(out, failed, names, range);
        }
        Act::Print { range } => put_named(out, failed, names, *range),
        Act::SetDevice { .. } | Act::SetAsync { .. } => {}
        Act::ShowDevice | Act::ShowDevices => {}
    }
}

#[tactic(auto, unfolding(crate::specs::Lines::named_text))]
fn put_named<W: Write>(out: &mut W, failed: &mut bool, names: &[&[u8]], range: Range)
    ensures { Puts (sink (W.contents out.old) failed.old) (sink (W.contents out.new) failed.new)
        (named_text (texts names.now) range) }
{
    put(out, failed, b" | ");
    put_range(out, failed, names, range);
}

// How the ranges of a directive stand on a device.
fn put_items<W: Write>(
    out: &mut W,
    failed: &mut bool,
    names: &[&[u8]],
    world: &World,
    device: DeviceId,
    items: &[DataItem],
)
    ensures { Puts (sink (W.contents out.old) failed.old) (sink (W.contents out.new) failed.new)
        (flat_map (λ i. standing_text (texts names.now) world.now device i.range) items.now) }
{
    for item in items {
        put_stand(out, failed, names, world, device, item.range);
    }
}

#[tactic(auto, unfolding(crate::specs::Lines::standing_text))]
fn put_stand<W: Write>(
    out: &mut W,
    failed: &mut bool,
    names: &[&[u8]],
    world: &World,
    device: DeviceId,
    range: Range,
)
    ensures { Puts (sink (W.contents out.old) failed.old) (sink (W.contents out.new) failed.new)
        (standing_text (texts names.now) world.now device range) }
{
    put_named(out, failed, names, range);
    if is_partly_present(world, device, range) {
        put(out, failed, b" partly present");
    } else {
        put_counters(out, failed, held_on(world, device, range));
    }
}

// The limit that a directive has met, if it is one of its device or its queue. The end of a data construct acts where that was
// entered, which isn't looked up.
#[tactic(auto, unfolding(crate::specs::Lines::limit_text))]
fn put_limit<W: Write>(
    out: &mut W,
    failed: &mut bool,
    world: &World,
    ids: Ids,
    directive: &Directive,
    fault: Fault,
)
    ensures { Puts (sink (W.contents out.old) failed.old) (sink (W.contents out.new) failed.new)
        (limit_text world.now ids fault directive.now) }
{
    if matches!(directive.kind(), Kind::EndData) {
        return;
    }
    let at = QueueAt {
        device: ids.device,
        queue: target_queue(ids.default, directive.target()).unwrap_or(QueueId::SYNC),
    };
    put_limit_of(out, failed, world, at, fault);
}

// The limit that a directive on this queue has met.
fn put_limit_of<W: Write>(out: &mut W, failed: &mut bool, world: &World, at: QueueAt, fault: Fault)
    ensures { Puts (sink (W.contents out.old) failed.old) (sink (W.contents out.new) failed.new)
        (limit_by world.now at fault) }
{
    match fault {
        Fault::DeviceFull => put_cells(out, failed, world, at.device),
        Fault::QueueFull => put_room(out, failed, world, at),
        Fault::Closed | Fault::BadDevice | Fault::BadAsync | Fault::BadRange => {}
        Fault::TooMany | Fault::PartlyPresent | Fault::NotPresent | Fault::OutsideRange => {}
        Fault::NoRegion | Fault::Memory | Fault::Unfinished | Fault::HostsDiffer => {}
    }
}

// How many cells of a device are in use, and how many it has.
#[tactic(auto, unfolding(crate::specs::Lines::cells_text))]
fn put_cells<W: Write>(out: &mut W, failed: &mut bool, world: &World, device: DeviceId)
    ensures { Puts (sink (W.contents out.old) failed.old) (sink (W.contents out.new) failed.new)
        (cells_text world.now device) }
{
    put(out, failed, b" | ");
    put_number(out, failed, used_cells(world, device));
    put(out, failed, b" of ");
    put_number(out, failed, world.place().config().capacity());
    put(out, failed, b" cells in use");
}

// The queue that holds its room.
#[tactic(auto, unfolding(crate::specs::Lines::room_text))]
fn put_room<W: Write>(out: &mut W, failed: &mut bool, world: &World, at: QueueAt)
    ensures { Puts (sink (W.contents out.old) failed.old) (sink (W.contents out.new) failed.new)
        (room_text world.now at) }
{
    put(out, failed, b" | ");
    put_queue(out, failed, at);
    put(out, failed, b" holds its room of ");
    put_number(out, failed, world.place().config().room());
    put(out, failed, b" batches");
}
