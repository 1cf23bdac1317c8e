//! A number of a world, which worlds that are alike have in common.
//!
//! It only chooses which of the worlds that were found is compared: nothing is claimed of it.

ghost use Rattle.std.specs.Prelude.{◌<◌};

use acc_base::{DeviceId, HostId, QueueAt, Range};
use acc_batch::{Label, OpLabel, Values};
use acc_core::World;
use acc_host::{Host, OwnDirectives, OwnItems, Phase};
use acc_place::Place;
use acc_work::{Told, WorkEntry};
use std::hash::{FoldHasher, Hasher};

// Where a host stands.
fn write_host(hasher: &mut FoldHasher, host: &Host) {
    hasher.write_usize(host.ended());
    hasher.write_u8(match host.phase() {
        Phase::Ready => 0,
        Phase::Waits { .. } => 1,
        Phase::Asks { .. } => 2,
        Phase::Refused { .. } => 3,
    });
}

// The values of a print.
fn write_values(hasher: &mut FoldHasher, values: &Values) {
    for value in values.iter() {
        hasher.write_i64(value);
    }
}

// What a host was shown: what else there is in its items its program says.
fn write_items(hasher: &mut FoldHasher, world: &World, host: HostId) {
    let mut items = OwnItems::new(world.log(), host);
    while let Some(item) = items.next() {
        match item {
            Told::Print { values, .. } => write_values(hasher, values.get()),
            Told::Test { answer, .. } => hasher.write_u8(u8::from(*answer)),
            Told::Write { .. } | Told::Seen { .. } => hasher.write_u8(2),
        }
    }
}

// Where each host stands, and what it was answered and shown.
fn write_hosts(hasher: &mut FoldHasher, world: &World) {
    for number in 0..world.hosts() {
        if let Some(host) = world.host(HostId::new(number)) {
            write_host(hasher, host);
        }
        write_directives(hasher, world, HostId::new(number));
        write_items(hasher, world, HostId::new(number));
    }
}

// What a host was answered, directive by directive.
fn write_directives(hasher: &mut FoldHasher, world: &World, host: HostId) {
    let mut owns = OwnDirectives::new(world.place(), host);
    while let Some(own) = owns.next() {
        let answer = own.answer.placed();
        hasher.write_u64(own.items_before);
        hasher.write_u64(match answer.batch {
            None => 0,
            Some((_, number)) => number,
        });
        for count in answer.counts {
            hasher.write_u64(count);
        }
        hasher.write_u8(u8::from(answer.present));
    }
}

// An operation that was placed: of which block, or what it awaits.
fn write_op(hasher: &mut FoldHasher, op: &OpLabel) {
    match op {
        OpLabel::Make { block, .. } | OpLabel::Release { block } => {
            hasher.write_u64(block.number());
        }
        OpLabel::CopyIn { block, .. } | OpLabel::CopyOut { block, .. } => {
            hasher.write_u64(block.number());
        }
        OpLabel::Await { queue, number } => {
            hasher.write_u8(queue.number());
            hasher.write_u64(*number);
        }
        OpLabel::Run { .. } | OpLabel::Close => hasher.write_u8(255),
    }
}

// The batches that were placed on a queue, in order.
fn write_labels(hasher: &mut FoldHasher, labels: &[Label]) {
    for label in labels {
        hasher.write_u8(label.host.number());
        hasher.write_u64(label.items_done);
        for op in label.ops.get().as_slice() {
            write_op(hasher, op);
        }
    }
}

// What was placed on each queue, and how far it has come.
fn write_queues(hasher: &mut FoldHasher, world: &World) {
    let config = world.place().config();
    for seat in 0..config.queue_count() {
        write_labels(hasher, world.place().labels_on(QueueAt::at_seat(seat)));
        hasher.write_u64(world.taken(QueueAt::at_seat(seat)));
        hasher.write_usize(world.ops_left(QueueAt::at_seat(seat)));
    }
}

// What is present on a device.
fn write_device(hasher: &mut FoldHasher, place: &Place, device: DeviceId)
    requires { device < place.now.config.devices }
{
    for entry in place.entries(device) {
        hasher.write_u64(entry.block.number());
        hasher.write_u64(entry.s);
        hasher.write_u64(entry.d);
    }
}

// What is present on each.
fn write_devices(hasher: &mut FoldHasher, place: &Place) {
    for device in 0..place.config().devices() {
        write_device(hasher, place, DeviceId::new(device));
    }
}

// What a host array holds.
fn write_array(hasher: &mut FoldHasher, world: &World, array: u8, cells: u32) {
    for cell in 0..cells {
        hasher.write_i64(world.host_cell(array, cell).unwrap_or(0));
    }
}

// What all hold.
fn write_arrays(hasher: &mut FoldHasher, world: &World) {
    let config = world.place().config();
    config.keeps();
    for array in 0..config.arrays() {
        let cells = config.array(array as u8).len() as u32;
        write_array(hasher, world, array as u8, cells);
    }
}

// A number of an operation that made a block: of what the block holds, if it is there.
fn number_of_block(world: &World, entry: &WorkEntry) -> u64 {
    match entry {
        WorkEntry::Op {
            at,
            what: OpLabel::Make { block, range },
        } => {
            let mut hasher = FoldHasher::default();
            hasher.write_u8(at.device.number());
            hasher.write_u64(block.number());
            let Range { lo, len, .. } = *range;
            for index in 0..len {
                let cell = lo.wrapping_add(index);
                if let Some(value) = world.block_cell(at.device, *block, cell) {
                    hasher.write_i64(value);
                }
            }
            hasher.finish()
        }
        _ => 0,
    }
}

// A number of what all blocks hold: in which order they were made is left open.
fn number_of_blocks(world: &World) -> u64 {
    let mut sum = 0u64;
    for entry in world.log().iter() {
        sum = sum.wrapping_add(number_of_block(world, entry));
    }
    sum
}

/// A number of what no two worlds differ in that are alike, and others mostly do.
pub(crate) fn digest(world: &World) -> u64 {
    let mut hasher = FoldHasher::default();
    write_hosts(&mut hasher, world);
    write_queues(&mut hasher, world);
    write_devices(&mut hasher, world.place());
    hasher.write_usize(world.place().history().len());
    write_arrays(&mut hasher, world);
    hasher.write_u64(number_of_blocks(world));
    hasher.finish()
}
