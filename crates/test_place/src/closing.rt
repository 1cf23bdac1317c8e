//! A place closes its queues without memory, of which a clause keeps no count.

ghost use Rattle.std.specs.Prelude.{◌≡◌};

use crate::fixtures::{check_labels, check_same, directive_with, place_with};
use crate::tables::Cells::{self, A};
use crate::tables::{Deed, Named, Word};
use acc_base::{DeviceId, Fault, HostId, QUEUES, QueueAt, QueueCounts, QueueId, VALUES};
use acc_batch::Label;
use acc_place::Clause::{Create, Delete};
use acc_place::{ASYNC_NOVAL, Clause, Place, Target};
use std::alloc::{AllocError, Global};
use std::process::Abort;
use std::test::Fail;
use tool_directives::counts_of;
use tool_scarce::Hoard;

// A queue of a device.
fn at(device: u8, number: u8) -> QueueAt
    ensures { result ≡ record { device = device; queue = number } }
{
    QueueAt {
        device: DeviceId::new(device),
        queue: QueueId::new(number),
    }
}

// Whether it is the label of a queue's close, with this number.
fn is_close_of(label: &Label, at: QueueAt, number: u64) -> bool {
    label.at == at
        && label.number == number
        && label.host == HostId::new(0)
        && label.items_done == 0
}

fn check_label(rt: &impl Abort, label: &Label, at: QueueAt, number: u64) {
    assert!(rt; is_close_of(label, at, number), "close {number}");
    check_labels(rt, label.ops.get().as_slice(), &[Deed::Close]);
}

// Accepts a directive on the queue of this async value of a device.
fn give(
    alloc: Global,
    place: &mut Place,
    device: u8,
    value: i64,
    word: Word,
    items: &[(Clause, Cells)],
) -> Result<(), Fault> {
    let target = Target::Value { value };
    let mut directive = directive_with(alloc, word, items, target, Named::Nothing)?;
    directive.set_ids(DeviceId::new(device), ASYNC_NOVAL);
    let plan = place.plan(HostId::new(1), 5, &directive)?;
    let _ = place.accept(plan);
    Ok(())
}

/// The async value of a device's last queue.
const LAST: i64 = VALUES as i64 - 1;

// A place of two devices, with batches on queue 3 of the first, and on the last queue of the second.
fn place_with_batches(alloc: Global) -> Result<Box<Place>, Fault> {
    const ENTERS: &[(Clause, Cells)] = &[(Create, A(2, 3)), (Create, A(6, 1))];
    const EXITS: &[(Clause, Cells)] = &[(Delete, A(2, 3)), (Delete, A(6, 1))];
    const TURNS: &[(u8, i64)] = &[(0, 1), (0, 1), (1, LAST)];
    let mut place = place_with(alloc, 2, 8)?;
    for (device, value) in TURNS {
        give(alloc, &mut place, *device, *value, Word::Enter, ENTERS)?;
        give(alloc, &mut place, *device, *value, Word::Exit, EXITS)?;
    }
    Ok(place)
}

/// How many batches it has, by device and queue.
const PLACED: [(u8, u64); 2] = [(3, 4), (QUEUES - 1, 2)];

// Closes a queue, at the second try, and answers whether its close was there both times.
fn is_closed(place: &mut Place, device: u8, number: u8) -> bool {
    place.close_begin();
    match place.close_batch(at(device, number)) {
        None => return false,
        Some(batch) => place.close_back(at(device, number), batch),
    }
    match place.close_batch(at(device, number)) {
        None => false,
        Some(_) => {
            place.close_done(at(device, number));
            true
        }
    }
}

// How many of a device's queues are closed then.
fn count_closed(place: &mut Place, device: u8) -> u32 {
    let mut count = 0u32;
    for number in 0..QUEUES {
        if is_closed(place, device, number) {
            count = count.wrapping_add(1);
        }
    }
    count
}

// The last batch of a queue is its close, and has this number.
fn check_last(rt: &impl Abort, place: &Place, device: u8, number: u8, last: u64) {
    match place.placed(at(device, number), last) {
        None => panic!(rt; "no batch {last}"),
        Some(label) => check_label(rt, label, at(device, number), last),
    }
}

// So it is of each of a device's queues, behind so many others, and there is none left.
fn check_closed(rt: &impl Abort, place: &mut Place, device: u8, counts: &QueueCounts) {
    for number in 0..QUEUES {
        let last = counts[usize::from(number)].wrapping_add(1);
        check_same(rt, place.placed_count(at(device, number)), last);
        check_last(rt, place, device, number, last);
        check_same(rt, place.close_batch(at(device, number)).is_none(), true);
    }
}

// How many of both devices' queues are closed where there is no memory.
fn count_scarcely(alloc: Global, place: &mut Place) -> Result<(u32, u32), AllocError> {
    let mut hoard = Hoard::new(alloc)?;
    hoard.fill(alloc);
    let first = count_closed(place, 0);
    let second = count_closed(place, 1);
    hoard.free();
    Ok((first, second))
}

/// Whatever the place accepted before.
#[test]
fn closing_takes_no_memory(rt: HostRuntime) -> Result<(), Fail> {
    let mut place = place_with_batches(rt.alloc())?;
    let counts = count_scarcely(rt.alloc(), &mut place)?;
    let all = u32::from(QUEUES);
    check_same(&rt, counts, (all, all));
    for device in 0..2u8 {
        let placed = counts_of(&[PLACED[usize::from(device)]]);
        check_closed(&rt, &mut place, device, &placed);
    }
    Ok(())
}
