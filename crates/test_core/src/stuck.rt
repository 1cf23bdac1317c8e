//! Queues that await one another come to an end by themselves. A contract says that some queue is
//! enabled where something is left, and not that it ends.

use crate::checks::{check_same, check_steps};
use crate::worlds::{ROOM, queue, reply_to, world_of};
use acc_base::{QUEUES, QueueAt};
use acc_core::{Event, Reply, World};
use std::process::Abort;
use std::test::Fail;

// A queue of the first device that is enabled.
fn enabled_queue(world: &World) -> Option<QueueAt> {
    for number in 0..QUEUES {
        if world.enabled(queue(0, number)) {
            return Some(queue(0, number));
        }
    }
    None
}

// A queue that is enabled takes a batch or performs an operation.
fn check_goes_on(rt: &impl Abort, world: &mut World, at: QueueAt) {
    let QueueAt { device, queue } = at;
    let took = reply_to(world, Event::Take(QueueAt { device, queue }));
    if took == Reply::Idle {
        let performed = reply_to(world, Event::Perform(QueueAt { device, queue }));
        check_same(rt, performed, Reply::Did);
    }
}

// Steps of enabled queues alone, until nothing is left; and how many.
fn drain(rt: &impl Abort, world: &mut World) -> u32 {
    for steps in 0..1_000u32 {
        match enabled_queue(world) {
            None => {
                check_same(rt, world.any_left(), false);
                return steps;
            }
            Some(at) => {
                check_same(rt, world.any_left(), true);
                check_goes_on(rt, world, at);
            }
        }
    }
    panic!(rt; "some queue is enabled for ever")
}

/// The loop awaits the block's maker, and the copy out and the release await the loop.
const CHAIN: &[u8] =
    b"long a[2];\nhost {\n#pragma acc enter data create(a) async(1)\n#pragma acc parallel loop present(a) async(2)\nfor (i = 0; i < 2; i++) a[i] = i + 7;\n#pragma acc exit data copyout(a) async(1)\n}\n";

// The host goes on by so many steps, and then the enabled queues by so many.
fn check_drained(rt: &impl Abort, world: &mut World, host_steps: u32, steps: u32) {
    check_steps(rt, world, 0, host_steps);
    check_same(rt, drain(rt, world), steps);
}

/// Steps of the enabled queues alone perform all, whatever awaits what: behind each step of the host. A batch is taken each time.
#[test]
fn enabled_queues_perform_all_step_by_step(rt: HostRuntime) -> Result<(), Fail> {
    let mut world = world_of(rt.alloc(), CHAIN, ROOM)?;
    for (host_steps, steps) in [(0u32, 0u32), (1, 2), (1, 3), (1, 4)] {
        check_drained(&rt, &mut world, host_steps, steps);
    }
    Ok(())
}

/// So they do behind the host's last step.
#[test]
fn enabled_queues_perform_all(rt: HostRuntime) -> Result<(), Fail> {
    let mut world = world_of(rt.alloc(), CHAIN, ROOM)?;
    check_steps(&rt, &mut world, 0, 3);
    check_same(&rt, world.enabled(queue(0, 0)), false);
    check_same(&rt, world.enabled(queue(3, 0)), false);
    check_drained(&rt, &mut world, 0, 9);
    Ok(())
}

const CREATE: &[u8] = b"long a[2];\nhost {\n#pragma acc enter data create(a) async(0)\n}\n";

/// Each of six queues awaits the one before it.
const ROUND: &[u8] =
    b"host {\n#pragma acc wait(0) async(1)\n#pragma acc update device(a) async(1)\n#pragma acc wait(1) async(2)\n#pragma acc update device(a) async(2)\n#pragma acc wait(2) async(3)\n#pragma acc update device(a) async(3)\n#pragma acc wait(3) async(4)\n#pragma acc update device(a) async(4)\n#pragma acc wait(4) async(5)\n#pragma acc update device(a) async(5)\n#pragma acc wait(5) async(0)\n#pragma acc update device(a) async(0)\n}\n";

/// Six queues, each of which awaits the one before it, twice round.
#[test]
fn a_ring_of_queues_goes_on(rt: HostRuntime) -> Result<(), Fail> {
    let mut text = Vec::from_slice(rt.alloc(), CREATE)?;
    text.extend_from_slice(ROUND)?;
    text.extend_from_slice(ROUND)?;
    let mut world = world_of(rt.alloc(), text.as_slice(), ROOM)?;
    check_steps(&rt, &mut world, 0, 1);
    check_steps(&rt, &mut world, 1, 12);
    check_steps(&rt, &mut world, 2, 12);
    // 25 batches are taken, and 35 operations performed: each wait is one await, and an update on another queue than its
    // block's maker has one, too
    check_same(&rt, drain(&rt, &mut world), 60);
    Ok(())
}
