//! Worlds that close without memory, of which contracts don't speak.

use crate::checks::{check_same, check_steps};
use crate::worlds::{ROOM, queue, reply_to, turns, world_of};
use acc_base::QUEUES;
use acc_core::{Event, Reply, World};
use std::alloc::{AllocError, Global};
use std::process::Abort;
use std::test::Fail;
use tool_scarce::Hoard;

// What closing answers where there is no memory.
fn scarce_closes(alloc: Global, world: &mut World) -> Result<[Reply; 2], AllocError> {
    let mut hoard = Hoard::new(alloc)?;
    hoard.fill(alloc);
    let first = reply_to(world, Event::Close);
    let mut done = true;
    for number in 0..QUEUES {
        let taken = reply_to(world, Event::Take(queue(0, number)));
        let performed = reply_to(world, Event::Perform(queue(0, number)));
        done = done && taken == Reply::Did && performed == Reply::Did;
    }
    let second = if done {
        reply_to(world, Event::Close)
    } else {
        Reply::Idle
    };
    hoard.free();
    Ok([first, second])
}

// A host that gives one queue 64 batches.
fn updates(alloc: Global) -> Result<Vec<u8>, AllocError> {
    let enter = b"long a[2];\nhost {\n#pragma acc enter data create(a) async(1)\n";
    let mut text = Vec::from_slice(alloc, enter)?;
    for _ in 1..64u32 {
        text.extend_from_slice(b"#pragma acc update self(a) async(1)\n")?;
    }
    text.push(b'}')?;
    Ok(text)
}

// Neither closing nor performing the closes takes memory.
fn check_scarce_closes(
    rt: &impl Abort,
    alloc: Global,
    world: &mut World,
) -> Result<(), AllocError> {
    let replies = scarce_closes(alloc, world)?;
    check_same(rt, replies, [Reply::Remaining(0); 2]);
    Ok(())
}

#[test]
fn closing_a_new_world_takes_no_memory(rt: HostRuntime) -> Result<(), Fail> {
    let mut world = world_of(rt.alloc(), b"host { }\n", ROOM)?;
    check_scarce_closes(&rt, rt.alloc(), &mut world)?;
    Ok(())
}

#[test]
fn closing_behind_many_batches_takes_no_memory(rt: HostRuntime) -> Result<(), Fail> {
    let text = updates(rt.alloc())?;
    let mut world = world_of(rt.alloc(), text.as_slice(), ROOM)?;
    check_steps(&rt, &mut world, 0, 64);
    turns(&mut world, 70);
    check_scarce_closes(&rt, rt.alloc(), &mut world)?;
    Ok(())
}
