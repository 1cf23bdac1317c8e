//! Worlds in which memory is refused to one event and not to the next, worlds that get enough
//! at last, and worlds that are dropped wherever they stand; no clause can tell how much there is.

ghost use Rattle.std.specs.Prelude.{◌<◌};
ghost use Rattle.acc_base.specs.declared.ids.TheConstants.{QUEUES};

use crate::checks::{
    FINISHED, check_last_print, check_present, check_same, check_states, check_steps, entries,
    refused,
};
use crate::worlds::{ROOM, host, on, queue, reply_to, turns, world_of};
use acc_base::{Config, DeviceId, Fault, HostId, QUEUES, QueueCounts, Range};
use acc_core::{Counts, Event, HostState, Outcome, Reply, World};
use std::alloc::{AllocError, Global};
use std::process::Abort;
use std::test::Fail;
use tool_scarce::{Hoard, at_each_amount};

/// The array is entered, and left.
const ENTER: &[u8] =
    b"long a[4];\nhost {\n#pragma acc enter data copyin(a)\n#pragma acc exit data copyout(a)\n}\n";

/// The array's cells are doubled, and printed.
const DOUBLE: &[u8] =
    b"long a[4] = {1,2,3,4};\nhost {\n#pragma acc parallel loop\nfor (i = 0; i < 4; i++) a[i] = a[i] * 2;\nprint(a);\n}\n";

/// The same, and they are doubled again.
const DOUBLE_TWICE: &[u8] =
    b"long a[4] = {1,2,3,4};\nhost {\n#pragma acc parallel loop\nfor (i = 0; i < 4; i++) a[i] = a[i] * 2;\nprint(a);\n#pragma acc parallel loop\nfor (i = 0; i < 4; i++) a[i] = a[i] * 2;\n}\n";

/// The array is entered, its cells are doubled there, and it is left and printed.
const DOUBLE_PRESENT: &[u8] =
    b"long a[4] = {1,2,3,4};\nhost {\n#pragma acc enter data copyin(a)\n#pragma acc parallel loop present(a)\nfor (i = 0; i < 4; i++) a[i] = a[i] * 2;\n#pragma acc exit data copyout(a)\nprint(a);\n}\n";

/// Each host enters its array.
const TWO_HOSTS: &[u8] =
    b"long a[2];\nlong b[2];\nhost {\n#pragma acc enter data copyin(a) async(1)\n}\nhost {\n#pragma acc enter data copyin(b) async(2)\n}\n";

// The array's cells.
const ALL: Range = Range {
    array: 0,
    lo: 0,
    len: 4,
};

fn take() -> Event {
    Event::Take(queue(0, 0))
}

fn perform() -> Event {
    Event::Perform(queue(0, 0))
}

/// Whether there is memory for an event, the event, and its reply.
pub type Tried = (bool, Event, Reply);

// A step for which there is no memory, nor a piece of the size of a new log that was let go.
fn scarce_step(alloc: Global, world: &mut World, event: Event) -> Result<Reply, AllocError> {
    let mut pieces: Vec<Vec<u8>> = Vec::with_capacity(alloc, 64)?;
    let mut hoard = Hoard::new(alloc)?;
    hoard.fill(alloc);
    for _ in 0..64u32 {
        match Vec::with_capacity(alloc, 192) {
            Ok(piece) => pieces.push(piece)?,
            Err(_) => break,
        }
    }
    let reply = reply_to(world, event);
    hoard.free();
    Ok(reply)
}

/// Steps with their replies.
pub fn check_replies(
    rt: &impl Abort,
    alloc: Global,
    world: &mut World,
    events: &[Tried],
) -> Result<(), AllocError> {
    for (has_memory, event, wanted) in events {
        let reply = if *has_memory {
            reply_to(world, *event)
        } else {
            scarce_step(alloc, world, *event)?
        };
        check_same(rt, (*event, reply), (*event, *wanted));
    }
    Ok(())
}

// A run of so many events that there is no memory for the list of their replies.
fn scarce_run(alloc: Global, world: &mut World) -> Result<Option<Fault>, AllocError> {
    let many = vec![in alloc; host(0); 100_000]?;
    let mut hoard = Hoard::new(alloc)?;
    hoard.fill(alloc);
    let replies = world.run(many.as_slice());
    hoard.free();
    Ok(replies.err())
}

fn scarce_outcome(alloc: Global, world: Box<World>) -> Result<Outcome, AllocError> {
    let mut hoard = Hoard::new(alloc)?;
    hoard.fill(alloc);
    let outcome = Box::into_inner(world).outcome();
    hoard.free();
    Ok(outcome)
}

fn check_scarce_run(rt: &impl Abort, alloc: Global, text: &[u8]) -> Result<(), Fail> {
    let mut world = world_of(alloc, text, ROOM)?;
    let refused = scarce_run(alloc, &mut world)?;
    check_same(rt, refused, Some(Fault::Memory));
    check_present(rt, &world, None);
    check_steps(rt, &mut world, 0, 1);
    Ok(())
}

/// A run that can't have its list of replies changes nothing.
#[test]
fn memory_is_refused_to_a_run(rt: HostRuntime) -> Result<(), Fail> {
    check_scarce_run(&rt, rt.alloc(), ENTER)?;
    check_scarce_run(&rt, rt.alloc(), DOUBLE)
}

/// So many directives were accepted, and the hosts stand so.
pub fn check_outcome(
    rt: &impl Abort,
    alloc: Global,
    world: Box<World>,
    accepted: usize,
    states: &[HostState],
) -> Result<(), AllocError> {
    let outcome = scarce_outcome(alloc, world)?;
    check_same(rt, outcome.places.len(), accepted);
    check_same(rt, outcome.hosts.as_slice(), states);
    Ok(())
}

/// Queues perform without memory what was placed with it; a directive that can't have its memory is refused, and its
/// host stays so; the outcome takes none.
#[test]
fn memory_is_refused_to_a_step(rt: HostRuntime) -> Result<(), Fail> {
    let alloc = rt.alloc();
    let events = [
        (true, host(0), Reply::Did),
        (false, take(), Reply::Did),
        (false, perform(), Reply::Did),
        (false, perform(), Reply::Did),
        (true, host(0), Reply::Did),
        (false, host(0), Reply::Refused(Fault::Memory)),
        (true, host(0), Reply::Idle),
    ];
    let mut world = world_of(alloc, ENTER, ROOM)?;
    check_replies(&rt, alloc, &mut world, &events)?;
    check_present(&rt, &world, Some((ALL, 0, 1)));
    check_outcome(&rt, alloc, world, 1, &[refused(1, 4, Fault::Memory)])?;
    Ok(())
}

// A statement for which there is no memory leaves no entry.
fn check_scarce_statement(rt: &impl Abort, alloc: Global, text: &[u8]) -> Result<(), Fail> {
    let events = [
        (false, host(0), Reply::Refused(Fault::Memory)),
        (true, host(0), Reply::Idle),
    ];
    let mut world = world_of(alloc, text, ROOM)?;
    check_replies(rt, alloc, &mut world, &events)?;
    check_same(rt, entries(world.log()), 0);
    check_states(rt, &world, &[refused(0, 3, Fault::Memory)]);
    Ok(())
}

/// A write and a print leave no entry then.
#[test]
fn memory_is_refused_to_a_write_and_a_print(rt: HostRuntime) -> Result<(), Fail> {
    let alloc = rt.alloc();
    check_scarce_statement(&rt, alloc, b"long a[4];\nhost {\na[0] = 9;\n}\n")?;
    check_scarce_statement(&rt, alloc, b"long a[4];\nhost {\nprint(a);\n}\n")
}

/// A wait whose host can't note what is performed stays accepted, and all that it waited for performed.
#[test]
fn memory_is_refused_to_a_host_that_waited(rt: HostRuntime) -> Result<(), Fail> {
    let alloc = rt.alloc();
    let events = [
        (true, host(0), Reply::Did),
        (true, host(0), Reply::Did),
        (true, host(0), Reply::Did),
        (true, Event::Take(on(1)), Reply::Did),
        (true, Event::Perform(on(1)), Reply::Did),
        (true, Event::Take(on(2)), Reply::Did),
        (true, Event::Perform(on(2)), Reply::Did),
        (false, host(0), Reply::Refused(Fault::Memory)),
        (true, host(0), Reply::Idle),
    ];
    let text =
        b"long a[4];\nhost {\n#pragma acc enter data create(a[0:1]) async(1)\n#pragma acc enter data create(a[1:1]) async(2)\n#pragma acc wait\n}\n";
    let mut world = world_of(alloc, text, ROOM)?;
    check_replies(&rt, alloc, &mut world, &events)?;
    check_same(&rt, entries(world.log()), 2);
    check_outcome(&rt, alloc, world, 3, &[refused(2, 5, Fault::Memory)])?;
    Ok(())
}

/// The same of loops as of other directives.
#[test]
fn memory_is_refused_to_a_loop(rt: HostRuntime) -> Result<(), Fail> {
    let alloc = rt.alloc();
    let events = [
        (true, host(0), Reply::Did),
        (false, take(), Reply::Did),
        (false, perform(), Reply::Did),
        (false, perform(), Reply::Did),
        (false, perform(), Reply::Did),
        (false, perform(), Reply::Did),
        (false, perform(), Reply::Did),
        (false, perform(), Reply::Idle),
        (true, host(0), Reply::Did),
        (true, host(0), Reply::Did),
        (false, host(0), Reply::Refused(Fault::Memory)),
        (true, host(0), Reply::Idle),
    ];
    let mut world = world_of(alloc, DOUBLE_TWICE, ROOM)?;
    check_replies(&rt, alloc, &mut world, &events)?;
    check_last_print(&rt, world.log(), &[2, 4, 6, 8]);
    check_present(&rt, &world, None);
    check_outcome(&rt, alloc, world, 1, &[refused(2, 6, Fault::Memory)])?;
    Ok(())
}

#[test]
fn memory_is_refused_to_a_new_world(rt: HostRuntime) -> Result<(), Fail> {
    let alloc = rt.alloc();
    let arrays = vec![in alloc; vec![in alloc; 0i64; 60_000]?]?;
    let config = Config::new(alloc, 1, 0, arrays, 4, 64)?;
    let programs = Vec::new(alloc);
    let mut hoard = Hoard::new(alloc)?;
    hoard.fill(alloc);
    let refused = World::new(alloc, config, programs);
    hoard.free();
    check_same(&rt, refused.err(), Some(Fault::Memory));
    Ok(())
}

// A count of one queue, and none of the others.
fn counts_on(queue: u8, count: u64) -> QueueCounts
    requires { queue < QUEUES }
{
    let mut counts = [0; QUEUES as usize];
    counts[usize::from(queue)] = count;
    counts
}

/// Those of one queue take no memory.
#[test]
fn counts_are_refused_until_there_is_memory(rt: HostRuntime) -> Result<(), Fail> {
    let alloc = rt.alloc();
    let mut two = counts_on(1, 1);
    two[usize::from(QUEUES - 1)] = 1;
    let cases = [
        (counts_on(0, 0), false),
        (counts_on(0, u64::MAX), false),
        (counts_on(1, 1), false),
        (counts_on(QUEUES - 1, u64::MAX), false),
        (two, true),
        ([u64::MAX; QUEUES as usize], true),
    ];
    for (numbers, is_refused) in &cases {
        let (refusals, counts) = at_each_amount(alloc, || Counts::new(alloc, *numbers))?;
        check_same(&rt, (*numbers, 0 < refusals), (*numbers, *is_refused));
        check_same(&rt, counts.numbers(), *numbers);
    }
    Ok(())
}

// Twelve turns of two hosts and of the queues that they use, as one list.
fn long_run(alloc: Global) -> Result<Vec<Event>, AllocError> {
    let mut events = Vec::new(alloc);
    for _ in 0..12u8 {
        events.extend_from_slice(&[host(0), host(1)])?;
        // `sync`, `1` and `2`
        for number in [0u8, 3, 4] {
            events.push(Event::Take(queue(0, number)))?;
            events.push(Event::Perform(queue(0, number)))?;
        }
    }
    Ok(events)
}

fn refusal_in(replies: &[Reply]) -> Option<Fault> {
    for reply in replies {
        if let Reply::Refused(fault) = reply {
            return Some(*fault);
        }
    }
    None
}

// The fault, if the outcome says that a host stopped for it, and else another one.
fn told_by(world: Box<World>, fault: Fault) -> Fault {
    let outcome = Box::into_inner(world).outcome();
    for state in outcome.hosts.as_slice() {
        if matches!(state, HostState::Refused { fault: told, .. } if *told == fault) {
            return fault;
        }
    }
    Fault::Unfinished
}

// A world of short queues behind a run, or the fault for which a host of it was refused; the worlds that were made are counted.
fn world_behind(
    alloc: Global,
    text: &[u8],
    events: &[Event],
    worlds: &mut u32,
) -> Result<Box<World>, Fault> {
    let mut world = world_of(alloc, text, 4)?;
    *worlds = worlds.wrapping_add(1);
    let replies = world.run(events)?;
    match refusal_in(replies.as_slice()) {
        None => Ok(world),
        Some(fault) => Err(told_by(world, fault)),
    }
}

// The world of a script, and then its run, are refused until there is memory; then its hosts finish.
fn run_at_each_amount(
    rt: &impl Abort,
    alloc: Global,
    text: &[u8],
    states: &[HostState],
) -> Result<Box<World>, Fault> {
    let events = long_run(alloc)?;
    let mut worlds = 0u32;
    let (refusals, world) = at_each_amount(alloc, || {
        world_behind(alloc, text, events.as_slice(), &mut worlds)
    })?;
    check_same(rt, (1 < worlds, worlds < refusals), (true, true));
    check_states(rt, &world, states);
    Ok(world)
}

/// A world is refused until there is memory for it, and then its run until there is memory for its batches and its entries.
#[test]
fn a_world_and_its_run_are_refused_until_there_is_memory(rt: HostRuntime) -> Result<(), Fail> {
    for text in [DOUBLE, DOUBLE_PRESENT] {
        let world = run_at_each_amount(&rt, rt.alloc(), text, &[FINISHED])?;
        check_present(&rt, &world, None);
        check_last_print(&rt, world.log(), &[2, 4, 6, 8]);
    }
    Ok(())
}

/// The same with two hosts, each of which enters an array of its own.
#[test]
fn a_world_of_two_hosts_is_refused_until_there_is_memory(rt: HostRuntime) -> Result<(), Fail> {
    let world = run_at_each_amount(&rt, rt.alloc(), TWO_HOSTS, &[FINISHED; 2])?;
    assert!(rt; 0 < world.devices());
    for array in 0..2u8 {
        let counters = world.counters(
            DeviceId::new(0),
            Range {
                array,
                lo: 0,
                len: 2,
            },
        );
        check_same(&rt, counters, Some((0, 1)));
    }
    Ok(())
}

/// Data in a region and behind it, loops and updates on queues that await one another, a write, prints, and questions.
const LONG: &[u8] =
    b"long a[4] = {1,2,3,4};\nlong b[4];\nhost {\n#pragma acc data copy(a) create(b)\n{\n#pragma acc parallel loop async(1)\nfor (i = 0; i < 4; i++) b[i] = a[i] * 2;\n#pragma acc update self(b) async(2) wait(1)\n#pragma acc enter data copyin(a[1:2]) async(3) wait(2)\nprint(b);\na[0] = 9;\n#pragma acc update device(a[0:1]) async(1)\n#pragma acc parallel loop async(2) wait(1)\nfor (i = 0; i < 4; i++) b[i] = b[i] + a[i];\nprint(a);\n#pragma acc wait\n}\nprint(b);\n#pragma acc enter data create(b) async(4)\n#pragma acc exit data delete(b) async(5) wait(4)\n}\n";

// Drops a world behind so many turns.
fn drop_world(alloc: Global, count: u32) -> Result<(), Fault> {
    let mut world = world_of(alloc, LONG, 4)?;
    turns(&mut world, count);
    match world.state(HostId::new(0)) {
        Some(HostState::Refused { fault, .. }) => Err(fault),
        _ => Ok(()),
    }
}

fn drop_many(alloc: Global) -> Result<(), Fault> {
    for _ in 0..10u8 {
        for count in 0..40u32 {
            drop_world(alloc, count)?;
        }
    }
    Ok(())
}

/// There is memory for one at a time.
#[test]
fn what_a_dropped_world_held_is_free_again(rt: HostRuntime) -> Result<(), Fail> {
    let alloc = rt.alloc();
    let mut world = world_of(alloc, LONG, 4)?;
    turns(&mut world, 40);
    check_states(&rt, &world, &[FINISHED]);
    let (refusals, ()) = at_each_amount(alloc, || drop_many(alloc))?;
    check_same(&rt, 1 < refusals, true);
    Ok(())
}
