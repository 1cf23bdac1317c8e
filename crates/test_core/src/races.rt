//! Two hosts race on one queue in every order of a small schedule, where the contract of a step
//! knows one event.

use crate::checks::{FINISHED, check_present, check_same, check_states, check_steps, printed};
use crate::worlds::{ROOM, on, reply_to, turns, world_of};
use acc_base::Fault;
use acc_core::{Event, WorkEntry, WorkLog, World};
use std::alloc::Global;
use std::process::Abort;
use std::test::Fail;

/// Each host writes its number and one into the first cell, and enters and leaves it on a queue; at the end it waits for all and
/// prints the cell.
const RACERS: &[u8] =
    b"long a[2] = {5,6};\nhost {\na[0] = 1;\n#pragma acc enter data copyin(a[0:1]) async(1)\n#pragma acc exit data copyout(a[0:1]) async(1)\n#pragma acc wait\nprint(a[0:1]);\n}\nhost {\na[0] = 2;\n#pragma acc enter data copyin(a[0:1]) async(1)\n#pragma acc exit data copyout(a[0:1]) async(1)\n#pragma acc wait\nprint(a[0:1]);\n}\n";

/// Which of the schedule's words a step is.
#[derive(Clone, Copy, Debug, PartialEq, Eq)]
enum Word {
    First,
    Second,
    Queue,
}

// The words that a number has in base three, from the last on, if three are of each host and two of the queue.
fn schedule_of(number: u32) -> Option<[Word; 8]> {
    let mut words = [Word::Queue; 8];
    let mut counts = [0u32; 3];
    let mut rest = number;
    for word in &mut words {
        let digit = rest % 3;
        rest /= 3;
        *word = match digit {
            0 => Word::First,
            1 => Word::Second,
            _ => Word::Queue,
        };
        counts[digit as usize] = counts[digit as usize].wrapping_add(1);
    }
    if counts == [3, 3, 2] {
        Some(words)
    } else {
        None
    }
}

// Whether one host has left before the other enters: a host's second step enters, and its third one leaves.
fn is_apart(words: &[Word; 8]) -> bool {
    let mut first = 0u32;
    let mut second = 0u32;
    for word in words {
        match word {
            Word::First => first = first.wrapping_add(1),
            Word::Second => second = second.wrapping_add(1),
            Word::Queue => {}
        }
        if first == 3 && second < 2 || second == 3 && first < 2 {
            return true;
        }
    }
    false
}

// The steps of a schedule, of which a host's do something, and then turns.
fn run_words(rt: &impl Abort, world: &mut World, words: &[Word; 8]) {
    for word in words {
        match word {
            Word::First => check_steps(rt, world, 0, 1),
            Word::Second => check_steps(rt, world, 1, 1),
            Word::Queue => {
                let _ = reply_to(world, Event::Take(on(1)));
                let _ = reply_to(world, Event::Perform(on(1)));
            }
        }
    }
    turns(world, 12);
}

// So many operations were performed, and each of two prints shows the value of one of the hosts.
fn check_log(rt: &impl Abort, log: &WorkLog, operations: u32) {
    let mut performed = 0u32;
    let mut prints = 0u32;
    for entry in log.iter() {
        if let WorkEntry::Op { .. } = entry {
            performed = performed.wrapping_add(1);
        }
        if let Some(values) = printed(Some(entry)) {
            let mut values = values.iter();
            check_same(rt, matches!(values.next(), Some(1 | 2)), true);
            check_same(rt, values.next(), None);
            prints = prints.wrapping_add(1);
        }
    }
    check_same(rt, (performed, prints), (operations, 2));
}

fn run_race(rt: &impl Abort, alloc: Global, words: &[Word; 8]) -> Result<(), Fault> {
    let mut world = world_of(alloc, RACERS, ROOM)?;
    run_words(rt, &mut world, words);
    check_states(rt, &world, &[FINISHED, FINISHED]);
    check_present(rt, &world, None);
    // alone, each host makes, copies in, copies out and releases; else the first to enter and the last to leave do
    check_log(rt, world.log(), if is_apart(words) { 8 } else { 4 });
    Ok(())
}

/// Two hosts enter and leave the same range on the same queue, under each of the 560 orders of three steps of each host and two
/// turns of the queue.
#[test]
fn two_hosts_race_in_every_order(rt: HostRuntime) -> Result<(), Fail> {
    let mut orders = 0u32;
    let mut apart = 0u32;
    for number in 0..6_561u32 {
        if let Some(words) = schedule_of(number) {
            run_race(&rt, rt.alloc(), &words)?;
            orders = orders.wrapping_add(1);
            apart = apart.wrapping_add(u32::from(is_apart(&words)));
        }
    }
    check_same(&rt, orders, 560);
    check_same(&rt, (0 < apart, apart < orders), (true, true));
    Ok(())
}
