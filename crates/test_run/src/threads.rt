//! Runs where there is memory for so many threads, and no more.

use crate::finish::finish_later;
use crate::fixtures::config_of;
use crate::readers::both_programs;
use crate::runs::{Start, has_done_nothing, opened};
use acc_base::{Fault, QUEUES};
use acc_host::{Host, HostState};
use std::alloc::Global;
use std::sync::Wait;
use std::test::Fail;
use std::thread::Threads;
use tool_scarce::{Hoard, Purse};

/// More than a thread takes for its stack, which has eight megabytes unless a limit says otherwise, and less than two take.
const PLACE: usize = 12 << 20;

/// What no gap takes that large pieces leave between them.
const WALL: usize = 4 << 20;

/// Places for the stacks of threads, with walls between them, so that two that are given back aren't one.
#[derive(Drop)]
pub struct Stacks {
    places: Vec<Vec<u8>>,
    walls: Vec<Vec<u8>>,
}

impl Stacks {
    pub fn new(alloc: Global, count: usize) -> Result<Stacks, Fault> {
        let mut stacks = Stacks {
            places: Vec::with_capacity(alloc, count)?,
            walls: Vec::with_capacity(alloc, count)?,
        };
        for _ in 0..count {
            stacks.places.push(Vec::with_capacity(alloc, PLACE)?)?;
            stacks.walls.push(Vec::with_capacity(alloc, WALL)?)?;
        }
        Ok(stacks)
    }

    // Gives a place back, if there is one.
    fn give(&mut self) -> bool {
        self.places.pop().is_some()
    }

    /// Gives all places back, and keeps the walls.
    pub fn give_all(&mut self) {
        self.places.clear();
    }
}

/// The workers of a run.
pub const WORKERS: usize = QUEUES as usize;

/// What a run of two hosts answers: where it isn't called off, how many hosts could have no thread.
#[derive(Clone, Copy, Debug, PartialEq, Eq)]
enum Answer {
    CalledOff,
    BothRefused,
    OneRefused,
    Finished,
}

// What a run answers with places for so many threads: each worker has one, and then each host.
fn wanted(places: usize) -> Answer {
    match places.checked_sub(WORKERS) {
        None => Answer::CalledOff,
        Some(0) => Answer::BothRefused,
        Some(1) => Answer::OneRefused,
        Some(_) => Answer::Finished,
    }
}

// What a run answers whose hosts stand so.
fn answer_of(hosts: &[Host]) -> Result<Answer, Fault> {
    let refused = HostState::Refused {
        ended: 0,
        line: 0,
        fault: Fault::Memory,
    };
    match hosts {
        [first, second] => match (first.state(), second.state()) {
            (HostState::Finished, HostState::Finished) => Ok(Answer::Finished),
            (one, HostState::Finished) | (HostState::Finished, one) if one == refused => Ok(
                Answer::OneRefused,
            ),
            (one, other) if one == refused && other == refused => Ok(Answer::BothRefused),
            _ => Err(Fault::Unfinished),
        },
        _ => Err(Fault::HostsDiffer),
    }
}

// What a run answers of two hosts, each of which enters an array. One that has a thread stays until the other has one, or many turns.
fn answered<R: Threads + Wait + Sync>(rt: &R, alloc: Global) -> Result<Answer, Fault> {
    let config = config_of(alloc, 1, 2, 8)?;
    let (runtime, hosts, tokens) = opened(alloc, &config, both_programs(alloc)?)?;
    match runtime.run(rt, alloc, &Start::new(2, 100_000), hosts, tokens) {
        Ok((hosts, tokens)) => match finish_later(rt, runtime, tokens)? {
            (true, _) => answer_of(hosts.as_slice()),
            (false, _) => Err(Fault::Unfinished),
        },
        Err((fault, hosts, tokens)) => {
            if has_done_nothing(rt, runtime, hosts.as_slice(), tokens)? && fault == Fault::Memory {
                Ok(Answer::CalledOff)
            } else {
                Err(fault)
            }
        }
    }
}

// Runs until the answer is the one that is wanted: a thread that has ended may keep its place a little longer, or leave it early.
fn last_answer<R: Threads + Wait + Sync>(
    rt: &R,
    alloc: Global,
    wanted: Answer,
) -> Result<Answer, Fault> {
    let mut last = answered(rt, alloc)?;
    for _ in 0..1_000u32 {
        if last == wanted {
            break;
        }
        last = answered(rt, alloc)?;
    }
    Ok(last)
}

// What runs answer with places for no thread, for one, and so on.
fn answers<R: Threads + Wait + Sync>(rt: &R, alloc: Global) -> Result<Vec<Answer>, Fault> {
    let mut answers = Vec::with_capacity(alloc, WORKERS + 3)?;
    let mut stacks = Stacks::new(alloc, WORKERS + 2)?;
    let purse = Purse::new(alloc)?;
    let mut hoard = Hoard::new(alloc)?;
    hoard.fill(alloc);
    drop(purse);
    for places in 0..WORKERS + 3 {
        answers.push(last_answer(rt, alloc, wanted(places))?)?;
        let _ = stacks.give();
    }
    hoard.free();
    Ok(answers)
}

/// There are so many places for stacks, from none on, until each has its thread.
#[test]
fn threads_are_refused_until_there_is_memory(rt: HostRuntime) -> Result<(), Fail> {
    let answers = answers(&rt, rt.alloc())?;
    for (places, answer) in answers.iter().enumerate() {
        assert!(rt; *answer == wanted(places), "{places}: {answer:?}");
    }
    Ok(())
}
