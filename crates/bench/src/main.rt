//! `bench loop NAME TIMES CELLS` computes a loop so many times over so many cells: `bench/kernel` times it.
//! `bench queue ROOM TIMES` sends batches to another thread and back, so many times: `bench/queue` times it.
//! `bench read FILE TIMES DEVICES` runs the script of a file with threads, while another reads so many times, and again each tenth of a
//! second, how many batches a queue has performed: `bench/threads` times it.
//! `bench world NAME TURNS TIMES` runs a world so many times, and with one more word its opening alone: `bench/world` times it.
//! Without words each loop and each world is run once, and batches go round.
#![tactic(auto)]

mod loops;
mod queue;
mod reads;
mod script;
mod tally;
mod workloads;

use acc_base::Fault;
use acc_kernel::Job;
use loops::{CELLS, job_for, parts_of};
use queue::{Crossings, ROOM, crossings_of};
use reads::reads_of;
use std::alloc::Global;
use std::env::{self, Args};
use std::sync::Wait;
use std::thread::Threads;
use std::{fs, io};
use tally::{Tally, tally_of};
use workloads::{Failure, workload_of};

// What the job has for the array that it assigns, as one number.
fn sum_of(job: &Job) -> i64 {
    let mut sum = 0i64;
    if !job.written_uses().is_empty() {
        for value in job.output(0) {
            sum = sum.wrapping_mul(31).wrapping_add(*value);
        }
    }
    sum
}

// What the loop of that name gives over so many cells, after so many times.
fn loop_sum(alloc: Global, name: &str, times: u32, cells: u32) -> Result<i64, Fault> {
    match job_for(alloc, parts_of(name), cells)? {
        Some(mut job) => {
            for _ in 0..times {
                job.compute();
            }
            Ok(sum_of(&job))
        }
        None => Ok(0),
    }
}

// What comes of the last of so many equal runs of a workload.
fn world_tally(
    alloc: Global,
    name: &str,
    turns: u32,
    times: u32,
    is_whole: bool,
) -> Result<Tally, Failure> {
    let mut last = Tally::default();
    if let Some(workload) = workload_of(name) {
        for _ in 0..times {
            last = tally_of(alloc, &workload, turns, is_whole)?;
        }
    }
    Ok(last)
}

// The number that a word gives, or another one.
fn number_of(word: Option<String>, otherwise: u32) -> u32 {
    match word {
        Some(word) => word.parse::<u32>().unwrap_or(otherwise),
        None => otherwise,
    }
}

fn print_loop(rt: &HostRuntime, name: &str, times: u32, cells: u32) -> io::Result<()> {
    match loop_sum(rt.alloc(), name, times, cells) {
        Ok(sum) => println!(rt; "{sum}"),
        Err(fault) => println!(rt; "{fault}"),
    }
}

fn print_crossings(rt: &HostRuntime, told: Result<Crossings, Fault>) -> io::Result<()> {
    match told {
        Ok(crossings) => println!(rt; "{crossings}"),
        Err(fault) => println!(rt; "{fault}"),
    }
}

fn print_world(
    rt: &HostRuntime,
    name: &str,
    turns: u32,
    times: u32,
    is_whole: bool,
) -> io::Result<()> {
    match world_tally(rt.alloc(), name, turns, times, is_whole) {
        Ok(tally) => println!(rt; "{tally}"),
        Err(failure) => println!(rt; "{failure}"),
    }
}

// How many reads there were while the script of a file ran.
fn print_reads<R: Threads + Wait + Sync>(
    rt: &HostRuntime,
    threads: &R,
    name: &str,
    times: u32,
    devices: u32,
) -> io::Result<()> {
    let script = fs::read(rt, name)?;
    let devices = u8::try_from(devices).unwrap_or(1);
    match reads_of(threads, rt.alloc(), script.as_slice(), devices, times) {
        Ok(reads) => println!(rt; "reads {reads}"),
        Err(fault) => println!(rt; "{fault}"),
    }
}

// A line for each loop and for each world, and one for a queue.
fn print_all<R: Threads + Wait + Sync>(rt: &HostRuntime, threads: &R) -> io::Result<()> {
    for name in &loops::NAMES {
        print!(rt; "{name} ")?;
        print_loop(rt, name, 1, CELLS)?;
    }
    for name in &workloads::NAMES {
        print!(rt; "{name} ")?;
        print_world(rt, name, 10, 1, true)?;
    }
    print!(rt; "queue ")?;
    print_crossings(rt, crossings_of(threads, rt.alloc(), ROOM, 1_000))
}

// What the words behind the kind and the name ask for.
fn print_asked<R: Threads + Wait + Sync>(
    rt: &HostRuntime,
    threads: &R,
    kind: &str,
    name: &str,
    words: &mut Args,
) -> io::Result<()> {
    let first = number_of(words.next(), 1);
    if kind == "queue" {
        let room = name.parse::<u32>().unwrap_or(ROOM);
        print_crossings(rt, crossings_of(threads, rt.alloc(), room, first))
    } else if kind == "read" {
        print_reads(rt, threads, name, first, number_of(words.next(), 1))
    } else if kind == "loop" {
        print_loop(rt, name, first, number_of(words.next(), CELLS))
    } else {
        let times = number_of(words.next(), 1);
        print_world(rt, name, first, times, words.next().is_none())
    }
}

fn main(rt: HostRuntime) -> io::Result<()> {
    let mut words = env::args(&rt)?;
    words.next();
    match (words.next(), words.next()) {
        (Some(kind), Some(name)) => {
            print_asked(&rt, &rt, kind.as_str(), name.as_str(), &mut words)
        }
        _ => print_all(&rt, &rt),
    }
}
