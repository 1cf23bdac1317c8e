//! Tests the examples and the cases of the language, as `accq test` does; then runs with threads each example whose report no
//! schedule changes.
#![tactic(auto)]

use acc_base::QueueAt;
use acc_cases::{DiskFolder, Folder, OptionsFault, options_of, test_all};
use acc_driver::{
    DriverFault, Ended, Gate, NoMonitor, OpenGate, Options, Remains, run_script, split,
};
use std::alloc::Global;
use std::io::{ErrorKind, Write};
use std::sync::Wait;
use std::thread::Threads;
use std::{fs, io};

/// The folders of cases: the examples, and short texts of what the language says.
const FOLDERS: [&str; 2] = [".", "language"];

/// The examples whose report depends on their schedule. Threads give that of each other one, too.
const SCHEDULED: [&str; 9] = [
    "close",
    "counters",
    "maker",
    "queue-full",
    "questions",
    "race",
    "sharing",
    "unfinished",
    "waits",
];

/// No monitor.
const NOBODY: Option<&NoMonitor> = None;

// Keeps queue `2` from its batches.
#[derive(Drop)]
struct SecondShut;

impl Gate for SecondShut {
    fn pass(&self, at: QueueAt, _number: u64) -> bool {
        // `2` has number 4
        at.queue.number() != 4
    }
}

// Tests all cases of a folder, and says whether there are some, and all pass; or else what is told of them.
fn test_folder(rt: &HostRuntime, path: &str) -> io::Result<()> {
    let alloc = rt.alloc();
    let mut folder = DiskFolder::new(rt, path)?;
    let mut told = Vec::new(alloc);
    match test_all(alloc, &mut folder, Options::DEFAULT, false, &mut told) {
        Ok(tally) if tally.failed == 0 && tally.passed > 0 => println!(rt; "{path}: all pass"),
        Ok(_) => {
            io::writer(rt).write_all(told.as_slice())?;
            println!(rt; "{path}: NOT all pass")
        }
        Err(fault) => println!(rt; "{path}: {fault}"),
    }
}

// The bytes of a file.
fn read(rt: &HostRuntime, name: &str, kind: &str) -> io::Result<Vec<u8>> {
    fs::read(rt, format!(in rt.alloc(); "{name}.{kind}")?)
}

// The options of an example, or the default ones where it says none.
fn options_by(rt: &HostRuntime, name: &str) -> io::Result<Options> {
    let line = match read(rt, name, "options") {
        Ok(line) => line,
        Err(error) if error.kind() == ErrorKind::NotFound => return Ok(Options::DEFAULT),
        Err(error) => return Err(error),
    };
    match options_of(rt.alloc(), line.as_slice(), Options::DEFAULT) {
        Ok(options) => Ok(options),
        Err(OptionsFault::Memory) => Err(io::Error::from(ErrorKind::OutOfMemory)),
        Err(OptionsFault::Word(_)) => Err(io::Error::from(ErrorKind::InvalidData)),
    }
}

// What the program answers to an example's script alone, which it runs with threads, whose batches pass this gate.
fn run_answer<R: Threads + Wait + Sync, G: Gate + Sync>(
    rt: &HostRuntime,
    threads: &R,
    name: &str,
    gate: &G,
) -> io::Result<Vec<u8>> {
    let alloc = rt.alloc();
    let options = options_by(rt, name)?;
    let text = read(rt, name, "acc")?;
    let (mut script, _) = split(text.as_slice());
    let mut written = Vec::new(alloc);
    let answered = run_script(
        threads,
        alloc,
        &mut script,
        options,
        gate,
        NOBODY,
        &mut written,
        &mut Remains::nothing(),
    );
    told(alloc, answered, written)
}

// The report that was written, or the line of the fault.
fn told(
    alloc: Global,
    answered: Result<Ended, DriverFault>,
    written: Vec<u8>,
) -> io::Result<Vec<u8>> {
    match answered {
        Ok(_) => Ok(written),
        Err(fault) => Ok(format!(in alloc; "accq: {fault}\n")?.into_bytes()),
    }
}

// Whether a run of an example, whose batches pass this gate, has its report; it is told where it hasn't.
fn run_example<R: Threads + Wait + Sync, G: Gate + Sync>(
    rt: &HostRuntime,
    threads: &R,
    name: &str,
    gate: &G,
) -> io::Result<bool> {
    let answered = run_answer(rt, threads, name, gate)?;
    let report = read(rt, name, "report")?;
    let is_same = answered.as_slice() == report.as_slice();
    if !is_same {
        println!(rt; "{name}, run: NOT as its report says")?;
    }
    Ok(is_same)
}

// The names of the examples.
fn names_of(rt: &HostRuntime) -> io::Result<Vec<String>> {
    let alloc = rt.alloc();
    let Ok(files) = DiskFolder::new(rt, ".")?.names(alloc) else {
        return Err(io::Error::from(ErrorKind::Other));
    };
    let mut names = Vec::new(alloc);
    for file in &files {
        if let Some(name) = file.as_str().strip_suffix(".acc") {
            names.push(String::from_str(alloc, name)?)?;
        }
    }
    Ok(names)
}

// Whether this is the name of an example whose report depends on its schedule.
fn is_scheduled(name: &str) -> bool {
    SCHEDULED.contains(&name)
}

// Runs each example whose report no schedule changes, and says whether all have theirs.
fn run_examples<R: Threads + Wait + Sync>(rt: &HostRuntime, threads: &R) -> io::Result<()> {
    let names = names_of(rt)?;
    let mut scheduled = 0usize;
    let mut all = true;
    for name in &names {
        if is_scheduled(name.as_str()) {
            scheduled = scheduled.wrapping_add(1);
        } else {
            all = run_example(rt, threads, name.as_str(), &OpenGate)? && all;
        }
    }
    if all && scheduled == SCHEDULED.len() {
        println!(rt; "run: all as their reports say")
    } else {
        println!(rt; "run: NOT all as their reports say, or not all of SCHEDULED are there")
    }
}

fn main(rt: HostRuntime) -> io::Result<()> {
    for path in FOLDERS {
        test_folder(&rt, path)?;
    }
    run_examples(&rt, &rt)?;
    if run_example(&rt, &rt, "abandoned/discarded", &SecondShut)? {
        println!(&rt; "discarded, run: as its report says")?;
    }
    Ok(())
}
