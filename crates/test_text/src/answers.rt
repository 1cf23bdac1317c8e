//! What is answered to an input, and what is written, beside what was wanted.

use acc_driver::{DriverFault, Ended, Options, ReadFault, ReadKind, Remains, replay, replay_one};
use std::alloc::Global;
use std::io::Read;
use std::process::Abort;

/// What is answered to an input.
pub type Answer = Result<Ended, DriverFault>;

pub const ENDED: Answer = Ok(Ended { refused: false });

pub const REFUSED: Answer = Ok(Ended { refused: true });

// A script's fault.
pub fn script_fault(line: u32, kind: ReadKind) -> Answer {
    Err(DriverFault::Script(ReadFault { line, kind }))
}

// A schedule's fault.
pub fn schedule_fault(line: u32, kind: ReadKind) -> Answer {
    Err(DriverFault::Schedule(ReadFault { line, kind }))
}

pub fn check_answer(rt: &impl Abort, answer: Answer, wanted: Answer) {
    assert_eq!(rt; answer, wanted);
}

pub fn check_bytes(rt: &impl Abort, written: &[u8], wanted: &[u8]) {
    assert_eq!(rt; written, wanted);
}

// What a reader gives is answered so, and this is written.
pub fn check_read<R: Read>(
    rt: &impl Abort,
    alloc: Global,
    reader: &mut R,
    options: Options,
    wanted: Answer,
    report: &[u8],
) {
    let mut written = Vec::new(alloc);
    let answer = replay_one(
        alloc,
        reader,
        options,
        &mut written,
        &mut Remains::nothing(),
    );
    check_bytes(rt, written.as_slice(), report);
    check_answer(rt, answer, wanted);
}

// What is answered to two readers, a script and a schedule, and what is written.
pub fn replayed<R: Read, S: Read>(
    alloc: Global,
    script: &mut R,
    schedule: &mut S,
) -> (Answer, Vec<u8>) {
    let mut written = Vec::new(alloc);
    let answer = replay(
        alloc,
        script,
        schedule,
        Options::DEFAULT,
        &mut written,
        &mut Remains::nothing(),
    );
    (answer, written)
}

// Two readers are answered so, and this is written.
pub fn check_readers<R: Read, S: Read>(
    rt: &impl Abort,
    alloc: Global,
    script: &mut R,
    schedule: &mut S,
    wanted: Answer,
    report: &[u8],
) {
    let (answer, written) = replayed(alloc, script, schedule);
    check_bytes(rt, written.as_slice(), report);
    check_answer(rt, answer, wanted);
}

// An input is answered so, and this is written.
pub fn check_input(
    rt: &impl Abort,
    alloc: Global,
    input: &[u8],
    options: Options,
    wanted: Answer,
    report: &[u8],
) {
    let mut input = input;
    check_read(rt, alloc, &mut input, options, wanted, report);
}
