//! Inputs of hundreds of directives, which a loop builds: queues that are full, and long runs.

use crate::answers::{Answer, ENDED, REFUSED, check_input};
use acc_driver::Options;
use std::alloc::{AllocError, Global};
use std::process::Abort;
use std::test::Fail;

// A text, another one so often, and a last one.
fn text_of(
    alloc: Global,
    first: &[u8],
    repeated: &[u8],
    count: u32,
    last: &[u8],
) -> Result<Vec<u8>, AllocError> {
    let mut text = Vec::from_slice(alloc, first)?;
    for _ in 0..count {
        text.extend_from_slice(repeated)?;
    }
    text.extend_from_slice(last)?;
    Ok(text)
}

const ENTER: &[u8] = b"long a[2];\nhost {\n#pragma acc enter data create(a) async(1)\n";

const UPDATE: &[u8] = b"#pragma acc update self(a) async(1)\n";

// An entry and so many updates on one queue, and a schedule.
fn updates(alloc: Global, count: u32, schedule: &str) -> Result<Vec<u8>, AllocError> {
    let last = format!(in alloc; "}}\n%%\n{schedule}")?;
    text_of(alloc, ENTER, UPDATE, count, last.as_bytes())
}

// An entry and so many updates, under a schedule and with queues of this room, are answered so.
fn check_updates(
    rt: &impl Abort,
    alloc: Global,
    room: u32,
    schedule: &str,
    wanted: Answer,
    report: &str,
) -> Result<(), AllocError> {
    let options = Options {
        room,
        ..Options::DEFAULT
    };
    let input = updates(alloc, room, schedule)?;
    check_input(
        rt,
        alloc,
        input.as_slice(),
        options,
        wanted,
        report.as_bytes(),
    );
    Ok(())
}

// A queue of this room is full, and has no place for one more batch, whose directive has this line.
fn check_full(rt: &impl Abort, alloc: Global, room: u32, line: u32) -> Result<(), AllocError> {
    let schedule = format!(in alloc; "host 0 {}\n", room.wrapping_add(1))?;
    let report = format!(in alloc;
        "host 0\nrefused {line} F12 QueueFull\npresent 0 a[0:2] s 0 d 1\nqueue 0 1 batches {room} operations 0 of {room}\nend\n"
    )?;
    check_updates(rt, alloc, room, schedule.as_str(), REFUSED, report.as_str())
}

// It has a place for one more once one was taken.
fn check_taken(rt: &impl Abort, alloc: Global, room: u32) -> Result<(), AllocError> {
    let more = room.wrapping_add(1);
    let schedule = format!(in alloc; "host 0 {room}\ntake 0 1\nhost 0\n")?;
    let report = format!(in alloc;
        "host 0\ndone\npresent 0 a[0:2] s 0 d 1\nqueue 0 1 batches {more} operations 0 of {more}\nend\n"
    )?;
    check_updates(rt, alloc, room, schedule.as_str(), ENDED, report.as_str())
}

/// A queue holds its room of batches: one more is refused and changes nothing, and is accepted once one was taken. For
/// each room, the line of the last.
#[test]
fn a_full_queue_refuses_a_batch(rt: HostRuntime) -> Result<(), Fail> {
    for (room, line) in [(1u32, 4u32), (2, 5), (64, 67), (1_024, 1_027)] {
        check_full(&rt, rt.alloc(), room, line)?;
        check_taken(&rt, rt.alloc(), room)?;
    }
    Ok(())
}

// Sixteen ranges of a thousand cells each enter and leave.
const ROUND: &[u8] =
    b"#pragma acc enter data copyin(a[:1000],a[1000:1000],a[2000:1000],a[3000:1000],a[4000:1000],a[5000:1000],a[6000:1000],a[7000:1000],a[8000:1000],a[9000:1000],a[10000:1000],a[11000:1000],a[12000:1000],a[13000:1000],a[14000:1000],a[15000:1000])\n#pragma acc exit data copyout(a[:1000],a[1000:1000],a[2000:1000],a[3000:1000],a[4000:1000],a[5000:1000],a[6000:1000],a[7000:1000],a[8000:1000],a[9000:1000],a[10000:1000],a[11000:1000],a[12000:1000],a[13000:1000],a[14000:1000],a[15000:1000])\n";

/// Each of their 600 directives has 32 operations, and takes a round for each and one more.
#[test]
fn three_hundred_rounds_of_sixteen_ranges(rt: HostRuntime) -> Result<(), Fail> {
    let first = b"long a[16000] = {5};\nhost {\n";
    let last = b"}\n%%\nround 10000\nround 9800\n";
    let input = text_of(rt.alloc(), first, ROUND, 300, last)?;
    let report = b"host 0\ndone\nqueue 0 sync batches 600 operations 19200 of 19200\nend\n";
    check_input(
        &rt,
        rt.alloc(),
        input.as_slice(),
        Options::DEFAULT,
        ENDED,
        report,
    );
    Ok(())
}

/// The first copies the range in, and each other one is only counted.
#[test]
fn eleven_hundred_entries_of_one_range(rt: HostRuntime) -> Result<(), Fail> {
    let enter = b"#pragma acc enter data copyin(a)\n";
    let last = b"}\n%%\nround 1102\n";
    let input = text_of(rt.alloc(), b"long a[4];\nhost {\n", enter, 1_100, last)?;
    let report =
        b"host 0\ndone\npresent 0 a[0:4] s 0 d 1100\nqueue 0 sync batches 1 operations 2 of 2\nend\n";
    check_input(
        &rt,
        rt.alloc(),
        input.as_slice(),
        Options::DEFAULT,
        ENDED,
        report,
    );
    Ok(())
}
