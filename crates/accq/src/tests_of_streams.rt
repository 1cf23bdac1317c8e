//! Streams that fail.

use crate::status::status_of;
use crate::tests::{Broken, NOBODY, Narrow, ON_ONE, Shelf, Stuck, check_told};
use acc_driver::Remains;
use std::alloc::Global;
use std::io::{Read, Result, Write};
use std::process::Abort;
use std::sync::Wait;
use std::test::Fail;
use std::thread::Threads;

const NAMED: &[&str] = &["accq", "replay", "script", "schedule"];

pub(crate) const RUN: &[&str] = &["accq", "run", "script"];

pub(crate) const CANNOT_WRITE: &[u8] = b"accq: cannot write\n";

// With these words and streams the status is 3, and this is told.
pub(crate) fn check_streams<T: Abort + Threads + Wait + Sync, R: Read, W: Write>(
    rt: &T,
    alloc: Global,
    words: &[&str],
    input: &mut R,
    output: &mut W,
    text: &[u8],
) {
    let mut errors = Vec::new(alloc);
    let status = status_of(
        rt,
        alloc,
        words,
        &Shelf,
        input,
        output,
        &mut errors,
        NOBODY,
        &mut Remains::nothing(),
    );
    check_told(rt, status, errors.as_slice(), 3, text);
}

// A writer that takes so many bytes of what is told has taken them.
pub(crate) fn check_narrow<T: Abort + Threads + Wait + Sync>(
    rt: &T,
    alloc: Global,
    words: &[&str],
    room: usize,
) {
    let mut input: &[u8] = b"";
    let mut output = Narrow { room, taken: 0 };
    check_streams(rt, alloc, words, &mut input, &mut output, CANNOT_WRITE);
    assert_eq!(rt; output.taken, room);
}

// A writer that takes nothing, one that takes so many bytes, fewer than what is told, and one that can't send on.
pub(crate) fn check_writers<T: Abort + Threads + Wait + Sync>(
    rt: &T,
    alloc: Global,
    words: &[&str],
    within: usize,
) {
    check_narrow(rt, alloc, words, 0);
    check_narrow(rt, alloc, words, within);
    let mut input: &[u8] = b"";
    check_streams(rt, alloc, words, &mut input, &mut Stuck, CANNOT_WRITE);
}

/// A writer that fails at the first byte of the report, in its middle and at its last byte, one that can't send on, and a
/// reader that fails.
#[test]
fn streams_that_fail_have_status_three(rt: HostRuntime) -> std::result::Result<(), Fail> {
    for room in [0, 40, ON_ONE.len().saturating_sub(1)] {
        check_narrow(&rt, rt.alloc(), NAMED, room);
        check_narrow(&rt, rt.alloc(), RUN, room);
    }
    let mut input: &[u8] = b"";
    for words in [NAMED, RUN, &[]] {
        check_streams(&rt, rt.alloc(), words, &mut input, &mut Stuck, CANNOT_WRITE);
    }
    let mut output = Narrow { room: 0, taken: 0 };
    let text = b"accq: cannot read\n";
    check_streams(&rt, rt.alloc(), &[], &mut Broken, &mut output, text);
    Ok(())
}

/// What can't be told to the errors changes no status.
#[test]
fn errors_that_fail_change_no_status(rt: HostRuntime) -> std::result::Result<(), Fail> {
    const CASES: &[(&[&str], u8)] = &[(&[], 3), (&["accq", "more"], 2)];
    let mut output = Narrow { room: 0, taken: 0 };
    for (words, wanted) in CASES {
        let status = status_of(
            &rt,
            rt.alloc(),
            words,
            &Shelf,
            &mut Broken,
            &mut output,
            &mut Broken,
            NOBODY,
            &mut Remains::nothing(),
        );
        assert_eq!(rt; status, *wanted);
    }
    Ok(())
}
