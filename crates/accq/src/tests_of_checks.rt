//! Tests of files that are checked.

use crate::tests::{Told, answered, check_begin, check_told};
use crate::tests_of_streams::check_writers;
use std::alloc::Global;
use std::process::Abort;
use std::sync::Wait;
use std::test::Fail;
use std::thread::Threads;

/// Words with which nothing is written, the status, and what is told to the errors: files with nothing wrong in them, and files that
/// aren't read. Both are opened before one is read.
const QUIET: &[(&[&str], u8, &[u8])] = &[
    (&["accq", "check", "script", "schedule"], 0, b""),
    (&["accq", "check", "script"], 0, b""),
    (&["accq", "check", "empty", "empty"], 0, b""),
    (&["accq", "check", "both"], 0, b""),
    (
        &["accq", "check", "--devices=2", "script", "second_device"],
        0,
        b"",
    ),
    (
        &["accq", "check", "missing"],
        3,
        b"accq: cannot read missing\n",
    ),
    (
        &["accq", "check", "faulty", "missing"],
        3,
        b"accq: cannot read missing\n",
    ),
    (
        &["accq", "check", "folder"],
        3,
        b"accq: cannot read folder\n",
    ),
    (
        &["accq", "check", "script", "folder"],
        3,
        b"accq: cannot read folder\n",
    ),
];

/// Words with which the status is 2, and how that begins which is then told to the output. The schedule is read once the script
/// is one; the lines of a schedule behind `%%` are those of the whole file.
const FINDINGS: &[(&[&str], &[u8])] = &[
    (&["accq", "check", "faulty"], b"faulty:1:8: Form: "),
    (
        &["accq", "check", "faulty", "folder"],
        b"faulty:1:8: Form: ",
    ),
    (
        &["accq", "check", "script", "second_host"],
        b"second_host:2:6: Name: ",
    ),
    (
        &["accq", "check", "script", "second_device"],
        b"second_device:1:6: Name: ",
    ),
    (&["accq", "check", "schedule"], b"schedule:1:6: "),
    (
        &["accq", "check", "wrong_below"],
        b"wrong_below:6:1: Form: ",
    ),
];

// What the program answers to words, with no input.
fn answered_to<T: Threads + Wait + Sync>(
    rt: &T,
    alloc: Global,
    words: &'static [&'static str],
) -> (u8, Vec<u8>, Vec<u8>) {
    let case = Told {
        words,
        input: b"",
        status: 0,
        output: b"",
        errors: b"",
    };
    answered(rt, alloc, &case)
}

fn check_quiet<T: Abort + Threads + Wait + Sync>(
    rt: &T,
    alloc: Global,
    case: &(&'static [&'static str], u8, &'static [u8]),
) {
    let (status, output, errors) = answered_to(rt, alloc, case.0);
    check_told(rt, status, output.as_slice(), case.1, b"");
    check_told(rt, status, errors.as_slice(), case.1, case.2);
}

#[test]
fn files_with_nothing_to_tell_are_quiet(rt: HostRuntime) -> Result<(), Fail> {
    for case in QUIET {
        check_quiet(&rt, rt.alloc(), case);
    }
    Ok(())
}

fn check_finding<T: Abort + Threads + Wait + Sync>(
    rt: &T,
    alloc: Global,
    words: &'static [&'static str],
    begin: &[u8],
) {
    let (status, output, errors) = answered_to(rt, alloc, words);
    check_told(rt, status, errors.as_slice(), 2, b"");
    check_begin(rt, output.as_slice(), begin);
}

#[test]
fn what_is_wrong_is_told_to_the_output(rt: HostRuntime) -> Result<(), Fail> {
    for (words, begin) in FINDINGS {
        check_finding(&rt, rt.alloc(), words, begin);
    }
    Ok(())
}

/// An output that takes nothing, one that ends within a line, and one that can't send on.
#[test]
fn findings_that_do_not_go_out_have_status_three(rt: HostRuntime) -> Result<(), Fail> {
    let words: &[&str] = &["accq", "check", "faulty"];
    check_writers(&rt, rt.alloc(), words, 9);
    Ok(())
}
