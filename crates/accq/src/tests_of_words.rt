//! The parser tells faulty words.

use crate::tests::{SCHEDULE, SCRIPT, Told, answered, check_begin, check_told};
use std::alloc::Global;
use std::io::Result;
use std::process::Abort;
use std::sync::Wait;
use std::test::Fail;
use std::thread::Threads;

/// Words that are refused with the parser's text, which begins so.
const FAULTY_WORDS: &[(&[&str], &[u8])] = &[
    (
        &["accq", "replay", "script", "schedule", "--room", "0"],
        b"error: invalid value '0' for '--room <N>'",
    ),
    (
        &["accq", "replay", "script", "schedule", "--room=1025"],
        b"error: invalid value '1025' for '--room <N>'",
    ),
    (
        &["accq", "replay", "script", "schedule", "--devices", "5"],
        b"error: invalid value '5' for '--devices <N>'",
    ),
    (
        &["accq", "replay", "script", "schedule", "--cells=4294967297"],
        b"error: invalid value '4294967297' for '--cells <N>'",
    ),
    (
        &["accq", "replay", "script", "schedule", "--cells", "x"],
        b"error: invalid value 'x' for '--cells <N>'",
    ),
    (
        &["accq", "replay", "script", "schedule", "--cells", "+3"],
        b"error: a number is written in digits alone",
    ),
    (
        &[
            "accq", "replay", "script", "schedule", "--room", "1", "--room", "1",
        ],
        b"error: the argument '--room <N>' cannot be used multiple times",
    ),
    (
        &["accq", "replay", "script", "schedule", "--room"],
        b"error: a value is required for '--room <N>'",
    ),
    (
        &["accq", "replay", "script", "schedule", "--rooms", "3"],
        b"error: unexpected argument '--rooms' found",
    ),
    (
        &["accq", "replay", "script", "schedule", "more"],
        b"error: unexpected argument 'more' found",
    ),
    (
        &["accq", "replay", "script"],
        b"error: the following required arguments were not provided:\n  <SCHEDULE>",
    ),
    (
        &["accq", "replay"],
        b"error: the following required arguments were not provided:\n  <SCRIPT>\n  <SCHEDULE>",
    ),
    (
        &["accq", "--room", "3", "replay", "script", "schedule"],
        b"error: unexpected argument '--room' found",
    ),
    (
        &["accq", "script", "schedule"],
        b"error: unrecognized subcommand 'script'",
    ),
    (
        &["accq", "question.acc"],
        b"error: unrecognized subcommand 'question.acc'\n\nUsage: accq replay [OPTIONS] <SCRIPT> <SCHEDULE>\n       accq run [OPTIONS] <SCRIPT>\n       accq steps [OPTIONS] <SCRIPT> [SCHEDULE]\n       accq explore [OPTIONS] <SCRIPT> [SCHEDULE]\n       accq check [OPTIONS] <SCRIPT> [SCHEDULE]\n       accq explain <WORD>\n       accq test [OPTIONS] <FOLDER>\n       accq < INPUT\n       accq --help\n",
    ),
    (&["accq", ""], b"error: unrecognized subcommand ''"),
    (
        &["accq", "--help"],
        b"accq replays a script of hosts and OpenACC directives",
    ),
    (
        &["accq", "replay", "-h"],
        b"Replays a script under a schedule",
    ),
    (&["accq", "run", "-h"], b"Runs a script by threads"),
    (
        &["accq", "steps", "-h"],
        b"Replays a script under a schedule, and tells what each event did",
    ),
    (
        &["accq", "steps", "--idle"],
        b"error: the following required arguments were not provided:\n  <SCRIPT>",
    ),
    (
        &["accq", "check", "-h"],
        b"Tells what is wrong with a script or a schedule",
    ),
    (
        &["accq", "explain", "-h"],
        b"Tells what a fault is, and what to do about it",
    ),
    (
        &["accq", "explain", "f15"],
        b"accq: `f15` is no fault; the words are:\nF1 Closed, F2 BadDevice, ",
    ),
    (
        &["accq", "explain"],
        b"error: the following required arguments were not provided:\n  <WORD>",
    ),
    (
        &["accq", "test", "-h"],
        b"Replays all cases of a folder, and compares what comes with their reports",
    ),
    (
        &["accq", "test", "--bless"],
        b"error: the following required arguments were not provided:\n  <FOLDER>",
    ),
    (
        &["accq", "check"],
        b"error: the following required arguments were not provided:\n  <SCRIPT>",
    ),
    (
        &["accq", "check", "script", "schedule", "--room", "3"],
        b"error: unexpected argument '--room' found",
    ),
    (
        &["accq", "run"],
        b"error: the following required arguments were not provided:\n  <SCRIPT>",
    ),
    (
        &["accq", "run", "script", "schedule"],
        b"error: unexpected argument 'schedule' found",
    ),
    (
        &["accq", "run", "script", "--room", "0"],
        b"error: invalid value '0' for '--room <N>'",
    ),
    (
        &["accq", "run", "script", "--devices", "+1"],
        b"error: a number is written in digits alone",
    ),
    (
        &["accq", "explore", "script", "--depth", "0"],
        b"error: invalid value '0' for '--depth <N>'",
    ),
    (
        &["accq", "explore", "script", "--depth=1000001"],
        b"error: invalid value '1000001' for '--depth <N>'",
    ),
    (
        &["accq", "explore", "script", "--depth", "+1"],
        b"error: a number is written in digits alone\n",
    ),
    (
        &["accq", "explore", "script", "--short", "--depth", "1"],
        b"error: --depth stands without --short\n",
    ),
    (
        &["accq", "explore", "script", "--depth"],
        b"error: a value is required for '--depth <N>'",
    ),
    (&["accq", "--version"], b"accq 0.1.0"),
];

fn check_faulty<T: Abort + Threads + Wait + Sync>(
    rt: &T,
    alloc: Global,
    words: &'static [&'static str],
    begin: &[u8],
) {
    let case = Told {
        words,
        input: b"",
        status: 2,
        output: b"",
        errors: b"",
    };
    let (status, output, errors) = answered(rt, alloc, &case);
    check_told(rt, status, output.as_slice(), 2, b"");
    check_begin(rt, errors.as_slice(), begin);
}

#[test]
fn faulty_words_are_told_by_the_parser(rt: HostRuntime) -> std::result::Result<(), Fail> {
    for (words, begin) in FAULTY_WORDS {
        check_faulty(&rt, rt.alloc(), words, begin);
    }
    Ok(())
}
