//! A host that is refused memory stops, what it placed is performed all the same, and another host goes on to its end.

use crate::checks::{FINISHED, check_last_print, check_present, check_states, refused};
use crate::memory::{Tried, check_outcome, check_replies};
use crate::worlds::{ROOM, host, turns, world_of};
use acc_base::{Fault, Range};
use acc_core::Reply;
use std::alloc::{AllocError, Global};
use std::process::Abort;
use std::test::Fail;

/// The arrays of both hosts.
const ARRAYS: &[u8] = b"long a[2] = {1,2};\nlong b[2] = {3,4};\n";

/// The cells of b are doubled on the device, and printed.
const DOUBLES: &[u8] =
    b"host {\n#pragma acc enter data copyin(b)\n#pragma acc parallel loop present(b)\nfor (i = 0; i < 2; i++) b[i] = b[i] * 2;\n#pragma acc exit data copyout(b)\nprint(b);\n}\n";

/// Of the other host, what stands before its statement that is refused, and behind it.
const HEAD: &[u8] = b"host {\n#pragma acc enter data create(a) async(1)\n";

const TAIL: &[u8] = b"\nprint(a);\n}\n";

/// Statements that take memory, and whether the host that has it comes first.
const STATEMENTS: &[(&[u8], bool)] = &[
    (b"#pragma acc exit data copyout(a) async(1)", true),
    (b"#pragma acc update self(a)", false),
    (
        b"#pragma acc parallel loop\nfor (i = 0; i < 2; i++) a[i] = i;",
        true,
    ),
    (b"#pragma acc wait", false),
    (b"a[0] = 9;", true),
    (b"print(a);", false),
];

// The array of the host that is refused.
const ALL: Range = Range {
    array: 0,
    lo: 0,
    len: 2,
};

// A script of both hosts, with the one that is refused at this statement first or last.
fn text_of(alloc: Global, statement: &[u8], is_first: bool) -> Result<Vec<u8>, AllocError> {
    let mut text = Vec::from_slice(alloc, ARRAYS)?;
    if !is_first {
        text.extend_from_slice(DOUBLES)?;
    }
    text.extend_from_slice(HEAD)?;
    text.extend_from_slice(statement)?;
    text.extend_from_slice(TAIL)?;
    if is_first {
        text.extend_from_slice(DOUBLES)?;
    }
    Ok(text)
}

// The host with this number is refused its second statement, and not again, behind a step of the other one.
fn steps_of(stopped: u8, other: u8) -> [Tried; 4] {
    [
        (true, host(stopped), Reply::Did),
        (true, host(other), Reply::Did),
        (false, host(stopped), Reply::Refused(Fault::Memory)),
        (true, host(stopped), Reply::Idle),
    ]
}

fn check_others(
    rt: &impl Abort,
    alloc: Global,
    statement: &[u8],
    is_first: bool,
) -> Result<(), Fault> {
    let text = text_of(alloc, statement, is_first)?;
    let mut world = world_of(alloc, text.as_slice(), ROOM)?;
    let (steps, states) = if is_first {
        (steps_of(0, 1), [refused(1, 5, Fault::Memory), FINISHED])
    } else {
        (steps_of(1, 0), [FINISHED, refused(1, 12, Fault::Memory)])
    };
    check_replies(rt, alloc, &mut world, &steps)?;
    turns(&mut world, 20);
    check_states(rt, &world, &states);
    check_present(rt, &world, Some((ALL, 0, 1)));
    check_last_print(rt, world.log(), &[6, 8]);
    check_outcome(rt, alloc, world, 4, &states)?;
    Ok(())
}

/// Whatever its statement is.
#[test]
fn another_host_goes_on_where_one_is_refused_memory(rt: HostRuntime) -> Result<(), Fail> {
    for (statement, is_first) in STATEMENTS {
        check_others(&rt, rt.alloc(), statement, *is_first)?;
    }
    Ok(())
}
