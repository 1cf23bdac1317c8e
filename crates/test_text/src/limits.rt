//! Inputs with as many arrays, ranges, data constructs, cells, events and bytes as there may be, and with one more:
//! contracts have these numbers by name.

use crate::answers::{Answer, ENDED, REFUSED, check_input, schedule_fault, script_fault};
use acc_driver::{Options, ReadKind};
use std::alloc::{AllocError, Global};
use std::process::Abort;
use std::test::Fail;

/// An input, what is answered to it, and its report.
type Told = (Vec<u8>, Answer, &'static [u8]);

// A limit of the script is passed in this line.
fn too_long(line: u32) -> Answer {
    script_fault(line, ReadKind::Limit)
}

// So many arrays, each in a line of its own.
fn arrays(alloc: Global, count: u8) -> Result<Vec<u8>, AllocError> {
    let mut input = Vec::new(alloc);
    for number in 0..count {
        input.extend_from_slice(b"long a")?;
        input.push(b'a' + number % 8)?;
        input.push(b'a' + number / 8)?;
        input.extend_from_slice(b"[1];\n")?;
    }
    Ok(input)
}

// An entry of one range so often, and enough rounds for it.
fn ranges(alloc: Global, count: u32) -> Result<Vec<u8>, AllocError> {
    let mut input = Vec::new(alloc);
    input.extend_from_slice(b"long a[1];\nhost {\n#pragma acc enter data copyin(a")?;
    for _ in 1..count {
        input.extend_from_slice(b",a")?;
    }
    input.extend_from_slice(b")\n}\n%%\nround 20\n")?;
    Ok(input)
}

// So many data constructs inside one another, and enough rounds for 32.
fn constructs(alloc: Global, count: u32) -> Result<Vec<u8>, AllocError> {
    let mut input = Vec::new(alloc);
    input.extend_from_slice(b"long a[4] = {1,2,3,4};\nhost {\n")?;
    for _ in 0..count {
        input.extend_from_slice(b"#pragma acc data copyout(a)\n{\n")?;
    }
    for _ in 0..count {
        input.extend_from_slice(b"}\n")?;
    }
    input.extend_from_slice(b"print(a);\n}\n%%\nround 80\n")?;
    Ok(input)
}

// A script, and a schedule of so many lines of ten thousand rounds and a last line.
fn rounds(alloc: Global, script: &[u8], count: u32, last: &[u8]) -> Result<Vec<u8>, AllocError> {
    let mut input = Vec::from_slice(alloc, script)?;
    input.extend_from_slice(b"%%\n")?;
    for _ in 0..count {
        input.extend_from_slice(b"round 10000\n")?;
    }
    input.extend_from_slice(last)?;
    Ok(input)
}

fn check(rt: &impl Abort, alloc: Global, cases: &[Told]) {
    for (input, wanted, report) in cases {
        check_input(
            rt,
            alloc,
            input.as_slice(),
            Options::DEFAULT,
            *wanted,
            report,
        );
    }
}

/// As many arrays, ranges in a directive and cells as there may be, and one more.
#[test]
fn limits_of_scripts(rt: HostRuntime) -> Result<(), Fail> {
    let alloc = rt.alloc();
    let refused: &'static [u8] = b"host 0\nrefused 3 F5 TooMany\nend\n";
    let cases: [Told; 8] = [
        (arrays(alloc, 64)?, ENDED, b"end\n"),
        (arrays(alloc, 65)?, too_long(65), b""),
        (
            ranges(alloc, 16)?,
            ENDED,
            b"host 0\ndone\npresent 0 a[0:1] s 0 d 16\nqueue 0 sync batches 1 operations 2 of 2\nend\n",
        ),
        (ranges(alloc, 17)?, REFUSED, refused),
        (ranges(alloc, 64)?, REFUSED, refused),
        (ranges(alloc, 65)?, too_long(3), b""),
        (
            Vec::from_slice(
                alloc,
                b"long a[2];\nhost {\na[1] = 7;\nprint(a);\n}\n%%\nround 2\n",
            )?,
            ENDED,
            b"host 0\n0 7\ndone\nend\n",
        ),
        (
            Vec::from_slice(
                alloc,
                b"long a[2];\nhost {\na[2] = 7;\nprint(a);\n}\n%%\nround 2\n",
            )?,
            REFUSED,
            b"host 0\nrefused 3 F4 BadRange\nend\n",
        ),
    ];
    check(&rt, alloc, &cases);
    Ok(())
}

/// What stands behind sixty-four of a list's parts, in the line below, and the kind of its fault.
type Behind = (&'static [u8], ReadKind);

/// Behind queues: one more is too many only where one can begin so.
const BEHIND_QUEUES: [Behind; 7] = [
    (b"1", ReadKind::Limit),
    (b"-", ReadKind::Limit),
    (b"acc_async_sync", ReadKind::Limit),
    (b")", ReadKind::Form),
    (b"01", ReadKind::Form),
    (b"x", ReadKind::Form),
    (b"$", ReadKind::Text),
];

/// Behind ranges: one more is too many only where it names an array.
const BEHIND_RANGES: [Behind; 3] = [
    (b"a", ReadKind::Limit),
    (b"b", ReadKind::Name),
    (b"host", ReadKind::Form),
];

// A directive in the third line, with sixty-four parts, and what stands behind them.
fn crowded(
    alloc: Global,
    directive: &[u8],
    part: &[u8],
    tail: &[u8],
) -> Result<Vec<u8>, AllocError> {
    let mut input = Vec::from_slice(alloc, b"long a[1];\nhost {\n")?;
    input.extend_from_slice(directive)?;
    for _ in 0..64u32 {
        input.extend_from_slice(part)?;
    }
    input.extend_from_slice(b"/*\n*/")?;
    input.extend_from_slice(tail)?;
    Ok(input)
}

fn check_crowded(
    rt: &impl Abort,
    alloc: Global,
    directive: &[u8],
    part: &[u8],
    tails: &[Behind],
) -> Result<(), AllocError> {
    for (tail, kind) in tails {
        let input = crowded(alloc, directive, part, tail)?;
        let wanted = script_fault(4, *kind);
        check_input(rt, alloc, input.as_slice(), Options::DEFAULT, wanted, b"");
    }
    Ok(())
}

/// A queue of a list, or a range of a directive, is judged behind sixty-four at its first token.
#[test]
fn one_more_than_sixty_four(rt: HostRuntime) -> Result<(), Fail> {
    let alloc = rt.alloc();
    check_crowded(&rt, alloc, b"#pragma acc wait(", b"1,", &BEHIND_QUEUES)?;
    check_crowded(
        &rt,
        alloc,
        b"#pragma acc enter data create(",
        b"a,",
        &BEHIND_RANGES,
    )?;
    Ok(())
}

/// Data constructs inside one another: the first makes the range, and the end of the first copies it out.
#[test]
fn limits_of_constructs(rt: HostRuntime) -> Result<(), Fail> {
    let alloc = rt.alloc();
    let refused: &'static [u8] =
        b"host 0\nrefused 67 F5 TooMany\npresent 0 a[0:4] s 32 d 0\nqueue 0 sync batches 1 operations 1 of 1\nend\n";
    let cases: [Told; 4] = [
        (
            constructs(alloc, 32)?,
            ENDED,
            b"host 0\n0 0 0 0\ndone\nqueue 0 sync batches 2 operations 3 of 3\nend\n",
        ),
        (constructs(alloc, 33)?, REFUSED, refused),
        (constructs(alloc, 64)?, REFUSED, refused),
        (constructs(alloc, 65)?, too_long(131), b""),
    ];
    check(&rt, alloc, &cases);
    Ok(())
}

/// A turn has thirty-two events, and one more where there is a host. A million are the most.
#[test]
fn limits_of_schedules(rt: HostRuntime) -> Result<(), Fail> {
    let alloc = rt.alloc();
    let host: &'static [u8] = b"host { }\n";
    let cases: [Told; 4] = [
        (rounds(alloc, b"", 3, b"round 1250\n")?, ENDED, b"end\n"),
        (
            rounds(alloc, b"", 3, b"round 1250\nround 1\n")?,
            schedule_fault(5, ReadKind::Limit),
            b"",
        ),
        (
            rounds(alloc, host, 3, b"round 303\n")?,
            ENDED,
            b"host 0\ndone\nend\n",
        ),
        (
            rounds(alloc, host, 3, b"round 304\n")?,
            schedule_fault(4, ReadKind::Limit),
            b"",
        ),
    ];
    check(&rt, alloc, &cases);
    Ok(())
}

/// A turn of four devices has 128 events.
#[test]
fn limits_of_schedules_on_four_devices(rt: HostRuntime) -> Result<(), Fail> {
    let four = Options {
        devices: 4,
        ..Options::DEFAULT
    };
    let limit = schedule_fault(1, ReadKind::Limit);
    check_input(&rt, rt.alloc(), b"%%\nround 7812\n", four, ENDED, b"end\n");
    check_input(&rt, rt.alloc(), b"%%\nround 7813\n", four, limit, b"");
    check_input(&rt, rt.alloc(), b"%%\nround 10000\n", four, limit, b"");
    Ok(())
}

// A script and a schedule of so many line feeds each.
fn long_input(alloc: Global, script: usize, schedule: usize) -> Result<Vec<u8>, Fail> {
    let mut input = Vec::new(alloc);
    input.resize(script, b'\n')?;
    input.extend_from_slice(b"%%\n")?;
    let whole = input.len().saturating_add(schedule);
    input.resize(whole, b'\n')?;
    Ok(input)
}

// An input whose texts have so many lines is answered so.
fn check_long(
    rt: &impl Abort,
    alloc: Global,
    (script, schedule): (usize, usize),
    wanted: Answer,
    report: &[u8],
) -> Result<(), Fail> {
    let input = long_input(alloc, script, schedule)?;
    check_input(
        rt,
        alloc,
        input.as_slice(),
        Options::DEFAULT,
        wanted,
        report,
    );
    Ok(())
}

/// Each text has 1,048,576 bytes at most.
#[test]
fn long_texts_are_told(rt: HostRuntime) -> Result<(), Fail> {
    const LINE: u32 = 1_048_577;
    let in_schedule = schedule_fault(LINE, ReadKind::Limit);
    let alloc = rt.alloc();
    check_long(&rt, alloc, (1_048_576, 1_048_576), ENDED, b"end\n")?;
    check_long(&rt, alloc, (1_048_577, 1_048_576), too_long(LINE), b"")?;
    check_long(&rt, alloc, (1_048_576, 1_048_577), in_schedule, b"")?;
    check_long(&rt, alloc, (3_000_000, 3_000_000), too_long(LINE), b"")?;
    Ok(())
}

// Sixty-five parentheses inside one another.
fn deep_text(alloc: Global) -> Result<Vec<u8>, AllocError> {
    let mut text = Vec::from_slice(
        alloc,
        b"long a[1];\nhost {\n#pragma acc parallel loop\nfor (i = 0; i < 1; i++) a[i] = ",
    )?;
    for _ in 0..65u32 {
        text.push(b'(')?;
    }
    Ok(text)
}

// A text of blanks, one longer than a text may be.
fn blank_text(alloc: Global) -> Result<Vec<u8>, Fail> {
    let mut text = Vec::new(alloc);
    text.resize(1_048_577, b' ')?;
    Ok(text)
}

#[test]
fn deep_and_long_texts_are_told(rt: HostRuntime) -> Result<(), Fail> {
    let alloc = rt.alloc();
    let cases: [Told; 2] = [
        (deep_text(alloc)?, too_long(4), b""),
        (blank_text(alloc)?, too_long(1), b""),
    ];
    check(&rt, alloc, &cases);
    Ok(())
}
