//! A replay whose reader or writer fails at each place in turn: a clause can't say when one of these
//! fails. Also worked reports, kinds of faults, and their texts.

use crate::answers::{
    Answer, ENDED, REFUSED, check_answer, check_bytes, check_input, check_read, check_readers,
    schedule_fault, script_fault,
};
use crate::scripts::{DOUBLED, DOUBLED_REPORT, TWENTY_ROUNDS};
use crate::streams::{End, Endless, Late, Narrow, Trickle};
use acc_base::Fault;
use acc_driver::{DriverFault, Options, ReadFault, ReadKind, Remains, replay_one};
use std::alloc::{AllocError, Global};
use std::process::Abort;
use std::test::Fail;

/// An input, its answer and its report.
type Worked = (&'static [u8], Answer, &'static [u8]);

const STALE: &[u8] =
    b"long a[4] = {1,2,3,4};\nhost {\n#pragma acc enter data copyin(a)\na[0] = 9;\n#pragma acc exit data copyout(a)\nprint(a);\n}\n%%\nround 20\n";

const STALE_REPORT: &[u8] =
    b"host 0\n1 2 3 4\ndone\nqueue 0 sync batches 2 operations 4 of 4\nend\n";

#[test]
fn worked_inputs_have_their_reports(rt: HostRuntime) -> Result<(), Fail> {
    const CASES: &[Worked] = &[
        (b"", ENDED, b"end\n"),
        (b"%%\n", ENDED, b"end\n"),
        (STALE, ENDED, STALE_REPORT),
        (
            b"long a[4];\nhost {\n#pragma acc enter data copyin(a)\n#pragma acc enter data copyin(a)\n#pragma acc exit data delete(a)\n}\n%%\nround 20\n",
            ENDED,
            b"host 0\ndone\npresent 0 a[0:4] s 0 d 1\nqueue 0 sync batches 1 operations 2 of 2\nend\n",
        ),
        (
            b"long a[8];\nhost {\n#pragma acc enter data copyin(a[0:4])\n#pragma acc enter data copyin(a[2:4])\n}\n%%\nround 20\n",
            REFUSED,
            b"host 0\nrefused 4 F6 PartlyPresent\npresent 0 a[0:4] s 0 d 1\nqueue 0 sync batches 1 operations 2 of 2\nend\n",
        ),
        (
            b"long b[2] = {-1, 9223372036854775807};\nlong a[1] = {-9223372036854775808};\nhost {\nprint(a);\n#pragma acc enter data copyin(b[1:], a) // both\nprint(b);\n}\n%%\nround 2\n# that's all",
            ENDED,
            b"host 0\n-9223372036854775808\nunfinished\npresent 0 b[1:1] s 0 d 1\npresent 0 a[0:1] s 0 d 1\nqueue 0 sync batches 1 operations 1 of 4\nend\n",
        ),
    ];
    for (input, wanted, report) in CASES {
        check_input(&rt, rt.alloc(), input, Options::DEFAULT, *wanted, report);
    }
    Ok(())
}

/// An input, and the line and the kind of its fault.
type Faulty = (&'static [u8], u32, ReadKind);

/// Each kind of fault of a script, with its line; a schedule's fault is told behind it.
#[test]
fn faults_of_scripts_are_told(rt: HostRuntime) -> Result<(), Fail> {
    const CASES: &[Faulty] = &[
        (
            b"long a[4];\nhost {\n#pragma acc enter data copyin(a[0:",
            3,
            ReadKind::End,
        ),
        (b"long a[4];\nhost {\n%%\nround 0\n", 3, ReadKind::End),
        (b"long a[4];\n\n$\n%%\ntake 0 14\n", 3, ReadKind::Text),
        (
            b"long a[4];\nhost { b[0] = 1; }\n%%\nround 0",
            2,
            ReadKind::Name,
        ),
        (b"long a[65537];\n", 1, ReadKind::Limit),
        (b"long a[01];\n", 1, ReadKind::Form),
    ];
    for (input, line, kind) in CASES {
        let wanted = script_fault(*line, *kind);
        check_input(&rt, rt.alloc(), input, Options::DEFAULT, wanted, b"");
    }
    Ok(())
}

/// Each kind of fault of a schedule; a second line %% is one of its lines.
#[test]
fn faults_of_schedules_are_told(rt: HostRuntime) -> Result<(), Fail> {
    const CASES: &[Faulty] = &[
        (b"host { }\n%%\nround 20\n%%\n", 2, ReadKind::Form),
        (b"%%\n# a\n\ntake 0 zero\n", 3, ReadKind::Name),
        (b"%%\ndo 1 sync\n", 1, ReadKind::Name),
        (b"%%\nhost 0\n", 1, ReadKind::Name),
        (b"%%\nclose 2\n", 1, ReadKind::Form),
        (b"%%\nround 0\n", 1, ReadKind::Limit),
        (b"%%\nround 10001\nround 0\r\n", 1, ReadKind::Limit),
        (b"%%\nround 1\r\n", 1, ReadKind::Text),
    ];
    for (input, line, kind) in CASES {
        let wanted = schedule_fault(*line, *kind);
        check_input(&rt, rt.alloc(), input, Options::DEFAULT, wanted, b"");
    }
    Ok(())
}

fn check_trickle(rt: &impl Abort, alloc: Global, end: End, wanted: Answer, report: &[u8]) {
    let mut reader = Trickle { left: STALE, end };
    check_read(rt, alloc, &mut reader, Options::DEFAULT, wanted, report);
}

/// A reader that gives a byte a turn is read to its end; one that then fails in place of ending, or that is interrupted
/// for good, is told as the input's fault, and nothing is written.
#[test]
fn readers_are_slow_and_fail(rt: HostRuntime) -> Result<(), Fail> {
    check_trickle(&rt, rt.alloc(), End::Quiet, ENDED, STALE_REPORT);
    for end in [End::Fails, End::Interrupted] {
        check_trickle(&rt, rt.alloc(), end, Err(DriverFault::Input), b"");
    }
    Ok(())
}

/// An interrupted read is one turn. The last turns are for the text and its end.
#[test]
fn readers_are_interrupted(rt: HostRuntime) -> Result<(), Fail> {
    const CASES: &[(u32, Answer, &[u8])] = &[
        (0, ENDED, STALE_REPORT),
        (1, ENDED, STALE_REPORT),
        (4_194_302, ENDED, STALE_REPORT),
        (4_194_303, Err(DriverFault::Input), b""),
        (4_194_304, Err(DriverFault::Input), b""),
    ];
    for (interrupts, wanted, report) in CASES {
        let mut reader = Late {
            interrupts: *interrupts,
            left: STALE,
        };
        check_read(
            &rt,
            rt.alloc(),
            &mut reader,
            Options::DEFAULT,
            *wanted,
            report,
        );
    }
    Ok(())
}

// A text that can't be read.
const FAILED: Answer = Err(DriverFault::Input);

/// A script's reader that fails at its third byte, and a schedule's reader that does, are told as the input's fault, and
/// nothing is written.
#[test]
fn either_of_two_readers_fails(rt: HostRuntime) -> Result<(), Fail> {
    let alloc = rt.alloc();
    let mut script = Trickle {
        left: b"lo",
        end: End::Fails,
    };
    let mut schedule = TWENTY_ROUNDS;
    check_readers(&rt, alloc, &mut script, &mut schedule, FAILED, b"");
    let mut script = DOUBLED;
    let mut schedule = Trickle {
        left: b"ro",
        end: End::Fails,
    };
    check_readers(&rt, alloc, &mut script, &mut schedule, FAILED, b"");
    Ok(())
}

/// How often a script's reader is interrupted, and its text; the same of a schedule's; and what is answered and written.
type Interrupted = (
    u32,
    &'static [u8],
    u32,
    &'static [u8],
    Answer,
    &'static [u8],
);

const INTERRUPTED: &[Interrupted] = &[
    (
        2_097_150,
        DOUBLED,
        2_097_150,
        TWENTY_ROUNDS,
        ENDED,
        DOUBLED_REPORT,
    ),
    (2_097_151, DOUBLED, 0, TWENTY_ROUNDS, FAILED, b""),
    (0, DOUBLED, 2_097_151, TWENTY_ROUNDS, FAILED, b""),
    (2_097_151, b"", 2_097_151, b"", ENDED, b"end\n"),
    (2_097_152, b"", 0, b"", FAILED, b""),
    (0, b"", 2_097_152, b"", FAILED, b""),
];

/// Each of two texts has 2,097,152 turns, the last of which may be that of its end.
#[test]
fn two_readers_are_interrupted(rt: HostRuntime) -> Result<(), Fail> {
    for (of_script, script, of_schedule, schedule, wanted, report) in INTERRUPTED {
        let mut script = Late {
            interrupts: *of_script,
            left: script,
        };
        let mut schedule = Late {
            interrupts: *of_schedule,
            left: schedule,
        };
        check_readers(&rt, rt.alloc(), &mut script, &mut schedule, *wanted, report);
    }
    Ok(())
}

// A reader that doesn't end is read in so many turns, as a script and as a schedule, and is answered so.
fn check_endless(
    rt: &impl Abort,
    alloc: Global,
    interrupts: u32,
    turns: u32,
    as_script: Answer,
    as_schedule: Answer,
) {
    let mut endless = Endless {
        interrupts,
        turns: 0,
    };
    let mut schedule = TWENTY_ROUNDS;
    check_readers(rt, alloc, &mut endless, &mut schedule, as_script, b"");
    assert_eq!(rt; endless.turns, turns);
    let mut script = DOUBLED;
    let mut endless = Endless {
        interrupts,
        turns: 0,
    };
    check_readers(rt, alloc, &mut script, &mut endless, as_schedule, b"");
    assert_eq!(rt; endless.turns, turns);
}

/// A reader that gives a byte a turn and doesn't end is read up to one byte more than a text may have; one that gives none, or
/// one too few, up to its last turn.
#[test]
fn readers_never_end(rt: HostRuntime) -> Result<(), Fail> {
    let alloc = rt.alloc();
    let long = script_fault(1, ReadKind::Limit);
    let long_schedule = schedule_fault(1, ReadKind::Limit);
    check_endless(&rt, alloc, 0, 1_048_577, long, long_schedule);
    check_endless(&rt, alloc, 1_048_575, 2_097_152, long, long_schedule);
    check_endless(&rt, alloc, 1_048_576, 2_097_152, FAILED, FAILED);
    check_endless(&rt, alloc, u32::MAX, 2_097_152, FAILED, FAILED);
    Ok(())
}

// Sixteen arrays of the most cells enter by one directive, leave by another, and one is printed whole.
fn largest_arrays(alloc: Global) -> Result<Vec<u8>, AllocError> {
    let mut input = Vec::new(alloc);
    for name in b"abcdefghijklmnop" {
        input.extend_from_slice(b"long ")?;
        input.push(*name)?;
        input.extend_from_slice(b"[65536] = {7};\n")?;
    }
    input.extend_from_slice(
        b"host {\n#pragma acc enter data copyin(a,b,c,d,e,f,g,h,i,j,k,l,m,n,o,p)\na[0] = 8;\n#pragma acc exit data copyout(a,b,c,d,e,f,g,h,i,j,k,l,m,n,o,p)\nprint(a);\n}\n%%\nround 80\n",
    )?;
    Ok(input)
}

// Their report.
fn largest_report(alloc: Global) -> Result<Vec<u8>, AllocError> {
    let mut report = Vec::from_slice(alloc, b"host 0\n7")?;
    for _ in 1..65_536u32 {
        report.extend_from_slice(b" 0")?;
    }
    report.extend_from_slice(b"\ndone\nqueue 0 sync batches 2 operations 64 of 64\nend\n")?;
    Ok(report)
}

#[test]
fn the_largest_arrays_are_replayed(rt: HostRuntime) -> Result<(), Fail> {
    let input = largest_arrays(rt.alloc())?;
    let report = largest_report(rt.alloc())?;
    check_input(
        &rt,
        rt.alloc(),
        input.as_slice(),
        Options::DEFAULT,
        ENDED,
        report.as_slice(),
    );
    Ok(())
}

// A writer with room for so many bytes gets these, and the fault is told where they aren't all.
fn check_narrow(rt: &impl Abort, alloc: Global, room: usize, fails: bool) {
    let mut narrow = Narrow {
        taken: Vec::new(alloc),
        room,
        fails,
        was_interrupted: false,
    };
    let mut input = STALE;
    let answer = replay_one(
        alloc,
        &mut input,
        Options::DEFAULT,
        &mut narrow,
        &mut Remains::nothing(),
    );
    let is_whole = STALE_REPORT.len() <= room;
    check_answer(
        rt,
        answer,
        if is_whole {
            ENDED
        } else {
            Err(DriverFault::Output)
        },
    );
    let (taken, _) = STALE_REPORT.split_at(room.min(STALE_REPORT.len()));
    check_bytes(rt, narrow.taken.as_slice(), taken);
}

/// A writer that is interrupted, and takes two bytes at a time, gets the whole report; one that fails, or takes nothing
/// more, behind any number of bytes has just these.
#[test]
fn writers_are_narrow_and_fail(rt: HostRuntime) -> Result<(), Fail> {
    for room in 0..STALE_REPORT.len() + 1 {
        check_narrow(&rt, rt.alloc(), room, true);
        check_narrow(&rt, rt.alloc(), room, false);
    }
    Ok(())
}

/// Options beyond their limits are refused when both texts are read.
#[test]
fn options_are_refused(rt: HostRuntime) -> Result<(), Fail> {
    const GOOD: Options = Options::DEFAULT;
    const CASES: &[(Options, Fault)] = &[
        (Options { devices: 0, ..GOOD }, Fault::BadDevice),
        (Options { devices: 5, ..GOOD }, Fault::BadDevice),
        (
            Options {
                devices: 255,
                ..GOOD
            },
            Fault::BadDevice,
        ),
        (Options { cells: 0, ..GOOD }, Fault::TooMany),
        (
            Options {
                cells: 4_294_967_297,
                ..GOOD
            },
            Fault::TooMany,
        ),
        (Options { room: 0, ..GOOD }, Fault::TooMany),
        (
            Options {
                room: 1_025,
                ..GOOD
            },
            Fault::TooMany,
        ),
    ];
    for (options, fault) in CASES {
        let wanted = Err(DriverFault::Runtime(*fault));
        check_input(&rt, rt.alloc(), STALE, *options, wanted, b"");
    }
    Ok(())
}

fn check_fault(
    rt: &impl Abort,
    alloc: Global,
    fault: DriverFault,
    text: &str,
) -> Result<(), AllocError> {
    let shown = format!(in alloc; "{fault}")?;
    check_bytes(rt, shown.as_bytes(), text.as_bytes());
    Ok(())
}

#[test]
fn the_texts_of_driver_faults(rt: HostRuntime) -> Result<(), Fail> {
    const FAULT: ReadFault = ReadFault {
        line: 3,
        kind: ReadKind::End,
    };
    const TEXTS: &[(DriverFault, &str)] = &[
        (DriverFault::Script(FAULT), "script line 3: End"),
        (DriverFault::Schedule(FAULT), "schedule line 3: End"),
        (DriverFault::Input, "cannot read"),
        (DriverFault::Output, "cannot write"),
        (DriverFault::Memory, "out of memory"),
        (DriverFault::Runtime(Fault::HostsDiffer), "F14 HostsDiffer"),
    ];
    for (fault, text) in TEXTS {
        check_fault(&rt, rt.alloc(), *fault, text)?;
    }
    Ok(())
}

fn check_kind(
    rt: &impl Abort,
    alloc: Global,
    kind: ReadKind,
    text: &str,
) -> Result<(), AllocError> {
    let shown = format!(in alloc; "{kind:?}")?;
    check_bytes(rt, shown.as_bytes(), text.as_bytes());
    Ok(())
}

#[test]
fn the_texts_of_kinds(rt: HostRuntime) -> Result<(), Fail> {
    const TEXTS: &[(ReadKind, &str)] = &[
        (ReadKind::Text, "Text"),
        (ReadKind::Name, "Name"),
        (ReadKind::Limit, "Limit"),
        (ReadKind::Form, "Form"),
        (ReadKind::End, "End"),
    ];
    for (kind, text) in TEXTS {
        check_kind(&rt, rt.alloc(), *kind, text)?;
    }
    Ok(())
}
