//! Tests of steps.

use crate::status::status_shown;
use crate::tests::{Told, answered, check_begin, check_case, check_told};
use crate::tests_of_streams::check_writers;
use std::alloc::Global;
use std::process::Abort;
use std::sync::Wait;
use std::test::Fail;
use std::thread::Threads;

/// Lines and reports, and files that have none.
const STEPS: &[Told] = &[
    Told {
        words: &["accq", "steps", "script", "schedule"],
        input: b"",
        status: 1,
        output: b"    1  line 1   host 0         line 3: enter data create(a) async(1) | a[0:2] s 0 d 1 | batch 1 of queue 0 1: make\n    2  line 1   host 0         line 4: update device(a) async(1) | a[0:2] s 0 d 1 | batch 2 of queue 0 1: copy in\n    3  line 1   host 0         line 5: acc_set_device_num(1); | refused F2 BadDevice\n   12  line 2   queue 0 1      takes batch 1 of host 0\n   13  line 2   queue 0 1      batch 1: makes block 1 for a[0:2]\n   45  line 2   queue 0 1      takes batch 2 of host 0\n   46  line 2   queue 0 1      batch 2: copies a[0:2] into block 1\nhost 0\nrefused 5 F2 BadDevice\npresent 0 a[0:2] s 0 d 1\nqueue 0 1 batches 2 operations 2 of 2\nend\n",
        errors: b"",
    },
    Told {
        words: &["accq", "steps", "both", "one_step", "--idle"],
        input: b"",
        status: 2,
        output: b"",
        errors: b"accq: script line 4: Text\n",
    },
    // one file with both texts, whose round has nothing to do
    Told {
        words: &["accq", "steps", "both"],
        input: b"",
        status: 0,
        output: b"host 0\ndone\nend\n",
        errors: b"",
    },
    Told {
        words: &["accq", "steps", "empty", "empty", "--devices", "2"],
        input: b"",
        status: 0,
        output: b"end\n",
        errors: b"",
    },
    Told {
        words: &["accq", "steps", "script", "one_step", "--room=1", "--idle"],
        input: b"",
        status: 0,
        output: b"    1  line 1   queue 0 sync   takes nothing\nhost 0\nunfinished\nend\n",
        errors: b"",
    },
    // both are opened before one is read
    Told {
        words: &["accq", "steps", "faulty", "missing"],
        input: b"",
        status: 3,
        output: b"",
        errors: b"accq: cannot read\n",
    },
    Told {
        words: &["accq", "steps", "script", "folder", "--picture"],
        input: b"",
        status: 3,
        output: b"",
        errors: b"accq: cannot read\n",
    },
];

#[test]
fn steps_of_files_have_their_status(rt: HostRuntime) -> Result<(), Fail> {
    for case in STEPS {
        check_case(&rt, rt.alloc(), case);
    }
    Ok(())
}

// A picture begins and ends as one, and its status is this.
fn check_picture<T: Abort + Threads + Wait + Sync>(
    rt: &T,
    alloc: Global,
    words: &'static [&'static str],
    wanted: u8,
) {
    let case = Told {
        words,
        input: b"",
        status: 0,
        output: b"",
        errors: b"",
    };
    let (status, output, errors) = answered(rt, alloc, &case);
    assert_eq!(rt; status, wanted);
    assert!(rt; errors.is_empty());
    check_begin(
        rt,
        output.as_slice(),
        b"<svg xmlns=\"http://www.w3.org/2000/svg\" ",
    );
    assert!(rt; output.as_slice().ends_with(b"</svg>\n"));
}

#[test]
fn pictures_have_the_status_of_their_replays(rt: HostRuntime) -> Result<(), Fail> {
    let alloc = rt.alloc();
    check_picture(
        &rt,
        alloc,
        &["accq", "steps", "script", "schedule", "--picture"],
        1,
    );
    check_picture(
        &rt,
        alloc,
        &[
            "accq",
            "steps",
            "--picture",
            "--devices=2",
            "script",
            "schedule",
        ],
        0,
    );
    Ok(())
}

#[test]
fn a_picture_that_would_be_too_long_is_told(rt: HostRuntime) -> Result<(), Fail> {
    let mut errors = Vec::new(rt.alloc());
    let status = status_shown(Ok(None), &mut errors);
    check_told(
        &rt,
        status,
        errors.as_slice(),
        3,
        b"accq: too long for a picture\n",
    );
    Ok(())
}

/// An output that takes nothing, one that ends within the lines, and one that can't send on.
#[test]
fn steps_that_do_not_go_out_have_status_three(rt: HostRuntime) -> Result<(), Fail> {
    let lines: &[&str] = &["accq", "steps", "script", "schedule"];
    let picture: &[&str] = &["accq", "steps", "script", "schedule", "--picture"];
    for words in [lines, picture] {
        check_writers(&rt, rt.alloc(), words, 90);
    }
    Ok(())
}
