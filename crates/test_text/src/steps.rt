//! What is told of each event, and the report behind it.

use crate::answers::{Answer, ENDED, REFUSED, check_answer, check_bytes};
use acc_driver::{DriverFault, Ended, Options, Remains, StepsAs, show};
use std::alloc::Global;
use std::process::Abort;
use std::test::Fail;

/// A script, a schedule, how the steps are shown, whether a host is refused, and all that is written.
struct Case {
    script: &'static [u8],
    schedule: &'static [u8],
    form: StepsAs,
    refused: bool,
    written: &'static [u8],
}

const RACE: &[u8] =
    b"long a[2] = {1, 2};\nhost {\n#pragma acc enter data copyin(a)\n#pragma acc parallel loop present(a) async(1)\n  for (i = 0; i < 2; i++) a[i] = a[i] + 1;\n#pragma acc parallel loop present(a) async(2)\n  for (i = 0; i < 2; i++) a[i] = a[i] * 10;\n}\n";

const CASES: &[Case] = &[
    Case {
        script: b"long a[2] = {1, 2};\nhost {\n  #pragma acc enter data copyin(a)   // both cells\n\tprint(a);\n}\n",
        schedule: b"# of a round 33 events\nround 4\n",
        form: StepsAs::Lines,
        refused: false,
        written: b"    1  line 2   host 0         line 3: enter data copyin(a) | a[0:2] s 0 d 1 | batch 1 of queue 0 sync: make, copy in\n    2  line 2   queue 0 sync   takes batch 1 of host 0\n    3  line 2   queue 0 sync   batch 1: makes block 1 for a[0:2]\n   36  line 2   queue 0 sync   batch 1: copies a[0:2] into block 1\n   67  line 2   host 0         line 3: enter data copyin(a) | all that it waits for is performed\n  100  line 2   host 0         line 4: print(a); | prints 1 2\nhost 0\n1 2\ndone\npresent 0 a[0:2] s 0 d 1\nqueue 0 sync batches 1 operations 2 of 2\nend\n",
    },
    Case {
        script: b"long a[2];\nhost {\n#pragma acc update self(a) async(1)\n}\n",
        schedule: b"host 0 2\n",
        form: StepsAs::AllLines,
        refused: true,
        written: b"    1  line 1   host 0         line 3: update self(a) async(1) | refused F7 NotPresent | a[0:2] absent\n    2  line 1   host 0         line 3: update self(a) async(1) | does nothing\nhost 0\nrefused 3 F7 NotPresent\nend\n",
    },
    // what isn't printed, a comment within the line, and a carriage return at its end
    Case {
        script: b"long a[2] = {1, 2};\nhost {\n\t/* \x1B[1m // */ print(a); // both\r\n /**/ print(a); /*/ // */ \r\n}\n",
        schedule: b"host 0 2\n",
        form: StepsAs::Lines,
        refused: false,
        written: b"    1  line 1   host 0         line 3: /* ?[1m // */ print(a); | prints 1 2\n    2  line 1   host 0         line 4: /**/ print(a); /*/ // */ | prints 1 2\nhost 0\n1 2\n1 2\ndone\nend\n",
    },
    Case {
        script: RACE,
        schedule: b"host 0\ntake 0 sync\ndo 0 sync 2\nhost 0 3\ntake 0 2\ndo 0 2 2\ntake 0 1\ndo 0 1 2\n",
        form: StepsAs::Lines,
        refused: false,
        written: b"    1  line 1   host 0         line 3: enter data copyin(a) | a[0:2] s 0 d 1 | batch 1 of queue 0 sync: make, copy in\n    2  line 2   queue 0 sync   takes batch 1 of host 0\n    3  line 3   queue 0 sync   batch 1: makes block 1 for a[0:2]\n    4  line 3   queue 0 sync   batch 1: copies a[0:2] into block 1\n    5  line 4   host 0         line 3: enter data copyin(a) | all that it waits for is performed\n    6  line 4   host 0         line 4: parallel loop present(a) async(1) | a[0:2] s 0 d 1 | batch 1 of queue 0 1: await, loop\n    7  line 4   host 0         line 6: parallel loop present(a) async(2) | a[0:2] s 0 d 1 | batch 1 of queue 0 2: await, loop\n    8  line 5   queue 0 2      takes batch 1 of host 0\n    9  line 6   queue 0 2      batch 1: has awaited batch 1 of queue 0 sync\n   10  line 6   queue 0 2      batch 1: runs its loop, with a[0:2] in block 1\n   11  line 7   queue 0 1      takes batch 1 of host 0\n   12  line 8   queue 0 1      batch 1: has awaited batch 1 of queue 0 sync\n   13  line 8   queue 0 1      batch 1: runs its loop, with a[0:2] in block 1\nhost 0\ndone\npresent 0 a[0:2] s 0 d 1\nqueue 0 sync batches 1 operations 2 of 2\nqueue 0 1 batches 1 operations 2 of 2\nqueue 0 2 batches 1 operations 2 of 2\nend\n",
    },
    Case {
        script: RACE,
        schedule: b"host 0\ntake 0 sync\ndo 0 sync\nhost 0\ntake 0 1\ndo 0 1\nclose\n",
        form: StepsAs::AllLines,
        refused: false,
        written: b"    1  line 1   host 0         line 3: enter data copyin(a) | a[0:2] s 0 d 1 | batch 1 of queue 0 sync: make, copy in\n    2  line 2   queue 0 sync   takes batch 1 of host 0\n    3  line 3   queue 0 sync   batch 1: makes block 1 for a[0:2]\n    4  line 4   host 0         line 3: enter data copyin(a) | does nothing\n    5  line 5   queue 0 1      takes nothing\n    6  line 6   queue 0 1      performs nothing\n    7  line 7   owner          closes; 0 queues hold their room and stay open\nhost 0\nunfinished\npresent 0 a[0:2] s 0 d 1\nqueue 0 sync batches 1 operations 1 of 2\nend\n",
    },
];

// The answer of lines, which there always are.
fn shown(answer: Result<Option<Ended>, DriverFault>) -> Answer {
    match answer {
        Ok(Some(ended)) => Ok(ended),
        Ok(None) => Err(DriverFault::Output),
        Err(fault) => Err(fault),
    }
}

fn check_case(rt: &impl Abort, alloc: Global, case: &Case) {
    let mut script = case.script;
    let mut schedule = case.schedule;
    let mut written = Vec::new(alloc);
    let answer = show(
        alloc,
        &mut script,
        &mut schedule,
        Options::DEFAULT,
        case.form,
        &mut written,
        &mut Remains::nothing(),
    );
    check_bytes(rt, written.as_slice(), case.written);
    check_answer(
        rt,
        shown(answer),
        if case.refused { REFUSED } else { ENDED },
    );
}

#[test]
fn each_event_is_told_by_what_it_did(rt: HostRuntime) -> Result<(), Fail> {
    for case in CASES {
        check_case(&rt, rt.alloc(), case);
    }
    Ok(())
}
