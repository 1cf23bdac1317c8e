//! What is answered to each beginning of a script, byte by byte.

use crate::answers::{Answer, ENDED, check_bytes, replayed, script_fault};
use crate::scripts::{DOUBLED, DOUBLED_REPORT, TWENTY_ROUNDS};
use acc_driver::ReadKind;
use std::alloc::Global;
use std::process::Abort;
use std::test::Fail;

/// A beginning that is a whole script, or one that has a fault in a line.
#[derive(Clone, Copy)]
enum Begun {
    Whole(&'static [u8]),
    Faulty(u32, ReadKind),
}

use Begun::{Faulty, Whole};
use ReadKind::{End, Form, Name};

/// Beginnings from one length to another, in bytes, that are answered alike. A word that is cut is another word: a name that
/// isn't declared where an array's can stand, and else of a wrong form.
const BEGINNINGS: &[(usize, usize, Begun)] = &[
    (0, 0, Whole(b"end\n")),
    // long a[4] = {1,2,3,4};
    (1, 3, Faulty(1, Form)),
    (4, 21, Faulty(1, End)),
    (22, 23, Whole(b"end\n")),
    // host {
    (24, 26, Faulty(2, Form)),
    (27, 29, Faulty(2, End)),
    // #pragma acc enter data copyin(a)
    (30, 31, Faulty(3, End)),
    (32, 36, Faulty(3, Form)),
    (37, 38, Faulty(3, End)),
    (39, 40, Faulty(3, Form)),
    (41, 42, Faulty(3, End)),
    (43, 46, Faulty(3, Form)),
    (47, 48, Faulty(3, End)),
    (49, 51, Faulty(3, Form)),
    (52, 53, Faulty(3, End)),
    (54, 58, Faulty(3, Form)),
    (59, 62, Faulty(3, End)),
    // #pragma acc parallel loop present(a)
    (63, 64, Faulty(4, End)),
    (65, 69, Faulty(4, Form)),
    (70, 71, Faulty(4, End)),
    (72, 73, Faulty(4, Form)),
    (74, 75, Faulty(4, End)),
    (76, 82, Faulty(4, Form)),
    (83, 84, Faulty(4, End)),
    (85, 87, Faulty(4, Form)),
    (88, 89, Faulty(4, End)),
    (90, 95, Faulty(4, Form)),
    (96, 99, Faulty(4, End)),
    // for (i = 0; i < 4; i++) a[i] = a[i] * 2;
    (100, 100, Faulty(5, End)),
    (101, 102, Faulty(5, Form)),
    (103, 120, Faulty(5, End)),
    (121, 121, Faulty(5, Form)),
    (122, 140, Faulty(5, End)),
    // #pragma acc exit data copyout(a)
    (141, 142, Faulty(6, End)),
    (143, 147, Faulty(6, Form)),
    (148, 149, Faulty(6, End)),
    (150, 151, Faulty(6, Form)),
    (152, 153, Faulty(6, End)),
    (154, 156, Faulty(6, Form)),
    (157, 158, Faulty(6, End)),
    (159, 161, Faulty(6, Form)),
    (162, 163, Faulty(6, End)),
    (164, 169, Faulty(6, Form)),
    (170, 173, Faulty(6, End)),
    // print(a);
    (174, 174, Faulty(7, End)),
    (175, 178, Faulty(7, Name)),
    (179, 183, Faulty(7, End)),
    // }
    (184, 184, Faulty(8, End)),
    (185, 186, Whole(DOUBLED_REPORT)),
];

// The answer to such a beginning, and its report.
fn answer_to(begun: Begun) -> (Answer, &'static [u8]) {
    match begun {
        Whole(report) => (ENDED, report),
        Faulty(line, kind) => (script_fault(line, kind), b""),
    }
}

// The script's beginning of this length is answered so.
fn check_beginning(rt: &impl Abort, alloc: Global, length: usize, begun: Begun) {
    let (mut script, _) = DOUBLED.split_at(length.min(DOUBLED.len()));
    let mut schedule = TWENTY_ROUNDS;
    let (answer, written) = replayed(alloc, &mut script, &mut schedule);
    let (wanted, report) = answer_to(begun);
    assert_eq!(rt; (length, answer), (length, wanted));
    check_bytes(rt, written.as_slice(), report);
}

/// Each length stands once in the table.
#[test]
fn each_beginning_of_a_script_is_told(rt: HostRuntime) -> Result<(), Fail> {
    let mut next = 0usize;
    for (first, last, begun) in BEGINNINGS {
        assert_eq!(rt; *first, next);
        next = last.wrapping_add(1);
        for length in *first..next {
            check_beginning(&rt, rt.alloc(), length, *begun);
        }
    }
    assert_eq!(rt; next, DOUBLED.len().wrapping_add(1));
    Ok(())
}
