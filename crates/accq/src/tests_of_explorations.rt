//! Tests of explorations.

use crate::tests::{Told, check_case};
use crate::tests_of_streams::{check_narrow, check_writers};
use std::test::Fail;

/// Reports, their schedules and counts, and files that have none.
const EXPLORATIONS: &[Told] = &[
    // each event goes first: two placements, a take, the block is made, a take, the update, and the refusal
    Told {
        words: &["accq", "explore", "script"],
        input: b"",
        status: 1,
        output: b"# schedule 1\nhost 0 2\ntake 0 1\ndo 0 1\ntake 0 1\ndo 0 1\nhost 0\n# report 1\nhost 0\nrefused 5 F2 BadDevice\npresent 0 a[0:2] s 0 d 1\nqueue 0 1 batches 2 operations 2 of 2\nend\n1 report, 8 states, all schedules\n",
        errors: b"",
    },
    // the second batch comes before or behind the first one is taken
    Told {
        words: &["accq", "explore", "--room=1", "script"],
        input: b"",
        status: 1,
        output: b"# schedule 1\nhost 0 2\ntake 0 1\ndo 0 1\n# report 1\nhost 0\nrefused 4 F12 QueueFull\npresent 0 a[0:2] s 0 d 1\nqueue 0 1 batches 1 operations 1 of 1\nend\n# schedule 2\nhost 0\ntake 0 1\ndo 0 1\nhost 0\ntake 0 1\ndo 0 1\nhost 0\n# report 2\nhost 0\nrefused 5 F2 BadDevice\npresent 0 a[0:2] s 0 d 1\nqueue 0 1 batches 2 operations 2 of 2\nend\n2 reports, 11 states, all schedules\n",
        errors: b"",
    },
    // who writes last is seen, and who wrote before is not: three ends with two reports
    Told {
        words: &["accq", "explore", "writers"],
        input: b"",
        status: 1,
        output: b"# schedule 1\nhost 0\nhost 1 2\n# report 1\nhost 0\ndone\nhost 1\n2\ndone\nend\n# schedule 2\nhost 1\nhost 0\nhost 1\n# report 2\nhost 0\ndone\nhost 1\n1\ndone\nend\n2 reports, 9 states, all schedules\n",
        errors: b"",
    },
    // in each of the nine states the owner may close: then each of sixteen queues takes its close and performs it, one after another
    Told {
        words: &["accq", "explore", "writers", "--close"],
        input: b"",
        status: 1,
        output: b"# schedule 1\nhost 0\nhost 1 2\n# report 1\nhost 0\ndone\nhost 1\n2\ndone\nend\n# schedule 2\nhost 1\nhost 0\nhost 1\n# report 2\nhost 0\ndone\nhost 1\n1\ndone\nend\n2 reports, 306 states, all schedules\n",
        errors: b"",
    },
    Told {
        words: &["accq", "explore", "script", "--room=1", "--short"],
        input: b"",
        status: 1,
        output: b"host 0;refused 4 F12 QueueFull;present 0 a[0:2] s 0 d 1;queue 0 1 batches 1 operations 1 of 1;end;\nhost 0;refused 5 F2 BadDevice;present 0 a[0:2] s 0 d 1;queue 0 1 batches 2 operations 2 of 2;end;\n",
        errors: b"",
    },
    Told {
        words: &["accq", "explore", "--short", "--devices=2", "script"],
        input: b"",
        status: 0,
        output: b"host 0;2;done;present 0 a[0:2] s 0 d 1;queue 0 1 batches 2 operations 2 of 2;end;\n",
        errors: b"",
    },
    // behind a schedule that leads to the end, and behind one that does nothing
    Told {
        words: &["accq", "explore", "script", "schedule"],
        input: b"",
        status: 1,
        output: b"# schedule 1\nhost 0 4\nround 5\n\n# report 1\nhost 0\nrefused 5 F2 BadDevice\npresent 0 a[0:2] s 0 d 1\nqueue 0 1 batches 2 operations 2 of 2\nend\n1 report, 1 state, all schedules\n",
        errors: b"",
    },
    Told {
        words: &["accq", "explore", "script", "one_step"],
        input: b"",
        status: 1,
        output: b"# schedule 1\ntake 0 sync\n\nhost 0 2\ntake 0 1\ndo 0 1\ntake 0 1\ndo 0 1\nhost 0\n# report 1\nhost 0\nrefused 5 F2 BadDevice\npresent 0 a[0:2] s 0 d 1\nqueue 0 1 batches 2 operations 2 of 2\nend\n1 report, 8 states, all schedules\n",
        errors: b"",
    },
    // a schedule in the file of the script is left aside
    Told {
        words: &["accq", "explore", "both"],
        input: b"",
        status: 0,
        output: b"# schedule 1\n# report 1\nhost 0\ndone\nend\n1 report, 1 state, all schedules\n",
        errors: b"",
    },
    // it stops at the last state that it may keep, and where that is the last one that there is it doesn't
    Told {
        words: &["accq", "explore", "writers", "--states", "8"],
        input: b"",
        status: 3,
        output: b"0 reports, 8 states, stopped: there may be more\n",
        errors: b"",
    },
    Told {
        words: &["accq", "explore", "writers", "--states", "9", "--short"],
        input: b"",
        status: 1,
        output: b"host 0;done;host 1;2;done;end;\nhost 0;done;host 1;1;done;end;\n",
        errors: b"",
    },
    Told {
        words: &["accq", "explore", "empty", "faulty"],
        input: b"",
        status: 2,
        output: b"",
        errors: b"accq: schedule line 1: Form\n",
    },
    Told {
        words: &["accq", "explore", "faulty", "folder"],
        input: b"",
        status: 2,
        output: b"",
        errors: b"accq: script line 1: Form\n",
    },
    // both are opened before one is read
    Told {
        words: &["accq", "explore", "faulty", "missing"],
        input: b"",
        status: 3,
        output: b"",
        errors: b"accq: cannot read\n",
    },
];

/// Prefixes of the orders in which two hosts write, one in a step and one in a step before that which prints: both may go first; behind
/// the first host there is the other alone, and behind the other either.
const PREFIXES: &[Told] = &[
    Told {
        words: &["accq", "explore", "writers", "--depth", "1"],
        input: b"",
        status: 0,
        output: b"# prefix 1\nhost 0\n# prefix 2\nhost 1\n2 prefixes, all schedules\n",
        errors: b"",
    },
    Told {
        words: &["accq", "explore", "--depth=2", "writers"],
        input: b"",
        status: 0,
        output: b"# prefix 1\nhost 0\nhost 1\n# prefix 2\nhost 1\nhost 0\n# prefix 3\nhost 1 2\n3 prefixes, all schedules\n",
        errors: b"",
    },
    // all ends are at depth three, and none is deeper
    Told {
        words: &["accq", "explore", "writers", "--depth=3"],
        input: b"",
        status: 0,
        output: ENDS_OF_WRITERS,
        errors: b"",
    },
    Told {
        words: &["accq", "explore", "writers", "--depth=4"],
        input: b"",
        status: 0,
        output: ENDS_OF_WRITERS,
        errors: b"",
    },
    Told {
        words: &["accq", "explore", "writers", "--depth=1000000"],
        input: b"",
        status: 0,
        output: ENDS_OF_WRITERS,
        errors: b"",
    },
    // the start, two states behind it and three behind these; with one state fewer it stops at the second of the two
    Told {
        words: &["accq", "explore", "writers", "--depth=2", "--states=6"],
        input: b"",
        status: 0,
        output: b"# prefix 1\nhost 0\nhost 1\n# prefix 2\nhost 1\nhost 0\n# prefix 3\nhost 1 2\n3 prefixes, all schedules\n",
        errors: b"",
    },
    Told {
        words: &["accq", "explore", "writers", "--depth=2", "--states=5"],
        input: b"",
        status: 3,
        output: b"# prefix 1\nhost 1\n# prefix 2\nhost 0\nhost 1\n# prefix 3\nhost 1\nhost 0\n3 prefixes, all schedules, stopped less deep\n",
        errors: b"",
    },
    // nothing but the start is kept, and its schedule says nothing
    Told {
        words: &["accq", "explore", "writers", "--depth=1", "--states=1"],
        input: b"",
        status: 3,
        output: b"# prefix 1\n1 prefix, all schedules, stopped less deep\n",
        errors: b"",
    },
    // the start is the end
    Told {
        words: &["accq", "explore", "both", "--depth=5", "--states=1"],
        input: b"",
        status: 0,
        output: b"# prefix 1\n1 prefix, all schedules\n",
        errors: b"",
    },
    // four events lead to the one end, and seven to the other
    Told {
        words: &["accq", "explore", "--room=1", "--depth=6", "script"],
        input: b"",
        status: 0,
        output: b"# prefix 1\nhost 0 2\ntake 0 1\ndo 0 1\n# prefix 2\nhost 0\ntake 0 1\ndo 0 1\nhost 0\ntake 0 1\ndo 0 1\n2 prefixes, all schedules\n",
        errors: b"",
    },
    // behind a schedule, and with other options
    Told {
        words: &["accq", "explore", "writers", "one_step", "--depth=1"],
        input: b"",
        status: 0,
        output: b"# prefix 1\ntake 0 sync\n\nhost 0\n# prefix 2\ntake 0 sync\n\nhost 1\n2 prefixes, all schedules\n",
        errors: b"",
    },
    Told {
        words: &["accq", "explore", "script", "--depth=2", "--devices=2"],
        input: b"",
        status: 0,
        output: b"# prefix 1\nhost 0 2\n1 prefix, all schedules\n",
        errors: b"",
    },
    // the owner may close at first too, or what a host does
    Told {
        words: &["accq", "explore", "writers", "--depth=1", "--close"],
        input: b"",
        status: 0,
        output: b"# prefix 1\nhost 0\n# prefix 2\nhost 1\n# prefix 3\nclose\n3 prefixes, all schedules\n",
        errors: b"",
    },
    Told {
        words: &["accq", "explore", "empty", "faulty", "--depth=1"],
        input: b"",
        status: 2,
        output: b"",
        errors: b"accq: schedule line 1: Form\n",
    },
    Told {
        words: &["accq", "explore", "faulty", "--depth=1"],
        input: b"",
        status: 2,
        output: b"",
        errors: b"accq: script line 1: Form\n",
    },
    Told {
        words: &["accq", "explore", "writers", "missing", "--depth=1"],
        input: b"",
        status: 3,
        output: b"",
        errors: b"accq: cannot read\n",
    },
];

/// Who writes last, and prints: the second host behind the first, the first behind the second, and the first behind what was printed.
const ENDS_OF_WRITERS: &[u8] =
    b"# prefix 1\nhost 0\nhost 1 2\n# prefix 2\nhost 1\nhost 0\nhost 1\n# prefix 3\nhost 1 2\nhost 0\n3 prefixes, all schedules\n";

/// The reports behind each prefix of two events: of the two that there are in all, each behind one or two of them.
const BEHIND_PREFIXES: &[Told] = &[
    Told {
        words: &["accq", "explore", "writers", "--short"],
        input: b"",
        status: 1,
        output: b"host 0;done;host 1;2;done;end;\nhost 0;done;host 1;1;done;end;\n",
        errors: b"",
    },
    Told {
        words: &["accq", "explore", "writers", "first_prefix", "--short"],
        input: b"",
        status: 0,
        output: b"host 0;done;host 1;2;done;end;\n",
        errors: b"",
    },
    Told {
        words: &["accq", "explore", "writers", "second_prefix", "--short"],
        input: b"",
        status: 0,
        output: b"host 0;done;host 1;1;done;end;\n",
        errors: b"",
    },
    Told {
        words: &["accq", "explore", "writers", "third_prefix", "--short"],
        input: b"",
        status: 0,
        output: b"host 0;done;host 1;2;done;end;\n",
        errors: b"",
    },
    Told {
        words: &["accq", "explore", "writers", "second_prefix"],
        input: b"",
        status: 0,
        output: b"# schedule 1\nhost 1\nhost 0\n\nhost 1\n# report 1\nhost 0\ndone\nhost 1\n1\ndone\nend\n1 report, 2 states, all schedules\n",
        errors: b"",
    },
];

#[test]
fn prefixes_have_their_status(rt: HostRuntime) -> Result<(), Fail> {
    for case in PREFIXES {
        check_case(&rt, rt.alloc(), case);
    }
    Ok(())
}

#[test]
fn reports_behind_prefixes_are_all_reports(rt: HostRuntime) -> Result<(), Fail> {
    for case in BEHIND_PREFIXES {
        check_case(&rt, rt.alloc(), case);
    }
    Ok(())
}

#[test]
fn explorations_of_files_have_their_status(rt: HostRuntime) -> Result<(), Fail> {
    for case in EXPLORATIONS {
        check_case(&rt, rt.alloc(), case);
    }
    Ok(())
}

/// An output that takes nothing, one that ends within what is told, and one that can't send on.
#[test]
fn explorations_that_do_not_go_out_have_status_three(rt: HostRuntime) -> Result<(), Fail> {
    let words: &[&str] = &["accq", "explore", "script"];
    check_writers(&rt, rt.alloc(), words, 90);
    let words: &[&str] = &["accq", "explore", "writers", "--depth=2"];
    check_narrow(&rt, rt.alloc(), words, 30);
    Ok(())
}
