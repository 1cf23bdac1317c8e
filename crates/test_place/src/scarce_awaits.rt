//! A batch with awaits, where memory is refused.

use crate::fixtures::answer;
use crate::memory::plan_at_each_amount;
use crate::queues::Answer::Placing;
use crate::queues::{
    Case, ON_1, PLAIN, accept_cases, check_batch, check_case, directive_for, place_of,
};
use crate::tables::Cells::A;
use crate::tables::Deed::{Await, Make, Out, Release};
use crate::tables::Word::{Enter, Exit, Update};
use acc_base::Fault;
use acc_place::Clause::{Create, Delete, UpdateSelf};
use acc_place::{Place, Target};
use std::alloc::Global;
use std::process::Abort;
use std::test::Fail;

/// A copy out of a block that was made on queue 1.
const USE: Case = Case {
    word: Update,
    items: &[(UpdateSelf, A(0, 1))],
    ops: &[Await(3, 1), Out(1, A(0, 1))],
    ..PLAIN
};

/// The block is made, and used on each queue behind that.
const USES: &[Case] = &[
    Case {
        word: Enter,
        items: &[(Create, A(0, 4))],
        answer: Placing(3, 1),
        ops: &[Make(1, A(0, 4))],
        ..ON_1
    },
    Case {
        target: Target::Value { value: 2 },
        answer: Placing(4, 1),
        ..USE
    },
    Case {
        target: Target::Value { value: 3 },
        answer: Placing(5, 1),
        ..USE
    },
    Case {
        target: Target::Value { value: 4 },
        answer: Placing(6, 1),
        ..USE
    },
    Case {
        target: Target::Value { value: 5 },
        answer: Placing(7, 1),
        ..USE
    },
];

// Behind the uses a case is planned once there is memory, and then accepted by a plan of its own.
pub(crate) fn check_scarce(
    rt: &impl Abort,
    alloc: Global,
    place: &mut Place,
    case: &Case,
) -> Result<(), Fault> {
    accept_cases(rt, alloc, place, USES)?;
    let directive = directive_for(alloc, case)?;
    let mut plan = plan_at_each_amount(rt, alloc, place, case.host, &directive)?;
    check_batch(rt, plan.take_batch(), case.ops);
    check_case(rt, alloc, place, case)
}

/// A release that awaits four queues is planned once there is memory.
#[test]
fn a_batch_with_four_awaits_is_refused_until_there_is_memory(rt: HostRuntime) -> Result<(), Fail> {
    const EXIT: Case = Case {
        word: Exit,
        items: &[(Delete, A(0, 4))],
        answer: Placing(3, 2),
        ops: &[
            Await(4, 1),
            Await(5, 1),
            Await(6, 1),
            Await(7, 1),
            Release(1),
        ],
        ..ON_1
    };
    let mut place = place_of(rt.alloc())?;
    Ok(check_scarce(&rt, rt.alloc(), &mut place, &EXIT)?)
}
