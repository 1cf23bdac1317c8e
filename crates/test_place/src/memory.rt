//! Plans at each amount of memory from none on: to the contract each may be refused, and here one
//! is made at last; accepting it takes no more.

use crate::fixtures::{
    Shown, accept_each, accepted, answer, check_batch, check_present, place_of, planned, shown_by,
    synchronous,
};
use crate::tables::Cells::{A, B};
use crate::tables::Deed::{In, Make, Out, Release, Run};
use crate::tables::Step;
use crate::tables::Word::{Ask, Data, End, Enter, Exit, Finalize, Over, Update};
use acc_base::{Config, Fault, HostId};
use acc_place::Clause::{Copy, Copyin, Copyout, Create, Delete, Present, UpdateDevice, UpdateSelf};
use acc_place::{Directive, Place, Placed, Plan};
use std::alloc::Global;
use std::process::Abort;
use std::test::Fail;
use tool_directives::sync;
use tool_loops::Body;
use tool_scarce::{Hoard, at_each_amount};

fn new_place(alloc: Global) -> Result<Place, Fault> {
    let config = Config::new(alloc, 1, 0, Vec::new(alloc), 12, 64)?;
    Place::new(alloc, config)
}

fn check_new_place(rt: &impl Abort, place: &Place) {
    assert!(rt; place.config().capacity() == 12);
    assert!(rt; place.history().is_empty());
    assert!(rt; place.placed_count(sync()) == 0);
    check_present(rt, place, &[]);
}

#[test]
fn a_new_place_is_refused_until_there_is_memory(rt: HostRuntime) -> Result<(), Fail> {
    let alloc = rt.alloc();
    let (refusals, place) = at_each_amount(alloc, || new_place(alloc))?;
    assert!(rt; 1 < refusals);
    check_new_place(&rt, &place);
    Ok(())
}

// Accepts a directive for which there is memory only until it is planned.
fn accepted_scarcely(
    alloc: Global,
    place: &mut Place,
    directive: &Directive,
) -> Result<Placed, Fault> {
    let plan = place.plan(HostId::new(0), 0, directive)?;
    let mut hoard = Hoard::new(alloc)?;
    hoard.fill(alloc);
    let placed = place.accept(plan);
    hoard.free();
    Ok(placed)
}

// Three ranges enter a new place so.
fn check_accepting(rt: &impl Abort, alloc: Global, place: &mut Place) -> Result<(), Fault> {
    let items = [(Copyin, A(4, 4)), (Copyin, A(0, 4)), (Copyin, B(0, 4))];
    let directive = synchronous(alloc, Enter, &items)?;
    let placed = accepted_scarcely(alloc, place, &directive)?;
    assert!(rt; placed == answer(Some((sync(), 1)), false));
    check_present(
        rt,
        place,
        &[(A(0, 4), 2, 0, 1), (A(4, 4), 1, 0, 1), (B(0, 4), 3, 0, 1)],
    );
    Ok(())
}

#[test]
fn accepting_takes_no_memory(rt: HostRuntime) -> Result<(), Fail> {
    let mut place = place_of(rt.alloc(), 12)?;
    Ok(check_accepting(&rt, rt.alloc(), &mut place)?)
}

/// How often a place was asked for a plan, and how often it then showed something else than before.
#[derive(Clone, Copy)]
struct Tried {
    times: u32,
    changes: u32,
}

// Asks for a plan of a directive, and counts it.
fn try_plan(
    rt: &impl Abort,
    place: &mut Place,
    host: u8,
    directive: &Directive,
    shown: &Shown,
    tries: &mut Tried,
) -> Result<Plan, Fault> {
    let answer = planned(place, host, directive);
    tries.times = tries.times.wrapping_add(1);
    if shown_by(rt, place) != *shown {
        tries.changes = tries.changes.wrapping_add(1);
    }
    answer
}

fn check_tries(rt: &impl Abort, tries: Tried, refusals: u32) {
    assert!(rt; 8 < refusals, "{refusals} refusals");
    assert!(rt; tries.times == refusals.wrapping_add(1));
    assert!(rt; tries.changes == 0);
}

// Plans a host's directive with each amount of memory: as long as it is refused, the place shows what it showed.
pub fn plan_at_each_amount(
    rt: &impl Abort,
    alloc: Global,
    place: &mut Place,
    host: u8,
    directive: &Directive,
) -> Result<Box<Plan>, Fault> {
    let shown = shown_by(rt, place);
    let mut tries = Tried {
        times: 0,
        changes: 0,
    };
    let (refusals, plan) = at_each_amount(alloc, || {
        try_plan(rt, place, host, directive, &shown, &mut tries)
    })?;
    check_tries(rt, tries, refusals);
    Ok(Box::new(alloc, plan)?)
}

// The answer to a step: its batch, with this number, or to a question that the range is present.
fn answer_to(step: &Step, number: u64) -> Placed {
    let is_question = step.ops.is_empty();
    let batch = if is_question {
        None
    } else {
        Some((sync(), number))
    };
    answer(batch, is_question)
}

// Accepts a step, whose batch has this number.
fn check_accepted(
    rt: &impl Abort,
    alloc: Global,
    place: &mut Place,
    step: &Step,
    number: u64,
) -> Result<(), Fault> {
    let placed = accepted(alloc, place, step.host, step.word, step.items)?;
    assert!(rt; placed == answer_to(step, number));
    check_present(rt, place, step.present);
    Ok(())
}

// A step, behind so many others that each have a batch, is planned once there is memory.
fn check_plan(
    rt: &impl Abort,
    alloc: Global,
    place: &mut Place,
    step: &Step,
    before: u64,
) -> Result<(), Fault> {
    let directive = synchronous(alloc, step.word, step.items)?;
    let mut plan = plan_at_each_amount(rt, alloc, place, step.host, &directive)?;
    check_batch(rt, plan.take_batch(), step, before.wrapping_add(1), before);
    Ok(())
}

/// Steps that each have a batch, and one behind them.
type Last = (&'static [Step], Step);

// The last step is planned once there is memory, and then accepted by a plan of its own.
fn check_last(rt: &impl Abort, alloc: Global, place: &mut Place, case: &Last) -> Result<(), Fault> {
    let (steps, last) = case;
    let before = steps.len() as u64;
    accept_each(alloc, place, steps)?;
    assert!(rt; place.placed_count(sync()) == before);
    check_plan(rt, alloc, place, last, before)?;
    check_accepted(rt, alloc, place, last, before.wrapping_add(1))
}

fn check(rt: &impl Abort, alloc: Global, cases: &[Last]) -> Result<(), Fail> {
    for case in cases {
        let mut place = place_of(alloc, 12)?;
        check_last(rt, alloc, &mut place, case)?;
    }
    Ok(())
}

/// A data construct is entered.
const OUTER: Step = Step {
    host: 0,
    word: Data,
    items: &[(Copy, A(0, 3)), (Create, B(2, 2))],
    ops: &[Make(1, A(0, 3)), Make(2, B(2, 2)), In(1, A(0, 3))],
    present: &[(A(0, 3), 1, 1, 0), (B(2, 2), 2, 1, 0)],
};

/// On a new place, and on one that has spare memory from the directives that it accepted.
#[test]
fn plans_are_refused_until_there_is_memory(rt: HostRuntime) -> Result<(), Fail> {
    const ENTER: Step = Step {
        host: 0,
        word: Enter,
        items: &[(Copyin, A(0, 3)), (Copyin, A(1, 1)), (Copyin, B(2, 2))],
        ops: &[
            Make(1, A(0, 3)),
            Make(2, B(2, 2)),
            In(1, A(0, 3)),
            In(2, B(2, 2)),
        ],
        present: &[(A(0, 3), 1, 0, 2), (B(2, 2), 2, 0, 1)],
    };
    const EXIT: Step = Step {
        host: 1,
        word: Exit,
        items: &[(Copyout, B(2, 2)), (Delete, A(0, 1)), (Copyout, A(1, 1))],
        ops: &[Out(2, B(2, 2)), Out(1, A(1, 1)), Release(2), Release(1)],
        present: &[],
    };
    const CASES: &[Last] = &[(&[], ENTER), (&[ENTER], EXIT)];
    check(&rt, rt.alloc(), CASES)
}

/// The same of a data construct and its end.
#[test]
fn plans_of_regions_are_refused_until_there_is_memory(rt: HostRuntime) -> Result<(), Fail> {
    const INNER: Step = Step {
        host: 0,
        word: Data,
        items: &[(Copyout, A(1, 1)), (Copyin, B(0, 2))],
        ops: &[Make(3, B(0, 2)), In(3, B(0, 2))],
        present: &[(A(0, 3), 1, 2, 0), (B(0, 2), 3, 1, 0), (B(2, 2), 2, 1, 0)],
    };
    const END: Step = Step {
        host: 0,
        word: End,
        items: &[],
        ops: &[Out(1, A(0, 3)), Release(1), Release(2)],
        present: &[],
    };
    const CASES: &[Last] = &[(&[], OUTER), (&[OUTER], INNER), (&[OUTER], END)];
    check(&rt, rt.alloc(), CASES)
}

/// The same of loops: with clauses and an implicit item, and in a data construct.
#[test]
fn plans_of_loops_are_refused_until_there_is_memory(rt: HostRuntime) -> Result<(), Fail> {
    const ALONE: Step = Step {
        host: 0,
        word: Over(0, 3, Body::Next),
        items: &[(Copyin, A(1, 3))],
        ops: &[
            Make(1, A(1, 3)),
            Make(2, B(0, 4)),
            In(1, A(1, 3)),
            In(2, B(0, 4)),
            Run(&[(2, B(0, 4)), (1, A(1, 3))]),
            Out(2, B(0, 4)),
            Release(1),
            Release(2),
        ],
        present: &[],
    };
    const INSIDE: Step = Step {
        host: 0,
        word: Over(0, 3, Body::Counted),
        items: &[],
        ops: &[Run(&[(1, A(0, 3))])],
        present: &[(A(0, 3), 1, 1, 0), (B(2, 2), 2, 1, 0)],
    };
    const CASES: &[Last] = &[(&[], ALONE), (&[OUTER], INSIDE)];
    check(&rt, rt.alloc(), CASES)
}

/// The same of updates, of an exit that ends all entries, and of a question, which has no batch.
#[test]
fn plans_of_updates_and_questions_are_refused_until_there_is_memory(
    rt: HostRuntime,
) -> Result<(), Fail> {
    const ENTER: Step = Step {
        host: 0,
        word: Enter,
        items: &[(Copyin, A(0, 3)), (Copyin, A(1, 1))],
        ops: &[Make(1, A(0, 3)), In(1, A(0, 3))],
        present: &[(A(0, 3), 1, 0, 2)],
    };
    const UPDATE: Step = Step {
        host: 1,
        word: Update,
        items: &[(UpdateSelf, A(0, 1)), (UpdateDevice, A(1, 2))],
        ops: &[Out(1, A(0, 1)), In(1, A(1, 2))],
        present: &[(A(0, 3), 1, 0, 2)],
    };
    const FINALIZE: Step = Step {
        host: 0,
        word: Finalize,
        items: &[(Copyout, A(1, 2))],
        ops: &[Out(1, A(1, 2)), Release(1)],
        present: &[],
    };
    const QUESTION: Step = Step {
        host: 0,
        word: Ask,
        items: &[(Present, A(2, 1))],
        ops: &[],
        present: &[(A(0, 3), 1, 0, 2)],
    };
    const CASES: &[Last] = &[
        (&[ENTER], UPDATE),
        (&[ENTER], FINALIZE),
        (&[ENTER], QUESTION),
    ];
    check(&rt, rt.alloc(), CASES)
}
