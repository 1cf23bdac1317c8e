//! The queue of each batch, the batches that it awaits, and what waits place and count, from tables
//! by hand, as the rules of asynchronous queues have them.

ghost use Rattle.std.specs.Prelude.{IfOk};
ghost use Rattle.acc_place.specs.Plans.{Fits};

use crate::fixtures::{answer, check_labels, check_ops, check_same, directive_with, place_with};
use crate::tables::Cells::{self, A, B};
use crate::tables::Deed::{self, Await, In, Make, Out, Release, Run};
use crate::tables::Named::{self, All, Nothing, These};
use crate::tables::Word::{
    self, Data, End, Enter, Exit, Over, Test, Update, UpdateIfPresent, Wait,
};
use Answer::{Counts, NoBatch, Placing};
use acc_base::{DeviceId, Fault, HostId, QueueAt};
use acc_batch::{Batch, Label};
use acc_place::Clause::{self, Copyin, Copyout, Create, Delete, Present, UpdateDevice, UpdateSelf};
use acc_place::{ASYNC_NOVAL, ASYNC_SYNC, Directive, Place, Placed, Plan, Target};
use std::alloc::Global;
use std::process::Abort;
use std::test::Fail;
use tool_directives::{counts_of, queue};
use tool_loops::Body;

/// How a directive is answered.
#[derive(Clone, Copy)]
pub(crate) enum Answer {
    NoBatch,
    /// By its batch, with the queue of the directive's device and the number there.
    Placing(u8, u64),
    /// By the counts of these queues.
    Counts(&'static [(u8, u64)]),
}

/// A directive of a host, whose default async value is given, for a device; its answer, and the operations of its batch.
#[derive(Clone, Copy)]
pub(crate) struct Case {
    pub(crate) host: u8,
    pub(crate) device: u8,
    pub(crate) default: i64,
    pub(crate) target: Target,
    pub(crate) waits: Named,
    pub(crate) word: Word,
    pub(crate) items: &'static [(Clause, Cells)],
    pub(crate) answer: Answer,
    pub(crate) ops: &'static [Deed],
}

/// A wait of the first host for the first device, without clauses, that places nothing.
pub(crate) const PLAIN: Case = Case {
    host: 0,
    device: 0,
    default: ASYNC_NOVAL,
    target: Target::Plain,
    waits: Nothing,
    word: Wait,
    items: &[],
    answer: NoBatch,
    ops: &[],
};

/// The same with an async clause.
pub(crate) const ON_1: Case = Case {
    target: Target::Value { value: 1 },
    ..PLAIN
};

const ON_2: Case = Case {
    target: Target::Value { value: 2 },
    ..PLAIN
};

const ON_3: Case = Case {
    target: Target::Value { value: 3 },
    ..PLAIN
};

pub(crate) fn directive_for(alloc: Global, case: &Case) -> Result<Box<Directive>, Fault> {
    let mut directive = directive_with(alloc, case.word, case.items, case.target, case.waits)?;
    directive.set_ids(DeviceId::new(case.device), case.default);
    Ok(directive)
}

fn plan_for(alloc: Global, place: &mut Place, case: &Case) -> Result<Plan, Fault>
    ensures { IfOk result (λ q. Fits place.new q) }
{
    let directive = directive_for(alloc, case)?;
    place.plan(HostId::new(case.host), 0, &directive)
}

fn answer_of(case: &Case) -> Placed {
    match case.answer {
        NoBatch => answer(None, false),
        Placing(number, batch) => answer(Some((queue(case.device, number), batch)), false),
        Counts(counts) => Placed {
            batch: None,
            counts: counts_of(counts),
            present: false,
        },
    }
}

// The batch, if there are operations, has these.
pub(crate) fn check_batch(rt: &impl Abort, batch: Option<Batch>, wanted: &[Deed]) {
    match batch {
        None => assert!(rt; wanted.is_empty(), "no batch"),
        Some(batch) => {
            assert!(rt; !wanted.is_empty(), "a batch");
            let (label, ops, _page) = batch.into_parts();
            check_labels(rt, label.value().ops.get().as_slice(), wanted);
            check_ops(rt, ops, wanted);
        }
    }
}

fn is_labelled(label: &Label, at: &QueueAt, number: u64, host: u8) -> bool {
    label.at == *at && label.number == number && label.host == HostId::new(host)
}

// The batch of a case is the last one of its queue.
fn check_placed(rt: &impl Abort, place: &Place, case: &Case) {
    if let Placing(at, number) = case.answer {
        let at = queue(case.device, at);
        match place.placed(at, number) {
            Some(label) => {
                assert!(rt;
                    is_labelled(label, &at, number, case.host),
                    "batch {number}"
                );
                check_labels(rt, label.ops.get().as_slice(), case.ops);
            }
            None => panic!(rt; "no batch {number}"),
        }
        assert!(rt; place.placed_count(at) == number, "batch {number}");
        check_same(rt, place.labels_on(at).len() as u64, number);
    }
}

// The answer of a case is kept as the last one, beside its count.
fn check_kept(rt: &impl Abort, place: &Place, case: &Case) {
    match place.answers().last() {
        Some(kept) => check_same(rt, kept.placed(), answer_of(case)),
        None => panic!(rt; "no answer is kept"),
    }
    check_same(rt, place.answers().len(), place.counts().len());
}

// Accepts a case, and looks at its batch and its answer.
pub(crate) fn check_case(
    rt: &impl Abort,
    alloc: Global,
    place: &mut Place,
    case: &Case,
) -> Result<(), Fault> {
    let mut plan = plan_for(alloc, place, case)?;
    check_batch(rt, plan.take_batch(), case.ops);
    let answer = place.accept(plan);
    check_same(rt, answer, answer_of(case));
    check_placed(rt, place, case);
    check_kept(rt, place, case);
    Ok(())
}

// Accepts each of the cases in turn.
pub(crate) fn accept_cases(
    rt: &impl Abort,
    alloc: Global,
    place: &mut Place,
    cases: &[Case],
) -> Result<(), Fault> {
    for case in cases {
        check_case(rt, alloc, place, case)?;
    }
    Ok(())
}

// A place of two devices and two hosts.
pub(crate) fn place_of(alloc: Global) -> Result<Box<Place>, Fault> {
    place_with(alloc, 2, 8)
}

// Accepts each of the cases in turn, on a new place.
fn check_cases(rt: &impl Abort, alloc: Global, cases: &[Case]) -> Result<(), Fail> {
    let mut place = place_of(alloc)?;
    Ok(accept_cases(rt, alloc, &mut place, cases)?)
}

/// A loop on another queue awaits the maker of its block, and what releases the block awaits the loop.
#[test]
fn a_release_awaits_the_loop_that_awaits_the_maker(rt: HostRuntime) -> Result<(), Fail> {
    const ALL: Cells = A(0, 8);
    const CASES: &[Case] = &[
        Case {
            word: Enter,
            items: &[(Create, ALL)],
            answer: Placing(3, 1),
            ops: &[Make(1, ALL)],
            ..ON_1
        },
        Case {
            word: Over(0, 2, Body::Counted),
            items: &[(Present, ALL)],
            answer: Placing(4, 1),
            ops: &[Await(3, 1), Run(&[(1, ALL)])],
            ..ON_2
        },
        Case {
            word: Exit,
            items: &[(Copyout, ALL)],
            answer: Placing(3, 2),
            ops: &[Await(4, 1), Out(1, ALL), Release(1)],
            ..ON_1
        },
    ];
    check_cases(&rt, rt.alloc(), CASES)
}

/// A use awaits the batch that made its block, wherever that was awaited before, and no use; none awaits its own queue. A
/// release awaits the last batch of each other queue that made or used the block.
#[test]
fn uses_await_the_maker_and_not_the_uses(rt: HostRuntime) -> Result<(), Fail> {
    const ALL: Cells = A(0, 8);
    const COUNTED: Word = Over(0, 2, Body::Counted);
    const CASES: &[Case] = &[
        Case {
            word: Enter,
            items: &[(Copyin, ALL)],
            answer: Placing(3, 1),
            ops: &[Make(1, ALL), In(1, ALL)],
            ..ON_1
        },
        Case {
            word: COUNTED,
            items: &[(Present, ALL)],
            answer: Placing(4, 1),
            ops: &[Await(3, 1), Run(&[(1, ALL)])],
            ..ON_2
        },
        Case {
            word: COUNTED,
            items: &[(Present, ALL)],
            answer: Placing(5, 1),
            ops: &[Await(3, 1), Run(&[(1, ALL)])],
            ..ON_3
        },
        Case {
            word: Update,
            items: &[(UpdateSelf, A(0, 2))],
            answer: Placing(4, 2),
            ops: &[Await(3, 1), Out(1, A(0, 2))],
            ..ON_2
        },
        Case {
            word: Update,
            items: &[(UpdateDevice, A(1, 1))],
            answer: Placing(3, 2),
            ops: &[In(1, A(1, 1))],
            ..ON_1
        },
        Case {
            word: Exit,
            items: &[(Delete, ALL)],
            answer: Placing(4, 3),
            ops: &[Await(3, 2), Await(5, 1), Release(1)],
            ..ON_2
        },
    ];
    check_cases(&rt, rt.alloc(), CASES)
}

/// A data construct's end is on queue sync, and awaits what used its block on another queue.
#[test]
fn a_constructs_end_awaits_other_queues(rt: HostRuntime) -> Result<(), Fail> {
    const CASES: &[Case] = &[
        Case {
            word: Data,
            items: &[(Copyin, A(0, 4))],
            answer: Placing(0, 1),
            ops: &[Make(1, A(0, 4)), In(1, A(0, 4))],
            ..PLAIN
        },
        Case {
            word: Update,
            items: &[(UpdateSelf, A(0, 1))],
            answer: Placing(3, 1),
            ops: &[Await(0, 1), Out(1, A(0, 1))],
            ..ON_1
        },
        Case {
            word: End,
            answer: Placing(0, 2),
            ops: &[Await(3, 1), Release(1)],
            ..PLAIN
        },
    ];
    check_cases(&rt, rt.alloc(), CASES)
}

/// A wait with async places its awaits alone, and nothing where there are none; one that holds its host back places nothing,
/// and is answered by counts.
#[test]
fn waits_place_their_awaits_alone(rt: HostRuntime) -> Result<(), Fail> {
    const ONE: Named = These(&[1]);
    const OTHER: Named = These(&[3]);
    const CASES: &[Case] = &[
        Case {
            word: Enter,
            items: &[(Create, B(0, 1))],
            answer: Placing(3, 1),
            ops: &[Make(1, B(0, 1))],
            ..ON_1
        },
        Case {
            waits: OTHER,
            answer: Counts(&[]),
            ..PLAIN
        },
        Case {
            waits: ONE,
            answer: Counts(&[(3, 1)]),
            ..PLAIN
        },
        Case {
            waits: ONE,
            answer: Placing(4, 1),
            ops: &[Await(3, 1)],
            ..ON_2
        },
        Case {
            waits: All,
            answer: Placing(4, 2),
            ops: &[Await(3, 1)],
            ..ON_2
        },
        Case {
            waits: OTHER,
            ..ON_2
        },
        Case { waits: ONE, ..ON_1 },
        Case {
            default: 1,
            target: Target::Unvalued,
            waits: ONE,
            ..PLAIN
        },
        Case {
            target: Target::Value { value: ASYNC_SYNC },
            waits: All,
            answer: Counts(&[(3, 1), (4, 2)]),
            ..PLAIN
        },
        Case {
            waits: These(&[2, 1]),
            answer: Placing(5, 1),
            ops: &[Await(3, 1), Await(4, 2)],
            ..ON_3
        },
    ];
    check_cases(&rt, rt.alloc(), CASES)
}

/// Each device has its own blocks, queues and numbers, whichever host they are of, and a wait or a question is about its own
/// device's.
#[test]
fn hosts_share_the_queues_of_each_device(rt: HostRuntime) -> Result<(), Fail> {
    const HELD: Cells = A(0, 4);
    const BOTH: Named = These(&[1, 2]);
    const CASES: &[Case] = &[
        Case {
            word: Enter,
            items: &[(Create, HELD)],
            answer: Placing(3, 1),
            ops: &[Make(1, HELD)],
            ..ON_1
        },
        Case {
            host: 1,
            device: 1,
            word: Enter,
            items: &[(Create, HELD)],
            answer: Placing(3, 1),
            ops: &[Make(1, HELD)],
            ..ON_1
        },
        Case {
            host: 1,
            word: Enter,
            items: &[(Copyin, B(0, 2))],
            answer: Placing(3, 2),
            ops: &[Make(2, B(0, 2)), In(2, B(0, 2))],
            ..ON_1
        },
        Case {
            device: 1,
            word: Update,
            items: &[(UpdateDevice, A(0, 2))],
            answer: Placing(4, 1),
            ops: &[Await(3, 1), In(1, A(0, 2))],
            ..ON_2
        },
        Case {
            waits: BOTH,
            answer: Counts(&[(3, 2)]),
            ..PLAIN
        },
        Case {
            device: 1,
            waits: BOTH,
            answer: Counts(&[(3, 1), (4, 1)]),
            ..PLAIN
        },
        Case {
            host: 1,
            device: 1,
            waits: These(&[2]),
            word: Test,
            answer: Counts(&[(4, 1)]),
            ..PLAIN
        },
        Case {
            host: 1,
            waits: All,
            word: Test,
            answer: Counts(&[(3, 2)]),
            ..PLAIN
        },
        Case {
            device: 1,
            word: Exit,
            items: &[(Delete, HELD)],
            answer: Placing(3, 2),
            ops: &[Await(4, 1), Release(1)],
            ..ON_1
        },
        Case {
            host: 1,
            waits: All,
            word: Exit,
            items: &[(Delete, HELD)],
            answer: Placing(0, 1),
            ops: &[Await(3, 2), Release(1)],
            ..PLAIN
        },
    ];
    check_cases(&rt, rt.alloc(), CASES)
}

/// A wait clause adds its awaits to those of the blocks, one await for each queue; a batch without other operations is none.
#[test]
fn a_wait_clause_needs_a_batch(rt: HostRuntime) -> Result<(), Fail> {
    const WAIT: Case = Case {
        waits: These(&[1]),
        ..ON_2
    };
    const CASES: &[Case] = &[
        Case {
            word: Enter,
            items: &[(Create, A(0, 4))],
            answer: Placing(3, 1),
            ops: &[Make(1, A(0, 4))],
            ..ON_1
        },
        Case {
            word: UpdateIfPresent,
            items: &[(UpdateSelf, B(0, 1))],
            ..WAIT
        },
        Case {
            word: Exit,
            items: &[(Delete, B(0, 1))],
            ..WAIT
        },
        Case {
            word: UpdateIfPresent,
            items: &[(UpdateSelf, A(0, 1)), (UpdateSelf, B(0, 1))],
            answer: Placing(4, 1),
            ops: &[Await(3, 1), Out(1, A(0, 1))],
            ..WAIT
        },
        Case {
            word: Enter,
            items: &[(Create, B(0, 1))],
            answer: Placing(3, 2),
            ops: &[Make(2, B(0, 1))],
            ..ON_1
        },
        // all that is on queue 1, and not the maker alone
        Case {
            word: Update,
            items: &[(UpdateSelf, A(1, 1))],
            answer: Placing(4, 2),
            ops: &[Await(3, 2), Out(1, A(1, 1))],
            ..WAIT
        },
    ];
    check_cases(&rt, rt.alloc(), CASES)
}
