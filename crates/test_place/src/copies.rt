//! Directives with each form of clauses are copied, without memory, while the contract lets a copy
//! be refused.

use crate::fixtures::{a, directive_with, synchronous};
use crate::tables::Cells::{self, A, B};
use crate::tables::Named::{self, All, Nothing, These};
use crate::tables::Word::{self, Enter, Exit, Over, Update};
use crate::tables::{items_of, waits_of};
use acc_base::{DeviceId, Fault};
use acc_place::Clause::{self, Copyin, Copyout, Create, Delete, UpdateDevice, UpdateSelf};
use acc_place::{ASYNC_NOVAL, DataItem, Directive, Target, Waits};
use std::alloc::Global;
use std::process::Abort;
use std::test::Fail;
use tool_directives::{Form, directive_of};
use tool_loops::Body;
use tool_scarce::at_each_amount;

/// A directive with its async clause and its items.
type Given = (Word, Target, &'static [(Clause, Cells)]);

const GIVEN: &[Given] = &[
    (
        Enter,
        Target::Plain,
        &[(Copyin, A(1, 2)), (Create, B(3, 4)), (Copyin, A(5, 0))],
    ),
    (
        Exit,
        Target::Unvalued,
        &[(Copyout, A(1, 2)), (Delete, B(3, 4)), (Delete, A(5, 0))],
    ),
    (
        Update,
        Target::Value { value: i64::MAX },
        &[
            (UpdateSelf, A(1, 2)),
            (UpdateDevice, B(3, 4)),
            (UpdateSelf, A(5, 0)),
        ],
    ),
    (
        Over(-3, 65_536, Body::Next),
        Target::Value { value: 5 },
        &[(Copyin, A(1, 2)), (Copyout, B(3, 4)), (Create, A(5, 0))],
    ),
];

/// Each wait clause.
const WAITS: &[Named] = &[Nothing, All, These(&[]), These(&[5, ASYNC_NOVAL, i64::MIN])];

fn are_same_waits(waits: &Waits, wanted: &Waits) -> bool {
    match (waits, wanted) {
        (Waits::Nothing, Waits::Nothing) | (Waits::All, Waits::All) => true,
        (Waits::Listed { values }, Waits::Listed { values: wanted }) => {
            values.as_slice() == wanted.as_slice()
        }
        _ => false,
    }
}

fn has_clauses(directive: &Directive, items: &[DataItem], target: Target, waits: &Waits) -> bool {
    directive.items().as_slice() == items
        && directive.target() == target
        && are_same_waits(directive.waits(), waits)
}

// The copy of a directive is the same, and has its clauses.
fn check_copy(
    rt: &impl Abort,
    alloc: Global,
    directive: &Directive,
    given: &Given,
    named: Named,
) -> Result<(), Fault> {
    let (_, target, items) = *given;
    let items = items_of(alloc, items)?;
    let waits = waits_of(alloc, named)?;
    let copy = directive.try_clone()?;
    assert!(rt; copy.is_same(directive));
    assert!(rt; has_clauses(&copy, items.as_slice(), target, &waits));
    Ok(())
}

fn check_copied(rt: &impl Abort, alloc: Global, given: &Given, named: Named) -> Result<(), Fault> {
    let (word, target, items) = *given;
    let directive = directive_with(alloc, word, items, target, named)?;
    check_copy(rt, alloc, &directive, given, named)
}

/// With each async clause, and each wait clause.
#[test]
fn directives_are_copied(rt: HostRuntime) -> Result<(), Fail> {
    for given in GIVEN {
        for named in WAITS {
            check_copied(&rt, rt.alloc(), given, *named)?;
        }
    }
    Ok(())
}

// A copy for device 3, of a directive for the first.
fn copy_elsewhere(
    rt: &impl Abort,
    alloc: Global,
    word: Word,
    items: &[(Clause, Cells)],
) -> Result<Directive, Fault> {
    let directive = directive_with(alloc, word, items, Target::Plain, Nothing)?;
    let mut copy = directive.try_clone()?;
    copy.set_ids(DeviceId::new(3), 7);
    assert!(rt; directive.device() == DeviceId::new(0));
    assert!(rt; copy.device() == DeviceId::new(3));
    Ok(copy)
}

fn check_elsewhere(rt: &impl Abort, alloc: Global) -> Result<(), Fault> {
    const WORD: Word = Over(0, 4, Body::Counted);
    const ITEMS: &[(Clause, Cells)] = &[(Copyin, A(1, 2)), (Copyout, B(3, 4))];
    let copy = copy_elsewhere(rt, alloc, WORD, ITEMS)?;
    let mut wanted = synchronous(alloc, WORD, ITEMS)?;
    wanted.set_ids(DeviceId::new(3), 7);
    assert!(rt; copy.is_same(&wanted));
    Ok(())
}

/// A new directive is for the first device. A copy has a device of its own, and outlasts the directive.
#[test]
fn copies_have_devices_of_their_own(rt: HostRuntime) -> Result<(), Fail> {
    Ok(check_elsewhere(&rt, rt.alloc())?)
}

fn check_scarce(rt: &impl Abort, alloc: Global) -> Result<(), Fault> {
    let entered = DataItem {
        clause: Copyin,
        range: a(1, 2),
    };
    let two = [entered; 2];
    let (refusals, directive) = at_each_amount(alloc, || {
        directive_of(alloc, Form::EnterData, &two, Target::Plain, Waits::Nothing)
    })?;
    assert!(rt; 0 < refusals);
    let wanted = synchronous(alloc, Enter, &[(Copyin, A(1, 2)); 2])?;
    assert!(rt; directive.is_same(&wanted));
    Ok(())
}

fn check_scarce_copy(rt: &impl Abort, alloc: Global) -> Result<(), Fault> {
    let directive = directive_with(
        alloc,
        Over(0, 1, Body::Counted),
        &[(Copyin, A(1, 2)); 16],
        Target::Unvalued,
        These(&[7; 30]),
    )?;
    let (refusals, copy) = at_each_amount(alloc, || directive.try_clone())?;
    assert!(rt; refusals == 0, "{refusals} refusals");
    assert!(rt; copy.is_same(&directive));
    Ok(())
}

/// A directive takes memory, and its copy none, whatever is written. Up to two items of a directive are no list.
#[test]
fn directives_are_refused_until_there_is_memory(rt: HostRuntime) -> Result<(), Fail> {
    check_scarce(&rt, rt.alloc())?;
    check_scarce_copy(&rt, rt.alloc())?;
    Ok(())
}
