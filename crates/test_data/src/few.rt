//! Short lists that grow to a thousand items and shrink, and which of their calls take memory: to
//! the contract a push may be refused at any length.

use crate::fixtures::check_same;
use acc_base::{Fault, Few};
use std::alloc::Global;
use std::process::Abort;
use std::test::Fail;
use tool_scarce::at_each_amount;

/// Again when it was emptied, too.
#[test]
fn many_items_are_pushed_and_popped(rt: HostRuntime) -> Result<(), Fail> {
    let mut few = Few::new(rt.alloc());
    for _ in 0..2u32 {
        for n in 0..1_000u32 {
            few.push(n)?;
            check_same(&rt, few.as_slice().len(), n as usize + 1);
            check_same(&rt, few.as_slice().last().copied(), Some(n));
        }
        for n in 0..1_000u32 {
            check_same(&rt, few.as_slice().len(), 1_000 - n as usize);
            check_same(&rt, few.pop(), Some(999 - n));
        }
        check_same(&rt, few.pop(), None);
    }
    Ok(())
}

/// The items of a list, whether one more takes memory, and whether the list itself does.
const CASES: [(&[i64], bool, bool); 5] = [
    (&[], false, false),
    (&[1], false, false),
    (&[1, 2], true, false),
    (&[1, 2, 3], true, true),
    (
        &[1, 2, 3, 4, 5, 6, 7, 8, 9, 10, 11, 12, 13, 14, 15, 16, 17],
        true,
        true,
    ),
];

// Pushes an item, and counts it where the list then has other items than before though it was refused.
fn try_push(few: &mut Few<i64>, before: &[i64], changes: &mut u32) -> Result<(), Fault> {
    match few.push(99) {
        Ok(()) => Ok(()),
        Err(refused) => {
            if few.as_slice() != before {
                *changes = changes.wrapping_add(1);
            }
            Err(Fault::from(refused))
        }
    }
}

// Memory was refused, or not, to a list of these items.
fn check_refused(rt: &impl Abort, refusals: u32, is_refused: bool, items: &[i64]) {
    assert_eq!(rt; 0 < refusals, is_refused, "{items:?}");
}

// Pushes an item with each amount of memory: as long as it is refused, the list is as before.
fn check_push(
    rt: &impl Abort,
    alloc: Global,
    items: &[i64],
    is_refused: bool,
) -> Result<(), Fault> {
    let mut few = Few::from_slice(alloc, items)?;
    let mut changes = 0u32;
    let (refusals, ()) = at_each_amount(alloc, || try_push(&mut few, items, &mut changes))?;
    check_refused(rt, refusals, is_refused, items);
    assert_eq!(rt; changes, 0, "{items:?}");
    check_same(rt, few.pop(), Some(99));
    check_same(rt, few.as_slice(), items);
    Ok(())
}

#[test]
fn an_item_is_refused_until_there_is_memory(rt: HostRuntime) -> Result<(), Fail> {
    for (items, is_refused, _) in CASES {
        check_push(&rt, rt.alloc(), items, is_refused)?;
    }
    Ok(())
}

#[test]
fn lists_and_their_copies_are_refused_until_there_is_memory(rt: HostRuntime) -> Result<(), Fail> {
    let alloc = rt.alloc();
    for (items, _, is_refused) in CASES {
        let (refusals, few) = at_each_amount(alloc, || Few::from_slice(alloc, items))?;
        check_refused(&rt, refusals, is_refused, items);
        check_same(&rt, few.as_slice(), items);
        let (refusals, copy) = at_each_amount(alloc, || few.try_clone())?;
        check_refused(&rt, refusals, is_refused, items);
        check_same(&rt, copy.as_slice(), items);
        check_same(&rt, few.as_slice(), items);
    }
    Ok(())
}
