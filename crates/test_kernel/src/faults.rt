//! What refuses a loop, at both sides of each limit in numbers; the texts of these faults, which no
//! contract has; and the cells that a loop reaches.

use crate::checks::check_same;
use acc_base::Fault;
use acc_kernel::{Assign, Expr, Kernel, KernelFault, MAX_DISTANCE, Reach};
use std::alloc::{AllocError, Global};
use std::process::Abort;
use std::test::Fail;
use tool_loops::Part::{self, Choose, Index, Negate, Number, Read};
use tool_loops::{PLUS, expr_of};

fn check_text(
    rt: &impl Abort,
    alloc: Global,
    fault: KernelFault,
    text: &str,
) -> Result<(), AllocError> {
    let shown = format!(in alloc; "{fault}")?;
    check_same(rt, shown.as_str(), text);
    Ok(())
}

#[test]
fn the_texts_of_kernel_faults(rt: HostRuntime) -> Result<(), Fail> {
    const TEXTS: &[(KernelFault, &str)] = &[
        (KernelFault::ReadsAssigned, "K1 ReadsAssigned"),
        (KernelFault::NoStatement, "K2 NoStatement"),
        (KernelFault::TooDeep, "K3 TooDeep"),
        (KernelFault::TooFar, "K4 TooFar"),
        (KernelFault::TooMany, "F5 TooMany"),
        (KernelFault::Memory, "F11 Memory"),
    ];
    for (fault, text) in TEXTS {
        check_text(&rt, rt.alloc(), *fault, text)?;
    }
    Ok(())
}

// The loop's name behind so many minus signs: its depth is one more.
fn minus_signs(alloc: Global, count: usize) -> Result<Expr, Fault> {
    let mut expr = Expr::index(alloc)?;
    for _ in 0..count {
        expr.negate()?;
    }
    Ok(expr)
}

// So many statements `x[i] = value`, where x is array 0.
fn repeated(alloc: Global, count: usize, value: &Expr) -> Result<Vec<Assign>, Fault> {
    let mut statements = Vec::new(alloc);
    for _ in 0..count {
        let value = value.try_clone(alloc)?;
        statements.push(Assign { array: 0, value })?;
    }
    Ok(statements)
}

// The fault of a loop from lo to hi - 1 of so many statements.
fn check_fault(
    rt: &impl Abort,
    alloc: Global,
    (lo, hi): (i64, i64),
    (count, value): (usize, &Expr),
    fault: Option<KernelFault>,
) -> Result<(), Fault> {
    let statements = repeated(alloc, count, value)?;
    let found = Kernel::new(alloc, lo, hi, statements).err();
    check_same(rt, found, fault);
    Ok(())
}

/// So many minus signs, so many statements, and their fault.
type Deep = (usize, usize, Option<KernelFault>);

fn check_depth(rt: &impl Abort, alloc: Global, deep: Deep) -> Result<(), Fault> {
    let (signs, count, fault) = deep;
    let value = minus_signs(alloc, signs)?;
    check_same(rt, value.depth(), signs.wrapping_add(1));
    check_fault(rt, alloc, (0, 1), (count, &value), fault)
}

#[test]
fn depths_and_counts_at_their_limits(rt: HostRuntime) -> Result<(), Fail> {
    const CASES: &[Deep] = &[
        (31, 1, None),
        (32, 1, Some(KernelFault::TooDeep)),
        (0, 0, Some(KernelFault::NoStatement)),
        (0, 16, None),
        (0, 17, Some(KernelFault::TooMany)),
        (32, 17, Some(KernelFault::TooDeep)),
    ];
    for deep in CASES {
        check_depth(&rt, rt.alloc(), *deep)?;
    }
    Ok(())
}

#[test]
fn bounds_at_their_limits(rt: HostRuntime) -> Result<(), Fail> {
    const CASES: &[((i64, i64), Option<KernelFault>)] = &[
        ((-MAX_DISTANCE, MAX_DISTANCE), None),
        ((MAX_DISTANCE, -MAX_DISTANCE), None),
        ((-65_537, 0), Some(KernelFault::TooFar)),
        ((65_537, 0), Some(KernelFault::TooFar)),
        ((0, 65_537), Some(KernelFault::TooFar)),
        ((0, -65_537), Some(KernelFault::TooFar)),
        ((i64::MIN, i64::MAX), Some(KernelFault::TooFar)),
    ];
    let index = Expr::index(rt.alloc())?;
    for (bounds, fault) in CASES {
        check_fault(&rt, rt.alloc(), *bounds, (1, &index), *fault)?;
    }
    Ok(())
}

/// The fault of `x[i] = value` from 0 to 1: of several the first.
const FAULTS: [(&[Part], Option<KernelFault>); 11] = [
    (&[Read(1, 65_536)], None),
    (&[Read(1, -65_536)], None),
    (&[Read(1, 65_537)], Some(KernelFault::TooFar)),
    (&[Read(1, -65_537)], Some(KernelFault::TooFar)),
    (&[Read(1, i64::MIN)], Some(KernelFault::TooFar)),
    (&[Read(0, 0)], None),
    (&[Read(0, 1)], Some(KernelFault::ReadsAssigned)),
    (&[Read(0, -1), Negate], Some(KernelFault::ReadsAssigned)),
    (
        &[Number(0), Read(0, 1), Index, Choose],
        Some(KernelFault::ReadsAssigned),
    ),
    (
        &[Number(0), Index, Read(0, 65_537), Choose],
        Some(KernelFault::ReadsAssigned),
    ),
    (&[Read(0, 0), Read(1, 1), PLUS], None),
];

#[test]
fn expressions_have_their_faults(rt: HostRuntime) -> Result<(), Fail> {
    for (parts, fault) in &FAULTS {
        let value = expr_of(rt.alloc(), parts)?;
        check_fault(&rt, rt.alloc(), (0, 2), (1, &value), *fault)?;
    }
    Ok(())
}

#[test]
fn what_a_loop_reaches(rt: HostRuntime) -> Result<(), Fail> {
    let cases = [
        (2, 5, Some((0, 7)), Some((2, 4))),
        (-3, -1, Some((-5, 1)), Some((-3, -2))),
        (4, 4, None, None),
        (4, 3, None, None),
    ];
    let value = expr_of(rt.alloc(), &[Index, Read(1, -2), Read(1, 3), Choose])?;
    for case in &cases {
        check_reach(&rt, rt.alloc(), &value, *case)?;
    }
    Ok(())
}

/// The first and the last cell of an array that a loop reaches, if it reaches one.
type Cells = Option<(i64, i64)>;

// The copy of a loop from lo to hi - 1.
fn copied(alloc: Global, (lo, hi): (i64, i64), value: &Expr) -> Result<Kernel, Fail> {
    let statements = repeated(alloc, 1, value)?;
    let kernel = Kernel::new(alloc, lo, hi, statements)?;
    Ok(kernel.try_clone(alloc)?)
}

// What a loop from lo to hi - 1 reads of array 1 and assigns of array 0.
fn check_reach(
    rt: &impl Abort,
    alloc: Global,
    value: &Expr,
    (lo, hi, read, assigned): (i64, i64, Cells, Cells),
) -> Result<(), Fail> {
    let kernel = copied(alloc, (lo, hi), value)?;
    let reach = |(first, last): (i64, i64)| Reach { first, last };
    check_same(rt, kernel.reach(0), assigned.map(reach));
    check_same(rt, kernel.reach(1), read.map(reach));
    check_same(rt, kernel.reach(2), None);
    check_same(rt, kernel.statements().len(), 1);
    Ok(())
}
