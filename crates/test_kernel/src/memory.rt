//! Expressions, loops, copies and jobs with each amount of memory from none on. A clause says what
//! a refusal is, and not that refusals end.

use crate::checks::{check_refused, check_same};
use crate::computed::check;
use acc_base::{BlockId, Fault, Listed, Range, Shared};
use acc_kernel::{Assign, Expr, Job, Kernel, KernelFault, Operator};
use std::alloc::Global;
use std::process::Abort;
use std::test::Fail;
use tool_loops::Part::{self, Choose, Index, Negate, Number, Read};
use tool_loops::{Row, TIMES, expr_of, job_of, statements_of};
use tool_scarce::at_each_amount;

/// `-(i * 5) ? y[i + 2] : y[i]`, where y is array 1
const PARTS: [Part; 7] = [
    Index,
    Number(5),
    TIMES,
    Negate,
    Read(1, 2),
    Read(1, 0),
    Choose,
];

/// `x[i] = -(i * 5) ? y[i + 2] : y[i]`, where x is array 0 and y is array 1
const LOOP: [Row; 1] = [(0, &PARTS)];

// A loop from 0 to 1, or none where it is refused for another reason than want of memory.
fn kernel_of(alloc: Global, statements: Vec<Assign>) -> Result<Option<Kernel>, Fault> {
    match Kernel::new(alloc, 0, 2, statements) {
        Ok(kernel) => Ok(Some(kernel)),
        Err(KernelFault::Memory) => Err(Fault::Memory),
        Err(_) => Ok(None),
    }
}

// Sixteen statements that refer to the arrays 0 to 31 in order. No memory is given back while they are made.
fn pairs(alloc: Global) -> Result<Vec<Assign>, Fault> {
    let mut statements = Vec::with_capacity(alloc, 16)?;
    for n in 0..16u8 {
        let value = Expr::read(alloc, 2 * n + 1, 0)?;
        statements.push(Assign {
            array: 2 * n,
            value,
        })?;
    }
    Ok(statements)
}

// The arrays are 0 to 31, in order.
fn check_arrays(rt: &impl Abort, arrays: &[u8]) {
    check_same(rt, arrays.len(), 32);
    for (place, array) in arrays.iter().enumerate() {
        check_same(rt, usize::from(*array), place);
    }
}

/// Each loop is of statements that are made for it, and these may be refused, too.
#[test]
fn a_loop_is_refused_until_there_is_memory(rt: HostRuntime) -> Result<(), Fail> {
    let alloc = rt.alloc();
    let mut made = 0u32;
    let (refusals, kernel) = at_each_amount(alloc, || {
        let statements = pairs(alloc)?;
        made = made.wrapping_add(1);
        kernel_of(alloc, statements)
    })?;
    check_same(&rt, (4 < made, made < refusals), (true, true));
    match kernel {
        Some(kernel) => check_arrays(&rt, kernel.arrays()),
        None => assert!(rt; false, "refused"),
    }
    Ok(())
}

/// Each call that makes an expression of parts, alone; what was refused to grow is as it was.
#[test]
fn an_expression_is_refused_until_there_is_memory(rt: HostRuntime) -> Result<(), Fail> {
    let alloc = rt.alloc();
    let same = expr_of(alloc, &[Index, Number(5), TIMES, Negate])?;
    check_values(&rt, alloc, same, &[0, -5])?;
    let (refusals, five) = at_each_amount(alloc, || Expr::number(alloc, 5))?;
    check_refused(&rt, refusals, 1);
    let (refusals, mut expr) = at_each_amount(alloc, || Expr::index(alloc))?;
    check_refused(&rt, refusals, 1);
    let (refusals, ()) = at_each_amount(alloc, || expr.binary(Operator::Times, &five))?;
    check_refused(&rt, refusals, 1);
    // it may have room for this
    expr.negate()?;
    check_values(&rt, alloc, expr, &[0, -5])
}

/// A choice between cells, and the copy of an expression, which has room for no more.
#[test]
fn a_choice_is_refused_until_there_is_memory(rt: HostRuntime) -> Result<(), Fail> {
    let alloc = rt.alloc();
    let same = expr_of(alloc, &[Index, Number(5), TIMES, Negate])?;
    check_values(&rt, alloc, same, &[0, -5])?;
    let (refusals, first) = at_each_amount(alloc, || Expr::read(alloc, 1, 2))?;
    check_refused(&rt, refusals, 1);
    let second = Expr::read(alloc, 1, 0)?;
    let expr = expr_of(alloc, &[Index, Number(5), TIMES, Negate])?;
    let (refusals, mut copy) = at_each_amount(alloc, || expr.try_clone(alloc))?;
    check_refused(&rt, refusals, 1);
    let (refusals, ()) = at_each_amount(alloc, || copy.choose(&first, &second))?;
    check_refused(&rt, refusals, 1);
    check_same(&rt, copy.depth(), 4);
    check_values(&rt, alloc, copy, &[10, 40])
}

// `x[i] = value` from 0 to 1, where y, the array 1, holds 10, 20, 30, 40. A test does this before memory is
// refused too: the stack has grown then, which it can't while all addresses are taken.
fn check_values(
    rt: &impl Abort,
    alloc: Global,
    value: Expr,
    x_after: &[i64; 2],
) -> Result<(), Fail> {
    let statements = vec![in alloc; Assign { array: 0, value }]?;
    let Some(kernel) = kernel_of(alloc, statements)? else {
        assert!(rt; false, "refused");
        return Ok(());
    };
    let y = [10, 20, 30, 40];
    check(rt, alloc, kernel, (&[7, 7], x_after), (&y, &y))?;
    Ok(())
}

/// An expression that was just made has no room for another step.
#[test]
fn a_minus_sign_is_refused_until_there_is_memory(rt: HostRuntime) -> Result<(), Fail> {
    let alloc = rt.alloc();
    let mut expr = Expr::number(alloc, 5)?;
    let (refusals, ()) = at_each_amount(alloc, || expr.negate())?;
    check_refused(&rt, refusals, 1);
    check_same(&rt, expr.depth(), 2);
    Ok(())
}

#[test]
fn copies_of_a_loop_are_refused_until_there_is_memory(rt: HostRuntime) -> Result<(), Fail> {
    let alloc = rt.alloc();
    let Some(kernel) = kernel_of(alloc, statements_of(alloc, &LOOP)?)? else {
        assert!(rt; false, "refused");
        return Ok(());
    };
    let (refusals, copy) = at_each_amount(alloc, || kernel.try_clone(alloc))?;
    check_refused(&rt, refusals, 2);
    check_same(&rt, copy.statements().len(), 1);
    check_same(&rt, copy.arrays(), [0, 1].as_slice());
    Ok(())
}

// As many cells of two arrays.
fn uses_of(alloc: Global, len: u32) -> Result<Shared<Listed<(BlockId, Range)>>, Fault> {
    let range = |array| Range { array, lo: 0, len };
    let uses = vec![in alloc; (BlockId::new(1), range(0)), (BlockId::new(2), range(1))]?;
    Shared::new(alloc, Listed::from_vec(uses))
}

// The loop as a value that jobs share.
fn shared_loop(alloc: Global) -> Result<Option<Shared<Kernel>>, Fault> {
    match kernel_of(alloc, statements_of(alloc, &LOOP)?)? {
        Some(kernel) => Ok(Some(Shared::new(alloc, kernel)?)),
        None => Ok(None),
    }
}

// A job is of the loop over these uses.
fn check_parts(rt: &impl Abort, job: &Job, uses: &[(BlockId, Range)]) {
    check_same(rt, job.kernel().arrays(), [0, 1].as_slice());
    check_same(rt, job.uses(), uses);
}

#[test]
fn a_job_is_refused_until_there_is_memory(rt: HostRuntime) -> Result<(), Fail> {
    let alloc = rt.alloc();
    let Some(kernel) = shared_loop(alloc)? else {
        assert!(rt; false, "refused");
        return Ok(());
    };
    let uses = uses_of(alloc, 4)?;
    let (refusals, job) = at_each_amount(alloc, || job_of(alloc, None, &kernel, &uses))?;
    check_refused(&rt, refusals, 6);
    match job {
        Some(job) => check_parts(&rt, &job, uses.get().as_slice()),
        None => assert!(rt; false, "not held"),
    }
    Ok(())
}

#[test]
fn a_loop_that_its_uses_do_not_hold_has_no_job(rt: HostRuntime) -> Result<(), Fail> {
    let alloc = rt.alloc();
    let Some(kernel) = shared_loop(alloc)? else {
        assert!(rt; false, "refused");
        return Ok(());
    };
    assert!(rt; job_of(alloc, None, &kernel, &uses_of(alloc, 3)?)?.is_none());
    Ok(())
}
