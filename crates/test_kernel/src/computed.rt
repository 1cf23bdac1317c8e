//! Values of expressions and loops that another calculator gave, also where they wrap round:
//! contracts compare them with definitions, and not with numbers.

use crate::checks::check_same;
use acc_base::{BlockId, Fault, Listed, Range, Shared};
use acc_kernel::{Job, Kernel};
use std::alloc::Global;
use std::process::Abort;
use std::test::Fail;
use tool_loops::Part::{self, Choose, Index, Negate, Number, Read};
use tool_loops::{
    AT_LEAST, AT_MOST, Body, DIFFERS, EQUAL, LESS, Loop, MINUS, MORE, PLUS, TIMES, job_of,
    kernel_of, set_inputs, statements_of, store_outputs,
};

/// A loop, and what its arrays 0 and 1 have before it and after it.
struct Case {
    lo: i64,
    hi: i64,
    body: Body,
    before: [&'static [i64]; 2],
    after: [&'static [i64]; 2],
}

/// The value of an expression at 1 and at 2, over the cells of x. The values are Python's, modulo 2^64.
const VALUES: [(&[Part], [i64; 4], [i64; 2]); 34] = [
    // x[i] + 1
    (
        &[Read(0, 0), Number(1), PLUS],
        [0, i64::MAX, i64::MIN, 0],
        [i64::MIN, -9_223_372_036_854_775_807],
    ),
    // x[i] - 1
    (
        &[Read(0, 0), Number(1), MINUS],
        [0, i64::MIN, i64::MAX, 0],
        [i64::MAX, 9_223_372_036_854_775_806],
    ),
    // x[i] * x[i + 1]
    (
        &[Read(0, 0), Read(0, 1), TIMES],
        [0, i64::MAX, i64::MAX, 2],
        [1, -2],
    ),
    // x[i] * x[i + 1]
    (
        &[Read(0, 0), Read(0, 1), TIMES],
        [0, 3_037_000_500, 3_037_000_500, -4_000_000_000],
        [-9_223_372_036_709_301_616, 6_298_742_073_709_551_616],
    ),
    // -x[i]
    (&[Read(0, 0), Negate], [0, i64::MIN, -7, 0], [i64::MIN, 7]),
    // 0 - x[i]
    (
        &[Number(0), Read(0, 0), MINUS],
        [0, i64::MIN, i64::MAX, 0],
        [i64::MIN, -9_223_372_036_854_775_807],
    ),
    // (x[i - 1] * 10) + x[i + 1]
    (
        &[Read(0, -1), Number(10), TIMES, Read(0, 1), PLUS],
        [1, 2, 3, 4],
        [13, 24],
    ),
    // x[i + 1] - x[i - 1]
    (
        &[Read(0, 1), Read(0, -1), MINUS],
        [i64::MIN, 5, i64::MAX, 6],
        [-1, 1],
    ),
    // (x[i] - i) - 2
    (
        &[Read(0, 0), Index, MINUS, Number(2), MINUS],
        [0, 10, 20, 0],
        [7, 16],
    ),
    // x[i] - (i - 2)
    (
        &[Read(0, 0), Index, Number(2), MINUS, MINUS],
        [0, 10, 20, 0],
        [11, 20],
    ),
    // x[i] < x[i + 1]
    (&[Read(0, 0), Read(0, 1), LESS], [0, -3, 2, 2], [1, 0]),
    // x[i + 1] < x[i]
    (&[Read(0, 1), Read(0, 0), LESS], [0, -3, 2, 2], [0, 0]),
    // x[i] < x[i + 1]
    (
        &[Read(0, 0), Read(0, 1), LESS],
        [0, i64::MIN, i64::MAX, i64::MIN],
        [1, 0],
    ),
    // x[i] <= x[i + 1]
    (&[Read(0, 0), Read(0, 1), AT_MOST], [0, -3, 2, 2], [1, 1]),
    // x[i + 1] <= x[i]
    (&[Read(0, 1), Read(0, 0), AT_MOST], [0, -3, 2, 2], [0, 1]),
    // x[i] <= x[i + 1]
    (
        &[Read(0, 0), Read(0, 1), AT_MOST],
        [0, i64::MIN, i64::MAX, i64::MIN],
        [1, 0],
    ),
    // x[i] > x[i + 1]
    (&[Read(0, 0), Read(0, 1), MORE], [0, -3, 2, 2], [0, 0]),
    // x[i + 1] > x[i]
    (&[Read(0, 1), Read(0, 0), MORE], [0, -3, 2, 2], [1, 0]),
    // x[i] > x[i + 1]
    (
        &[Read(0, 0), Read(0, 1), MORE],
        [0, i64::MIN, i64::MAX, i64::MIN],
        [0, 1],
    ),
    // x[i] >= x[i + 1]
    (&[Read(0, 0), Read(0, 1), AT_LEAST], [0, -3, 2, 2], [0, 1]),
    // x[i + 1] >= x[i]
    (&[Read(0, 1), Read(0, 0), AT_LEAST], [0, -3, 2, 2], [1, 1]),
    // x[i] >= x[i + 1]
    (
        &[Read(0, 0), Read(0, 1), AT_LEAST],
        [0, i64::MIN, i64::MAX, i64::MIN],
        [0, 1],
    ),
    // x[i] == x[i + 1]
    (&[Read(0, 0), Read(0, 1), EQUAL], [0, -3, 2, 2], [0, 1]),
    // x[i + 1] == x[i]
    (&[Read(0, 1), Read(0, 0), EQUAL], [0, -3, 2, 2], [0, 1]),
    // x[i] == x[i + 1]
    (
        &[Read(0, 0), Read(0, 1), EQUAL],
        [0, i64::MIN, i64::MAX, i64::MIN],
        [0, 0],
    ),
    // x[i] != x[i + 1]
    (&[Read(0, 0), Read(0, 1), DIFFERS], [0, -3, 2, 2], [1, 0]),
    // x[i + 1] != x[i]
    (&[Read(0, 1), Read(0, 0), DIFFERS], [0, -3, 2, 2], [1, 0]),
    // x[i] != x[i + 1]
    (
        &[Read(0, 0), Read(0, 1), DIFFERS],
        [0, i64::MIN, i64::MAX, i64::MIN],
        [1, 1],
    ),
    // x[i] ? x[i - 1] : x[i + 1]
    (
        &[Read(0, 0), Read(0, -1), Read(0, 1), Choose],
        [10, -1, 0, 40],
        [10, 40],
    ),
    // (x[i] < 0) ? -x[i] : ((x[i] > 9) ? 9 : x[i])
    (
        &[
            Read(0, 0),
            Number(0),
            LESS,
            Read(0, 0),
            Negate,
            Read(0, 0),
            Number(9),
            MORE,
            Number(9),
            Read(0, 0),
            Choose,
            Choose,
        ],
        [0, -4, 12, 0],
        [4, 9],
    ),
    // (x[i] ? 0 : 1) ? (x[i + 1] ? 1 : 2) : (x[i + 1] ? 3 : 4)
    (
        &[
            Read(0, 0),
            Number(0),
            Number(1),
            Choose,
            Read(0, 1),
            Number(1),
            Number(2),
            Choose,
            Read(0, 1),
            Number(3),
            Number(4),
            Choose,
            Choose,
        ],
        [0, 0, 5, 0],
        [1, 4],
    ),
    // x[i] ? (x[i] ? 1 : 2) : (x[i] ? 3 : 4)
    (
        &[
            Read(0, 0),
            Read(0, 0),
            Number(1),
            Number(2),
            Choose,
            Read(0, 0),
            Number(3),
            Number(4),
            Choose,
            Choose,
        ],
        [0, 0, 7, 0],
        [4, 1],
    ),
    // (x[i] < 0) * -x[i]
    (
        &[Read(0, 0), Number(0), LESS, Read(0, 0), Negate, TIMES],
        [0, -5, 5, 0],
        [5, 0],
    ),
    // (((x[i] * i) + 1) * i) + (i == 2)
    (
        &[
            Read(0, 0),
            Index,
            TIMES,
            Number(1),
            PLUS,
            Index,
            TIMES,
            Index,
            Number(2),
            EQUAL,
            PLUS,
        ],
        [0, i64::MAX, 6, 0],
        [i64::MIN, 27],
    ),
];

const LOOPS: [Case; 9] = [
    // the greatest number wraps to the least
    Case {
        lo: 0,
        hi: 1,
        body: Body::Counted,
        before: [&[i64::MAX], &[0]],
        after: [&[i64::MIN], &[0]],
    },
    // a comparison chooses
    Case {
        lo: 0,
        hi: 2,
        body: Body::Chosen,
        before: [&[3, -3], &[0, 0]],
        after: [&[3, -3], &[5, 6]],
    },
    // each cell doubled
    Case {
        lo: 0,
        hi: 4,
        body: Body::Doubled,
        before: [&[1, 2, 3, 4], &[0]],
        after: [&[2, 4, 6, 8], &[0]],
    },
    // each cell is its neighbour, and the last stays
    Case {
        lo: 0,
        hi: 3,
        body: Body::Next,
        before: [&[1, 2, 3, 4], &[0, 0, 0, 0]],
        after: [&[1, 2, 3, 4], &[2, 3, 4, 0]],
    },
    // the cells in the middle alone
    Case {
        lo: 1,
        hi: 3,
        body: Body::Negated,
        before: [&[1, 2, 3, 4], &[0]],
        after: [&[1, -2, -3, 4], &[0]],
    },
    // the index
    Case {
        lo: 0,
        hi: 2,
        body: Body::Indices,
        before: [&[0, 0], &[0]],
        after: [&[7, 8], &[0]],
    },
    // a statement reads what one before it assigned, and the last assignment counts
    Case {
        lo: 0,
        hi: 2,
        body: Body::Three,
        before: [&[10, -20], &[1, 1]],
        after: [&[17, -43], &[22, -38]],
    },
    // no index
    Case {
        lo: 2,
        hi: 1,
        body: Body::Counted,
        before: [&[1, 2, 3], &[0]],
        after: [&[1, 2, 3], &[0]],
    },
    // no index, and bounds outside the cells
    Case {
        lo: -3,
        hi: -3,
        body: Body::Counted,
        before: [&[1, 2, 3], &[0]],
        after: [&[1, 2, 3], &[0]],
    },
];

// An array's cells from 0 on, as many as there are values.
fn whole(array: u8, values: &[i64]) -> (BlockId, Range) {
    let len = u32::try_from(values.len()).unwrap_or(0);
    (BlockId::new(0), Range { array, lo: 0, len })
}

// The value of a cell of x or y.
fn value_of(x: &[i64], y: &[i64], array: u8, cell: u32) -> i64 {
    let values = if array == 0 { x } else { y };
    values.get(cell as usize).copied().unwrap_or(0)
}

// What an array holds once a job's outputs are stored.
fn check_array(
    rt: &impl Abort,
    alloc: Global,
    job: &Job,
    array: u8,
    (before, after): (&[i64], &[i64]),
) -> Result<(), Fault> {
    let mut cells = Vec::from_slice(alloc, before)?;
    store_outputs(job, array, cells.as_mut_slice());
    check_same(rt, cells.as_slice(), after);
    Ok(())
}

// A loop as a job over x and y.
fn job_over(
    alloc: Global,
    kernel: Kernel,
    x: &[i64],
    y: &[i64],
) -> Result<Option<Box<Job>>, Fault> {
    let kernel = Shared::new(alloc, kernel)?;
    let uses = vec![in alloc; whole(0, x), whole(1, y)]?;
    let uses = Shared::new(alloc, Listed::from_vec(uses))?;
    job_of(alloc, None, &kernel, &uses)
}

// Computes a job over x and y, and compares each with what it has to have then.
fn check_job(
    rt: &impl Abort,
    alloc: Global,
    job: &mut Job,
    x: (&[i64], &[i64]),
    y: (&[i64], &[i64]),
) -> Result<(), Fault> {
    set_inputs(alloc, job, |array, cell| value_of(x.0, y.0, array, cell))?;
    job.compute();
    check_array(rt, alloc, job, 0, x)?;
    check_array(rt, alloc, job, 1, y)
}

// Runs a loop as a job over x and y.
pub fn check(
    rt: &impl Abort,
    alloc: Global,
    kernel: Kernel,
    x: (&[i64], &[i64]),
    y: (&[i64], &[i64]),
) -> Result<(), Fault> {
    let bounds = (kernel.lo(), kernel.hi());
    match job_over(alloc, kernel, x.0, y.0)? {
        Some(mut job) => {
            check_same(rt, (job.kernel().lo(), job.kernel().hi()), bounds);
            check_job(rt, alloc, &mut job, x, y)?;
        }
        None => assert!(rt; false, "not held"),
    }
    Ok(())
}

#[test]
fn loops_give_their_values(rt: HostRuntime) -> Result<(), Fail> {
    for case in &LOOPS {
        let (lo, hi, body) = (case.lo, case.hi, case.body);
        let kernel = kernel_of(rt.alloc(), Loop { lo, hi, body })?;
        let x = (case.before[0], case.after[0]);
        let y = (case.before[1], case.after[1]);
        check(&rt, rt.alloc(), kernel, x, y)?;
    }
    Ok(())
}

fn check_value(
    rt: &impl Abort,
    alloc: Global,
    parts: &'static [Part],
    x: &[i64; 4],
    values: &[i64; 2],
) -> Result<(), Fault> {
    let statements = statements_of(alloc, &[(1, parts)])?;
    match Kernel::new(alloc, 1, 3, statements) {
        Ok(kernel) => {
            let y = [0, values[0], values[1], 0];
            check(rt, alloc, kernel, (x, x), (&[0; 4], &y))
        }
        Err(_) => {
            assert!(rt; false, "refused");
            Ok(())
        }
    }
}

#[test]
fn expressions_have_their_values(rt: HostRuntime) -> Result<(), Fail> {
    for (parts, x, values) in &VALUES {
        check_value(&rt, rt.alloc(), parts, x, values)?;
    }
    Ok(())
}
