//! Loops that go column by column give what formulas in plain code give, for spans around a
//! column's length. The contract has the values by its own definitions alone.

use crate::checks::check_same;
use acc_base::{BlockId, Fault, Listed, Range, Shared};
use acc_kernel::{Job, Kernel};
use std::alloc::Global;
use std::process::Abort;
use std::test::Fail;
use tool_loops::Part::{Choose, Index, Negate, Number, Read};
use tool_loops::{LESS, MINUS, PLUS, Row, TIMES, job_of, set_inputs, statements_of, store_outputs};

/// What a loop does at index i of x, y and z, the arrays 0, 1 and 2.
#[derive(Clone, Copy, Debug)]
enum Body {
    /// `y[i] = 3 * x[i] + 7`
    Scaled,
    /// `y[i] = x[i - 1] - x[i + 2]`
    Shifted,
    /// `y[i] = x[i] * x[i] * 8000000000000003`
    Wrapped,
    /// `y[i] = x[i] < 0 ? -x[i] : i`
    Chosen,
    /// `z[i] = 2 * z[i] + i`
    Own,
    /// `y[i] = x[i] + i; z[i] = y[i] * y[i]; y[i] = z[i] - x[i + 1]`
    Chained,
    /// `y[i] = ((x[i] * i + 1) * i + 2) * i - x[i - 1]`
    Deep,
    /// `y[i] = x[i] - (i - (x[i] - (i - (x[i] - (i - x[i - 1])))))`, of which more values wait than few columns hold
    High,
}

const BODIES: [(Body, &[Row]); 8] = [
    (
        Body::Scaled,
        &[(1, &[Number(3), Read(0, 0), TIMES, Number(7), PLUS])],
    ),
    (Body::Shifted, &[(1, &[Read(0, -1), Read(0, 2), MINUS])]),
    (
        Body::Wrapped,
        &[(1, &[Read(0, 0), Read(0, 0), TIMES, Number(FACTOR), TIMES])],
    ),
    (
        Body::Chosen,
        &[(
            1,
            &[
                Read(0, 0),
                Number(0),
                LESS,
                Read(0, 0),
                Negate,
                Index,
                Choose,
            ],
        )],
    ),
    (
        Body::Own,
        &[(2, &[Number(2), Read(2, 0), TIMES, Index, PLUS])],
    ),
    (
        Body::Chained,
        &[
            (1, &[Read(0, 0), Index, PLUS]),
            (2, &[Read(1, 0), Read(1, 0), TIMES]),
            (1, &[Read(2, 0), Read(0, 1), MINUS]),
        ],
    ),
    (
        Body::Deep,
        &[(
            1,
            &[
                Read(0, 0),
                Index,
                TIMES,
                Number(1),
                PLUS,
                Index,
                TIMES,
                Number(2),
                PLUS,
                Index,
                TIMES,
                Read(0, -1),
                MINUS,
            ],
        )],
    ),
    (
        Body::High,
        &[(
            1,
            &[
                Read(0, 0),
                Index,
                Read(0, 0),
                Index,
                Read(0, 0),
                Index,
                Read(0, -1),
                MINUS,
                MINUS,
                MINUS,
                MINUS,
                MINUS,
                MINUS,
            ],
        )],
    ),
];

/// A product with it passes the greatest number.
const FACTOR: i64 = 8_000_000_000_000_003;

/// From which index on, and how many turns: none, few, fewer than a column has, as many, more, and several columns.
const SPANS: [(i64, i64); 16] = [
    (1, 0),
    (3, -40),
    (-70, 0),
    (-1, -64),
    (1, 1),
    (2, 4),
    (5, 7),
    (1, 8),
    (60, 9),
    (1, 127),
    (7, 128),
    (1, 129),
    (40, 255),
    (1, 256),
    (2, 257),
    (3, 400),
];

/// How many cells each array has.
const CELLS: u32 = 410;

// What the cells hold before the loop: of x some are below zero.
fn before(array: u8, cell: i64) -> i64 {
    match array {
        0 => cell.wrapping_mul(37).wrapping_sub(1_500),
        1 => -1,
        _ => cell.wrapping_mul(cell),
    }
}

// What cell i of y and of z holds after the turn at i.
fn turned(body: Body, i: i64) -> (i64, i64) {
    let x = |cell: i64| before(0, cell);
    let (y, z) = (before(1, i), before(2, i));
    match body {
        Body::Scaled => (x(i).wrapping_mul(3).wrapping_add(7), z),
        Body::Shifted => {
            let left = x(i.wrapping_sub(1));
            (left.wrapping_sub(x(i.wrapping_add(2))), z)
        }
        Body::Wrapped => (x(i).wrapping_mul(x(i)).wrapping_mul(FACTOR), z),
        Body::Chosen => (if x(i) < 0 { x(i).wrapping_neg() } else { i }, z),
        Body::Own => (y, z.wrapping_mul(2).wrapping_add(i)),
        Body::Chained => {
            let sum = x(i).wrapping_add(i);
            let square = sum.wrapping_mul(sum);
            (square.wrapping_sub(x(i.wrapping_add(1))), square)
        }
        Body::Deep => {
            let first = x(i).wrapping_mul(i).wrapping_add(1);
            let second = first.wrapping_mul(i).wrapping_add(2);
            let left = second.wrapping_mul(i);
            (left.wrapping_sub(x(i.wrapping_sub(1))), z)
        }
        Body::High => {
            let thrice = x(i).wrapping_sub(i).wrapping_mul(3);
            (thrice.wrapping_add(x(i.wrapping_sub(1))), z)
        }
    }
}

// What a cell holds after the loop.
fn after(body: Body, (lo, hi): (i64, i64), array: u8, cell: i64) -> i64 {
    if cell < lo || hi <= cell {
        return before(array, cell);
    }
    match array {
        0 => before(0, cell),
        1 => turned(body, cell).0,
        _ => turned(body, cell).1,
    }
}

// An array's values, cell by cell.
fn values_of<V: Fn(i64) -> i64>(alloc: Global, value: V) -> Result<Vec<i64>, Fault>
    requires { V.IsAlwaysCallable value }
{
    let mut values = Vec::new(alloc);
    for cell in 0..CELLS {
        values.push(value(i64::from(cell)))?;
    }
    Ok(values)
}

// Cells 0 to 109 of x, y and z.
fn uses_of(alloc: Global) -> Result<Shared<Listed<(BlockId, Range)>>, Fault> {
    let range = |array| Range {
        array,
        lo: 0,
        len: CELLS,
    };
    let uses = vec![in alloc;
        (BlockId::new(1), range(0)),
        (BlockId::new(2), range(1)),
        (BlockId::new(3), range(2)),
    ]?;
    Shared::new(alloc, Listed::from_vec(uses))
}

// The job of a loop from lo to hi - 1, if the arrays hold all cells that it refers to.
fn job_over(
    alloc: Global,
    spare: Option<Box<Job>>,
    rows: &[Row],
    (lo, hi): (i64, i64),
) -> Result<Option<Box<Job>>, Fail> {
    let kernel = Kernel::new(alloc, lo, hi, statements_of(alloc, rows)?)?;
    let kernel = Shared::new(alloc, kernel)?;
    let uses = uses_of(alloc)?;
    Ok(job_of(alloc, spare, &kernel, &uses)?)
}

// What an array holds once a job's outputs are stored is what plain code gives.
fn check_array(
    rt: &impl Abort,
    alloc: Global,
    job: &Job,
    array: u8,
    (body, span): (Body, (i64, i64)),
) -> Result<(), Fault> {
    let mut cells = values_of(alloc, |cell| before(array, cell))?;
    store_outputs(job, array, cells.as_mut_slice());
    let wanted = values_of(alloc, |cell| after(body, span, array, cell))?;
    check_same(rt, (span, cells.as_slice()), (span, wanted.as_slice()));
    Ok(())
}

// Computes a job, and looks at what it has for each array.
fn check_job(
    rt: &impl Abort,
    alloc: Global,
    job: &mut Job,
    case: (Body, (i64, i64)),
) -> Result<(), Fault> {
    set_inputs(alloc, job, |array, cell| before(array, i64::from(cell)))?;
    job.compute();
    for array in 0..3u8 {
        check_array(rt, alloc, job, array, case)?;
    }
    Ok(())
}

// A case in the memory of the job before it, if there is one. Answers with its job.
fn check(
    rt: &impl Abort,
    alloc: Global,
    spare: Option<Box<Job>>,
    (body, rows): (Body, &[Row]),
    (lo, turns): (i64, i64),
) -> Result<Option<Box<Job>>, Fail> {
    let span = (lo, lo.wrapping_add(turns));
    let mut job = job_over(alloc, spare, rows, span)?;
    match &mut job {
        Some(job) => check_job(rt, alloc, job, (body, span))?,
        None => assert!(rt; false, "{body:?} isn't held"),
    }
    Ok(job)
}

#[test]
fn columns_give_what_turns_give(rt: HostRuntime) -> Result<(), Fail> {
    for case in &BODIES {
        let mut job = None;
        for span in &SPANS {
            job = check(&rt, rt.alloc(), job, *case, *span)?;
        }
    }
    Ok(())
}
