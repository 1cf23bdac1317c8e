//! What jobs have inputs and outputs of, as ranges written by hand, and not the whole uses: the contract computes them from the
//! loop.

use crate::checks::check_same;
use acc_base::{BlockId, Listed, Range, Shared};
use acc_kernel::{Job, Kernel};
use std::alloc::Global;
use std::process::Abort;
use std::test::Fail;
use tool_loops::Part::{Index, Read};
use tool_loops::{PLUS, Row, job_of, statements_of};

/// Cells of an array: its number, the first, and how many.
type Cells = (u8, u32, u32);

/// The bounds of a loop, its statements, and the cells of the arrays 0 and 1, x and y, that it reads and that it assigns.
struct Case {
    bounds: (i64, i64),
    rows: &'static [Row],
    read: &'static [Cells],
    written: &'static [Cells],
}

const CASES: [Case; 4] = [
    // y[i] = x[i + 2]
    Case {
        bounds: (3, 5),
        rows: &[(1, &[Read(0, 2)])],
        read: &[(0, 5, 2)],
        written: &[(1, 3, 2)],
    },
    // y[i] = x[i - 1] + x[i + 4] + y[i]
    Case {
        bounds: (90, 91),
        rows: &[(1, &[Read(0, -1), Read(0, 4), PLUS, Read(1, 0), PLUS])],
        read: &[(0, 89, 6), (1, 90, 1)],
        written: &[(1, 90, 1)],
    },
    // x[i] = i
    Case {
        bounds: (0, 100),
        rows: &[(0, &[Index])],
        read: &[],
        written: &[(0, 0, 100)],
    },
    // x[i] = y[i + 1], without a turn
    Case {
        bounds: (7, 7),
        rows: &[(0, &[Read(1, 1)])],
        read: &[(1, 0, 0)],
        written: &[(0, 0, 0)],
    },
];

// The job of a loop over 100 cells of x and of y.
fn job_over(alloc: Global, case: &Case) -> Result<Option<Box<Job>>, Fail> {
    let (lo, hi) = case.bounds;
    let kernel = Kernel::new(alloc, lo, hi, statements_of(alloc, case.rows)?)?;
    let kernel = Shared::new(alloc, kernel)?;
    let range = |array| Range {
        array,
        lo: 0,
        len: 100,
    };
    let uses = vec![in alloc; (BlockId::new(1), range(0)), (BlockId::new(2), range(1))]?;
    let uses = Shared::new(alloc, Listed::from_vec(uses))?;
    Ok(job_of(alloc, None, &kernel, &uses)?)
}

fn check_cells(rt: &impl Abort, uses: &[(BlockId, Range)], wanted: &[Cells]) {
    check_same(rt, uses.len(), wanted.len());
    for ((_, range), cells) in uses.iter().zip(wanted) {
        check_same(rt, (range.array, range.lo, range.len), *cells);
    }
}

#[test]
fn jobs_have_rows_for_what_loops_reach(rt: HostRuntime) -> Result<(), Fail> {
    for case in &CASES {
        match job_over(rt.alloc(), case)? {
            Some(job) => {
                check_cells(&rt, job.read_uses(), case.read);
                check_cells(&rt, job.written_uses(), case.written);
            }
            None => assert!(rt; false, "not held"),
        }
    }
    Ok(())
}
