//! The arrays that a loop names, in the order of their first mention, as lists written by hand: the
//! contract computes them from the loop.

use crate::checks::check_same;
use acc_base::Fault;
use acc_kernel::Kernel;
use std::alloc::Global;
use std::process::Abort;
use std::test::Fail;
use tool_loops::Part::{Choose, Index, Negate, Number, Read};
use tool_loops::{PLUS, Row, TIMES, statements_of};

/// The statements of a loop, and the arrays that it refers to: each once, by its first reference.
const CASES: [(&[Row], &[u8]); 4] = [
    // a[i] = 1
    (&[(0, &[Number(1)])], &[0]),
    // c[i] = c[i] + a[i + 1] * c[i]
    (
        &[(2, &[Read(2, 0), Read(0, 1), Read(2, 0), TIMES, PLUS])],
        &[2, 0],
    ),
    // c[i] = i ? b[i] : a[i]; b[i] = c[i]
    (
        &[
            (2, &[Index, Read(1, 0), Read(0, 0), Choose]),
            (1, &[Read(2, 0)]),
        ],
        &[2, 1, 0],
    ),
    // b[i] = last[i - 1] ? b[i] : 0; a[i] = -last[i]
    (
        &[
            (1, &[Read(255, -1), Read(1, 0), Number(0), Choose]),
            (0, &[Read(255, 0), Negate]),
        ],
        &[1, 255, 0],
    ),
];

fn loop_of(alloc: Global, rows: &[Row]) -> Result<Kernel, Fail> {
    let statements = statements_of(alloc, rows)?;
    Ok(Kernel::new(alloc, 0, 2, statements)?)
}

fn check_copy(rt: &impl Abort, alloc: Global, kernel: &Kernel, arrays: &[u8]) -> Result<(), Fault> {
    let copy = kernel.try_clone(alloc)?;
    check_same(rt, copy.arrays(), arrays);
    Ok(())
}

#[test]
fn loops_tell_their_arrays(rt: HostRuntime) -> Result<(), Fail> {
    for (rows, arrays) in &CASES {
        let kernel = loop_of(rt.alloc(), rows)?;
        check_same(&rt, kernel.arrays(), arrays);
        check_copy(&rt, rt.alloc(), &kernel, arrays)?;
    }
    Ok(())
}
