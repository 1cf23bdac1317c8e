//! What the loops of tables assign, each body by a name, as rows of parts.

use crate::part::Part::{self, Choose, Index, Negate, Number, Read};
use crate::part::{EQUAL, LESS, MINUS, PLUS, TIMES};
use crate::row::{Row, statements_of};
use acc_base::Fault;
use acc_kernel::{Kernel, KernelFault};
use std::alloc::Global;

/// What a loop assigns at each index, where a and b are the arrays 0 and 1.
#[derive(Clone, Copy, Debug)]
pub enum Body {
    /// `a[i] = i + 7`
    Indices,
    /// `a[i] = a[i] + 1`
    Counted,
    /// `a[i] = a[i] * 2`
    Doubled,
    /// `a[i] = -a[i]`
    Negated,
    /// `b[i] = a[i] + 1`
    Successor,
    /// `b[i] = a[i + 1]`
    Next,
    /// `a[i] = b[i + 1]`
    NextBack,
    /// `b[i] = 1 + 2 * -a[i] < 0 == 1 ? 5 : 6`
    Chosen,
    /// `a[i] = a[i] + 1; b[i] = 2 * a[i]; a[i] = b[i] - 5;`
    Three,
}

/// A loop in a table: from one index to before another, and what it assigns.
#[derive(Clone, Copy, Debug)]
pub struct Loop {
    pub lo: i64,
    pub hi: i64,
    pub body: Body,
}

const CHOSEN: [Part; 13] = [
    Number(1),
    Number(2),
    Read(0, 0),
    Negate,
    TIMES,
    PLUS,
    Number(0),
    LESS,
    Number(1),
    EQUAL,
    Number(5),
    Number(6),
    Choose,
];

fn rows_of(body: Body) -> &'static [Row] {
    match body {
        Body::Indices => &[(0, &[Index, Number(7), PLUS])],
        Body::Counted => &[(0, &[Read(0, 0), Number(1), PLUS])],
        Body::Doubled => &[(0, &[Read(0, 0), Number(2), TIMES])],
        Body::Negated => &[(0, &[Read(0, 0), Negate])],
        Body::Successor => &[(1, &[Read(0, 0), Number(1), PLUS])],
        Body::Next => &[(1, &[Read(0, 1)])],
        Body::NextBack => &[(0, &[Read(1, 1)])],
        Body::Chosen => &[(1, &CHOSEN)],
        Body::Three => &[
            (0, &[Read(0, 0), Number(1), PLUS]),
            (1, &[Number(2), Read(0, 0), TIMES]),
            (0, &[Read(1, 0), Number(5), MINUS]),
        ],
    }
}

/// The loop of a table.
///
/// # Errors
///
/// `BadRange` where the limits of loops refuse it, and `Memory` where memory is refused.
pub fn kernel_of(alloc: Global, table: Loop) -> Result<Kernel, Fault> {
    let statements = statements_of(alloc, rows_of(table.body))?;
    match Kernel::new(alloc, table.lo, table.hi, statements) {
        Ok(kernel) => Ok(kernel),
        Err(KernelFault::Memory) => Err(Fault::Memory),
        Err(_) => Err(Fault::BadRange),
    }
}
