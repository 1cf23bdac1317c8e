//! Statements of a loop, each from an array's number and a list of parts.

use crate::part::{Part, expr_of};
use acc_base::Fault;
use acc_kernel::Assign;
use std::alloc::Global;

/// A statement: the array that it assigns, and the parts of its expression.
pub type Row = (u8, &'static [Part]);

/// The statements of these rows.
///
/// # Errors
///
/// `Memory` where memory is refused.
pub fn statements_of(alloc: Global, rows: &[Row]) -> Result<Vec<Assign>, Fault> {
    let mut statements = Vec::new(alloc);
    for (array, parts) in rows {
        let value = expr_of(alloc, parts)?;
        statements.push(Assign {
            array: *array,
            value,
        })?;
    }
    Ok(statements)
}
