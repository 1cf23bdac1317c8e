//! One assignment of a loop.

use crate::expr::Expr;

/// One statement of a loop: the array's cell at the loop's index gets the value.
#[derive(Drop)]
pub struct Assign {
    pub array: u8,
    pub value: Expr,
}
