//! The limits of a loop, tested in their order.

/// The greatest depth of an expression.
pub const MAX_DEPTH: usize = 32;

/// How far from zero a bound or an offset is at most.
pub const MAX_DISTANCE: i64 = 65_536;

/// The most statements of a loop; it has at least one.
pub const MAX_STATEMENTS: usize = 16;
