//! Expressions, loops and jobs from short tables, for tests and measurements.
#![tactic(auto)]

mod body;
mod job;
mod part;
mod row;

pub use body::{Body, Loop, kernel_of};
pub use job::{job_of, set_inputs, store_outputs};
pub use part::{AT_LEAST, AT_MOST, DIFFERS, EQUAL, LESS, MINUS, MORE, PLUS, Part, TIMES, expr_of};
pub use row::{Row, statements_of};
