//! Loops: expressions, the statements of a loop, what it reaches, and the values that it gives.
#![tactic(auto)]

mod arrays;
mod assign;
mod columns;
mod expr;
mod fault;
mod job;
mod job_cells;
mod kernel;
mod laws;
mod limits;
mod operator;
mod reach;
mod rows;
mod same;
mod stack;
mod statements;
mod step;
mod uses;
mod window;

pub use assign::Assign;
pub use expr::Expr;
pub use fault::KernelFault;
pub use job::Job;
pub use kernel::Kernel;
pub use laws::{worked_loops, worked_values};
pub use limits::{MAX_DEPTH, MAX_DISTANCE, MAX_STATEMENTS};
pub use operator::Operator;
pub use reach::Reach;
pub use same::are_same_uses;
pub use uses::are_distinct;
pub use window::{Window, distance};
