//! Rows of numbers, and chains of linked nodes, with an index of their keys or without.
#![tactic(auto)]

mod block;
mod cells;
mod chain;
mod chained;
mod indexed;
mod iter;
mod keyed;
mod link;
mod nth;
mod segment;
mod segments;
mod store;

pub use cells::{Cells, Window};
pub use chain::Chain;
pub use indexed::Indexed;
pub use iter::Iter;
pub use keyed::Keyed;
pub use link::Node;
