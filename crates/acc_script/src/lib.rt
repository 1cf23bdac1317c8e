//! Scripts: their texts are read, and faults of them told with their lines.
#![tactic(auto)]

mod arrays;
mod clause;
mod declaration;
mod directive;
mod expression;
mod head;
mod loops;
mod queue;
mod range;
mod routine;
mod script;
mod statement;

pub use acc_token::{MAX_TEXT, ReadError, ReadFault, ReadKind};
pub use script::{Script, read};
