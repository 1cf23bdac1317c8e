//! Operations on the blocks of a device, batches of them with the memory that performing them needs, and what the log tells of them.
#![tactic(auto)]

mod batch;
mod counts;
mod entry;
mod label;
mod laws;
mod op;
mod ops;
mod page;
mod same;
mod values;

pub use batch::Batch;
pub use counts::{Counts, one_count, only_count};
pub use entry::{Told, WorkEntry};
pub use label::{Label, OpLabel};
pub use laws::{batches_are_ordered, worked_awaits};
pub use op::{Block, Mark, Op};
pub use ops::Ops;
pub use page::Page;
pub use same::are_same_labels;
pub use values::{Values, ValuesIter};
