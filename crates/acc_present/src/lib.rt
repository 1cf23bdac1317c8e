//! The present table of a device: which ranges are present, and their reference counters.
#![tactic(auto)]

mod change;
mod draft;
mod entries;
mod entry;
mod held;
mod laws;
mod search;
mod table;

pub use change::{Change, Counter};
pub use draft::Draft;
pub use entry::{COUNTER_LIMIT, Entry};
pub use held::{Found, Held};
pub use laws::{legal_marks, one_more_mark, worked_drafts, worked_lifetimes, worked_regions};
pub use table::{Entered, Left, Look, Table};
