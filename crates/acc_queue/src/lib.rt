//! The activity queue: one thread places batches, and another takes them, in order. Beside it the progress of the queues, which
//! threads read without a lock.
#![tactic(auto)]

mod activity;
mod knows;
mod progress;
mod rule;

pub use activity::{Activity, Full, Sender, Taker};
pub use progress::{Progress, Publisher, Reader};
