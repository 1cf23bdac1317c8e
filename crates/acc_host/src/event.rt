//! The events of a run.

use acc_base::{HostId, QueueAt};

/// One event of the core.
#[derive(Clone, Copy, Debug, PartialEq, Eq)]
pub enum Event {
    /// The host goes on by one step.
    Host(HostId),
    /// The queue takes a batch.
    Take(QueueAt),
    /// The queue performs one operation.
    Perform(QueueAt),
    /// Closing begins, if it hasn't, and each queue that isn't closed and has room for it gets its last batch.
    Close,
}
