//! What workers and hosts pass on their way.

use acc_base::{HostId, QueueAt};

/// What a worker passes with each batch, and a host before its first step.
pub trait Gate {
    /// Called after a worker took batch n of its queue and before it performs the batch's first operation, with no lock held. Where
    /// it answers false the worker ends, and the batch stays in its lane.
    fn pass(&self, at: QueueAt, n: u64) -> bool;

    /// Called by the thread of a host before the host's first step, with no lock held.
    fn host(&self, _host: HostId) {}

    /// Called by a worker before it computes a loop of batch n of its queue, with no lock held.
    fn work(&self, _at: QueueAt, _n: u64) {}
}
