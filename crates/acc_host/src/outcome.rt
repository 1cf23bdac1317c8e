//! What a run leaves.

use crate::state::HostState;
use acc_base::{Config, QueueAt};
use acc_batch::OpLabel;
use acc_place::PlaceEntry;
use acc_work::WorkLog;

/// An operation that was placed on a queue, and that it never performs, as its run was abandoned.
#[derive(Drop)]
pub struct Discarded {
    pub at: QueueAt,
    pub what: OpLabel,
}

/// What a run leaves: the configuration; the place history, with how many items the host of each directive
/// had before it, and the work log, the latest entry last; where each host stands; and what was discarded, that of
/// each queue in its order, which is nothing where the run was not abandoned.
#[derive(Drop)]
pub struct Outcome {
    pub config: Config,
    pub places: Vec<PlaceEntry>,
    pub counts: Vec<u64>,
    pub works: WorkLog,
    pub hosts: Vec<HostState>,
    pub discarded: Vec<Discarded>,
}
