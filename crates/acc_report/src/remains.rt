//! What a run left, as its report reads it.

use acc_host::{Discarded, HostState};
use acc_place::Place;
use acc_work::WorkLog;

/// A run, as its report reads it: the place that accepted its directives, its work log, where each host stands, and what was
/// discarded.
#[derive(Clone, Copy)]
pub struct Run<'a> {
    pub place: &'a Place,
    pub works: &'a WorkLog,
    pub hosts: &'a [HostState],
    pub discarded: &'a [Discarded],
}
