//! What is explored, and how far.

use acc_base::Config;
use acc_host::{Event, HostProgram};
use std::alloc::Global;

/// What is searched, and how.
#[derive(Clone, Copy)]
pub(crate) struct Task<'a> {
    pub(crate) alloc: Global,
    pub(crate) config: &'a Config,
    pub(crate) programs: &'a [HostProgram],
    /// What leads to the start.
    pub(crate) before: &'a [Event],
    /// Whether the owner may close.
    pub(crate) closing: bool,
    /// How many states are kept at most, without the start.
    pub(crate) most: u32,
    /// Whether no host asks how far queues have come, now or later.
    pub(crate) unasked: bool,
}
