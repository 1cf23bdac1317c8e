//! The core: directives of hosts are placed, and queues perform them, one event at a time.
#![tactic(auto)]

mod accelerator;
mod events;
mod laws;
mod queue;
mod world;

pub use acc_batch::{Label, OpLabel};
pub use acc_host::{Act, Event, HostProgram, HostState, Outcome, Reply, Statement};
pub use acc_place::{
    ASYNC_NOVAL, Clause, DataItem, Directive, Kind, MAX_DIRECTIVES, MAX_ITEMS, MAX_REGIONS,
    PlaceEntry, Placed, Region, Target, Waits, Written,
};
pub use acc_present::Entry;
pub use acc_work::{Counts, Entries, MAX_HOST_ITEMS, Told, Values, WorkEntry, WorkLog};
pub use laws::{
    each_queue_is_counted, programs_stay, runs_are_legal, worked_closes, worked_hosts,
    worked_programs, worked_queues,
};
pub use world::World;
