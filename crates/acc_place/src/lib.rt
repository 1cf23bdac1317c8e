//! What directives mean: the marks that they leave on a device, the faults that refuse them, and their batches.
#![tactic(auto)]

mod answer;
mod awaits;
mod clauses;
mod closes;
mod device;
mod directive;
mod fits;
mod judge;
mod labels;
mod laws;
mod loops;
mod marked;
mod ops;
mod place;
mod plan;
mod readings;
mod regions;
mod same;
mod subject;
mod targets;
mod trial;

pub use answer::Answer;
pub use directive::{
    ASYNC_NOVAL, ASYNC_SYNC, Clause, DataItem, Directive, Kind, MAX_DIRECTIVES, MAX_ITEMS,
    MAX_REGIONS, MAX_WAITS, PlaceEntry, Placed, Region, Target, Waits, Written,
};
pub use laws::{
    accepted_closes_are_last, accepted_directives_are_counted, accepted_labels_are_sound,
    accepted_labels_are_there, accepted_loops_have_their_cells, ends_take_back_their_entries,
    plans_are_kept, plans_outlast_their_batches, reach_is_judged, worked_batches, worked_clauses,
    worked_closing, worked_directives, worked_loops, worked_no_create, worked_queues,
    worked_refusals, worked_regions,
};
pub use place::Place;
pub use plan::Plan;
pub use targets::target_queue;
