//! All that can happen to a script, whatever the schedule: a search for the states that events lead to, the reports of their ends, and
//! laws over the machine.
#![tactic(auto)]

mod alike;
mod apart;
mod arrival;
mod cells;
mod conflicts;
mod digest;
mod directives;
mod events;
mod found_worlds;
mod going_first;
mod histories;
mod items;
mod laws;
mod naming;
mod placed;
mod placing;
mod prefixes;
mod reached;
mod replay;
mod reports;
mod schedule;
mod search;
mod task;
mod unplaced;
mod unseen;
mod worlds;

pub use alike::are_alike;
pub use apart::stands_apart;
pub use arrival::{Arrival, path};
pub use laws::{
    alike_states_stay_alike, apart_operations_commute, arrivals_are_reached,
    closed_queues_need_no_close, cuts_miss_no_end, endings_are_said, ends_are_over,
    events_keep_the_script, explorations_miss_nothing, own_statements_commute, placements_commute,
    prefixes_miss_none_together, reached_waits_commute, reductions_miss_no_end,
    spelled_schedules_are_read, steps_are_ample_unless_refused, takes_commute,
    unseen_operations_commute,
};
pub use prefixes::{PrefixCount, tell_prefixes};
pub use replay::{world_behind, world_found};
pub use reports::{Counts, Form, Origin, tell_reports};
pub use schedule::put_schedule;
pub use search::{Exploration, Watcher, explore};
pub use unseen::stands_unseen;
