//! The work side: what queues have performed and hosts have done, with the memory that shows it.
#![tactic(auto)]

mod ahead;
mod item;
mod job;
mod known;
mod lane;
mod laws;
mod log;
mod ready;
mod record;
mod work;
mod work_log;

pub use acc_batch::{Counts, Told, Values, WorkEntry};
pub use ahead::Ahead;
pub use item::{Item, ItemLabel, Shown};
pub use job::JobOut;
pub use laws::{any_order_is_live, never_stuck, whole_is_greatest, worked_logs};
pub use log::MAX_HOST_ITEMS;
pub use work::{Done, Work};
pub use work_log::{Entries, Pages, WorkLog};
