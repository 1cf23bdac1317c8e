//! Names, ranges, faults and limits: what every other crate speaks of.
#![tactic(auto)]

mod boxed;
mod config;
mod fault;
mod few;
mod ids;
mod listed;
mod range;
mod shared;

pub use boxed::Boxed;
pub use config::{Config, MAX_ARRAYS, MAX_CAPACITY, MAX_CELLS, MAX_DEVICES, MAX_HOSTS, MAX_ROOM};
pub use fault::Fault;
pub use few::Few;
pub use ids::{
    BlockId, DeviceId, FIRST_VALUE, HostId, QUEUES, QueueAt, QueueCounts, QueueId, VALUES,
    is_nothing,
};
pub use listed::Listed;
pub use range::Range;
pub use shared::Shared;
