//! Schedules: their texts are read, line by line, and faults of them told with their lines.
#![tactic(auto)]

mod line;
mod schedule;
mod turn;
mod words;

pub use schedule::{Schedule, read_schedule};
pub use turn::{MAX_TIMES, ScheduleLine, Turn};
