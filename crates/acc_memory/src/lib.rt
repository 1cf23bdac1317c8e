//! The memory: the host arrays, and the devices.
#![tactic(auto)]

mod blocks;
mod buckets;
mod device;
mod laws;
mod makes;
mod memory;
mod running;
mod window;

pub use laws::worked_runs;
pub use memory::Memory;
