//! What the locks of running threads hold, and the runtime over them.
#![tactic(auto)]

mod abandon;
mod agreement;
mod calling;
mod ends;
mod event_count;
mod finish;
mod gate;
mod hosts;
pub mod laws;
mod marks;
mod pause;
mod place_side;
mod run;
mod runtime;
mod serve;
mod token;
mod turn;
mod watch;
mod work_side;
mod workers;

pub use gate::Gate;
pub use runtime::{FinishRefused, Runtime};
pub use token::{HostToken, TokenEntry};
