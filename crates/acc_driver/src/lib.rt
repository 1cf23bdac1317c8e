//! From bytes to bytes: a script and a schedule are read, run, and reported; or a script alone, which threads run; or both are
//! checked, and not run.
#![tactic(auto)]

mod checks;
mod explorations;
mod fault;
mod input;
mod laws;
mod monitor;
mod options;
mod program;
mod remains;
mod replays;
mod runs;
mod steps;

pub use acc_explore::{Counts, Form, PrefixCount, Watcher};
pub use acc_queue::Reader;
pub use acc_run::Gate;
pub use acc_script::{ReadFault, ReadKind};
pub use checks::{CheckFault, Named, check, check_one};
pub use explorations::{Aim, Explored, Exploring, explore, explore_script};
pub use fault::{DriverFault, ReplayFault};
pub use input::split;
pub use laws::{prefixes_are_parts, worked_replays, worked_splits};
pub use monitor::{Monitor, NoMonitor};
pub use options::{Ended, Options};
pub use remains::Remains;
pub use replays::{
    INPUT_LIMIT, INPUT_TURNS, TEXT_LIMIT, TEXT_TURNS, replay, replay_one, replay_texts,
};
pub use runs::{OpenGate, run_script};
pub use steps::{StepsAs, show, show_one};
