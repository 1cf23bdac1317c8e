//! Programs of hosts, and their steps over an engine.
#![tactic(auto)]

mod engine;
mod event;
mod host;
mod laws;
mod outcome;
mod own_entries;
mod program;
mod state;
mod turn;

pub use engine::Engine;
pub use event::Event;
pub use host::{Host, ready_hosts};
pub use laws::{hosts_follow, worked_hosts};
pub use outcome::{Discarded, Outcome};
pub use own_entries::{OwnDirective, OwnDirectives, OwnEntries, OwnEntry, OwnItems};
pub use program::{Act, HostProgram, Statement, copies_of};
pub use state::{After, Awaited, HostState, Ids, Phase, Reply, any_refused};
pub use turn::owed_by;
