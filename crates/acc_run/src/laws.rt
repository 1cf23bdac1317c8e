//! What the locks hold and what they leave, and laws over the definitions, as functions without a body.

ghost use Rattle.acc_run.specs.Agreement.{TokensFollow};
ghost use Rattle.acc_run.specs.Finishing.{EndedSidesAreFinished, StoppedSidesAreLegal};
ghost use Rattle.acc_run.specs.Running.{NewHostsArePaired};

pub use crate::abandon::abandon_sides;
pub use crate::finish::{Sides, SidesRefused, finish_sides};
pub use crate::place_side::PlaceSide;
pub use crate::work_side::WorkSide;

/// Where both sides and the tokens are of one run, wherever it stops, its histories are legal, and what was placed on a queue is what
/// it has performed, and then what is left of it.
pub fn stopped_sides_are_legal()
    ensures { StoppedSidesAreLegal }
{}

/// Where each queue has performed its close besides, it has performed all that was placed on it, its close last.
pub fn ended_sides_are_finished()
    ensures { EndedSidesAreFinished }
{}

/// Where a token's list agrees with both histories, and follows its host's program as far as the host has come, the host's own entries
/// in the histories follow it too.
pub fn tokens_follow()
    ensures { TokensFollow }
{}

/// New hosts of programs in their order, and the tokens of a new runtime, where there are as many, are paired as a run asks.
#[tactic(auto, using(crate::proofs::PairedHosts::new_paired))]
pub fn new_hosts_are_paired()
    ensures { NewHostsArePaired }
{}
