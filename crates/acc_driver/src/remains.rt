//! What a run leaves behind its report.

use acc_host::{HostProgram, HostState, Outcome};
use acc_place::Place;
use acc_work::Work;
use std::marker::Model;

/// What a run leaves behind its report, for its caller to let go: the place and the work side of a replay, or the histories of
/// threads; where each host stands, and the programs. To let it go value by value takes as long as a tenth of a run; a program that
/// ends then can leave it to the end of its process, by `ManuallyDrop`. Contracts see nothing of it.
#[derive(Drop)]
pub struct Remains {
    left: Left,
}

// What is left, by what ran.
#[derive(Drop)]
enum Left {
    Nothing,
    Replay {
        place: Place,
        work: Work,
        hosts: Vec<HostState>,
        programs: Vec<HostProgram>,
    },
    Threads {
        outcome: Outcome,
        programs: Vec<HostProgram>,
    },
}

impl Model for Remains {
    ghost Value = { Unit {0} };

    ghost view = { λ _. tt };
}

impl Remains {
    /// Nothing, as before a run.
    pub fn nothing() -> Remains {
        Remains {
            left: Left::Nothing,
        }
    }

    // What a replay left.
    pub(crate) fn of_replay(
        place: Place,
        work: Work,
        hosts: Vec<HostState>,
        programs: Vec<HostProgram>,
    ) -> Remains {
        Remains {
            left: Left::Replay {
                place,
                work,
                hosts,
                programs,
            },
        }
    }

    // What threads left.
    pub(crate) fn of_threads(outcome: Outcome, programs: Vec<HostProgram>) -> Remains {
        Remains {
            left: Left::Threads { outcome, programs },
        }
    }
}
