//! What a run can be refused for.

ghost use Rattle.std.specs.Prelude.{◌≡◌};
ghost use Rattle.acc_driver.specs.Replays.{driver_fault};

use acc_base::Fault;
use acc_script::ReadFault;
use thiserror::Error;

/// Why an input has no report, or not the whole of it.
#[derive(Clone, Copy, Debug, PartialEq, Eq, Error)]
pub enum DriverFault {
    #[error("script {0}")]
    Script(ReadFault),
    #[error("schedule {0}")]
    Schedule(ReadFault),
    /// The reader failed, or its turns ended.
    #[error("cannot read")]
    Input,
    /// The writer failed, or took nothing.
    #[error("cannot write")]
    Output,
    #[error("out of memory")]
    Memory,
    /// The configuration, or the run as a whole, was refused.
    #[error("{0}")]
    Runtime(Fault),
}

/// Why two texts have no report, or not the whole of it. There is no reader that could fail.
#[derive(Clone, Copy, Debug, PartialEq, Eq, Error)]
pub enum ReplayFault {
    #[error("script {0}")]
    Script(ReadFault),
    #[error("schedule {0}")]
    Schedule(ReadFault),
    /// The writer failed, or took nothing.
    #[error("cannot write")]
    Output,
    #[error("out of memory")]
    Memory,
    /// The configuration, or the run as a whole, was refused.
    #[error("{0}")]
    Runtime(Fault),
}

impl ReplayFault {
    /// The same fault, of an input that the texts were read from.
    pub fn of_input(self) -> DriverFault
        ensures { result ≡ driver_fault self }
    {
        match self {
            ReplayFault::Script(fault) => DriverFault::Script(fault),
            ReplayFault::Schedule(fault) => DriverFault::Schedule(fault),
            ReplayFault::Output => DriverFault::Output,
            ReplayFault::Memory => DriverFault::Memory,
            ReplayFault::Runtime(fault) => DriverFault::Runtime(fault),
        }
    }
}
