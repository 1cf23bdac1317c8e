//! Where a host stands, and how it goes on.

ghost use Rattle.std.specs.Prelude.{◌≡◌};
ghost use Rattle.std.specs.List.{list_any};
ghost use Rattle.acc_host.specs.Hosts.{is_refused};

use acc_base::{DeviceId, Fault, QueueCounts};

/// A host's current device and default async value.
#[derive(Clone, Copy, Debug, PartialEq, Eq)]
pub struct Ids {
    pub device: DeviceId,
    pub default: i64,
}

/// So many batches of each queue of a device.
#[derive(Clone, Copy, Debug, PartialEq, Eq)]
pub struct Awaited {
    pub device: DeviceId,
    pub counts: QueueCounts,
}

/// What a host does next.
#[derive(Clone, Copy, Debug, PartialEq, Eq)]
pub enum Phase {
    Ready,
    /// It waits until each queue of the device has performed so many batches.
    Waits {
        device: DeviceId,
        counts: QueueCounts,
    },
    /// It asks whether each queue of the device has performed so many batches.
    Asks {
        device: DeviceId,
        counts: QueueCounts,
    },
    Refused {
        fault: Fault,
    },
}

/// How a host goes on after a step.
#[derive(Clone, Copy, Debug, PartialEq, Eq)]
pub enum After {
    /// The step wasn't possible yet.
    Idle,
    /// The statement has ended.
    Ended,
    /// The statement has ended, and set these.
    Set { ids: Ids },
    /// The statement has a second step, which waits.
    Waits { what: Awaited },
    /// The statement has a second step, which asks.
    Asks { what: Awaited },
}

/// The answer to a step.
#[derive(Clone, Copy, Debug, PartialEq, Eq)]
pub enum Reply {
    /// The step was made.
    Did,
    /// The step is not possible now.
    Idle,
    /// The host's statement was refused.
    Refused(Fault),
    /// The answer to a close: how many queues are left without their last batch.
    Remaining(u32),
}

/// Where a host stands in its program; `ended` counts the statements that it has ended.
#[derive(Clone, Copy, Debug, PartialEq, Eq)]
pub enum HostState {
    Running {
        ended: usize,
    },
    Finished,
    Refused {
        ended: usize,
        /// The line of the statement that was refused.
        line: u32,
        fault: Fault,
    },
}

/// Whether one of these hosts was refused.
pub fn any_refused(hosts: &[HostState]) -> bool
    ensures { result ≡ list_any is_refused hosts.now }
{
    hosts
        .iter()
        .any(|host| matches!(host, HostState::Refused { .. }))
}
