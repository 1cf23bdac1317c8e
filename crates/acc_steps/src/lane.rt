//! The lanes of a picture: one for each host and each queue, and one for the owner.

/// Whose lane it is.
#[derive(Clone, Copy, Debug, PartialEq, Eq)]
pub(crate) enum Lane {
    Host(u8),
    Queue { device: u8, queue: u8 },
    Owner,
}

impl Lane {
    // The lanes stand in this order: hosts, queues by device, the owner.
    pub(crate) fn rank(self) -> u32 {
        match self {
            Lane::Host(host) => u32::from(host),
            Lane::Queue { device, queue } => 256 + u32::from(device) * 256 + u32::from(queue),
            Lane::Owner => u32::MAX,
        }
    }
}
