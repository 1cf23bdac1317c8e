//! What a run is given, and how it ends.

/// What a run is given beside its texts: the number of devices, the cells that each device has for present
/// ranges, and the room of each queue in batches.
#[derive(Clone, Copy, Debug, PartialEq, Eq)]
pub struct Options {
    pub devices: u8,
    pub cells: u64,
    pub room: u32,
}

impl Options {
    /// What `accq` takes where nothing else is said.
    pub const DEFAULT: Options = Options {
        devices: 1,
        cells: 4_194_304,
        room: 64,
    };
}

/// How a run that was reported ended: whether a host was refused.
#[derive(Clone, Copy, Debug, PartialEq, Eq)]
pub struct Ended {
    pub refused: bool,
}
