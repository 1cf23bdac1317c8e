//! What the work log tells: an operation that a queue performed, or an item of a host.

use crate::counts::Counts;
use crate::label::OpLabel;
use crate::values::Values;
use acc_base::{Boxed, DeviceId, HostId, QueueAt, Range};
use std::mem::size_of;

/// An item of a host as the log tells it: what it did, and what it showed.
#[derive(Drop)]
pub enum Told {
    Write {
        array: u8,
        cell: u32,
        value: i64,
    },
    Print {
        range: Range,
        values: Boxed<Values>,
    },
    /// The host saw that each queue of the device had performed so many batches.
    Seen {
        device: DeviceId,
        counts: Counts,
    },
    /// The host asked whether each had, and this was the answer.
    Test {
        device: DeviceId,
        answer: bool,
        counts: Counts,
    },
}

/// An entry of the work log.
#[derive(Drop)]
pub enum WorkEntry {
    Op { at: QueueAt, what: OpLabel },
    Item { host: HostId, what: Told },
}

// The log keeps each.
const _: () = prove!(size_of::<WorkEntry>() == 32);
