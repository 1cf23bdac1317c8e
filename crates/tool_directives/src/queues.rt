//! A queue by two numbers, and the counts of a device's queues by those that have one.

use acc_base::{DeviceId, QUEUES, QueueAt, QueueCounts, QueueId};

pub fn queue(device: u8, number: u8) -> QueueAt {
    QueueAt {
        device: DeviceId::new(device),
        queue: QueueId::new(number),
    }
}

/// The first device's synchronous queue.
pub fn sync() -> QueueAt {
    QueueAt::sync(DeviceId::new(0))
}

/// These counts, each behind its queue; the other queues have none.
pub fn counts_of(counts: &[(u8, u64)]) -> QueueCounts {
    let mut all = [0; QUEUES as usize];
    for (queue, count) in counts {
        if *queue < QUEUES {
            all[usize::from(*queue)] = *count;
        }
    }
    all
}
