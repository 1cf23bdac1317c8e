//! How a thread waits until queues have performed so many batches. What it sees is no more than a reason to ask for the work lock.

use crate::event_count::EventCount;
use acc_base::{DeviceId, QUEUES, QueueAt, QueueCounts, QueueId};
use acc_queue::Reader;
use std::hint;
use std::sync::Wait;

// Whether a reader sees that a queue has performed so many batches. Of a queue that isn't there it sees nothing, and says so.
fn is_seen(reader: &mut Reader, at: QueueAt, number: u64) -> bool {
    let QueueAt { device, queue } = at;
    if !reader.has_queue(QueueAt { device, queue }) {
        return true;
    }
    number <= reader.progress(QueueAt { device, queue })
}

// How often a thread looks before it sleeps, some ten microseconds in all: about what it costs to be woken.
const LOOKS: u32 = 1_000;

/// Waits until a reader sees that a queue has performed so many batches: it looks again and again, and then sleeps until it is woken.
pub(crate) fn wait_seen<R: Wait>(
    rt: &R,
    performed: &[EventCount],
    reader: &mut Reader,
    at: QueueAt,
    number: u64,
) {
    let QueueAt { device, queue } = at;
    let Some(performed) = performed.get(QueueAt { device, queue }.seat()) else {
        return;
    };
    for _ in 0..LOOKS {
        if is_seen(reader, QueueAt { device, queue }, number) {
            return;
        }
        hint::spin_loop();
    }
    for _ in rt.forever() {
        let heard = performed.listen(number);
        if is_seen(reader, QueueAt { device, queue }, number) {
            return;
        }
        performed.wait(rt, heard);
    }
}

/// Waits until it sees that each queue of a device has performed so many.
pub(crate) fn wait_all_seen<R: Wait>(
    rt: &R,
    performed: &[EventCount],
    reader: &mut Reader,
    device: DeviceId,
    counts: &QueueCounts,
) {
    for number in 0..QUEUES {
        let count = counts[usize::from(number)];
        if count > 0 {
            let queue = QueueId::new(number);
            wait_seen(rt, performed, reader, QueueAt { device, queue }, count);
        }
    }
}
