//! How a thread sleeps until another one has come so far.

ghost use Rattle.acc_base.specs.Faults.{OnlyMemory};

use acc_base::{Config, Fault};
use std::alloc::Global;
use std::sync::Wait;
use std::sync::atomic::{AtomicU64, Ordering};
use std::time::Duration;

/// How long a thread sleeps that is woken where there is something for it, in milliseconds.
pub(crate) const LONGEST_REST: u64 = 50;

/// An event count of something that is numbered. Who waits for a number listens for it, looks once more, and sleeps then if it hasn't come;
/// who comes to a number notifies those who listen. No wake-up is lost between the look and the sleep.
#[derive(Drop)]
pub(crate) struct EventCount {
    // the least number that was listened for since all were last woken
    wanted: AtomicU64,
    // how often all who listened were woken
    woken: AtomicU64,
}

impl EventCount {
    /// Nobody listens.
    pub(crate) fn new() -> Self {
        EventCount {
            wanted: AtomicU64::new(u64::MAX),
            woken: AtomicU64::new(0),
        }
    }

    /// Listens for a number. What is heard by now.
    pub(crate) fn listen(&self, number: u64) -> u64 {
        let heard = self.woken.load(Ordering::SeqCst);
        self.wanted.fetch_min(number, Ordering::SeqCst);
        heard
    }

    /// Sleeps until more is heard than by then, and for fifty milliseconds at most.
    pub(crate) fn wait<R: Wait>(&self, rt: &R, heard: u64) {
        // the system compares the lower half
        let low = (heard % (1 << 32)) as u32;
        self.woken
            .park_timeout(rt, low, Duration::from_millis(LONGEST_REST));
    }

    /// Wakes all who listen, where one of them listens for this number or for one before it.
    pub(crate) fn notify(&self, number: u64) {
        if self.wanted.load(Ordering::SeqCst) <= number {
            self.wanted.store(u64::MAX, Ordering::SeqCst);
            self.woken.fetch_add(1, Ordering::SeqCst);
            self.woken.wake_all();
        }
    }
}

// One for each queue, for which nobody listens.
pub(crate) fn event_counts_of(alloc: Global, config: &Config) -> Result<Vec<EventCount>, Fault>
    ensures { OnlyMemory result }
{
    let mut counts = Vec::new(alloc);
    for _ in 0..config.queue_count() {
        counts.push(EventCount::new())?;
    }
    Ok(counts)
}
