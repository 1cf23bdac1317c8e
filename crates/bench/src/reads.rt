//! Reads of how many batches a queue has performed, while a script runs with threads.

use acc_base::{DeviceId, QueueAt, QueueId};
use acc_driver::{DriverFault, Monitor, OpenGate, Options, Reader, Remains, run_script};
use std::alloc::Global;
use std::sync::Wait;
use std::sync::atomic::{AtomicU64, Ordering};
use std::thread::Threads;

/// A monitor that reads one number so many times each time that it is shown how far the run has come.
#[derive(Drop)]
struct Reads {
    times: u32,
    // how many reads there were, and the last number that was read
    count: AtomicU64,
    last: AtomicU64,
}

impl Monitor for Reads {
    fn show(&self, reader: &mut Reader) {
        let mut last = 0u64;
        for _ in 0..self.times {
            last = read(reader);
        }
        self.last.store(last, Ordering::SeqCst);
        self.count
            .fetch_add(u64::from(self.times), Ordering::SeqCst);
    }

    fn end(&self) {}
}

// How many batches queue 0 of the first device has performed.
fn read(reader: &mut Reader) -> u64 {
    let device = DeviceId::new(0);
    let queue = QueueId::of_value(0);
    if reader.has_queue(QueueAt { device, queue }) {
        reader.progress(QueueAt { device, queue })
    } else {
        0
    }
}

/// Runs a script on so many devices, while a thread of its own reads so many times, and again each tenth of a second: how many reads
/// there were.
///
/// # Errors
///
/// Those of `run_script`.
pub fn reads_of<R: Threads + Wait + Sync>(
    rt: &R,
    alloc: Global,
    script: &[u8],
    devices: u8,
    times: u32,
) -> Result<u64, DriverFault> {
    let reads = Reads {
        times,
        count: AtomicU64::new(0),
        last: AtomicU64::new(0),
    };
    let mut script = script;
    let mut report = Vec::new(alloc);
    let options = Options {
        devices,
        ..Options::DEFAULT
    };
    run_script(
        rt,
        alloc,
        &mut script,
        options,
        &OpenGate,
        Some(&reads),
        &mut report,
        &mut Remains::nothing(),
    )?;
    Ok(reads.count.load(Ordering::SeqCst))
}
