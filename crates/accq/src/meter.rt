//! The line on a terminal that tells how far a run or an exploration has come.

use acc_base::{FIRST_VALUE, MAX_DEVICES, QUEUES, QueueAt, QueueId};
use acc_driver::{Monitor, Reader, Watcher};
use std::io::{IsTerminal, Result, Write};

/// Where the cursor goes back to the beginning of its line, and what stands there is gone.
const CLEAR: &[u8] = b"\r\x1b[K";

/// How many bytes a line has at most, so that a terminal keeps it on one row.
const WIDTH: usize = 79;

/// How many queues there are at most.
pub(crate) const MAX_SEATS: usize = MAX_DEVICES as usize * QUEUES as usize;

/// A line on the terminal to which the errors go, written anew in its place each time.
#[derive(Drop)]
pub struct Meter<'a> {
    rt: &'a HostRuntime,
}

/// A meter, where the errors go to a terminal.
pub fn on_terminal(rt: &HostRuntime) -> Option<Meter<'_>> {
    if rt.stderr().is_terminal() {
        Some(Meter { rt })
    } else {
        None
    }
}

impl<'a> Monitor for Meter<'a> {
    fn show(&self, reader: &mut Reader) {
        let mut performed = [0; MAX_SEATS];
        read_all(reader, &mut performed);
        let mut line = Vec::new(self.rt.alloc());
        if put_line(&mut line, &performed).is_ok() {
            line.truncate(WIDTH);
            let mut errors = self.rt.stderr();
            let _ = errors.write_all(CLEAR);
            let _ = errors.write_all(line.as_slice());
        }
    }

    fn end(&self) {
        let _ = self.rt.stderr().write_all(CLEAR);
    }
}

impl<'a> Watcher for Meter<'a> {
    fn found(&self, states: u32) {
        let mut errors = self.rt.stderr();
        let _ = errors.write_all(CLEAR);
        let _ = write!(errors, "{states} states");
    }

    fn end(&self) {
        let _ = self.rt.stderr().write_all(CLEAR);
    }
}

// How many batches each queue has performed, by device, then in queue order, and 0 for those that aren't there.
fn read_all(reader: &mut Reader, performed: &mut [u64; MAX_SEATS]) {
    for seat in 0..MAX_SEATS {
        let QueueAt { device, queue } = QueueAt::at_seat(seat as u16);
        if reader.has_queue(QueueAt { device, queue }) {
            performed[seat] = reader.progress(QueueAt { device, queue });
        }
    }
}

/// Writes how many batches each queue has performed that has performed one: by device, then in queue order.
pub(crate) fn put_line<W: Write>(line: &mut W, performed: &[u64; MAX_SEATS]) -> Result<()> {
    line.write_all(b"performed:")?;
    for seat in 0..MAX_SEATS {
        let QueueAt { device, queue } = QueueAt::at_seat(seat as u16);
        let number = performed[seat];
        if number > 0 {
            write!(line, " {}/", device.number())?;
            put_queue(line, queue)?;
            write!(line, ":{number}")?;
        }
    }
    Ok(())
}

// Writes a queue's name: that of an async value stands so far behind that value as the first of them.
fn put_queue<W: Write>(line: &mut W, queue: QueueId) -> Result<()> {
    if queue == QueueId::SYNC {
        line.write_all(b"sync")
    } else if queue == QueueId::NOVAL {
        line.write_all(b"noval")
    } else {
        write!(line, "{}", queue.number().saturating_sub(FIRST_VALUE))
    }
}
