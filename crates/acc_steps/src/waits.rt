//! The arrows of a picture: from what was awaited to the await.

ghost use Rattle.std.specs.Prelude.{◌≡◌};
ghost use Rattle.acc_base.specs.Faults.{OnlyMemory};

use crate::deed::Deed;
use crate::lane::Lane;
use acc_base::{Fault, QueueAt};
use acc_batch::OpLabel;
use acc_host::Event;
use std::alloc::Global;

/// Where a box stands: its column, and its lane.
pub(crate) type Place = (usize, Lane);

/// A queue has performed an operation of the batch with this number, in this box.
#[derive(Clone, Copy)]
struct Performed {
    device: u8,
    queue: u8,
    number: u64,
    place: Place,
}

/// From the box of what was awaited to that of the await.
#[derive(Clone, Copy)]
pub(crate) struct Arrow {
    pub(crate) from: Place,
    pub(crate) to: Place,
}

/// The arrows, and what was performed.
#[derive(Drop)]
pub(crate) struct Waits {
    pub(crate) arrows: Vec<Arrow>,
    performed: Vec<Performed>,
}

impl Waits {
    pub(crate) fn new(alloc: Global) -> Self {
        Waits {
            arrows: Vec::new(alloc),
            performed: Vec::new(alloc),
        }
    }

    /// Notes what an event has performed, if it is one of a queue, with an arrow from what that has awaited.
    ///
    /// # Errors
    ///
    /// `Memory` where memory is refused.
    pub(crate) fn note(&mut self, event: Event, deed: &Deed, place: Place) -> Result<(), Fault>
        ensures fault { OnlyMemory result }
    {
        match (event, deed) {
            (Event::Perform(at), Deed::Performed { number, what }) => {
                self.add(at, *number, what, place)
            }
            _ => Ok(()),
        }
    }

    fn add(&mut self, at: QueueAt, number: u64, op: &OpLabel, place: Place) -> Result<(), Fault>
        ensures fault { OnlyMemory result }
    {
        let device = at.device.number();
        if let OpLabel::Await { queue, number } = op {
            self.add_arrow(device, queue.number(), *number, place)?;
        }
        self.performed.push(Performed {
            device,
            queue: at.queue.number(),
            number,
            place,
        })?;
        Ok(())
    }

    // An arrow from what a queue has performed last of a batch.
    fn add_arrow(&mut self, device: u8, queue: u8, number: u64, to: Place) -> Result<(), Fault>
        ensures fault { OnlyMemory result }
    {
        let done = self.performed.iter().rev().find(|done| done.device == device
            && done.queue == queue
            && done.number == number);
        if let Some(done) = done {
            let from = done.place;
            self.arrows.push(Arrow { from, to })?;
        }
        Ok(())
    }
}
