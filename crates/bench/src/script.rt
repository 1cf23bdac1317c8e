//! A host's statements beside the events that run them, one directive after another, so that no
//! event is idle.

use acc_base::{DeviceId, FIRST_VALUE, Fault, Few, HostId, Listed, QueueAt, QueueId, Range};
use acc_core::{Act, DataItem, Directive, Event, Kind, Statement, Target, Waits, Written};
use std::alloc::Global;

/// The queue of the directives without an async clause, on the first device.
pub(crate) fn sync() -> QueueAt {
    QueueAt::sync(DeviceId::new(0))
}

/// The queue of an async value.
pub(crate) fn queue_of(device: u8, value: u8) -> QueueAt {
    QueueAt {
        device: DeviceId::new(device),
        queue: QueueId::of_value(u64::from(value)),
    }
}

/// The queues of these async values are waited for.
pub(crate) fn waits_for(alloc: Global, values: &[i64]) -> Result<Waits, Fault> {
    let values = Listed::from_vec(Vec::from_slice(alloc, values)?);
    Ok(Waits::Listed { values })
}

/// A host's statements, with the events that run them, each of which does something.
#[derive(Drop)]
pub struct Script {
    alloc: Global,
    pub statements: Vec<Statement>,
    /// How many of the events come before what is timed.
    pub opening: usize,
    pub events: Vec<Event>,
}

impl Script {
    pub(crate) fn new(alloc: Global) -> Script {
        Script {
            alloc,
            statements: Vec::new(alloc),
            opening: 0,
            events: Vec::new(alloc),
        }
    }

    /// Adds a directive whose batch has so many operations: the host places it, the queue takes and performs it, and
    /// the host sees that.
    pub(crate) fn place(
        &mut self,
        kind: Kind,
        items: &[DataItem],
        operations: u32,
    ) -> Result<(), Fault> {
        self.add_directive(kind, items, Target::Plain, Waits::Nothing)?;
        self.perform(sync(), operations)?;
        self.go_on()
    }

    /// The same on the queue of an async value: the host goes on at once. It may wait for others.
    pub(crate) fn place_on(
        &mut self,
        at: QueueAt,
        kind: Kind,
        items: &[DataItem],
        waits: Waits,
        operations: u32,
    ) -> Result<(), Fault> {
        let value = i64::from(at.queue.number()) - i64::from(FIRST_VALUE);
        self.add_directive(kind, items, Target::Value { value }, waits)?;
        self.perform(at, operations)
    }

    /// Adds a wait for all queues, which the host sees at once.
    pub(crate) fn wait(&mut self) -> Result<(), Fault> {
        self.add_directive(Kind::Wait, &[], Target::Plain, Waits::All)?;
        self.go_on()
    }

    /// Makes this device the current one.
    pub(crate) fn set_device(&mut self, device: u8) -> Result<(), Fault> {
        let device = u32::from(device);
        self.add(Act::SetDevice { device })
    }

    pub(crate) fn print(&mut self, range: Range) -> Result<(), Fault> {
        self.add(Act::Print { range })
    }

    fn add_directive(
        &mut self,
        kind: Kind,
        items: &[DataItem],
        target: Target,
        waits: Waits,
    ) -> Result<(), Fault> {
        let written = Written {
            kind,
            items: Few::from_slice(self.alloc, items)?,
            target,
            waits,
        };
        if !written.is_well_formed() {
            return Err(Fault::Unfinished);
        }
        let directive = Directive::new(self.alloc, written)?;
        self.add(Act::Place { directive })
    }

    // A statement, with the event of its host.
    fn add(&mut self, act: Act) -> Result<(), Fault> {
        self.statements.push(Statement { line: 0, act })?;
        self.go_on()
    }

    // A step of the host.
    fn go_on(&mut self) -> Result<(), Fault> {
        self.events.push(Event::Host(HostId::new(0)))?;
        Ok(())
    }

    // A queue takes its next batch, and performs all of it.
    fn perform(&mut self, at: QueueAt, operations: u32) -> Result<(), Fault> {
        let QueueAt { device, queue } = at;
        self.events.push(Event::Take(QueueAt { device, queue }))?;
        for _ in 0..operations {
            self.events.push(Event::Perform(QueueAt { device, queue }))?;
        }
        Ok(())
    }
}
