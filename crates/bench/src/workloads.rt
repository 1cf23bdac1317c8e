//! The worlds that are timed: what a host does over two arrays, turn by turn.

use crate::script::{Script, queue_of, waits_for};
use acc_base::{Fault, Range, Shared};
use acc_core::{Clause, DataItem, Kind, Waits};
use acc_kernel::{Kernel, KernelFault};
use std::alloc::{AllocError, Global};
use thiserror::Error;
use tool_loops::{PLUS, Part, TIMES, statements_of};

/// Why there is no such world.
#[derive(Debug, Drop, Error)]
pub enum Failure {
    #[error(transparent)]
    Fault(#[from] Fault),
    #[error(transparent)]
    Kernel(#[from] KernelFault),
    #[error("no memory")]
    Memory(#[from(alloc)] AllocError),
}

// What a host does again and again.
#[derive(Clone, Copy)]
enum Turn {
    /// A loop without clauses assigns array 1 from both arrays.
    Loop,
    /// Array 1 is entered and left.
    Copies,
    /// Array 1 is updated on the host or on the device, in turns.
    Update,
    /// Array 1 is entered, updated and left on three queues of a device.
    Queues { device: u8 },
    /// The same on the next device each time.
    Devices,
    /// Array 1 is updated on a queue, and again on another that waits for the first; a third waits for both, and the host for
    /// all.
    Waits,
}

/// What a world does, over arrays 0 and 1.
#[derive(Clone, Copy)]
pub struct Workload {
    pub devices: u8,
    /// How many cells each of the two arrays has.
    pub cells: u32,
    /// Whether ranges of other arrays are present all the time.
    pub has_others: bool,
    // whether a region copies both arrays in before the turns, and out behind them
    has_region: bool,
    turn: Turn,
}

/// The names of the workloads.
pub const NAMES: [&str; 10] = [
    "loops",
    "large-loops",
    "implicit",
    "copies",
    "large-copies",
    "updates",
    "live",
    "queues",
    "devices",
    "waits",
];

const SMALL: u32 = 8;

const LARGE: u32 = 65_536;

/// The workload of a name.
pub(crate) fn workload_of(name: &str) -> Option<Workload> {
    let (cells, has_region, turn) = match name {
        "loops" | "live" => (SMALL, true, Turn::Loop),
        "large-loops" => (LARGE, true, Turn::Loop),
        "implicit" => (SMALL, false, Turn::Loop),
        "copies" => (SMALL, false, Turn::Copies),
        "large-copies" => (LARGE, false, Turn::Copies),
        "updates" => (SMALL, true, Turn::Update),
        "queues" => (SMALL, false, Turn::Queues { device: 0 }),
        "devices" => (SMALL, false, Turn::Devices),
        "waits" => (SMALL, true, Turn::Waits),
        _ => return None,
    };
    Some(Workload {
        devices: if matches!(turn, Turn::Devices) {
            DEVICES
        } else {
            1
        },
        cells,
        has_others: name == "live",
        has_region,
        turn,
    })
}

// The most devices.
const DEVICES: u8 = 4;

/// The number behind the last array's, where there are others.
pub const ARRAYS: u8 = 64;

// How many ranges of each other array are present.
const RANGES: u32 = 16;

/// How many cells each other array has.
pub const OTHER_CELLS: u32 = 3 * RANGES;

// `b[i] = 3 * b[i] + a[i]`, where a is array 0 and b array 1
const VALUE: [Part; 5] = [
    Part::Number(3),
    Part::Read(1, 0),
    TIMES,
    Part::Read(0, 0),
    PLUS,
];

impl Workload {
    /// What the host does, with so many turns.
    pub(crate) fn script(&self, alloc: Global, turns: u32) -> Result<Script, Failure> {
        let mut script = Script::new(alloc);
        if self.has_others {
            enter_others(alloc, &mut script)?;
        }
        if self.has_region {
            let both = [self.whole(0, Clause::Copy), self.whole(1, Clause::Copy)];
            script.place(Kind::Data, both.as_slice(), 4)?;
        }
        script.opening = script.events.len();
        let kernel = Shared::new(alloc, kernel_of(alloc, self.cells)?)?;
        for number in 0..turns {
            self.add_turn(alloc, &kernel, number, &mut script)?;
        }
        if self.has_region {
            // behind waits, it awaits the two queues that used array 1
            let operations = if matches!(self.turn, Turn::Waits) {
                6
            } else {
                4
            };
            script.place(Kind::EndData, &[], operations)?;
        }
        script.print(self.range(1))?;
        Ok(script)
    }

    fn add_turn(
        &self,
        alloc: Global,
        kernel: &Shared<Kernel>,
        number: u32,
        script: &mut Script,
    ) -> Result<(), Fault> {
        match self.turn {
            Turn::Loop => {
                // alone, it makes, copies in, copies out and releases both arrays
                let operations = if self.has_region { 1 } else { 9 };
                let kernel = kernel.try_clone()?;
                script.place(Kind::Loop { kernel }, &[], operations)
            }
            Turn::Copies => {
                let entered = [self.whole(1, Clause::Copyin)];
                script.place(Kind::EnterData, entered.as_slice(), 2)?;
                let left = [self.whole(1, Clause::Copyout)];
                script.place(Kind::ExitData { finalize: false }, left.as_slice(), 2)
            }
            Turn::Update => {
                let clause = if number % 2 == 0 {
                    Clause::UpdateSelf
                } else {
                    Clause::UpdateDevice
                };
                let updated = [self.whole(1, clause)];
                script.place(Kind::Update { if_present: false }, updated.as_slice(), 1)
            }
            Turn::Queues { device } => self.add_queues(device, script),
            Turn::Devices => {
                let device = (number % u32::from(DEVICES)) as u8;
                script.set_device(device)?;
                self.add_queues(device, script)
            }
            Turn::Waits => self.add_waits(alloc, script),
        }
    }

    // What is entered by one queue is used by another, which awaits the first, and left by a third, which awaits both.
    fn add_queues(&self, device: u8, script: &mut Script) -> Result<(), Fault> {
        let entered = [self.whole(1, Clause::Copyin)];
        let used = [self.whole(1, Clause::UpdateSelf)];
        let left = [self.whole(1, Clause::Copyout)];
        let first = queue_of(device, 1);
        script.place_on(first, Kind::EnterData, &entered, Waits::Nothing, 2)?;
        let second = queue_of(device, 2);
        let update = Kind::Update { if_present: false };
        script.place_on(second, update, &used, Waits::Nothing, 2)?;
        let third = queue_of(device, 3);
        let exit = Kind::ExitData { finalize: false };
        script.place_on(third, exit, &left, Waits::Nothing, 4)
    }

    // Each use awaits queue sync, which made the block, and what its wait clause names.
    fn add_waits(&self, alloc: Global, script: &mut Script) -> Result<(), Fault> {
        let sent = [self.whole(1, Clause::UpdateDevice)];
        let fetched = [self.whole(1, Clause::UpdateSelf)];
        let update = Kind::Update { if_present: false };
        script.place_on(queue_of(0, 1), update, &sent, Waits::Nothing, 2)?;
        let update = Kind::Update { if_present: false };
        let one = waits_for(alloc, &[1])?;
        script.place_on(queue_of(0, 2), update, &fetched, one, 3)?;
        let both = waits_for(alloc, &[1, 2])?;
        script.place_on(queue_of(0, 3), Kind::Wait, &[], both, 2)?;
        script.wait()
    }

    fn whole(&self, array: u8, clause: Clause) -> DataItem {
        DataItem {
            clause,
            range: self.range(array),
        }
    }

    // All cells of one of the two arrays.
    fn range(&self, array: u8) -> Range {
        Range {
            array,
            lo: 0,
            len: self.cells,
        }
    }
}

fn kernel_of(alloc: Global, cells: u32) -> Result<Kernel, Failure> {
    let statements = statements_of(alloc, &[(1, &VALUE)])?;
    Ok(Kernel::new(alloc, 0, i64::from(cells), statements)?)
}

// Enters ranges of two cells of each other array, those of an array by one directive.
fn enter_others(alloc: Global, script: &mut Script) -> Result<(), Failure> {
    for array in 2..ARRAYS {
        let mut items = Vec::new(alloc);
        for number in 0..RANGES {
            let range = Range {
                array,
                lo: 3 * number,
                len: 2,
            };
            items.push(DataItem {
                clause: Clause::Copyin,
                range,
            })?;
        }
        script.place(Kind::EnterData, items.as_slice(), 2 * RANGES)?;
    }
    Ok(())
}
