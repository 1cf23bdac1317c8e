//! One run of a timed world, and what came of it in numbers.

use crate::script::Script;
use crate::workloads::{ARRAYS, Failure, OTHER_CELLS, Workload};
use acc_base::{Config, Fault, HostId, Listed, MAX_CAPACITY};
use acc_core::{HostProgram, Reply, Statement, Told, WorkEntry, WorkLog, World};
use std::alloc::{AllocError, Global};
use std::fmt::{self, Display, Formatter, Write};

/// What came of a run.
#[derive(Clone, Copy, Default)]
pub struct Tally {
    /// How many events there were.
    pub events: usize,
    /// How many of them did something.
    pub did: u64,
    /// How many operations all queues performed.
    pub operations: u64,
    /// What the last print showed, as one number.
    pub sum: i64,
}

impl Display for Tally {
    fn fmt<W: Write>(&self, f: &mut Formatter<W>) -> fmt::Result {
        write!(
            f,
            "did {} of {} operations {} sum {}",
            self.did, self.events, self.operations, self.sum
        )
    }
}

/// Runs a workload with so many turns, or its opening alone.
pub(crate) fn tally_of(
    alloc: Global,
    workload: &Workload,
    turns: u32,
    is_whole: bool,
) -> Result<Tally, Failure> {
    let Script {
        statements,
        opening,
        events,
        ..
    } = workload.script(alloc, turns)?;
    let mut world = world_of(alloc, workload, statements)?;
    let events = events.as_slice();
    let count = if is_whole {
        events.len()
    } else {
        opening.min(events.len())
    };
    let replies = world.run(&events[..count])?;
    Ok(Tally {
        events: count,
        did: did_in(replies.as_slice()),
        operations: operations_in(world.log()),
        sum: sum_of(world.log()),
    })
}

// How many batches a queue holds; it never has more than one here.
const ROOM: u32 = 4;

// One host with these statements.
fn world_of(
    alloc: Global,
    workload: &Workload,
    statements: Vec<Statement>,
) -> Result<Box<World>, Fault> {
    let arrays = arrays_of(alloc, workload)?;
    let config = Config::new(alloc, workload.devices, 1, arrays, MAX_CAPACITY, ROOM)?;
    let program = HostProgram {
        host: HostId::new(0),
        statements: Listed::from_vec(statements),
    };
    let programs = vec![in alloc; program]?;
    Ok(Box::new(alloc, World::new(alloc, config, programs)?)?)
}

fn arrays_of(alloc: Global, workload: &Workload) -> Result<Vec<Vec<i64>>, AllocError> {
    let mut arrays = vec![in alloc;
        cells_of(alloc, 37, workload.cells)?,
        cells_of(alloc, 53, workload.cells)?,
    ]?;
    if workload.has_others {
        for array in 2..ARRAYS {
            arrays.push(cells_of(alloc, u32::from(array), OTHER_CELLS)?)?;
        }
    }
    Ok(arrays)
}

// Multiples of a number, modulo 101.
fn cells_of(alloc: Global, factor: u32, count: u32) -> Result<Vec<i64>, AllocError> {
    let mut cells = Vec::new(alloc);
    for n in 0..count {
        cells.push(i64::from(n.wrapping_mul(factor) % 101))?;
    }
    Ok(cells)
}

// How many of a log's entries are operations.
fn operations_in(log: &WorkLog) -> u64 {
    let mut operations = 0u64;
    for entry in log.iter() {
        if let WorkEntry::Op { .. } = entry {
            operations = operations.wrapping_add(1);
        }
    }
    operations
}

fn did_in(replies: &[Reply]) -> u64 {
    let mut did = 0u64;
    for reply in replies {
        if *reply == Reply::Did {
            did = did.wrapping_add(1);
        }
    }
    did
}

// What the log's last entry shows, if it is a print.
fn sum_of(log: &WorkLog) -> i64 {
    let mut sum = 0i64;
    if let Some(
        WorkEntry::Item {
            what: Told::Print { values, .. },
            ..
        },
    ) = log.iter().last()
    {
        for value in values.get().iter() {
            sum = sum.wrapping_mul(31).wrapping_add(value);
        }
    }
    sum
}
