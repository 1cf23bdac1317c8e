//! The rows of a picture: the ranges that directives name, and what held each, from column to column.

ghost use Rattle.std.specs.Prelude.{◌≡◌};
ghost use Rattle.acc_base.specs.Faults.{OnlyMemory};

use crate::found::held_on;
use acc_base::{DeviceId, Fault, Range};
use acc_core::World;
use acc_place::{DataItem, PlaceEntry};
use std::alloc::Global;

/// The most ranges that are shown.
const MAX_ROWS: usize = 32;

/// A range was held since this column, with this structured and this dynamic counter.
#[derive(Clone, Copy)]
pub(crate) struct Since {
    pub(crate) column: usize,
    pub(crate) structured: u64,
    pub(crate) dynamic: u64,
}

/// A range that a directive names, and since when it is held, if it is.
#[derive(Clone, Copy)]
pub(crate) struct Row {
    pub(crate) device: DeviceId,
    pub(crate) range: Range,
    pub(crate) since: Option<Since>,
}

/// The range of a row was held up to this column.
#[derive(Clone, Copy)]
pub(crate) struct Held {
    pub(crate) row: usize,
    pub(crate) since: Since,
    pub(crate) to: usize,
}

/// The ranges, and what held them before.
#[derive(Drop)]
pub(crate) struct Counts {
    pub(crate) rows: Vec<Row>,
    pub(crate) held: Vec<Held>,
}

impl Counts {
    pub(crate) fn new(alloc: Global) -> Self {
        Counts {
            rows: Vec::new(alloc),
            held: Vec::new(alloc),
        }
    }

    /// Adds the ranges of the directive that was accepted last, in this column, and notes what holds each range now.
    ///
    /// # Errors
    ///
    /// `Memory` where memory is refused.
    pub(crate) fn note(&mut self, world: &World, column: usize) -> Result<(), Fault>
        ensures fault { OnlyMemory result }
    {
        if let Some(PlaceEntry::Accepted { host: _, directive }) = world.place().history().last() {
            for item in directive.items().as_slice() {
                add_row(&mut self.rows, directive.device(), item)?;
            }
        }
        for (index, row) in self.rows.iter_mut().enumerate() {
            look(&mut self.held, world, column, index, row)?;
        }
        Ok(())
    }
}

// Adds a range, if it isn't there yet and there aren't too many.
fn add_row(rows: &mut Vec<Row>, device: DeviceId, item: &DataItem) -> Result<(), Fault>
    ensures fault { OnlyMemory result }
{
    let range = item.range;
    let is_there = rows
        .iter()
        .any(|row| row.device == device && row.range == range);
    if !is_there && rows.len() < MAX_ROWS {
        rows.push(Row {
            device,
            range,
            since: None,
        })?;
    }
    Ok(())
}

// Looks what holds a range behind the box of this column.
fn look(
    held: &mut Vec<Held>,
    world: &World,
    column: usize,
    index: usize,
    row: &mut Row,
) -> Result<(), Fault>
    ensures fault { OnlyMemory result }
{
    let now = held_on(world, row.device, row.range);
    if now == counters_of(row.since) {
        return Ok(());
    }
    if let Some(since) = row.since {
        held.push(Held {
            row: index,
            since,
            to: column,
        })?;
    }
    row.since = since_column(column, now);
    Ok(())
}

fn counters_of(since: Option<Since>) -> Option<(u64, u64)> {
    match since {
        Some(since) => Some((since.structured, since.dynamic)),
        None => None,
    }
}

fn since_column(column: usize, counters: Option<(u64, u64)>) -> Option<Since> {
    match counters {
        Some((structured, dynamic)) => Some(Since {
            column,
            structured,
            dynamic,
        }),
        None => None,
    }
}
