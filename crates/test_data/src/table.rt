//! A present table through long rows of calls, with both counters and up to sixty thousand ranges, where a
//! contract tells of one call; room that is refused once; and what a dropped table held, which is free again.

ghost use Rattle.std.specs.Prelude.{◌≡◌, ◌<◌};

use crate::fixtures::{CELLS, cells, check_same, entered_by, entered_into, left_by_region};
use acc_base::{BlockId, Fault, Range};
use acc_present::{Counter, Entered, Entry, Left, Look, Table};
use acc_raw::Chain;
use std::alloc::{AllocError, Global};
use std::process::Abort;
use std::test::Fail;
use tool_scarce::{Hoard, at_each_amount};

#[test]
fn a_range_is_entered(rt: HostRuntime) {
    let mut table = Table::new(rt.alloc(), CELLS);
    check_same(&rt, table.look(cells(2, 4)), Look::Absent);
    check_same(
        &rt,
        entered_into(&rt, &mut table, cells(2, 4), 7),
        Entered::Opened,
    );
    check_same(
        &rt,
        entered_into(&rt, &mut table, cells(3, 2), 8),
        Entered::Counted,
    );
    check_same(&rt, table.look(cells(0, 3)), Look::Partly);
    check_same(&rt, table.look(cells(5, 9)), Look::Partly);
    check_same(&rt, table.look(cells(6, 1)), Look::Absent);
    check_same(&rt, table.counters(cells(2, 1)), Some((0, 2)));
    check_same(&rt, table.counters(cells(1, 1)), None);
    check_same(&rt, table.used_cells(), 4);
}

#[test]
fn an_entry_is_shown(rt: HostRuntime) {
    let mut table = Table::new(rt.alloc(), CELLS);
    let _ = entered_into(&rt, &mut table, cells(2, 4), 7);
    let _ = entered_into(&rt, &mut table, cells(3, 2), 8);
    let opened = table.nth(0).copied();
    check_same(
        &rt,
        opened.map(|e| (e.range, e.block, e.s, e.d)),
        Some((cells(2, 4), BlockId::new(7), 0, 2)),
    );
    check_same(&rt, table.nth(1).copied(), None);
}

#[test]
fn a_range_is_left(rt: HostRuntime) {
    let mut table = Table::new(rt.alloc(), CELLS);
    let _ = entered_into(&rt, &mut table, cells(2, 4), 7);
    let _ = entered_into(&rt, &mut table, cells(3, 2), 8);
    check_same(
        &rt,
        table.leave(cells(6, 1), Counter::Dynamic),
        Left::Nothing,
    );
    check_same(
        &rt,
        table.leave(cells(5, 1), Counter::Dynamic),
        Left::Counted,
    );
    check_same(
        &rt,
        table.leave(cells(2, 4), Counter::Dynamic),
        Left::Ended(BlockId::new(7)),
    );
    check_same(
        &rt,
        table.leave(cells(2, 4), Counter::Dynamic),
        Left::Nothing,
    );
    check_same(&rt, table.used_cells(), 0);
}

#[test]
fn what_a_region_holds_is_counted_apart(rt: HostRuntime) {
    let whole = cells(2, 4);
    let part = cells(3, 2);
    let mut table = Table::new(rt.alloc(), CELLS);
    check_same(
        &rt,
        entered_by(&rt, &mut table, whole, Counter::Structured, 1),
        Entered::Opened,
    );
    check_same(&rt, table.leave(part, Counter::Dynamic), Left::Nothing);
    check_same(&rt, table.finalize(part), Left::Nothing);
    check_same(
        &rt,
        entered_into(&rt, &mut table, part, 2),
        Entered::Counted,
    );
    check_same(
        &rt,
        entered_into(&rt, &mut table, part, 3),
        Entered::Counted,
    );
    check_same(&rt, table.counters(part), Some((1, 2)));
    check_same(&rt, table.finalize(part), Left::Counted);
    check_same(&rt, table.counters(whole), Some((1, 0)));
}

#[test]
fn a_range_ends_with_its_last_region(rt: HostRuntime) {
    let whole = cells(2, 4);
    let part = cells(3, 2);
    let mut table = Table::new(rt.alloc(), CELLS);
    check_same(
        &rt,
        entered_by(&rt, &mut table, whole, Counter::Structured, 1),
        Entered::Opened,
    );
    check_same(
        &rt,
        entered_by(&rt, &mut table, part, Counter::Structured, 4),
        Entered::Counted,
    );
    check_same(&rt, table.counters(part), Some((2, 0)));
    check_same(&rt, left_by_region(&rt, &mut table, part), Left::Counted);
    check_same(
        &rt,
        left_by_region(&rt, &mut table, whole),
        Left::Ended(BlockId::new(1)),
    );
    check_same(&rt, table.finalize(whole), Left::Nothing);
    check_same(&rt, table.used_cells(), 0);
}

#[test]
fn finalize_ends_at_once_what_was_entered_twice(rt: HostRuntime) {
    let part = cells(3, 2);
    let mut table = Table::new(rt.alloc(), CELLS);
    check_same(&rt, entered_into(&rt, &mut table, part, 5), Entered::Opened);
    check_same(
        &rt,
        entered_into(&rt, &mut table, part, 6),
        Entered::Counted,
    );
    check_same(&rt, table.finalize(part), Left::Ended(BlockId::new(5)));
    check_same(&rt, table.used_cells(), 0);
}

// The block of a range that is present as a whole, with its counters.
fn found(table: &Table, range: Range) -> Option<(BlockId, u64, u64)>
    requires { 0 < range.len }
{
    match table.look(range) {
        Look::Present(e) if e.range == range => Some((e.block, e.s, e.d)),
        Look::Absent | Look::Partly | Look::Present(_) => None,
    }
}

/// Ranges that are present by turns, two of three cells each, and how far apart they are entered, found and left: no factor of their
/// number, so that each has its turn.
#[derive(Clone, Copy)]
struct Mixed {
    count: u32,
    entered: u64,
    found: u64,
    left: u64,
}

const THOUSAND: Mixed = Mixed {
    count: 1_000,
    entered: 387,
    found: 777,
    left: 619,
};

const HUNDRED: Mixed = Mixed {
    count: 100,
    entered: 37,
    found: 63,
    left: 19,
};

const SIXTY_THOUSAND: Mixed = Mixed {
    count: 60_000,
    entered: 7_919,
    found: 23_333,
    left: 45_989,
};

impl Mixed {
    // The range whose turn it is, if they are so far apart.
    fn range(self, turn: u32, apart: u64) -> Range
        ensures { result.len ≡ 2 }
    {
        let place = u64::from(turn).wrapping_mul(apart) % u64::from(self.count.max(1));
        cells((place as u32).wrapping_mul(3), 2)
    }

    // Each is opened at its turn, and its block has the number of the range's first cell.
    fn enter_all(self, rt: &impl Abort, table: &mut Table)
        requires { table.old.capacity ≡ CELLS }
        ensures { table.new.capacity ≡ CELLS }
    {
        for turn in 0..self.count {
            let range = self.range(turn, self.entered);
            let entered = entered_into(rt, table, range, u64::from(range.lo));
            check_same(rt, (turn, entered), (turn, Entered::Opened));
        }
        check_same(rt, table.used_cells(), u64::from(self.count) * 2);
    }

    fn find_all(self, rt: &impl Abort, table: &Table) {
        for turn in 0..self.count {
            let range = self.range(turn, self.found);
            let block = BlockId::new(u64::from(range.lo));
            check_same(rt, (turn, found(table, range)), (turn, Some((block, 0, 1))));
        }
        for place in 0..self.count {
            let range = table.nth(place as usize).map(|e| e.range);
            check_same(rt, range, Some(self.range(place, 1)));
        }
    }

    fn leave_all(self, rt: &impl Abort, table: &mut Table)
        ensures { table.new.capacity ≡ table.old.capacity }
    {
        for turn in 0..self.count {
            let range = self.range(turn, self.left);
            let block = BlockId::new(u64::from(range.lo));
            let left = table.leave(range, Counter::Dynamic);
            check_same(rt, (turn, left), (turn, Left::Ended(block)));
        }
        check_same(rt, table.used_cells(), 0);
        check_same(rt, table.nth(0).copied(), None);
    }

    // All are opened, found and ended.
    fn pass(self, rt: &impl Abort, table: &mut Table)
        requires { table.old.capacity ≡ CELLS }
        ensures { table.new.capacity ≡ CELLS }
    {
        self.enter_all(rt, table);
        self.find_all(rt, table);
        self.leave_all(rt, table);
    }
}

// How many entries a chain has.
fn count_of(chain: &Chain<Entry>) -> usize {
    let mut count = 0usize;
    for _ in chain.iter() {
        count = count.wrapping_add(1);
    }
    count
}

/// Once they have ended, each node is spare, and they are opened again without any more.
#[test]
fn a_thousand_ranges_in_mixed_order(rt: HostRuntime) {
    let mut table = Table::new(rt.alloc(), CELLS);
    THOUSAND.pass(&rt, &mut table);
    THOUSAND.pass(&rt, &mut table);
    let (present, spare) = table.into_chains();
    check_same(&rt, (count_of(&present), count_of(&spare)), (0, 1_000));
}

#[test]
fn sixty_thousand_ranges_in_mixed_order(rt: HostRuntime) {
    let mut table = Table::new(rt.alloc(), CELLS);
    SIXTY_THOUSAND.pass(&rt, &mut table);
}

// The entries of a table in the order of `nth`.
fn listed(alloc: Global, table: &Table) -> Result<Vec<Entry>, AllocError> {
    let mut entries = Vec::new(alloc);
    for index in 0..2_000usize {
        match table.nth(index) {
            Some(entry) => entries.push(*entry)?,
            None => break,
        }
    }
    Ok(entries)
}

// So many of a table's ranges have ended, and the chains of its nodes are the entries that are left, in order, and the others.
fn check_chains(rt: &impl Abort, alloc: Global, ended: u32) -> Result<(), Fail> {
    let mut table = Table::new(alloc, CELLS);
    THOUSAND.enter_all(rt, &mut table);
    for turn in 0..ended {
        let _ = table.leave(THOUSAND.range(turn, THOUSAND.left), Counter::Dynamic);
    }
    let wanted = listed(alloc, &table)?;
    let (present, spare) = table.into_chains();
    let mut entries = present.iter();
    for entry in wanted.iter() {
        check_same(rt, entries.next().copied(), Some(*entry));
    }
    check_same(rt, entries.next().copied(), None);
    let nodes = (wanted.len(), count_of(&spare));
    check_same(
        rt,
        nodes,
        (1_000usize.wrapping_sub(ended as usize), ended as usize),
    );
    Ok(())
}

#[test]
fn a_table_comes_apart_in_order(rt: HostRuntime) -> Result<(), Fail> {
    for ended in [0u32, 1, 333, 999, 1_000] {
        check_chains(&rt, rt.alloc(), ended)?;
    }
    Ok(())
}

#[test]
fn room_is_refused_with_memory(rt: HostRuntime) -> Result<(), Fail> {
    let mut table = Table::new(rt.alloc(), CELLS);
    let mut hoard = Hoard::new(rt.alloc())?;
    hoard.fill(rt.alloc());
    let refused = table.spare(1_000);
    hoard.free();
    check_same(&rt, refused.err(), Some(Fault::Memory));
    check_same(&rt, table.used_cells(), 0);
    assert!(rt; table.spare(1_000).is_ok());
    Ok(())
}

// A table with a hundred ranges and a hundred spare nodes.
fn half_full(rt: &impl Abort, alloc: Global) -> Result<Table, Fault> {
    let mut table = Table::new(alloc, CELLS);
    table.spare(200)?;
    HUNDRED.enter_all(rt, &mut table);
    Ok(table)
}

// Drops many, one after the other, whole and as chains.
fn drop_many(rt: &impl Abort, alloc: Global) -> Result<(), Fault> {
    for _ in 0..300u32 {
        drop(half_full(rt, alloc)?);
        drop(half_full(rt, alloc)?.into_chains());
    }
    Ok(())
}

/// There is memory for one at a time.
#[test]
fn what_a_dropped_table_held_is_free_again(rt: HostRuntime) -> Result<(), Fail> {
    let alloc = rt.alloc();
    let (refusals, ()) = at_each_amount(alloc, || drop_many(&rt, alloc))?;
    check_same(&rt, 1 < refusals, true);
    Ok(())
}
