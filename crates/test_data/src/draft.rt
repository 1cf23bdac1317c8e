//! What a draft of a present table shows between one mark and the next, in numbers by hand; a
//! contract tells of one mark, in the words of the definitions.

ghost use Rattle.std.specs.Prelude.{◌≡◌, ◌+◌, ◌<◌, ◌≤◌, length};
ghost use Rattle.acc_present.specs.Drafts.{IsDraft};

use crate::fixtures::{CELLS, cells, check_same, entered_into};
use acc_base::{BlockId, Fault, Range};
use acc_present::{Counter, Draft, Entered, Found, Held, Left, Table};
use std::process::Abort;
use std::test::Fail;
use tool_scarce::Hoard;

// Enters a range into a draft, with all that has to be tested before.
fn drafted_into(
    rt: &impl Abort,
    table: &Table,
    draft: &mut Draft,
    range: Range,
    block: u64,
) -> Entered
    requires draft { IsDraft table.now draft.old }
    requires capacity { table.now.capacity ≡ CELLS }
    requires cells { 0 < range.len }
    requires room { length draft.old.changed < draft.old.room }
    ensures draft { IsDraft table.now draft.new }
    ensures changed { length draft.new.changed ≤ length draft.old.changed + 1 }
    ensures room { draft.new.room ≡ draft.old.room }
{
    let used = draft.used_cells();
    assert!(rt; used < CELLS - 1_000);
    assert!(rt; range.len < 1_000);
    let found = draft.look(table, range);
    match &found {
        Found::Absent => draft.enter(table, range, &found, Counter::Dynamic, BlockId::new(block)),
        Found::Present(held) => {
            assert!(rt; held.d < 1_000);
            draft.enter(table, range, &found, Counter::Dynamic, BlockId::new(block))
        }
        Found::Partly => {
            assert!(rt; false, "partly present");
            Entered::Counted
        }
    }
}

// Leaves a range in a draft, as it is found there.
fn drafted_out_of(table: &Table, draft: &mut Draft, range: Range) -> Left
    requires draft { IsDraft table.now draft.old }
    requires cells { 0 < range.len }
    requires room { length draft.old.changed < draft.old.room }
    ensures draft { IsDraft table.now draft.new }
    ensures changed { length draft.new.changed ≤ length draft.old.changed + 1 }
    ensures room { draft.new.room ≡ draft.old.room }
{
    let found = draft.look(table, range);
    draft.leave(table, range, &found, Counter::Dynamic)
}

fn entry(range: Range, block: u64, d: u64) -> Found {
    Found::Present(Held {
        range,
        block: BlockId::new(block),
        s: 0,
        d,
    })
}

#[test]
fn ended_ranges_lie_in_no_way(rt: HostRuntime) -> Result<(), Fail> {
    let mut table = Table::new(rt.alloc(), CELLS);
    let _ = entered_into(&rt, &mut table, cells(0, 2), 1);
    let _ = entered_into(&rt, &mut table, cells(2, 2), 2);
    let mut draft = Draft::with_room(rt.alloc(), 16)?;
    draft.begin(&table);
    check_same(&rt, draft.look(&table, cells(0, 4)), Found::Partly);
    check_same(
        &rt,
        drafted_out_of(&table, &mut draft, cells(0, 2)),
        Left::Ended(BlockId::new(1)),
    );
    check_same(&rt, draft.look(&table, cells(0, 4)), Found::Partly);
    check_same(
        &rt,
        drafted_out_of(&table, &mut draft, cells(2, 2)),
        Left::Ended(BlockId::new(2)),
    );
    check_same(&rt, draft.look(&table, cells(0, 4)), Found::Absent);
    check_same(
        &rt,
        drafted_out_of(&table, &mut draft, cells(0, 4)),
        Left::Nothing,
    );
    Ok(())
}

#[test]
fn a_range_is_opened_over_ended_ones(rt: HostRuntime) -> Result<(), Fail> {
    let mut table = Table::new(rt.alloc(), CELLS);
    let _ = entered_into(&rt, &mut table, cells(0, 2), 1);
    let _ = entered_into(&rt, &mut table, cells(2, 2), 2);
    let mut draft = Draft::with_room(rt.alloc(), 16)?;
    draft.begin(&table);
    let _ = drafted_out_of(&table, &mut draft, cells(0, 2));
    let _ = drafted_out_of(&table, &mut draft, cells(2, 2));
    check_same(
        &rt,
        drafted_into(&rt, &table, &mut draft, cells(1, 5), 4),
        Entered::Opened,
    );
    check_same(
        &rt,
        draft.look(&table, cells(2, 3)),
        entry(cells(1, 5), 4, 1),
    );
    check_same(&rt, draft.look(&table, cells(0, 2)), Found::Partly);
    check_same(&rt, draft.used_cells(), 5);
    check_same(&rt, table.used_cells(), 4);
    Ok(())
}

#[test]
fn a_draft_leaves_the_table_as_it_was(rt: HostRuntime) -> Result<(), Fail> {
    let mut table = Table::new(rt.alloc(), CELLS);
    let _ = entered_into(&rt, &mut table, cells(8, 4), 3);
    let _ = entered_into(&rt, &mut table, cells(8, 4), 4);
    let mut draft = Draft::with_room(rt.alloc(), 16)?;
    draft.begin(&table);
    check_same(
        &rt,
        drafted_out_of(&table, &mut draft, cells(9, 1)),
        Left::Counted,
    );
    check_same(
        &rt,
        draft.look(&table, cells(8, 4)),
        entry(cells(8, 4), 3, 1),
    );
    check_same(
        &rt,
        drafted_out_of(&table, &mut draft, cells(8, 4)),
        Left::Ended(BlockId::new(3)),
    );
    check_same(&rt, draft.look(&table, cells(6, 3)), Found::Absent);
    check_same(&rt, draft.used_cells(), 0);
    check_same(&rt, table.used_cells(), 4);
    draft.begin(&table);
    check_same(
        &rt,
        draft.look(&table, cells(8, 4)),
        entry(cells(8, 4), 3, 2),
    );
    Ok(())
}

#[test]
fn a_draft_that_has_no_memory(rt: HostRuntime) -> Result<(), Fail> {
    let mut hoard = Hoard::new(rt.alloc())?;
    hoard.fill(rt.alloc());
    let made = Draft::with_room(rt.alloc(), 100_000);
    hoard.free();
    check_same(&rt, made.map(|_| ()), Err(Fault::Memory));
    Ok(())
}
