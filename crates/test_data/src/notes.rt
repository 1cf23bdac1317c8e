//! The batches that are noted at a present range, in numbers by hand, over several calls: counting
//! keeps them, and a new lifetime has none.

ghost use Rattle.std.specs.Prelude.{◌<◌};

use crate::fixtures::{CELLS, cells, entered_into};
use acc_base::{QUEUES, QueueCounts, QueueId, Range};
use acc_present::{Look, Table};
use std::test::Fail;

/// No batch used a block.
const NONE: QueueCounts = [0; QUEUES as usize];

// The queue and the number of the batch that made the block of a range, and the last batches that used it.
fn noted(table: &Table, range: Range) -> Option<((QueueId, u64), QueueCounts)>
    requires { 0 < range.len }
{
    match table.look(range) {
        Look::Present(entry) => {
            let uses = entry.uses;
            Some((entry.maker, uses))
        }
        Look::Absent | Look::Partly => None,
    }
}

#[test]
fn batches_are_noted_at_the_range_that_contains_theirs(rt: HostRuntime) -> Result<(), Fail> {
    let none = Some(((QueueId::SYNC, 0), NONE));
    let first = cells(0, 4);
    let second = cells(4, 2);
    let mut table = Table::new(rt.alloc(), CELLS);
    let _ = entered_into(&rt, &mut table, first, 7);
    let _ = entered_into(&rt, &mut table, second, 8);
    assert_eq!(rt; noted(&table, first), none);

    table.note_make(first, QueueId::new(2), 5);
    table.note_use(cells(1, 2), QueueId::new(7), 9);
    table.note_use(cells(3, 1), QueueId::new(7), 11);
    table.note_use(cells(4, 1), QueueId::SYNC, 1);
    // absent, and partly present
    table.note_use(cells(6, 1), QueueId::SYNC, 3);
    table.note_make(cells(3, 2), QueueId::SYNC, 3);
    let mut uses = NONE;
    uses[2] = 5;
    uses[7] = 11;
    let made = Some(((QueueId::new(2), 5), uses));
    assert_eq!(rt; noted(&table, cells(2, 1)), made);
    let mut uses = NONE;
    uses[0] = 1;
    assert_eq!(rt; noted(&table, second), Some(((QueueId::SYNC, 0), uses)));

    // counting keeps the notes, and a new lifetime has none
    let _ = entered_into(&rt, &mut table, first, 9);
    assert_eq!(rt; noted(&table, first), made);
    let _ = table.finalize(first);
    let _ = entered_into(&rt, &mut table, first, 10);
    assert_eq!(rt; noted(&table, first), none);
    Ok(())
}
