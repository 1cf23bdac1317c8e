//! What a dropped work side and a dropped job held is free again.

use crate::jobs::{start, taken};
use crate::words::{A, B, Word, offer, performed, queue};
use acc_base::Fault;
use acc_work::{JobOut, Work};
use std::alloc::Global;
use std::test::Fail;
use tool_scarce::at_each_amount;

/// Twenty copies of a to the device.
const COPIES: &[Word] = &[Word::CopyIn(1, A); 20];

/// A block is made again, which is never performed; another block, and a loop, stand behind that.
const STUCK: &[Word] = &[Word::Make(1, A), Word::Make(3, B), Word::Run(1, 3)];

// A work side with two blocks, full pages of its log and pages to come, operations that are left of three batches, one of which no
// directive leads to, and its loop that is out.
fn filled(alloc: Global) -> Result<(Work, Option<JobOut>), Fault> {
    let mut work = taken(alloc)?;
    offer(alloc, &mut work, queue(5), COPIES)?;
    offer(alloc, &mut work, queue(6), COPIES)?;
    offer(alloc, &mut work, queue(7), STUCK)?;
    let entered = performed(&mut work, 3, 3);
    let copied = performed(&mut work, 5, 20);
    let halfway = performed(&mut work, 6, 12);
    let stuck = performed(&mut work, 7, 3);
    let job = start(alloc, &mut work)?;
    if (entered, copied, halfway, stuck) == (3, 20, 12, 0) {
        Ok((work, job))
    } else {
        Ok((work, None))
    }
}

// Two are filled; of one the job is dropped before its work side, and of the other behind it.
fn fill_two(alloc: Global) -> Result<bool, Fault> {
    let (first, before) = filled(alloc)?;
    let is_out = before.is_some();
    drop(before);
    drop(first);
    let (second, behind) = filled(alloc)?;
    drop(second);
    Ok(is_out && behind.is_some())
}

// Many are filled and dropped, one after the other.
fn fill_many(alloc: Global) -> Result<bool, Fault> {
    for _ in 0..150u32 {
        if !fill_two(alloc)? {
            return Ok(false);
        }
    }
    Ok(true)
}

/// There is memory for one at a time.
#[test]
fn what_a_dropped_work_side_held_is_free_again(rt: HostRuntime) -> Result<(), Fail> {
    let alloc = rt.alloc();
    let (refusals, all_filled) = at_each_amount(alloc, || fill_many(alloc))?;
    assert!(rt; 1 < refusals && all_filled, "{refusals}");
    Ok(())
}
