//! Values of prints at the edges of each width, and the memory that they give back.

use acc_batch::Values;
use std::alloc::{AllocError, Global};
use std::process::Abort;
use std::test::Fail;
use tool_scarce::Hoard;

// The least and the greatest value of each width, and those beside them.
const LISTS: &[&[i64]] = &[
    &[],
    &[0],
    &[-1, 127, -128],
    &[1, 128],
    &[-129, 1],
    &[5, 32_767, -32_768],
    &[32_768, 0, -1],
    &[0, -32_769],
    &[2_147_483_647, -2_147_483_648, 300],
    &[2_147_483_648],
    &[-7, -2_147_483_649],
    &[i64::MAX, i64::MIN, 0, -1],
];

fn check_values(rt: &impl Abort, alloc: Global, cells: &[i64]) -> Result<(), AllocError> {
    let room = Vec::with_capacity(alloc, cells.len() * 8)?;
    let values = Values::of(room, cells);
    assert!(rt; values.iter().eq(cells.iter().copied()));
    Ok(())
}

#[test]
fn values_come_back_as_they_were(rt: HostRuntime) -> Result<(), Fail> {
    let alloc = rt.alloc();
    assert!(rt; Values::none(alloc).iter().next().is_none());
    for cells in LISTS {
        check_values(&rt, alloc, cells)?;
    }
    Ok(())
}

const CELLS: usize = 65_536;

// Less than is given back where each value has one byte, and more than where each has eight.
const GIVEN_BACK: usize = 400_000;

// Whether that much can be had where all memory was taken before a row of a byte for each cell gave back its room for eight.
fn is_had_behind_a_row(alloc: Global) -> Result<bool, AllocError> {
    let mut row = Vec::with_capacity(alloc, CELLS * 8)?;
    row.resize(CELLS, 0u8)?;
    let mut hoard = Hoard::new(alloc)?;
    hoard.fill(alloc);
    row.shrink_to_fit();
    let is_had = Vec::<u8>::with_capacity(alloc, GIVEN_BACK).is_ok();
    hoard.free();
    Ok(is_had)
}

// Whether it can be had where all memory was taken before so many equal values came into that room.
fn is_had_behind_values(alloc: Global, value: i64) -> Result<bool, AllocError> {
    let cells = vec![in alloc; value; CELLS]?;
    let room = Vec::with_capacity(alloc, CELLS * 8)?;
    let mut hoard = Hoard::new(alloc)?;
    hoard.fill(alloc);
    let values = Values::of(room, cells.as_slice());
    let is_had = Vec::<u8>::with_capacity(alloc, GIVEN_BACK).is_ok();
    hoard.free();
    Ok(is_had && values.iter().next().is_some())
}

#[test]
fn what_values_do_not_need_is_given_back(rt: HostRuntime) -> Result<(), Fail> {
    let alloc = rt.alloc();
    assert!(rt; is_had_behind_values(alloc, -128)? == is_had_behind_a_row(alloc)?);
    assert!(rt; !is_had_behind_values(alloc, i64::MIN)?);
    Ok(())
}
