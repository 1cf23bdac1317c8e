//! A row of cells is written, read and lent as two windows, up to the most cells of an array; and
//! it is made where memory is ample. Its contract lets each row be refused.

ghost use Rattle.std.specs.Prelude.{◌≡◌};
ghost use Rattle.acc_raw.specs.Windows.{IsWithin, AreApart};

use crate::fixtures::check_same;
use acc_base::Fault;
use acc_raw::{Cells, Window};
use std::alloc::{AllocError, Global};
use std::process::Abort;
use std::test::Fail;
use tool_scarce::at_each_amount;

#[test]
fn a_row_is_written_and_read(rt: HostRuntime) -> Result<(), Fail> {
    let mut cells = Cells::zeroed(rt.alloc(), 3)?;
    cells.set(2, 7);
    let mut values = [9i64; 3];
    cells.copy_to(0, &mut values);
    check_same(&rt, &values, &[0, 0, 7]);
    cells.copy_from(1, &[i64::MIN, i64::MAX]);
    let mut last = [9i64; 2];
    cells.copy_to(1, &mut last);
    check_same(&rt, &last, &[i64::MIN, i64::MAX]);
    check_same(&rt, cells.get(0), 0);
    assert_eq!(rt; cells.len(), 3);
    check_same(&rt, Cells::zeroed(rt.alloc(), 0)?.len(), 0);
    let mut one = Cells::zeroed(rt.alloc(), 1)?;
    one.as_mut_slice()[0] -= 1;
    check_same(&rt, one.as_slice(), &[-1]);
    Ok(())
}

// What two windows of a row of six show, and what the row has where each of them is filled.
fn filled(
    rt: &impl Abort,
    alloc: Global,
    first: Window,
    second: Window,
    lent: (&[i64], &[i64]),
) -> Result<[i64; 6], Fault>
    requires first { IsWithin 6 first }
    requires second { IsWithin 6 second }
    requires apart { AreApart first second }
{
    let mut cells = Cells::zeroed(alloc, 6)?;
    cells.copy_from(0, &[10, 11, 12, 13, 14, 15]);
    let (one, other) = cells.two(first, second);
    check_same(rt, &*one, lent.0);
    check_same(rt, &*other, lent.1);
    one.fill(1);
    other.fill(2);
    assert_eq!(rt; cells.len(), 6);
    let mut values = [0i64; 6];
    cells.copy_to(0, &mut values);
    Ok(values)
}

fn window(start: usize, len: usize) -> Window
    ensures start { result.start ≡ start }
    ensures len { result.len ≡ len }
{
    Window { start, len }
}

/// In both orders, side by side, at the ends, and one with no cell.
#[test]
fn two_windows_are_lent(rt: HostRuntime) -> Result<(), Fail> {
    let alloc = rt.alloc();
    let (low, high) = (window(1, 2), window(4, 1));
    let values = filled(&rt, alloc, low, high, (&[11, 12], &[14]))?;
    check_same(&rt, &values, &[10, 1, 1, 13, 2, 15]);
    let values = filled(&rt, alloc, high, low, (&[14], &[11, 12]))?;
    check_same(&rt, &values, &[10, 2, 2, 13, 1, 15]);
    let (low, high) = (window(0, 3), window(3, 3));
    let values = filled(&rt, alloc, low, high, (&[10, 11, 12], &[13, 14, 15]))?;
    check_same(&rt, &values, &[1, 1, 1, 2, 2, 2]);
    let (low, high) = (window(0, 1), window(5, 1));
    let values = filled(&rt, alloc, high, low, (&[15], &[10]))?;
    check_same(&rt, &values, &[2, 11, 12, 13, 14, 1]);
    let (all, none) = (window(0, 6), window(6, 0));
    let values = filled(&rt, alloc, none, all, (&[], &[10, 11, 12, 13, 14, 15]))?;
    check_same(&rt, &values, &[2, 2, 2, 2, 2, 2]);
    Ok(())
}

// The numbers below a count, in order.
fn numbers_below(alloc: Global, count: usize) -> Result<Vec<i64>, AllocError> {
    let mut values = Vec::new(alloc);
    let mut next = 0i64;
    for _ in 0..count {
        values.push(next)?;
        next = next.wrapping_add(1);
    }
    Ok(values)
}

// The upper half of the numbers below 65,536, in order, and then the lower half.
fn check_swapped(rt: &impl Abort, values: &[i64]) {
    let mut wanted = 32_768i64;
    for value in values {
        check_same(rt, *value, wanted);
        wanted = wanted.wrapping_add(1) % 65_536;
    }
}

#[test]
fn the_longest_row_of_an_array(rt: HostRuntime) -> Result<(), Fail> {
    let mut values = numbers_below(rt.alloc(), 65_536)?;
    assert_eq!(rt; values.len(), 65_536);
    let mut cells = Cells::zeroed(rt.alloc(), values.len())?;
    cells.copy_from(0, values.as_slice());
    let (low, high) = cells.two(window(0, 32_768), window(32_768, 32_768));
    low.swap_with_slice(high);
    assert_eq!(rt; cells.len(), 65_536);
    cells.copy_to(0, values.as_mut_slice());
    check_swapped(&rt, values.as_slice());
    Ok(())
}

#[test]
fn a_row_is_refused_until_there_is_memory(rt: HostRuntime) -> Result<(), Fail> {
    let alloc = rt.alloc();
    let (refusals, cells) = at_each_amount(alloc, || Cells::zeroed(alloc, 100))?;
    assert!(rt; 1 < refusals);
    assert_eq!(rt; cells.len(), 100);
    Ok(())
}
