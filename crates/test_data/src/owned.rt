//! Shared and boxed values are made where memory is ample, and further owners take none; a contract
//! allows a refusal each time.

use crate::fixtures::check_same;
use acc_base::{Boxed, Shared};
use std::test::Fail;
use tool_scarce::at_each_amount;

/// The first owner takes memory, and further ones take none.
#[test]
fn a_shared_value_is_refused_until_there_is_memory(rt: HostRuntime) -> Result<(), Fail> {
    let alloc = rt.alloc();
    let (refusals, first) = at_each_amount(alloc, || Shared::new(alloc, [3i64, -4]))?;
    assert!(rt; 0 < refusals);
    let (refusals, second) = at_each_amount(alloc, || first.try_clone())?;
    check_same(&rt, refusals, 0);
    check_same(&rt, *first.get(), [3, -4]);
    drop(first);
    check_same(&rt, *second.get(), [3, -4]);
    Ok(())
}

#[test]
fn a_boxed_value_is_refused_until_there_is_memory(rt: HostRuntime) -> Result<(), Fail> {
    let alloc = rt.alloc();
    let (refusals, boxed) = at_each_amount(alloc, || Boxed::new(alloc, [3i64, -4]))?;
    assert!(rt; 0 < refusals);
    check_same(&rt, *boxed.get(), [3, -4]);
    check_same(&rt, boxed.into_inner(), [3, -4]);
    Ok(())
}
