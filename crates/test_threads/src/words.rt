//! Progress words are had where memory is ample, and refused at each amount that isn't enough; readers are split off where there is none.

use acc_queue::Progress;
use std::test::Fail;
use tool_scarce::at_each_amount;

#[test]
fn words_are_refused_until_there_is_memory(rt: HostRuntime) -> Result<(), Fail> {
    let alloc = rt.alloc();
    let (refusals, _ends) = at_each_amount(alloc, || Progress::new(alloc, 4))?;
    assert!(rt; 1 < refusals, "{refusals}");
    Ok(())
}

#[test]
fn a_reader_is_split_off_without_memory(rt: HostRuntime) -> Result<(), Fail> {
    let alloc = rt.alloc();
    let (_publisher, mut reader) = Progress::new(alloc, 4)?;
    let (refusals, _other) = at_each_amount(alloc, || reader.split())?;
    assert_eq!(rt; refusals, 0);
    Ok(())
}
