//! The printed texts of the fourteen faults, of which contracts say nothing.

use acc_base::Fault;
use std::test::Fail;

#[test]
fn the_texts_of_faults(rt: HostRuntime) -> Result<(), Fail> {
    let texts = [
        (Fault::Closed, "F1 Closed"),
        (Fault::BadDevice, "F2 BadDevice"),
        (Fault::BadAsync, "F3 BadAsync"),
        (Fault::BadRange, "F4 BadRange"),
        (Fault::TooMany, "F5 TooMany"),
        (Fault::PartlyPresent, "F6 PartlyPresent"),
        (Fault::NotPresent, "F7 NotPresent"),
        (Fault::DeviceFull, "F8 DeviceFull"),
        (Fault::OutsideRange, "F9 OutsideRange"),
        (Fault::NoRegion, "F10 NoRegion"),
        (Fault::Memory, "F11 Memory"),
        (Fault::QueueFull, "F12 QueueFull"),
        (Fault::Unfinished, "F13 Unfinished"),
        (Fault::HostsDiffer, "F14 HostsDiffer"),
    ];
    for (fault, text) in &texts {
        let shown = format!(in rt.alloc(); "{fault}")?;
        assert_eq!(rt; shown.as_str(), *text);
    }
    Ok(())
}
