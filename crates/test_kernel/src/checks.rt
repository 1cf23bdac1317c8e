//! What was found beside what was wanted.

use std::fmt::Debug;
use std::process::Abort;

// Stops the test where the two differ. An assertion that is written out takes as long to prove as the rest of a test.
pub fn check_same<T: PartialEq + Debug + Copy>(rt: &impl Abort, found: T, wanted: T) {
    assert_eq!(rt; found, wanted);
}

// Memory was refused at least so often before it was enough.
pub fn check_refused(rt: &impl Abort, refusals: u32, least: u32) {
    assert!(rt; least <= refusals, "{refusals} refusals");
}
