//! Tests of what is told of faults.

use crate::explain::explain;
use crate::tests::{Narrow, Stuck, check_begin, check_told};
use crate::tests_of_streams::CANNOT_WRITE;
use acc_base::Fault;
use acc_driver::ReadKind;
use std::alloc::Global;
use std::io::Write;
use std::process::Abort;
use std::test::Fail;

const FAULTS: &[Fault] = &[
    Fault::Closed,
    Fault::BadDevice,
    Fault::BadAsync,
    Fault::BadRange,
    Fault::TooMany,
    Fault::PartlyPresent,
    Fault::NotPresent,
    Fault::DeviceFull,
    Fault::OutsideRange,
    Fault::NoRegion,
    Fault::Memory,
    Fault::QueueFull,
    Fault::Unfinished,
    Fault::HostsDiffer,
];

const KINDS: &[ReadKind] = &[
    ReadKind::Text,
    ReadKind::End,
    ReadKind::Name,
    ReadKind::Limit,
    ReadKind::Form,
];

// What is told of a word begins so.
fn check_explained(rt: &impl Abort, alloc: Global, word: &str, begin: &str) {
    let mut output = Vec::new(alloc);
    let mut errors = Vec::new(alloc);
    let status = explain(word, &mut output, &mut errors);
    check_told(rt, status, errors.as_slice(), 0, b"");
    check_begin(rt, output.as_slice(), begin.as_bytes());
}

/// A fault is explained by its number and by its name, as reports tell it.
#[test]
fn each_fault_is_explained(rt: HostRuntime) -> Result<(), Fail> {
    let alloc = rt.alloc();
    for fault in FAULTS {
        let told = format!(in alloc; "{fault}: ")?;
        let number = format!(in alloc; "F{}", fault.number())?;
        let name = format!(in alloc; "{fault:?}")?;
        check_explained(&rt, alloc, number.as_str(), told.as_str());
        check_explained(&rt, alloc, name.as_str(), told.as_str());
    }
    Ok(())
}

/// So is each kind of fault of a text, by its name.
#[test]
fn each_kind_is_explained(rt: HostRuntime) -> Result<(), Fail> {
    let alloc = rt.alloc();
    for kind in KINDS {
        let name = format!(in alloc; "{kind:?}")?;
        let told = format!(in alloc; "{kind:?}, in a script, with its remedy:\n")?;
        check_explained(&rt, alloc, name.as_str(), told.as_str());
    }
    Ok(())
}

#[test]
fn letters_may_be_of_either_case(rt: HostRuntime) -> Result<(), Fail> {
    for word in ["f6", "partlypresent", "PARTLYPRESENT"] {
        check_explained(&rt, rt.alloc(), word, "F6 PartlyPresent: ");
    }
    check_explained(&rt, rt.alloc(), "form", "Form, in a script");
    Ok(())
}

#[test]
fn another_word_is_told_those_that_there_are(rt: HostRuntime) -> Result<(), Fail> {
    for word in ["F15", "F", "", "F6 PartlyPresent"] {
        let mut output = Vec::new(rt.alloc());
        let mut errors = Vec::new(rt.alloc());
        let status = explain(word, &mut output, &mut errors);
        check_told(&rt, status, output.as_slice(), 2, b"");
        check_begin(&rt, errors.as_slice(), b"accq: `");
        assert!(rt;
            errors
                .as_slice()
                .ends_with(b" Text, End, Name, Form, Limit\n")
        );
    }
    Ok(())
}

// The output fails.
fn check_unwritten<W: Write>(rt: &impl Abort, alloc: Global, output: &mut W) {
    let mut errors = Vec::new(alloc);
    let status = explain("F6", output, &mut errors);
    check_told(rt, status, errors.as_slice(), 3, CANNOT_WRITE);
}

#[test]
fn an_explanation_that_does_not_go_out_has_status_three(rt: HostRuntime) -> Result<(), Fail> {
    for room in [0, 9] {
        let mut output = Narrow { room, taken: 0 };
        check_unwritten(&rt, rt.alloc(), &mut output);
    }
    check_unwritten(&rt, rt.alloc(), &mut Stuck);
    Ok(())
}
