//! What the guide says of a fault, by its number or its name, or of a kind of fault.

ghost use Rattle.std.specs.Prelude.{◌≡◌, ◌<◌, option_map, OnOk};
ghost use Rattle.std.specs.Io.KnownBytes.{Appends};
ghost use Rattle.accq.specs.Explanations.{fault_explained, is_fault, kind_explained, same_word, text_for};
ghost use Rattle.accq.specs.Statuses.{Explains};

use crate::explanations::{
    BAD_ASYNC, BAD_DEVICE, BAD_RANGE, CLOSED, DEVICE_FULL, END, FORM, HOSTS_DIFFER, LIMIT, MEMORY,
    NAME, NO_REGION, NOT_PRESENT, OUTSIDE_RANGE, PARTLY_PRESENT, QUEUE_FULL, TEXT, TOO_MANY,
    UNFINISHED, WORDS,
};
use crate::told::told;
use acc_driver::DriverFault;
use std::io::{Result, Write};

// Whether a word is this one, in letters of either case.
fn same_word(name: &str, word: &str) -> bool
    ensures { result ≡ same_word name.now word.now }
{
    name.eq_ignore_ascii_case(word)
}

// Whether a word is the number or the name of a fault.
fn is_fault(number: &str, name: &str, word: &str) -> bool
    ensures { result ≡ is_fault number.now name.now word.now }
{
    same_word(number, word) || same_word(name, word)
}

// What the guide says of a fault of a statement.
fn fault_text(word: &str) -> Option<&'static str>
    ensures { option_map (λ t. t.now) result ≡ fault_explained word.now }
{
    if is_fault("F1", "Closed", word) {
        Some(CLOSED)
    } else if is_fault("F2", "BadDevice", word) {
        Some(BAD_DEVICE)
    } else if is_fault("F3", "BadAsync", word) {
        Some(BAD_ASYNC)
    } else if is_fault("F4", "BadRange", word) {
        Some(BAD_RANGE)
    } else if is_fault("F5", "TooMany", word) {
        Some(TOO_MANY)
    } else if is_fault("F6", "PartlyPresent", word) {
        Some(PARTLY_PRESENT)
    } else if is_fault("F7", "NotPresent", word) {
        Some(NOT_PRESENT)
    } else if is_fault("F8", "DeviceFull", word) {
        Some(DEVICE_FULL)
    } else if is_fault("F9", "OutsideRange", word) {
        Some(OUTSIDE_RANGE)
    } else if is_fault("F10", "NoRegion", word) {
        Some(NO_REGION)
    } else if is_fault("F11", "Memory", word) {
        Some(MEMORY)
    } else if is_fault("F12", "QueueFull", word) {
        Some(QUEUE_FULL)
    } else if is_fault("F13", "Unfinished", word) {
        Some(UNFINISHED)
    } else if is_fault("F14", "HostsDiffer", word) {
        Some(HOSTS_DIFFER)
    } else {
        None
    }
}

// What the guide says of a kind of fault of a text.
fn kind_text(word: &str) -> Option<&'static str>
    ensures { option_map (λ t. t.now) result ≡ kind_explained word.now }
{
    if same_word("Text", word) {
        Some(TEXT)
    } else if same_word("End", word) {
        Some(END)
    } else if same_word("Name", word) {
        Some(NAME)
    } else if same_word("Limit", word) {
        Some(LIMIT)
    } else if same_word("Form", word) {
        Some(FORM)
    } else {
        None
    }
}

// What the guide says of what a word names.
fn text_for(word: &str) -> Option<&'static str>
    ensures { option_map (λ t. t.now) result ≡ text_for word.now }
{
    match fault_text(word) {
        Some(text) => Some(text),
        None => kind_text(word),
    }
}

// Writes a text, and sees to it that it has gone out.
fn put<W: Write>(text: &str, output: &mut W) -> Result<()>
    ensures { OnOk result (Appends (W.contents output.old) (W.contents output.new) text.now) }
{
    output.write_all(text.as_bytes())?;
    output.flush()
}

/// Tells what the guide says of what a word names, and answers the status. Where it names nothing, the errors tell which words do.
pub fn explain<W: Write, E: Write>(word: &str, output: &mut W, errors: &mut E) -> u8
    ensures status { Explains (text_for word.now) (W.contents output.old)
        (W.contents output.new) result }
    ensures quiet { result < 2 → errors.new ≡ errors.old }
{
    match text_for(word) {
        Some(text) => match put(text, output) {
            Ok(()) => 0,
            Err(_) => told(DriverFault::Output, errors),
        },
        None => {
            let _ = write!(
                errors,
                "accq: `{word}` is no fault; the words are:\n{WORDS}"
            );
            2
        }
    }
}
