//! The languages in which texts are written, and whether a text goes on in one of them.

ghost use Rattle.std.specs.Prelude.{◌≡◌, ◌++◌, IfOk};
ghost use Rattle.std.specs.List.{list_any};
ghost use Rattle.acc_base.specs.Faults.{OnlyMemory};
ghost use Rattle.acc_check.specs.Languages.{text_fault, may_go_on, is_begun, is_faultless, schedule_fault, schedule_goes_on, script_fault};

use acc_base::Fault;
use acc_schedule::Schedule;
use acc_script::{ReadError, ReadFault, ReadKind, read};
use std::alloc::Global;

/// A language of texts.
#[derive(Clone, Copy, Debug, PartialEq, Eq)]
pub enum Language {
    Script,
    /// Schedules for so many hosts and devices.
    Schedule { hosts: u8, devices: u8 },
}

// What is wrong with a script.
#[tactic(auto, unfolding(crate::specs::Languages::script_fault))]
fn script_fault(alloc: Global, text: &[u8]) -> Result<Option<ReadFault>, Fault>
    ensures found { IfOk result (λ found. found ≡ script_fault text.now) }
    ensures fault { OnlyMemory result }
{
    match read(alloc, text) {
        Ok(_) => Ok(None),
        Err(ReadError::Fault(fault)) => Ok(Some(fault)),
        Err(ReadError::Memory) => Err(Fault::Memory),
    }
}

// What is wrong with a schedule.
#[tactic(auto, unfolding(crate::specs::Languages::schedule_fault))]
fn schedule_fault(
    alloc: Global,
    hosts: u8,
    devices: u8,
    text: &[u8],
) -> Result<Option<ReadFault>, Fault>
    ensures found { IfOk result (λ found. found ≡ schedule_fault hosts devices text.now) }
    ensures fault { OnlyMemory result }
{
    match Schedule::read(alloc, text, hosts, devices) {
        Ok(_) => Ok(None),
        Err(ReadError::Fault(fault)) => Ok(Some(fault)),
        Err(ReadError::Memory) => Err(Fault::Memory),
    }
}

/// What is wrong with a text, if it is none of its language.
///
/// # Errors
///
/// `Memory` where memory is refused.
pub(crate) fn fault_of(
    alloc: Global,
    language: Language,
    text: &[u8],
) -> Result<Option<ReadFault>, Fault>
    ensures found { IfOk result (λ found. found ≡ text_fault language text.now) }
    ensures fault { OnlyMemory result }
{
    match language {
        Language::Script => script_fault(alloc, text),
        Language::Schedule { hosts, devices } => schedule_fault(alloc, hosts, devices, text),
    }
}

fn is_begun(found: &Option<ReadFault>) -> bool
    ensures { result ≡ is_begun found.now }
{
    match found {
        None => true,
        Some(fault) => fault.kind == ReadKind::End,
    }
}

// Whether a text with a tail behind it is whole.
fn is_whole_with(alloc: Global, language: Language, text: &[u8], tail: &[u8]) -> Result<bool, Fault>
    ensures answer { IfOk result (λ r. r ≡ is_faultless language (text.now ++ tail.now)) }
    ensures fault { OnlyMemory result }
{
    let mut whole = Vec::from_slice(alloc, text)?;
    whole.extend_from_slice(tail)?;
    Ok(fault_of(alloc, language, whole.as_slice())?.is_none())
}

// Whether a text is whole with one of the tails.
#[tactic(auto, using(std::proofs::lemmas::List::Folds::list_any_at))]
fn is_whole_with_some(
    alloc: Global,
    language: Language,
    text: &[u8],
    tails: &[&[u8]],
) -> Result<bool, Fault>
    ensures answer { IfOk result (λ r.
        r ≡ list_any (λ tail. is_faultless language (text.now ++ tail.now)) tails.now) }
    ensures fault { OnlyMemory result }
{
    for tail in tails {
        if is_whole_with(alloc, language, text, tail)? {
            return Ok(true);
        }
    }
    Ok(false)
}

// Whether a schedule goes on.
#[tactic(auto, unfolding(crate::specs::Languages::schedule_goes_on))]
fn schedule_goes_on(alloc: Global, hosts: u8, devices: u8, text: &[u8]) -> Result<bool, Fault>
    ensures answer { IfOk result (λ r. r ≡ schedule_goes_on hosts devices text.now) }
    ensures fault { OnlyMemory result }
{
    let language = Language::Schedule { hosts, devices };
    let tails: [&[u8]; 6] = [b"", b" 0", b" 1", b" sync", b" 0 sync", b" close"];
    is_whole_with_some(alloc, language, text, &tails)
}

/// Whether a text goes on: a script where it is one, or ends where one needs more; a schedule where it is one, with the
/// rest of a line behind it.
///
/// # Errors
///
/// `Memory` where memory is refused.
pub(crate) fn goes_on(alloc: Global, language: Language, text: &[u8]) -> Result<bool, Fault>
    ensures answer { IfOk result (λ r. r ≡ may_go_on language text.now) }
    ensures fault { OnlyMemory result }
{
    match language {
        Language::Script => Ok(is_begun(&script_fault(alloc, text)?)),
        Language::Schedule { hosts, devices } => schedule_goes_on(alloc, hosts, devices, text),
    }
}
