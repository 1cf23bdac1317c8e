//! The check of a text: its finding is told, or that it is too long.

ghost use Rattle.std.specs.Prelude.{◌≡◌, ◌↔◌, map, IsTrue, IsNone, IfOk, IfSome};
ghost use Rattle.acc_base.specs.Faults.{OnlyMemory};
ghost use Rattle.acc_check.specs.Checks.{words_of, Checks, Tells};
ghost use Rattle.acc_check.specs.Languages.{text_fault};

use crate::finding::finding_of;
use crate::language::Language;
use crate::told::{length_text, told_text};
use crate::words::{SCHEDULE_WORDS, WORDS};
use acc_base::Fault;
use acc_token::MAX_TEXT;
use std::alloc::Global;
use std::io::Write;
use thiserror::Error;

/// Why the check of a text was not told whole.
#[derive(Clone, Copy, Debug, PartialEq, Eq, Error)]
pub enum CheckFault {
    /// The writer failed, or took nothing.
    #[error("cannot write")]
    Write,
    /// Memory was refused.
    #[error("out of memory")]
    Memory,
}

impl From<Fault> for CheckFault {
    ghost use Rattle.std.specs.Prelude.{◌≡◌};
    ghost use Rattle.acc_check.specs.declared.check.CheckFault.TheVariants.{Memory};

    ghost from_gives = { λ _ error. error ≡ Memory };

    fn from(_refused: Fault) -> Self {
        CheckFault::Memory
    }
}

// The words that could stand in a text.
fn words_of(language: Language) -> &'static [&'static [u8]]
    ensures { map (λ w. w.now) result.now ≡ words_of language }
{
    match language {
        Language::Script => WORDS,
        Language::Schedule {
            hosts: _,
            devices: _,
        } => SCHEDULE_WORDS,
    }
}

// The lines that tell what is wrong with a text of a language, which begins with the line of this number, if anything is.
fn told_of(
    alloc: Global,
    language: Language,
    name: &str,
    first_line: usize,
    text: &[u8],
) -> Result<Option<Vec<u8>>, Fault>
    ensures whole { IfOk result (λ told. IsNone told ↔ IsNone (text_fault language text.now)) }
    ensures told { IfOk result (λ told.
        IfSome told (λ lines. Tells language name.now first_line text.now lines.items)) }
    ensures fault { OnlyMemory result }
{
    if text.len() > MAX_TEXT {
        let told = length_text(alloc, language, name, first_line, text)?;
        return Ok(Some(told));
    }
    let Some(finding) = finding_of(alloc, language, text, words_of(language))? else {
        return Ok(None);
    };
    let told = told_text(alloc, name, first_line, text, &finding)?;
    Ok(Some(told))
}

// Checks a text of a language, which begins with the line of this number.
fn check<W: Write>(
    alloc: Global,
    language: Language,
    name: &str,
    first_line: usize,
    text: &[u8],
    output: &mut W,
) -> Result<bool, CheckFault>
    ensures whole { IfOk result (λ whole. IsTrue whole ↔ IsNone (text_fault language text.now)) }
    ensures told { Checks (W.contents output.old) (W.contents output.new) result
        (Tells language name.now first_line text.now) }
{
    let Some(told) = told_of(alloc, language, name, first_line, text)? else {
        return Ok(true);
    };
    match output.write_all(told.as_slice()) {
        Ok(()) => Ok(false),
        Err(_) => Err(CheckFault::Write),
    }
}

/// Whether a text is a script. If it is none, what is wrong with it is told: the place, with its line and what could stand
/// there; or, where it has more than `MAX_TEXT` bytes, that alone. `name` stands for the text's file.
///
/// # Errors
///
/// `Memory` where memory is refused, before anything is written; `Write` where the writer fails.
pub fn check_script<W: Write>(
    alloc: Global,
    name: &str,
    text: &[u8],
    output: &mut W,
) -> Result<bool, CheckFault>
    ensures script { IfOk result (λ whole. IsTrue whole
        ↔ IsNone (text_fault Language.Script text.now)) }
    ensures told { Checks (W.contents output.old) (W.contents output.new) result
        (Tells Language.Script name.now 1 text.now) }
{
    check(alloc, Language::Script, name, 1, text, output)
}

/// Whether a text is a schedule for so many hosts and devices. If it is none, what is wrong with it is told, as `check_script`
/// does. `first_line` is the number, in the file, of the line with which the text begins.
///
/// # Errors
///
/// `Memory` where memory is refused, before anything is written; `Write` where the writer fails.
pub fn check_schedule<W: Write>(
    alloc: Global,
    name: &str,
    first_line: usize,
    text: &[u8],
    hosts: u8,
    devices: u8,
    output: &mut W,
) -> Result<bool, CheckFault>
    ensures schedule { IfOk result (λ whole. IsTrue whole
        ↔ IsNone (text_fault (Language.Schedule hosts devices) text.now)) }
    ensures told { Checks (W.contents output.old) (W.contents output.new) result
        (Tells (Language.Schedule hosts devices) name.now first_line text.now) }
{
    let language = Language::Schedule { hosts, devices };
    check(alloc, language, name, first_line, text, output)
}
