//! What is wrong with a script and its schedule, told before they are run.

ghost use Rattle.std.specs.Prelude.{◌≡◌, ◌+◌, IfOk, IfErr, IfSome, None, Ok, take, true};
ghost use Rattle.acc_token.specs.Texts.{line_feeds};
ghost use Rattle.acc_driver.specs.Inputs.{parts};
ghost use Rattle.acc_driver.specs.Checks.{ChecksTexts};
ghost use Rattle.acc_driver.specs.inner.Checked.{IsNoScript, IsScheduleFor, IsScriptOf, IsUnread, IsUntold};

use crate::fault::ReplayFault;
use crate::input::{InputFault, read_text, split};
use crate::program::{hosts_of, read_script};
use crate::replays::{INPUT_LIMIT, INPUT_TURNS, TEXT_LIMIT, TEXT_TURNS};
use acc_check::{check_schedule, check_script};
use std::alloc::Global;
use std::io::{Read, Write};
use thiserror::Error;

/// A reader, and the name by which its text is told.
#[derive(Drop)]
pub struct Named<'a, R> {
    pub name: &'a str,
    pub reader: R,
}

/// Why texts were not checked, or what is wrong with them not told whole.
#[derive(Clone, Copy, Debug, Error)]
pub enum CheckFault<'a> {
    /// The reader of this name failed, or its turns ended.
    #[error("cannot read {0}")]
    Input(&'a str),
    /// The writer failed, or took nothing.
    #[error("cannot write")]
    Output,
    #[error("out of memory")]
    Memory,
}

/// Checks a script and a schedule, each from a reader of its own, and runs nothing: whether the one is a script, and the other
/// a schedule of its hosts, for so many devices. What is wrong is told. The schedule is read once the script is one.
///
/// # Errors
///
/// `Input` where the reader of that name failed or gave its bytes in too many turns, and then nothing is written; `Output`
/// where the writer failed or took nothing; `Memory` for want of memory.
pub fn check<'a, R: Read + Drop, S: Read + Drop, W: Write>(
    alloc: Global,
    script: Named<'a, R>,
    schedule: Named<'a, S>,
    devices: u8,
    output: &mut W,
) -> Result<bool, CheckFault<'a>>
    ensures answers { IfSome (R.remaining script.entry.reader) (λ script.
        IfSome (S.remaining schedule.entry.reader) (λ schedule.
        ChecksTexts devices (record { script = script; schedule = schedule })
        (W.contents output.old) (W.contents output.new) result)) }
{
    let Named { name, mut reader } = script;
    let text = text_from(alloc, name, &mut reader, TEXT_LIMIT, TEXT_TURNS)?;
    let Some(hosts) = hosts_in(alloc, name, text.as_slice(), output)? else {
        return Ok(false);
    };
    let Named { name, mut reader } = schedule;
    let text = text_from(alloc, name, &mut reader, TEXT_LIMIT, TEXT_TURNS)?;
    is_schedule(alloc, name, 1, text.as_slice(), hosts, devices, output)
}

/// Checks a script and a schedule in one text, which is split at its first line that is exactly `%%`; without such a line it is
/// all script. The rest is as of `check`, and lines are told as they count in the whole text.
///
/// # Errors
///
/// As `check`.
pub fn check_one<'a, R: Read + Drop, W: Write>(
    alloc: Global,
    both: Named<'a, R>,
    devices: u8,
    output: &mut W,
) -> Result<bool, CheckFault<'a>>
    ensures answers { IfSome (R.remaining both.entry.reader) (λ text.
        ChecksTexts devices (parts text) (W.contents output.old) (W.contents output.new) result) }
{
    let Named { name, mut reader } = both;
    let text = text_from(alloc, name, &mut reader, INPUT_LIMIT, INPUT_TURNS)?;
    let (script, schedule) = split(text.as_slice());
    let Some(hosts) = hosts_in(alloc, name, script, output)? else {
        return Ok(false);
    };
    let first_line = line_behind(script);
    is_schedule(alloc, name, first_line, schedule, hosts, devices, output)
}

// The bytes that a reader gives, up to its end or the limit.
fn text_from<'a, R: Read>(
    alloc: Global,
    name: &'a str,
    reader: &mut R,
    limit: usize,
    turns: u32,
) -> Result<Vec<u8>, CheckFault<'a>>
    ensures bytes { IfOk result (λ text.
        IfSome (R.remaining reader.old) (λ bytes. text.items ≡ take limit bytes)) }
    ensures fault { IfErr result IsUnread }
{
    match read_text(alloc, reader, limit, turns) {
        Ok(text) => Ok(text),
        Err(InputFault::Read) => Err(CheckFault::Input(name)),
        Err(InputFault::Memory) => Err(CheckFault::Memory),
    }
}

// How many hosts a script has. Of a text that is none, what is wrong is told, and there is no number.
fn hosts_in<'a, W: Write>(
    alloc: Global,
    name: &str,
    text: &[u8],
    output: &mut W,
) -> Result<Option<u8>, CheckFault<'a>>
    ensures script { IfOk result (λ found. IfSome found (λ hosts. IsScriptOf hosts text.now)) }
    ensures silent { IfOk result (λ found. IfSome found (λ hosts. output.new ≡ output.old)) }
    ensures told { IfOk result (λ found. found ≡ None → IsNoScript text.now) }
    ensures fault { IfErr result IsUntold }
{
    match read_script(alloc, text) {
        Ok(script) => Ok(Some(hosts_of(&script.programs))),
        Err(ReplayFault::Memory) => Err(CheckFault::Memory),
        Err(_) => match check_script(alloc, name, text, output) {
            Ok(_) => Ok(None),
            Err(acc_check::CheckFault::Write) => Err(CheckFault::Output),
            Err(acc_check::CheckFault::Memory) => Err(CheckFault::Memory),
        },
    }
}

// Whether a text is a schedule of so many hosts, for so many devices. If it is none, what is wrong is told.
fn is_schedule<'a, W: Write>(
    alloc: Global,
    name: &str,
    first_line: usize,
    text: &[u8],
    hosts: u8,
    devices: u8,
    output: &mut W,
) -> Result<bool, CheckFault<'a>>
    ensures schedule { IfOk result (λ whole. IsScheduleFor hosts devices text.now whole) }
    ensures silent { result ≡ Ok true → W.contents output.new ≡ W.contents output.old }
    ensures fault { IfErr result IsUntold }
{
    match check_schedule(alloc, name, first_line, text, hosts, devices, output) {
        Ok(whole) => Ok(whole),
        Err(acc_check::CheckFault::Write) => Err(CheckFault::Output),
        Err(acc_check::CheckFault::Memory) => Err(CheckFault::Memory),
    }
}

// The number of the first line behind a script's lines and the line `%%`.
fn line_behind(script: &[u8]) -> usize
    ensures { result ≡ line_feeds script.now + 2 }
{
    script.iter().filter(|byte| **byte == b'\n').count() + 2
}
