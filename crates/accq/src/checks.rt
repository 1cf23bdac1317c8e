//! Checks of files, whose findings have gone out.

ghost use Rattle.std.specs.Prelude.{◌≡◌, is_ok, IfOk, IfErr, IfSome, Some};
ghost use Rattle.std.specs.Io.KnownBytes.{Keeps};
ghost use Rattle.acc_driver.specs.declared.checks.CheckFault.TheVariants.{Input, Output};
ghost use Rattle.accq.specs.Statuses.{FilesCheck, NeedsOpen, status_checked};
ghost use Rattle.accq.specs.Words.{check_by};

use crate::command::Check;
use crate::store::Store;
use acc_driver::{CheckFault, Named, check, check_one};
use std::alloc::Global;
use std::io::{Read, Write};

/// Checks files, which are opened, in the order of the words, before one is read. What is wrong with them has gone out then.
///
/// # Errors
///
/// `Input` where one can't be opened, with its name; else those of `check` or `check_one`, and `Output` where the last of it doesn't go out.
pub fn check_files<'a, F: Read + Drop, S: Store<F>, W: Write>(
    alloc: Global,
    asked: &Check<'a>,
    files: &S,
    output: &mut W,
) -> Result<bool, CheckFault<'a>>
    ensures answers { FilesCheck (S.holds files.now) (check_by asked.now).script
        (check_by asked.now).schedule asked.now.devices (W.contents output.old)
        (W.contents output.new) result }
    ensures script { NeedsOpen (S.opens files.now asked.now.script.now) (W.contents output.old)
        (W.contents output.new) (status_checked result) }
    ensures schedule { IfSome (check_by asked.now).schedule (λ name.
        NeedsOpen (S.opens files.now name) (W.contents output.old) (W.contents output.new)
        (status_checked result)) }
{
    match check_opened(alloc, asked, files, output) {
        Ok(whole) => sent(whole, output),
        Err(fault) => Err(fault),
    }
}

// Opens files and checks them: a script and a schedule, or one that may hold both.
fn check_opened<'a, F: Read + Drop, S: Store<F>, W: Write>(
    alloc: Global,
    asked: &Check<'a>,
    files: &S,
    output: &mut W,
) -> Result<bool, CheckFault<'a>>
    ensures answers { FilesCheck (S.holds files.now) (check_by asked.now).script
        (check_by asked.now).schedule asked.now.devices (W.contents output.old)
        (W.contents output.new) result }
    ensures script { NeedsOpen (S.opens files.now asked.now.script.now) (W.contents output.old)
        (W.contents output.new) (status_checked result) }
    ensures schedule { IfSome (check_by asked.now).schedule (λ name.
        NeedsOpen (S.opens files.now name) (W.contents output.old) (W.contents output.new)
        (status_checked result)) }
{
    let script = open(files, asked.script)?;
    match asked.schedule {
        Some(name) => {
            let schedule = open(files, name)?;
            check(alloc, script, schedule, asked.devices, output)
        }
        None => check_one(alloc, script, asked.devices, output),
    }
}

// The file of a name, from its first byte on.
fn open<'a, F: Read + Drop, S: Store<F>>(
    files: &S,
    name: &'a str,
) -> Result<Named<'a, F>, CheckFault<'a>>
    ensures bytes { IfOk result (λ file.
        IfSome (S.holds files.now name.now) (λ bytes. F.remaining file.reader ≡ Some bytes)) }
    ensures opened { IfSome (S.opens files.now name.now) (λ can. is_ok result ≡ can) }
    ensures fault { IfErr result (λ fault. fault ≡ Input name.entry) }
{
    match files.open(name) {
        Some(reader) => Ok(Named { name, reader }),
        None => Err(CheckFault::Input(name)),
    }
}

// Sees to it that all that was told has gone out.
fn sent<'a, W: Write>(whole: bool, output: &mut W) -> Result<bool, CheckFault<'a>>
    ensures same { IfOk result (λ told. told ≡ whole) }
    ensures fault { IfErr result (λ fault. fault ≡ Output) }
    ensures kept { Keeps (W.contents output.old) (W.contents output.new) }
{
    match output.flush() {
        Ok(()) => Ok(whole),
        Err(_) => Err(CheckFault::Output),
    }
}
