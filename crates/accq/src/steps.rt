//! Steps of replays of files, which have gone out.

ghost use Rattle.std.specs.Prelude.{◌≡◌, IfOk, IfErr, IfSome, Some};
ghost use Rattle.acc_driver.specs.Replays.{AreUsable};
ghost use Rattle.acc_driver.specs.declared.fault.DriverFault.TheVariants.{Input};
ghost use Rattle.accq.specs.Statuses.{AsksForOpen, StepsOfFiles};
ghost use Rattle.accq.specs.Words.{steps_by};

use crate::command::Steps;
use crate::replays::sent;
use crate::store::Store;
use acc_driver::{DriverFault, Ended, Remains, show, show_one};
use std::alloc::Global;
use std::io::{Read, Write};

/// Replays files, which are opened, in the order of the words, before one is read, and shows each step. That has gone out then. `None` where
/// a picture would be too long.
///
/// # Errors
///
/// `Input` where one can't be opened; else those of `show` or `show_one`, and `Output` where the last of it doesn't go out.
pub fn show_steps<F: Read + Drop, S: Store<F>, W: Write>(
    alloc: Global,
    asked: &Steps,
    files: &S,
    output: &mut W,
    remains: &mut Remains,
) -> Result<Option<Ended>, DriverFault>
    requires { AreUsable asked.now.options }
    ensures answers { StepsOfFiles (S.holds files.now) (steps_by asked.now)
        (steps_by asked.now).schedule (W.contents output.old) (W.contents output.new) result }
    ensures script { AsksForOpen (S.opens files.now asked.now.script.now) result }
    ensures schedule { IfSome (steps_by asked.now).schedule (λ name.
        AsksForOpen (S.opens files.now name) result) }
{
    match steps_opened(alloc, asked, files, output, remains)? {
        Some(ended) => match sent(ended, output) {
            Ok(ended) => Ok(Some(ended)),
            Err(fault) => Err(fault),
        },
        None => Ok(None),
    }
}

// Opens files and shows their steps: of a script and a schedule, or of one that may hold both.
fn steps_opened<F: Read + Drop, S: Store<F>, W: Write>(
    alloc: Global,
    asked: &Steps,
    files: &S,
    output: &mut W,
    remains: &mut Remains,
) -> Result<Option<Ended>, DriverFault>
    requires { AreUsable asked.now.options }
    ensures answers { StepsOfFiles (S.holds files.now) (steps_by asked.now)
        (steps_by asked.now).schedule (W.contents output.old) (W.contents output.new) result }
    ensures script { AsksForOpen (S.opens files.now asked.now.script.now) result }
    ensures schedule { IfSome (steps_by asked.now).schedule (λ name.
        AsksForOpen (S.opens files.now name) result) }
{
    let mut script = open(files, asked.script)?;
    match asked.schedule {
        Some(name) => {
            let mut schedule = open(files, name)?;
            show(
                alloc,
                &mut script,
                &mut schedule,
                asked.options,
                asked.form,
                output,
                remains,
            )
        }
        None => show_one(
            alloc,
            &mut script,
            asked.options,
            asked.form,
            output,
            remains,
        ),
    }
}

/// The file of a name, from its first byte on.
pub(crate) fn open<F: Read + Drop, S: Store<F>>(files: &S, name: &str) -> Result<F, DriverFault>
    ensures bytes { IfOk result (λ file.
        IfSome (S.holds files.now name.now) (λ bytes. F.remaining file ≡ Some bytes)) }
    ensures opened { AsksForOpen (S.opens files.now name.now) result }
    ensures fault { IfErr result (λ fault. fault ≡ Input) }
{
    match files.open(name) {
        Some(file) => Ok(file),
        None => Err(DriverFault::Input),
    }
}
