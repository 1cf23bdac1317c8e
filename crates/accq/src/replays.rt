//! Replays of the input or of files, and runs of a file, whose reports have gone out.

ghost use Rattle.std.specs.Prelude.{◌≡◌, IfOk, IfErr, IfSome};
ghost use Rattle.std.specs.Io.KnownBytes.{Keeps};
ghost use Rattle.acc_driver.specs.Inputs.{parts};
ghost use Rattle.acc_driver.specs.Replays.{Answers, AreUsable, IsRun, defaults};
ghost use Rattle.acc_driver.specs.declared.fault.DriverFault.TheVariants.{Output};
ghost use Rattle.acc_driver.specs.Runs.{IsConfigured, ScriptAnswers};
ghost use Rattle.accq.specs.Statuses.{AsksForOpen, FilesAnswer};
ghost use Rattle.accq.specs.Words.{replay_by};

use crate::command::{Replay, Run};
use crate::store::Store;
use acc_driver::{
    DriverFault, Ended, Monitor, OpenGate, Options, Remains, replay, replay_one, run_script,
};
use std::alloc::Global;
use std::io::{Read, Write};
use std::sync::Wait;
use std::thread::Threads;

/// Replays the input.
///
/// # Errors
///
/// Those of `replay_one`, and `Output` where the last of the report doesn't go out.
pub fn replay_input<R: Read, W: Write>(
    alloc: Global,
    input: &mut R,
    output: &mut W,
    remains: &mut Remains,
) -> Result<Ended, DriverFault>
    ensures answers { IfSome (R.remaining input.old) (λ text.
        Answers defaults (parts text) (W.contents output.old) (W.contents output.new) result) }
    ensures run { IsRun result }
{
    let ended = replay_one(alloc, input, Options::DEFAULT, output, remains)?;
    sent(ended, output)
}

/// Replays two files. Both are opened, in the order of the words, before one is read.
///
/// # Errors
///
/// `Input` where one can't be opened; else those of `replay`, and `Output` where the last of the report doesn't go out.
pub fn replay_files<F: Read + Drop, S: Store<F>, W: Write>(
    alloc: Global,
    asked: &Replay,
    files: &S,
    output: &mut W,
    remains: &mut Remains,
) -> Result<Ended, DriverFault>
    requires { AreUsable asked.now.options }
    ensures answers { FilesAnswer (S.holds files.now) (replay_by asked.now) (W.contents output.old)
        (W.contents output.new) result }
    ensures script { AsksForOpen (S.opens files.now asked.now.script.now) result }
    ensures schedule { AsksForOpen (S.opens files.now asked.now.schedule.now) result }
    ensures run { IsRun result }
{
    let Some(mut script) = files.open(asked.script) else {
        return Err(DriverFault::Input);
    };
    let Some(mut schedule) = files.open(asked.schedule) else {
        return Err(DriverFault::Input);
    };
    let ended = replay(
        alloc,
        &mut script,
        &mut schedule,
        asked.options,
        output,
        remains,
    )?;
    sent(ended, output)
}

/// Runs the script of a file by threads, where each batch passes. The meter is shown how far the run has come, if that is asked for.
///
/// # Errors
///
/// `Input` where it can't be opened; else those of `run_script`, and `Output` where the last of the report doesn't go out.
pub fn run_file<T: Threads + Wait + Sync, F: Read + Drop, S: Store<F>, W: Write, M: Monitor + Sync>(
    rt: &T,
    alloc: Global,
    asked: &Run,
    files: &S,
    output: &mut W,
    meter: Option<&M>,
    remains: &mut Remains,
) -> Result<Ended, DriverFault>
    requires { AreUsable asked.now.options }
    ensures answers { IfSome (S.holds files.now asked.now.script.now) (λ script.
        ScriptAnswers asked.now.options script (W.contents output.old)
        (W.contents output.new) result) }
    ensures script { AsksForOpen (S.opens files.now asked.now.script.now) result }
    ensures configured { IsConfigured result }
{
    let Some(mut file) = files.open(asked.script) else {
        return Err(DriverFault::Input);
    };
    let ended = run_script(
        rt,
        alloc,
        &mut file,
        asked.options,
        &OpenGate,
        if asked.progress { meter } else { None },
        output,
        remains,
    )?;
    sent(ended, output)
}

/// Sees to it that all that was written has gone out.
pub(crate) fn sent<T: Drop, W: Write>(answer: T, output: &mut W) -> Result<T, DriverFault>
    ensures same { IfOk result (λ a. a ≡ answer) }
    ensures fault { IfErr result (λ f. f ≡ Output) }
    ensures kept { Keeps (W.contents output.old) (W.contents output.new) }
{
    match output.flush() {
        Ok(()) => Ok(answer),
        Err(_) => Err(DriverFault::Output),
    }
}
