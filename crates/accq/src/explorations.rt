//! Explorations of the runs of a script, of which what is told has gone out.

ghost use Rattle.std.specs.Prelude.{◌≡◌, IfErr, IfOk, IfSome, Some};
ghost use Rattle.acc_driver.specs.Replays.{AreUsable};
ghost use Rattle.accq.specs.Statuses.{AsksForOpen, ExploreOfFiles};
ghost use Rattle.accq.specs.Words.{explore_by};

use crate::command::Explore;
use crate::replays::sent;
use crate::steps::open;
use crate::store::Store;
use acc_driver::{DriverFault, Explored, Watcher, explore, explore_script};
use std::alloc::Global;
use std::io::{Read, Write};

/// Explores the runs of a script, behind a schedule if one is named. The files are opened, in the order of the words, before one is read.
/// What is told has gone out then.
///
/// # Errors
///
/// `Input` where one can't be opened; else those of `explore` or `explore_script`, and `Output` where the last of it doesn't go out.
pub fn explore_files<F: Read + Drop, S: Store<F>, W: Write, V: Watcher>(
    alloc: Global,
    asked: &Explore,
    files: &S,
    output: &mut W,
    watcher: &V,
) -> Result<Explored, DriverFault>
    requires { AreUsable asked.now.options }
    ensures answers { ExploreOfFiles (S.holds files.now) (explore_by asked.now)
        (explore_by asked.now).schedule (W.contents output.old) (W.contents output.new) result }
    ensures script { AsksForOpen (S.opens files.now asked.now.script.now) result }
    ensures schedule { IfSome (explore_by asked.now).schedule (λ name.
        AsksForOpen (S.opens files.now name) result) }
{
    match explore_opened(alloc, asked, files, output, watcher) {
        Ok(explored) => sent(explored, output),
        Err(fault) => Err(fault),
    }
}

// Opens the files, and explores the runs.
fn explore_opened<F: Read + Drop, S: Store<F>, W: Write, V: Watcher>(
    alloc: Global,
    asked: &Explore,
    files: &S,
    output: &mut W,
    watcher: &V,
) -> Result<Explored, DriverFault>
    requires { AreUsable asked.now.options }
    ensures answers { ExploreOfFiles (S.holds files.now) (explore_by asked.now)
        (explore_by asked.now).schedule (W.contents output.old) (W.contents output.new) result }
    ensures script { AsksForOpen (S.opens files.now asked.now.script.now) result }
    ensures schedule { IfSome (explore_by asked.now).schedule (λ name.
        AsksForOpen (S.opens files.now name) result) }
{
    let options = asked.options;
    let exploring = asked.exploring;
    let mut script = open(files, asked.script)?;
    match asked.schedule {
        Some(name) => {
            let mut schedule = open(files, name)?;
            explore(
                alloc,
                &mut script,
                &mut schedule,
                options,
                exploring,
                output,
                watcher,
            )
        }
        None => explore_script(alloc, &mut script, options, exploring, output, watcher),
    }
}
