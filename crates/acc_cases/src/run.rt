//! All cases of a folder.

ghost use Rattle.std.specs.Prelude.{◌≡◌, ◌≢◌, ◌+◌, ◌<◌, IfErr, IfOk, List, map};
ghost use Rattle.acc_cases.specs.Folders.{Known};
ghost use Rattle.acc_cases.specs.Runs.{AllTested, TestedAll, tally_of, with_case};
ghost use Rattle.acc_cases.specs.declared.outcome.Outcome.{Outcome};
ghost use Rattle.acc_cases.specs.declared.run.TestFault.TheVariants.{Folder as NotListed, Output};

use crate::folder::{Folder, FolderFault};
use crate::names::names_of;
use crate::outcome::test_case;
use crate::text::tell;
use acc_driver::Options;
use std::alloc::Global;
use std::io::Write;
use thiserror::Error;

/// How many cases pass, and how many don't.
#[derive(Clone, Copy, Debug, PartialEq, Eq)]
pub struct Tally {
    pub passed: usize,
    pub failed: usize,
}

impl Tally {
    // One case more.
    fn with(self, passes: bool) -> Self
        requires { self.passed + self.failed < usize.MAX }
        ensures value { result ≡ with_case self passes }
        ensures more { result.passed + result.failed ≡ self.passed + self.failed + 1 }
    {
        let Tally { passed, failed } = self;
        if passes {
            Tally {
                passed: passed + 1,
                failed,
            }
        } else {
            Tally {
                passed,
                failed: failed + 1,
            }
        }
    }
}

/// Why the cases of a folder were not all told.
#[derive(Clone, Copy, Debug, PartialEq, Eq, Error)]
pub enum TestFault {
    /// The folder can't be listed.
    #[error("cannot read")]
    Folder,
    /// The writer failed, or took nothing.
    #[error("cannot write")]
    Output,
    #[error("out of memory")]
    Memory,
}

/// Replays all cases of a folder, in the order of their names, and compares what comes of each with its report; where `bless` says
/// so, it writes what came in its place. A case has the common options where its own say nothing else. Each is told by a line, and
/// by a difference where it fails for that; the last line has the counts.
///
/// # Errors
///
/// `Folder` where the folder can't be listed; `Output` where the writer failed or took nothing; `Memory` for want of memory. Cases
/// that come later are then not replayed.
pub fn test_all<F: Folder, W: Write>(
    alloc: Global,
    folder: &mut F,
    common: Options,
    bless: bool,
    writer: &mut W,
) -> Result<Tally, TestFault>
    ensures tested { IfOk result (λ t.
        Known (F.files folder.old) (λ fs. TestedAll fs common bless t (F.files folder.new))) }
    ensures listed { Known (F.files folder.old) (λ fs. IfErr result (λ f. f ≢ NotListed)) }
{
    let files = match folder.names(alloc) {
        Ok(files) => files,
        Err(FolderFault::Memory) => return Err(TestFault::Memory),
        Err(_) => return Err(TestFault::Folder),
    };
    let names = match names_of(alloc, files.as_slice()) {
        Ok(names) => names,
        Err(_) => return Err(TestFault::Memory),
    };
    let tally = test_each(alloc, folder, names.as_slice(), common, bless, writer)?;
    match writeln!(writer, "{} passed, {} failed", tally.passed, tally.failed) {
        Ok(()) => Ok(tally),
        Err(_) => Err(TestFault::Output),
    }
}

// Replays the cases of these names, and tells each.
fn test_each<F: Folder, W: Write>(
    alloc: Global,
    folder: &mut F,
    names: &[&str],
    common: Options,
    bless: bool,
    writer: &mut W,
) -> Result<Tally, TestFault>
    ensures tested { IfOk result (λ t. (outcomes : List Outcome)
        × AllTested (F.files folder.old) common bless (map (λ n. n.now) names.now) outcomes
        (F.files folder.new) × (t ≡ tally_of outcomes)) }
    ensures fault { IfErr result (λ f. f ≡ Output) }
{
    let mut tally = Tally {
        passed: 0,
        failed: 0,
    };
    for name in names {
        let outcome = test_case(alloc, folder, name, common, bless);
        tally = tally.with(outcome.passes());
        match tell(alloc, name, &outcome, writer) {
            Ok(()) => {}
            Err(_) => return Err(TestFault::Output),
        }
    }
    Ok(tally)
}
