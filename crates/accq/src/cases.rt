//! Cases of a folder, of which what is told has gone out.

ghost use Rattle.std.specs.Prelude.{◌≡◌, List, Option, IfErr, IfOk, IfSome};
ghost use Rattle.acc_cases.specs.Folders as folders;
ghost use Rattle.acc_cases.specs.declared.run.TestFault.TheVariants.{Output};
ghost use Rattle.accq.specs.Statuses.{FolderAnswers};
ghost use Rattle.accq.specs.Words.{test_by};

use crate::command::Test;
use crate::store::Folders;
use acc_cases::{Folder, Tally, TestFault, test_all};
use std::alloc::Global;
use std::io::Write;

/// Tests the cases of a folder. What is told of them has gone out then.
///
/// # Errors
///
/// `Memory` where it is refused to open the folder; else those of `test_all`, and `Output` where the last of it doesn't go out.
pub fn test_folder<D: Folder + Drop, S: Folders<D>, W: Write>(
    alloc: Global,
    asked: &Test,
    files: &S,
    output: &mut W,
) -> Result<Tally, TestFault>
    ensures { IfSome (S.files_in files.now asked.now.folder.now) (λ fs.
        (new : Option (List folders.File)) × FolderAnswers (test_by asked.now) fs new result) }
{
    let mut folder = match files.folder(asked.folder) {
        Ok(folder) => folder,
        Err(_) => return Err(TestFault::Memory),
    };
    let tally = test_all(alloc, &mut folder, asked.options, asked.bless, output)?;
    sent(tally, output)
}

// Sees to it that all that was told has gone out.
fn sent<W: Write>(tally: Tally, output: &mut W) -> Result<Tally, TestFault>
    ensures same { IfOk result (λ t. t ≡ tally) }
    ensures fault { IfErr result (λ f. f ≡ Output) }
{
    match output.flush() {
        Ok(()) => Ok(tally),
        Err(_) => Err(TestFault::Output),
    }
}
