//! What is told of one case.

ghost use Rattle.std.specs.Prelude.{◌≡◌, ◌++◌, ◌↔◌, IsTrue, IfOk, IfErr, OnOk, Some, option_map, true, false};
ghost use Rattle.acc_cases.specs.declared.fault.CaseFault.TheVariants.{Memory, Unwritten};
ghost use Rattle.acc_cases.specs.declared.fault.Kind.TheVariants.{Report};
ghost use Rattle.acc_cases.specs.Cases.{CaseComes, IsCaseFault, ending_of, held};
ghost use Rattle.acc_cases.specs.Folders.{Known, with_file};
ghost use Rattle.acc_cases.specs.Runs.{IsWriteFault, Tests, passes};

use crate::case::{file_name, read_case, read_file};
use crate::fault::{CaseFault, Kind};
use crate::folder::{Folder, FolderFault};
use acc_driver::Options;
use std::alloc::Global;

/// What is told of a case.
#[derive(Debug, Drop)]
pub enum Outcome {
    /// What came is what is wanted.
    Passed,
    /// What came is something else, and was written in its place.
    Changed,
    /// What came is something else: what is wanted, and what came.
    Differs(Vec<u8>, Vec<u8>),
    /// Nothing came, or there is nothing that is wanted.
    Faulty(CaseFault),
}

impl Outcome {
    /// Whether the case passes; so does one whose report was changed.
    pub fn passes(&self) -> bool
        ensures { result ≡ passes self.now }
    {
        match self {
            Outcome::Passed | Outcome::Changed => true,
            Outcome::Differs(_, _) | Outcome::Faulty(_) => false,
        }
    }
}

// What is wanted of a case, if it has a report, and what comes of it.
fn compared<F: Folder>(
    alloc: Global,
    folder: &F,
    name: &str,
    common: Options,
) -> Result<(Option<Vec<u8>>, Vec<u8>), CaseFault>
    ensures wanted { Known (F.files folder.now) (λ fs.
        IfOk result (λ p. option_map (λ v. v.items) p.0 ≡ held fs name.now Report)) }
    ensures came { Known (F.files folder.now) (λ fs.
        IfOk result (λ p. CaseComes fs name.now common p.1.items)) }
    ensures fault { Known (F.files folder.now) (λ fs.
        IfErr result (λ f. IsCaseFault fs name.now common f)) }
{
    let case = match read_case(alloc, folder, name, common) {
        Ok(case) => case,
        Err(fault) => return Err(fault),
    };
    let came = match case.came(alloc) {
        Ok(came) => came,
        Err(fault) => return Err(fault),
    };
    match read_file(alloc, folder, name, Kind::Report) {
        Ok(wanted) => Ok((wanted, came)),
        Err(fault) => Err(fault),
    }
}

// Whether what came is what is wanted.
fn is_wanted(wanted: &Option<Vec<u8>>, came: &[u8]) -> bool
    ensures { IsTrue result ↔ (option_map (λ v. v.items) wanted.now ≡ Some came.now) }
{
    match wanted {
        Some(wanted) => wanted.as_slice() == came,
        None => false,
    }
}

// Writes a case's report.
fn write_report<F: Folder>(
    alloc: Global,
    folder: &mut F,
    name: &str,
    came: &[u8],
) -> Result<(), CaseFault>
    ensures written { OnOk result (Known (F.files folder.old) (λ fs.
        F.files folder.new ≡ Some (with_file fs (name.now ++ ending_of Report) came.now))) }
    ensures fault { IfErr result IsWriteFault }
{
    let file = match file_name(alloc, name, Kind::Report) {
        Ok(file) => file,
        Err(_) => return Err(CaseFault::Memory),
    };
    match folder.write(file.as_str(), came) {
        Ok(()) => Ok(()),
        Err(FolderFault::Memory) => Err(CaseFault::Memory),
        Err(_) => Err(CaseFault::Unwritten),
    }
}

/// Replays the case of a name, with the options that it has in common with others where its own say nothing else, and compares what
/// came with its report; where `bless` says so, it writes what came in its place.
pub fn test_case<F: Folder>(
    alloc: Global,
    folder: &mut F,
    name: &str,
    common: Options,
    bless: bool,
) -> Outcome
    ensures { Known (F.files folder.old) (λ fs.
        Tests fs name.now common bless (F.files folder.new) result) }
{
    let (wanted, came) = match compared(alloc, folder, name, common) {
        Ok(both) => both,
        Err(fault) => return Outcome::Faulty(fault),
    };
    if is_wanted(&wanted, came.as_slice()) {
        return Outcome::Passed;
    }
    if bless {
        return match write_report(alloc, folder, name, came.as_slice()) {
            Ok(()) => Outcome::Changed,
            Err(fault) => Outcome::Faulty(fault),
        };
    }
    match wanted {
        Some(wanted) => Outcome::Differs(wanted, came),
        None => Outcome::Faulty(CaseFault::Unread(Kind::Report)),
    }
}
