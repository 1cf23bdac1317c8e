//! Many cases in a folder: each replayed, and what came beside what is wanted.
#![tactic(auto)]

mod case;
mod difference;
mod disk;
mod fault;
mod folder;
mod hunks;
mod laws;
mod names;
mod options;
mod outcome;
mod run;
#[cfg(test)]
mod tests;
#[cfg(test)]
mod tests_of_disk;
mod text;

pub use difference::{Line, Mark, difference_of};
pub use disk::DiskFolder;
pub use fault::{CaseFault, Kind};
pub use folder::{Folder, FolderFault};
pub use laws::{worked_options, worked_texts};
pub use options::{OptionsFault, number_in, options_of};
pub use outcome::{Outcome, test_case};
pub use run::{Tally, TestFault, test_all};
