//! Where a text stops being the beginning of a script or of a schedule, what could stand there, and what helps.
#![tactic(auto)]

mod check;
mod finding;
mod help;
mod idioms;
mod language;
mod limit;
mod names;
mod piece;
mod place;
mod stand;
mod tokens;
mod told;
mod words;

pub use check::{CheckFault, check_schedule, check_script};
pub use finding::{Finding, Lack, finding_of};
pub use language::Language;
pub use limit::largest_number;
pub use place::{Piece, Place, place_of};
pub use stand::could_stand;
pub use told::told_text;
pub use words::{SCHEDULE_WORDS, WORDS};
