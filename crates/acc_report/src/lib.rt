//! The report of a run, read off what it leaves: what hosts printed and where they stand, what is present, and what queues have
//! performed and what of it was discarded.
#![tactic(auto)]

mod bytes;
mod counted;
mod laws;
mod line;
mod page;
mod prints;
mod remains;
mod retold;
mod run;

pub use bytes::{ReportFault, put, put_number};
pub use laws::{ids_are_not_told, lines_are_found};
pub use line::put_queue_name;
pub use remains::Run;
pub use run::{plain_ops, report, report_run};
