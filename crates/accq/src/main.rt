//! `accq`: replays a script of hosts and OpenACC directives under a schedule, or runs it by threads, and reports what it means;
//! or tells what each event of a replay did, or all reports that a script can have; or checks both texts, or explains a fault, or tests the cases of a folder.
#![tactic(auto)]

mod cases;
mod checks;
mod command;
mod explain;
mod explanations;
mod explorations;
mod help;
mod laws;
mod meter;
mod replays;
mod status;
mod steps;
mod store;
#[cfg(test)]
mod tests;
#[cfg(test)]
mod tests_of_cases;
#[cfg(test)]
mod tests_of_checks;
#[cfg(test)]
mod tests_of_explanations;
#[cfg(test)]
mod tests_of_explorations;
#[cfg(test)]
mod tests_of_steps;
#[cfg(test)]
mod tests_of_streams;
#[cfg(test)]
mod tests_of_words;
mod told;
mod words;

use crate::status::status_of;
use crate::told::{told, told_no_text};
use acc_driver::{DriverFault, Remains};
use meter::on_terminal;
use std::env;
use std::io::{self, BufWriter, ErrorKind};
use std::mem::ManuallyDrop;
use std::process::ExitCode;
use store::Disk;

fn main(rt: HostRuntime) -> ExitCode {
    let mut errors = rt.stderr();
    let words = match env::args(&rt) {
        Ok(args) => match args.collect::<Vec<String>>(rt.alloc()) {
            Ok(words) => words,
            Err(_) => return ExitCode::from(told(DriverFault::Memory, &mut errors)),
        },
        Err(error) if error.kind() == ErrorKind::OutOfMemory => {
            return ExitCode::from(told(DriverFault::Memory, &mut errors));
        }
        Err(_) => return ExitCode::from(told_no_text(&mut errors)),
    };
    let mut output = match BufWriter::new(rt.alloc(), io::writer(&rt)) {
        Ok(output) => output,
        Err(_) => return ExitCode::from(told(DriverFault::Memory, &mut errors)),
    };
    // what a run leaves is left to the end of the process
    let mut remains = ManuallyDrop::new(Remains::nothing());
    let status = status_of(
        &rt,
        rt.alloc(),
        words.as_slice(),
        &Disk { rt: &rt },
        &mut rt.stdin(),
        &mut output,
        &mut errors,
        on_terminal(&rt).as_ref(),
        &mut remains,
    );
    ExitCode::from(status)
}
