//! The lines that tell of a case.

use crate::difference::{Line, difference_of};
use crate::fault::{CaseFault, Kind};
use crate::hunks::put_hunks;
use crate::outcome::Outcome;
use std::alloc::Global;
use std::io::{Result, Write};

/// Tells the outcome of a case. Where there is no memory to tell a difference, that is told.
pub(crate) fn tell<W: Write>(
    alloc: Global,
    name: &str,
    outcome: &Outcome,
    writer: &mut W,
) -> Result<()> {
    match outcome {
        Outcome::Passed => writeln!(writer, "ok {name}"),
        Outcome::Changed => writeln!(writer, "changed {name}"),
        Outcome::Faulty(fault) => put_fault(name, fault, writer),
        Outcome::Differs(wanted, came) => {
            match difference_of(alloc, wanted.as_slice(), came.as_slice()) {
                Ok(lines) => put_difference(name, lines.as_slice(), writer),
                Err(_) => put_fault(name, &CaseFault::Memory, writer),
            }
        }
    }
}

// Why nothing was compared.
fn put_fault<W: Write>(name: &str, fault: &CaseFault, writer: &mut W) -> Result<()> {
    write!(writer, "FAILED {name}: ")?;
    match fault {
        CaseFault::Unread(kind) => writeln!(writer, "cannot read {name}{}", kind.ending()),
        CaseFault::Unwritten => writeln!(writer, "cannot write {name}{}", Kind::Report.ending()),
        CaseFault::TwoSchedules => {
            writeln!(
                writer,
                "a schedule in {name}{}, and one in {name}{}",
                Kind::Script.ending(),
                Kind::Schedule.ending()
            )
        }
        CaseFault::Options(word) => {
            write!(writer, "{name}{}: ", Kind::Line.ending())?;
            writer.write_all(word.as_slice())?;
            writer.write_all(b" cannot stand there\n")
        }
        CaseFault::Memory => writer.write_all(b"out of memory\n"),
    }
}

// The lines of a difference.
fn put_difference<W: Write>(name: &str, lines: &[Line], writer: &mut W) -> Result<()> {
    writeln!(writer, "FAILED {name}")?;
    put_hunks(name, lines, writer)
}
