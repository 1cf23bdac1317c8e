//! Bytes and numbers into a writer that may fail.

ghost use Rattle.acc_report.specs.Puts.{Puts, Writes, sink};

use itoa::{Buffer, Integer};
use std::io::{ErrorKind, Write};
use thiserror::Error;

/// Why a report was not written whole.
#[derive(Clone, Copy, Debug, PartialEq, Eq, Error)]
pub enum ReportFault {
    /// The writer failed, or took nothing.
    #[error("cannot write")]
    Write,
    /// Memory was refused.
    #[error("out of memory")]
    Memory,
}

// Writes the bytes, or a beginning of them; a write that is interrupted is tried again.
fn write_all<W: Write>(out: &mut W, bytes: &[u8]) -> Result<(), ReportFault>
    ensures { Writes (W.contents out.old) (W.contents out.new) result bytes.now }
{
    let mut rest = bytes;
    for _ in 0..u64::MAX {
        if rest.is_empty() {
            return Ok(());
        }
        match out.write(rest) {
            Ok(0) => return Err(ReportFault::Write),
            Ok(taken) => (_, rest) = rest.split_at(taken),
            Err(error) => {
                if error.kind() != ErrorKind::Interrupted {
                    return Err(ReportFault::Write);
                }
            }
        }
    }
    Err(ReportFault::Write)
}

/// Writes the bytes, unless a write has failed; `failed` tells afterwards whether one has.
pub fn put<W: Write>(out: &mut W, failed: &mut bool, bytes: &[u8])
    ensures { Puts (sink (W.contents out.old) failed.old)
        (sink (W.contents out.new) failed.new) bytes.now }
{
    if !*failed && write_all(out, bytes).is_err() {
        *failed = true;
    }
}

/// Puts a number without a sign.
pub fn put_number<W: Write, I: Integer>(out: &mut W, failed: &mut bool, number: I)
    ensures { Puts (sink (W.contents out.old) failed.old) (sink (W.contents out.new) failed.new)
        (I.text number) }
{
    put(out, failed, Buffer::new().format(number).as_bytes());
}
