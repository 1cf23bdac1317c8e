//! What is told of a fault on standard error, and the status that goes with it.

ghost use Rattle.std.specs.Prelude.{◌≡◌, ◌⊎◌};
ghost use Rattle.accq.specs.Statuses.{status_for};
ghost use Rattle.clap.specs.Words.{kind_of};
ghost use Rattle.clap.specs.declared.error.kind.ErrorKind.TheVariants.{OutOfMemory};

use acc_driver::DriverFault;
use clap::Error;
use clap::error::ErrorKind;
use std::io::Write;

/// Tells a fault by its line, and answers its status.
pub(crate) fn told<E: Write>(fault: DriverFault, errors: &mut E) -> u8
    ensures { result ≡ status_for fault }
{
    let _ = writeln!(errors, "accq: {fault}");
    match fault {
        DriverFault::Script(_) | DriverFault::Schedule(_) => 2,
        DriverFault::Input | DriverFault::Output | DriverFault::Memory | DriverFault::Runtime(_) =>
            3,
    }
}

/// Tells the parser's error by its own text, and answers its status.
pub(crate) fn told_words<E: Write>(error: &Error, errors: &mut E) -> u8
    ensures memory { kind_of error.now ≡ OutOfMemory → result ≡ 3 }
    ensures told { (result ≡ 2) ⊎ (result ≡ 3) }
    ensures words { (kind_of error.now ≡ OutOfMemory → ⊥) → result ≡ 2 }
{
    if error.kind() == ErrorKind::OutOfMemory {
        return told(DriverFault::Memory, errors);
    }
    let _ = write!(errors, "{error}");
    2
}

/// Tells that a word is no text, and answers the status of a fault of the words.
pub(crate) fn told_no_text<E: Write>(errors: &mut E) -> u8
    ensures { result ≡ 2 }
{
    let _ = errors.write_all(b"error: invalid UTF-8 was detected in one or more arguments\n");
    2
}
