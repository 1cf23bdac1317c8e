//! What is wrong with a text.

use acc_base::Fault;
use std::alloc::{AllocError, AllocFailed};
use thiserror::Error;

/// What is wrong with a token of a script, or with a line of a schedule.
#[derive(Clone, Copy, Debug, PartialEq, Eq)]
pub enum ReadKind {
    /// A byte at which nothing begins that can stand there.
    Text,
    /// The text ends where more is needed.
    End,
    /// A name that is not declared, is declared twice, is too long, or names what can't stand there; in a schedule, a host, a
    /// device or a queue that isn't there.
    Name,
    /// A limit is passed: a number is larger or smaller than it can be there, or there is one too many of something.
    Limit,
    /// Any other token, word or number.
    Form,
}

/// The first fault of a text, with its line, from 1.
#[derive(Clone, Copy, Debug, PartialEq, Eq, Error)]
#[error("line {line}: {kind:?}")]
pub struct ReadFault {
    pub line: u32,
    pub kind: ReadKind,
}

/// Why a text was not read, where reading takes memory.
#[derive(Clone, Copy, Debug, PartialEq, Eq)]
pub enum ReadError {
    Memory,
    Fault(ReadFault),
}

impl From<ReadFault> for ReadError {
    ghost use Rattle.std.specs.Prelude.{◌≡◌};
    ghost use Rattle.acc_token.specs.declared.read_fault.ReadError.TheVariants.{Fault};

    ghost from_gives = { λ fault error. error ≡ Fault fault };

    fn from(fault: ReadFault) -> Self {
        ReadError::Fault(fault)
    }
}

impl From<AllocError> for ReadError {
    ghost use Rattle.std.specs.Prelude.{◌≡◌};
    ghost use Rattle.acc_token.specs.declared.read_fault.ReadError.TheVariants.{Memory};

    ghost from_gives = { λ _ error. error ≡ Memory };

    fn from(_refused: AllocError) -> Self {
        ReadError::Memory
    }
}

// What is read is made by calls that refuse for want of memory alone.
impl From<Fault> for ReadError {
    ghost use Rattle.std.specs.Prelude.{◌≡◌};
    ghost use Rattle.acc_token.specs.declared.read_fault.ReadError.TheVariants.{Memory};

    ghost from_gives = { λ _ error. error ≡ Memory };

    fn from(_refused: Fault) -> Self {
        ReadError::Memory
    }
}

impl<T: Drop> From<AllocFailed<T>> for ReadError {
    ghost use Rattle.std.specs.Prelude.{◌≡◌};
    ghost use Rattle.acc_token.specs.declared.read_fault.ReadError.TheVariants.{Memory};

    ghost from_gives = { λ _ error. error ≡ Memory };

    fn from(_refused: AllocFailed<T>) -> Self {
        ReadError::Memory
    }
}
