//! The fourteen faults.

ghost use Rattle.std.specs.Prelude.{◌≡◌};
ghost use Rattle.acc_base.specs.Faults.{fault_number, fault_name};

use std::alloc::{AllocError, AllocFailed};
use std::error::Error;
use std::fmt::{self, Display, Formatter, Write};

/// Why a call was refused. Its text is its number and its name, as `F6 PartlyPresent`.
#[derive(Clone, Copy, Debug, PartialEq, Eq)]
pub enum Fault {
    /// The owner has closed: no directive is taken any more.
    Closed,
    /// There is no such device.
    BadDevice,
    /// A negative async value that is neither `acc_async_noval` nor `acc_async_sync`.
    BadAsync,
    /// A range without a cell, or not in its array.
    BadRange,
    /// A limit is passed.
    TooMany,
    /// A range overlaps a present range and is not contained in one.
    PartlyPresent,
    /// A range is absent where its data has to be present.
    NotPresent,
    /// The device's capacity would be passed.
    DeviceFull,
    /// A loop reaches a cell outside the range that it uses.
    OutsideRange,
    /// A data construct ends where its host is in none.
    NoRegion,
    /// Memory, or a thread, was refused.
    Memory,
    /// The queue holds its room of batches.
    QueueFull,
    /// A queue has not performed its close.
    Unfinished,
    /// The hosts' own lists and the histories differ.
    HostsDiffer,
}

impl Fault {
    /// From 1 to 14.
    pub fn number(&self) -> u8
        ensures { result ≡ fault_number self.now }
    {
        match self {
            Fault::Closed => 1,
            Fault::BadDevice => 2,
            Fault::BadAsync => 3,
            Fault::BadRange => 4,
            Fault::TooMany => 5,
            Fault::PartlyPresent => 6,
            Fault::NotPresent => 7,
            Fault::DeviceFull => 8,
            Fault::OutsideRange => 9,
            Fault::NoRegion => 10,
            Fault::Memory => 11,
            Fault::QueueFull => 12,
            Fault::Unfinished => 13,
            Fault::HostsDiffer => 14,
        }
    }

    /// The name behind the number, as in `F6 PartlyPresent`.
    pub fn name(&self) -> &'static str
        ensures { result.now ≡ fault_name self.now }
    {
        match self {
            Fault::Closed => "Closed",
            Fault::BadDevice => "BadDevice",
            Fault::BadAsync => "BadAsync",
            Fault::BadRange => "BadRange",
            Fault::TooMany => "TooMany",
            Fault::PartlyPresent => "PartlyPresent",
            Fault::NotPresent => "NotPresent",
            Fault::DeviceFull => "DeviceFull",
            Fault::OutsideRange => "OutsideRange",
            Fault::NoRegion => "NoRegion",
            Fault::Memory => "Memory",
            Fault::QueueFull => "QueueFull",
            Fault::Unfinished => "Unfinished",
            Fault::HostsDiffer => "HostsDiffer",
        }
    }
}

impl Display for Fault {
    fn fmt<W: Write>(&self, f: &mut Formatter<W>) -> fmt::Result {
        write!(f, "F{} {}", self.number(), self.name())
    }
}

impl Error for Fault {}

impl From<AllocError> for Fault {
    ghost use Rattle.std.specs.Prelude.{◌≡◌};
    ghost use Rattle.acc_base.specs.declared.fault.Fault.TheVariants.{Memory};

    ghost from_gives = { λ _ fault. fault ≡ Memory };

    fn from(_refused: AllocError) -> Self {
        Fault::Memory
    }
}

impl<T: Drop> From<AllocFailed<T>> for Fault {
    ghost use Rattle.std.specs.Prelude.{◌≡◌};
    ghost use Rattle.acc_base.specs.declared.fault.Fault.TheVariants.{Memory};

    ghost from_gives = { λ _ fault. fault ≡ Memory };

    fn from(_refused: AllocFailed<T>) -> Self {
        Fault::Memory
    }
}
