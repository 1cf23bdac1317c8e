//! The faults of a loop.

ghost use Rattle.std.specs.Prelude.{◌≡◌};
ghost use Rattle.acc_kernel.specs.Faults.{code_of, loop_fault_name};

use std::alloc::AllocError;
use std::error::Error;
use std::fmt::{self, Display, Formatter, Write};

/// Why a loop was refused. Its text is its code and its name, as `K2 NoStatement`.
#[derive(Clone, Copy, Debug, PartialEq, Eq)]
pub enum KernelFault {
    /// An array that the loop assigns is read off the index.
    ReadsAssigned,
    /// There is no statement.
    NoStatement,
    /// An expression is too deep.
    TooDeep,
    /// A bound, or an offset, is too far from zero.
    TooFar,
    /// There are too many statements.
    TooMany,
    /// Memory was refused.
    Memory,
}

impl KernelFault {
    /// `K1` to `K4`; too many statements are `F5`, as other counts are, and want of memory is `F11`.
    pub fn code(&self) -> &'static str
        ensures { result.now ≡ code_of self.now }
    {
        match self {
            KernelFault::ReadsAssigned => "K1",
            KernelFault::NoStatement => "K2",
            KernelFault::TooDeep => "K3",
            KernelFault::TooFar => "K4",
            KernelFault::TooMany => "F5",
            KernelFault::Memory => "F11",
        }
    }

    /// The name behind the code.
    pub fn name(&self) -> &'static str
        ensures { result.now ≡ loop_fault_name self.now }
    {
        match self {
            KernelFault::ReadsAssigned => "ReadsAssigned",
            KernelFault::NoStatement => "NoStatement",
            KernelFault::TooDeep => "TooDeep",
            KernelFault::TooFar => "TooFar",
            KernelFault::TooMany => "TooMany",
            KernelFault::Memory => "Memory",
        }
    }
}

impl Display for KernelFault {
    fn fmt<W: Write>(&self, f: &mut Formatter<W>) -> fmt::Result {
        write!(f, "{} {}", self.code(), self.name())
    }
}

impl Error for KernelFault {}

impl From<AllocError> for KernelFault {
    ghost use Rattle.std.specs.Prelude.{◌≡◌};
    ghost use Rattle.acc_kernel.specs.declared.fault.KernelFault.TheVariants.{Memory};

    ghost from_gives = { λ _ fault. fault ≡ Memory };

    fn from(_refused: AllocError) -> Self {
        KernelFault::Memory
    }
}
