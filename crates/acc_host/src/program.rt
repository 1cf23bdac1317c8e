//! Programs of hosts: statements, and what each does.

ghost use Rattle.std.specs.Prelude.{◌≡◌, IfOk};
ghost use Rattle.acc_base.specs.Faults.{OnlyMemory};

use acc_base::{Fault, HostId, Listed, Range};
use acc_place::Directive;
use std::alloc::Global;
use std::mem::size_of;

/// What a statement does.
#[derive(Drop)]
pub enum Act {
    /// A directive, or a routine of the same meaning. Its device and its default async value become the host's.
    Place { directive: Directive },
    /// A cell of a host array is written.
    Write { array: u8, cell: u32, value: i64 },
    /// A range of a host array is printed.
    Print { range: Range },
    /// `acc_set_device_num` (OpenACC API 3.0, 3.2.4).
    SetDevice { device: u32 },
    /// `acc_set_default_async` (3.2.22).
    SetAsync { value: i64 },
    /// `acc_get_device_num` (3.2.5).
    ShowDevice,
    /// `acc_get_num_devices` (3.2.1).
    ShowDevices,
}

/// A statement of a host's program, with the line that it stands in.
#[derive(Drop)]
pub struct Statement {
    pub line: u32,
    pub act: Act,
}

// A program has up to some tens of thousands.
const _: () = prove!(size_of::<Statement>() == 40);

/// What a host does, statement by statement.
#[derive(Drop)]
pub struct HostProgram {
    pub host: HostId,
    pub statements: Listed<Statement>,
}

impl Act {
    /// An equal act, which shares what is written of a directive. It takes no memory.
    ///
    /// # Errors
    ///
    /// `Memory` where the count of the owners of what is written is full.
    pub fn try_clone(&self) -> Result<Self, Fault>
        ensures equal { IfOk result (λ a. a ≡ self.now) }
        ensures fault { OnlyMemory result }
    {
        match self {
            Act::Place { directive } => {
                let directive = directive.try_clone()?;
                Ok(Act::Place { directive })
            }
            Act::Write { array, cell, value } => Ok(Act::Write {
                array: *array,
                cell: *cell,
                value: *value,
            }),
            Act::Print { range } => Ok(Act::Print { range: *range }),
            Act::SetDevice { device } => Ok(Act::SetDevice { device: *device }),
            Act::SetAsync { value } => Ok(Act::SetAsync { value: *value }),
            Act::ShowDevice => Ok(Act::ShowDevice),
            Act::ShowDevices => Ok(Act::ShowDevices),
        }
    }
}

impl HostProgram {
    /// An equal program.
    ///
    /// # Errors
    ///
    /// `Memory` where memory is refused.
    pub fn try_clone(&self, alloc: Global) -> Result<Self, Fault>
        ensures equal { IfOk result (λ p. p ≡ self.now) }
        ensures fault { OnlyMemory result }
    {
        let mut statements = Vec::with_capacity(alloc, self.statements.as_slice().len())?;
        for statement in self.statements.as_slice() {
            let act = statement.act.try_clone()?;
            statements.push_reserved(Statement {
                line: statement.line,
                act,
            });
        }
        Ok(HostProgram {
            host: self.host,
            statements: Listed::from_vec(statements),
        })
    }
}

/// Equal programs.
///
/// # Errors
///
/// `Memory` where memory is refused.
pub fn copies_of(alloc: Global, programs: &[HostProgram]) -> Result<Vec<HostProgram>, Fault>
    ensures equal { IfOk result (λ copies. copies.items ≡ programs.now) }
    ensures fault { OnlyMemory result }
{
    let mut copies = Vec::with_capacity(alloc, programs.len())?;
    for program in programs {
        copies.push_reserved(program.try_clone(alloc)?);
    }
    Ok(copies)
}
