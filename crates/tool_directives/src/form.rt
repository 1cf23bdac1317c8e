//! The kinds of directives as a table can write them down, a loop by its bounds and its body.

use acc_base::{Fault, Shared};
use acc_place::Kind;
use std::alloc::Global;
use tool_loops::{Body, Loop, kernel_of};

/// Which directive a table means.
#[derive(Clone, Copy, Debug)]
pub enum Form {
    Data,
    EndData,
    EnterData,
    ExitData { finalize: bool },
    Update { if_present: bool },
    Wait,
    Loop(Loop),
    AsyncTest,
    IsPresent,
}

pub const EXIT: Form = Form::ExitData { finalize: false };

pub const FINALIZE: Form = Form::ExitData { finalize: true };

pub const UPDATE: Form = Form::Update { if_present: false };

pub const UPDATE_IF_PRESENT: Form = Form::Update { if_present: true };

/// A loop from one index to before another.
pub fn over(lo: i64, hi: i64, body: Body) -> Form {
    Form::Loop(Loop { lo, hi, body })
}

/// What a directive of this form is.
///
/// # Errors
///
/// `BadRange` where the limits of loops refuse its loop, and `Memory` where memory is refused.
pub fn kind_of(alloc: Global, form: Form) -> Result<Kind, Fault> {
    match form {
        Form::Data => Ok(Kind::Data),
        Form::EndData => Ok(Kind::EndData),
        Form::EnterData => Ok(Kind::EnterData),
        Form::ExitData { finalize } => Ok(Kind::ExitData { finalize }),
        Form::Update { if_present } => Ok(Kind::Update { if_present }),
        Form::Wait => Ok(Kind::Wait),
        Form::Loop(table) => {
            let kernel = Shared::new(alloc, kernel_of(alloc, table)?)?;
            Ok(Kind::Loop { kernel })
        }
        Form::AsyncTest => Ok(Kind::AsyncTest),
        Form::IsPresent => Ok(Kind::IsPresent),
    }
}
