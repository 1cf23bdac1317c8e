//! A directive of what a table says of it, where its kind may have such clauses.

use crate::form::{Form, kind_of};
use acc_base::{Fault, Few};
use acc_place::{DataItem, Directive, Target, Waits, Written};
use std::alloc::Global;

/// A directive of this form with these clauses.
///
/// # Errors
///
/// `BadRange` where the limits of loops refuse its loop, `Memory` where memory is refused, and `Unfinished` where no
/// directive of its kind may have such clauses.
pub fn directive_of(
    alloc: Global,
    form: Form,
    items: &[DataItem],
    target: Target,
    waits: Waits,
) -> Result<Directive, Fault> {
    let written = Written {
        kind: kind_of(alloc, form)?,
        items: Few::from_slice(alloc, items)?,
        target,
        waits,
    };
    if !written.is_well_formed() {
        return Err(Fault::Unfinished);
    }
    Directive::new(alloc, written)
}
