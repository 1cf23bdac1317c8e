//! The arrays that a loop refers to.

ghost use Rattle.std.specs.Prelude.{◌≡◌, IfOk};
ghost use Rattle.acc_kernel.specs.inner.Scans.{with_array};

use std::alloc::AllocError;

/// Puts an array behind the others, unless it is one of them.
pub(crate) fn put_once(arrays: &mut Vec<u8>, array: u8) -> Result<(), AllocError>
    ensures { IfOk result (λ _. arrays.new.items ≡ with_array arrays.old.items array) }
{
    if !arrays.as_slice().contains(&array) {
        arrays.reserve(1)?;
        arrays.push_reserved(array);
    }
    Ok(())
}
