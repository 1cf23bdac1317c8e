//! What is asked of the statements of a loop, one after another.

ghost use Rattle.std.specs.Prelude.{◌≡◌, ℕ, slice_index_or, false};
ghost use Rattle.std.specs.List.{list_any};
ghost use Rattle.acc_kernel.specs.Faults.{reads_assigned, is_off_by, is_assigned, is_deep, is_far};
ghost use Rattle.acc_kernel.specs.Kernels.{references, references_at};
ghost use Rattle.acc_kernel.specs.Jobs.{is_lacking, is_read};
ghost use Rattle.acc_kernel.specs.Trees.{Reference, references_of};

use crate::assign::Assign;
use crate::limits::MAX_DEPTH;
use crate::uses::is_lacking;
use acc_base::{BlockId, Range};

pub(crate) fn has_deep(statements: &[Assign]) -> bool
    ensures { result ≡ list_any is_deep statements.now }
{
    statements.iter().any(|s| s.value.depth() > MAX_DEPTH)
}

// Whether an array that is assigned is read off the index.
pub(crate) fn reads_assigned(statements: &[Assign]) -> bool
    ensures { result ≡ reads_assigned statements.now }
{
    finds_off(statements, &assigned_arrays(statements))
}

// Of each array, whether a statement assigns it.
fn assigned_arrays(statements: &[Assign]) -> [bool; 256]
    ensures { (array : ℕ) → slice_index_or result array false ≡ is_assigned statements.now array }
{
    let mut assigned = [false; 256];
    for s in statements {
        assigned[usize::from(s.array)] = true;
    }
    assigned
}

pub(crate) fn has_far_offset(statements: &[Assign]) -> bool
    ensures { result ≡ list_any (λ (r : Reference). is_far r.offset) (references statements.now) }
{
    finds_far(statements)
}

// The tests statement by statement.
pub(crate) fn finds_off(statements: &[Assign], assigned: &[bool; 256]) -> bool
    ensures { result ≡ list_any (λ s. list_any (is_off_by (λ array.
        slice_index_or assigned.now array false)) (references_of s.value)) statements.now }
{
    statements.iter().any(|s| s.value.reads_assigned(assigned))
}

pub(crate) fn finds_read(statements: &[Assign], array: u8) -> bool
    ensures { result ≡ is_read statements.now array }
{
    statements.iter().any(|s| s.value.reads(array))
}

pub(crate) fn finds_assigned(statements: &[Assign], array: u8) -> bool
    ensures { result ≡ is_assigned statements.now array }
{
    statements.iter().any(|s| s.array == array)
}

pub(crate) fn finds_far(statements: &[Assign]) -> bool
    ensures { result ≡ list_any (λ s. list_any (λ (r : Reference). is_far r.offset)
        (references_of s.value)) statements.now }
{
    statements.iter().any(|s| s.value.has_far_offset())
}

pub(crate) fn finds_lacking(
    statements: &[Assign],
    first: i64,
    last: i64,
    uses: &[(BlockId, Range)],
) -> bool
    ensures { result ≡ list_any (λ s. list_any (is_lacking first last uses.now)
        (references_at s)) statements.now }
{
    statements.iter().any(|s| {
        is_lacking(uses, s.array, 0, first, last) || s.value.is_lacking(first, last, uses)
    })
}
