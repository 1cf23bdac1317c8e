//! What a job needs of its uses, as tests.

ghost use Rattle.std.specs.List.{position};
ghost use Rattle.std.specs.Prelude.{◌≡◌, ◌==◌, ◌↔◌, IsTrue};
ghost use Rattle.acc_kernel.specs.Jobs.{AreDistinct, uses_have, is_lacking, place_of};

use acc_base::{BlockId, Range};

/// Whether each array is used at most once.
pub fn are_distinct(uses: &[(BlockId, Range)]) -> bool
    ensures { IsTrue result ↔ AreDistinct uses.now }
{
    let mut used = [false; 256];
    for (_, range) in uses {
        let array = usize::from(range.array);
        if used[array] {
            return false;
        }
        used[array] = true;
    }
    true
}

/// Whether a cell is in the range of its array's use.
pub(crate) fn has_cell(uses: &[(BlockId, Range)], array: u8, cell: i128) -> bool
    ensures { result ≡ uses_have uses.now array cell }
{
    match uses.get(place_of(uses, array)) {
        Some((_, range)) => i128::from(range.lo) <= cell && cell < i128::from(range.end()),
        None => false,
    }
}

/// Whether the uses don't have the cell of a reference at the first or at the last index.
pub(crate) fn is_lacking(
    uses: &[(BlockId, Range)],
    array: u8,
    offset: i64,
    first: i64,
    last: i64,
) -> bool
    ensures { result ≡ is_lacking first last uses.now (record { array = array; offset = offset }) }
{
    if !has_cell(uses, array, i128::from(first) + i128::from(offset)) {
        return true;
    }
    !has_cell(uses, array, i128::from(last) + i128::from(offset))
}

// The place of the first use of an array, or how many there are.
fn place_of(uses: &[(BlockId, Range)], array: u8) -> usize
    ensures { result ≡ place_of uses.now array }
{
    match position(uses, array) {
        Some(place) => place,
        None => uses.len(),
    }
}

fn position(uses: &[(BlockId, Range)], array: u8) -> Option<usize>
    ensures { result ≡ position (λ u. u.1.array == array) uses.now }
{
    uses.iter().position(|u| u.1.array == array)
}
