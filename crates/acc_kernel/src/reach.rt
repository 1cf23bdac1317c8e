//! The cells that a loop reaches.

ghost use Rattle.std.specs.Prelude.{◌≡◌, ◌≤ℤ◌, pos, neg_ℤ, IfSome};
ghost use Rattle.acc_kernel.specs.Jobs.{range_of};
ghost use Rattle.acc_kernel.specs.Kernels.{widened_span};

use acc_base::Range;

/// The least and the greatest cell of an array that a loop reaches.
#[derive(Clone, Copy, Debug, PartialEq, Eq)]
pub struct Reach {
    pub first: i64,
    pub last: i64,
}

/// The least and the greatest offset, with one more.
pub(crate) fn widened_span(span: Option<Reach>, offset: i64) -> Option<Reach>
    ensures { result ≡ widened_span span offset }
{
    match span {
        None => Some(Reach {
            first: offset,
            last: offset,
        }),
        Some(r) => Some(Reach {
            first: r.first.min(offset),
            last: r.last.max(offset),
        }),
    }
}

/// The cells of an array from the first to the last of a reach, or none.
pub(crate) fn range_of(array: u8, reach: Option<Reach>) -> Range
    requires { IfSome reach (λ r.
        (neg_ℤ (pos 131072) ≤ℤ r.first) × (r.first ≤ℤ r.last) × (r.last ≤ℤ pos 131072)) }
    ensures { result ≡ range_of array reach }
{
    match reach {
        None => Range {
            array,
            lo: 0,
            len: 0,
        },
        Some(r) => Range {
            array,
            lo: r.first.unsigned_abs() as u32,
            len: (r.last + 1 - r.first) as u32,
        },
    }
}
