//! Ranges of arrays, and those of a clause.

ghost use Rattle.std.specs.Prelude.{◌≡◌, ◌≤◌, ◌<◌, true, false, length, IfOk, OnOk, IfErr};
ghost use Rattle.acc_script.specs.declared.range.TheConstants.{MAX_RANGES};
ghost use Rattle.acc_token.specs.declared.read_fault.ReadError.TheVariants.{Memory};
ghost use Rattle.acc_script.specs.Clauses.{allows};
ghost use Rattle.acc_token.specs.Faults.{Gives, Reads, Shortens};
ghost use Rattle.acc_script.specs.Ranges.{bound_at, range_in, bounds_at, range_behind, range_of, range_at, item_behind, item_turn, items_at};
ghost use Rattle.acc_token.specs.Tokens.{spot, lexeme};
ghost use Rattle.acc_token.specs.Turns.{turn};
ghost use Rattle.acc_script.specs.inner.Kept.{AreAllowed};

use crate::arrays::Arrays;
use crate::declaration::array_of;
use crate::head::Head;
use acc_base::{Few, Range};
use acc_place::{Clause, DataItem};
use acc_token::{
    At, ReadError, ReadFault, ReadKind, Token, exactly, expect, fault, front, is, is_digit,
    number_of, sign_at, token_at,
};

/// The greatest number in a range, of a cell that a host writes, and of a device that it sets.
pub const MAX_INDEX: u32 = 4_294_967_295;

/// The most ranges of a directive in a text.
pub const MAX_RANGES: usize = 64;

// A bound of a range, if it is written.
#[inline(always)]
#[tactic(auto, unfolding(crate::specs::Ranges::bound_at))]
fn bound_at<'a>(at: At<'a>, in_directive: bool) -> Result<(Option<u32>, At<'a>), ReadFault>
    ensures found { Reads (λ x. (x.0, spot x.1)) result (bound_at in_directive (spot at.entry)) }
    ensures shorter { Shortens at.entry result }
{
    let t = token_at(at, in_directive)?;
    if is_digit(front(t.text)) {
        let n = number_of(t, u64::from(MAX_INDEX))?;
        Ok((Some(n as u32), t.after))
    } else {
        Ok((None, at))
    }
}

// A range, by its bounds as they are written.
fn range_in(array: u8, size: u32, lo: Option<u32>, len: Option<u32>) -> Range
    ensures { result ≡ range_in array size lo len }
{
    let lo = lo.unwrap_or(0);
    let len = len.unwrap_or(size.saturating_sub(lo));
    Range { array, lo, len }
}

// The bounds behind the [ of a range.
#[tactic(auto, unfolding(crate::specs::Ranges::bounds_at))]
fn bounds_at<'a>(
    array: u8,
    size: u32,
    at: At<'a>,
    in_directive: bool,
) -> Result<(Range, At<'a>), ReadFault>
    ensures found { Reads (λ x. (x.0, spot x.1)) result
        (bounds_at in_directive array size (spot at.entry)) }
    ensures shorter { Shortens at.entry result }
{
    let (lo, at) = bound_at(at, in_directive)?;
    let at = expect(at, in_directive, b":")?;
    let (len, at) = bound_at(at, in_directive)?;
    let at = expect(at, in_directive, b"]")?;
    Ok((range_in(array, size, lo, len), at))
}

// What may stand behind the name of a range's array.
#[tactic(auto, unfolding(crate::specs::Ranges::range_behind))]
fn range_behind<'a>(
    array: u8,
    size: u32,
    at: At<'a>,
    in_directive: bool,
) -> Result<(Range, At<'a>), ReadFault>
    ensures found { Reads (λ x. (x.0, spot x.1)) result
        (range_behind in_directive array size (spot at.entry)) }
    ensures shorter { Shortens at.entry result }
{
    let t = sign_at(at, in_directive)?;
    if is(t.text, b"[") {
        bounds_at(array, size, t.after, in_directive)
    } else {
        Ok((range_in(array, size, None, None), at))
    }
}

/// The range that begins with this token.
#[tactic(auto, unfolding(crate::specs::Ranges::range_of))]
pub(crate) fn range_of<'a>(
    arrays: &Arrays,
    t: Token<'a>,
    in_directive: bool,
) -> Result<(Range, At<'a>), ReadFault>
    ensures found { Reads (λ x. (x.0, spot x.1)) result
        (range_of in_directive arrays.now (lexeme t.entry)) }
    ensures shorter { Shortens t.entry.after result }
{
    let array = array_of(arrays, t)?;
    range_behind(array, arrays.size_of(array), t.after, in_directive)
}

/// A range.
#[tactic(auto, unfolding(crate::specs::Ranges::range_at))]
pub(crate) fn range_at<'a>(
    arrays: &Arrays,
    at: At<'a>,
    in_directive: bool,
) -> Result<(Range, At<'a>), ReadFault>
    ensures found { Reads (λ x. (x.0, spot x.1)) result
        (range_at in_directive arrays.now (spot at.entry)) }
    ensures shorter { Shortens at.entry result }
{
    let t = token_at(at, in_directive)?;
    range_of(arrays, t, in_directive)
}

// The rest of a range of a clause, and the comma or the ) behind it.
#[tactic(auto, using(crate::proofs::Kept::item_allowed), unfolding(crate::specs::Ranges::item_behind))]
fn item_behind<'a>(
    head: Head,
    clause: Clause,
    items: &mut Few<DataItem>,
    array: u8,
    size: u32,
    at: At<'a>,
) -> Result<(bool, At<'a>), ReadError>
    requires clause { allows head clause ≡ true }
    requires items { AreAllowed head items.old }
    ensures found { Gives (λ x. turn x.0 items.new (spot x.1)) result
        (item_behind clause items.old array size (spot at.entry)) }
    ensures allowed { OnOk result (AreAllowed head items.new) }
    ensures shorter { Shortens at.entry result }
{
    let (range, at) = range_behind(array, size, at, true)?;
    items.push(DataItem { clause, range })?;
    let t = sign_at(at, true)?;
    if is(t.text, b",") {
        Ok((true, t.after))
    } else {
        Ok((false, exactly(t, b")")?))
    }
}

// A range of a clause.
#[tactic(auto, unfolding(crate::specs::Ranges::item_turn))]
fn item_turn<'a>(
    arrays: &Arrays,
    head: Head,
    clause: Clause,
    items: &mut Few<DataItem>,
    at: At<'a>,
) -> Result<(bool, At<'a>), ReadError>
    requires clause { allows head clause ≡ true }
    requires items { AreAllowed head items.old }
    ensures found { Gives (λ x. turn x.0 items.new (spot x.1)) result
        (item_turn arrays.now clause items.old (spot at.entry)) }
    ensures room { IfErr result (λ error. error ≡ Memory → length items.old < MAX_RANGES) }
    ensures allowed { OnOk result (AreAllowed head items.new) }
    ensures shorter { IfOk result (λ x. length x.1.bytes.now < length at.entry.bytes.now) }
{
    let t = token_at(at, true)?;
    let array = array_of(arrays, t)?;
    if MAX_RANGES <= items.as_slice().len() {
        Err(fault(t.line, ReadKind::Limit).into())
    } else {
        item_behind(head, clause, items, array, arrays.size_of(array), t.after)
    }
}

/// The ranges of a clause that a directive may have, up to the ).
#[tactic(auto, using(acc_token::proofs::Turns::goes_on, acc_token::proofs::Turns::ends, acc_token::proofs::Turns::fails_too))]
pub(crate) fn items_at<'a>(
    arrays: &Arrays,
    head: Head,
    clause: Clause,
    items: &mut Few<DataItem>,
    at: At<'a>,
) -> Result<At<'a>, ReadError>
    requires clause { allows head clause ≡ true }
    requires items { AreAllowed head items.old }
    ensures found { Gives (λ a. turn false items.new (spot a)) result
        (items_at arrays.now clause items.old (spot at.entry)) }
    ensures allowed { OnOk result (AreAllowed head items.new) }
    ensures shorter { IfOk result (λ a. length a.bytes.now ≤ length at.entry.bytes.now) }
{
    let turns = at.bytes.len() + 1;
    let mut here = at;
    for _ in 0..turns {
        let (more, after) = item_turn(arrays, head, clause, items, here)?;
        here = after;
        if !more {
            return Ok(here);
        }
    }
    unreachable!()
}
