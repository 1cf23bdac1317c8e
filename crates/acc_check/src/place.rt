//! The first piece with which a text doesn't go on.

ghost use Rattle.std.specs.Prelude.{◌≡◌, ◌<◌, ◌≤◌, ◌-◌, All, false, true, length, take, IfOk, Some};
ghost use Rattle.acc_base.specs.Faults.{OnlyMemory};
ghost use Rattle.acc_check.specs.Languages.{may_go_on};
ghost use Rattle.acc_check.specs.Places.{ends_of, end_of, piece_start, IsPlace, IsStop, Stops};

use crate::language::{Language, goes_on};
use crate::piece::ends_of;
use acc_base::Fault;
use std::alloc::Global;

/// A piece of a text: a word, a number, a sign or another byte.
#[derive(Clone, Copy, Debug, PartialEq, Eq)]
pub struct Piece {
    /// Its number among the pieces of the text, from 0.
    pub number: usize,
    /// How many bytes of the text stand before it, and with it.
    pub start: usize,
    pub end: usize,
}

/// Where a text stops being the beginning of one of its language.
#[derive(Clone, Copy, Debug, PartialEq, Eq)]
pub enum Place {
    /// At its end: more has to stand behind it.
    AtEnd,
    /// The text goes on up to this piece, and not with it.
    AtPiece(Piece),
}

// The bytes of a text up to the end of this piece.
fn up_to<'a>(text: &'a [u8], ends: &[usize], piece: usize) -> &'a [u8]
    requires ends { ends.now ≡ ends_of text.now }
    requires piece { piece < length ends.now }
    ensures { result.now ≡ take (end_of ends.now piece) text.now }
{
    let (front, _) = text.split_at(ends[piece].min(text.len()));
    front
}

// The piece at which a text stops, which is looked for by halves.
#[tactic(auto, using(crate::proofs::Ends::nothing_goes_on))]
fn number_of_stop(
    alloc: Global,
    language: Language,
    text: &[u8],
    ends: &[usize],
) -> Result<usize, Fault>
    requires ends { ends.now ≡ ends_of text.now }
    requires some { 0 < length ends.now }
    requires last { end_of ends.now (length ends.now - 1) ≡ length text.now }
    requires stops { may_go_on language text.now ≡ false }
    ensures stop { IfOk result (λ i. Stops language text.now i) }
    ensures fault { OnlyMemory result }
{
    let mut low = 0usize;
    let mut high = ends.len() - 1;
    while low < high {
        let middle = low + (high - low) / 2;
        if goes_on(alloc, language, up_to(text, ends, middle))? {
            low = middle + 1;
        } else {
            high = middle;
        }
    }
    Ok(low)
}

// The piece at which a text stops, by its number.
fn stop_at(language: Language, text: &[u8], ends: &[usize], number: usize) -> Piece
    requires ends { ends.now ≡ ends_of text.now }
    requires within { All (λ e. e ≤ length text.now) ends.now }
    requires stop { Stops language text.now number }
    ensures { IsStop language text.now result }
{
    let _ = language;
    let _ = text;
    Piece {
        number,
        start: if number == 0 { 0 } else { ends[number - 1] },
        end: ends[number],
    }
}

/// Where a text stops: at its end where it goes on, or else at a piece.
///
/// # Errors
///
/// `Memory` where memory is refused.
#[tactic(auto, using(crate::proofs::Ends::stops_somewhere))]
pub fn place_of(alloc: Global, language: Language, text: &[u8]) -> Result<Place, Fault>
    ensures place { IfOk result (λ p. IsPlace language text.now p) }
    ensures fault { OnlyMemory result }
{
    if goes_on(alloc, language, text)? {
        return Ok(Place::AtEnd);
    }
    let ends = ends_of(alloc, text)?;
    let number = number_of_stop(alloc, language, text, ends.as_slice())?;
    Ok(Place::AtPiece(stop_at(language, text, ends.as_slice(), number)))
}
