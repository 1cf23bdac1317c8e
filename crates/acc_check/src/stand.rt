//! What could stand behind the beginning of a text.

ghost use Rattle.std.specs.Prelude.{◌≡◌, ◌++◌, ◌∷◌, filter, map, take, IfOk};
ghost use Rattle.acc_base.specs.Faults.{OnlyMemory};
ghost use Rattle.acc_check.specs.Places.{could_stand, stands};

use crate::language::{Language, goes_on};
use acc_base::Fault;
use std::alloc::Global;

/// Whether the text goes on with this word, behind a blank.
pub(crate) fn stands(
    alloc: Global,
    language: Language,
    before: &[u8],
    word: &[u8],
) -> Result<bool, Fault>
    ensures answer { IfOk result (λ r. r ≡ stands language before.now word.now) }
    ensures fault { OnlyMemory result }
{
    let mut text = Vec::from_slice(alloc, before)?;
    text.push(b' ')?;
    text.extend_from_slice(word)?;
    goes_on(alloc, language, text.as_slice())
}

/// Those of the words with which a text goes on, where each stands behind it and a blank.
///
/// # Errors
///
/// `Memory` where memory is refused.
pub fn could_stand<'a>(
    alloc: Global,
    language: Language,
    before: &[u8],
    words: &[&'a [u8]],
) -> Result<Vec<&'a [u8]>, Fault>
    ensures words { IfOk result (λ found.
        map (λ w. w.now) found.items
        ≡ could_stand language before.now (map (λ w. w.now) words.now)) }
    ensures fault { OnlyMemory result }
{
    let mut found = Vec::new(alloc);
    for word in words {
        if stands(alloc, language, before, word)? {
            found.push(*word)?;
        }
    }
    Ok(found)
}
