//! The names that a text has, and which of them is near another.

ghost use Rattle.std.specs.Prelude.{◌≡◌};
ghost use Rattle.acc_base.specs.Faults.{OnlyMemory};
ghost use Rattle.acc_check.specs.Helps.{has_name, begins_with_letter};

use acc_base::Fault;
use acc_token::{MAX_NAME, is, is_letter};
use std::alloc::Global;
use strsim::generic_levenshtein;

// How many edits lead at most from a name to one that is near.
const NEAR: usize = 2;

/// Whether a token is a word: it begins with a letter.
pub(crate) fn is_word(token: &[u8]) -> bool
    ensures { result ≡ begins_with_letter token.now }
{
    match token {
        [] => false,
        [first, ..] => is_letter(*first),
    }
}

/// The names that tokens declare as arrays: those behind `long`, up to the first host.
///
/// # Errors
///
/// `Memory` where memory is refused.
pub(crate) fn array_names<'a>(alloc: Global, tokens: &[&'a [u8]]) -> Result<Vec<&'a [u8]>, Fault>
    ensures { OnlyMemory result }
{
    let mut names = Vec::new(alloc);
    let mut is_behind_long = false;
    for token in tokens {
        if is(token, b"host") {
            return Ok(names);
        }
        if is_behind_long && is_word(token) {
            names.push(*token)?;
        }
        is_behind_long = is(token, b"long");
    }
    Ok(names)
}

/// The name of the last loop that the tokens begin, or nothing.
pub(crate) fn loop_name<'a>(tokens: &[&'a [u8]]) -> &'a [u8] {
    let mut name: &'a [u8] = b"";
    let mut is_in_head = false;
    for token in tokens {
        if is(token, b"for") {
            is_in_head = true;
            name = b"";
        } else if is_in_head && is_word(token) && !is(token, b"int") && !is(token, b"long") {
            is_in_head = false;
            name = token;
        }
    }
    name
}

/// Whether the name is one of the names.
#[tactic(auto, using(std::proofs::lemmas::List::Folds::list_any_at))]
pub(crate) fn has_name(names: &[&[u8]], name: &[u8]) -> bool
    ensures { result ≡ has_name names.now name.now }
{
    for other in names {
        if is(other, name) {
            return true;
        }
    }
    false
}

/// The name to which the fewest edits lead: one or two, and fewer than the token has bytes. Nothing where none is so near.
///
/// # Errors
///
/// `Memory` where memory is refused.
pub(crate) fn nearest<'a>(
    alloc: Global,
    token: &[u8],
    names: &[&'a [u8]],
) -> Result<&'a [u8], Fault>
    ensures { OnlyMemory result }
{
    let mut found: &'a [u8] = b"";
    if !is_word(token) || token.len() > MAX_NAME {
        return Ok(found);
    }
    let mut least = token.len().min(NEAR + 1);
    for name in names {
        if is_word(name) && name.len() <= token.len().saturating_add(NEAR) {
            let edits = generic_levenshtein(alloc, token, *name)?;
            if edits < least {
                least = edits;
                found = name;
            }
        }
    }
    Ok(found)
}
