//! The tokens around a place.

ghost use Rattle.std.specs.Prelude.{◌≡◌};
ghost use Rattle.acc_base.specs.Faults.{OnlyMemory};

use crate::piece::piece_len;
use acc_base::Fault;
use acc_token::{At, is, token_at};
use std::alloc::Global;

// The tokens from here on, line feeds among them, as far as they can be read.
fn tokens_at<'a>(alloc: Global, at: At<'a>) -> Result<Vec<&'a [u8]>, Fault>
    ensures { OnlyMemory result }
{
    let mut tokens = Vec::new(alloc);
    let turns = at.bytes.len();
    let mut here = at;
    for _ in 0..turns {
        let Ok(token) = token_at(here, true) else {
            return Ok(tokens);
        };
        if token.text.is_empty() {
            return Ok(tokens);
        }
        tokens.push(token.text)?;
        here = token.after;
    }
    Ok(tokens)
}

/// The tokens of a text, line feeds among them, as far as they can be read.
///
/// # Errors
///
/// `Memory` where memory is refused.
pub(crate) fn tokens_of<'a>(alloc: Global, text: &'a [u8]) -> Result<Vec<&'a [u8]>, Fault>
    ensures { OnlyMemory result }
{
    if text.len() >= u32::MAX as usize {
        return Ok(Vec::new(alloc));
    }
    tokens_at(
        alloc,
        At {
            line: 1,
            bytes: text,
        },
    )
}

/// The first piece of a text that is no blank.
pub(crate) fn first_piece(text: &[u8]) -> &[u8] {
    let blanks = text
        .iter()
        .take_while(|byte| **byte == b' ' || **byte == b'\t')
        .count();
    let (_, rest) = text.split_at(blanks);
    let (piece, _) = rest.split_at(piece_len(rest));
    piece
}

/// The last of the tokens that is no line feed, or nothing.
pub(crate) fn last_token<'a>(tokens: &[&'a [u8]]) -> &'a [u8] {
    let mut last: &'a [u8] = b"";
    for token in tokens {
        if !is(token, b"\n") {
            last = token;
        }
    }
    last
}

/// The word that the last line of the tokens begins with, or nothing; of a directive the word behind `acc`, where it has
/// one.
pub(crate) fn head_token<'a>(tokens: &[&'a [u8]]) -> &'a [u8] {
    let mut head: &'a [u8] = b"";
    let mut count = 0usize;
    for token in tokens {
        if is(token, b"\n") {
            count = 0;
            head = b"";
        } else {
            if count == 0 || count == 3 && is(head, b"#") {
                head = token;
            }
            count = count.saturating_add(1);
        }
    }
    head
}
