//! The pieces of a text: its tokens, and what stands between them.

ghost use Rattle.std.specs.Prelude.{◌≡◌, ◌<◌, ◌≤◌, ◌-◌, All, length, IfOk};
ghost use Rattle.std.specs.List.{prefix_len};
ghost use Rattle.acc_base.specs.Faults.{OnlyMemory};
ghost use Rattle.acc_token.specs.Tokens.{is_pair, is_word_byte};
ghost use Rattle.acc_check.specs.Places.{end_of, ends_of, opens_comment, piece_len};

use acc_base::Fault;
use acc_token::{front, is_digit, is_letter};
use std::alloc::Global;

fn is_word_byte(byte: u8) -> bool
    ensures { result ≡ is_word_byte byte }
{
    is_letter(byte) || is_digit(byte)
}

fn is_pair(first: u8, second: u8) -> bool
    ensures { result ≡ is_pair first second }
{
    match first {
        b'<' | b'>' | b'=' | b'!' => second == b'=',
        b'+' => second == b'+',
        _ => false,
    }
}

fn opens_comment(first: u8, second: u8) -> bool
    ensures { result ≡ opens_comment first second }
{
    first == b'/' && (second == b'/' || second == b'*')
}

// How many bytes at the front can stand in a word.
fn word_len(bytes: &[u8]) -> usize
    ensures len { result ≡ prefix_len is_word_byte bytes.now }
    ensures within { result ≤ length bytes.now }
{
    bytes.iter().take_while(|byte| is_word_byte(**byte)).count()
}

/// How many bytes the piece has that begins here.
#[tactic(auto, unfolding(crate::specs::Places::piece_len))]
pub(crate) fn piece_len(bytes: &[u8]) -> usize
    ensures len { result ≡ piece_len bytes.now }
    ensures within { result ≤ length bytes.now }
    ensures some { 0 < length bytes.now → 0 < result }
{
    match bytes {
        [] => 0,
        [first, rest @ ..] => {
            if is_word_byte(*first) {
                word_len(rest) + 1
            } else if is_pair(*first, front(rest)) || opens_comment(*first, front(rest)) {
                2
            } else {
                1
            }
        }
    }
}

/// Where each piece of a text ends.
///
/// # Errors
///
/// `Memory` where memory is refused.
#[tactic(auto, using(crate::proofs::Ends::one_more), unfolding(crate::specs::Places::ends_of))]
pub(crate) fn ends_of(alloc: Global, text: &[u8]) -> Result<Vec<usize>, Fault>
    ensures ends { IfOk result (λ ends. ends.items ≡ ends_of text.now) }
    ensures some { IfOk result (λ ends. 0 < length text.now → 0 < length ends.items) }
    ensures last { IfOk result (λ ends. 0 < length ends.items
        → end_of ends.items (length ends.items - 1) ≡ length text.now) }
    ensures within { IfOk result (λ ends. All (λ e. e ≤ length text.now) ends.items) }
    ensures fault { OnlyMemory result }
{
    let mut ends = Vec::new(alloc);
    let mut rest = text;
    for _ in 0..text.len() {
        if rest.is_empty() {
            break;
        }
        let (_, behind) = rest.split_at(piece_len(rest));
        rest = behind;
        ends.push(text.len() - rest.len())?;
    }
    Ok(ends)
}
