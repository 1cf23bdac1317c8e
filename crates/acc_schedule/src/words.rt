//! The lines of a text, and the words of a line.

ghost use Rattle.std.specs.Prelude.{◌≡◌, ◌<◌, ◌≤◌, not, [], ◌∷◌, length, IfSome, MatchOption};
ghost use Rattle.std.specs.List.{list_all, prefix_len};
ghost use Rattle.acc_schedule.specs.Schedules.{lines, is_space, words, with_first, is_skipped, is_line_byte, is_number, number_below};
ghost use Rattle.acc_token.specs.Tokens.{is_digit};

use acc_token::{line_len, value_of};

// The first line, and what is left behind its line feed, if it has one.
pub(crate) fn next_line(text: &[u8]) -> (&[u8], Option<&[u8]>)
    ensures lines { MatchOption result.1 (lines text.now ≡ result.0.now ∷ []) (λ others.
        lines text.now ≡ result.0.now ∷ lines others.now) }
    ensures shorter { IfSome result.1 (λ others. length others.now < length text.now) }
{
    let (line, behind) = text.split_at(line_len(text));
    match behind {
        [] => (line, None),
        [_, others @ ..] => (line, Some(others)),
    }
}

fn is_space(byte: u8) -> bool
    ensures { result ≡ is_space byte }
{
    byte == b' ' || byte == b'\t'
}

// Whether a byte can stand in a line.
fn is_plain(byte: u8) -> bool
    ensures { result ≡ is_line_byte byte }
{
    byte == b'\t' || 31 < byte && byte < 127
}

// Whether a line is empty or a comment.
pub(crate) fn is_skipped(line: &[u8]) -> bool
    ensures { result ≡ is_skipped line.now }
{
    match line {
        [] => true,
        [first, ..] => *first == b'#',
    }
}

// How many spaces a line begins with.
fn spaces_len(line: &[u8]) -> usize
    ensures value { result ≡ prefix_len is_space line.now }
    ensures within { result ≤ length line.now }
{
    line.iter().take_while(|byte| is_space(**byte)).count()
}

// How many bytes stand before the first space.
fn word_len(line: &[u8]) -> usize
    ensures value { result ≡ prefix_len (λ b. not (is_space b)) line.now }
    ensures within { result ≤ length line.now }
{
    line.iter().take_while(|byte| !is_space(**byte)).count()
}

// The first word of a line, and what is left behind it. Without a word both are empty.
pub(crate) fn next_word(line: &[u8]) -> (&[u8], &[u8])
    ensures { words line.now ≡ with_first result.0.now (words result.1.now) }
{
    let (_, begun) = line.split_at(spaces_len(line));
    begun.split_at(word_len(begun))
}

// Whether a word is decimal digits without a leading zero.
pub(crate) fn is_number(word: &[u8]) -> bool
    ensures { result ≡ is_number word.now }
{
    match word {
        [] => false,
        [first, others @ ..] => are_digits(word) && (*first != b'0' || others.is_empty()),
    }
}

fn are_digits(word: &[u8]) -> bool
    ensures { result ≡ list_all is_digit word.now }
{
    word.iter().all(|byte| 47 < *byte && *byte < 58)
}

pub(crate) fn are_plain(line: &[u8]) -> bool
    ensures { result ≡ list_all is_line_byte line.now }
{
    line.iter().all(|byte| is_plain(*byte))
}

// The number that a word says, where so many are there.
pub(crate) fn number_below(word: &[u8], count: u8) -> Option<u8>
    ensures { result ≡ number_below count word.now }
{
    match value_of(word, 255) {
        Some(number) if number < u64::from(count) => Some(number as u8),
        _ => None,
    }
}
