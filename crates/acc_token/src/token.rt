//! The lexer, which gives the next token on demand.

ghost use Rattle.std.specs.Prelude.{ℕ, Bool, ◌≡◌, ◌+◌, ◌==◌, ◌<◌, ◌≤◌, ◌&&◌, ◌^◌, not, length, take, drop, bytes_eq, Ok, IfOk, if◌then◌else◌};
ghost use Rattle.std.specs.List.{prefix_len};
ghost use Rattle.acc_token.specs.Faults.{fails, Reads};
ghost use Rattle.acc_token.specs.Tokens.{spot, lexeme, front, is_digit, is_letter, is_word_byte, is_blank, is_pair, is_sign, line_after, step_of, gap_ends, gap_at, number_len, token_len, token_at};
ghost use Rattle.acc_token.specs.inner.Spans.{is_single, no_token, spanned};

use crate::at::At;
use crate::read_fault::{ReadFault, ReadKind};

/// A token is the bytes that it is spelled with; the end of the text is the token of no bytes, and in a directive
/// a line feed is one. It has the line that it stands in, and what is left behind it.
// The line comes first, as in a fault: so they share a place in a `Result`, and the bytes have one of their own.
#[derive(Clone, Copy)]
pub struct Token<'a> {
    pub line: u32,
    pub text: &'a [u8],
    pub after: At<'a>,
}

/// What stands open between two tokens: nothing, a `/`, a comment to the end of its line, a comment in
/// `/* */`, or such a comment and a `*`.
#[derive(Clone, Copy, PartialEq, Eq)]
pub enum Gap {
    Plain,
    Slash,
    Line,
    Block,
    Star,
}

/// What a byte between two tokens does: it is skipped, a token or the text's end begins there, or nothing
/// can begin there.
#[derive(Clone, Copy, PartialEq, Eq)]
pub enum Step {
    Skip(Gap),
    Stop,
    Fail,
}

/// The fault of this kind in this line.
#[inline(always)]
pub fn fault(line: u32, kind: ReadKind) -> ReadFault
    ensures { result ≡ record { line = line; kind = kind } }
{
    ReadFault { line, kind }
}

/// Whether two texts have the same bytes.
#[inline(always)]
pub fn is(text: &[u8], other: &[u8]) -> bool
    ensures { result ≡ bytes_eq text.now other.now }
{
    text == other
}

/// The first byte, or 0.
#[inline(always)]
pub fn front(bytes: &[u8]) -> u8
    ensures { result ≡ front bytes.now }
{
    match bytes {
        [] => 0,
        [first, ..] => *first,
    }
}

/// Whether a byte is a decimal digit.
#[inline(always)]
pub fn is_digit(byte: u8) -> bool
    ensures { result ≡ is_digit byte }
{
    byte.is_ascii_digit()
}

/// Whether a byte is a letter or `_`, at which a word begins.
#[inline(always)]
pub fn is_letter(byte: u8) -> bool
    ensures { result ≡ is_letter byte }
{
    byte.is_ascii_alphabetic() || byte == b'_'
}

/// Whether a byte can stand in a word.
#[inline(always)]
pub fn is_word_byte(byte: u8) -> bool
    ensures { result ≡ is_word_byte byte }
{
    // most are small letters
    byte.is_ascii_lowercase() || is_letter(byte) || is_digit(byte)
}

// space, tab and carriage return
#[inline(always)]
fn is_blank(byte: u8) -> bool
    ensures { result ≡ is_blank byte }
{
    byte == b' ' || byte == b'\t' || byte == b'\r'
}

/// Whether two bytes are one sign: <= >= == != ++
#[inline(always)]
pub fn is_pair(first: u8, second: u8) -> bool
    ensures { result ≡ is_pair first second }
{
    match first {
        b'<' | b'>' | b'=' | b'!' => second == b'=',
        b'+' => second == b'+',
        _ => false,
    }
}

/// Whether a byte is a sign.
#[inline(always)]
pub fn is_sign(byte: u8) -> bool
    ensures { result ≡ is_sign byte }
{
    matches!(
        byte,
        b'#' | b'{'
            | b'}'
            | b'('
            | b')'
            | b'['
            | b']'
            | b','
            | b';'
            | b':'
            | b'='
            | b'+'
            | b'-'
            | b'*'
            | b'<'
            | b'>'
            | b'?'
    )
}

// Whether a byte is a line feed that counts for nothing.
#[inline(always)]
fn is_skipped(byte: u8, in_directive: bool) -> bool
    ensures { result ≡ (byte == 10 && not in_directive) }
{
    byte == b'\n' && !in_directive
}

// Whether a byte is a bracket or a comma, which begin no longer sign.
#[inline(always)]
fn is_single(byte: u8) -> bool
    ensures { result ≡ is_single byte }
{
    matches!(byte, b'(' | b')' | b'[' | b']' | b',')
}

#[inline(always)]
fn line_after(line: u32, byte: u8) -> u32
    requires { byte ≡ 10 → line + 1 < 2 ^ 32 }
    ensures { result ≡ line_after line byte }
{
    if byte == b'\n' { line + 1 } else { line }
}

// What a byte between two tokens does.
#[inline(always)]
fn step_of(gap: Gap, in_directive: bool, byte: u8) -> Step
    ensures { result ≡ step_of gap in_directive byte }
{
    match gap {
        Gap::Plain => {
            if byte == b'\n' && !in_directive || is_blank(byte) {
                Step::Skip(Gap::Plain)
            } else if byte == b'/' {
                Step::Skip(Gap::Slash)
            } else {
                Step::Stop
            }
        }
        Gap::Slash => match byte {
            b'/' => Step::Skip(Gap::Line),
            b'*' => Step::Skip(Gap::Block),
            _ => Step::Fail,
        },
        Gap::Line => {
            if byte != b'\n' {
                Step::Skip(Gap::Line)
            } else if in_directive {
                Step::Stop
            } else {
                Step::Skip(Gap::Plain)
            }
        }
        Gap::Block => match byte {
            b'*' => Step::Skip(Gap::Star),
            _ => Step::Skip(Gap::Block),
        },
        Gap::Star => match byte {
            b'/' => Step::Skip(Gap::Plain),
            b'*' => Step::Skip(Gap::Star),
            _ => Step::Skip(Gap::Block),
        },
    }
}

// The text ends in a gap.
fn ends_in<'a>(gap: Gap, line: u32) -> Result<At<'a>, ReadFault>
    ensures end { Reads spot result (gap_ends gap line) }
    ensures empty { IfOk result (λ a. length a.bytes.now ≡ 0) }
{
    match gap {
        Gap::Plain | Gap::Line => Ok(At { line, bytes: b"" }),
        Gap::Slash => Err(fault(line, ReadKind::Text)),
        Gap::Block | Gap::Star => Err(fault(line, ReadKind::End)),
    }
}

// Where the next token begins, past comments.
#[tactic(auto, using(crate::proofs::GapAt::gap_skips, crate::proofs::GapAt::gap_stops, crate::proofs::GapAt::gap_fails), unfolding(crate::specs::Tokens::gap_at))]
#[inline(never)]
fn past_comments<'a>(at: At<'a>, in_directive: bool) -> Result<At<'a>, ReadFault>
    ensures gap { Reads spot result
        (gap_at Gap.Plain in_directive at.entry.line at.entry.bytes.now) }
    ensures shorter { IfOk result (λ a. length a.bytes.now ≤ length at.entry.bytes.now) }
{
    let mut gap = Gap::Plain;
    let mut line = at.line;
    for (i, byte) in at.bytes.iter().enumerate() {
        match step_of(gap, in_directive, *byte) {
            Step::Skip(next) => {
                gap = next;
                line = line_after(line, *byte);
            }
            Step::Stop => {
                let (_, bytes) = at.bytes.split_at(i);
                return Ok(At { line, bytes });
            }
            Step::Fail => return Err(fault(line, ReadKind::Text)),
        }
    }
    ends_in(gap, line)
}

// How many blanks stand at the front.
#[inline(always)]
fn blanks_len(bytes: &[u8]) -> usize
    ensures len { result ≡ prefix_len is_blank bytes.now }
    ensures within { result ≤ length bytes.now }
{
    bytes.iter().take_while(|byte| is_blank(**byte)).count()
}

// How many digits stand at the front.
#[inline(always)]
fn digits_len(bytes: &[u8]) -> usize
    ensures len { result ≡ prefix_len is_digit bytes.now }
    ensures within { result ≤ length bytes.now }
{
    bytes.iter().take_while(|byte| is_digit(**byte)).count()
}

// How many bytes at the front can stand in a word.
#[inline(always)]
fn word_len(bytes: &[u8]) -> usize
    ensures len { result ≡ prefix_len is_word_byte bytes.now }
    ensures within { result ≤ length bytes.now }
{
    bytes.iter().take_while(|byte| is_word_byte(**byte)).count()
}

// How many bytes a number has that begins with this digit, or 0 where its form is wrong.
#[inline(always)]
#[tactic(auto, unfolding(crate::specs::Tokens::number_len))]
fn number_len(first: u8, rest: &[u8]) -> usize
    ensures len { (line : ℕ) → number_len line first rest.now
        ≡ (if result == 0 then fails line ReadKind.Form else Ok result) }
    ensures within { result ≤ length rest.now + 1 }
{
    let more = digits_len(rest);
    let (_, behind) = rest.split_at(more);
    if first == b'0' && 0 < more || is_letter(front(behind)) {
        0
    } else {
        more + 1
    }
}

// How many bytes the number has that stands here, or 0 where none does, or its form is wrong.
#[inline(always)]
fn number_here(bytes: &[u8]) -> usize
    ensures token { (in_directive : Bool) (line : ℕ) → 0 < result
        → token_at in_directive (record { line = line; bytes = bytes.now })
        ≡ Ok
        (record { text = take result bytes.now; line = line; after = record { line = line; bytes = drop result bytes.now } }) }
    ensures within { result ≤ length bytes.now }
{
    match bytes {
        [first, rest @ ..] if is_digit(*first) => number_len(*first, rest),
        _ => 0,
    }
}

// How many bytes the token has that begins here, or 0 where none does.
#[inline(always)]
#[tactic(auto, unfolding(crate::specs::Tokens::token_len))]
fn plain_len(bytes: &[u8]) -> usize
    ensures len { (line : ℕ) → token_len line bytes.now ≡ (if result == 0
        then no_token line bytes.now else Ok result) }
    ensures within { result ≤ length bytes.now }
{
    match bytes {
        [] => 0,
        [first, rest @ ..] => {
            if is_letter(*first) {
                word_len(rest) + 1
            } else if is_digit(*first) {
                number_len(*first, rest)
            } else if is_pair(*first, front(rest)) {
                2
            } else if is_sign(*first) || *first == b'\n' {
                1
            } else {
                0
            }
        }
    }
}

// How many bytes the token has that begins here.
fn token_len(line: u32, bytes: &[u8]) -> Result<usize, ReadFault>
    ensures len { result ≡ token_len line bytes.now }
    ensures within { IfOk result (λ n. n ≤ length bytes.now) }
    ensures some { IfOk result (λ n. 0 < length bytes.now → 0 < n) }
{
    match plain_len(bytes) {
        0 if bytes.is_empty() => Ok(0),
        0 if is_digit(front(bytes)) => Err(fault(line, ReadKind::Form)),
        0 => Err(fault(line, ReadKind::Text)),
        count => Ok(count),
    }
}

// What is left behind a line feed that counts for nothing.
#[inline(always)]
#[tactic(auto, unfolding(crate::specs::Tokens::token_at, crate::specs::Tokens::gap_at))]
fn past_line_feed<'a>(at: At<'a>, in_directive: bool) -> At<'a>
    ensures token { token_at in_directive (spot result) ≡ token_at in_directive (spot at.entry) }
    ensures shorter { length result.bytes.now ≤ length at.entry.bytes.now }
{
    match at.bytes {
        [b'\n', bytes @ ..] if !in_directive => At {
            line: at.line + 1,
            bytes,
        },
        _ => at,
    }
}

// How many blanks stand at the front, and how many bytes the token has behind them; none where it has to be
// looked at more closely what stands there.
#[inline(never)]
#[tactic(auto, using(crate::proofs::Span::span_token))]
fn span_at(bytes: &[u8], in_directive: bool) -> (usize, usize)
    ensures token { (line : ℕ) → 0 < result.1
        → token_at in_directive (record { line = line; bytes = bytes.now })
        ≡ Ok (spanned in_directive line result.0 result.1 bytes.now) }
    ensures within { result.0 + result.1 ≤ length bytes.now }
{
    let gap = blanks_len(bytes);
    let (_, from) = bytes.split_at(gap);
    if is_skipped(front(from), in_directive) {
        (gap, 0)
    } else {
        (gap, plain_len(from))
    }
}

// The next token, which may stand behind comments.
#[inline(never)]
#[tactic(auto, unfolding(crate::specs::Tokens::token_at))]
fn token_behind<'a>(at: At<'a>, in_directive: bool) -> Result<Token<'a>, ReadFault>
    ensures token { Reads lexeme result (token_at in_directive (spot at.entry)) }
    ensures shorter { IfOk result (λ t.
        length t.text.now + length t.after.bytes.now ≤ length at.entry.bytes.now) }
{
    let from = past_comments(at, in_directive)?;
    let count = token_len(from.line, from.bytes)?;
    let (text, bytes) = from.bytes.split_at(count);
    let line = line_after(from.line, front(from.bytes));
    let after = At { line, bytes };
    Ok(Token {
        line: from.line,
        text,
        after,
    })
}

/// The next token, in a directive or outside one.
///
/// # Errors
///
/// `Text` at a byte where nothing can begin, `End` in a comment that isn't closed, `Form` at a number with a
/// leading zero or with a letter behind it.
// Inlined, as is what looks at a single token: to hand a token on through memory costs more than to find it.
#[inline(always)]
pub fn token_at<'a>(at: At<'a>, in_directive: bool) -> Result<Token<'a>, ReadFault>
    ensures token { Reads lexeme result (token_at in_directive (spot at.entry)) }
    ensures shorter { IfOk result (λ t.
        length t.text.now + length t.after.bytes.now ≤ length at.entry.bytes.now) }
{
    let here = past_line_feed(at, in_directive);
    let (gap, count) = span_at(here.bytes, in_directive);
    if count == 0 {
        return token_behind(here, in_directive);
    }
    let (_, from) = here.bytes.split_at(gap);
    let (text, bytes) = from.split_at(count);
    let line = if in_directive {
        line_after(here.line, front(from))
    } else {
        here.line
    };
    let after = At { line, bytes };
    Ok(Token {
        line: here.line,
        text,
        after,
    })
}

/// The next token, where a bracket, a comma or the end of the directive's line is likely to stand at once.
///
/// # Errors
///
/// As `token_at`.
#[inline(always)]
#[tactic(auto, using(crate::proofs::TokenSpelling::single_token, crate::proofs::TokenSpelling::line_feed_token))]
pub fn sign_at<'a>(at: At<'a>, in_directive: bool) -> Result<Token<'a>, ReadFault>
    ensures token { Reads lexeme result (token_at in_directive (spot at.entry)) }
    ensures shorter { IfOk result (λ t.
        length t.text.now + length t.after.bytes.now ≤ length at.entry.bytes.now) }
{
    let line = at.line;
    match at.bytes {
        [first, ..] if is_single(*first) => {
            let (text, bytes) = at.bytes.split_at(1);
            let after = At { line, bytes };
            Ok(Token { line, text, after })
        }
        [first, ..] if *first == b'\n' && in_directive => {
            let (text, bytes) = at.bytes.split_at(1);
            let after = At {
                line: line + 1,
                bytes,
            };
            Ok(Token { line, text, after })
        }
        _ => token_at(at, in_directive),
    }
}

/// What is left behind a space, if one stands here: most of what is expected stands at once or behind one.
#[inline(always)]
#[tactic(auto, unfolding(crate::specs::Tokens::token_at, crate::specs::Tokens::gap_at))]
pub fn past_space(bytes: &[u8]) -> &[u8]
    ensures token { (in_directive : Bool) (line : ℕ)
        → token_at in_directive (record { line = line; bytes = result.now })
        ≡ token_at in_directive (record { line = line; bytes = bytes.now }) }
    ensures shorter { length result.now ≤ length bytes.now }
{
    match bytes {
        [b' ', rest @ ..] => rest,
        _ => bytes,
    }
}

/// The next token, where a number is likely to stand at once or behind a space.
///
/// # Errors
///
/// As `token_at`.
#[inline(always)]
pub fn number_at<'a>(at: At<'a>, in_directive: bool) -> Result<Token<'a>, ReadFault>
    ensures token { Reads lexeme result (token_at in_directive (spot at.entry)) }
    ensures shorter { IfOk result (λ t.
        length t.text.now + length t.after.bytes.now ≤ length at.entry.bytes.now) }
{
    let from = past_space(at.bytes);
    let count = number_here(from);
    if count == 0 {
        return token_at(at, in_directive);
    }
    let line = at.line;
    let (text, bytes) = from.split_at(count);
    let after = At { line, bytes };
    Ok(Token { line, text, after })
}
