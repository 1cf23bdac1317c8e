//! Single tokens: the expected one, a number, a name.

ghost use Rattle.std.specs.Prelude.{ℕ, Bool, true, ◌≡◌, ◌+◌, ◌==◌, ◌<◌, ◌≤◌, ◌&&◌, not, [], ◌∷◌, length, nat_lt, bytes_eq, IfOk, OnOk, if◌then◌else◌};
ghost use Rattle.acc_token.specs.Faults.{Reads};
ghost use Rattle.acc_token.specs.Tokens.{spot, lexeme, token_at, exactly, expect, is_word, value_behind, is_large, is_pair, is_sign, number_of, is_reserved, name_of};

use crate::at::At;
use crate::read_fault::{ReadFault, ReadKind};
use crate::token::{
    Token, fault, front, is, is_digit, is_letter, is_pair, is_sign, is_word_byte, past_space,
    token_at,
};

/// How many bytes a name can have.
pub const MAX_NAME: usize = 32;

/// The fault at a token that can't stand there: `End` where the text ends, `Limit` at a number above all that a
/// number can be, else `Form`.
#[cold]
#[inline(never)]
pub fn unwanted_token(t: Token) -> ReadFault
    ensures { result ≡ record {
      line = t.entry.line;
      kind = if length t.entry.text.now == 0
          then ReadKind.End
          else (if is_large t.entry.text.now then ReadKind.Limit else ReadKind.Form);
    } }
{
    if t.text.is_empty() {
        fault(t.line, ReadKind::End)
    } else if is_large(t.text) {
        fault(t.line, ReadKind::Limit)
    } else {
        fault(t.line, ReadKind::Form)
    }
}

/// What is left behind a token, which has to be this one.
///
/// # Errors
///
/// As `unwanted_token`, where it is another one.
#[inline(always)]
#[tactic(auto, unfolding(crate::specs::Tokens::exactly))]
pub fn exactly<'a>(t: Token<'a>, text: &[u8]) -> Result<At<'a>, ReadFault>
    ensures found { Reads spot result (exactly text.now (lexeme t.entry)) }
    ensures after { IfOk result (λ a. a ≡ t.entry.after) }
    ensures some { OnOk result (length t.entry.text.now ≡ length text.now) }
{
    if is(t.text, text) {
        Ok(t.after)
    } else {
        Err(unwanted_token(t))
    }
}

// Whether a text is the sign that the first of two bytes is.
#[inline(always)]
fn is_sign_here(text: &[u8], first: u8, next: u8) -> bool
    ensures { result ≡ (bytes_eq text.now (first ∷ []) && is_sign first
        && not (is_pair first next)) }
{
    is(text, &[first]) && is_sign(first) && !is_pair(first, next)
}

/// What is left behind the next token, which has to be this one.
///
/// # Errors
///
/// As `token_at` and `unwanted_token`.
#[inline(always)]
#[tactic(auto, unfolding(crate::specs::Tokens::expect))]
pub fn expect<'a>(at: At<'a>, in_directive: bool, text: &[u8]) -> Result<At<'a>, ReadFault>
    ensures found { Reads spot result (expect in_directive text.now (spot at.entry)) }
    ensures shorter { IfOk result (λ a.
        length a.bytes.now + length text.now ≤ length at.entry.bytes.now) }
{
    match past_space(at.bytes) {
        [first, bytes @ ..] if is_sign_here(text, *first, front(bytes)) => Ok(At {
            line: at.line,
            bytes,
        }),
        _ => expect_token(at, in_directive, text),
    }
}

// The same, by way of the token.
#[inline(never)]
#[tactic(auto, unfolding(crate::specs::Tokens::expect))]
fn expect_token<'a>(at: At<'a>, in_directive: bool, text: &[u8]) -> Result<At<'a>, ReadFault>
    ensures found { Reads spot result (expect in_directive text.now (spot at.entry)) }
    ensures shorter { IfOk result (λ a.
        length a.bytes.now + length text.now ≤ length at.entry.bytes.now) }
{
    exactly(token_at(at, in_directive)?, text)
}

/// What is left behind the next token, which has to be this word. Condition: the bytes are a word's.
///
/// # Errors
///
/// As `token_at` and `unwanted_token`.
#[inline(always)]
pub fn expect_word<'a>(at: At<'a>, in_directive: bool, word: &[u8]) -> Result<At<'a>, ReadFault>
    requires word { is_word word.now ≡ true }
    ensures found { Reads spot result (expect in_directive word.now (spot at.entry)) }
    ensures shorter { IfOk result (λ a.
        length a.bytes.now + length word.now ≤ length at.entry.bytes.now) }
{
    match past_space(at.bytes).strip_prefix(word) {
        Some(bytes) if !is_word_byte(front(bytes)) => Ok(At {
            line: at.line,
            bytes,
        }),
        _ => expect_token(at, in_directive, word),
    }
}

/// The value of decimal digits, unless it passes the limit.
#[tactic(auto, using(crate::proofs::ValueBehind::value_grows, crate::proofs::ValueBehind::value_steps, std::proofs::lemmas::Bool::Decides::nat_tests))]
pub fn value_of(digits: &[u8], limit: u64) -> Option<u64>
    ensures { result ≡ (if nat_lt limit (value_behind 0 digits.now) then None
        else Some (value_behind 0 digits.now)) }
{
    let mut value: u64 = 0;
    for digit in digits {
        let ten = value.checked_mul(10)?;
        value = ten.checked_add(u64::from(digit.saturating_sub(b'0')))?;
        if value > limit {
            return None;
        }
    }
    Some(value)
}

// Whether this is a number above all that a number can be.
fn is_large(text: &[u8]) -> bool
    ensures { result ≡ is_large text.now }
{
    is_digit(front(text)) && value_of(text, 9_223_372_036_854_775_807).is_none()
}

/// The value of a number.
///
/// # Errors
///
/// `Limit` where it passes the limit, else as `unwanted_token`.
#[inline(always)]
#[tactic(auto, unfolding(crate::specs::Tokens::number_of))]
pub fn number_of(t: Token, limit: u64) -> Result<u64, ReadFault>
    ensures found { Reads (λ n. (n, spot t.entry.after)) result (number_of limit (lexeme t.entry)) }
    ensures within { IfOk result (λ n. n ≤ limit) }
    ensures some { OnOk result (0 < length t.entry.text.now) }
{
    if !is_digit(front(t.text)) {
        Err(unwanted_token(t))
    } else {
        match value_of(t.text, limit) {
            None => Err(fault(t.line, ReadKind::Limit)),
            Some(value) => Ok(value),
        }
    }
}

// Words that no array can be called.
fn is_reserved(word: &[u8]) -> bool
    ensures { result ≡ is_reserved word.now }
{
    match front(word) {
        b'l' => is(word, b"long"),
        b'i' => is(word, b"int"),
        b'h' => is(word, b"host"),
        b'f' => is(word, b"for"),
        b'p' => is(word, b"print"),
        b'a' => word.starts_with(b"acc_"),
        _ => false,
    }
}

/// A name that an array can have.
///
/// # Errors
///
/// `Name` where it has more than `MAX_NAME` bytes, else as `unwanted_token`.
#[inline(always)]
#[tactic(auto, unfolding(crate::specs::Tokens::name_of))]
pub fn name_of<'a>(t: Token<'a>) -> Result<&'a [u8], ReadFault>
    ensures found { Reads (λ name. (name.now, spot t.entry.after)) result
        (name_of (lexeme t.entry)) }
    ensures name { IfOk result (λ name. name ≡ t.entry.text) }
    ensures some { OnOk result (0 < length t.entry.text.now) }
    ensures size { IfOk result (λ name. (0 < length name.now) × (length name.now ≤ MAX_NAME)) }
{
    if !is_letter(front(t.text)) || is_reserved(t.text) {
        Err(unwanted_token(t))
    } else if MAX_NAME < t.text.len() {
        Err(fault(t.line, ReadKind::Name))
    } else {
        Ok(t.text)
    }
}
