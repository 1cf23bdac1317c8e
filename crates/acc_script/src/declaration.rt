//! Declarations of arrays.

ghost use Rattle.std.specs.Prelude.{◌≡◌, ◌+◌, ◌≤◌, ◌<◌, length, IfOk, OnOk, false, if◌then◌else◌, bytes_eq, IfErr};
ghost use Rattle.acc_base.specs.declared.config.TheConstants.{MAX_ARRAYS};
ghost use Rattle.acc_token.specs.declared.read_fault.ReadError.TheVariants.{Memory};
ghost use Rattle.std.specs.List.{list_any};
ghost use Rattle.acc_script.specs.Arrays.{negative, value_of, begins_value, value_turn_behind, value_turn, size_at, initial_values_at, fresh_name, array_at, array_turn, array_of};
ghost use Rattle.acc_token.specs.Faults.{Gives, Reads, Shortens};
ghost use Rattle.acc_token.specs.Tokens.{spot, lexeme};
ghost use Rattle.acc_token.specs.Turns.{turn, all_turns};

use crate::arrays::Arrays;
use acc_base::{MAX_ARRAYS, MAX_CELLS};
use acc_token::{
    At, ReadError, ReadFault, ReadKind, Token, exactly, expect, fault, front, is, is_digit,
    name_of, number_at, number_of, sign_at, token_at, unwanted_token,
};
use std::alloc::Global;

/// The negative of a number of at most 2^63.
pub(crate) fn negative(n: u64) -> i64
    requires { n ≤ 9223372036854775808 }
    ensures { result ≡ negative n }
{
    if n == 0 { 0 } else { -1 - ((n - 1) as i64) }
}

/// A value with its sign.
#[inline(always)]
#[tactic(auto, unfolding(crate::specs::Arrays::value_of))]
pub(crate) fn value_of<'a>(t: Token<'a>) -> Result<(i64, At<'a>), ReadFault>
    ensures found { Reads (λ x. (x.0, spot x.1)) result (value_of (lexeme t.entry)) }
    ensures some { OnOk result (0 < length t.entry.text.now) }
    ensures shorter { Shortens t.entry.after result }
{
    if is(t.text, b"-") {
        let u = token_at(t.after, false)?;
        let n = number_of(u, 9_223_372_036_854_775_808)?;
        Ok((negative(n), u.after))
    } else {
        let n = number_of(t, 9_223_372_036_854_775_807)?;
        Ok((n as i64, t.after))
    }
}

pub(crate) fn begins_value(text: &[u8]) -> bool
    ensures { result ≡ begins_value text.now }
{
    is_digit(front(text)) || is(text, b"-")
}

// A value, and the comma or the } behind it.
#[tactic(auto, unfolding(crate::specs::Arrays::value_turn_behind))]
fn value_turn_behind<'a>(cells: &mut Vec<i64>, t: Token<'a>) -> Result<(bool, At<'a>), ReadError>
    ensures found { Gives (λ x. turn x.0 cells.new.items (spot x.1)) result
        (value_turn_behind cells.old.items (lexeme t.entry)) }
    ensures count { OnOk result (length cells.new.items ≡ length cells.old.items + 1) }
    ensures some { OnOk result (0 < length t.entry.text.now) }
    ensures shorter { Shortens t.entry.after result }
{
    let (value, at) = value_of(t)?;
    cells.push(value)?;
    let u = sign_at(at, false)?;
    if is(u.text, b",") {
        Ok((true, u.after))
    } else {
        Ok((false, exactly(u, b"}")?))
    }
}

// A value, unless it's the } behind a comma, or there is no cell left for it.
#[tactic(auto, unfolding(crate::specs::Arrays::value_turn))]
fn value_turn<'a>(
    size: usize,
    cells: &mut Vec<i64>,
    at: At<'a>,
) -> Result<(bool, At<'a>), ReadError>
    requires { length cells.old.items ≤ size }
    ensures found { Gives (λ x. turn x.0 cells.new.items (spot x.1)) result
        (value_turn size cells.old.items (spot at.entry)) }
    ensures room { IfErr result (λ error. error ≡ Memory → length cells.old.items < size) }
    ensures few { OnOk result (length cells.new.items ≤ size) }
    ensures shorter { IfOk result (λ x.
        (if x.0 then 1 else 0) + length x.1.bytes.now ≤ length at.entry.bytes.now) }
{
    let t = number_at(at, false)?;
    if is(t.text, b"}") && 0 < cells.len() {
        Ok((false, t.after))
    } else if !begins_value(t.text) {
        Err(unwanted_token(t).into())
    } else if size <= cells.len() {
        Err(fault(t.line, ReadKind::Limit).into())
    } else {
        value_turn_behind(cells, t)
    }
}

// The initial values up to the }.
#[tactic(auto, using(acc_token::proofs::Turns::goes_on, acc_token::proofs::Turns::ends, acc_token::proofs::Turns::fails_too))]
fn values_at<'a>(size: usize, cells: &mut Vec<i64>, at: At<'a>) -> Result<At<'a>, ReadError>
    requires { length cells.old.items ≤ size }
    ensures found { Gives (λ a. turn false cells.new.items (spot a)) result
        (all_turns (value_turn size) cells.old.items (spot at.entry)) }
    ensures few { OnOk result (length cells.new.items ≤ size) }
    ensures shorter { IfOk result (λ a. length a.bytes.now ≤ length at.entry.bytes.now) }
{
    let turns = at.bytes.len() + 1;
    let mut here = at;
    for _ in 0..turns {
        let (more, after) = value_turn(size, cells, here)?;
        here = after;
        if !more {
            return Ok(here);
        }
    }
    unreachable!()
}

// An array's size.
#[tactic(auto, unfolding(crate::specs::Arrays::size_at))]
fn size_at<'a>(at: At<'a>) -> Result<(usize, At<'a>), ReadFault>
    ensures found { Reads (λ x. (x.0, spot x.1)) result (size_at (spot at.entry)) }
    ensures within { IfOk result (λ x. (1 ≤ x.0) × (x.0 ≤ MAX_CELLS)) }
    ensures shorter { Shortens at.entry result }
{
    let t = number_at(at, false)?;
    let n = number_of(t, MAX_CELLS as u64)?;
    if n == 0 {
        Err(fault(t.line, ReadKind::Limit))
    } else {
        Ok((n as usize, t.after))
    }
}

// The initial values, those that are missing too, and the semicolon.
#[tactic(auto, unfolding(crate::specs::Arrays::initial_values_at))]
fn initial_values_at<'a>(
    alloc: Global,
    size: usize,
    at: At<'a>,
) -> Result<(Vec<i64>, At<'a>), ReadError>
    ensures found { Gives (λ x. (x.0.items, spot x.1)) result
        (initial_values_at size (spot at.entry)) }
    ensures size { IfOk result (λ x. length x.0.items ≡ size) }
    ensures shorter { Shortens at.entry result }
{
    let mut cells = Vec::new(alloc);
    let t = token_at(at, false)?;
    let after = if is(t.text, b"=") {
        let at = expect(t.after, false, b"{")?;
        let at = values_at(size, &mut cells, at)?;
        expect(at, false, b";")?
    } else {
        exactly(t, b";")?
    };
    cells.resize(size, 0)?;
    Ok((cells, after))
}

/// A name that isn't declared.
#[tactic(auto, unfolding(crate::specs::Arrays::fresh_name))]
pub(crate) fn fresh_name<'a>(arrays: &Arrays, t: Token<'a>) -> Result<&'a [u8], ReadFault>
    ensures found { Reads (λ name. (name.now, spot t.entry.after)) result
        (fresh_name arrays.now.names (lexeme t.entry)) }
    ensures fresh { IfOk result (λ name. list_any (bytes_eq name.now) arrays.now.names ≡ false) }
{
    let name = name_of(t)?;
    if arrays.has(name) {
        Err(fault(t.line, ReadKind::Name))
    } else {
        Ok(name)
    }
}

// An array's declaration behind `long`.
#[tactic(auto, unfolding(crate::specs::Arrays::array_at))]
fn array_at<'a>(alloc: Global, arrays: &mut Arrays<'a>, at: At<'a>) -> Result<At<'a>, ReadError>
    requires { length arrays.old.names < MAX_ARRAYS }
    ensures found { Gives (λ a. (arrays.new, spot a)) result (array_at arrays.old (spot at.entry)) }
    ensures shorter { IfOk result (λ a. length a.bytes.now ≤ length at.entry.bytes.now) }
{
    let t = token_at(at, false)?;
    let name = fresh_name(arrays, t)?;
    let at = expect(t.after, false, b"[")?;
    let (size, at) = size_at(at)?;
    let at = expect(at, false, b"]")?;
    let (cells, at) = initial_values_at(alloc, size, at)?;
    arrays.declare(name, cells)?;
    Ok(at)
}

// An array's declaration, if there is one more.
#[tactic(auto, unfolding(crate::specs::Arrays::array_turn))]
fn array_turn<'a>(
    alloc: Global,
    arrays: &mut Arrays<'a>,
    at: At<'a>,
) -> Result<(bool, At<'a>), ReadError>
    ensures found { Gives (λ x. turn x.0 arrays.new (spot x.1)) result
        (array_turn arrays.old (spot at.entry)) }
    ensures room { IfErr result (λ error. error ≡ Memory → length arrays.old.names < MAX_ARRAYS) }
    ensures shorter { IfOk result (λ x.
        (if x.0 then 1 else 0) + length x.1.bytes.now ≤ length at.entry.bytes.now) }
{
    let t = token_at(at, false)?;
    if !is(t.text, b"long") {
        Ok((false, at))
    } else if MAX_ARRAYS <= arrays.count() {
        Err(fault(t.line, ReadKind::Limit).into())
    } else {
        let after = array_at(alloc, arrays, t.after)?;
        Ok((true, after))
    }
}

/// The arrays that are declared here, one after another.
#[tactic(auto, using(acc_token::proofs::Turns::goes_on, acc_token::proofs::Turns::ends, acc_token::proofs::Turns::fails_too))]
pub(crate) fn arrays_at<'a>(
    alloc: Global,
    arrays: &mut Arrays<'a>,
    at: At<'a>,
) -> Result<At<'a>, ReadError>
    ensures found { Gives (λ a. turn false arrays.new (spot a)) result
        (all_turns array_turn arrays.old (spot at.entry)) }
{
    let turns = at.bytes.len() + 1;
    let mut here = at;
    for _ in 0..turns {
        let (more, after) = array_turn(alloc, arrays, here)?;
        here = after;
        if !more {
            return Ok(here);
        }
    }
    unreachable!()
}

/// The array that a name stands for.
#[inline(always)]
#[tactic(auto, unfolding(crate::specs::Arrays::array_of))]
pub(crate) fn array_of(arrays: &Arrays, t: Token) -> Result<u8, ReadFault>
    ensures found { Reads (λ index. (index, spot t.entry.after)) result
        (array_of arrays.now (lexeme t.entry)) }
    ensures within { IfOk result (λ index. index < length arrays.now.cells) }
    ensures some { OnOk result (0 < length t.entry.text.now) }
{
    let name = name_of(t)?;
    match arrays.find(name) {
        Some(index) => Ok(index),
        None => Err(fault(t.line, ReadKind::Name)),
    }
}
