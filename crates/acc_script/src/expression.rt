//! The expressions of a loop.

ghost use Rattle.std.specs.Prelude.{◌≡◌, ◌+◌, ◌≤◌, ◌<◌, false, length, IfOk, IfSome, if◌then◌else◌};
ghost use Rattle.acc_script.specs.Expressions.{names, names_in, below, deeper_in, one_deeper, index_at, number_at, offset_at, read_behind, leaf_of, group_of, negated_of, unary_at, operator_of, part_at, chain_turn, chain_at, choice_of, expr_at, expression_at};
ghost use Rattle.acc_token.specs.Faults.{Gives, Reads, Shortens};
ghost use Rattle.acc_token.specs.Tokens.{spot, lexeme};
ghost use Rattle.acc_token.specs.Turns.{turn, all_turns};

use crate::arrays::Arrays;
use crate::declaration::array_of;
use acc_kernel::{Expr, Operator};
use acc_token::{
    At, ReadError, ReadFault, ReadKind, Token, exactly, expect, fault, front, is, is_digit,
    name_of, number_of, token_at,
};
use std::alloc::Global;

/// How deep parentheses, unary signs and `?:` can stand together.
pub const MAX_NESTING: u32 = 64;

// The greatest number in an expression.
const LARGEST: u64 = 9_223_372_036_854_775_807;

/// The binary operators, by what they bind: the first ones the most.
#[derive(Clone, Copy)]
pub enum Level {
    Product,
    Sum,
    Comparison,
    Equality,
}

/// What a name in an expression can stand for, an array or the loop's index, and how many parentheses, unary signs
/// and `?:` can still be opened.
#[derive(Clone, Copy)]
pub struct Scope<'s, 't> {
    arrays: &'s Arrays<'t>,
    index: &'s [u8],
    deep: u32,
}

// What stands one deeper, behind this token.
fn one_deeper<'s, 't>(scope: Scope<'s, 't>, t: Token) -> Result<Scope<'s, 't>, ReadFault>
    ensures found { Reads deeper_in result (one_deeper (below scope.entry) (lexeme t.entry)) }
    ensures less { IfOk result (λ s. s.deep < scope.entry.deep) }
{
    if scope.deep == 0 {
        Err(fault(t.line, ReadKind::Limit))
    } else {
        let deep = scope.deep - 1;
        Ok(Scope { deep, ..scope })
    }
}

/// What is left behind the loop's name.
///
/// # Errors
///
/// `Form` where another name stands there, else as `name_of`.
#[tactic(auto, unfolding(crate::specs::Expressions::index_at))]
pub(crate) fn index_at<'a>(at: At<'a>, index: &[u8]) -> Result<At<'a>, ReadFault>
    ensures found { Reads spot result (index_at index.now (spot at.entry)) }
    ensures shorter { IfOk result (λ a. length a.bytes.now ≤ length at.entry.bytes.now) }
{
    let t = token_at(at, false)?;
    let _ = name_of(t)?;
    exactly(t, index)
}

#[tactic(auto, unfolding(crate::specs::Expressions::number_at))]
fn number_at<'a>(at: At<'a>) -> Result<(u64, At<'a>), ReadFault>
    ensures found { Reads (λ x. (x.0, spot x.1)) result (number_at (spot at.entry)) }
    ensures within { IfOk result (λ x. x.0 ≤ 9223372036854775807) }
    ensures shorter { Shortens at.entry result }
{
    let t = token_at(at, false)?;
    let n = number_of(t, LARGEST)?;
    Ok((n, t.after))
}

// How far from the index a cell is.
#[tactic(auto, unfolding(crate::specs::Expressions::offset_at))]
fn offset_at<'a>(at: At<'a>) -> Result<(i64, At<'a>), ReadFault>
    ensures found { Reads (λ x. (x.0, spot x.1)) result (offset_at (spot at.entry)) }
    ensures shorter { Shortens at.entry result }
{
    let t = token_at(at, false)?;
    if is(t.text, b"+") {
        let (n, at) = number_at(t.after)?;
        Ok((n as i64, at))
    } else if is(t.text, b"-") {
        let (n, at) = number_at(t.after)?;
        Ok((-(n as i64), at))
    } else {
        Ok((0, at))
    }
}

// What stands behind the name of an array, which stands in this line: a cell of it.
#[tactic(auto, unfolding(crate::specs::Expressions::read_behind))]
fn read_behind<'a>(
    alloc: Global,
    scope: Scope,
    line: u32,
    array: u8,
    at: At<'a>,
) -> Result<(Expr, At<'a>), ReadError>
    ensures found { Gives (λ x. (x.0, spot x.1)) result
        (read_behind (names_in scope.entry) line array (spot at.entry)) }
    ensures shorter { Shortens at.entry result }
{
    let t = token_at(at, false)?;
    if is(t.text, b"[") {
        let at = index_at(t.after, scope.index)?;
        let (offset, at) = offset_at(at)?;
        let at = expect(at, false, b"]")?;
        Ok((Expr::read(alloc, array, offset)?, at))
    } else if t.text.is_empty() {
        Err(fault(t.line, ReadKind::End).into())
    } else {
        Err(fault(line, ReadKind::Name).into())
    }
}

// A number, the loop's name, or a cell of an array.
#[tactic(auto, unfolding(crate::specs::Expressions::leaf_of))]
fn leaf_of<'a>(alloc: Global, scope: Scope, t: Token<'a>) -> Result<(Expr, At<'a>), ReadError>
    ensures found { Gives (λ x. (x.0, spot x.1)) result
        (leaf_of (names_in scope.entry) (lexeme t.entry)) }
    ensures shorter { Shortens t.entry.after result }
{
    if is_digit(front(t.text)) {
        let n = number_of(t, LARGEST)?;
        return Ok((Expr::number(alloc, n as i64)?, t.after));
    }
    let name = name_of(t)?;
    if is(name, scope.index) {
        Ok((Expr::index(alloc)?, t.after))
    } else {
        let array = array_of(scope.arrays, t)?;
        read_behind(alloc, scope, t.line, array, t.after)
    }
}

// An expression in parentheses, from the ( on.
#[cycle(expression)]
#[tactic(auto, unfolding(crate::specs::Expressions::group_of))]
fn group_of<'a>(alloc: Global, scope: Scope, t: Token<'a>) -> Result<(Expr, At<'a>), ReadError>
    ensures found { Gives (λ x. (x.0, spot x.1)) result
        (group_of (below scope.entry) (lexeme t.entry)) }
    ensures shorter { Shortens t.entry.after result }
{
    let inner = one_deeper(scope, t)?;
    let (part, at) = expr_at(alloc, inner, t.after)?;
    let at = expect(at, false, b")")?;
    Ok((part, at))
}

// The negative of an operand, from the - on.
#[cycle(expression)]
#[tactic(auto, unfolding(crate::specs::Expressions::negated_of))]
fn negated_of<'a>(alloc: Global, scope: Scope, t: Token<'a>) -> Result<(Expr, At<'a>), ReadError>
    ensures found { Gives (λ x. (x.0, spot x.1)) result
        (negated_of (below scope.entry) (lexeme t.entry)) }
    ensures shorter { Shortens t.entry.after result }
{
    let inner = one_deeper(scope, t)?;
    let (mut part, at) = unary_at(alloc, inner, t.after)?;
    part.negate()?;
    Ok((part, at))
}

// An operand.
#[cycle(expression)]
#[tactic(auto, unfolding(crate::specs::Expressions::unary_at, crate::specs::Expressions::primary_of))]
fn unary_at<'a>(alloc: Global, scope: Scope, at: At<'a>) -> Result<(Expr, At<'a>), ReadError>
    ensures found { Gives (λ x. (x.0, spot x.1)) result
        (unary_at (names_in scope.entry) (below scope.entry) (spot at.entry)) }
    ensures shorter { Shortens at.entry result }
{
    let t = token_at(at, false)?;
    if is(t.text, b"-") {
        negated_of(alloc, scope, t)
    } else if is(t.text, b"(") {
        group_of(alloc, scope, t)
    } else {
        leaf_of(alloc, scope, t)
    }
}

// The operator that a token is, if it is one of this level.
fn operator_of(level: Level, text: &[u8]) -> Option<Operator>
    ensures operator { result ≡ operator_of level text.now }
    ensures some { IfSome result (λ _. 0 < length text.now) }
{
    match level {
        Level::Product => {
            if is(text, b"*") {
                Some(Operator::Times)
            } else {
                None
            }
        }
        Level::Sum => {
            if is(text, b"+") {
                Some(Operator::Plus)
            } else if is(text, b"-") {
                Some(Operator::Minus)
            } else {
                None
            }
        }
        Level::Comparison => {
            if is(text, b"<") {
                Some(Operator::Less)
            } else if is(text, b"<=") {
                Some(Operator::AtMost)
            } else if is(text, b">") {
                Some(Operator::More)
            } else if is(text, b">=") {
                Some(Operator::AtLeast)
            } else {
                None
            }
        }
        Level::Equality => {
            if is(text, b"==") {
                Some(Operator::Equal)
            } else if is(text, b"!=") {
                Some(Operator::Differs)
            } else {
                None
            }
        }
    }
}

// What the operators of a level stand between.
#[cycle(expression)]
fn part_at<'a>(
    alloc: Global,
    scope: Scope,
    level: Level,
    at: At<'a>,
) -> Result<(Expr, At<'a>), ReadError>
    ensures found { Gives (λ x. (x.0, spot x.1)) result
        (part_at level (unary_at (names_in scope.entry) (below scope.entry)) (spot at.entry)) }
    ensures shorter { Shortens at.entry result }
{
    match level {
        Level::Product => unary_at(alloc, scope, at),
        Level::Sum => chain_at(alloc, scope, Level::Product, at),
        Level::Comparison => chain_at(alloc, scope, Level::Sum, at),
        Level::Equality => chain_at(alloc, scope, Level::Comparison, at),
    }
}

// An operator of the level and the part behind it, if there is one more.
#[cycle(expression)]
#[tactic(auto, unfolding(crate::specs::Expressions::chain_turn))]
fn chain_turn<'a>(
    alloc: Global,
    scope: Scope,
    level: Level,
    left: &mut Expr,
    at: At<'a>,
) -> Result<(bool, At<'a>), ReadError>
    ensures found { Gives (λ x. turn x.0 left.new (spot x.1)) result
        (chain_turn level
        (part_at level (unary_at (names_in scope.entry) (below scope.entry))) left.old
        (spot at.entry)) }
    ensures shorter { IfOk result (λ x.
        (if x.0 then 1 else 0) + length x.1.bytes.now ≤ length at.entry.bytes.now) }
{
    let t = token_at(at, false)?;
    match operator_of(level, t.text) {
        None => Ok((false, at)),
        Some(operator) => {
            let (right, after) = part_at(alloc, scope, level, t.after)?;
            left.binary(operator, &right)?;
            Ok((true, after))
        }
    }
}

// The operators of the level and the parts behind them.
#[cycle(expression)]
#[tactic(auto, using(acc_token::proofs::Turns::goes_on, acc_token::proofs::Turns::ends, acc_token::proofs::Turns::fails_too))]
fn parts_at<'a>(
    alloc: Global,
    scope: Scope,
    level: Level,
    left: &mut Expr,
    at: At<'a>,
) -> Result<At<'a>, ReadError>
    ensures found { Gives (λ a. turn false left.new (spot a)) result
        (all_turns (chain_turn level (part_at level
        (unary_at (names_in scope.entry) (below scope.entry)))) left.old (spot at.entry)) }
    ensures shorter { IfOk result (λ a. length a.bytes.now ≤ length at.entry.bytes.now) }
{
    let turns = at.bytes.len() + 1;
    let mut here = at;
    for _ in 0..turns {
        let (more, after) = chain_turn(alloc, scope, level, left, here)?;
        here = after;
        if !more {
            return Ok(here);
        }
    }
    unreachable!()
}

// Parts, and the operators of the level between them.
#[cycle(expression)]
#[tactic(auto, unfolding(crate::specs::Expressions::chain_at))]
fn chain_at<'a>(
    alloc: Global,
    scope: Scope,
    level: Level,
    at: At<'a>,
) -> Result<(Expr, At<'a>), ReadError>
    ensures found { Gives (λ x. (x.0, spot x.1)) result
        (chain_at level (part_at level (unary_at (names_in scope.entry) (below scope.entry)))
        (spot at.entry)) }
    ensures shorter { Shortens at.entry result }
{
    let (mut left, at) = part_at(alloc, scope, level, at)?;
    let at = parts_at(alloc, scope, level, &mut left, at)?;
    Ok((left, at))
}

// The second and the third part of a choice, from the ? on.
#[cycle(expression)]
#[tactic(auto, unfolding(crate::specs::Expressions::choice_of))]
fn choice_of<'a>(
    alloc: Global,
    scope: Scope,
    mut test: Expr,
    t: Token<'a>,
) -> Result<(Expr, At<'a>), ReadError>
    ensures found { Gives (λ x. (x.0, spot x.1)) result
        (choice_of (below scope.entry) test (lexeme t.entry)) }
    ensures shorter { Shortens t.entry.after result }
{
    let inner = one_deeper(scope, t)?;
    let (first, at) = expr_at(alloc, inner, t.after)?;
    let at = expect(at, false, b":")?;
    let (second, at) = expr_at(alloc, inner, at)?;
    test.choose(&first, &second)?;
    Ok((test, at))
}

#[cycle(expression)]
#[tactic(auto, unfolding(crate::specs::Expressions::expr_at))]
fn expr_at<'a>(alloc: Global, scope: Scope, at: At<'a>) -> Result<(Expr, At<'a>), ReadError>
    ensures found { Gives (λ x. (x.0, spot x.1)) result
        (expr_at (names_in scope.entry) (below scope.entry) (spot at.entry)) }
    ensures shorter { Shortens at.entry result }
{
    let (test, after) = chain_at(alloc, scope, Level::Equality, at)?;
    let t = token_at(after, false)?;
    if is(t.text, b"?") {
        choice_of(alloc, scope, test, t)
    } else {
        Ok((test, after))
    }
}

/// An expression of the loop that has this name for its index.
#[tactic(auto, unfolding(crate::specs::Expressions::expression_at))]
pub(crate) fn expression_at<'a>(
    alloc: Global,
    arrays: &Arrays,
    index: &[u8],
    at: At<'a>,
) -> Result<(Expr, At<'a>), ReadError>
    ensures found { Gives (λ x. (x.0, spot x.1)) result
        (expression_at (names arrays.now index.now) (spot at.entry)) }
    ensures shorter { Shortens at.entry result }
{
    let scope = Scope {
        arrays,
        index,
        deep: MAX_NESTING,
    };
    expr_at(alloc, scope, at)
}
