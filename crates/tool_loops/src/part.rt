//! Expressions as flat lists, in which each part stands behind those that it is made of.

use acc_base::Fault;
use acc_kernel::{Expr, Operator};
use std::alloc::Global;

/// A part of an expression, which stands behind the parts that it is made of.
#[derive(Clone, Copy, Debug)]
pub enum Part {
    Number(i64),
    Index,
    Read(u8, i64),
    Negate,
    Binary(Operator),
    Choose,
}

pub const PLUS: Part = Part::Binary(Operator::Plus);

pub const MINUS: Part = Part::Binary(Operator::Minus);

pub const TIMES: Part = Part::Binary(Operator::Times);

pub const LESS: Part = Part::Binary(Operator::Less);

pub const AT_MOST: Part = Part::Binary(Operator::AtMost);

pub const MORE: Part = Part::Binary(Operator::More);

pub const AT_LEAST: Part = Part::Binary(Operator::AtLeast);

pub const EQUAL: Part = Part::Binary(Operator::Equal);

pub const DIFFERS: Part = Part::Binary(Operator::Differs);

/// The expression of these parts, or the number 0 where there is none.
///
/// # Errors
///
/// `Memory` where memory is refused.
pub fn expr_of(alloc: Global, parts: &[Part]) -> Result<Expr, Fault> {
    let mut stack = Vec::new(alloc);
    for part in parts {
        add(alloc, *part, &mut stack)?;
    }
    match stack.pop() {
        Some(expr) => Ok(expr),
        None => Expr::number(alloc, 0),
    }
}

fn add(alloc: Global, part: Part, stack: &mut Vec<Expr>) -> Result<(), Fault> {
    let expr = match part {
        Part::Number(value) => Expr::number(alloc, value)?,
        Part::Index => Expr::index(alloc)?,
        Part::Read(array, offset) => Expr::read(alloc, array, offset)?,
        Part::Negate => return negate(stack),
        Part::Binary(operator) => return join(operator, stack),
        Part::Choose => return choose(stack),
    };
    stack.push(expr)?;
    Ok(())
}

fn negate(stack: &mut Vec<Expr>) -> Result<(), Fault> {
    match stack.last_mut() {
        Some(part) => part.negate(),
        None => Ok(()),
    }
}

fn join(operator: Operator, stack: &mut Vec<Expr>) -> Result<(), Fault> {
    let right = stack.pop();
    match (stack.last_mut(), right) {
        (Some(left), Some(right)) => left.binary(operator, &right),
        _ => Ok(()),
    }
}

fn choose(stack: &mut Vec<Expr>) -> Result<(), Fault> {
    let second = stack.pop();
    let first = stack.pop();
    match (stack.last_mut(), first, second) {
        (Some(test), Some(first), Some(second)) => test.choose(&first, &second),
        _ => Ok(()),
    }
}
