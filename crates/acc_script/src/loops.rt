//! Parallel loops.

ghost use Rattle.std.specs.Prelude.{◌≡◌, ◌+◌, ◌≤◌, ◌<◌, false, length, IfOk, OnOk, if◌then◌else◌, IfErr, None};
ghost use Rattle.acc_token.specs.declared.read_fault.ReadError.TheVariants.{Memory};
ghost use Rattle.acc_kernel.specs.Kernels.{loop};
ghost use Rattle.acc_kernel.specs.Faults.{loop_fault};
ghost use Rattle.acc_script.specs.Expressions.{names};
ghost use Rattle.acc_token.specs.Faults.{Gives, Reads, Shortens};
ghost use Rattle.acc_script.specs.Loops.{type_at, first_at, upper_bound_at, header_at, opening_of, assign_of, assign_turn, body_at, told_fault, accepted_loop, loop_at};
ghost use Rattle.acc_token.specs.Tokens.{spot, lexeme};
ghost use Rattle.acc_token.specs.Turns.{turn, all_turns};

use crate::arrays::Arrays;
use crate::declaration::{array_of, fresh_name, value_of};
use crate::expression::{expression_at, index_at};
use acc_kernel::{Assign, Kernel, KernelFault};
use acc_token::{At, ReadError, ReadFault, ReadKind, Token, exactly, expect, fault, is, token_at};
use std::alloc::Global;

/// What stands between the parentheses of a loop: its name, the first index, and the one behind the last.
#[derive(Clone, Copy)]
pub struct Header<'a> {
    index: &'a [u8],
    lo: i64,
    hi: i64,
}

// What is left behind the type of the index, if it is written.
#[tactic(auto, unfolding(crate::specs::Loops::type_at))]
fn type_at<'a>(at: At<'a>) -> Result<At<'a>, ReadFault>
    ensures found { Reads spot result (type_at (spot at.entry)) }
    ensures shorter { IfOk result (λ a. length a.bytes.now ≤ length at.entry.bytes.now) }
{
    let t = token_at(at, false)?;
    if is(t.text, b"int") || is(t.text, b"long") {
        Ok(t.after)
    } else {
        Ok(at)
    }
}

// The loop's name, and the first index.
#[tactic(auto, unfolding(crate::specs::Loops::first_at))]
fn first_at<'a>(arrays: &Arrays, at: At<'a>) -> Result<(&'a [u8], i64, At<'a>), ReadFault>
    ensures found { Reads (λ x. ((x.0.now, x.1), spot x.2)) result
        (first_at arrays.now (spot at.entry)) }
    ensures shorter { IfOk result (λ x. length x.2.bytes.now ≤ length at.entry.bytes.now) }
{
    let at = type_at(at)?;
    let t = token_at(at, false)?;
    let name = fresh_name(arrays, t)?;
    let at = expect(t.after, false, b"=")?;
    let (lo, at) = value_of(token_at(at, false)?)?;
    let at = expect(at, false, b";")?;
    Ok((name, lo, at))
}

// The index behind the last.
#[tactic(auto, unfolding(crate::specs::Loops::upper_bound_at))]
fn bound_at<'a>(at: At<'a>, index: &[u8]) -> Result<(i64, At<'a>), ReadFault>
    ensures found { Reads (λ x. (x.0, spot x.1)) result (upper_bound_at index.now (spot at.entry)) }
    ensures shorter { Shortens at.entry result }
{
    let at = index_at(at, index)?;
    let at = expect(at, false, b"<")?;
    let (hi, at) = value_of(token_at(at, false)?)?;
    let at = expect(at, false, b";")?;
    Ok((hi, at))
}

// What a loop begins with, behind its `for`.
#[tactic(auto, unfolding(crate::specs::Loops::header_at))]
fn header_at<'a>(arrays: &Arrays, at: At<'a>) -> Result<(Header<'a>, At<'a>), ReadFault>
    ensures found { Reads (λ x. (opening_of x.0, spot x.1)) result
        (header_at arrays.now (spot at.entry)) }
    ensures shorter { Shortens at.entry result }
{
    let at = expect(at, false, b"(")?;
    let (index, lo, at) = first_at(arrays, at)?;
    let (hi, at) = bound_at(at, index)?;
    let at = index_at(at, index)?;
    let at = expect(at, false, b"++")?;
    let at = expect(at, false, b")")?;
    Ok((Header { index, lo, hi }, at))
}

// An assignment, from the name of its array on.
#[tactic(auto, unfolding(crate::specs::Loops::assign_of))]
fn assign_of<'a>(
    alloc: Global,
    arrays: &Arrays,
    index: &[u8],
    t: Token<'a>,
) -> Result<(Assign, At<'a>), ReadError>
    ensures found { Gives (λ x. (x.0, spot x.1)) result
        (assign_of (names arrays.now index.now) (lexeme t.entry)) }
    ensures some { OnOk result (0 < length t.entry.text.now) }
    ensures shorter { Shortens t.entry.after result }
{
    let array = array_of(arrays, t)?;
    let at = expect(t.after, false, b"[")?;
    let at = index_at(at, index)?;
    let at = expect(at, false, b"]")?;
    let at = expect(at, false, b"=")?;
    let (value, at) = expression_at(alloc, arrays, index, at)?;
    let at = expect(at, false, b";")?;
    Ok((Assign { array, value }, at))
}

// An assignment, unless it is the } behind the last one.
#[tactic(auto, unfolding(crate::specs::Loops::assign_turn))]
fn assign_turn<'a>(
    alloc: Global,
    arrays: &Arrays,
    index: &[u8],
    assigns: &mut Vec<Assign>,
    at: At<'a>,
) -> Result<(bool, At<'a>), ReadError>
    ensures found { Gives (λ x. turn x.0 assigns.new.items (spot x.1)) result
        (assign_turn (names arrays.now index.now) assigns.old.items (spot at.entry)) }
    ensures shorter { IfOk result (λ x.
        (if x.0 then 1 else 0) + length x.1.bytes.now ≤ length at.entry.bytes.now) }
{
    let t = token_at(at, false)?;
    if is(t.text, b"}") && 0 < assigns.len() {
        Ok((false, t.after))
    } else {
        let (assign, after) = assign_of(alloc, arrays, index, t)?;
        assigns.push(assign)?;
        Ok((true, after))
    }
}

// The assignments up to the }.
#[tactic(auto, using(acc_token::proofs::Turns::goes_on, acc_token::proofs::Turns::ends, acc_token::proofs::Turns::fails_too))]
fn assigns_at<'a>(
    alloc: Global,
    arrays: &Arrays,
    index: &[u8],
    assigns: &mut Vec<Assign>,
    at: At<'a>,
) -> Result<At<'a>, ReadError>
    ensures found { Gives (λ a. turn false assigns.new.items (spot a)) result
        (all_turns (assign_turn (names arrays.now index.now)) assigns.old.items (spot at.entry)) }
    ensures shorter { IfOk result (λ a. length a.bytes.now ≤ length at.entry.bytes.now) }
{
    let turns = at.bytes.len() + 1;
    let mut here = at;
    for _ in 0..turns {
        let (more, after) = assign_turn(alloc, arrays, index, assigns, here)?;
        here = after;
        if !more {
            return Ok(here);
        }
    }
    unreachable!()
}

// What a loop does at each index.
#[tactic(auto, unfolding(crate::specs::Loops::body_at))]
fn body_at<'a>(
    alloc: Global,
    arrays: &Arrays,
    index: &[u8],
    at: At<'a>,
) -> Result<(Vec<Assign>, At<'a>), ReadError>
    ensures found { Gives (λ x. (x.0.items, spot x.1)) result
        (body_at (names arrays.now index.now) (spot at.entry)) }
    ensures shorter { Shortens at.entry result }
{
    let mut assigns = Vec::new(alloc);
    let t = token_at(at, false)?;
    if is(t.text, b"{") {
        let at = assigns_at(alloc, arrays, index, &mut assigns, t.after)?;
        Ok((assigns, at))
    } else {
        let (assign, at) = assign_of(alloc, arrays, index, t)?;
        assigns.push(assign)?;
        Ok((assigns, at))
    }
}

// How a loop's fault is told, whose `for` stands in this line.
fn told_fault(line: u32, refused: KernelFault) -> ReadError
    ensures { result ≡ told_fault line refused }
{
    match refused {
        KernelFault::ReadsAssigned | KernelFault::NoStatement => {
            ReadError::Fault(fault(line, ReadKind::Form))
        }
        KernelFault::TooDeep | KernelFault::TooFar | KernelFault::TooMany => {
            ReadError::Fault(fault(line, ReadKind::Limit))
        }
        KernelFault::Memory => ReadError::Memory,
    }
}

// The loop, whose `for` stands in this line.
#[tactic(auto, unfolding(crate::specs::Loops::accepted_loop))]
fn accepted_loop(
    alloc: Global,
    line: u32,
    header: Header,
    assigns: Vec<Assign>,
) -> Result<Kernel, ReadError>
    ensures found { Gives (λ k. k) result
        (accepted_loop line (loop header.entry.lo header.entry.hi assigns.items)) }
    ensures told { IfErr result (λ error. error ≡ Memory
        → loop_fault (loop header.entry.lo header.entry.hi assigns.items) ≡ None) }
{
    match Kernel::new(alloc, header.lo, header.hi, assigns) {
        Ok(kernel) => Ok(kernel),
        Err(refused) => Err(told_fault(line, refused)),
    }
}

/// A loop behind its directive, from `for` on.
///
/// # Errors
///
/// Where it reads an array that it assigns off the index, `Form`; where an expression is too deep, a bound or an offset
/// too far from zero, or where there are too many statements, `Limit`: in the line of the `for`. Else as its tokens say.
#[tactic(auto, unfolding(crate::specs::Loops::loop_at))]
pub(crate) fn loop_at<'a>(
    alloc: Global,
    arrays: &Arrays,
    at: At<'a>,
) -> Result<(Kernel, At<'a>), ReadError>
    ensures found { Gives (λ x. (x.0, spot x.1)) result (loop_at arrays.now (spot at.entry)) }
    ensures shorter { Shortens at.entry result }
{
    let t = token_at(at, false)?;
    let at = exactly(t, b"for")?;
    let (header, at) = header_at(arrays, at)?;
    let (assigns, at) = body_at(alloc, arrays, header.index, at)?;
    let kernel = accepted_loop(alloc, t.line, header, assigns)?;
    Ok((kernel, at))
}
