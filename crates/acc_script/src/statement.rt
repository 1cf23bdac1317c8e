//! The statements of a host.

ghost use Rattle.std.specs.Prelude.{◌≡◌, ◌+◌, ◌≤◌, ◌<◌, ◌^◌, false, length, IfOk, OnOk, if◌then◌else◌};
ghost use Rattle.acc_token.specs.Faults.{Gives, Reads, Shortens};
ghost use Rattle.acc_script.specs.Directives as directives;
ghost use Rattle.acc_script.specs.Statements.{signed_number_at, cell_at, write_at, simple_of, act_of, body, depth_behind, with_statement, end_of_construct, statement_turn};
ghost use Rattle.acc_token.specs.Tokens.{spot, lexeme};
ghost use Rattle.acc_token.specs.Turns.{turn, all_turns};

use crate::arrays::Arrays;
use crate::declaration::{array_of, value_of};
use crate::directive::{directive_at, placed};
use crate::range::MAX_INDEX;
use crate::routine::{call_of, is_routine, print_at};
use acc_base::Few;
use acc_host::{Act, Statement};
use acc_place::{Kind, Target, Waits, Written};
use acc_token::{At, ReadError, ReadFault, Token, expect, is, number_at, number_of, token_at};
use std::alloc::Global;

#[tactic(auto, unfolding(crate::specs::Statements::signed_number_at))]
fn value_at<'a>(at: At<'a>) -> Result<(i64, At<'a>), ReadFault>
    ensures found { Reads (λ x. (x.0, spot x.1)) result (signed_number_at (spot at.entry)) }
    ensures shorter { Shortens at.entry result }
{
    let t = number_at(at, false)?;
    value_of(t)
}

#[tactic(auto, unfolding(crate::specs::Statements::cell_at))]
fn cell_at<'a>(at: At<'a>) -> Result<(u32, At<'a>), ReadFault>
    ensures found { Reads (λ x. (x.0, spot x.1)) result (cell_at (spot at.entry)) }
    ensures shorter { Shortens at.entry result }
{
    let t = number_at(at, false)?;
    let n = number_of(t, u64::from(MAX_INDEX))?;
    Ok((n as u32, t.after))
}

// A write to an array behind its name.
#[tactic(auto, unfolding(crate::specs::Statements::write_at))]
fn write_at<'a>(array: u8, at: At<'a>) -> Result<(Act, At<'a>), ReadFault>
    ensures found { Reads (λ x. (x.0, spot x.1)) result (write_at array (spot at.entry)) }
    ensures shorter { Shortens at.entry result }
{
    let at = expect(at, false, b"[")?;
    let (cell, at) = cell_at(at)?;
    let at = expect(at, false, b"]")?;
    let at = expect(at, false, b"=")?;
    let (value, at) = value_at(at)?;
    Ok((Act::Write { array, cell, value }, at))
}

// What ends with a semicolon, without it.
#[tactic(auto, unfolding(crate::specs::Statements::simple_of))]
fn simple_of<'a>(alloc: Global, arrays: &Arrays, t: Token<'a>) -> Result<(Act, At<'a>), ReadError>
    ensures found { Gives (λ x. (x.0, spot x.1)) result (simple_of arrays.now (lexeme t.entry)) }
    ensures some { OnOk result (0 < length t.entry.text.now) }
    ensures shorter { Shortens t.entry.after result }
{
    if is(t.text, b"print") {
        print_at(alloc, arrays, t.after)
    } else if is_routine(t.text) {
        call_of(alloc, arrays, t)
    } else {
        let array = array_of(arrays, t)?;
        Ok(write_at(array, t.after)?)
    }
}

// The statement that begins with this token, inside so many data constructs.
#[tactic(auto, unfolding(crate::specs::Statements::act_of))]
fn act_of<'a>(
    alloc: Global,
    arrays: &Arrays,
    depth: u32,
    t: Token<'a>,
) -> Result<(Act, At<'a>), ReadError>
    ensures found { Gives (λ x. (x.0, spot x.1)) result (act_of arrays.now depth (lexeme t.entry)) }
    ensures some { OnOk result (0 < length t.entry.text.now) }
    ensures shorter { Shortens t.entry.after result }
{
    if is(t.text, b"#") {
        directive_at(alloc, arrays, depth, t.after)
    } else {
        let (act, at) = simple_of(alloc, arrays, t)?;
        let at = expect(at, false, b";")?;
        Ok((act, at))
    }
}

// The end of a data construct.
fn end_of_construct(alloc: Global) -> Result<Act, ReadError>
    ensures { Gives (λ act. act) result (Ok end_of_construct) }
{
    let written = Written {
        kind: Kind::EndData,
        items: Few::new(alloc),
        target: Target::Plain,
        waits: Waits::Nothing,
    };
    placed(alloc, written)
}

// How many data constructs are open behind a statement.
fn depth_behind(depth: u32, act: &Act) -> u32
    requires { depth + 1 < 2 ^ 32 }
    ensures { result ≡ depth_behind depth act.now }
{
    match act {
        Act::Place { directive } => match directive.kind() {
            Kind::Data => depth + 1,
            Kind::EndData => depth.saturating_sub(1),
            _ => depth,
        },
        _ => depth,
    }
}

// Puts a statement behind the others.
fn put(
    statements: &mut Vec<Statement>,
    depth: &mut u32,
    line: u32,
    act: Act,
) -> Result<(), ReadError>
    requires { depth.old + 1 < 2 ^ 32 }
    ensures { Gives (λ _. body statements.new.items depth.new) result
        (Ok (with_statement (body statements.old.items depth.old) line act)) }
{
    *depth = depth_behind(*depth, &act);
    statements.push(Statement { line, act })?;
    Ok(())
}

// A statement, unless the host's part ends here.
#[tactic(auto, unfolding(crate::specs::Statements::statement_turn))]
fn statement_turn<'a>(
    alloc: Global,
    arrays: &Arrays,
    statements: &mut Vec<Statement>,
    depth: &mut u32,
    at: At<'a>,
) -> Result<(bool, At<'a>), ReadError>
    requires { depth.old + length at.bytes.now < 2 ^ 32 }
    ensures found { Gives (λ x. turn x.0 (body statements.new.items depth.new) (spot x.1)) result
        (statement_turn arrays.now (body statements.old.items depth.old) (spot at.entry)) }
    ensures shorter { IfOk result (λ x.
        (if x.0 then 1 else 0) + length x.1.bytes.now ≤ length at.entry.bytes.now) }
    ensures depth { OnOk result (depth.new ≤ depth.old + 1) }
    ensures closed { IfOk result (λ x. x.0 ≡ false → depth.new ≡ 0) }
{
    let t = token_at(at, false)?;
    if is(t.text, b"}") {
        if *depth == 0 {
            return Ok((false, t.after));
        }
        let end = end_of_construct(alloc)?;
        put(statements, depth, t.line, end)?;
        Ok((true, t.after))
    } else {
        let (act, at) = act_of(alloc, arrays, *depth, t)?;
        put(statements, depth, t.line, act)?;
        Ok((true, at))
    }
}

/// The statements of a host up to the }.
#[tactic(auto, using(acc_token::proofs::Turns::goes_on, acc_token::proofs::Turns::ends, acc_token::proofs::Turns::fails_too))]
pub(crate) fn statements_at<'a>(
    alloc: Global,
    arrays: &Arrays,
    statements: &mut Vec<Statement>,
    at: At<'a>,
) -> Result<At<'a>, ReadError>
    ensures found { Gives (λ a. turn false (body statements.new.items 0) (spot a)) result
        (all_turns (statement_turn arrays.now) (body statements.old.items 0) (spot at.entry)) }
    ensures shorter { IfOk result (λ a. length a.bytes.now ≤ length at.entry.bytes.now) }
{
    let turns = at.bytes.len() + 1;
    let mut depth = 0;
    let mut here = at;
    for _ in 0..turns {
        let (more, after) = statement_turn(alloc, arrays, statements, &mut depth, here)?;
        here = after;
        if !more {
            return Ok(here);
        }
    }
    unreachable!()
}
