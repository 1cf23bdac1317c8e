//! Directives.

ghost use Rattle.std.specs.Prelude.{◌≡◌, true, IfOk, IfErr};
ghost use Rattle.acc_place.specs.Clauses.{is_well_formed};
ghost use Rattle.acc_place.specs.Directives.{written_first};
ghost use Rattle.acc_host.specs.declared.program.Act.TheVariants.{Place};
ghost use Rattle.acc_token.specs.declared.read_fault.ReadError.TheVariants.{Memory};
ghost use Rattle.acc_script.specs.Clauses.{is_complete};
ghost use Rattle.acc_script.specs.Directives.{head_of, opening_at, placed_with, act_behind, directive_at};
ghost use Rattle.acc_token.specs.Faults.{Gives, Reads, Shortens};
ghost use Rattle.acc_token.specs.Tokens.{spot, lexeme};
ghost use Rattle.acc_script.specs.inner.Kept.{IsKept};

use crate::arrays::Arrays;
use crate::clause::{Clauses, clauses_at};
use crate::head::Head;
use crate::loops::loop_at;
use crate::queue::waits_at;
use acc_base::Shared;
use acc_host::Act;
use acc_place::{Directive, Kind, Waits, Written};
use acc_token::{
    At, ReadError, ReadFault, ReadKind, Token, expect, expect_word, fault, is, token_at,
    unwanted_token,
};
use std::alloc::Global;

/// The most data constructs inside one another in a text.
pub const MAX_CONSTRUCTS: u32 = 64;

/// The act of a directive that is written so. Condition: by `Written::is_well_formed`.
///
/// # Errors
///
/// `Memory` where memory is refused.
pub(crate) fn placed(alloc: Global, written: Written) -> Result<Act, ReadError>
    requires form { is_well_formed written ≡ true }
    ensures act { IfOk result (λ act. act ≡ Place (written_first written)) }
    ensures fault { IfErr result (λ error. error ≡ Memory) }
{
    let directive = Directive::new(alloc, written)?;
    Ok(Act::Place { directive })
}

// What a directive begins with, inside so many data constructs.
#[tactic(auto, unfolding(crate::specs::Directives::head_of))]
fn head_of<'a>(depth: u32, t: Token<'a>) -> Result<(Head, At<'a>), ReadFault>
    ensures found { Reads (λ x. (x.0, spot x.1)) result (head_of depth (lexeme t.entry)) }
    ensures shorter { Shortens t.entry.after result }
{
    if is(t.text, b"enter") {
        Ok((Head::EnterData, expect_word(t.after, true, b"data")?))
    } else if is(t.text, b"exit") {
        Ok((Head::ExitData, expect_word(t.after, true, b"data")?))
    } else if is(t.text, b"update") {
        Ok((Head::Update, t.after))
    } else if is(t.text, b"wait") {
        Ok((Head::Wait, t.after))
    } else if is(t.text, b"data") {
        if MAX_CONSTRUCTS <= depth {
            Err(fault(t.line, ReadKind::Limit))
        } else {
            Ok((Head::Data, t.after))
        }
    } else if is(t.text, b"parallel") {
        Ok((Head::Loop, expect_word(t.after, true, b"loop")?))
    } else {
        Err(unwanted_token(t))
    }
}

// What stands before the clauses.
fn opening_at<'a>(alloc: Global, head: Head, at: At<'a>) -> Result<(Clauses, At<'a>), ReadError>
    ensures found { Gives (λ x. (x.0, spot x.1)) result (opening_at head (spot at.entry)) }
    ensures kept { IfOk result (λ x. IsKept head x.0) }
    ensures shorter { Shortens at.entry result }
{
    match head {
        Head::Wait => {
            let (waits, at) = waits_at(alloc, at)?;
            Ok((Clauses::new(alloc, waits), at))
        }
        Head::EnterData | Head::ExitData | Head::Update | Head::Data | Head::Loop => {
            Ok((Clauses::new(alloc, Waits::Nothing), at))
        }
    }
}

// A directive with these clauses, which ends here.
fn placed_with<'a>(
    alloc: Global,
    kind: Kind,
    clauses: Clauses,
    at: At<'a>,
) -> Result<(Act, At<'a>), ReadError>
    requires form { is_well_formed
        (record { kind = kind; items = clauses.items; target = clauses.target; waits = clauses.waits })
        ≡ true }
    ensures act { IfOk result (λ x. x.0 ≡ placed_with kind clauses) }
    ensures end { IfOk result (λ x. spot x.1 ≡ spot at.entry) }
    ensures fault { IfErr result (λ error. error ≡ Memory) }
{
    let Clauses {
        mut items,
        target,
        waits,
        flagged: _,
    } = clauses;
    items.shrink_to_fit();
    let written = Written {
        kind,
        items,
        target,
        waits,
    };
    Ok((placed(alloc, written)?, at))
}

// What the directive is, behind its line.
#[tactic(auto, unfolding(crate::specs::Directives::act_behind))]
fn act_behind<'a>(
    alloc: Global,
    arrays: &Arrays,
    head: Head,
    clauses: Clauses,
    at: At<'a>,
) -> Result<(Act, At<'a>), ReadError>
    requires kept { IsKept head clauses }
    requires complete { is_complete head clauses ≡ true }
    ensures found { Gives (λ x. (x.0, spot x.1)) result
        (act_behind arrays.now head clauses (spot at.entry)) }
    ensures shorter { Shortens at.entry result }
{
    match head {
        Head::EnterData => placed_with(alloc, Kind::EnterData, clauses, at),
        Head::ExitData => {
            let finalize = clauses.flagged;
            placed_with(alloc, Kind::ExitData { finalize }, clauses, at)
        }
        Head::Update => {
            let if_present = clauses.flagged;
            placed_with(alloc, Kind::Update { if_present }, clauses, at)
        }
        Head::Wait => placed_with(alloc, Kind::Wait, clauses, at),
        Head::Data => {
            let at = expect(at, false, b"{")?;
            placed_with(alloc, Kind::Data, clauses, at)
        }
        Head::Loop => {
            let (kernel, at) = loop_at(alloc, arrays, at)?;
            let kernel = Shared::new(alloc, kernel)?;
            placed_with(alloc, Kind::Loop { kernel }, clauses, at)
        }
    }
}

/// A directive behind its #, inside so many data constructs.
#[tactic(auto, unfolding(crate::specs::Directives::directive_at))]
pub(crate) fn directive_at<'a>(
    alloc: Global,
    arrays: &Arrays,
    depth: u32,
    at: At<'a>,
) -> Result<(Act, At<'a>), ReadError>
    ensures found { Gives (λ x. (x.0, spot x.1)) result
        (directive_at arrays.now depth (spot at.entry)) }
    ensures shorter { Shortens at.entry result }
{
    let at = expect_word(at, true, b"pragma")?;
    let at = expect_word(at, true, b"acc")?;
    let t = token_at(at, true)?;
    let (head, at) = head_of(depth, t)?;
    let (mut clauses, at) = opening_at(alloc, head, at)?;
    let at = clauses_at(alloc, arrays, head, &mut clauses, at)?;
    act_behind(alloc, arrays, head, clauses, at)
}
