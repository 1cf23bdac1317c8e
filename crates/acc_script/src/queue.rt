//! Async values, and the queues of a wait.

ghost use Rattle.std.specs.Prelude.{◌≡◌, ◌+◌, ◌≤◌, ◌<◌, [], false, length, IfOk, OnOk, if◌then◌else◌};
ghost use Rattle.acc_token.specs.Faults.{Gives, Reads, Shortens};
ghost use Rattle.acc_script.specs.Clauses.{waits_for_nothing};
ghost use Rattle.acc_script.specs.Queues.{queue_of, begins_queue, queue_behind, queues_turn, waits_at};
ghost use Rattle.acc_token.specs.Tokens.{spot, lexeme};
ghost use Rattle.acc_token.specs.Turns.{turn, all_turns};

use crate::declaration::{begins_value, negative};
use acc_base::Listed;
use acc_place::{ASYNC_NOVAL, ASYNC_SYNC, Waits};
use acc_token::{
    At, ReadError, ReadFault, ReadKind, Token, exactly, fault, is, number_of, sign_at, token_at,
};
use std::alloc::Global;

/// The most queues of one list in a text.
pub const MAX_QUEUES: usize = 64;

/// The async value that begins with this token.
#[tactic(auto, unfolding(crate::specs::Queues::queue_of))]
pub(crate) fn queue_of<'a>(t: Token<'a>, in_directive: bool) -> Result<(i64, At<'a>), ReadFault>
    ensures found { Reads (λ x. (x.0, spot x.1)) result (queue_of in_directive (lexeme t.entry)) }
    ensures some { OnOk result (0 < length t.entry.text.now) }
    ensures shorter { Shortens t.entry.after result }
{
    if is(t.text, b"-") {
        let u = token_at(t.after, in_directive)?;
        let n = number_of(u, 9_223_372_036_854_775_807)?;
        Ok((negative(n), u.after))
    } else if is(t.text, b"acc_async_sync") {
        Ok((ASYNC_SYNC, t.after))
    } else if is(t.text, b"acc_async_noval") {
        Ok((ASYNC_NOVAL, t.after))
    } else {
        let n = number_of(t, 9_223_372_036_854_775_807)?;
        Ok((n as i64, t.after))
    }
}

fn begins_queue(text: &[u8]) -> bool
    ensures { result ≡ begins_queue text.now }
{
    begins_value(text) || is(text, b"acc_async_sync") || is(text, b"acc_async_noval")
}

// A queue of a list, and the comma or the ) behind it.
#[tactic(auto, unfolding(crate::specs::Queues::queue_behind))]
fn queue_behind<'a>(values: &mut Vec<i64>, t: Token<'a>) -> Result<(bool, At<'a>), ReadError>
    ensures found { Gives (λ x. turn x.0 values.new.items (spot x.1)) result
        (queue_behind values.old.items (lexeme t.entry)) }
    ensures some { OnOk result (0 < length t.entry.text.now) }
    ensures shorter { Shortens t.entry.after result }
{
    let (value, at) = queue_of(t, true)?;
    values.push(value)?;
    let u = sign_at(at, true)?;
    if is(u.text, b",") {
        Ok((true, u.after))
    } else {
        Ok((false, exactly(u, b")")?))
    }
}

// A queue of a list.
#[tactic(auto, unfolding(crate::specs::Queues::queues_turn))]
fn queue_turn<'a>(values: &mut Vec<i64>, at: At<'a>) -> Result<(bool, At<'a>), ReadError>
    ensures found { Gives (λ x. turn x.0 values.new.items (spot x.1)) result
        (queues_turn values.old.items (spot at.entry)) }
    ensures shorter { IfOk result (λ x. length x.1.bytes.now < length at.entry.bytes.now) }
{
    let t = token_at(at, true)?;
    if MAX_QUEUES <= values.len() && begins_queue(t.text) {
        Err(fault(t.line, ReadKind::Limit).into())
    } else {
        queue_behind(values, t)
    }
}

// The queues of a list up to the ).
#[tactic(auto, using(acc_token::proofs::Turns::goes_on, acc_token::proofs::Turns::ends, acc_token::proofs::Turns::fails_too))]
fn queues_at<'a>(values: &mut Vec<i64>, at: At<'a>) -> Result<At<'a>, ReadError>
    ensures found { Gives (λ a. turn false values.new.items (spot a)) result
        (all_turns queues_turn values.old.items (spot at.entry)) }
    ensures shorter { IfOk result (λ a. length a.bytes.now ≤ length at.entry.bytes.now) }
{
    let turns = at.bytes.len() + 1;
    let mut here = at;
    for _ in 0..turns {
        let (more, after) = queue_turn(values, here)?;
        here = after;
        if !more {
            return Ok(here);
        }
    }
    unreachable!()
}

/// The queues that stand behind `wait`; without any all are meant.
#[tactic(auto, unfolding(crate::specs::Queues::waits_at))]
pub(crate) fn waits_at<'a>(alloc: Global, at: At<'a>) -> Result<(Waits, At<'a>), ReadError>
    ensures found { Gives (λ x. (x.0, spot x.1)) result (waits_at (spot at.entry)) }
    ensures some { IfOk result (λ x. waits_for_nothing x.0 ≡ false) }
    ensures shorter { Shortens at.entry result }
{
    let t = sign_at(at, true)?;
    if is(t.text, b"(") {
        // most lists have one queue
        let mut queues = Vec::with_capacity(alloc, 1)?;
        let at = queues_at(&mut queues, t.after)?;
        queues.shrink_to_fit();
        let values = Listed::from_vec(queues);
        Ok((Waits::Listed { values }, at))
    } else {
        Ok((Waits::All, at))
    }
}
