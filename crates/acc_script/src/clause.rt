//! The clauses of a directive.

ghost use Rattle.std.specs.Prelude.{◌≡◌, ◌+◌, ◌≤◌, ◌<◌, true, false, not, [], ◌∷◌, length, IfOk, OnOk, IfSome, if◌then◌else◌};
ghost use Rattle.acc_script.specs.Clauses.{is_one_of, clause_named, allows, no_clauses, is_plain, waits_for_nothing, is_bare, is_complete, may_have_comma, target_at, ranges_at, data_clause, clause_of, ends_line, clause_turn};
ghost use Rattle.acc_token.specs.Faults.{Gives, Reads, Shortens};
ghost use Rattle.acc_token.specs.Tokens.{spot, lexeme};
ghost use Rattle.acc_token.specs.Turns.{turn, all_turns};
ghost use Rattle.acc_script.specs.inner.Kept.{IsKept};

use crate::arrays::Arrays;
use crate::head::Head;
use crate::queue::{queue_of, waits_at};
use crate::range::items_at;
use acc_base::Few;
use acc_place::{Clause, DataItem, Target, Waits};
use acc_token::{At, ReadError, ReadFault, Token, expect, is, sign_at, token_at, unwanted_token};
use std::alloc::Global;

/// The clauses that have been read of a directive; `flagged` tells that `finalize` or `if_present` is one of them.
#[derive(Drop)]
pub struct Clauses {
    pub items: Few<DataItem>,
    pub target: Target,
    pub waits: Waits,
    pub flagged: bool,
}

// Whether a word is one of the three names of a data clause.
#[inline(always)]
fn is_one_of(word: &[u8], first: &[u8], second: &[u8], third: &[u8]) -> bool
    ensures { result ≡ is_one_of word.now (first.now ∷ second.now ∷ third.now ∷ []) }
{
    is(word, first) || is(word, second) || is(word, third)
}

// The data clause of a word.
fn clause_named(word: &[u8]) -> Option<Clause>
    ensures named { result ≡ clause_named word.now }
    ensures some { IfSome result (λ _. 0 < length word.now) }
{
    if is_one_of(word, b"copy", b"pcopy", b"present_or_copy") {
        Some(Clause::Copy)
    } else if is_one_of(word, b"copyin", b"pcopyin", b"present_or_copyin") {
        Some(Clause::Copyin)
    } else if is_one_of(word, b"copyout", b"pcopyout", b"present_or_copyout") {
        Some(Clause::Copyout)
    } else if is_one_of(word, b"create", b"pcreate", b"present_or_create") {
        Some(Clause::Create)
    } else if is(word, b"present") {
        Some(Clause::Present)
    } else if is(word, b"no_create") {
        Some(Clause::NoCreate)
    } else if is(word, b"delete") {
        Some(Clause::Delete)
    } else if is(word, b"self") || is(word, b"host") {
        Some(Clause::UpdateSelf)
    } else if is(word, b"device") {
        Some(Clause::UpdateDevice)
    } else {
        None
    }
}

impl Clauses {
    /// No clause yet, in a directive that waits for these queues.
    pub(crate) fn new(alloc: Global, waits: Waits) -> Self
        ensures { result ≡ no_clauses waits }
    {
        Clauses {
            items: Few::new(alloc),
            target: Target::Plain,
            waits,
            flagged: false,
        }
    }

    fn is_plain(&self) -> bool
        ensures { result ≡ is_plain self.now.target }
    {
        matches!(self.target, Target::Plain)
    }

    fn is_waiting(&self) -> bool
        ensures { result ≡ not (waits_for_nothing self.now.waits) }
    {
        !matches!(self.waits, Waits::Nothing)
    }

    fn is_bare(&self) -> bool
        ensures { result ≡ is_bare self.now }
    {
        self.items.as_slice().is_empty() && self.is_plain() && !self.is_waiting() && !self.flagged
    }

    // Whether the directive can end behind them.
    fn is_complete(&self, head: Head) -> bool
        ensures { result ≡ is_complete head self.now }
    {
        !head.needs_item() || !self.items.as_slice().is_empty()
    }

    fn may_have_comma(&self, head: Head) -> bool
        ensures { result ≡ may_have_comma head self.now }
    {
        head != Head::Wait && !self.is_bare()
    }
}

// What stands behind `async`.
#[tactic(auto, unfolding(crate::specs::Clauses::target_at))]
fn target_at<'a>(at: At<'a>) -> Result<(Target, At<'a>), ReadFault>
    ensures found { Reads (λ x. (x.0, spot x.1)) result (target_at (spot at.entry)) }
    ensures shorter { Shortens at.entry result }
{
    let t = sign_at(at, true)?;
    if is(t.text, b"(") {
        let u = token_at(t.after, true)?;
        let (value, at) = queue_of(u, true)?;
        let at = expect(at, true, b")")?;
        Ok((Target::Value { value }, at))
    } else {
        Ok((Target::Unvalued, at))
    }
}

// The ranges of a data clause behind its word.
#[tactic(auto, unfolding(crate::specs::Clauses::ranges_at))]
fn ranges_at<'a>(
    arrays: &Arrays,
    head: Head,
    clause: Clause,
    clauses: &mut Clauses,
    at: At<'a>,
) -> Result<At<'a>, ReadError>
    requires clause { allows head clause ≡ true }
    requires kept { IsKept head clauses.old }
    ensures found { Gives (λ a. (clauses.new, spot a)) result
        (ranges_at arrays.now clause clauses.old (spot at.entry)) }
    ensures kept { OnOk result (IsKept head clauses.new) }
    ensures shorter { IfOk result (λ a. length a.bytes.now ≤ length at.entry.bytes.now) }
{
    let at = expect(at, true, b"(")?;
    items_at(arrays, head, clause, &mut clauses.items, at)
}

// The data clause of a token, if the directive may have it.
fn data_clause<'a>(
    arrays: &Arrays,
    head: Head,
    clauses: &mut Clauses,
    t: Token<'a>,
) -> Result<At<'a>, ReadError>
    requires kept { IsKept head clauses.old }
    ensures found { Gives (λ a. (clauses.new, spot a)) result
        (data_clause arrays.now head clauses.old (lexeme t.entry) (clause_named t.entry.text.now)) }
    ensures kept { OnOk result (IsKept head clauses.new) }
    ensures some { OnOk result (0 < length t.entry.text.now) }
    ensures shorter { IfOk result (λ a. length a.bytes.now ≤ length t.entry.after.bytes.now) }
{
    match clause_named(t.text) {
        Some(clause) => {
            if head.allows(clause) {
                ranges_at(arrays, head, clause, clauses, t.after)
            } else {
                Err(unwanted_token(t).into())
            }
        }
        None => Err(unwanted_token(t).into()),
    }
}

// The clause that begins with this token.
#[tactic(auto, unfolding(crate::specs::Clauses::clause_of))]
fn clause_of<'a>(
    alloc: Global,
    arrays: &Arrays,
    head: Head,
    clauses: &mut Clauses,
    t: Token<'a>,
) -> Result<At<'a>, ReadError>
    requires kept { IsKept head clauses.old }
    ensures found { Gives (λ a. (clauses.new, spot a)) result
        (clause_of arrays.now head clauses.old (lexeme t.entry)) }
    ensures kept { OnOk result (IsKept head clauses.new) }
    ensures some { OnOk result (0 < length t.entry.text.now) }
    ensures shorter { IfOk result (λ a. length a.bytes.now ≤ length t.entry.after.bytes.now) }
{
    if is(t.text, b"async") && head.may_be_async() && clauses.is_plain() {
        let (target, at) = target_at(t.after)?;
        clauses.target = target;
        Ok(at)
    } else if is(t.text, b"wait") && head.may_wait() && !clauses.is_waiting() {
        let (waits, at) = waits_at(alloc, t.after)?;
        clauses.waits = waits;
        Ok(at)
    } else if head.is_flag(t.text) && !clauses.flagged {
        clauses.flagged = true;
        Ok(t.after)
    } else {
        data_clause(arrays, head, clauses, t)
    }
}

// Whether a directive ends with this token: with its line, or with the text.
fn ends_line(text: &[u8]) -> bool
    ensures { result ≡ ends_line text.now }
{
    text.is_empty() || is(text, b"\n")
}

// A clause, or the end of the directive.
#[tactic(auto, unfolding(crate::specs::Clauses::clause_turn))]
fn clause_turn<'a>(
    alloc: Global,
    arrays: &Arrays,
    head: Head,
    clauses: &mut Clauses,
    at: At<'a>,
) -> Result<(bool, At<'a>), ReadError>
    requires kept { IsKept head clauses.old }
    ensures found { Gives (λ x. turn x.0 clauses.new (spot x.1)) result
        (clause_turn arrays.now head clauses.old (spot at.entry)) }
    ensures kept { OnOk result (IsKept head clauses.new) }
    ensures complete { IfOk result (λ x. x.0 ≡ false → is_complete head clauses.new ≡ true) }
    ensures shorter { IfOk result (λ x.
        (if x.0 then 1 else 0) + length x.1.bytes.now ≤ length at.entry.bytes.now) }
{
    let t = sign_at(at, true)?;
    if ends_line(t.text) && clauses.is_complete(head) {
        return Ok((false, t.after));
    }
    let first = if is(t.text, b",") && clauses.may_have_comma(head) {
        token_at(t.after, true)?
    } else {
        t
    };
    Ok((true, clause_of(alloc, arrays, head, clauses, first)?))
}

/// The clauses of a directive, up to the end of its line, behind those that are there.
#[tactic(auto, using(acc_token::proofs::Turns::goes_on, acc_token::proofs::Turns::ends, acc_token::proofs::Turns::fails_too))]
pub(crate) fn clauses_at<'a>(
    alloc: Global,
    arrays: &Arrays,
    head: Head,
    clauses: &mut Clauses,
    at: At<'a>,
) -> Result<At<'a>, ReadError>
    requires kept { IsKept head clauses.old }
    ensures found { Gives (λ a. turn false clauses.new (spot a)) result
        (all_turns (clause_turn arrays.now head) clauses.old (spot at.entry)) }
    ensures kept { OnOk result (IsKept head clauses.new) }
    ensures complete { OnOk result (is_complete head clauses.new ≡ true) }
    ensures shorter { IfOk result (λ a. length a.bytes.now ≤ length at.entry.bytes.now) }
{
    let turns = at.bytes.len() + 1;
    let mut here = at;
    for _ in 0..turns {
        let (more, after) = clause_turn(alloc, arrays, head, clauses, here)?;
        here = after;
        if !more {
            return Ok(here);
        }
    }
    unreachable!()
}
