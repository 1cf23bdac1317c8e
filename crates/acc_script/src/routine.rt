//! Runtime library routines: calls and questions.

ghost use Rattle.std.specs.Prelude.{◌≡◌, ◌+◌, ◌≤◌, ◌<◌, [], ◌∷◌, true, false, length, IfOk, IfErr, IfSome, OnOk};
ghost use Rattle.acc_place.specs.Clauses.{allows_clause, is_well_formed};
ghost use Rattle.acc_token.specs.declared.read_fault.ReadError.TheVariants.{Memory};
ghost use Rattle.acc_token.specs.Faults.{Gives, Reads, Shortens};
ghost use Rattle.acc_script.specs.Ranges.{item};
ghost use Rattle.acc_script.specs.Routines.{routine, routine_named, range_argument, queue_argument, two_queues, number_argument, no_argument, is_routine, data_call, other_call, call_of, question_of, shown_of, print_at};
ghost use Rattle.acc_script.specs.Directives as directives;
ghost use Rattle.acc_token.specs.Tokens.{spot, lexeme};
ghost use Rattle.acc_place.specs.declared.directive.Kind.TheVariants as kind;
ghost use Rattle.acc_place.specs.declared.directive.Target.TheVariants as target;
ghost use Rattle.acc_place.specs.declared.directive.Waits.TheVariants as waits;

use crate::arrays::Arrays;
use crate::directive::placed;
use crate::queue::queue_of;
use crate::range::{MAX_INDEX, range_at, range_of};
use acc_base::{Few, Listed, Range};
use acc_host::Act;
use acc_place::{Clause, DataItem, Kind, Target, Waits, Written};
use acc_token::{At, ReadError, ReadFault, Token, expect, is, number_of, token_at, unwanted_token};
use std::alloc::Global;

/// What a routine acts as: a directive of this kind with one range in this clause.
#[derive(Drop)]
pub struct DataRoutine {
    pub kind: Kind,
    pub clause: Clause,
}

fn routine(kind: Kind, clause: Clause) -> Option<DataRoutine>
    ensures { result ≡ routine kind clause }
{
    Some(DataRoutine { kind, clause })
}

// The data routine of a word.
fn routine_named(word: &[u8]) -> Option<DataRoutine>
    ensures named { result ≡ routine_named word.now }
    ensures allowed { IfSome result (λ r. allows_clause r.kind r.clause ≡ true) }
{
    if is(word, b"acc_copyin") {
        routine(Kind::EnterData, Clause::Copyin)
    } else if is(word, b"acc_create") {
        routine(Kind::EnterData, Clause::Create)
    } else if is(word, b"acc_copyout") {
        routine(Kind::ExitData { finalize: false }, Clause::Copyout)
    } else if is(word, b"acc_delete") {
        routine(Kind::ExitData { finalize: false }, Clause::Delete)
    } else if is(word, b"acc_copyout_finalize") {
        routine(Kind::ExitData { finalize: true }, Clause::Copyout)
    } else if is(word, b"acc_delete_finalize") {
        routine(Kind::ExitData { finalize: true }, Clause::Delete)
    } else if is(word, b"acc_update_device") {
        routine(Kind::Update { if_present: false }, Clause::UpdateDevice)
    } else if is(word, b"acc_update_self") {
        routine(Kind::Update { if_present: false }, Clause::UpdateSelf)
    } else {
        None
    }
}

#[tactic(auto, unfolding(crate::specs::Routines::range_argument))]
fn range_argument<'a>(arrays: &Arrays, at: At<'a>) -> Result<(Range, At<'a>), ReadFault>
    ensures found { Reads (λ x. (x.0, spot x.1)) result
        (range_argument arrays.now (spot at.entry)) }
    ensures shorter { Shortens at.entry result }
{
    let at = expect(at, false, b"(")?;
    let (range, at) = range_at(arrays, at, false)?;
    let at = expect(at, false, b")")?;
    Ok((range, at))
}

#[tactic(auto, unfolding(crate::specs::Routines::queue_argument))]
fn queue_argument<'a>(at: At<'a>) -> Result<(i64, At<'a>), ReadFault>
    ensures found { Reads (λ x. (x.0, spot x.1)) result (queue_argument (spot at.entry)) }
    ensures shorter { Shortens at.entry result }
{
    let at = expect(at, false, b"(")?;
    let t = token_at(at, false)?;
    let (queue, at) = queue_of(t, false)?;
    let at = expect(at, false, b")")?;
    Ok((queue, at))
}

#[tactic(auto, unfolding(crate::specs::Routines::two_queues))]
fn two_queues<'a>(at: At<'a>) -> Result<((i64, i64), At<'a>), ReadFault>
    ensures found { Reads (λ x. (x.0, spot x.1)) result (two_queues (spot at.entry)) }
    ensures shorter { Shortens at.entry result }
{
    let at = expect(at, false, b"(")?;
    let t = token_at(at, false)?;
    let (first, at) = queue_of(t, false)?;
    let at = expect(at, false, b",")?;
    let u = token_at(at, false)?;
    let (second, at) = queue_of(u, false)?;
    let at = expect(at, false, b")")?;
    Ok(((first, second), at))
}

#[tactic(auto, unfolding(crate::specs::Routines::number_argument))]
fn number_argument<'a>(at: At<'a>) -> Result<(u32, At<'a>), ReadFault>
    ensures found { Reads (λ x. (x.0, spot x.1)) result (number_argument (spot at.entry)) }
    ensures shorter { Shortens at.entry result }
{
    let at = expect(at, false, b"(")?;
    let t = token_at(at, false)?;
    let n = number_of(t, u64::from(MAX_INDEX))?;
    let at = expect(t.after, false, b")")?;
    Ok((n as u32, at))
}

#[tactic(auto, unfolding(crate::specs::Routines::no_argument))]
fn no_argument<'a>(at: At<'a>) -> Result<At<'a>, ReadFault>
    ensures found { Reads spot result (no_argument (spot at.entry)) }
    ensures shorter { IfOk result (λ a. length a.bytes.now ≤ length at.entry.bytes.now) }
{
    let at = expect(at, false, b"(")?;
    expect(at, false, b")")
}

/// Whether a call or a question begins with this word.
pub(crate) fn is_routine(word: &[u8]) -> bool
    ensures routine { result ≡ is_routine word.now }
    ensures some { result ≡ true → 0 < length word.now }
{
    word.starts_with(b"acc_")
}

// A directive with one range, which ends here.
fn with_range<'a>(
    alloc: Global,
    kind: Kind,
    clause: Clause,
    range: Range,
    at: At<'a>,
) -> Result<(Act, At<'a>), ReadError>
    requires { allows_clause kind clause ≡ true }
    ensures act { IfOk result (λ x.
        x.0 ≡ directives.placed kind (item clause range ∷ []) target.Plain waits.Nothing) }
    ensures end { IfOk result (λ x. spot x.1 ≡ spot at.entry) }
    ensures fault { IfErr result (λ error. error ≡ Memory) }
{
    let mut items = Few::new(alloc);
    items.push(DataItem { clause, range })?;
    let written = Written {
        kind,
        items,
        target: Target::Plain,
        waits: Waits::Nothing,
    };
    Ok((placed(alloc, written)?, at))
}

// A directive about queues, which ends here.
fn about_queues<'a>(
    alloc: Global,
    kind: Kind,
    target: Target,
    waits: Waits,
    at: At<'a>,
) -> Result<(Act, At<'a>), ReadError>
    requires { is_well_formed (record { kind = kind; items = []; target = target; waits = waits })
        ≡ true }
    ensures act { IfOk result (λ x. x.0 ≡ directives.placed kind [] target waits) }
    ensures end { IfOk result (λ x. spot x.1 ≡ spot at.entry) }
    ensures fault { IfErr result (λ error. error ≡ Memory) }
{
    let written = Written {
        kind,
        items: Few::new(alloc),
        target,
        waits,
    };
    Ok((placed(alloc, written)?, at))
}

// The same about one queue.
fn about_queue<'a>(
    alloc: Global,
    kind: Kind,
    target: Target,
    queue: i64,
    at: At<'a>,
) -> Result<(Act, At<'a>), ReadError>
    requires { is_well_formed
        (record { kind = kind; items = []; target = target; waits = waits.Listed (queue ∷ []) })
        ≡ true }
    ensures act { IfOk result (λ x.
        x.0 ≡ directives.placed kind [] target (waits.Listed (queue ∷ []))) }
    ensures end { IfOk result (λ x. spot x.1 ≡ spot at.entry) }
    ensures fault { IfErr result (λ error. error ≡ Memory) }
{
    let mut values = Vec::with_capacity(alloc, 1)?;
    values.push_reserved(queue);
    let values = Listed::from_vec(values);
    about_queues(alloc, kind, target, Waits::Listed { values }, at)
}

#[tactic(auto, unfolding(crate::specs::Routines::data_call))]
fn data_call<'a>(
    alloc: Global,
    arrays: &Arrays,
    routine: DataRoutine,
    at: At<'a>,
) -> Result<(Act, At<'a>), ReadError>
    requires { allows_clause routine.kind routine.clause ≡ true }
    ensures found { Gives (λ x. (x.0, spot x.1)) result
        (data_call arrays.now routine (spot at.entry)) }
    ensures shorter { Shortens at.entry result }
{
    let (range, at) = range_argument(arrays, at)?;
    let DataRoutine { kind, clause } = routine;
    with_range(alloc, kind, clause, range, at)
}

// A call of another routine.
#[tactic(auto, unfolding(crate::specs::Routines::other_call))]
fn other_call<'a>(alloc: Global, t: Token<'a>) -> Result<(Act, At<'a>), ReadError>
    ensures found { Gives (λ x. (x.0, spot x.1)) result (other_call (lexeme t.entry)) }
    ensures shorter { Shortens t.entry.after result }
{
    if is(t.text, b"acc_wait") {
        let (queue, at) = queue_argument(t.after)?;
        about_queue(alloc, Kind::Wait, Target::Plain, queue, at)
    } else if is(t.text, b"acc_wait_all") {
        let at = no_argument(t.after)?;
        about_queues(alloc, Kind::Wait, Target::Plain, Waits::All, at)
    } else if is(t.text, b"acc_wait_async") {
        let ((queue, value), at) = two_queues(t.after)?;
        about_queue(alloc, Kind::Wait, Target::Value { value }, queue, at)
    } else if is(t.text, b"acc_set_device_num") {
        let (device, at) = number_argument(t.after)?;
        Ok((Act::SetDevice { device }, at))
    } else if is(t.text, b"acc_set_default_async") {
        let (value, at) = queue_argument(t.after)?;
        Ok((Act::SetAsync { value }, at))
    } else {
        Err(unwanted_token(t).into())
    }
}

/// The call that begins with this token.
#[tactic(auto, unfolding(crate::specs::Routines::call_of))]
pub(crate) fn call_of<'a>(
    alloc: Global,
    arrays: &Arrays,
    t: Token<'a>,
) -> Result<(Act, At<'a>), ReadError>
    ensures found { Gives (λ x. (x.0, spot x.1)) result (call_of arrays.now (lexeme t.entry)) }
    ensures shorter { Shortens t.entry.after result }
{
    match routine_named(t.text) {
        Some(routine) => data_call(alloc, arrays, routine, t.after),
        None => other_call(alloc, t),
    }
}

// The question that begins with this token.
#[tactic(auto, unfolding(crate::specs::Routines::question_of))]
fn question_of<'a>(alloc: Global, arrays: &Arrays, t: Token<'a>) -> Result<(Act, At<'a>), ReadError>
    ensures found { Gives (λ x. (x.0, spot x.1)) result (question_of arrays.now (lexeme t.entry)) }
    ensures shorter { Shortens t.entry.after result }
{
    if is(t.text, b"acc_is_present") {
        let (range, at) = range_argument(arrays, t.after)?;
        with_range(alloc, Kind::IsPresent, Clause::Present, range, at)
    } else if is(t.text, b"acc_async_test") {
        let (queue, at) = queue_argument(t.after)?;
        about_queue(alloc, Kind::AsyncTest, Target::Plain, queue, at)
    } else if is(t.text, b"acc_async_test_all") {
        let at = no_argument(t.after)?;
        about_queues(alloc, Kind::AsyncTest, Target::Plain, Waits::All, at)
    } else if is(t.text, b"acc_get_device_num") {
        Ok((Act::ShowDevice, no_argument(t.after)?))
    } else if is(t.text, b"acc_get_num_devices") {
        Ok((Act::ShowDevices, no_argument(t.after)?))
    } else {
        Err(unwanted_token(t).into())
    }
}

// What is printed, from this token on.
#[tactic(auto, unfolding(crate::specs::Routines::shown_of))]
fn shown_of<'a>(alloc: Global, arrays: &Arrays, t: Token<'a>) -> Result<(Act, At<'a>), ReadError>
    ensures found { Gives (λ x. (x.0, spot x.1)) result (shown_of arrays.now (lexeme t.entry)) }
    ensures shorter { Shortens t.entry.after result }
{
    if is_routine(t.text) {
        question_of(alloc, arrays, t)
    } else {
        let (range, at) = range_of(arrays, t, false)?;
        Ok((Act::Print { range }, at))
    }
}

/// A print or a question behind `print`.
#[tactic(auto, unfolding(crate::specs::Routines::print_at))]
pub(crate) fn print_at<'a>(
    alloc: Global,
    arrays: &Arrays,
    at: At<'a>,
) -> Result<(Act, At<'a>), ReadError>
    ensures found { Gives (λ x. (x.0, spot x.1)) result (print_at arrays.now (spot at.entry)) }
    ensures shorter { Shortens at.entry result }
{
    let at = expect(at, false, b"(")?;
    let t = token_at(at, false)?;
    let (act, at) = shown_of(alloc, arrays, t)?;
    let at = expect(at, false, b")")?;
    Ok((act, at))
}
