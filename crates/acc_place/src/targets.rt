//! The queues that `async` and `wait` clauses name.

ghost use Rattle.std.specs.Prelude.{◌≡◌, negsuc, map};
ghost use Rattle.std.specs.List.{list_any};
ghost use Rattle.acc_place.specs.Targets.{queue_of_own, queue_meant, target_queue, queue_by, queues_written, has_bad_queue, is_alone, is_bad, waits_on_too_many};

use crate::directive::{ASYNC_NOVAL, ASYNC_SYNC, Directive, Kind, MAX_WAITS, Target, Waits};
use acc_base::QueueId;

/// The queue of a directive's batch (OpenACC API 3.0, 2.16.1, async clause), or sync where none is named.
pub(crate) fn queue_by(directive: &Directive) -> QueueId
    ensures { result ≡ queue_by directive.now.kind directive.now }
{
    if matches!(directive.kind(), Kind::EndData) {
        return QueueId::SYNC;
    }
    match target_queue(directive.default(), directive.target()) {
        Some(queue) => queue,
        None => QueueId::SYNC,
    }
}

/// Whether a directive is a wait that goes to a queue.
pub(crate) fn is_alone(directive: &Directive) -> bool
    ensures { result ≡ is_alone directive.now }
{
    matches!(directive.kind(), Kind::Wait) && queue_by(directive) != QueueId::SYNC
}

/// Whether a value of an async or a wait clause names no queue.
pub(crate) fn has_bad_queue(directive: &Directive) -> bool
    ensures { result ≡ has_bad_queue directive.now }
{
    target_queue(directive.default(), directive.target()).is_none() || has_bad_wait(directive)
}

fn has_bad_wait(directive: &Directive) -> bool
    ensures { result ≡ list_any is_bad (queues_written directive.now.default directive.now.waits) }
{
    match directive.waits() {
        Waits::Nothing | Waits::All => false,
        Waits::Listed { values } => one_is_bad(directive.default(), values.as_slice()),
    }
}

// Whether one of these values names no queue.
fn one_is_bad(default: i64, values: &[i64]) -> bool
    ensures { result ≡ list_any is_bad (map (queue_meant default) values.now) }
{
    for value in values {
        if queue_of(default, *value).is_none() {
            return true;
        }
    }
    false
}

/// Whether a wait has more values than it may.
pub(crate) fn waits_on_too_many(waits: &Waits) -> bool
    ensures { result ≡ waits_on_too_many waits.now }
{
    match waits {
        Waits::Nothing | Waits::All => false,
        Waits::Listed { values } => values.as_slice().len() > MAX_WAITS,
    }
}

/// The queue that an async clause names, for a host with this default (OpenACC API 3.0, 2.16.1, async clause); `None` where its value
/// names no queue.
pub fn target_queue(default: i64, target: Target) -> Option<QueueId>
    ensures { result ≡ target_queue default target }
{
    match target {
        Target::Plain => Some(QueueId::SYNC),
        Target::Unvalued => queue_of_own(default),
        Target::Value { value } => queue_of(default, value),
    }
}

/// The queue that a value of a clause names, for a host with this default.
pub(crate) fn queue_of(default: i64, value: i64) -> Option<QueueId>
    ensures { result ≡ queue_meant default value }
{
    match value {
        ASYNC_NOVAL => queue_of_own(default),
        _ => queue_of_own(value),
    }
}

// The queue of a host's default async value.
fn queue_of_own(value: i64) -> Option<QueueId>
    ensures { result ≡ queue_of_own value }
{
    match value {
        ASYNC_NOVAL => Some(QueueId::NOVAL),
        ASYNC_SYNC => Some(QueueId::SYNC),
        _ => queue_of_value(value),
    }
}

// The queue of a value that is no name.
fn queue_of_value(value: i64) -> Option<QueueId>
    requires noval { value ≡ negsuc 0 → ⊥ }
    requires sync { value ≡ negsuc 1 → ⊥ }
    ensures { result ≡ queue_of_own value }
{
    if value < 0 {
        return None;
    }
    Some(QueueId::of_value(value as u64))
}
