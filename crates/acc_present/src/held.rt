//! What a draft has of a present range, without what is noted of its block.

ghost use Rattle.std.specs.Prelude.{◌≡◌, ◌<◌, false, map};
ghost use Rattle.acc_present.specs.Presences.{overlaps_any};
ghost use Rattle.acc_present.specs.Lifetimes.{can_open};
ghost use Rattle.acc_present.specs.declared.entry.TheConstants.{COUNTER_LIMIT};
ghost use Rattle.acc_present.specs.Tables.{entry_mark, entry_change, counter_of, changed_counter, stepped, opening, has_count, entry_presence, held_presence};

use crate::change::{Change, Counter};
use crate::entry::Entry;
use acc_base::{BlockId, Range};

/// A present range, its block, and its structured and its dynamic counter.
#[derive(Clone, Copy, Debug, PartialEq, Eq)]
pub struct Held {
    pub range: Range,
    pub block: BlockId,
    pub s: u64,
    pub d: u64,
}

/// What a draft has of a range.
#[derive(Clone, Copy, Debug, PartialEq, Eq)]
pub enum Found {
    Absent,
    /// It overlaps a present range, and none contains it.
    Partly,
    /// This one contains it.
    Present(Held),
}

/// The same of an entry of a table.
pub(crate) fn held_of(entry: &Entry) -> Held
    ensures { held_presence result ≡ entry_presence entry.now }
{
    Held {
        range: entry.range,
        block: entry.block,
        s: entry.s,
        d: entry.d,
    }
}

/// A range that was absent, counted once.
pub(crate) fn opened(range: Range, counter: Counter, block: BlockId) -> Held
    ensures { held_presence result ≡ opening (entry_mark counter range) block }
{
    let mut held = Held {
        range,
        block,
        s: 0,
        d: 0,
    };
    count_up(&mut held, counter);
    held
}

/// Counts an entry to the range.
pub(crate) fn count_up(held: &mut Held, counter: Counter)
    requires { counter_of counter (held_presence held.old) < COUNTER_LIMIT }
    ensures { held_presence held.new ≡ stepped (entry_change counter) (held_presence held.old) }
{
    match counter {
        Counter::Structured => held.s += 1,
        Counter::Dynamic => held.d += 1,
    }
}

/// What an exit's change makes of it.
pub(crate) fn counted_down(held: &Held, change: Change) -> Held
    requires exit { can_open change ≡ false }
    requires some { 0 < counter_of (changed_counter change) (held_presence held.now) }
    ensures { held_presence result ≡ stepped change (held_presence held.now) }
{
    match change {
        Change::StructuredDown => Held {
            s: held.s - 1,
            ..*held
        },
        Change::DynamicDown => Held {
            d: held.d - 1,
            ..*held
        },
        Change::DynamicZero => Held { d: 0, ..*held },
        Change::StructuredUp | Change::DynamicUp => unreachable!(),
    }
}

/// The counter that a change is of.
pub(crate) fn count_of(held: &Held, change: Change) -> u64
    ensures { result ≡ counter_of (changed_counter change) (held_presence held.now) }
{
    match change {
        Change::StructuredUp | Change::StructuredDown => held.s,
        Change::DynamicUp | Change::DynamicDown | Change::DynamicZero => held.d,
    }
}

/// Whether one of its counters is above zero.
pub(crate) fn has_count(held: &Held) -> bool
    ensures { result ≡ has_count (held_presence held.now) }
{
    held.s > 0 || held.d > 0
}

/// Whether one of these overlaps the range.
pub(crate) fn overlaps_one(held: &[Held], range: Range) -> bool
    ensures { result ≡ overlaps_any (map held_presence held.now) range }
{
    held.iter().any(|one| one.range.overlaps(&range))
}
