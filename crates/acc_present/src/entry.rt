//! An entry of the present table.

ghost use Rattle.std.specs.Prelude.{◌≡◌, ◌<◌, false};
ghost use Rattle.acc_base.specs.declared.ids.TheConstants.{QUEUES};
ghost use Rattle.acc_present.specs.Lifetimes.{can_open};
ghost use Rattle.acc_present.specs.Tables.{entry_mark, entry_change, counter_of, changed_counter, stepped, opening, has_count, entry_presence};
ghost use Rattle.acc_present.specs.Notes.{entry_note, no_note, used_by, made_by};

use crate::change::{Change, Counter};
use acc_base::{BlockId, QUEUES, QueueCounts, QueueId, Range};

/// A counter that is incremented is below this.
pub const COUNTER_LIMIT: u64 = 9_223_372_036_854_775_808;

/// A present range, its block, its structured and its dynamic counter; the queue and the number of the batch that made the
/// block; and of each queue the number of the last batch that made or used it, or 0.
#[derive(Clone, Copy, Debug, PartialEq, Eq)]
pub struct Entry {
    pub range: Range,
    pub block: BlockId,
    pub s: u64,
    pub d: u64,
    pub maker: (QueueId, u64),
    pub uses: QueueCounts,
}

// An entry for a range that was absent, counted once.
pub(crate) fn new_entry(range: Range, counter: Counter, block: BlockId) -> Entry
    ensures presence { entry_presence result ≡ opening (entry_mark counter range) block }
    ensures note { entry_note result ≡ no_note }
{
    let mut entry = Entry {
        range,
        block,
        s: 0,
        d: 0,
        maker: (QueueId::SYNC, 0),
        uses: [0; QUEUES as usize],
    };
    count_up(&mut entry, counter);
    entry
}

// Counts an entry to this one's range.
pub(crate) fn count_up(entry: &mut Entry, counter: Counter)
    requires { counter_of counter (entry_presence entry.old) < COUNTER_LIMIT }
    ensures presence { entry_presence entry.new
        ≡ stepped (entry_change counter) (entry_presence entry.old) }
    ensures note { entry_note entry.new ≡ entry_note entry.old }
{
    match counter {
        Counter::Structured => entry.s += 1,
        Counter::Dynamic => entry.d += 1,
    }
}

// What an exit's change makes of an entry.
pub(crate) fn counted_down(entry: &Entry, change: Change) -> Entry
    requires exit { can_open change ≡ false }
    requires some { 0 < counter_of (changed_counter change) (entry_presence entry.now) }
    ensures presence { entry_presence result ≡ stepped change (entry_presence entry.now) }
    ensures note { entry_note result ≡ entry_note entry.now }
{
    match change {
        Change::StructuredDown => Entry {
            s: entry.s - 1,
            ..*entry
        },
        Change::DynamicDown => Entry {
            d: entry.d - 1,
            ..*entry
        },
        Change::DynamicZero => Entry { d: 0, ..*entry },
        Change::StructuredUp | Change::DynamicUp => unreachable!(),
    }
}

// This batch of a queue used the entry's block.
pub(crate) fn use_by(entry: &mut Entry, queue: QueueId, batch: u64)
    requires { queue < QUEUES }
    ensures presence { entry_presence entry.new ≡ entry_presence entry.old }
    ensures note { entry_note entry.new ≡ used_by queue batch (entry_note entry.old) }
{
    entry.uses[usize::from(queue.number())] = batch;
}

// This batch of a queue made the entry's block.
pub(crate) fn make_by(entry: &mut Entry, queue: QueueId, batch: u64)
    requires { queue < QUEUES }
    ensures presence { entry_presence entry.new ≡ entry_presence entry.old }
    ensures note { entry_note entry.new ≡ made_by queue batch (entry_note entry.old) }
{
    entry.maker = (queue, batch);
    use_by(entry, queue, batch);
}

// The counter that a change is of.
pub(crate) fn count_of(entry: &Entry, change: Change) -> u64
    ensures { result ≡ counter_of (changed_counter change) (entry_presence entry.now) }
{
    match change {
        Change::StructuredUp | Change::StructuredDown => entry.s,
        Change::DynamicUp | Change::DynamicDown | Change::DynamicZero => entry.d,
    }
}

pub(crate) fn has_count(entry: &Entry) -> bool
    ensures { result ≡ has_count (entry_presence entry.now) }
{
    entry.s > 0 || entry.d > 0
}
