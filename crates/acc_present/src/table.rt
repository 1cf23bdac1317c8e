//! The table: entries in their order, found by the keys of their first cells.

ghost use Rattle.std.specs.Prelude.{◌≡◌, ℕ, ◌+◌, ◌-◌, ◌^◌, ◌<◌, ◌≤◌, [], length, map, slice_get, slice_set, remove, true, false, Some, None, if◌then◌else◌, IfSome, OnOk, OnErr, OnSome};
ghost use Rattle.std.specs.Option.{option_map};
ghost use Rattle.acc_base.specs.Faults.{OnlyMemory};
ghost use Rattle.acc_base.specs.declared.ids.TheConstants.{QUEUES};
ghost use Rattle.acc_base.specs.declared.range.Range.{Range};
ghost use Rattle.acc_present.specs.Lifetimes.{can_open};
ghost use Rattle.acc_present.specs.declared.entry.TheConstants.{COUNTER_LIMIT};
ghost use Rattle.acc_present.specs.declared.change.Change.TheVariants.{DynamicZero};
ghost use Rattle.acc_present.specs.Presences.{holder, is_present, is_partly_present, overlaps_any, used_cells};
ghost use Rattle.acc_present.specs.Drafts.{beside};
ghost use Rattle.acc_present.specs.Legality.{MeetsCondition};
ghost use Rattle.acc_present.specs.Tables.{entry_mark, exit_mark, finalize_mark, exit_change, counter_of, presences_after, kept_after, has_count, entry_presence, held_presence, is_table, AreNoted, IsLook, left_of};
ghost use Rattle.acc_present.specs.Notes.{Note, entry_note, entry_noted, HasNotes, IsNoted, no_note, used_by, made_by, changed_at};

use crate::change::{Change, Counter, exit_change};
use crate::entries::Entries;
use crate::entry::{
    Entry, count_of, count_up, counted_down, has_count, make_by, new_entry, use_by,
};
use crate::held::Held;
use crate::search::overlaps_beside_in;
use acc_base::{BlockId, Fault, QueueId, Range};
use acc_raw::{Chain, Iter};
use std::alloc::Global;
use std::marker::Model;

/// What a table has of a range.
#[derive(Clone, Copy, Debug, PartialEq, Eq)]
pub enum Look {
    Absent,
    /// It overlaps a present range, and none contains it.
    Partly,
    /// This entry contains it.
    Present(Entry),
}

/// What became of a range that was entered.
#[derive(Clone, Copy, Debug, PartialEq, Eq)]
pub enum Entered {
    Counted,
    /// It was absent: its data lifetime begins.
    Opened,
}

/// What became of a range that was left.
#[derive(Clone, Copy, Debug, PartialEq, Eq)]
pub enum Left {
    /// It was absent, or the counter was zero.
    Nothing,
    Counted,
    /// Both counters are zero: the data lifetime with this block ends.
    Ended(BlockId),
}

/// The present ranges of one device, by array, then by lower bound.
#[derive(Drop)]
pub struct Table {
    entries: Entries,
    capacity: u64,
    used: u64,
}

impl Model for Table {
    ghost use Rattle.std.specs.Prelude.{map};
    ghost use Rattle.acc_present.specs.Tables.{TableView, entry_presence};
    ghost use Rattle.acc_present.specs.Notes.{entry_noted};
    ghost use Rattle.acc_present.specs.inner.Invariants.{IsTable};
    ghost use Rattle.acc_present.specs.inner.Keys.{AreKeyed};

    ghost Value = { TableView };

    ghost view = { λ t. record { presences = map entry_presence t.entries.items; notes = map entry_noted t.entries.items; capacity = t.capacity; room = t.entries.room } };

    ghost invariant = { λ t. IsTable (map entry_presence t.entries.items) t.used t.capacity × AreKeyed t.entries.items t.entries.keys };
}

impl Table {
    /// A table without entries, for a device with this capacity in cells. Takes no memory.
    pub fn new(alloc: Global, capacity: u64) -> Self
        ensures presences { result.presences ≡ [] }
        ensures notes { result.notes ≡ [] }
        ensures capacity { result.capacity ≡ capacity }
    {
        Table {
            entries: Entries::new(alloc),
            capacity,
            used: 0,
        }
    }

    /// Makes room for this many new entries.
    ///
    /// # Errors
    ///
    /// `Memory` where the room was missing and memory is refused; then nothing changes.
    pub fn spare(&mut self, count: usize) -> Result<(), Fault>
        ensures presences { self.new.presences ≡ self.old.presences }
        ensures notes { self.new.notes ≡ self.old.notes }
        ensures capacity { self.new.capacity ≡ self.old.capacity }
        ensures room { self.old.room ≤ self.new.room }
        ensures ok { OnOk result (length self.new.presences + count ≤ self.new.room) }
        ensures fault { OnlyMemory result }
        ensures kept { OnErr result (self.new ≡ self.old) }
        ensures missing { OnErr result (self.old.room < length self.old.presences + count) }
    {
        self.entries.spare(count)
    }

    /// Goes to where a range stands, so that the calls that ask for it next find it at once.
    pub fn seek(&mut self, range: Range)
        ensures { self.new ≡ self.old }
    {
        self.entries.seek(range);
    }

    /// What the table has of a range with a cell.
    pub fn look(&self, range: Range) -> Look
        requires { 0 < range.len }
        ensures look { IsLook self.now.presences range result }
        ensures noted { (notes : Range → ℕ → Note) → HasNotes notes self.now.notes
            → IsNoted notes result }
    {
        let mut around = self.entries.iter_from(range);
        let first = match around.next() {
            Some(first) => first,
            None => return Look::Absent,
        };
        if first.range.contains(&range) {
            return Look::Present(*first);
        }
        if first.range.overlaps(&range) {
            return Look::Partly;
        }
        match around.next() {
            Some(second) => {
                if second.range.overlaps(&range) {
                    Look::Partly
                } else {
                    Look::Absent
                }
            }
            None => Look::Absent,
        }
    }

    /// Counts an entry to a range with a cell, and opens its data lifetime where it was absent, with this block.
    ///
    /// The range isn't partly present, by `look`. Where it is present, the counter is below `COUNTER_LIMIT`; where it
    /// is absent, the capacity has room for its cells beside `used_cells`, and the table for an entry, as `spare` makes.
    pub fn enter(&mut self, range: Range, counter: Counter, block: BlockId) -> Entered
        requires cells { 0 < range.len }
        requires whole { is_partly_present self.old.presences range ≡ false }
        requires low { IfSome (holder self.old.presences range) (λ p.
            counter_of counter p < COUNTER_LIMIT) }
        requires capacity { holder self.old.presences range ≡ None
            → used_cells self.old.presences + range.len ≤ self.old.capacity }
        requires room { holder self.old.presences range ≡ None
            → length self.old.presences < self.old.room }
        ensures presences { self.new.presences
            ≡ presences_after (entry_mark counter range) block self.old.presences }
        ensures notes { (notes : Range → ℕ → Note) → HasNotes notes self.old.notes
            → (holder self.old.presences range ≡ None → notes range block ≡ no_note)
            → HasNotes notes self.new.notes }
        ensures capacity { self.new.capacity ≡ self.old.capacity }
        ensures room { self.new.room ≡ self.old.room }
        ensures result { result ≡ (if is_present self.old.presences range then Entered.Counted
            else Entered.Opened) }
    {
        let Some(entry) = self.entries.floor_mut(range) else {
            return self.open(range, counter, block);
        };
        if !entry.range.contains(&range) {
            return self.open(range, counter, block);
        }
        count_up(entry, counter);
        Entered::Counted
    }

    // Opens the data lifetime of a range that overlaps no present one.
    fn open(&mut self, range: Range, counter: Counter, block: BlockId) -> Entered
        requires cells { 0 < range.len }
        requires absent { holder self.old.presences range ≡ None }
        requires whole { is_partly_present self.old.presences range ≡ false }
        requires capacity { used_cells self.old.presences + range.len ≤ self.old.capacity }
        requires room { length self.old.presences < self.old.room }
        ensures presences { self.new.presences
            ≡ presences_after (entry_mark counter range) block self.old.presences }
        ensures notes { (notes : Range → ℕ → Note) → HasNotes notes self.old.notes
            → notes range block ≡ no_note → HasNotes notes self.new.notes }
        ensures capacity { self.new.capacity ≡ self.old.capacity }
        ensures room { self.new.room ≡ self.old.room }
        ensures result { result ≡ Entered.Opened }
    {
        self.entries.insert(new_entry(range, counter, block));
        self.used += u64::from(range.len);
        Entered::Opened
    }

    /// Counts an exit from a range with a cell, and ends its data lifetime where both counters are zero. A region leaves
    /// only what a region entered: by `look`, the range is present, and its structured counter positive.
    pub fn leave(&mut self, range: Range, counter: Counter) -> Left
        requires cells { 0 < range.len }
        requires condition { MeetsCondition (exit_change counter) range self.old.presences }
        ensures presences { self.new.presences
            ≡ kept_after (exit_mark counter range) self.old.presences }
        ensures notes { (notes : Range → ℕ → Note) → HasNotes notes self.old.notes
            → HasNotes notes self.new.notes }
        ensures capacity { self.new.capacity ≡ self.old.capacity }
        ensures room { self.new.room ≡ self.old.room }
        ensures result { result ≡ left_of (holder self.old.presences range) (exit_change counter) }
    {
        self.exit(range, exit_change(counter))
    }

    /// Sets the dynamic counter of a range with a cell to zero, and ends its data lifetime where the structured one is
    /// zero too (OpenACC API 3.0, 2.6.6, Enter Data and Exit Data Directives: the `finalize` clause).
    pub fn finalize(&mut self, range: Range) -> Left
        requires { 0 < range.len }
        ensures presences { self.new.presences
            ≡ kept_after (finalize_mark range) self.old.presences }
        ensures notes { (notes : Range → ℕ → Note) → HasNotes notes self.old.notes
            → HasNotes notes self.new.notes }
        ensures capacity { self.new.capacity ≡ self.old.capacity }
        ensures room { self.new.room ≡ self.old.room }
        ensures result { result ≡ left_of (holder self.old.presences range) DynamicZero }
    {
        self.exit(range, Change::DynamicZero)
    }

    // Makes an exit's change to the range's counter, and ends the data lifetime where both counters are zero.
    fn exit(&mut self, range: Range, change: Change) -> Left
        requires cells { 0 < range.len }
        requires exit { can_open change ≡ false }
        ensures presences { self.new.presences
            ≡ kept_after (record { change = change; range = range }) self.old.presences }
        ensures notes { (notes : Range → ℕ → Note) → HasNotes notes self.old.notes
            → HasNotes notes self.new.notes }
        ensures capacity { self.new.capacity ≡ self.old.capacity }
        ensures room { self.new.room ≡ self.old.room }
        ensures result { result ≡ left_of (holder self.old.presences range) change }
    {
        let Some(entry) = self.entries.floor_mut(range) else {
            return Left::Nothing;
        };
        if !entry.range.contains(&range) {
            return Left::Nothing;
        }
        if count_of(entry, change) == 0 {
            return Left::Nothing;
        }
        let after = counted_down(entry, change);
        if has_count(&after) {
            *entry = after;
            return Left::Counted;
        }
        self.entries.remove(range);
        self.used -= u64::from(after.range.len);
        Left::Ended(after.block)
    }

    // Whether the range overlaps a present one that none of these overlaps.
    pub(crate) fn overlaps_beside(&self, range: Range, changed: &[Held]) -> bool
        ensures { result
            ≡ overlaps_any (beside (map held_presence changed.now) self.now.presences) range }
    {
        overlaps_beside_in(self.entries.iter_from(range), range, changed)
    }

    /// Notes that this batch of a queue used what a range with a cell is part of, if it is present.
    pub fn note_use(&mut self, range: Range, queue: QueueId, batch: u64)
        requires cells { 0 < range.len }
        requires queue { queue < QUEUES }
        ensures presences { self.new.presences ≡ self.old.presences }
        ensures notes { (notes : Range → ℕ → Note) → HasNotes notes self.old.notes
            → HasNotes (changed_at range (used_by queue batch) notes) self.new.notes }
        ensures capacity { self.new.capacity ≡ self.old.capacity }
        ensures room { self.new.room ≡ self.old.room }
    {
        let Some(entry) = self.entries.floor_mut(range) else {
            return;
        };
        if !entry.range.contains(&range) {
            return;
        }
        use_by(entry, queue, batch);
    }

    /// Notes that this batch of a queue made what a range with a cell is part of, if it is present.
    pub fn note_make(&mut self, range: Range, queue: QueueId, batch: u64)
        requires cells { 0 < range.len }
        requires queue { queue < QUEUES }
        ensures presences { self.new.presences ≡ self.old.presences }
        ensures notes { (notes : Range → ℕ → Note) → HasNotes notes self.old.notes
            → HasNotes (changed_at range (made_by queue batch) notes) self.new.notes }
        ensures capacity { self.new.capacity ≡ self.old.capacity }
        ensures room { self.new.room ≡ self.old.room }
    {
        let Some(entry) = self.entries.floor_mut(range) else {
            return;
        };
        if !entry.range.contains(&range) {
            return;
        }
        make_by(entry, queue, batch);
    }

    /// The entry of the present range that contains a range with a cell.
    pub fn find(&self, range: Range) -> Option<&Entry>
        requires { 0 < range.len }
        ensures entry { option_map (λ e. entry_presence e.now) result
            ≡ holder self.now.presences range }
        ensures noted { (notes : Range → ℕ → Note) → HasNotes notes self.now.notes
            → IfSome result (λ e. entry_note e.now ≡ notes e.now.range e.now.block) }
    {
        let first = self.entries.iter_from(range).next()?;
        if first.range.contains(&range) {
            Some(first)
        } else {
            None
        }
    }

    /// The structured and the dynamic counter of the present range that contains a range with a cell.
    pub fn counters(&self, range: Range) -> Option<(u64, u64)>
        requires { 0 < range.len }
        ensures { result ≡ option_map (λ p. (p.s, p.d)) (holder self.now.presences range) }
    {
        match self.find(range) {
            Some(entry) => Some((entry.s, entry.d)),
            None => None,
        }
    }

    /// How many cells the present ranges have together.
    pub fn used_cells(&self) -> u64
        ensures { result ≡ used_cells self.now.presences }
    {
        self.used
    }

    /// The entry at this index, from 0, by array, then by lower bound. Who asks for one after the other takes `iter`.
    pub fn nth(&self, index: usize) -> Option<&Entry>
        ensures entry { option_map (λ e. entry_presence e.now) result
            ≡ slice_get self.now.presences index }
        ensures noted { option_map (λ e. entry_noted e.now) result
            ≡ slice_get self.now.notes index }
        ensures next { OnSome result (index + 1 < 2 ^ 64) }
    {
        self.entries.nth(index)
    }

    /// The entries, by array, then by lower bound.
    pub fn iter(&self) -> Iter<'_, Entry>
        ensures entries { map entry_presence result ≡ self.now.presences }
        ensures noted { map entry_noted result ≡ self.now.notes }
    {
        self.entries.iter()
    }

    /// The chain of the present entries, in the order of `nth`, and that of the nodes which no entry has. Takes no memory.
    pub fn into_chains(self) -> (Chain<Entry>, Chain<Entry>)
        ensures presences { map entry_presence result.0 ≡ self.presences }
        ensures notes { map entry_noted result.0 ≡ self.notes }
        ensures spare { length result.0 + length result.1 ≡ self.room }
    {
        let Table {
            entries,
            capacity: _,
            used: _,
        } = self;
        entries.into_chains()
    }

    /// Every table's presences are in order and apart, each with a cell and a count, and with its note; and fit the capacity.
    pub fn keeps(&self)
        ensures table { is_table self.now.presences ≡ true }
        ensures noted { AreNoted self.now.presences self.now.notes }
        ensures capacity { used_cells self.now.presences ≤ self.now.capacity }
        ensures limit { self.now.capacity < 2 ^ 64 }
    {
        let _capacity = self.capacity;
    }
}
