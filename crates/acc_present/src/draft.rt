//! A draft of a table: the present ranges that marks changed, and the table beside them. A mark takes what a look found.

ghost use Rattle.std.specs.Prelude.{◌≡◌, ◌+◌, ◌<◌, ◌≤◌, [], length, map, filter, slice_get, slice_set, true, false, None, if◌then◌else◌, vec_len, vec_capacity, IfSome, IfOk};
ghost use Rattle.std.specs.Option.{option_and_then};
ghost use Rattle.acc_base.specs.Faults.{OnlyMemory};
ghost use Rattle.acc_present.specs.declared.entry.TheConstants.{COUNTER_LIMIT};
ghost use Rattle.acc_present.specs.Legality.{MeetsCondition};
ghost use Rattle.acc_present.specs.Lifetimes.{can_open};
ghost use Rattle.acc_present.specs.declared.change.Change.TheVariants.{DynamicZero};
ghost use Rattle.acc_present.specs.declared.held.Found.TheVariants.{Absent, Partly};
ghost use Rattle.acc_present.specs.Presences.{holder, is_present, is_partly_present, overlaps_any, used_cells};
ghost use Rattle.acc_present.specs.Tables.{entry_mark, exit_mark, finalize_mark, exit_change, counter_of, presences_after, kept_after, has_count, held_presence, is_table, IsFound, left_of};
ghost use Rattle.acc_present.specs.Drafts.{with_changed, drafted, IsDraft};

use crate::change::{Change, Counter, exit_change};
use crate::held::{
    Found, Held, count_of, count_up, counted_down, has_count, held_of, opened, overlaps_one,
};
use crate::table::{Entered, Left, Look, Table};
use acc_base::{BlockId, Fault, Range};
use std::alloc::Global;
use std::marker::Model;

/// What marks would make of a table that doesn't have them yet.
#[derive(Drop)]
pub struct Draft {
    // the present ranges that the marks changed, as they are after them; one that ended has no count
    changed: Vec<Held>,
    used: u64,
}

impl Model for Draft {
    ghost use Rattle.std.specs.Prelude.{map, vec_capacity};
    ghost use Rattle.acc_present.specs.Drafts.{DraftView};
    ghost use Rattle.acc_present.specs.Tables.{held_presence};

    ghost Value = { DraftView };

    ghost view = { λ d. record { changed = map held_presence d.changed.items; used = d.used; room = vec_capacity d.changed } };
}

impl Draft {
    /// A draft with memory for this many changed entries.
    ///
    /// # Errors
    ///
    /// `Memory` where memory is refused.
    pub fn with_room(alloc: Global, room: usize) -> Result<Self, Fault>
        ensures changed { IfOk result (λ d. d.changed ≡ []) }
        ensures room { IfOk result (λ d. room ≤ d.room) }
        ensures fault { OnlyMemory result }
    {
        let changed = Vec::with_capacity(alloc, room)?;
        Ok(Draft { changed, used: 0 })
    }

    /// Begins a draft of this table, without marks.
    pub fn begin(&mut self, table: &Table)
        ensures draft { IsDraft table.now self.new }
        ensures drafted { drafted table.now self.new ≡ table.now.presences }
        ensures changed { self.new.changed ≡ [] }
        ensures room { self.new.room ≡ self.old.room }
    {
        table.keeps();
        self.changed.clear();
        self.used = table.used_cells();
    }

    /// What the table would have of a range with a cell.
    pub fn look(&self, table: &Table, range: Range) -> Found
        requires draft { IsDraft table.now self.now }
        requires cells { 0 < range.len }
        ensures { IsFound (drafted table.now self.now) range result }
    {
        let changed = self.changed.as_slice();
        match counted_index(changed, range) {
            Some(i) => Found::Present(changed[i]),
            None => look_beside(changed, table, range),
        }
    }

    /// Counts an entry to a range that was found so, by `look`, and opens its data lifetime where it was absent. It asks of
    /// the range what `Table::enter` asks, as the draft shows it, but for room: the draft has room for one more entry that
    /// changes.
    pub fn enter(
        &mut self,
        table: &Table,
        range: Range,
        found: &Found,
        counter: Counter,
        block: BlockId,
    ) -> Entered
        requires draft { IsDraft table.now self.old }
        requires cells { 0 < range.len }
        requires found { IsFound (drafted table.now self.old) range found.now }
        requires whole { is_partly_present (drafted table.now self.old) range ≡ false }
        requires low { IfSome (holder (drafted table.now self.old) range) (λ p.
            counter_of counter p < COUNTER_LIMIT) }
        requires capacity { holder (drafted table.now self.old) range ≡ None
            → used_cells (drafted table.now self.old) + range.len ≤ table.now.capacity }
        requires room { length self.old.changed < self.old.room }
        ensures draft { IsDraft table.now self.new }
        ensures drafted { drafted table.now self.new
            ≡ presences_after (entry_mark counter range) block (drafted table.now self.old) }
        ensures changed { length self.new.changed ≤ length self.old.changed + 1 }
        ensures room { self.new.room ≡ self.old.room }
        ensures result { result ≡ (if is_present (drafted table.now self.old) range
            then Entered.Counted else Entered.Opened) }
    {
        table.keeps();
        match index_for(&mut self.changed, table, range, found) {
            Some(i) => {
                count_up(&mut self.changed[i], counter);
                Entered::Counted
            }
            None => {
                self.changed.push_reserved(opened(range, counter, block));
                self.used += u64::from(range.len);
                Entered::Opened
            }
        }
    }

    /// Counts an exit from a range that was found so, by `look`, and ends its data lifetime where both counters are zero. It
    /// asks what `Table::leave` asks, as the draft shows it, and room likewise.
    pub fn leave(&mut self, table: &Table, range: Range, found: &Found, counter: Counter) -> Left
        requires draft { IsDraft table.now self.old }
        requires cells { 0 < range.len }
        requires found { IsFound (drafted table.now self.old) range found.now }
        requires condition { MeetsCondition (exit_change counter) range
            (drafted table.now self.old) }
        requires room { length self.old.changed < self.old.room }
        ensures draft { IsDraft table.now self.new }
        ensures drafted { drafted table.now self.new
            ≡ kept_after (exit_mark counter range) (drafted table.now self.old) }
        ensures changed { length self.new.changed ≤ length self.old.changed + 1 }
        ensures room { self.new.room ≡ self.old.room }
        ensures result { result ≡ left_of (holder (drafted table.now self.old) range)
            (exit_change counter) }
    {
        self.exit(table, range, found, exit_change(counter))
    }

    /// Sets the dynamic counter of a range that was found so, by `look`, to zero, and ends its data lifetime where the
    /// structured one is zero too (OpenACC API 3.0, 2.6.6, Enter Data and Exit Data Directives: the `finalize` clause).
    pub fn finalize(&mut self, table: &Table, range: Range, found: &Found) -> Left
        requires draft { IsDraft table.now self.old }
        requires cells { 0 < range.len }
        requires found { IsFound (drafted table.now self.old) range found.now }
        requires room { length self.old.changed < self.old.room }
        ensures draft { IsDraft table.now self.new }
        ensures drafted { drafted table.now self.new
            ≡ kept_after (finalize_mark range) (drafted table.now self.old) }
        ensures changed { length self.new.changed ≤ length self.old.changed + 1 }
        ensures room { self.new.room ≡ self.old.room }
        ensures result { result ≡ left_of (holder (drafted table.now self.old) range) DynamicZero }
    {
        self.exit(table, range, found, Change::DynamicZero)
    }

    // Makes an exit's change to the range's counter, and ends the data lifetime where both counters are zero.
    fn exit(&mut self, table: &Table, range: Range, found: &Found, change: Change) -> Left
        requires draft { IsDraft table.now self.old }
        requires cells { 0 < range.len }
        requires found { IsFound (drafted table.now self.old) range found.now }
        requires exit { can_open change ≡ false }
        requires room { length self.old.changed < self.old.room }
        ensures draft { IsDraft table.now self.new }
        ensures drafted { drafted table.now self.new
            ≡ kept_after (record { change = change; range = range }) (drafted table.now self.old) }
        ensures changed { length self.new.changed ≤ length self.old.changed + 1 }
        ensures room { self.new.room ≡ self.old.room }
        ensures result { result ≡ left_of (holder (drafted table.now self.old) range) change }
    {
        match index_for(&mut self.changed, table, range, found) {
            None => Left::Nothing,
            Some(i) => {
                let entry = self.changed[i];
                if count_of(&entry, change) == 0 {
                    return Left::Nothing;
                }
                self.put_or_end(i, counted_down(&entry, change))
            }
        }
    }

    // Puts what an exit makes of the changed entry at this index.
    fn put_or_end(&mut self, index: usize, after: Held) -> Left
        requires index { index < length self.old.changed }
        requires cells { has_count (held_presence after) ≡ false → after.range.len ≤ self.old.used }
        ensures changed { self.new.changed
            ≡ slice_set self.old.changed index (held_presence after) }
        ensures used { self.new.used +
            (if has_count (held_presence after) then 0 else after.range.len) ≡ self.old.used }
        ensures room { self.new.room ≡ self.old.room }
        ensures result { result ≡ (if has_count (held_presence after) then Left.Counted
            else Left.Ended after.block) }
    {
        self.changed[index] = after;
        if has_count(&after) {
            return Left::Counted;
        }
        self.used -= u64::from(after.range.len);
        Left::Ended(after.block)
    }

    /// How many cells would be in use.
    pub fn used_cells(&self) -> u64
        ensures { result ≡ self.now.used }
    {
        self.used
    }
}

// The index of the changed entry that has a count and contains the range.
fn counted_index(changed: &[Held], range: Range) -> Option<usize>
    ensures held { option_and_then (slice_get (map held_presence changed.now)) result
        ≡ holder (filter has_count (map held_presence changed.now)) range }
    ensures within { IfSome result (λ i. i < length changed.now) }
{
    changed
        .iter()
        .position(|entry| has_count(entry) && entry.range.contains(&range))
}

// What the table would have of a range that no changed entry with a count contains.
fn look_beside(changed: &[Held], table: &Table, range: Range) -> Found
    requires cells { 0 < range.len }
    requires after { is_table (with_changed (map held_presence changed.now) table.now.presences)
        ≡ true }
    requires none { holder (filter has_count (map held_presence changed.now)) range ≡ None }
    ensures { IsFound
        (with_changed (map held_presence changed.now) table.now.presences) range result }
{
    table.keeps();
    match table.look(range) {
        Look::Present(entry) => {
            if overlaps_one(changed, entry.range) {
                partly_or_absent(overlaps_drafted(changed, table, range))
            } else {
                Found::Present(held_of(&entry))
            }
        }
        Look::Partly => partly_or_absent(overlaps_drafted(changed, table, range)),
        Look::Absent => partly_or_absent(overlaps_counted(changed, range)),
    }
}

// What is said of a range that no present one contains.
fn partly_or_absent(overlaps: bool) -> Found
    ensures { result ≡ (if overlaps then Partly else Absent) }
{
    if overlaps {
        Found::Partly
    } else {
        Found::Absent
    }
}

// Whether a changed entry that has a count overlaps the range.
fn overlaps_counted(changed: &[Held], range: Range) -> bool
    ensures { result ≡ overlaps_any (filter has_count (map held_presence changed.now)) range }
{
    changed
        .iter()
        .any(|entry| has_count(entry) && entry.range.overlaps(&range))
}

// Whether the range would overlap a present one.
fn overlaps_drafted(changed: &[Held], table: &Table, range: Range) -> bool
    ensures { result
        ≡ overlaps_any (with_changed (map held_presence changed.now) table.now.presences) range }
{
    overlaps_counted(changed, range) || table.overlaps_beside(range, changed)
}

// The index among the changed entries of the one that contains the range, which is put there where only the table has
// it, as was found.
fn index_for(changed: &mut Vec<Held>, table: &Table, range: Range, found: &Found) -> Option<usize>
    requires cells { 0 < range.len }
    requires found { IsFound
        (with_changed (map held_presence changed.old.items) table.now.presences) range found.now }
    requires after { is_table
        (with_changed (map held_presence changed.old.items) table.now.presences) ≡ true }
    requires room { vec_len changed.old < vec_capacity changed.old }
    ensures same { with_changed (map held_presence changed.new.items) table.now.presences
        ≡ with_changed (map held_presence changed.old.items) table.now.presences }
    ensures held { option_and_then (slice_get (map held_presence changed.new.items)) result
        ≡ holder (with_changed (map held_presence changed.old.items) table.now.presences) range }
    ensures within { IfSome result (λ i. i < vec_len changed.new) }
    ensures none { result ≡ None → changed.new ≡ changed.old }
    ensures longer { vec_len changed.new ≤ vec_len changed.old + 1 }
    ensures room { vec_capacity changed.new ≡ vec_capacity changed.old }
{
    table.keeps();
    match counted_index(changed.as_slice(), range) {
        Some(i) => Some(i),
        None => match found {
            Found::Absent => None,
            Found::Partly => None,
            Found::Present(held) => {
                let index = changed.len();
                changed.push_reserved(*held);
                Some(index)
            }
        },
    }
}
