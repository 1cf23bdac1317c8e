//! What a place keeps of a device: its table, and how many lifetimes were opened. Marks are left there.

ghost use Rattle.std.specs.Prelude.{ℕ, All, not, ◌≡◌, ◌+◌, ◌*◌, ◌<◌, ◌≤◌, ◌∷◌, [], length, IfOk, OnOk, OnErr, IfSome};
ghost use Rattle.std.specs.List.{flat_map};
ghost use Rattle.acc_base.specs.Faults.{OnlyMemory};
ghost use Rattle.acc_base.specs.declared.ids.TheConstants.{QUEUES};
ghost use Rattle.acc_base.specs.declared.range.Range.{Range};
ghost use Rattle.acc_present.specs.Notes.{Note, used_by, HasNotes};
ghost use Rattle.acc_present.specs.Presences.{is_present};
ghost use Rattle.acc_present.specs.Tables.{entry_mark, presences_after};
ghost use Rattle.acc_present.specs.declared.entry.TheConstants.{COUNTER_LIMIT};
ghost use Rattle.acc_place.specs.declared.directive.TheConstants.{MAX_ITEMS};
ghost use Rattle.acc_place.specs.inner.Devices.{held_on, AreFresh, IsEmpty};
ghost use Rattle.acc_place.specs.inner.Noting.{changed_all, noted_by, noted_ranges, noted_with};
ghost use Rattle.acc_place.specs.inner.Judging.{change_in, holding_after, holding_after_all, holding_with, opened_after, AllLow, CanEnter, CanMark, HasEntered, HasRoomFor, wants_look, IsFine, AllEntered, AllFine};

use crate::directive::{Clause, DataItem, Kind, MAX_ITEMS};
use acc_base::{BlockId, Config, Fault, QueueId, Range};
use acc_batch::{Label, OpLabel};
use acc_present::{Change, Counter, Entered, Table};
use std::alloc::Global;

/// What a place keeps of a device: its table, and how many lifetimes have been opened there.
#[derive(Drop)]
pub struct Device {
    pub table: Table,
    pub opened: u64,
}

impl Device {
    /// Makes room in the table for the items of a directive and their ends, where it is missing.
    ///
    /// # Errors
    ///
    /// `Memory` where memory is refused.
    pub(crate) fn spare(&mut self) -> Result<(), Fault>
        ensures held { held_on self.new ≡ held_on self.old }
        ensures capacity { self.new.table.capacity ≡ self.old.table.capacity }
        ensures notes { self.new.table.notes ≡ self.old.table.notes }
        ensures room { self.old.table.room ≤ self.new.table.room }
        ensures ok { OnOk result
            (length self.new.table.presences + 2 * MAX_ITEMS ≤ self.new.table.room) }
        ensures fault { OnlyMemory result }
        ensures missing { OnErr result
            (self.old.table.room < length self.old.table.presences + 2 * MAX_ITEMS) }
    {
        self.table.spare(2 * MAX_ITEMS)
    }

    /// Notes what the operations of a batch make and use.
    pub(crate) fn note_all(&mut self, queue: QueueId, number: u64, ops: &[OpLabel])
        requires queue { queue < QUEUES }
        requires cells { All (λ u. 0 < u.1.len) (flat_map noted_ranges ops.now) }
        ensures held { held_on self.new ≡ held_on self.old }
        ensures notes { (notes : Range → ℕ → Note) → HasNotes notes self.old.table.notes
            → HasNotes (noted_by queue number ops.now notes) self.new.table.notes }
        ensures capacity { self.new.table.capacity ≡ self.old.table.capacity }
        ensures room { self.new.table.room ≡ self.old.table.room }
    {
        match ops {
            [] => {}
            [first, rest @ ..] => {
                self.note(queue, number, first);
                self.note_all(queue, number, rest);
            }
        }
    }

    fn note(&mut self, queue: QueueId, number: u64, op: &OpLabel)
        requires queue { queue < QUEUES }
        requires cells { All (λ u. 0 < u.1.len) (noted_ranges op.now) }
        ensures held { held_on self.new ≡ held_on self.old }
        ensures notes { (notes : Range → ℕ → Note) → HasNotes notes self.old.table.notes
            → HasNotes (noted_by queue number (op.now ∷ []) notes) self.new.table.notes }
        ensures capacity { self.new.table.capacity ≡ self.old.table.capacity }
        ensures room { self.new.table.room ≡ self.old.table.room }
    {
        match op {
            OpLabel::Make { range, .. } => self.table.note_make(*range, queue, number),
            OpLabel::CopyIn { range, .. } => self.table.note_use(*range, queue, number),
            OpLabel::CopyOut { range, .. } => self.table.note_use(*range, queue, number),
            OpLabel::Run { uses, .. } => self.note_uses(queue, number, uses.get().as_slice()),
            OpLabel::Release { .. } | OpLabel::Await { .. } | OpLabel::Close => {}
        }
    }

    fn note_uses(&mut self, queue: QueueId, number: u64, uses: &[(BlockId, Range)])
        requires queue { queue < QUEUES }
        requires cells { All (λ u. 0 < u.1.len) uses.now }
        ensures held { held_on self.new ≡ held_on self.old }
        ensures notes { (notes : Range → ℕ → Note) → HasNotes notes self.old.table.notes
            → HasNotes (changed_all (used_by queue number) uses.now notes) self.new.table.notes }
        ensures capacity { self.new.table.capacity ≡ self.old.table.capacity }
        ensures room { self.new.table.room ≡ self.old.table.room }
    {
        match uses {
            [] => {}
            [(_, range), rest @ ..] => {
                self.table.note_use(*range, queue, number);
                self.note_uses(queue, number, rest);
            }
        }
    }

    /// Leaves the marks of the items of a directive of this kind.
    pub(crate) fn mark_all(&mut self, kind: &Kind, items: &[DataItem])
        requires fine { AllFine self.old.table.capacity kind.now (held_on self.old) items.now }
        requires entered { AllEntered kind.now (held_on self.old) items.now }
        requires room { HasRoomFor (length items.now) self.old.table self.old.opened }
        ensures holding { held_on self.new
            ≡ holding_after_all kind.now (held_on self.old) items.now }
        ensures notes { (notes : Range → ℕ → Note) → AreFresh notes self.old.opened
            → HasNotes notes self.old.table.notes → HasNotes notes self.new.table.notes }
        ensures capacity { self.new.table.capacity ≡ self.old.table.capacity }
        ensures room { self.new.table.room ≡ self.old.table.room }
    {
        match items {
            [] => {}
            [first, rest @ ..] => {
                self.mark_item(kind, first);
                self.mark_all(kind, rest);
            }
        }
    }

    // Leaves the mark of an item, if it leaves one.
    fn mark_item(&mut self, kind: &Kind, item: &DataItem)
        requires fine { IsFine self.old.table.capacity
            (change_in kind.now self.old.table.presences item.now) self.old.table.presences item.now.range }
        requires entered { HasEntered
            (change_in kind.now self.old.table.presences item.now) item.now.range self.old.table.presences }
        requires low { AllLow COUNTER_LIMIT 1 self.old.table.presences }
        requires room { length self.old.table.presences < self.old.table.room }
        requires few { self.old.opened < COUNTER_LIMIT }
        ensures holding { held_on self.new ≡ holding_with kind.now item.now (held_on self.old) }
        ensures notes { (notes : Range → ℕ → Note) → AreFresh notes self.old.opened
            → HasNotes notes self.old.table.notes → HasNotes notes self.new.table.notes }
        ensures capacity { self.new.table.capacity ≡ self.old.table.capacity }
        ensures room { self.new.table.room ≡ self.old.table.room }
    {
        self.table.keeps();
        if wants_look(kind, item.clause) {
            let present = self.table.counters(item.range).is_some();
            self.mark(kind.change_where(item, present), item.range);
        } else {
            self.mark(kind.change(), item.range);
        }
    }

    // Leaves one mark.
    #[tactic(auto, unfolding(crate::specs::inner::Judging::holding_after))]
    fn mark(&mut self, change: Option<Change>, range: Range)
        requires can { CanMark change range self.old.table.presences self.old.table.capacity }
        requires room { length self.old.table.presences < self.old.table.room }
        requires few { self.old.opened < COUNTER_LIMIT }
        ensures holding { held_on self.new ≡ holding_after change range (held_on self.old) }
        ensures notes { (notes : Range → ℕ → Note) → AreFresh notes self.old.opened
            → HasNotes notes self.old.table.notes → HasNotes notes self.new.table.notes }
        ensures capacity { self.new.table.capacity ≡ self.old.table.capacity }
        ensures room { self.new.table.room ≡ self.old.table.room }
    {
        match change {
            Some(Change::StructuredUp) => self.enter(range, Counter::Structured),
            Some(Change::StructuredDown) => {
                let _ = self.table.leave(range, Counter::Structured);
            }
            Some(Change::DynamicUp) => self.enter(range, Counter::Dynamic),
            Some(Change::DynamicDown) => {
                let _ = self.table.leave(range, Counter::Dynamic);
            }
            Some(Change::DynamicZero) => {
                let _ = self.table.finalize(range);
            }
            None => {}
        }
    }

    // Enters a range.
    fn enter(&mut self, range: Range, counter: Counter)
        requires can { CanEnter counter range self.old.table.presences self.old.table.capacity }
        requires room { length self.old.table.presences < self.old.table.room }
        requires few { self.old.opened < COUNTER_LIMIT }
        ensures presences { self.new.table.presences
            ≡ presences_after (entry_mark counter range)
            (self.old.opened + 1) self.old.table.presences }
        ensures opened { self.new.opened
            ≡ opened_after (not (is_present self.old.table.presences range)) self.old.opened }
        ensures notes { (notes : Range → ℕ → Note) → AreFresh notes self.old.opened
            → HasNotes notes self.old.table.notes → HasNotes notes self.new.table.notes }
        ensures capacity { self.new.table.capacity ≡ self.old.table.capacity }
        ensures room { self.new.table.room ≡ self.old.table.room }
    {
        let next = self.opened + 1;
        match self.table.enter(range, counter, BlockId::new(next)) {
            Entered::Counted => {}
            Entered::Opened => self.opened = next,
        }
    }
}

// Whether an item is looked for before it is marked. An exit isn't, as it changes nothing where its range is absent.
fn wants_look(kind: &Kind, clause: Clause) -> bool
    ensures { result ≡ wants_look kind.now clause }
{
    matches!(kind, Kind::Data) && kind.acts_if_present(clause)
}

/// Devices without directives, for a configuration.
///
/// # Errors
///
/// `Memory` where memory is refused.
pub(crate) fn devices_of(alloc: Global, config: &Config) -> Result<Vec<Device>, Fault>
    ensures count { IfOk result (λ devices. length devices.items ≡ config.now.devices) }
    ensures empty { IfOk result (λ devices. All (IsEmpty config.now) devices.items) }
    ensures fault { OnlyMemory result }
{
    let mut devices = Vec::new(alloc);
    for _ in 0..config.devices() {
        devices.push(Device {
            table: Table::new(alloc, config.capacity()),
            opened: 0,
        })?;
    }
    Ok(devices)
}

// Notes what a batch makes and uses, if there is one.
pub(crate) fn note_label(device: &mut Device, label: &Option<Label>)
    requires { IfSome label.now (λ l. (l.at.queue < QUEUES)
        × All (λ u. 0 < u.1.len) (flat_map noted_ranges l.ops)) }
    ensures held { held_on device.new ≡ held_on device.old }
    ensures notes { (notes : Range → ℕ → Note) → HasNotes notes device.old.table.notes
        → HasNotes (noted_with label.now notes) device.new.table.notes }
    ensures capacity { device.new.table.capacity ≡ device.old.table.capacity }
    ensures room { device.new.table.room ≡ device.old.table.room }
{
    match label {
        None => {}
        Some(label) => device.note_all(label.at.queue, label.number, label.ops.get().as_slice()),
    }
}
