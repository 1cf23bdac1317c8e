//! What a place answers about what it has accepted.

ghost use Rattle.std.specs.Prelude.{reverse, map, ◌≡◌, ◌+◌, ◌<◌, length, IfSome, OnSome, slice_get, ◌^◌};
ghost use Rattle.std.specs.Option.{option_map};
ghost use Rattle.acc_batch.specs.Labels.{on_queue};
ghost use Rattle.acc_present.specs.Notes.{entry_note};
ghost use Rattle.acc_present.specs.Presences.{presences, holder, is_present, used_cells};
ghost use Rattle.acc_present.specs.Tables.{entry_presence};
ghost use Rattle.acc_place.specs.Answers.{answers_of, GoTogether};
ghost use Rattle.acc_place.specs.BlockNotes.{note_of};
ghost use Rattle.acc_place.specs.Histories.{is_closed, AllAccepted};
ghost use Rattle.acc_place.specs.Plans.{nth_batch, standing_in};

use crate::answer::Answer;
use crate::directive::PlaceEntry;
use crate::place::Place;
use acc_base::{Config, DeviceId, QueueAt, Range};
use acc_batch::Label;
use acc_present::Entry;
use acc_raw::Iter;

impl Place {
    /// Whether a queue is closed: its last batch, which is its close, is placed.
    pub fn is_closed(&self, at: QueueAt) -> bool
        ensures { result ≡ is_closed (standing_in self.now) at }
    {
        let QueueAt { device, queue } = at;
        if !self.config.has_queue(QueueAt { device, queue }) {
            return false;
        }
        self.closes[QueueAt { device, queue }.seat()]
            .label
            .is_none()
    }

    /// Whether a range with a cell is present on a device, one that `Config::has_device` knows.
    #[tactic(auto, using(crate::proofs::WalkItem::held_is_present))]
    pub fn is_present(&self, device: DeviceId, range: Range) -> bool
        requires device { device < self.now.config.devices }
        requires cells { 0 < range.len }
        ensures { result ≡ is_present (presences ((standing_in self.now).marks device)) range }
    {
        self.counters(device, range).is_some()
    }

    /// The structured and the dynamic counter of the present range of a device that contains a range with a cell.
    pub fn counters(&self, device: DeviceId, range: Range) -> Option<(u64, u64)>
        requires device { device < self.now.config.devices }
        requires cells { 0 < range.len }
        ensures { result ≡ option_map (λ p. (p.s, p.d)) (holder
            (presences ((standing_in self.now).marks device)) range) }
    {
        self.devices[usize::from(device.number())]
            .table
            .counters(range)
    }

    /// How many cells the present ranges of a device have together.
    pub fn used_cells(&self, device: DeviceId) -> u64
        requires { device < self.now.config.devices }
        ensures { result ≡ used_cells (presences ((standing_in self.now).marks device)) }
    {
        self.devices[usize::from(device.number())]
            .table
            .used_cells()
    }

    /// The entry of the device's table with this index, from 0, by array, then by lower bound. Who asks for one after the other takes
    /// `entries`.
    pub fn nth(&self, device: DeviceId, index: usize) -> Option<&Entry>
        requires device { device < self.now.config.devices }
        ensures entry { option_map (λ e. entry_presence e.now) result
            ≡ slice_get (presences ((standing_in self.now).marks device)) index }
        ensures noted { IfSome result (λ e.
            entry_note e.now ≡ note_of device (standing_in self.now).labels e.now.block) }
        ensures next { OnSome result (index + 1 < 2 ^ 64) }
    {
        self.devices[usize::from(device.number())].table.nth(index)
    }

    /// The entries of the device's table, by array, then by lower bound.
    pub fn entries(&self, device: DeviceId) -> Iter<'_, Entry>
        requires { device < self.now.config.devices }
        ensures entries { map entry_presence result
            ≡ presences ((standing_in self.now).marks device) }
    {
        self.devices[usize::from(device.number())].table.iter()
    }

    /// How many batches were placed on a queue.
    pub fn placed_count(&self, at: QueueAt) -> u64
        ensures { result ≡ length (on_queue at (standing_in self.now).labels) }
    {
        self.labels_on(at).len() as u64
    }

    /// The label of the batch with this number on a queue, from 1.
    #[tactic(auto, using(crate::proofs::StandingIn::nth_is))]
    pub fn placed(&self, at: QueueAt, number: u64) -> Option<&Label>
        ensures { option_map (λ l. l.now) result
            ≡ nth_batch (on_queue at (standing_in self.now).labels) number }
    {
        if number == 0 {
            return None;
        }
        self.labels_on(at).get(number as usize - 1)
    }

    /// The labels of the batches that were placed on a queue, in order.
    pub fn labels_on(&self, at: QueueAt) -> &[Label]
        ensures { result.now ≡ on_queue at (standing_in self.now).labels }
    {
        self.labels.on(at)
    }

    /// What was accepted and closed, in order: each directive after those before it, and each queue once, behind the closing.
    pub fn history(&self) -> &[PlaceEntry]
        ensures history { result.now ≡ reverse self.now.history }
        ensures accepted { AllAccepted self.now.config self.now.history self.now.counts }
    {
        self.history.as_slice()
    }

    /// How many items the host of each accepted directive had before it, in order: each goes with the directive of the same index
    /// of the history.
    pub fn counts(&self) -> &[u64]
        ensures { result.now ≡ reverse self.now.counts }
    {
        self.counts.as_slice()
    }

    /// What was answered to the accepted directives, in order: each goes with the directive and the count of the same index.
    pub fn answers(&self) -> &[Answer]
        ensures answers { result.now
            ≡ reverse (answers_of self.now.config self.now.history self.now.counts) }
        ensures together { GoTogether self.now.config self.now.history self.now.counts }
    {
        self.answers.as_slice()
    }

    /// The configuration that it was made for.
    pub fn config(&self) -> &Config
        ensures { result.now ≡ self.now.config }
    {
        &self.config
    }
}
