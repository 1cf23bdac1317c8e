//! The place, the queues and the work side as one: the machine without its hosts, and their engine.

ghost use Rattle.std.specs.Prelude.{reverse, ◌≡◌, ◌+◌, ◌<◌, [], IfOk, IfErr, IfSome, OnErr, OnSome, true, false, is_some, slice_get, IsTrue, ◌^◌, Ok, length};
ghost use Rattle.acc_base.specs.declared.ids.QueueAt.{QueueAt};
ghost use Rattle.acc_base.specs.Queues.{queue_count};
ghost use Rattle.acc_base.specs.declared.config.TheConstants.{MAX_HOSTS};
ghost use Rattle.acc_host.specs.Engines.{Wait, Record, MayRecord, without_item};
ghost use Rattle.acc_core.specs.inner.Answers.{Makes, Places};
ghost use Rattle.acc_core.specs.Enabled.{is_enabled, is_left, SomeEnabled};
ghost use Rattle.acc_core.specs.Progress.{IsTakenInOrder, left_there, next_by, taken_by};
ghost use Rattle.acc_core.specs.Worlds.{OutsideIsZero};
ghost use Rattle.acc_core.specs.Legality.{CountsRise};
ghost use Rattle.acc_place.specs.BlockNotes.{note_of};
ghost use Rattle.acc_base.specs.Configurations.{has_range};
ghost use Rattle.acc_memory.specs.Memories.{find_block, has_cell};
ghost use Rattle.acc_memory.specs.Values.{Block_cell, Host_cell};
ghost use Rattle.acc_work.specs.Logs.{all_done, all_items, value};
ghost use Rattle.acc_work.specs.Remembering.{blocks_in};
ghost use Rattle.acc_core.specs.Machine.{idle, is_there, state_at_first, standing_of, labels_of};
ghost use Rattle.std.specs.Option.{option_map};
ghost use Rattle.acc_base.specs.Faults.{OnlyMemory};
ghost use Rattle.acc_present.specs.Notes.{entry_note};
ghost use Rattle.acc_present.specs.Presences.{presences, holder};
ghost use Rattle.acc_present.specs.Tables.{entry_presence};

use crate::queue::{Queue, queues_of};
use acc_base::{BlockId, Config, DeviceId, Fault, HostId, QueueAt, QueueCounts, Range};
use acc_batch::OpLabel;
use acc_host::Engine;
use acc_place::{Directive, Place, Placed};
use acc_present::Entry;
use acc_work::{Item, Shown, Work, WorkLog};
use std::alloc::Global;
use std::marker::Model;

/// The place side, the queues, and the work side.
#[derive(Drop)]
pub struct Accelerator {
    pub(crate) alloc: Global,
    pub(crate) place: Place,
    pub(crate) work: Work,
    // by device, then in queue order
    pub(crate) queues: Vec<Queue>,
    // how many batches are placed and not performed to their end
    pub(crate) unfinished: u64,
}

impl Model for Accelerator {
    ghost use Rattle.std.specs.Coded.{codes};
    ghost use Rattle.std.specs.Prelude.{◌≡◌};
    ghost use Rattle.acc_core.specs.Machine.{State};
    ghost use Rattle.acc_core.specs.inner.Ties.{all_batches_left, state_of_parts, HasCloses, HasPlaces, IsAccelerator};
    ghost use Rattle.acc_kernel.specs.contracts.expr.Expr as expr;

    ghost Value = { State };

    ghost coded = { Prim.hlevel (codes, expr.the_row.coded) };

    ghost view = { λ a. state_of_parts a.place a.work };

    ghost invariant = { λ a. IsAccelerator (state_of_parts a.place a.work) a.work a.queues.items × HasCloses a.place × (a.unfinished ≡ all_batches_left a.work.lanes a.queues.items) × HasPlaces a.place a.queues.items };
}

impl Accelerator {
    /// Nothing is accepted, performed or shown yet.
    ///
    /// # Errors
    ///
    /// `Memory` where memory is refused.
    pub(crate) fn new(alloc: Global, config: Config) -> Result<Accelerator, Fault>
        ensures opened { IfOk result (λ a. a ≡ state_at_first config []) }
        ensures fault { OnlyMemory result }
    {
        let work = Work::new(alloc, &config)?;
        work.keeps();
        let queues = queues_of(alloc, &config)?;
        Ok(Accelerator {
            alloc,
            place: Place::new(alloc, config)?,
            work,
            queues,
            unfinished: 0,
        })
    }

    // Accepts a directive, and places its batch on its queue.
    fn accept(&mut self, host: HostId, directive: &Directive) -> Result<Placed, Fault>
        requires { host < MAX_HOSTS }
        ensures { Places self.old host directive.now result self.new }
    {
        self.work.keeps();
        let items_done = self.work.items_of(host);
        let mut plan = self.place.plan(host, items_done, directive)?;
        match plan.take_batch() {
            None => Ok(self.place.accept(plan)),
            Some(batch) => {
                let config = self.place.config();
                config.keeps();
                let seat = batch.label().at.seat();
                if config.room() as usize <= self.queues[seat].len() {
                    return Err(Fault::QueueFull);
                }
                self.queues[seat].push(batch)?;
                self.unfinished += 1;
                Ok(self.place.accept(plan))
            }
        }
    }

    // The counts of items that go with the directives rise.
    fn keeps(&self)
        ensures { CountsRise self.now }
    {
        let _ = &self.work;
    }

    /// Each queue has its count of batches that it has taken, which it performs in order; and a cell that no host array has is zero.
    pub(crate) fn keeps_counts(&self)
        ensures taken { length self.now.taken ≡ queue_count self.now.config }
        ensures in_order { (at : QueueAt) → is_there self.now at ≡ true
            → IsTakenInOrder self.now at }
        ensures outside { OutsideIsZero self.now }
    {
        self.work.keeps();
    }

    // Records an item of a host, any but a Seen.
    fn record(&mut self, host: HostId, item: Item) -> Result<Shown, (Item, Fault)>
        requires host { host < MAX_HOSTS }
        requires item { MayRecord item }
        ensures makes { Makes self.old host (Record item (without_item result)) self.new }
        ensures refused { OnErr result (self.new ≡ self.old) }
        ensures back { IfErr result (λ r. r.0 ≡ item) }
    {
        self.work.keeps();
        self.work.tell(self.alloc, host, item)
    }

    // Records that each queue of a device has performed so many batches, if it has.
    fn see(&mut self, host: HostId, device: DeviceId, counts: QueueCounts) -> Result<bool, Fault>
        requires host { host < MAX_HOSTS }
        ensures makes { Makes self.old host (Wait device counts result) self.new }
        ensures refused { OnErr result (self.new ≡ self.old) }
        ensures idle { result ≡ Ok false → self.new ≡ self.old }
    {
        self.work.keeps();
        self.work.see(self.alloc, host, device, counts)
    }

    /// The structured and the dynamic counter on a device of the range, or of the present range that contains it.
    pub(crate) fn counters(&self, device: DeviceId, range: Range) -> Option<(u64, u64)>
        requires device { device < self.now.config.devices }
        requires cells { 0 < range.len }
        ensures { result ≡ option_map (λ p. (p.s, p.d)) (holder
            (presences ((standing_of self.now).marks device)) range) }
    {
        self.place.counters(device, range)
    }

    /// The present range with this index on a device, by array, then by lower bound.
    pub(crate) fn nth(&self, device: DeviceId, index: usize) -> Option<&Entry>
        requires { device < self.now.config.devices }
        ensures entry { option_map (λ e. entry_presence e.now) result
            ≡ slice_get (presences ((standing_of self.now).marks device)) index }
        ensures noted { IfSome result (λ e.
            entry_note e.now ≡ note_of device (standing_of self.now).labels e.now.block) }
        ensures next { OnSome result (index + 1 < 2 ^ 64) }
    {
        self.place.nth(device, index)
    }

    /// What a cell of a host array holds, if the array has it.
    pub(crate) fn host_cell(&self, array: u8, cell: u32) -> Option<i64>
        ensures there { is_some result
            ≡ has_range self.now.config.arrays (record { array = array; lo = cell; len = 1 }) }
        ensures value { IfSome result (λ x.
            x ≡ value self.now.config.arrays self.now.work (Host_cell array cell)) }
    {
        self.work.host_cell(array, cell)
    }

    /// What a cell of a block holds, if the block is there on the device and has the cell.
    pub(crate) fn block_cell(&self, device: DeviceId, block: BlockId, cell: u32) -> Option<i64>
        ensures there { is_some result
            ≡ has_cell (find_block (blocks_in device self.now.work) block) cell }
        ensures value { IfSome result (λ x.
            x ≡ value self.now.config.arrays self.now.work (Block_cell device block cell)) }
    {
        self.work.block_cell(device, block, cell)
    }

    pub(crate) fn config(&self) -> &Config
        ensures { result.now ≡ self.now.config }
    {
        self.place.config()
    }

    /// What was performed and shown so far, the first entry first.
    pub(crate) fn log(&self) -> &WorkLog
        ensures { result.now.items ≡ reverse self.now.work }
    {
        self.work.log()
    }

    /// How many items the hosts have.
    pub(crate) fn items(&self) -> u64
        ensures { result ≡ all_items self.now.work }
    {
        self.work.items()
    }

    /// Whether each queue of a device has performed its count of batches.
    pub(crate) fn reached(&self, device: DeviceId, counts: &QueueCounts) -> bool
        ensures { result ≡ all_done (labels_of self.now) self.now.work device 0 counts.now }
    {
        self.work.keeps();
        self.work.all_reached(device, counts)
    }

    /// Where directives are accepted.
    pub(crate) fn place(&self) -> &Place
        ensures config { result.now.config ≡ self.now.config }
        ensures history { result.now.history ≡ self.now.history }
        ensures counts { result.now.counts ≡ self.now.counts }
    {
        &self.place
    }

    /// How many batches a queue has taken.
    pub(crate) fn taken(&self, at: QueueAt) -> u64
        ensures { result ≡ taken_by self.now at }
    {
        let QueueAt { device, queue } = at;
        if !self.place.config().has_queue(QueueAt { device, queue }) {
            return 0;
        }
        self.work.keeps();
        let held = self.queues[QueueAt { device, queue }.seat()].len();
        self.place.placed_count(at) - held as u64
    }

    /// How many operations are left of the batches that a queue has taken.
    pub(crate) fn ops_left(&self, at: QueueAt) -> usize
        ensures { result ≡ length (left_there self.now at) }
    {
        let QueueAt { device, queue } = at;
        if !self.place.config().has_queue(QueueAt { device, queue }) {
            return 0;
        }
        self.work.keeps();
        self.work.ops_left(at)
    }

    /// The operation that a queue performs next, of the batches that it has taken.
    pub(crate) fn next_op(&self, at: QueueAt) -> Option<&OpLabel>
        ensures { option_map (λ op. op.now) result ≡ next_by self.now at }
    {
        let QueueAt { device, queue } = at;
        if !self.place.config().has_queue(QueueAt { device, queue }) {
            return None;
        }
        self.work.keeps();
        let left = self.work.ops_left(QueueAt { device, queue });
        match self.work.last_taken(at) {
            None => None,
            Some(label) => {
                let ops = label.ops.get().as_slice();
                op_at(ops, ops.len() - left)
            }
        }
    }

    /// Whether a queue can take a batch or perform an operation.
    pub(crate) fn enabled(&self, at: QueueAt) -> bool
        ensures { result ≡ is_enabled self.now at }
    {
        let QueueAt { device, queue } = at;
        if !self.place.config().has_queue(QueueAt { device, queue }) {
            return false;
        }
        self.work.keeps();
        if self.work.lane_empty(QueueAt { device, queue }) {
            return self.queues[QueueAt { device, queue }.seat()].len() > 0;
        }
        self.work.goes_on(QueueAt { device, queue })
    }

    /// Whether an operation was placed and isn't performed.
    pub(crate) fn any_left(&self) -> bool
        ensures left { result ≡ is_left self.now }
        ensures enabled { IsTrue result → SomeEnabled self.now }
    {
        self.work.keeps();
        self.unfinished > 0
    }

    /// The place, and the work side.
    pub(crate) fn into_parts(self) -> (Place, Work)
        ensures config { result.0.config ≡ self.config }
        ensures history { result.0.history ≡ self.history }
        ensures counts { result.0.counts ≡ self.counts }
        ensures work { result.1.work ≡ self.work }
    {
        let Accelerator { place, work, .. } = self;
        (place, work)
    }
}

// The operation with this index.
fn op_at(ops: &[OpLabel], index: usize) -> Option<&OpLabel>
    ensures { option_map (λ op. op.now) result ≡ slice_get ops.now index }
{
    ops.get(index)
}

impl Engine for Accelerator {
    ghost use Rattle.std.specs.Prelude.{◌≡◌, ◌<◌};
    ghost use Rattle.acc_base.specs.declared.config.TheConstants.{MAX_HOSTS};
    ghost use Rattle.acc_core.specs.inner.Answers.{Makes};
    ghost use Rattle.acc_core.specs.Legality.{host_entries};

    ghost devices = { λ w. w.config.devices };

    ghost serves = { λ w h. h < MAX_HOSTS };

    ghost entries = { host_entries };

    ghost makes = { Makes };

    fn place(&mut self, host: HostId, directive: &Directive) -> Result<Placed, Fault> {
        self.keeps();
        self.accept(host, directive)
    }

    fn wait_for(
        &mut self,
        host: HostId,
        device: DeviceId,
        counts: QueueCounts,
    ) -> Result<bool, Fault> {
        self.keeps();
        self.see(host, device, counts)
    }

    fn item(&mut self, host: HostId, item: Item) -> Result<Shown, (Item, Fault)> {
        self.keeps();
        self.record(host, item)
    }

    fn ask(&self) -> u8 {
        self.config().devices()
    }
}
