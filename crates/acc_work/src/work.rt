//! The memory, the log, and a lane for each queue of each device.

ghost use Rattle.std.specs.Prelude.{ℕ, ◌≡◌, ◌+◌, ◌<◌, ◌≤◌, ◌==◌, nat_le, All, [], length, drop, ◌++◌, is_some, IfOk, IfErr, IfSome, OnSome, IfNone, OnOk, IsTrue, ◌↔◌, Some, reverse};
ghost use Rattle.std.specs.Option.{option_map};
ghost use Rattle.acc_base.specs.Faults.{OnlyMemory};
ghost use Rattle.acc_base.specs.Queues.{queue_count, seat};
ghost use Rattle.acc_base.specs.Configurations.{has_range};
ghost use Rattle.acc_base.specs.declared.config.TheConstants.{MAX_CELLS, MAX_HOSTS};
ghost use Rattle.acc_base.specs.declared.ids.TheConstants.{QUEUES};
ghost use Rattle.acc_work.specs.declared.log.TheConstants.{MAX_HOST_ITEMS};
ghost use Rattle.acc_work.specs.Jobs.{StartsLoop, TakesRoom, HasStarted, IsOut, Commits};
ghost use Rattle.acc_work.specs.Kept.{IsKept};
ghost use Rattle.acc_work.specs.Lanes.{IsFresh, awaited_next, lane_with_batch, last_of, lanes_with, no_lane};
ghost use Rattle.acc_work.specs.Logs.{items_of, all_items, batches_done, all_done, value};
ghost use Rattle.acc_work.specs.Remembering.{Remembers, blocks_in};
ghost use Rattle.acc_batch.specs.Labels.{on_queue};
ghost use Rattle.acc_batch.specs.Ops.{first_loop, op_label};
ghost use Rattle.acc_memory.specs.Memories.{IsAllowed, PerformsOn, find_block, has_cell, rows_on};
ghost use Rattle.acc_memory.specs.Values.{Block_cell, Host_cell};
ghost use Rattle.acc_work.specs.Works.{lane_at, taken_labels, HasQueue, Performs, KeepsOrder};

use crate::ahead::Ahead;
use crate::job::{JobOut, commit_on, start_on};
use crate::lane::Lane;
use crate::log::{Log, MAX_HOST_ITEMS};
use crate::work_log::WorkLog;
use acc_base::{
    BlockId, Config, DeviceId, Fault, HostId, QUEUES, QueueAt, QueueCounts, QueueId, Range,
};
use acc_batch::{Batch, Label, Op, OpLabel};
use acc_kernel::Job;
use acc_memory::Memory;
use std::alloc::Global;
use std::marker::Model;
use std::snapshot::Snapshot;

/// Whether an operation was performed.
#[derive(Clone, Copy, Debug, PartialEq, Eq)]
pub enum Done {
    Op,
    Idle,
}

/// The work side: the memory, the log of what was done, and a lane for each queue of each device.
#[derive(Drop)]
pub struct Work {
    // what the host arrays were at first: a contract's alone, and no bytes
    opening: Snapshot<Config>,
    pub(crate) memory: Memory,
    pub(crate) log: Log,
    // by device, then in queue order
    pub(crate) lanes: Vec<Lane>,
}

impl Model for Work {
    ghost use Rattle.std.specs.Coded.{codes};
    ghost use Rattle.acc_kernel.specs.contracts.expr.Expr as expr;
    ghost use Rattle.acc_work.specs.Works.{WorkView, IsWork};

    ghost Value = { WorkView };

    ghost coded = { Prim.hlevel (codes, expr.the_row.coded) };

    ghost view = { λ w. record { arrays = w.opening.value.arrays; memory = w.memory; work = w.log.work; lanes = w.lanes.items } };

    ghost invariant = { λ w. IsWork (record { arrays = w.opening.value.arrays; memory = w.memory; work = w.log.work; lanes = w.lanes.items }) w.log.free w.log.unclaimed };
}

impl Work {
    /// Nothing is taken, performed or shown yet.
    ///
    /// # Errors
    ///
    /// `Memory` where memory is refused.
    pub fn new(alloc: Global, config: &Config) -> Result<Work, Fault>
        ensures opening { IfOk result (λ w. w.arrays ≡ config.now.arrays) }
        ensures arrays { IfOk result (λ w. w.memory.arrays ≡ config.now.arrays) }
        ensures devices { IfOk result (λ w. length w.memory.devices ≡ config.now.devices) }
        ensures rows { IfOk result (λ w. (d : ℕ) → rows_on w.memory d ≡ []) }
        ensures work { IfOk result (λ w. w.work ≡ []) }
        ensures lanes { IfOk result (λ w. All IsFresh w.lanes) }
        ensures fault { OnlyMemory result }
    {
        config.keeps();
        let memory = Memory::new(alloc, config)?;
        let log = Log::new(alloc)?;
        let lanes = lanes_of(alloc, config)?;
        let opening = Snapshot::of(config);
        Ok(Work {
            opening,
            memory,
            log,
            lanes,
        })
    }

    // Whether the run has as many items as it may have.
    pub(crate) fn is_full_of_items(&self) -> bool
        ensures { result ≡ nat_le MAX_HOST_ITEMS (all_items self.now.work) }
    {
        self.items() >= MAX_HOST_ITEMS
    }

    /// Each host array of every work side has a cell, and no more than an array may have. It keeps the order of its queues. Its
    /// log keeps, against the batches that were taken, what every log does: each operation stands behind all that it awaits and
    /// behind its host's items, and uses live blocks, and each item shows what is so. The memory has the values that the log gives
    /// over the opening ones, and the blocks that it left.
    pub fn keeps(&self)
        ensures limits { All (λ cells. (1 ≤ length cells) × (length cells ≤ MAX_CELLS)) self.now.arrays }
        ensures order { KeepsOrder self.now }
        ensures kept { IsKept self.now.arrays (taken_labels self.now) self.now.work }
        ensures memory { Remembers self.now.arrays self.now.work self.now.memory }
    {
        let _ = &self.log;
    }

    // The lane of a queue, if the queue is there.
    pub(crate) fn lane(&self, at: QueueAt) -> Option<&Lane>
        ensures lane { IfSome result (λ lane. lane.now ≡ lane_at self.now at) }
        ensures there { OnSome result ((seat at < length self.now.lanes) × HasQueue self.now at) }
        ensures none { IfNone result (lane_at self.now at ≡ no_lane) }
    {
        if at.queue.number() >= QUEUES {
            return None;
        }
        self.lanes.get(at.seat())
    }

    /// Whether nothing is left of the batches that a queue took.
    pub fn lane_empty(&self, at: QueueAt) -> bool
        ensures { result ≡ (length (lane_at self.now at).left == 0) }
    {
        match self.lane(at) {
            None => true,
            Some(lane) => lane.ops_left() == 0,
        }
    }

    /// How many operations are left of the batches that a queue took.
    pub fn ops_left(&self, at: QueueAt) -> usize
        ensures { result ≡ length (lane_at self.now at).left }
    {
        match self.lane(at) {
            None => 0,
            Some(lane) => lane.ops_left(),
        }
    }

    /// The last batch that a queue took, by its label.
    pub fn last_taken(&self, at: QueueAt) -> Option<&Label>
        ensures { option_map (λ l. l.now) result ≡ last_of (lane_at self.now at).taken }
    {
        match self.lane(at) {
            None => None,
            Some(lane) => lane.last(),
        }
    }

    /// Whether the labels of the batches that a queue took stand first among these, in this order. It takes no memory.
    pub fn took_first(&self, at: QueueAt, labels: &[Label]) -> bool
        ensures { IsTrue result
            ↔ labels.now
            ≡ on_queue at (taken_labels self.now)
            ++ drop (length (on_queue at (taken_labels self.now))) labels.now }
    {
        self.keeps();
        match self.lane(at) {
            None => true,
            Some(lane) => lane.took_first(labels),
        }
    }

    /// Those of some labels that stand behind as many as a queue took.
    pub fn behind_taken<'a>(&self, at: QueueAt, labels: &'a [Label]) -> &'a [Label]
        ensures { result.now ≡ drop (length (on_queue at (taken_labels self.now))) labels.now }
    {
        self.keeps();
        match self.lane(at) {
            None => labels,
            Some(lane) => lane.behind_taken(labels),
        }
    }

    /// Whether a queue has performed so many batches.
    pub fn reached(&self, at: QueueAt, count: u64) -> bool
        ensures { result ≡ nat_le count (batches_done (taken_labels self.now) self.now.work at) }
    {
        self.keeps();
        match self.lane(at) {
            None => count == 0,
            Some(lane) => lane.reached(count),
        }
    }

    /// Whether each queue of a device has performed its count of batches.
    pub fn all_reached(&self, device: DeviceId, counts: &QueueCounts) -> bool
        ensures { result ≡ all_done (taken_labels self.now) self.now.work device 0 counts.now }
    {
        self.reached_from(device, 0, counts.as_slice())
    }

    // Whether each queue of a device, from this one on, has performed its count.
    fn reached_from(&self, device: DeviceId, queue: u8, counts: &[u64]) -> bool
        requires { queue + length counts.now ≤ QUEUES }
        ensures { result ≡ all_done (taken_labels self.now) self.now.work device queue counts.now }
    {
        match counts {
            [] => true,
            [count, rest @ ..] => {
                let at = QueueAt {
                    device,
                    queue: QueueId::new(queue),
                };
                (*count == 0 || self.reached(at, *count))
                    && self.reached_from(device, queue + 1, rest)
            }
        }
    }

    /// How many items all hosts have.
    pub fn items(&self) -> u64
        ensures { result ≡ all_items self.now.work }
    {
        self.log.all_items()
    }

    /// How many items a host has.
    pub fn items_of(&self, host: HostId) -> u64
        requires { host < MAX_HOSTS }
        ensures { result ≡ items_of host self.now.work }
    {
        self.log.items_of(host)
    }

    /// The log, the first entry first.
    pub fn log(&self) -> &WorkLog
        ensures { result.now.items ≡ reverse self.now.work }
    {
        self.log.entries()
    }

    /// What a cell of a host array holds, if the array has it: what the log last wrote there, or its opening value.
    pub fn host_cell(&self, array: u8, cell: u32) -> Option<i64>
        ensures there { is_some result
            ≡ has_range self.now.arrays (record { array = array; lo = cell; len = 1 }) }
        ensures value { IfSome result (λ x.
            x ≡ value self.now.arrays self.now.work (Host_cell array cell)) }
    {
        self.keeps();
        let range = Range {
            array,
            lo: cell,
            len: 1,
        };
        if self.memory.has_range(range) {
            Some(self.memory.host_get(array, cell))
        } else {
            None
        }
    }

    /// What a cell of a block holds, if the block is there on the device and has the cell: what the log last wrote there. It is named by
    /// its number in the host array.
    pub fn block_cell(&self, device: DeviceId, block: BlockId, cell: u32) -> Option<i64>
        ensures there { is_some result
            ≡ has_cell (find_block (blocks_in device self.now.work) block) cell }
        ensures value { IfSome result (λ x.
            x ≡ value self.now.arrays self.now.work (Block_cell device block cell)) }
    {
        self.keeps();
        self.memory.block_cell(device, block, cell)
    }

    /// A queue takes a batch, whose lane is empty, by `lane_empty`. It takes no memory; a page that the log doesn't need is freed.
    // Inlined, so that the batch is not moved.
    #[inline(always)]
    pub fn offer(&mut self, at: QueueAt, batch: Batch)
        requires queue { HasQueue self.old at }
        requires place { batch.at ≡ at }
        requires host { batch.host < MAX_HOSTS }
        requires filled { 0 < length batch.ops }
        requires empty { length (lane_at self.old at).left ≤ 0 }
        ensures { self.new ≡ record self.old {
          lanes = lanes_with self.old.lanes at
              (lane_with_batch (lane_at self.old at) batch);
        } }
    {
        let (label, ops, page) = batch.into_parts();
        self.log.claim(ops.len(), page);
        self.lanes[at.seat()].offer(label, ops);
    }

    /// Performs the next operation of a queue's lane, if it isn't out, what it awaits is performed, its host's items allow it, and
    /// it uses live blocks. It takes no memory.
    pub fn perform(&mut self, at: QueueAt) -> Done
        ensures { Performs self.old at result self.new }
    {
        let QueueAt { device, queue } = at;
        if !self.can_go(QueueAt { device, queue }) {
            return Done::Idle;
        }
        let seat = QueueAt { device, queue }.seat();
        match self.lanes[seat].next() {
            None => Done::Idle,
            Some(op) => {
                let what = perform_on(&mut self.memory, device, op);
                let at = QueueAt { device, queue };
                self.log.push_op(at, what);
                Done::Op
            }
        }
    }

    /// The first loop among what is left in a queue's lane, if there is one and it can be shared.
    pub fn ahead(&self, at: QueueAt) -> Option<Ahead>
        ensures { IfSome result (λ a. first_loop (lane_at self.now at).left ≡ Some a) }
    {
        self.lane(at)?.ahead()
    }

    /// What the next operation of a queue's lane awaits, if it is an await: a queue of its device, and the number of a batch.
    pub fn awaited(&self, at: QueueAt) -> Option<(QueueId, u64)>
        ensures { result ≡ awaited_next (lane_at self.now at).left }
    {
        match self.lane(at)?.first()? {
            Op::Await { queue, number } => Some((*queue, *number)),
            _ => None,
        }
    }

    /// Takes the next operation of a queue out, to be computed while others have the work side, where it is a loop that `perform`
    /// would perform: with its inputs, in the room, if this is for it. Until it comes back, `perform` doesn't go on with its queue.
    /// It takes no memory.
    pub fn start_job(&mut self, at: QueueAt, room: &mut Option<Box<Job>>) -> Option<JobOut>
        ensures started { IfSome result (λ job. HasStarted self.old self.new at job) }
        ensures room { IfSome result (λ job.
            TakesRoom (option_map (λ b. b.value) room.old) (lane_at self.old at).left job.job) }
        ensures none { IfNone result ((self.new ≡ self.old) × ¬ StartsLoop self.old at) }
    {
        let QueueAt { device, queue } = at;
        let can = self.can_go(QueueAt { device, queue });
        if !can {
            return None;
        }
        let lane = &mut self.lanes[QueueAt { device, queue }.seat()];
        if !lane.has_loop_next() {
            return None;
        }
        start_on(&self.memory, device, queue, lane, room)
    }

    /// Performs the loop of a job that is out, as `perform` would now: by its outputs, where its inputs are still what the memory
    /// shows, and else anew. Where it uses a block that isn't live any more, its lane has it back. Gives its room back. It takes no
    /// memory.
    ///
    /// # Errors
    ///
    /// The job, where it isn't the one that is out of its lane; then nothing changes.
    pub fn commit_job(&mut self, job: JobOut) -> Result<Option<Box<Job>>, JobOut>
        ensures committed { OnOk result (IsOut self.old job × Commits self.old self.new job.at) }
        ensures back { IfErr result (λ back. (back ≡ job) × (self.new ≡ self.old)
            × ¬ IsOut self.old job) }
    {
        if !self.is_out(&job) {
            return Err(job);
        }
        let QueueAt { device, queue } = job.queue();
        let live = self.is_live(QueueAt { device, queue });
        let lane = &mut self.lanes[QueueAt { device, queue }.seat()];
        if !live {
            lane.put_back();
            return Ok(job.into_room());
        }
        match lane.next() {
            None => Ok(None),
            Some(op) => {
                let what = commit_on(&mut self.memory, device, op, &job);
                self.log.push_op(QueueAt { device, queue }, what);
                Ok(job.into_room())
            }
        }
    }

    /// The log, the latest entry last.
    pub fn into_log(self) -> WorkLog
        ensures { result.items ≡ reverse self.work }
    {
        let Work { log, .. } = self;
        log.into_entries()
    }
}

// So many lanes as there are queues, of which none took a batch.
fn lanes_of(alloc: Global, config: &Config) -> Result<Vec<Lane>, Fault>
    ensures count { IfOk result (λ lanes. length lanes.items ≡ queue_count config.now) }
    ensures fresh { IfOk result (λ lanes. All IsFresh lanes.items) }
    ensures fault { OnlyMemory result }
{
    let mut lanes = Vec::new(alloc);
    for _ in 0..config.queue_count() {
        lanes.push(Lane::new(alloc))?;
    }
    Ok(lanes)
}

// Performs an operation on a device, and gives its label back. What has no effect on the memory doesn't go there.
fn perform_on(memory: &mut Memory, device: DeviceId, op: Op) -> OpLabel
    requires device { device < length memory.old.devices }
    requires allowed { IsAllowed memory.old device op }
    ensures op { result ≡ op_label op }
    ensures performed { PerformsOn device (op_label op) memory.old memory.new }
{
    match op {
        Op::Await { queue, number } => OpLabel::Await { queue, number },
        Op::Close => OpLabel::Close,
        op => memory.do_op(device, op),
    }
}
