//! What the work lock holds: a work side, and the end of each queue that takes.

ghost use Rattle.std.specs.Prelude.{Bool, replicate, slice_index, ◌≡◌, ◌<◌, ◌^◌, IfOk, IfErr, IfSome, IfNone, OnOk, OnErr, Some, Ok, None, true, false, [], length, IsTrue, ◌↔◌, ◌==◌};
ghost use Rattle.std.specs.Option.{option_map};
ghost use Rattle.acc_base.specs.Faults.{OnlyMemory};
ghost use Rattle.acc_base.specs.declared.config.TheConstants.{MAX_HOSTS};
ghost use Rattle.acc_base.specs.declared.ids.QueueAt.{QueueAt};
ghost use Rattle.acc_base.specs.Queues.{queue_count, seat};
ghost use Rattle.acc_batch.specs.Ops.{first_loop};
ghost use Rattle.acc_host.specs.Engines.{MayRecord};
ghost use Rattle.acc_queue.specs.Seen.{HasWord};
ghost use Rattle.acc_run.specs.WorkSides.{AreEnds, HasComeBack, HasGoneOut, HasTaken, HasLogged, Goes, IsLine, IsStray, are_a_close, is_ended, line_in, queue_number, number_left, published_by, raised_by};
ghost use Rattle.acc_work.specs.declared.item.ItemLabel.TheVariants as to_record;
ghost use Rattle.acc_work.specs.declared.item.Shown.TheVariants as shown;
ghost use Rattle.acc_work.specs.Items.{has_cells};
ghost use Rattle.acc_work.specs.Jobs.{Commits, IsOut, StartsLoop, TakesRoom};
ghost use Rattle.acc_work.specs.Logs.{all_done, batches_done};
ghost use Rattle.acc_work.specs.Kept.{IsKept};
ghost use Rattle.acc_work.specs.Remembering.{Remembers};
ghost use Rattle.acc_work.specs.Works.{HasQueue, KeepsOrder, Performs, lane_at, taken_labels, item_fault};
ghost use Rattle.acc_work.specs.Lanes.{awaited_next};

use acc_base::{Config, DeviceId, Fault, HostId, QUEUES, QueueAt, QueueCounts, QueueId};
use acc_batch::OpLabel;
use acc_kernel::Job;
use acc_queue::{Publisher, Taker};
use acc_work::{Ahead, Done, Item, JobOut, Shown, Work};
use std::alloc::Global;
use std::marker::Model;
use std::sync::Wait;

/// The most batches that a queue takes, so that its number can always be raised.
const MAX_BATCHES: u64 = 4_611_686_018_427_387_903;

/// The work side, with the end of each queue that takes, and the end that publishes what they have performed.
#[derive(Drop)]
pub struct WorkSide {
    alloc: Global,
    config: Config,
    work: Work,
    // by device, then in queue order
    takers: Vec<Taker>,
    // of each queue how many batches it has performed, for those who read it without the lock
    progress: Publisher,
}

impl Model for WorkSide {
    ghost use Rattle.std.specs.Coded.{codes};
    ghost use Rattle.acc_kernel.specs.contracts.expr.Expr as expr;
    ghost use Rattle.acc_run.specs.WorkSides.{WorkSideView, IsPublished, IsWorkSide};

    ghost Value = { WorkSideView };

    ghost coded = { Prim.hlevel (codes, expr.the_row.coded) };

    ghost view = { λ s. record { config = s.config; work = s.work; lines = s.takers.items; progress = s.progress } };

    ghost invariant = { λ s. IsWorkSide s.config s.work s.takers.items × IsPublished s.work s.progress.numbers };
}

impl WorkSide {
    /// What holds of every work side: it is of its configuration, the log keeps what every log does against the batches that were
    /// taken, the memory shows it, each lane was offered what the end of its queue has taken, and of each queue is published how many
    /// batches it has performed.
    pub fn keeps(&self)
        ensures arrays { self.now.work.arrays ≡ self.now.config.arrays }
        ensures devices { length self.now.work.memory.devices ≡ self.now.config.devices }
        ensures kept { IsKept self.now.work.arrays (taken_labels self.now.work) self.now.work.work }
        ensures memory { Remembers self.now.work.arrays self.now.work.work self.now.work.memory }
        ensures order { KeepsOrder self.now.work }
        ensures lines { (at : QueueAt) → IsLine self.now.work at (line_in self.now.lines at) }
        ensures progress { (at : QueueAt)
            → queue_number self.now.progress.numbers at
            ≡ batches_done (taken_labels self.now.work) self.now.work.work at }
    {
        self.work.keeps();
        let _ = &self.takers;
    }

    /// Nothing is taken, performed or shown yet. The ends are those of the queues, which have taken nothing, and each number is 0.
    ///
    /// # Errors
    ///
    /// `Memory` where memory is refused.
    pub fn new(
        alloc: Global,
        config: &Config,
        takers: Vec<Taker>,
        progress: Publisher,
    ) -> Result<Self, Fault>
        requires ends { AreEnds config.now takers.items }
        requires numbers { progress.numbers ≡ replicate (queue_count config.now) 0 }
        ensures config { IfOk result (λ s. s.config ≡ config.now) }
        ensures arrays { IfOk result (λ s. s.work.arrays ≡ config.now.arrays) }
        ensures devices { IfOk result (λ s. length s.work.memory.devices ≡ config.now.devices) }
        ensures work { IfOk result (λ s. s.work.work ≡ []) }
        ensures lines { IfOk result (λ s. s.lines ≡ takers.items) }
        ensures progress { IfOk result (λ s. s.progress ≡ progress) }
        ensures fault { OnlyMemory result }
    {
        config.keeps();
        let copy = config.try_clone()?;
        let work = Work::new(alloc, config)?;
        work.keeps();
        Ok(WorkSide {
            alloc,
            config: copy,
            work,
            takers,
            progress,
        })
    }

    /// The configuration that it was made for.
    pub(crate) fn config(&self) -> &Config
        ensures { result.now ≡ self.now.config }
    {
        &self.config
    }

    /// The work, without the ends of the queues.
    pub(crate) fn as_work(&self) -> &Work
        ensures { result.now ≡ self.now.work }
    {
        &self.work
    }

    /// The work itself, and the allocator that it was made with.
    pub(crate) fn into_work(self) -> (Global, Work)
        ensures { result.1 ≡ self.work }
    {
        let WorkSide { alloc, work, .. } = self;
        (alloc, work)
    }

    /// Whether there is such a queue.
    pub fn has_queue(&self, at: QueueAt) -> bool
        ensures { IsTrue result ↔ HasQueue self.now.work at }
    {
        self.work.keeps();
        at.queue.number() < QUEUES && at.seat() < self.takers.len()
    }

    /// The number of the batch of which something is left in a queue's lane.
    pub fn in_lane(&self, at: QueueAt) -> Option<u64>
        ensures { result ≡ number_left (lane_at self.now.work at) }
    {
        let QueueAt { device, queue } = at;
        if self.work.lane_empty(QueueAt { device, queue }) {
            return None;
        }
        match self.work.last_taken(QueueAt { device, queue }) {
            None => None,
            Some(label) => Some(label.number),
        }
    }

    /// Whether a queue has performed its close.
    pub fn is_closed(&self, at: QueueAt) -> bool
        ensures { result ≡ is_ended (lane_at self.now.work at) }
    {
        let QueueAt { device, queue } = at;
        if !self.work.lane_empty(QueueAt { device, queue }) {
            return false;
        }
        match self.work.last_taken(QueueAt { device, queue }) {
            None => false,
            Some(label) => closes(label.ops.get().as_slice()),
        }
    }

    /// A queue takes the first batch that it holds, if nothing is left of the one before it, and answers its number. Behind
    /// `MAX_BATCHES` it takes none. It takes no memory.
    pub fn take<R: Wait>(&mut self, rt: &R, at: QueueAt) -> Option<u64>
        requires queue { HasQueue self.old.work at }
        ensures taken { IfSome result (λ number. HasTaken self.old self.new at number) }
        ensures none { IfNone result (self.new ≡ self.old) }
    {
        let QueueAt { device, queue } = at;
        self.work.keeps();
        if !self.work.lane_empty(QueueAt { device, queue }) {
            return None;
        }
        if self.work.reached(QueueAt { device, queue }, MAX_BATCHES) {
            return None;
        }
        let seat = QueueAt { device, queue }.seat();
        match self.takers[seat].pop(rt) {
            None => None,
            Some(batch) => {
                let number = batch.label().number;
                self.work.keeps();
                self.work.offer(QueueAt { device, queue }, batch);
                self.work.keeps();
                Some(number)
            }
        }
    }

    /// A queue performs the next operation of its lane, if what it awaits is performed, its host's items allow it, and it uses live
    /// blocks. Behind the last operation of a batch its number is raised. It takes no memory.
    pub fn perform(&mut self, at: QueueAt) -> Done
        requires queue { HasQueue self.old.work at }
        ensures { Goes self.old at result self.new }
    {
        self.work.keeps();
        perform_and_publish(&mut self.work, &mut self.progress, at)
    }

    /// What the next operation of a queue's lane awaits, if it is an await.
    pub fn awaited(&self, at: QueueAt) -> Option<(QueueId, u64)>
        ensures { result ≡ awaited_next (lane_at self.now.work at).left }
    {
        self.work.awaited(at)
    }

    /// The first loop among what is left in a queue's lane, if there is one and it can be shared.
    pub fn ahead(&self, at: QueueAt) -> Option<Ahead>
        ensures { IfSome result (λ a. first_loop (lane_at self.now.work at).left ≡ Some a) }
    {
        self.work.ahead(at)
    }

    /// Takes the next operation of a queue out, to be computed with no lock held, where it is a loop that `perform` would perform: with
    /// its inputs, in the room, if this is for it. Until it comes back the queue performs nothing. It takes no memory.
    pub fn start_job(&mut self, at: QueueAt, room: &mut Option<Box<Job>>) -> Option<JobOut>
        requires queue { HasQueue self.old.work at }
        ensures started { IfSome result (λ job. HasGoneOut self.old self.new at job) }
        ensures room { IfSome result (λ job.
            TakesRoom (option_map (λ b. b.value) room.old)
            (lane_at self.old.work at).left job.job) }
        ensures none { IfNone result ((self.new ≡ self.old) × (StartsLoop self.old.work at → ⊥)) }
    {
        self.work.keeps();
        let job = self.work.start_job(at, room);
        self.work.keeps();
        job
    }

    /// Performs the loop of a job that is out, as `perform` would now, and gives its room back. Where a block that it uses isn't live
    /// any more, its lane has it back. Behind the last operation of a batch the queue's number is raised. It takes no memory.
    ///
    /// # Errors
    ///
    /// The job, where it isn't out; then nothing changes.
    pub fn commit_job(&mut self, job: JobOut) -> Result<Option<Box<Job>>, JobOut>
        requires queue { HasQueue self.old.work job.at }
        ensures back { OnOk result (HasComeBack self.old self.new job) }
        ensures stray { IfErr result (λ stray. (stray ≡ job) × IsStray self.old self.new job) }
    {
        self.work.keeps();
        commit_and_publish(&mut self.work, &mut self.progress, job)
    }

    /// Records an item of a host, any but a Seen, and answers a test. An item that is refused comes back.
    ///
    /// # Errors
    ///
    /// `Memory` for want of memory, `TooMany` behind the last item of a run, `BadRange` for cells that aren't there.
    pub fn item(&mut self, host: HostId, item: Item) -> Result<Shown, (Item, Fault)>
        requires host { host < MAX_HOSTS }
        requires item { MayRecord item }
        ensures told { IfOk result (λ shown. HasLogged self.old self.new host item shown) }
        ensures back { IfErr result (λ r. r.0 ≡ item) }
        ensures kept { OnErr result (self.new ≡ self.old) }
        ensures fault { IfErr result (λ r. (lacks : Bool)
            × (item_fault lacks self.old.work.work (has_cells self.old.work.arrays item)
            ≡ Some r.1)) }
    {
        self.work.tell(self.alloc, host, item)
    }

    /// Records that each queue of a device has performed so many batches, if it has.
    ///
    /// # Errors
    ///
    /// `Memory` for want of memory, `TooMany` behind the last item of a run.
    pub fn see(
        &mut self,
        host: HostId,
        device: DeviceId,
        counts: QueueCounts,
    ) -> Result<bool, Fault>
        requires host { host < MAX_HOSTS }
        ensures seen { result ≡ Ok true
            → HasLogged self.old self.new host (to_record.Seen device counts) shown.Nothing }
        ensures not_yet { result ≡ Ok false
            → (self.new ≡ self.old)
            × (all_done (taken_labels self.old.work) self.old.work.work device 0 counts ≡ false) }
        ensures kept { OnErr result (self.new ≡ self.old) }
        ensures fault { IfErr result (λ f. (lacks : Bool)
            × (item_fault lacks self.old.work.work true ≡ Some f)) }
    {
        self.work.see(self.alloc, host, device, counts)
    }
}

// Performs the next operation of a queue's lane, and raises the queue's number where that was the last of its batch.
fn perform_and_publish(work: &mut Work, progress: &mut Publisher, at: QueueAt) -> Done
    requires there { HasWord progress.old.numbers at }
    requires few { slice_index progress.old.numbers (seat at) < 2 ^ 62 }
    ensures performs { Performs work.old at result work.new }
    ensures order { KeepsOrder work.new }
    ensures progress { progress.new
        ≡ published_by result (lane_at work.new at).left progress.old at }
{
    let QueueAt { device, queue } = at;
    let done = work.perform(QueueAt { device, queue });
    if done == Done::Op {
        publish(work, progress, QueueAt { device, queue });
    }
    work.keeps();
    done
}

// Performs the loop of a job that is out, and raises its queue's number where that was the last of its batch.
fn commit_and_publish(
    work: &mut Work,
    progress: &mut Publisher,
    job: JobOut,
) -> Result<Option<Box<Job>>, JobOut>
    requires there { HasWord progress.old.numbers job.at }
    requires few { slice_index progress.old.numbers (seat job.at) < 2 ^ 62 }
    ensures committed { OnOk result (IsOut work.old job × Commits work.old work.new job.at) }
    ensures progress { OnOk result
        (progress.new ≡ raised_by (lane_at work.new job.at).left progress.old job.at) }
    ensures back { IfErr result (λ back. (back ≡ job) × (work.new ≡ work.old)
        × (progress.new ≡ progress.old) × ¬ IsOut work.old job) }
    ensures order { KeepsOrder work.new }
{
    let QueueAt { device, queue } = job.queue();
    let done = work.commit_job(job);
    if done.is_ok() {
        publish(work, progress, QueueAt { device, queue });
    }
    work.keeps();
    done
}

// Raises the number of a queue that has performed an operation, where nothing is left of the batch.
fn publish(work: &Work, progress: &mut Publisher, at: QueueAt)
    requires there { HasWord progress.old.numbers at }
    requires few { slice_index progress.old.numbers (seat at) < 2 ^ 62 }
    ensures { progress.new ≡ raised_by (lane_at work.now at).left progress.old at }
{
    let QueueAt { device, queue } = at;
    if work.lane_empty(QueueAt { device, queue }) {
        progress.raise(QueueAt { device, queue });
    }
}

// Whether these are the operations of a close.
fn closes(ops: &[OpLabel]) -> bool
    ensures { result ≡ are_a_close ops.now }
{
    match ops {
        [OpLabel::Close] => true,
        _ => false,
    }
}
