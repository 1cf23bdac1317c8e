//! Whether the next operation of a queue can be performed.

ghost use Rattle.std.specs.Prelude.{◌≡◌, ◌<◌, All, length, ◌&&◌, IsTrue, ◌↔◌};
ghost use Rattle.acc_base.specs.Queues.{seat};
ghost use Rattle.acc_base.specs.declared.config.TheConstants.{MAX_HOSTS};
ghost use Rattle.acc_work.specs.Jobs.{IsOut};
ghost use Rattle.acc_work.specs.Lanes.{last_of};
ghost use Rattle.acc_work.specs.Logs.{await_allows, host_allows};
ghost use Rattle.acc_batch.specs.Ops.{op_label};
ghost use Rattle.acc_memory.specs.Memories.{finds_blocks, held_blocks};
ghost use Rattle.acc_work.specs.Works.{lane_at, taken_labels, HasQueue, goes_on, is_live, is_new, can_go};

use crate::job::{JobOut, has_job};
use crate::lane::Lane;
use crate::work::Work;
use acc_base::{DeviceId, QueueAt};
use acc_batch::Op;

impl Work {
    // Whether a job is the one that is out of its lane.
    pub(crate) fn is_out(&self, job: &JobOut) -> bool
        ensures out { IsTrue result ↔ IsOut self.now job.now }
        ensures there { IsTrue result
            → (seat job.now.at < length self.now.lanes) × HasQueue self.now job.now.at }
    {
        self.keeps();
        match self.lane(job.at) {
            None => false,
            Some(lane) => lane.is_out() && has_job(lane, job),
        }
    }

    // Whether the next operation of a queue can be performed now: it goes on, and uses live blocks.
    pub(crate) fn can_go(&self, at: QueueAt) -> bool
        ensures can { result ≡ can_go self.now at (lane_at self.now at).left }
        ensures there { IsTrue result → (seat at < length self.now.lanes) × HasQueue self.now at }
    {
        let QueueAt { device, queue } = at;
        self.goes_on(QueueAt { device, queue }) && self.is_live(QueueAt { device, queue })
    }

    /// Whether the next operation of a queue goes on: there is one in its lane that isn't out, what it awaits is performed, and
    /// the host of its batch has the items that stand before it.
    pub fn goes_on(&self, at: QueueAt) -> bool
        ensures goes { result ≡ goes_on self.now at (lane_at self.now at).left }
        ensures there { IsTrue result → (seat at < length self.now.lanes) × HasQueue self.now at }
    {
        self.keeps();
        let device = at.device;
        match self.lane(at) {
            None => false,
            Some(lane) => match lane.first() {
                None => false,
                Some(op) => {
                    !lane.is_out() && self.await_allows(device, op) && self.host_allows(lane)
                }
            },
        }
    }

    /// Whether the next operation of a queue's lane uses live blocks: what it makes was never made, and lies in its array; what
    /// it copies, releases or uses is there.
    pub fn is_live(&self, at: QueueAt) -> bool
        ensures { result ≡ is_live self.now at (lane_at self.now at).left }
    {
        let device = at.device;
        match self.lane(at) {
            None => false,
            Some(lane) => match lane.first() {
                None => false,
                Some(op) => self.uses_live(device, op),
            },
        }
    }

    // Whether an operation uses live blocks. The one that it makes isn't looked for among those that are there: what was never made
    // isn't.
    fn uses_live(&self, device: DeviceId, op: &Op) -> bool
        requires { device < length self.now.memory.devices }
        ensures { result ≡ (finds_blocks (held_blocks self.now.memory device) (op_label op.now)
            && is_new self.now device (op_label op.now)) }
    {
        self.keeps();
        match op {
            Op::Make { block, .. } => {
                let block = block.value();
                !self.memory.was_made(device, block.block) && self.memory.has_range(block.range)
            }
            Op::CopyIn { .. } | Op::CopyOut { .. } | Op::Release { .. } | Op::Run { .. } => self
                .memory
                .finds_blocks(device, op),
            Op::Await { .. } | Op::Close => true,
        }
    }

    // Whether what an operation awaits on its device is performed.
    fn await_allows(&self, device: DeviceId, op: &Op) -> bool
        ensures { result ≡ await_allows (taken_labels self.now) self.now.work device
            (op_label op.now) }
    {
        match op {
            Op::Await { queue, number } => {
                let awaited = QueueAt {
                    device,
                    queue: *queue,
                };
                self.reached(awaited, *number)
            }
            _ => true,
        }
    }

    // Whether the host of the last batch of a lane has the items that stand before it.
    fn host_allows(&self, lane: &Lane) -> bool
        requires { All (λ l. l.host < MAX_HOSTS) lane.now.taken }
        ensures { result ≡ host_allows (last_of lane.now.taken) self.now.work }
    {
        match lane.last() {
            None => false,
            Some(label) => label.items_done <= self.items_of(label.host),
        }
    }
}
