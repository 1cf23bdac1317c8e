//! A loop that was taken out of its lane, to be computed while others have the work side.

ghost use Rattle.std.specs.Prelude.{◌≡◌, ◌<◌, ◌↔◌, [], ◌∷◌, length, IfSome, IfNone, IsTrue, None, Some, true, false};
ghost use Rattle.std.specs.Option.{option_map};
ghost use Rattle.acc_batch.specs.Ops.{op_label};
ghost use Rattle.acc_kernel.specs.Jobs.{computed};
ghost use Rattle.acc_memory.specs.Memories.{IsAllowed, PerformsOn};
ghost use Rattle.acc_work.specs.Jobs.{IsJobNext, IsLoaded, TakesRoom, with_outputs};
ghost use Rattle.acc_work.specs.Lanes.{last_of, lane_with_out};
ghost use Rattle.acc_work.specs.inner.Jobs.{MayStart, HasJob, IsStarted};

use crate::lane::Lane;
use acc_base::{DeviceId, QueueAt, QueueId};
use acc_batch::{Op, OpLabel};
use acc_kernel::Job;
use acc_memory::Memory;
use std::marker::Model;

/// The next operation of a queue, a loop, taken out to be computed. Contracts see where it stands, and its computation, if
/// its worker had a room for it.
#[derive(Drop)]
pub struct JobOut {
    pub(crate) at: QueueAt,
    number: u64,
    // how many operations of the batch weren't performed, this one among them
    left: usize,
    job: Option<Box<Job>>,
    // whether its outputs are those of its inputs
    has_outputs: bool,
}

impl Model for JobOut {
    ghost use Rattle.std.specs.Prelude.{◌≡◌, true, IfSome};
    ghost use Rattle.std.specs.Coded.{codes};
    ghost use Rattle.std.specs.Option.{option_map};
    ghost use Rattle.acc_kernel.specs.contracts.expr.Expr as expr;
    ghost use Rattle.acc_kernel.specs.Jobs.{computed};
    ghost use Rattle.acc_work.specs.Jobs.{JobView};

    ghost Value = { JobView };

    ghost coded = { Prim.hlevel (codes, expr.the_row.coded) };

    ghost view = { λ j. record { at = j.at; number = j.number; left = j.left; job = option_map (λ b. b.value) j.job } };

    ghost invariant = { λ j. j.has_outputs ≡ true → IfSome j.job (λ b. b.value.outputs ≡ computed b.value) };
}

impl JobOut {
    /// Its queue.
    pub fn queue(&self) -> QueueAt
        ensures { result ≡ self.now.at }
    {
        self.at
    }

    /// The number of its batch.
    pub fn number(&self) -> u64
        ensures { result ≡ self.now.number }
    {
        self.number
    }

    /// Gives each output the value that the loop gives it over the inputs. It takes no memory.
    pub fn compute(&mut self)
        ensures { self.new ≡ record self.old { job = option_map with_outputs self.old.job } }
    {
        compute(&mut self.job);
        self.has_outputs = true;
    }

    // The computation, where its outputs were computed.
    fn computed(&self) -> Option<&Job>
        ensures job { IfSome result (λ j. self.now.job ≡ Some j.now) }
        ensures outputs { IfSome result (λ j. j.now.outputs ≡ computed j.now) }
    {
        match &self.job {
            Some(job) if self.has_outputs => Some(job),
            _ => None,
        }
    }

    /// The room that it was computed in, for another.
    pub(crate) fn into_room(self) -> Option<Box<Job>> {
        let JobOut { job, .. } = self;
        job
    }
}

fn compute(job: &mut Option<Box<Job>>)
    ensures job { option_map (λ b. b.value) job.new
        ≡ option_map with_outputs (option_map (λ b. b.value) job.old) }
    ensures outputs { IfSome job.new (λ b. b.value.outputs ≡ computed b.value) }
{
    if let Some(job) = job {
        job.compute();
    }
}

/// Takes the next operation of a lane, a loop, out, with its inputs, if the room is for it.
pub(crate) fn start_on(
    memory: &Memory,
    device: DeviceId,
    queue: QueueId,
    lane: &mut Lane,
    room: &mut Option<Box<Job>>,
) -> Option<JobOut>
    requires device { device < length memory.now.devices }
    requires may { MayStart memory.now device lane.old.left }
    ensures started { IfSome result (λ job.
        IsStarted memory.now lane.old lane.new (record { device = device; queue = queue }) job) }
    ensures room { IfSome result (λ job.
        TakesRoom (option_map (λ b. b.value) room.old) lane.old.left job.job) }
    ensures none { IfNone result ((lane.new ≡ lane.old) × (last_of lane.old.taken ≡ None)) }
{
    let number = lane.last()?.number;
    let left = lane.ops_left();
    let job = take_loaded(memory, device, lane, room);
    Some(JobOut {
        at: QueueAt { device, queue },
        number,
        left,
        job,
        has_outputs: false,
    })
}

// Takes the next operation of a lane out, and gives the room with its inputs, if it is for it.
fn take_loaded(
    memory: &Memory,
    device: DeviceId,
    lane: &mut Lane,
    room: &mut Option<Box<Job>>,
) -> Option<Box<Job>>
    requires device { device < length memory.now.devices }
    requires may { MayStart memory.now device lane.old.left }
    ensures lane { lane.new ≡ lane_with_out lane.old true }
    ensures next { IsJobNext (option_map (λ b. b.value) result) lane.old.left }
    ensures loaded { IfSome result (λ b. IsLoaded memory.now device b.value) }
    ensures room { TakesRoom (option_map (λ b. b.value) room.old) lane.old.left
        (option_map (λ b. b.value) result) }
{
    lane.take_out();
    let mut job = room.take()?;
    if !lane.is_next(&job) {
        return None;
    }
    memory.load(device, &mut job);
    Some(job)
}

/// Whether a lane, of which an operation is out, has a job at its place.
pub(crate) fn has_job(lane: &Lane, job: &JobOut) -> bool
    ensures { IsTrue result ↔ HasJob lane.now job.now }
{
    match lane.last() {
        None => false,
        Some(label) => {
            label.number == job.number && lane.ops_left() == job.left && is_next(lane, &job.job)
        }
    }
}

// Whether the next operation of a lane is a job's loop; without a job, whether it is a loop.
fn is_next(lane: &Lane, job: &Option<Box<Job>>) -> bool
    ensures { IsTrue result ↔ IsJobNext (option_map (λ b. b.value) job.now) lane.now.left }
{
    match job {
        None => lane.has_loop_next(),
        Some(job) => lane.is_next(job),
    }
}

/// Performs an operation, the loop of a job, on a device, and gives its label back: by the job's outputs, if they were
/// computed of what the memory shows.
pub(crate) fn commit_on(memory: &mut Memory, device: DeviceId, op: Op, job: &JobOut) -> OpLabel
    requires device { device < length memory.old.devices }
    requires allowed { IsAllowed memory.old device op }
    requires next { IsJobNext job.now.job (op_label op ∷ []) }
    ensures op { result ≡ op_label op }
    ensures performed { PerformsOn device (op_label op) memory.old memory.new }
{
    match job.computed() {
        None => memory.do_op(device, op),
        Some(job) => {
            memory.commit(device, job);
            op.into_label()
        }
    }
}
