//! One turn of a worker, under the work lock.

ghost use Rattle.acc_work.specs.Works.{HasQueue};

use crate::work_side::WorkSide;
use acc_base::{QueueAt, QueueId};
use acc_kernel::Job;
use acc_work::{Ahead, Done, JobOut};
use std::sync::Wait;

/// What a worker did in its turn.
pub(crate) enum Turn {
    /// An operation is performed; and whether it was the last one of its batch.
    Did { ended: bool },
    /// The next operation can't go on yet; and what it awaits, if it is an await.
    Blocked { awaited: Option<(QueueId, u64)> },
    /// Nothing is in the lane, and the queue gave nothing.
    Idle,
    /// A batch with this number is in the lane, which hasn't passed the gate; and its first loop.
    Holds { number: u64, ahead: Option<Ahead> },
    /// The next operation, a loop, is to be computed.
    Starts { job: JobOut },
    Ended,
}

/// The worker of a queue goes on, behind the last batch that passed the gate: it takes a batch, takes a loop out, where this is for
/// it with its inputs in the room, or performs an operation.
pub(crate) fn take_turn<R: Wait>(
    rt: &R,
    work: &mut WorkSide,
    at: QueueAt,
    passed: u64,
    room: &mut Option<Box<Job>>,
) -> Turn {
    let QueueAt { device, queue } = at;
    if !work.has_queue(QueueAt { device, queue }) || work.is_closed(QueueAt { device, queue }) {
        return Turn::Ended;
    }
    match work.in_lane(QueueAt { device, queue }) {
        None => match work.take(rt, QueueAt { device, queue }) {
            None => Turn::Idle,
            Some(number) => {
                let ahead = work.ahead(QueueAt { device, queue });
                Turn::Holds { number, ahead }
            }
        },
        Some(number) => {
            if passed < number {
                let ahead = work.ahead(QueueAt { device, queue });
                return Turn::Holds { number, ahead };
            }
            go_on(work, QueueAt { device, queue }, room)
        }
    }
}

// The next operation of a queue is taken out, if it is a loop, and else performed, if it can be.
fn go_on(work: &mut WorkSide, at: QueueAt, room: &mut Option<Box<Job>>) -> Turn
    requires { HasQueue work.old.work at }
{
    let QueueAt { device, queue } = at;
    match work.start_job(QueueAt { device, queue }, room) {
        Some(job) => Turn::Starts { job },
        None => match work.perform(QueueAt { device, queue }) {
            Done::Op => Turn::Did {
                ended: work.in_lane(QueueAt { device, queue }).is_none(),
            },
            Done::Idle => Turn::Blocked {
                awaited: work.awaited(QueueAt { device, queue }),
            },
        },
    }
}

/// A loop that was computed comes back. Its room, if its lane still waited for it; and whether nothing is left of its batch.
pub(crate) fn commit(work: &mut WorkSide, job: JobOut) -> (Option<Option<Box<Job>>>, bool) {
    let QueueAt { device, queue } = job.queue();
    if !work.has_queue(QueueAt { device, queue }) {
        return (None, false);
    }
    let back = work.commit_job(job).ok();
    (back, work.in_lane(QueueAt { device, queue }).is_none())
}
