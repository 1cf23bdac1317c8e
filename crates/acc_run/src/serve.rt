//! The worker of a queue.

use crate::gate::Gate;
use crate::pause::Pause;
use crate::runtime::Runtime;
use crate::turn::{Turn, commit, take_turn};
use crate::watch::wait_seen;
use acc_base::QueueAt;
use acc_kernel::Job;
use acc_queue::Reader;
use acc_work::JobOut;
use std::sync::Wait;

impl Runtime {
    /// A worker of a queue: takes its batches, passes the gate with each, and performs them, one operation for each time that the lock
    /// is got, but for loops, which it computes with no lock held, where it has memory for what they read and assign. Where its next
    /// operation awaits a batch it sleeps until that is performed, and where it finds nothing until a batch is placed; after fifty
    /// milliseconds of that it gives the memory back. Ends behind the queue's close, where the gate answers false, or where there is
    /// no such queue.
    pub fn serve<R: Wait, G: Gate>(&self, rt: &R, at: QueueAt, gate: &G) {
        let QueueAt { device, queue } = at;
        let Some(parker) = self.parkers.get(QueueAt { device, queue }.seat()) else {
            return;
        };
        let mut passed = 0u64; // the last batch that passed the gate
        let mut room = None; // where its last loop was computed
        let mut reader = self.one_more_reader(rt);
        let mut pause = Pause::new();
        for _ in rt.forever() {
            match self.turn(rt, QueueAt { device, queue }, passed, &mut room) {
                Turn::Did { ended } => {
                    if ended {
                        self.tell_performed(QueueAt { device, queue }, passed);
                    }
                    pause.begin_anew();
                }
                Turn::Blocked { awaited } => match (&mut reader, awaited) {
                    (Some(reader), Some((queue, number))) => wait_seen(
                        rt,
                        self.performed.as_slice(),
                        reader,
                        QueueAt { device, queue },
                        number,
                    ),
                    _ => pause.wait(rt),
                },
                Turn::Idle => {
                    if pause.has_rested() {
                        room = None;
                    }
                    pause.rest(rt, parker);
                }
                Turn::Holds { number, ahead } => {
                    self.tell_taken(QueueAt { device, queue });
                    if !gate.pass(QueueAt { device, queue }, number) {
                        return;
                    }
                    passed = number;
                    if let Some(ahead) = ahead {
                        room = ahead.room(self.alloc, room);
                    }
                    pause.begin_anew();
                }
                Turn::Starts { job } => match self.compute(rt, gate, job) {
                    None => return,
                    Some(back) => {
                        room = back;
                        pause.begin_anew();
                    }
                },
                Turn::Ended => return,
            }
        }
    }

    // One turn of a worker, under the work lock.
    fn turn<R: Wait>(&self, rt: &R, at: QueueAt, passed: u64, room: &mut Option<Box<Job>>) -> Turn {
        take_turn(rt, &mut self.work.lock(rt), at, passed, room)
    }

    // A reader for a worker, unless memory is refused.
    fn one_more_reader<R: Wait>(&self, rt: &R) -> Option<Reader> {
        self.watch.lock(rt).split().ok()
    }

    // Computes a loop with no lock held, and gives it back under the work lock. Answers with its room, if its lane still waited for it.
    fn compute<R: Wait, G: Gate>(&self, rt: &R, gate: &G, job: JobOut) -> Option<Option<Box<Job>>> {
        let mut job = job;
        gate.work(job.queue(), job.number());
        job.compute();
        let QueueAt { device, queue } = job.queue();
        let number = job.number();
        let (back, ended) = commit(&mut self.work.lock(rt), job);
        if ended {
            self.tell_performed(QueueAt { device, queue }, number);
        }
        back
    }

    // A queue has performed so many batches: those who wait for that are woken.
    fn tell_performed(&self, at: QueueAt, number: u64) {
        if let Some(performed) = self.performed.get(at.seat()) {
            performed.notify(number);
        }
    }

    // A queue has taken a batch: those who wait for room are woken.
    fn tell_taken(&self, at: QueueAt) {
        if let Some(taken) = self.taken.get(at.seat()) {
            taken.notify(0);
        }
    }
}
