//! The workers of a run: one for each queue, in a thread of its own.

ghost use Rattle.std.specs.Prelude.{◌<◌};

use crate::gate::Gate;
use crate::marks::Marks;
use crate::pause::Pause;
use crate::runtime::Runtime;
use acc_base::QueueAt;
use std::sync::Wait;
use std::sync::atomic::{AtomicBool, Ordering};
use std::thread::{Scope, Threads};

/// What the workers of a run are told, and which have ended.
#[derive(Drop)]
pub(crate) struct Crew {
    // they wait no longer
    begun: AtomicBool,
    // they end at once
    called_off: AtomicBool,
    // by the seats of their queues
    ended: Marks,
}

impl Crew {
    /// The workers wait, and none has ended.
    pub(crate) fn new() -> Self {
        Crew {
            begun: AtomicBool::new(false),
            called_off: AtomicBool::new(false),
            ended: Marks::new(),
        }
    }

    /// Lets the workers begin.
    pub(crate) fn begin(&self, runtime: &Runtime) {
        self.begun.store(true, Ordering::SeqCst);
        runtime.wake_all();
    }

    /// Lets the workers that were started end at once.
    pub(crate) fn call_off(&self, runtime: &Runtime) {
        self.called_off.store(true, Ordering::SeqCst);
        self.begin(runtime);
    }

    // Waits until the workers are to begin or to end, and tells whether they are to begin.
    fn may_begin<R: Wait>(&self, rt: &R, runtime: &Runtime, seat: u16) -> bool {
        let mut pause = Pause::new();
        for _ in rt.forever() {
            if self.begun.load(Ordering::SeqCst) {
                return !self.called_off.load(Ordering::SeqCst);
            }
            runtime.rest_at(rt, seat, &mut pause);
        }
        unreachable!()
    }
}

// What the thread of a worker does.
fn work<R: Wait, G: Gate>(rt: &R, runtime: &Runtime, gate: &G, crew: &Crew, seat: u16)
    requires { seat < 64 }
{
    if crew.may_begin(rt, runtime, seat) {
        runtime.serve(rt, QueueAt::at_seat(seat), gate);
    }
    crew.ended.set(usize::from(seat));
}

/// Starts a worker for each queue, which waits until it may begin. Whether each could be started.
pub(crate) fn start_workers<'s, E, R: Threads + Wait + Sync, G: Gate + Sync>(
    scope: &Scope<'s, E>,
    rt: &'s R,
    runtime: &'s Runtime,
    gate: &'s G,
    crew: &'s Crew,
) -> bool {
    for seat in 0..runtime.queues() {
        if scope
            .spawn(move || work(rt, runtime, gate, crew, seat))
            .is_err()
        {
            return false;
        }
    }
    true
}

/// Closes again, with a pause behind each time in vain, until each queue is closed or its worker has ended.
pub(crate) fn close_all<R: Wait>(rt: &R, runtime: &Runtime, crew: &Crew) {
    let mut pause = Pause::new();
    for _ in rt.forever() {
        if runtime.close_again(rt, &crew.ended) {
            return;
        }
        pause.wait(rt);
    }
}
