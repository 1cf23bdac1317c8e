//! How a thread waits that found nothing to do.

ghost use Rattle.std.specs.Prelude.{◌≡◌, ◌≤◌};
ghost use Rattle.acc_base.specs.Faults.{OnlyMemory};
ghost use Rattle.acc_run.specs.declared.pause.TheConstants.{LONGEST_SLEEP, SHORTEST_SLEEP};

use crate::event_count::LONGEST_REST;
use acc_base::{Config, Fault};
use crossbeam_utils::Backoff;
use std::alloc::Global;
use std::marker::Model;
use std::sync::Wait;
use std::thread::Parker;
use std::time::Duration;

/// The shortest sleep, in microseconds.
pub(crate) const SHORTEST_SLEEP: u64 = 16;

/// The longest sleep, in microseconds: a millisecond.
pub(crate) const LONGEST_SLEEP: u64 = 1_000;

// How often a thread spins before it sleeps, the first seven times longer each time, some ten microseconds in all.
const SPINS: u32 = 20;

/// Pauses between looks in vain, each with a limit: the thread spins, then sleeps, each time longer. A contract sees for how many
/// microseconds it sleeps next.
#[derive(Drop)]
pub(crate) struct Pause {
    backoff: Backoff,
    // how often it has spun
    spins: u32,
    // how often it has rested
    rests: u32,
    // nothing unparks it
    parker: Parker,
    sleep: u64,
}

impl Model for Pause {
    ghost use Rattle.std.specs.Prelude.{ℕ, ◌≤◌};
    ghost use Rattle.acc_run.specs.declared.pause.TheConstants.{LONGEST_SLEEP};

    ghost Value = { ℕ };

    ghost view = { λ p. p.sleep };

    ghost invariant = { λ p. p.sleep ≤ LONGEST_SLEEP };
}

impl Pause {
    /// The first pause is the shortest.
    pub(crate) fn new() -> Self
        ensures { result ≡ SHORTEST_SLEEP }
    {
        Pause {
            backoff: Backoff::new(),
            spins: 0,
            rests: 0,
            parker: Parker::new(),
            sleep: SHORTEST_SLEEP,
        }
    }

    /// Something was done: the next pause is the shortest again.
    pub(crate) fn begin_anew(&mut self)
        ensures { self.new ≡ SHORTEST_SLEEP }
    {
        self.backoff.reset();
        self.spins = 0;
        self.rests = 0;
        self.sleep = SHORTEST_SLEEP;
    }

    /// Pauses once, for a millisecond at most.
    pub(crate) fn wait<R: Wait>(&mut self, rt: &R)
        ensures { self.new ≤ LONGEST_SLEEP }
    {
        if self.spun() {
            return;
        }
        self.parker
            .park_timeout(rt, Duration::from_micros(self.sleep));
        self.sleep = LONGEST_SLEEP.min(self.sleep * 2);
    }

    /// Pauses once, until it is woken at the parker, and for fifty milliseconds at most.
    pub(crate) fn rest<R: Wait>(&mut self, rt: &R, parker: &Parker)
        ensures { self.new ≡ self.old }
    {
        if self.spun() {
            return;
        }
        parker.park_timeout(rt, Duration::from_millis(LONGEST_REST));
        self.rests = self.rests.saturating_add(1);
    }

    /// Whether a whole rest has gone by since it began. The first may end at once, by what was told of a batch that was taken before.
    pub(crate) fn has_rested(&self) -> bool {
        self.rests > 1
    }

    // Spins, if it hasn't often enough.
    fn spun(&mut self) -> bool
        ensures sleep { self.new ≡ self.old }
        ensures short { self.new ≤ LONGEST_SLEEP }
    {
        if self.spins >= SPINS {
            return false;
        }
        self.spins += 1;
        self.backoff.spin();
        true
    }
}

// A parker for each queue, at which nobody sleeps.
pub(crate) fn parkers_of(alloc: Global, config: &Config) -> Result<Vec<Parker>, Fault>
    ensures { OnlyMemory result }
{
    let mut parkers = Vec::new(alloc);
    for _ in 0..config.queue_count() {
        parkers.push(Parker::new())?;
    }
    Ok(parkers)
}
