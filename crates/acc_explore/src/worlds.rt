//! Worlds that are kept at hand, so that they needn't be made again.

ghost use Rattle.std.specs.Prelude.{◌≡◌, ◌≤◌, ◌<◌, [], List, IfSome, length};
ghost use Rattle.acc_base.specs.Faults.{OnlyMemory};
ghost use Rattle.acc_core.specs.Machine.{State};
ghost use Rattle.acc_explore.specs.Arrivals.{found_at};
ghost use Rattle.acc_explore.specs.declared.arrival.Arrival.{Arrival};
ghost use Rattle.acc_explore.specs.inner.Searching.{AreAtHand};

use acc_base::Fault;
use acc_core::World;
use std::alloc::Global;

/// How many worlds are kept at most.
const SEATS: u32 = 1024;

/// A world, and the number of its state.
#[derive(Drop)]
pub(crate) struct Kept {
    pub(crate) number: u32,
    pub(crate) world: World,
}

/// Worlds of states that were found, each in the seat of its number modulo the count of seats, where that was free.
#[derive(Drop)]
pub(crate) struct Worlds {
    pub(crate) seats: Vec<Option<Kept>>,
}

impl Worlds {
    /// None.
    pub(crate) fn new(alloc: Global) -> Self
        ensures { result.seats.items ≡ [] }
    {
        Worlds {
            seats: Vec::new(alloc),
        }
    }

    /// The world of the state with this number, if it is at hand.
    pub(crate) fn get(&self, number: u32) -> Option<&World>
        ensures { (start : State) (arrivals : List Arrival)
            → AreAtHand start arrivals self.now.seats.items
            → IfSome result (λ w. w.now ≡ (found_at start arrivals number).state) }
    {
        let seat = seat_of(number);
        if seat >= self.seats.len() {
            return None;
        }
        match &self.seats[seat] {
            Some(kept) if kept.number == number => Some(&kept.world),
            _ => None,
        }
    }

    /// The world of the state with this number, if it is at hand; then it isn't any longer.
    pub(crate) fn take(&mut self, number: u32) -> Option<World>
        ensures world { (start : State) (arrivals : List Arrival)
            → AreAtHand start arrivals self.old.seats.items
            → IfSome result (λ w. w ≡ (found_at start arrivals number).state) }
        ensures left { (start : State) (arrivals : List Arrival)
            → AreAtHand start arrivals self.old.seats.items
            → AreAtHand start arrivals self.new.seats.items }
    {
        let seat = seat_of(number);
        if seat >= self.seats.len() {
            return None;
        }
        let Some(kept) = self.seats[seat].take() else {
            return None;
        };
        if kept.number == number {
            return Some(kept.world);
        }
        self.seats[seat] = Some(kept);
        None
    }

    /// Keeps the world of the state with this number, where its seat is free.
    pub(crate) fn put(&mut self, number: u32, world: World) -> Result<(), Fault>
        ensures kept { (start : State) (arrivals : List Arrival) → number ≤ length arrivals
            → world ≡ (found_at start arrivals number).state
            → AreAtHand start arrivals self.old.seats.items
            → AreAtHand start arrivals self.new.seats.items }
        ensures fault { OnlyMemory result }
    {
        let seat = seat_of(number);
        if seat == self.seats.len() {
            self.seats.push(Some(Kept { number, world }))?;
        } else if seat < self.seats.len() && self.seats[seat].is_none() {
            self.seats[seat] = Some(Kept { number, world });
        }
        Ok(())
    }
}

// The seat of a number.
fn seat_of(number: u32) -> usize {
    (number % SEATS) as usize
}
