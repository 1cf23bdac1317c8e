//! A segment: seats by key, side by side.
ghost use Rattle.std.specs.Prelude.{◌≡◌, ◌+◌, ◌<◌, ◌≤◌, [], ◌∷◌, ◌++◌, length, insert, remove, slice_get, Some, IfOk};
ghost use Rattle.acc_base.specs.Faults.{OnlyMemory};
ghost use Rattle.acc_raw.specs.inner.Segments.{Ascend, IsFilled, IsEmpty, up_to};

use crate::link::Place;
use acc_base::Fault;
use std::alloc::Global;

/// How many seats a segment has room for.
pub(crate) const MOST: usize = 128;

/// Two segments side by side have more than so many, and a full one is parted in two with so many each.
pub(crate) const FEW: usize = 64;

/// A key, and the place that goes with it.
#[derive(Clone, Copy)]
pub(crate) struct Seat {
    pub(crate) key: u64,
    pub(crate) place: Place,
}

/// Seats in their order, and the key of the first, where there is one.
#[derive(Drop)]
pub(crate) struct Segment {
    pub(crate) first: u64,
    pub(crate) seats: Vec<Seat>,
}

impl Segment {
    /// None, with room.
    pub(crate) fn new(alloc: Global) -> Result<Self, Fault>
        ensures empty { IfOk result IsEmpty }
        ensures fault { OnlyMemory result }
    {
        let seats = Vec::with_capacity(alloc, MOST)?;
        Ok(Segment { first: 0, seats })
    }

    /// How many seats come before the first with a greater key.
    pub(crate) fn up_to(&self, key: u64) -> usize
        requires { Ascend self.now.seats.items }
        ensures count { result ≡ up_to key self.now.seats.items }
        ensures within { result ≤ length self.now.seats.items }
    {
        self.seats
            .as_slice()
            .partition_point(|seat| seat.key <= key)
    }

    /// Puts the first seat in.
    pub(crate) fn begin(&mut self, seat: Seat)
        requires { IsEmpty self.old }
        ensures filled { IsFilled self.new }
        ensures seats { self.new.seats.items ≡ seat ∷ [] }
    {
        self.first = seat.key;
        self.seats.push_reserved(seat);
    }

    /// Puts a seat before the one with this number, or behind all.
    pub(crate) fn put(&mut self, at: usize, seat: Seat)
        requires filled { IsFilled self.old }
        requires room { length self.old.seats.items < MOST }
        requires within { at ≤ length self.old.seats.items }
        ensures filled { IsFilled self.new }
        ensures seats { self.new.seats.items ≡ insert self.old.seats.items at seat }
    {
        // there is room, so this isn't refused
        let _ = self.seats.insert(at, seat);
        if at == 0 {
            self.first = seat.key;
        }
    }

    /// Takes the seat with this number out, which isn't the only one.
    pub(crate) fn take(&mut self, at: usize) -> Seat
        requires filled { IsFilled self.old }
        requires some { 1 < length self.old.seats.items }
        requires within { at < length self.old.seats.items }
        ensures filled { IsFilled self.new }
        ensures seat { slice_get self.old.seats.items at ≡ Some result }
        ensures seats { self.new.seats.items ≡ remove self.old.seats.items at }
    {
        let seat = self.seats.remove(at);
        self.first = self.seats[0].key;
        seat
    }

    /// Moves the upper half of a full one to one that is empty.
    pub(crate) fn part(&mut self, upper: &mut Segment)
        requires filled { IsFilled self.old }
        requires full { length self.old.seats.items ≡ MOST }
        requires empty { IsEmpty upper.old }
        ensures lower { IsFilled self.new }
        ensures upper { IsFilled upper.new }
        ensures seats { self.new.seats.items ++ upper.new.seats.items ≡ self.old.seats.items }
        ensures half { (length self.new.seats.items ≡ FEW) × (length upper.new.seats.items ≡ FEW) }
    {
        // there is room, so this isn't refused
        let _ = upper.seats.extend_from_slice(&self.seats.as_slice()[FEW..]);
        upper.first = upper.seats[0].key;
        self.seats.truncate(FEW);
    }

    /// Moves all seats of another behind those of this one.
    pub(crate) fn join(&mut self, upper: &mut Segment)
        requires lower { IsFilled self.old }
        requires upper { IsFilled upper.old }
        requires room { length self.old.seats.items + length upper.old.seats.items ≤ MOST }
        ensures filled { IsFilled self.new }
        ensures seats { self.new.seats.items ≡ self.old.seats.items ++ upper.old.seats.items }
        ensures empty { IsEmpty upper.new }
    {
        // there is room, so this isn't refused
        let _ = self.seats.append(&mut upper.seats);
    }
}
