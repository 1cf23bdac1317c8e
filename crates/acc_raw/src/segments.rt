//! Seats by key, in segments, so that one that comes or goes moves others in one segment alone.
ghost use Rattle.std.specs.Prelude.{◌≡◌, ◌+◌, ◌-◌, ◌*◌, ◌<◌, ◌≤◌, [], ◌∷◌, length, insert, remove, slice_get, slice_set, slice_index_or, map, Some, All, OnOk, OnErr, IsTrue, vec_len, vec_capacity};
ghost use Rattle.std.specs.Option.{option_map};
ghost use Rattle.acc_base.specs.Faults.{OnlyMemory};
ghost use Rattle.acc_raw.specs.Indices.{last_of};
ghost use Rattle.acc_raw.specs.inner.Segments.{AreFilled, IsEmpty, AreCrowded, IsShelf, IsKept, IsParted, IsSpot, count_of, number_of, Ascend, lengths, seats_of, up_to};
ghost use Rattle.acc_raw.specs.declared.segment.Segment.{Segment};

use crate::link::Place;
use crate::segment::{FEW, MOST, Seat, Segment};
use acc_base::Fault;
use std::alloc::Global;
use std::marker::Model;

/// For so many seats there is room with each segment, however they are spread.
const EACH: usize = 32;

/// Seats in the order of their keys, and room for more.
#[derive(Drop)]
pub(crate) struct Segments {
    shelf: Shelf,
    len: usize,
    room: usize,
}

impl Model for Segments {
    ghost use Rattle.std.specs.Prelude.{◌≡◌, ◌*◌, ◌≤◌, length};
    ghost use Rattle.acc_raw.specs.declared.segments.TheConstants.{EACH};
    ghost use Rattle.acc_raw.specs.inner.Segments.{SeatsView, Ascend, IsKept, count_of, seats_of};

    ghost Value = { SeatsView };

    ghost view = { λ s. record { items = seats_of s.shelf.filled.items; room = s.room } };

    ghost invariant = { λ s. IsKept s.shelf × Ascend (seats_of s.shelf.filled.items) × (s.len ≡ length (seats_of s.shelf.filled.items)) × (s.len ≤ s.room) × (s.room ≤ count_of s.shelf * EACH) };
}

impl Segments {
    /// None, and no room.
    pub(crate) fn new(alloc: Global) -> Self
        ensures { result.items ≡ [] }
    {
        let shelf = Shelf {
            filled: Vec::new(alloc),
            empty: Vec::new(alloc),
            near: Spot { segment: 0, at: 0 },
        };
        Segments {
            shelf,
            len: 0,
            room: 0,
        }
    }

    /// Makes room for this many seats more.
    pub(crate) fn spare(&mut self, alloc: Global, count: usize) -> Result<(), Fault>
        ensures items { self.new.items ≡ self.old.items }
        ensures room { self.old.room ≤ self.new.room }
        ensures ok { OnOk result (length self.new.items + count ≤ self.new.room) }
        ensures fault { OnlyMemory result }
        ensures kept { OnErr result (self.new ≡ self.old) }
        ensures missing { OnErr result (self.old.room < length self.old.items + count) }
    {
        let free = self.room - self.len;
        if count <= free {
            return Ok(());
        }
        let Some(room) = self.len.checked_add(count) else {
            return Err(Fault::Memory);
        };
        self.shelf.spare(alloc, room.div_ceil(EACH))?;
        self.room = room;
        Ok(())
    }

    /// How many there are.
    pub(crate) fn len(&self) -> usize
        ensures { result ≡ length self.now.items }
    {
        self.len
    }

    /// For how many there is room.
    pub(crate) fn room(&self) -> usize
        ensures { result ≡ self.now.room }
    {
        self.room
    }

    /// The place of the seat with this number, counted from 0. Goes along the segments.
    pub(crate) fn nth(&self, at: usize) -> Option<Place>
        ensures { result ≡ option_map (λ s. s.place) (slice_get self.now.items at) }
    {
        let mut left = at;
        for segment in self.shelf.filled.as_slice() {
            let seats = segment.seats.as_slice();
            if left < seats.len() {
                return Some(seats[left].place);
            }
            left -= seats.len();
        }
        None
    }

    /// Goes to the last seat whose key is at most this one, so that the calls that ask for it next find it at once.
    pub(crate) fn seek(&mut self, key: u64)
        ensures { self.new ≡ self.old }
    {
        if !self.shelf.filled.is_empty() {
            self.shelf.near = self.shelf.seek(key);
        }
    }

    /// The place of the last seat whose key is at most this one.
    pub(crate) fn floor(&self, key: u64) -> Option<Place>
        ensures { result ≡ option_map (λ s. s.place)
            (last_of self.now.items (up_to key self.now.items)) }
    {
        if self.shelf.filled.is_empty() {
            return None;
        }
        let spot = self.shelf.seek(key);
        if spot.at == 0 {
            return None;
        }
        Some(self.shelf.filled[spot.segment].seats[spot.at - 1].place)
    }

    /// Puts a seat before the first with a greater key, or behind all.
    pub(crate) fn insert(&mut self, seat: Seat)
        requires { length self.old.items < self.old.room }
        ensures items { self.new.items
            ≡ insert self.old.items (up_to seat.key self.old.items) seat }
        ensures room { self.new.room ≡ self.old.room }
    {
        self.shelf.insert(seat);
        self.len += 1;
    }

    /// Takes the last seat out whose key is at most this one, and gives its place.
    pub(crate) fn take_floor(&mut self, key: u64) -> Place
        requires { 0 < up_to key self.old.items }
        ensures place { option_map (λ s. s.place)
            (last_of self.old.items (up_to key self.old.items)) ≡ Some result }
        ensures items { self.new.items
            ≡ remove self.old.items (up_to key self.old.items - 1) }
        ensures room { self.new.room ≡ self.old.room }
    {
        let spot = self.shelf.seek(key);
        self.len -= 1;
        self.shelf.take(spot).place
    }
}

/// Segments, those with a seat in their order.
#[derive(Drop)]
struct Shelf {
    filled: Vec<Segment>,
    empty: Vec<Segment>,
    // where a call went last; whether it is what a search asks for, the search finds out
    near: Spot,
}

/// Before which seat of which segment.
#[derive(Clone, Copy)]
struct Spot {
    segment: usize,
    at: usize,
}

impl Shelf {
    // Makes segments until there are this many.
    fn spare(&mut self, alloc: Global, count: usize) -> Result<(), Fault>
        requires { IsKept self.old }
        ensures kept { IsKept self.new }
        ensures filled { self.new.filled.items ≡ self.old.filled.items }
        ensures count { count_of self.old ≤ count_of self.new }
        ensures ok { OnOk result (count ≤ count_of self.new) }
        ensures fault { OnlyMemory result }
    {
        let more = count.saturating_sub(self.filled.len());
        self.filled.reserve(more)?;
        self.empty.reserve(count.saturating_sub(self.empty.len()))?;
        lengthen(alloc, &mut self.empty, more)
    }

    // Before which seat the first with a greater key stands. Looks first where a call went last.
    fn seek(&self, key: u64) -> Spot
        requires filled { AreFilled self.now.filled.items }
        requires some { 0 < vec_len self.now.filled }
        requires ascend { Ascend (seats_of self.now.filled.items) }
        ensures spot { IsSpot self.now.filled.items result }
        ensures number { number_of self.now.filled.items result
            ≡ up_to key (seats_of self.now.filled.items) }
        ensures first { result.at ≡ 0 → result.segment ≡ 0 }
    {
        if self.is_near(key) {
            return self.near;
        }
        let segment = self
            .filled
            .as_slice()
            .partition_point(|segment| segment.first <= key)
            .saturating_sub(1);
        let at = self.filled[segment].up_to(key);
        Spot { segment, at }
    }

    // Whether the first seat with a greater key is the one behind the spot where a call went last.
    fn is_near(&self, key: u64) -> bool
        requires filled { AreFilled self.now.filled.items }
        requires ascend { Ascend (seats_of self.now.filled.items) }
        ensures spot { IsTrue result → IsSpot self.now.filled.items self.now.near }
        ensures number { IsTrue result → number_of self.now.filled.items self.now.near
            ≡ up_to key (seats_of self.now.filled.items) }
        ensures some { IsTrue result → 0 < self.now.near.at }
    {
        let Spot { segment, at } = self.near;
        if self.filled.len() <= segment {
            return false;
        }
        let seats = self.filled[segment].seats.as_slice();
        if at == 0 || seats.len() < at || key < seats[at - 1].key {
            return false;
        }
        if at < seats.len() {
            return key < seats[at].key;
        }
        segment + 1 == self.filled.len() || key < self.filled[segment + 1].first
    }

    // Puts a seat before the first with a greater key, or behind all.
    fn insert(&mut self, seat: Seat)
        requires kept { IsKept self.old }
        requires ascend { Ascend (seats_of self.old.filled.items) }
        requires few { length (seats_of self.old.filled.items) < count_of self.old * EACH }
        ensures kept { IsKept self.new }
        ensures seats { seats_of self.new.filled.items ≡ insert (seats_of self.old.filled.items)
            (up_to seat.key (seats_of self.old.filled.items)) seat }
        ensures count { count_of self.new ≡ count_of self.old }
    {
        if self.filled.is_empty() {
            self.begin(seat);
            return;
        }
        let spot = self.seek(seat.key);
        let spot = self.make_way(spot);
        self.put(spot, seat);
        self.near = Spot {
            segment: spot.segment,
            at: spot.at + 1,
        };
    }

    // Puts the first seat of all in.
    fn begin(&mut self, seat: Seat)
        requires kept { IsKept self.old }
        requires none { self.old.filled.items ≡ [] }
        requires some { 0 < count_of self.old }
        ensures kept { IsKept self.new }
        ensures seats { seats_of self.new.filled.items ≡ seat ∷ [] }
        ensures count { count_of self.new ≡ count_of self.old }
    {
        if let Some(mut segment) = self.empty.pop() {
            segment.begin(seat);
            self.filled.push_reserved(segment);
        }
    }

    // Parts the segment of the spot where it is full, and gives the spot that has the same number.
    fn make_way(&mut self, spot: Spot) -> Spot
        requires kept { IsKept self.old }
        requires spot { IsSpot self.old.filled.items spot }
        requires few { length (seats_of self.old.filled.items) < count_of self.old * EACH }
        ensures kept { IsKept self.new }
        ensures seats { seats_of self.new.filled.items ≡ seats_of self.old.filled.items }
        ensures spot { IsSpot self.new.filled.items result }
        ensures number { number_of self.new.filled.items result
            ≡ number_of self.old.filled.items spot }
        ensures free { (own : Segment) → slice_get self.new.filled.items result.segment ≡ Some own
            → length own.seats.items < MOST }
        ensures count { count_of self.new ≡ count_of self.old }
    {
        if self.filled[spot.segment].seats.len() < MOST {
            return spot;
        }
        self.part(spot.segment);
        if spot.at <= FEW {
            return spot;
        }
        Spot {
            segment: spot.segment + 1,
            at: spot.at - FEW,
        }
    }

    // Parts the segment with this number, which is full, in two.
    fn part(&mut self, index: usize)
        requires kept { IsKept self.old }
        requires within { index < vec_len self.old.filled }
        requires full { (own : Segment) → slice_get self.old.filled.items index ≡ Some own
            → length own.seats.items ≡ MOST }
        requires some { 0 < vec_len self.old.empty }
        ensures kept { IsKept self.new }
        ensures parted { IsParted self.old.filled.items index self.new.filled.items }
        ensures count { count_of self.new ≡ count_of self.old }
    {
        if let Some(mut upper) = self.empty.pop() {
            self.filled[index].part(&mut upper);
            // there is room, so this isn't refused
            let _ = self.filled.insert(index + 1, upper);
        }
    }

    // Puts a seat in at the spot, whose segment isn't full.
    fn put(&mut self, spot: Spot, seat: Seat)
        requires kept { IsKept self.old }
        requires spot { IsSpot self.old.filled.items spot }
        requires free { (own : Segment) → slice_get self.old.filled.items spot.segment ≡ Some own
            → length own.seats.items < MOST }
        ensures kept { IsKept self.new }
        ensures seats { seats_of self.new.filled.items
            ≡ insert (seats_of self.old.filled.items) (number_of self.old.filled.items spot) seat }
        ensures count { count_of self.new ≡ count_of self.old }
    {
        self.filled[spot.segment].put(spot.at, seat);
    }

    // Takes the seat before the spot out.
    fn take(&mut self, spot: Spot) -> Seat
        requires kept { IsKept self.old }
        requires spot { IsSpot self.old.filled.items spot }
        requires some { 0 < spot.at }
        ensures kept { IsKept self.new }
        ensures seat { slice_get (seats_of self.old.filled.items)
            (number_of self.old.filled.items spot - 1) ≡ Some result }
        ensures seats { seats_of self.new.filled.items
            ≡ remove (seats_of self.old.filled.items) (number_of self.old.filled.items spot - 1) }
        ensures count { count_of self.new ≡ count_of self.old }
    {
        if self.filled[spot.segment].seats.len() == 1 {
            let mut segment = self.filled.remove(spot.segment);
            let seat = segment.seats.remove(0);
            self.empty.push_reserved(segment);
            return seat;
        }
        let seat = self.filled[spot.segment].take(spot.at - 1);
        self.settle(spot.segment);
        seat
    }

    // Joins the segment with this number, which has lost a seat, with one beside it where both together have few.
    fn settle(&mut self, index: usize)
        requires within { index < vec_len self.old.filled }
        requires shelf { IsShelf self.old }
        requires crowded { (own : Segment) → slice_get self.old.filled.items index ≡ Some own
            → AreCrowded (slice_set (lengths self.old.filled.items) index
            (length own.seats.items + 1)) }
        ensures kept { IsKept self.new }
        ensures seats { seats_of self.new.filled.items ≡ seats_of self.old.filled.items }
        ensures count { count_of self.new ≡ count_of self.old }
    {
        let len = self.filled[index].seats.len();
        if index + 1 < self.filled.len() && len + self.filled[index + 1].seats.len() <= FEW {
            self.join(index);
        } else if 0 < index && self.filled[index - 1].seats.len() + len <= FEW {
            self.join(index - 1);
        }
    }

    // Joins the segment with this number and the next one.
    fn join(&mut self, index: usize)
        requires within { index + 1 < vec_len self.old.filled }
        requires shelf { IsShelf self.old }
        requires few { (own next : Segment) → slice_get self.old.filled.items index ≡ Some own
            → slice_get self.old.filled.items (index + 1) ≡ Some next
            → length own.seats.items + length next.seats.items ≤ FEW }
        requires crowded { (own next : Segment) → slice_get self.old.filled.items index ≡ Some own
            → slice_get self.old.filled.items (index + 1) ≡ Some next
            → AreCrowded (slice_set (remove (lengths self.old.filled.items) (index + 1)) index
            (length own.seats.items + length next.seats.items)) }
        ensures kept { IsKept self.new }
        ensures seats { seats_of self.new.filled.items ≡ seats_of self.old.filled.items }
        ensures count { count_of self.new ≡ count_of self.old }
    {
        let mut upper = self.filled.remove(index + 1);
        self.filled[index].join(&mut upper);
        self.empty.push_reserved(upper);
    }
}

// Makes segments without a seat until there are this many, for which there is room.
fn lengthen(alloc: Global, empty: &mut Vec<Segment>, count: usize) -> Result<(), Fault>
    requires empty { All IsEmpty empty.old.items }
    requires room { count ≤ vec_capacity empty.old }
    ensures empty { All IsEmpty empty.new.items }
    ensures more { vec_len empty.old ≤ vec_len empty.new }
    ensures most { vec_len empty.new ≤ vec_len empty.old + (count - vec_len empty.old) }
    ensures capacity { vec_capacity empty.new ≡ vec_capacity empty.old }
    ensures ok { OnOk result (count ≤ vec_len empty.new) }
    ensures fault { OnlyMemory result }
{
    while empty.len() < count {
        empty.push_reserved(Segment::new(alloc)?);
    }
    Ok(())
}
