//! Linked nodes with an index of their keys.
ghost use Rattle.std.specs.Prelude.{◌≡◌, ◌+◌, ◌-◌, ◌<◌, ◌≤◌, [], length, drop, insert, remove, slice_get, Some, None, OnOk, OnErr};
ghost use Rattle.std.specs.Borrow.{sem, LendsIf};
ghost use Rattle.std.specs.Option.{option_copied, option_copied_mut};
ghost use Rattle.acc_base.specs.Faults.{OnlyMemory};
ghost use Rattle.acc_raw.specs.Indices.{up_to, last_of};
ghost use Rattle.acc_raw.specs.inner.Segments.{up_to as up_to_seats};
ghost use Rattle.acc_raw.specs.inner.Wired.{place_at, place_before};
ghost use Rattle.acc_raw.specs.inner.Chained.{IsChained};

use crate::chain::Chain;
use crate::chained::{Chained, link_at, unlink_at};
use crate::iter::Iter;
use crate::link::{Node, Place};
use crate::nth::{Nth, nth_by};
use crate::segment::Seat;
use crate::segments::Segments;
use crate::store::Store;
use acc_base::Fault;
use std::alloc::Global;
use std::marker::Model;

/// A chain's nodes, and beside them the key of each with where it lies, in their order, so that a node is found by its key at once. No
/// call but `insert` and `remove` changes a key, whatever becomes of the value. Contracts see the list of the values, that of the
/// keys, and how many nodes there is room to name.
pub struct Indexed<T> {
    nodes: Chained<T>,
    seats: Segments,
    alloc: Global,
}

impl<T> Model for Indexed<T> {
    ghost use Rattle.std.specs.Prelude.{◌≡◌, map};
    ghost use Rattle.acc_raw.specs.Indices.{IndexedView};
    ghost use Rattle.acc_raw.specs.inner.Segments.{keys_of};
    ghost use Rattle.acc_raw.specs.inner.Wired.{values, places as places_of};
    ghost use Rattle.acc_raw.specs.inner.Chained.{IsChained};

    ghost Value = { IndexedView T };

    ghost view = { λ c. record { items = values c.nodes.store.links; keys = keys_of c.seats.items; room = c.seats.room } };

    ghost invariant = { λ c. IsChained c.nodes × (map (λ s. s.place) c.seats.items ≡ places_of c.nodes.store.links) };
}

impl<T> Indexed<T> {
    ghost use Rattle.acc_raw.specs.Indices.{with_value};
    ghost use Rattle.acc_raw.specs.contracts.indexed.Indexed.{the_row};

    /// No nodes; those to come are in this allocator's blocks.
    pub fn new(alloc: Global) -> Self
        ensures items { result.items ≡ [] }
        ensures keys { result.keys ≡ [] }
    {
        Indexed {
            nodes: Chained {
                store: Store::new(),
                head: None,
                tail: None,
            },
            seats: Segments::new(alloc),
            alloc,
        }
    }

    /// Makes room to name this many nodes more.
    ///
    /// # Errors
    ///
    /// `Memory` where the room was missing and memory is refused; then nothing changes.
    pub fn spare(&mut self, count: usize) -> Result<(), Fault>
        ensures items { self.new.items ≡ self.old.items }
        ensures keys { self.new.keys ≡ self.old.keys }
        ensures room { self.old.room ≤ self.new.room }
        ensures ok { OnOk result (length self.new.items + count ≤ self.new.room) }
        ensures fault { OnlyMemory result }
        ensures kept { OnErr result (self.new ≡ self.old) }
        ensures missing { OnErr result (self.old.room < length self.old.items + count) }
    {
        self.seats.spare(self.alloc, count)
    }

    /// How many nodes there are.
    pub fn len(&self) -> usize
        ensures { result ≡ length self.now.items }
    {
        self.seats.len()
    }

    /// How many nodes there is room to name.
    pub fn room(&self) -> usize
        ensures { result ≡ self.now.room }
    {
        self.seats.room()
    }

    /// The values, in their order.
    pub fn iter(&self) -> Iter<'_, T>
        ensures { result ≡ self.now.items }
    {
        Iter::of(&self.nodes)
    }

    /// The value of the node with this number, counted from 0, if there is one. Goes along the segments of the index: who asks for one
    /// after the other takes `iter`.
    pub fn nth(&self, at: usize) -> Option<&T>
        ensures { option_copied result ≡ slice_get self.now.items at }
    {
        match self.seats.nth(at) {
            Some(place) => Some(&self.nodes.store.get(place, Nth::of(at)).value),
            None => None,
        }
    }

    /// The values from the last one on whose key is at most this one, or all where there is none.
    pub fn iter_from(&self, key: u64) -> Iter<'_, T>
        ensures { result ≡ drop (up_to key self.now.keys - 1) self.now.items }
    {
        let at = match self.seats.floor(key) {
            Some(place) => Some(place),
            None => self.nodes.head,
        };
        Iter::at(&self.nodes, at, count_up_to(&self.seats, key).before())
    }

    /// Goes to the last node whose key is at most this one, so that the calls that ask for it next find it at once.
    pub fn seek(&mut self, key: u64)
        ensures { self.new ≡ self.old }
    {
        self.seats.seek(key);
    }

    /// Lends the last value whose key is at most this one to be changed, or none. When the loan ends, the index has there what was
    /// written last, and all else as before.
    pub fn floor_mut(&mut self, key: u64) -> Option<&mut T>
        ensures value { option_copied_mut result
            ≡ last_of self.old.items (up_to key self.old.keys) }
        ensures* writes_back { sem 𝓛 (LendsIf (the_row T.row) T.row self.entry result
            (with_value self.old (up_to key self.old.keys - 1)) self.old) }
    {
        self.seats.seek(key);
        match self.seats.floor(key) {
            Some(place) => {
                let index = count_up_to(&self.seats, key).before();
                let link = self.nodes.store.get_mut(place, index);
                Some(&mut link.value)
            }
            None => None,
        }
    }
}

impl<T: Drop> Indexed<T> {
    /// Puts a node before the first one with a greater key, or behind all.
    pub fn insert(&mut self, key: u64, node: Node<T>)
        requires { length self.old.items < self.old.room }
        ensures items { self.new.items
            ≡ insert self.old.items (up_to key self.old.keys) node }
        ensures keys { self.new.keys ≡ insert self.old.keys (up_to key self.old.keys) key }
        ensures room { self.new.room ≡ self.old.room }
    {
        let count = count_up_to(&self.seats, key);
        let mut link = node.into_link();
        link.prev = self.seats.floor(key);
        link.next = behind(&self.nodes, link.prev, &count);
        let place = link_at(&mut self.nodes, link, count);
        self.seats.insert(Seat { key, place });
    }

    /// Takes out the last node whose key is at most this one.
    pub fn remove(&mut self, key: u64) -> Node<T>
        requires { 0 < up_to key self.old.keys }
        ensures node { slice_get self.old.items (up_to key self.old.keys - 1) ≡ Some result }
        ensures items { self.new.items
            ≡ remove self.old.items (up_to key self.old.keys - 1) }
        ensures keys { self.new.keys ≡ remove self.old.keys (up_to key self.old.keys - 1) }
        ensures room { self.new.room ≡ self.old.room }
    {
        let index = count_up_to(&self.seats, key).before();
        let place = self.seats.take_floor(key);
        let link = unlink_at(&mut self.nodes, self.alloc, place, index);
        Node::of_link(link)
    }

    /// The chain of the nodes, without the index. No node moves.
    pub fn into_chain(self) -> Chain<T>
        ensures { result ≡ self.items }
    {
        let Indexed {
            nodes,
            seats: _,
            alloc,
        } = self;
        Chain::of(alloc, nodes)
    }
}

impl<T: Drop> Drop for Indexed<T> {
    fn drop(self) {
        drop(self.into_chain());
    }
}

// How many seats come before the first with a greater key.
fn count_up_to(seats: &Segments, key: u64) -> Nth
    ensures { result.n ≡ up_to_seats key seats.now.items }
{
    nth_by(&(seats, key))
}

// The place of the `index`-th node, or none at the end, where `prev` is that of the one before.
fn behind<T>(nodes: &Chained<T>, prev: Option<Place>, index: &Nth) -> Option<Place>
    requires chained { IsChained nodes.now }
    requires within { index.now.n ≤ length nodes.now.store.links }
    requires prev { prev ≡ place_before None nodes.now.store.links index.now.n }
    ensures { result ≡ place_at nodes.now.store.links index.now.n }
{
    match prev {
        Some(at) => nodes.store.get(at, index.before()).next,
        None => nodes.head,
    }
}
