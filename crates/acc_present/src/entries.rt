//! Entries in linked nodes, and nodes for entries to come.

ghost use Rattle.std.specs.Prelude.{◌≡◌, ◌+◌, ◌-◌, ◌^◌, ◌<◌, ◌≤◌, [], length, drop, slice_get, insert, remove, IfOk, OnOk, OnErr, OnSome};
ghost use Rattle.std.specs.Option.{option_copied_mut, option_map};
ghost use Rattle.std.specs.Borrow.{sem, LendsIf};
ghost use Rattle.acc_base.specs.Faults.{OnlyMemory};
ghost use Rattle.acc_raw.specs.Indices.{last_of, up_to};
ghost use Rattle.acc_present.specs.inner.Keys.{key_of};

use crate::entry::Entry;
use acc_base::{BlockId, Fault, QUEUES, QueueId, Range};
use acc_raw::{Chain, Indexed, Iter, Node};
use std::alloc::Global;
use std::marker::Model;

/// Entries in their order, each in a node that is linked to its neighbours, so that one that comes or goes moves no other;
/// with nodes for entries to come.
#[derive(Drop)]
pub struct Entries {
    alloc: Global,
    listed: Indexed<Entry>,
    spare: Chain<Entry>,
    // how many nodes both have
    room: usize,
}

impl Model for Entries {
    ghost use Rattle.acc_present.specs.inner.Invariants.{EntriesView, HasNodes};

    ghost Value = { EntriesView };

    ghost view = { λ e. record { items = e.listed.items; keys = e.listed.keys; room = e.room } };

    ghost invariant = { λ e. HasNodes e.listed e.spare e.room };
}

impl Entries {
    ghost use Rattle.acc_present.specs.inner.Lending.{with_entry};
    ghost use Rattle.acc_present.specs.contracts.entries.Entries.{the_row};
    ghost use Rattle.acc_present.specs.contracts.entry.Entry.{the_row as entry_row};

    pub(crate) fn new(alloc: Global) -> Self
        ensures items { result.items ≡ [] }
        ensures keys { result.keys ≡ [] }
    {
        Entries {
            alloc,
            listed: Indexed::new(alloc),
            spare: Chain::new(alloc),
            room: 0,
        }
    }

    /// Makes room for this many new entries.
    pub(crate) fn spare(&mut self, count: usize) -> Result<(), Fault>
        ensures items { self.new.items ≡ self.old.items }
        ensures keys { self.new.keys ≡ self.old.keys }
        ensures room { self.old.room ≤ self.new.room }
        ensures ok { OnOk result (length self.new.items + count ≤ self.new.room) }
        ensures fault { OnlyMemory result }
        ensures kept { OnErr result (self.new ≡ self.old) }
        ensures missing { OnErr result (self.old.room < length self.old.items + count) }
    {
        let listed = self.listed.len();
        let spare = self.room - listed;
        if count <= spare {
            return Ok(());
        }
        let mut more = nodes(self.alloc, count - spare)?;
        self.listed.spare(count)?;
        move_all(&mut more, &mut self.spare);
        // the index has room to name so many
        let _room = self.listed.room();
        self.room = listed + count;
        Ok(())
    }

    /// The entry with this number, counted from 0.
    pub(crate) fn nth(&self, index: usize) -> Option<&Entry>
        ensures entry { option_map (λ e. e.now) result ≡ slice_get self.now.items index }
        ensures next { OnSome result (index + 1 < 2 ^ 64) }
    {
        if index < self.listed.len() {
            self.listed.nth(index)
        } else {
            None
        }
    }

    /// All entries, in their order.
    pub(crate) fn iter(&self) -> Iter<'_, Entry>
        ensures { result ≡ self.now.items }
    {
        self.listed.iter()
    }

    /// The entries from the last one on that doesn't begin behind the range's first cell, or all where there is none.
    pub(crate) fn iter_from(&self, range: Range) -> Iter<'_, Entry>
        ensures entries { result ≡ drop (up_to (key_of range) self.now.keys - 1) self.now.items }
        ensures low { range.lo < 4294967296 }
    {
        self.listed.iter_from(key(range))
    }

    /// Goes to the last entry that doesn't begin behind the range's first cell.
    pub(crate) fn seek(&mut self, range: Range)
        ensures { self.new ≡ self.old }
    {
        self.listed.seek(key(range));
    }

    /// Lends the last entry that doesn't begin behind the range's first cell to be changed, or none.
    pub(crate) fn floor_mut(&mut self, range: Range) -> Option<&mut Entry>
        ensures low { range.lo < 4294967296 }
        ensures value { option_copied_mut result
            ≡ last_of self.old.items (up_to (key_of range) self.old.keys) }
        ensures* writes_back { sem 𝓛 (LendsIf the_row entry_row self.entry result
            (with_entry self.old (up_to (key_of range) self.old.keys - 1)) self.old) }
    {
        self.listed.floor_mut(key(range))
    }

    /// Puts an entry before the first one that begins behind its first cell, in a node that was spare.
    pub(crate) fn insert(&mut self, entry: Entry)
        requires { length self.old.items < self.old.room }
        ensures items { self.new.items
            ≡ insert self.old.items (up_to (key_of entry.range) self.old.keys) entry }
        ensures keys { self.new.keys ≡ insert self.old.keys
            (up_to (key_of entry.range) self.old.keys) (key_of entry.range) }
        ensures low { entry.range.lo < 4294967296 }
        ensures room { self.new.room ≡ self.old.room }
    {
        let at = key(entry.range);
        if let Some(mut node) = self.spare.pop_front() {
            *node.value_mut() = entry;
            self.listed.insert(at, node);
        }
    }

    /// Takes the last entry out that doesn't begin behind the range's first cell. Its node is spare from then on.
    pub(crate) fn remove(&mut self, range: Range)
        requires { 0 < up_to (key_of range) self.old.keys }
        ensures items { self.new.items
            ≡ remove self.old.items (up_to (key_of range) self.old.keys - 1) }
        ensures keys { self.new.keys
            ≡ remove self.old.keys (up_to (key_of range) self.old.keys - 1) }
        ensures low { range.lo < 4294967296 }
        ensures room { self.new.room ≡ self.old.room }
    {
        let node = self.listed.remove(key(range));
        self.spare.push_back(node);
    }

    /// The chain of the entries, and that of the spare nodes.
    pub(crate) fn into_chains(self) -> (Chain<Entry>, Chain<Entry>)
        ensures items { result.0 ≡ self.items }
        ensures spare { length result.0 + length result.1 ≡ self.room }
    {
        let Entries {
            alloc: _,
            listed,
            spare,
            room: _,
        } = self;
        (listed.into_chain(), spare)
    }
}

// So many nodes for entries to come.
fn nodes(alloc: Global, count: usize) -> Result<Chain<Entry>, Fault>
    ensures count { IfOk result (λ nodes. length nodes ≡ count) }
    ensures fault { OnlyMemory result }
{
    let mut nodes = Chain::new(alloc);
    for _ in 0..count {
        match Node::new(alloc, no_entry()) {
            Ok(node) => nodes.push_back(node),
            Err((_, fault)) => return Err(fault),
        }
    }
    Ok(nodes)
}

// Moves the nodes of one chain behind those of another.
fn move_all(from: &mut Chain<Entry>, to: &mut Chain<Entry>)
    ensures { length to.new ≡ length to.old + length from.old }
{
    while let Some(node) = from.pop_front() {
        to.push_back(node);
    }
}

// What stands in a node that no entry has.
fn no_entry() -> Entry {
    let range = Range {
        array: 0,
        lo: 0,
        len: 0,
    };
    Entry {
        range,
        block: BlockId::new(0),
        s: 0,
        d: 0,
        maker: (QueueId::SYNC, 0),
        uses: [0; QUEUES as usize],
    }
}

// A number for the range's first cell, greater than that of each before it.
fn key(range: Range) -> u64
    ensures key { result ≡ key_of range }
    ensures low { range.lo < 4294967296 }
{
    u64::from(range.array) * 4_294_967_296 + u64::from(range.lo)
}
