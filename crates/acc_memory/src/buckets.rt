//! Values by number, each in its node, spread over chains.

ghost use Rattle.std.specs.Prelude.{◌≡◌, ◌≤◌, ◌<◌, ◌+◌, ◌-◌, [], length, is_some, vec_capacity, Some, None, IfOk};
ghost use Rattle.std.specs.Option.{option_copied, option_map};
ghost use Rattle.acc_base.specs.Faults.{OnlyMemory};
ghost use Rattle.acc_memory.specs.inner.Buckets.{HaveSame, IsSetBy, bucket_of, find_by};
ghost use Rattle.acc_memory.specs.Memories.{Row, find_row};
ghost use Rattle.acc_memory.specs.inner.Rows.{HasRoom, IsSetAt, stored};

use acc_base::Fault;
use acc_batch::Block;
use acc_raw::{Chain, Keyed, Node};
use std::alloc::Global;
use std::marker::Model;

/// Values by number, no two of the same one. Each stays in the node that it came with, linked into the chain of those bits of its number
/// that the number of the last chain has. Contracts see the list of the values, of which the order says nothing.
#[derive(Drop)]
pub(crate) struct Buckets<T: Keyed + Drop> {
    alloc: Global,
    // The number of the last chain that there may be. Where it has ones alone, numbers that come one after another are spread evenly.
    last: u16,
    // From the first up to the last one that had a value; there is room for all. So it costs little that there are none.
    chains: Vec<Chain<T>>,
}

impl<T: Keyed + Drop> Model for Buckets<T> {
    ghost use Rattle.std.specs.Prelude.{List, vec_capacity, ◌+◌, ◌≤◌};
    ghost use Rattle.acc_memory.specs.inner.Buckets.{in_all, AreSpread};

    ghost Value = { List T };

    ghost view = { λ b. in_all b.chains.items };

    ghost invariant = { λ b. AreSpread T.key_of b.last b.chains.items × (b.last + 1 ≤ vec_capacity b.chains) };
}

impl<T: Keyed + Drop> Buckets<T> {
    /// None, to be spread over chains up to this one.
    ///
    /// # Errors
    ///
    /// `Memory` where memory is refused.
    pub(crate) fn new(alloc: Global, last: u16) -> Result<Self, Fault>
        ensures none { IfOk result (λ b. b ≡ []) }
        ensures fault { OnlyMemory result }
    {
        let chains = Vec::with_capacity(alloc, usize::from(last) + 1)?;
        Ok(Buckets {
            alloc,
            last,
            chains,
        })
    }

    /// The value of this number, if it is there.
    pub(crate) fn get(&self, number: u64) -> Option<&T>
        ensures { option_copied result ≡ find_by T.key_of self.now number }
    {
        let bucket = bucket_of(self.last, number);
        if bucket >= self.chains.len() {
            return None;
        }
        self.chains[bucket].find(number)
    }

    /// Takes in a value of a number of which none is there. Takes no memory.
    pub(crate) fn put(&mut self, node: Node<T>)
        requires { find_by T.key_of self.old (T.key_of node) ≡ None }
        ensures { IsSetBy T.key_of (T.key_of node) (Some node) self.old self.new }
    {
        let bucket = bucket_of(self.last, node.value().key());
        reach(self.alloc, &mut self.chains, self.last, bucket);
        let chain = &mut self.chains[bucket];
        chain.push_back(node);
    }

    /// Lets the value of this number go, and tells whether it was there.
    pub(crate) fn remove(&mut self, number: u64) -> bool
        ensures there { result ≡ is_some (find_by T.key_of self.old number) }
        ensures gone { IsSetBy T.key_of number None self.old self.new }
    {
        let bucket = bucket_of(self.last, number);
        if bucket >= self.chains.len() {
            return false;
        }
        let chain = &mut self.chains[bucket];
        chain.unlink_first_match(number).is_some()
    }
}

impl Buckets<Block> {
    /// Writes some cells of the block of this number, if it is there, side by side from one on, which is named by its number in the
    /// host array. Takes no memory.
    pub(crate) fn store(&mut self, number: u64, first: usize, values: &[i64])
        requires { (row : Row) → find_row self.old number ≡ Some row
            → HasRoom row first (length values.now) }
        ensures { IsSetAt number
            (option_map (λ row. stored row (first - row.range.lo) values.now)
            (find_row self.old number)) self.old self.new }
    {
        let bucket = bucket_of(self.last, number);
        if bucket >= self.chains.len() {
            return;
        }
        let chain = &mut self.chains[bucket];
        let held = match chain.find_mut(number) {
            None => return,
            Some(held) => held,
        };
        held.cells.copy_from(first - held.range.lo as usize, values);
    }
}

// Empty chains are added up to this one, where it isn't there; a last one is named that there may be. There is room for them.
fn reach<T: Keyed + Drop>(alloc: Global, chains: &mut Vec<Chain<T>>, last: u16, bucket: usize)
    requires low { bucket ≤ last }
    requires few { length chains.old.items ≤ last + 1 }
    requires room { last + 1 ≤ vec_capacity chains.old }
    ensures there { bucket < length chains.new.items }
    ensures few { length chains.new.items ≤ last + 1 }
    ensures room { last + 1 ≤ vec_capacity chains.new }
    ensures same { HaveSame chains.old.items chains.new.items }
{
    while chains.len() <= bucket {
        chains.push_reserved(Chain::new(alloc));
    }
}

// The chain of a number, where this one is the last that there may be.
fn bucket_of(last: u16, number: u64) -> usize
    ensures bucket { result ≡ bucket_of last number }
    ensures low { result ≤ last }
{
    (number & u64::from(last)) as usize
}
