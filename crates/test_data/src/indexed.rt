//! Nodes with an index stand in the order of a plain list by key, through long rows of calls and at lengths around those of whole
//! segments; room to name them is made where memory is ample, which its contract lets be refused; and what a dropped one held is free
//! again.

use crate::fixtures::{Dice, check_same};
use acc_base::Fault;
use acc_raw::{Indexed, Node};
use std::alloc::Global;
use std::process::Abort;
use std::test::Fail;
use tool_scarce::at_each_amount;

fn node_of(alloc: Global, value: u64) -> Result<Node<u64>, Fault> {
    match Node::new(alloc, value) {
        Ok(node) => Ok(node),
        Err((_, fault)) => Err(fault),
    }
}

/// A key, and the value that goes with it.
#[derive(Clone, Copy, Debug, PartialEq, Eq)]
struct Pair {
    key: u64,
    value: u64,
}

// How many pairs come before the first with a greater key.
fn up_to(pairs: &[Pair], key: u64) -> usize {
    let mut count = 0usize;
    for pair in pairs {
        if key < pair.key {
            return count;
        }
        count = count.wrapping_add(1);
    }
    count
}

/// Nodes with an index, and beside them the same values in a plain list, by their keys.
#[derive(Drop)]
struct Both {
    index: Indexed<u64>,
    beside: Vec<Pair>,
}

impl Both {
    fn new(alloc: Global) -> Both {
        Both {
            index: Indexed::new(alloc),
            beside: Vec::new(alloc),
        }
    }

    // A value comes in, for which there is room.
    fn insert(
        &mut self,
        rt: &impl Abort,
        alloc: Global,
        key: u64,
        value: u64,
    ) -> Result<(), Fault> {
        let at = up_to(self.beside.as_slice(), key);
        assert!(rt; at <= self.beside.len());
        assert!(rt; self.index.len() < self.index.room());
        self.index.insert(key, node_of(alloc, value)?);
        self.beside.insert(at, Pair { key, value })?;
        Ok(())
    }

    // A value comes in, and room for it is made before.
    fn put(&mut self, rt: &impl Abort, alloc: Global, key: u64, value: u64) -> Result<(), Fault> {
        self.index.spare(1)?;
        self.insert(rt, alloc, key, value)
    }

    // The last one whose key is at most this one goes, if there is one.
    fn take(&mut self, rt: &impl Abort, key: u64) {
        let count = up_to(self.beside.as_slice(), key);
        let is_there = self.index.floor_mut(key).is_some();
        check_same(rt, is_there, 0 < count);
        if !is_there {
            return;
        }
        assert!(rt; 0 < count);
        assert!(rt; count <= self.beside.len());
        let node = self.index.remove(key);
        check_same(rt, node.into_value(), self.beside.remove(count - 1).value);
    }

    // The last one whose key is at most this one is written, if there is one.
    fn write(&mut self, rt: &impl Abort, key: u64, value: u64) {
        let count = up_to(self.beside.as_slice(), key);
        match self.index.floor_mut(key) {
            Some(there) => {
                assert!(rt; 0 < count);
                assert!(rt; count <= self.beside.len());
                check_same(rt, *there, self.beside[count - 1].value);
                *there = value;
                self.beside[count - 1].value = value;
            }
            None => check_same(rt, count, 0),
        }
    }

    // Those from the last one on whose key is at most this one, three at most.
    fn check_from(&self, rt: &impl Abort, key: u64) {
        let mut at = up_to(self.beside.as_slice(), key).saturating_sub(1);
        let mut values = self.index.iter_from(key);
        for _ in 0..3u32 {
            let wanted = self.beside.get(at).map(|pair| pair.value);
            check_same(rt, values.next().copied(), wanted);
            at = at.wrapping_add(1);
        }
    }

    fn check_alike(&self, rt: &impl Abort) {
        check_same(rt, self.index.len(), self.beside.len());
        let mut values = self.index.iter();
        let mut at = 0usize;
        for pair in self.beside.iter() {
            check_same(rt, values.next().copied(), Some(pair.value));
            check_same(rt, self.index.nth(at).copied(), Some(pair.value));
            at = at.wrapping_add(1);
        }
        assert!(rt; values.next().is_none());
        assert!(rt; self.index.nth(at).is_none());
    }

    // A call of each kind is as likely as of any other, wherever it reaches.
    fn step(&mut self, rt: &impl Abort, alloc: Global, dice: &mut Dice) -> Result<(), Fault> {
        let key = dice.roll() % KEYS;
        match dice.roll() % 4 {
            0 => self.put(rt, alloc, key, dice.roll())?,
            1 => self.take(rt, key),
            2 => self.write(rt, key, dice.roll()),
            _ => self.check_from(rt, key),
        }
        Ok(())
    }

    // The nodes in their order, without the index.
    fn check_chain(self, rt: &impl Abort) {
        let Both { index, beside } = self;
        let chain = index.into_chain();
        let mut values = chain.iter();
        for pair in beside.iter() {
            check_same(rt, values.next().copied(), Some(pair.value));
        }
        assert!(rt; values.next().is_none());
    }
}

/// So few keys that some nodes share one.
const KEYS: u64 = 4_000;

// So many values that came in wherever the dice chose.
fn mixed(
    rt: &impl Abort,
    alloc: Global,
    dice: &mut Dice,
    both: &mut Both,
    count: usize,
) -> Result<(), Fault> {
    for _ in 0..count {
        both.put(rt, alloc, dice.roll() % KEYS, dice.roll())?;
    }
    Ok(())
}

/// Five thousand come in, twenty thousand calls follow, all go, and seven hundred come in again.
#[test]
fn five_thousand_nodes_are_as_in_a_plain_list(rt: HostRuntime) -> Result<(), Fail> {
    let alloc = rt.alloc();
    let mut dice = Dice::new();
    let mut both = Both::new(alloc);
    mixed(&rt, alloc, &mut dice, &mut both, 5_000)?;
    both.check_alike(&rt);
    for _ in 0..20_000u32 {
        both.step(&rt, alloc, &mut dice)?;
    }
    both.check_alike(&rt);
    for _ in 0..both.beside.len() {
        let at = dice.below(both.beside.len());
        let key = both.beside.get(at).map_or(0, |pair| pair.key);
        both.take(&rt, key);
    }
    check_same(&rt, both.beside.len(), 0);
    both.check_alike(&rt);
    mixed(&rt, alloc, &mut dice, &mut both, 700)?;
    both.check_alike(&rt);
    both.check_chain(&rt);
    Ok(())
}

/// Where nodes come in and go.
#[derive(Clone, Copy)]
enum Spot {
    Front,
    Middle,
    End,
}

const SPOTS: [Spot; 3] = [Spot::Front, Spot::Middle, Spot::End];

/// A key that is greater than half of all.
const HALF: u64 = 1 << 32;

// The key of the turn-th node that comes in at a spot, where no other comes in elsewhere.
fn key_at(spot: Spot, turn: u64) -> u64 {
    match spot {
        Spot::Front => HALF.wrapping_sub(turn),
        Spot::Middle if turn % 2 == 0 => turn,
        Spot::Middle => HALF.wrapping_mul(2).wrapping_sub(turn),
        Spot::End => HALF.wrapping_add(turn),
    }
}

// So many values come in at a spot, for which there is room.
fn fill(
    rt: &impl Abort,
    alloc: Global,
    both: &mut Both,
    spot: Spot,
    count: usize,
) -> Result<(), Fault> {
    for _ in 0..count {
        let turn = both.beside.len() as u64;
        both.insert(rt, alloc, key_at(spot, turn), turn)?;
    }
    both.check_alike(rt);
    Ok(())
}

// So many go from a spot.
fn empty(rt: &impl Abort, both: &mut Both, spot: Spot, count: usize) {
    for _ in 0..count {
        let at = match spot {
            Spot::Front => 0,
            Spot::Middle => both.beside.len() / 2,
            Spot::End => both.beside.len().saturating_sub(1),
        };
        let key = both.beside.get(at).map_or(0, |pair| pair.key);
        both.take(rt, key);
    }
    both.check_alike(rt);
}

// Room is made for three more than so many. These come in at one spot, three more at another, six go from there, and then the others;
// and as many come in again.
fn check_length(
    rt: &impl Abort,
    alloc: Global,
    len: usize,
    first: Spot,
    second: Spot,
) -> Result<(), Fault> {
    let mut both = Both::new(alloc);
    both.index.spare(len.saturating_add(3))?;
    fill(rt, alloc, &mut both, first, len)?;
    for _ in 0..3u32 {
        fill(rt, alloc, &mut both, second, 1)?;
    }
    for _ in 0..6u32 {
        empty(rt, &mut both, second, 1);
    }
    empty(rt, &mut both, second, len.saturating_sub(3));
    check_same(rt, both.beside.len(), 0);
    fill(rt, alloc, &mut both, second, len)?;
    both.check_chain(rt);
    Ok(())
}

/// Lengths of whole segments, and of halves of one.
const WHOLE: [usize; 8] = [64, 128, 192, 256, 384, 512, 768, 1_024];

/// A node less than such a length, so many, and one more.
#[test]
fn nodes_come_and_go_around_whole_segments(rt: HostRuntime) -> Result<(), Fail> {
    for whole in WHOLE {
        for len in [whole.saturating_sub(1), whole, whole.saturating_add(1)] {
            for first in SPOTS {
                for second in SPOTS {
                    check_length(&rt, rt.alloc(), len, first, second)?;
                }
            }
        }
    }
    Ok(())
}

// Makes room for so many more. Where it is refused, nothing has changed.
fn try_spare(rt: &impl Abort, both: &mut Both, count: usize) -> Result<(), Fault> {
    let room = both.index.room();
    let answer = both.index.spare(count);
    if answer.is_err() {
        check_same(rt, both.index.room(), room);
        both.check_alike(rt);
    }
    answer
}

/// With no nodes, and with so many that there are several segments.
#[test]
fn room_for_nodes_is_refused_until_there_is_memory(rt: HostRuntime) -> Result<(), Fail> {
    let alloc = rt.alloc();
    for count in [0usize, 1, 700] {
        let mut both = Both::new(alloc);
        mixed(&rt, alloc, &mut Dice::new(), &mut both, count)?;
        let (refusals, ()) = at_each_amount(alloc, || try_spare(&rt, &mut both, 1_500))?;
        check_same(&rt, 0 < refusals, true);
        fill(&rt, alloc, &mut both, Spot::Middle, 1_500)?;
        both.check_chain(&rt);
    }
    Ok(())
}

// Drops many, one after the other.
fn drop_many(rt: &impl Abort, alloc: Global) -> Result<(), Fault> {
    for _ in 0..300u32 {
        let mut both = Both::new(alloc);
        mixed(rt, alloc, &mut Dice::new(), &mut both, 200)?;
    }
    Ok(())
}

/// There is memory for one at a time.
#[test]
fn what_a_dropped_index_held_is_free_again(rt: HostRuntime) -> Result<(), Fail> {
    let alloc = rt.alloc();
    let (refusals, ()) = at_each_amount(alloc, || drop_many(&rt, alloc))?;
    check_same(&rt, 1 < refusals, true);
    Ok(())
}
