//! Nodes are linked into a chain, found, changed and taken out of it again, wherever they stand; and a node
//! is made where memory is ample. Its contract lets each node be refused.

ghost use Rattle.std.specs.Prelude.{◌≡◌};

use crate::fixtures::check_same;
use acc_base::Fault;
use acc_raw::{Chain, Keyed, Node};
use std::alloc::{AllocError, Global};
use std::cell::Cell;
use std::process::Abort;
use std::test::Fail;
use tool_scarce::at_each_amount;

// A note under a key.
#[derive(Clone, Copy, Debug, PartialEq, Eq)]
struct Item {
    key: u64,
    note: u64,
}

impl Keyed for Item {
    ghost key_of = { λ i. i.key };

    fn key(&self) -> u64 {
        self.key
    }
}

// A node with a note, without the value that a refusal gives back.
fn noted(alloc: Global, key: u64, note: u64) -> Result<Node<Item>, Fault> {
    match Node::new(alloc, Item { key, note }) {
        Ok(node) => Ok(node),
        Err((_, fault)) => Err(fault),
    }
}

// Six notes in the order of their keys, and one behind them.
fn seven(alloc: Global) -> Result<Chain<Item>, Fault> {
    let mut chain = Chain::new(alloc);
    for item in [(5u64, 1u64), (3, 2), (5, 3), (4, 4), (9, 5), (1, 6)] {
        chain.insert_sorted(noted(alloc, item.0, item.1)?);
    }
    chain.push_back(noted(alloc, 0, 7)?);
    Ok(chain)
}

fn check_notes(rt: &impl Abort, chain: &Chain<Item>, wanted: &[u64]) {
    let mut at = 0usize;
    for item in chain.iter() {
        assert!(rt; at < wanted.len());
        check_same(rt, item.note, wanted[at]);
        at += 1;
    }
    assert_eq!(rt; at, wanted.len());
}

fn check_taken(rt: &impl Abort, node: Option<Node<Item>>, wanted: Option<u64>) {
    check_same(rt, node.map(|node| node.into_value().note), wanted);
}

// Only what can cross threads can be given to it.
fn crosses<T: Send>(value: T) -> T {
    value
}

#[test]
fn nodes_are_linked_by_their_keys(rt: HostRuntime) -> Result<(), Fail> {
    let alloc = rt.alloc();
    let empty: Chain<Item> = Chain::new(alloc);
    check_notes(&rt, &empty, &[]);
    assert!(rt; empty.last().is_none());
    let chain = seven(alloc)?;
    check_notes(&rt, &chain, &[6, 2, 4, 1, 3, 5, 7]);
    check_same(&rt, chain.last().map(|item| item.note), Some(7));
    check_notes(&rt, &crosses(chain), &[6, 2, 4, 1, 3, 5, 7]);
    Ok(())
}

#[test]
fn nodes_are_taken_out_wherever_they_stand(rt: HostRuntime) -> Result<(), Fail> {
    let mut chain = seven(rt.alloc())?;
    check_taken(&rt, chain.unlink_first_match(5), Some(1));
    check_notes(&rt, &chain, &[6, 2, 4, 3, 5, 7]);
    check_taken(&rt, chain.unlink_first_match(0), Some(7));
    check_same(&rt, chain.last().map(|item| item.note), Some(5));
    check_taken(&rt, chain.unlink_first_match(1), Some(6));
    check_taken(&rt, chain.unlink_first_match(8), None);
    check_notes(&rt, &chain, &[2, 4, 3, 5]);
    match chain.pop_front() {
        Some(node) => chain.push_back(node),
        None => assert!(rt; false),
    }
    check_notes(&rt, &chain, &[4, 3, 5, 2]);
    for note in [4u64, 3, 5, 2] {
        check_taken(&rt, chain.pop_front(), Some(note));
    }
    check_taken(&rt, chain.pop_front(), None);
    check_notes(&rt, &chain, &[]);
    Ok(())
}

#[test]
fn values_are_changed_where_they_stand(rt: HostRuntime) -> Result<(), Fail> {
    let mut chain = seven(rt.alloc())?;
    match chain.find_mut(5) {
        Some(item) => item.note = 10,
        None => assert!(rt; false),
    }
    assert!(rt; chain.find_mut(8).is_none());
    check_notes(&rt, &chain, &[6, 2, 4, 10, 3, 5, 7]);
    check_same(&rt, chain.find(5).map(|item| item.note), Some(10));
    assert!(rt; chain.find(8).is_none());
    let mut node = noted(rt.alloc(), 1, 2)?;
    node.value_mut().note = 3;
    check_same(&rt, node.value().note, 3);
    check_same(&rt, crosses(node).into_value(), Item { key: 1, note: 3 });
    Ok(())
}

#[test]
fn a_node_is_refused_until_there_is_memory(rt: HostRuntime) -> Result<(), Fail> {
    let alloc = rt.alloc();
    let (refusals, node) = at_each_amount(alloc, || noted(alloc, 1, 2))?;
    assert!(rt; 1 < refusals);
    check_same(&rt, node.value().note, 2);
    Ok(())
}

// It is freed node by node, so that its length doesn't matter.
#[test]
fn a_long_chain_ends(rt: HostRuntime) -> Result<(), Fail> {
    let alloc = rt.alloc();
    let mut chain = Chain::new(alloc);
    for note in 0..200_000u64 {
        chain.push_back(noted(alloc, note, note)?);
    }
    check_same(&rt, chain.last().map(|item| item.note), Some(199_999));
    drop(chain);
    Ok(())
}

// Nodes linked by their keys, and beside them the same items in a plain list, as they came.
#[derive(Drop)]
struct Both {
    chain: Chain<Item>,
    beside: Vec<Item>,
}

impl Both {
    fn put(&mut self, alloc: Global, item: Item) -> Result<(), Fail> {
        self.beside.push(item)?;
        self.chain.insert_sorted(noted(alloc, item.key, item.note)?);
        Ok(())
    }

    // The first that came with this key goes from both, or none.
    fn take(&mut self, rt: &impl Abort, key: u64) {
        let found = self.beside.iter().position(|item| item.key == key);
        let wanted = match found {
            Some(at) => Some(self.beside.remove(at)),
            None => None,
        };
        check_same(rt, self.chain.find(key).copied(), wanted);
        let node = self.chain.unlink_first_match(key);
        check_same(rt, node.map(|node| node.into_value()), wanted);
    }

    // What the chain has to hold: the items by their keys, and those with one key as they came.
    fn sorted(&self) -> Result<Vec<Item>, Fail> {
        let mut wanted = self.beside.clone()?;
        wanted.sort_by_key(|item| item.key)?;
        Ok(wanted)
    }

    fn check_alike(&self, rt: &impl Abort) -> Result<(), Fail> {
        let wanted = self.sorted()?;
        check_items(rt, &self.chain, &wanted);
        check_same(rt, self.chain.last().copied(), wanted.last().copied());
        Ok(())
    }
}

fn check_items(rt: &impl Abort, chain: &Chain<Item>, wanted: &[Item]) {
    let mut items = chain.iter();
    for item in wanted.iter() {
        check_same(rt, items.next().copied(), Some(*item));
    }
    assert!(rt; items.next().is_none());
}

/// A hundred thousand nodes, two with each key, are sorted in, found, taken out by key and from the front.
///
/// They come in rows of sixteen, the greatest keys first and mixed within a row, so that no node passes more than
/// sixteen others on its way in. A node that is taken out by key is found and then taken, each time through all that
/// come before it, 50,000 on average: three hundred of them are thirty million steps, and half as many in the list.
#[test]
fn a_hundred_thousand_nodes_are_as_in_a_plain_list(rt: HostRuntime) -> Result<(), Fail> {
    let alloc = rt.alloc();
    let mut both = Both {
        chain: Chain::new(alloc),
        beside: Vec::new(alloc),
    };
    let mut note = 0u64;
    for row in (0..6_250u64).rev() {
        for place in 0..16u64 {
            let key = (row * 16 + (place * 7 + 3) % 16) / 2;
            both.put(alloc, Item { key, note })?;
            note = note.wrapping_add(1);
        }
        if row % 1_250 == 0 {
            both.check_alike(&rt)?;
        }
    }
    for key in [0u64, 0, 0, 49_999, 49_999, 49_999, 50_000] {
        both.take(&rt, key);
    }
    for n in 0..300u64 {
        both.take(&rt, n * 7_919 % 50_000);
    }
    both.check_alike(&rt)?;
    for item in both.sorted()?.iter() {
        check_taken(&rt, both.chain.pop_front(), Some(item.note));
    }
    check_taken(&rt, both.chain.pop_front(), None);
    Ok(())
}

// A value that counts how often it is dropped.
struct Counted<'a> {
    key: u64,
    drops: &'a Cell<u64>,
}

impl Drop for Counted<'_> {
    fn drop(self) {
        let Counted { key: _, drops } = self;
        drops.set(drops.get().wrapping_add(1));
    }
}

impl Keyed for Counted<'_> {
    ghost key_of = { λ c. c.key };

    fn key(&self) -> u64 {
        self.key
    }
}

// How often each value was dropped.
fn check_drops(rt: &impl Abort, drops: &[Cell<u64>], wanted: &[u64]) {
    let mut at = 0usize;
    for count in drops.iter() {
        assert!(rt; at < wanted.len());
        check_same(rt, count.get(), wanted[at]);
        at += 1;
    }
    assert_eq!(rt; at, wanted.len());
}

// Values with the keys 0, 1, 2 and so on, behind one another.
fn linked<'a>(alloc: Global, drops: &'a [Cell<u64>]) -> Result<Chain<Counted<'a>>, Fail> {
    let mut chain = Chain::new(alloc);
    let mut key = 0u64;
    for drops in drops.iter() {
        match Node::new(alloc, Counted { key, drops }) {
            Ok(node) => chain.push_back(node),
            Err((_, fault)) => return Err(fault.into()),
        }
        key = key.wrapping_add(1);
    }
    Ok(chain)
}

/// Each value is dropped once: when its node was taken out, or when the chain ends.
#[test]
fn each_value_is_dropped_once(rt: HostRuntime) -> Result<(), Fail> {
    let drops = [
        Cell::new(0u64),
        Cell::new(0),
        Cell::new(0),
        Cell::new(0),
        Cell::new(0),
        Cell::new(0),
    ];
    let mut chain = linked(rt.alloc(), &drops)?;
    check_drops(&rt, &drops, &[0, 0, 0, 0, 0, 0]);
    drop(chain.unlink_first_match(2));
    check_drops(&rt, &drops, &[0, 0, 1, 0, 0, 0]);
    drop(chain.unlink_first_match(2));
    drop(chain.pop_front());
    check_drops(&rt, &drops, &[1, 0, 1, 0, 0, 0]);
    let held = chain.unlink_first_match(5).map(|node| node.into_value());
    check_drops(&rt, &drops, &[1, 0, 1, 0, 0, 0]);
    drop(chain);
    check_drops(&rt, &drops, &[1, 1, 1, 1, 1, 0]);
    drop(held);
    check_drops(&rt, &drops, &[1, 1, 1, 1, 1, 1]);
    Ok(())
}
