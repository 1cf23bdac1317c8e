//! A chain of linked nodes, seen as the list of its values. Whoever adds a node has made it before, so that no call here takes memory.
ghost use Rattle.std.specs.Prelude.{◌≡◌, ◌-◌, ◌++◌, ◌∷◌, ◌==◌, nat_lt, [], length, find, insert, remove, slice_get, slice_set, IfSome, IfNone};
ghost use Rattle.std.specs.Borrow.{sem, LendsIf};
ghost use Rattle.std.specs.List.{position_or_len};
ghost use Rattle.std.specs.Option.{option_copied, option_copied_mut};
ghost use Rattle.acc_raw.specs.inner.Wired.{values};
ghost use Rattle.acc_raw.specs.inner.Chained.{IsChained};

use crate::chained::{Chained, link_at, unlink_at};
use crate::iter::Iter;
use crate::keyed::{Aim, Keyed, before, seek};
use crate::link::Node;
use crate::nth::Nth;
use crate::store::Store;
use std::alloc::Global;
use std::marker::Model;

/// A list of nodes, each linked to the next and to the one before by where they lie. Contracts see the list of
/// the values. At its end it frees its nodes, from the first on, one after the other.
pub struct Chain<T> {
    nodes: Chained<T>,
    alloc: Global,
}

impl<T> Model for Chain<T> {
    ghost use Rattle.std.specs.Prelude.{List};
    ghost use Rattle.acc_raw.specs.inner.Wired.{values};
    ghost use Rattle.acc_raw.specs.inner.Chained.{IsChained};

    ghost Value = { List T };

    ghost view = { λ c. values c.nodes.store.links };

    ghost invariant = { λ c. IsChained c.nodes };
}

impl<T> Chain<T> {
    /// A chain without nodes, whose blocks are this allocator's.
    pub fn new(alloc: Global) -> Self
        ensures { result ≡ [] }
    {
        Chain {
            nodes: Chained {
                store: Store::new(),
                head: None,
                tail: None,
            },
            alloc,
        }
    }

    /// The chain of these nodes, whose blocks are this allocator's.
    pub(crate) fn of(alloc: Global, nodes: Chained<T>) -> Self
        requires { IsChained nodes }
        ensures { result ≡ values nodes.store.links }
    {
        Chain { nodes, alloc }
    }

    /// The values, in their order.
    pub fn iter(&self) -> Iter<'_, T>
        ensures { result ≡ self.now }
    {
        Iter::of(&self.nodes)
    }

    /// The last value, or none where the chain is empty.
    pub fn last(&self) -> Option<&T>
        ensures { option_copied result ≡ slice_get self.now (length self.now - 1) }
    {
        let at = match self.nodes.tail {
            Some(at) => at,
            None => return None,
        };
        let index = self.nodes.store.count().before();
        Some(&self.nodes.store.get(at, index).value)
    }
}

impl<T: Drop> Chain<T> {
    /// Puts a node behind the others.
    pub fn push_back(&mut self, node: Node<T>)
        ensures { self.new ≡ self.old ++ node ∷ [] }
    {
        let mut link = node.into_link();
        link.prev = self.nodes.tail;
        link.next = None;
        let end = self.nodes.store.count();
        link_at(&mut self.nodes, link, end);
    }

    /// Takes the first node out, or none where the chain is empty.
    pub fn pop_front(&mut self) -> Option<Node<T>>
        ensures none { IfNone result ((self.old ≡ []) × (self.new ≡ [])) }
        ensures some { IfSome result (λ n. self.old ≡ n ∷ self.new) }
    {
        let at = match self.nodes.head {
            Some(at) => at,
            None => return None,
        };
        let link = unlink_at(&mut self.nodes, self.alloc, at, Nth::of(0));
        Some(Node::of_link(link))
    }

    // Takes all nodes out and frees them.
    fn clear(&mut self)
        ensures { self.new ≡ [] }
    {
        while let Some(node) = self.pop_front() {
            drop(node);
        }
    }

    // The owner of the nodes can be let go only without nodes.
    fn destroy_empty(self)
        requires { self ≡ [] }
    {
        let Chain { nodes, alloc: _ } = self;
        let Chained {
            store,
            head: _,
            tail: _,
        } = nodes;
        drop(store);
    }
}

impl<T: Keyed> Chain<T> {
    ghost use Rattle.acc_raw.specs.contracts.chain.Chain.{the_row};

    /// The first value with this key, or none.
    pub fn find(&self, key: u64) -> Option<&T>
        ensures { option_copied result ≡ find (λ x. T.key_of x == key) self.now }
    {
        let sought = seek(&self.nodes, Aim::Equal(key));
        match sought.at {
            Some(at) => Some(&self.nodes.store.get(at, sought.index).value),
            None => None,
        }
    }

    /// Lends the first value with this key to be changed, or none. When the loan ends, the chain has there what was
    /// written last, and all else as before.
    pub fn find_mut(&mut self, key: u64) -> Option<&mut T>
        ensures value { option_copied_mut result ≡ find (λ x. T.key_of x == key) self.old }
        ensures* writes_back { sem 𝓛 (LendsIf (the_row T.row) T.row self.entry result
            (slice_set self.old (position_or_len (λ x. T.key_of x == key) self.old)) self.old) }
    {
        let sought = seek(&self.nodes, Aim::Equal(key));
        match sought.at {
            Some(at) => {
                let link = self.nodes.store.get_mut(at, sought.index);
                Some(&mut link.value)
            }
            None => None,
        }
    }
}

impl<T: Keyed + Drop> Chain<T> {
    /// Puts a node before the first one with a greater key, or behind all.
    pub fn insert_sorted(&mut self, node: Node<T>)
        ensures { self.new ≡ insert self.old (position_or_len (λ x.
            nat_lt (T.key_of node) (T.key_of x)) self.old) node }
    {
        let mut link = node.into_link();
        let sought = seek(&self.nodes, Aim::Above(link.value.key()));
        link.prev = before(&self.nodes, &sought);
        link.next = sought.at;
        link_at(&mut self.nodes, link, sought.index);
    }

    /// Takes out the first node with this key and no other, or none where no value has it.
    pub fn unlink_first_match(&mut self, key: u64) -> Option<Node<T>>
        ensures node { result ≡ find (λ x. T.key_of x == key) self.old }
        ensures rest { self.new ≡ remove self.old (position_or_len (λ x.
            T.key_of x == key) self.old) }
    {
        let sought = seek(&self.nodes, Aim::Equal(key));
        let at = match sought.at {
            Some(at) => at,
            None => return None,
        };
        let link = unlink_at(&mut self.nodes, self.alloc, at, sought.index);
        Some(Node::of_link(link))
    }
}

impl<T: Drop> Drop for Chain<T> {
    fn drop(mut self) {
        self.clear();
        self.destroy_empty();
    }
}
