//! The values of a chain, one after the other.
ghost use Rattle.std.specs.Prelude.{◌≡◌, drop};
ghost use Rattle.std.specs.Iterator.{YieldsFirstRef, item_count};
ghost use Rattle.acc_raw.specs.inner.Wired.{values};
ghost use Rattle.acc_raw.specs.inner.Chained.{IsChained, IsCursor};

use crate::chained::Chained;
use crate::link::Place;
use crate::nth::Nth;
use std::marker::Model;

/// The values of a chain that are left, in its order.
#[derive(Drop)]
pub struct Iter<'chain, T> {
    nodes: &'chain Chained<T>,
    at: Option<Place>,
    index: Nth,
}

impl<'chain, T> Model for Iter<'chain, T> {
    ghost use Rattle.std.specs.Prelude.{List, drop};
    ghost use Rattle.acc_raw.specs.inner.Wired.{values};
    ghost use Rattle.acc_raw.specs.inner.Chained.{IsCursor};

    ghost Value = { List T };

    ghost view = { λ it. drop it.index.n (values it.nodes.now.store.links) };

    ghost invariant = { λ it. IsCursor it.nodes.now it.at it.index.n };
}

impl<'chain, T> Iterator for Iter<'chain, T> {
    type Item = &'chain T;

    ghost next_gives = { YieldsFirstRef (λ rest. rest) };

    ghost remaining = { item_count (λ rest. rest) };

    fn next(&mut self) -> Option<&'chain T> {
        let at = match self.at {
            Some(at) => at,
            None => return None,
        };
        let behind = self.index.after();
        let link = self.nodes.store.get(at, self.index.same());
        self.at = link.next;
        self.index = behind;
        Some(&link.value)
    }
}

impl<'chain, T> Iter<'chain, T> {
    /// All values.
    pub(crate) fn of(nodes: &'chain Chained<T>) -> Self
        requires { IsChained nodes.now }
        ensures { result ≡ values nodes.now.store.links }
    {
        Iter {
            nodes,
            at: nodes.head,
            index: Nth::of(0),
        }
    }

    /// The values from the one at `at` on, which is the `index`-th, or none.
    pub(crate) fn at(nodes: &'chain Chained<T>, at: Option<Place>, index: Nth) -> Self
        requires { IsCursor nodes.now at index.n }
        ensures { result ≡ drop index.n (values nodes.now.store.links) }
    {
        Iter { nodes, at, index }
    }
}
