//! The owner of nodes, which reaches them by where they lie.
//!
//! A call that reaches a node takes, beside its place, which of the nodes it is. That number takes no bytes: contracts
//! use it to tell what is there.
ghost use Rattle.std.specs.Prelude.{◌≡◌, ◌<◌, ◌≤◌, [], List, length, slice_get, Some};
ghost use Rattle.std.specs.Borrow.{sem};
ghost use Rattle.acc_raw.specs.inner.Links.{Lying, IsAt, with_at, without};
ghost use Rattle.acc_raw.specs.inner.Ownership.{links_own, links_lent};

use crate::link::Place;
use crate::nth::{Nth, nth_by};
use std::alloc::Global;
use std::marker::{Model, PhantomData};

/// The owner of nodes, each an `L` in a block of its own. It takes no space.
pub(crate) struct Store<L> {
    mark: PhantomData<*const L>,
    pub ghost links: { List (Lying L) },
}

impl<L> Model for Store<L> {
    ghost also_owns = { λ s. links_own L.row s.links };

    ghost also_shares = { λ s _ κ. links_lent L.row s.links κ };
}

unsafe impl<L: Send> Send for Store<L> {}

unsafe impl<L: Sync> Sync for Store<L> {}

impl<L> Drop for Store<L> {
    fn drop(self)
        requires { self.links ≡ [] }
    {
        let Store { mark: _ } = self;
    }
}

impl<L> Store<L> {
    ghost use Rattle.acc_raw.specs.inner.Lends.{lends_link};

    /// No nodes.
    pub(crate) fn new() -> Store<L>
        ensures { result.links ≡ [] }
    {
        Store { mark: PhantomData }
    }

    /// How many nodes there are.
    pub(crate) fn count(&self) -> Nth
        ensures { result.n ≡ length self.now.links }
    {
        nth_by(self)
    }

    /// The node at `at`, which is the `index`-th.
    pub(crate) fn get(&self, at: Place, index: Nth) -> &L
        requires { IsAt self.now.links index.n at.ptr }
        ensures { slice_get self.now.links index.n ≡ Some (at.ptr, result.now) }
    {
        let Nth {} = index;
        unsafe { &*(at.ptr as *const L) }
    }

    /// Lends the node at `at`, which is the `index`-th, to be changed.
    pub(crate) fn get_mut(&mut self, at: Place, index: Nth) -> &mut L
        requires { IsAt self.old.links index.n at.ptr }
        ensures* writes_back { sem 𝓛 (lends_link L.row self.entry index.n at.ptr result) }
        ensures value { slice_get self.old.links index.n ≡ Some (at.ptr, result.now) }
    {
        let Nth {} = index;
        unsafe { &mut *(at.ptr.cast_mut() as *mut L) }
    }
}

impl<L: Drop> Store<L> {
    /// Puts a node before the `index`-th, or behind all, and tells where it lies.
    pub(crate) fn put(&mut self, link: Box<L>, index: Nth) -> Place
        ensures { self.new.links ≡ with_at self.old.links index.n (result.ptr, link.value) }
    {
        let Nth {} = index;
        Place {
            ptr: Box::into_raw(link) as *const u8,
        }
    }

    /// Takes the `index`-th node out, which is at `at`.
    pub(crate) fn take(&mut self, alloc: Global, at: Place, index: Nth) -> Box<L>
        requires { IsAt self.old.links index.n at.ptr }
        ensures value { slice_get self.old.links index.n ≡ Some (at.ptr, result.value) }
        ensures rest { self.new.links ≡ without self.old.links index.n }
    {
        let Nth {} = index;
        unsafe { Box::from_raw(alloc, at.ptr.cast_mut() as *mut L) }
    }
}
