//! Nodes that are linked to one another.
ghost use Rattle.std.specs.Prelude.{◌≡◌, ◌≤◌, length, slice_get, Some, None};
ghost use Rattle.acc_raw.specs.inner.Links.{IsAt};
ghost use Rattle.acc_raw.specs.inner.Wired.{place_at, place_before, next_set, prev_set, spliced, unspliced, is_between, end_after, IsWired};
ghost use Rattle.acc_raw.specs.inner.Chained.{IsChained};

use crate::link::{Link, Place};
use crate::nth::Nth;
use crate::store::Store;
use std::alloc::Global;

/// Nodes, and where the first and the last of them lie.
pub(crate) struct Chained<T> {
    pub(crate) store: Store<Link<T>>,
    pub(crate) head: Option<Place>,
    pub(crate) tail: Option<Place>,
}

// Has the node before the `index`-th, which is `node`, name `to` as the one after.
fn set_next<T>(store: &mut Store<Link<T>>, node: Option<Place>, index: Nth, to: Option<Place>)
    requires { node ≡ place_before None store.old.links index.n }
    ensures { store.new.links ≡ next_set store.old.links index.n to }
{
    if let Some(at) = node {
        store.get_mut(at, index.before()).next = to;
    }
}

// Has the `index`-th node, which is `node`, name `to` as the one before.
fn set_prev<T>(store: &mut Store<Link<T>>, node: Option<Place>, index: Nth, to: Option<Place>)
    requires { node ≡ place_at store.old.links index.n }
    ensures { store.new.links ≡ prev_set store.old.links index.n to }
{
    if let Some(at) = node {
        store.get_mut(at, index).prev = to;
    }
}

// Puts `link`, which names its neighbours, before the `index`-th node, and has these name it.
fn splice<T: Drop>(store: &mut Store<Link<T>>, link: Box<Link<T>>, index: Nth) -> Place
    requires between { is_between store.old.links index.n link.value }
    requires within { index.n ≤ length store.old.links }
    ensures { store.new.links ≡ spliced store.old.links index.n (result.ptr, link.value) }
{
    let prev = link.prev;
    let next = link.next;
    let behind = index.after();
    let at = store.put(link, index.same());
    set_next(store, prev, index, Some(at));
    set_prev(store, next, behind, Some(at));
    at
}

// Takes the `index`-th node out, which is at `at`, and has its neighbours name each other.
fn unsplice<T: Drop>(
    store: &mut Store<Link<T>>,
    alloc: Global,
    at: Place,
    index: Nth,
) -> Box<Link<T>>
    requires there { IsAt store.old.links index.n at.ptr }
    requires wired { IsWired None store.old.links }
    ensures value { slice_get store.old.links index.n ≡ Some (at.ptr, result.value) }
    ensures links { store.new.links ≡ unspliced store.old.links index.n result.value }
{
    let link = store.take(alloc, at, index.same());
    let prev = link.prev;
    let next = link.next;
    set_next(store, prev, index.same(), next);
    set_prev(store, next, index, prev);
    link
}

// The end on a node's one side: `to` where it has no neighbour there, else as before.
fn end_after(neighbour: Option<Place>, to: Option<Place>, end: Option<Place>) -> Option<Place>
    ensures { result ≡ end_after neighbour to end }
{
    match neighbour {
        None => to,
        Some(_) => end,
    }
}

/// Puts `link`, which names its neighbours, before the `index`-th node.
pub(crate) fn link_at<T: Drop>(nodes: &mut Chained<T>, link: Box<Link<T>>, index: Nth) -> Place
    requires chained { IsChained nodes.old }
    requires between { is_between nodes.old.store.links index.n link.value }
    requires within { index.n ≤ length nodes.old.store.links }
    ensures chained { IsChained nodes.new }
    ensures links { nodes.new.store.links
        ≡ spliced nodes.old.store.links index.n (result.ptr, link.value) }
{
    let prev = link.prev;
    let next = link.next;
    let at = splice(&mut nodes.store, link, index);
    nodes.head = end_after(prev, Some(at), nodes.head);
    nodes.tail = end_after(next, Some(at), nodes.tail);
    at
}

/// Takes the `index`-th node out, which is at `at`.
pub(crate) fn unlink_at<T: Drop>(
    nodes: &mut Chained<T>,
    alloc: Global,
    at: Place,
    index: Nth,
) -> Box<Link<T>>
    requires chained { IsChained nodes.old }
    requires there { IsAt nodes.old.store.links index.n at.ptr }
    ensures chained { IsChained nodes.new }
    ensures value { slice_get nodes.old.store.links index.n ≡ Some (at.ptr, result.value) }
    ensures links { nodes.new.store.links ≡ unspliced nodes.old.store.links index.n result.value }
{
    let link = unsplice(&mut nodes.store, alloc, at, index);
    let prev = link.prev;
    let next = link.next;
    nodes.head = end_after(prev, next, nodes.head);
    nodes.tail = end_after(next, prev, nodes.tail);
    link
}
