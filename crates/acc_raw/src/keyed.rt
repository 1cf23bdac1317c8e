//! Keys, and where a key is found among linked nodes.
ghost use Rattle.std.specs.Prelude.{◌≡◌, ◌≤◌, ℕ, None, length};
ghost use Rattle.std.specs.List.{position_or_len};
ghost use Rattle.acc_raw.specs.inner.Chained.{IsChained};
ghost use Rattle.acc_raw.specs.inner.Keys.{meets, IsSought};
ghost use Rattle.acc_raw.specs.inner.Wired.{place_before, values};

use crate::chained::Chained;
use crate::link::Place;
use crate::nth::Nth;

/// A value with a key, by which a chain finds it.
pub trait Keyed {
    ghost key_of: { Self → ℕ };

    /// The key, which is the same as long as the value is.
    fn key(&self) -> u64
        ensures { result ≡ key_of self.now };
}

/// Which key is sought.
#[derive(Clone, Copy)]
pub(crate) enum Aim {
    /// This one.
    Equal(u64),
    /// One that is greater.
    Above(u64),
}

/// Where a search ended: the place of the node that was found and which one it is, or no place and how many nodes there are.
#[derive(Drop)]
pub(crate) struct Sought {
    pub(crate) at: Option<Place>,
    pub(crate) index: Nth,
}

// Whether a key is as sought.
fn is_met(aim: Aim, key: u64) -> bool
    ensures { result ≡ meets aim key }
{
    match aim {
        Aim::Equal(sought) => key == sought,
        Aim::Above(below) => below < key,
    }
}

/// The first node whose key is as sought.
pub(crate) fn seek<T: Keyed>(nodes: &Chained<T>, aim: Aim) -> Sought
    requires { IsChained nodes.now }
    ensures place { IsSought nodes.now.store.links result }
    ensures first { result.index.n
        ≡ position_or_len (λ x. meets aim (T.key_of x)) (values nodes.now.store.links) }
{
    let mut at = nodes.head;
    let mut index = Nth::of(0);
    while let Some(place) = at {
        let link = nodes.store.get(place, index.same());
        if is_met(aim, link.value.key()) {
            break;
        }
        at = link.next;
        index = index.after();
    }
    Sought { at, index }
}

/// The place before the one that was found.
pub(crate) fn before<T>(nodes: &Chained<T>, sought: &Sought) -> Option<Place>
    requires chained { IsChained nodes.now }
    requires place { IsSought nodes.now.store.links sought.now }
    ensures { result ≡ place_before None nodes.now.store.links sought.now.index.n }
{
    match sought.at {
        Some(place) => nodes.store.get(place, sought.index.same()).prev,
        None => nodes.tail,
    }
}
