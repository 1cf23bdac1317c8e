//! Whether two worlds have accepted alike.

ghost use Rattle.std.specs.Prelude.{ℕ, ◌≡◌, ◌↔◌, IsTrue, length};
ghost use Rattle.acc_core.specs.Machine.{standing_of};
ghost use Rattle.acc_explore.specs.Alike.{AlikePlaces, own_directives};
ghost use Rattle.acc_explore.specs.Scripts.{AreOfOneScript};
ghost use Rattle.acc_explore.specs.inner.Comparing.{AreComparedPlaces};

use crate::directives::{are_counted_below, have_same_directives};
use crate::placed::{have_same_batches, have_same_presences};
use acc_core::World;
use acc_place::{Place, PlaceEntry};

// Whether two entries of place histories are equal.
fn is_same_entry(entry: &PlaceEntry, other: &PlaceEntry) -> bool
    ensures { IsTrue result ↔ entry.now ≡ other.now }
{
    match (entry, other) {
        (
            PlaceEntry::Accepted { host, directive },
            PlaceEntry::Accepted {
                host: other_host,
                directive: other_directive,
            },
        ) => host == other_host && directive.is_same(other_directive),
        (PlaceEntry::Closing, PlaceEntry::Closing) => true,
        (PlaceEntry::Closed { at }, PlaceEntry::Closed { at: other_at }) => at == other_at,
        _ => false,
    }
}

// Whether two place histories are equal.
fn are_same_entries(entries: &[PlaceEntry], others: &[PlaceEntry]) -> bool
    ensures { IsTrue result ↔ entries.now ≡ others.now }
{
    if entries.len() != others.len() {
        return false;
    }
    for index in 0..entries.len() {
        if !is_same_entry(&entries[index], &others[index]) {
            return false;
        }
    }
    true
}

// Whether two lists of counts are equal.
fn are_same_counts(counts: &[u64], others: &[u64]) -> bool
    ensures { IsTrue result ↔ counts.now ≡ others.now }
{
    if counts.len() != others.len() {
        return false;
    }
    for index in 0..counts.len() {
        if counts[index] != others[index] {
            return false;
        }
    }
    true
}

// Whether two places have accepted the same directives in the same order, each behind as many items of its host, and were closed
// alike.
fn have_same_histories(old: &Place, new: &Place) -> bool
    ensures history { IsTrue result → old.now.history ≡ new.now.history }
    ensures counts { IsTrue result → old.now.counts ≡ new.now.counts }
{
    are_same_entries(old.history(), new.history()) && are_same_counts(old.counts(), new.counts())
}

// Whether the histories of two places have as many entries.
fn have_as_many(old: &Place, new: &Place) -> bool
    ensures { IsTrue result → length old.now.history ≡ length new.now.history }
{
    old.history().len() == new.history().len()
}

// Whether what two places of one configuration have accepted is the same, queue by queue, device by device, and host by host.
fn have_accepted_alike(hosts: u8, old: &Place, new: &Place) -> bool
    requires { new.now.config ≡ old.now.config }
    ensures { IsTrue result → AreComparedPlaces hosts old.now new.now }
{
    if !are_counted_below(old.history(), hosts)
        || !are_counted_below(new.history(), hosts)
        || !have_as_many(old, new)
        || !have_same_batches(old, new)
        || !have_same_presences(old, new)
    {
        return false;
    }
    have_same_directives(hosts, old, new)
}

/// Whether what two worlds of one script have accepted leaves alike, and each host has the same directives of its own in both. In
/// which order hosts came is left open, unless a data construct has a `no_create` item: the host's directives don't tell whether it was
/// counted then.
pub(crate) fn leave_alike(old: &World, new: &World) -> bool
    requires { AreOfOneScript old.now new.now }
    ensures places { IsTrue result → AlikePlaces (standing_of old.now) (standing_of new.now) }
    ensures own { IsTrue result → (host : ℕ)
        → own_directives old.now host ≡ own_directives new.now host }
{
    old.keeps();
    new.keeps();
    have_accepted_alike(old.hosts(), old.place(), new.place())
        || have_same_histories(old.place(), new.place())
}
