//! Whether hosts have had the same directives accepted in two places.

ghost use Rattle.std.specs.Prelude.{All, ℕ, ◌≡◌, ◌≢◌, ◌↔◌, ◌<◌, IsTrue};
ghost use Rattle.acc_place.specs.declared.directive.Clause.TheVariants.{NoCreate};
ghost use Rattle.acc_place.specs.declared.directive.DataItem.{DataItem};
ghost use Rattle.acc_explore.specs.inner.Comparing.{CountsAll, IsCountedBelow, own_in};
ghost use Rattle.acc_host.specs.OwnEntries.{own as own_by};

use acc_base::HostId;
use acc_host::{OwnDirective, OwnDirectives};
use acc_place::{Clause, DataItem, Kind, Place, PlaceEntry};

// Whether two directives with their answers are equal, each behind as many items of its host.
fn is_same_own(one: &OwnDirective, other: &OwnDirective) -> bool
    ensures { IsTrue result → own_by one.now ≡ own_by other.now }
{
    one.items_before == other.items_before
        && one.directive.is_same(other.directive)
        && one.answer.placed().is_same(&other.answer.placed())
}

// Whether a host has the same directives in both, with the same answers.
fn has_same_directives(host: HostId, old: &Place, new: &Place) -> bool
    ensures { IsTrue result → own_in old.now host ≡ own_in new.now host }
{
    let mut owns = OwnDirectives::new(old, host);
    let mut others = OwnDirectives::new(new, host);
    while let Some(own) = owns.next() {
        match others.next() {
            None => return false,
            Some(other) => {
                if !is_same_own(&own, &other) {
                    return false;
                }
            }
        }
    }
    others.next().is_none()
}

/// Whether each of the first hosts has.
pub(crate) fn have_same_directives(hosts: u8, old: &Place, new: &Place) -> bool
    ensures { IsTrue result → (host : ℕ) → host < hosts
        → own_in old.now host ≡ own_in new.now host }
{
    for host in 0..hosts {
        if !has_same_directives(HostId::new(host), old, new) {
            return false;
        }
    }
    true
}

// Whether no item takes an action only where its range is present.
fn are_counted(items: &[DataItem]) -> bool
    ensures { IsTrue result ↔ All (λ (i : DataItem). i.clause ≢ NoCreate) items.now }
{
    items.iter().all(|item| item.clause != Clause::NoCreate)
}

// Whether a directive is no data construct with such an item.
fn counts_all(kind: &Kind, items: &[DataItem]) -> bool
    ensures { IsTrue result ↔ CountsAll kind.now items.now }
{
    match kind {
        Kind::Data => are_counted(items),
        _ => true,
    }
}

// Whether an entry of a place history is no directive of another host than the first ones, and one that counts all of its items.
fn is_counted_below(entry: &PlaceEntry, hosts: u8) -> bool
    ensures { IsTrue result ↔ IsCountedBelow hosts entry.now }
{
    match entry {
        PlaceEntry::Accepted { host, directive } => {
            host.number() < hosts && counts_all(directive.kind(), directive.items().as_slice())
        }
        PlaceEntry::Closing | PlaceEntry::Closed { .. } => true,
    }
}

/// Whether each is so: the data constructs that a host is inside are told by its own directives then.
pub(crate) fn are_counted_below(entries: &[PlaceEntry], hosts: u8) -> bool
    ensures { IsTrue result ↔ All (IsCountedBelow hosts) entries.now }
{
    entries.iter().all(|entry| is_counted_below(entry, hosts))
}
