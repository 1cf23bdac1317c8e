//! A place history told once more: a place that has accepted it.

ghost use Rattle.std.specs.Prelude.{◌≡◌, ◌∷◌, length, reverse, IfOk, OnOk};
ghost use Rattle.acc_base.specs.Faults.{OnlyMemory};
ghost use Rattle.acc_place.specs.Histories.{AllAccepted, standing};
ghost use Rattle.acc_place.specs.Plans.{standing_in};
ghost use Rattle.acc_report.specs.inner.Retelling.{CanFollow, HasCount, counts_gone, counts_left};

use acc_base::{Config, Fault};
use acc_place::{Place, PlaceEntry};
use std::alloc::Global;

/// Tells a place history once more.
///
/// # Errors
///
/// `Memory` where memory is refused.
pub(crate) fn retell(
    alloc: Global,
    config: Config,
    places: &[PlaceEntry],
    counts: &[u64],
) -> Result<Place, Fault>
    requires accepted { AllAccepted config (reverse places.now) (reverse counts.now) }
    requires counted { length counts.now
        ≡ (standing config (reverse places.now) (reverse counts.now)).accepted }
    ensures config { IfOk result (λ p. p.config ≡ config) }
    ensures history { IfOk result (λ p. p.history ≡ reverse places.now) }
    ensures counts { IfOk result (λ p. p.counts ≡ reverse counts.now) }
    ensures fault { OnlyMemory result }
{
    let mut place = Place::new(alloc, config)?;
    let mut left = counts;
    for entry in places {
        left = tell(&mut place, entry, left)?;
    }
    Ok(place)
}

// Tells one entry, and gives the counts of those behind it.
fn tell<'a>(place: &mut Place, entry: &PlaceEntry, counts: &'a [u64]) -> Result<&'a [u64], Fault>
    requires next { CanFollow place.old.config (standing_in place.old) entry.now }
    requires counted { HasCount entry.now counts.now }
    ensures config { place.new.config ≡ place.old.config }
    ensures history { OnOk result (place.new.history ≡ entry.now ∷ place.old.history) }
    ensures counts { OnOk result
        (place.new.counts ≡ counts_gone entry.now counts.now place.old.counts) }
    ensures left { IfOk result (λ left. left.now ≡ counts_left entry.now counts.now) }
    ensures fault { OnlyMemory result }
{
    match entry {
        PlaceEntry::Accepted { host, directive } => {
            let (items_before, left) = match counts.split_first() {
                Some((first, left)) => (*first, left),
                None => (0, counts),
            };
            let _ = place.retell(*host, items_before, directive)?;
            Ok(left)
        }
        PlaceEntry::Closing => {
            place.close_begin();
            Ok(counts)
        }
        PlaceEntry::Closed { at } => {
            let _ = place.close_batch(*at);
            place.close_done(*at);
            Ok(counts)
        }
    }
}
