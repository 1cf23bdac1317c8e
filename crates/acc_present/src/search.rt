//! Whether a range overlaps entries beside changed ones.

ghost use Rattle.std.specs.Prelude.{◌≡◌, map, true};
ghost use Rattle.acc_present.specs.Lifetimes.{is_before};
ghost use Rattle.acc_present.specs.Presences.{overlaps_any};
ghost use Rattle.acc_present.specs.Drafts.{beside};
ghost use Rattle.acc_present.specs.Tables.{entry_presence, held_presence, is_table};

use crate::entry::Entry;
use crate::held::{Held, overlaps_one};
use acc_base::Range;
use acc_raw::Iter;

// The first range begins before the second.
#[tactic(auto, unfolding(crate::specs::Lifetimes::is_before))]
fn stands_before(first: Range, second: Range) -> bool
    ensures { result ≡ is_before first second }
{
    first.array < second.array || (first.array == second.array && first.lo < second.lo)
}

// Whether the range overlaps one of these entries that no changed one overlaps. Goes along them until one begins behind the range.
pub(crate) fn overlaps_beside_in(entries: Iter<'_, Entry>, range: Range, changed: &[Held]) -> bool
    requires { is_table (map entry_presence entries) ≡ true }
    ensures { result ≡ overlaps_any (beside (map held_presence changed.now)
        (map entry_presence entries.entry)) range }
{
    for entry in entries {
        if entry.range.overlaps(&range) {
            if !overlaps_one(changed, entry.range) {
                return true;
            }
        } else if stands_before(range, entry.range) {
            return false;
        }
    }
    false
}
