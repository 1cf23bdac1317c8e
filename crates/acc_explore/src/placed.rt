//! Whether two places have the same on each queue and each device.

ghost use Rattle.std.specs.Prelude.{◌≡◌, ◌<◌, ◌*◌, ℕ, IsTrue};
ghost use Rattle.acc_base.specs.declared.ids.TheConstants.{QUEUES};
ghost use Rattle.acc_base.specs.Queues.{at_seat, queue_count};
ghost use Rattle.acc_explore.specs.inner.Comparing.{HasSameBatches, HasSamePresences, HaveSameBatches};
ghost use Rattle.acc_place.specs.Plans.{standing_in};
ghost use Rattle.acc_present.specs.Tables.{entry_presence};

use acc_base::{DeviceId, QueueAt};
use acc_batch::are_same_labels;
use acc_place::Place;
use acc_present::Entry;

// Whether a queue has the same batches in both.
fn has_same_batches(old: &Place, new: &Place, seat: u16) -> bool
    requires { seat < 256 * QUEUES }
    ensures { IsTrue result
        → HasSameBatches (standing_in old.now) (standing_in new.now) (at_seat seat) }
{
    are_same_labels(
        old.labels_on(QueueAt::at_seat(seat)),
        new.labels_on(QueueAt::at_seat(seat)),
    )
}

/// Whether each queue has, as many as the first of two places has.
pub(crate) fn have_same_batches(old: &Place, new: &Place) -> bool
    ensures { IsTrue result
        → HaveSameBatches (queue_count old.now.config) (standing_in old.now) (standing_in new.now) }
{
    for seat in 0..old.config().queue_count() {
        if !has_same_batches(old, new, seat) {
            return false;
        }
    }
    true
}

// Whether two entries of tables tell of the same presence.
fn is_same_presence(entry: &Entry, other: &Entry) -> bool
    ensures { IsTrue result → entry_presence entry.now ≡ entry_presence other.now }
{
    entry.range == other.range
        && entry.block == other.block
        && entry.s == other.s
        && entry.d == other.d
}

// Whether the same is present on a device, with the same counters.
fn has_same_presences(device: DeviceId, old: &Place, new: &Place) -> bool
    requires old { device < old.now.config.devices }
    requires new { device < new.now.config.devices }
    ensures { IsTrue result → HasSamePresences (standing_in old.now) (standing_in new.now) device }
{
    let mut others = new.entries(device);
    for entry in old.entries(device) {
        let Some(other) = others.next() else {
            return false;
        };
        if !is_same_presence(entry, other) {
            return false;
        }
    }
    others.next().is_none()
}

/// Whether it is so on each device of two places of one configuration.
pub(crate) fn have_same_presences(old: &Place, new: &Place) -> bool
    requires { new.now.config ≡ old.now.config }
    ensures { IsTrue result → (device : ℕ) → device < old.now.config.devices
        → HasSamePresences (standing_in old.now) (standing_in new.now) device }
{
    for device in 0..old.config().devices() {
        if !has_same_presences(DeviceId::new(device), old, new) {
            return false;
        }
    }
    true
}
