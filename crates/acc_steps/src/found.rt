//! What is found on a device.

ghost use Rattle.std.specs.Prelude.{◌≡◌, ◌<◌, ◌^◌};
ghost use Rattle.std.specs.Option.{option_map};
ghost use Rattle.acc_core.specs.Machine.{standing_of};
ghost use Rattle.acc_present.specs.Presences.{is_partly_present, overlaps_any, presences, used_cells};
ghost use Rattle.acc_steps.specs.Lines.{held_on, present_on};

use acc_base::{DeviceId, Range};
use acc_core::World;

/// The counters of what holds a range on a device, if something does.
pub(crate) fn held_on(world: &World, device: DeviceId, range: Range) -> Option<(u64, u64)>
    ensures { result ≡ option_map (λ p. (p.s, p.d)) (held_on world.now device range) }
{
    if device.number() < world.devices() && 0 < range.len {
        world.counters(device, range)
    } else {
        None
    }
}

/// Whether a range overlaps what is present on a device, and nothing holds it whole.
pub(crate) fn is_partly_present(world: &World, device: DeviceId, range: Range) -> bool
    ensures { result ≡ is_partly_present (present_on world.now device) range }
{
    if range.len == 0 {
        return false;
    }
    if world.devices() <= device.number() {
        return false;
    }
    overlaps_any(world, device, range) && !world.place().is_present(device, range)
}

// Whether a range overlaps one that is present on a device.
fn overlaps_any(world: &World, device: DeviceId, range: Range) -> bool
    requires { device < world.now.config.devices }
    ensures { result ≡ overlaps_any (presences ((standing_of world.now).marks device)) range }
{
    for entry in world.place().entries(device) {
        if entry.range.overlaps(&range) {
            return true;
        }
    }
    false
}

/// How many cells of a device are in use.
pub(crate) fn used_cells(world: &World, device: DeviceId) -> u64
    ensures { result ≡ used_cells (present_on world.now device) }
{
    if device.number() < world.devices() {
        world.place().used_cells(device)
    } else {
        0
    }
}
