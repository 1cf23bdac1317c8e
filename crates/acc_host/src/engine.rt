//! What hosts run on: its calls, and what each adds to a host's list.

ghost use Rattle.std.specs.Prelude.{◌≡◌, ℕ, List, Result, Ok, Err, IfErr, OnErr, false, true};
ghost use Rattle.acc_host.specs.Engines.{HostEntry, Call, Place, Wait, Record, Lists, Keeps, MayRecord, without_item};

use acc_base::{DeviceId, Fault, HostId, QueueCounts};
use acc_place::{Directive, Placed};
use acc_work::{Item, Shown};

/// What hosts run on: it places their directives, and records their items. Where a call is refused, nothing has changed.
pub trait Engine {
    /// How many devices there are.
    ghost devices: { Self → ℕ };

    /// The hosts that it serves.
    ghost serves: { Self → ℕ → Type 0 };

    /// What a host's calls have added, in order: its directives with their answers, and its items with what they told.
    ghost entries: { Self → ℕ → List HostEntry };

    /// What the engine itself says of a host's call.
    ghost makes: { Self → ℕ → Call → Self → Type 0 };

    /// Places a directive.
    ///
    /// # Errors
    ///
    /// The directive's first fault; else `Memory` for want of memory, or `QueueFull`.
    fn place(&mut self, host: HostId, directive: &Directive) -> Result<Placed, Fault>
        requires host { serves self.old host }
        ensures makes { makes self.old host (Place directive.now result) self.new }
        ensures lists { Lists (Place directive.now result) (entries self.old host)
            (entries self.new host) }
        ensures keeps { Keeps devices serves entries host self.old self.new }
        ensures refused { OnErr result (self.new ≡ self.old) };

    /// Records that each queue of a device has performed so many batches, or answers that some has not.
    ///
    /// # Errors
    ///
    /// `Memory` for want of memory, `TooMany` behind the last item of a run.
    fn wait_for(
        &mut self,
        host: HostId,
        device: DeviceId,
        counts: QueueCounts,
    ) -> Result<bool, Fault>
        requires host { serves self.old host }
        ensures makes { makes self.old host (Wait device counts result) self.new }
        ensures lists { Lists (Wait device counts result) (entries self.old host)
            (entries self.new host) }
        ensures keeps { Keeps devices serves entries host self.old self.new }
        ensures refused { OnErr result (self.new ≡ self.old) }
        ensures idle { result ≡ Ok false → self.new ≡ self.old };

    /// Records an item, any but a Seen, and answers a test. An item that is refused comes back.
    ///
    /// # Errors
    ///
    /// `Memory` for want of memory, `TooMany` behind the last item of a run, `BadRange` for cells that aren't there.
    fn item(&mut self, host: HostId, item: Item) -> Result<Shown, (Item, Fault)>
        requires host { serves self.old host }
        requires item { MayRecord item }
        ensures makes { makes self.old host (Record item (without_item result)) self.new }
        ensures lists { Lists (Record item (without_item result)) (entries self.old host)
            (entries self.new host) }
        ensures keeps { Keeps devices serves entries host self.old self.new }
        ensures refused { OnErr result (self.new ≡ self.old) }
        ensures back { IfErr result (λ r. r.0 ≡ item) };

    /// How many devices there are.
    fn ask(&self) -> u8
        ensures { result ≡ devices self.now };
}
