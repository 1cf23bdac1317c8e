//! Whether no event tells two worlds apart.

ghost use Rattle.std.specs.Prelude.{◌*◌, ◌<◌, IsTrue, slice_get};
ghost use Rattle.acc_base.specs.declared.ids.TheConstants.{QUEUES};
ghost use Rattle.acc_base.specs.Queues.{at_seat};
ghost use Rattle.acc_explore.specs.Alike.{Alike};
ghost use Rattle.acc_explore.specs.Scripts.{AreOfOneScript};
ghost use Rattle.acc_explore.specs.inner.Comparing.{AllStandAlike, HasSameProgress, HaveSameProgress, StandAlike};

use crate::cells::hold_same_cells;
use crate::histories::leave_alike;
use crate::items::have_same_items;
use acc_base::{HostId, QueueAt};
use acc_core::World;

// Whether a queue has taken as many batches in both worlds, of which as many operations are left.
fn has_same_progress(old: &World, new: &World, seat: u16) -> bool
    requires { seat < 256 * QUEUES }
    ensures { IsTrue result → HasSameProgress old.now new.now (at_seat seat) }
{
    old.taken(QueueAt::at_seat(seat)) == new.taken(QueueAt::at_seat(seat))
        && old.ops_left(QueueAt::at_seat(seat)) == new.ops_left(QueueAt::at_seat(seat))
}

// Whether each queue has.
fn have_same_progress(old: &World, new: &World) -> bool
    ensures { IsTrue result → HaveSameProgress old.now new.now }
{
    let config = old.place().config();
    for seat in 0..config.queue_count() {
        if !has_same_progress(old, new, seat) {
            return false;
        }
    }
    true
}

// Whether a host stands alike in both worlds.
fn stands_alike(old: &World, new: &World, host: HostId) -> bool
    ensures { IsTrue result
        → StandAlike (slice_get old.now.hosts host) (slice_get new.now.hosts host) }
{
    let (Some(host), Some(other)) = (old.host(host), new.host(host)) else {
        return false;
    };
    host.ended() == other.ended() && host.ids() == other.ids() && host.phase() == other.phase()
}

// Whether each host does.
fn all_stand_alike(old: &World, new: &World) -> bool
    ensures { IsTrue result → AllStandAlike old.now new.now }
{
    if old.hosts() != new.hosts() {
        return false;
    }
    for host in 0..old.hosts() {
        if !stands_alike(old, new, HostId::new(host)) {
            return false;
        }
    }
    true
}

/// Whether two worlds of one script are alike: no event tells them apart then, and they have one report. It takes no memory.
pub fn are_alike(old: &World, new: &World) -> bool
    requires { AreOfOneScript old.now new.now }
    ensures { IsTrue result → Alike old.now new.now }
{
    old.keeps();
    new.keeps();
    if !all_stand_alike(old, new)
        || !have_same_progress(old, new)
        || !leave_alike(old, new)
        || !have_same_items(old.hosts(), old.log(), new.log())
    {
        return false;
    }
    hold_same_cells(old, new)
}
