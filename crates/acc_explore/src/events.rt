//! The events that can do something in a world.

ghost use Rattle.std.specs.Prelude.{◌≡◌, ◌++◌, IfOk, OnOk, IsTrue, ◌↔◌, reverse};
ghost use Rattle.acc_base.specs.Faults.{OnlyMemory};
ghost use Rattle.acc_base.specs.Queues.{queue_count};
ghost use Rattle.acc_explore.specs.Runs.{events_of_hosts, events_of_queues};
ghost use Rattle.acc_explore.specs.inner.Searching.{events_in_turn};

use acc_base::{Config, Fault, HostId, QueueAt};
use acc_host::Event;
use std::alloc::Global;

// Those of the hosts, in their order.
fn push_hosts(events: &mut Vec<Event>, hosts: u8) -> Result<(), Fault>
    ensures pushed { OnOk result (events.new.items ≡ events.old.items
        ++ reverse (events_of_hosts hosts)) }
    ensures fault { OnlyMemory result }
{
    for host in 0..hosts {
        events.push(Event::Host(HostId::new(host)))?;
    }
    Ok(())
}

// Those of the queues, in their order. Of one queue one of the two alone can do something in a state.
fn push_queues(events: &mut Vec<Event>, config: &Config) -> Result<(), Fault>
    ensures pushed { OnOk result (events.new.items ≡ events.old.items
        ++ reverse (events_of_queues (queue_count config.now))) }
    ensures fault { OnlyMemory result }
{
    for seat in 0..config.queue_count() {
        events.push(Event::Perform(QueueAt::at_seat(seat)))?;
        events.push(Event::Take(QueueAt::at_seat(seat)))?;
    }
    Ok(())
}

/// Those of the hosts, then those of the queues, then the owner's close, where that may come.
pub(crate) fn events_in_turn(
    alloc: Global,
    config: &Config,
    closing: bool,
) -> Result<Vec<Event>, Fault>
    ensures events { IfOk result (λ events.
        events.items ≡ events_in_turn closing config.now.hosts (queue_count config.now)) }
    ensures fault { OnlyMemory result }
{
    let mut events = Vec::new(alloc);
    push_hosts(&mut events, config.hosts())?;
    push_queues(&mut events, config)?;
    if closing {
        events.push(Event::Close)?;
    }
    Ok(events)
}

/// Whether it is the owner's close.
pub(crate) fn is_close(event: Event) -> bool
    ensures { IsTrue result ↔ event ≡ Event.Close }
{
    event == Event::Close
}
