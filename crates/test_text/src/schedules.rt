//! A schedule with all its events in one list, and events that are written as one.

use crate::answers::check_bytes;
use acc_base::{DeviceId, HostId, QUEUES, QueueAt, QueueId};
use acc_explore::put_schedule;
use acc_host::Event;
use acc_schedule::read_schedule;
use std::test::Fail;

// Whether this event stands at that place.
fn has_at(events: &[Event], place: usize, event: Event) -> bool {
    match events.get(place) {
        Some(found) => *found == event,
        None => false,
    }
}

/// Lines of each kind, for two hosts and two devices: a round has an event for each host, and two for each queue.
#[test]
fn a_schedule_is_read_as_its_events(rt: HostRuntime) -> Result<(), Fail> {
    let text = b"host 1 2\n\n# a remark\ntake 1 5\ndo 1 sync 3\nround 1\nclose\n";
    let at = QueueAt {
        device: DeviceId::new(1),
        queue: QueueId::of_value(5),
    };
    let events = read_schedule(rt.alloc(), text.as_slice(), 2, 2)?;
    let events = events.as_slice();
    let round = 2 + 4 * usize::from(QUEUES);
    assert_eq!(rt; events.len(), 2 + 1 + 3 + round + 1);
    assert!(rt; has_at(events, 0, Event::Host(HostId::new(1))));
    assert!(rt; has_at(events, 1, Event::Host(HostId::new(1))));
    assert!(rt; has_at(events, 2, Event::Take(at)));
    for place in 3..6usize {
        let sync = QueueAt::sync(DeviceId::new(1));
        assert!(rt; has_at(events, place, Event::Perform(sync)));
    }
    assert!(rt; has_at(events, 6, Event::Host(HostId::new(0))));
    assert!(rt; has_at(events, 6 + round, Event::Close));
    Ok(())
}

/// Schedules for two hosts and two devices, and the one that says the same events with a line for so many of one in a row.
const WRITTEN: &[(&[u8], &[u8])] = &[
    (b"", b""),
    (b"host 1", b"host 1\n"),
    (
        b"host 0\n\nhost 0\nhost 1\nhost 0 1\n",
        b"host 0 2\nhost 1\nhost 0\n",
    ),
    (
        b"take 1 sync\ndo 1 sync\ndo 1 sync 2\ntake 1 noval 2\ndo 0 13\n",
        b"take 1 sync\ndo 1 sync 3\ntake 1 noval 2\ndo 0 13\n",
    ),
    (
        b"do 0 3\ndo 1 3\ndo 1 4\ntake 1 4\n",
        b"do 0 3\ndo 1 3\ndo 1 4\ntake 1 4\n",
    ),
    (b"close\nclose\nhost 0\n", b"close\nclose\nhost 0\n"),
    (
        b"host 1 6000\nhost 1 6000\n",
        b"host 1 10000\nhost 1 2000\n",
    ),
];

/// Events are written with the words that a schedule has for them.
#[test]
fn events_are_written_as_a_schedule(rt: HostRuntime) -> Result<(), Fail> {
    for (text, written) in WRITTEN {
        let events = read_schedule(rt.alloc(), *text, 2, 2)?;
        let mut out = Vec::new(rt.alloc());
        let mut failed = false;
        put_schedule(&mut out, &mut failed, events.as_slice());
        assert!(rt; !failed);
        check_bytes(&rt, out.as_slice(), *written);
    }
    Ok(())
}
