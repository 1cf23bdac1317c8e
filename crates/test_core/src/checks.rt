//! What worlds answer and show.

ghost use Rattle.std.specs.Prelude.{◌<◌};

use crate::worlds::{host, queue, reply_to};
use acc_base::{DeviceId, Fault, HostId, Range};
use acc_core::{Event, HostState, Reply, Told, Values, WorkEntry, WorkLog, World};
use std::fmt::Debug;
use std::process::Abort;

pub const FINISHED: HostState = HostState::Finished;

// The host was refused at its statement of this number, from 0, which has this line.
pub fn refused(ended: usize, line: u32, fault: Fault) -> HostState {
    HostState::Refused { ended, line, fault }
}

// Stops the test where the two differ. An assertion that is written out takes as long to prove as the rest of a test.
pub fn check_same<T: PartialEq + Debug + Copy>(rt: &impl Abort, found: T, wanted: T) {
    assert_eq!(rt; found, wanted);
}

// So many steps of a host, each of which does something.
pub fn check_steps(rt: &impl Abort, world: &mut World, number: u8, count: u32) {
    for step in 0..count {
        check_same(
            rt,
            (step, reply_to(world, host(number))),
            (step, Reply::Did),
        );
    }
}

// Where each host stands.
pub fn check_states(rt: &impl Abort, world: &World, states: &[HostState]) {
    check_same(rt, usize::from(world.hosts()), states.len());
    let mut number = 0u8;
    for wanted in states {
        let state = world.state(HostId::new(number));
        check_same(rt, (number, state), (number, Some(*wanted)));
        number = number.wrapping_add(1);
    }
}

// Nothing is present on the first device but this range, if there is one, with its counters.
pub fn check_present(rt: &impl Abort, world: &World, wanted: Option<(Range, u64, u64)>) {
    assert!(rt; 0 < world.devices());
    let device = DeviceId::new(0);
    let entry = world.nth(device, 0);
    check_same(rt, entry.map(|e| (e.range, e.s, e.d)), wanted);
    check_same(rt, world.nth(device, 1).is_none(), true);
    if let Some((range, s, d)) = wanted {
        assert!(rt; 0 < range.len);
        check_same(rt, world.counters(device, range), Some((s, d)));
    }
}

// What a host's print showed.
pub fn printed(entry: Option<&WorkEntry>) -> Option<&Values> {
    match entry {
        Some(
            WorkEntry::Item {
                what: Told::Print { values, .. },
                ..
            },
        ) => Some(values.get()),
        _ => None,
    }
}

// How many entries a log has.
pub fn entries(log: &WorkLog) -> usize {
    let mut count = 0usize;
    for _ in log.iter() {
        count = count.wrapping_add(1);
    }
    count
}

// The last entry of a log is a print that showed these values.
pub fn check_last_print(rt: &impl Abort, log: &WorkLog, wanted: &[i64]) {
    match printed(log.iter().last()) {
        Some(values) => check_values(rt, values, wanted),
        None => panic!(rt; "no print comes last"),
    }
}

// A print showed these values.
pub fn check_values(rt: &impl Abort, values: &Values, wanted: &[i64]) {
    let mut shown = values.iter();
    for value in wanted {
        check_same(rt, shown.next(), Some(*value));
    }
    check_same(rt, shown.next(), None);
}
