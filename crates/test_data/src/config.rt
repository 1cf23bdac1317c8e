//! Configurations at each limit and one beyond it, in numbers, where a contract has names.

use crate::fixtures::check_same;
use acc_base::{Config, DeviceId, Fault, HostId, QUEUES, QueueAt, QueueId};
use std::alloc::{AllocError, Global};
use std::process::Abort;
use std::test::Fail;
use tool_scarce::at_each_amount;

// As many arrays, all of one size.
fn arrays_of(alloc: Global, count: usize, cells: usize) -> Result<Vec<Vec<i64>>, AllocError> {
    let mut arrays = Vec::new(alloc);
    for _ in 0..count {
        arrays.push(vec![in alloc; 0i64; cells]?)?;
    }
    Ok(arrays)
}

fn queue_at(device: u8, queue: u8) -> QueueAt {
    QueueAt {
        device: DeviceId::new(device),
        queue: QueueId::new(queue),
    }
}

const LARGE: u64 = 4_294_967_296;

/// Devices, hosts, arrays and the cells of each, capacity and room, and the fault.
const CASES: [(u8, u8, usize, usize, u64, u32, Option<Fault>); 14] = [
    (0, 1, 1, 1, 1, 1, Some(Fault::BadDevice)),
    (5, 1, 1, 1, 1, 1, Some(Fault::BadDevice)),
    (0, 1, 1, 1, 1, 0, Some(Fault::BadDevice)),
    (1, 1, 1, 1, 1, 0, Some(Fault::TooMany)),
    (1, 1, 1, 1, 1, 1_025, Some(Fault::TooMany)),
    (1, 9, 1, 1, 1, 1, Some(Fault::TooMany)),
    (1, 1, 65, 1, 1, 1, Some(Fault::TooMany)),
    (1, 1, 1, 65_537, 1, 1, Some(Fault::TooMany)),
    (1, 1, 1, 1, 0, 1, Some(Fault::TooMany)),
    (1, 1, 1, 1, LARGE + 1, 1, Some(Fault::TooMany)),
    (1, 1, 1, 0, 1, 0, Some(Fault::TooMany)),
    (1, 1, 1, 0, 1, 1, Some(Fault::BadRange)),
    (1, 0, 0, 0, 1, 1, None),
    (4, 8, 64, 65_536, LARGE, 1_024, None),
];

#[test]
fn configurations_and_their_first_fault(rt: HostRuntime) -> Result<(), Fail> {
    for (devices, hosts, arrays, cells, capacity, room, fault) in CASES {
        let arrays = arrays_of(rt.alloc(), arrays, cells)?;
        let made = Config::new(rt.alloc(), devices, hosts, arrays, capacity, room);
        check_same(&rt, made.err(), fault);
    }
    Ok(())
}

// Two devices, three hosts, and two arrays.
fn config_of(alloc: Global) -> Result<Config, Fault> {
    let arrays = arrays_of(alloc, 2, 3)?;
    Config::new(alloc, 2, 3, arrays, 40, 5)
}

fn check_numbers(rt: &impl Abort, config: &Config) {
    check_same(rt, config.devices(), 2);
    check_same(rt, config.hosts(), 3);
    check_same(rt, config.arrays(), 2);
    check_same(rt, config.capacity(), 40);
    check_same(rt, config.room(), 5);
}

fn check_names(rt: &impl Abort, config: &Config) {
    assert!(rt; config.has_array(1));
    assert!(rt; !config.has_array(2));
    assert!(rt; config.has_device(DeviceId::new(1)));
    assert!(rt; !config.has_device(DeviceId::new(2)));
    assert!(rt; config.has_host(HostId::new(2)));
    assert!(rt; !config.has_host(HostId::new(3)));
    assert!(rt; config.has_queue(queue_at(1, QUEUES - 1)));
    assert!(rt; !config.has_queue(queue_at(1, QUEUES)));
    assert!(rt; !config.has_queue(queue_at(2, QUEUES - 1)));
}

#[test]
fn a_configuration_is_asked(rt: HostRuntime) -> Result<(), Fail> {
    let config = config_of(rt.alloc())?;
    check_numbers(&rt, &config);
    check_names(&rt, &config);
    Ok(())
}

/// A copy takes none.
#[test]
fn a_configuration_is_refused_until_there_is_memory(rt: HostRuntime) -> Result<(), Fail> {
    let alloc = rt.alloc();
    let (refusals, config) = at_each_amount(alloc, || config_of(alloc))?;
    assert!(rt; 1 < refusals);
    let (refusals, copy) = at_each_amount(alloc, || config.try_clone())?;
    check_same(&rt, refusals, 0);
    assert!(rt; copy.is_same(&config));
    drop(config);
    check_numbers(&rt, &copy);
    Ok(())
}
