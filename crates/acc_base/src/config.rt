//! What stays the same in a run, and its limits.

ghost use Rattle.std.specs.Prelude.{◌≡◌, ◌<◌, ◌*◌, ◌&&◌, ◌==◌, ◌↔◌, nat_lt, IfOk, OnOk, IfErr, IsTrue, length, None, Some, slice_get};
ghost use Rattle.std.specs.List.{list_any};
ghost use Rattle.acc_base.specs.Faults.{OnlyMemory};
ghost use Rattle.acc_base.specs.Queues.{queue_count};
ghost use Rattle.acc_base.specs.Configurations.{configuration, rows, fault_of, passes_a_limit, is_outside, has_long_array, has_empty_array, has_range, IsRefusal, IsWithinLimits};

use crate::fault::Fault;
use crate::ids::{DeviceId, HostId, QUEUES, QueueAt};
use crate::range::Range;
use crate::shared::Shared;
use std::alloc::Global;
use std::marker::Model;

/// The most devices of a configuration; it has at least one.
pub const MAX_DEVICES: u8 = 4;

/// The most hosts of a configuration.
pub const MAX_HOSTS: u8 = 8;

/// The most arrays of a configuration.
pub const MAX_ARRAYS: usize = 64;

/// The most cells of an array; it has at least one.
pub const MAX_CELLS: usize = 65_536;

/// The most cells that a device can be given for its present ranges; it has at least one.
pub const MAX_CAPACITY: u64 = 4_294_967_296;

/// The most batches that a queue can be given room for; it has room for at least one.
pub const MAX_ROOM: u32 = 1_024;

/// What stays the same while directives are placed and performed.
///
/// It has a number of devices and of hosts, the host arrays with their initial values, which all copies share, the
/// capacity of each device in cells, and the room of each queue in batches.
#[derive(Drop)]
pub struct Config {
    devices: u8,
    hosts: u8,
    arrays: Shared<Vec<Vec<i64>>>,
    capacity: u64,
    room: u32,
}

impl Model for Config {
    ghost use Rattle.std.specs.Prelude.{◌≡◌, None};
    ghost use Rattle.acc_base.specs.Configurations.{Configuration, configuration, rows, fault_of};

    ghost Value = { Configuration };

    ghost view = { λ c. configuration c.devices c.hosts (rows c.arrays.items) c.capacity c.room };

    ghost invariant = { λ c. fault_of (configuration c.devices c.hosts (rows c.arrays.items) c.capacity c.room) ≡ None };
}

impl Config {
    /// Holds what it is given.
    ///
    /// # Errors
    ///
    /// The first of: `BadDevice` for no device or too many, `TooMany` for another count beyond its
    /// limit, `BadRange` for an array without cells, `Memory` where memory is refused.
    pub fn new(
        alloc: Global,
        devices: u8,
        hosts: u8,
        arrays: Vec<Vec<i64>>,
        capacity: u64,
        room: u32,
    ) -> Result<Self, Fault>
        ensures held { IfOk result (λ c.
            c ≡ configuration devices hosts (rows arrays.items) capacity room) }
        ensures valid { OnOk result (fault_of (configuration devices hosts
            (rows arrays.items) capacity room) ≡ None) }
        ensures refused { IfErr result (λ fault.
            IsRefusal (fault_of (configuration devices hosts
            (rows arrays.items) capacity room)) fault) }
    {
        match first_fault(devices, hosts, arrays.as_slice(), capacity, room) {
            Some(fault) => Err(fault),
            None => {
                let arrays = Shared::new(alloc, arrays)?;
                Ok(Config {
                    devices,
                    hosts,
                    arrays,
                    capacity,
                    room,
                })
            }
        }
    }

    /// Every configuration keeps the limits.
    pub fn keeps(&self)
        ensures valid { fault_of self.now ≡ None }
        ensures limits { IsWithinLimits self.now }
    {
        let _ = &self.devices;
    }

    /// An equal configuration, which shares the arrays. It takes no memory.
    ///
    /// # Errors
    ///
    /// `Memory` where the count of their owners is full.
    pub fn try_clone(&self) -> Result<Self, Fault>
        ensures equal { IfOk result (λ c. c ≡ self.now) }
        ensures fault { OnlyMemory result }
    {
        let arrays = self.arrays.try_clone()?;
        Ok(Config {
            devices: self.devices,
            hosts: self.hosts,
            arrays,
            capacity: self.capacity,
            room: self.room,
        })
    }

    /// Whether two configurations are equal: in their numbers, and in each cell of their arrays. It takes no memory.
    pub fn is_same(&self, other: &Config) -> bool
        ensures { IsTrue result ↔ self.now ≡ other.now }
    {
        self.devices == other.devices
            && self.hosts == other.hosts
            && self.capacity == other.capacity
            && self.room == other.room
            && are_same_arrays(self.rows(), other.rows())
    }

    // The arrays as they are held.
    fn rows(&self) -> &[Vec<i64>]
        ensures { rows result.now ≡ self.now.arrays }
    {
        self.arrays.get().as_slice()
    }

    /// How many devices there are.
    pub fn devices(&self) -> u8
        ensures { result ≡ self.now.devices }
    {
        self.devices
    }

    /// How many hosts there are.
    pub fn hosts(&self) -> u8
        ensures { result ≡ self.now.hosts }
    {
        self.hosts
    }

    /// How many host arrays there are.
    pub fn arrays(&self) -> usize
        ensures { result ≡ length self.now.arrays }
    {
        self.rows().len()
    }

    /// The initial values of an array, one that `has_array` knows.
    pub fn array(&self, array: u8) -> &[i64]
        requires { array < length self.now.arrays }
        ensures { slice_get self.now.arrays array ≡ Some result.now }
    {
        self.rows()[usize::from(array)].as_slice()
    }

    /// The capacity of each device, in cells.
    pub fn capacity(&self) -> u64
        ensures { result ≡ self.now.capacity }
    {
        self.capacity
    }

    /// The room of each queue, in batches.
    pub fn room(&self) -> u32
        ensures { result ≡ self.now.room }
    {
        self.room
    }

    /// Whether there is such a device.
    pub fn has_device(&self, device: DeviceId) -> bool
        ensures { result ≡ nat_lt device self.now.devices }
    {
        device.number() < self.devices
    }

    /// How many queues all devices have.
    pub fn queue_count(&self) -> u16
        ensures count { result ≡ queue_count self.now }
        ensures few { result < 256 * QUEUES }
    {
        u16::from(self.devices) * u16::from(QUEUES)
    }

    /// Whether there is such a queue of such a device.
    pub fn has_queue(&self, at: QueueAt) -> bool
        ensures { result ≡ (nat_lt at.device self.now.devices && nat_lt at.queue QUEUES) }
    {
        self.has_device(at.device) && at.queue.number() < QUEUES
    }

    /// Whether there is such a host.
    pub fn has_host(&self, host: HostId) -> bool
        ensures { result ≡ nat_lt host self.now.hosts }
    {
        host.number() < self.hosts
    }

    /// Whether there is a host array with this number.
    pub fn has_array(&self, array: u8) -> bool
        ensures { result ≡ nat_lt array (length self.now.arrays) }
    {
        usize::from(array) < self.arrays()
    }

    /// Whether a range has a cell, and lies in its array.
    pub fn has_range(&self, range: Range) -> bool
        ensures { result ≡ has_range self.now.arrays range }
    {
        if range.len == 0 || !self.has_array(range.array) {
            return false;
        }
        range.end() <= self.array(range.array).len() as u64
    }
}

// The first fault of what a configuration is given, if there is one.
fn first_fault(
    devices: u8,
    hosts: u8,
    arrays: &[Vec<i64>],
    capacity: u64,
    room: u32,
) -> Option<Fault>
    ensures { result ≡ fault_of (configuration devices hosts (rows arrays.now) capacity room) }
{
    if is_outside(u64::from(MAX_DEVICES), u64::from(devices)) {
        Some(Fault::BadDevice)
    } else if passes_a_limit(hosts, arrays, capacity, room) {
        Some(Fault::TooMany)
    } else if has_empty_array(arrays) {
        Some(Fault::BadRange)
    } else {
        None
    }
}

fn passes_a_limit(hosts: u8, arrays: &[Vec<i64>], capacity: u64, room: u32) -> bool
    ensures { result ≡ passes_a_limit hosts (rows arrays.now) capacity room }
{
    let is_long = arrays.len() > MAX_ARRAYS || has_long_array(arrays);
    let is_outside = is_outside(MAX_CAPACITY, capacity)
        || is_outside(u64::from(MAX_ROOM), u64::from(room));
    hosts > MAX_HOSTS || is_long || is_outside
}

// Whether a number is not one of 1 to the limit.
fn is_outside(limit: u64, n: u64) -> bool
    ensures { result ≡ is_outside limit n }
{
    n == 0 || limit < n
}

fn has_long_array(arrays: &[Vec<i64>]) -> bool
    ensures { result ≡ has_long_array (rows arrays.now) }
{
    finds_long(arrays)
}

fn has_empty_array(arrays: &[Vec<i64>]) -> bool
    ensures { result ≡ has_empty_array (rows arrays.now) }
{
    finds_empty(arrays)
}

// The two tests over the vectors themselves.
fn finds_long(arrays: &[Vec<i64>]) -> bool
    ensures { result ≡ list_any (λ cells. nat_lt MAX_CELLS (length cells.items)) arrays.now }
{
    arrays
        .iter()
        .any(|cells| cells.as_slice().len() > MAX_CELLS)
}

fn finds_empty(arrays: &[Vec<i64>]) -> bool
    ensures { result ≡ list_any (λ cells. length cells.items == 0) arrays.now }
{
    arrays.iter().any(|cells| cells.as_slice().is_empty())
}

// Whether both have the same arrays, in the same order.
fn are_same_arrays(arrays: &[Vec<i64>], others: &[Vec<i64>]) -> bool
    ensures { IsTrue result ↔ rows arrays.now ≡ rows others.now }
{
    arrays == others
}
