//! Devices, queues, hosts and blocks, each a type of its own that contracts see as its number.

ghost use Rattle.std.specs.Prelude.{◌≡◌, ◌<◌, ◌*◌, IsTrue, length, replicate};
ghost use Rattle.acc_base.specs.Queues.{is_nothing};

use std::marker::Model;

/// How many activity queues each device has: `sync`, `noval`, and those of the async values, in this order (OpenACC API 3.0, 2.16,
/// Asynchronous Behavior).
pub const QUEUES: u8 = 16;

/// The number of the queue of the async value 0.
pub const FIRST_VALUE: u8 = 2;

/// How many queues the async values of zero or more share.
pub const VALUES: u8 = QUEUES - FIRST_VALUE;

/// A number for each queue of a device, in queue order.
pub type QueueCounts = [u64; QUEUES as usize];

/// Whether each of these numbers is 0.
pub fn is_nothing(counts: &[u64]) -> bool
    ensures tells { result ≡ is_nothing counts.now }
    ensures zeros { IsTrue result → counts.now ≡ replicate (length counts.now) 0 }
{
    match counts {
        [] => true,
        [first, rest @ ..] => *first == 0 && is_nothing(rest),
    }
}

/// A device, by its number from 0.
#[derive(Clone, Copy, Debug, PartialEq, Eq)]
pub struct DeviceId(u8);

impl Model for DeviceId {
    ghost use Rattle.std.specs.Prelude.{ℕ};

    ghost Value = { ℕ };

    ghost view = { λ d. d.0 };

    ghost inverse = { λ n. record { 0 = n } };
}

impl DeviceId {
    /// The device with this number.
    pub fn new(number: u8) -> Self
        ensures { result ≡ number }
    {
        DeviceId(number)
    }

    /// Its number, from 0.
    pub fn number(self) -> u8
        ensures { result ≡ self }
    {
        let DeviceId(number) = self;
        number
    }
}

/// An activity queue of a device, by its number: 0 is `sync`, 1 is `noval`, and from 2 on they are those of the async values `0`
/// and more, below `VALUES` (OpenACC API 3.0, 2.16, Asynchronous Behavior).
#[derive(Clone, Copy, Debug, PartialEq, Eq)]
pub struct QueueId(u8);

impl Model for QueueId {
    ghost use Rattle.std.specs.Prelude.{ℕ};

    ghost Value = { ℕ };

    ghost view = { λ q. q.0 };

    ghost inverse = { λ n. record { 0 = n } };
}

impl QueueId {
    ghost use Rattle.acc_base.specs.Queues.{queue_of_value};
    ghost use Rattle.acc_base.specs.declared.ids.TheConstants.{QUEUES};

    /// The queue of a directive without an `async` clause.
    pub const SYNC: QueueId = QueueId(0);

    /// The queue of `acc_async_noval`.
    pub const NOVAL: QueueId = QueueId(1);

    /// The queue with this number.
    pub fn new(number: u8) -> Self
        ensures { result ≡ number }
    {
        QueueId(number)
    }

    /// The queue of an async value of zero or more. The values share those behind `noval`, one after another (2.16.1, async clause).
    pub fn of_value(value: u64) -> Self
        ensures queue { result ≡ queue_of_value value }
        ensures there { result < QUEUES }
    {
        QueueId((value % u64::from(VALUES)) as u8 + FIRST_VALUE)
    }

    /// Its number, from 0.
    pub fn number(self) -> u8
        ensures { result ≡ self }
    {
        let QueueId(number) = self;
        number
    }
}

/// A host thread, by its number from 0.
#[derive(Clone, Copy, Debug, PartialEq, Eq)]
pub struct HostId(u8);

impl Model for HostId {
    ghost use Rattle.std.specs.Prelude.{ℕ};

    ghost Value = { ℕ };

    ghost view = { λ h. h.0 };

    ghost inverse = { λ n. record { 0 = n } };
}

impl HostId {
    /// The host with this number.
    pub fn new(number: u8) -> Self
        ensures { result ≡ number }
    {
        HostId(number)
    }

    /// Its number, from 0.
    pub fn number(self) -> u8
        ensures { result ≡ self }
    {
        let HostId(number) = self;
        number
    }
}

/// A block of device memory: the n-th data lifetime opened on a device has block n, from 1.
#[derive(Clone, Copy, Debug, PartialEq, Eq)]
pub struct BlockId(u64);

impl Model for BlockId {
    ghost use Rattle.std.specs.Prelude.{ℕ};

    ghost Value = { ℕ };

    ghost view = { λ b. b.0 };

    ghost inverse = { λ n. record { 0 = n } };
}

impl BlockId {
    /// The block with this number.
    pub fn new(number: u64) -> Self
        ensures { result ≡ number }
    {
        BlockId(number)
    }

    /// Its number, from 1.
    pub fn number(self) -> u64
        ensures { result ≡ self }
    {
        let BlockId(number) = self;
        number
    }
}

/// A queue of a device.
#[derive(Clone, Copy, Debug, PartialEq, Eq)]
pub struct QueueAt {
    pub device: DeviceId,
    pub queue: QueueId,
}

impl QueueAt {
    ghost use Rattle.acc_base.specs.Queues.{at_seat, seat};
    ghost use Rattle.acc_base.specs.declared.ids.TheConstants.{QUEUES};

    /// The queue of a device for directives without an `async` clause.
    pub fn sync(device: DeviceId) -> Self
        ensures { result ≡ record { device = device; queue = 0 } }
    {
        QueueAt {
            device,
            queue: QueueId::SYNC,
        }
    }

    /// Its index among the queues of all devices, by device, then in queue order, from 0.
    pub fn seat(self) -> usize
        ensures { result ≡ seat self }
    {
        usize::from(self.device.number()) * usize::from(QUEUES) + usize::from(self.queue.number())
    }

    /// The queue with this index among those of all devices.
    pub fn at_seat(index: u16) -> Self
        requires { index < 256 * QUEUES }
        ensures at { result ≡ at_seat index }
        ensures seat { seat result ≡ index }
        ensures queue { result.queue < QUEUES }
    {
        QueueAt {
            device: DeviceId::new((index / u16::from(QUEUES)) as u8),
            queue: QueueId::new((index % u16::from(QUEUES)) as u8),
        }
    }
}
