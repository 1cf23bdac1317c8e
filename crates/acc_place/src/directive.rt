//! The words: clauses, items, kinds, directives, regions, and what is answered to them.

ghost use Rattle.std.specs.Prelude.{◌≡◌, true, IfOk};
ghost use Rattle.acc_base.specs.Faults.{OnlyMemory};

use acc_base::{DeviceId, Fault, Few, HostId, Listed, QueueAt, QueueCounts, Range, Shared};
use acc_kernel::Kernel;
use acc_present::Change;
use std::alloc::Global;
use std::marker::Model;
use std::mem::size_of;

/// The most items of a directive.
pub const MAX_ITEMS: usize = 16;

/// The most values by which one directive names queues to wait for.
pub const MAX_WAITS: usize = 16;

/// The most directives that are accepted in a run.
pub const MAX_DIRECTIVES: u64 = 1_099_511_627_776;

/// The value of `acc_async_noval`, a host's first default async value (OpenACC API 3.0, 2.16, Asynchronous Behavior).
pub const ASYNC_NOVAL: i64 = -1;

/// The value of `acc_async_sync`, which names queue sync.
pub const ASYNC_SYNC: i64 = -2;

/// The most regions of a host inside one another.
pub const MAX_REGIONS: usize = 32;

/// A data clause (OpenACC API 3.0, 2.7, Data Clauses), or a clause of the update directive (2.14.4).
#[derive(Clone, Copy, Debug, PartialEq, Eq)]
pub enum Clause {
    Copy,
    Copyin,
    Copyout,
    Create,
    /// Also the clause of the range that `acc_is_present` asks about.
    Present,
    /// As `Present` where the range is present, and no action where it is absent.
    NoCreate,
    Delete,
    /// `self` of an update, also named `host`: from the device to the host.
    UpdateSelf,
    /// `device` of an update: from the host to the device.
    UpdateDevice,
}

/// A range of a clause.
#[derive(Clone, Copy, Debug, PartialEq, Eq)]
pub struct DataItem {
    pub clause: Clause,
    pub range: Range,
}

/// Which directive it is.
#[derive(Drop)]
pub enum Kind {
    /// A data construct is entered (OpenACC API 3.0, 2.6.5, Data Construct).
    Data,
    /// The innermost data construct that the host is inside is left. The device is that of its entry, and the items are those
    /// that this counted.
    EndData,
    /// `enter data` (2.6.6, Enter Data and Exit Data Directives); also `acc_copyin` and `acc_create` (3.2, Runtime
    /// Library Routines).
    EnterData,
    /// `exit data`; also `acc_copyout`, `acc_delete` and their `_finalize` forms.
    ExitData { finalize: bool },
    /// `update` (2.14.4, Update Directive); also `acc_update_device` and `acc_update_self`.
    Update { if_present: bool },
    /// `wait` (2.16.3, Wait Directive); also `acc_wait`, `acc_wait_all` and `acc_wait_async`.
    Wait,
    /// `parallel loop` (2.11, Combined Constructs). It has its own items and an implicit one for each other array that
    /// the loop refers to.
    Loop { kernel: Shared<Kernel> },
    /// The questions `acc_async_test` and `acc_async_test_all` (3.2).
    AsyncTest,
    /// The question `acc_is_present`.
    IsPresent,
}

/// The `async` clause as it is written (OpenACC API 3.0, 2.16.1, async clause).
#[derive(Clone, Copy, Debug, PartialEq, Eq)]
pub enum Target {
    /// There is none: the directive is synchronous.
    Plain,
    /// `async` without an argument.
    Unvalued,
    Value { value: i64 },
}

/// The queues that are waited for, as they are written (OpenACC API 3.0, 2.16.2, wait clause).
#[derive(Drop)]
pub enum Waits {
    Nothing,
    /// All queues of the device.
    All,
    Listed { values: Listed<i64> },
}

/// A directive as it is written, with its items in the order of the text.
#[derive(Drop)]
pub struct Written {
    pub kind: Kind,
    pub items: Few<DataItem>,
    pub target: Target,
    pub waits: Waits,
}

/// A directive as its host gives it: the device that is current, the host's default async value, and what is written,
/// which all copies share.
#[derive(Drop)]
pub struct Directive {
    device: DeviceId,
    default: i64,
    written: Shared<Written>,
}

impl Model for Directive {
    ghost use Rattle.std.specs.Coded.{codes};
    ghost use Rattle.acc_kernel.specs.contracts.expr.Expr as expr;
    ghost use Rattle.acc_place.specs.Directives.{Directive};

    ghost Value = { Directive };

    ghost coded = { Prim.hlevel (codes, expr.the_row.coded) };

    ghost view = { λ d. record { device = d.device; default = d.default; kind = d.written.kind; items = d.written.items; target = d.written.target; waits = d.written.waits } };
}

impl Kind {
    ghost use Rattle.acc_place.specs.Standings.{acts_if_present, asked_item, change_by, change_where};

    // The change that it asks for at each of its items, if any; a loop's items leave again at its end.
    pub(crate) fn change(&self) -> Option<Change>
        ensures { result ≡ change_by self.now }
    {
        match self {
            Kind::Data | Kind::Loop { .. } => Some(Change::StructuredUp),
            Kind::EndData => Some(Change::StructuredDown),
            Kind::EnterData => Some(Change::DynamicUp),
            Kind::ExitData { finalize: false } => Some(Change::DynamicDown),
            Kind::ExitData { finalize: true } => Some(Change::DynamicZero),
            Kind::Update { .. } | Kind::Wait | Kind::AsyncTest | Kind::IsPresent => None,
        }
    }

    // Whether an item of this clause takes no action where its range is absent.
    pub(crate) fn acts_if_present(&self, clause: Clause) -> bool
        ensures { result ≡ acts_if_present self.now clause }
    {
        match self {
            Kind::Data => clause == Clause::NoCreate,
            Kind::ExitData { .. } => true,
            Kind::EndData | Kind::EnterData | Kind::Update { .. } | Kind::Loop { .. } => false,
            Kind::Wait | Kind::AsyncTest | Kind::IsPresent => false,
        }
    }

    // The change that it makes at an item whose range is present or not, if any.
    pub(crate) fn change_where(&self, item: &DataItem, present: bool) -> Option<Change>
        ensures { result ≡ change_where (asked_item self.now item.now) present }
    {
        if !present && self.acts_if_present(item.clause) {
            None
        } else {
            self.change()
        }
    }
}

impl Directive {
    ghost use Rattle.acc_place.specs.Clauses.{is_well_formed};
    ghost use Rattle.acc_place.specs.Directives.{written_first};

    /// What is written, for device 0 and `acc_async_noval`, a host's first ones. Condition: by `Written::is_well_formed`.
    ///
    /// # Errors
    ///
    /// `Memory` where memory is refused.
    pub fn new(alloc: Global, written: Written) -> Result<Self, Fault>
        requires form { is_well_formed written ≡ true }
        ensures given { IfOk result (λ d. d ≡ written_first written) }
        ensures fault { OnlyMemory result }
    {
        let written = Shared::new(alloc, written)?;
        Ok(Directive {
            device: DeviceId::new(0),
            default: ASYNC_NOVAL,
            written,
        })
    }

    /// Makes it one for this device and this default async value.
    pub fn set_ids(&mut self, device: DeviceId, default: i64)
        ensures { self.new ≡ record self.old { device = device; default = default } }
    {
        self.device = device;
        self.default = default;
    }

    /// The device that is current.
    pub fn device(&self) -> DeviceId
        ensures { result ≡ self.now.device }
    {
        self.device
    }

    /// The host's default async value.
    pub fn default(&self) -> i64
        ensures { result ≡ self.now.default }
    {
        self.default
    }

    /// Which directive it is.
    pub fn kind(&self) -> &Kind
        ensures { result.now ≡ self.now.kind }
    {
        &self.written.get().kind
    }

    /// The written items.
    pub fn items(&self) -> &Few<DataItem>
        ensures { result.now ≡ self.now.items }
    {
        &self.written.get().items
    }

    /// Its `async` clause.
    pub fn target(&self) -> Target
        ensures { result ≡ self.now.target }
    {
        self.written.get().target
    }

    /// What its `wait` clause names.
    pub fn waits(&self) -> &Waits
        ensures { result.now ≡ self.now.waits }
    {
        &self.written.get().waits
    }

    /// An equal directive, which shares what is written. It takes no memory.
    ///
    /// # Errors
    ///
    /// `Memory` where the count of its owners is full.
    pub fn try_clone(&self) -> Result<Self, Fault>
        ensures equal { IfOk result (λ d. d ≡ self.now) }
        ensures fault { OnlyMemory result }
    {
        let written = self.written.try_clone()?;
        Ok(Directive {
            device: self.device,
            default: self.default,
            written,
        })
    }
}

/// A data construct that a host is inside: the device of its entry, and the items that this counted.
#[derive(Drop)]
pub struct Region {
    pub host: HostId,
    pub device: DeviceId,
    pub items: Few<DataItem>,
}

/// The answer to a directive that was accepted.
#[derive(Clone, Copy, Debug, PartialEq, Eq)]
pub struct Placed {
    /// The queue of the directive's batch, and the batch's number there, from 1, if it placed one.
    pub batch: Option<(QueueAt, u64)>,
    /// How many batches were placed on each queue that a `wait` on queue `sync` or a question names, else 0.
    pub counts: QueueCounts,
    /// The answer of `acc_is_present`; false for every other directive.
    pub present: bool,
}

/// An entry of the place history.
#[derive(Drop)]
pub enum PlaceEntry {
    Accepted { host: HostId, directive: Directive },
    /// Closing begins: from here on no directive is accepted.
    Closing,
    /// The queue's close is placed, its last batch.
    Closed { at: QueueAt },
}

// The history keeps each.
const _: () = prove!(size_of::<PlaceEntry>() == 32);
