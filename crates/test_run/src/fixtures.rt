//! Configurations, directives and gates that the tests share.

ghost use Rattle.std.specs.Prelude.{◌≡◌, IfOk};
ghost use Rattle.acc_host.specs.Engines.{MayRecord};

use acc_base::{Config, DeviceId, Fault, QUEUES, QueueAt, QueueId, Range};
use acc_place::{Clause, DataItem, Directive, Target, Waits};
use acc_run::{Gate, HostToken, Runtime};
use acc_work::{Item, WorkLog};
use std::alloc::Global;
use std::sync::Wait;
use std::sync::atomic::{AtomicU64, Ordering};
use std::thread;
use tool_directives::{Form, directive_of};

/// Each batch passes.
#[derive(Drop)]
pub struct Open;

impl Gate for Open {
    fn pass(&self, _at: QueueAt, _number: u64) -> bool {
        true
    }
}

/// No batch passes.
#[derive(Drop)]
pub struct Shut;

impl Gate for Shut {
    fn pass(&self, _at: QueueAt, _number: u64) -> bool {
        false
    }
}

/// The turns after which who waits for another thread gives up: some seconds, as a thread that is ready may not be scheduled for long.
pub const TURNS: u32 = 30_000_000;

/// Whether so many come within so many turns.
pub fn have_come(here: &AtomicU64, wanted: u64, turns: u32) -> bool {
    for _ in 0..turns {
        if here.load(Ordering::SeqCst) >= wanted {
            return true;
        }
        thread::yield_now();
    }
    false
}

/// So many batches pass, those of all queues together, and then none.
#[derive(Drop)]
pub struct Fuse {
    left: AtomicU64,
}

impl Fuse {
    pub fn new(batches: u64) -> Fuse {
        Fuse {
            left: AtomicU64::new(batches),
        }
    }
}

impl Gate for Fuse {
    fn pass(&self, _at: QueueAt, _number: u64) -> bool {
        self.left
            .fetch_update(Ordering::SeqCst, Ordering::SeqCst, |left| {
                left.checked_sub(1)
            })
            .is_ok()
    }
}

/// How many entries a log has.
pub fn entries(log: &WorkLog) -> usize {
    let mut count = 0usize;
    for _ in log.iter() {
        count = count.wrapping_add(1);
    }
    count
}

/// A queue of the first device; those of async values have the numbers from 2 on.
pub fn queue(number: u8) -> QueueAt {
    queue_on(0, number)
}

pub fn queue_on(device: u8, number: u8) -> QueueAt {
    QueueAt {
        device: DeviceId::new(device),
        queue: QueueId::new(number),
    }
}

/// Two cells in each of eight arrays.
pub fn config_of(alloc: Global, devices: u8, hosts: u8, room: u32) -> Result<Config, Fault>
    ensures { IfOk result (λ config. config.hosts ≡ hosts) }
{
    let mut arrays = Vec::new(alloc);
    for _ in 0..8u8 {
        arrays.push(vec![in alloc; 0i64; 2]?)?;
    }
    Config::new(alloc, devices, hosts, arrays, 4_194_304, room)
}

/// Both cells of an array.
pub fn whole(array: u8) -> Range {
    Range {
        array,
        lo: 0,
        len: 2,
    }
}

/// So many cells of each of the first two arrays, from one on, in a clause.
pub fn both(clause: Clause, lo: u32, len: u32) -> [DataItem; 2] {
    let first = Range { array: 0, lo, len };
    let second = Range { array: 1, lo, len };
    [
        DataItem {
            clause,
            range: first,
        },
        DataItem {
            clause,
            range: second,
        },
    ]
}

/// A directive with one item, the whole of an array.
pub fn directive_with(
    alloc: Global,
    form: Form,
    clause: Clause,
    array: u8,
    target: Target,
) -> Result<Directive, Fault> {
    let range = whole(array);
    directive_of(
        alloc,
        form,
        &[DataItem { clause, range }],
        target,
        Waits::Nothing,
    )
}

/// An array is entered on a queue.
pub fn entry_of(alloc: Global, clause: Clause, array: u8, value: i64) -> Result<Directive, Fault> {
    directive_with(
        alloc,
        Form::EnterData,
        clause,
        array,
        Target::Value { value },
    )
}

/// Records an item.
pub fn record<R: Wait>(
    rt: &R,
    runtime: &Runtime,
    token: &mut HostToken,
    item: Item,
) -> Result<(), Fault>
    requires { MayRecord item }
{
    match runtime.item(rt, token, item) {
        Ok(_) => Ok(()),
        Err((_, fault)) => Err(fault),
    }
}

/// Prints cells of a host array.
pub fn print<R: Wait>(
    rt: &R,
    alloc: Global,
    runtime: &Runtime,
    token: &mut HostToken,
    range: Range,
) -> Result<(), Fault> {
    record(rt, runtime, token, Item::print(alloc, range)?)
}

/// Closes until no queue is without Close.
pub fn close_all<R: Wait>(rt: &R, runtime: &Runtime) {
    for _ in rt.forever() {
        if runtime.close(rt) == 0 {
            return;
        }
        thread::yield_now();
    }
}

/// Each queue of the first device goes on as far as the gate lets it.
pub fn serve_all<R: Wait, G: Gate>(rt: &R, runtime: &Runtime, gate: &G) {
    for number in 0..QUEUES {
        runtime.serve(rt, queue(number), gate);
    }
}
