//! Places and directives of tables, and what is compared with them.

ghost use Rattle.std.specs.Prelude.{IfOk};
ghost use Rattle.acc_place.specs.Plans.{Fits};

use crate::tables::{
    Cells, Deed, Held, Named, Step, Word, form_of, items_of, operation, range_of, waits_of,
};
use acc_base::{BlockId, Config, DeviceId, Fault, HostId, QueueAt, Range};
use acc_batch::{Batch, Label, Op, OpLabel, Ops};
use acc_place::{ASYNC_NOVAL, Clause, DataItem, Directive, Place, Placed, Plan, Target};
use acc_present::Entry;
use acc_raw::Cells as Values;
use std::alloc::Global;
use std::fmt::Debug;
use std::process::Abort;
use tool_directives::{Operation, counts_of, directive_of, operation_of, performed_by, sync};

// Stops the test where the two differ. An assertion that is written out takes as long to prove as the rest of a test.
pub fn check_same<T: PartialEq + Debug + Copy>(rt: &impl Abort, found: T, wanted: T) {
    assert_eq!(rt; found, wanted);
}

// Cells of the first array.
pub fn a(lo: u32, len: u32) -> Range {
    Range { array: 0, lo, len }
}

fn directive_on(
    alloc: Global,
    word: Word,
    items: &[DataItem],
    target: Target,
    named: Named,
) -> Result<Directive, Fault> {
    let waits = waits_of(alloc, named)?;
    directive_of(alloc, form_of(word), items, target, waits)
}

// A directive with these clauses.
pub fn directive_with(
    alloc: Global,
    word: Word,
    items: &[(Clause, Cells)],
    target: Target,
    named: Named,
) -> Result<Box<Directive>, Fault> {
    let items = items_of(alloc, items)?;
    let directive = directive_on(alloc, word, items.as_slice(), target, named)?;
    Ok(Box::new(alloc, directive)?)
}

// A directive without an async clause and a wait clause, for the first device.
pub fn synchronous(
    alloc: Global,
    word: Word,
    items: &[(Clause, Cells)],
) -> Result<Box<Directive>, Fault> {
    let mut directive = directive_with(alloc, word, items, Target::Plain, Named::Nothing)?;
    directive.set_ids(DeviceId::new(0), ASYNC_NOVAL);
    Ok(directive)
}

// A place of so many devices, without directives, with eight cells in the first array and four in the second, and two
// hosts. It is boxed, as are directives and plans: a function that owns one itself takes up to five times as long to prove.
pub fn place_with(alloc: Global, devices: u8, capacity: u64) -> Result<Box<Place>, Fault> {
    let first = vec![in alloc; 0i64; 8]?;
    let second = vec![in alloc; 0i64; 4]?;
    let config = Config::new(
        alloc,
        devices,
        2,
        vec![in alloc; first, second]?,
        capacity,
        64,
    )?;
    Ok(Box::new(alloc, Place::new(alloc, config)?)?)
}

pub fn place_of(alloc: Global, capacity: u64) -> Result<Box<Place>, Fault> {
    place_with(alloc, 1, capacity)
}

// The plan of a host's directive, which has three items more than its number among the accepted ones.
pub fn planned(place: &mut Place, host: u8, directive: &Directive) -> Result<Plan, Fault>
    ensures { IfOk result (λ q. Fits place.new q) }
{
    let count = place.history().len() as u64;
    place.plan(HostId::new(host), count.wrapping_add(3), directive)
}

// Accepts a host's directive without an async clause and a wait clause, for the first device.
pub fn accepted(
    alloc: Global,
    place: &mut Place,
    host: u8,
    word: Word,
    items: &[(Clause, Cells)],
) -> Result<Placed, Fault> {
    let directive = synchronous(alloc, word, items)?;
    let plan = planned(place, host, &directive)?;
    Ok(place.accept(plan))
}

// Accepts a step.
fn accept_one(alloc: Global, place: &mut Place, step: &Step) -> Result<(), Fault> {
    match accepted(alloc, place, step.host, step.word, step.items) {
        Ok(_) => Ok(()),
        Err(fault) => Err(fault),
    }
}

// Accepts each of the steps in turn.
pub fn accept_each(alloc: Global, place: &mut Place, steps: &[Step]) -> Result<(), Fault> {
    for step in steps {
        accept_one(alloc, place, step)?;
    }
    Ok(())
}

// The answer to a directive that is no wait.
pub fn answer(batch: Option<(QueueAt, u64)>, present: bool) -> Placed {
    Placed {
        batch,
        counts: counts_of(&[]),
        present,
    }
}

fn is_labelled(label: &Label, host: u8, number: u64, before: u64) -> bool {
    label.at == sync()
        && label.number == number
        && label.host == HostId::new(host)
        && label.items_done == before.wrapping_add(3)
}

// The label of a step's batch, with its number on queue sync, and with so many directives before it.
pub fn check_label(rt: &impl Abort, label: &Label, step: &Step, number: u64, before: u64) {
    assert!(rt;
        is_labelled(label, step.host, number, before),
        "label {number}"
    );
    check_labels(rt, label.ops.get().as_slice(), step.ops);
}

fn check_operation(rt: &impl Abort, operation: Operation, wanted: Operation) {
    assert_eq!(rt; operation, wanted);
}

pub fn check_labels(rt: &impl Abort, labels: &[OpLabel], wanted: &[Deed]) {
    assert!(rt; labels.len() == wanted.len(), "{} operations", labels.len());
    for (label, wanted) in labels.iter().zip(wanted) {
        check_operation(rt, operation_of(label), operation(*wanted));
    }
}

fn check_zeros(rt: &impl Abort, values: &Values) {
    for at in 0..values.len() {
        assert!(rt; values.get(at) == 0, "cell {at}");
    }
}

// The operation is this one; a block that it makes has the cells of its range, all zero.
fn check_op(rt: &impl Abort, op: &Op, wanted: Operation) {
    check_operation(rt, performed_by(op), wanted);
    if let Op::Make { block, .. } = op {
        let block = block.value();
        assert!(rt; block.cells.len() == block.range.len as usize);
        check_zeros(rt, &block.cells);
    }
}

// The next operation is this one.
fn check_next(rt: &impl Abort, ops: &mut Ops, wanted: Operation) {
    match ops.take_next() {
        Some(op) => check_op(rt, &op, wanted),
        None => panic!(rt; "an operation is missing"),
    }
}

// The operations are these.
pub fn check_ops(rt: &impl Abort, ops: Ops, wanted: &[Deed]) {
    let mut ops = ops;
    assert!(rt; ops.len() == wanted.len(), "{} operations", ops.len());
    for wanted in wanted {
        check_next(rt, &mut ops, operation(*wanted));
    }
    assert!(rt; ops.take_next().is_none());
}

// The batch that the plan of a step handed out, if the step has one.
pub fn check_batch(rt: &impl Abort, batch: Option<Batch>, step: &Step, number: u64, before: u64) {
    match batch {
        None => assert!(rt; step.ops.is_empty(), "no batch"),
        Some(batch) => {
            assert!(rt; !step.ops.is_empty(), "a batch");
            check_label(rt, batch.label(), step, number, before);
            assert!(rt; batch.ops().len() == step.ops.len());
            let (label, ops, _page) = batch.into_parts();
            check_label(rt, label.value(), step, number, before);
            check_ops(rt, ops, step.ops);
        }
    }
}

// The counters of a range of the first device.
fn counters_of(rt: &impl Abort, place: &Place, range: Range) -> Option<(u64, u64)> {
    assert!(rt; 0 < place.config().devices());
    assert!(rt; 0 < range.len);
    let counters = place.counters(DeviceId::new(0), range);
    assert!(rt; place.is_present(DeviceId::new(0), range) == counters.is_some());
    counters
}

fn entry_at(rt: &impl Abort, place: &Place, index: usize) -> Option<Entry> {
    assert!(rt; 0 < place.config().devices());
    place.nth(DeviceId::new(0), index).copied()
}

// The entry is this one, whatever is noted there of batches.
fn is_held(entry: Option<Entry>, held: Held) -> bool {
    let (cells, block, s, d) = held;
    match entry {
        Some(entry) => {
            entry.range == range_of(cells)
                && entry.block == BlockId::new(block)
                && entry.s == s
                && entry.d == d
        }
        None => false,
    }
}

// What is present on the first device, in order.
pub fn check_present(rt: &impl Abort, place: &Place, present: &[Held]) {
    for (index, held) in present.iter().enumerate() {
        let (cells, _, s, d) = *held;
        let entry = entry_at(rt, place, index);
        assert!(rt; is_held(entry, *held), "entry {index}");
        let counters = counters_of(rt, place, range_of(cells));
        assert!(rt; counters == Some((s, d)), "counters {index}");
    }
    assert!(rt; entry_at(rt, place, present.len()).is_none());
}

/// How much a place has accepted, and what is present in it: the first entries, and the counters of the first array's
/// cells.
#[derive(Clone, Copy, PartialEq, Eq)]
pub struct Shown {
    pub accepted: usize,
    pub batches: u64,
    pub present: [Option<Entry>; 4],
    pub counters: [Option<(u64, u64)>; 8],
}

pub fn shown_by(rt: &impl Abort, place: &Place) -> Shown {
    let mut present = [None; 4];
    for at in 0..4usize {
        present[at] = entry_at(rt, place, at);
    }
    let mut counters = [None; 8];
    for at in 0..8u32 {
        counters[at as usize] = counters_of(rt, place, a(at, 1));
    }
    Shown {
        accepted: place.history().len(),
        batches: place.placed_count(sync()),
        present,
        counters,
    }
}
