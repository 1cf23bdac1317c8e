//! A batch has the operations of its label, with memory for each of them; it is made where memory
//! is ample, a label is copied without any, and what a dropped batch held is free again.

use crate::fixtures::{check_labels, check_ops};
use crate::tables::Cells::{self, A, B};
use crate::tables::Deed::{self, Await, Close, In, Make, Out, Release, Run};
use crate::tables::{range_of, used};
use acc_base::{BlockId, Fault, Few, HostId, Listed, QueueId, Shared};
use acc_batch::{Batch, Label, OpLabel};
use std::alloc::Global;
use std::process::Abort;
use std::test::Fail;
use tool_directives::queue;
use tool_loops::{Body, Loop, kernel_of};
use tool_scarce::at_each_amount;

/// An operation of each kind, and a second block, with no cell. The loop uses more cells of a than it reaches, and the very
/// cells of b that it reaches.
const KINDS: &[Deed] = &[
    Make(BLOCK, A(3, 7)),
    Make(2, A(9, 0)),
    In(BLOCK, A(3, 7)),
    Run(&[(BLOCK, A(3, 7)), (2, B(4, 3))]),
    Out(BLOCK, A(5, 1)),
    Release(BLOCK),
    Await(7, 12),
    Close,
];

const BLOCK: u64 = 4_294_967_297;

// A run of the loop that is always the same, from 3 to 5.
fn run(alloc: Global, parts: &[(u64, Cells)]) -> Result<OpLabel, Fault> {
    let table = Loop {
        lo: 3,
        hi: 6,
        body: Body::NextBack,
    };
    let kernel = Shared::new(alloc, kernel_of(alloc, table)?)?;
    let mut uses = Vec::new(alloc);
    for part in parts {
        uses.push(used(part))?;
    }
    let uses = Shared::new(alloc, Listed::from_vec(uses))?;
    Ok(OpLabel::Run { kernel, uses })
}

fn op_of(alloc: Global, deed: Deed) -> Result<OpLabel, Fault> {
    match deed {
        Make(block, cells) => Ok(OpLabel::Make {
            block: BlockId::new(block),
            range: range_of(cells),
        }),
        In(block, cells) => Ok(OpLabel::CopyIn {
            block: BlockId::new(block),
            range: range_of(cells),
        }),
        Out(block, cells) => Ok(OpLabel::CopyOut {
            block: BlockId::new(block),
            range: range_of(cells),
        }),
        Release(block) => Ok(OpLabel::Release {
            block: BlockId::new(block),
        }),
        Run(parts) => run(alloc, parts),
        Await(queue, number) => Ok(OpLabel::Await {
            queue: QueueId::new(queue),
            number,
        }),
        Close => Ok(OpLabel::Close),
    }
}

fn ops_of(alloc: Global, deeds: &[Deed]) -> Result<Few<OpLabel>, Fault> {
    let mut ops = Few::new(alloc);
    for deed in deeds {
        ops.push(op_of(alloc, *deed)?)?;
    }
    Ok(ops)
}

// A label with these operations, and else with numbers that differ.
fn label_of(alloc: Global, deeds: &[Deed]) -> Result<Label, Fault> {
    let ops = Shared::new(alloc, ops_of(alloc, deeds)?)?;
    Ok(Label {
        at: queue(3, 6),
        number: 9,
        host: HostId::new(5),
        items_done: 1_099_511_627_775,
        ops,
    })
}

// The batch of a label, or a bad range where it can have none.
fn batch_of(alloc: Global, label: Label) -> Result<Batch, Fault> {
    if label.ops.get().as_slice().is_empty() || !label.has_its_cells() {
        return Err(Fault::BadRange);
    }
    Batch::new(alloc, label)
}

fn is_labelled(label: &Label) -> bool {
    label.at == queue(3, 6)
        && label.number == 9
        && label.host == HostId::new(5)
        && label.items_done == 1_099_511_627_775
}

// It is what label_of makes of these operations.
fn check_label(rt: &impl Abort, label: &Label, deeds: &[Deed]) {
    assert!(rt; is_labelled(label));
    check_labels(rt, label.ops.get().as_slice(), deeds);
}

fn check_batch(rt: &impl Abort, batch: Batch, deeds: &[Deed]) {
    check_label(rt, batch.label(), deeds);
    assert!(rt; batch.ops().len() == deeds.len());
    let (label, ops, _page) = batch.into_parts();
    check_label(rt, label.value(), deeds);
    check_ops(rt, ops, deeds);
}

fn check(rt: &impl Abort, alloc: Global, deeds: &[Deed]) -> Result<(), Fault> {
    let label = label_of(alloc, deeds)?;
    check_label(rt, &label.try_clone()?, deeds);
    check_label(rt, &label, deeds);
    check_batch(rt, batch_of(alloc, label)?, deeds);
    Ok(())
}

/// Each kind of operation, and a block of the most cells of an array.
#[test]
fn a_batch_is_its_label_with_memory(rt: HostRuntime) -> Result<(), Fail> {
    check(&rt, rt.alloc(), KINDS)?;
    check(&rt, rt.alloc(), &[Make(1, A(0, 65_536))])?;
    Ok(())
}

fn check_copy(rt: &impl Abort, alloc: Global, label: &Label) -> Result<(), Fault> {
    let (refusals, copy) = at_each_amount(alloc, || label.try_clone())?;
    assert!(rt; refusals == 0, "{refusals} refusals");
    check_label(rt, &copy, KINDS);
    Ok(())
}

#[test]
fn a_copy_of_a_label_takes_no_memory(rt: HostRuntime) -> Result<(), Fail> {
    let label = label_of(rt.alloc(), KINDS)?;
    check_copy(&rt, rt.alloc(), &label)?;
    check_label(&rt, &label, KINDS);
    Ok(())
}

fn check_scarce(
    rt: &impl Abort,
    alloc: Global,
    label: &Label,
    deeds: &[Deed],
) -> Result<(), Fault> {
    let (refusals, batch) = at_each_amount(alloc, || batch_of(alloc, label.try_clone()?))?;
    assert!(rt; 2 < refusals, "{refusals} refusals");
    check_batch(rt, batch, deeds);
    Ok(())
}

fn check_each_amount(rt: &impl Abort, alloc: Global, deeds: &[Deed]) -> Result<(), Fault> {
    let label = label_of(alloc, deeds)?;
    check_scarce(rt, alloc, &label, deeds)?;
    check_label(rt, &label, deeds);
    Ok(())
}

/// Of each kind of operation, and of a block alone.
#[test]
fn a_batch_is_refused_until_there_is_memory(rt: HostRuntime) -> Result<(), Fail> {
    check_each_amount(&rt, rt.alloc(), KINDS)?;
    check_each_amount(&rt, rt.alloc(), &[Make(1, A(0, 100))])?;
    Ok(())
}

// Many are dropped, one after the other, whole and in parts.
fn drop_many(alloc: Global) -> Result<(), Fault> {
    for _ in 0..300u32 {
        let whole = batch_of(alloc, label_of(alloc, KINDS)?)?;
        drop(whole);
        let parts = batch_of(alloc, label_of(alloc, KINDS)?)?.into_parts();
        drop(parts);
    }
    Ok(())
}

/// There is memory for one at a time.
#[test]
fn what_a_dropped_batch_held_is_free_again(rt: HostRuntime) -> Result<(), Fail> {
    let alloc = rt.alloc();
    let (refusals, ()) = at_each_amount(alloc, || drop_many(alloc))?;
    assert!(rt; 2 < refusals);
    Ok(())
}
