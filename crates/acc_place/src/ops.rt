//! The operations of a directive's marks, in their order.

ghost use Rattle.std.specs.Prelude.{◌≡◌, ◌++◌, if◌then◌else◌, OnOk, Some, None};
ghost use Rattle.std.specs.List.{flat_map};
ghost use Rattle.std.specs.Option.{option_to_list};
ghost use Rattle.acc_base.specs.Faults.{OnlyMemory};
ghost use Rattle.acc_batch.specs.declared.label.OpLabel.TheVariants as op;
ghost use Rattle.acc_place.specs.Batches.{copies_in, copies_out};
ghost use Rattle.acc_place.specs.inner.Judging.{block_of, op_of, op_for, update_for, group_ops, marked_ops};

use crate::directive::Clause;
use crate::marked::Marked;
use acc_base::{BlockId, Fault, Few, Range};
use acc_batch::OpLabel;

/// The groups of a batch's operations, in their order.
#[derive(Clone, Copy)]
pub enum Group {
    Makes,
    CopyIns,
    Updates,
    CopyOuts,
    Releases,
}

// Adds the operations of the steps group by group; a loop runs behind the copies in.
#[tactic(auto, unfolding(crate::specs::inner::Judging::marked_ops))]
pub(crate) fn add_groups(
    steps: &[Marked],
    run: Option<OpLabel>,
    ops: &mut Few<OpLabel>,
) -> Result<(), Fault>
    ensures ops { OnOk result (ops.new ≡ ops.old ++ marked_ops (option_to_list run) steps.now) }
    ensures fault { OnlyMemory result }
{
    add_group(Group::Makes, steps, ops)?;
    add_group(Group::CopyIns, steps, ops)?;
    add_run(run, ops)?;
    add_group(Group::Updates, steps, ops)?;
    add_group(Group::CopyOuts, steps, ops)?;
    add_group(Group::Releases, steps, ops)
}

// Adds the operation that runs the loop, if there is one.
fn add_run(run: Option<OpLabel>, ops: &mut Few<OpLabel>) -> Result<(), Fault>
    ensures ops { OnOk result (ops.new ≡ ops.old ++ option_to_list run) }
    ensures fault { OnlyMemory result }
{
    match run {
        None => Ok(()),
        Some(op) => {
            ops.push(op)?;
            Ok(())
        }
    }
}

// Adds the operations of one group, step by step.
fn add_group(group: Group, steps: &[Marked], ops: &mut Few<OpLabel>) -> Result<(), Fault>
    ensures ops { OnOk result (ops.new ≡ ops.old ++ flat_map (group_ops group) steps.now) }
    ensures fault { OnlyMemory result }
{
    for step in steps {
        add_op(group, *step, ops)?;
    }
    Ok(())
}

// Adds the step's operation of this group, if it has one.
fn add_op(group: Group, step: Marked, ops: &mut Few<OpLabel>) -> Result<(), Fault>
    ensures ops { OnOk result (ops.new ≡ ops.old ++ group_ops group step) }
    ensures fault { OnlyMemory result }
{
    match op_of(group, step) {
        None => Ok(()),
        Some(op) => {
            ops.push(op)?;
            Ok(())
        }
    }
}

/// The step's operation of this group, if it has one.
pub(crate) fn op_of(group: Group, step: Marked) -> Option<OpLabel>
    ensures { result ≡ op_of group step }
{
    match block_of(group, step) {
        None => None,
        Some(block) => op_for(
            group,
            step.item.clause,
            BlockId::new(block),
            step.item.range,
        ),
    }
}

// The block that an operation of this group is for.
fn block_of(group: Group, step: Marked) -> Option<u64>
    ensures { result ≡ block_of group step }
{
    match group {
        Group::Makes | Group::CopyIns => step.opened,
        Group::Updates => step.held,
        Group::CopyOuts | Group::Releases => step.ended,
    }
}

fn op_for(group: Group, clause: Clause, block: BlockId, range: Range) -> Option<OpLabel>
    ensures { result ≡ op_for group clause block range }
{
    match group {
        Group::Makes => Some(OpLabel::Make { block, range }),
        Group::CopyIns => copy_in_for(clause, block, range),
        Group::Updates => update_for(clause, block, range),
        Group::CopyOuts => copy_out_for(clause, block, range),
        Group::Releases => Some(OpLabel::Release { block }),
    }
}

// The copy to a block that an item of this clause opened.
fn copy_in_for(clause: Clause, block: BlockId, range: Range) -> Option<OpLabel>
    ensures { result ≡ (if copies_in clause then Some (op.CopyIn range block) else None) }
{
    match clause {
        Clause::Copy | Clause::Copyin => Some(OpLabel::CopyIn { block, range }),
        Clause::Copyout | Clause::Create | Clause::Present | Clause::NoCreate => None,
        Clause::Delete | Clause::UpdateSelf | Clause::UpdateDevice => None,
    }
}

// The copy from a block that an item of this clause ended.
fn copy_out_for(clause: Clause, block: BlockId, range: Range) -> Option<OpLabel>
    ensures { result ≡ (if copies_out clause then Some (op.CopyOut range block) else None) }
{
    match clause {
        Clause::Copy | Clause::Copyout => Some(OpLabel::CopyOut { block, range }),
        Clause::Copyin | Clause::Create | Clause::Present | Clause::NoCreate => None,
        Clause::Delete | Clause::UpdateSelf | Clause::UpdateDevice => None,
    }
}

// The copy of an update, from or to the block that holds its range.
fn update_for(clause: Clause, block: BlockId, range: Range) -> Option<OpLabel>
    ensures { result ≡ update_for clause block range }
{
    match clause {
        Clause::UpdateSelf => Some(OpLabel::CopyOut { block, range }),
        Clause::UpdateDevice => Some(OpLabel::CopyIn { block, range }),
        Clause::Copy | Clause::Copyin | Clause::Copyout | Clause::Create => None,
        Clause::Present | Clause::NoCreate | Clause::Delete => None,
    }
}
