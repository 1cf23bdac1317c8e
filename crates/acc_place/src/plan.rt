//! What accepting a directive will add, and its batch, group by group.

ghost use Rattle.std.specs.Prelude.{ℕ, All, ◌≡◌, ◌<◌, [], false, if◌then◌else◌, IfOk, IfSome, IsTrue, None};
ghost use Rattle.std.specs.List.{flat_map};
ghost use Rattle.std.specs.Option.{option_to_list};
ghost use Rattle.acc_base.specs.Faults.{OnlyMemory};
ghost use Rattle.acc_batch.specs.Ops.{HasItsCells};
ghost use Rattle.acc_base.specs.declared.range.Range.{Range};
ghost use Rattle.acc_batch.specs.Awaits.{with_awaits};
ghost use Rattle.acc_present.specs.Notes.{Note, HasNotes};
ghost use Rattle.acc_place.specs.inner.Noting.{awaits_from, used_ranges};
ghost use Rattle.acc_place.specs.inner.Trials.{behind_noted, next_in, placed_by, CanBeMade};
ghost use Rattle.acc_place.specs.Plans.{label_for, opened_region};
ghost use Rattle.acc_place.specs.declared.ops.Group.{Group};
ghost use Rattle.acc_place.specs.Targets.{is_alone};
ghost use Rattle.acc_place.specs.inner.Judging.{counted_steps, group_ops, marked_ops};

use crate::answer::{Answer, answer_by};
use crate::awaits::{add_all_awaits, awaited_numbers};
use crate::directive::{Directive, Region};
use crate::judge::Known;
use crate::marked::Marked;
use crate::ops::{Group, add_groups, op_of};
use crate::regions::opened_region;
use crate::targets::is_alone;
use acc_base::{Fault, Few, HostId, QueueCounts, QueueId, Shared};
use acc_batch::{Batch, Label, OpLabel};
use std::alloc::Global;
use std::marker::Model;

/// A directive that can be accepted, with all the memory that this needs, and its batch.
#[derive(Drop)]
pub struct Plan {
    pub(crate) host: HostId,
    pub(crate) items_done: u64,
    pub(crate) directive: Directive,
    // the data construct that it enters, if it enters one
    pub(crate) region: Option<Region>,
    // the label of its batch, if it has one
    pub(crate) label: Option<Label>,
    // the batch, until it is handed out
    pub(crate) batch: Option<Batch>,
    // what it is answered, in the memory that keeps it
    pub(crate) answer: Answer,
    // how many entries the place history had
    pub(crate) stamp: usize,
}

impl Model for Plan {
    ghost use Rattle.std.specs.Coded.{codes};
    ghost use Rattle.acc_kernel.specs.contracts.expr.Expr as expr;
    ghost use Rattle.acc_place.specs.Plans.{PlanView};

    ghost Value = { PlanView };

    ghost coded = { Prim.hlevel (codes, expr.the_row.coded) };

    ghost view = { λ q. record { host = q.host; items_done = q.items_done; directive = q.directive; region = q.region; label = q.label; batch = q.batch; answer = q.answer; stamp = q.stamp } };
}

impl Plan {
    /// Hands out the batch, if the directive has one and it wasn't handed out before.
    pub fn take_batch(&mut self) -> Option<Batch>
        ensures batch { result ≡ self.old.batch }
        ensures plan { self.new ≡ record self.old { batch = None } }
    {
        self.batch.take()
    }
}

/// A plan for a host's directive with these steps, that runs this loop, if any, and whose question is answered so; with its
/// batch where that is wanted.
pub(crate) fn plan_of(
    alloc: Global,
    known: &Known,
    host: HostId,
    items_done: u64,
    directive: &Directive,
    steps: &[Marked],
    run: Option<OpLabel>,
    present: bool,
    with_batch: bool,
) -> Result<Plan, Fault>
    requires run { IfSome run HasItsCells }
    requires run_cells { All (λ u. 0 < u.1.len) (flat_map used_ranges (option_to_list run)) }
    requires cells { All (λ t. 0 < t.item.range.len) steps.now }
    ensures host { IfOk result (λ q. (q.host ≡ host) × (q.items_done ≡ items_done)
        × (q.stamp ≡ known.now.accepted)) }
    ensures directive { IfOk result (λ q. q.directive ≡ directive.now) }
    ensures region { IfOk result (λ q.
        q.region ≡ opened_region host directive.now directive.now.kind (counted_steps steps.now)) }
    ensures label { (notes : Range → ℕ → Note) → HasNotes notes known.now.table.now.notes
        → IfOk result (λ q.
        q.label ≡ label_for known.now.at (next_in known.now) host items_done
        (behind_noted known.now notes directive.now
        (marked_ops (option_to_list run) steps.now) steps.now)) }
    ensures batch { IfOk result (λ q. q.batch ≡ (if with_batch then q.label else None)) }
    ensures answer { IfOk result (λ q.
        q.answer ≡ placed_by known.now directive.now q.label present) }
    ensures fault { OnlyMemory result }
{
    let ops = batch_ops(alloc, known, directive, steps, run)?;
    let region = opened_region(alloc, host, directive, steps)?;
    let label = label_of(alloc, known, host, items_done, ops)?;
    let batch = batch_of(alloc, &label, with_batch)?;
    let answer = answer_by(alloc, known, directive, &label, present)?;
    let directive = directive.try_clone()?;
    Ok(Plan {
        host,
        items_done,
        directive,
        region,
        label,
        batch,
        answer,
        stamp: known.accepted,
    })
}

// The label of a batch of these operations, if there are any.
fn label_of(
    alloc: Global,
    known: &Known,
    host: HostId,
    items_done: u64,
    ops: Few<OpLabel>,
) -> Result<Option<Label>, Fault>
    ensures label { IfOk result (λ label.
        label ≡ label_for known.now.at (next_in known.now) host items_done ops) }
    ensures fault { OnlyMemory result }
{
    if ops.as_slice().is_empty() {
        return Ok(None);
    }
    let ops = Shared::new(alloc, ops)?;
    Ok(Some(Label {
        at: known.at,
        number: known.labels.on(known.at).len() as u64 + 1,
        host,
        items_done,
        ops,
    }))
}

// The batch with this label, if there is one, and it is wanted.
fn batch_of(alloc: Global, label: &Option<Label>, wanted: bool) -> Result<Option<Batch>, Fault>
    requires { IfSome label.now CanBeMade }
    ensures batch { IfOk result (λ batch. batch ≡ (if wanted then label.now else None)) }
    ensures fault { OnlyMemory result }
{
    if !wanted {
        return Ok(None);
    }
    match label {
        None => Ok(None),
        Some(label) => {
            let copy = label.try_clone()?;
            let batch = Batch::new(alloc, copy)?;
            Ok(Some(batch))
        }
    }
}

// The operations of the batch of a directive with these steps, that runs this loop, if any, behind what they await.
fn batch_ops(
    alloc: Global,
    known: &Known,
    directive: &Directive,
    steps: &[Marked],
    run: Option<OpLabel>,
) -> Result<Few<OpLabel>, Fault>
    requires run { IfSome run HasItsCells }
    requires run_cells { All (λ u. 0 < u.1.len) (flat_map used_ranges (option_to_list run)) }
    requires cells { All (λ t. 0 < t.item.range.len) steps.now }
    ensures ops { (notes : Range → ℕ → Note) → HasNotes notes known.now.table.now.notes
        → IfOk result (λ ops.
        ops ≡ behind_noted known.now notes directive.now
        (marked_ops (option_to_list run) steps.now) steps.now) }
    ensures cells { IfOk result (λ ops. All HasItsCells ops) }
    ensures fault { OnlyMemory result }
{
    if is_without_batch(directive, steps, &run) {
        return Ok(Few::new(alloc));
    }
    let numbers = awaited_numbers(known, directive, steps, &run);
    ops_of(
        alloc,
        known.at.queue,
        &numbers,
        is_alone(directive),
        steps,
        run,
    )
}

// Whether a directive with these steps, that runs this loop, if any, has no batch, whatever it awaits.
fn is_without_batch(directive: &Directive, steps: &[Marked], run: &Option<OpLabel>) -> bool
    ensures alone { IsTrue result → is_alone directive.now ≡ false }
    ensures ops { IsTrue result → marked_ops (option_to_list run.now) steps.now ≡ [] }
{
    match run {
        Some(_) => false,
        None => !is_alone(directive) && are_idle(steps),
    }
}

// Whether no step has an operation.
fn are_idle(steps: &[Marked]) -> bool
    ensures { IsTrue result → (group : Group) → flat_map (group_ops group) steps.now ≡ [] }
{
    match steps {
        [] => true,
        [first, rest @ ..] => is_idle(*first) && are_idle(rest),
    }
}

// Whether a step has no operation.
fn is_idle(step: Marked) -> bool
    ensures { IsTrue result → (group : Group) → group_ops group step ≡ [] }
{
    step.opened.is_none() && step.ended.is_none() && op_of(Group::Updates, step).is_none()
}

// The operations of a batch, behind the awaits by these numbers. Awaits that nothing stands behind are dropped, but those of a
// wait.
fn ops_of(
    alloc: Global,
    own: QueueId,
    numbers: &QueueCounts,
    alone: bool,
    steps: &[Marked],
    run: Option<OpLabel>,
) -> Result<Few<OpLabel>, Fault>
    ensures ops { IfOk result (λ ops.
        ops ≡ with_awaits alone (awaits_from own 0 numbers.now)
        (marked_ops (option_to_list run) steps.now)) }
    ensures fault { OnlyMemory result }
{
    let mut ops = Few::new(alloc);
    add_all_awaits(own, numbers, &mut ops)?;
    let awaits = ops.as_slice().len();
    add_groups(steps, run, &mut ops)?;
    if !alone && ops.as_slice().len() == awaits {
        return Ok(Few::new(alloc));
    }
    ops.shrink_to_fit();
    Ok(ops)
}
