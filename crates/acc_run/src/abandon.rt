//! What a run leaves whose queues haven't performed all.

ghost use Rattle.std.specs.Prelude.{IfErr, IfOk, OnOk, [], ◌++◌, ◌≡◌, map};
ghost use Rattle.acc_base.specs.Faults.{OnlyMemory};
ghost use Rattle.acc_base.specs.Queues.{queue_count};
ghost use Rattle.acc_batch.specs.Labels.{ops_of};
ghost use Rattle.acc_run.specs.Finishing.{Abandoned, AreOfOneRun, CannotAbandon, HasCounts, untaken_on, histories_in, histories_of, left_on};
ghost use Rattle.acc_work.specs.Works.{lane_at};
ghost use Rattle.acc_run.specs.inner.Discarding.{discarded, discards};

use crate::finish::{Sides, SidesRefused, are_of_one_run, outcome_of};
use crate::place_side::PlaceSide;
use crate::token::HostToken;
use crate::work_side::WorkSide;
use acc_base::{Config, Fault, QueueAt};
use acc_batch::{Label, OpLabel};
use acc_host::{Discarded, Outcome};
use std::alloc::Global;

/// What a run of this configuration leaves, wherever its queues stand. Nothing more is performed: what was placed on a queue and it
/// hasn't performed is discarded, and listed, by device, then by queue, then in its order. No host's state is among it.
///
/// # Errors
///
/// `HostsDiffer` where a side was made for another configuration, where the batches that a queue took aren't the first that were placed
/// on it, or the tokens and the histories differ; else `Memory` where memory for the list is refused. Then all comes back.
pub fn abandon_sides(
    alloc: Global,
    config: &Config,
    sides: Sides,
    tokens: Vec<HostToken>,
) -> Result<Outcome, SidesRefused>
    ensures config { IfOk result (λ o. o.config ≡ config.now) }
    ensures histories { IfOk result (λ o. histories_of o ≡ histories_in sides.place sides.work) }
    ensures abandoned { IfOk result (λ o.
        Abandoned tokens.items (histories_of o) o.discarded.items) }
    ensures counted { IfOk result (λ o. HasCounts o) }
    ensures hosts { IfOk result (λ o. o.hosts.items ≡ []) }
    ensures fault { IfErr result (λ r.
        CannotAbandon config.now sides.place sides.work tokens.items r.fault) }
    ensures sides { IfErr result (λ r. r.sides ≡ sides) }
    ensures tokens { IfErr result (λ r. r.tokens ≡ tokens) }
{
    sides.place.keeps();
    sides.work.keeps();
    match discard(alloc, config, &sides.place, &sides.work, tokens.as_slice()) {
        Err(fault) => Err(SidesRefused {
            fault,
            sides,
            tokens,
        }),
        Ok(discarded) => {
            let mut outcome = outcome_of(sides);
            outcome.discarded = discarded;
            Ok(outcome)
        }
    }
}

// What is left of all queues, if both sides and the tokens are of one run.
fn discard(
    alloc: Global,
    config: &Config,
    place: &PlaceSide,
    work: &WorkSide,
    tokens: &[HostToken],
) -> Result<Vec<Discarded>, Fault>
    ensures one { IfOk result (λ list. AreOfOneRun config.now place.now work.now tokens.now) }
    ensures listed { IfOk result (λ list.
        list.items ≡ discards place.now work.now (queue_count config.now)) }
    ensures fault { IfErr result (λ f. CannotAbandon config.now place.now work.now tokens.now f) }
{
    if !are_of_one_run(config, place, work, tokens) {
        return Err(Fault::HostsDiffer);
    }
    list_all(alloc, config, place, work)
}

// What is left of all queues.
fn list_all(
    alloc: Global,
    config: &Config,
    place: &PlaceSide,
    work: &WorkSide,
) -> Result<Vec<Discarded>, Fault>
    ensures listed { IfOk result (λ list.
        list.items ≡ discards place.now work.now (queue_count config.now)) }
    ensures fault { OnlyMemory result }
{
    let mut list = Vec::new(alloc);
    for index in 0..config.queue_count() {
        list_queue(&mut list, place, work, QueueAt::at_seat(index))?;
    }
    Ok(list)
}

// Lists what is left of a queue: in its lane, and of the batches that it didn't take.
fn list_queue(
    list: &mut Vec<Discarded>,
    place: &PlaceSide,
    work: &WorkSide,
    at: QueueAt,
) -> Result<(), Fault>
    ensures listed { OnOk result (list.new.items ≡ list.old.items
        ++ map (discarded at) (left_on place.now work.now at)) }
    ensures fault { OnlyMemory result }
{
    let QueueAt { device, queue } = at;
    let left = left_in_lane(work, QueueAt { device, queue });
    list_ops(list, QueueAt { device, queue }, left)?;
    let held = held_on(place, work, QueueAt { device, queue });
    list_batches(list, QueueAt { device, queue }, held)
}

// What is left in a queue's lane: the last operations of the last batch that it took.
fn left_in_lane(work: &WorkSide, at: QueueAt) -> &[OpLabel]
    ensures { result.now ≡ (lane_at work.now.work at).left }
{
    work.keeps();
    let QueueAt { device, queue } = at;
    let left = work.as_work().ops_left(QueueAt { device, queue });
    match work.as_work().last_taken(QueueAt { device, queue }) {
        None => &[],
        Some(label) => {
            let ops = label.ops.get().as_slice();
            &ops[ops.len().saturating_sub(left)..]
        }
    }
}

// The batches that were placed on a queue, and that it didn't take.
fn held_on<'a>(place: &'a PlaceSide, work: &WorkSide, at: QueueAt) -> &'a [Label]
    ensures { result.now ≡ untaken_on place.now work.now at }
{
    let QueueAt { device, queue } = at;
    let placed = place.as_place().labels_on(QueueAt { device, queue });
    work.as_work()
        .behind_taken(QueueAt { device, queue }, placed)
}

// Lists the operations of these batches.
fn list_batches(list: &mut Vec<Discarded>, at: QueueAt, labels: &[Label]) -> Result<(), Fault>
    ensures listed { OnOk result (list.new.items ≡ list.old.items
        ++ map (discarded at) (ops_of labels.now)) }
    ensures fault { OnlyMemory result }
{
    let QueueAt { device, queue } = at;
    for label in labels {
        list_ops(list, QueueAt { device, queue }, label.ops.get().as_slice())?;
    }
    Ok(())
}

// Lists these operations.
fn list_ops(list: &mut Vec<Discarded>, at: QueueAt, ops: &[OpLabel]) -> Result<(), Fault>
    ensures listed { OnOk result (list.new.items ≡ list.old.items ++ map (discarded at) ops.now) }
    ensures fault { OnlyMemory result }
{
    let QueueAt { device, queue } = at;
    for op in ops {
        let what = op.try_clone()?;
        let at = QueueAt { device, queue };
        list.push(Discarded { at, what })?;
    }
    Ok(())
}
