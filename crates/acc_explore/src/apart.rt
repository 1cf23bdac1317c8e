//! Whether a queue's next operation stands apart: nothing to come conflicts with it before it comes.

ghost use Rattle.std.specs.Prelude.{◌≡◌, ◌≤◌, ◌⊎◌, IsTrue, drop, not};
ghost use Rattle.std.specs.List.{list_all};
ghost use Rattle.acc_base.specs.Queues.{queue_count};
ghost use Rattle.acc_batch.specs.declared.label.Label.{Label};
ghost use Rattle.acc_batch.specs.declared.label.OpLabel.{OpLabel};
ghost use Rattle.acc_core.specs.Machine.{labels_of};
ghost use Rattle.acc_explore.specs.ApartOperations.{host_is_clear, is_at_apart, keeps_clear, meets, ops_conflict, queue_is_clear, queues_are_clear, waits_for};
ghost use Rattle.acc_explore.specs.UnseenOperations.{nobody_asks};
ghost use Rattle.acc_explore.specs.inner.Unseen.{GoesOn};
ghost use Rattle.acc_host.specs.Hosts.{bare_act};
ghost use Rattle.acc_host.specs.declared.program.Statement.{Statement};
ghost use Rattle.acc_work.specs.Logs.{batches_done};

use crate::conflicts::ops_conflict;
use crate::naming::meets;
use crate::unseen::{goes_on, has_performed};
use acc_base::{DeviceId, HostId, QueueAt};
use acc_batch::{Label, OpLabel};
use acc_core::World;
use acc_host::{Host, Phase, Statement};

// Whether an operation of a device conflicts with none of these of another one.
fn ops_are_clear(device: DeviceId, op: &OpLabel, other: DeviceId, ops: &[OpLabel]) -> bool
    ensures { result
        ≡ list_all (λ (x : OpLabel). not (ops_conflict device op.now other x)) ops.now }
{
    ops.iter().all(|x| !ops_conflict(device, op, other, x))
}

// Whether it conflicts with none of a batch.
fn batch_is_clear(device: DeviceId, op: &OpLabel, other: DeviceId, label: &Label) -> bool
    ensures { result
        ≡ list_all (λ (x : OpLabel). not (ops_conflict device op.now other x)) label.now.ops }
{
    ops_are_clear(device, op, other, label.ops.get().as_slice())
}

// Whether it conflicts with none of these batches.
fn batches_are_clear(device: DeviceId, op: &OpLabel, other: DeviceId, labels: &[Label]) -> bool
    ensures { result ≡ list_all (λ (l : Label). list_all (λ (x : OpLabel).
        not (ops_conflict device op.now other x)) l.ops) labels.now }
{
    labels
        .iter()
        .all(|label| batch_is_clear(device, op, other, label))
}

// Whether it conflicts with none behind the first ones of these batches.
fn rest_is_clear(
    device: DeviceId,
    op: &OpLabel,
    other: DeviceId,
    labels: &[Label],
    first: usize,
) -> bool
    ensures { IsTrue result
        → IsTrue (list_all (λ (l : Label). list_all (λ (x : OpLabel).
        not (ops_conflict device op.now other x)) l.ops) (drop first labels.now)) }
{
    first >= labels.len() || batches_are_clear(device, op, other, &labels[first..])
}

// As many batches as a queue has performed, or fewer: of those that it has taken the last one may be under way.
fn batches_behind(world: &World, at: QueueAt) -> u64
    ensures { result ≤ batches_done (labels_of world.now) world.now.work at }
{
    let QueueAt { device, queue } = at;
    let taken = world.taken(QueueAt { device, queue });
    if has_performed(world, QueueAt { device, queue }, taken) {
        return taken;
    }
    let before = taken.saturating_sub(1);
    if has_performed(world, QueueAt { device, queue }, before) {
        return before;
    }
    0
}

// Whether a queue is this one, or what is placed there and to come doesn't conflict with an operation of this one.
fn queue_is_clear(world: &World, at: QueueAt, op: &OpLabel, other: QueueAt) -> bool
    ensures { IsTrue result → IsTrue (queue_is_clear world.now at op.now other) }
{
    let QueueAt { device, queue } = other;
    if at.device == device && at.queue == queue {
        return true;
    }
    let labels = world.place().labels_on(QueueAt { device, queue });
    let performed = batches_behind(world, QueueAt { device, queue }) as usize;
    rest_is_clear(at.device, op, device, labels, performed)
}

// Whether each queue is.
fn queues_are_clear(world: &World, at: QueueAt, op: &OpLabel) -> bool
    ensures { IsTrue result
        → IsTrue (queues_are_clear world.now at op.now (queue_count world.now.config)) }
{
    let QueueAt { device, queue } = at;
    for seat in 0..world.place().config().queue_count() {
        let other = QueueAt::at_seat(seat);
        if !queue_is_clear(world, QueueAt { device, queue }, op, other) {
            return false;
        }
    }
    true
}

// Whether a host waits until a queue has performed more batches.
fn waits_for(world: &World, at: QueueAt, phase: &Phase) -> bool
    ensures { IsTrue result → IsTrue (waits_for world.now at phase.now) }
{
    let QueueAt { device, queue } = at;
    match phase {
        Phase::Waits {
            device: other,
            counts,
        } => {
            let index = usize::from(queue.number());
            *other == device
                && index < counts.len()
                && !has_performed(world, QueueAt { device, queue }, counts[index])
        }
        Phase::Ready | Phase::Asks { .. } | Phase::Refused { .. } => false,
    }
}

// Whether none of these statements may conflict with an operation, or place what does.
fn statements_are_clear(op: &OpLabel, statements: &[Statement]) -> bool
    ensures { result ≡ list_all (λ (s : Statement). not
        (meets op.now (bare_act s.act))) statements.now }
{
    statements
        .iter()
        .all(|statement| !meets(op, &statement.act))
}

// Whether none of those behind the first one may.
fn behind_are_clear(op: &OpLabel, statements: &[Statement]) -> bool
    ensures { IsTrue result
        → IsTrue (list_all (λ (s : Statement). not (meets op.now (bare_act s.act)))
        (drop 1 statements.now)) }
{
    statements.len() <= 1 || statements_are_clear(op, &statements[1..])
}

// Whether none of the statements that a host has still to begin may.
fn keeps_clear(op: &OpLabel, host: &Host) -> bool
    ensures { IsTrue result → IsTrue (keeps_clear op.now host.now) }
{
    let left = host.remaining();
    match host.phase() {
        Phase::Ready => statements_are_clear(op, left),
        Phase::Waits { .. } => behind_are_clear(op, left),
        Phase::Asks { .. } => behind_are_clear(op, left),
        Phase::Refused { .. } => true,
    }
}

// Whether a host waits for a queue, or keeps clear of its operation.
fn host_is_clear(world: &World, at: QueueAt, op: &OpLabel, host: &Host) -> bool
    ensures { IsTrue result → IsTrue (host_is_clear world.now at op.now host.now) }
{
    waits_for(world, at, host.phase()) || keeps_clear(op, host)
}

// Whether each host does.
fn hosts_are_clear(world: &World, at: QueueAt, op: &OpLabel) -> bool
    ensures { IsTrue result
        → IsTrue (list_all (host_is_clear world.now at op.now) world.now.hosts) }
{
    let QueueAt { device, queue } = at;
    for number in 0..world.hosts() {
        let Some(host) = world.host(HostId::new(number)) else {
            return false;
        };
        if !host_is_clear(world, QueueAt { device, queue }, op, host) {
            return false;
        }
    }
    true
}

// Whether no host asks how far queues have come, or more of a queue's batch is left behind its next operation.
fn is_unasked(world: &World, at: QueueAt, unasked: bool) -> bool
    requires { IsTrue unasked → IsTrue (nobody_asks world.now) }
    ensures { IsTrue result → IsTrue (nobody_asks world.now) ⊎ GoesOn world.now at }
{
    unasked || goes_on(world, at)
}

/// Whether a queue's next operation may go first where the owner doesn't close: it can be performed, no other queue has an operation to
/// perform that conflicts with it, and each host waits for its queue, or has no statement to begin that conflicts or names an array of it;
/// and more of its batch is left, or no host asks how far queues have come, now or later. It takes no memory.
pub fn stands_apart(world: &World, at: QueueAt, unasked: bool) -> bool
    requires { IsTrue unasked → IsTrue (nobody_asks world.now) }
    ensures { IsTrue result → IsTrue (is_at_apart at world.now) }
{
    let QueueAt { device, queue } = at;
    let Some(op) = world.next_op(QueueAt { device, queue }) else {
        return false;
    };
    if !world.enabled(QueueAt { device, queue }) {
        return false;
    }
    if !is_unasked(world, QueueAt { device, queue }, unasked) {
        return false;
    }
    hosts_are_clear(world, QueueAt { device, queue }, op)
        && queues_are_clear(world, QueueAt { device, queue }, op)
}
