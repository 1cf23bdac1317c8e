//! Which batches of other queues a batch awaits, by what the table has noted.

ghost use Rattle.std.specs.Prelude.{ℕ, All, ◌≡◌, ◌+◌, ◌<◌, ◌≤◌, ◌++◌, ◌==◌, [], max, map, length, slice_index_or, IsTrue, OnOk, if◌then◌else◌};
ghost use Rattle.std.specs.List.{flat_map};
ghost use Rattle.std.specs.Option.{option_to_list};
ghost use Rattle.acc_base.specs.Faults.{OnlyMemory};
ghost use Rattle.acc_base.specs.declared.ids.TheConstants.{QUEUES};
ghost use Rattle.acc_base.specs.declared.range.Range.{Range};
ghost use Rattle.acc_base.specs.Queues.{every_queue};
ghost use Rattle.acc_batch.specs.Awaits.{await_of};
ghost use Rattle.acc_present.specs.Notes.{Note, HasNotes};
ghost use Rattle.acc_place.specs.inner.Noting.{awaits_from, ended_range, last_made, last_used, made_at, note_found, used_at, used_ranges, Raises};
ghost use Rattle.acc_place.specs.inner.Places.{queue_in};
ghost use Rattle.acc_place.specs.Targets.{queue_meant, queues_named};
ghost use Rattle.acc_place.specs.inner.Trials.{named_count, number_in};
ghost use Rattle.acc_place.specs.inner.Judging.{group_ops, marked_ops};

use crate::directive::{Directive, Waits};
use crate::judge::Known;
use crate::labels::Labels;
use crate::marked::Marked;
use crate::ops::{Group, op_of};
use crate::targets::queue_of;
use acc_base::{BlockId, DeviceId, Fault, Few, QUEUES, QueueAt, QueueCounts, QueueId, Range};
use acc_batch::OpLabel;
use acc_present::Table;

/// How many batches were placed on each queue of a device that a directive waits for, and 0 for the others.
pub(crate) fn named_counts(labels: &Labels, device: DeviceId, directive: &Directive) -> QueueCounts
    ensures { result ≡ map (named_count labels.now.queues device
        (queues_named directive.now)) every_queue }
{
    match directive.waits() {
        Waits::Nothing => [0; QUEUES as usize],
        Waits::All => all_counts(labels, device),
        Waits::Listed { values } => {
            listed_counts(labels, device, directive.default(), values.as_slice())
        }
    }
}

// How many batches were placed on each queue of a device.
fn all_counts(labels: &Labels, device: DeviceId) -> QueueCounts
    ensures { result ≡ map (λ q. length (queue_in labels.now.queues
        (record { device = device; queue = q }))) every_queue }
{
    let mut counts = [0; QUEUES as usize];
    for queue in 0..QUEUES {
        counts[usize::from(queue)] = placed_on(labels, device, QueueId::new(queue));
    }
    counts
}

fn placed_on(labels: &Labels, device: DeviceId, queue: QueueId) -> u64
    ensures { result ≡ length (queue_in labels.now.queues
        (record { device = device; queue = queue })) }
{
    labels.on(QueueAt { device, queue }).len() as u64
}

// How many batches were placed on each queue that these values name, for a host with this default.
fn listed_counts(labels: &Labels, device: DeviceId, default: i64, values: &[i64]) -> QueueCounts
    ensures { result ≡ map (named_count labels.now.queues device
        (flat_map option_to_list (map (queue_meant default) values.now))) every_queue }
{
    let mut counts = [0; QUEUES as usize];
    raise_named(labels, device, default, values, &mut counts);
    counts
}

// Raises the numbers of the queues that these values name, for a host with this default, to how many batches were placed there.
fn raise_named(
    labels: &Labels,
    device: DeviceId,
    default: i64,
    values: &[i64],
    numbers: &mut QueueCounts,
)
    ensures { Raises numbers.old
        (named_count labels.now.queues device
        (flat_map option_to_list (map (queue_meant default) values.now))) numbers.new }
{
    match values {
        [] => {}
        [first, rest @ ..] => {
            raise_placed(labels, device, queue_of(default, *first), numbers);
            raise_named(labels, device, default, rest, numbers);
        }
    }
}

// Raises the number of a queue, if there is one, to how many batches were placed there.
fn raise_placed(
    labels: &Labels,
    device: DeviceId,
    queue: Option<QueueId>,
    numbers: &mut QueueCounts,
)
    ensures { Raises numbers.old
        (named_count labels.now.queues device (option_to_list queue)) numbers.new }
{
    match queue {
        None => {}
        Some(queue) => raise(numbers, queue, placed_on(labels, device, queue)),
    }
}

/// The number of the batch that a directive's batch awaits on each queue of its device, or 0, where these steps became of its
/// items and it runs this loop, if any.
pub(crate) fn awaited_numbers(
    known: &Known,
    directive: &Directive,
    steps: &[Marked],
    run: &Option<OpLabel>,
) -> QueueCounts
    requires cells { All (λ t. 0 < t.item.range.len) steps.now }
    requires run_cells { All (λ u. 0 < u.1.len) (flat_map used_ranges (option_to_list run.now)) }
    ensures { (notes : Range → ℕ → Note) → HasNotes notes known.now.table.now.notes
        → result ≡ map (number_in known.now notes (queues_named directive.now)
        (marked_ops (option_to_list run.now) steps.now) steps.now) every_queue }
{
    let table = known.table;
    let mut numbers = named_counts(known.labels, known.at.device, directive);
    raise_group(table, Group::CopyIns, steps, &mut numbers);
    raise_if(table, run, &mut numbers);
    raise_group(table, Group::Updates, steps, &mut numbers);
    raise_group(table, Group::CopyOuts, steps, &mut numbers);
    raise_ended(table, steps, &mut numbers);
    numbers
}

/// Adds an await of each other queue of which a batch is awaited, by these numbers, in queue order. Mostly there is none.
///
/// # Errors
///
/// `Memory` where memory is refused; some may have been added then.
pub(crate) fn add_all_awaits(
    own: QueueId,
    numbers: &QueueCounts,
    ops: &mut Few<OpLabel>,
) -> Result<(), Fault>
    ensures ops { OnOk result (ops.new ≡ ops.old ++ awaits_from own 0 numbers.now) }
    ensures fault { OnlyMemory result }
{
    if awaits_none(own, 0, numbers.as_slice()) {
        return Ok(());
    }
    add_awaits(own, 0, numbers.as_slice(), ops)
}

// Whether no batch of another queue is awaited, by the numbers from this queue on.
fn awaits_none(own: QueueId, queue: u8, numbers: &[u64]) -> bool
    requires { queue + length numbers.now ≤ QUEUES }
    ensures { IsTrue result → awaits_from own queue numbers.now ≡ [] }
{
    match numbers {
        [] => true,
        [number, rest @ ..] => {
            (queue == own.number() || *number == 0) && awaits_none(own, queue + 1, rest)
        }
    }
}

// Adds the awaits by the numbers from this queue on.
fn add_awaits(own: QueueId, queue: u8, numbers: &[u64], ops: &mut Few<OpLabel>) -> Result<(), Fault>
    requires { queue + length numbers.now ≤ QUEUES }
    ensures ops { OnOk result (ops.new ≡ ops.old ++ awaits_from own queue numbers.now) }
    ensures fault { OnlyMemory result }
{
    match numbers {
        [] => Ok(()),
        [number, rest @ ..] => {
            add_await(own, QueueId::new(queue), *number, ops)?;
            add_awaits(own, queue + 1, rest, ops)
        }
    }
}

fn add_await(own: QueueId, queue: QueueId, number: u64, ops: &mut Few<OpLabel>) -> Result<(), Fault>
    ensures ops { OnOk result (ops.new ≡ ops.old ++ await_of own queue number) }
    ensures fault { OnlyMemory result }
{
    if queue != own && number != 0 {
        ops.push(OpLabel::Await { queue, number })?;
    }
    Ok(())
}

// Raises the numbers by the makers of what the steps' operations of this group use.
fn raise_group(table: &Table, group: Group, steps: &[Marked], numbers: &mut QueueCounts)
    requires { All (λ t. 0 < t.item.range.len) steps.now }
    ensures { (notes : Range → ℕ → Note) → HasNotes notes table.now.notes
        → Raises numbers.old
        (last_made (note_found notes table.now.presences)
        (flat_map used_ranges (flat_map (group_ops group) steps.now))) numbers.new }
{
    match steps {
        [] => {}
        [first, rest @ ..] => {
            raise_if(table, &op_of(group, *first), numbers);
            raise_group(table, group, rest, numbers);
        }
    }
}

// Raises the numbers by the makers of what an operation uses, if there is one.
fn raise_if(table: &Table, op: &Option<OpLabel>, numbers: &mut QueueCounts)
    requires { All (λ u. 0 < u.1.len) (flat_map used_ranges (option_to_list op.now)) }
    ensures { (notes : Range → ℕ → Note) → HasNotes notes table.now.notes
        → Raises numbers.old
        (last_made (note_found notes table.now.presences)
        (flat_map used_ranges (option_to_list op.now))) numbers.new }
{
    match op {
        None => {}
        Some(op) => raise_op(table, op, numbers),
    }
}

fn raise_op(table: &Table, op: &OpLabel, numbers: &mut QueueCounts)
    requires { All (λ u. 0 < u.1.len) (used_ranges op.now) }
    ensures { (notes : Range → ℕ → Note) → HasNotes notes table.now.notes
        → Raises numbers.old
        (last_made (note_found notes table.now.presences) (used_ranges op.now)) numbers.new }
{
    match op {
        OpLabel::CopyIn { range, .. } => raise_range(table, *range, numbers),
        OpLabel::CopyOut { range, .. } => raise_range(table, *range, numbers),
        OpLabel::Run { uses, .. } => raise_uses(table, uses.get().as_slice(), numbers),
        OpLabel::Make { .. } | OpLabel::Release { .. } | OpLabel::Await { .. } | OpLabel::Close =>
            {}
    }
}

fn raise_uses(table: &Table, uses: &[(BlockId, Range)], numbers: &mut QueueCounts)
    requires { All (λ u. 0 < u.1.len) uses.now }
    ensures { (notes : Range → ℕ → Note) → HasNotes notes table.now.notes
        → Raises numbers.old
        (last_made (note_found notes table.now.presences) uses.now) numbers.new }
{
    match uses {
        [] => {}
        [(_, range), rest @ ..] => {
            raise_range(table, *range, numbers);
            raise_uses(table, rest, numbers);
        }
    }
}

// Raises the numbers by the maker of the block of a range, if the range is present.
fn raise_range(table: &Table, range: Range, numbers: &mut QueueCounts)
    requires { 0 < range.len }
    ensures { (notes : Range → ℕ → Note) → HasNotes notes table.now.notes
        → Raises numbers.old (λ q.
        made_at q (note_found notes table.now.presences range)) numbers.new }
{
    match table.find(range) {
        Some(entry) => {
            let (queue, number) = entry.maker;
            raise(numbers, queue, number);
        }
        None => {}
    }
}

// Raises the numbers by all that made or used the blocks that items ended.
fn raise_ended(table: &Table, steps: &[Marked], numbers: &mut QueueCounts)
    requires { All (λ t. 0 < t.item.range.len) steps.now }
    ensures { (notes : Range → ℕ → Note) → HasNotes notes table.now.notes
        → Raises numbers.old
        (last_used (note_found notes table.now.presences)
        (flat_map ended_range steps.now)) numbers.new }
{
    match steps {
        [] => {}
        [first, rest @ ..] => {
            raise_step(table, *first, numbers);
            raise_ended(table, rest, numbers);
        }
    }
}

fn raise_step(table: &Table, step: Marked, numbers: &mut QueueCounts)
    requires { 0 < step.item.range.len }
    ensures { (notes : Range → ℕ → Note) → HasNotes notes table.now.notes
        → Raises numbers.old
        (last_used (note_found notes table.now.presences) (ended_range step)) numbers.new }
{
    match step.ended {
        None => {}
        Some(_) => raise_used(table, step.item.range, numbers),
    }
}

// Raises the numbers by all that made or used the block of a range, if the range is present.
fn raise_used(table: &Table, range: Range, numbers: &mut QueueCounts)
    requires { 0 < range.len }
    ensures { (notes : Range → ℕ → Note) → HasNotes notes table.now.notes
        → Raises numbers.old (λ q.
        used_at q (note_found notes table.now.presences range)) numbers.new }
{
    match table.find(range) {
        Some(entry) => raise_all(numbers, &entry.uses),
        None => {}
    }
}

// Raises the number of one queue, if there is such a queue.
fn raise(numbers: &mut QueueCounts, queue: QueueId, number: u64)
    ensures { Raises numbers.old (λ q. if queue == q then number else 0) numbers.new }
{
    let at = usize::from(queue.number());
    if at < usize::from(QUEUES) && numbers[at] < number {
        numbers[at] = number;
    }
}

// Raises the number of each queue.
fn raise_all(numbers: &mut QueueCounts, others: &QueueCounts)
    ensures { Raises numbers.old (λ q. slice_index_or others.now q 0) numbers.new }
{
    for queue in 0..usize::from(QUEUES) {
        numbers[queue] = greater(numbers[queue], others[queue]);
    }
}

fn greater(a: u64, b: u64) -> u64
    ensures { result ≡ max a b }
{
    if a < b { b } else { a }
}
