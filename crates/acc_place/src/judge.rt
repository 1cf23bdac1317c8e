//! What is known where a directive is tried; its items are judged one by one.

ghost use Rattle.std.specs.Prelude.{All, ◌≡◌, ◌+◌, ◌<◌, ◌≤◌, ◌++◌, not, length, Some, None, IfNone, IfOk, IfErr, OnOk, vec_len, vec_capacity, is_some};
ghost use Rattle.acc_present.specs.Drafts.{drafted, IsDraft};
ghost use Rattle.acc_present.specs.Presences.{is_present};
ghost use Rattle.acc_present.specs.declared.entry.TheConstants.{COUNTER_LIMIT};
ghost use Rattle.acc_present.specs.Tables.{IsFound, entry_mark, presences_after};
ghost use Rattle.acc_place.specs.Accepting.{is_too_deep, ends_no_region, wants_presence};
ghost use Rattle.acc_place.specs.Regions.{open_region};
ghost use Rattle.acc_place.specs.declared.directive.Kind.TheVariants.{EndData};
ghost use Rattle.acc_place.specs.inner.Judging.{change_in, is_found, holding, holding_after_all, presences_by, can_open_by, fault_in, found_fault, limit_fault, first_fault_in, block_found, block_opened, block_ended, marked_in, all_marked, opened_after, AllLow, HasEntered, AllEntered, CanEnter, CanMark};

use crate::directive::{
    Clause, DataItem, Directive, Kind, MAX_DIRECTIVES, MAX_ITEMS, MAX_REGIONS, Region,
};
use crate::labels::Labels;
use crate::marked::Marked;
use crate::regions::{depth, open_index};
use crate::targets::{has_bad_queue, waits_on_too_many};
use acc_base::{BlockId, Config, Fault, HostId, QueueAt, Range};
use acc_present::{Change, Counter, Draft, Entered, Found, Left, Table};

/// What is known where a directive is judged: the configuration, the device's table, the data constructs that the hosts
/// are inside, how many directives were accepted and how many lifetimes opened, the labels of all batches, and the
/// directive's queue.
#[derive(Clone, Copy)]
pub struct Known<'a> {
    pub config: &'a Config,
    pub table: &'a Table,
    pub regions: &'a [Region],
    pub accepted: usize,
    pub opened: u64,
    pub labels: &'a Labels,
    pub at: QueueAt,
}

/// The first fault of a host's directive on so many items, on a device that is there, that does not depend on their
/// ranges.
#[tactic(auto, unfolding(crate::specs::inner::Judging::limit_fault))]
pub(crate) fn limit_fault(
    known: &Known,
    host: HostId,
    directive: &Directive,
    count: usize,
) -> Option<Fault>
    ensures { result
        ≡ limit_fault known.now.accepted known.now.regions.now host directive.now count }
{
    if has_bad_queue(directive) {
        return Some(Fault::BadAsync);
    }
    if count > MAX_ITEMS || waits_on_too_many(directive.waits()) {
        return Some(Fault::TooMany);
    }
    if is_deep(known.regions, host, directive.kind()) {
        return Some(Fault::TooMany);
    }
    if known.accepted as u64 >= MAX_DIRECTIVES {
        return Some(Fault::TooMany);
    }
    if is_outside(known.regions, host, directive.kind()) {
        return Some(Fault::NoRegion);
    }
    None
}

// Whether a host that enters a data construct is inside as many as it can be.
fn is_deep(regions: &[Region], host: HostId, kind: &Kind) -> bool
    ensures { result ≡ is_too_deep kind.now host regions.now }
{
    matches!(kind, Kind::Data) && depth(regions, host) >= MAX_REGIONS
}

// Whether a host leaves a data construct, and is inside none.
fn is_outside(regions: &[Region], host: HostId, kind: &Kind) -> bool
    ensures { result ≡ ends_no_region kind.now (open_region host regions.now) }
{
    matches!(kind, Kind::EndData) && open_index(regions, host).is_none()
}

/// The first fault of the items, each judged with the marks of those before it; where there is none, the steps are what
/// would become of them. The table isn't changed: the marks stand in the draft.
pub(crate) fn judge_all(
    known: &Known,
    draft: &mut Draft,
    kind: &Kind,
    items: &[DataItem],
    opened: u64,
    steps: &mut Vec<Marked>,
) -> Option<Fault>
    requires capacity { known.now.table.now.capacity ≡ known.now.config.now.capacity }
    requires draft { IsDraft known.now.table.now draft.old }
    requires draft_room { length draft.old.changed + length items.now ≤ draft.old.room }
    requires low { AllLow COUNTER_LIMIT (length items.now) (drafted known.now.table.now draft.old) }
    requires few { opened + length items.now ≤ COUNTER_LIMIT }
    requires entered { AllEntered kind.now
        (holding (drafted known.now.table.now draft.old) opened) items.now }
    requires step_room { vec_len steps.old + length items.now ≤ vec_capacity steps.old }
    ensures draft_room { draft.new.room ≡ draft.old.room }
    ensures fault { result ≡ first_fault_in known.now.config.now kind.now
        (holding (drafted known.now.table.now draft.old) opened) items.now }
    ensures draft { IfNone result (IsDraft known.now.table.now draft.new) }
    ensures drafted { IfNone result
        (drafted known.now.table.now draft.new
        ≡
        (holding_after_all kind.now
        (holding (drafted known.now.table.now draft.old) opened) items.now).presences) }
    ensures changed { IfNone result
        (length draft.new.changed ≤ length draft.old.changed + length items.now) }
    ensures steps { IfNone result
        (steps.new.items
        ≡ steps.old.items
        ++ all_marked kind.now (holding (drafted known.now.table.now draft.old) opened) items.now) }
    ensures step_room { vec_capacity steps.new ≡ vec_capacity steps.old }
{
    match items {
        [] => None,
        [first, rest @ ..] => match visit(known, draft, kind, first, opened) {
            Err(fault) => Some(fault),
            Ok(marked) => {
                steps.push_reserved(marked);
                let next = opened_after(opened, marked);
                judge_all(known, draft, kind, rest, next, steps)
            }
        },
    }
}

// Judges an item, where the draft has the marks of those before it, and leaves its mark.
fn visit(
    known: &Known,
    draft: &mut Draft,
    kind: &Kind,
    item: &DataItem,
    opened: u64,
) -> Result<Marked, Fault>
    requires capacity { known.now.table.now.capacity ≡ known.now.config.now.capacity }
    requires draft { IsDraft known.now.table.now draft.old }
    requires draft_room { length draft.old.changed < draft.old.room }
    requires low { AllLow COUNTER_LIMIT 1 (drafted known.now.table.now draft.old) }
    requires few { opened < COUNTER_LIMIT }
    requires entered { HasEntered
        (change_in kind.now (drafted known.now.table.now draft.old) item.now) item.now.range
        (drafted known.now.table.now draft.old) }
    ensures refused { IfErr result (λ fault.
        fault_in known.now.config.now kind.now (drafted known.now.table.now draft.old) item.now
        ≡ Some fault) }
    ensures fine { OnOk result (fault_in known.now.config.now kind.now
        (drafted known.now.table.now draft.old) item.now ≡ None) }
    ensures marked { IfOk result (λ m.
        m ≡ marked_in (change_in kind.now (drafted known.now.table.now draft.old) item.now)
        (holding (drafted known.now.table.now draft.old) opened) item.now) }
    ensures draft { OnOk result (IsDraft known.now.table.now draft.new) }
    ensures drafted { OnOk result (drafted known.now.table.now draft.new
        ≡ presences_by
        (change_in kind.now (drafted known.now.table.now draft.old) item.now) item.now.range
        (opened + 1) (drafted known.now.table.now draft.old)) }
    ensures changed { OnOk result (length draft.new.changed ≤ length draft.old.changed + 1) }
    ensures draft_room { draft.new.room ≡ draft.old.room }
{
    if !known.config.has_range(item.range) {
        return Err(Fault::BadRange);
    }
    let found = draft.look(known.table, item.range);
    let free = known.config.capacity() - draft.used_cells();
    match found_fault(kind, item, &found, free) {
        Some(fault) => Err(fault),
        None => {
            let change = kind.change_where(item, is_found(&found));
            Ok(mark(known.table, draft, change, item, &found, opened))
        }
    }
}

/// Leaves the marks of items that leave in the draft, and puts their steps behind those that are there. They aren't
/// judged, and open no lifetime.
pub(crate) fn leave_all(
    table: &Table,
    draft: &mut Draft,
    items: &[DataItem],
    steps: &mut Vec<Marked>,
)
    requires draft { IsDraft table.now draft.old }
    requires draft_room { length draft.old.changed + length items.now ≤ draft.old.room }
    requires cells { All (λ i. 0 < i.range.len) items.now }
    requires entered { AllEntered EndData (holding (drafted table.now draft.old) 0) items.now }
    requires step_room { vec_len steps.old + length items.now ≤ vec_capacity steps.old }
    ensures draft_room { draft.new.room ≡ draft.old.room }
    ensures steps { steps.new.items
        ≡ steps.old.items
        ++ all_marked EndData (holding (drafted table.now draft.old) 0) items.now }
    ensures step_room { vec_capacity steps.new ≡ vec_capacity steps.old }
{
    match items {
        [] => {}
        [first, rest @ ..] => {
            let found = draft.look(table, first.range);
            let change = Some(Change::StructuredDown);
            steps.push_reserved(mark(table, draft, change, first, &found, 0));
            leave_all(table, draft, rest, steps);
        }
    }
}

// The fault of an item that was found so, where so many cells are free.
fn found_fault(kind: &Kind, item: &DataItem, found: &Found, free: u64) -> Option<Fault>
    ensures { result ≡ found_fault kind.now item.now found.now free }
{
    match found {
        Found::Present(_) => None,
        Found::Partly => {
            if matches!(kind, Kind::IsPresent) {
                None
            } else {
                Some(Fault::PartlyPresent)
            }
        }
        Found::Absent => {
            if wants_presence(kind, item.clause) {
                Some(Fault::NotPresent)
            } else if can_open_by(kind.change_where(item, false))
                && free < u64::from(item.range.len)
            {
                Some(Fault::DeviceFull)
            } else {
                None
            }
        }
    }
}

// Whether an item is only about what is present.
fn wants_presence(kind: &Kind, clause: Clause) -> bool
    ensures { result ≡ wants_presence kind.now clause }
{
    match kind {
        Kind::Data | Kind::Loop { .. } => clause == Clause::Present,
        Kind::Update { if_present } => !*if_present,
        Kind::EndData | Kind::EnterData | Kind::ExitData { .. } => false,
        Kind::Wait | Kind::AsyncTest | Kind::IsPresent => false,
    }
}

// Whether an item that is absent enters.
fn can_open_by(change: Option<Change>) -> bool
    ensures { result ≡ can_open_by change }
{
    match change {
        Some(Change::StructuredUp | Change::DynamicUp) => true,
        Some(Change::StructuredDown | Change::DynamicDown | Change::DynamicZero) | None => false,
    }
}

// Whether a range that was found so is present.
fn is_found(found: &Found) -> bool
    ensures { result ≡ is_found found.now }
{
    matches!(found, Found::Present(_))
}

// The block that holds a range that was found so.
fn block_found(found: &Found) -> Option<u64>
    ensures { result ≡ block_found found.now }
{
    match found {
        Found::Present(held) => Some(held.block.number()),
        Found::Absent | Found::Partly => None,
    }
}

// Leaves the mark of an item, whose range was found so, in the draft. Inlined, so that what became of the item is put
// together where it is kept.
#[inline(always)]
#[tactic(auto, using(crate::proofs::FaultIn::block_is), unfolding(crate::specs::inner::Judging::marked_in))]
fn mark(
    table: &Table,
    draft: &mut Draft,
    change: Option<Change>,
    item: &DataItem,
    found: &Found,
    opened: u64,
) -> Marked
    requires draft { IsDraft table.now draft.old }
    requires draft_room { length draft.old.changed < draft.old.room }
    requires can { CanMark change item.now.range (drafted table.now draft.old) table.now.capacity }
    requires few { opened < COUNTER_LIMIT }
    requires found { IsFound (drafted table.now draft.old) item.now.range found.now }
    ensures draft { IsDraft table.now draft.new }
    ensures drafted { drafted table.now draft.new
        ≡ presences_by change item.now.range (opened + 1) (drafted table.now draft.old) }
    ensures changed { length draft.new.changed ≤ length draft.old.changed + 1 }
    ensures draft_room { draft.new.room ≡ draft.old.room }
    ensures result { result
        ≡ marked_in change (holding (drafted table.now draft.old) opened) item.now }
{
    let range = item.range;
    let (entered, ended) = match change {
        Some(Change::StructuredUp) => (
            enter(table, draft, range, found, Counter::Structured, opened),
            None,
        ),
        Some(Change::StructuredDown) => (
            None,
            block_ended(draft.leave(table, range, found, Counter::Structured)),
        ),
        Some(Change::DynamicUp) => (
            enter(table, draft, range, found, Counter::Dynamic, opened),
            None,
        ),
        Some(Change::DynamicDown) => {
            (
                None,
                block_ended(draft.leave(table, range, found, Counter::Dynamic)),
            )
        }
        Some(Change::DynamicZero) => (None, block_ended(draft.finalize(table, range, found))),
        None => (None, None),
    };
    Marked {
        item: *item,
        held: block_found(found),
        opened: entered,
        ended,
    }
}

// Enters a range, which was found so, in the draft, and gives the block of the lifetime that this opened.
fn enter(
    table: &Table,
    draft: &mut Draft,
    range: Range,
    found: &Found,
    counter: Counter,
    opened: u64,
) -> Option<u64>
    requires draft { IsDraft table.now draft.old }
    requires draft_room { length draft.old.changed < draft.old.room }
    requires can { CanEnter counter range (drafted table.now draft.old) table.now.capacity }
    requires found { IsFound (drafted table.now draft.old) range found.now }
    requires few { opened < COUNTER_LIMIT }
    ensures draft { IsDraft table.now draft.new }
    ensures drafted { drafted table.now draft.new
        ≡ presences_after (entry_mark counter range) (opened + 1) (drafted table.now draft.old) }
    ensures changed { length draft.new.changed ≤ length draft.old.changed + 1 }
    ensures draft_room { draft.new.room ≡ draft.old.room }
    ensures result { result
        ≡ block_opened (not (is_present (drafted table.now draft.old) range)) opened }
{
    let block = opened + 1;
    match draft.enter(table, range, found, counter, BlockId::new(block)) {
        Entered::Counted => None,
        Entered::Opened => Some(block),
    }
}

// The block of the lifetime that an exit ended.
fn block_ended(left: Left) -> Option<u64>
    ensures { result ≡ block_ended left }
{
    match left {
        Left::Ended(block) => Some(block.number()),
        Left::Counted | Left::Nothing => None,
    }
}

// How many lifetimes have been opened once the item is marked.
fn opened_after(opened: u64, marked: Marked) -> u64
    requires { opened < COUNTER_LIMIT }
    ensures { result ≡ opened_after (is_some marked.opened) opened }
{
    if marked.opened.is_some() {
        opened + 1
    } else {
        opened
    }
}
