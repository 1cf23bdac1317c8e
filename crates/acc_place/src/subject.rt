//! What a directive acts on: its items, those that leave at its end, and the loop that it runs.

ghost use Rattle.std.specs.Prelude.{All, ◌≡◌, ◌+◌, ◌<◌, ◌≤◌, true, take, vec_capacity, IfOk, IfNone, IfSome};
ghost use Rattle.std.specs.Option.{option_to_list};
ghost use Rattle.acc_base.specs.Faults.{OnlyMemory};
ghost use Rattle.acc_batch.specs.Ops.{HasItsCells};
ghost use Rattle.acc_present.specs.Drafts.{drafted, IsDraft};
ghost use Rattle.acc_present.specs.Presences.{is_present};
ghost use Rattle.acc_place.specs.declared.directive.TheConstants.{MAX_ITEMS};
ghost use Rattle.acc_base.specs.Configurations.{lengths_of};
ghost use Rattle.acc_place.specs.Standings.{loop_in, subject_by};
ghost use Rattle.acc_place.specs.inner.Judging.{ends_of, past_fault, run_in, AllHeldFor, StaysBy};

use crate::directive::{DataItem, Directive, Kind, Region};
use crate::loops::{add_items, fill_items, is_past, uses_in};
use crate::regions::written_by;
use acc_base::{Config, Fault, HostId, Listed, Shared};
use acc_batch::OpLabel;
use acc_present::{Draft, Table};
use std::alloc::Global;

/// Puts in the items that a host's directive acts on: the written ones, and a loop's implicit ones behind them. It stops
/// behind one more than a directive may have, and takes no memory.
pub(crate) fn put_items(
    config: &Config,
    regions: &[Region],
    host: HostId,
    directive: &Directive,
    into: &mut Vec<DataItem>,
)
    requires { MAX_ITEMS + 1 ≤ vec_capacity into.old }
    ensures items { into.new.items
        ≡ take (MAX_ITEMS + 1)
        (subject_by
        (lengths_of config.now.arrays) regions.now host directive.now directive.now.kind).items }
    ensures room { vec_capacity into.new ≡ vec_capacity into.old }
{
    if let Kind::Loop { kernel } = directive.kind() {
        fill_items(config, regions, host, directive, kernel.get(), into);
        return;
    }
    into.clear();
    add_items(written_by(regions, host, directive), into);
}

/// The items that leave once more at the directive's end: all of a loop's.
pub(crate) fn ends_of<'a>(kind: &Kind, items: &'a [DataItem]) -> &'a [DataItem]
    ensures { result.now ≡ ends_of kind.now items.now }
{
    if matches!(kind, Kind::Loop { .. }) {
        items
    } else {
        &[]
    }
}

/// The fault of a loop that reaches a cell outside the ranges of its items.
pub(crate) fn past_fault(kind: &Kind, items: &[DataItem]) -> Option<Fault>
    ensures fault { result ≡ past_fault (loop_in kind.now) items.now }
    ensures stays { IfNone result (StaysBy kind.now items.now) }
{
    match kind {
        Kind::Loop { kernel } => {
            if is_past(kernel.get(), items) {
                Some(Fault::OutsideRange)
            } else {
                None
            }
        }
        Kind::Data | Kind::EndData | Kind::EnterData => None,
        Kind::ExitData { .. } | Kind::Update { .. } => None,
        Kind::Wait | Kind::AsyncTest | Kind::IsPresent => None,
    }
}

/// The operation that runs a directive's loop, if it is one, where its items are there.
///
/// # Errors
///
/// `Memory` where memory is refused.
pub(crate) fn run_in(
    alloc: Global,
    table: &Table,
    draft: &Draft,
    kind: &Kind,
    items: &[DataItem],
) -> Result<Option<OpLabel>, Fault>
    requires draft { IsDraft table.now draft.now }
    requires cells { All (λ i. 0 < i.range.len) items.now }
    requires stays { StaysBy kind.now items.now }
    requires held { AllHeldFor kind.now (drafted table.now draft.now) items.now }
    ensures run { IfOk result (λ run.
        option_to_list run ≡ run_in (loop_in kind.now) items.now (drafted table.now draft.now)) }
    ensures cells { IfOk result (λ run. IfSome run HasItsCells) }
    ensures fault { OnlyMemory result }
{
    match kind {
        Kind::Loop { kernel } => {
            let listed = uses_in(alloc, table, draft, kernel.get(), items)?;
            let uses = Shared::new(alloc, Listed::from_vec(listed))?;
            let kernel = kernel.try_clone()?;
            Ok(Some(OpLabel::Run { kernel, uses }))
        }
        Kind::Data | Kind::EndData | Kind::EnterData => Ok(None),
        Kind::ExitData { .. } | Kind::Update { .. } => Ok(None),
        Kind::Wait | Kind::AsyncTest | Kind::IsPresent => Ok(None),
    }
}
