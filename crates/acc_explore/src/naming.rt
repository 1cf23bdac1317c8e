//! Whether a statement may conflict with an operation, or place what does: a directive is about the arrays that it names.

ghost use Rattle.std.specs.Prelude.{◌≡◌};
ghost use Rattle.std.specs.List.{list_any};
ghost use Rattle.acc_explore.specs.ApartOperations.{arrays_in, may_name, meets, touches_array};
ghost use Rattle.acc_host.specs.Hosts.{bare_act};
ghost use Rattle.acc_kernel.specs.Jobs.{is_used};
ghost use Rattle.acc_place.specs.declared.directive.DataItem.{DataItem};

use crate::conflicts::{act_access, host_access, host_conflict};
use acc_base::{BlockId, Range};
use acc_batch::OpLabel;
use acc_host::Act;
use acc_place::{DataItem, Directive, Kind};

// Whether one of these uses is of an array.
fn is_used(uses: &[(BlockId, Range)], array: u8) -> bool
    ensures { result ≡ is_used uses.now array }
{
    uses.iter().any(|(_, cells)| cells.array == array)
}

// Whether an operation touches cells of an array, or those of a block that stands for them.
fn touches_array(op: &OpLabel, array: u8) -> bool
    ensures { result ≡ touches_array op.now array }
{
    match op {
        OpLabel::Make { range, .. } => range.array == array,
        OpLabel::CopyIn { range, .. } => range.array == array,
        OpLabel::CopyOut { range, .. } => range.array == array,
        OpLabel::Run { uses, .. } => is_used(uses.get().as_slice(), array),
        OpLabel::Release { .. } | OpLabel::Await { .. } | OpLabel::Close => false,
    }
}

// Whether one of these items is of an array that it touches.
fn any_item_touched(op: &OpLabel, items: &[DataItem]) -> bool
    ensures { result ≡ list_any (λ (i : DataItem). touches_array op.now i.range.array) items.now }
{
    items.iter().any(|item| touches_array(op, item.range.array))
}

// Whether one of these arrays is.
fn any_array_touched(op: &OpLabel, arrays: &[u8]) -> bool
    ensures { result ≡ list_any (touches_array op.now) arrays.now }
{
    arrays.iter().any(|array| touches_array(op, *array))
}

// Whether a loop refers to one.
fn refers_to_touched(op: &OpLabel, kind: &Kind) -> bool
    ensures { result ≡ list_any (touches_array op.now) (arrays_in kind.now) }
{
    match kind {
        Kind::Loop { kernel } => any_array_touched(op, kernel.get().arrays()),
        _ => false,
    }
}

// Whether a directive may be about an array that an operation touches.
fn may_name(op: &OpLabel, directive: &Directive) -> bool
    ensures { result ≡ may_name op.now directive.now }
{
    matches!(directive.kind(), Kind::EndData)
        || any_item_touched(op, directive.items().as_slice())
        || refers_to_touched(op, directive.kind())
}

/// Whether a statement may conflict with an operation, or place what does.
pub(crate) fn meets(op: &OpLabel, act: &Act) -> bool
    ensures { result ≡ meets op.now (bare_act act.now) }
{
    match act {
        Act::Place { directive } => may_name(op, directive),
        Act::Write { .. } => host_conflict(host_access(op), act_access(act)),
        Act::Print { .. } => host_conflict(host_access(op), act_access(act)),
        Act::SetDevice { .. } | Act::SetAsync { .. } | Act::ShowDevice | Act::ShowDevices => false,
    }
}
