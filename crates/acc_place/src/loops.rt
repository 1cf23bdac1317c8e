//! The items of a loop, written and implicit; the cells that it reaches, and the blocks that it uses.

ghost use Rattle.std.specs.Prelude.{◌≡◌, ◌+◌, ◌<◌, ◌≤◌, false, [], ◌∷◌, ◌++◌, take, Some, IfOk, vec_len, vec_capacity};
ghost use Rattle.std.specs.List.{All};
ghost use Rattle.std.specs.Option.{option_map, option_to_list};
ghost use Rattle.acc_base.specs.Faults.{OnlyMemory};
ghost use Rattle.acc_kernel.specs.Kernels.{reach_of};
ghost use Rattle.acc_present.specs.Drafts.{drafted, IsDraft};
ghost use Rattle.acc_place.specs.Accepting.{is_past, reaches_past};
ghost use Rattle.acc_place.specs.declared.directive.TheConstants.{MAX_ITEMS};
ghost use Rattle.acc_place.specs.Implicit.{item_of, items_around, whole_array, implicit_item, implicit_items, implicit_among};
ghost use Rattle.acc_place.specs.Loops.{item_inside, StaysInside, StaysInsideOf, use_in, uses_in};
ghost use Rattle.acc_base.specs.Configurations.{lengths_of};

use crate::directive::{Clause, DataItem, Directive, MAX_ITEMS, Region};
use acc_base::{BlockId, Config, DeviceId, Fault, HostId, Range};
use acc_kernel::{Kernel, Reach};
use acc_present::{Draft, Found, Table};
use std::alloc::Global;

/// The first item of an array.
pub(crate) fn item_of(items: &[DataItem], array: u8) -> Option<&DataItem>
    ensures { option_map (λ i. i.now) result ≡ item_of array items.now }
{
    items.iter().find(|item| item.range.array == array)
}

/// Puts in a loop's own items, and then the implicit one of each other array that it refers to, by the first reference
/// in the text (OpenACC API 3.0, 2.6.2, Variables with Implicitly Determined Data Attributes). It stops behind one more
/// than a directive may have, and takes no memory.
pub(crate) fn fill_items(
    config: &Config,
    regions: &[Region],
    host: HostId,
    directive: &Directive,
    kernel: &Kernel,
    into: &mut Vec<DataItem>,
)
    requires { MAX_ITEMS + 1 ≤ vec_capacity into.old }
    ensures items { into.new.items
        ≡ take (MAX_ITEMS + 1)
        (directive.now.items
        ++ implicit_items
        (lengths_of config.now.arrays) regions.now host directive.now kernel.now) }
    ensures room { vec_capacity into.new ≡ vec_capacity into.old }
{
    into.clear();
    add_items(directive.items().as_slice(), into);
    add_all_implicit(config, regions, host, directive, kernel.arrays(), into);
}

/// Whether a loop reaches a cell of an array outside the range of the array's first item, or of an array without one.
pub(crate) fn is_past(kernel: &Kernel, items: &[DataItem]) -> bool
    ensures past { result ≡ is_past (Some kernel.now) items.now }
    ensures held { result ≡ false → StaysInside kernel.now items.now }
{
    let arrays = kernel.arrays();
    for array in arrays {
        if reaches_past(kernel, items, *array) {
            return true;
        }
    }
    false
}

/// What a loop uses, where its items are present: of each array the range of its first item, and the block that holds
/// this.
///
/// # Errors
///
/// `Memory` where memory is refused.
pub(crate) fn uses_in(
    alloc: Global,
    table: &Table,
    draft: &Draft,
    kernel: &Kernel,
    items: &[DataItem],
) -> Result<Vec<(BlockId, Range)>, Fault>
    requires draft { IsDraft table.now draft.now }
    requires cells { All (λ i. 0 < i.range.len) items.now }
    ensures uses { IfOk result (λ u.
        u.items ≡ uses_in kernel.now items.now (drafted table.now draft.now)) }
    ensures fault { OnlyMemory result }
{
    let arrays = kernel.arrays();
    let mut uses = Vec::with_capacity(alloc, arrays.len())?;
    for array in arrays {
        if let Some(one) = use_in(table, draft, items, *array) {
            uses.push_reserved(one);
        }
    }
    Ok(uses)
}

// The first item of an array in the data constructs on a device that a host is inside, from the innermost on.
fn item_around(regions: &[Region], host: HostId, device: DeviceId, array: u8) -> Option<DataItem>
    ensures { result ≡ item_of array (items_around host device regions.now) }
{
    for region in regions {
        if let Some(item) = item_inside(region, host, device, array) {
            return Some(item);
        }
    }
    None
}

// The first item of an array in a data construct, if this is on the device and the host is inside it.
fn item_inside(region: &Region, host: HostId, device: DeviceId, array: u8) -> Option<DataItem>
    ensures { result ≡ item_inside array host device region.now }
{
    if region.host == host && region.device == device {
        item_of(region.items.as_slice(), array).copied()
    } else {
        None
    }
}

// All cells of an array; none where it isn't there.
fn whole_array(config: &Config, array: u8) -> Range
    ensures { result ≡ whole_array (lengths_of config.now.arrays) array }
{
    config.keeps();
    let len = if config.has_array(array) {
        config.array(array).len() as u32
    } else {
        0
    };
    Range { array, lo: 0, len }
}

// The implicit item of an array.
fn implicit_item(
    config: &Config,
    regions: &[Region],
    host: HostId,
    device: DeviceId,
    array: u8,
) -> DataItem
    ensures { result ≡ implicit_item (lengths_of config.now.arrays) array
        (item_of array (items_around host device regions.now)) }
{
    match item_around(regions, host, device, array) {
        Some(item) => DataItem {
            clause: Clause::Present,
            range: item.range,
        },
        None => DataItem {
            clause: Clause::Copy,
            range: whole_array(config, array),
        },
    }
}

// Adds an item, where there is room for one more.
fn add_item(item: DataItem, into: &mut Vec<DataItem>)
    requires within { vec_len into.old ≤ MAX_ITEMS + 1 }
    requires room { MAX_ITEMS + 1 ≤ vec_capacity into.old }
    ensures items { into.new.items ≡ take (MAX_ITEMS + 1) (into.old.items ++ item ∷ []) }
    ensures room { vec_capacity into.new ≡ vec_capacity into.old }
{
    if into.len() <= MAX_ITEMS {
        into.push_reserved(item);
    }
}

/// Adds the items, as far as there is room.
pub(crate) fn add_items(items: &[DataItem], into: &mut Vec<DataItem>)
    requires within { vec_len into.old ≤ MAX_ITEMS + 1 }
    requires room { MAX_ITEMS + 1 ≤ vec_capacity into.old }
    ensures items { into.new.items ≡ take (MAX_ITEMS + 1) (into.old.items ++ items.now) }
    ensures room { vec_capacity into.new ≡ vec_capacity into.old }
{
    for item in items {
        add_item(*item, into);
    }
}

// Adds the implicit item of an array, where no clause names this and there is room for one more.
fn add_implicit(
    config: &Config,
    regions: &[Region],
    host: HostId,
    directive: &Directive,
    array: u8,
    into: &mut Vec<DataItem>,
)
    requires within { vec_len into.old ≤ MAX_ITEMS + 1 }
    requires room { MAX_ITEMS + 1 ≤ vec_capacity into.old }
    ensures items { into.new.items
        ≡ take (MAX_ITEMS + 1)
        (into.old.items
        ++ implicit_among (lengths_of config.now.arrays) regions.now host directive.now
        (array ∷ [])) }
    ensures room { vec_capacity into.new ≡ vec_capacity into.old }
{
    if item_of(directive.items().as_slice(), array).is_none() {
        let item = implicit_item(config, regions, host, directive.device(), array);
        add_item(item, into);
    }
}

// Adds the implicit items of those arrays that no clause names, as far as there is room.
fn add_all_implicit(
    config: &Config,
    regions: &[Region],
    host: HostId,
    directive: &Directive,
    arrays: &[u8],
    into: &mut Vec<DataItem>,
)
    requires within { vec_len into.old ≤ MAX_ITEMS + 1 }
    requires room { MAX_ITEMS + 1 ≤ vec_capacity into.old }
    ensures items { into.new.items
        ≡ take (MAX_ITEMS + 1)
        (into.old.items
        ++ implicit_among
        (lengths_of config.now.arrays) regions.now host directive.now arrays.now) }
    ensures room { vec_capacity into.new ≡ vec_capacity into.old }
{
    for array in arrays {
        add_implicit(config, regions, host, directive, *array, into);
    }
}

// Whether a loop reaches a cell of this array outside the range of its first item.
fn reaches_past(kernel: &Kernel, items: &[DataItem], array: u8) -> bool
    ensures past { result ≡ reaches_past (reach_of kernel.now array) (item_of array items.now) }
    ensures held { result ≡ false → StaysInsideOf kernel.now items.now array }
{
    match kernel.reach(array) {
        None => false,
        Some(reach) => match item_of(items, array) {
            None => true,
            Some(item) => reaches_past_item(reach, item),
        },
    }
}

// Whether a reach begins before an item's range, or ends behind it.
fn reaches_past_item(reach: Reach, item: &DataItem) -> bool
    ensures { result ≡ reaches_past (Some reach) (Some item.now) }
{
    let lo = i64::from(item.range.lo);
    let end = lo + i64::from(item.range.len);
    reach.first < lo || end <= reach.last
}

// The range of an array's first item, where this is present, and the block that holds it.
fn use_in(table: &Table, draft: &Draft, items: &[DataItem], array: u8) -> Option<(BlockId, Range)>
    requires draft { IsDraft table.now draft.now }
    requires cells { All (λ i. 0 < i.range.len) items.now }
    ensures { option_to_list result
        ≡ use_in (drafted table.now draft.now) (item_of array items.now) }
{
    let item = item_of(items, array)?;
    match draft.look(table, item.range) {
        Found::Present(held) => Some((held.block, item.range)),
        Found::Absent | Found::Partly => None,
    }
}
