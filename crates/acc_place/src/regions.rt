//! The data constructs that the hosts are inside.

ghost use Rattle.std.specs.Prelude.{List, ◌≡◌, ◌<◌, length, remove, slice_get, vec_len, vec_capacity, IfSome, IfOk};
ghost use Rattle.std.specs.Option.{option_and_then};
ghost use Rattle.acc_base.specs.Faults.{OnlyMemory};
ghost use Rattle.acc_place.specs.Plans.{opened_region};
ghost use Rattle.acc_place.specs.Regions.{regions_of, open_region, without_open, regions_after};
ghost use Rattle.acc_place.specs.declared.directive.DataItem.{DataItem};
ghost use Rattle.acc_place.specs.inner.Judging.{counted_steps, device_by, written_by};

use crate::directive::{DataItem, Directive, Kind, Region};
use crate::marked::Marked;
use acc_base::{DeviceId, Fault, Few, HostId};
use std::alloc::Global;

/// How many data constructs a host is inside.
pub(crate) fn depth(regions: &[Region], host: HostId) -> usize
    ensures { result ≡ length (regions_of host regions.now) }
{
    regions.iter().filter(|region| region.host == host).count()
}

/// Where the innermost data construct stands that a host is inside.
pub(crate) fn open_index(regions: &[Region], host: HostId) -> Option<usize>
    ensures found { option_and_then (slice_get regions.now) result ≡ open_region host regions.now }
    ensures without { IfSome result (λ i. remove regions.now i ≡ without_open host regions.now) }
    ensures within { IfSome result (λ i. i < length regions.now) }
{
    regions.iter().position(|region| region.host == host)
}

/// The device where a host's directive acts: the end of a data construct acts where that was entered.
pub(crate) fn device_by(regions: &[Region], host: HostId, directive: &Directive) -> DeviceId
    ensures { result ≡ device_by regions.now host directive.now directive.now.kind }
{
    if !matches!(directive.kind(), Kind::EndData) {
        return directive.device();
    }
    match open_index(regions, host) {
        Some(i) => regions[i].device,
        None => directive.device(),
    }
}

/// The items that are written: the directive's own, or those of the data construct that it ends.
pub(crate) fn written_by<'a>(
    regions: &'a [Region],
    host: HostId,
    directive: &'a Directive,
) -> &'a [DataItem]
    ensures { result.now ≡ written_by regions.now host directive.now directive.now.kind }
{
    if !matches!(directive.kind(), Kind::EndData) {
        return directive.items().as_slice();
    }
    match open_index(regions, host) {
        Some(i) => regions[i].items.as_slice(),
        None => &[],
    }
}

/// The data construct that a host's directive with these steps enters, if it enters one: with the items that it counts.
pub(crate) fn opened_region(
    alloc: Global,
    host: HostId,
    directive: &Directive,
    steps: &[Marked],
) -> Result<Option<Region>, Fault>
    ensures region { IfOk result (λ region.
        region ≡ opened_region host directive.now directive.now.kind (counted_steps steps.now)) }
    ensures fault { OnlyMemory result }
{
    if !matches!(directive.kind(), Kind::Data) {
        return Ok(None);
    }
    let items = counted_steps(alloc, steps)?;
    Ok(Some(Region {
        host,
        device: directive.device(),
        items,
    }))
}

// The items that were counted.
fn counted_steps(alloc: Global, steps: &[Marked]) -> Result<Few<DataItem>, Fault>
    ensures items { IfOk result (λ items. items ≡ counted_steps steps.now) }
    ensures fault { OnlyMemory result }
{
    let mut items = Few::new(alloc);
    for step in steps {
        if step.has_counted() {
            items.push(step.item)?;
        }
    }
    items.shrink_to_fit();
    Ok(items)
}

/// The host enters a data construct, or leaves its innermost one, or neither.
pub(crate) fn enter_or_leave(
    regions: &mut Vec<Region>,
    host: HostId,
    directive: &Directive,
    opened: Option<Region>,
)
    requires room { vec_len regions.old < vec_capacity regions.old }
    ensures regions { (counted : List DataItem)
        → opened ≡ opened_region host directive.now directive.now.kind counted
        → regions.new.items
        ≡ regions_after host directive.now directive.now.kind counted regions.old.items }
    ensures room { vec_capacity regions.new ≡ vec_capacity regions.old }
{
    if let Some(region) = opened {
        let _ = regions.insert(0, region);
        return;
    }
    if matches!(directive.kind(), Kind::EndData) {
        if let Some(i) = open_index(regions.as_slice(), host) {
            let _ = regions.remove(i);
        }
    }
}
