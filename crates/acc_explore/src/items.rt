//! Whether hosts have the same items in two work logs.

ghost use Rattle.std.specs.Prelude.{All, ℕ, ◌≡◌, ◌↔◌, ◌<◌, IsTrue, reverse};
ghost use Rattle.acc_explore.specs.inner.Comparing.{IsShownBelow};
ghost use Rattle.acc_host.specs.Entries.{items_shown};
ghost use Rattle.acc_work.specs.Logs.{all_items};

use acc_base::HostId;
use acc_batch::Values;
use acc_host::OwnItems;
use acc_work::{Told, WorkEntry, WorkLog};

// Whether two prints show the same values.
fn are_same_values(values: &Values, others: &Values) -> bool
    ensures { IsTrue result → values.now ≡ others.now }
{
    let mut left = others.iter();
    for value in values.iter() {
        match left.next() {
            None => return false,
            Some(other) => {
                if value != other {
                    return false;
                }
            }
        }
    }
    left.next().is_none()
}

// Whether two items are of one look at queues, and are equal.
fn is_same_look(item: &Told, other: &Told) -> bool
    ensures { IsTrue result → item.now ≡ other.now }
{
    match (item, other) {
        (
            Told::Seen { device, counts },
            Told::Seen {
                device: other_device,
                counts: other_counts,
            },
        ) => device == other_device && counts.numbers() == other_counts.numbers(),
        (
            Told::Test {
                device,
                answer,
                counts,
            },
            Told::Test {
                device: other_device,
                answer: other_answer,
                counts: other_counts,
            },
        ) => {
            device == other_device
                && answer == other_answer
                && counts.numbers() == other_counts.numbers()
        }
        _ => false,
    }
}

// Whether two items are equal.
fn is_same_item(item: &Told, other: &Told) -> bool
    ensures { IsTrue result → item.now ≡ other.now }
{
    match (item, other) {
        (
            Told::Write { array, cell, value },
            Told::Write {
                array: other_array,
                cell: other_cell,
                value: other_value,
            },
        ) => array == other_array && cell == other_cell && value == other_value,
        (
            Told::Print { range, values },
            Told::Print {
                range: other_range,
                values: other_values,
            },
        ) => range == other_range && are_same_values(values.get(), other_values.get()),
        _ => is_same_look(item, other),
    }
}

// Whether a host has the same items in both logs.
fn has_same_items(host: HostId, old: &WorkLog, new: &WorkLog) -> bool
    ensures { IsTrue result
        → items_shown host (reverse old.now.items) ≡ items_shown host (reverse new.now.items) }
{
    let mut items = OwnItems::new(old, host);
    let mut others = OwnItems::new(new, host);
    while let Some(item) = items.next() {
        match others.next() {
            None => return false,
            Some(other) => {
                if !is_same_item(item, other) {
                    return false;
                }
            }
        }
    }
    others.next().is_none()
}

// Whether an entry of a work log is no item of another host than the first ones.
fn is_shown_below(entry: &WorkEntry, hosts: u8) -> bool
    ensures { IsTrue result ↔ IsShownBelow hosts entry.now }
{
    match entry {
        WorkEntry::Item { host, .. } => host.number() < hosts,
        WorkEntry::Op { .. } => true,
    }
}

// Whether all items are those of the first hosts.
fn are_shown_below(works: &WorkLog, hosts: u8) -> bool
    ensures { IsTrue result ↔ All (IsShownBelow hosts) works.now.items }
{
    works.iter().all(|entry| is_shown_below(entry, hosts))
}

/// Whether each host has the same items in both logs, which have items of the first hosts alone.
pub(crate) fn have_same_items(hosts: u8, old: &WorkLog, new: &WorkLog) -> bool
    ensures shown { IsTrue result → (host : ℕ)
        → items_shown host (reverse old.now.items) ≡ items_shown host (reverse new.now.items) }
    ensures all { IsTrue result
        → all_items (reverse old.now.items) ≡ all_items (reverse new.now.items) }
{
    if !are_shown_below(old, hosts) || !are_shown_below(new, hosts) {
        return false;
    }
    for host in 0..hosts {
        if !has_same_items(HostId::new(host), old, new) {
            return false;
        }
    }
    true
}
