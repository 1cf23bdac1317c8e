//! How states are found, one behind another.

ghost use Rattle.std.specs.Prelude.{◌≤◌, ◌≡◌, IfOk, length, reverse};
ghost use Rattle.acc_base.specs.Faults.{OnlyMemory};
ghost use Rattle.acc_explore.specs.Arrivals.{events_to};

use acc_base::Fault;
use acc_host::Event;
use std::alloc::Global;

/// How a state was found: behind which one, by its number among those that were found before it, the start being 0, and by which event.
#[derive(Clone, Copy)]
pub struct Arrival {
    pub from: u32,
    pub by: Event,
}

/// The events that lead to the state with this number.
///
/// # Errors
///
/// `Memory` where memory is refused.
pub fn path(alloc: Global, arrivals: &[Arrival], number: u32) -> Result<Vec<Event>, Fault>
    requires { number ≤ length arrivals.now }
    ensures events { IfOk result (λ events.
        events.items ≡ events_to (reverse arrivals.now) number) }
    ensures fault { OnlyMemory result }
{
    let mut events = Vec::new(alloc);
    let mut left = number as usize;
    while left > 0 {
        let arrival = arrivals[left - 1];
        events.push(arrival.by)?;
        let from = arrival.from as usize;
        left = if from < left { from } else { 0 };
    }
    events.reverse();
    Ok(events)
}

/// How many events lead to the state with this number.
pub(crate) fn depth(arrivals: &[Arrival], number: u32) -> usize
    requires { number ≤ length arrivals.now }
    ensures { result ≡ length (events_to (reverse arrivals.now) number) }
{
    let mut depth = 0usize;
    let mut left = number as usize;
    while left > 0 {
        let arrival = arrivals[left - 1];
        depth += 1;
        let from = arrival.from as usize;
        left = if from < left { from } else { 0 };
    }
    depth
}
