//! Prefixes of schedules that others explore on from, one for each state at which a search was cut.

ghost use Rattle.std.specs.Prelude.{◌≡◌, ◌≤◌, ◌+◌, ◌^◌, All, IfOk, OnOk, OnErr, length, map, reverse};
ghost use Rattle.acc_base.specs.Faults.{OnlyMemory};
ghost use Rattle.acc_core.specs.Worlds.{OnePerHost};
ghost use Rattle.acc_explore.specs.Arrivals.{events_to};
ghost use Rattle.acc_explore.specs.Origins.{setting_from};
ghost use Rattle.acc_explore.specs.Prefixes.{TellsPrefixes, TellsSomePrefixes, depth_text, prefix_line, prefix_text, prefix_word, prefixes_text};
ghost use Rattle.acc_explore.specs.inner.Leaves.{HaveLeaves, TellsFirstPrefixes};
ghost use Rattle.acc_report.specs.Puts.{Puts, sink};

use crate::arrival::{Arrival, path};
use crate::reports::{Origin, put_going_on, search};
use crate::search::{Exploration, Watcher};
use acc_base::Fault;
use acc_core::runs_are_legal;
use acc_host::Event;
use acc_report::{put, put_number};
use std::alloc::Global;
use std::io::Write;

/// How many prefixes there are, and how many states they were found by.
#[derive(Clone, Copy, Debug, PartialEq, Eq)]
pub struct PrefixCount {
    pub prefixes: usize,
    pub states: usize,
    /// Whether each is as long as was asked for, unless nothing comes behind it. If not, there was no room for that.
    pub whole: bool,
}

// Behind the numbers of ends puts those of the leaves, which are all from the first on.
fn push_leaves(numbers: &mut Vec<u32>, first: usize, states: usize) -> Result<(), Fault>
    requires there { first ≤ states }
    requires few { states ≤ 2 ^ 32 }
    ensures pushed { OnOk result (HaveLeaves first states numbers.old.items numbers.new.items) }
    ensures fault { OnlyMemory result }
{
    for number in first..states {
        numbers.push(number as u32)?;
    }
    Ok(())
}

// Puts a prefix with its number.
fn put_prefix<W: Write>(
    out: &mut W,
    failed: &mut bool,
    schedule: &[u8],
    number: usize,
    events: &[Event],
)
    ensures { Puts (sink (W.contents out.old) failed.old) (sink (W.contents out.new) failed.new)
        (prefix_text schedule.now number events.now) }
{
    put(out, failed, b"# prefix ");
    put_number(out, failed, number);
    put(out, failed, b"\n");
    put_going_on(out, failed, schedule, events);
}

// Tells the events to the states with these numbers, each as a prefix.
fn tell_each<W: Write>(
    alloc: Global,
    out: &mut W,
    failed: &mut bool,
    schedule: &[u8],
    arrivals: &[Arrival],
    numbers: &[u32],
) -> Result<(), Fault>
    requires { All (λ n. n ≤ length arrivals.now) numbers.now }
    ensures told { OnOk result (Puts (sink (W.contents out.old) failed.old)
        (sink (W.contents out.new) failed.new)
        (prefixes_text schedule.now 1 (map (events_to (reverse arrivals.now)) numbers.now))) }
    ensures begun { OnErr result
        (TellsFirstPrefixes schedule.now (reverse arrivals.now) numbers.now
        (sink (W.contents out.old) failed.old) (sink (W.contents out.new) failed.new)) }
    ensures fault { OnlyMemory result }
{
    let mut count = 0usize;
    for number in numbers {
        let events = match path(alloc, arrivals, *number) {
            Ok(events) => events,
            Err(fault) => return Err(fault),
        };
        count += 1;
        put_prefix(out, failed, schedule, count, events.as_slice());
    }
    Ok(())
}

// The word for one, or for more.
fn prefix_word(count: usize) -> &'static [u8]
    ensures { result.now ≡ prefix_word count }
{
    if count == 1 {
        b" prefix, "
    } else {
        b" prefixes, "
    }
}

// Whether each is as long as was asked for, in words.
fn depth_text(is_whole: bool) -> &'static [u8]
    ensures { result.now ≡ depth_text is_whole }
{
    if is_whole {
        b"all schedules\n"
    } else {
        b"all schedules, stopped less deep\n"
    }
}

// Puts the last line.
fn put_count<W: Write>(out: &mut W, failed: &mut bool, count: PrefixCount)
    ensures { Puts (sink (W.contents out.old) failed.old) (sink (W.contents out.new) failed.new)
        (prefix_line count) }
{
    put_number(out, failed, count.prefixes);
    put(out, failed, prefix_word(count.prefixes));
    put(out, failed, depth_text(count.whole));
}

/// Tells prefixes of so many events, or fewer where these lead to an end: each as a schedule, behind the one that says the first events. An
/// exploration behind each of them finds together with the others what one behind the first events finds: whatever events lead to an
/// end, its report is told by one of them, with no more events in all. As many states are kept as it takes, up to the most; where more are
/// wanted, prefixes are shorter, and none is missed either.
///
/// # Errors
///
/// `Memory` where memory is refused, to a step too. Some prefixes may have been told then.
pub fn tell_prefixes<W: Write, V: Watcher>(
    alloc: Global,
    out: &mut W,
    failed: &mut bool,
    origin: &Origin,
    depth: usize,
    watcher: &V,
) -> Result<PrefixCount, Fault>
    requires { OnePerHost origin.now.config.now origin.now.script.now.programs.items }
    ensures told { IfOk result
        (TellsPrefixes (setting_from origin.now) origin.now.schedule.now depth origin.now.most
        (sink (W.contents out.old) failed.old) (sink (W.contents out.new) failed.new)) }
    ensures begun { OnErr result
        (TellsSomePrefixes (setting_from origin.now) origin.now.schedule.now
        (sink (W.contents out.old) failed.old) (sink (W.contents out.new) failed.new)) }
    ensures fault { OnlyMemory result }
{
    runs_are_legal();
    let Exploration {
        arrivals,
        ends,
        followed,
        whole,
    } = match search(alloc, origin, depth, watcher) {
        Ok(found) => found,
        Err(fault) => return Err(fault),
    };
    let mut numbers = ends;
    match push_leaves(&mut numbers, followed, arrivals.len() + 1) {
        Ok(()) => {}
        Err(fault) => return Err(fault),
    }
    match tell_each(
        alloc,
        out,
        failed,
        origin.schedule,
        arrivals.as_slice(),
        numbers.as_slice(),
    ) {
        Ok(()) => {}
        Err(fault) => return Err(fault),
    }
    let count = PrefixCount {
        prefixes: numbers.len(),
        states: arrivals.len() + 1,
        whole,
    };
    put_count(out, failed, count);
    Ok(count)
}
