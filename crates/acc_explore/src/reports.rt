//! All reports of the ends that a state leads to, each with a schedule.

ghost use Rattle.std.specs.Prelude.{◌≡◌, ◌≤◌, All, IfOk, OnOk, OnErr, length, map, reverse};
ghost use Rattle.std.specs.List.{list_any};
ghost use Rattle.acc_base.specs.Faults.{OnlyMemory};
ghost use Rattle.acc_core.specs.Worlds.{OnePerHost};
ghost use Rattle.acc_explore.specs.Arrivals.{found_at};
ghost use Rattle.acc_explore.specs.Endings.{TellsAll, TellsSome, counts_text, ending_text, in_line, counts_line, on_one_line, plural, plural_end, whole_text};
ghost use Rattle.acc_explore.specs.Runs.{report_of};
ghost use Rattle.acc_explore.specs.Searches.{IsSearch};
ghost use Rattle.acc_explore.specs.Spellings.{going_on};
ghost use Rattle.acc_explore.specs.inner.Telling.{IsTally, TellsAtMost, TellsFirst, TellsOne, told_of};
ghost use Rattle.acc_explore.specs.Origins.{setting_from, start_of};
ghost use Rattle.acc_host.specs.Hosts.{is_refused, state_of};
ghost use Rattle.acc_report.specs.Puts.{Puts, sink};
ghost use Rattle.acc_script.specs.Arrays.{texts};

use crate::arrival::{Arrival, path};
use crate::replay::world_found;
use crate::schedule::put_schedule;
use crate::search::{Exploration, Watcher, explore};
use acc_base::{Config, Fault};
use acc_core::runs_are_legal;
use acc_host::{Event, any_refused};
use acc_report::{Run, put, put_number, report_run};
use acc_script::Script;
use indexmap::IndexSet;
use std::alloc::Global;
use std::io::Write;

/// How reports are told.
#[derive(Clone, Copy, Debug, PartialEq, Eq)]
pub enum Form {
    /// Each with a schedule that leads to it, and a last line with the counts.
    Whole,
    /// Each on one line, and nothing else.
    Short,
}

/// How many different reports there are, and how many states they were found by.
#[derive(Clone, Copy, Debug, PartialEq, Eq)]
pub struct Counts {
    pub reports: usize,
    pub states: usize,
    /// Whether these are all.
    pub whole: bool,
    /// Whether a host was refused in one.
    pub refused: bool,
}

/// Where runs go on from, and how far.
#[derive(Clone, Copy)]
pub struct Origin<'a, 't> {
    pub config: &'a Config,
    pub script: &'a Script<'t>,
    /// The events that come first, and the text of the schedule that says them.
    pub events: &'a [Event],
    pub schedule: &'a [u8],
    /// Whether the owner may close.
    pub closing: bool,
    /// How many states are kept at most, behind the first.
    pub most: u32,
}

// The report of a state that was found, and whether a host was refused there.
fn report_at(
    alloc: Global,
    origin: &Origin,
    arrivals: &[Arrival],
    number: u32,
) -> Result<(Vec<u8>, bool), Fault>
    requires hosts { OnePerHost origin.now.config.now origin.now.script.now.programs.items }
    requires there { number ≤ length arrivals.now }
    ensures report { IfOk result (λ r.
        r.0.items
        ≡ report_of (texts origin.now.script.now.names.keys) origin.now.script.now.programs.items
        (found_at (start_of origin.now) (reverse arrivals.now) number).state) }
    ensures refused { IfOk result (λ r.
        r.1 ≡ list_any is_refused (map state_of (found_at (start_of origin.now)
        (reverse arrivals.now) number).state.hosts)) }
    ensures fault { OnlyMemory result }
{
    let programs = origin.script.programs.as_slice();
    let world = world_found(
        alloc,
        origin.config,
        programs,
        origin.events,
        arrivals,
        number,
    )?;
    let (place, work, hosts, _) = world.into_parts();
    let run = Run {
        place: &place,
        works: work.log(),
        hosts: hosts.as_slice(),
        discarded: &[],
    };
    let mut report = Vec::new(alloc);
    match report_run(alloc, &run, origin.script, &mut report) {
        Ok(()) => {}
        Err(_) => return Err(Fault::Memory),
    }
    Ok((report, any_refused(hosts.as_slice())))
}

// Puts a schedule, and behind an empty line the events with which it goes on.
pub(crate) fn put_going_on<W: Write>(
    out: &mut W,
    failed: &mut bool,
    schedule: &[u8],
    events: &[Event],
)
    ensures { Puts (sink (W.contents out.old) failed.old) (sink (W.contents out.new) failed.new)
        (going_on schedule.now events.now) }
{
    match schedule {
        [] => put_schedule(out, failed, events),
        [_, ..] => {
            put(out, failed, schedule);
            put(out, failed, b"\n");
            put_schedule(out, failed, events);
        }
    }
}

// Puts a byte of a report that stands on one line.
fn put_in_line<W: Write>(out: &mut W, failed: &mut bool, byte: u8)
    ensures { Puts (sink (W.contents out.old) failed.old) (sink (W.contents out.new) failed.new)
        (in_line byte) }
{
    match byte {
        b'\n' => put(out, failed, b";"),
        byte => put(out, failed, &[byte]),
    }
}

// Puts a report on one line.
fn put_on_one_line<W: Write>(out: &mut W, failed: &mut bool, report: &[u8])
    ensures { Puts (sink (W.contents out.old) failed.old) (sink (W.contents out.new) failed.new)
        (on_one_line report.now) }
{
    for byte in report {
        put_in_line(out, failed, *byte);
    }
    put(out, failed, b"\n");
}

// Puts an ending with its number.
fn put_ending<W: Write>(
    out: &mut W,
    failed: &mut bool,
    form: Form,
    schedule: &[u8],
    number: usize,
    events: &[Event],
    report: &[u8],
)
    ensures { Puts (sink (W.contents out.old) failed.old) (sink (W.contents out.new) failed.new)
        (ending_text form schedule.now number
        (record { events = events.now; report = report.now })) }
{
    match form {
        Form::Short => put_on_one_line(out, failed, report),
        Form::Whole => {
            put(out, failed, b"# schedule ");
            put_number(out, failed, number);
            put(out, failed, b"\n");
            put_going_on(out, failed, schedule, events);
            put(out, failed, b"# report ");
            put_number(out, failed, number);
            put(out, failed, b"\n");
            put(out, failed, report);
        }
    }
}

// What was told so far: the reports, and whether a host was refused in one.
#[derive(Drop)]
struct Tally {
    seen: IndexSet<Vec<u8>>,
    refused: bool,
}

// Tells of an end, by its number, unless its report was told.
fn tell_end<W: Write>(
    alloc: Global,
    out: &mut W,
    failed: &mut bool,
    origin: &Origin,
    form: Form,
    arrivals: &[Arrival],
    end: u32,
    tally: &mut Tally,
) -> Result<(), Fault>
    requires hosts { OnePerHost origin.now.config.now origin.now.script.now.programs.items }
    requires there { end ≤ length arrivals.now }
    ensures told { OnOk result (TellsOne (setting_from origin.now) form origin.now.schedule.now
        (reverse arrivals.now) end tally.old tally.new (sink (W.contents out.old) failed.old)
        (sink (W.contents out.new) failed.new)) }
    ensures begun { OnErr result
        (TellsAtMost (setting_from origin.now) form origin.now.schedule.now
        (reverse arrivals.now) end tally.old (sink (W.contents out.old) failed.old)
        (sink (W.contents out.new) failed.new)) }
    ensures fault { OnlyMemory result }
{
    let (report, refused) = match report_at(alloc, origin, arrivals, end) {
        Ok(report) => report,
        Err(fault) => return Err(fault),
    };
    if tally.seen.contains(report.as_slice()) {
        return Ok(());
    }
    let events = match path(alloc, arrivals, end) {
        Ok(events) => events,
        Err(fault) => return Err(fault),
    };
    tally.refused |= refused;
    let number = tally.seen.len() + 1;
    put_ending(
        out,
        failed,
        form,
        origin.schedule,
        number,
        events.as_slice(),
        report.as_slice(),
    );
    match tally.seen.insert(report) {
        Ok(_) => Ok(()),
        Err(_) => Err(Fault::Memory),
    }
}

// Tells of the ends with these numbers one for each report.
fn tell_ends<W: Write>(
    alloc: Global,
    out: &mut W,
    failed: &mut bool,
    origin: &Origin,
    form: Form,
    arrivals: &[Arrival],
    ends: &[u32],
) -> Result<Tally, Fault>
    requires hosts { OnePerHost origin.now.config.now origin.now.script.now.programs.items }
    requires there { All (λ n. n ≤ length arrivals.now) ends.now }
    ensures told { IfOk result (λ t.
        IsTally (setting_from origin.now) form origin.now.schedule.now
        (told_of (setting_from origin.now) (reverse arrivals.now) ends.now) t
        (sink (W.contents out.old) failed.old) (sink (W.contents out.new) failed.new)) }
    ensures begun { OnErr result
        (TellsFirst (setting_from origin.now) form origin.now.schedule.now
        (reverse arrivals.now) ends.now (sink (W.contents out.old) failed.old)
        (sink (W.contents out.new) failed.new)) }
    ensures fault { OnlyMemory result }
{
    let mut tally = Tally {
        seen: IndexSet::new(alloc),
        refused: false,
    };
    for end in ends {
        match tell_end(alloc, out, failed, origin, form, arrivals, *end, &mut tally) {
            Ok(()) => {}
            Err(fault) => return Err(fault),
        }
    }
    Ok(tally)
}

// Puts a word for one, or for more.
fn put_plural<W: Write>(out: &mut W, failed: &mut bool, count: usize, word: &[u8])
    ensures { Puts (sink (W.contents out.old) failed.old) (sink (W.contents out.new) failed.new)
        (plural count word.now) }
{
    put(out, failed, word);
    put(out, failed, plural_end(count));
}

// What the word ends with.
fn plural_end(count: usize) -> &'static [u8]
    ensures { result.now ≡ plural_end count }
{
    if count == 1 { b"" } else { b"s" }
}

// Puts the last line.
fn put_counts<W: Write>(out: &mut W, failed: &mut bool, form: Form, counts: Counts)
    ensures { Puts (sink (W.contents out.old) failed.old) (sink (W.contents out.new) failed.new)
        (counts_text form counts) }
{
    match form {
        Form::Short => {}
        Form::Whole => put_line(out, failed, counts),
    }
}

// Puts how much there is, in words.
fn put_line<W: Write>(out: &mut W, failed: &mut bool, counts: Counts)
    ensures { Puts (sink (W.contents out.old) failed.old) (sink (W.contents out.new) failed.new)
        (counts_line counts) }
{
    put_number(out, failed, counts.reports);
    put_plural(out, failed, counts.reports, b" report");
    put(out, failed, b", ");
    put_number(out, failed, counts.states);
    put_plural(out, failed, counts.states, b" state");
    put(out, failed, b", ");
    put(out, failed, whole_text(counts.whole));
}

// Whether that is all, in words.
fn whole_text(is_whole: bool) -> &'static [u8]
    ensures { result.now ≡ whole_text is_whole }
{
    if is_whole {
        b"all schedules\n"
    } else {
        b"stopped: there may be more\n"
    }
}

// What a search finds behind the first events, where the deepest states are so deep.
pub(crate) fn search<V: Watcher>(
    alloc: Global,
    origin: &Origin,
    deepest: usize,
    watcher: &V,
) -> Result<Exploration, Fault>
    requires { OnePerHost origin.now.config.now origin.now.script.now.programs.items }
    ensures found { IfOk result (λ x.
        IsSearch origin.now.closing origin.now.most deepest (start_of origin.now)
        (reverse x.arrivals.items) x.ends.items x.followed x.whole) }
    ensures fault { OnlyMemory result }
{
    let found = explore(
        alloc,
        origin.config,
        origin.script.programs.as_slice(),
        origin.events,
        origin.closing,
        origin.most,
        deepest,
        watcher,
    );
    watcher.end();
    found
}

/// Tells each report of an end that runs can come to behind the first events, whatever the order of their steps; each with a
/// schedule that leads there with the fewest events, in the order of how many those are. As many states are kept as it
/// takes, up to the most; where more are wanted, what was found by then is told.
///
/// # Errors
///
/// `Memory` where memory is refused, to a step too. Some endings may have been told then.
pub fn tell_reports<W: Write, V: Watcher>(
    alloc: Global,
    out: &mut W,
    failed: &mut bool,
    origin: &Origin,
    form: Form,
    watcher: &V,
) -> Result<Counts, Fault>
    requires { OnePerHost origin.now.config.now origin.now.script.now.programs.items }
    ensures told { IfOk result
        (TellsAll (setting_from origin.now) form origin.now.schedule.now origin.now.most
        (sink (W.contents out.old) failed.old) (sink (W.contents out.new) failed.new)) }
    ensures begun { OnErr result
        (TellsSome (setting_from origin.now) form origin.now.schedule.now
        (sink (W.contents out.old) failed.old) (sink (W.contents out.new) failed.new)) }
    ensures fault { OnlyMemory result }
{
    runs_are_legal();
    let Exploration {
        arrivals,
        ends,
        followed: _,
        whole,
    } = match search(alloc, origin, usize::MAX, watcher) {
        Ok(found) => found,
        Err(fault) => return Err(fault),
    };
    let tally = match tell_ends(
        alloc,
        out,
        failed,
        origin,
        form,
        arrivals.as_slice(),
        ends.as_slice(),
    ) {
        Ok(tally) => tally,
        Err(fault) => return Err(fault),
    };
    let reports = tally.seen.len();
    let counts = Counts {
        reports,
        states: arrivals.len() + 1,
        whole,
        refused: tally.refused,
    };
    put_counts(out, failed, form, counts);
    Ok(counts)
}
