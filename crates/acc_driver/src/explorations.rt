//! The path from bytes to all reports of ends that runs come to, or to prefixes from which others explore on.

ghost use Rattle.std.specs.Prelude.{◌≡◌, ◌≤◌, IfErr, IfOk, IfSome, OnErr, Err, Ok, length};
ghost use Rattle.acc_base.specs.Faults.{OnlyMemory};
ghost use Rattle.acc_base.specs.Configurations.{rows};
ghost use Rattle.acc_base.specs.declared.config.TheConstants.{MAX_HOSTS};
ghost use Rattle.acc_core.specs.Worlds.{OnePerHost};
ghost use Rattle.acc_explore.specs.Origins.{setting_from};
ghost use Rattle.acc_host.specs.Hosts.{AreNumbered};
ghost use Rattle.acc_report.specs.Puts.{sink};
ghost use Rattle.acc_schedule.specs.Schedules.{schedule_of};
ghost use Rattle.acc_script.specs.Arrays.{IsDeclared, texts};
ghost use Rattle.acc_script.specs.Scripts.{view_of_script};
ghost use Rattle.acc_driver.specs.Explorations.{ExploreAnswer, ExploresProgram, TellsSomeOf, script_alone};
ghost use Rattle.acc_driver.specs.Replays.{AreUsable, IsRun};
ghost use Rattle.acc_driver.specs.inner.Explorations.{ExploresSchedule, TellsAllOf};

use crate::fault::DriverFault;
use crate::input::{read_text, split};
use crate::options::Options;
use crate::program::{config_of, hosts_of, read_script};
use crate::replays::{INPUT_LIMIT, INPUT_TURNS, TEXT_LIMIT, TEXT_TURNS};
use acc_base::Fault;
use acc_explore::{
    Counts, Form, Origin, PrefixCount, Watcher, endings_are_said, prefixes_miss_none_together,
    tell_prefixes, tell_reports,
};
use acc_host::Event;
use acc_schedule::read_schedule;
use acc_script::{ReadError, Script};
use std::alloc::Global;
use std::io::{Read, Write};

/// What is told of an exploration.
#[derive(Clone, Copy, Debug, PartialEq, Eq)]
pub enum Aim {
    /// Each report, in this form.
    Reports(Form),
    /// Prefixes of so many events, from each of which others explore on.
    Prefixes(u32),
}

/// How much was told of an exploration.
#[derive(Clone, Copy, Debug, PartialEq, Eq)]
pub enum Explored {
    Reports(Counts),
    Prefixes(PrefixCount),
}

/// How far an exploration goes, and what is told of it.
#[derive(Clone, Copy, Debug, PartialEq, Eq)]
pub struct Exploring {
    /// Whether the owner may close, at any point.
    pub closing: bool,
    /// How many states are kept at most, and one in any case.
    pub states: u32,
    pub aim: Aim,
}

/// Reads a script and a schedule, each from a reader of its own, and tells each report of an end that runs can come to behind the
/// schedule, whatever the order of their steps. The schedule is read once the script is understood.
///
/// # Errors
///
/// The first of: `Input` where the script's reader failed or gave its bytes in too many turns, `Script`, `Input` for the
/// schedule's reader, `Schedule`, `Runtime` where the options are refused, `Output` where the writer failed or took
/// nothing, which may have taken a beginning of what is told; and `Memory` for want of memory, which may come behind some of
/// the reports. Else nothing is written.
pub fn explore<R: Read, S: Read, W: Write, V: Watcher>(
    alloc: Global,
    script: &mut R,
    schedule: &mut S,
    options: Options,
    exploring: Exploring,
    writer: &mut W,
    watcher: &V,
) -> Result<Explored, DriverFault>
    ensures answers { IfSome (R.remaining script.old) (λ script.
        IfSome (S.remaining schedule.old) (λ schedule.
        ExploreAnswer options exploring (record { script = script; schedule = schedule })
        (W.contents writer.old) (W.contents writer.new) result)) }
    ensures run { AreUsable options → IfErr result (λ f. IsRun (Err f)) }
{
    let text = match read_text(alloc, script, TEXT_LIMIT, TEXT_TURNS) {
        Ok(text) => text,
        Err(fault) => return Err(fault.of_reader()),
    };
    let script = match read_script(alloc, text.as_slice()) {
        Ok(script) => script,
        Err(fault) => return Err(fault.of_input()),
    };
    let schedule = match read_text(alloc, schedule, TEXT_LIMIT, TEXT_TURNS) {
        Ok(schedule) => schedule,
        Err(fault) => return Err(fault.of_reader()),
    };
    explore_behind(
        alloc,
        script,
        schedule.as_slice(),
        options,
        exploring,
        writer,
        watcher,
    )
}

/// Reads a script from a text, and tells the same of all its runs. Where the text holds a schedule too, behind its first line that
/// is exactly `%%`, that is left aside.
///
/// # Errors
///
/// The first of: `Input` where the reader failed or gave its bytes in too many turns, `Script`, `Runtime` where the options are
/// refused, `Output` where the writer failed or took nothing, which may have taken a beginning of what is told; and `Memory` for
/// want of memory, which may come behind some of the reports. Else nothing is written.
pub fn explore_script<R: Read, W: Write, V: Watcher>(
    alloc: Global,
    reader: &mut R,
    options: Options,
    exploring: Exploring,
    writer: &mut W,
    watcher: &V,
) -> Result<Explored, DriverFault>
    ensures answers { IfSome (R.remaining reader.old) (λ text.
        ExploreAnswer options exploring (script_alone text) (W.contents writer.old)
        (W.contents writer.new) result) }
    ensures run { AreUsable options → IfErr result (λ f. IsRun (Err f)) }
{
    let text = match read_text(alloc, reader, INPUT_LIMIT, INPUT_TURNS) {
        Ok(text) => text,
        Err(fault) => return Err(fault.of_reader()),
    };
    let (script, _) = split(text.as_slice());
    match read_script(alloc, script) {
        Ok(script) => explore_behind(alloc, script, &[], options, exploring, writer, watcher),
        Err(fault) => Err(fault.of_input()),
    }
}

// Explores what a script says, behind a schedule.
fn explore_behind<W: Write, V: Watcher>(
    alloc: Global,
    script: Script,
    schedule: &[u8],
    options: Options,
    exploring: Exploring,
    writer: &mut W,
    watcher: &V,
) -> Result<Explored, DriverFault>
    requires declared { IsDeclared
        (record { names = texts script.names.keys; cells = rows script.arrays.items }) }
    requires numbered { AreNumbered 0 script.programs.items }
    requires few { length script.programs.items ≤ MAX_HOSTS }
    ensures answers { ExploresSchedule options exploring schedule.now (view_of_script script.entry)
        (W.contents writer.old) (W.contents writer.new) result }
    ensures run { AreUsable options → IfErr result (λ f. IsRun (Err f)) }
{
    let hosts = hosts_of(&script.programs);
    match read_schedule(alloc, schedule, hosts, options.devices) {
        Ok(events) => {
            let events = events.as_slice();
            explore_events(
                alloc, script, schedule, events, options, exploring, writer, watcher,
            )
        }
        Err(ReadError::Memory) => Err(DriverFault::Memory),
        Err(ReadError::Fault(fault)) => Err(DriverFault::Schedule(fault)),
    }
}

// Explores what a script says, behind the first events, which a schedule says.
fn explore_events<W: Write, V: Watcher>(
    alloc: Global,
    script: Script,
    schedule: &[u8],
    events: &[Event],
    options: Options,
    exploring: Exploring,
    writer: &mut W,
    watcher: &V,
) -> Result<Explored, DriverFault>
    requires declared { IsDeclared
        (record { names = texts script.names.keys; cells = rows script.arrays.items }) }
    requires numbered { AreNumbered 0 script.programs.items }
    requires few { length script.programs.items ≤ MAX_HOSTS }
    requires said { schedule_of (length script.programs.items) options.devices schedule.now
        ≡ Ok events.now }
    ensures answers { ExploresProgram options exploring schedule.now
        (view_of_script script.entry) events.now (W.contents writer.old)
        (W.contents writer.new) result }
    ensures run { AreUsable options → IfErr result (λ f. IsRun (Err f)) }
{
    endings_are_said();
    prefixes_miss_none_together();
    let Script {
        names,
        arrays,
        programs,
    } = script;
    let config = match config_of(alloc, options, &programs, arrays) {
        Ok(config) => config,
        Err(fault) => return Err(fault.of_input()),
    };
    config.keeps();
    let script = Script {
        names,
        arrays: Vec::new(alloc),
        programs,
    };
    let origin = Origin {
        config: &config,
        script: &script,
        events,
        schedule,
        closing: exploring.closing,
        most: exploring.states.saturating_sub(1),
    };
    let mut failed = false;
    match tell(alloc, writer, &mut failed, &origin, exploring.aim, watcher) {
        Ok(explored) => {
            if failed {
                Err(DriverFault::Output)
            } else {
                Ok(explored)
            }
        }
        Err(_) => Err(DriverFault::Memory),
    }
}

// Tells what is asked for.
fn tell<W: Write, V: Watcher>(
    alloc: Global,
    out: &mut W,
    failed: &mut bool,
    origin: &Origin,
    aim: Aim,
    watcher: &V,
) -> Result<Explored, Fault>
    requires { OnePerHost origin.now.config.now origin.now.script.now.programs.items }
    ensures told { IfOk result
        (TellsAllOf aim (setting_from origin.now) origin.now.schedule.now origin.now.most
        (sink (W.contents out.old) failed.old) (sink (W.contents out.new) failed.new)) }
    ensures begun { OnErr result
        (TellsSomeOf aim (setting_from origin.now) origin.now.schedule.now
        (sink (W.contents out.old) failed.old) (sink (W.contents out.new) failed.new)) }
    ensures fault { OnlyMemory result }
{
    match aim {
        Aim::Reports(form) => match tell_reports(alloc, out, failed, origin, form, watcher) {
            Ok(counts) => Ok(Explored::Reports(counts)),
            Err(fault) => Err(fault),
        },
        Aim::Prefixes(depth) => {
            match tell_prefixes(alloc, out, failed, origin, depth as usize, watcher) {
                Ok(count) => Ok(Explored::Prefixes(count)),
                Err(fault) => Err(fault),
            }
        }
    }
}
