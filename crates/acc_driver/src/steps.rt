//! The path from bytes to what tells each step of a replay: lines, and the report behind them, or a picture.

ghost use Rattle.std.specs.Prelude.{◌≡◌, ◌≤◌, IfErr, IfOk, IfSome, List, Ok, OnOk, false, length};
ghost use Rattle.acc_base.specs.Configurations.{rows};
ghost use Rattle.acc_base.specs.declared.config.TheConstants.{MAX_HOSTS};
ghost use Rattle.acc_host.specs.Hosts.{AreNumbered};
ghost use Rattle.acc_script.specs.Arrays.{IsDeclared, texts};
ghost use Rattle.acc_script.specs.Scripts.{view_of_script};
ghost use Rattle.acc_driver.specs.Inputs.{parts};
ghost use Rattle.acc_driver.specs.Replays.{AreUsable, IsRun};
ghost use Rattle.acc_driver.specs.declared.steps.StepsAs.{StepsAs};
ghost use Rattle.acc_driver.specs.declared.steps.StepsAs.TheVariants.{Picture};
ghost use Rattle.acc_driver.specs.Steps.{StepsAnswer, tells_idle};
ghost use Rattle.acc_driver.specs.inner.Steps.{IsEventsFault, StepsOfSchedule, StepsOfWorld, TellsLines};
ghost use Rattle.acc_host.specs.declared.event.Event.{Event};
ghost use Rattle.acc_schedule.specs.Schedules.{schedule_of};
ghost use Rattle.acc_steps.specs.Walks.{numbered_events};

use crate::fault::DriverFault;
use crate::input::{read_text, split};
use crate::options::{Ended, Options};
use crate::program::{hosts_of, read_script};
use crate::remains::Remains;
use crate::replays::{INPUT_LIMIT, INPUT_TURNS, TEXT_LIMIT, TEXT_TURNS, new_world, report_world};
use acc_core::{World, programs_stay};
use acc_host::any_refused;
use acc_report::put;
use acc_schedule::Schedule;
use acc_script::{ReadError, Script};
use acc_steps::{
    Numbered, Telling, draw_steps, lines_of, numbered_events, pictures_tell_all, tell_steps,
};
use indexmap::IndexSet;
use std::alloc::Global;
use std::io::{Read, Write};

/// How the steps of a replay are shown.
#[derive(Clone, Copy, Debug, PartialEq, Eq)]
pub enum StepsAs {
    /// A line for each event that did something, and the report behind them.
    Lines,
    /// A line for each event, and the report behind them.
    AllLines,
    /// A picture of the events that did something, as SVG.
    Picture,
}

/// Reads a script and a schedule, each from a reader of its own, runs the schedule, and shows each step. The schedule is read once
/// the script is understood. What the run left is then put into `remains`. `None` where the picture would be too long; then nothing
/// is written.
///
/// # Errors
///
/// The first of: `Input` where the script's reader failed or gave its bytes in too many turns, `Script`, `Input` for the
/// schedule's reader, `Schedule`, `Runtime` where the options are refused, `Output` where the writer failed or took
/// nothing, which may have taken a beginning of what shows the steps; and `Memory` for want of memory, which may come behind
/// some of the lines. Else nothing is written.
pub fn show<R: Read, S: Read, W: Write>(
    alloc: Global,
    script: &mut R,
    schedule: &mut S,
    options: Options,
    form: StepsAs,
    writer: &mut W,
    remains: &mut Remains,
) -> Result<Option<Ended>, DriverFault>
    ensures answers { IfSome (R.remaining script.old) (λ script.
        IfSome (S.remaining schedule.old) (λ schedule.
        StepsAnswer options form (record { script = script; schedule = schedule })
        (W.contents writer.old) (W.contents writer.new) result)) }
    ensures run { AreUsable options → IfErr result (λ f. IsRun (Err f)) }
{
    let text = match read_text(alloc, script, TEXT_LIMIT, TEXT_TURNS) {
        Ok(text) => text,
        Err(fault) => return Err(fault.of_reader()),
    };
    let script = match read_script(alloc, text.as_slice()) {
        Ok(script) => script,
        Err(fault) => return Err(fault.of_input()),
    };
    let schedule = match read_text(alloc, schedule, TEXT_LIMIT, TEXT_TURNS) {
        Ok(schedule) => schedule,
        Err(fault) => return Err(fault.of_reader()),
    };
    steps_of(
        alloc,
        text.as_slice(),
        script,
        schedule.as_slice(),
        options,
        form,
        writer,
        remains,
    )
}

/// Reads a script and a schedule from one text, which is split at its first line that is exactly `%%`, runs the schedule, and shows each
/// step. What the run left is then put into `remains`. `None` where the picture would be too long; then nothing is written.
///
/// # Errors
///
/// The first of: `Input` where the reader failed or gave its bytes in too many turns, `Script`, `Schedule`, `Runtime` where the
/// options are refused, `Output` where the writer failed or took nothing, which may have taken a beginning of what shows the
/// steps; and `Memory` for want of memory, which may come behind some of the lines. Else nothing is written.
pub fn show_one<R: Read, W: Write>(
    alloc: Global,
    reader: &mut R,
    options: Options,
    form: StepsAs,
    writer: &mut W,
    remains: &mut Remains,
) -> Result<Option<Ended>, DriverFault>
    ensures answers { IfSome (R.remaining reader.old) (λ text.
        StepsAnswer options form (parts text) (W.contents writer.old)
        (W.contents writer.new) result) }
    ensures run { AreUsable options → IfErr result (λ f. IsRun (Err f)) }
{
    let text = match read_text(alloc, reader, INPUT_LIMIT, INPUT_TURNS) {
        Ok(text) => text,
        Err(fault) => return Err(fault.of_reader()),
    };
    let (text, schedule) = split(text.as_slice());
    match read_script(alloc, text) {
        Ok(script) => steps_of(
            alloc, text, script, schedule, options, form, writer, remains,
        ),
        Err(fault) => Err(fault.of_input()),
    }
}

// Shows the steps of a schedule on what a script says.
fn steps_of<'t, W: Write>(
    alloc: Global,
    text: &'t [u8],
    script: Script<'t>,
    schedule: &[u8],
    options: Options,
    form: StepsAs,
    writer: &mut W,
    remains: &mut Remains,
) -> Result<Option<Ended>, DriverFault>
    requires declared { IsDeclared
        (record { names = texts script.names.keys; cells = rows script.arrays.items }) }
    requires numbered { AreNumbered 0 script.programs.items }
    requires few { length script.programs.items ≤ MAX_HOSTS }
    ensures answers { StepsOfSchedule options form
        (record { script = text.now; schedule = schedule.now }) (view_of_script script.entry)
        (W.contents writer.old) (W.contents writer.new) result }
    ensures run { AreUsable options → IfErr result (λ f. IsRun (Err f)) }
{
    let events = events_of(alloc, schedule, hosts_of(&script.programs), options.devices)?;
    let Ok(source) = lines_of(alloc, text) else {
        return Err(DriverFault::Memory);
    };
    let Script {
        names,
        arrays,
        programs,
    } = script;
    programs_stay();
    let world = match new_world(alloc, arrays, programs, options) {
        Ok(world) => world,
        Err(fault) => return Err(fault.of_input()),
    };
    let events = events.as_slice();
    show_world(alloc, names, source, form, events, world, writer, remains)
}

// The events of a schedule, each with the number of its line.
fn events_of(
    alloc: Global,
    schedule: &[u8],
    hosts: u8,
    devices: u8,
) -> Result<Vec<Numbered>, DriverFault>
    ensures events { IfOk result (λ list. list.items ≡ numbered_events hosts devices schedule.now) }
    ensures said { OnOk result ((events : List Event)
        × (schedule_of hosts devices schedule.now ≡ Ok events)) }
    ensures fault { IfErr result (IsEventsFault hosts devices schedule.now) }
{
    match Schedule::read(alloc, schedule, hosts, devices) {
        Ok(_) => {}
        Err(ReadError::Memory) => return Err(DriverFault::Memory),
        Err(ReadError::Fault(fault)) => return Err(DriverFault::Schedule(fault)),
    }
    let Ok(lines) = lines_of(alloc, schedule) else {
        return Err(DriverFault::Memory);
    };
    match numbered_events(alloc, lines.as_slice(), hosts, devices) {
        Ok(events) => Ok(events),
        Err(_) => Err(DriverFault::Memory),
    }
}

// Runs events on a world, and shows each.
fn show_world<'t, W: Write>(
    alloc: Global,
    names: IndexSet<&'t [u8]>,
    source: Vec<&'t [u8]>,
    form: StepsAs,
    events: &[Numbered],
    world: World,
    writer: &mut W,
    remains: &mut Remains,
) -> Result<Option<Ended>, DriverFault>
    ensures { StepsOfWorld form
        (record { names = texts names.entry.keys; source = texts source.entry.items; idle = tells_idle form }) events.now world
        (W.contents writer.old) (W.contents writer.new) result }
{
    match form {
        StepsAs::Lines => tell_world(alloc, names, source, false, events, world, writer, remains),
        StepsAs::AllLines => tell_world(alloc, names, source, true, events, world, writer, remains),
        StepsAs::Picture => draw_world(alloc, names, source, events, world, writer, remains),
    }
}

// Runs events on a world, and writes the line of each and the report.
fn tell_world<'t, W: Write>(
    alloc: Global,
    names: IndexSet<&'t [u8]>,
    source: Vec<&'t [u8]>,
    idle: bool,
    events: &[Numbered],
    world: World,
    writer: &mut W,
    remains: &mut Remains,
) -> Result<Option<Ended>, DriverFault>
    ensures { (form : StepsAs) → TellsLines form
        → StepsOfWorld form
        (record { names = texts names.entry.keys; source = texts source.entry.items; idle = idle }) events.now world
        (W.contents writer.old) (W.contents writer.new) result }
{
    let mut world = world;
    let mut failed = false;
    let telling = Telling {
        names: names.as_slice(),
        source: source.as_slice(),
        idle,
    };
    match tell_steps(writer, &mut failed, &telling, events, &mut world) {
        Ok(()) => {}
        Err(_) => return Err(DriverFault::Memory),
    }
    if failed {
        return Err(DriverFault::Output);
    }
    match report_world(alloc, names, world, writer, remains) {
        Ok(ended) => Ok(Some(ended)),
        Err(fault) => Err(fault.of_input()),
    }
}

// Runs events on a world, and writes a picture of them.
fn draw_world<'t, W: Write>(
    alloc: Global,
    names: IndexSet<&'t [u8]>,
    source: Vec<&'t [u8]>,
    events: &[Numbered],
    world: World,
    writer: &mut W,
    remains: &mut Remains,
) -> Result<Option<Ended>, DriverFault>
    ensures { StepsOfWorld Picture
        (record { names = texts names.entry.keys; source = texts source.entry.items; idle = false }) events.now world
        (W.contents writer.old) (W.contents writer.new) result }
{
    let mut world = world;
    let mut failed = false;
    let telling = Telling {
        names: names.as_slice(),
        source: source.as_slice(),
        idle: false,
    };
    pictures_tell_all();
    let picture = match draw_steps(alloc, &telling, events, &mut world) {
        Ok(Some(picture)) => picture,
        Ok(None) => return Ok(None),
        Err(_) => return Err(DriverFault::Memory),
    };
    put(writer, &mut failed, picture.as_slice());
    if failed {
        return Err(DriverFault::Output);
    }
    let (place, work, hosts, programs) = world.into_parts();
    let refused = any_refused(hosts.as_slice());
    *remains = Remains::of_replay(place, work, hosts, programs);
    Ok(Some(Ended { refused }))
}
