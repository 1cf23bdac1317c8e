//! The path from bytes to bytes, with the faults in their order.

ghost use Rattle.std.specs.Prelude.{◌≡◌, ◌≤◌, ◌⊎◌, IfOk, IfErr, IfSome, List, Ok, length};
ghost use Rattle.acc_base.specs.Configurations.{rows, configuration};
ghost use Rattle.acc_base.specs.declared.config.TheConstants.{MAX_HOSTS};
ghost use Rattle.acc_host.specs.Hosts.{AreNumbered};
ghost use Rattle.acc_core.specs.Worlds.{first_state};
ghost use Rattle.acc_script.specs.Arrays.{IsDeclared, texts};
ghost use Rattle.acc_driver.specs.Inputs.{parts};
ghost use Rattle.acc_core.specs.Legality.{AllFollow, IsLegalState};
ghost use Rattle.acc_core.specs.Machine.{Runs};
ghost use Rattle.acc_host.specs.declared.state.Reply.{Reply};
ghost use Rattle.acc_driver.specs.Replays.{Answers, RunAnswers, AreUsable, IsOfScript, IsRun, IsScript, IsWorldFault, driver_fault, of_input};
ghost use Rattle.acc_driver.specs.inner.Scripts.{ReportsWorld, ScheduleAnswers};
ghost use Rattle.acc_base.specs.declared.fault.Fault.TheVariants.{Memory};
ghost use Rattle.acc_schedule.specs.Schedules.{kept_events};
ghost use Rattle.acc_script.specs.Scripts.{view_of_script, script_of};

use crate::fault::{DriverFault, ReplayFault};
use crate::input::{read_text, split};
use crate::options::{Ended, Options};
use crate::program::{config_of, hosts_of, read_script};
use crate::remains::Remains;
use acc_core::{World, programs_stay};
use acc_host::{Event, HostProgram, any_refused};
use acc_report::{ReportFault, Run, ids_are_not_told, report_run};
use acc_schedule::{Schedule, ScheduleLine};
use acc_script::{ReadError, Script};
use indexmap::IndexSet;
use std::alloc::Global;
use std::io::{Read, Write};

/// The most bytes that are read of a script or a schedule: as many as it may have, and one more.
pub const TEXT_LIMIT: usize = 1_048_577;

/// The most calls of `read` in which it is read.
pub const TEXT_TURNS: u32 = 2_097_152;

/// The most bytes that are read of a text that holds a script and a schedule: both at their most, the line
/// between them, and one more.
pub const INPUT_LIMIT: usize = 2_097_156;

/// The most calls of `read` in which it is read.
pub const INPUT_TURNS: u32 = 4_194_304;

/// Reads a script and a schedule, each from a reader of its own, runs the schedule, and writes the report. The
/// schedule is read once the script is understood. What the run left is then put into `remains`.
///
/// # Errors
///
/// The first of: `Input` where the script's reader failed or gave its bytes in too many turns, `Script`, `Input` for the
/// schedule's reader, `Schedule`, `Runtime` where the options are refused, `Output` where the writer failed or took
/// nothing, which may have taken a beginning of the report; and `Memory` for want of memory. Nothing is written but for
/// `Output`.
pub fn replay<R: Read, S: Read, W: Write>(
    alloc: Global,
    script: &mut R,
    schedule: &mut S,
    options: Options,
    writer: &mut W,
    remains: &mut Remains,
) -> Result<Ended, DriverFault>
    ensures answers { IfSome (R.remaining script.old) (λ script.
        IfSome (S.remaining schedule.old) (λ schedule.
        Answers options (record { script = script; schedule = schedule }) (W.contents writer.old)
        (W.contents writer.new) result)) }
    ensures unread { IfErr result (λ f. IsOfScript f → schedule.new ≡ schedule.old) }
    ensures understood { IfSome (R.remaining script.old) (λ script. IsScript script
        ⊎ (schedule.new ≡ schedule.old)) }
    ensures run { AreUsable options → IsRun result }
{
    let text = match read_text(alloc, script, TEXT_LIMIT, TEXT_TURNS) {
        Ok(text) => text,
        Err(fault) => return Err(fault.of_reader()),
    };
    let script = match read_script(alloc, text.as_slice()) {
        Ok(script) => script,
        Err(fault) => return Err(fault.of_input()),
    };
    let schedule = match read_text(alloc, schedule, TEXT_LIMIT, TEXT_TURNS) {
        Ok(schedule) => schedule,
        Err(fault) => return Err(fault.of_reader()),
    };
    of_input(replay_script(alloc, script, schedule.as_slice(), options, writer, remains))
}

/// Reads a script and a schedule from one text, which is split at its first line that is exactly `%%`, runs
/// the schedule, and writes the report. What the run left is then put into `remains`.
///
/// # Errors
///
/// The first of: `Input` where the reader failed or gave its bytes in too many turns, `Script`, `Schedule`,
/// `Runtime` where the options are refused, `Output` where the writer failed or took nothing, which may have
/// taken a beginning of the report; and `Memory` for want of memory. Nothing is written but for `Output`.
pub fn replay_one<R: Read, W: Write>(
    alloc: Global,
    reader: &mut R,
    options: Options,
    writer: &mut W,
    remains: &mut Remains,
) -> Result<Ended, DriverFault>
    ensures answers { IfSome (R.remaining reader.old) (λ text.
        Answers options (parts text) (W.contents writer.old) (W.contents writer.new) result) }
    ensures run { AreUsable options → IsRun result }
{
    match read_text(alloc, reader, INPUT_LIMIT, INPUT_TURNS) {
        Ok(text) => {
            let (script, schedule) = split(text.as_slice());
            of_input(replay_texts(alloc, script, schedule, options, writer, remains))
        }
        Err(fault) => Err(fault.of_reader()),
    }
}

// The same answer, to the input that the texts were read from.
pub(crate) fn of_input(answer: Result<Ended, ReplayFault>) -> Result<Ended, DriverFault>
    ensures { result ≡ of_input answer }
{
    match answer {
        Ok(ended) => Ok(ended),
        Err(fault) => Err(fault.of_input()),
    }
}

/// Runs a schedule on a script, and writes the report: the same for the two texts, already read. What the run left is then
/// put into `remains`.
///
/// # Errors
///
/// The first of: `Script`, `Schedule`, `Runtime` where the options are refused, `Output` where the writer failed or took
/// nothing, which may have taken a beginning of the report; and `Memory` for want of memory. Nothing is written but for
/// `Output`.
pub fn replay_texts<W: Write>(
    alloc: Global,
    script: &[u8],
    schedule: &[u8],
    options: Options,
    writer: &mut W,
    remains: &mut Remains,
) -> Result<Ended, ReplayFault>
    ensures answers { Answers options (record { script = script.now; schedule = schedule.now })
        (W.contents writer.old) (W.contents writer.new) (of_input result) }
    ensures run { AreUsable options → IsRun (of_input result) }
{
    match read_script(alloc, script) {
        Ok(script) => replay_script(alloc, script, schedule, options, writer, remains),
        Err(fault) => Err(fault),
    }
}

// Runs a schedule on what a script says, writes the report, and hands out what the run left.
fn replay_script<W: Write>(
    alloc: Global,
    script: Script,
    schedule: &[u8],
    options: Options,
    writer: &mut W,
    remains: &mut Remains,
) -> Result<Ended, ReplayFault>
    requires declared { IsDeclared
        (record { names = texts script.names.keys; cells = rows script.arrays.items }) }
    requires numbered { AreNumbered 0 script.programs.items }
    requires few { length script.programs.items ≤ MAX_HOSTS }
    ensures answers { ScheduleAnswers options (view_of_script script.entry) schedule.now
        (W.contents writer.old) (W.contents writer.new) (of_input result) }
    ensures run { AreUsable options → IsRun (of_input result) }
{
    let hosts = hosts_of(&script.programs);
    match Schedule::read(alloc, schedule, hosts, options.devices) {
        Ok(schedule) => run(alloc, script, &schedule, options, writer, remains),
        Err(ReadError::Memory) => Err(ReplayFault::Memory),
        Err(ReadError::Fault(fault)) => Err(ReplayFault::Schedule(fault)),
    }
}

// Runs events on what a script says, writes the report, and hands out what the run left.
fn run<W: Write>(
    alloc: Global,
    script: Script,
    schedule: &Schedule,
    options: Options,
    writer: &mut W,
    remains: &mut Remains,
) -> Result<Ended, ReplayFault>
    requires declared { IsDeclared
        (record { names = texts script.names.keys; cells = rows script.arrays.items }) }
    requires numbered { AreNumbered 0 script.programs.items }
    requires few { length script.programs.items ≤ MAX_HOSTS }
    ensures answers { RunAnswers options (view_of_script script.entry) schedule.now
        (W.contents writer.old) (W.contents writer.new) (of_input result) }
    ensures run { AreUsable options → IsRun (of_input result) }
{
    let Script {
        names,
        arrays,
        programs,
    } = script;
    programs_stay();
    let mut world = match new_world(alloc, arrays, programs, options) {
        Ok(world) => world,
        Err(fault) => return Err(fault),
    };
    run_schedule(schedule, &mut world);
    report_world(alloc, names, world, writer, remains)
}

// Writes the report of what a world has run, with these names of its arrays, and hands out what the run left.
pub(crate) fn report_world<W: Write>(
    alloc: Global,
    names: IndexSet<&[u8]>,
    world: World,
    writer: &mut W,
    remains: &mut Remains,
) -> Result<Ended, ReplayFault>
    ensures answers { ReportsWorld (texts names.entry.keys) world (W.contents writer.old)
        (W.contents writer.new) (of_input result) }
    ensures legal { IsLegalState world }
    ensures follow { AllFollow world 0 world.hosts }
{
    ids_are_not_told();
    let (place, work, hosts, programs) = world.into_parts();
    let left = Run {
        place: &place,
        works: work.log(),
        hosts: hosts.as_slice(),
        discarded: &[],
    };
    let script = Script {
        names,
        arrays: Vec::new(alloc),
        programs,
    };
    match report_run(alloc, &left, &script, writer) {
        Ok(()) => {
            let refused = any_refused(hosts.as_slice());
            *remains = Remains::of_replay(place, work, hosts, script.programs);
            Ok(Ended { refused })
        }
        Err(ReportFault::Write) => Err(ReplayFault::Output),
        Err(ReportFault::Memory) => Err(ReplayFault::Memory),
    }
}

// A world takes a step for each event of a schedule, in order.
fn run_schedule(schedule: &Schedule, world: &mut World)
    ensures { (replies : List Reply) × Runs world.old schedule.now replies world.new }
{
    let (round, lines) = schedule.lines();
    for line in lines {
        run_line(round, line, world);
    }
}

// The same for the events of one line. A turn in which nothing was possible isn't made again: the next would be the same.
fn run_line(round: &[Event], line: &ScheduleLine, world: &mut World)
    ensures { (replies : List Reply)
        × Runs world.old (kept_events round.now line.now) replies world.new }
{
    let turn = line.turn.events(round);
    for _ in 0..line.times {
        if !world.advance(turn) {
            return;
        }
    }
}

// The world of these arrays and programs, before the first event.
pub(crate) fn new_world(
    alloc: Global,
    arrays: Vec<Vec<i64>>,
    programs: Vec<HostProgram>,
    options: Options,
) -> Result<World, ReplayFault>
    requires few { length programs.items ≤ MAX_HOSTS }
    requires numbered { AreNumbered 0 programs.items }
    ensures opened { IfOk result (λ w.
        w ≡ first_state (configuration options.devices (length programs.items)
        (rows arrays.items) options.cells options.room) programs.items) }
    ensures refused { IfErr result (λ f.
        IsWorldFault
        (configuration options.devices (length programs.items)
        (rows arrays.items) options.cells options.room) (driver_fault f)) }
{
    let config = match config_of(alloc, options, &programs, arrays) {
        Ok(config) => config,
        Err(fault) => return Err(fault),
    };
    match World::new(alloc, config, programs) {
        Ok(world) => Ok(world),
        Err(_) => Err(ReplayFault::Memory),
    }
}
