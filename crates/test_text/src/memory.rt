//! Reading, replays, reports and runs in threads where memory is scarce, at each amount in turn: no clause says how much there is.

ghost use Rattle.std.specs.Prelude.{◌≤◌, length, IfOk};
ghost use Rattle.acc_base.specs.declared.config.TheConstants.{MAX_HOSTS};
ghost use Rattle.acc_host.specs.Hosts.{AreNumbered};
ghost use Rattle.acc_report.specs.Reports.{IsLeft, left_by};

use crate::answers::{Answer, ENDED, check_answer, check_bytes};
use crate::scripts::{DOUBLED, DOUBLED_REPORT, TWENTY_ROUNDS, TWO_HOSTS, TWO_HOSTS_REPORT};
use crate::threads::NOBODY;
use acc_base::{Config, Fault, MAX_CAPACITY};
use acc_core::World;
use acc_driver::{DriverFault, Ended, OpenGate, Options, Remains, replay, replay_one, run_script};
use acc_host::{Event, HostProgram, Outcome};
use acc_report::{ReportFault, report};
use acc_schedule::{Schedule, read_schedule};
use acc_script::{ReadError, Script, read};
use std::alloc::{AllocError, Global};
use std::process::Abort;
use std::sync::Wait;
use std::test::Fail;
use std::thread::Threads;
use tool_scarce::{Hoard, Purse, at_each_amount};

/// The queues are short, as those of a run by threads take their room.
const OPTIONS: Options = Options {
    room: 4,
    ..Options::DEFAULT
};

/// Scripts, each with its report after twenty rounds.
const SCRIPTS: &[(&[u8], &[u8])] = &[(DOUBLED, DOUBLED_REPORT), (TWO_HOSTS, TWO_HOSTS_REPORT)];

// A fault of a text is `Unfinished` here.
fn fault_of(error: ReadError) -> Fault {
    match error {
        ReadError::Memory => Fault::Memory,
        ReadError::Fault(_) => Fault::Unfinished,
    }
}

// What a script says.
fn script_of<'a>(alloc: Global, text: &'a [u8]) -> Result<Script<'a>, Fault>
    ensures numbered { IfOk result (λ s. AreNumbered 0 s.programs.items) }
    ensures few { IfOk result (λ s. length s.programs.items ≤ MAX_HOSTS) }
{
    match read(alloc, text) {
        Ok(script) => Ok(script),
        Err(error) => Err(fault_of(error)),
    }
}

fn schedule_of(alloc: Global, text: &[u8], hosts: u8) -> Result<Schedule, Fault> {
    match Schedule::read(alloc, text, hosts, 1) {
        Ok(schedule) => Ok(schedule),
        Err(error) => Err(fault_of(error)),
    }
}

// All events of a schedule.
fn events_of(alloc: Global, text: &[u8], hosts: u8) -> Result<Vec<Event>, Fault> {
    match read_schedule(alloc, text, hosts, 1) {
        Ok(events) => Ok(events),
        Err(error) => Err(fault_of(error)),
    }
}

// What a world leaves. It is boxed: a function that owns one itself takes five times as long to prove.
fn left_by_world(world: Box<World>) -> Outcome
    ensures { IsLeft (left_by result) }
{
    Box::into_inner(world).outcome()
}

// What twenty rounds of a script leave.
fn outcome_of(alloc: Global, script: Script) -> Result<Outcome, Fault>
    requires numbered { AreNumbered 0 script.programs.items }
    requires few { length script.programs.items ≤ MAX_HOSTS }
    ensures { IfOk result (λ o. IsLeft (left_by o)) }
{
    let hosts = script.programs.len() as u8;
    let events = events_of(alloc, TWENTY_ROUNDS, hosts)?;
    let config = Config::new(alloc, 1, hosts, script.arrays, MAX_CAPACITY, OPTIONS.room)?;
    let mut world = Box::new(alloc, World::new(alloc, config, script.programs)?)?;
    world.advance(events.as_slice());
    Ok(left_by_world(world))
}

// Reports what a script left. It is want of memory only where nothing was written.
fn try_report(
    alloc: Global,
    outcome: &Outcome,
    script: &Script,
    written: &mut Vec<u8>,
) -> Result<(), Fault>
    requires { IsLeft (left_by outcome.now) }
{
    match report(alloc, outcome, script, written) {
        Ok(()) => Ok(()),
        Err(ReportFault::Memory) if written.is_empty() => Err(Fault::Memory),
        Err(_) => Err(Fault::Unfinished),
    }
}

// Two programs are of one host, and have as many statements, in the same lines.
fn check_programs(rt: &impl Abort, program: &HostProgram, other: &HostProgram) {
    let statements = program.statements.as_slice();
    let others = other.statements.as_slice();
    assert_eq!(rt;
        (program.host, statements.len()),
        (other.host, others.len())
    );
    for (statement, same) in statements.iter().zip(others.iter()) {
        assert_eq!(rt; statement.line, same.line);
    }
}

// Two scripts have the same names and values, and as many hosts, with such programs.
fn check_scripts(rt: &impl Abort, script: &Script, other: &Script) {
    assert_eq!(rt; script.names.as_slice(), other.names.as_slice());
    assert_eq!(rt; script.arrays.len(), other.arrays.len());
    for (array, same) in script.arrays.iter().zip(other.arrays.iter()) {
        assert_eq!(rt; array.as_slice(), same.as_slice());
    }
    assert_eq!(rt; script.programs.len(), other.programs.len());
    for (program, same) in script.programs.iter().zip(other.programs.iter()) {
        check_programs(rt, program, same);
    }
}

/// The script is then what it is where memory is ample.
#[test]
fn a_script_is_refused_until_there_is_memory(rt: HostRuntime) -> Result<(), Fail> {
    let alloc = rt.alloc();
    for (text, _) in SCRIPTS {
        let (refusals, script) = at_each_amount(alloc, || script_of(alloc, text))?;
        assert!(rt; 8 < refusals, "{refusals} refusals");
        let other = script_of(alloc, text)?;
        check_scripts(&rt, &script, &other);
    }
    Ok(())
}

/// Lines of each kind.
const LINES: &[u8] =
    b"host 1 2\ntake 0 5\n# a remark\ndo 0 sync 3\nhost 0\ntake 0 noval\ndo 0 noval\nclose\nround 7\nround 20\n";

/// The schedule's lines and all its events are then what they are where memory is ample.
#[test]
fn a_schedule_is_refused_until_there_is_memory(rt: HostRuntime) -> Result<(), Fail> {
    let alloc = rt.alloc();
    for text in [TWENTY_ROUNDS, LINES] {
        let other = schedule_of(alloc, text, 2)?;
        let (refusals, schedule) = at_each_amount(alloc, || schedule_of(alloc, text, 2))?;
        assert!(rt; 8 < refusals, "{refusals} refusals");
        assert_eq!(rt; schedule.lines(), other.lines());
        let events = events_of(alloc, text, 2)?;
        let (more, listed) = at_each_amount(alloc, || events_of(alloc, text, 2))?;
        assert!(rt; refusals < more, "{more} refusals");
        assert_eq!(rt; listed.as_slice(), events.as_slice());
    }
    Ok(())
}

#[test]
fn a_report_is_refused_until_there_is_memory(rt: HostRuntime) -> Result<(), Fail> {
    let alloc = rt.alloc();
    for (text, wanted) in SCRIPTS {
        let outcome = outcome_of(alloc, script_of(alloc, text)?)?;
        let script = script_of(alloc, text)?;
        let mut written = Vec::with_capacity(alloc, 4_096)?;
        let (refusals, ()) = at_each_amount(
            alloc,
            ||
                requires { IsLeft (left_by outcome) }
            { try_report(alloc, &outcome, &script, &mut written) },
        )?;
        assert!(rt; 8 < refusals, "{refusals} refusals");
        check_bytes(&rt, written.as_slice(), wanted);
    }
    Ok(())
}

/// How often nothing was written for want of memory, how often a report told that a host was refused it, and how often
/// that was the one looked for; and what was answered at last.
#[derive(Clone, Copy)]
struct Tried {
    silent: u32,
    hosts_refused: u32,
    looked_for: u32,
    answer: Answer,
}

// Whether a report tells that a host was refused memory.
fn tells_of_memory(report: &[u8]) -> bool {
    report
        .windows(10)
        .any(|bytes| bytes == b"F11 Memory".as_slice())
}

impl Tried {
    // Nothing was tried yet.
    fn nothing() -> Tried {
        Tried {
            silent: 0,
            hosts_refused: 0,
            looked_for: 0,
            answer: Err(DriverFault::Memory),
        }
    }

    // Notes an answer, and whether it tells of want of memory. What is written then goes.
    fn notes(&mut self, answer: Answer, looked_for: &[u8], written: &mut Vec<u8>) -> bool {
        self.answer = answer;
        match answer {
            Err(DriverFault::Memory) if written.is_empty() => {
                self.silent = self.silent.saturating_add(1);
                true
            }
            Ok(Ended { refused: true }) if tells_of_memory(written.as_slice()) => {
                self.hosts_refused = self.hosts_refused.saturating_add(1);
                if written.as_slice() == looked_for {
                    self.looked_for = self.looked_for.saturating_add(1);
                }
                written.clear();
                true
            }
            _ => false,
        }
    }
}

// Makes a run with each amount of memory, until it is answered otherwise than by want of that.
fn try_amounts<F: FnMut(&mut Vec<u8>) -> Answer>(
    alloc: Global,
    looked_for: &[u8],
    written: &mut Vec<u8>,
    mut call: F,
) -> Result<Tried, AllocError>
    requires { F.IsAlwaysCallable call }
{
    let mut purse = Purse::new(alloc)?;
    let mut hoard = Hoard::new(alloc)?;
    let mut tried = Tried::nothing();
    hoard.fill(alloc);
    for _ in 0..Purse::GIFTS {
        let answer = call(written);
        if !tried.notes(answer, looked_for, written) || !purse.give() {
            break;
        }
    }
    hoard.free();
    Ok(tried)
}

// A run was refused memory often, and then had its report.
fn check_tried(rt: &impl Abort, tried: Tried, written: &[u8], wanted: &[u8]) {
    check_answer(rt, tried.answer, ENDED);
    check_bytes(rt, written, wanted);
    assert!(rt; 8 < tried.silent, "{} times silent", tried.silent);
}

// Replays a script under twenty rounds.
fn replay_script(alloc: Global, script: &[u8], written: &mut Vec<u8>) -> Answer {
    let mut script = script;
    let mut schedule = TWENTY_ROUNDS;
    let mut remains = Remains::nothing();
    replay(
        alloc,
        &mut script,
        &mut schedule,
        OPTIONS,
        written,
        &mut remains,
    )
}

/// With each amount of memory from none on: first the answer is want of memory, and nothing is written; then the run may be
/// reported with a host that was refused F11; at last there is enough.
#[test]
fn memory_is_refused_at_each_amount(rt: HostRuntime) -> Result<(), Fail> {
    let alloc = rt.alloc();
    for (script, wanted) in SCRIPTS {
        let mut written = Vec::with_capacity(alloc, 4_096)?;
        let tried = try_amounts(alloc, b"", &mut written, |written| {
            replay_script(alloc, script, written)
        })?;
        check_tried(&rt, tried, written.as_slice(), wanted);
    }
    Ok(())
}

/// The block of the first host takes more memory than reading the texts leaves free, so that it can be wanting at the directive
/// alone.
const LARGE_AND_SMALL: &[u8] =
    b"long a[2400];\nlong b[2];\nhost {\n#pragma acc enter data copyin(a) async(1)\n}\nhost {\n#pragma acc enter data copyin(b) async(2)\n}\n%%\nround 20\n";

const LARGE_AND_SMALL_REPORT: &[u8] =
    b"host 0\ndone\nhost 1\ndone\npresent 0 a[0:2400] s 0 d 1\npresent 0 b[0:2] s 0 d 1\nqueue 0 1 batches 1 operations 2 of 2\nqueue 0 2 batches 1 operations 2 of 2\nend\n";

const SMALL_ALONE: &[u8] =
    b"host 0\nrefused 4 F11 Memory\nhost 1\ndone\npresent 0 b[0:2] s 0 d 1\nqueue 0 2 batches 1 operations 2 of 2\nend\n";

// With each amount of memory an input is replayed until it has its report, and this one came up before.
fn check_one_refused(
    rt: &impl Abort,
    alloc: Global,
    input: &[u8],
    looked_for: &[u8],
    wanted: &[u8],
) -> Result<(), AllocError> {
    let mut written = Vec::with_capacity(alloc, 16_384)?;
    let tried = try_amounts(alloc, looked_for, &mut written, |written| {
        let mut input = input;
        replay_one(alloc, &mut input, OPTIONS, written, &mut Remains::nothing())
    })?;
    check_tried(rt, tried, written.as_slice(), wanted);
    assert!(rt; 0 < tried.looked_for);
    Ok(())
}

/// A directive that is refused memory stops its host alone.
#[test]
fn a_directive_is_refused_memory_and_the_other_host_goes_on(rt: HostRuntime) -> Result<(), Fail> {
    check_one_refused(
        &rt,
        rt.alloc(),
        LARGE_AND_SMALL,
        SMALL_ALONE,
        LARGE_AND_SMALL_REPORT,
    )?;
    Ok(())
}

/// The same of prints.
const TWO_PRINTS: &[u8] =
    b"long a[3000];\nlong b[2];\nhost {\nprint(a);\n}\nhost {\nprint(b);\n}\n%%\nround 20\n";

const SMALL_PRINT_ALONE: &[u8] = b"host 0\nrefused 4 F11 Memory\nhost 1\n0 0\ndone\nend\n";

fn two_prints_report(alloc: Global) -> Result<Vec<u8>, AllocError> {
    let mut report = Vec::from_slice(alloc, b"host 0\n0")?;
    for _ in 1..3_000u32 {
        report.extend_from_slice(b" 0")?;
    }
    report.extend_from_slice(b"\ndone\nhost 1\n0 0\ndone\nend\n")?;
    Ok(report)
}

/// So does a print.
#[test]
fn a_print_is_refused_memory_and_the_other_host_goes_on(rt: HostRuntime) -> Result<(), Fail> {
    let alloc = rt.alloc();
    let wanted = two_prints_report(alloc)?;
    check_one_refused(&rt, alloc, TWO_PRINTS, SMALL_PRINT_ALONE, wanted.as_slice())?;
    Ok(())
}

/// Blocks that are given back one at a time. A thread's stack takes several of them, and all threads of a run don't take all.
const BLOCKS: u32 = 1_000;

const BLOCK: usize = 1_000_000;

fn blocks(alloc: Global) -> Result<Vec<Vec<u8>>, AllocError> {
    let mut blocks = Vec::new(alloc);
    for _ in 0..BLOCKS {
        blocks.push(Vec::with_capacity(alloc, BLOCK)?)?;
    }
    Ok(blocks)
}

// Runs a script by threads with more and more blocks, and then with all memory, until it is answered otherwise than by want of
// that.
fn try_blocks<R: Threads + Wait + Sync>(
    rt: &R,
    alloc: Global,
    script: &[u8],
    written: &mut Vec<u8>,
) -> Result<Tried, AllocError> {
    let mut blocks = blocks(alloc)?;
    let mut hoard = Hoard::new(alloc)?;
    let mut tried = Tried::nothing();
    hoard.fill(alloc);
    for _ in 0..BLOCKS.wrapping_add(2) {
        let answer = run_text(rt, alloc, script, written);
        if !tried.notes(answer, b"", written) {
            break;
        }
        if blocks.pop().is_none() {
            hoard.free();
        }
    }
    hoard.free();
    Ok(tried)
}

fn run_text<R: Threads + Wait + Sync>(
    rt: &R,
    alloc: Global,
    script: &[u8],
    written: &mut Vec<u8>,
) -> Answer {
    let mut script = script;
    let mut remains = Remains::nothing();
    run_script(
        rt,
        alloc,
        &mut script,
        OPTIONS,
        &OpenGate,
        NOBODY,
        written,
        &mut remains,
    )
}

fn check_threads<R: Abort + Threads + Wait + Sync>(
    rt: &R,
    alloc: Global,
    script: &[u8],
    wanted: &[u8],
) -> Result<(), AllocError> {
    let mut written = Vec::with_capacity(alloc, 4_096)?;
    let tried = try_blocks(rt, alloc, script, &mut written)?;
    check_tried(rt, tried, written.as_slice(), wanted);
    Ok(())
}

/// Until each thread has its stack, the answer is want of memory, and nothing is written, or a host is reported that was refused
/// F11.
#[test]
fn threads_of_one_host_are_refused_until_there_is_memory(rt: HostRuntime) -> Result<(), Fail> {
    check_threads(&rt, rt.alloc(), DOUBLED, DOUBLED_REPORT)?;
    Ok(())
}

#[test]
fn threads_of_two_hosts_are_refused_until_there_is_memory(rt: HostRuntime) -> Result<(), Fail> {
    check_threads(&rt, rt.alloc(), TWO_HOSTS, TWO_HOSTS_REPORT)?;
    Ok(())
}

// Runs a script by threads where there is no memory at all.
fn run_without<R: Threads + Wait + Sync>(
    rt: &R,
    alloc: Global,
    script: &[u8],
    written: &mut Vec<u8>,
) -> Result<Answer, AllocError> {
    let mut hoard = Hoard::new(alloc)?;
    hoard.fill(alloc);
    let answer = run_text(rt, alloc, script, written);
    hoard.free();
    Ok(answer)
}

/// The same run goes through when there is memory again.
#[test]
fn a_run_without_memory_is_no_run(rt: HostRuntime) -> Result<(), Fail> {
    let alloc = rt.alloc();
    for (script, wanted) in SCRIPTS {
        let mut written = Vec::with_capacity(alloc, 4_096)?;
        let answer = run_without(&rt, alloc, script, &mut written)?;
        check_answer(&rt, answer, Err(DriverFault::Memory));
        check_bytes(&rt, written.as_slice(), b"");
        check_answer(&rt, run_text(&rt, alloc, script, &mut written), ENDED);
        check_bytes(&rt, written.as_slice(), wanted);
    }
    Ok(())
}
