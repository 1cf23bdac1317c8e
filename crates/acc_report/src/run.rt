//! The report of a run.

ghost use Rattle.std.specs.Prelude.{◌≡◌, ◌<◌, ◌≤◌, length, take, slice_index_or};
ghost use Rattle.acc_base.specs.Queues.{seat};
ghost use Rattle.acc_base.specs.declared.config.TheConstants.{MAX_HOSTS};
ghost use Rattle.acc_batch.specs.Labels.{on_queue, ops_of};
ghost use Rattle.acc_place.specs.Plans.{nth_batch, standing_in};
ghost use Rattle.acc_report.specs.Totals.{plain_batches, plain_ops};
ghost use Rattle.acc_report.specs.Lines.{each_below};
ghost use Rattle.acc_report.specs.Puts.{ReportAnswers, Puts, sink};
ghost use Rattle.acc_report.specs.Reports.{IsLeft, ended_in, host_text, left_by, left_after, nth_host_text, report};
ghost use Rattle.acc_report.specs.inner.Counting.{IsCounted, plain_count};
ghost use Rattle.acc_report.specs.inner.Standing.{counted_queue_text, counted_text, present_text};
ghost use Rattle.acc_script.specs.Arrays.{texts};

use crate::bytes::{ReportFault, put, put_number};
use crate::counted::{Counted, count_run};
use crate::line::{put_presence, put_state, put_totals};
use crate::prints::put_lines;
use crate::remains::Run;
use crate::retold::retell;
use acc_base::{DeviceId, HostId, QUEUES, QueueAt, QueueId};
use acc_batch::OpLabel;
use acc_host::{HostProgram, HostState, Outcome, OwnEntries, Statement};
use acc_place::Place;
use acc_script::Script;
use std::alloc::Global;
use std::io::Write;

/// Writes the report of what a run of a script left, as `report_run` does. The place history is told once more for it.
///
/// # Errors
///
/// `Memory` where memory is refused; then nothing was written. `Write` where the writer failed or took nothing; a beginning of
/// the report was then written.
pub fn report<W: Write>(
    alloc: Global,
    outcome: &Outcome,
    script: &Script,
    writer: &mut W,
) -> Result<(), ReportFault>
    requires { IsLeft (left_by outcome.now) }
    ensures { ReportAnswers (W.contents writer.old) (W.contents writer.new) result
        (report (texts script.now.names.keys) script.now.programs.items (left_by outcome.now)) }
{
    let config = match outcome.config.try_clone() {
        Ok(config) => config,
        Err(_) => return Err(ReportFault::Memory),
    };
    let places = outcome.places.as_slice();
    let place = match retell(alloc, config, places, outcome.counts.as_slice()) {
        Ok(place) => place,
        Err(_) => return Err(ReportFault::Memory),
    };
    let run = Run {
        place: &place,
        works: &outcome.works,
        hosts: outcome.hosts.as_slice(),
        discarded: outcome.discarded.as_slice(),
    };
    report_run(alloc, &run, script, writer)
}

/// Writes the report of a run of a script: for each host what its ended statements printed and where it stands, then what is
/// present, then what each queue has performed and what of it was discarded, and `end`.
///
/// # Errors
///
/// `Memory` where memory is refused; then nothing was written. `Write` where the writer failed or took nothing; a beginning of
/// the report was then written.
pub fn report_run<W: Write>(
    alloc: Global,
    run: &Run,
    script: &Script,
    writer: &mut W,
) -> Result<(), ReportFault>
    requires { length run.now.hosts.now ≤ MAX_HOSTS }
    ensures { ReportAnswers (W.contents writer.old) (W.contents writer.new) result
        (report (texts script.now.names.keys) script.now.programs.items (left_after run.now)) }
{
    let counted = match count_run(alloc, run) {
        Ok(counted) => counted,
        Err(_) => return Err(ReportFault::Memory),
    };
    let mut failed = false;
    put_report(writer, &mut failed, run, script, &counted);
    if failed {
        Err(ReportFault::Write)
    } else {
        Ok(())
    }
}

// All lines, by the counts of each queue.
fn put_report<W: Write>(
    out: &mut W,
    failed: &mut bool,
    run: &Run,
    script: &Script,
    counted: &Counted,
)
    requires few { length run.now.hosts.now ≤ MAX_HOSTS }
    requires counted { IsCounted (left_after run.now) counted.now }
    ensures { Puts (sink (W.contents out.old) failed.old) (sink (W.contents out.new) failed.new)
        (report (texts script.now.names.keys) script.now.programs.items (left_after run.now)) }
{
    put_hosts(out, failed, run, script.programs.as_slice());
    put_presences(out, failed, script.names.as_slice(), run.place);
    put_queues(out, failed, run.place, counted);
    put(out, failed, b"end\n");
}

// The lines of each host.
fn put_hosts<W: Write>(out: &mut W, failed: &mut bool, run: &Run, programs: &[HostProgram])
    requires few { length run.now.hosts.now ≤ MAX_HOSTS }
    ensures { Puts (sink (W.contents out.old) failed.old) (sink (W.contents out.new) failed.new)
        (each_below (length run.now.hosts.now) (nth_host_text (left_after run.now) programs.now)) }
{
    let hosts = run.hosts.len() as u8;
    for host in 0..hosts {
        put_nth_host(out, failed, run, programs, host);
    }
}

// The lines of a host, if it is there.
fn put_nth_host<W: Write>(
    out: &mut W,
    failed: &mut bool,
    run: &Run,
    programs: &[HostProgram],
    host: u8,
)
    ensures { Puts (sink (W.contents out.old) failed.old) (sink (W.contents out.new) failed.new)
        (nth_host_text (left_after run.now) programs.now host) }
{
    if let Some(program) = programs.get(usize::from(host))
        && let Some(state) = run.hosts.get(usize::from(host))
    {
        put_host(out, failed, run, host, program, *state);
    }
}

// A host's number, what it printed, and where it stands.
fn put_host<W: Write>(
    out: &mut W,
    failed: &mut bool,
    run: &Run,
    host: u8,
    program: &HostProgram,
    state: HostState,
)
    ensures { Puts (sink (W.contents out.old) failed.old) (sink (W.contents out.new) failed.new)
        (host_text (left_after run.now) host program.now state) }
{
    put(out, failed, b"host ");
    put_number(out, failed, host);
    put(out, failed, b"\n");
    let devices = run.place.config().devices();
    let ended = ended_of(program.statements.as_slice(), state);
    let mut entries = OwnEntries::new(run.place, run.works, HostId::new(host));
    put_lines(out, failed, devices, ended, &mut entries);
    put_state(out, failed, state);
}

// The statements that a host has ended.
fn ended_of(statements: &[Statement], state: HostState) -> &[Statement]
    ensures { result.now ≡ ended_in state statements.now }
{
    match state {
        HostState::Finished => statements,
        HostState::Running { ended } | HostState::Refused { ended, .. } => first_of(
            statements, ended,
        ),
    }
}

// The first statements, or all where there are fewer.
fn first_of(statements: &[Statement], count: usize) -> &[Statement]
    ensures { result.now ≡ take count statements.now }
{
    if statements.len() <= count {
        return statements;
    }
    let (first, _) = statements.split_at(count);
    first
}

// What is present on each device.
fn put_presences<W: Write>(out: &mut W, failed: &mut bool, names: &[&[u8]], place: &Place)
    ensures { Puts (sink (W.contents out.old) failed.old) (sink (W.contents out.new) failed.new)
        (each_below place.now.config.devices
        (present_text (texts names.now) (standing_in place.now))) }
{
    for device in 0..place.config().devices() {
        put_device(out, failed, names, place, DeviceId::new(device));
    }
}

// What is present on a device.
fn put_device<W: Write>(
    out: &mut W,
    failed: &mut bool,
    names: &[&[u8]],
    place: &Place,
    device: DeviceId,
)
    requires { device < place.now.config.devices }
    ensures { Puts (sink (W.contents out.old) failed.old) (sink (W.contents out.new) failed.new)
        (present_text (texts names.now) (standing_in place.now) device) }
{
    for entry in place.entries(device) {
        put_presence(out, failed, names, device, entry);
    }
}

// What each queue has performed, and what of it was discarded, by these counts.
fn put_queues<W: Write>(out: &mut W, failed: &mut bool, place: &Place, counted: &Counted)
    ensures { Puts (sink (W.contents out.old) failed.old) (sink (W.contents out.new) failed.new)
        (each_below place.now.config.devices (counted_text (standing_in place.now) counted.now)) }
{
    for device in 0..place.config().devices() {
        put_queues_of(out, failed, place, counted, DeviceId::new(device));
    }
}

fn put_queues_of<W: Write>(
    out: &mut W,
    failed: &mut bool,
    place: &Place,
    counted: &Counted,
    device: DeviceId,
)
    ensures { Puts (sink (W.contents out.old) failed.old) (sink (W.contents out.new) failed.new)
        (counted_text (standing_in place.now) counted.now device) }
{
    for queue in 0..QUEUES {
        let queue = QueueId::new(queue);
        put_queue(out, failed, place, counted, QueueAt { device, queue });
    }
}

fn put_queue<W: Write>(
    out: &mut W,
    failed: &mut bool,
    place: &Place,
    counted: &Counted,
    at: QueueAt,
)
    ensures { Puts (sink (W.contents out.old) failed.old) (sink (W.contents out.new) failed.new)
        (counted_queue_text (standing_in place.now) counted.now at) }
{
    let QueueAt { device, queue } = at;
    let (batches, operations) = placed_on(place, QueueAt { device, queue });
    let performed = count_at(counted.performed.as_slice(), &at);
    let discarded = count_at(counted.discarded.as_slice(), &at);
    put_totals(out, failed, &at, batches, performed, operations, discarded);
}

// The count of a queue, or 0 where there is none.
fn count_at(counts: &[u64], at: &QueueAt) -> u64
    ensures { result ≡ slice_index_or counts.now (seat at.now) 0 }
{
    match counts.get(at.seat()) {
        Some(count) => *count,
        None => 0,
    }
}

// How many batches of directives were placed on a queue, and how many operations they have.
fn placed_on(place: &Place, at: QueueAt) -> (u64, u128)
    ensures batches { result.0 ≡ length (plain_batches (on_queue at
        (standing_in place.now).labels)) }
    ensures operations { result.1 ≡ length (plain_ops (ops_of (on_queue at
        (standing_in place.now).labels))) }
{
    let QueueAt { device, queue } = at;
    let mut batches = 0u64;
    let mut operations = 0u128;
    for index in 0..place.placed_count(QueueAt { device, queue }) {
        let count = plain_count(place, QueueAt { device, queue }, index + 1);
        if count > 0 {
            batches += 1;
        }
        operations += count as u128;
    }
    (batches, operations)
}

// How many operations the batch with this number has, but for closes.
fn plain_count(place: &Place, at: QueueAt, number: u64) -> usize
    ensures { result ≡ plain_count (nth_batch (on_queue at (standing_in place.now).labels) number) }
{
    match place.placed(at, number) {
        Some(label) => plain_ops(label.ops.get().as_slice()),
        None => 0,
    }
}

/// How many operations these are, but for closes.
pub fn plain_ops(ops: &[OpLabel]) -> usize
    ensures { result ≡ length (plain_ops ops.now) }
{
    ops.iter()
        .filter(|op| !matches!(op, OpLabel::Close))
        .count()
}
