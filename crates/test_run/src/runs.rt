//! Runs of eight hosts on four devices: each host comes back finished, its token lists what its program says, and what is left agrees with
//! it.

ghost use Rattle.std.specs.Prelude.{◌≡◌, IfOk, length, map};
ghost use Rattle.acc_host.specs.Hosts.{AreNumbered, ready};
ghost use Rattle.acc_run.specs.Running.{Paired};

use crate::finish::finish_later;
use crate::fixtures::{Open, TURNS, config_of, directive_with, entries, have_come, queue, whole};
use acc_base::{Config, Fault, HostId, Listed, QUEUES, QueueAt};
use acc_host::{Act, Host, HostProgram, HostState, Statement, ready_hosts};
use acc_place::{Clause, Directive, Target, Waits};
use acc_run::laws::new_hosts_are_paired;
use acc_run::{Gate, HostToken, Runtime, TokenEntry};
use acc_work::ItemLabel;
use std::alloc::Global;
use std::sync::Wait;
use std::sync::atomic::{AtomicU64, Ordering};
use std::test::Fail;
use std::thread::Threads;
use tool_directives::{EXIT, Form, UPDATE, directive_of};
use tool_scarce::Hoard;

const DEVICES: u8 = 4;

/// Each host has an array of its own.
const HOSTS: u8 = 8;

/// How often a host does its statements: a thousand directives.
const ROUNDS: u32 = 250;

/// One round of a host: it writes a cell of its array, enters the array on a queue that the hosts of its device share, updates it on one of
/// its own (host 0 on the same), waits for both, lets go of it, and prints it.
pub(crate) fn push_round(
    alloc: Global,
    host: u8,
    statements: &mut Vec<Statement>,
) -> Result<(), Fault> {
    let shared = Target::Value { value: 0 };
    let own = Target::Value {
        value: i64::from(host),
    };
    let write = Act::Write {
        array: host,
        cell: 1,
        value: 7,
    };
    let print = Act::Print { range: whole(host) };
    let line = 0u32;
    statements.push(Statement { line, act: write })?;
    for directive in [
        directive_with(alloc, Form::EnterData, Clause::Copyin, host, shared)?,
        directive_with(alloc, UPDATE, Clause::UpdateSelf, host, own)?,
        directive_of(alloc, Form::Wait, &[], Target::Plain, Waits::All)?,
        directive_with(alloc, EXIT, Clause::Delete, host, shared)?,
    ] {
        let act = Act::Place { directive };
        statements.push(Statement { line, act })?;
    }
    statements.push(Statement { line, act: print })?;
    Ok(())
}

// A host's program: a device of its own choice, and its rounds.
fn program_of(alloc: Global, host: u8) -> Result<HostProgram, Fault>
    ensures { IfOk result (λ program. program.host ≡ host) }
{
    let mut statements = Vec::new(alloc);
    let act = Act::SetDevice {
        device: u32::from(host % DEVICES),
    };
    statements.push(Statement { line: 0, act })?;
    for _ in 0..ROUNDS {
        push_round(alloc, host, &mut statements)?;
    }
    Ok(HostProgram {
        host: HostId::new(host),
        statements: Listed::from_vec(statements),
    })
}

// The programs of so many hosts, in their order.
#[tactic(auto, using(crate::proofs::NumberedPrograms::one_more))]
fn programs_of(alloc: Global, hosts: u8) -> Result<Vec<HostProgram>, Fault>
    ensures numbered { IfOk result (λ programs. AreNumbered 0 programs.items) }
    ensures count { IfOk result (λ programs. length programs.items ≡ hosts) }
{
    let mut programs = Vec::new(alloc);
    for host in 0..hosts {
        programs.push(program_of(alloc, host)?)?;
    }
    Ok(programs)
}

/// How many directives a token lists, and how many writes and prints.
pub(crate) fn count_in(token: &HostToken) -> (u32, u32) {
    let mut directives = 0u32;
    let mut items = 0u32;
    for entry in token.entries() {
        match entry {
            TokenEntry::Placed { .. } => directives = directives.wrapping_add(1),
            TokenEntry::Item { label, .. } => match label {
                ItemLabel::Write { .. } | ItemLabel::Print { .. } => items = items.wrapping_add(1),
                ItemLabel::Seen { .. } | ItemLabel::Test { .. } => {}
            },
        }
    }
    (directives, items)
}

// Whether each host has finished.
fn are_finished(hosts: &[Host]) -> bool {
    hosts.iter().all(|host| host.state() == HostState::Finished)
}

// Whether each token lists its program's statements, each once.
fn list_all(tokens: &[HostToken]) -> bool {
    tokens
        .iter()
        .all(|token| count_in(token) == (4 * ROUNDS, 2 * ROUNDS))
}

/// A new runtime, with its hosts and their tokens.
pub(crate) fn opened(
    alloc: Global,
    config: &Config,
    programs: Vec<HostProgram>,
) -> Result<(Runtime, Vec<Host>, Vec<HostToken>), Fault>
    requires numbered { AreNumbered 0 programs.items }
    requires count { length programs.items ≡ config.now.hosts }
    ensures { IfOk result (λ r. Paired r.1.items r.2.items) }
{
    new_hosts_are_paired();
    let (runtime, tokens) = Runtime::new(alloc, config)?;
    let hosts = ready_hosts(alloc, programs)?;
    Ok((runtime, hosts, tokens))
}

/// Runs a new runtime's hosts.
pub(crate) fn run_programs<R: Threads + Wait + Sync, G: Gate + Sync>(
    rt: &R,
    alloc: Global,
    config: &Config,
    gate: &G,
    programs: Vec<HostProgram>,
) -> Result<(Runtime, Vec<Host>, Vec<HostToken>), Fault>
    requires numbered { AreNumbered 0 programs.items }
    requires count { length programs.items ≡ config.now.hosts }
{
    let (runtime, hosts, tokens) = opened(alloc, config, programs)?;
    match runtime.run(rt, alloc, gate, hosts, tokens) {
        Ok((hosts, tokens)) => Ok((runtime, hosts, tokens)),
        Err((fault, _, _)) => Err(fault),
    }
}

// Runs the hosts with room for so many batches, and tells whether each has finished, its token lists all, and so do the histories.
fn run_with<R: Threads + Wait + Sync, G: Gate + Sync>(
    rt: &R,
    alloc: Global,
    room: u32,
    gate: &G,
) -> Result<bool, Fault> {
    let config = config_of(alloc, DEVICES, HOSTS, room)?;
    let programs = programs_of(alloc, HOSTS)?;
    let (runtime, hosts, tokens) = run_programs(rt, alloc, &config, gate, programs)?;
    Ok(
        hosts.len() == usize::from(HOSTS)
            && are_finished(hosts.as_slice())
            && list_all(tokens.as_slice())
            && runtime.finish(tokens).is_ok(),
    )
}

#[test]
fn hosts_finish_on_queues_with_room_for_one_batch(rt: HostRuntime) -> Result<(), Fail> {
    assert!(rt; run_with(&rt, rt.alloc(), 1, &Open)?);
    Ok(())
}

#[test]
fn hosts_finish_on_queues_with_room_for_two_batches(rt: HostRuntime) -> Result<(), Fail> {
    assert!(rt; run_with(&rt, rt.alloc(), 2, &Open)?);
    Ok(())
}

#[test]
fn hosts_finish_on_queues_with_room_for_sixty_four_batches(rt: HostRuntime) -> Result<(), Fail> {
    assert!(rt; run_with(&rt, rt.alloc(), 64, &Open)?);
    Ok(())
}

/// A host goes on once all hosts stand here, or after many turns.
#[derive(Drop)]
pub(crate) struct Start {
    hosts: u8,
    turns: u32,
    here: AtomicU64,
    failed: AtomicU64,
}

impl Start {
    /// For so many hosts, each of which waits so many turns.
    pub(crate) fn new(hosts: u8, turns: u32) -> Start {
        Start {
            hosts,
            turns,
            here: AtomicU64::new(0),
            failed: AtomicU64::new(0),
        }
    }
}

impl Gate for Start {
    fn pass(&self, _at: QueueAt, _number: u64) -> bool {
        true
    }

    fn host(&self, _host: HostId) {
        self.here.fetch_add(1, Ordering::SeqCst);
        if !have_come(&self.here, u64::from(self.hosts), self.turns) {
            self.failed.fetch_add(1, Ordering::SeqCst);
        }
    }
}

// Whether all hosts stood at the gate at once, each once, and finished then.
fn start_together<R: Threads + Wait + Sync>(rt: &R, alloc: Global) -> Result<bool, Fault> {
    let gate = Start::new(HOSTS, TURNS);
    let all_finished = run_with(rt, alloc, 2, &gate)?;
    Ok(
        all_finished
            && gate.failed.load(Ordering::SeqCst) == 0
            && gate.here.load(Ordering::SeqCst) == u64::from(HOSTS),
    )
}

#[test]
fn all_hosts_stand_at_the_gate_at_once(rt: HostRuntime) -> Result<(), Fail> {
    assert!(rt; start_together(&rt, rt.alloc())?);
    Ok(())
}

// No batch of queue `0` passes.
#[derive(Drop)]
struct Barrier;

impl Gate for Barrier {
    fn pass(&self, at: QueueAt, _number: u64) -> bool {
        at != queue(2)
    }
}

/// One host, whose program is these directives.
pub(crate) fn one_host(alloc: Global, directives: Vec<Directive>) -> Result<Vec<HostProgram>, Fault>
    ensures numbered { IfOk result (λ programs. AreNumbered 0 programs.items) }
    ensures count { IfOk result (λ programs. length programs.items ≡ 1) }
{
    let mut statements = Vec::new(alloc);
    for directive in directives {
        let act = Act::Place { directive };
        statements.push(Statement { line: 0, act })?;
    }
    let mut programs = Vec::new(alloc);
    programs.push(HostProgram {
        host: HostId::new(0),
        statements: Listed::from_vec(statements),
    })?;
    Ok(programs)
}

/// An array is entered on the queue of the first value, and updated on those of the others.
pub(crate) fn updates_on(alloc: Global, values: &[i64]) -> Result<Vec<Directive>, Fault> {
    let mut directives = Vec::new(alloc);
    for value in values {
        let target = Target::Value { value: *value };
        let (form, clause) = if directives.is_empty() {
            (Form::EnterData, Clause::Create)
        } else {
            (UPDATE, Clause::UpdateSelf)
        };
        directives.push(directive_with(alloc, form, clause, 0, target)?)?;
    }
    Ok(directives)
}

// How many queues are without Close behind a run of two batches on queue `0`, which has room for one, and whose worker its gate stops.
fn left_open<R: Threads + Wait + Sync>(rt: &R, alloc: Global) -> Result<u32, Fault> {
    let config = config_of(alloc, 1, 1, 1)?;
    let programs = one_host(alloc, updates_on(alloc, &[0, 0])?)?;
    let (runtime, hosts, _) = run_programs(rt, alloc, &config, &Barrier, programs)?;
    if are_finished(hosts.as_slice()) {
        Ok(runtime.close(rt))
    } else {
        Err(Fault::Unfinished)
    }
}

#[test]
fn a_queue_whose_worker_ended_is_not_waited_for(rt: HostRuntime) -> Result<(), Fail> {
    assert!(rt; left_open(&rt, rt.alloc())? == 1);
    Ok(())
}

/// Whether a run that was called off has done nothing: hosts and tokens come back as they were, and the runtime is closed, performs no more
/// than its closes, and is finished.
pub(crate) fn has_done_nothing<R: Wait>(
    rt: &R,
    runtime: Runtime,
    hosts: &[Host],
    tokens: Vec<HostToken>,
) -> Result<bool, Fault> {
    let nothing = hosts
        .iter()
        .all(|host| host.state() == HostState::Running { ended: 0 })
        && tokens.iter().all(|token| token.entries().is_empty())
        && runtime.close(rt) == 0;
    let (at_once, outcome) = finish_later(rt, runtime, tokens)?;
    Ok(
        nothing
            && !at_once
            && outcome.places.len() == 1 + usize::from(QUEUES)
            && entries(&outcome.works) == usize::from(QUEUES),
    )
}

// Whether nothing has run where the workers are refused their threads.
fn is_called_off<R: Threads + Wait + Sync>(rt: &R, alloc: Global) -> Result<bool, Fault> {
    let config = config_of(alloc, 1, HOSTS, 64)?;
    let programs = programs_of(alloc, HOSTS)?;
    let (runtime, hosts, tokens) = opened(alloc, &config, programs)?;
    let mut hoard = Hoard::new(alloc)?;
    hoard.fill(alloc);
    let answer = runtime.run(rt, alloc, &Open, hosts, tokens);
    hoard.free();
    match answer {
        Ok(_) => Ok(false),
        Err((fault, hosts, tokens)) => Ok(
            fault == Fault::Memory && has_done_nothing(rt, runtime, hosts.as_slice(), tokens)?,
        ),
    }
}

#[test]
fn a_run_without_threads_is_called_off(rt: HostRuntime) -> Result<(), Fail> {
    assert!(rt; is_called_off(&rt, rt.alloc())?);
    Ok(())
}
