//! The path from a script's bytes to its report, by threads, with the faults in their order.

ghost use Rattle.std.specs.Prelude.{◌≡◌, ◌≤◌, ◌⊎◌, IfOk, IfErr, IfSome, length, map};
ghost use Rattle.acc_base.specs.Faults.{OnlyMemory};
ghost use Rattle.acc_base.specs.Configurations.{rows};
ghost use Rattle.acc_base.specs.declared.config.TheConstants.{MAX_HOSTS};
ghost use Rattle.acc_base.specs.declared.fault.Fault.TheVariants.{HostsDiffer, Memory};
ghost use Rattle.acc_host.specs.Hosts.{AreNumbered, state_of};
ghost use Rattle.acc_host.specs.Legality.{Legal};
ghost use Rattle.acc_run.specs.Agreement.{Agree};
ghost use Rattle.acc_run.specs.Finishing.{HasCounts, histories_of};
ghost use Rattle.acc_report.specs.Reports.{left_by};
ghost use Rattle.acc_script.specs.Arrays.{IsDeclared, texts};
ghost use Rattle.acc_script.specs.Scripts.{view_of_script};
ghost use Rattle.acc_driver.specs.Replays.{AreUsable};
ghost use Rattle.acc_driver.specs.Runs.{AreAbandoned, AreFinished, IsConfigured, LeftByThreads, ProgramAnswers, ScriptAnswers};

use crate::fault::DriverFault;
use crate::input::read_text;
use crate::monitor::{Monitor, run_hosts};
use crate::options::{Ended, Options};
use crate::program::{config_of, read_script};
use crate::remains::Remains;
use crate::replays::{TEXT_LIMIT, TEXT_TURNS};
use acc_base::{Config, Fault, QueueAt};
use acc_host::{Host, HostProgram, HostState, Outcome, any_refused, copies_of, ready_hosts};
use acc_report::{ReportFault, report};
use acc_run::laws::{new_hosts_are_paired, tokens_follow};
use acc_run::{FinishRefused, Gate, HostToken, Runtime};
use acc_script::Script;
use std::alloc::Global;
use std::io::{Read, Write};
use std::sync::Wait;
use std::thread::Threads;

/// A gate that each batch passes.
#[derive(Drop)]
pub struct OpenGate;

impl Gate for OpenGate {
    fn pass(&self, _at: QueueAt, _number: u64) -> bool {
        true
    }
}

/// Reads a script, runs its hosts and its queues, each in a thread of its own, and writes the report. What two threads do at
/// once may come in either order, so the same script may be reported in another way the next time. Where the gate kept a queue from
/// its batches, what it hasn't performed is discarded, and reported so. A monitor, if there is one, is shown how far the run has come
/// while it runs. What the run left is then put into `remains`.
///
/// # Errors
///
/// The first of: `Input` where the reader failed or gave its bytes in too many turns; `Script`; `Runtime` where the options are
/// refused, with their fault, or with `HostsDiffer` where what hosts list differs from what was done; `Output` where the writer failed or took nothing, which may have taken a beginning of the report; and `Memory` for want of
/// memory, or of a thread for each queue. A host that gets no thread is refused `Memory`, and reported so. Nothing is written but
/// for `Output`.
pub fn run_script<R: Threads + Wait + Sync, S: Read, G: Gate + Sync, M: Monitor + Sync, W: Write>(
    rt: &R,
    alloc: Global,
    script: &mut S,
    options: Options,
    gate: &G,
    monitor: Option<&M>,
    writer: &mut W,
    remains: &mut Remains,
) -> Result<Ended, DriverFault>
    ensures answers { IfSome (S.remaining script.old) (λ script.
        ScriptAnswers options script (W.contents writer.old) (W.contents writer.new) result) }
    ensures configured { AreUsable options → IsConfigured result }
{
    let text = match read_text(alloc, script, TEXT_LIMIT, TEXT_TURNS) {
        Ok(text) => text,
        Err(fault) => return Err(fault.of_reader()),
    };
    match read_script(alloc, text.as_slice()) {
        Ok(script) => run(rt, alloc, script, options, gate, monitor, writer, remains),
        Err(fault) => Err(fault.of_input()),
    }
}

// Runs what a script says by threads, writes the report, and hands out what the run left.
fn run<R: Threads + Wait + Sync, G: Gate + Sync, M: Monitor + Sync, W: Write>(
    rt: &R,
    alloc: Global,
    script: Script,
    options: Options,
    gate: &G,
    monitor: Option<&M>,
    writer: &mut W,
    remains: &mut Remains,
) -> Result<Ended, DriverFault>
    requires declared { IsDeclared
        (record { names = texts script.names.keys; cells = rows script.arrays.items }) }
    requires numbered { AreNumbered 0 script.programs.items }
    requires few { length script.programs.items ≤ MAX_HOSTS }
    ensures answers { ProgramAnswers options (view_of_script script.entry) (W.contents writer.old)
        (W.contents writer.new) result }
    ensures configured { AreUsable options → IsConfigured result }
{
    let Script {
        names,
        arrays,
        programs,
    } = script;
    let copies = match copies_of(alloc, programs.as_slice()) {
        Ok(copies) => copies,
        Err(_) => return Err(DriverFault::Memory),
    };
    let config = match config_of(alloc, options, &programs, arrays) {
        Ok(config) => config,
        Err(fault) => return Err(fault.of_input()),
    };
    let outcome = match run_threads(rt, alloc, &config, programs, gate, monitor) {
        Ok(outcome) => outcome,
        Err(Fault::Memory) => return Err(DriverFault::Memory),
        Err(fault) => return Err(DriverFault::Runtime(fault)),
    };
    let script = Script {
        names,
        arrays: Vec::new(alloc),
        programs: copies,
    };
    match report(alloc, &outcome, &script, writer) {
        Ok(()) => {
            let refused = any_refused(outcome.hosts.as_slice());
            *remains = Remains::of_threads(outcome, script.programs);
            Ok(Ended { refused })
        }
        Err(ReportFault::Write) => Err(DriverFault::Output),
        Err(ReportFault::Memory) => Err(DriverFault::Memory),
    }
}

// Runs programs by threads to their end, and tells what they leave.
fn run_threads<R: Threads + Wait + Sync, G: Gate + Sync, M: Monitor + Sync>(
    rt: &R,
    alloc: Global,
    config: &Config,
    programs: Vec<HostProgram>,
    gate: &G,
    monitor: Option<&M>,
) -> Result<Outcome, Fault>
    requires numbered { AreNumbered 0 programs.items }
    requires count { length programs.items ≡ config.now.hosts }
    ensures left { IfOk result (λ o. LeftByThreads config.now programs.items (left_by o)) }
    ensures counted { IfOk result (λ o. HasCounts o) }
    ensures fault { IfErr result (λ f. (f ≡ HostsDiffer) ⊎ (f ≡ Memory)) }
{
    new_hosts_are_paired();
    tokens_follow();
    let (mut runtime, tokens) = Runtime::new(alloc, config)?;
    let hosts = ready_hosts(alloc, programs)?;
    let (hosts, tokens) = match run_hosts(rt, alloc, &mut runtime, gate, hosts, tokens, monitor) {
        Ok(back) => back,
        Err((fault, _, _)) => return Err(fault),
    };
    let states = states_of(alloc, hosts.as_slice())?;
    let mut outcome = end(alloc, runtime, tokens)?;
    outcome.hosts = states;
    Ok(outcome)
}

// What a run leaves whose threads have ended: it is finished, or else abandoned.
fn end(alloc: Global, runtime: Runtime, tokens: Vec<HostToken>) -> Result<Outcome, Fault>
    ensures config { IfOk result (λ o. o.config ≡ runtime.config) }
    ensures legal { IfOk result (λ o. Legal (histories_of o)) }
    ensures agree { IfOk result (λ o. Agree tokens.items (histories_of o)) }
    ensures queues { IfOk result (λ o. AreFinished (histories_of o) o.discarded.items
        ⊎ AreAbandoned (histories_of o) o.discarded.items) }
    ensures counted { IfOk result (λ o. HasCounts o) }
    ensures fault { IfErr result (λ f. (f ≡ HostsDiffer) ⊎ (f ≡ Memory)) }
{
    let refused = match runtime.finish(tokens) {
        Ok(outcome) => return Ok(outcome),
        Err(refused) => refused,
    };
    let FinishRefused {
        fault,
        runtime,
        tokens,
    } = refused;
    if fault != Fault::Unfinished {
        return Err(fault);
    }
    match runtime.abandon(alloc, tokens) {
        Ok(outcome) => Ok(outcome),
        Err(refused) => Err(refused.fault),
    }
}

// Where each host stands.
fn states_of(alloc: Global, hosts: &[Host]) -> Result<Vec<HostState>, Fault>
    ensures states { IfOk result (λ states. states.items ≡ map state_of hosts.now) }
    ensures fault { OnlyMemory result }
{
    let mut states = Vec::with_capacity(alloc, hosts.len())?;
    for host in hosts {
        states.push_reserved(host.state());
    }
    Ok(states)
}
