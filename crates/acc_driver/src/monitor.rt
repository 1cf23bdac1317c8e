//! Who is shown how far a run has come, while it runs.

ghost use denote.Param.Send.{IsSync};
ghost use Rattle.std.specs.Prelude.{◌≡◌, IfOk, IfErr, MatchResult};
ghost use Rattle.acc_base.specs.declared.fault.Fault.TheVariants.{Memory};
ghost use Rattle.acc_run.specs.Running.{Paired, WentEach};

use acc_base::Fault;
use acc_explore::Watcher;
use acc_host::Host;
use acc_queue::Reader;
use acc_run::{Gate, HostToken, Runtime};
use std::alloc::Global;
use std::sync::Wait;
use std::sync::atomic::{AtomicBool, Ordering};
use std::thread;
use std::thread::{Parker, Threads};
use std::time::Duration;

/// How long a monitor is left alone between two looks, in milliseconds.
const BETWEEN: u64 = 100;

/// Who is shown how far a run has come, while it runs.
pub trait Monitor {
    /// Called by a thread of its own, when the run begins and then again and again, ten times a second at most, with what tells how
    /// many batches each queue has performed.
    fn show(&self, reader: &mut Reader);

    /// Called once behind the last of these, before the report is written.
    fn end(&self);
}

/// A monitor that is there for nobody.
#[derive(Drop)]
pub struct NoMonitor;

impl Monitor for NoMonitor {
    fn show(&self, _reader: &mut Reader) {}

    fn end(&self) {}
}

impl Watcher for NoMonitor {
    fn found(&self, _states: u32) {}

    fn end(&self) {}
}

// Tells the thread of a monitor that the run is over.
#[derive(Drop)]
struct Bell {
    is_over: AtomicBool,
    parker: Parker,
}

impl Bell {
    fn new() -> Self {
        Bell {
            is_over: AtomicBool::new(false),
            parker: Parker::new(),
        }
    }

    fn ring(&self) {
        self.is_over.store(true, Ordering::SeqCst);
        self.parker.unpark();
    }

    // Waits until it rings, for a tenth of a second at most. Whether it has.
    fn wait<R: Wait>(&self, rt: &R) -> bool {
        self.parker.park_timeout(rt, Duration::from_millis(BETWEEN));
        self.is_over.load(Ordering::SeqCst)
    }
}

// Shows a monitor how far the run has come, until the bell rings.
fn watch<R: Wait, M: Monitor>(rt: &R, monitor: &M, mut reader: Reader, bell: &Bell) {
    for _ in rt.forever() {
        monitor.show(&mut reader);
        if bell.wait(rt) {
            monitor.end();
            return;
        }
    }
    unreachable!()
}

/// Runs hosts as `Runtime::run` does, while a monitor is shown how far they have come, if there is one, and a thread for it.
///
/// # Errors
///
/// Those of `Runtime::run`.
pub(crate) fn run_hosts<R: Threads + Wait + Sync, G: Gate + Sync, M: Monitor + Sync>(
    rt: &R,
    alloc: Global,
    runtime: &mut Runtime,
    gate: &G,
    hosts: Vec<Host>,
    tokens: Vec<HostToken>,
    monitor: Option<&M>,
) -> Result<(Vec<Host>, Vec<HostToken>), (Fault, Vec<Host>, Vec<HostToken>)>
    requires { Paired hosts.items tokens.items }
    ensures config { runtime.new.config ≡ runtime.old.config }
    ensures ran { IfOk result (λ r.
        WentEach runtime.old.config.devices hosts.items tokens.items r.0.items r.1.items) }
    ensures kept { IfErr result (λ r. (r.0 ≡ Memory) × (r.1 ≡ hosts) × (r.2 ≡ tokens)) }
{
    match (monitor, runtime.take_reader()) {
        (Some(monitor), Some(reader)) => {
            run_shown(rt, alloc, runtime, gate, hosts, tokens, monitor, reader)
        }
        _ => runtime.run(rt, alloc, gate, hosts, tokens),
    }
}

// Runs hosts while a monitor is shown how far they have come, by a thread of its own.
fn run_shown<R: Threads + Wait + Sync, G: Gate + Sync, M: Monitor + Sync>(
    rt: &R,
    alloc: Global,
    runtime: &Runtime,
    gate: &G,
    hosts: Vec<Host>,
    tokens: Vec<HostToken>,
    monitor: &M,
    reader: Reader,
) -> Result<(Vec<Host>, Vec<HostToken>), (Fault, Vec<Host>, Vec<HostToken>)>
    requires { Paired hosts.items tokens.items }
    ensures ran { IfOk result (λ r.
        WentEach runtime.now.config.devices hosts.items tokens.items r.0.items r.1.items) }
    ensures kept { IfErr result (λ r. (r.0 ≡ Memory) × (r.1 ≡ hosts) × (r.2 ≡ tokens)) }
{
    let own = Bell::new();
    let bell = &own;
    thread::scope(
        thread::scope_env(),
        rt,
        move |scope| -> Result<(Vec<Host>, Vec<HostToken>), (Fault, Vec<Host>, Vec<HostToken>)>
            requires { IsSync R.row × IsSync G.row × IsSync M.row
                × Paired hosts.items tokens.items }
            ensures { MatchResult result (λ r.
                WentEach runtime.entry.now.config.devices hosts.items tokens.items r.0.items r.1.items)
                (λ r. (r.0 ≡ Memory) × (r.1 ≡ hosts) × (r.2 ≡ tokens)) }
        {
            let _ = scope.spawn(move || watch(rt, monitor, reader, bell));
            let ran = runtime.run(rt, alloc, gate, hosts, tokens);
            bell.ring();
            ran
        },
    )
}
