//! A whole run: a worker for each queue, a thread for each host, and the close behind them.

ghost use denote.Param.Send.{IsSync};
ghost use Rattle.std.specs.Prelude.{◌≡◌, IfOk, IfErr, MatchResult};
ghost use Rattle.acc_base.specs.declared.fault.Fault.TheVariants.{Memory};
ghost use Rattle.acc_run.specs.Running.{Paired, WentEach};

use crate::gate::Gate;
use crate::hosts::run_hosts;
use crate::marks::Marks;
use crate::runtime::Runtime;
use crate::token::HostToken;
use crate::workers::{Crew, close_all, start_workers};
use acc_base::Fault;
use acc_host::Host;
use std::alloc::Global;
use std::sync::Wait;
use std::thread;
use std::thread::{Scope, Threads};

impl Runtime {
    /// Runs hosts to their end, each in a thread of its own, while each queue has a worker in a thread of its own. Then closes, again
    /// until each queue is closed or its worker has ended, and joins all threads. A directive that a full queue refuses is tried
    /// again. A host whose thread can't be started is refused `Memory` at its first statement, if it has one.
    ///
    /// # Errors
    ///
    /// `Memory` where a worker can't be started: no host has run, and the runtime is closed. Hosts and tokens come back.
    pub fn run<R: Threads + Wait + Sync, G: Gate + Sync>(
        &self,
        rt: &R,
        alloc: Global,
        gate: &G,
        hosts: Vec<Host>,
        tokens: Vec<HostToken>,
    ) -> Result<(Vec<Host>, Vec<HostToken>), (Fault, Vec<Host>, Vec<HostToken>)>
        requires { Paired hosts.items tokens.items }
        ensures ran { IfOk result (λ r.
            WentEach self.now.config.devices hosts.items tokens.items r.0.items r.1.items) }
        ensures kept { IfErr result (λ r. (r.0 ≡ Memory) × (r.1 ≡ hosts) × (r.2 ≡ tokens)) }
    {
        let all = Crew::new();
        let none = Marks::new();
        let crew = &all;
        let barred = &none;
        let runtime = self;
        thread::scope(
            thread::scope_env(),
            rt,
            move |scope| -> Result<(Vec<Host>, Vec<HostToken>), (Fault, Vec<Host>, Vec<HostToken>)>
                requires { IsSync R.row × IsSync G.row × Paired hosts.items tokens.items }
                ensures { MatchResult result (λ r.
                    WentEach runtime.entry.now.config.devices hosts.items tokens.items r.0.items r.1.items)
                    (λ r. (r.0 ≡ Memory) × (r.1 ≡ hosts) × (r.2 ≡ tokens)) }
            { run_in(scope, alloc, rt, runtime, gate, crew, barred, hosts, tokens) },
        )
    }
}

// A run whose threads end with this scope.
fn run_in<'s, E, R: Threads + Wait + Sync, G: Gate + Sync>(
    scope: &Scope<'s, E>,
    alloc: Global,
    rt: &'s R,
    runtime: &'s Runtime,
    gate: &'s G,
    crew: &'s Crew,
    barred: &'s Marks,
    hosts: Vec<Host>,
    tokens: Vec<HostToken>,
) -> Result<(Vec<Host>, Vec<HostToken>), (Fault, Vec<Host>, Vec<HostToken>)>
    requires { Paired hosts.items tokens.items }
    ensures ran { IfOk result (λ r.
        WentEach runtime.now.config.devices hosts.items tokens.items r.0.items r.1.items) }
    ensures kept { IfErr result (λ r. (r.0 ≡ Memory) × (r.1 ≡ hosts) × (r.2 ≡ tokens)) }
{
    if !start_workers(scope, rt, runtime, gate, crew) {
        crew.call_off(runtime);
        let _ = runtime.close(rt);
        return Err((Fault::Memory, hosts, tokens));
    }
    crew.begin(runtime);
    let mut hosts = hosts;
    let mut tokens = tokens;
    run_hosts(
        scope,
        alloc,
        rt,
        runtime,
        gate,
        barred,
        &mut hosts,
        &mut tokens,
    );
    close_all(rt, runtime, crew);
    Ok((hosts, tokens))
}
