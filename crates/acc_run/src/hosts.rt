//! The hosts of a run, each in a thread of its own.

ghost use Rattle.std.specs.Prelude.{◌<◌, ◌≡◌, ◌∷◌, ◌++◌, [], vec_len, vec_capacity, IfSome, IfNone, IfOk, IfErr};
ghost use Rattle.acc_run.specs.Running.{CameBack, IsPaired, Paired, WentEach};

use crate::calling::go;
use crate::gate::Gate;
use crate::marks::Marks;
use crate::runtime::Runtime;
use crate::token::HostToken;
use acc_base::Fault;
use acc_host::{Host, hosts_follow};
use std::alloc::Global;
use std::snapshot::Snapshot;
use std::sync::Wait;
use std::thread::{Promise, PromisedHandle, Scope, Threads};

// What the thread of this host gives back.
#[derive(Drop)]
struct ComesBack {
    devices: u8,
    host: Snapshot<Host>,
    token: Snapshot<HostToken>,
}

impl Promise<(Host, HostToken)> for ComesBack {
    ghost use Rattle.acc_run.specs.Running.{CameBack};

    ghost kept_by = { λ p r. CameBack p.devices p.host.value p.token.value r.0 r.1 };
}

// The number of a token's host, by which it is marked.
fn mark_of(token: &HostToken) -> usize
    ensures { result < 64 }
{
    usize::from(token.host().number())
}

// A host that can't have a thread is refused at its first statement.
#[tactic(auto, using(crate::proofs::GoingHosts::barred_went))]
fn bar(runtime: &Runtime, host: Host, token: HostToken) -> (Host, HostToken)
    requires { IsPaired host token }
    ensures { CameBack runtime.now.config.devices host token result.0 result.1 }
{
    hosts_follow();
    let mut host = host;
    host.refuse(Fault::Memory);
    (host, token)
}

// What the thread of a host does. A host that is marked has none.
fn live<R: Wait, G: Gate>(
    alloc: Global,
    rt: &R,
    runtime: &Runtime,
    gate: &G,
    barred: &Marks,
    host: Host,
    token: HostToken,
) -> (Host, HostToken)
    requires { IsPaired host token }
    ensures { CameBack runtime.now.config.devices host token result.0 result.1 }
{
    if barred.has(mark_of(&token)) {
        return bar(runtime, host, token);
    }
    gate.host(token.host());
    go(alloc, runtime, rt, host, token)
}

// Takes the last host and its token.
fn last_pair(hosts: &mut Vec<Host>, tokens: &mut Vec<HostToken>) -> Option<(Host, HostToken)>
    requires { Paired hosts.old.items tokens.old.items }
    ensures pair { IfSome result (λ r. IsPaired r.0 r.1) }
    ensures others { IfSome result (λ r. Paired hosts.new.items tokens.new.items) }
    ensures hosts { IfSome result (λ r. hosts.old.items ≡ hosts.new.items ++ r.0 ∷ []) }
    ensures tokens { IfSome result (λ r. tokens.old.items ≡ tokens.new.items ++ r.1 ∷ []) }
    ensures none { IfNone result ((hosts.old.items ≡ []) × (tokens.old.items ≡ [])
        × (hosts.new.items ≡ []) × (tokens.new.items ≡ [])) }
    ensures room { (vec_capacity hosts.new ≡ vec_capacity hosts.old)
        × (vec_capacity tokens.new ≡ vec_capacity tokens.old) }
{
    let host = hosts.pop()?;
    match tokens.pop() {
        Some(token) => Some((host, token)),
        None => unreachable!(),
    }
}

// Starts a host in a thread of its own. A host that can't have one is barred, and comes back.
fn start_host<'s, E, R: Threads + Wait + Sync, G: Gate + Sync>(
    scope: &Scope<'s, E>,
    alloc: Global,
    rt: &'s R,
    runtime: &'s Runtime,
    gate: &'s G,
    barred: &'s Marks,
    host: Host,
    token: HostToken,
) -> Result<PromisedHandle<(Host, HostToken), ComesBack>, (Host, HostToken)>
    requires { IsPaired host token }
    ensures devices { IfOk result (λ thread. thread.promise.devices ≡ runtime.now.config.devices) }
    ensures host { IfOk result (λ thread. thread.promise.host.value ≡ host) }
    ensures token { IfOk result (λ thread. thread.promise.token.value ≡ token) }
    ensures barred { IfErr result (λ r. CameBack runtime.now.config.devices host token r.0 r.1) }
{
    let promise = ComesBack {
        devices: runtime.devices(),
        host: Snapshot::of(&host),
        token: Snapshot::of(&token),
    };
    let mark = mark_of(&token);
    match scope.spawn_with(promise, move || {
        live(alloc, rt, runtime, gate, barred, host, token)
    }) {
        Ok(thread) => Ok(thread),
        Err(refused) => {
            barred.set(mark);
            Err((refused.value)())
        }
    }
}

/// Starts these hosts, each in a thread of its own, and joins them.
pub(crate) fn run_hosts<'s, E, R: Threads + Wait + Sync, G: Gate + Sync>(
    scope: &Scope<'s, E>,
    alloc: Global,
    rt: &'s R,
    runtime: &'s Runtime,
    gate: &'s G,
    barred: &'s Marks,
    hosts: &mut Vec<Host>,
    tokens: &mut Vec<HostToken>,
)
    requires { Paired hosts.old.items tokens.old.items }
    ensures went { WentEach runtime.now.config.devices hosts.old.items tokens.old.items hosts.new.items tokens.new.items }
    ensures len { (vec_len hosts.new ≡ vec_len hosts.old)
        × (vec_len tokens.new ≡ vec_len tokens.old) }
    ensures room { (vec_capacity hosts.new ≡ vec_capacity hosts.old)
        × (vec_capacity tokens.new ≡ vec_capacity tokens.old) }
{
    let Some((host, token)) = last_pair(hosts, tokens) else {
        return;
    };
    let started = start_host(scope, alloc, rt, runtime, gate, barred, host, token);
    run_hosts(scope, alloc, rt, runtime, gate, barred, hosts, tokens);
    let (host, token) = match started {
        Ok(thread) => thread.join(rt),
        Err(back) => back,
    };
    hosts.push_reserved(host);
    tokens.push_reserved(token);
}
