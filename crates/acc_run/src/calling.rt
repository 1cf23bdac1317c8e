//! A host in a thread of its own: its calls, and its steps until it stops.

ghost use Rattle.std.specs.Prelude.{◌≡◌, ◌++◌, ◌∷◌, [], ℕ, IfOk, IfErr, OnErr};
ghost use Rattle.acc_host.specs.Hosts.{ready};
ghost use Rattle.acc_host.specs.declared.program.HostProgram.{HostProgram};
ghost use Rattle.acc_run.specs.Calling.{IsNotFull, Went};
ghost use Rattle.acc_run.specs.Running.{CameBack};
ghost use Rattle.acc_run.specs.declared.token.TokenEntry.TheVariants as listed;

use crate::runtime::Runtime;
use crate::token::HostToken;
use acc_base::{DeviceId, Fault, HostId, QueueCounts};
use acc_host::{Engine, Host, HostState, hosts_follow};
use acc_place::{Directive, Placed};
use acc_work::{Item, Shown};
use std::alloc::Global;
use std::marker::Model;
use std::sync::Wait;

/// A runtime as one host calls it: each call is noted in the host's token.
#[derive(Drop)]
pub(crate) struct Calling<'a, R> {
    runtime: &'a Runtime,
    rt: &'a R,
    token: HostToken,
}

impl<'a, R> Model for Calling<'a, R> {
    ghost use Rattle.std.specs.Coded.{codes};
    ghost use Rattle.acc_kernel.specs.contracts.expr.Expr as expr;
    ghost use Rattle.acc_run.specs.Calling.{CallingView};

    ghost Value = { CallingView };

    ghost coded = { Prim.hlevel (codes, expr.the_row.coded) };

    ghost view = { λ c. record { devices = c.runtime.now.config.devices; host = c.token.host; entries = c.token.entries } };
}

impl<'a, R: Wait> Engine for Calling<'a, R> {
    ghost use Rattle.std.specs.Prelude.{◌≡◌};
    ghost use Rattle.acc_run.specs.Calling.{listed, IsCalled};

    ghost devices = { λ c. c.devices };

    ghost serves = { λ c host. c.host ≡ host };

    ghost entries = { listed };

    ghost makes = { λ old host call new. IsCalled old call new };

    fn place(&mut self, _host: HostId, directive: &Directive) -> Result<Placed, Fault> {
        place_again(self.runtime, self.rt, &mut self.token, directive)
    }

    fn wait_for(
        &mut self,
        _host: HostId,
        device: DeviceId,
        counts: QueueCounts,
    ) -> Result<bool, Fault> {
        self.runtime
            .wait_for(self.rt, &mut self.token, device, counts)?;
        Ok(true)
    }

    fn item(&mut self, _host: HostId, item: Item) -> Result<Shown, (Item, Fault)> {
        self.runtime.item(self.rt, &mut self.token, item)
    }

    fn ask(&self) -> u8 {
        self.runtime.devices()
    }
}

// Places a directive: once more where its queue is full, and then each time that the queue has taken a batch.
fn place_again<R: Wait>(
    runtime: &Runtime,
    rt: &R,
    token: &mut HostToken,
    directive: &Directive,
) -> Result<Placed, Fault>
    ensures host { token.new.host ≡ token.old.host }
    ensures noted { IfOk result (λ placed.
        token.new.entries ≡ token.old.entries ++ listed.Placed directive.now placed ∷ []) }
    ensures refused { OnErr result (token.new.entries ≡ token.old.entries) }
    ensures again { IfErr result IsNotFull }
{
    let mut heard = None;
    for _ in rt.forever() {
        match runtime.place(rt, token, directive) {
            Err(Fault::QueueFull) => {
                heard = runtime.await_room(rt, token.host(), directive, heard);
            }
            answer => return answer,
        }
    }
    unreachable!()
}

/// A host's steps over a runtime until it has stopped.
pub(crate) fn go<R: Wait>(
    alloc: Global,
    runtime: &Runtime,
    rt: &R,
    host: Host,
    token: HostToken,
) -> (Host, HostToken)
    requires token { token.host ≡ host.host }
    requires fresh { (program : HostProgram) × (host ≡ ready program) }
    ensures { CameBack runtime.now.config.devices host token result.0 result.1 }
{
    let mut host = host;
    let mut calling = Calling { runtime, rt, token };
    step_all(alloc, rt, &mut host, &mut calling);
    let Calling { token, .. } = calling;
    (host, token)
}

// Its steps over an engine.
fn step_all<R: Wait>(alloc: Global, rt: &R, host: &mut Host, calling: &mut Calling<R>)
    requires token { calling.old.host ≡ host.old.host }
    requires fresh { (program : HostProgram) × (host.old ≡ ready program) }
    ensures host { calling.new.host ≡ calling.old.host }
    ensures went { Went calling.old.devices host.old calling.old.entries host.new calling.new.entries }
{
    hosts_follow();
    for _ in rt.forever() {
        match host.state() {
            HostState::Running { .. } => {
                let _ = host.next(alloc, calling);
            }
            HostState::Finished | HostState::Refused { .. } => return,
        }
    }
    unreachable!()
}
