//! A host.

ghost use Rattle.std.specs.Prelude.{◌≡◌, ◌+◌, ◌<◌, ◌^◌, IfOk, drop, map, slice_get, Some};
ghost use Rattle.std.specs.Option.{option_map};
ghost use Rattle.acc_base.specs.Faults.{OnlyMemory};
ghost use Rattle.acc_host.specs.Following.{Stands};
ghost use Rattle.acc_host.specs.Engines.{Keeps};
ghost use Rattle.acc_host.specs.Hosts.{ready, bare, Steps, host_after, reply_to, state_of, line_of, refused_at, ended_after, ids_gone, phase_after};

use crate::engine::Engine;
use crate::program::{HostProgram, Statement};
use crate::state::{After, HostState, Ids, Phase, Reply};
use crate::turn::turn_at;
use acc_base::{DeviceId, Fault, HostId, Listed};
use acc_place::ASYNC_NOVAL;
use std::alloc::Global;
use std::marker::Model;

/// A host: a program, and where it stands.
#[derive(Drop)]
pub struct Host {
    host: HostId,
    statements: Vec<Statement>,
    ended: usize,
    ids: Ids,
    phase: Phase,
}

impl Model for Host {
    ghost use Rattle.std.specs.Coded.{codes};
    ghost use Rattle.std.specs.Prelude.{map, ◌≤◌, length};
    ghost use Rattle.acc_host.specs.Hosts.{HostView, bare, IsHost};
    ghost use Rattle.acc_kernel.specs.contracts.expr.Expr as expr;

    ghost Value = { HostView };

    ghost coded = { Prim.hlevel (codes, expr.the_row.coded) };

    ghost view = { λ a. record { host = a.host; statements = map bare a.statements.items; ended = a.ended; ids = a.ids; phase = a.phase } };

    ghost invariant = { λ a. IsHost (record { host = a.host; statements = map bare a.statements.items; ended = a.ended; ids = a.ids; phase = a.phase }) };
}

impl Host {
    /// Before its first statement. Takes no memory.
    pub fn new(program: HostProgram) -> Self
        ensures { result ≡ ready program }
    {
        let HostProgram { host, statements } = program;
        Host {
            host,
            statements: statements.into_vec(),
            ended: 0,
            ids: Ids {
                device: DeviceId::new(0),
                default: ASYNC_NOVAL,
            },
            phase: Phase::Ready,
        }
    }

    /// One step over an engine that serves it: at most one call of it.
    #[inline(never)]
    pub fn next<E: Engine>(&mut self, alloc: Global, engine: &mut E) -> Reply
        requires { E.serves engine.old self.old.host }
        ensures steps { Steps E.makes E.entries
            (E.devices engine.old) engine.old self.old result engine.new self.new }
        ensures follows { Stands (E.devices engine.old) self.old
            (E.entries engine.old self.old.host)
            → Stands (E.devices engine.new) self.new (E.entries engine.new self.new.host) }
        ensures keeps { Keeps E.devices E.serves E.entries self.old.host engine.old engine.new }
    {
        self.go_on(alloc, engine)
    }

    // The same, without the law on its list.
    fn go_on<E: Engine>(&mut self, alloc: Global, engine: &mut E) -> Reply
        requires { E.serves engine.old self.old.host }
        ensures steps { Steps E.makes E.entries
            (E.devices engine.old) engine.old self.old result engine.new self.new }
        ensures keeps { Keeps E.devices E.serves E.entries self.old.host engine.old engine.new }
    {
        if self.ended >= self.statements.len() {
            return Reply::Idle;
        }
        turn_at(
            engine,
            alloc,
            self.host,
            self.statements.as_mut_slice(),
            &mut self.ended,
            &mut self.ids,
            &mut self.phase,
        )
    }

    /// A running host is refused at its next statement; any other host stays as it is.
    pub fn refuse(&mut self, fault: Fault)
        ensures { self.new ≡ refused_at (state_of self.old) fault self.old }
    {
        if self.ended < self.statements.len() {
            match self.phase {
                Phase::Refused { .. } => {}
                _ => self.phase = Phase::Refused { fault },
            }
        }
    }

    /// Where it stands.
    pub fn state(&self) -> HostState
        ensures { result ≡ state_of self.now }
    {
        match self.phase {
            Phase::Ready if self.ended >= self.statements.len() => HostState::Finished,
            Phase::Refused { fault } => HostState::Refused {
                ended: self.ended,
                line: line_at(&self.statements, self.ended),
                fault,
            },
            _ => HostState::Running { ended: self.ended },
        }
    }

    /// The statement that it stands at; `None` where it has ended them all.
    pub fn statement(&self) -> Option<&Statement>
        ensures { option_map (λ s. bare s.now) result
            ≡ slice_get self.now.statements self.now.ended }
    {
        self.statements.get(self.ended)
    }

    /// The statements that it hasn't ended, in order.
    pub fn remaining(&self) -> &[Statement]
        ensures { map bare result.now ≡ drop self.now.ended self.now.statements }
    {
        if self.ended < self.statements.len() {
            &self.statements[self.ended..]
        } else {
            &[]
        }
    }

    /// How many statements it has ended.
    pub fn ended(&self) -> usize
        ensures { result ≡ self.now.ended }
    {
        self.ended
    }

    /// What it does next at that statement.
    pub fn phase(&self) -> &Phase
        ensures { result.now ≡ self.now.phase }
    {
        &self.phase
    }

    /// Its device and default async value.
    pub fn ids(&self) -> &Ids
        ensures { result.now ≡ self.now.ids }
    {
        &self.ids
    }

    /// Its program. A directive that it has come to has the ids that the host gave it. Takes no memory.
    pub fn into_program(self) -> HostProgram
        ensures host { result.host ≡ self.host }
        ensures statements { map bare result.statements ≡ self.statements }
    {
        let Host {
            host,
            statements,
            ..
        } = self;
        HostProgram {
            host,
            statements: Listed::from_vec(statements),
        }
    }
}

// The line of a statement, or 0.
fn line_at(statements: &[Statement], at: usize) -> u32
    ensures { result ≡ line_of (slice_get (map bare statements.now) at) }
{
    match statements.get(at) {
        Some(statement) => statement.line,
        None => 0,
    }
}

/// The hosts of these programs in their order, each before its first statement.
///
/// # Errors
///
/// `Memory` where memory is refused.
pub fn ready_hosts(alloc: Global, programs: Vec<HostProgram>) -> Result<Vec<Host>, Fault>
    ensures hosts { IfOk result (λ hosts. hosts.items ≡ map ready programs.items) }
    ensures fault { OnlyMemory result }
{
    let mut hosts = Vec::with_capacity(alloc, programs.len())?;
    for program in programs {
        hosts.push_reserved(Host::new(program));
    }
    Ok(hosts)
}
