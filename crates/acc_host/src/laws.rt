//! Laws over the definitions, as functions without a body.

ghost use Rattle.std.specs.Prelude.{ℕ, List, [], map, Result};
ghost use Rattle.acc_base.specs.declared.fault.Fault.{Fault};
ghost use Rattle.acc_host.specs.declared.program.HostProgram.{HostProgram};
ghost use Rattle.acc_host.specs.declared.program.Statement.{Statement};
ghost use Rattle.acc_host.specs.declared.state.After.{After};
ghost use Rattle.acc_host.specs.declared.state.HostState.{HostState};
ghost use Rattle.acc_host.specs.Engines.{HostEntry};
ghost use Rattle.acc_host.specs.worked.Hosts.{QuestionsAreAnswered, SynchronousIsSeen, DefaultStays};
ghost use Rattle.acc_host.specs.Following.{Stands, Follows};
ghost use Rattle.acc_host.specs.Hosts.{HostView, ready, state_of, refused_at, bare, Adds, wants, host_after};

/// A host's list follows its program wherever the host stands, whichever ids its directives are written with; and a host
/// stands so with an empty list at its start, behind each step, and where it is refused.
pub fn hosts_follow()
    ensures first { (devices : ℕ) (program : HostProgram) → Stands devices (ready program) [] }
    ensures steps { (devices : ℕ) (host : HostView) (goes : Result After Fault)
        (list longer : List HostEntry) → Adds (wants devices host) goes list longer
        → Stands devices host list → Stands devices (host_after goes host) longer }
    ensures refused { (devices : ℕ) (host : HostView) (list : List HostEntry) (fault : Fault)
        → Stands devices host list → Stands devices (refused_at (state_of host) fault host) list }
    ensures follow { (devices : ℕ) (host : HostView) (list : List HostEntry)
        → Stands devices host list → Follows devices host.statements (state_of host) list }
    ensures bare { (devices : ℕ) (statements : List Statement) (state : HostState)
        (list : List HostEntry) → Follows devices (map bare statements) state list
        → Follows devices statements state list }
{}

/// Three programs worked by hand: a host that asks, waits and is refused; a directive that is seen once its batch is
/// performed; and a default async value that stays.
pub fn worked_hosts()
    ensures questions { QuestionsAreAnswered }
    ensures synchronous { SynchronousIsSeen }
    ensures default { DefaultStays }
{}
