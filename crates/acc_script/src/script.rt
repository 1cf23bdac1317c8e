//! The whole script.

ghost use Rattle.std.specs.Prelude.{◌≡◌, ◌+◌, ◌≤◌, ◌<◌, ◌∷◌, [], false, All, length, IfOk, OnOk, if◌then◌else◌, IfErr};
ghost use Rattle.acc_token.specs.declared.text.TheConstants.{MAX_TEXT};
ghost use Rattle.acc_token.specs.declared.read_fault.ReadError.TheVariants.{Memory};
ghost use Rattle.acc_base.specs.Configurations.{rows};
ghost use Rattle.acc_base.specs.declared.config.TheConstants.{MAX_HOSTS};
ghost use Rattle.acc_host.specs.Hosts.{AreNumbered};
ghost use Rattle.acc_script.specs.Arrays.{texts, IsDeclared};
ghost use Rattle.acc_token.specs.Faults.{Gives, Shortens};
ghost use Rattle.acc_script.specs.Scripts.{script_view, host_at, host_turn, script_at, script_of, view_of_script};
ghost use Rattle.acc_token.specs.Tokens.{spot};
ghost use Rattle.acc_token.specs.Turns.{turn, all_turns};

use crate::arrays::Arrays;
use crate::declaration::arrays_at;
use crate::statement::statements_at;
use acc_base::{HostId, Listed, MAX_HOSTS};
use acc_host::HostProgram;
use acc_token::{At, ReadError, ReadKind, check_length, exactly, expect, fault, token_at};
use indexmap::IndexSet;
use std::alloc::Global;

/// What a script says: the names of its arrays, which lie in its text, their initial values, and what each
/// host does.
#[derive(Drop)]
pub struct Script<'a> {
    pub names: IndexSet<&'a [u8]>,
    pub arrays: Vec<Vec<i64>>,
    pub programs: Vec<HostProgram>,
}

// The part of a host behind its word.
#[tactic(auto, unfolding(crate::specs::Scripts::host_at))]
fn host_at<'a>(
    alloc: Global,
    arrays: &Arrays,
    host: u8,
    at: At<'a>,
) -> Result<(HostProgram, At<'a>), ReadError>
    ensures found { Gives (λ x. (x.0, spot x.1)) result (host_at arrays.now host (spot at.entry)) }
    ensures number { IfOk result (λ x. x.0.host ≡ host) }
    ensures shorter { Shortens at.entry result }
{
    let at = expect(at, false, b"{")?;
    let mut statements = Vec::new(alloc);
    let at = statements_at(alloc, arrays, &mut statements, at)?;
    let program = HostProgram {
        host: HostId::new(host),
        statements: Listed::from_vec(statements),
    };
    Ok((program, at))
}

// The part of a host, unless the text ends here.
#[tactic(auto, using(crate::proofs::Numbered::one_more_host), unfolding(crate::specs::Scripts::host_turn))]
fn host_turn<'a>(
    alloc: Global,
    arrays: &Arrays,
    programs: &mut Vec<HostProgram>,
    at: At<'a>,
) -> Result<(bool, At<'a>), ReadError>
    requires numbered { AreNumbered 0 programs.old.items }
    requires few { length programs.old.items ≤ MAX_HOSTS }
    ensures found { Gives (λ x. turn x.0 programs.new.items (spot x.1)) result
        (host_turn arrays.now programs.old.items (spot at.entry)) }
    ensures numbered { OnOk result (AreNumbered 0 programs.new.items) }
    ensures few { OnOk result (length programs.new.items ≤ MAX_HOSTS) }
    ensures room { IfErr result (λ error. error ≡ Memory → length programs.old.items < MAX_HOSTS) }
    ensures shorter { IfOk result (λ x.
        (if x.0 then 1 else 0) + length x.1.bytes.now ≤ length at.entry.bytes.now) }
{
    let t = token_at(at, false)?;
    if t.text.is_empty() {
        return Ok((false, t.after));
    }
    let at = exactly(t, b"host")?;
    let host = programs.len() as u8;
    if MAX_HOSTS <= host {
        return Err(fault(t.line, ReadKind::Limit).into());
    }
    let (program, at) = host_at(alloc, arrays, host, at)?;
    programs.push(program)?;
    Ok((true, at))
}

// The parts of all hosts, up to the end of the text.
#[tactic(auto, using(acc_token::proofs::Turns::goes_on, acc_token::proofs::Turns::ends, acc_token::proofs::Turns::fails_too))]
fn hosts_at<'a>(
    alloc: Global,
    arrays: &Arrays,
    programs: &mut Vec<HostProgram>,
    at: At<'a>,
) -> Result<At<'a>, ReadError>
    requires numbered { AreNumbered 0 programs.old.items }
    requires few { length programs.old.items ≤ MAX_HOSTS }
    ensures found { Gives (λ a. turn false programs.new.items (spot a)) result
        (all_turns (host_turn arrays.now) programs.old.items (spot at.entry)) }
    ensures numbered { OnOk result (AreNumbered 0 programs.new.items) }
    ensures few { OnOk result (length programs.new.items ≤ MAX_HOSTS) }
{
    let turns = at.bytes.len() + 1;
    let mut here = at;
    for _ in 0..turns {
        let (more, after) = host_turn(alloc, arrays, programs, here)?;
        here = after;
        if !more {
            return Ok(here);
        }
    }
    unreachable!()
}

// The arrays and the parts of the hosts, from here on.
#[tactic(auto, unfolding(crate::specs::Scripts::script_at))]
fn script_at<'a>(alloc: Global, at: At<'a>) -> Result<Script<'a>, ReadError>
    ensures found { Gives view_of_script result (script_at (spot at.entry)) }
    ensures declared { IfOk result (λ s.
        IsDeclared (record { names = texts s.names.keys; cells = rows s.arrays.items })) }
    ensures numbered { IfOk result (λ s. AreNumbered 0 s.programs.items) }
    ensures few { IfOk result (λ s. length s.programs.items ≤ MAX_HOSTS) }
{
    let mut arrays = Arrays::new(alloc);
    let at = arrays_at(alloc, &mut arrays, at)?;
    let mut programs = Vec::new(alloc);
    hosts_at(alloc, &arrays, &mut programs, at)?;
    let (names, arrays) = arrays.into_parts();
    Ok(Script {
        names,
        arrays,
        programs,
    })
}

/// What a script says.
///
/// # Errors
///
/// The first fault of the text; `Memory` for want of memory.
#[tactic(auto, unfolding(crate::specs::Scripts::script_of))]
pub fn read<'a>(alloc: Global, text: &'a [u8]) -> Result<Script<'a>, ReadError>
    ensures found { Gives view_of_script result (script_of text.now) }
    ensures long { IfErr result (λ error. error ≡ Memory → length text.now ≤ MAX_TEXT) }
    ensures declared { IfOk result (λ s.
        IsDeclared (record { names = texts s.names.keys; cells = rows s.arrays.items })) }
    ensures numbered { IfOk result (λ s. AreNumbered 0 s.programs.items) }
    ensures few { IfOk result (λ s. length s.programs.items ≤ MAX_HOSTS) }
{
    match check_length(text) {
        Ok(()) => script_at(
            alloc,
            At {
                line: 1,
                bytes: text,
            },
        ),
        Err(long) => Err(ReadError::Fault(long)),
    }
}
