//! A host's program copied, though the contract lets that be refused each time; and a host that its
//! caller refuses.

ghost use Rattle.std.specs.Prelude.{◌≡◌};

use crate::checks::{FINISHED, check_last_print, check_same, check_states, refused};
use crate::worlds::{script_of, turns};
use acc_base::{Config, Fault, HostId};
use acc_core::{HostProgram, HostState, World};
use acc_host::Host;
use std::alloc::Global;
use std::process::Abort;
use std::test::Fail;
use tool_scarce::at_each_amount;

/// A write between an entry and an exit, and a print.
const SCRIPT: &[u8] =
    b"long a[4] = {1,2,3,4};\nhost {\n#pragma acc enter data copyin(a)\na[0] = 9;\n#pragma acc exit data copyout(a)\nprint(a);\n}\n";

// The program of a script's last host.
fn program_of(alloc: Global, text: &[u8]) -> Result<HostProgram, Fault> {
    let mut script = script_of(alloc, text)?;
    match script.programs.pop() {
        Some(program) => Ok(program),
        None => Err(Fault::Unfinished),
    }
}

// A world with the script's array and one host, of this program.
fn world_with(alloc: Global, program: HostProgram) -> Result<Box<World>, Fault>
    requires { program.host ≡ 0 }
{
    let arrays = script_of(alloc, SCRIPT)?.arrays;
    let config = Config::new(alloc, 1, 1, arrays, 4, 64)?;
    let programs = vec![in alloc; program]?;
    Ok(Box::new(alloc, World::new(alloc, config, programs)?)?)
}

fn run_of(rt: &impl Abort, alloc: Global, program: HostProgram) -> Result<(), Fault> {
    assert!(rt; program.host == HostId::new(0));
    let mut world = world_with(alloc, program)?;
    turns(&mut world, 20);
    check_states(rt, &world, &[FINISHED]);
    check_last_print(rt, world.log(), &[1, 2, 3, 4]);
    Ok(())
}

/// A copy is refused until there is memory for it, and runs as its original does.
#[test]
fn a_copied_program_runs_alike(rt: HostRuntime) -> Result<(), Fail> {
    let alloc = rt.alloc();
    let program = program_of(alloc, SCRIPT)?;
    let (refusals, copy) = at_each_amount(alloc, || program.try_clone(alloc))?;
    check_same(&rt, 0 < refusals, true);
    run_of(&rt, alloc, program)?;
    run_of(&rt, alloc, copy)?;
    Ok(())
}

// A host that is refused from outside, and then stands so.
fn check_refusal(rt: &impl Abort, host: &mut Host, fault: Fault, state: HostState) {
    host.refuse(fault);
    check_same(rt, host.state(), state);
}

/// It stands at its next statement then, and stays so.
#[test]
fn a_host_is_refused_from_outside(rt: HostRuntime) -> Result<(), Fail> {
    let mut running = Host::new(program_of(rt.alloc(), SCRIPT)?);
    check_same(&rt, running.state(), HostState::Running { ended: 0 });
    let state = refused(0, 3, Fault::Memory);
    check_refusal(&rt, &mut running, Fault::Memory, state);
    check_refusal(&rt, &mut running, Fault::QueueFull, state);
    let mut finished = Host::new(program_of(rt.alloc(), b"host { }\n")?);
    check_refusal(&rt, &mut finished, Fault::Memory, FINISHED);
    Ok(())
}
