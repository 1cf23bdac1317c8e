//! What a script says, and what each run of it begins and ends with.

ghost use Rattle.std.specs.Prelude.{◌≡◌, ◌≤◌, IfOk, IfErr, OnOk, None, Ok, length};
ghost use Rattle.acc_base.specs.Configurations.{rows, configuration, fault_of};
ghost use Rattle.acc_base.specs.declared.config.TheConstants.{MAX_HOSTS};
ghost use Rattle.acc_host.specs.Hosts.{AreNumbered};
ghost use Rattle.acc_script.specs.Arrays.{IsDeclared, texts};
ghost use Rattle.acc_script.specs.Scripts.{view_of_script, script_of};
ghost use Rattle.acc_driver.specs.Replays.{IsWorldFault, driver_fault};
ghost use Rattle.acc_driver.specs.inner.Scripts.{IsScriptFault};

use crate::fault::ReplayFault;
use crate::options::Options;
use acc_base::{Config, Fault};
use acc_host::HostProgram;
use acc_script::{ReadError, Script, read};
use std::alloc::Global;

// What a script says.
pub(crate) fn read_script<'a>(alloc: Global, text: &'a [u8]) -> Result<Script<'a>, ReplayFault>
    ensures found { IfOk result (λ s. script_of text.now ≡ Ok (view_of_script s)) }
    ensures declared { IfOk result (λ s.
        IsDeclared (record { names = texts s.names.keys; cells = rows s.arrays.items })) }
    ensures numbered { IfOk result (λ s. AreNumbered 0 s.programs.items) }
    ensures few { IfOk result (λ s. length s.programs.items ≤ MAX_HOSTS) }
    ensures refused { IfErr result (IsScriptFault text.now) }
{
    match read(alloc, text) {
        Ok(script) => Ok(script),
        Err(ReadError::Memory) => Err(ReplayFault::Memory),
        Err(ReadError::Fault(fault)) => Err(ReplayFault::Script(fault)),
    }
}

// How many hosts there are.
pub(crate) fn hosts_of(programs: &Vec<HostProgram>) -> u8
    requires few { length programs.now.items ≤ MAX_HOSTS }
    ensures { result ≡ length programs.now.items }
{
    programs.len() as u8
}

// The configuration of these arrays and programs, with these options.
pub(crate) fn config_of(
    alloc: Global,
    options: Options,
    programs: &Vec<HostProgram>,
    arrays: Vec<Vec<i64>>,
) -> Result<Config, ReplayFault>
    requires few { length programs.now.items ≤ MAX_HOSTS }
    ensures held { IfOk result (λ c.
        c ≡ configuration options.devices (length programs.now.items)
        (rows arrays.items) options.cells options.room) }
    ensures valid { OnOk result (fault_of (configuration options.devices (length programs.now.items)
        (rows arrays.items) options.cells options.room) ≡ None) }
    ensures refused { IfErr result (λ f.
        IsWorldFault
        (configuration options.devices (length programs.now.items)
        (rows arrays.items) options.cells options.room) (driver_fault f)) }
{
    match Config::new(
        alloc,
        options.devices,
        hosts_of(programs),
        arrays,
        options.cells,
        options.room,
    ) {
        Ok(config) => Ok(config),
        Err(Fault::Memory) => Err(ReplayFault::Memory),
        Err(fault) => Err(ReplayFault::Runtime(fault)),
    }
}
