//! A memory is had where memory is ample, which no contract promises; what a host writes, it reads; and very many blocks are kept
//! apart.

ghost use Rattle.std.specs.Prelude.{◌≡◌, ◌<◌, length};
ghost use Rattle.acc_base.specs.Configurations.{lengths_of};

use crate::allowed::ends_in_array;
use crate::runs::{perform, range};
use acc_base::{BlockId, Config, DeviceId, Fault, Range};
use acc_batch::OpLabel;
use acc_memory::Memory;
use std::alloc::Global;
use std::process::Abort;
use std::test::Fail;
use tool_scarce::at_each_amount;

// Two devices, and two arrays.
fn config_of(alloc: Global) -> Result<Config, Fault> {
    let first = vec![in alloc; 7i64; 40]?;
    let second = vec![in alloc; -1i64; 3]?;
    Config::new(alloc, 2, 1, vec![in alloc; first, second]?, 100, 4)
}

#[test]
fn a_memory_is_refused_until_there_is_memory(rt: HostRuntime) -> Result<(), Fail> {
    let alloc = rt.alloc();
    let config = config_of(alloc)?;
    let (refusals, _memory) = at_each_amount(alloc, || Memory::new(alloc, &config))?;
    assert!(rt; 1 < refusals);
    Ok(())
}

// The value of a cell of a host array, if it is there.
fn cell_of(config: &Config, memory: &Memory, array: u8, cell: u32) -> Option<i64>
    requires { lengths_of memory.now.arrays ≡ lengths_of config.now.arrays }
{
    let range = Range {
        array,
        lo: cell,
        len: 1,
    };
    if ends_in_array(config, range) {
        Some(memory.host_get(array, cell))
    } else {
        None
    }
}

// A host writes a cell that is there.
fn write(rt: &impl Abort, config: &Config, memory: &mut Memory, array: u8, cell: u32, value: i64)
    requires { lengths_of memory.old.arrays ≡ lengths_of config.now.arrays }
    ensures { lengths_of memory.new.arrays ≡ lengths_of config.now.arrays }
{
    let range = Range {
        array,
        lo: cell,
        len: 1,
    };
    assert!(rt; ends_in_array(config, range));
    memory.host_set(array, cell, value);
}

#[test]
fn a_cell_is_read_as_it_was_written(rt: HostRuntime) -> Result<(), Fail> {
    let alloc = rt.alloc();
    let config = config_of(alloc)?;
    let mut memory = Memory::new(alloc, &config)?;
    assert_eq!(rt; cell_of(&config, &memory, 0, 39), Some(7));
    write(&rt, &config, &mut memory, 0, 39, i64::MIN);
    write(&rt, &config, &mut memory, 1, 0, 12);
    assert_eq!(rt; cell_of(&config, &memory, 0, 38), Some(7));
    assert_eq!(rt; cell_of(&config, &memory, 0, 39), Some(i64::MIN));
    assert_eq!(rt; cell_of(&config, &memory, 0, 40), None);
    assert_eq!(rt; cell_of(&config, &memory, 1, 0), Some(12));
    assert_eq!(rt; cell_of(&config, &memory, 1, 2), Some(-1));
    Ok(())
}

// How many blocks are made.
const MANY: u32 = 20_000;

// One device, and an array with a cell for each block.
fn wide_config(alloc: Global) -> Result<Config, Fault> {
    let cells = vec![in alloc; 5i64; 20_001]?;
    Config::new(alloc, 1, 1, vec![in alloc; cells]?, 4_194_304, 4)
}

fn block(number: u32) -> BlockId {
    BlockId::new(u64::from(number))
}

// Makes the block with this number, of the cell with this number, and copies it in.
fn make(
    rt: &impl Abort,
    alloc: Global,
    config: &Config,
    memory: &mut Memory,
    number: u32,
) -> Result<(), Fault>
    requires device { 0 < length memory.old.devices }
    requires lengths { lengths_of memory.old.arrays ≡ lengths_of config.now.arrays }
    ensures device { 0 < length memory.new.devices }
    ensures lengths { lengths_of memory.new.arrays ≡ lengths_of config.now.arrays }
{
    let block = block(number);
    let range = range(0, number, 1);
    perform(rt, alloc, config, memory, OpLabel::Make { range, block })?;
    perform(rt, alloc, config, memory, OpLabel::CopyIn { range, block })
}

// Makes all blocks, from the last to the first.
fn make_all(
    rt: &impl Abort,
    alloc: Global,
    config: &Config,
    memory: &mut Memory,
) -> Result<(), Fault>
    requires device { 0 < length memory.old.devices }
    requires lengths { lengths_of memory.old.arrays ≡ lengths_of config.now.arrays }
    ensures device { 0 < length memory.new.devices }
    ensures lengths { lengths_of memory.new.arrays ≡ lengths_of config.now.arrays }
{
    for number in 0..MANY {
        make(rt, alloc, config, memory, MANY - number)?;
    }
    Ok(())
}

// Releases every third block.
fn release_each_third(
    rt: &impl Abort,
    alloc: Global,
    config: &Config,
    memory: &mut Memory,
) -> Result<(), Fault>
    requires device { 0 < length memory.old.devices }
    requires lengths { lengths_of memory.old.arrays ≡ lengths_of config.now.arrays }
    ensures device { 0 < length memory.new.devices }
    ensures lengths { lengths_of memory.new.arrays ≡ lengths_of config.now.arrays }
{
    for number in 1..MANY {
        if number % 3 == 0 {
            let block = block(number);
            perform(rt, alloc, config, memory, OpLabel::Release { block })?;
        }
    }
    Ok(())
}

// Whether a block is there, with its cell; and whether it was made.
fn stands(memory: &Memory, number: u32) -> (bool, bool)
    requires { 0 < length memory.now.devices }
{
    let device = DeviceId::new(0);
    let block = block(number);
    let is_there = match memory.block(device, block) {
        None => false,
        Some((whole, cells)) => {
            whole == range(0, number, 1) && cells.as_slice() == [5].as_slice()
        }
    };
    (is_there, memory.was_made(device, block))
}

// Every third block is gone, and each was made.
fn check_blocks(rt: &impl Abort, memory: &Memory)
    requires { 0 < length memory.now.devices }
{
    for number in 1..MANY {
        assert!(rt;
            stands(memory, number) == (number % 3 != 0, true),
            "block {number}"
        );
    }
    assert!(rt; stands(memory, MANY + 1) == (false, false));
}

#[test]
fn twenty_thousand_blocks_are_there_at_once(rt: HostRuntime) -> Result<(), Fail> {
    let alloc = rt.alloc();
    let config = wide_config(alloc)?;
    config.keeps();
    let mut memory = Memory::new(alloc, &config)?;
    make_all(&rt, alloc, &config, &mut memory)?;
    release_each_third(&rt, alloc, &config, &mut memory)?;
    check_blocks(&rt, &memory);
    Ok(())
}
