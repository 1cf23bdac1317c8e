//! A round of operations over parts of two blocks, with the cells that are left, worked by hand: a
//! contract tells of one operation at a time.

ghost use Rattle.std.specs.Prelude.{◌≡◌, ◌<◌, length};
ghost use Rattle.acc_base.specs.Configurations.{lengths_of};

use crate::allowed::{ends_in_array, is_allowed};
use acc_base::{BlockId, Config, DeviceId, Fault, Listed, Range, Shared};
use acc_batch::{Op, OpLabel};
use acc_kernel::Kernel;
use acc_memory::Memory;
use std::alloc::Global;
use std::process::Abort;
use std::test::Fail;
use tool_loops::Part::{Number, Read};
use tool_loops::{TIMES, statements_of};

/// Performs an operation on the first device, if it may be performed.
pub fn perform(
    rt: &impl Abort,
    alloc: Global,
    config: &Config,
    memory: &mut Memory,
    op: OpLabel,
) -> Result<(), Fault>
    requires device { 0 < length memory.old.devices }
    requires lengths { lengths_of memory.old.arrays ≡ lengths_of config.now.arrays }
    ensures device { 0 < length memory.new.devices }
    ensures lengths { lengths_of memory.new.arrays ≡ lengths_of config.now.arrays }
{
    assert!(rt; op.has_its_cells());
    assert!(rt; is_allowed(config, memory, &op));
    let op = Op::new(alloc, &op)?;
    memory.do_op(DeviceId::new(0), op);
    Ok(())
}

// Performs these, one after another.
fn perform_all(
    rt: &impl Abort,
    alloc: Global,
    config: &Config,
    memory: &mut Memory,
    ops: Vec<OpLabel>,
) -> Result<(), Fault>
    requires device { 0 < length memory.old.devices }
    requires lengths { lengths_of memory.old.arrays ≡ lengths_of config.now.arrays }
    ensures device { 0 < length memory.new.devices }
    ensures lengths { lengths_of memory.new.arrays ≡ lengths_of config.now.arrays }
{
    for op in ops {
        perform(rt, alloc, config, memory, op)?;
    }
    Ok(())
}

// The cells of a range of a host array.
fn assert_cells(rt: &impl Abort, config: &Config, memory: &Memory, range: Range, cells: &[i64])
    requires { lengths_of memory.now.arrays ≡ lengths_of config.now.arrays }
{
    assert!(rt; ends_in_array(config, range));
    assert!(rt; memory.host_cells(range) == cells);
}

pub fn range(array: u8, lo: u32, len: u32) -> Range {
    Range { array, lo, len }
}

// `for (i = 1; i < 4; i++) y[i] = x[i + 1] * 2`, over x[2] to x[4] of block 3 and y[1] to y[3] of block 5.
fn doubles(rt: &impl Abort, alloc: Global) -> Result<OpLabel, Fault> {
    let statements = statements_of(alloc, &[(1, &[Read(0, 1), Number(2), TIMES])])?;
    let kernel = Kernel::new(alloc, 1, 4, statements).expect(rt, "a loop within the limits");
    let uses = vec![in alloc;
        (BlockId::new(3), range(0, 2, 3)),
        (BlockId::new(5), range(1, 1, 3)),
    ]?;
    let kernel = Shared::new(alloc, kernel)?;
    let uses = Shared::new(alloc, Listed::from_vec(uses))?;
    Ok(OpLabel::Run { kernel, uses })
}

// Blocks for x[2] to x[5], copied in, and for y[0] to y[5], zero; after the loop y[0] to y[3] are copied out.
fn round(rt: &impl Abort, alloc: Global) -> Result<Vec<OpLabel>, Fault> {
    let x = BlockId::new(3);
    let y = BlockId::new(5);
    let mut ops = Vec::new(alloc);
    ops.push(OpLabel::Make {
        block: y,
        range: range(1, 0, 6),
    })?;
    ops.push(OpLabel::Make {
        block: x,
        range: range(0, 2, 4),
    })?;
    ops.push(OpLabel::CopyIn {
        block: x,
        range: range(0, 2, 4),
    })?;
    ops.push(doubles(rt, alloc)?)?;
    ops.push(OpLabel::CopyOut {
        block: y,
        range: range(1, 0, 4),
    })?;
    ops.push(OpLabel::Release { block: x })?;
    Ok(ops)
}

#[test]
fn a_loop_runs_over_parts_of_blocks(rt: HostRuntime) -> Result<(), Fail> {
    let alloc = rt.alloc();
    let x = vec![in alloc; 0i64, 10, 20, 30, 40, 50]?;
    let y = vec![in alloc; 0i64, -1, -2, -3, -4, -5]?;
    let config = Config::new(alloc, 1, 1, vec![in alloc; x, y]?, 100, 4)?;
    config.keeps();
    let mut memory = Memory::new(alloc, &config)?;
    let ops = round(&rt, alloc)?;
    perform_all(&rt, alloc, &config, &mut memory, ops)?;
    assert_cells(
        &rt,
        &config,
        &memory,
        range(0, 0, 6),
        &[0, 10, 20, 30, 40, 50],
    );
    assert_cells(
        &rt,
        &config,
        &memory,
        range(1, 0, 6),
        &[0, 40, 60, 80, -4, -5],
    );
    assert!(rt; memory.block(DeviceId::new(0), BlockId::new(3)).is_none());
    match memory.block(DeviceId::new(0), BlockId::new(5)) {
        Some((whole, cells)) => {
            assert_eq!(rt; whole, range(1, 0, 6));
            assert!(rt; cells.as_slice() == [0, 40, 60, 80, 0, 0].as_slice());
        }
        None => assert!(rt; false, "the block is gone"),
    }
    Ok(())
}
