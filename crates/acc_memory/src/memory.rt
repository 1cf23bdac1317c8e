//! The memory: performs an operation on a device, reads and writes host arrays, shows a block.

ghost use Rattle.std.specs.Prelude.{◌≡◌, ◌<◌, ℕ, ℤ, pos, [], length, map, replicate, slice_get, is_some, false, true, Some, IfOk, IfSome};
ghost use Rattle.std.specs.List.{All, list_all};
ghost use Rattle.std.specs.Option.{option_map};
ghost use Rattle.acc_base.specs.Faults.{OnlyMemory};
ghost use Rattle.acc_base.specs.Configurations.{lengths_of, has_range};
ghost use Rattle.acc_batch.specs.Ops.{op_label, HasItsCells};
ghost use Rattle.acc_kernel.specs.Jobs.{Use, computed, read_uses, shown};
ghost use Rattle.acc_memory.specs.Memories.{Shows, HasRanges, MayPerform, IsAllowed, PerformsOn, rows_on, was_made_on, row_with, cell_of, has_cell, is_held, find_row, find_block, has_array, held_blocks, is_within, finds_blocks};
ghost use Rattle.acc_memory.specs.Values.{Cell, Block_cell, Host_cell, after_write, cells_by, values_of};
ghost use Rattle.acc_memory.specs.inner.Devices.{IsFresh};

use crate::blocks::Blocks;
use crate::device::Device;
use crate::makes::Makes;
use acc_base::{BlockId, Config, DeviceId, Fault, Range};
use acc_batch::{Block, Mark, Op, OpLabel};
use acc_kernel::{Job, Kernel};
use acc_raw::{Cells, Node};
use std::alloc::Global;
use std::marker::Model;

// The most chains over which the blocks of a device are spread.
const MAX_CHAINS: u16 = 8_192;

/// The host arrays, and the devices. Contracts see the cells, the blocks that are there, and which were ever made.
#[derive(Drop)]
pub struct Memory {
    arrays: Vec<Vec<i64>>,
    devices: Vec<Device>,
}

impl Model for Memory {
    ghost use Rattle.std.specs.Prelude.{map};
    ghost use Rattle.acc_memory.specs.Memories.{MemoryView, AllFit};

    ghost Value = { MemoryView };

    ghost use Rattle.acc_memory.specs.inner.Devices.{memory_of};

    ghost view = { λ m. memory_of (map (λ v. v.items) m.arrays.items) m.devices.items };

    ghost invariant = { λ m. AllFit (memory_of (map (λ v. v.items) m.arrays.items) m.devices.items) };
}

impl Memory {
    ghost use Rattle.acc_batch.specs.declared.label.OpLabel.TheVariants as op;

    /// The host arrays with their initial values, and no block.
    ///
    /// # Errors
    ///
    /// `Memory` where memory is refused.
    pub fn new(alloc: Global, config: &Config) -> Result<Self, Fault>
        ensures arrays { IfOk result (λ m. m.arrays ≡ config.now.arrays) }
        ensures devices { IfOk result (λ m. length m.devices ≡ config.now.devices) }
        ensures rows { IfOk result (λ m. (d : ℕ) → rows_on m d ≡ []) }
        ensures made { IfOk result (λ m. (d b : ℕ) → was_made_on m d b ≡ false) }
        ensures fault { OnlyMemory result }
    {
        let arrays = arrays_of(alloc, config)?;
        let devices = devices_of(alloc, config.devices(), last_chain(&arrays))?;
        Ok(Memory { arrays, devices })
    }

    /// Performs an operation on a device, one that `Config::has_device` knows, and gives its label back. Takes no memory.
    ///
    /// A block that is made has its cells, all zero, and a loop has all cells that it reaches, as `Op::new` gives them. A
    /// block that is made isn't there, and its range ends in its array. A block that is copied, released or used by a loop is
    /// there, as `block` tells, and its range contains the one that is copied or used.
    pub fn do_op(&mut self, device: DeviceId, op: Op) -> OpLabel
        requires device { device < length self.old.devices }
        requires allowed { IsAllowed self.old device op }
        ensures op { result ≡ op_label op }
        ensures performed { PerformsOn device (op_label op) self.old self.new }
    {
        match op {
            Op::Make { block, mark } => {
                let (id, range) = (block.value().block, block.value().range);
                self.make(device, block, mark);
                OpLabel::Make { block: id, range }
            }
            Op::CopyIn { block, range } => {
                self.copy_in(device, block, range);
                OpLabel::CopyIn { block, range }
            }
            Op::CopyOut { block, range } => {
                self.copy_out(device, block, range);
                OpLabel::CopyOut { block, range }
            }
            Op::Release { block } => {
                self.release(device, block);
                OpLabel::Release { block }
            }
            Op::Run { kernel, uses } => {
                self.run(device, kernel.get(), uses.get().as_slice());
                OpLabel::Run { kernel, uses }
            }
            Op::Await { queue, number } => OpLabel::Await { queue, number },
            Op::Close => OpLabel::Close,
        }
    }

    /// Makes a job's inputs the values of the cells that it reads on a device; what it uses is there, by `finds_blocks`. Takes
    /// no memory.
    pub fn load(&self, device: DeviceId, job: &mut Job)
        requires device { device < length self.now.devices }
        requires held { HasRanges (held_blocks self.now device) job.old.uses }
        ensures { (was : Cell → ℤ) → Shows self.now was
            → job.new ≡ record job.old {
              inputs = shown (read_uses job.old.kernel job.old.uses)
                  (cells_by job.old.uses device was);
            } }
    {
        self.devices[usize::from(device.number())].blocks.load(job);
    }

    /// Performs the loop of a job on a device as `do_op` does; what it uses is there, by `finds_blocks`. Its outputs were computed,
    /// and are written where its inputs are the values of the cells; else the loop is run. Takes no memory.
    pub fn commit(&mut self, device: DeviceId, job: &Job)
        requires computed { job.now.outputs ≡ computed job.now }
        requires device { device < length self.old.devices }
        requires held { HasRanges (held_blocks self.old device) job.now.uses }
        ensures { PerformsOn device (op.Run job.now.kernel job.now.uses) self.old self.new }
    {
        let blocks = &mut self.devices[usize::from(device.number())].blocks;
        blocks.commit(job);
    }

    /// The value of a cell of a host array, one that the configuration's array has.
    pub fn host_get(&self, array: u8, cell: u32) -> i64
        requires there { has_array self.now (record { array = array; lo = cell; len = 1 }) ≡ true }
        ensures { result ≡ cell_of self.now (Host_cell array cell) }
    {
        let cells = self.arrays[usize::from(array)].as_slice();
        cell_at(cells, cell)
    }

    /// Writes a cell of a host array, one that the configuration's array has.
    pub fn host_set(&mut self, array: u8, cell: u32, value: i64)
        requires there { has_array self.old (record { array = array; lo = cell; len = 1 }) ≡ true }
        ensures shows { (was : Cell → ℤ) → Shows self.old was
            → Shows self.new (after_write array cell value was) }
        ensures lengths { lengths_of self.new.arrays ≡ lengths_of self.old.arrays }
        ensures devices { self.new.devices ≡ self.old.devices }
    {
        let cells = &mut self.arrays[usize::from(array)];
        cells[cell as usize] = value;
    }

    /// The cells of a range of a host array, which ends in the configuration's array.
    pub fn host_cells(&self, range: Range) -> &[i64]
        requires there { has_array self.now range ≡ true }
        ensures { result.now ≡ values_of (cell_of self.now) range }
    {
        let cells = self.arrays[usize::from(range.array)].as_slice();
        let from = range.lo as usize;
        &cells[from..from + range.len as usize]
    }

    /// The range and the cells of a block, if it is there on the device, one that `Config::has_device` knows.
    pub fn block(&self, device: DeviceId, id: BlockId) -> Option<(Range, &Cells)>
        requires { device < length self.now.devices }
        ensures { option_map (λ b. row_with id b.0 b.1.now) result
            ≡ find_row (rows_on self.now device) id }
    {
        let blocks = &self.devices[usize::from(device.number())].blocks;
        match blocks.get(id) {
            Some(held) => Some((held.range, &held.cells)),
            None => None,
        }
    }

    /// What a cell of a block holds, if the block is there on the device and has the cell. It is named by its number in the host array.
    pub fn block_cell(&self, device: DeviceId, block: BlockId, cell: u32) -> Option<i64>
        ensures there { is_some result
            ≡ has_cell (find_block (held_blocks self.now device) block) cell }
        ensures held { is_some result ≡ is_held self.now (Block_cell device block cell) }
        ensures value { IfSome result (λ x. x ≡ cell_of self.now (Block_cell device block cell)) }
    {
        match self.devices.get(usize::from(device.number())) {
            None => None,
            Some(device) => device.blocks.cell(block, cell),
        }
    }

    /// Whether an operation of the device, one that `Config::has_device` knows, made the block, whether or not it is still there.
    pub fn was_made(&self, device: DeviceId, block: BlockId) -> bool
        requires { device < length self.now.devices }
        ensures { result ≡ was_made_on self.now device block }
    {
        let makes = &self.devices[usize::from(device.number())].makes;
        makes.is_made(block)
    }

    /// Whether a range has a cell, and lies in its host array.
    pub fn has_range(&self, range: Range) -> bool
        ensures { result ≡ has_range self.now.arrays range }
    {
        if range.len == 0 {
            return false;
        }
        match self.arrays.get(usize::from(range.array)) {
            None => false,
            Some(cells) => range.end() <= cells.len() as u64,
        }
    }

    /// Whether the blocks of a device, one that `Config::has_device` knows, are as an operation needs them.
    pub fn finds_blocks(&self, device: DeviceId, op: &Op) -> bool
        requires { device < length self.now.devices }
        ensures { result ≡ finds_blocks (held_blocks self.now device) (op_label op.now) }
    {
        match op {
            Op::Make { block, .. } => self.range_of(device, block.value().block).is_none(),
            Op::CopyIn { block, range } | Op::CopyOut { block, range } => {
                self.is_within(device, *block, range)
            }
            Op::Release { block } => self.range_of(device, *block).is_some(),
            Op::Run { uses, .. } => self.all_within(device, uses.get().as_slice()),
            Op::Await { .. } | Op::Close => true,
        }
    }

    // The range of a block, if it is there.
    fn range_of(&self, device: DeviceId, block: BlockId) -> Option<Range>
        requires { device < length self.now.devices }
        ensures { result ≡ option_map (λ b. b.range) (find_block
            (held_blocks self.now device) block) }
    {
        match self.block(device, block) {
            None => None,
            Some((range, _)) => Some(range),
        }
    }

    // Whether a block is there, and has each cell of a range.
    fn is_within(&self, device: DeviceId, block: BlockId, range: &Range) -> bool
        requires { device < length self.now.devices }
        ensures { result ≡ is_within (find_block (held_blocks self.now device) block) range.now }
    {
        match self.range_of(device, block) {
            None => false,
            Some(whole) => whole.contains(range),
        }
    }

    // So of all that a loop uses.
    fn all_within(&self, device: DeviceId, uses: &[(BlockId, Range)]) -> bool
        requires { device < length self.now.devices }
        ensures { result ≡ list_all (λ (u : Use). is_within
            (find_block (held_blocks self.now device) u.0) u.1) uses.now }
    {
        uses.iter()
            .all(|(block, range)| self.is_within(device, *block, range))
    }

    fn make(&mut self, device: DeviceId, block: Node<Block>, mark: Node<Mark>)
        requires device { device < length self.old.devices }
        requires allowed { MayPerform self.old device (op.Make block.range block.block) }
        requires zeros { block.cells ≡ replicate block.range.len (pos 0) }
        requires mark { mark.block ≡ block.block }
        ensures { PerformsOn device (op.Make block.range block.block) self.old self.new }
    {
        let device = &mut self.devices[usize::from(device.number())];
        device.blocks.make(block);
        device.makes.note(mark);
    }

    fn copy_in(&mut self, device: DeviceId, block: BlockId, range: Range)
        requires device { device < length self.old.devices }
        requires allowed { MayPerform self.old device (op.CopyIn range block) }
        ensures { PerformsOn device (op.CopyIn range block) self.old self.new }
    {
        if range.len > 0 {
            let cells = self.arrays[usize::from(range.array)].as_slice();
            let blocks = &mut self.devices[usize::from(device.number())].blocks;
            blocks.copy_in(block, range, cells);
        }
    }

    fn copy_out(&mut self, device: DeviceId, block: BlockId, range: Range)
        requires device { device < length self.old.devices }
        requires allowed { MayPerform self.old device (op.CopyOut range block) }
        ensures { PerformsOn device (op.CopyOut range block) self.old self.new }
    {
        if range.len > 0 {
            let blocks = &self.devices[usize::from(device.number())].blocks;
            let cells = self.arrays[usize::from(range.array)].as_mut_slice();
            blocks.copy_out(block, range, cells);
        }
    }

    fn release(&mut self, device: DeviceId, block: BlockId)
        requires device { device < length self.old.devices }
        requires allowed { MayPerform self.old device (op.Release block) }
        ensures { PerformsOn device (op.Release block) self.old self.new }
    {
        let blocks = &mut self.devices[usize::from(device.number())].blocks;
        blocks.release(block);
    }

    fn run(&mut self, device: DeviceId, kernel: &Kernel, uses: &[(BlockId, Range)])
        requires device { device < length self.old.devices }
        requires allowed { MayPerform self.old device (op.Run kernel.now uses.now) }
        requires cells { HasItsCells (op.Run kernel.now uses.now) }
        ensures { PerformsOn device (op.Run kernel.now uses.now) self.old self.new }
    {
        let blocks = &mut self.devices[usize::from(device.number())].blocks;
        blocks.run(kernel, uses);
    }
}

// The value of a cell of a host array.
fn cell_at(cells: &[i64], cell: u32) -> i64
    requires { cell < length cells.now }
    ensures { slice_get cells.now cell ≡ Some result }
{
    cells[cell as usize]
}

// The host arrays with their initial values.
fn arrays_of(alloc: Global, config: &Config) -> Result<Vec<Vec<i64>>, Fault>
    ensures arrays { IfOk result (λ arrays. map (λ v. v.items) arrays.items ≡ config.now.arrays) }
    ensures fault { OnlyMemory result }
{
    config.keeps();
    let mut arrays = Vec::new(alloc);
    for n in 0..config.arrays() {
        arrays.push(Vec::from_slice(alloc, config.array(n as u8))?)?;
    }
    Ok(arrays)
}

// The last of the chains over which the blocks of a device are spread. Blocks that are there together have cells of their own, so there are
// no more of them than cells; there are as many chains as the next power of two.
fn last_chain(arrays: &[Vec<i64>]) -> u16 {
    let mut cells = 0u64;
    for array in arrays {
        cells = cells.saturating_add(array.len() as u64);
    }
    let chains = cells.min(u64::from(MAX_CHAINS)) as u16;
    chains.next_power_of_two() - 1
}

// So many devices without a block, each with room for chains up to the last one.
fn devices_of(alloc: Global, count: u8, last: u16) -> Result<Vec<Device>, Fault>
    ensures count { IfOk result (λ devices. length devices.items ≡ count) }
    ensures fresh { IfOk result (λ devices. All IsFresh devices.items) }
    ensures fault { OnlyMemory result }
{
    let mut devices = Vec::new(alloc);
    for _ in 0..count {
        devices.push(Device {
            blocks: Blocks::new(alloc, last)?,
            makes: Makes::new(alloc, last)?,
        })?;
    }
    Ok(devices)
}
