//! A loop with room for the cells that it reads and for those that it assigns: inputs and outputs.

ghost use Rattle.std.specs.Prelude.{◌≡◌, ◌↔◌, ◌<◌, [], length, slice_index_or, slice_set, IsTrue, IfOk};
ghost use Rattle.acc_base.specs.Faults.{OnlyMemory};
ghost use Rattle.acc_kernel.specs.Jobs.{AreDistinct, HasUses, HoldReached, IsJob, no_use, zero_rows, computed, read_uses, shown, stored, written_uses};
ghost use Rattle.acc_kernel.specs.Kernels.{value_after};

use crate::job_cells::JobCells;
use crate::kernel::Kernel;
use crate::rows::Rows;
use crate::same::are_same_uses;
use crate::window::Window;
use acc_base::{BlockId, Fault, Listed, Range, Shared};
use std::alloc::Global;
use std::marker::Model;

/// A loop with room for the inputs, which are the values, before it, of the cells that it reads, and for the outputs, which are
/// those that it assigns.
#[derive(Drop)]
pub struct Job {
    kernel: Shared<Kernel>,
    uses: Shared<Listed<(BlockId, Range)>>,
    cells: JobCells,
}

impl Model for Job {
    ghost use Rattle.std.specs.Prelude.{◌≡◌};
    ghost use Rattle.std.specs.Coded.{codes};
    ghost use Rattle.acc_kernel.specs.contracts.expr.Expr as expr;
    ghost use Rattle.acc_kernel.specs.Jobs.{Computation, AreDistinct, HoldReached, read_uses, written_uses};

    ghost Value = { Computation };

    ghost coded = { Prim.hlevel (codes, expr.the_row.coded) };

    ghost view = { λ j. record { kernel = j.kernel; uses = j.uses; inputs = j.cells.inputs.rows; outputs = j.cells.outputs.rows } };

    ghost invariant = { λ j. AreDistinct j.uses × HoldReached j.kernel j.uses × (j.cells.inputs.uses ≡ read_uses j.kernel j.uses) × (j.cells.outputs.uses ≡ written_uses j.kernel j.uses) };
}

impl Job {
    /// Shares the loop and its uses, with room for their cells, all zero at first. The uses name each array at most
    /// once, by `are_distinct`, and have all cells that the loop reaches, by `Kernel::is_held_by`.
    ///
    /// # Errors
    ///
    /// `Memory` where memory is refused.
    pub fn new(
        alloc: Global,
        kernel: &Shared<Kernel>,
        uses: &Shared<Listed<(BlockId, Range)>>,
    ) -> Result<Self, Fault>
        requires distinct { AreDistinct uses.now }
        requires reached { HoldReached kernel.now uses.now }
        ensures kernel { IfOk result (λ j. j.kernel ≡ kernel.now) }
        ensures uses { IfOk result (λ j. j.uses ≡ uses.now) }
        ensures inputs { IfOk result (λ j. j.inputs ≡ zero_rows (read_uses kernel.now uses.now)) }
        ensures outputs { IfOk result (λ j.
            j.outputs ≡ zero_rows (written_uses kernel.now uses.now)) }
        ensures fault { OnlyMemory result }
    {
        let listed = uses.get().as_slice();
        let inputs = Rows::zeroed(alloc, read_uses(alloc, kernel.get(), listed)?)?;
        let outputs = Rows::zeroed(alloc, written_uses(alloc, kernel.get(), listed)?)?;
        let kernel = kernel.try_clone()?;
        let uses = uses.try_clone()?;
        Ok(Job {
            kernel,
            uses,
            cells: JobCells { inputs, outputs },
        })
    }

    /// A job of another loop and its uses, as `new` asks of them, in the memory of this one where that is as long. Its inputs and
    /// outputs have any values.
    ///
    /// # Errors
    ///
    /// `Memory` where memory is refused.
    pub fn renewed(
        self,
        alloc: Global,
        kernel: &Shared<Kernel>,
        uses: &Shared<Listed<(BlockId, Range)>>,
    ) -> Result<Self, Fault>
        requires distinct { AreDistinct uses.now }
        requires reached { HoldReached kernel.now uses.now }
        ensures kernel { IfOk result (λ j. j.kernel ≡ kernel.now) }
        ensures uses { IfOk result (λ j. j.uses ≡ uses.now) }
        ensures fault { OnlyMemory result }
    {
        let JobCells { inputs, outputs } = self.cells;
        let listed = uses.get().as_slice();
        let inputs = inputs.renewed(alloc, read_uses(alloc, kernel.get(), listed)?)?;
        let outputs = outputs.renewed(alloc, written_uses(alloc, kernel.get(), listed)?)?;
        let kernel = kernel.try_clone()?;
        let uses = uses.try_clone()?;
        Ok(Job {
            kernel,
            uses,
            cells: JobCells { inputs, outputs },
        })
    }

    /// The uses differ in their arrays, have all cells that the loop reaches, and the job has all inputs and outputs.
    pub fn keeps(&self)
        ensures { IsJob self.now }
    {
        self.cells.inputs.keeps();
        self.cells.outputs.keeps();
    }

    /// The loop.
    pub fn kernel(&self) -> &Kernel
        ensures { result.now ≡ self.now.kernel }
    {
        self.kernel.get()
    }

    /// The blocks with the ranges that it uses of them.
    pub fn uses(&self) -> &[(BlockId, Range)]
        ensures { result.now ≡ self.now.uses }
    {
        self.uses.get().as_slice()
    }

    /// The uses of which it has inputs: of the arrays that the loop reads the cells that it reaches, from the least to the
    /// greatest.
    pub fn read_uses(&self) -> &[(BlockId, Range)]
        ensures { result.now ≡ read_uses self.now.kernel self.now.uses }
    {
        self.cells.inputs.uses()
    }

    /// The uses of which it has outputs: of the arrays that the loop assigns the cells that it assigns.
    pub fn written_uses(&self) -> &[(BlockId, Range)]
        ensures { result.now ≡ written_uses self.now.kernel self.now.uses }
    {
        self.cells.outputs.uses()
    }

    /// Sets the inputs of one of `read_uses`, by its place among them, from 0: one value for each cell of its range.
    pub fn set_input(&mut self, place: usize, values: &[i64])
        requires place { place < length (read_uses self.old.kernel self.old.uses) }
        requires len { length values.now
            ≡ (slice_index_or (read_uses self.old.kernel self.old.uses) place no_use).1.len }
        ensures { self.new
            ≡ record self.old { inputs = slice_set self.old.inputs place values.now } }
    {
        self.cells.inputs.fill(place, values);
    }

    /// The outputs of one of `written_uses`, by its place likewise.
    pub fn output(&self, place: usize) -> &[i64]
        requires { place < length (written_uses self.now.kernel self.now.uses) }
        ensures { result.now ≡ slice_index_or self.now.outputs place [] }
    {
        self.cells.outputs.row(place)
    }

    /// Makes the inputs what a window shows, which has all cells of the uses. It takes no memory.
    pub fn load<W: Window>(&mut self, window: &W)
        requires { HasUses self.old.uses (W.has window.now) }
        ensures { self.new ≡ record self.old {
          inputs = shown
              (read_uses self.old.kernel self.old.uses) (W.cells window.now);
        } }
    {
        self.cells.inputs.load(window);
    }

    /// Whether the inputs are what a window shows, which has all cells of the uses. It takes no memory.
    pub fn same<W: Window>(&self, window: &W) -> bool
        requires { HasUses self.now.uses (W.has window.now) }
        ensures { IsTrue result
            ↔ (self.now.inputs ≡ shown (read_uses self.now.kernel self.now.uses)
            (W.cells window.now)) }
    {
        self.cells.inputs.are_shown(window)
    }

    /// Writes the outputs to a window, which has all cells of the uses, and nothing else. It takes no memory.
    pub fn store<W: Window>(&self, window: &mut W)
        requires { HasUses self.now.uses (W.has window.old) }
        ensures has { W.has window.new ≡ W.has window.old }
        ensures keeps { W.keeps window.old window.new }
        ensures cells { W.cells window.new
            ≡ stored (written_uses self.now.kernel self.now.uses) self.now.outputs
            (W.cells window.old) }
    {
        self.cells.outputs.store(window);
    }

    /// Gives a window, which has all cells of the uses, what the loop gives it: the outputs, which were computed, where the
    /// inputs are what the window shows, and else the loop is run over it. It takes no memory.
    pub fn commit<W: Window>(&self, window: &mut W)
        requires computed { self.now.outputs ≡ computed self.now }
        requires has { HasUses self.now.uses (W.has window.old) }
        ensures has { W.has window.new ≡ W.has window.old }
        ensures keeps { W.keeps window.old window.new }
        ensures cells { W.cells window.new ≡ value_after self.now.kernel (W.cells window.old) }
    {
        self.keeps();
        self.kernel.get().keeps();
        if self.same(window) {
            self.store(window);
        } else {
            self.kernel.get().run(window);
        }
    }

    /// Gives each output the value that the loop gives its cell. It takes no memory.
    pub fn compute(&mut self)
        ensures { self.new ≡ record self.old { outputs = computed self.old } }
    {
        self.keeps();
        self.kernel.get().keeps();
        self.cells.start();
        self.kernel.get().run(&mut self.cells);
        self.cells.keeps();
    }

    /// Whether it is a job of this loop with these uses. It takes no memory.
    pub fn is_of(&self, kernel: &Kernel, uses: &[(BlockId, Range)]) -> bool
        ensures { IsTrue result ↔ ((self.now.kernel ≡ kernel.now) × (self.now.uses ≡ uses.now)) }
    {
        self.kernel.get().is_same(kernel) && are_same_uses(self.uses(), uses)
    }
}

// Of the arrays that a loop reads the cells that it reaches.
fn read_uses(
    alloc: Global,
    kernel: &Kernel,
    uses: &[(BlockId, Range)],
) -> Result<Vec<(BlockId, Range)>, Fault>
    ensures read { IfOk result (λ read. read.items ≡ read_uses kernel.now uses.now) }
    ensures fault { OnlyMemory result }
{
    let mut read = Vec::new(alloc);
    for (block, range) in uses {
        if kernel.reads(range.array) {
            read.push((*block, kernel.reached(range.array)))?;
        }
    }
    Ok(read)
}

// Of the arrays that a loop assigns the cells that it assigns.
fn written_uses(
    alloc: Global,
    kernel: &Kernel,
    uses: &[(BlockId, Range)],
) -> Result<Vec<(BlockId, Range)>, Fault>
    ensures written { IfOk result (λ written. written.items ≡ written_uses kernel.now uses.now) }
    ensures fault { OnlyMemory result }
{
    let mut written = Vec::new(alloc);
    for (block, range) in uses {
        if kernel.assigns(range.array) {
            written.push((*block, kernel.reached(range.array)))?;
        }
    }
    Ok(written)
}
