//! The cells of a job as its loop sees them: of an array that it assigns the outputs, of another the inputs.

ghost use Rattle.std.specs.Prelude.{◌≡◌, ℕ, ◌<◌, [], true, length, slice_index_or};
ghost use Rattle.acc_kernel.specs.Jobs.{AreRows, no_use, uses_have, cell_in, is_used, values_shown};
ghost use Rattle.acc_kernel.specs.inner.RowTables.{HasRange};

use crate::rows::Rows;
use crate::window::Window;

/// The inputs and the outputs of a job.
#[derive(Drop)]
pub(crate) struct JobCells {
    pub(crate) inputs: Rows,
    pub(crate) outputs: Rows,
}

impl JobCells {
    /// Each output, whose cell is among the inputs if some input is of its array, begins with the input of its cell.
    pub(crate) fn start(&mut self)
        requires has { (place : ℕ) → place < length self.old.outputs.uses
            → is_used self.old.inputs.uses
            (slice_index_or self.old.outputs.uses place no_use).1.array ≡ true
            → HasRange (slice_index_or self.old.outputs.uses place no_use).1
            (uses_have self.old.inputs.uses) }
        ensures inputs { self.new.inputs ≡ self.old.inputs }
        ensures uses { self.new.outputs.uses ≡ self.old.outputs.uses }
        ensures outputs { (place : ℕ) → place < length self.old.outputs.uses
            → is_used self.old.inputs.uses
            (slice_index_or self.old.outputs.uses place no_use).1.array ≡ true
            → slice_index_or self.new.outputs.rows place []
            ≡ values_shown (cell_in self.old.inputs.uses self.old.inputs.rows)
            (slice_index_or self.old.outputs.uses place no_use).1 }
    {
        self.outputs.load_known(&self.inputs);
    }

    /// What both keep.
    pub(crate) fn keeps(&self)
        ensures inputs { AreRows self.now.inputs.uses self.now.inputs.rows }
        ensures outputs { AreRows self.now.outputs.uses self.now.outputs.rows }
    {
        self.inputs.keeps();
        self.outputs.keeps();
    }
}

impl Window for JobCells {
    ghost use Rattle.std.specs.Prelude.{◌<◌, length, refl, slice_index_or};
    ghost use Rattle.std.proofs.Common.{◌∙◌, ap, subst, sym};
    ghost use Rattle.acc_kernel.specs.Jobs.{no_use, is_used};
    ghost use Rattle.acc_kernel.specs.inner.JobViews.{has_either, cell_in_either, KeepsUses};

    ghost has = { λ c. has_either c.inputs c.outputs };

    ghost cells = { λ c. cell_in_either c.inputs c.outputs };

    ghost keeps = { λ c d. KeepsUses c.inputs c.outputs d.inputs d.outputs };

    fn get(&self, array: u8, cell: i64) -> i64 {
        if self.outputs.has_array(array) {
            self.outputs.get(array, cell)
        } else {
            self.inputs.get(array, cell)
        }
    }

    fn set(&mut self, array: u8, cell: i64, value: i64) {
        if self.outputs.has_array(array) {
            self.outputs.set(array, cell, value);
        } else {
            self.inputs.keeps();
            self.inputs.set(array, cell, value);
            self.inputs.keeps();
        }
    }

    fn read(&self, array: u8, first: i64, into: &mut [i64]) {
        if self.outputs.has_array(array) {
            self.outputs.read(array, first, into);
        } else {
            self.inputs.read(array, first, into);
        }
    }

    fn has_values(&self, array: u8, first: i64, values: &[i64]) -> bool {
        if self.outputs.has_array(array) {
            self.outputs.has_values(array, first, values)
        } else {
            self.inputs.has_values(array, first, values)
        }
    }

    fn write(&mut self, array: u8, first: i64, values: &[i64]) {
        if self.outputs.has_array(array) {
            self.outputs.write(array, first, values);
        } else {
            self.inputs.keeps();
            self.inputs.write(array, first, values);
            self.inputs.keeps();
        }
    }

    ghost keeps_itself = { λ w. record { inputs = refl; outputs = refl; hidden = λ place low hidden. refl } };

    ghost keeps_on = { λ u v w e f. record {
      inputs = f.inputs ∙ e.inputs;
      outputs = f.outputs ∙ e.outputs;
      hidden = λ place low h.
          f.hidden place (subst (λ uses. place < length uses) (sym e.inputs) low)
          (ap (λ uses. is_used uses (slice_index_or v.inputs.uses place no_use).1.array) e.outputs ∙ (ap (λ uses. is_used u.outputs.uses (slice_index_or uses place no_use).1.array) e.inputs ∙ h))
          ∙ e.hidden place low h;
    } };
}
