//! Cells that a loop reads and writes, whoever has them.

ghost use Rattle.std.specs.Prelude.{◌≡◌, ℕ, ℤ, ◌+ℤ◌, ◌-ℤ◌, ◌<◌, ◌≤ℤ◌, ◌↔◌, pos, Bool, IsTrue, length, slice_index_or};
ghost use Rattle.acc_kernel.specs.Cells.{with_cell, with_cells};

/// Cells of some arrays, that a loop reads and writes.
pub trait Window {
    /// Whether it has a cell of an array.
    ghost has: { Self → ℕ → ℤ → Bool };

    /// What the cells hold, by the array and the cell.
    ghost cells: { Self → ℕ → ℤ → ℤ };

    /// What else of it stays when cells are written.
    ghost keeps: { Self → Self → Type 0 };

    /// The value of a cell.
    fn get(&self, array: u8, cell: i64) -> i64
        requires { IsTrue (has self.now array cell) }
        ensures { result ≡ cells self.now array cell };

    /// Writes one cell.
    fn set(&mut self, array: u8, cell: i64, value: i64)
        requires { IsTrue (has self.old array cell) }
        ensures has { has self.new ≡ has self.old }
        ensures cells { cells self.new ≡ with_cell (cells self.old) array cell value }
        ensures keeps { keeps self.old self.new };

    /// The values of as many cells, side by side from the first on.
    fn read(&self, array: u8, first: i64, into: &mut [i64])
        requires some { 0 < length into.old }
        requires has { (k : ℕ) → k < length into.old
            → IsTrue (has self.now array (first +ℤ pos k)) }
        ensures { (k : ℕ) → k < length into.old
            → slice_index_or into.new k (pos 0) ≡ cells self.now array (first +ℤ pos k) };

    /// Whether as many cells, side by side from the first on, have these values.
    fn has_values(&self, array: u8, first: i64, values: &[i64]) -> bool
        requires some { 0 < length values.now }
        requires has { (k : ℕ) → k < length values.now
            → IsTrue (has self.now array (first +ℤ pos k)) }
        ensures { IsTrue result
            ↔ ((k : ℕ) → k < length values.now
            → slice_index_or values.now k (pos 0) ≡ cells self.now array (first +ℤ pos k)) };

    /// Writes as many cells, side by side from the first on.
    fn write(&mut self, array: u8, first: i64, values: &[i64])
        requires some { 0 < length values.now }
        requires has { (k : ℕ) → k < length values.now
            → IsTrue (has self.old array (first +ℤ pos k)) }
        ensures has { has self.new ≡ has self.old }
        ensures cells { cells self.new
            ≡ with_cells (cells self.old) array first (length values.now) values.now }
        ensures keeps { keeps self.old self.new };

    ghost keeps_itself: { (w : Self) → keeps w w };

    ghost keeps_on: { (u v w : Self) → keeps u v → keeps v w → keeps u w };
}

/// How far a cell is behind the first of a range, which it isn't before.
pub fn distance(cell: i64, lo: u32) -> usize
    requires { pos lo ≤ℤ cell }
    ensures { cell -ℤ pos lo ≡ pos result }
{
    (cell - i64::from(lo)) as usize
}
