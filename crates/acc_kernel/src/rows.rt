//! The cells of a job: a row for each use, found by its array's number in a table.

ghost use Rattle.std.specs.Prelude.{◌≡◌, ◌↔◌, ℕ, ◌+◌, ◌<◌, pos, [], length, slice_index_or, slice_set, true, IsTrue, IfOk, ◌^◌};
ghost use Rattle.acc_base.specs.Faults.{OnlyMemory};
ghost use Rattle.acc_kernel.specs.Cells.{with_cells};
ghost use Rattle.acc_kernel.specs.Jobs.{AreDistinct, AreRows, HasUses, zero_rows, uses_have, cell_in, is_used, place_of, no_use, shown, stored, values_shown};
ghost use Rattle.acc_kernel.specs.inner.RowTables.{RowsView, HasRange, IsTable};

use crate::window::{Window, distance};
use acc_base::{BlockId, Fault, Range};
use acc_raw::Cells;
use std::alloc::Global;
use std::marker::Model;

/// The rows of some uses, each found by its array's number.
#[derive(Drop)]
pub struct Rows {
    uses: Vec<(BlockId, Range)>,
    places: Vec<usize>,
    rows: Vec<Cells>,
}

impl Model for Rows {
    ghost use Rattle.acc_kernel.specs.inner.RowTables.{RowsView, IsStored};

    ghost Value = { RowsView };

    ghost view = { λ r. record { uses = r.uses.items; rows = r.rows.items } };

    ghost invariant = { λ r. IsStored r.uses.items r.places.items r.rows.items };
}

impl Rows {
    /// All zero.
    ///
    /// # Errors
    ///
    /// `Memory` where memory is refused.
    pub(crate) fn zeroed(alloc: Global, uses: Vec<(BlockId, Range)>) -> Result<Self, Fault>
        requires distinct { AreDistinct uses.items }
        ensures uses { IfOk result (λ r. r.uses ≡ uses.items) }
        ensures rows { IfOk result (λ r. r.rows ≡ zero_rows uses.items) }
        ensures fault { OnlyMemory result }
    {
        let places = places(alloc, uses.as_slice())?;
        let rows = zero_rows(alloc, uses.as_slice())?;
        Ok(Rows { uses, places, rows })
    }

    /// Rows of other uses, in the memory of these where they are as long. They have any values.
    ///
    /// # Errors
    ///
    /// `Memory` where memory is refused.
    pub(crate) fn renewed(self, alloc: Global, uses: Vec<(BlockId, Range)>) -> Result<Self, Fault>
        requires distinct { AreDistinct uses.items }
        ensures uses { IfOk result (λ r. r.uses ≡ uses.items) }
        ensures fault { OnlyMemory result }
    {
        let places = places(alloc, uses.as_slice())?;
        let rows = fitted(alloc, self.rows, uses.as_slice())?;
        Ok(Rows { uses, places, rows })
    }

    pub(crate) fn uses(&self) -> &[(BlockId, Range)]
        ensures { result.now ≡ self.now.uses }
    {
        self.uses.as_slice()
    }

    /// The uses differ in their arrays, and each has a row, with a value for each of its cells.
    pub(crate) fn keeps(&self)
        ensures distinct { AreDistinct self.now.uses }
        ensures shape { AreRows self.now.uses self.now.rows }
    {
        let _ = &self.rows;
    }

    /// Whether some use is of an array.
    pub(crate) fn has_array(&self, array: u8) -> bool
        ensures { result ≡ is_used self.now.uses array }
    {
        self.places[usize::from(array)] < self.rows.len()
    }

    pub(crate) fn row(&self, place: usize) -> &[i64]
        requires { place < length self.now.uses }
        ensures { result.now ≡ slice_index_or self.now.rows place [] }
    {
        self.rows[place].as_slice()
    }

    /// Takes as many values for a use's cells.
    pub(crate) fn fill(&mut self, place: usize, source: &[i64])
        requires place { place < length self.old.uses }
        requires len { length source.now ≡ (slice_index_or self.old.uses place no_use).1.len }
        ensures uses { self.new.uses ≡ self.old.uses }
        ensures rows { self.new.rows ≡ slice_set self.old.rows place source.now }
    {
        let row = &mut self.rows[place];
        row.copy_from(0, source);
    }

    /// Takes the values that a window shows.
    pub(crate) fn load<W: Window>(&mut self, window: &W)
        requires has { HasUses self.old.uses (W.has window.now) }
        ensures uses { self.new.uses ≡ self.old.uses }
        ensures rows { self.new.rows ≡ shown self.old.uses (W.cells window.now) }
    {
        for place in 0..self.rows.len() {
            let range = self.uses[place].1;
            read_row(window, range, &mut self.rows[place]);
        }
    }

    /// Takes the values that other rows have of its cells, of each array that these have.
    pub(crate) fn load_known(&mut self, source: &Rows)
        requires has { (place : ℕ) → place < length self.old.uses
            → is_used source.now.uses (slice_index_or self.old.uses place no_use).1.array ≡ true
            → HasRange (slice_index_or self.old.uses place no_use).1 (uses_have source.now.uses) }
        ensures uses { self.new.uses ≡ self.old.uses }
        ensures rows { (place : ℕ) → place < length self.old.uses
            → is_used source.now.uses (slice_index_or self.old.uses place no_use).1.array ≡ true
            → slice_index_or self.new.rows place []
            ≡ values_shown (cell_in source.now.uses source.now.rows)
            (slice_index_or self.old.uses place no_use).1 }
    {
        for place in 0..self.rows.len() {
            let range = self.uses[place].1;
            if source.has_array(range.array) {
                read_row(source, range, &mut self.rows[place]);
            }
        }
    }

    /// Whether a window shows these values.
    pub(crate) fn are_shown<W: Window>(&self, window: &W) -> bool
        requires has { HasUses self.now.uses (W.has window.now) }
        ensures { IsTrue result ↔ (self.now.rows ≡ shown self.now.uses (W.cells window.now)) }
    {
        for place in 0..self.rows.len() {
            let range = self.uses[place].1;
            if !is_shown(window, range, self.rows[place].as_slice()) {
                return false;
            }
        }
        true
    }

    /// Writes the values to a window.
    pub(crate) fn store<W: Window>(&self, window: &mut W)
        requires has { HasUses self.now.uses (W.has window.old) }
        ensures has { W.has window.new ≡ W.has window.old }
        ensures keeps { W.keeps window.old window.new }
        ensures cells { W.cells window.new
            ≡ stored self.now.uses self.now.rows (W.cells window.old) }
    {
        for place in 0..self.rows.len() {
            let range = self.uses[place].1;
            write_row(window, range, self.rows[place].as_slice());
        }
    }
}

// Fills a row with the values of a range's cells.
fn read_row<W: Window>(window: &W, range: Range, row: &mut Cells)
    requires long { length row.old ≡ range.len }
    requires has { HasRange range (W.has window.now) }
    ensures { row.new ≡ values_shown (W.cells window.now) range }
{
    if range.len > 0 {
        window.read(range.array, i64::from(range.lo), row.as_mut_slice());
    }
}

// Writes the values to the cells of a range.
fn write_row<W: Window>(window: &mut W, range: Range, values: &[i64])
    requires long { length values.now ≡ range.len }
    requires has { HasRange range (W.has window.old) }
    ensures has { W.has window.new ≡ W.has window.old }
    ensures keeps { W.keeps window.old window.new }
    ensures cells { W.cells window.new
        ≡ with_cells (W.cells window.old) range.array (pos range.lo) range.len values.now }
{
    if range.len > 0 {
        window.write(range.array, i64::from(range.lo), values);
    }
}

// Whether a range's cells have these values.
fn is_shown<W: Window>(window: &W, range: Range, values: &[i64]) -> bool
    requires long { length values.now ≡ range.len }
    requires has { HasRange range (W.has window.now) }
    ensures { IsTrue result ↔ (values.now ≡ values_shown (W.cells window.now) range) }
{
    range.len == 0 || window.has_values(range.array, i64::from(range.lo), values)
}

impl Window for Rows {
    ghost use Rattle.std.specs.Prelude.{◌≡◌, refl};
    ghost use Rattle.std.proofs.Common.{◌∙◌};
    ghost use Rattle.acc_kernel.specs.Jobs.{uses_have, cell_in};

    ghost has = { λ r. uses_have r.uses };

    ghost cells = { λ r. cell_in r.uses r.rows };

    ghost keeps = { λ r s. s.uses ≡ r.uses };

    fn get(&self, array: u8, cell: i64) -> i64 {
        let place = self.places[usize::from(array)];
        self.rows[place].get(distance(cell, self.uses[place].1.lo))
    }

    fn set(&mut self, array: u8, cell: i64, value: i64) {
        let place = self.places[usize::from(array)];
        let at = distance(cell, self.uses[place].1.lo);
        let row = &mut self.rows[place];
        row.set(at, value);
    }

    fn read(&self, array: u8, first: i64, into: &mut [i64]) {
        let place = self.places[usize::from(array)];
        self.rows[place].copy_to(distance(first, self.uses[place].1.lo), into);
    }

    fn has_values(&self, array: u8, first: i64, values: &[i64]) -> bool {
        let place = self.places[usize::from(array)];
        self.rows[place].has_values(distance(first, self.uses[place].1.lo), values)
    }

    fn write(&mut self, array: u8, first: i64, values: &[i64]) {
        let place = self.places[usize::from(array)];
        let at = distance(first, self.uses[place].1.lo);
        let row = &mut self.rows[place];
        row.copy_from(at, values);
    }

    ghost keeps_itself = { λ w. refl };

    ghost keeps_on = { λ u v w e f. f ∙ e };
}

// A row for each use, those of the old ones that are as long and stand at its place.
fn fitted(alloc: Global, old: Vec<Cells>, uses: &[(BlockId, Range)]) -> Result<Vec<Cells>, Fault>
    ensures shape { IfOk result (λ rows. AreRows uses.now rows.items) }
    ensures fault { OnlyMemory result }
{
    let mut old = old.into_iter();
    let mut rows = Vec::with_capacity(alloc, uses.len())?;
    for (_, range) in uses {
        rows.push_reserved(fit(alloc, old.next(), range.len as usize)?);
    }
    Ok(rows)
}

// A row of so many cells, the old one if it is as long.
fn fit(alloc: Global, old: Option<Cells>, len: usize) -> Result<Cells, Fault>
    ensures long { IfOk result (λ row. length row ≡ len) }
    ensures fault { OnlyMemory result }
{
    match old {
        Some(row) if row.len() == len => Ok(row),
        _ => Cells::zeroed(alloc, len),
    }
}

fn zero_rows(alloc: Global, uses: &[(BlockId, Range)]) -> Result<Vec<Cells>, Fault>
    ensures rows { IfOk result (λ rows. rows.items ≡ zero_rows uses.now) }
    ensures fault { OnlyMemory result }
{
    let mut rows = Vec::with_capacity(alloc, uses.len())?;
    for (_, range) in uses {
        rows.push_reserved(Cells::zeroed(alloc, range.len as usize)?);
    }
    Ok(rows)
}

// Of each array the place of its use, or how many uses there are.
fn places(alloc: Global, uses: &[(BlockId, Range)]) -> Result<Vec<usize>, Fault>
    ensures table { IfOk result (λ places. IsTable uses.now places.items) }
    ensures fault { OnlyMemory result }
{
    let mut places = vec![in alloc; uses.len(); 256]?;
    put_places(uses, 0, places.as_mut_slice());
    Ok(places)
}

// Puts in the place of each array's first use, where so many uses stand before these.
fn put_places(uses: &[(BlockId, Range)], before: usize, places: &mut [usize])
    requires count { length places.old ≡ 256 }
    requires few { before + length uses.now < 2 ^ 64 }
    requires behind { (array : ℕ) → array < 256
        → slice_index_or places.old array 0 ≡ before + length uses.now }
    ensures count { length places.new ≡ 256 }
    ensures places { (array : ℕ) → array < 256
        → slice_index_or places.new array 0 ≡ before + place_of uses.now array }
{
    match uses {
        [] => {}
        [(_, range), rest @ ..] => {
            put_places(rest, before + 1, places);
            places[usize::from(range.array)] = before;
        }
    }
}
