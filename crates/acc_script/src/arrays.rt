//! The arrays that a script has declared so far.

ghost use Rattle.std.specs.Prelude.{◌≡◌, ◌+◌, ◌≤◌, ◌<◌, ◌∷◌, ◌++◌, [], length, IfErr, OnOk, IfSome, false, bytes_eq};
ghost use Rattle.std.specs.List.{list_any, position};
ghost use Rattle.acc_token.specs.declared.read_fault.ReadError.{ReadError};
ghost use Rattle.acc_base.specs.declared.config.TheConstants.{MAX_ARRAYS, MAX_CELLS};
ghost use Rattle.acc_base.specs.Configurations.{rows};
ghost use Rattle.acc_script.specs.Arrays.{none_declared, size_of, texts, IsDeclared};

use acc_token::ReadError;
use indexmap::IndexSet;
use std::alloc::Global;
use std::marker::Model;

/// The arrays that a script has declared so far, with their initial values. Their names lie in the script's text.
#[derive(Drop)]
pub struct Arrays<'a> {
    names: IndexSet<&'a [u8]>,
    cells: Vec<Vec<i64>>,
}

impl<'a> Model for Arrays<'a> {
    ghost use Rattle.acc_base.specs.Configurations.{rows};
    ghost use Rattle.acc_script.specs.Arrays.{Declared, texts, IsDeclared};

    ghost Value = { Declared };

    ghost view = { λ a. record { names = texts a.names.keys; cells = rows a.cells.items } };

    ghost invariant = { λ a. IsDeclared (record { names = texts a.names.keys; cells = rows a.cells.items }) };
}

impl<'a> Arrays<'a> {
    pub(crate) fn new(alloc: Global) -> Self
        ensures { result ≡ none_declared }
    {
        Arrays {
            names: IndexSet::new(alloc),
            cells: Vec::new(alloc),
        }
    }

    /// How many are declared.
    pub(crate) fn count(&self) -> usize
        ensures { result ≡ length self.now.names }
    {
        self.cells.len()
    }

    /// Whether there is an array of this name.
    pub(crate) fn has(&self, name: &[u8]) -> bool
        ensures { result ≡ list_any (bytes_eq name.now) self.now.names }
    {
        self.names.contains(name)
    }

    /// The array of this name, by its index in the order of declaration.
    #[inline(never)]
    pub(crate) fn find(&self, name: &[u8]) -> Option<u8>
        ensures index { result ≡ position (bytes_eq name.now) self.now.names }
        ensures within { IfSome result (λ index. index < length self.now.cells) }
    {
        match self.names.get_index_of(name) {
            Some(index) => Some(index as u8),
            None => None,
        }
    }

    /// How many cells an array has.
    pub(crate) fn size_of(&self, array: u8) -> u32
        requires { array < length self.now.cells }
        ensures { result ≡ size_of self.now array }
    {
        self.cells[usize::from(array)].len() as u32
    }

    /// Declares an array with these initial values.
    pub(crate) fn declare(&mut self, name: &'a [u8], cells: Vec<i64>) -> Result<(), ReadError>
        requires fresh { list_any (bytes_eq name.now) self.old.names ≡ false }
        requires few { length self.old.names < MAX_ARRAYS }
        requires size { (1 ≤ length cells.items) × (length cells.items ≤ MAX_CELLS) }
        ensures declared { OnOk result (self.new ≡ record {
          names = self.old.names
              ++ name.now ∷ [];
          cells = self.old.cells ++ cells.items ∷ [];
        }) }
        ensures refused { IfErr result (λ error. error ≡ ReadError.Memory) }
    {
        self.cells.reserve(1)?;
        self.names.insert_full(name)?;
        self.cells.push_reserved(cells);
        Ok(())
    }

    /// The names, in the order of declaration, and the initial values.
    pub(crate) fn into_parts(self) -> (IndexSet<&'a [u8]>, Vec<Vec<i64>>)
        ensures names { texts result.0.keys ≡ self.entry.names }
        ensures cells { rows result.1.items ≡ self.entry.cells }
        ensures kept { IsDeclared self.entry }
    {
        let Arrays { names, cells } = self;
        (names, cells)
    }
}
