//! A vector that contracts see as the list of its items.

ghost use Rattle.std.specs.Prelude.{◌≡◌, IfOk};
ghost use Rattle.acc_base.specs.Faults.{OnlyMemory};

use crate::fault::Fault;
use std::alloc::Global;
use std::marker::Model;

/// A vector that a contract sees as the list of its items.
#[derive(Drop)]
pub struct Listed<T> {
    items: Vec<T>,
}

impl<T> Model for Listed<T> {
    ghost use Rattle.std.specs.Prelude.{List};

    ghost Value = { List T };

    ghost view = { λ a. a.items.items };
}

impl<T> Listed<T> {
    /// Takes no memory.
    pub fn from_vec(items: Vec<T>) -> Self
        ensures { result ≡ items.items }
    {
        Listed { items }
    }

    /// Takes no memory.
    pub fn into_vec(self) -> Vec<T>
        ensures { result.items ≡ self }
    {
        let Listed { items } = self;
        items
    }

    /// All items, in their order.
    pub fn as_slice(&self) -> &[T]
        ensures { result.now ≡ self.now }
    {
        self.items.as_slice()
    }
}

impl<T: Copy> Listed<T> {
    /// An equal list.
    ///
    /// # Errors
    ///
    /// `Memory` where memory is refused.
    pub fn try_clone(&self, alloc: Global) -> Result<Self, Fault>
        ensures equal { IfOk result (λ a. a ≡ self.now) }
        ensures fault { OnlyMemory result }
    {
        let items = Vec::from_slice(alloc, self.as_slice())?;
        Ok(Listed { items })
    }
}
