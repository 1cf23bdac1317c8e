//! A value in a place of its own: contracts see the value.

ghost use Rattle.std.specs.Prelude.{◌≡◌, IfOk};
ghost use Rattle.acc_base.specs.Faults.{OnlyMemory};

use crate::fault::Fault;
use std::alloc::Global;
use std::marker::Model;

/// A value on the heap. A contract sees the value.
#[derive(Drop)]
pub struct Boxed<T> {
    inner: Box<T>,
}

impl<T> Model for Boxed<T> {
    ghost Value = { T };

    ghost coded = { T.code };

    ghost view = { λ b. b.inner.value };
}

impl<T> Boxed<T> {
    /// The value.
    pub fn get(&self) -> &T
        ensures { result.now ≡ self.now }
    {
        &self.inner
    }

    /// The value, out of its place.
    pub fn into_inner(self) -> T
        ensures { result ≡ self }
    {
        let Boxed { inner } = self;
        Box::into_inner(inner)
    }
}

impl<T: Drop> Boxed<T> {
    /// A place of its own for the value.
    ///
    /// # Errors
    ///
    /// `Memory` where memory is refused.
    pub fn new(alloc: Global, value: T) -> Result<Self, Fault>
        ensures held { IfOk result (λ b. b ≡ value) }
        ensures fault { OnlyMemory result }
    {
        match Box::new(alloc, value) {
            Ok(inner) => Ok(Boxed { inner }),
            Err(_) => Err(Fault::Memory),
        }
    }

    /// Puts another value there, in place of the one before.
    pub fn set(&mut self, value: T)
        ensures { self.new ≡ value }
    {
        *self.inner = value;
    }
}
