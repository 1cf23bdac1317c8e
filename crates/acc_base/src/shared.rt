//! A value with several owners: contracts see the value.

ghost use Rattle.std.specs.Prelude.{◌≡◌, IfOk};
ghost use Rattle.acc_base.specs.Faults.{OnlyMemory};

use crate::fault::Fault;
use std::alloc::Global;
use std::marker::Model;
use std::sync::Arc;

/// A value with several owners, in any threads. A contract sees the value.
#[derive(Drop)]
pub struct Shared<T> {
    inner: Arc<T, Global>,
}

impl<T> Model for Shared<T> {
    ghost Value = { T };

    ghost coded = { T.code };

    ghost view = { λ s. s.inner.value };
}

impl<T> Shared<T> {
    /// The value.
    pub fn get(&self) -> &T
        ensures { result.now ≡ self.now }
    {
        &self.inner
    }

    /// One more owner of the value. It takes no memory.
    ///
    /// # Errors
    ///
    /// `Memory` where the count of its owners is full.
    pub fn try_clone(&self) -> Result<Self, Fault>
        ensures equal { IfOk result (λ s. s ≡ self.now) }
        ensures fault { OnlyMemory result }
    {
        let inner = Arc::try_clone(&self.inner)?;
        Ok(Shared { inner })
    }
}

impl<T: Drop> Shared<T> {
    /// Its first owner.
    ///
    /// # Errors
    ///
    /// `Memory` where memory is refused.
    pub fn new(alloc: Global, value: T) -> Result<Self, Fault>
        ensures held { IfOk result (λ s. s ≡ value) }
        ensures fault { OnlyMemory result }
    {
        match Arc::new(alloc, value) {
            Ok(inner) => Ok(Shared { inner }),
            Err(_) => Err(Fault::Memory),
        }
    }
}
