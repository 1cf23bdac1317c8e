//! Marks that threads set for one another.

ghost use Rattle.std.specs.Prelude.{◌<◌};

use std::sync::atomic::{AtomicU64, Ordering};

/// A mark for each number below 64. None is set at first.
#[derive(Drop)]
pub(crate) struct Marks {
    bits: AtomicU64,
}

impl Marks {
    pub(crate) fn new() -> Self {
        Marks {
            bits: AtomicU64::new(0),
        }
    }

    /// Sets the mark of a number.
    pub(crate) fn set(&self, number: usize)
        requires { number < 64 }
    {
        self.bits.fetch_or(1u64 << number, Ordering::SeqCst);
    }

    /// Whether the mark of a number is set.
    pub(crate) fn has(&self, number: usize) -> bool
        requires { number < 64 }
    {
        self.bits.load(Ordering::SeqCst) & (1u64 << number) != 0
    }
}
