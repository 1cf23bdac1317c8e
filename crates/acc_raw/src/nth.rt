//! A number that contracts see and nothing reads.
ghost use Rattle.std.specs.Prelude.{◌≡◌, ◌+◌, ◌-◌, ℕ};
ghost use Rattle.std.specs.Borrow.{ftrue};

use std::marker::Model;

/// Which node, counted from 0, or how many there are. It takes no bytes, so it has no greatest value.
#[derive(Drop)]
pub(crate) struct Nth {
    pub ghost n: { ℕ },
}

impl Model for Nth {
    ghost also_owns = { λ _. ftrue };
}

unsafe impl Send for Nth {}

unsafe impl Sync for Nth {}

/// A number that the caller's proof picks by what `from` is.
pub(crate) fn nth_by<T>(from: &T) -> Nth
    ghost n: { ℕ }
    ensures { result.n ≡ n }
{
    let _ = from;
    Nth {}
}

impl Nth {
    /// The number of a machine's one.
    pub(crate) fn of(n: usize) -> Nth
        ensures { result.n ≡ n }
    {
        nth_by(&n)
    }

    /// The same number.
    pub(crate) fn same(&self) -> Nth
        ensures { result.n ≡ self.now.n }
    {
        nth_by(self)
    }

    /// The number after it.
    pub(crate) fn after(&self) -> Nth
        ensures { result.n ≡ self.now.n + 1 }
    {
        nth_by(self)
    }

    /// The number before it, and 0 for 0.
    pub(crate) fn before(&self) -> Nth
        ensures { result.n ≡ self.now.n - 1 }
    {
        nth_by(self)
    }
}
