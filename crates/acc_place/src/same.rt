//! Whether two directives, or two answers to directives, are equal.

ghost use Rattle.std.specs.Prelude.{◌≡◌, ◌↔◌, IsTrue};

use crate::directive::{DataItem, Directive, Kind, Placed, Waits};

// Whether two lists of items are equal.
fn are_same_items(items: &[DataItem], others: &[DataItem]) -> bool
    ensures { IsTrue result ↔ items.now ≡ others.now }
{
    if items.len() != others.len() {
        return false;
    }
    for index in 0..items.len() {
        if items[index] != others[index] {
            return false;
        }
    }
    true
}

// Whether two lists of values of a wait are equal.
fn are_same_values(values: &[i64], others: &[i64]) -> bool
    ensures { IsTrue result ↔ values.now ≡ others.now }
{
    values == others
}

impl Kind {
    // Whether two kinds are equal, with what is written of them.
    fn is_same(&self, other: &Kind) -> bool
        ensures { IsTrue result ↔ self.now ≡ other.now }
    {
        match (self, other) {
            (Kind::Data, Kind::Data) => true,
            (Kind::EndData, Kind::EndData) => true,
            (Kind::EnterData, Kind::EnterData) => true,
            (
                Kind::ExitData { finalize },
                Kind::ExitData {
                    finalize: other_finalize,
                },
            ) => finalize == other_finalize,
            (
                Kind::Update { if_present },
                Kind::Update {
                    if_present: other_if_present,
                },
            ) => if_present == other_if_present,
            (Kind::Wait, Kind::Wait) => true,
            (
                Kind::Loop { kernel },
                Kind::Loop {
                    kernel: other_kernel,
                },
            ) => kernel.get().is_same(other_kernel.get()),
            (Kind::AsyncTest, Kind::AsyncTest) => true,
            (Kind::IsPresent, Kind::IsPresent) => true,
            _ => false,
        }
    }
}

impl Waits {
    // Whether both name the same queues, as they are written.
    fn is_same(&self, other: &Waits) -> bool
        ensures { IsTrue result ↔ self.now ≡ other.now }
    {
        match (self, other) {
            (Waits::Nothing, Waits::Nothing) => true,
            (Waits::All, Waits::All) => true,
            (
                Waits::Listed { values },
                Waits::Listed {
                    values: other_values,
                },
            ) => are_same_values(values.as_slice(), other_values.as_slice()),
            _ => false,
        }
    }
}

impl Directive {
    /// Whether two directives are equal: in their device, their default async value, and all that is written. It takes no memory.
    pub fn is_same(&self, other: &Directive) -> bool
        ensures { IsTrue result ↔ self.now ≡ other.now }
    {
        self.device() == other.device()
            && self.default() == other.default()
            && self.kind().is_same(other.kind())
            && are_same_items(self.items().as_slice(), other.items().as_slice())
            && self.target() == other.target()
            && self.waits().is_same(other.waits())
    }
}

impl Placed {
    /// Whether two answers are equal. It takes no memory.
    pub fn is_same(&self, other: &Placed) -> bool
        ensures { IsTrue result ↔ self.now ≡ other.now }
    {
        self == other
    }
}
