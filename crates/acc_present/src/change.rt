//! What a directive does to a counter.

ghost use Rattle.std.specs.Prelude.{◌≡◌, false};
ghost use Rattle.acc_present.specs.Lifetimes.{can_open};
ghost use Rattle.acc_present.specs.Tables.{exit_change};

/// What becomes of a reference counter of present data (OpenACC API 3.0, 2.6.7, Reference Counters).
#[derive(Clone, Copy, Debug, PartialEq, Eq)]
pub enum Change {
    /// A region is entered: the structured counter is incremented (2.6.5, Data Construct).
    StructuredUp,
    /// A region is left: the structured counter is decremented.
    StructuredDown,
    /// `enter data`, or a routine that acts as it: the dynamic counter is incremented (2.6.6, Enter Data and Exit Data
    /// Directives).
    DynamicUp,
    /// `exit data`, or a routine that acts as it: the dynamic counter is decremented.
    DynamicDown,
    /// `exit data` with `finalize`: the dynamic counter is set to zero.
    DynamicZero,
}

/// A reference counter of present data (OpenACC API 3.0, 2.6.7, Reference Counters).
#[derive(Clone, Copy, Debug, PartialEq, Eq)]
pub enum Counter {
    /// Counts the regions that were entered and not yet left.
    Structured,
    /// Counts `enter data` and `exit data`, and the routines that act as these.
    Dynamic,
}

pub(crate) fn exit_change(counter: Counter) -> Change
    ensures change { result ≡ exit_change counter }
    ensures exit { can_open result ≡ false }
{
    match counter {
        Counter::Structured => Change::StructuredDown,
        Counter::Dynamic => Change::DynamicDown,
    }
}
