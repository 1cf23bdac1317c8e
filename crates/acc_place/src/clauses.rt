//! Which clauses a directive may have.

ghost use Rattle.std.specs.Prelude.{◌≡◌};
ghost use Rattle.acc_place.specs.Clauses.{is_of_region};

use crate::directive::{Clause, DataItem, Kind, Target, Waits, Written};

impl Kind {
    ghost use Rattle.acc_place.specs.Clauses.{allows_clause, allows_count, allows_items, allows_target, allows_waits, is_about_queues, may_be_async};

    /// Whether a directive of this kind may have this data clause (OpenACC API 3.0, the sections that the kinds name).
    pub fn allows_clause(&self, clause: Clause) -> bool
        ensures { result ≡ allows_clause self.now clause }
    {
        match self {
            Kind::Data => is_of_region(clause) || clause == Clause::NoCreate,
            Kind::Loop { .. } => is_of_region(clause),
            Kind::EnterData => matches!(clause, Clause::Copyin | Clause::Create),
            Kind::ExitData { .. } => matches!(clause, Clause::Copyout | Clause::Delete),
            Kind::Update { .. } => matches!(clause, Clause::UpdateSelf | Clause::UpdateDevice),
            Kind::IsPresent => matches!(clause, Clause::Present),
            Kind::EndData | Kind::Wait | Kind::AsyncTest => false,
        }
    }

    // Whether it may have the clause of each item.
    fn allows_items(&self, items: &[DataItem]) -> bool
        ensures { result ≡ allows_items self.now items.now }
    {
        items.iter().all(|item| self.allows_clause(item.clause))
    }

    // Whether it may have so many items.
    fn allows_count(&self, count: usize) -> bool
        ensures { result ≡ allows_count self.now count }
    {
        match self {
            Kind::EndData | Kind::Wait | Kind::Loop { .. } | Kind::AsyncTest => true,
            Kind::IsPresent => count == 1,
            Kind::Data | Kind::EnterData | Kind::ExitData { .. } | Kind::Update { .. } => count > 0,
        }
    }

    // Whether it may have this async clause.
    fn allows_target(&self, target: Target) -> bool
        ensures { result ≡ allows_target self.now target }
    {
        matches!(target, Target::Plain) || matches!(self, Kind::Wait) || self.may_be_async()
    }

    // Whether it may name these queues.
    fn allows_waits(&self, waits: &Waits) -> bool
        ensures { result ≡ allows_waits self.now waits.now }
    {
        match waits {
            Waits::Nothing => !self.is_about_queues(),
            Waits::All | Waits::Listed { .. } => self.may_be_async() || self.is_about_queues(),
        }
    }

    fn may_be_async(&self) -> bool
        ensures { result ≡ may_be_async self.now }
    {
        matches!(
            self,
            Kind::EnterData | Kind::ExitData { .. } | Kind::Update { .. } | Kind::Loop { .. }
        )
    }

    fn is_about_queues(&self) -> bool
        ensures { result ≡ is_about_queues self.now }
    {
        matches!(self, Kind::Wait | Kind::AsyncTest)
    }
}

// Whether it is a data clause of a data construct, and of a loop.
fn is_of_region(clause: Clause) -> bool
    ensures { result ≡ is_of_region clause }
{
    matches!(
        clause,
        Clause::Copy | Clause::Copyin | Clause::Copyout | Clause::Create | Clause::Present
    )
}

impl Written {
    ghost use Rattle.acc_place.specs.Clauses.{is_well_formed};

    /// Whether a directive can be written so: its clauses are some that its kind may have, and it has the items that it
    /// needs.
    pub fn is_well_formed(&self) -> bool
        ensures { result ≡ is_well_formed self.now }
    {
        let items = self.items.as_slice();
        self.kind.allows_items(items)
            && self.kind.allows_count(items.len())
            && self.kind.allows_target(self.target)
            && self.kind.allows_waits(&self.waits)
    }
}
