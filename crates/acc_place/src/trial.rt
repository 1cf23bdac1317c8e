//! Where a directive is tried: its items, their marks on a draft of the table, and what becomes of them; its first fault,
//! or its plan.

ghost use Rattle.std.specs.Prelude.{ℕ, ◌≡◌, ◌+◌, ◌≤◌, take, None, IfNone, IfOk, if◌then◌else◌};
ghost use Rattle.acc_base.specs.Faults.{OnlyMemory};
ghost use Rattle.acc_base.specs.declared.range.Range.{Range};
ghost use Rattle.acc_present.specs.Notes.{Note, HasNotes};
ghost use Rattle.acc_base.specs.Configurations.{lengths_of};
ghost use Rattle.acc_place.specs.Batches.{is_answered};
ghost use Rattle.acc_place.specs.Plans.{label_for, opened_region};
ghost use Rattle.acc_place.specs.Standings.{subject_by};
ghost use Rattle.acc_place.specs.inner.Trials.{behind_noted, fault_by, items_by, next_in, ops_by, placed_by, steps_by, IsKnown, IsTried};
ghost use Rattle.acc_place.specs.inner.Judging.{counted_steps, device_by};

use crate::answer::is_answered;
use crate::directive::{DataItem, Directive, MAX_ITEMS, Region};
use crate::judge::{Known, judge_all, leave_all, limit_fault};
use crate::marked::Marked;
use crate::plan::{Plan, plan_of};
use crate::subject::{ends_of, past_fault, put_items, run_in};
use acc_base::{Config, Fault, HostId};
use acc_present::Draft;
use std::alloc::Global;
use std::marker::Model;

/// Where a directive is tried: its items, the draft with the marks that they leave, and what becomes of them. It has
/// memory for any directive.
#[derive(Drop)]
pub struct Trial {
    draft: Draft,
    steps: Vec<Marked>,
    items: Vec<DataItem>,
}

impl Model for Trial {
    ghost use Rattle.std.specs.Prelude.{◌+◌, ◌*◌, ◌≤◌, vec_capacity};
    ghost use Rattle.acc_place.specs.declared.directive.TheConstants.{MAX_ITEMS};
    ghost use Rattle.acc_place.specs.inner.Trials.{TrialView};

    ghost Value = { TrialView };

    ghost view = { λ w. record { draft = w.draft; steps = w.steps.items; items = w.items.items } };

    ghost invariant = { λ w. (2 * MAX_ITEMS ≤ w.draft.room) × (2 * MAX_ITEMS ≤ vec_capacity w.steps) × (MAX_ITEMS + 1 ≤ vec_capacity w.items) };
}

impl Trial {
    /// One that has no items yet.
    ///
    /// # Errors
    ///
    /// `Memory` where memory is refused.
    pub(crate) fn new(alloc: Global) -> Result<Self, Fault>
        ensures fault { OnlyMemory result }
    {
        let draft = Draft::with_room(alloc, 2 * MAX_ITEMS)?;
        let steps = Vec::with_capacity(alloc, 2 * MAX_ITEMS)?;
        let items = Vec::with_capacity(alloc, MAX_ITEMS + 1)?;
        Ok(Trial {
            draft,
            steps,
            items,
        })
    }

    /// The items that were put in.
    pub(crate) fn items(&self) -> &[DataItem]
        ensures { result.now ≡ self.now.items }
    {
        self.items.as_slice()
    }

    /// Puts in the items that a host's directive acts on. It stops behind one more than a directive may have, and takes
    /// no memory.
    pub(crate) fn put_items(
        &mut self,
        config: &Config,
        regions: &[Region],
        host: HostId,
        directive: &Directive,
    )
        ensures { self.new.items
            ≡ take (MAX_ITEMS + 1)
            (subject_by
            (lengths_of config.now.arrays) regions.now host directive.now directive.now.kind).items }
    {
        put_items(config, regions, host, directive, &mut self.items);
    }

    /// The first fault of a host's directive on a device that is there; where it has none, its items, their marks and what
    /// became of them are here. The table isn't changed: the marks stand in the draft.
    pub(crate) fn judge(
        &mut self,
        known: &Known,
        host: HostId,
        directive: &Directive,
    ) -> Option<Fault>
        requires known { IsKnown known.now }
        requires device { known.now.at.device
            ≡ device_by known.now.regions.now host directive.now directive.now.kind }
        ensures fault { result ≡ fault_by known.now host directive.now }
        ensures tried { IfNone result (IsTried known.now host directive.now self.new) }
    {
        put_items(
            known.config,
            known.regions,
            host,
            directive,
            &mut self.items,
        );
        let kind = directive.kind();
        let items = self.items.as_slice();
        let limit = limit_fault(known, host, directive, items.len());
        if limit.is_some() {
            return limit;
        }
        self.draft.begin(known.table);
        self.steps.clear();
        let found = judge_all(
            known,
            &mut self.draft,
            kind,
            items,
            known.opened,
            &mut self.steps,
        );
        if found.is_some() {
            return found;
        }
        past_fault(kind, items)
    }

    /// The plan of a host's directive that was judged last, and has no fault, with its batch where that is wanted.
    ///
    /// # Errors
    ///
    /// `Memory` where memory is refused.
    pub(crate) fn plan(
        &mut self,
        alloc: Global,
        known: &Known,
        host: HostId,
        items_done: u64,
        directive: &Directive,
        with_batch: bool,
    ) -> Result<Plan, Fault>
        requires known { IsKnown known.now }
        requires tried { IsTried known.now host directive.now self.old }
        ensures host { IfOk result (λ q. (q.host ≡ host) × (q.items_done ≡ items_done)
            × (q.stamp ≡ known.now.accepted)) }
        ensures directive { IfOk result (λ q. q.directive ≡ directive.now) }
        ensures region { IfOk result (λ q.
            q.region ≡ opened_region host directive.now directive.now.kind
            (counted_steps (steps_by known.now host directive.now))) }
        ensures label { (notes : Range → ℕ → Note) → HasNotes notes known.now.table.now.notes
            → IfOk result (λ q.
            q.label ≡ label_for known.now.at (next_in known.now) host items_done
            (behind_noted known.now notes directive.now (ops_by known.now host directive.now)
            (steps_by known.now host directive.now))) }
        ensures batch { IfOk result (λ q. q.batch ≡ (if with_batch then q.label else None)) }
        ensures answer { IfOk result (λ q.
            q.answer ≡ placed_by known.now directive.now q.label
            (is_answered directive.now.kind known.now.table.now.presences
            (items_by known.now host directive.now))) }
        ensures fault { OnlyMemory result }
    {
        let kind = directive.kind();
        let items = self.items.as_slice();
        let run = run_in(alloc, known.table, &self.draft, kind, items)?;
        let present = is_answered(known.table, kind, items);
        let ends = ends_of(kind, items);
        leave_all(known.table, &mut self.draft, ends, &mut self.steps);
        plan_of(
            alloc,
            known,
            host,
            items_done,
            directive,
            self.steps.as_slice(),
            run,
            present,
            with_batch,
        )
    }
}
