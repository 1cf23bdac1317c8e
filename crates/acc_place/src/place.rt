//! The place: the devices, the regions, the place history and the labels. It plans a directive, accepts it, and closes.

ghost use Rattle.std.specs.Prelude.{reverse, false, ◌≡◌, ◌<◌, [], ◌∷◌, length, true, None, IfOk, IfErr, OnOk, OnErr, OnSome, if◌then◌else◌};
ghost use Rattle.acc_base.specs.Faults.{OnlyMemory};
ghost use Rattle.acc_base.specs.Configurations.{IsRefusal};
ghost use Rattle.acc_base.specs.declared.ids.QueueAt.{QueueAt};
ghost use Rattle.acc_place.specs.Accepting.{refusal};
ghost use Rattle.acc_place.specs.Batches.{answer_of, next_number};
ghost use Rattle.acc_place.specs.Closing.{place_after_begin, close_of, place_after_close, handed_back, handed_out, is_at_hand, ClosesQueue, IsCloseOut};
ghost use Rattle.acc_place.specs.declared.directive.PlaceEntry.TheVariants.{Accepted};
ghost use Rattle.acc_place.specs.Histories.{IsQueue};
ghost use Rattle.acc_place.specs.Plans.{standing_in, IsPlanOf, IsRoomy, Fits, place_after, queue_for};
ghost use Rattle.acc_place.specs.Standings.{walk_of};

use crate::answer::Answer;
use crate::closes::{Close, closes_of};
use crate::device::{Device, devices_of, note_label};
use crate::directive::{Directive, Kind, PlaceEntry, Placed, Region};
use crate::judge::Known;
use crate::labels::{Labels, push_label};
use crate::plan::Plan;
use crate::regions::{device_by, enter_or_leave, written_by};
use crate::subject::ends_of;
use crate::targets::queue_by;
use crate::trial::Trial;
use acc_base::{Config, DeviceId, Fault, HostId, QueueAt};
use acc_batch::Batch;
use std::alloc::Global;
use std::marker::Model;

/// Where directives are judged and accepted: the devices' tables, the data constructs that the hosts are inside, and the
/// place history with its counts and labels.
#[derive(Drop)]
pub struct Place {
    pub(crate) alloc: Global,
    pub(crate) config: Config,
    // by number
    pub(crate) devices: Vec<Device>,
    pub(crate) history: Vec<PlaceEntry>,
    pub(crate) counts: Vec<u64>,
    // what was answered, one for each count
    pub(crate) answers: Vec<Answer>,
    pub(crate) closing: bool,
    // by device, then in queue order
    pub(crate) closes: Vec<Close>,
    // the data constructs that the hosts are inside, the latest first
    pub(crate) regions: Vec<Region>,
    pub(crate) labels: Labels,
    // where a directive is tried before it is accepted
    pub(crate) trial: Trial,
}

impl Model for Place {
    ghost use Rattle.std.specs.Prelude.{is_some, length, map, reverse, vec_capacity, ◌-◌};
    ghost use Rattle.std.specs.Coded.{codes};
    ghost use Rattle.acc_kernel.specs.contracts.expr.Expr as expr;
    ghost use Rattle.acc_place.specs.Plans.{PlaceView};
    ghost use Rattle.acc_place.specs.Histories.{standing};
    ghost use Rattle.acc_place.specs.inner.Places.{closing_entries, IsPlace, KeepsCloses};

    ghost Value = { PlaceView };

    ghost coded = { Prim.hlevel (codes, expr.the_row.coded) };

    ghost view = { λ w. record { config = w.config; history = reverse w.history.items; counts = reverse w.counts.items; closes = map (λ c. is_some c.batch) w.closes.items; room = record { entries = vec_capacity w.history - closing_entries w.config; counts = vec_capacity w.counts; answers = vec_capacity w.answers; regions = vec_capacity w.regions; batches = w.labels.room; ranges = map (λ v. v.table.room) w.devices.items } } };

    ghost invariant = { λ w. IsPlace w.config (reverse w.history.items) (reverse w.counts.items) (reverse w.answers.items) w.devices.items w.regions.items w.labels.queues × KeepsCloses w.config (standing w.config (reverse w.history.items) (reverse w.counts.items)) w.closing w.closes.items (length w.history.items) (vec_capacity w.history) w.labels.room };
}

impl Place {
    /// A place without directives, which has the memory that closing needs.
    ///
    /// # Errors
    ///
    /// `Memory` where memory is refused.
    pub fn new(alloc: Global, config: Config) -> Result<Self, Fault>
        ensures config { IfOk result (λ p. p.config ≡ config) }
        ensures history { IfOk result (λ p. p.history ≡ []) }
        ensures counts { IfOk result (λ p. p.counts ≡ []) }
        ensures closes { IfOk result (λ p. (at : QueueAt) → IsQueue config at
            → is_at_hand p at ≡ true) }
        ensures fault { OnlyMemory result }
    {
        let devices = devices_of(alloc, &config)?;
        let labels = Labels::new(alloc, &config)?;
        let closes = closes_of(alloc, &config)?;
        let history = Vec::with_capacity(alloc, closes.len() + 1)?;
        let trial = Trial::new(alloc)?;
        Ok(Place {
            alloc,
            config,
            devices,
            history,
            counts: Vec::new(alloc),
            answers: Vec::new(alloc),
            closing: false,
            closes,
            regions: Vec::new(alloc),
            labels,
            trial,
        })
    }

    /// What accepting a directive of this host, which has so many items, would add, with its batch. Nothing is added but
    /// spare memory.
    ///
    /// # Errors
    ///
    /// The directive's first fault, or `Memory` where it has none and memory is refused.
    pub fn plan(
        &mut self,
        host: HostId,
        items_done: u64,
        directive: &Directive,
    ) -> Result<Plan, Fault>
        ensures config { self.new.config ≡ self.old.config }
        ensures history { self.new.history ≡ self.old.history }
        ensures counts { self.new.counts ≡ self.old.counts }
        ensures closes { self.new.closes ≡ self.old.closes }
        ensures roomy { (at : QueueAt) → IsRoomy self.old at → IsRoomy self.new at }
        ensures refused { IfErr result (λ fault.
            IsRefusal (refusal self.old.config (standing_in self.old) host directive.now) fault) }
        ensures plan { IfOk result (λ q. (q.host ≡ host) × (q.items_done ≡ items_done)
            × (q.directive ≡ directive.now)) }
        ensures stamp { IfOk result (λ q. q.stamp ≡ length self.new.history) }
        ensures fits { IfOk result (λ q. Fits self.new q × IsPlanOf self.new q) }
        ensures batch { IfOk result (λ q. q.batch ≡ q.label) }
    {
        self.make_plan(host, items_done, directive, true)
    }

    /// Accepts a directive of this host, which has so many items, without its batch: so a place history is told once more.
    ///
    /// # Errors
    ///
    /// The directive's first fault, or `Memory` where it has none and memory is refused; then nothing is added but spare memory.
    pub fn retell(
        &mut self,
        host: HostId,
        items_done: u64,
        directive: &Directive,
    ) -> Result<Placed, Fault>
        ensures config { self.new.config ≡ self.old.config }
        ensures closes { self.new.closes ≡ self.old.closes }
        ensures history { OnOk result
            (self.new.history ≡ Accepted host directive.now ∷ self.old.history) }
        ensures counts { OnOk result (self.new.counts ≡ items_done ∷ self.old.counts) }
        ensures answer { IfOk result (λ placed.
            placed ≡ answer_of (standing_in self.old) directive.now
            (walk_of (standing_in self.old) host directive.now)) }
        ensures refused { IfErr result (λ fault.
            IsRefusal (refusal self.old.config (standing_in self.old) host directive.now) fault) }
        ensures unchanged { OnErr result ((self.new.history ≡ self.old.history)
            × (self.new.counts ≡ self.old.counts)) }
    {
        let plan = self.make_plan(host, items_done, directive, false)?;
        Ok(self.accept(plan))
    }

    // What accepting a directive would add, with its batch where that is wanted.
    fn make_plan(
        &mut self,
        host: HostId,
        items_done: u64,
        directive: &Directive,
        with_batch: bool,
    ) -> Result<Plan, Fault>
        ensures config { self.new.config ≡ self.old.config }
        ensures history { self.new.history ≡ self.old.history }
        ensures counts { self.new.counts ≡ self.old.counts }
        ensures closes { self.new.closes ≡ self.old.closes }
        ensures roomy { (at : QueueAt) → IsRoomy self.old at → IsRoomy self.new at }
        ensures refused { IfErr result (λ fault.
            IsRefusal (refusal self.old.config (standing_in self.old) host directive.now) fault) }
        ensures plan { IfOk result (λ q. (q.host ≡ host) × (q.items_done ≡ items_done)
            × (q.directive ≡ directive.now)) }
        ensures stamp { IfOk result (λ q. q.stamp ≡ length self.new.history) }
        ensures fits { IfOk result (λ q. Fits self.new q × IsPlanOf self.new q) }
        ensures batch { IfOk result (λ q. q.batch ≡ (if with_batch then q.label else None)) }
    {
        let QueueAt { device, queue } = self.queue_for(host, directive)?;
        self.seek(device, host, directive);
        let at = QueueAt { device, queue };
        self.plan_on(at, host, items_done, directive, with_batch)
    }

    // The same for a directive that acts on this queue. Room is made first, so that the plan is handed up as it was made.
    fn plan_on(
        &mut self,
        at: QueueAt,
        host: HostId,
        items_done: u64,
        directive: &Directive,
        with_batch: bool,
    ) -> Result<Plan, Fault>
        requires early { (standing_in self.old).closing ≡ false }
        requires device { directive.now.device < self.old.config.devices }
        requires at { at ≡ queue_for self.old host directive.now }
        requires there { IsQueue self.old.config at }
        ensures config { self.new.config ≡ self.old.config }
        ensures history { self.new.history ≡ self.old.history }
        ensures counts { self.new.counts ≡ self.old.counts }
        ensures closes { self.new.closes ≡ self.old.closes }
        ensures roomy { (other : QueueAt) → IsRoomy self.old other → IsRoomy self.new other }
        ensures refused { IfErr result (λ fault.
            IsRefusal (refusal self.old.config (standing_in self.old) host directive.now) fault) }
        ensures plan { IfOk result (λ q. (q.host ≡ host) × (q.items_done ≡ items_done)
            × (q.directive ≡ directive.now)) }
        ensures stamp { IfOk result (λ q. q.stamp ≡ length self.new.history) }
        ensures fits { IfOk result (λ q. Fits self.new q × IsPlanOf self.new q) }
        ensures batch { IfOk result (λ q. q.batch ≡ (if with_batch then q.label else None)) }
    {
        let QueueAt { device, queue } = at;
        let room = self.make_room(QueueAt { device, queue });
        let there = &self.devices[usize::from(device.number())];
        let known = Known {
            config: &self.config,
            table: &there.table,
            regions: self.regions.as_slice(),
            accepted: self.history.len(),
            opened: there.opened,
            labels: &self.labels,
            at: QueueAt { device, queue },
        };
        if let Some(fault) = self.trial.judge(&known, host, directive) {
            return Err(fault);
        }
        room?;
        self.trial.plan(self.alloc, &known, host, items_done, directive, with_batch)
    }

    /// The queue of a host's directive, if closing hasn't begun and its device is there.
    ///
    /// # Errors
    ///
    /// The directive's fault, where that is `Closed` or `BadDevice`.
    pub fn queue_for(&self, host: HostId, directive: &Directive) -> Result<QueueAt, Fault>
        ensures refused { IfErr result (λ fault.
            refusal self.now.config (standing_in self.now) host directive.now ≡ Some fault) }
        ensures early { OnOk result ((standing_in self.now).closing ≡ false) }
        ensures device { OnOk result (directive.now.device < self.now.config.devices) }
        ensures at { IfOk result (λ at. at ≡ queue_for self.now host directive.now) }
        ensures there { IfOk result (λ at. IsQueue self.now.config at) }
    {
        if self.closing {
            return Err(Fault::Closed);
        }
        if !self.config.has_device(directive.device()) {
            return Err(Fault::BadDevice);
        }
        let device = device_by(self.regions.as_slice(), host, directive);
        Ok(QueueAt {
            device,
            queue: queue_by(directive),
        })
    }

    // Goes to where the first range that a host's directive names stands on this device.
    fn seek(&mut self, device: DeviceId, host: HostId, directive: &Directive)
        requires { device < self.old.config.devices }
        ensures { self.new ≡ self.old }
    {
        if let Some(item) = written_by(self.regions.as_slice(), host, directive).first() {
            self.devices[usize::from(device.number())]
                .table
                .seek(item.range);
        }
    }

    // Makes room for one more directive with a batch on this queue, and for closing behind it, where it is missing.
    fn make_room(&mut self, at: QueueAt) -> Result<(), Fault>
        requires there { IsQueue self.old.config at }
        ensures config { self.new.config ≡ self.old.config }
        ensures history { self.new.history ≡ self.old.history }
        ensures counts { self.new.counts ≡ self.old.counts }
        ensures closes { self.new.closes ≡ self.old.closes }
        ensures roomy { (other : QueueAt) → IsRoomy self.old other → IsRoomy self.new other }
        ensures ok { OnOk result (IsRoomy self.new at) }
        ensures fault { OnlyMemory result }
        ensures missing { OnErr result (¬ IsRoomy self.old at) }
    {
        let device = usize::from(at.device.number());
        self.history.reserve(self.closes.len() + 2)?;
        self.counts.reserve(1)?;
        self.answers.reserve(1)?;
        self.regions.reserve(1)?;
        self.labels.spare(at)?;
        self.devices[device].spare()?;
        Ok(())
    }

    /// Accepts the directive of a plan that fits, by `Plan::fits`. Takes no memory.
    // Inlined, so that the plan is not moved.
    #[inline(always)]
    pub fn accept(&mut self, plan: Plan) -> Placed
        requires { Fits self.old plan }
        ensures place { self.new ≡ place_after self.old plan }
        ensures answer { result ≡ answer_of (standing_in self.old) plan.directive
            (walk_of (standing_in self.old) plan.host plan.directive) }
    {
        let Plan {
            host,
            items_done,
            directive,
            region,
            label,
            answer,
            ..
        } = plan;
        self.trial
            .put_items(&self.config, self.regions.as_slice(), host, &directive);
        let kind = directive.kind();
        let items = self.trial.items();
        let device = device_by(self.regions.as_slice(), host, &directive);
        let there = &mut self.devices[usize::from(device.number())];
        there.mark_all(kind, items);
        note_label(there, &label);
        there.table.keeps();
        there.mark_all(&Kind::EndData, ends_of(kind, items));
        enter_or_leave(&mut self.regions, host, &directive, region);
        self.history
            .push_reserved(PlaceEntry::Accepted { host, directive });
        self.counts.push_reserved(items_done);
        push_label(&mut self.labels, label);
        let placed = answer.placed();
        self.answers.push_reserved(answer);
        placed
    }

    /// Closing begins, if it hasn't: from then on no directive is accepted. Takes no memory.
    pub fn close_begin(&mut self)
        ensures place { self.new ≡ place_after_begin self.old }
        ensures closing { (standing_in self.new).closing ≡ true }
    {
        if !self.closing {
            self.closing = true;
            self.history.push_reserved(PlaceEntry::Closing);
        }
    }

    /// Hands out the close of a queue, numbered as its last batch, unless it is out or placed, or the queue isn't there. Takes
    /// no memory.
    pub fn close_batch(&mut self, at: QueueAt) -> Option<Batch>
        ensures batch { result ≡ close_of self.old at }
        ensures place { self.new ≡ handed_out self.old at }
        ensures out { OnSome result (IsCloseOut self.new at) }
    {
        let QueueAt { device, queue } = at;
        if !self.config.has_queue(QueueAt { device, queue }) {
            return None;
        }
        let number = self.next_number(QueueAt { device, queue });
        let mut batch = self.closes[QueueAt { device, queue }.seat()].batch.take()?;
        batch.renumber(number);
        Some(batch)
    }

    /// Takes back the close of a queue, as `close_batch` handed it out. Takes no memory.
    pub fn close_back(&mut self, at: QueueAt, batch: Batch)
        requires out { IsCloseOut self.old at }
        requires batch { ClosesQueue at batch }
        ensures { self.new ≡ handed_back self.old at }
    {
        self.closes[at.seat()].batch = Some(batch);
    }

    /// A queue's close is placed, which `close_batch` handed out, once closing has begun. Takes no memory.
    pub fn close_done(&mut self, at: QueueAt)
        requires out { IsCloseOut self.old at }
        requires begun { (standing_in self.old).closing ≡ true }
        ensures { self.new ≡ place_after_close self.old at }
    {
        let QueueAt { device, queue } = at;
        let number = self.next_number(QueueAt { device, queue });
        match self.closes[QueueAt { device, queue }.seat()].label.take() {
            None => {}
            Some(mut label) => {
                label.number = number;
                self.labels.push(label);
                self.history.push_reserved(PlaceEntry::Closed {
                    at: QueueAt { device, queue },
                });
            }
        }
    }

    // The number of a queue's next batch.
    fn next_number(&self, at: QueueAt) -> u64
        ensures { result ≡ next_number at (standing_in self.now).labels }
    {
        let placed = self.labels_on(at);
        placed.len() as u64 + 1
    }

    /// The configuration, and the place history with the counts of its directives, the latest last.
    pub fn into_histories(self) -> (Config, Vec<PlaceEntry>, Vec<u64>)
        ensures config { result.0 ≡ self.config }
        ensures history { result.1.items ≡ reverse self.history }
        ensures counts { result.2.items ≡ reverse self.counts }
        ensures counted { length self.counts ≡ (standing_in self).accepted }
    {
        let Place {
            config,
            history,
            counts,
            ..
        } = self;
        (config, history, counts)
    }
}
