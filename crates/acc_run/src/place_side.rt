//! What the place lock holds: a place, and the end of each queue that sends.

ghost use Rattle.std.specs.Prelude.{ℕ, ◌≡◌, ◌*◌, ◌<◌, IfOk, IfErr, IfSome, OnOk, OnErr, true, []};
ghost use Rattle.acc_base.specs.Faults.{OnlyMemory};
ghost use Rattle.acc_base.specs.declared.fault.Fault.TheVariants.{QueueFull};
ghost use Rattle.acc_base.specs.declared.config.TheConstants.{MAX_HOSTS};
ghost use Rattle.acc_base.specs.declared.ids.QueueAt.{QueueAt};
ghost use Rattle.acc_base.specs.declared.ids.TheConstants.{QUEUES};
ghost use Rattle.acc_place.specs.Histories.{AllAccepted, IsQueue, is_closed};
ghost use Rattle.acc_base.specs.Queues.{queue_count};
ghost use Rattle.acc_place.specs.Closing.{left_open, place_after_begin};
ghost use Rattle.acc_place.specs.Plans.{standing_in, without_batch};
ghost use Rattle.acc_queue.specs.Tied.{MayBeFull};
ghost use Rattle.acc_run.specs.PlaceSides.{CanSend, ClosesOne, HasClosed, HasPlaced, HasRefused, IsHeld, IsSent, lines_sent, lines_with};
ghost use Rattle.acc_run.specs.WorkSides.{AreEnds, line_in};

use acc_base::{Config, Fault, HostId, QueueAt};
use acc_batch::Batch;
use acc_place::{Directive, Place, Placed, Plan};
use acc_queue::Sender;
use std::alloc::Global;
use std::marker::Model;
use std::sync::Wait;

/// The place, with the end of each queue that sends.
#[derive(Drop)]
pub struct PlaceSide {
    place: Place,
    // by device, then in queue order
    senders: Vec<Sender>,
}

impl Model for PlaceSide {
    ghost use Rattle.std.specs.Coded.{codes};
    ghost use Rattle.acc_kernel.specs.contracts.expr.Expr as expr;
    ghost use Rattle.acc_run.specs.PlaceSides.{PlaceSideView, IsPlaceSide};

    ghost Value = { PlaceSideView };

    ghost coded = { Prim.hlevel (codes, expr.the_row.coded) };

    ghost view = { λ s. record { place = s.place; lines = s.senders.items } };

    ghost invariant = { λ s. IsPlaceSide s.place s.senders.items };
}

impl PlaceSide {
    /// What holds of every place side: its directives were accepted after those before them, and the end of each queue has sent exactly
    /// what was placed on it.
    pub fn keeps(&self)
        ensures accepted { AllAccepted self.now.place.config self.now.place.history self.now.place.counts }
        ensures sent { (at : QueueAt) → IsQueue self.now.place.config at
            → IsSent self.now.place at (line_in self.now.lines at) }
    {
        let _ = &self.senders;
        let _ = self.place.history();
    }

    /// Nothing is accepted or sent yet. The ends are those of the queues, which have sent nothing.
    ///
    /// # Errors
    ///
    /// `Memory` where memory is refused.
    pub fn new(alloc: Global, config: Config, senders: Vec<Sender>) -> Result<Self, Fault>
        requires ends { AreEnds config senders.items }
        ensures config { IfOk result (λ s. s.place.config ≡ config) }
        ensures history { IfOk result (λ s. s.place.history ≡ []) }
        ensures lines { IfOk result (λ s. s.lines ≡ senders.items) }
        ensures fault { OnlyMemory result }
    {
        let place = Place::new(alloc, config)?;
        Ok(PlaceSide { place, senders })
    }

    /// The place, without the ends of the queues.
    pub(crate) fn as_place(&self) -> &Place
        ensures { result.now ≡ self.now.place }
    {
        &self.place
    }

    /// The place itself.
    pub(crate) fn into_place(self) -> Place
        ensures { result ≡ self.place }
    {
        let PlaceSide { place, .. } = self;
        place
    }

    /// The first fault of a directive for which its host has no memory: its own, or else that. Nothing is sent or accepted.
    pub fn fault_without_memory(
        &mut self,
        host: HostId,
        items_done: u64,
        directive: &Directive,
    ) -> Fault
        ensures { HasRefused self.old self.new host items_done directive.now result }
    {
        match self.place.plan(host, items_done, directive) {
            Err(fault) => fault,
            Ok(_) => Fault::Memory,
        }
    }

    /// The queue of a host's directive, if closing hasn't begun and its device is there.
    pub(crate) fn queue_for(&self, host: HostId, directive: &Directive) -> Option<QueueAt> {
        self.place.queue_for(host, directive).ok()
    }

    /// Places a directive of a host, which has so many items: its batch is sent, and it is accepted.
    ///
    /// # Errors
    ///
    /// The directive's first fault; else `Memory` where memory is refused; else `QueueFull` where its queue holds its room of batches.
    /// Then nothing is sent or accepted.
    pub fn place<R: Wait>(
        &mut self,
        rt: &R,
        host: HostId,
        items_done: u64,
        directive: &Directive,
    ) -> Result<Placed, Fault>
        requires host { host < MAX_HOSTS }
        ensures placed { IfOk result (λ placed.
            HasPlaced self.old self.new host items_done directive.now placed) }
        ensures refused { IfErr result (λ fault.
            HasRefused self.old self.new host items_done directive.now fault) }
    {
        let _ = self.place.history();
        let plan = self.place.plan(host, items_done, directive)?;
        let plan = send(rt, &mut self.senders, plan)?;
        Ok(self.place.accept(plan))
    }

    /// Closing begins, if it hasn't, and each queue without Close is closed that has room for its last batch. Answers how many are
    /// without Close then. It takes no memory.
    pub fn close<R: Wait>(&mut self, rt: &R) -> u32
        ensures closed { HasClosed self.old self.new }
        ensures left { result ≡ left_open (standing_in self.new.place)
            (queue_count self.new.place.config) }
    {
        self.begin_closing();
        let mut remaining = 0u32;
        for index in 0..self.queue_count() {
            if !self.close_queue(rt, QueueAt::at_seat(index)) {
                remaining += 1;
            }
        }
        remaining
    }

    /// Whether a queue is closed.
    pub fn is_closed(&self, at: QueueAt) -> bool
        ensures { result ≡ is_closed (standing_in self.now.place) at }
    {
        self.place.is_closed(at)
    }

    // Closing begins, if it hasn't.
    fn begin_closing(&mut self)
        ensures place { self.new.place ≡ place_after_begin self.old.place }
        ensures closing { (standing_in self.new.place).closing ≡ true }
        ensures lines { self.new.lines ≡ self.old.lines }
    {
        self.place.close_begin();
    }

    // How many queues all devices have.
    fn queue_count(&self) -> u16
        ensures count { result ≡ queue_count self.now.place.config }
        ensures few { result < 256 * QUEUES }
    {
        self.place.config().queue_count()
    }

    // Closes a queue, if it isn't closed and there is room, and answers whether it is closed then.
    fn close_queue<R: Wait>(&mut self, rt: &R, at: QueueAt) -> bool
        requires there { IsQueue self.old.place.config at }
        requires begun { (standing_in self.old.place).closing ≡ true }
        ensures { ClosesOne self.old self.new at result }
    {
        let QueueAt { device, queue } = at;
        match self.place.close_batch(QueueAt { device, queue }) {
            None => true,
            Some(batch) => match push_back(rt, &mut self.senders, batch) {
                Err(batch) => {
                    self.place.close_back(QueueAt { device, queue }, batch);
                    false
                }
                Ok(()) => {
                    self.place.close_done(QueueAt { device, queue });
                    true
                }
            },
        }
    }
}

// Sends the batch of a plan on its queue, if it has one, and gives the plan back without it.
fn send<R: Wait>(rt: &R, senders: &mut Vec<Sender>, plan: Plan) -> Result<Plan, Fault>
    requires { IfSome plan.batch (CanSend senders.old.items) }
    ensures plan { IfOk result (λ q. q ≡ without_batch plan) }
    ensures sent { OnOk result (senders.new.items ≡ lines_sent senders.old.items plan.batch) }
    ensures kept { OnErr result (senders.new.items ≡ senders.old.items) }
    ensures refused { IfErr result (λ fault. (fault ≡ QueueFull)
        × IsHeld senders.old.items plan.batch) }
{
    let mut plan = plan;
    if let Some(batch) = plan.take_batch() {
        push(rt, senders, batch)?;
    }
    Ok(plan)
}

// Sends a batch on its queue, or refuses it.
fn push<R: Wait>(rt: &R, senders: &mut Vec<Sender>, batch: Batch) -> Result<(), Fault>
    requires { CanSend senders.old.items batch }
    ensures sent { OnOk result (senders.new.items ≡ lines_with senders.old.items batch) }
    ensures kept { OnErr result (senders.new.items ≡ senders.old.items) }
    ensures refused { IfErr result (λ fault. (fault ≡ QueueFull)
        × MayBeFull (line_in senders.old.items batch.at).room
        (line_in senders.old.items batch.at).labels) }
{
    match push_back(rt, senders, batch) {
        Err(_) => Err(Fault::QueueFull),
        Ok(()) => Ok(()),
    }
}

// Sends a batch on its queue, or gives it back.
fn push_back<R: Wait>(rt: &R, senders: &mut Vec<Sender>, batch: Batch) -> Result<(), Batch>
    requires { CanSend senders.old.items batch }
    ensures sent { OnOk result (senders.new.items ≡ lines_with senders.old.items batch) }
    ensures kept { OnErr result (senders.new.items ≡ senders.old.items) }
    ensures refused { IfErr result (λ b. (b ≡ batch)
        × MayBeFull (line_in senders.old.items batch.at).room
        (line_in senders.old.items batch.at).labels) }
{
    let seat = batch.label().at.seat();
    match senders[seat].push(rt, batch) {
        Err((batch, _)) => Err(batch),
        Ok(()) => Ok(()),
    }
}
