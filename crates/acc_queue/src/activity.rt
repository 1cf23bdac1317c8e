//! The two ends of an activity queue.

ghost use Rattle.std.specs.Prelude.{◌≡◌, ◌<◌, ◌++◌, ◌∷◌, [], IfOk, IfErr, OnOk, IfSome, IfNone};
ghost use Rattle.acc_base.specs.Faults.{OnlyMemory};
ghost use Rattle.crossbeam_queue.specs.Fifo.{Held, Learns, Pops, Pushes};
ghost use Rattle.crossbeam_queue.specs.Passes.{view, IsPassOf, IsSamePass, ruled_capacity};
ghost use Rattle.acc_queue.specs.Tied.{IsFor, MayBeFull};

use crate::rule::{End, InOrder, Named, Parts, Popped, Pushed};
use acc_base::{Fault, QueueAt};
use acc_batch::Batch;
use crossbeam_queue::protocol::{Lesson, Outcome, Protocol};
use crossbeam_queue::{Pass, RuledArrayQueue};
use std::alloc::Global;
use std::marker::{Brand, Model};
use std::sync::{Arc, Wait};

type Line = RuledArrayQueue<Batch, End, InOrder>;

/// An activity queue of a device: where directives place batches, and where a worker takes them.
pub struct Activity;

/// The end that sends. A contract sees whose queue it is, its room, and the labels of the batches that were sent, in order.
#[derive(Drop)]
pub struct Sender {
    queue: Arc<Line, Global>,
    pass: Pass<Batch, End>,
}

/// The end that takes. A contract sees whose queue it is, its room, and the labels of the batches that were taken, in order.
#[derive(Drop)]
pub struct Taker {
    queue: Arc<Line, Global>,
    pass: Pass<Batch, End>,
}

/// The queue held as many batches as it has room for.
#[derive(Clone, Copy)]
pub struct Full;

impl Model for Sender {
    ghost use Rattle.std.specs.Prelude.{◌≡◌};
    ghost use Rattle.std.specs.Arc.{arc_value};
    ghost use Rattle.atomic_table.specs.Seated.{table_id_coded};
    ghost use Rattle.std.specs.Coded.{codes};
    ghost use Rattle.acc_kernel.specs.contracts.expr.Expr as expr;
    ghost use Rattle.crossbeam_queue.specs.Passes.{IsPassOf, ruled_capacity};
    ghost use Rattle.acc_queue.specs.Tied.{Line};
    ghost use Rattle.acc_queue.specs.declared.rule.Role.TheVariants.{Sends};

    ghost Value = { Line };

    ghost coded = { Prim.hlevel (codes, expr.the_row.coded, table_id_coded) };

    ghost view = { λ s. record { queue = s.pass.table_id; at = s.pass.me.0.client.at; room = s.pass.me.0.client.room; labels = s.pass.me.0.client.labels } };

    ghost invariant = { λ s. IsPassOf (arc_value s.queue) s.pass × (s.pass.me.0.client.role ≡ Sends) × (s.pass.me.0.client.room ≡ ruled_capacity (arc_value s.queue)) };
}

impl Model for Taker {
    ghost use Rattle.std.specs.Prelude.{◌≡◌};
    ghost use Rattle.std.specs.Arc.{arc_value};
    ghost use Rattle.atomic_table.specs.Seated.{table_id_coded};
    ghost use Rattle.std.specs.Coded.{codes};
    ghost use Rattle.acc_kernel.specs.contracts.expr.Expr as expr;
    ghost use Rattle.crossbeam_queue.specs.Passes.{IsPassOf, ruled_capacity};
    ghost use Rattle.acc_queue.specs.Tied.{Line};
    ghost use Rattle.acc_queue.specs.declared.rule.Role.TheVariants.{Takes};

    ghost Value = { Line };

    ghost coded = { Prim.hlevel (codes, expr.the_row.coded, table_id_coded) };

    ghost view = { λ s. record { queue = s.pass.table_id; at = s.pass.me.0.client.at; room = s.pass.me.0.client.room; labels = s.pass.me.0.client.labels } };

    ghost invariant = { λ s. IsPassOf (arc_value s.queue) s.pass × (s.pass.me.0.client.role ≡ Takes) × (s.pass.me.0.client.room ≡ ruled_capacity (arc_value s.queue)) };
}

impl Activity {
    /// The queue of this name, with room for so many batches, of which it has none: its two ends.
    ///
    /// # Errors
    ///
    /// `Memory` where memory is refused.
    pub fn new(alloc: Global, at: QueueAt, room: u32) -> Result<(Sender, Taker), Fault>
        requires { 0 < room }
        ensures at { IfOk result (λ r. (r.0.at ≡ at) × (r.1.at ≡ at)) }
        ensures room { IfOk result (λ r. (r.0.room ≡ room) × (r.1.room ≡ room)) }
        ensures empty { IfOk result (λ r. (r.0.labels ≡ []) × (r.1.labels ≡ [])) }
        ensures one { IfOk result (λ r. r.0.queue ≡ r.1.queue) }
        ensures fault { OnlyMemory result }
    {
        opened::<Brand>(alloc, at, room)
    }
}

// The two ends of the queue of this name, with this room.
fn opened<B: Named>(alloc: Global, at: QueueAt, room: u32) -> Result<(Sender, Taker), Fault>
    requires room { 0 < room }
    requires named { at ≡ B.at }
    requires given { room ≡ B.room }
    ensures at { IfOk result (λ r. (r.0.at ≡ at) × (r.1.at ≡ at)) }
    ensures room { IfOk result (λ r. (r.0.room ≡ room) × (r.1.room ≡ room)) }
    ensures empty { IfOk result (λ r. (r.0.labels ≡ []) × (r.1.labels ≡ [])) }
    ensures one { IfOk result (λ r. r.0.queue ≡ r.1.queue) }
    ensures fault { OnlyMemory result }
{
    // the name is for contracts alone
    let _ = at;
    let (queue, mut pass) = Line::ruled(alloc, room as usize)?;
    let other = queue.another::<Parts<B>>(&mut pass);
    let queue = Arc::new(alloc, queue)?;
    let theirs = Arc::try_clone(&queue)?;
    let sender = Sender { queue, pass };
    let taker = Taker {
        queue: theirs,
        pass: other,
    };
    Ok((sender, taker))
}

impl Sender {
    /// Places the batch, one of this queue, behind those that the queue holds, with its memory. It takes no memory, and is one step.
    ///
    /// # Errors
    ///
    /// The batch, whole, and `Full` where the queue held as many as it has room for.
    pub fn push<R: Wait>(&mut self, rt: &R, batch: Batch) -> Result<(), (Batch, Full)>
        requires { IsFor self.old.at batch }
        ensures same { (self.new.queue ≡ self.old.queue) × (self.new.at ≡ self.old.at)
            × (self.new.room ≡ self.old.room) }
        ensures pushed { OnOk result (self.new.labels ≡ self.old.labels ++ batch ∷ []) }
        ensures refused { IfErr result (λ r. (r.0 ≡ batch) × (self.new ≡ self.old)
            × MayBeFull self.old.room self.old.labels) }
    {
        let Sender { queue, pass } = self;
        match send_last::<InOrder, Pushed, R>(rt, queue, pass, batch) {
            Ok(()) => Ok(()),
            Err(batch) => Err((batch, Full)),
        }
    }
}

impl Taker {
    /// Takes the first batch that the queue holds, if it holds one: it is one of this queue. It takes no memory, and is one step.
    pub fn pop<R: Wait>(&mut self, rt: &R) -> Option<Batch>
        ensures same { (self.new.queue ≡ self.old.queue) × (self.new.at ≡ self.old.at)
            × (self.new.room ≡ self.old.room) }
        ensures some { IfSome result (λ batch. self.new.labels ≡ self.old.labels ++ batch ∷ []) }
        ensures for_it { IfSome result (IsFor self.old.at) }
        ensures none { IfNone result (self.new ≡ self.old) }
    {
        let Taker { queue, pass } = self;
        take_first::<InOrder, Popped, R>(rt, queue, pass)
    }
}

// Places a batch behind those that a queue holds, whatever its rule is and whatever is to be learned at this step (`M`). Where it gives
// the batch back, the queue held its room at some step of the call: what the unknown rule says of that, only a look at the queue can tell.
fn send_last<P: Protocol<Batch, End>, M: Outcome<Batch, End> + Lesson<Batch, End>, R: Wait>(
    rt: &R,
    queue: &RuledArrayQueue<Batch, End, P>,
    pass: &mut Pass<Batch, End>,
    batch: Batch,
) -> Result<(), Batch>
    requires queue { IsPassOf queue.now pass.old }
    requires pushes { Pushes P.holds (ruled_capacity queue.now) pass.old.id (view pass.old) batch
        (M.then (view pass.old) batch) }
    requires learns { Learns P.holds pass.old.id (view pass.old) (M.fact (view pass.old)) }
    ensures queue { IsSamePass pass.old pass.new }
    ensures pushed { OnOk result (M.then (view pass.old) batch (view pass.new)) }
    ensures refused { IfErr result (λ b. (b ≡ batch) × (view pass.new ≡ view pass.old)
        × Held (ruled_capacity queue.now) (M.fact (view pass.old))) }
{
    queue.push_as::<M, R>(rt, pass, batch)
}

// Takes the first batch of a queue, whatever its rule is and whatever is to be learned at this step (`M`). Where it gives nothing, the
// queue held nothing at some step of the call: what the unknown rule says of that, only a look at the queue can tell.
fn take_first<P: Protocol<Batch, End>, M: Outcome<Batch, End> + Lesson<Batch, End>, R: Wait>(
    rt: &R,
    queue: &RuledArrayQueue<Batch, End, P>,
    pass: &mut Pass<Batch, End>,
) -> Option<Batch>
    requires queue { IsPassOf queue.now pass.old }
    requires pops { Pops P.holds pass.old.id (view pass.old) (M.then (view pass.old)) }
    requires learns { Learns P.holds pass.old.id (view pass.old) (M.fact (view pass.old)) }
    ensures queue { IsSamePass pass.old pass.new }
    ensures some { IfSome result (λ batch. M.then (view pass.old) batch (view pass.new)) }
    ensures none { IfNone result ((view pass.new ≡ view pass.old)
        × Held 0 (M.fact (view pass.old))) }
{
    queue.pop_as::<M, R>(rt, pass)
}
