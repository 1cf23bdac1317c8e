//! Two locks: directives are placed under one, performed and told under the other.

ghost use Rattle.acc_base.specs.declared.config.TheConstants.{MAX_DEVICES};
ghost use Rattle.acc_base.specs.declared.ids.TheConstants.{QUEUES};
ghost use Rattle.std.specs.Prelude.{◌≤◌, ◌≡◌, ◌*◌, ◌⊎◌, ◌++◌, ◌∷◌, [], IfOk, IfErr, OnErr, false, true, is_some, length};
ghost use Rattle.acc_base.specs.Faults.{OnlyMemory};
ghost use Rattle.acc_base.specs.declared.fault.Fault.TheVariants.{BadRange, HostsDiffer, Memory, TooMany, Unfinished};
ghost use Rattle.acc_host.specs.Engines.{MayRecord};
ghost use Rattle.acc_run.specs.Calling.{IsAnswerTo};
ghost use Rattle.acc_run.specs.Finishing.{Abandoned, Finished, HasCounts, histories_of};
ghost use Rattle.acc_run.specs.PlaceSides.{is_of_ending};
ghost use Rattle.acc_run.specs.Tokens.{AreTokens};
ghost use Rattle.acc_run.specs.declared.token.TokenEntry.TheVariants as listed;
ghost use Rattle.acc_work.specs.declared.item.ItemLabel.TheVariants as to_record;
ghost use Rattle.acc_work.specs.declared.item.Shown.TheVariants as shown;

use crate::abandon::abandon_sides;
use crate::ends::ends_of;
use crate::event_count::{EventCount, event_counts_of};
use crate::finish::{Sides, SidesRefused, finish_sides};
use crate::marks::Marks;
use crate::pause::{Pause, parkers_of};
use crate::place_side::PlaceSide;
use crate::token::{HostToken, tokens_of};
use crate::work_side::WorkSide;
use acc_base::{Config, DeviceId, Fault, HostId, QueueAt, QueueCounts};
use acc_host::Outcome;
use acc_place::{Directive, Placed};
use acc_queue::{Progress, Reader};
use acc_work::{Item, ItemLabel, Shown};
use std::alloc::Global;
use std::marker::Model;
use std::sync::{Mutex, Wait};
use std::thread::Parker;

/// A place and a work side for threads, each under a lock of its own. A contract sees the configuration that it was made for.
#[derive(Drop)]
pub struct Runtime {
    pub(crate) alloc: Global,
    pub(crate) config: Config,
    pub(crate) place: Mutex<PlaceSide>,
    pub(crate) work: Mutex<WorkSide>,
    // where the worker of each queue sleeps that finds it empty, by device, then in queue order
    pub(crate) parkers: Vec<Parker>,
    // who wait until each queue has taken a batch, and until it has performed so many, likewise
    pub(crate) taken: Vec<EventCount>,
    pub(crate) performed: Vec<EventCount>,
    // a reader of how many batches each queue has performed, off which workers split theirs
    pub(crate) watch: Mutex<Reader>,
    // and the first, until it is taken; behind a lock, as threads share the runtime
    pub(crate) reader: Option<Mutex<Reader>>,
}

// What of a runtime stands behind no lock.
#[derive(Drop)]
struct Frame {
    alloc: Global,
    config: Config,
    parkers: Vec<Parker>,
    taken: Vec<EventCount>,
    performed: Vec<EventCount>,
    watch: Mutex<Reader>,
    reader: Option<Mutex<Reader>>,
}

impl Model for Runtime {
    ghost use Rattle.std.specs.Prelude.{is_some};
    ghost use Rattle.acc_run.specs.Runtimes.{RuntimeView};

    ghost Value = { RuntimeView };

    ghost view = { λ r. record { config = r.config; has_reader = is_some r.reader } };
}

/// A runtime that can't be finished or abandoned, and the tokens of its hosts, as they were, and why.
#[derive(Drop)]
pub struct FinishRefused {
    pub fault: Fault,
    pub runtime: Runtime,
    pub tokens: Vec<HostToken>,
}

impl Runtime {
    /// Nothing is accepted or performed yet. With it comes a token for each host.
    ///
    /// # Errors
    ///
    /// `Memory` where memory is refused.
    pub fn new(alloc: Global, config: &Config) -> Result<(Runtime, Vec<HostToken>), Fault>
        ensures config { IfOk result (λ r. r.0.config ≡ config.now) }
        ensures tokens { IfOk result (λ r. AreTokens 0 r.1.items) }
        ensures count { IfOk result (λ r. length r.1.items ≡ config.now.hosts) }
        ensures reader { IfOk result (λ r. r.0.has_reader ≡ true) }
        ensures fault { OnlyMemory result }
    {
        let copy = config.try_clone()?;
        let parkers = parkers_of(alloc, config)?;
        let taken = event_counts_of(alloc, config)?;
        let performed = event_counts_of(alloc, config)?;
        let (place, work, mut reader, tokens) = sides_of(alloc, config)?;
        let Ok(watch) = reader.split() else {
            return Err(Fault::Memory);
        };
        let runtime = Runtime {
            alloc,
            config: copy,
            place: Mutex::new(place),
            work: Mutex::new(work),
            parkers,
            taken,
            performed,
            watch: Mutex::new(watch),
            reader: Some(Mutex::new(reader)),
        };
        Ok((runtime, tokens))
    }

    /// The first reader of how many batches each queue has performed, once. Others are split off it.
    pub fn take_reader(&mut self) -> Option<Reader>
        ensures given { is_some result ≡ self.old.has_reader }
        ensures gone { self.new ≡ record self.old { has_reader = false } }
    {
        match self.reader.take() {
            None => None,
            Some(reader) => Some(reader.into_inner()),
        }
    }

    /// How many devices there are.
    pub fn devices(&self) -> u8
        ensures { result ≡ self.now.config.devices }
    {
        self.config.devices()
    }

    /// Places a directive of a host.
    ///
    /// # Errors
    ///
    /// The directive's first fault; else `Memory` where memory is refused; else `QueueFull` where its queue holds its room of batches.
    #[tactic(auto, using(crate::proofs::Refusals::refused_fault))]
    pub fn place<R: Wait>(
        &self,
        rt: &R,
        token: &mut HostToken,
        directive: &Directive,
    ) -> Result<Placed, Fault>
        ensures host { token.new.host ≡ token.old.host }
        ensures noted { IfOk result (λ placed.
            token.new.entries ≡ token.old.entries ++ listed.Placed directive.now placed ∷ []) }
        ensures refused { OnErr result (token.new.entries ≡ token.old.entries) }
        ensures fault { IfErr result (λ fault. is_of_ending fault ≡ false) }
    {
        let host = token.host();
        let items_done = token.items();
        match token.copy(directive) {
            Err(_) => Err(
                self.place
                    .lock(rt)
                    .fault_without_memory(host, items_done, directive),
            ),
            Ok(copy) => {
                let placed = self.place.lock(rt).place(rt, host, items_done, directive)?;
                token.note_directive(copy, &placed);
                self.wake(&placed);
                Ok(placed)
            }
        }
    }

    /// Waits until each queue of a device has performed so many batches, and records that it has seen it.
    ///
    /// # Errors
    ///
    /// `Memory` for want of memory, `TooMany` behind the last item of a run.
    pub fn wait_for<R: Wait>(
        &self,
        rt: &R,
        token: &mut HostToken,
        device: DeviceId,
        counts: QueueCounts,
    ) -> Result<(), Fault>
        ensures host { token.new.host ≡ token.old.host }
        ensures noted { IfOk result (λ done.
            token.new.entries
            ≡ token.old.entries ++ listed.Item (to_record.Seen device counts) shown.Nothing ∷ []) }
        ensures refused { OnErr result (token.new.entries ≡ token.old.entries) }
        ensures fault { IfErr result (λ fault. (fault ≡ Memory) ⊎ (fault ≡ TooMany)) }
    {
        token.spare()?;
        self.until_seen(rt, token, device, counts)?;
        token.note_item(ItemLabel::Seen { device, counts }, Shown::Nothing);
        Ok(())
    }

    // Tries again until the item is recorded. While what is published shows that the wait isn't over, the lock isn't asked for.
    #[tactic(auto, using(crate::proofs::Refusals::seen_faults))]
    fn until_seen<R: Wait>(
        &self,
        rt: &R,
        token: &mut HostToken,
        device: DeviceId,
        counts: QueueCounts,
    ) -> Result<(), Fault>
        ensures token { token.new ≡ token.old }
        ensures fault { IfErr result (λ fault. (fault ≡ Memory) ⊎ (fault ≡ TooMany)) }
    {
        let host = token.host();
        let mut pause = Pause::new();
        for _ in rt.forever() {
            token.wait_seen(rt, self.performed.as_slice(), device, &counts);
            if self.work.lock(rt).see(host, device, counts)? {
                return Ok(());
            }
            pause.wait(rt);
        }
        unreachable!()
    }

    /// Records an item of a host, any but a Seen, and answers a test. An item that is refused comes back.
    ///
    /// # Errors
    ///
    /// `Memory` for want of memory, `TooMany` behind the last item of a run, `BadRange` for cells that aren't there.
    #[tactic(auto, using(crate::proofs::Refusals::item_faults, crate::proofs::AnsweredItems::is_answer))]
    pub fn item<R: Wait>(
        &self,
        rt: &R,
        token: &mut HostToken,
        item: Item,
    ) -> Result<Shown, (Item, Fault)>
        requires item { MayRecord item }
        ensures host { token.new.host ≡ token.old.host }
        ensures noted { IfOk result (λ answer.
            token.new.entries ≡ token.old.entries ++ listed.Item item answer ∷ []) }
        ensures answer { IfOk result (λ answer. IsAnswerTo item answer) }
        ensures refused { OnErr result (token.new.entries ≡ token.old.entries) }
        ensures back { IfErr result (λ r. r.0 ≡ item) }
        ensures fault { IfErr result (λ r. (r.1 ≡ Memory) ⊎ ((r.1 ≡ TooMany) ⊎ (r.1 ≡ BadRange))) }
    {
        let host = token.host();
        if let Err(fault) = token.spare() {
            return Err((item, fault));
        }
        let label = item.label();
        match self.work.lock(rt).item(host, item) {
            Err(refused) => Err(refused),
            Ok(answer) => {
                token.note_item(label, answer);
                Ok(answer)
            }
        }
    }

    /// Closing begins, if it hasn't, and each queue without Close is closed that has room. Answers how many are without Close then.
    pub fn close<R: Wait>(&self, rt: &R) -> u32 {
        let remaining = self.place.lock(rt).close(rt);
        self.wake_all();
        remaining
    }

    // The same, and tells whether each queue is closed then, or the worker of its seat has ended.
    pub(crate) fn close_again<R: Wait>(&self, rt: &R, ended: &Marks) -> bool {
        let settled = self.close_and_look(rt, ended);
        self.wake_all();
        settled
    }

    // The same, under the place lock.
    fn close_and_look<R: Wait>(&self, rt: &R, ended: &Marks) -> bool {
        let mut place = self.place.lock(rt);
        let _ = place.close(rt);
        for seat in 0..self.queues() {
            if !place.is_closed(QueueAt::at_seat(seat)) && !ended.has(usize::from(seat)) {
                return false;
            }
        }
        true
    }

    // How many queues all devices have.
    pub(crate) fn queues(&self) -> u16
        ensures few { result ≤ MAX_DEVICES * QUEUES }
    {
        self.config.keeps();
        self.config.queue_count()
    }

    // Each worker is woken that found its queue empty, and each host that waits for room.
    pub(crate) fn wake_all(&self) {
        for parker in &self.parkers {
            parker.unpark();
        }
        for taken in &self.taken {
            taken.notify(0);
        }
    }

    // Waits where a host's directive was refused for want of room: until its queue has taken a batch since what was heard of it, if
    // anything was, and for fifty milliseconds at most. What is heard by then.
    pub(crate) fn await_room<R: Wait>(
        &self,
        rt: &R,
        host: HostId,
        directive: &Directive,
        heard: Option<u64>,
    ) -> Option<u64> {
        let at = self.place.lock(rt).queue_for(host, directive)?;
        let taken = self.taken.get(at.seat())?;
        if let Some(heard) = heard {
            taken.wait(rt, heard);
        }
        Some(taken.listen(0))
    }

    // Pauses once, until the worker of the queue with this seat is woken, and for fifty milliseconds at most.
    pub(crate) fn rest_at<R: Wait>(&self, rt: &R, seat: u16, pause: &mut Pause) {
        match self.parkers.get(usize::from(seat)) {
            None => pause.wait(rt),
            Some(parker) => pause.rest(rt, parker),
        }
    }

    // Wakes the worker of the queue on which a directive placed its batch, if it placed one.
    fn wake(&self, placed: &Placed) {
        if let Some((at, _)) = placed.batch
            && let Some(parker) = self.parkers.get(at.seat())
        {
            parker.unpark();
        }
    }

    /// What a run leaves, whose queues have performed all that was placed on them: legal histories of the runtime's configuration, with
    /// which the tokens agree. No host's state is among it, and nothing is discarded. Takes no memory.
    ///
    /// # Errors
    ///
    /// `Unfinished` where a queue hasn't performed its close; else `HostsDiffer` where the tokens aren't those of the runtime's hosts, in
    /// their order, or list something else than the histories do. The runtime and the tokens come back as they were.
    pub fn finish(self, tokens: Vec<HostToken>) -> Result<Outcome, FinishRefused>
        ensures config { IfOk result (λ o. o.config ≡ self.config) }
        ensures finished { IfOk result (λ o. Finished tokens.items (histories_of o)) }
        ensures counted { IfOk result (λ o. HasCounts o) }
        ensures hosts { IfOk result (λ o. o.hosts.items ≡ []) }
        ensures discarded { IfOk result (λ o. o.discarded.items ≡ []) }
        ensures fault { IfErr result (λ r. (r.fault ≡ Unfinished) ⊎ (r.fault ≡ HostsDiffer)) }
        ensures runtime { IfErr result (λ r. r.runtime ≡ self) }
        ensures tokens { IfErr result (λ r. r.tokens ≡ tokens) }
    {
        let (frame, sides) = self.into_parts();
        match finish_sides(&frame.config, sides, tokens) {
            Ok(outcome) => Ok(outcome),
            Err(refused) => Err(runtime_of(frame, refused)),
        }
    }

    /// What a run leaves whose queues haven't performed all, or have: legal histories of the runtime's configuration, with which the
    /// tokens agree. Nothing more is performed; what was placed on a queue and it hasn't performed is discarded, and listed, by device,
    /// then by queue, then in its order. No host's state is among it.
    ///
    /// # Errors
    ///
    /// `HostsDiffer` where the tokens aren't those of the runtime's hosts, in their order, or list something else than the histories do;
    /// else `Memory` where memory for the list is refused. The runtime and the tokens come back as they were.
    pub fn abandon(self, alloc: Global, tokens: Vec<HostToken>) -> Result<Outcome, FinishRefused>
        ensures config { IfOk result (λ o. o.config ≡ self.config) }
        ensures abandoned { IfOk result (λ o.
            Abandoned tokens.items (histories_of o) o.discarded.items) }
        ensures counted { IfOk result (λ o. HasCounts o) }
        ensures hosts { IfOk result (λ o. o.hosts.items ≡ []) }
        ensures fault { IfErr result (λ r. (r.fault ≡ HostsDiffer) ⊎ (r.fault ≡ Memory)) }
        ensures runtime { IfErr result (λ r. r.runtime ≡ self) }
        ensures tokens { IfErr result (λ r. r.tokens ≡ tokens) }
    {
        let (frame, sides) = self.into_parts();
        match abandon_sides(alloc, &frame.config, sides, tokens) {
            Ok(outcome) => Ok(outcome),
            Err(refused) => Err(runtime_of(frame, refused)),
        }
    }

    // Both sides out of their locks, and the rest.
    fn into_parts(self) -> (Frame, Sides)
        ensures { (result.0.config ≡ self.config) × (is_some result.0.reader ≡ self.has_reader) }
    {
        let Runtime {
            alloc,
            config,
            place,
            work,
            parkers,
            taken,
            performed,
            watch,
            reader,
        } = self;
        let sides = Sides {
            place: place.into_inner(),
            work: work.into_inner(),
        };
        (
            Frame {
                alloc,
                config,
                parkers,
                taken,
                performed,
                watch,
                reader,
            },
            sides,
        )
    }
}

// The runtime that was refused, with both sides behind their locks again.
fn runtime_of(frame: Frame, refused: SidesRefused) -> FinishRefused
    ensures fault { result.fault ≡ refused.fault }
    ensures runtime { (result.runtime.config ≡ frame.config)
        × (result.runtime.has_reader ≡ is_some frame.reader) }
    ensures tokens { result.tokens ≡ refused.tokens }
{
    let SidesRefused {
        fault,
        sides,
        tokens,
    } = refused;
    FinishRefused {
        fault,
        runtime: Runtime {
            alloc: frame.alloc,
            config: frame.config,
            place: Mutex::new(sides.place),
            work: Mutex::new(sides.work),
            parkers: frame.parkers,
            taken: frame.taken,
            performed: frame.performed,
            watch: frame.watch,
            reader: frame.reader,
        },
        tokens,
    }
}

// What both locks hold at first, the reader of what the work side publishes, and a token for each host.
fn sides_of(
    alloc: Global,
    config: &Config,
) -> Result<(PlaceSide, WorkSide, Reader, Vec<HostToken>), Fault>
    ensures tokens { IfOk result (λ r. AreTokens 0 r.3.items) }
    ensures count { IfOk result (λ r. length r.3.items ≡ config.now.hosts) }
    ensures fault { OnlyMemory result }
{
    config.keeps();
    let (senders, takers) = ends_of(alloc, config)?;
    let copy = config.try_clone()?;
    let place = PlaceSide::new(alloc, copy, senders)?;
    let (publisher, mut reader) = Progress::new(alloc, config.devices())?;
    let tokens = tokens_of(alloc, config, &mut reader)?;
    let work = WorkSide::new(alloc, config, takers, publisher)?;
    Ok((place, work, reader, tokens))
}
