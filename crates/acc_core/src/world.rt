//! The hosts, and the accelerator that they share.

ghost use Rattle.std.specs.Prelude.{[], List, ◌≡◌, ◌+◌, ◌<◌, ◌≤◌, length, map, All, reverse, is_some, slice_get, IfOk, IfSome, IsTrue, OnErr, OnSome, true, false, ◌^◌};
ghost use Rattle.std.specs.Option.{option_map};
ghost use Rattle.acc_base.specs.Faults.{OnlyMemory};
ghost use Rattle.acc_present.specs.Notes.{entry_note};
ghost use Rattle.acc_present.specs.Presences.{presences, holder};
ghost use Rattle.acc_present.specs.Tables.{entry_presence};
ghost use Rattle.acc_base.specs.declared.config.TheConstants.{MAX_HOSTS};
ghost use Rattle.acc_core.specs.Enabled.{is_enabled, is_left, SomeEnabled};
ghost use Rattle.acc_core.specs.Legality.{AllFollow, IsLegalState};
ghost use Rattle.acc_core.specs.Machine.{Step, is_there, labels_of, standing_of};
ghost use Rattle.acc_core.specs.Progress.{IsTakenInOrder, left_there, next_by, taken_by};
ghost use Rattle.acc_base.specs.declared.ids.QueueAt.{QueueAt};
ghost use Rattle.acc_base.specs.Queues.{queue_count};
ghost use Rattle.acc_core.specs.Following.{AllStand};
ghost use Rattle.acc_place.specs.BlockNotes.{note_of};
ghost use Rattle.acc_host.specs.declared.state.Reply.{Reply};
ghost use Rattle.acc_host.specs.Hosts.{bare_statements, state_of};
ghost use Rattle.acc_base.specs.Configurations.{has_range};
ghost use Rattle.acc_memory.specs.Memories.{find_block, has_cell};
ghost use Rattle.acc_memory.specs.Values.{Block_cell, Host_cell};
ghost use Rattle.acc_work.specs.Logs.{all_done, all_items, value};
ghost use Rattle.acc_work.specs.Remembering.{blocks_in};
ghost use Rattle.acc_core.specs.Worlds.{OnePerHost, OutsideIsZero, first_state, statements_in, Ran};

use crate::accelerator::Accelerator;
use acc_base::{BlockId, Config, DeviceId, Fault, HostId, QueueAt, QueueCounts, Range};
use acc_batch::OpLabel;
use acc_host::{Event, Host, HostProgram, HostState, Outcome, Reply, hosts_follow, ready_hosts};
use acc_place::Place;
use acc_present::Entry;
use acc_work::{Work, WorkLog};
use std::alloc::Global;
use std::marker::Model;

/// The hosts, and the accelerator that they share.
#[derive(Drop)]
pub struct World {
    alloc: Global,
    accelerator: Accelerator,
    hosts: Vec<Host>,
    // Empty, with room for the state and the program of each host, so that `into_parts` takes no memory.
    states: Vec<HostState>,
    programs: Vec<HostProgram>,
}

impl Model for World {
    ghost use Rattle.std.specs.Coded.{codes};
    ghost use Rattle.std.specs.Prelude.{vec_capacity};
    ghost use Rattle.acc_core.specs.Machine.{State};
    ghost use Rattle.acc_core.specs.Worlds.{IsWorld};
    ghost use Rattle.acc_kernel.specs.contracts.expr.Expr as expr;

    ghost Value = { State };

    ghost coded = { Prim.hlevel (codes, expr.the_row.coded) };

    ghost view = { λ w. record w.accelerator { hosts = w.hosts.items } };

    ghost invariant = { λ w. IsWorld (record w.accelerator { hosts = w.hosts.items }) w.states.items (vec_capacity w.states) w.programs.items (vec_capacity w.programs) };
}

impl World {
    ghost use Rattle.acc_host.specs.declared.state.Reply.TheVariants as reply;

    /// Nothing is accepted, performed or shown yet, and each host is ready for its first statement. There is one program
    /// for each host of the configuration, in their order.
    ///
    /// # Errors
    ///
    /// `Memory` for want of memory.
    pub fn new(alloc: Global, config: Config, programs: Vec<HostProgram>) -> Result<World, Fault>
        requires { OnePerHost config programs.items }
        ensures opened { IfOk result (λ w. w ≡ first_state config programs.items) }
        ensures refused { OnlyMemory result }
    {
        hosts_follow();
        config.keeps();
        let states = Vec::with_capacity(alloc, programs.len())?;
        let left = Vec::with_capacity(alloc, programs.len())?;
        let hosts = ready_hosts(alloc, programs)?;
        let accelerator = Accelerator::new(alloc, config)?;
        Ok(World {
            alloc,
            accelerator,
            hosts,
            states,
            programs: left,
        })
    }

    /// One step: a host goes on, a queue takes a batch or performs an operation, or the owner closes. `Idle` where that is
    /// not possible now, or there is no such host or queue; a close is answered by how many queues are left without their
    /// last batch, whose room is full. It takes no memory but for a host.
    #[inline(never)]
    pub fn step(&mut self, event: Event) -> Reply
        ensures { Step self.old event result self.new }
    {
        hosts_follow();
        match event {
            Event::Host(number) => {
                let index = usize::from(number.number());
                if index < self.hosts.len() {
                    self.hosts[index].next(self.alloc, &mut self.accelerator)
                } else {
                    Reply::Idle
                }
            }
            Event::Take(at) => self.accelerator.take(at),
            Event::Perform(at) => self.accelerator.perform(at),
            Event::Close => self.accelerator.close(),
        }
    }

    /// Its state is legal, and each host stands in its program; each queue has its count of batches that it has taken, which it
    /// performs in order; and a cell that no host array has is zero.
    pub fn keeps(&self)
        ensures legal { IsLegalState self.now }
        ensures stand { AllStand self.now 0 self.now.hosts }
        ensures taken { length self.now.taken ≡ queue_count self.now.config }
        ensures in_order { (at : QueueAt) → is_there self.now at ≡ true
            → IsTakenInOrder self.now at }
        ensures outside { OutsideIsZero self.now }
    {
        self.accelerator.keeps_counts();
        let _ = &self.hosts;
    }

    /// One step for each event, in order, with a reply to each.
    ///
    /// # Errors
    ///
    /// `Memory` for want of memory, before the first step.
    pub fn run(&mut self, events: &[Event]) -> Result<Vec<Reply>, Fault>
        ensures ran { IfOk result (λ replies. Ran self.old events.now replies.items self.new) }
        ensures kept { OnErr result (self.new ≡ self.old) }
        ensures refused { OnlyMemory result }
    {
        hosts_follow();
        let mut replies = Vec::with_capacity(self.alloc, events.len())?;
        for event in events {
            replies.push_reserved(self.step(*event));
        }
        Ok(replies)
    }

    /// One step for each event, in order, whose replies are dropped, and whether one of them was possible. Where none was, all
    /// is as it was. It takes no memory but what the steps take.
    pub fn advance(&mut self, events: &[Event]) -> bool
        ensures ran { (replies : List Reply) × Ran self.old events.now replies self.new }
        ensures idle { result ≡ false → self.new ≡ self.old }
    {
        hosts_follow();
        let _ = &self.hosts;
        let mut moves = false;
        for event in events {
            if self.is_idle(event) {
                continue;
            }
            match self.step(*event) {
                Reply::Idle => {}
                _ => moves = true,
            }
        }
        moves
    }

    // Whether it is seen at once that an event is not possible now: its queue has nothing to take, or nothing to perform. Two tests:
    // a match of all events would jump through a table, which takes longer where a processor doesn't foresee the jump.
    #[inline(always)]
    fn is_idle(&self, event: &Event) -> bool
        ensures { IsTrue result → Step self.now event.now reply.Idle self.now }
    {
        if let Event::Take(at) = event {
            return self.accelerator.takes_nothing(*at);
        }
        if let Event::Perform(at) = event {
            return self.accelerator.performs_nothing(*at);
        }
        false
    }

    /// What a cell of a host array holds, if the array has it: what the log last wrote there, or its initial value.
    pub fn host_cell(&self, array: u8, cell: u32) -> Option<i64>
        ensures there { is_some result
            ≡ has_range self.now.config.arrays (record { array = array; lo = cell; len = 1 }) }
        ensures value { IfSome result (λ x.
            x ≡ value self.now.config.arrays self.now.work (Host_cell array cell)) }
    {
        self.accelerator.host_cell(array, cell)
    }

    /// What a cell of a block holds, if the block is there on the device and has the cell: what the log last wrote there. The cell is
    /// named by its number in the host array.
    pub fn block_cell(&self, device: DeviceId, block: BlockId, cell: u32) -> Option<i64>
        ensures there { is_some result
            ≡ has_cell (find_block (blocks_in device self.now.work) block) cell }
        ensures value { IfSome result (λ x.
            x ≡ value self.now.config.arrays self.now.work (Block_cell device block cell)) }
    {
        self.accelerator.block_cell(device, block, cell)
    }

    /// The structured and the dynamic counter of the present range that contains a range with a cell, on a device that
    /// `Config::has_device` knows.
    pub fn counters(&self, device: DeviceId, range: Range) -> Option<(u64, u64)>
        requires device { device < self.now.config.devices }
        requires cells { 0 < range.len }
        ensures { result ≡ option_map (λ p. (p.s, p.d)) (holder
            (presences ((standing_of self.now).marks device)) range) }
    {
        self.accelerator.counters(device, range)
    }

    /// The present range with this index, from 0, by array, then by lower bound, on a device that is there.
    pub fn nth(&self, device: DeviceId, index: usize) -> Option<&Entry>
        requires { device < self.now.config.devices }
        ensures entry { option_map (λ e. entry_presence e.now) result
            ≡ slice_get (presences ((standing_of self.now).marks device)) index }
        ensures noted { IfSome result (λ e.
            entry_note e.now ≡ note_of device (standing_of self.now).labels e.now.block) }
        ensures next { OnSome result (index + 1 < 2 ^ 64) }
    {
        self.accelerator.nth(device, index)
    }

    /// How many devices there are.
    pub fn devices(&self) -> u8
        ensures { result ≡ self.now.config.devices }
    {
        self.accelerator.config().devices()
    }

    /// How many hosts there are.
    pub fn hosts(&self) -> u8
        ensures count { result ≡ length self.now.hosts }
        ensures few { result ≤ MAX_HOSTS }
    {
        self.hosts.len() as u8
    }

    /// Whether a queue is enabled: it takes a batch or performs an operation at its next event. One that isn't there is not.
    pub fn enabled(&self, at: QueueAt) -> bool
        ensures { result ≡ is_enabled self.now at }
    {
        self.accelerator.enabled(at)
    }

    /// Whether an operation was placed and isn't performed. A run is never stuck: some queue is enabled then.
    pub fn any_left(&self) -> bool
        ensures left { result ≡ is_left self.now }
        ensures enabled { IsTrue result → SomeEnabled self.now }
    {
        self.accelerator.any_left()
    }

    /// Where directives are accepted, with all that was accepted so far.
    pub fn place(&self) -> &Place
        ensures config { result.now.config ≡ self.now.config }
        ensures history { result.now.history ≡ self.now.history }
        ensures counts { result.now.counts ≡ self.now.counts }
    {
        self.accelerator.place()
    }

    /// How many batches a queue has taken; none where there is no such queue.
    pub fn taken(&self, at: QueueAt) -> u64
        ensures { result ≡ taken_by self.now at }
    {
        self.accelerator.taken(at)
    }

    /// How many operations are left of the batches that a queue has taken; none where there is no such queue.
    pub fn ops_left(&self, at: QueueAt) -> usize
        ensures { result ≡ length (left_there self.now at) }
    {
        self.accelerator.ops_left(at)
    }

    /// The operation that a queue performs next, of the batches that it has taken; `None` where it has performed them, or there is
    /// no such queue.
    pub fn next_op(&self, at: QueueAt) -> Option<&OpLabel>
        ensures { option_map (λ op. op.now) result ≡ next_by self.now at }
    {
        self.accelerator.next_op(at)
    }

    /// How many items the hosts have.
    pub fn items(&self) -> u64
        ensures { result ≡ all_items self.now.work }
    {
        self.accelerator.items()
    }

    /// Whether each queue of a device has performed so many batches.
    pub fn reached(&self, device: DeviceId, counts: &QueueCounts) -> bool
        ensures { result ≡ all_done (labels_of self.now) self.now.work device 0 counts.now }
    {
        self.accelerator.reached(device, counts)
    }

    /// A host as it stands; `None` where there is no such host.
    pub fn host(&self, host: HostId) -> Option<&Host>
        ensures { option_map (λ h. h.now) result ≡ slice_get self.now.hosts host }
    {
        self.hosts.get(usize::from(host.number()))
    }

    /// What was performed and shown so far, in order.
    pub fn log(&self) -> &WorkLog
        ensures { result.now.items ≡ reverse self.now.work }
    {
        self.accelerator.log()
    }

    /// Where a host stands; `None` where there is no such host.
    pub fn state(&self, host: HostId) -> Option<HostState>
        ensures { result ≡ option_map state_of (slice_get self.now.hosts host) }
    {
        let host = self.hosts.get(usize::from(host.number()))?;
        Some(host.state())
    }

    /// What the run so far leaves; nothing is discarded. A host that was refused has the line of the statement that it stands
    /// at. Takes no memory.
    pub fn outcome(self) -> Outcome
        ensures config { result.config ≡ self.config }
        ensures places { result.places.items ≡ reverse self.history }
        ensures counts { result.counts.items ≡ reverse self.counts }
        ensures works { result.works.items ≡ reverse self.work }
        ensures hosts { result.hosts.items ≡ map state_of self.hosts }
        ensures discarded { result.discarded.items ≡ [] }
        ensures few { length self.hosts ≤ MAX_HOSTS }
        ensures counted { length self.counts ≡ (standing_of self).accepted }
        ensures legal { IsLegalState self }
        ensures follow { AllFollow self 0 self.hosts }
    {
        let alloc = self.alloc;
        let (place, work, hosts, _) = self.into_parts();
        let (config, places, counts) = place.into_histories();
        let works = work.into_log();
        Outcome {
            config,
            places,
            counts,
            works,
            hosts,
            discarded: Vec::new(alloc),
        }
    }

    /// What the run so far leaves, its place and its work side themselves: these, where each host stands, and the programs, in
    /// which each directive that a host came to has the ids that it was given. Takes no memory.
    pub fn into_parts(self) -> (Place, Work, Vec<HostState>, Vec<HostProgram>)
        ensures config { result.0.config ≡ self.config }
        ensures history { result.0.history ≡ self.history }
        ensures counts { result.0.counts ≡ self.counts }
        ensures works { result.1.work ≡ self.work }
        ensures hosts { result.2.items ≡ map state_of self.hosts }
        ensures programs { map bare_statements result.3.items ≡ statements_in self }
        ensures few { length self.hosts ≤ MAX_HOSTS }
        ensures legal { IsLegalState self }
        ensures follow { AllFollow self 0 self.hosts }
    {
        hosts_follow();
        let World {
            alloc: _,
            accelerator,
            hosts,
            mut states,
            mut programs,
        } = self;
        for host in hosts {
            states.push_reserved(host.state());
            programs.push_reserved(host.into_program());
        }
        let (place, work) = accelerator.into_parts();
        (place, work, states, programs)
    }
}
