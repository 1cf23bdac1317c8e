//! The work log on its pages, with the pages to come, and how many items each host has.

ghost use Rattle.std.specs.Prelude.{◌≡◌, ◌-◌, ◌<◌, ◌^◌, [], ◌∷◌, reverse, false, IfOk, IfSome, IsTrue, None};
ghost use Rattle.acc_base.specs.Faults.{OnlyMemory};
ghost use Rattle.acc_base.specs.declared.config.TheConstants.{MAX_HOSTS};
ghost use Rattle.acc_batch.specs.declared.entry.WorkEntry.TheVariants as entry;
ghost use Rattle.acc_work.specs.Logs.{items_of, all_items};
ghost use Rattle.acc_batch.specs.Pages.{HasRoomFor};
ghost use Rattle.acc_work.specs.inner.Records.{HasClaimed};

use crate::work_log::WorkLog;
use acc_base::{Fault, HostId, MAX_HOSTS, QueueAt};
use acc_batch::{OpLabel, Page, Told, WorkEntry};
use acc_raw::{Chain, Node};
use std::alloc::Global;
use std::marker::Model;

/// The most items of all hosts in a run.
pub const MAX_HOST_ITEMS: u64 = 1_099_511_627_776;

/// The work log, with what runs beside it. A contract sees its entries, and for how many more there is room.
#[derive(Drop)]
pub struct Log {
    entries: WorkLog,
    // the pages to come
    blank: Chain<Page>,
    // for how many entries there is room that nobody has claimed
    unclaimed: usize,
    // how many items each host has
    items: [u64; MAX_HOSTS as usize],
    all_items: u64,
}

impl Model for Log {
    ghost use Rattle.std.specs.Coded.{codes};
    ghost use Rattle.std.specs.Prelude.{◌+◌, reverse};
    ghost use Rattle.acc_kernel.specs.contracts.expr.Expr as expr;
    ghost use Rattle.acc_work.specs.inner.Records.{LogView, IsLog, all_free};

    ghost Value = { LogView };

    ghost coded = { Prim.hlevel (codes, expr.the_row.coded) };

    ghost view = { λ l. record { work = reverse l.entries.items; free = l.entries.free + all_free l.blank; unclaimed = l.unclaimed } };

    ghost invariant = { λ l. IsLog (reverse l.entries.items) l.items l.all_items l.blank };
}

impl Log {
    /// No entry.
    ///
    /// # Errors
    ///
    /// `Memory` where memory is refused.
    pub(crate) fn new(alloc: Global) -> Result<Self, Fault>
        ensures work { IfOk result (λ l. l.work ≡ []) }
        ensures unclaimed { IfOk result (λ l. l.unclaimed ≡ 0) }
        ensures fault { OnlyMemory result }
    {
        Ok(Log {
            entries: WorkLog::new(alloc)?,
            blank: Chain::new(alloc),
            unclaimed: 0,
            items: [0; MAX_HOSTS as usize],
            all_items: 0,
        })
    }

    /// Claims room for so many entries: of what is unclaimed, if that is enough, or else with a page, which is freed where it
    /// isn't needed. It takes no memory.
    pub(crate) fn claim(&mut self, count: usize, page: Node<Page>)
        requires page { HasRoomFor page count }
        requires some { 0 < page.free }
        ensures { HasClaimed count self.old self.new }
    {
        if count <= self.unclaimed {
            self.unclaimed -= count;
            return;
        }
        self.unclaimed += page.value().free() - count;
        self.blank.push_back(page);
    }

    /// Claims room for an entry: with a page, as `claim` does, or where there is none, if some is unclaimed.
    pub(crate) fn claim_one(&mut self, page: Option<Node<Page>>) -> bool
        requires { IfSome page (λ p. HasRoomFor p 1) }
        ensures claimed { IsTrue result → HasClaimed 1 self.old self.new }
        ensures none { result ≡ false → (self.new ≡ self.old) × (page ≡ None) }
    {
        match page {
            Some(page) => {
                self.claim(1, page);
                true
            }
            None => {
                if self.unclaimed == 0 {
                    return false;
                }
                self.unclaimed -= 1;
                true
            }
        }
    }

    /// The entries.
    pub(crate) fn entries(&self) -> &WorkLog
        ensures { result.now.items ≡ reverse self.now.work }
    {
        &self.entries
    }

    /// The entries.
    pub(crate) fn into_entries(self) -> WorkLog
        ensures { result.items ≡ reverse self.work }
    {
        let Log { entries, .. } = self;
        entries
    }

    /// How many items a host has.
    pub(crate) fn items_of(&self, host: HostId) -> u64
        requires { host < MAX_HOSTS }
        ensures { result ≡ items_of host self.now.work }
    {
        self.items[usize::from(host.number())]
    }

    /// How many items all hosts have.
    pub(crate) fn all_items(&self) -> u64
        ensures { result ≡ all_items self.now.work }
    {
        self.all_items
    }

    /// A queue performed an operation. It takes no memory.
    pub(crate) fn push_op(&mut self, at: QueueAt, what: OpLabel)
        requires { 0 < self.old.free }
        ensures { self.new
            ≡ record { work = entry.Op at what ∷ self.old.work; free = self.old.free - 1; unclaimed = self.old.unclaimed } }
    {
        self.entries
            .push(WorkEntry::Op { at, what }, &mut self.blank);
    }

    /// A host told an item. It takes no memory.
    pub(crate) fn push_item(&mut self, host: HostId, what: Told)
        requires room { 0 < self.old.free }
        requires host { host < MAX_HOSTS }
        requires few { all_items self.old.work < 2 ^ 63 }
        ensures { self.new
            ≡ record { work = entry.Item host what ∷ self.old.work; free = self.old.free - 1; unclaimed = self.old.unclaimed } }
    {
        let index = usize::from(host.number());
        self.items[index] += 1;
        self.all_items += 1;
        self.entries
            .push(WorkEntry::Item { host, what }, &mut self.blank);
    }
}
