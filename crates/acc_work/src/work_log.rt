//! The entries of the work log, on pages.

ghost use Rattle.std.specs.Prelude.{◌≡◌, ◌+◌, ◌<◌, [], ◌∷◌, ◌++◌, length, IfOk, IfSome, MatchOption};
ghost use Rattle.std.specs.Iterator.{YieldsFirstRef, item_count};
ghost use Rattle.std.specs.List.{All};
ghost use Rattle.acc_base.specs.Faults.{OnlyMemory};
ghost use Rattle.acc_work.specs.inner.Records.{IsBlank, all_free};

use acc_base::Fault;
use acc_batch::{Page, WorkEntry};
use acc_raw::{Chain, Iter, Node};
use std::alloc::Global;
use std::marker::Model;
use std::mem;

/// The work log: what queues performed and hosts told, on pages, which are linked one behind the other. A contract sees the
/// entries, the first one first, and for how many more the last page has room.
#[derive(Drop)]
pub struct WorkLog {
    // the pages that are full
    full: Chain<Page>,
    // and the last one
    page: Node<Page>,
}

impl Model for WorkLog {
    ghost use Rattle.std.specs.Prelude.{◌++◌};
    ghost use Rattle.std.specs.Coded.{codes};
    ghost use Rattle.std.specs.List.{flat_map};
    ghost use Rattle.acc_kernel.specs.contracts.expr.Expr as expr;
    ghost use Rattle.acc_work.specs.Logs.{WorkLogView};

    ghost Value = { WorkLogView };

    ghost coded = { Prim.hlevel (codes, expr.the_row.coded) };

    ghost view = { λ l. record { items = flat_map (λ p. p.items) l.full ++ l.page.items; free = l.page.free } };
}

impl WorkLog {
    /// No entry.
    ///
    /// # Errors
    ///
    /// `Memory` where memory is refused.
    pub(crate) fn new(alloc: Global) -> Result<Self, Fault>
        ensures items { IfOk result (λ l. l.items ≡ []) }
        ensures fault { OnlyMemory result }
    {
        let page = Page::new(alloc, 0)?;
        Ok(WorkLog {
            full: Chain::new(alloc),
            page,
        })
    }

    /// All entries, in their order.
    pub fn iter(&self) -> Entries<'_>
        ensures { result ≡ self.now.items }
    {
        Entries {
            page: &[],
            pages: self.pages(),
        }
    }

    /// All entries, in their order, page by page.
    pub fn pages(&self) -> Pages<'_>
        ensures { result ≡ self.now.items }
    {
        Pages {
            full: self.full.iter(),
            last: self.page.value().entries(),
        }
    }

    /// Puts an entry behind the others, on a page of those to come where the last one is full. It takes no memory.
    pub(crate) fn push(&mut self, entry: WorkEntry, blank: &mut Chain<Page>)
        requires blank { All IsBlank blank.old }
        requires room { 0 < self.old.free + all_free blank.old }
        ensures items { self.new.items ≡ self.old.items ++ entry ∷ [] }
        ensures blank { All IsBlank blank.new }
        ensures free { self.new.free + all_free blank.new + 1 ≡ self.old.free + all_free blank.old }
    {
        if self.page.value().free() == 0 {
            self.turn(blank);
        }
        let page = self.page.value_mut();
        page.push(entry);
    }

    // Goes on with the first page of those to come, where the last one is full.
    fn turn(&mut self, blank: &mut Chain<Page>)
        requires blank { All IsBlank blank.old }
        requires room { 0 < all_free blank.old }
        ensures items { self.new.items ≡ self.old.items }
        ensures blank { All IsBlank blank.new }
        ensures some { 0 < self.new.free }
        ensures free { self.new.free + all_free blank.new ≡ all_free blank.old }
    {
        match blank.pop_front() {
            None => (),
            Some(page) => {
                let full = mem::replace(&mut self.page, page);
                self.full.push_back(full);
            }
        }
    }
}

/// The pages of a work log that are left, in its order. A contract sees the list of their entries.
#[derive(Drop)]
pub struct Pages<'log> {
    // those that are full
    full: Iter<'log, Page>,
    // and the entries of the last one
    last: &'log [WorkEntry],
}

impl<'log> Model for Pages<'log> {
    ghost use Rattle.std.specs.Prelude.{List, ◌++◌};
    ghost use Rattle.std.specs.Coded.{codes};
    ghost use Rattle.std.specs.List.{flat_map};
    ghost use Rattle.acc_kernel.specs.contracts.expr.Expr as expr;
    ghost use Rattle.acc_batch.specs.declared.entry.WorkEntry.{WorkEntry};

    ghost Value = { List WorkEntry };

    ghost coded = { Prim.hlevel (codes, expr.the_row.coded) };

    ghost view = { λ p. flat_map (λ page. page.items) p.full ++ p.last.now };
}

impl<'log> Pages<'log> {
    /// The entries of the next page that has some, which is then read.
    pub fn next(&mut self) -> Option<&'log [WorkEntry]>
        ensures page { MatchOption result ((self.old ≡ []) × (self.new ≡ [])) (λ page.
            self.old ≡ page.now ++ self.new) }
        ensures some { IfSome result (λ page. 0 < length page.now) }
    {
        while let Some(page) = self.full.next() {
            if !page.entries().is_empty() {
                return Some(page.entries());
            }
        }
        if self.last.is_empty() {
            return None;
        }
        Some(mem::replace(&mut self.last, &[]))
    }
}

/// The entries of a work log that are left, in its order. A contract sees the list of them.
#[derive(Drop)]
pub struct Entries<'log> {
    // of the page that is read
    page: &'log [WorkEntry],
    // and of those behind it
    pages: Pages<'log>,
}

impl<'log> Model for Entries<'log> {
    ghost use Rattle.std.specs.Prelude.{List, ◌++◌};
    ghost use Rattle.std.specs.Coded.{codes};
    ghost use Rattle.acc_kernel.specs.contracts.expr.Expr as expr;
    ghost use Rattle.acc_batch.specs.declared.entry.WorkEntry.{WorkEntry};

    ghost Value = { List WorkEntry };

    ghost coded = { Prim.hlevel (codes, expr.the_row.coded) };

    ghost view = { λ e. e.page.now ++ e.pages };
}

impl<'log> Iterator for Entries<'log> {
    type Item = &'log WorkEntry;

    ghost next_gives = { YieldsFirstRef (λ rest. rest) };

    ghost remaining = { item_count (λ rest. rest) };

    fn next(&mut self) -> Option<&'log WorkEntry> {
        if let Some((entry, behind)) = self.page.split_first() {
            self.page = behind;
            return Some(entry);
        }
        let (entry, behind) = self.pages.next()?.split_first()?;
        self.page = behind;
        Some(entry)
    }
}
