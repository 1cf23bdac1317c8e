//! A page of the work log.

ghost use Rattle.std.specs.Prelude.{◌≡◌, ◌-◌, ◌<◌, [], ◌∷◌, ◌++◌, IfOk};
ghost use Rattle.acc_base.specs.Faults.{OnlyMemory};
ghost use Rattle.acc_batch.specs.Pages.{HasRoomFor};

use crate::entry::WorkEntry;
use acc_base::Fault;
use acc_raw::Node;
use std::alloc::Global;
use std::marker::Model;

// The least entries that a page is made for.
const PAGE: usize = 16;

/// A page of the work log: some entries, and room for more. Contracts see both.
#[derive(Drop)]
pub struct Page {
    entries: Vec<WorkEntry>,
}

impl Model for Page {
    ghost use Rattle.std.specs.Prelude.{◌-◌, length, vec_capacity};
    ghost use Rattle.std.specs.Coded.{codes};
    ghost use Rattle.acc_kernel.specs.contracts.expr.Expr as expr;
    ghost use Rattle.acc_batch.specs.Pages.{PageView};

    ghost Value = { PageView };

    ghost coded = { Prim.hlevel (codes, expr.the_row.coded) };

    ghost view = { λ p. record { items = p.entries.items; free = vec_capacity p.entries - length p.entries.items } };
}

impl Page {
    /// A page without an entry, in its node, with room for so many, and for 16 at least.
    ///
    /// # Errors
    ///
    /// `Memory` where memory is refused.
    pub fn new(alloc: Global, count: usize) -> Result<Node<Page>, Fault>
        ensures room { IfOk result (λ p. HasRoomFor p count) }
        ensures some { IfOk result (λ p. 0 < p.free) }
        ensures fault { OnlyMemory result }
    {
        let page = Page {
            entries: Vec::with_capacity(alloc, count.max(PAGE))?,
        };
        match Node::new(alloc, page) {
            Ok(page) => Ok(page),
            Err((_, fault)) => Err(fault),
        }
    }

    /// For how many more entries it has room.
    pub fn free(&self) -> usize
        ensures { result ≡ self.now.free }
    {
        self.entries.capacity() - self.entries.len()
    }

    /// Its entries, the first one first.
    pub fn entries(&self) -> &[WorkEntry]
        ensures { result.now ≡ self.now.items }
    {
        self.entries.as_slice()
    }

    /// Puts an entry behind the others. It takes no memory.
    pub fn push(&mut self, entry: WorkEntry)
        requires { 0 < self.old.free }
        ensures { self.new ≡ record {
          items = self.old.items
              ++ entry ∷ [];
          free = self.old.free - 1;
        } }
    {
        self.entries.push_reserved(entry);
    }
}
