//! Which blocks were ever made on a device.

ghost use Rattle.std.specs.Prelude.{◌≡◌, ◌<◌, ◌==◌, ◌||◌, ℕ, false, IfOk};
ghost use Rattle.acc_base.specs.Faults.{OnlyMemory};
ghost use Rattle.acc_memory.specs.Memories.{is_made};
ghost use Rattle.acc_memory.specs.inner.Marks.{IsRisen, makes_with};

use crate::buckets::Buckets;
use acc_base::{BlockId, Fault};
use acc_batch::Mark;
use acc_raw::Node;
use std::alloc::Global;
use std::marker::Model;

/// The blocks that were ever made on a device. Where they are made in the order of their numbers the bound is all that is kept.
#[derive(Drop)]
pub struct Makes {
    // each block from number 1 to this one
    all_to: u64,
    // and those with a mark, of which none is the next
    others: Buckets<Mark>,
}

impl Model for Makes {
    ghost use Rattle.acc_memory.specs.Memories.{MakesView};
    ghost use Rattle.acc_memory.specs.inner.Marks.{IsRisen, makes_with};

    ghost Value = { MakesView };

    ghost view = { λ m. makes_with m.all_to m.others };

    ghost invariant = { λ m. IsRisen m.all_to m.others };
}

impl Makes {
    /// None, and room to spread marks over chains up to this one.
    ///
    /// # Errors
    ///
    /// `Memory` where memory is refused.
    pub(crate) fn new(alloc: Global, last: u16) -> Result<Self, Fault>
        ensures none { IfOk result (λ m. (block : ℕ) → is_made m block ≡ false) }
        ensures fault { OnlyMemory result }
    {
        let others = Buckets::new(alloc, last)?;
        Ok(Makes { all_to: 0, others })
    }

    /// Whether a block was made.
    pub(crate) fn is_made(&self, block: BlockId) -> bool
        ensures { result ≡ is_made self.now block }
    {
        let number = block.number();
        (0 < number && number <= self.all_to) || self.others.get(number).is_some()
    }

    /// Notes the block of a mark. Takes no memory: where the block is the next one the bound rises, and else the mark stays in its node.
    pub(crate) fn note(&mut self, mark: Node<Mark>)
        ensures { (block : ℕ) → is_made self.new block ≡ ((mark.block == block)
            || is_made self.old block) }
    {
        let block = mark.value().block;
        if block.number() > self.all_to && block.number() - self.all_to == 1 {
            self.all_to = risen(block.number(), &mut self.others);
        } else if !self.is_made(block) {
            self.others.put(mark);
        }
    }
}

// How far a bound rises, over all marks that come next. These go.
fn risen(mut all_to: u64, marks: &mut Buckets<Mark>) -> u64
    ensures made { (block : ℕ) → is_made (makes_with result marks.new) block
        ≡ is_made (makes_with all_to marks.old) block }
    ensures all { IsRisen result marks.new }
{
    while let Some(next) = all_to.checked_add(1) {
        if !marks.remove(next) {
            return all_to;
        }
        all_to = next;
    }
    all_to
}
