//! Memory that is refused, at each amount in turn: for tests of what calls answer where memory is scarce.
#![tactic(auto)]

use acc_base::Fault;
use std::alloc::{AllocError, Global};

/// Blocks that take up the whole address space, so that an allocation is refused.
#[derive(Drop)]
pub struct Hoard {
    blocks: Vec<Vec<u8>>,
}

/// The most blocks of a hoard.
const MOST_BLOCKS: usize = 200_000;

impl Hoard {
    /// An empty hoard, with the room for what it will hold.
    ///
    /// # Errors
    ///
    /// Where memory is refused.
    pub fn new(alloc: Global) -> Result<Hoard, AllocError> {
        Ok(Hoard {
            blocks: Vec::with_capacity(alloc, MOST_BLOCKS)?,
        })
    }

    /// Takes all memory that is left, the largest blocks first.
    pub fn fill(&mut self, alloc: Global) {
        for bits in 4..47u32 {
            self.take_all_of(alloc, 1usize << (50 - bits));
        }
    }

    /// Gives all of it back.
    pub fn free(&mut self) {
        self.blocks.clear();
    }

    // Takes blocks of so many bytes until there is none.
    fn take_all_of(&mut self, alloc: Global, size: usize) {
        for _ in 0..MOST_BLOCKS {
            match Vec::with_capacity(alloc, size) {
                Ok(block) => {
                    if self.blocks.push(block).is_err() {
                        return;
                    }
                }
                Err(_) => return,
            }
        }
    }
}

/// Memory that is given back a little at a time.
#[derive(Drop)]
pub struct Purse {
    pieces: Vec<Vec<u8>>,
}

/// The pieces of a purse, and the bytes of each: less than the amount for which an allocator takes a place of its own.
const PIECES: usize = 4;

const PIECE: usize = 120_000;

/// The bytes of a gift.
const GIFT: usize = 16;

impl Purse {
    /// How often a purse gives.
    pub const GIFTS: u32 = 28_000;

    /// A full purse.
    ///
    /// # Errors
    ///
    /// Where memory is refused.
    pub fn new(alloc: Global) -> Result<Purse, AllocError> {
        let mut pieces = Vec::with_capacity(alloc, PIECES)?;
        for _ in 0..PIECES {
            pieces.push(Vec::with_capacity(alloc, PIECE)?)?;
        }
        Ok(Purse { pieces })
    }

    /// Gives back sixteen bytes, or a piece that has fewer, and answers whether they were there. The latest piece goes first, as
    /// what is given then joins what was given before.
    pub fn give(&mut self) -> bool {
        let Some(mut piece) = self.pieces.pop() else {
            return false;
        };
        let capacity = piece.capacity();
        if capacity < GIFT {
            return true;
        }
        piece.shrink_to(capacity - GIFT);
        piece.capacity() < capacity && self.pieces.push(piece).is_ok()
    }
}

/// Makes a call with each amount of memory, from none on, until it answers something else than want of memory: how often
/// it was refused before, and what it then gave.
///
/// # Errors
///
/// The call's fault, if it has another one than `Memory`; `Memory` where it was refused at every amount, or where there
/// is none to begin with.
pub fn at_each_amount<T: Drop, F: FnMut() -> Result<T, Fault>>(
    alloc: Global,
    mut call: F,
) -> Result<(u32, T), Fault>
    requires { F.IsAlwaysCallable call }
{
    let mut purse = Purse::new(alloc)?;
    let mut hoard = Hoard::new(alloc)?;
    let mut refusals = 0u32;
    let mut answer = Err(Fault::Memory);
    hoard.fill(alloc);
    for _ in 0..Purse::GIFTS {
        answer = call();
        if !matches!(&answer, Err(Fault::Memory)) {
            break;
        }
        refusals = refusals.wrapping_add(1);
        if !purse.give() {
            break;
        }
    }
    hoard.free();
    Ok((refusals, answer?))
}
