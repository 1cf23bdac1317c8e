//! Ranges of one array, entries into a present table behind all that it requires, numbers that look random, and what was found beside
//! what was wanted.

ghost use Rattle.std.specs.Prelude.{◌≡◌, ◌<◌};

use acc_base::{BlockId, Range};
use acc_present::{Counter, Entered, Left, Look, Table};
use std::fmt::Debug;
use std::process::Abort;

// The capacity of a table.
pub const CELLS: u64 = 1_000_000;

pub fn cells(lo: u32, len: u32) -> Range
    ensures array { result.array ≡ 0 }
    ensures lo { result.lo ≡ lo }
    ensures len { result.len ≡ len }
{
    Range { array: 0, lo, len }
}

// Enters a range, with all that has to be tested before.
pub fn entered_by(
    rt: &impl Abort,
    table: &mut Table,
    range: Range,
    counter: Counter,
    block: u64,
) -> Entered
    requires capacity { table.old.capacity ≡ CELLS }
    requires cells { 0 < range.len }
    ensures { table.new.capacity ≡ CELLS }
{
    assert!(rt; table.spare(1).is_ok());
    let used = table.used_cells();
    assert!(rt; used < CELLS - 1_000);
    assert!(rt; range.len < 1_000);
    match table.look(range) {
        Look::Absent => table.enter(range, counter, BlockId::new(block)),
        Look::Present(entry) => {
            assert!(rt; entry.s < 1_000);
            assert!(rt; entry.d < 1_000);
            table.enter(range, counter, BlockId::new(block))
        }
        Look::Partly => {
            assert!(rt; false, "partly present");
            Entered::Counted
        }
    }
}

// Enters a range by the dynamic counter.
pub fn entered_into(rt: &impl Abort, table: &mut Table, range: Range, block: u64) -> Entered
    requires capacity { table.old.capacity ≡ CELLS }
    requires cells { 0 < range.len }
    ensures { table.new.capacity ≡ CELLS }
{
    entered_by(rt, table, range, Counter::Dynamic, block)
}

// A region leaves a range that it entered.
pub fn left_by_region(rt: &impl Abort, table: &mut Table, range: Range) -> Left
    requires { 0 < range.len }
    ensures { table.new.capacity ≡ table.old.capacity }
{
    match table.look(range) {
        Look::Present(entry) => {
            assert!(rt; 0 < entry.s);
            table.leave(range, Counter::Structured)
        }
        Look::Absent | Look::Partly => {
            assert!(rt; false, "no region entered it");
            Left::Nothing
        }
    }
}

/// Numbers that look random, each made from the one before.
#[derive(Drop)]
pub struct Dice {
    state: u64,
}

impl Dice {
    pub fn new() -> Dice {
        Dice { state: 1 }
    }

    // The next number, of 31 bits.
    pub fn roll(&mut self) -> u64 {
        self.state = self
            .state
            .wrapping_mul(6_364_136_223_846_793_005)
            .wrapping_add(1_442_695_040_888_963_407);
        self.state >> 33
    }

    // A number below this one, which isn't zero.
    pub fn below(&mut self, limit: usize) -> usize
        ensures { 0 < limit → result < limit }
    {
        let number = self.roll() as usize;
        if limit == 0 { 0 } else { number % limit }
    }
}

// Stops the test where the two differ. An assertion that is written out takes as long to prove as the rest of a test.
pub fn check_same<T: PartialEq + Debug + Copy>(rt: &impl Abort, found: T, wanted: T) {
    assert_eq!(rt; found, wanted);
}
