//! A present table beside a plain one, through the same long row of calls.

ghost use Rattle.std.specs.Prelude.{◌≡◌, ◌<◌, IfSome, vec_len};
ghost use Rattle.test_data.specs.declared.fixtures.TheConstants.{CELLS};

use crate::fixtures::{CELLS, Dice, check_same, entered_by, left_by_region};
use acc_base::{BlockId, Range};
use acc_present::{Counter, Entered, Left, Look, Table};
use std::alloc::{AllocError, Global};
use std::process::Abort;
use std::test::Fail;

/// A present range, its block, its structured and its dynamic counter.
#[derive(Clone, Copy, Debug, PartialEq, Eq)]
struct Plain {
    range: Range,
    block: BlockId,
    s: u64,
    d: u64,
}

/// What a table has of a range.
#[derive(Clone, Copy, Debug, PartialEq, Eq)]
enum Found {
    Absent,
    Partly,
    Present(Plain),
}

fn found_by(look: Look) -> Found {
    match look {
        Look::Absent => Found::Absent,
        Look::Partly => Found::Partly,
        Look::Present(e) => Found::Present(Plain {
            range: e.range,
            block: e.block,
            s: e.s,
            d: e.d,
        }),
    }
}

// The first range has all cells of the second.
fn has_all(whole: Range, part: Range) -> bool {
    whole.array == part.array && whole.lo <= part.lo && part.end() <= whole.end()
}

fn share_one(left: Range, right: Range) -> bool {
    let is_before = left.end() <= u64::from(right.lo);
    let is_behind = right.end() <= u64::from(left.lo);
    left.array == right.array && !is_before && !is_behind
}

/// The present ranges, by array, then by lower bound.
#[derive(Drop)]
struct PlainTable {
    present: Vec<Plain>,
}

impl PlainTable {
    // The one that contains the range.
    fn index_of(&self, range: Range) -> Option<usize>
        ensures { IfSome result (λ at. at < vec_len self.now.present) }
    {
        self.present
            .iter()
            .position(|plain| has_all(plain.range, range))
    }

    fn look(&self, range: Range) -> Found {
        if let Some(at) = self.index_of(range) {
            return Found::Present(self.present[at]);
        }
        if self
            .present
            .iter()
            .any(|plain| share_one(plain.range, range))
        {
            Found::Partly
        } else {
            Found::Absent
        }
    }

    fn counters(&self, range: Range) -> Option<(u64, u64)> {
        match self.look(range) {
            Found::Present(plain) => Some((plain.s, plain.d)),
            Found::Absent | Found::Partly => None,
        }
    }

    // Counts an entry to a range that isn't partly present.
    fn enter(
        &mut self,
        range: Range,
        counter: Counter,
        block: BlockId,
    ) -> Result<Entered, AllocError> {
        if let Some(at) = self.index_of(range) {
            let plain = self.present[at];
            self.present[at] = counted(plain, counter);
            return Ok(Entered::Counted);
        }
        let new = Plain {
            range,
            block,
            s: 0,
            d: 0,
        };
        self.present.push(counted(new, counter))?;
        self.present
            .sort_by_key(|plain| (plain.range.array, plain.range.lo))?;
        Ok(Entered::Opened)
    }

    // Takes so many off a counter, and at most what it has.
    fn exit(&mut self, range: Range, counter: Counter, many: u64) -> Left {
        let Some(at) = self.index_of(range) else {
            return Left::Nothing;
        };
        let plain = self.present[at];
        let (s, d) = match counter {
            Counter::Structured => (plain.s.saturating_sub(many), plain.d),
            Counter::Dynamic => (plain.s, plain.d.saturating_sub(many)),
        };
        if (s, d) == (plain.s, plain.d) {
            return Left::Nothing;
        }
        if (s, d) == (0, 0) {
            let _ = self.present.remove(at);
            return Left::Ended(plain.block);
        }
        self.present[at] = Plain { s, d, ..plain };
        Left::Counted
    }

    fn used_cells(&self) -> u64 {
        let mut used = 0u64;
        for plain in self.present.iter() {
            used = used.wrapping_add(u64::from(plain.range.len));
        }
        used
    }
}

fn counted(plain: Plain, counter: Counter) -> Plain {
    match counter {
        Counter::Structured => Plain {
            s: plain.s.wrapping_add(1),
            ..plain
        },
        Counter::Dynamic => Plain {
            d: plain.d.wrapping_add(1),
            ..plain
        },
    }
}

/// A table, and a plain one beside it.
#[derive(Drop)]
struct Both {
    table: Table,
    plain: PlainTable,
    ghost capacity: { table.capacity ≡ CELLS },
}

impl Both {
    fn new(alloc: Global) -> Both {
        Both {
            table: Table::new(alloc, CELLS),
            plain: PlainTable {
                present: Vec::new(alloc),
            },
        }
    }

    // Enters a range that isn't partly present.
    fn enter(
        &mut self,
        rt: &impl Abort,
        range: Range,
        counter: Counter,
        block: u64,
    ) -> Result<(), AllocError>
        requires { 0 < range.len }
    {
        if self.plain.look(range) == Found::Partly {
            return Ok(());
        }
        let wanted = self.plain.enter(range, counter, BlockId::new(block))?;
        check_same(
            rt,
            entered_by(rt, &mut self.table, range, counter, block),
            wanted,
        );
        Ok(())
    }

    // A region leaves a range that one has entered.
    fn leave_region(&mut self, rt: &impl Abort, range: Range)
        requires { 0 < range.len }
    {
        if let Some((s, _)) = self.plain.counters(range)
            && 0 < s
        {
            let wanted = self.plain.exit(range, Counter::Structured, 1);
            check_same(rt, left_by_region(rt, &mut self.table, range), wanted);
        }
    }

    fn leave(&mut self, rt: &impl Abort, range: Range)
        requires { 0 < range.len }
    {
        let wanted = self.plain.exit(range, Counter::Dynamic, 1);
        check_same(rt, self.table.leave(range, Counter::Dynamic), wanted);
    }

    fn finalize(&mut self, rt: &impl Abort, range: Range)
        requires { 0 < range.len }
    {
        let wanted = self.plain.exit(range, Counter::Dynamic, u64::MAX);
        check_same(rt, self.table.finalize(range), wanted);
    }

    fn check_range(&self, rt: &impl Abort, range: Range)
        requires { 0 < range.len }
    {
        check_same(rt, found_by(self.table.look(range)), self.plain.look(range));
        check_same(rt, self.table.counters(range), self.plain.counters(range));
    }

    // One of ten kinds of calls, where entries are so many of the ten.
    fn step(
        &mut self,
        rt: &impl Abort,
        dice: &mut Dice,
        entries: u64,
        block: u64,
    ) -> Result<(), AllocError> {
        let range = any_range(dice);
        let is_region = dice.roll() % 2 == 0;
        let kind = dice.roll() % 10;
        if kind < entries {
            let counter = if is_region {
                Counter::Structured
            } else {
                Counter::Dynamic
            };
            self.enter(rt, range, counter, block)?;
        } else if kind == 9 {
            self.finalize(rt, range);
        } else if is_region {
            self.leave_region(rt, range);
        } else {
            self.leave(rt, range);
        }
        self.check_range(rt, any_range(dice));
        Ok(())
    }

    fn check_alike(&self, rt: &impl Abort) {
        check_same(rt, self.table.used_cells(), self.plain.used_cells());
        let mut at = 0usize;
        for plain in self.plain.present.iter() {
            let entry = self.table.nth(at).copied();
            check_same(
                rt,
                entry.map(|e| found_by(Look::Present(e))),
                Some(Found::Present(*plain)),
            );
            at = at.wrapping_add(1);
        }
        check_same(rt, self.table.nth(at).copied(), None);
    }
}

// One to six cells near the begin of one of two arrays.
fn any_range(dice: &mut Dice) -> Range
    ensures { 0 < result.len }
{
    Range {
        array: dice.below(2) as u8,
        lo: dice.below(3_000) as u32,
        len: dice.below(6) as u32 + 1,
    }
}

// So many calls, of which so many of ten are entries.
fn go(
    rt: &impl Abort,
    both: &mut Both,
    dice: &mut Dice,
    calls: u64,
    entries: u64,
) -> Result<(), Fail> {
    for block in 0..calls {
        both.step(rt, dice, entries, block)?;
    }
    both.check_alike(rt);
    Ok(())
}

/// The table grows and shrinks by turns.
#[test]
fn a_hundred_thousand_calls_answer_as_a_plain_table(rt: HostRuntime) -> Result<(), Fail> {
    let mut both = Both::new(rt.alloc());
    let mut dice = Dice::new();
    for entries in [8u64, 5, 2, 8, 1] {
        go(&rt, &mut both, &mut dice, 20_000, entries)?;
    }
    Ok(())
}
