//! A loop is computed with no lock held: what hosts and other queues do meanwhile is done, and the loop is performed over the cells as they
//! are when it comes back.

ghost use Rattle.std.specs.Prelude.{◌≡◌, IfOk};

use crate::fixtures::{Open, TURNS, both, close_all, have_come, print, queue, record, serve_all};
use acc_base::{Config, DeviceId, Fault, QueueAt, Range};
use acc_place::{Clause, DataItem, Directive, Target, Waits};
use acc_run::{Gate, HostToken, Runtime};
use acc_work::{Item, Told, Values, WorkEntry, WorkLog};
use std::alloc::Global;
use std::sync::Wait;
use std::sync::atomic::{AtomicU64, Ordering};
use std::test::Fail;
use std::thread;
use std::thread::{Scope, Threads};
use tool_directives::{Form, UPDATE, counts_of, directive_of, over};
use tool_loops::Body;

/// Cells of an array: its number, the first of them, and how many.
type Cells = (u8, u32, u32);

/// Cells, and the value that each of them is given.
type Change = (Cells, i64);

/// A loop over a and b, the arrays 0 and 1, which hold 1, 2, 3, 4 and 5, 6, 7, 8 at first: its clauses name so many cells of both, from
/// one on. What changes, one change behind another, and what the arrays hold in the end.
#[derive(Clone, Copy)]
pub struct Case {
    lo: i64,
    hi: i64,
    body: Body,
    named: (u32, u32),
    changes: &'static [Change],
    after: [&'static [i64]; 2],
}

impl Case {
    // How many cells each array has.
    fn cells(&self) -> u32 {
        u32::try_from(self.after[0].len()).unwrap_or(0)
    }
}

/// `b[i] = a[i] + 1` in the middle, where another queue copies in cells of which one is the loop's and one isn't.
const IN_PART: Case = Case {
    lo: 1,
    hi: 3,
    body: Body::Successor,
    named: (1, 2),
    changes: &[((0, 2, 2), 9)],
    after: [&[1, 2, 9, 9], &[5, 3, 10, 8]],
};

/// The same, where nothing changes.
const UNCHANGED: Case = Case {
    changes: &[],
    after: [&[1, 2, 3, 4], &[5, 3, 4, 8]],
    ..IN_PART
};

/// `b[i] = a[i] + 1` for each of a thousand cells, all of which are 0 at first, and of which none changes.
pub const WIDE: Case = Case {
    lo: 0,
    hi: 1_000,
    body: Body::Successor,
    named: (0, 1_000),
    changes: &[],
    after: [&[0; 1_000], &[1; 1_000]],
};

const CASES: [Case; 11] = [
    IN_PART,
    UNCHANGED,
    // b changes, which the loop only assigns
    Case {
        named: (0, 4),
        changes: &[((1, 0, 4), 9)],
        after: [&[1, 2, 3, 4], &[9, 3, 4, 9]],
        ..IN_PART
    },
    // cells change that its clauses don't name
    Case {
        changes: &[((0, 0, 1), 9), ((1, 3, 1), 9)],
        after: [&[9, 2, 3, 4], &[5, 3, 4, 9]],
        ..IN_PART
    },
    // cells change that its clauses name, and no index
    Case {
        named: (0, 4),
        changes: &[((0, 0, 1), 9), ((1, 3, 1), 9)],
        after: [&[9, 2, 3, 4], &[5, 3, 4, 9]],
        ..IN_PART
    },
    // an input changes, and changes back
    Case {
        changes: &[((0, 1, 1), 9), ((0, 1, 1), 2)],
        after: [&[1, 2, 3, 4], &[5, 3, 4, 8]],
        ..IN_PART
    },
    // both inputs change, and one of them changes back
    Case {
        changes: &[((0, 1, 2), 9), ((0, 2, 1), 3)],
        after: [&[1, 9, 3, 4], &[5, 10, 4, 8]],
        ..IN_PART
    },
    // `a[i] = a[i] + 1`, all of which change
    Case {
        lo: 0,
        hi: 4,
        body: Body::Counted,
        named: (0, 4),
        changes: &[((0, 0, 4), 9)],
        after: [&[10, 10, 10, 10], &[5, 6, 7, 8]],
    },
    // the same of two cells, while three change, one of them the loop's
    Case {
        lo: 0,
        hi: 2,
        body: Body::Counted,
        named: (0, 2),
        changes: &[((0, 1, 3), 9)],
        after: [&[2, 10, 9, 9], &[5, 6, 7, 8]],
    },
    // `b[i] = a[i + 1]`, the last of which changes
    Case {
        lo: 0,
        hi: 3,
        body: Body::Next,
        named: (0, 4),
        changes: &[((0, 3, 1), 9)],
        after: [&[1, 2, 3, 9], &[2, 3, 9, 8]],
    },
    // `a[i] = a[i] + 1; b[i] = 2 * a[i]; a[i] = b[i] - 5;`, while both arrays change
    Case {
        lo: 0,
        hi: 2,
        body: Body::Three,
        named: (0, 4),
        changes: &[((0, 1, 1), 9), ((1, 0, 4), 0)],
        after: [&[-1, 15, 3, 4], &[4, 20, 0, 0]],
    },
];

// A loop that is out goes on once it is let go.
#[derive(Drop)]
struct Holding {
    is_out: AtomicU64,
    is_let_go: AtomicU64,
}

impl Gate for Holding {
    fn pass(&self, _at: QueueAt, _number: u64) -> bool {
        true
    }

    fn work(&self, _at: QueueAt, _number: u64) {
        self.is_out.store(1, Ordering::SeqCst);
        let _ = comes(&self.is_let_go);
    }
}

/// Whether a mark is set within some seconds.
pub fn comes(mark: &AtomicU64) -> bool {
    have_come(mark, 1, TURNS)
}

// So many batches pass, the first ones of their queue.
#[derive(Drop)]
struct First {
    count: u64,
}

impl Gate for First {
    fn pass(&self, _at: QueueAt, number: u64) -> bool {
        number <= self.count
    }
}

/// So many hosts, and these arrays.
pub fn arrays_of(alloc: Global, hosts: u8, a: Vec<i64>, b: Vec<i64>) -> Result<Config, Fault>
    ensures { IfOk result (λ config. config.hosts ≡ hosts) }
{
    Config::new(alloc, 1, hosts, vec![in alloc; a, b]?, 100_000, 64)
}

fn range_of((array, lo, len): Cells) -> Range {
    Range { array, lo, len }
}

/// The directives of a loop, all on queue `1`: a and b are entered, the loop is computed, and both come back.
pub fn directives_of(alloc: Global, case: &Case) -> Result<Vec<Directive>, Fault> {
    let first = Target::Value { value: 1 };
    let (lo, len) = case.named;
    let copyin = both(Clause::Copyin, 0, case.cells());
    let present = both(Clause::Present, lo, len);
    let update = both(Clause::UpdateSelf, 0, case.cells());
    let form = over(case.lo, case.hi, case.body);
    let enter = directive_of(alloc, Form::EnterData, &copyin, first, Waits::Nothing)?;
    let run = directive_of(alloc, form, &present, first, Waits::Nothing)?;
    let back = directive_of(alloc, UPDATE, &update, first, Waits::Nothing)?;
    Ok(vec![in alloc; enter, run, back]?)
}

/// Places the directives of a loop.
pub fn place_loop<R: Wait>(
    rt: &R,
    alloc: Global,
    runtime: &Runtime,
    token: &mut HostToken,
    case: &Case,
) -> Result<(), Fault> {
    for directive in directives_of(alloc, case)?.as_slice() {
        let _ = runtime.place(rt, token, directive)?;
    }
    Ok(())
}

// On queue `2`, a batch for each change: its cells are copied in.
fn place_changes<R: Wait>(
    rt: &R,
    alloc: Global,
    runtime: &Runtime,
    token: &mut HostToken,
    changes: &[Change],
) -> Result<(), Fault> {
    let second = Target::Value { value: 2 };
    for (cells, _) in changes {
        let item = DataItem {
            clause: Clause::UpdateDevice,
            range: range_of(*cells),
        };
        let update = directive_of(alloc, UPDATE, &[item], second, Waits::Nothing)?;
        let _ = runtime.place(rt, token, &update)?;
    }
    Ok(())
}

// The host gives each of these cells a value.
fn write<R: Wait>(
    rt: &R,
    runtime: &Runtime,
    token: &mut HostToken,
    ((array, lo, len), value): Change,
) -> Result<(), Fault> {
    for place in 0..len {
        let cell = lo.wrapping_add(place);
        record(rt, runtime, token, Item::write(array, cell, value))?;
    }
    Ok(())
}

// Each change in turn: the host writes its cells, and queue `2` copies them in.
fn change_all<R: Wait>(
    rt: &R,
    runtime: &Runtime,
    token: &mut HostToken,
    changes: &[Change],
) -> Result<(), Fault> {
    let mut gate = First { count: 0 };
    for change in changes {
        write(rt, runtime, token, *change)?;
        gate.count = gate.count.wrapping_add(1);
        runtime.serve(rt, queue(4), &gate);
    }
    Ok(())
}

// The worker of queue `1`.
fn serve_first<R: Wait>(rt: &R, runtime: &Runtime, gate: &Holding) {
    runtime.serve(rt, queue(3), gate);
}

// Queue `1` has a worker, in a thread of its own. Whether it could be had.
fn start<'s, E, R: Threads + Wait + Sync>(
    scope: &Scope<'s, E>,
    rt: &'s R,
    runtime: &'s Runtime,
    gate: &'s Holding,
) -> bool {
    scope.spawn(move || serve_first(rt, runtime, gate)).is_ok()
}

// A worker of queue `1` goes on to its end, in a thread of its own, and the changes come while the loop is out, or else once a and b are
// back.
fn serve<R: Threads + Wait + Sync>(
    rt: &R,
    runtime: &Runtime,
    token: &mut HostToken,
    changes: &[Change],
    while_out: bool,
) -> Result<(), Fault> {
    let holding = Holding {
        is_out: AtomicU64::new(0),
        is_let_go: AtomicU64::new(u64::from(!while_out)),
    };
    let gate = &holding;
    thread::scope(thread::scope_env(), rt, |scope| -> Result<(), Fault> {
        let done = if start(scope, rt, runtime, gate) && comes(&gate.is_out) {
            if while_out {
                Ok(())
            } else {
                runtime.wait_for(rt, token, DeviceId::new(0), counts_of(&[(3, 3)]))
            }
        } else {
            Err(Fault::Memory)
        };
        let changed = change_all(rt, runtime, token, changes);
        gate.is_let_go.store(1, Ordering::SeqCst);
        done?;
        changed
    })
}

// All of it is placed and performed.
fn run<R: Threads + Wait + Sync>(
    rt: &R,
    alloc: Global,
    runtime: &Runtime,
    token: &mut HostToken,
    case: &Case,
    while_out: bool,
) -> Result<(), Fault> {
    place_loop(rt, alloc, runtime, token, case)?;
    place_changes(rt, alloc, runtime, token, case.changes)?;
    close_all(rt, runtime);
    serve(rt, runtime, token, case.changes, while_out)?;
    serve_all(rt, runtime, &Open);
    Ok(())
}

// Whether a print's values are these.
fn are(values: &Values, wanted: &[i64]) -> bool {
    let mut shown = values.iter();
    for value in wanted {
        if shown.next() != Some(*value) {
            return false;
        }
    }
    shown.next().is_none()
}

// Whether the first print of an array in a log shows these values.
fn shows(works: &WorkLog, array: u8, wanted: &[i64]) -> bool {
    for entry in works.iter() {
        if let WorkEntry::Item {
            what: Told::Print { range, values },
            ..
        } = entry
        {
            if range.array == array {
                return are(values.get(), wanted);
            }
        }
    }
    false
}

/// Whether the arrays hold what they should, once all is performed.
pub fn hold<R: Wait>(
    rt: &R,
    alloc: Global,
    runtime: Runtime,
    mut tokens: Vec<HostToken>,
    case: &Case,
) -> Result<bool, Fault> {
    for token in tokens.as_mut_slice() {
        print(rt, alloc, &runtime, token, range_of((0, 0, case.cells())))?;
        print(rt, alloc, &runtime, token, range_of((1, 0, case.cells())))?;
    }
    match runtime.finish(tokens) {
        Ok(outcome) => {
            let works = &outcome.works;
            Ok(shows(works, 0, case.after[0]) && shows(works, 1, case.after[1]))
        }
        Err(refused) => Err(refused.fault),
    }
}

// Whether they hold it, where the changes come while the loop is out, or else behind it.
fn holds<R: Threads + Wait + Sync>(
    rt: &R,
    alloc: Global,
    case: &Case,
    while_out: bool,
) -> Result<bool, Fault> {
    let a = vec![in alloc; 1i64, 2, 3, 4]?;
    let b = vec![in alloc; 5i64, 6, 7, 8]?;
    let (runtime, mut tokens) = Runtime::new(alloc, &arrays_of(alloc, 1, a, b)?)?;
    for token in tokens.as_mut_slice() {
        run(rt, alloc, &runtime, token, case, while_out)?;
    }
    hold(rt, alloc, runtime, tokens, case)
}

#[test]
fn a_loop_is_performed_over_the_cells_as_they_are(rt: HostRuntime) -> Result<(), Fail> {
    for (place, case) in CASES.iter().enumerate() {
        assert!(rt; holds(&rt, rt.alloc(), case, true)?, "case {place}");
    }
    Ok(())
}

/// The host's writes stand in the array that came back before them.
#[test]
fn what_changes_behind_a_loop_is_not_seen_by_it(rt: HostRuntime) -> Result<(), Fail> {
    let case = Case {
        after: [&[1, 2, 9, 9], &[5, 3, 4, 8]],
        ..IN_PART
    };
    assert!(rt; holds(&rt, rt.alloc(), &case, false)?);
    Ok(())
}
