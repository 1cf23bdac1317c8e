//! Loops and jobs over a window that a caller brings, of the cells of one array: the contracts are for windows of any crate, and
//! this is one.

ghost use Rattle.std.specs.Prelude.{◌≡◌, ◌<◌, length, IfOk, IfSome};
ghost use Rattle.test_kernel.specs.Lines.{uses_to};

use crate::checks::check_same;
use acc_base::{BlockId, Fault, Listed, Range, Shared};
use acc_kernel::{Assign, Job, Kernel, Operator, Window, are_distinct, distance};
use acc_raw::Cells;
use std::alloc::Global;
use std::process::Abort;
use std::test::Fail;
use tool_loops::{PLUS, Part, Row, expr_of, statements_of};

/// `x[i] = x[i] + 1`, where x is array 0
const COUNTED: [Row; 1] = [(0, &[Part::Read(0, 0), Part::Number(1), PLUS])];

/// The cells of array 0, from 0 on.
#[derive(Drop)]
struct Line {
    cells: Cells,
}

impl Window for Line {
    ghost use Rattle.std.specs.Prelude.{◌≡◌, length, refl};
    ghost use Rattle.std.proofs.Common.{◌∙◌};
    ghost use Rattle.test_kernel.specs.Lines.{line_has, line};

    ghost has = { λ w. line_has w.cells };

    ghost cells = { λ w. line w.cells };

    ghost keeps = { λ v w. length w.cells ≡ length v.cells };

    fn get(&self, _array: u8, cell: i64) -> i64 {
        self.cells.get(distance(cell, 0))
    }

    fn set(&mut self, _array: u8, cell: i64, value: i64) {
        self.cells.set(distance(cell, 0), value);
    }

    fn read(&self, _array: u8, first: i64, into: &mut [i64]) {
        self.cells.copy_to(distance(first, 0), into);
    }

    fn has_values(&self, _array: u8, first: i64, values: &[i64]) -> bool {
        self.cells.has_values(distance(first, 0), values)
    }

    fn write(&mut self, _array: u8, first: i64, values: &[i64]) {
        self.cells.copy_from(distance(first, 0), values);
    }

    ghost keeps_itself = { λ w. refl };

    ghost keeps_on = { λ u v w e f. f ∙ e };
}

// A line of so many cells, all zero.
fn line_of(alloc: Global, len: usize) -> Result<Line, Fault>
    ensures { IfOk result (λ line. length line.cells ≡ len) }
{
    let cells = Cells::zeroed(alloc, len)?;
    Ok(Line { cells })
}

// The use of a line of so many cells.
fn uses_of(len: u32) -> [(BlockId, Range); 1]
    ensures { result ≡ uses_to len }
{
    [(
        BlockId::new(0),
        Range {
            array: 0,
            lo: 0,
            len,
        },
    )]
}

// What the cell holds after `x[i] = value` at 0, where x is array 0.
fn after(alloc: Global, parts: &[Part], value: i64) -> Result<Option<i64>, Fault> {
    let mut statements = Vec::new(alloc);
    let expr = expr_of(alloc, parts)?;
    statements.push(Assign {
        array: 0,
        value: expr,
    })?;
    let Ok(kernel) = Kernel::new(alloc, 0, 1, statements) else {
        return Ok(None);
    };
    if !kernel.is_held_by(&uses_of(1)) {
        return Ok(None);
    }
    let mut line = line_of(alloc, 1)?;
    line.cells.set(0, value);
    kernel.run_at(0, &mut line);
    Ok(Some(line.cells.get(0)))
}

#[test]
fn a_turn_goes_through_a_window(rt: HostRuntime) -> Result<(), Fail> {
    let square = [
        Part::Read(0, 0),
        Part::Read(0, 0),
        Part::Binary(Operator::Times),
    ];
    check_same(&rt, after(rt.alloc(), &square, 9)?, Some(81));
    check_same(&rt, after(rt.alloc(), &[Part::Index], 9)?, Some(0));
    check_same(&rt, after(rt.alloc(), &[Part::Read(1, 0)], 9)?, None);
    check_same(&rt, after(rt.alloc(), &[Part::Read(0, 1)], 9)?, None);
    Ok(())
}

// A job of `x[i] = x[i] + 1` for i from 1 to 2 over a line of four cells.
fn job_over(alloc: Global) -> Result<Option<Job>, Fail>
    ensures { IfOk result (λ o. IfSome o (λ job. job.uses ≡ uses_to 4)) }
{
    let kernel = Kernel::new(alloc, 1, 3, statements_of(alloc, &COUNTED)?)?;
    let uses = uses_of(4);
    if !are_distinct(&uses) || !kernel.is_held_by(&uses) {
        return Ok(None);
    }
    let uses = Shared::new(alloc, Listed::from_vec(Vec::from_slice(alloc, &uses)?))?;
    Ok(Some(Job::new(alloc, &Shared::new(alloc, kernel)?, &uses)?))
}

// Whether a line still has a job's inputs once a cell is written.
fn is_same_after(job: &Job, line: &mut Line, cell: usize, value: i64) -> bool
    requires uses { job.now.uses ≡ uses_to 4 }
    requires four { length line.old.cells ≡ 4 }
    requires cell { cell < 4 }
    ensures { length line.new.cells ≡ 4 }
{
    line.cells.set(cell, value);
    job.same(line)
}

// The cells that lie outside what a loop reaches are no inputs.
#[test]
fn a_job_sees_what_its_loop_reaches(rt: HostRuntime) -> Result<(), Fail> {
    let mut line = line_of(rt.alloc(), 4)?;
    match job_over(rt.alloc())? {
        Some(mut job) => check_seen(&rt, &mut job, &mut line),
        None => assert!(rt; false, "not held"),
    }
    Ok(())
}

fn check_seen(rt: &impl Abort, job: &mut Job, line: &mut Line)
    requires uses { job.old.uses ≡ uses_to 4 }
    requires four { length line.old.cells ≡ 4 }
{
    job.load(line);
    job.compute();
    check_same(rt, is_same_after(job, line, 0, 7), true);
    check_same(rt, is_same_after(job, line, 3, 7), true);
    job.commit(line);
    check_same(rt, line.cells.as_slice(), [7, 1, 1, 7].as_slice());
    check_same(rt, is_same_after(job, line, 2, 0), false);
}
