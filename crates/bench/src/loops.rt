//! The loops that are timed alone, found by a word, and the job that computes one of them.

ghost use Rattle.std.specs.Prelude.{◌≤◌};

use acc_base::{BlockId, Fault, Listed, Range, Shared};
use acc_kernel::{Job, Kernel};
use std::alloc::Global;
use tool_loops::{LESS, PLUS, Part, TIMES, job_of, set_inputs, statements_of};

/// How many cells a loop assigns, and the most that it may be told to.
pub const CELLS: u32 = 1_000;

// x[i] and its neighbours, where x is array 0
const BEFORE: Part = Part::Read(0, -1);

const HERE: Part = Part::Read(0, 0);

const BEHIND: Part = Part::Read(0, 1);

/// `y[i] = x[i] + 1`
const INCREASE: [Part; 3] = [HERE, Part::Number(1), PLUS];

/// `y[i] = 3 * x[i] + 7`
const SCALE: [Part; 5] = [Part::Number(3), HERE, TIMES, Part::Number(7), PLUS];

/// `y[i] = x[i - 1] + 2 * x[i] + x[i + 1]`
const SMOOTH: [Part; 7] = [BEFORE, Part::Number(2), HERE, TIMES, PLUS, BEHIND, PLUS];

/// `y[i] = x[i] < 50 ? x[i] * x[i] : -x[i]`
const CHOOSE: [Part; 9] = [
    HERE,
    Part::Number(50),
    LESS,
    HERE,
    HERE,
    TIMES,
    HERE,
    Part::Negate,
    Part::Choose,
];

/// `y[i] = (((x[i] * i + 1) * i + 2) * i + 3) * i + 4`
const QUARTIC: [Part; 17] = [
    HERE,
    Part::Index,
    TIMES,
    Part::Number(1),
    PLUS,
    Part::Index,
    TIMES,
    Part::Number(2),
    PLUS,
    Part::Index,
    TIMES,
    Part::Number(3),
    PLUS,
    Part::Index,
    TIMES,
    Part::Number(4),
    PLUS,
];

/// `y[i] = ((((x[i] * i + 1) * i + 2) * i + 3) * i + 4) * i + 5`
const POWERS: [Part; 21] = [
    HERE,
    Part::Index,
    TIMES,
    Part::Number(1),
    PLUS,
    Part::Index,
    TIMES,
    Part::Number(2),
    PLUS,
    Part::Index,
    TIMES,
    Part::Number(3),
    PLUS,
    Part::Index,
    TIMES,
    Part::Number(4),
    PLUS,
    Part::Index,
    TIMES,
    Part::Number(5),
    PLUS,
];

/// The names of the loops.
pub const NAMES: [&str; 6] = ["increase", "scale", "smooth", "choose", "quartic", "powers"];

/// The value that the loop of a name assigns.
pub(crate) fn parts_of(name: &str) -> &'static [Part] {
    match name {
        "increase" => &INCREASE,
        "scale" => &SCALE,
        "smooth" => &SMOOTH,
        "choose" => &CHOOSE,
        "quartic" => &QUARTIC,
        "powers" => &POWERS,
        _ => &[],
    }
}

/// A job that computes it for i from 1 to so many, at most `CELLS`, where x has some values.
pub(crate) fn job_for(
    alloc: Global,
    parts: &'static [Part],
    cells: u32,
) -> Result<Option<Box<Job>>, Fault> {
    let cells = cells.min(CELLS);
    let Some(kernel) = kernel_of(alloc, parts, cells)? else {
        return Ok(None);
    };
    let uses = uses_of(alloc, cells)?;
    let mut job = job_of(alloc, None, &kernel, &uses)?;
    if let Some(job) = &mut job {
        // x[n] is 37 n modulo 101
        set_inputs(alloc, job, |_, n| i64::from(n.wrapping_mul(37) % 101))?;
    }
    Ok(job)
}

fn kernel_of(
    alloc: Global,
    parts: &'static [Part],
    cells: u32,
) -> Result<Option<Shared<Kernel>>, Fault>
    requires { cells ≤ 1000 }
{
    let statements = statements_of(alloc, &[(1, parts)])?;
    match Kernel::new(alloc, 1, i64::from(cells) + 1, statements) {
        Ok(kernel) => Ok(Some(Shared::new(alloc, kernel)?)),
        Err(_) => Ok(None),
    }
}

fn uses_of(alloc: Global, cells: u32) -> Result<Shared<Listed<(BlockId, Range)>>, Fault>
    requires { cells ≤ 1000 }
{
    let uses = vec![in alloc; whole(1, 0, cells), whole(2, 1, cells)]?;
    Shared::new(alloc, Listed::from_vec(uses))
}

// An array with its cells from 0 to one behind the last that is assigned.
fn whole(block: u64, array: u8, cells: u32) -> (BlockId, Range)
    requires { cells ≤ 1000 }
{
    let len = cells + 2;
    (BlockId::new(block), Range { array, lo: 0, len })
}
