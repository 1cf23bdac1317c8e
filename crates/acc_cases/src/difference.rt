//! Where two texts differ, line by line.

ghost use Rattle.std.specs.Prelude.{◌≡◌, ◌<◌, ◌≤◌, ◌-◌, ◌++◌, ◌↔◌, [], IsTrue, IfOk, OnOk, if◌then◌else◌, length, take, drop};
ghost use Rattle.acc_cases.specs.Differences.{came_in, is_of_came, is_wanted, joined_lines, wanted_in};

use std::alloc::{AllocError, Global};

/// Which of two texts a line is of.
#[derive(Clone, Copy, Debug, PartialEq, Eq)]
pub enum Mark {
    Both,
    Wanted,
    Came,
}

/// A line of one of two texts or of both, its line feed among it.
#[derive(Clone, Copy, Debug, PartialEq, Eq)]
pub struct Line<'a> {
    pub mark: Mark,
    pub bytes: &'a [u8],
}

// How many cells a table of two lists of lines may have.
const MAX_TABLE: u64 = 1_048_576;

// The first line of what is left of a text, and what stands behind it.
fn first_line(text: &[u8]) -> (&[u8], &[u8])
    ensures parts { result.0.now ++ result.1.now ≡ text.now }
    ensures shorter { 0 < length text.now → length result.1.now < length text.now }
{
    match text.iter().position(|byte| *byte == b'\n') {
        Some(at) => text.split_at(at + 1),
        None => (text, &[]),
    }
}

// The lines of a text.
fn lines_of(alloc: Global, text: &[u8]) -> Result<Vec<&[u8]>, AllocError>
    ensures { IfOk result (λ lines. joined_lines lines.items ≡ text.now) }
{
    let mut lines = Vec::new(alloc);
    let mut rest = text;
    while !rest.is_empty() {
        let (line, behind) = first_line(rest);
        lines.push(line)?;
        rest = behind;
    }
    Ok(lines)
}

// Whether two lines are alike.
fn is_same(line: &[u8], other: &[u8]) -> bool
    ensures { IsTrue result ↔ (line.now ≡ other.now) }
{
    line == other
}

// How many lines two lists begin with alike.
#[tactic(auto, using(crate::proofs::JoinedLines::start_more))]
fn common_start(wanted: &[&[u8]], came: &[&[u8]]) -> usize
    ensures wanted { result ≤ length wanted.now }
    ensures came { result ≤ length came.now }
    ensures common { joined_lines (take result wanted.now) ≡ joined_lines (take result came.now) }
{
    let mut common = 0;
    while common < wanted.len() && common < came.len() && is_same(wanted[common], came[common]) {
        common += 1;
    }
    common
}

// How many lines two lists end with alike.
#[tactic(auto, using(crate::proofs::JoinedLines::end_more))]
fn common_end(wanted: &[&[u8]], came: &[&[u8]]) -> usize
    ensures wanted { result ≤ length wanted.now }
    ensures came { result ≤ length came.now }
    ensures common { joined_lines (drop (length wanted.now - result) wanted.now)
        ≡ joined_lines (drop (length came.now - result) came.now) }
{
    let mut common = 0;
    while common < wanted.len()
        && common < came.len()
        && is_same(
            wanted[wanted.len() - common - 1],
            came[came.len() - common - 1],
        )
    {
        common += 1;
    }
    common
}

// Puts a line behind others.
fn put<'a>(lines: &mut Vec<Line<'a>>, mark: Mark, bytes: &'a [u8]) -> Result<(), AllocError>
    ensures wanted { OnOk result (wanted_in lines.new.items ≡ wanted_in lines.old.items
        ++ (if is_wanted mark then bytes.now else [])) }
    ensures came { OnOk result (came_in lines.new.items ≡ came_in lines.old.items
        ++ (if is_of_came mark then bytes.now else [])) }
{
    lines.push(Line { mark, bytes })?;
    Ok(())
}

// Puts lines of one mark behind others.
fn put_all<'a>(lines: &mut Vec<Line<'a>>, mark: Mark, all: &[&'a [u8]]) -> Result<(), AllocError>
    ensures wanted { OnOk result (wanted_in lines.new.items ≡ wanted_in lines.old.items
        ++ (if is_wanted mark then joined_lines all.now else [])) }
    ensures came { OnOk result (came_in lines.new.items ≡ came_in lines.old.items
        ++ (if is_of_came mark then joined_lines all.now else [])) }
{
    for bytes in all {
        put(lines, mark, bytes)?;
    }
    Ok(())
}

// The number at a place of a row, or 0 behind its end.
fn count_at(row: &[u32], at: usize) -> u32 {
    row.get(at).copied().unwrap_or(0)
}

// How many lines at most a line with those behind it has in common with the last lines of a list, for each number of these; given
// the same of those behind it.
fn row_before(
    alloc: Global,
    line: &[u8],
    list: &[&[u8]],
    behind: &[u32],
) -> Result<Vec<u32>, AllocError> {
    let mut row = Vec::new(alloc);
    row.push(0)?;
    for (at, other) in list.iter().rev().enumerate() {
        let most = if line == *other {
            count_at(behind, at).saturating_add(1)
        } else {
            count_at(behind, at + 1).max(count_at(row.as_slice(), at))
        };
        row.push(most)?;
    }
    Ok(row)
}

// How many lines at most the last lines of two lists have in common, for each number of these; no table where it would be too large.
fn table_of(alloc: Global, wanted: &[&[u8]], came: &[&[u8]]) -> Result<Vec<Vec<u32>>, AllocError> {
    let mut table = Vec::new(alloc);
    if (wanted.len() as u64).saturating_mul(came.len() as u64) > MAX_TABLE {
        return Ok(table);
    }
    let mut row = Vec::new(alloc);
    for line in wanted.iter().rev() {
        let next = row_before(alloc, line, came, row.as_slice())?;
        table.push(row)?;
        row = next;
    }
    table.push(row)?;
    Ok(table)
}

// Whether the first of the last lines of one list is left out before that of the other, as then no fewer are in common.
fn leaves_out_wanted(table: &[Vec<u32>], wanted: usize, came: usize) -> bool
    requires wanted { 0 < wanted }
    requires came { 0 < came }
{
    match (table.get(wanted - 1), table.get(wanted)) {
        (Some(without), Some(with)) => {
            count_at(without.as_slice(), came) >= count_at(with.as_slice(), came - 1)
        }
        _ => true,
    }
}

// Puts lines behind others: those of both lists, as many as can be by the table, and between them the others.
#[tactic(auto, using(crate::proofs::JoinedLines::put_more))]
fn put_middle<'a>(
    lines: &mut Vec<Line<'a>>,
    wanted: &[&'a [u8]],
    came: &[&'a [u8]],
    table: &[Vec<u32>],
) -> Result<(), AllocError>
    ensures wanted { OnOk result (wanted_in lines.new.items ≡ wanted_in lines.old.items
        ++ joined_lines wanted.now) }
    ensures came { OnOk result (came_in lines.new.items ≡ came_in lines.old.items
        ++ joined_lines came.now) }
{
    let mut at = 0;
    let mut to = 0;
    while at < wanted.len() && to < came.len() {
        if !table.is_empty() && is_same(wanted[at], came[to]) {
            put(lines, Mark::Both, wanted[at])?;
            at += 1;
            to += 1;
        } else if leaves_out_wanted(table, wanted.len() - at, came.len() - to) {
            put(lines, Mark::Wanted, wanted[at])?;
            at += 1;
        } else {
            put(lines, Mark::Came, came[to])?;
            to += 1;
        }
    }
    put_rest(lines, &wanted[at..], &came[to..])
}

// Puts lines of one list behind others, and then those of the other.
fn put_rest<'a>(
    lines: &mut Vec<Line<'a>>,
    wanted: &[&'a [u8]],
    came: &[&'a [u8]],
) -> Result<(), AllocError>
    ensures wanted { OnOk result (wanted_in lines.new.items ≡ wanted_in lines.old.items
        ++ joined_lines wanted.now) }
    ensures came { OnOk result (came_in lines.new.items ≡ came_in lines.old.items
        ++ joined_lines came.now) }
{
    put_all(lines, Mark::Wanted, wanted)?;
    put_all(lines, Mark::Came, came)
}

/// The lines of two texts, each with its mark: those of both in their order, and between them the others. Beginnings and ends that
/// are alike are lines of both; of what stands between them, as many as can be, unless the product of their numbers is larger than
/// 1,048,576: then none is.
///
/// # Errors
///
/// `AllocError` for want of memory.
pub fn difference_of<'a>(
    alloc: Global,
    wanted: &'a [u8],
    came: &'a [u8],
) -> Result<Vec<Line<'a>>, AllocError>
    ensures wanted { IfOk result (λ lines. wanted_in lines.items ≡ wanted.now) }
    ensures came { IfOk result (λ lines. came_in lines.items ≡ came.now) }
{
    let wanted_lines = lines_of(alloc, wanted)?;
    let came_lines = lines_of(alloc, came)?;
    let mut lines = Vec::new(alloc);
    put_difference(
        alloc,
        &mut lines,
        wanted_lines.as_slice(),
        came_lines.as_slice(),
    )?;
    Ok(lines)
}

// Puts the lines of both lists behind others.
fn put_difference<'a>(
    alloc: Global,
    lines: &mut Vec<Line<'a>>,
    wanted: &[&'a [u8]],
    came: &[&'a [u8]],
) -> Result<(), AllocError>
    ensures wanted { OnOk result (wanted_in lines.new.items ≡ wanted_in lines.old.items
        ++ joined_lines wanted.now) }
    ensures came { OnOk result (came_in lines.new.items ≡ came_in lines.old.items
        ++ joined_lines came.now) }
{
    let start = common_start(wanted, came);
    let (front, wanted) = wanted.split_at(start);
    let (_, came) = came.split_at(start);
    let end = common_end(wanted, came);
    let (wanted, back) = wanted.split_at(wanted.len() - end);
    let (came, _) = came.split_at(came.len() - end);
    put_all(lines, Mark::Both, front)?;
    let table = table_of(alloc, wanted, came)?;
    put_middle(lines, wanted, came, table.as_slice())?;
    put_all(lines, Mark::Both, back)
}
