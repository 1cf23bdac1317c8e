//! A difference in hunks, as `diff -u` lays it out.

ghost use Rattle.std.specs.Prelude.{◌≤◌, ◌<◌, IfSome, length};

use crate::difference::{Line, Mark};
use std::io::{Result, Write};

/// How many lines of both texts stand before a change and behind it.
const CONTEXT: usize = 3;

// How many lines of each text stand before a place.
#[derive(Clone, Copy)]
struct Before {
    wanted: u64,
    came: u64,
}

impl Before {
    // How many stand behind these lines.
    fn behind(self, lines: &[Line]) -> Self {
        let Before { wanted, came } = self;
        Before {
            wanted: wanted.saturating_add(wanted_lines(lines) as u64),
            came: came.saturating_add(came_lines(lines) as u64),
        }
    }
}

// How many lines are of the text that is wanted.
fn wanted_lines(lines: &[Line]) -> usize {
    lines.iter().filter(|line| line.mark != Mark::Came).count()
}

// How many lines are of the text that came.
fn came_lines(lines: &[Line]) -> usize {
    lines
        .iter()
        .filter(|line| line.mark != Mark::Wanted)
        .count()
}

// The first line that isn't of both texts.
fn first_change(lines: &[Line]) -> Option<usize>
    ensures { IfSome result (λ at. at < length lines.now) }
{
    lines.iter().position(|line| line.mark != Mark::Both)
}

// How many lines the hunk has that begins here: up to its last change, and the lines behind that.
fn hunk_len(lines: &[Line]) -> usize
    requires { 0 < length lines.now }
    ensures some { 0 < result }
    ensures within { result ≤ length lines.now }
{
    let mut end = 0;
    for (at, line) in lines.iter().enumerate() {
        if line.mark != Mark::Both {
            end = at + 1;
        } else if end > 0 && at.saturating_sub(end) >= 2 * CONTEXT {
            return end.saturating_add(CONTEXT).min(lines.len());
        }
    }
    end.saturating_add(CONTEXT).min(lines.len())
}

// Where the next hunk begins and ends, from a place on.
fn next_hunk(lines: &[Line], at: usize) -> Option<(usize, usize)>
    requires { at ≤ length lines.now }
    ensures { IfSome result (λ hunk. (at ≤ hunk.0) × (hunk.0 < hunk.1)
        × (hunk.1 ≤ length lines.now)) }
{
    let (_, rest) = lines.split_at(at);
    let first = first_change(rest)?;
    let start = at + first.saturating_sub(CONTEXT);
    let (_, from) = lines.split_at(start);
    Some((start, start + hunk_len(from)))
}

/// Writes the changes among lines, each with the lines around it, behind the names of both texts.
pub(crate) fn put_hunks<W: Write>(name: &str, lines: &[Line], writer: &mut W) -> Result<()> {
    writeln!(writer, "--- {name}.report")?;
    writeln!(writer, "+++ {name}")?;
    let mut at = 0;
    let mut before = Before { wanted: 0, came: 0 };
    while at < lines.len() {
        let Some((start, end)) = next_hunk(lines, at) else {
            return Ok(());
        };
        before = before.behind(&lines[at..start]);
        put_hunk(before, &lines[start..end], writer)?;
        before = before.behind(&lines[start..end]);
        at = end;
    }
    Ok(())
}

// Writes a hunk behind its head.
fn put_hunk<W: Write>(before: Before, hunk: &[Line], writer: &mut W) -> Result<()> {
    writer.write_all(b"@@ -")?;
    put_range(before.wanted, wanted_lines(hunk), writer)?;
    writer.write_all(b" +")?;
    put_range(before.came, came_lines(hunk), writer)?;
    writer.write_all(b" @@\n")?;
    for line in hunk {
        put_line(line, writer)?;
    }
    Ok(())
}

// Writes the number of the first of some lines, and how many they are, unless that is one.
fn put_range<W: Write>(before: u64, count: usize, writer: &mut W) -> Result<()> {
    let first = before.saturating_add(1);
    match count {
        0 => write!(writer, "{before},0"),
        1 => write!(writer, "{first}"),
        _ => write!(writer, "{first},{count}"),
    }
}

// Writes a line behind its mark.
fn put_line<W: Write>(line: &Line, writer: &mut W) -> Result<()> {
    writer.write_all(match line.mark {
        Mark::Both => b" ",
        Mark::Wanted => b"-",
        Mark::Came => b"+",
    })?;
    writer.write_all(line.bytes)?;
    if line.bytes.ends_with(b"\n") {
        return Ok(());
    }
    writer.write_all(b"\n\\ No newline at end of file\n")
}
