//! The lines of the script that are shown with its statements.

ghost use Rattle.std.specs.Prelude.{◌≡◌, ◌≤◌, [], length, map, slice_index_or};
ghost use Rattle.std.specs.List.{prefix_len};
ghost use Rattle.acc_script.specs.Arrays.{texts};
ghost use Rattle.acc_report.specs.Puts.{Puts, sink};
ghost use Rattle.acc_steps.specs.Lines.{behind_pragma, code_in, code_len, ends_code, filled_len, part_after, shown_line, statement_text, unindented};
ghost use Rattle.acc_token.specs.Texts.{shown_byte};
ghost use Rattle.acc_token.specs.Tokens.{is_blank};

use acc_report::{put, put_number};
use acc_token::{front, is, shown};
use std::io::Write;

/// The line of a statement, without blanks at its ends, a comment `//` at its end, and `#pragma acc`; a byte that isn't printed is
/// shown as `?`.
#[tactic(auto, unfolding(crate::specs::Lines::statement_text))]
pub(crate) fn put_statement<W: Write>(out: &mut W, failed: &mut bool, source: &[&[u8]], line: u32)
    ensures { Puts (sink (W.contents out.old) failed.old) (sink (W.contents out.new) failed.new)
        (statement_text (texts source.now) line) }
{
    if line == 0 {
        return;
    }
    put(out, failed, b"line ");
    put_number(out, failed, line);
    put(out, failed, b": ");
    put_line(out, failed, line_at(source, line - 1));
}

// What is shown of a line.
fn put_line<W: Write>(out: &mut W, failed: &mut bool, line: &[u8])
    ensures { Puts (sink (W.contents out.old) failed.old) (sink (W.contents out.new) failed.new)
        (shown_line line.now) }
{
    put_shown(out, failed, behind_pragma(code_in(unindented(line))));
}

// Bytes as they are shown.
fn put_shown<W: Write>(out: &mut W, failed: &mut bool, bytes: &[u8])
    ensures { Puts (sink (W.contents out.old) failed.old) (sink (W.contents out.new) failed.new)
        (map shown_byte bytes.now) }
{
    for byte in bytes {
        put(out, failed, &[shown(*byte)]);
    }
}

// The line with this index, or no bytes where there is no such line.
fn line_at<'a>(source: &[&'a [u8]], index: u32) -> &'a [u8]
    ensures { result.now ≡ slice_index_or (texts source.now) index [] }
{
    match source.get(index as usize) {
        Some(line) => line,
        None => &[],
    }
}

fn is_blank(byte: u8) -> bool
    ensures { result ≡ is_blank byte }
{
    byte == b' ' || byte == b'\t' || byte == b'\r'
}

fn unindented(line: &[u8]) -> &[u8]
    ensures { result.now ≡ unindented line.now }
{
    let (_, text) = line.split_at(blanks_len(line));
    text
}

// How many blanks stand at the front.
fn blanks_len(line: &[u8]) -> usize
    ensures value { result ≡ prefix_len is_blank line.now }
    ensures within { result ≤ length line.now }
{
    line.iter().take_while(|byte| is_blank(**byte)).count()
}

// A line without a comment at its end, and without blanks there.
fn code_in(line: &[u8]) -> &[u8]
    ensures { result.now ≡ code_in line.now }
{
    let (code, _) = line.split_at(code_len(line));
    let (filled, _) = code.split_at(filled_len(code));
    filled
}

/// What a place in a line is in.
#[derive(Clone, Copy, Debug, PartialEq, Eq)]
pub enum Part {
    Code,
    /// Behind the `/` of a `/*`.
    Opened,
    /// In what follows a `/*`.
    Comment,
    /// Behind the `*` of a `*/`.
    Closing,
}

impl Part {
    // What a byte leads to, before the next one.
    fn after(self, byte: u8, next: u8) -> Part
        ensures { result ≡ part_after self byte next }
    {
        match self {
            Part::Code if byte == b'/' && next == b'*' => Part::Opened,
            Part::Comment if byte == b'*' && next == b'/' => Part::Closing,
            Part::Opened | Part::Comment => Part::Comment,
            Part::Code | Part::Closing => Part::Code,
        }
    }

    // Whether a `//` begins there.
    fn ends_code(self, byte: u8, next: u8) -> bool
        ensures { result ≡ ends_code self byte next }
    {
        self == Part::Code && byte == b'/' && next == b'/'
    }
}

// How many bytes stand before a comment that goes to the end of the line.
fn code_len(line: &[u8]) -> usize
    ensures value { result ≡ code_len Part.Code line.now }
    ensures within { result ≤ length line.now }
{
    let mut part = Part::Code;
    let mut rest = line;
    let mut len = 0usize;
    while let [first, others @ ..] = rest {
        let next = front(others);
        if part.ends_code(*first, next) {
            return len;
        }
        part = part.after(*first, next);
        len += 1;
        rest = others;
    }
    len
}

// How many bytes stand up to the last that isn't a blank.
fn filled_len(line: &[u8]) -> usize
    ensures value { result ≡ filled_len line.now }
    ensures within { result ≤ length line.now }
{
    let mut filled = 0usize;
    let mut len = 0usize;
    for byte in line {
        len += 1;
        if !is_blank(*byte) {
            filled = len;
        }
    }
    filled
}

// What a directive says.
fn behind_pragma(line: &[u8]) -> &[u8]
    ensures { result.now ≡ behind_pragma line.now }
{
    if line.len() < 12 {
        return line;
    }
    let (first, behind) = line.split_at(12);
    if is(first, b"#pragma acc ") {
        behind
    } else {
        line
    }
}
