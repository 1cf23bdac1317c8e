//! What helps against a mistake: that of the first idiom that fits.

use crate::idioms::{DIRECTIVES, LIMITS, SCHEDULES, STATEMENTS, TEXTS};
use crate::language::Language;
use crate::names::is_word;
use acc_token::{front, is, is_digit};

/// What is seen around a place: the word that its line begins with, or that of the directive; the token before it, the one there
/// and the one behind; and the words that could stand there, `@loop` and `@number` among them.
#[derive(Clone, Copy)]
pub(crate) struct Seen<'a> {
    pub(crate) head: &'a [u8],
    pub(crate) last: &'a [u8],
    pub(crate) token: &'a [u8],
    pub(crate) next: &'a [u8],
    pub(crate) words: &'a [&'a [u8]],
}

// What stands before the first such byte, and behind it.
fn parted(bytes: &[u8], at: u8) -> (&[u8], &[u8]) {
    let len = bytes.iter().take_while(|byte| **byte != at).count();
    let (before, rest) = bytes.split_at(len);
    match rest {
        [] => (before, b""),
        [_, behind @ ..] => (before, behind),
    }
}

// Whether a token is the one that a pattern asks for.
fn is_pattern_of(pattern: &[u8], token: &[u8]) -> bool {
    if is(pattern, token) {
        true
    } else if is(pattern, b"@word") {
        is_word(token)
    } else if is(pattern, b"@number") {
        is_digit(front(token))
    } else if is(pattern, b"@line") {
        is(token, b"\n")
    } else {
        is(pattern, b"@end") && token.is_empty()
    }
}

// Whether one of the words is one that a column asks for.
fn is_asked(column: &[u8], words: &[&[u8]]) -> bool {
    if is(column, b"_") {
        return true;
    }
    let mut rest = column;
    for _ in 0..column.len() {
        let (pattern, others) = parted(rest, b'|');
        for word in words {
            if is_pattern_of(pattern, word) {
                return true;
            }
        }
        rest = others;
        if rest.is_empty() {
            return false;
        }
    }
    false
}

// What helps, if the idiom of a line fits.
fn help_in<'a>(line: &'a [u8], seen: &Seen) -> Option<&'a [u8]> {
    let (head, rest) = parted(line, b' ');
    let (last, rest) = parted(rest, b' ');
    let (token, rest) = parted(rest, b' ');
    let (next, rest) = parted(rest, b' ');
    let (words, help) = parted(rest, b' ');
    let fits = is_asked(head, &[seen.head])
        && is_asked(last, &[seen.last])
        && is_asked(token, &[seen.token])
        && is_asked(next, &[seen.next])
        && is_asked(words, seen.words);
    if fits { Some(help) } else { None }
}

// What helps by the first idiom of a table that fits.
fn help_by<'a>(table: &'a [u8], seen: &Seen) -> Option<&'a [u8]> {
    let mut rest = table;
    for _ in 0..table.len() {
        let (line, others) = parted(rest, b'\n');
        if line.is_empty() {
            return None;
        }
        if let Some(help) = help_in(line, seen) {
            return Some(help);
        }
        rest = others;
    }
    None
}

/// What helps, or nothing.
pub(crate) fn help_of(language: Language, passes_limit: bool, seen: &Seen) -> &'static [u8] {
    let tables: [&'static [u8]; 3] = match language {
        Language::Schedule {
            hosts: _,
            devices: _,
        } => [SCHEDULES, b"", b""],
        Language::Script if passes_limit => [LIMITS, b"", b""],
        Language::Script => [TEXTS, DIRECTIVES, STATEMENTS],
    };
    for table in tables {
        if let Some(help) = help_by(table, seen) {
            return help;
        }
    }
    b""
}
