//! What is told of a text that is none of its language.

ghost use Rattle.std.specs.Prelude.{◌≡◌, ◌+◌, ◌≤◌, ◌==◌, not, map, length, decimal, true, false, None, Some, IfOk, IfSome};
ghost use Rattle.std.specs.List.{suffix_len};
ghost use Rattle.acc_base.specs.Faults.{OnlyMemory};
ghost use Rattle.acc_check.specs.Findings.{begun_line, name_stands, number_stands, start_in, token_in, told_words, TellsFault};
ghost use Rattle.acc_check.specs.Languages.{text_fault};
ghost use Rattle.acc_check.specs.Places.{IsPlace, stands};
ghost use Rattle.acc_token.specs.Texts.{line_feeds};

use crate::help::{Seen, help_of};
use crate::language::{Language, fault_of};
use crate::limit::largest_number;
use crate::names::{array_names, has_name, is_word, loop_name, nearest};
use crate::place::{Place, place_of};
use crate::stand::{could_stand, stands};
use crate::tokens::{first_piece, head_token, last_token, tokens_of};
use crate::words::BESIDE_NAMES;
use acc_base::Fault;
use acc_token::{MAX_NAME, ReadFault, ReadKind, front, is, is_digit, line_len};
use std::alloc::Global;

/// What a token lacks, so that it could stand at its place.
#[derive(Clone, Copy, Debug, PartialEq, Eq)]
pub enum Lack {
    /// More, where the text ends.
    More,
    /// Another place.
    Place,
    /// A name that is no longer than names can be.
    Short,
    /// A name that isn't declared.
    New,
    /// A name that is no array's.
    Other,
    /// Its declaration.
    Declared,
    /// It passes a limit.
    Within,
}

/// What is told of a text that is none of its language: where it stops, and what could stand there.
#[derive(Drop)]
pub struct Finding<'a> {
    pub fault: ReadFault,
    pub place: Place,
    /// The piece at the place, and nothing at the text's end.
    pub token: &'a [u8],
    /// How many bytes stand before the place.
    pub start: usize,
    /// Its line, and its column in bytes, both from 1.
    pub line: usize,
    pub column: usize,
    /// The words that could stand there, behind a blank.
    pub words: Vec<&'a [u8]>,
    /// Whether the name of an array, that of the loop, and one that isn't declared could.
    pub array: bool,
    pub loop_name: bool,
    pub new_name: bool,
    /// Whether a number could.
    pub number: bool,
    /// Whether the place is in a comment, where all could.
    pub in_comment: bool,
    /// Whether the line could end there.
    pub line_end: bool,
    pub lack: Lack,
    /// What could stand there and is near the token, or nothing.
    pub near: &'a [u8],
    /// The largest number that could stand there, where a number passes a limit.
    pub most: Option<u64>,
    /// What helps, or nothing.
    pub help: &'a [u8],
}

// How many bytes stand up to the last line feed, and with it.
fn begun_at(text: &[u8]) -> usize
    ensures { result + suffix_len (λ b. not (b == 10)) text.now ≡ length text.now }
{
    let mut start = text.len();
    while start > 0 && text[start - 1] != b'\n' {
        start -= 1;
    }
    start
}

/// What stands behind the last line feed of a text.
pub(crate) fn begun_line(text: &[u8]) -> &[u8]
    ensures { result.now ≡ begun_line text.now }
{
    let (_, line) = text.split_at(begun_at(text));
    line
}

/// How many line feeds a text has.
pub(crate) fn line_feeds(text: &[u8]) -> usize
    ensures count { result ≡ line_feeds text.now }
    ensures within { result ≤ length text.now }
{
    text.iter().filter(|byte| **byte == b'\n').count()
}

// How many bytes stand before the place.
fn start_in(language: Language, text: &[u8], place: Place) -> usize
    requires { IsPlace language text.now place }
    ensures start { result ≡ start_in text.now place }
    ensures within { result ≤ length text.now }
{
    let _ = language;
    match place {
        Place::AtEnd => text.len(),
        Place::AtPiece(piece) => piece.start,
    }
}

// The piece at the place.
fn token_in(text: &[u8], place: Place) -> &[u8]
    ensures { result.now ≡ token_in text.now place }
{
    match place {
        Place::AtEnd => b"",
        Place::AtPiece(piece) => {
            let (front, _) = text.split_at(piece.end.min(text.len()));
            let (_, token) = front.split_at(piece.start.min(front.len()));
            token
        }
    }
}

// Whether a number could stand there.
fn number_stands(alloc: Global, language: Language, before: &[u8]) -> Result<bool, Fault>
    ensures answer { IfOk result (λ r. r ≡ number_stands language before.now) }
    ensures fault { OnlyMemory result }
{
    if stands(alloc, language, before, b"1")? {
        return Ok(true);
    }
    stands(alloc, language, before, b"0")
}

// Whether a name could stand there, if it is one.
fn name_stands(alloc: Global, language: Language, before: &[u8], name: &[u8]) -> Result<bool, Fault>
    ensures answer { IfOk result (λ r. r ≡ name_stands language before.now name.now) }
    ensures fault { OnlyMemory result }
{
    match name {
        [] => Ok(false),
        [_, ..] => stands(alloc, language, before, name),
    }
}

// The tokens before a place: of a schedule those of its line.
fn tokens_before<'a>(
    alloc: Global,
    language: Language,
    before: &'a [u8],
) -> Result<Vec<&'a [u8]>, Fault>
    ensures { OnlyMemory result }
{
    match language {
        Language::Script => tokens_of(alloc, before),
        Language::Schedule {
            hosts: _,
            devices: _,
        } => tokens_of(alloc, begun_line(before)),
    }
}

// The first of the names, or nothing.
fn first_name<'a>(names: &[&'a [u8]]) -> &'a [u8] {
    match names {
        [] => b"",
        [first, ..] => first,
    }
}

// What a token lacks, by the kind of the fault, the token before it and the names of arrays.
fn lack_of(kind: ReadKind, token: &[u8], last: &[u8], names: &[&[u8]]) -> Lack {
    if token.is_empty() {
        return Lack::More;
    }
    match kind {
        ReadKind::Limit => Lack::Within,
        ReadKind::Name if is_word(token) => {
            if token.len() > MAX_NAME {
                Lack::Short
            } else if !has_name(names, token) {
                Lack::Declared
            } else if is(last, b"long") {
                Lack::New
            } else {
                Lack::Other
            }
        }
        _ => Lack::Place,
    }
}

// What is near the token: a name where it isn't declared, a word where it can't stand and nothing else is known to help.
fn near_of<'a>(
    alloc: Global,
    lack: Lack,
    help: &[u8],
    token: &[u8],
    names: &[&'a [u8]],
    words: &[&'a [u8]],
) -> Result<&'a [u8], Fault>
    ensures { OnlyMemory result }
{
    match lack {
        Lack::Declared => nearest(alloc, token, names),
        Lack::Place if help.is_empty() => nearest(alloc, token, words),
        _ => Ok(b""),
    }
}

// The largest number that could stand there, where a number passes a limit.
fn most_of(
    alloc: Global,
    language: Language,
    before: &[u8],
    lack: Lack,
    token: &[u8],
) -> Result<Option<u64>, Fault>
    ensures stands { IfOk result (λ most.
        IfSome most (λ n. stands language before.now (decimal n) ≡ true)) }
    ensures largest { IfOk result (λ most.
        IfSome most (λ n. stands language before.now (decimal (n + 1)) ≡ false)) }
    ensures fault { OnlyMemory result }
{
    if lack == Lack::Within && is_digit(front(token)) {
        return largest_number(alloc, language, before);
    }
    Ok(None)
}

// What stands behind a token: the first piece that is no blank, or `@parts` where the token begins a line `%%`.
fn next_of<'a>(before: &[u8], token: &[u8], behind: &'a [u8]) -> &'a [u8] {
    let (rest, _) = behind.split_at(line_len(behind));
    if begun_line(before).is_empty() && is(token, b"%") && is(rest, b"%") {
        b"@parts"
    } else {
        first_piece(behind)
    }
}

// What is seen around a place: the tokens before it and there, what stands behind it, and the words that could stand there.
fn help_at(
    language: Language,
    lack: Lack,
    tokens: &[&[u8]],
    token: &[u8],
    next: &[u8],
    words: &[&[u8]],
) -> &'static [u8] {
    let seen = Seen {
        head: head_token(tokens),
        last: last_token(tokens),
        token,
        next,
        words,
    };
    help_of(language, lack == Lack::Within, &seen)
}

// The words that could stand there, and `@loop` and `@number` where the loop's name and a number could;
// in a comment what closes it.
fn asked_words<'a>(
    alloc: Global,
    words: &[&'a [u8]],
    has_loop: bool,
    has_number: bool,
    in_comment: bool,
) -> Result<Vec<&'a [u8]>, Fault>
    ensures { OnlyMemory result }
{
    if in_comment {
        return Ok(Vec::from_slice(alloc, &[b"*/".as_slice()])?);
    }
    let mut asked = Vec::from_slice(alloc, words)?;
    if has_loop {
        asked.push(b"@loop")?;
    }
    if has_number {
        asked.push(b"@number")?;
    }
    Ok(asked)
}

// The words that are asked for: beside a name that isn't declared each word could stand as a name, so those alone that are
// reserved.
fn told_words<'a, 'b>(new_name: bool, words: &'b [&'a [u8]]) -> &'b [&'a [u8]]
    ensures { map (λ w. w.now) result.now ≡ told_words new_name (map (λ w. w.now) words.now) }
{
    if new_name { BESIDE_NAMES } else { words }
}

// The finding at a place.
fn finding_at<'a>(
    alloc: Global,
    language: Language,
    text: &'a [u8],
    words: &[&'a [u8]],
    fault: ReadFault,
    place: Place,
) -> Result<Finding<'a>, Fault>
    requires fault { text_fault language text.now ≡ Some fault }
    requires place { IsPlace language text.now place }
    ensures told { IfOk result (λ f. TellsFault language text.now (map (λ w. w.now) words.now) f) }
    ensures fault { OnlyMemory result }
{
    let start = start_in(language, text, place);
    let (before, rest) = text.split_at(start);
    let token = token_in(text, place);
    let (_, behind) = rest.split_at(token.len().min(rest.len()));
    let tokens = tokens_before(alloc, language, before)?;
    let tokens = tokens.as_slice();
    let names = array_names(alloc, tokens)?;
    let names = names.as_slice();
    let new_name = stands(alloc, language, before, b"_")?;
    let words = could_stand(alloc, language, before, told_words(new_name, words))?;
    let lack = lack_of(fault.kind, token, last_token(tokens), names);
    let loop_name = name_stands(alloc, language, before, loop_name(tokens))?;
    let number = number_stands(alloc, language, before)?;
    let in_comment = stands(alloc, language, before, b"@")?;
    let asked = asked_words(alloc, words.as_slice(), loop_name, number, in_comment)?;
    let next = next_of(before, token, behind);
    let help = help_at(language, lack, tokens, token, next, asked.as_slice());
    Ok(Finding {
        fault,
        place,
        token,
        start,
        line: 1 + line_feeds(before),
        column: 1 + begun_line(before).len(),
        array: name_stands(alloc, language, before, first_name(names))?,
        loop_name,
        new_name,
        number,
        in_comment,
        line_end: stands(alloc, language, before, b"\n")?,
        lack,
        near: near_of(alloc, lack, help, token, names, words.as_slice())?,
        most: most_of(alloc, language, before, lack, token)?,
        help,
        words,
    })
}

/// What is told of a text with these words, if it is none of its language.
///
/// # Errors
///
/// `Memory` where memory is refused.
pub fn finding_of<'a>(
    alloc: Global,
    language: Language,
    text: &'a [u8],
    words: &[&'a [u8]],
) -> Result<Option<Finding<'a>>, Fault>
    ensures whole { IfOk result (λ found. found ≡ None → text_fault language text.now ≡ None) }
    ensures told { IfOk result (λ found.
        IfSome found (λ f. TellsFault language text.now (map (λ w. w.now) words.now) f)) }
    ensures fault { OnlyMemory result }
{
    let Some(fault) = fault_of(alloc, language, text)? else {
        return Ok(None);
    };
    let place = place_of(alloc, language, text)?;
    Ok(Some(finding_at(alloc, language, text, words, fault, place)?))
}
