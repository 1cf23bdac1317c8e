//! The lines that tell a finding, or that a text is too long.

ghost use Rattle.std.specs.Prelude.{◌≡◌, ◌≤◌, ◌<◌, ◌++◌, decimal, length, map, take, OnOk, IfOk};
ghost use Rattle.std.specs.List.{prefix_len, flat_map};
ghost use Rattle.acc_base.specs.Faults.{OnlyMemory};
ghost use Rattle.acc_schedule.specs.Schedules.{is_space};
ghost use Rattle.acc_token.specs.Texts.{shown_byte};
ghost use Rattle.acc_check.specs.Findings.{begun_line};
ghost use Rattle.acc_check.specs.Told.{answer, answers, article_of, byte_text, complaint, finding_text, fault_line, fault_text, help_text, hex_digit, holds, is_directive_line, is_printed, kind_mark, kind_text, length_help, length_place, length_text, marked_line, most_text, names_text, near_text, numbered, other_names, others_text, place_text, quoted, remedy, room_of, stand_text, token_text, tokens_text, ways_text, words_text};

use crate::finding::{Finding, Lack, begun_line, line_feeds};
use crate::language::Language;
use acc_base::Fault;
use acc_token::{MAX_TEXT, ReadKind, front, line_len, shown};
use itoa::Buffer;
use std::alloc::{AllocError, Global};

/// The lines that tell a finding of a text, which begins with the line of this number: the place with what is wrong, its line
/// with a mark below it, what could stand there, and what helps.
///
/// # Errors
///
/// `Memory` where memory is refused.
#[tactic(auto, unfolding(crate::specs::Told::finding_text))]
pub fn told_text(
    alloc: Global,
    name: &str,
    first_line: usize,
    text: &[u8],
    finding: &Finding,
) -> Result<Vec<u8>, Fault>
    requires { finding.now.start ≤ length text.now }
    ensures text { IfOk result (λ told.
        told.items ≡ finding_text name.now first_line text.now finding.now) }
    ensures fault { OnlyMemory result }
{
    let (before, behind) = text.split_at(finding.start);
    let begun = begun_line(before);
    let (rest, _) = behind.split_at(line_len(behind));
    let mut lines = Vec::new(alloc);
    put_fault(
        &mut lines,
        name.as_bytes(),
        first_line,
        finding,
        begun,
        rest,
    )?;
    put_ways(&mut lines, finding, is_directive(begun))?;
    Ok(lines)
}

// The place with what is wrong, and its line.
#[tactic(auto, unfolding(crate::specs::Told::fault_text))]
fn put_fault(
    lines: &mut Vec<u8>,
    name: &[u8],
    first_line: usize,
    finding: &Finding,
    begun: &[u8],
    rest: &[u8],
) -> Result<(), AllocError>
    ensures { OnOk result (lines.new.items ≡ lines.old.items
        ++ fault_text name.now first_line finding.now begun.now rest.now) }
{
    let line = (first_line as u128 + finding.line as u128).saturating_sub(1);
    put_place(lines, name, line, finding.column, finding.fault.kind)?;
    put_token_fault(lines, finding)?;
    put_line(lines, begun, rest)
}

// What could stand there, and what helps.
#[tactic(auto, unfolding(crate::specs::Told::ways_text))]
fn put_ways(lines: &mut Vec<u8>, finding: &Finding, in_directive: bool) -> Result<(), Fault>
    ensures text { OnOk result (lines.new.items ≡ lines.old.items
        ++ ways_text finding.now in_directive) }
    ensures fault { OnlyMemory result }
{
    put_stand(lines, finding, in_directive)?;
    put_help(lines, finding)?;
    Ok(())
}

// Puts a number without a sign.
fn put_number(lines: &mut Vec<u8>, number: u128) -> Result<(), AllocError>
    ensures { OnOk result (lines.new.items ≡ lines.old.items ++ decimal number) }
{
    lines.extend_from_slice(Buffer::new().format(number).as_bytes())
}

fn kind_text(kind: ReadKind) -> &'static [u8]
    ensures { result.now ≡ kind_text kind }
{
    match kind {
        ReadKind::Text => b"Text",
        ReadKind::End => b"End",
        ReadKind::Name => b"Name",
        ReadKind::Limit => b"Limit",
        ReadKind::Form => b"Form",
    }
}

// A colon and a number.
#[tactic(auto, unfolding(crate::specs::Told::numbered))]
fn put_numbered(lines: &mut Vec<u8>, number: u128) -> Result<(), AllocError>
    ensures { OnOk result (lines.new.items ≡ lines.old.items ++ numbered number) }
{
    lines.extend_from_slice(b":")?;
    put_number(lines, number)
}

// The kind of a fault, between colons.
#[tactic(auto, unfolding(crate::specs::Told::kind_mark))]
fn put_kind(lines: &mut Vec<u8>, kind: ReadKind) -> Result<(), AllocError>
    ensures { OnOk result (lines.new.items ≡ lines.old.items ++ kind_mark kind) }
{
    lines.extend_from_slice(b": ")?;
    lines.extend_from_slice(kind_text(kind))?;
    lines.extend_from_slice(b": ")
}

// The file, the line and the column, and the kind of the fault.
#[tactic(auto, unfolding(crate::specs::Told::place_text))]
fn put_place(
    lines: &mut Vec<u8>,
    name: &[u8],
    line: u128,
    column: usize,
    kind: ReadKind,
) -> Result<(), AllocError>
    ensures { OnOk result (lines.new.items ≡ lines.old.items
        ++ place_text name.now line column kind) }
{
    lines.extend_from_slice(name)?;
    put_numbered(lines, line)?;
    put_numbered(lines, column as u128)?;
    put_kind(lines, kind)
}

fn hex_digit(value: u8) -> u8
    requires { value ≤ 15 }
    ensures { result ≡ hex_digit value }
{
    if value < 10 {
        b'0' + value
    } else {
        b'A' + (value - 10)
    }
}

// A byte that isn't printed, by its number.
#[tactic(auto, unfolding(crate::specs::Told::byte_text))]
fn put_byte(lines: &mut Vec<u8>, byte: u8) -> Result<(), AllocError>
    ensures { OnOk result (lines.new.items ≡ lines.old.items ++ byte_text byte) }
{
    match byte {
        b'\n' => lines.extend_from_slice(b"the end of the line"),
        b'\r' => lines.extend_from_slice(b"byte 0x0D (carriage return)"),
        0xEF => lines.extend_from_slice(b"byte 0xEF (a byte order mark begins so)"),
        _ => {
            lines.extend_from_slice(b"byte 0x")?;
            lines.extend_from_slice(&[hex_digit(byte / 16), hex_digit(byte % 16)])
        }
    }
}

fn is_printed(byte: u8) -> bool
    ensures { result ≡ is_printed byte }
{
    b' ' < byte && byte < 127
}

#[tactic(auto, unfolding(crate::specs::Told::quoted))]
fn put_quoted(lines: &mut Vec<u8>, bytes: &[u8]) -> Result<(), AllocError>
    ensures { OnOk result (lines.new.items ≡ lines.old.items ++ quoted bytes.now) }
{
    lines.extend_from_slice(b"`")?;
    lines.extend_from_slice(bytes)?;
    lines.extend_from_slice(b"`")
}

// A token as it is written, or by its number where it isn't printed.
#[tactic(auto, unfolding(crate::specs::Told::token_text))]
fn put_token(lines: &mut Vec<u8>, token: &[u8]) -> Result<(), AllocError>
    ensures { OnOk result (lines.new.items ≡ lines.old.items ++ token_text token.now) }
{
    match token {
        [] => lines.extend_from_slice(b"the end of the text"),
        [first, ..] if is_printed(*first) => put_quoted(lines, token),
        [first, ..] => put_byte(lines, *first),
    }
}

// What is near, if anything is, and what holds of it.
#[tactic(auto, unfolding(crate::specs::Told::near_text))]
fn put_near(lines: &mut Vec<u8>, near: &[u8], holds: &[u8]) -> Result<(), AllocError>
    ensures { OnOk result (lines.new.items ≡ lines.old.items ++ near_text near.now holds.now) }
{
    if near.is_empty() {
        return Ok(());
    }
    lines.extend_from_slice(b"; ")?;
    put_quoted(lines, near)?;
    lines.extend_from_slice(holds)
}

// The largest number that could stand there, if one is known.
#[tactic(auto, unfolding(crate::specs::Told::most_text))]
fn put_most(lines: &mut Vec<u8>, most: Option<u64>) -> Result<(), AllocError>
    ensures { OnOk result (lines.new.items ≡ lines.old.items ++ most_text most) }
{
    match most {
        None => Ok(()),
        Some(number) => {
            lines.extend_from_slice(b"; the largest number here is ")?;
            put_number(lines, u128::from(number))
        }
    }
}

// What is wrong with a token.
fn complaint(lack: Lack) -> &'static [u8]
    ensures { result.now ≡ complaint lack }
{
    match lack {
        Lack::More => b", where more has to stand",
        Lack::Place => b" cannot stand here",
        Lack::Short => b" has more than 32 bytes",
        Lack::New => b" is declared already",
        Lack::Other => b" is an array's name",
        Lack::Declared => b" is not declared",
        Lack::Within => b" passes a limit",
    }
}

// What holds of the name that is near.
fn holds(lack: Lack) -> &'static [u8]
    ensures { result.now ≡ holds lack }
{
    match lack {
        Lack::Declared => b" is",
        _ => b" could",
    }
}

// What could stand there instead.
#[tactic(auto, unfolding(crate::specs::Told::remedy))]
fn put_remedy(lines: &mut Vec<u8>, finding: &Finding) -> Result<(), AllocError>
    ensures { OnOk result (lines.new.items ≡ lines.old.items ++ remedy finding.now) }
{
    put_near(lines, finding.near, holds(finding.lack))?;
    put_most(lines, finding.most)
}

// The token at the place, and what is wrong with it.
#[tactic(auto, unfolding(crate::specs::Told::fault_line))]
fn put_token_fault(lines: &mut Vec<u8>, finding: &Finding) -> Result<(), AllocError>
    ensures { OnOk result (lines.new.items ≡ lines.old.items ++ fault_line finding.now) }
{
    put_token(lines, finding.token)?;
    lines.extend_from_slice(complaint(finding.lack))?;
    put_remedy(lines, finding)?;
    lines.extend_from_slice(b"\n")
}

fn is_blank(byte: u8) -> bool
    ensures { result ≡ is_space byte }
{
    byte == b' ' || byte == b'\t'
}

// How many blanks a line begins with.
fn blanks_len(line: &[u8]) -> usize
    ensures value { result ≡ prefix_len is_space line.now }
    ensures within { result ≤ length line.now }
{
    line.iter().take_while(|byte| is_blank(**byte)).count()
}

// Whether a directive begins there: its line ends where it does.
fn is_directive(line: &[u8]) -> bool
    ensures { result ≡ is_directive_line line.now }
{
    let (_, rest) = line.split_at(blanks_len(line));
    front(rest) == b'#'
}

fn put_shown(lines: &mut Vec<u8>, bytes: &[u8]) -> Result<(), AllocError>
    ensures { OnOk result (lines.new.items ≡ lines.old.items ++ map shown_byte bytes.now) }
{
    for byte in bytes {
        lines.push(shown(*byte))?;
    }
    Ok(())
}

// As much room as a byte takes: none where it goes on with a character.
fn put_room_of(lines: &mut Vec<u8>, byte: u8) -> Result<(), AllocError>
    ensures { OnOk result (lines.new.items ≡ lines.old.items ++ room_of byte) }
{
    if byte == b'\t' {
        lines.extend_from_slice(b"\t")
    } else if 128 <= byte && byte < 192 {
        Ok(())
    } else {
        lines.extend_from_slice(b" ")
    }
}

fn put_room(lines: &mut Vec<u8>, bytes: &[u8]) -> Result<(), AllocError>
    ensures { OnOk result (lines.new.items ≡ lines.old.items ++ flat_map room_of bytes.now) }
{
    for byte in bytes {
        put_room_of(lines, *byte)?;
    }
    Ok(())
}

// A line, and a mark behind what stands before a place.
#[tactic(auto, unfolding(crate::specs::Told::marked_line))]
fn put_line(lines: &mut Vec<u8>, begun: &[u8], rest: &[u8]) -> Result<(), AllocError>
    ensures { OnOk result (lines.new.items ≡ lines.old.items ++ marked_line begun.now rest.now) }
{
    lines.extend_from_slice(b"  ")?;
    put_shown(lines, begun)?;
    put_shown(lines, rest)?;
    lines.extend_from_slice(b"\n  ")?;
    put_room(lines, begun)?;
    lines.extend_from_slice(b"^\n")
}

fn put_words(lines: &mut Vec<u8>, words: &[&[u8]]) -> Result<(), AllocError>
    ensures { OnOk result (lines.new.items ≡ lines.old.items ++ words_text words.now) }
{
    for word in words {
        lines.extend_from_slice(b", ")?;
        put_token(lines, word)?;
    }
    Ok(())
}

// An alternative, if it is one.
fn put_answer(lines: &mut Vec<u8>, is_one: bool, bytes: &[u8]) -> Result<(), AllocError>
    ensures { OnOk result (lines.new.items ≡ lines.old.items ++ answer is_one bytes.now) }
{
    if is_one {
        return lines.extend_from_slice(bytes);
    }
    Ok(())
}

// The name of the loop, and one that isn't declared.
#[tactic(auto, unfolding(crate::specs::Told::other_names))]
fn put_other_names(lines: &mut Vec<u8>, finding: &Finding) -> Result<(), AllocError>
    ensures { OnOk result (lines.new.items ≡ lines.old.items ++ other_names finding.now) }
{
    put_answer(lines, finding.loop_name, b", the loop's name")?;
    put_answer(lines, finding.new_name, b", a new name")
}

// The names that could stand there.
#[tactic(auto, unfolding(crate::specs::Told::names_text))]
fn put_names(lines: &mut Vec<u8>, finding: &Finding) -> Result<(), AllocError>
    ensures { OnOk result (lines.new.items ≡ lines.old.items ++ names_text finding.now) }
{
    put_answer(lines, finding.array, b", an array's name")?;
    put_other_names(lines, finding)
}

// A number, and the end of a directive's line.
#[tactic(auto, unfolding(crate::specs::Told::others_text))]
fn put_others(lines: &mut Vec<u8>, finding: &Finding, in_directive: bool) -> Result<(), AllocError>
    ensures { OnOk result (lines.new.items ≡ lines.old.items
        ++ others_text finding.now in_directive) }
{
    put_answer(lines, finding.number, b", a number")?;
    put_answer(
        lines,
        finding.line_end && in_directive,
        b", the end of the line",
    )
}

// What could stand there, each with a comma before it; in a comment, what closes it.
#[tactic(auto, unfolding(crate::specs::Told::answers))]
fn put_answers(lines: &mut Vec<u8>, finding: &Finding, in_directive: bool) -> Result<(), AllocError>
    ensures { OnOk result (lines.new.items ≡ lines.old.items ++ answers finding.now in_directive) }
{
    if finding.in_comment {
        return lines.extend_from_slice(b", `*/`");
    }
    put_tokens(lines, finding, in_directive)
}

// Which tokens could stand there.
#[tactic(auto, unfolding(crate::specs::Told::tokens_text))]
fn put_tokens(lines: &mut Vec<u8>, finding: &Finding, in_directive: bool) -> Result<(), AllocError>
    ensures { OnOk result (lines.new.items ≡ lines.old.items
        ++ tokens_text finding.now in_directive) }
{
    put_words(lines, finding.words.as_slice())?;
    put_names(lines, finding)?;
    put_others(lines, finding, in_directive)
}

// The line of what could stand there, if anything could.
#[tactic(auto, unfolding(crate::specs::Told::stand_text))]
fn put_stand(lines: &mut Vec<u8>, finding: &Finding, in_directive: bool) -> Result<(), Fault>
    ensures text { OnOk result (lines.new.items ≡ lines.old.items
        ++ stand_text finding.now in_directive) }
    ensures fault { OnlyMemory result }
{
    let mut answers = Vec::new(*lines.allocator());
    put_answers(&mut answers, finding, in_directive)?;
    let answers = answers.as_slice();
    if answers.len() < 2 {
        return Ok(());
    }
    lines.extend_from_slice(b"could stand: ")?;
    lines.extend_from_slice(&answers[2..])?;
    lines.extend_from_slice(b"\n")?;
    Ok(())
}

// The line of what helps, if anything does.
#[tactic(auto, unfolding(crate::specs::Told::help_text))]
fn put_help(lines: &mut Vec<u8>, finding: &Finding) -> Result<(), AllocError>
    ensures { OnOk result (lines.new.items ≡ lines.old.items ++ help_text finding.now) }
{
    if finding.help.is_empty() {
        return Ok(());
    }
    lines.extend_from_slice(b"help: ")?;
    lines.extend_from_slice(finding.help)?;
    lines.extend_from_slice(b"\n")
}

fn article_of(language: Language) -> &'static [u8]
    ensures { result.now ≡ article_of language }
{
    match language {
        Language::Script => b"a script",
        Language::Schedule {
            hosts: _,
            devices: _,
        } => b"a schedule",
    }
}

// How many bytes a text of the language can have.
#[tactic(auto, unfolding(crate::specs::Told::length_help))]
fn put_length_help(lines: &mut Vec<u8>, language: Language) -> Result<(), AllocError>
    ensures { OnOk result (lines.new.items ≡ lines.old.items ++ length_help language) }
{
    lines.extend_from_slice(b"help: ")?;
    lines.extend_from_slice(article_of(language))?;
    lines.extend_from_slice(b" has at most ")?;
    put_number(lines, MAX_TEXT as u128)?;
    lines.extend_from_slice(b" bytes\n")
}

// The place behind the front of a text that is too long.
#[tactic(auto, unfolding(crate::specs::Told::length_place))]
fn put_length_place(
    lines: &mut Vec<u8>,
    name: &[u8],
    first_line: usize,
    front: &[u8],
) -> Result<(), AllocError>
    ensures { OnOk result (lines.new.items ≡ lines.old.items
        ++ length_place name.now first_line front.now) }
{
    let line = first_line as u128 + line_feeds(front) as u128;
    put_place(
        lines,
        name,
        line,
        1 + begun_line(front).len(),
        ReadKind::Limit,
    )
}

// The place behind the front of a text that is too long, and how many bytes it can have.
fn put_length(
    lines: &mut Vec<u8>,
    language: Language,
    name: &[u8],
    first_line: usize,
    front: &[u8],
) -> Result<(), AllocError>
    ensures { OnOk result (lines.new.items ≡ lines.old.items
        ++ length_text language name.now first_line front.now) }
{
    put_length_place(lines, name, first_line, front)?;
    lines.extend_from_slice(b"the text is too long\n")?;
    put_length_help(lines, language)
}

/// The lines that tell that a text is too long, which begins with the line of this number: the place behind as many bytes as it
/// can have, and how many these are.
///
/// # Errors
///
/// `Memory` where memory is refused.
pub(crate) fn length_text(
    alloc: Global,
    language: Language,
    name: &str,
    first_line: usize,
    text: &[u8],
) -> Result<Vec<u8>, Fault>
    requires { MAX_TEXT < length text.now }
    ensures text { IfOk result (λ told.
        told.items ≡ length_text language name.now first_line (take MAX_TEXT text.now)) }
    ensures fault { OnlyMemory result }
{
    let (front, _) = text.split_at(MAX_TEXT);
    let mut lines = Vec::new(alloc);
    put_length(&mut lines, language, name.as_bytes(), first_line, front)?;
    Ok(lines)
}
