//! A line of options.

ghost use Rattle.std.specs.Prelude.{◌≡◌, ◌≤◌, ◌<◌, ◌^◌, ◌*◌, IfOk, IfErr, IfSome, None, Some, true, map, filter, length, drop};
ghost use Rattle.std.specs.Char.{is_ascii_digit};
ghost use Rattle.std.specs.List.{list_all, slice_split};
ghost use Rattle.acc_base.specs.declared.config.TheConstants.{MAX_CAPACITY, MAX_DEVICES, MAX_ROOM};
ghost use Rattle.acc_driver.specs.Replays.{AreUsable};
ghost use Rattle.acc_cases.specs.Options.{AreWithin, IsFromOneTo, IsWord, first_number, given_by, given_with, is_gap, is_not_empty, no_options, number_in, options_in, options_with, words_in};

use acc_base::{MAX_CAPACITY, MAX_DEVICES, MAX_ROOM};
use acc_driver::Options;
use std::alloc::{AllocError, Global};

/// Why a line has no options.
#[derive(Clone, Copy, Debug, PartialEq, Eq)]
pub enum OptionsFault<'a> {
    /// The first word that isn't an option, stands a second time, or has no number behind it that it can have.
    Word(&'a [u8]),
    Memory,
}

// The numbers that options have been given.
#[derive(Clone, Copy)]
pub(crate) struct Given {
    devices: Option<u64>,
    cells: Option<u64>,
    room: Option<u64>,
}

// Whether words are parted by this byte.
fn is_blank(byte: u8) -> bool
    ensures { result ≡ is_gap byte }
{
    matches!(byte, b' ' | b'\t' | b'\r' | b'\n')
}

// The words of a line.
fn words_of(alloc: Global, text: &[u8]) -> Result<Vec<&[u8]>, AllocError>
    ensures { IfOk result (λ words. map (λ w. w.now) words.items ≡ words_in text.now) }
{
    let pieces = pieces_of(alloc, text)?;
    without_empty(alloc, pieces.as_slice())
}

// The pieces that aren't empty.
fn without_empty<'a>(alloc: Global, pieces: &[&'a [u8]]) -> Result<Vec<&'a [u8]>, AllocError>
    ensures { IfOk result (λ words.
        map (λ w. w.now) words.items ≡ filter is_not_empty (map (λ p. p.now) pieces.now)) }
{
    let mut words = Vec::new(alloc);
    for piece in pieces {
        if !piece.is_empty() {
            words.push(*piece)?;
        }
    }
    Ok(words)
}

// What blanks part, empty or not.
fn pieces_of(alloc: Global, text: &[u8]) -> Result<Vec<&[u8]>, AllocError>
    ensures { IfOk result (λ pieces. map (λ p. p.now) pieces.items ≡ slice_split is_gap text.now) }
{
    text.split(|byte| is_blank(*byte)).collect(alloc)
}

// Whether a word has digits alone.
fn is_digits(word: &[u8]) -> bool
    ensures { result ≡ list_all is_ascii_digit word.now }
{
    word.iter().all(|byte| byte.is_ascii_digit())
}

/// A number that is written in digits alone, and is from 1 to the most.
pub fn number_in(word: &[u8], most: u64) -> Option<u64>
    ensures value { result ≡ number_in most word.now }
    ensures bounds { IsFromOneTo most result }
{
    if !is_digits(word) {
        return None;
    }
    match str::from_utf8(word) {
        Ok(text) => number_of(text, most),
        Err(_) => None,
    }
}

// The number of digits, if it is from 1 to the most.
fn number_of(text: &str, most: u64) -> Option<u64>
    requires { list_all is_ascii_digit text.now ≡ true }
    ensures value { result ≡ number_in most text.now }
    ensures bounds { IsFromOneTo most result }
{
    match text.parse::<u64>() {
        Ok(value) => (1 <= value && value <= most).then_some(value),
        Err(_) => None,
    }
}

// A number for an option that has none yet.
fn first_number(given: Option<u64>, most: u64, word: &[u8]) -> Option<u64>
    ensures value { result ≡ first_number given most word.now }
    ensures bounds { IsFromOneTo most result }
{
    match given {
        Some(_) => None,
        None => number_in(word, most),
    }
}

// An option with the word behind it, beside what is given already.
fn given_with(given: Given, name: &[u8], word: &[u8]) -> Option<Given>
    requires { AreWithin given }
    ensures value { result ≡ given_with given name.now word.now }
    ensures bounds { IfSome result AreWithin }
{
    let Given {
        devices,
        cells,
        room,
    } = given;
    if name == b"--devices".as_slice() {
        let number = first_number(devices, u64::from(MAX_DEVICES), word)?;
        return Some(Given {
            devices: Some(number),
            cells,
            room,
        });
    }
    if name == b"--cells".as_slice() {
        let number = first_number(cells, MAX_CAPACITY, word)?;
        return Some(Given {
            devices,
            cells: Some(number),
            room,
        });
    }
    if name == b"--room".as_slice() {
        let number = first_number(room, u64::from(MAX_ROOM), word)?;
        return Some(Given {
            devices,
            cells,
            room: Some(number),
        });
    }
    None
}

// What the first two words give, beside what is given already.
fn given_first<'a>(given: Given, words: &[&'a [u8]]) -> Result<Given, OptionsFault<'a>>
    requires two { 2 ≤ length words.now }
    requires bounds { AreWithin given }
    ensures given { IfOk result (λ g.
        given_by given (map (λ w. w.now) words.now)
        ≡ given_by g (map (λ w. w.now) (drop 2 words.now))) }
    ensures bounds { IfOk result AreWithin }
    ensures refused { IfErr result (λ f. (given_by given (map (λ w. w.now) words.now) ≡ None)
        × IsWord f) }
{
    let name = words[0];
    match given_with(given, name, words[1]) {
        Some(more) => Ok(more),
        None => Err(OptionsFault::Word(name)),
    }
}

// What words give.
fn given_by<'a>(words: &[&'a [u8]]) -> Result<Given, OptionsFault<'a>>
    ensures given { IfOk result (λ g. given_by no_options (map (λ w. w.now) words.now) ≡ Some g) }
    ensures bounds { IfOk result AreWithin }
    ensures refused { IfErr result (λ f. (given_by no_options (map (λ w. w.now) words.now) ≡ None)
        × IsWord f) }
{
    let mut given = Given {
        devices: None,
        cells: None,
        room: None,
    };
    let mut rest = words;
    while rest.len() >= 2 {
        match given_first(given, rest) {
            Ok(more) => given = more,
            Err(fault) => return Err(fault),
        }
        rest = &rest[2..];
    }
    if rest.len() == 1 {
        return Err(OptionsFault::Word(rest[0]));
    }
    Ok(given)
}

/// The options that a line says: `--devices N`, `--cells N` and `--room N`, in any order, each once at most. What isn't there is as
/// in `common`.
///
/// # Errors
///
/// `Word` for the first that is none of these names, stands a second time, or has no number behind it, in digits alone, that it can
/// have; `Memory` for want of memory.
#[tactic(auto, using(crate::proofs::GivenWords::usable_with))]
pub fn options_of(alloc: Global, text: &[u8], common: Options) -> Result<Options, OptionsFault<'_>>
    ensures options { IfOk result (λ o. options_in common text.now ≡ Some o) }
    ensures usable { IfOk result (λ o. AreUsable common → AreUsable o) }
    ensures refused { IfErr result (λ f. IsWord f → options_in common text.now ≡ None) }
{
    let words = match words_of(alloc, text) {
        Ok(words) => words,
        Err(_) => return Err(OptionsFault::Memory),
    };
    match given_by(words.as_slice()) {
        Ok(given) => Ok(options_with(common, given)),
        Err(fault) => Err(fault),
    }
}

// What is given, and what isn't as in the common options.
fn options_with(common: Options, given: Given) -> Options
    requires { AreWithin given }
    ensures { result ≡ options_with common given }
{
    Options {
        devices: match given.devices {
            Some(number) => number as u8,
            None => common.devices,
        },
        cells: given.cells.unwrap_or(common.cells),
        room: match given.room {
            Some(number) => number as u32,
            None => common.room,
        },
    }
}
