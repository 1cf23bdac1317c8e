//! What the words of a command line ask for.

ghost use Rattle.std.specs.Prelude.{◌≡◌, ◌≤◌, ◌⊎◌, codes, map, option_and_then, option_map, Some, None, IfOk, IfErr, IfSome};
ghost use Rattle.clap.specs.Words.{app_of, first_of, found_of, kind_of, rows_of, subcommand_rows_of};
ghost use Rattle.clap.specs.declared.error.kind.ErrorKind.TheVariants.{OutOfMemory};
ghost use Rattle.acc_base.specs.declared.config.TheConstants.{MAX_DEVICES};
ghost use Rattle.accq.specs.Words.{accq_app, aim_in, asked_behind, asked_by, asked_of, check_by, check_in, explore_by, explore_in, exploring_in, form_in, has_flag, number_given, options_given, replay_by, replay_in, run_by, run_in, steps_by, steps_in, test_by, test_in, IsUsable};
ghost use Rattle.acc_driver.specs.Replays.{AreUsable};

use crate::words::{MAX_DEPTH, MAX_STATES, accq_words};
use acc_base::{MAX_CAPACITY, MAX_DEVICES, MAX_ROOM};
use acc_cases::number_in;
use acc_driver::{Aim, Exploring, Form, Options, StepsAs};
use clap::error::ErrorKind;
use clap::{ArgMatches, Command, Error};
use std::alloc::Global;
use std::convert::AsStr;

/// Two files to be replayed, by their names, and under which options.
#[derive(Clone, Copy)]
pub struct Replay<'a> {
    pub script: &'a str,
    pub schedule: &'a str,
    pub options: Options,
}

/// A file whose script is to be run by threads, by its name, under which options, and whether it is told how far the run has come.
#[derive(Clone, Copy)]
pub struct Run<'a> {
    pub script: &'a str,
    pub options: Options,
    pub progress: bool,
}

/// Files whose replay is to be shown step by step, by their names, under which options, and how: a script and a schedule, or one that may
/// hold both.
#[derive(Clone, Copy)]
pub struct Steps<'a> {
    pub script: &'a str,
    pub schedule: Option<&'a str>,
    pub options: Options,
    pub form: StepsAs,
}

/// Files whose runs are to be explored, by their names, under which options, and how: a script, and a schedule behind which they go on,
/// if there is one.
#[derive(Clone, Copy)]
pub struct Explore<'a> {
    pub script: &'a str,
    pub schedule: Option<&'a str>,
    pub options: Options,
    pub exploring: Exploring,
}

/// Files that are to be checked, by their names, for so many devices: a script and a schedule, or one that may hold both.
#[derive(Clone, Copy)]
pub struct Check<'a> {
    pub script: &'a str,
    pub schedule: Option<&'a str>,
    pub devices: u8,
}

/// A word, of which it is to be told what the guide says.
#[derive(Clone, Copy)]
pub struct Explain<'a> {
    pub word: &'a str,
}

/// A folder whose cases are to be tested, by its name, the options that they have in common, and whether their reports are written
/// anew.
#[derive(Clone, Copy)]
pub struct Test<'a> {
    pub folder: &'a str,
    pub options: Options,
    pub bless: bool,
}

/// What words ask for.
#[derive(Clone, Copy)]
pub enum Task<'a> {
    Replay(Replay<'a>),
    Run(Run<'a>),
    Steps(Steps<'a>),
    Explore(Explore<'a>),
    Check(Check<'a>),
    Explain(Explain<'a>),
    Test(Test<'a>),
}

// What a word of the subcommand says, by its name.
fn text_of<'a>(matches: &ArgMatches<'a>, id: &str) -> Option<&'a str>
    ensures { option_map (λ s. s.now) result ≡ first_of id.now (rows_of (found_of matches.now)) }
{
    matches.get_str(id)
}

// The number of an option.
fn number_of(matches: &ArgMatches, name: &str, most: u64) -> Option<u64>
    ensures value { result ≡ number_given (rows_of (found_of matches.now)) name.now most }
    ensures bounds { IfSome result (λ n. (1 ≤ n) × (n ≤ most)) }
{
    match text_of(matches, name) {
        Some(text) => number_in(text.as_bytes(), most),
        None => None,
    }
}

// The options that there are, unless a number isn't written in digits.
fn options_in(matches: &ArgMatches) -> Option<Options>
    ensures value { result ≡ options_given (rows_of (found_of matches.now)) }
    ensures usable { IfSome result AreUsable }
{
    let devices = number_of(matches, "devices", u64::from(MAX_DEVICES))?;
    let cells = number_of(matches, "cells", MAX_CAPACITY)?;
    let room = number_of(matches, "room", u64::from(MAX_ROOM))?;
    Some(Options {
        devices: devices as u8,
        cells,
        room: room as u32,
    })
}

// The replay that the words behind `replay` ask for, unless a number isn't written in digits.
fn replay_in<'a>(matches: &ArgMatches<'a>) -> Option<Replay<'a>>
    ensures value { option_map replay_by result ≡ replay_in (rows_of (found_of matches.now)) }
    ensures usable { IfSome result (λ r. AreUsable r.options) }
{
    let options = options_in(matches)?;
    let script = text_of(matches, "SCRIPT")?;
    let schedule = text_of(matches, "SCHEDULE")?;
    Some(Replay {
        script,
        schedule,
        options,
    })
}

// Whether a flag stands there.
fn has_flag(matches: &ArgMatches, name: &str) -> bool
    ensures { result ≡ has_flag (rows_of (found_of matches.now)) name.now }
{
    match text_of(matches, name) {
        Some(text) => text == "true",
        None => false,
    }
}

// The run that the words behind `run` ask for, unless a number isn't written in digits.
fn run_in<'a>(matches: &ArgMatches<'a>) -> Option<Run<'a>>
    ensures value { option_map run_by result ≡ run_in (rows_of (found_of matches.now)) }
    ensures usable { IfSome result (λ r. AreUsable r.options) }
{
    let options = options_in(matches)?;
    let file = text_of(matches, "SCRIPT")?;
    Some(Run {
        script: file,
        options,
        progress: has_flag(matches, "progress"),
    })
}

// How the steps are shown that flags ask for.
fn form_in(matches: &ArgMatches) -> StepsAs
    ensures { result ≡ form_in (rows_of (found_of matches.now)) }
{
    if has_flag(matches, "picture") {
        StepsAs::Picture
    } else if has_flag(matches, "idle") {
        StepsAs::AllLines
    } else {
        StepsAs::Lines
    }
}

// The steps that the words behind `steps` ask for, unless a number isn't written in digits.
fn steps_in<'a>(matches: &ArgMatches<'a>) -> Option<Steps<'a>>
    ensures value { option_map steps_by result ≡ steps_in (rows_of (found_of matches.now)) }
    ensures usable { IfSome result (λ s. AreUsable s.options) }
{
    let options = options_in(matches)?;
    let script = text_of(matches, "SCRIPT")?;
    let schedule = text_of(matches, "SCHEDULE");
    Some(Steps {
        script,
        schedule,
        options,
        form: form_in(matches),
    })
}

// What is told of an exploration: prefixes, where a depth stands there, which is a number in digits and stands without `--short`; else reports.
fn aim_in(matches: &ArgMatches) -> Option<Aim>
    ensures { result ≡ aim_in (rows_of (found_of matches.now)) }
{
    match (text_of(matches, "depth"), has_flag(matches, "short")) {
        (None, false) => Some(Aim::Reports(Form::Whole)),
        (None, true) => Some(Aim::Reports(Form::Short)),
        (Some(text), false) => {
            let depth = number_in(text.as_bytes(), u64::from(MAX_DEPTH))?;
            Some(Aim::Prefixes(depth as u32))
        }
        (Some(_), true) => None,
    }
}

// How far it is explored, and what is told of that, unless a number isn't written in digits, or a depth is given for the short form.
fn exploring_in(matches: &ArgMatches) -> Option<Exploring>
    ensures { result ≡ exploring_in (rows_of (found_of matches.now)) }
{
    let states = number_of(matches, "states", u64::from(MAX_STATES))?;
    let aim = aim_in(matches)?;
    Some(Exploring {
        closing: has_flag(matches, "close"),
        states: states as u32,
        aim,
    })
}

// The exploration that the words behind `explore` ask for, unless a number isn't written in digits, or a depth is given for the short form.
fn explore_in<'a>(matches: &ArgMatches<'a>) -> Option<Explore<'a>>
    ensures value { option_map explore_by result ≡ explore_in (rows_of (found_of matches.now)) }
    ensures usable { IfSome result (λ e. AreUsable e.options) }
{
    let options = options_in(matches)?;
    let exploring = exploring_in(matches)?;
    let script = text_of(matches, "SCRIPT")?;
    let schedule = text_of(matches, "SCHEDULE");
    Some(Explore {
        script,
        schedule,
        options,
        exploring,
    })
}

// What is to be checked by the words behind `check`, unless a number isn't written in digits.
fn check_in<'a>(matches: &ArgMatches<'a>) -> Option<Check<'a>>
    ensures value { option_map check_by result ≡ check_in (rows_of (found_of matches.now)) }
    ensures usable { IfSome result (λ c. (1 ≤ c.devices) × (c.devices ≤ MAX_DEVICES)) }
{
    let devices = number_of(matches, "devices", u64::from(MAX_DEVICES))?;
    let script = text_of(matches, "SCRIPT")?;
    Some(Check {
        script,
        schedule: text_of(matches, "SCHEDULE"),
        devices: devices as u8,
    })
}

// The test that the words behind `test` ask for, unless a number isn't written in digits.
fn test_in<'a>(matches: &ArgMatches<'a>) -> Option<Test<'a>>
    ensures value { option_map test_by result ≡ test_in (rows_of (found_of matches.now)) }
    ensures usable { IfSome result (λ t. AreUsable t.options) }
{
    let options = options_in(matches)?;
    let folder = text_of(matches, "FOLDER")?;
    Some(Test {
        folder,
        options,
        bless: has_flag(matches, "bless"),
    })
}

// What the words behind the name of a subcommand ask for, unless a number isn't written in digits.
fn asked_behind<'a>(name: &str, matches: &ArgMatches<'a>) -> Option<Task<'a>>
    ensures value { option_map asked_by result
        ≡ asked_behind name.now (rows_of (found_of matches.now)) }
    ensures usable { IfSome result IsUsable }
{
    match name {
        "run" => Some(Task::Run(run_in(matches)?)),
        "steps" => Some(Task::Steps(steps_in(matches)?)),
        "explore" => Some(Task::Explore(explore_in(matches)?)),
        "check" => Some(Task::Check(check_in(matches)?)),
        "explain" => Some(Task::Explain(Explain {
            word: text_of(matches, "WORD")?,
        })),
        "test" => Some(Task::Test(test_in(matches)?)),
        _ => Some(Task::Replay(replay_in(matches)?)),
    }
}

// What the words asked for, if they named a subcommand.
fn asked_in_subcommand<'a>(matches: &ArgMatches<'a>) -> Option<Task<'a>>
    ensures value { option_map asked_by result
        ≡ option_and_then (λ p. asked_behind p.0 p.1) (subcommand_rows_of matches.now) }
    ensures usable { IfSome result IsUsable }
{
    match matches.subcommand() {
        Some((name, found)) => asked_behind(name, found),
        None => None,
    }
}

// Why they ask for nothing, where a parser lets them pass.
fn why_none(matches: &ArgMatches) -> &'static str {
    match matches.subcommand() {
        Some(("explore", found)) if has_flag(found, "short") && text_of(found, "depth").is_some() =>
            { "--depth stands without --short" }
        _ => "a number is written in digits alone",
    }
}

// What words ask for, by a parser that knows what there can be.
fn asked_of<'a, N: AsStr>(parser: &mut Command<'a>, words: &'a [N]) -> Result<Task<'a>, Error>
    requires { app_of parser.old ≡ accq_app }
    ensures asked { IfOk result (λ t. asked_of (map N.text words.entry.now) ≡ Some (asked_by t)) }
    ensures usable { IfOk result IsUsable }
    ensures refused { IfErr result (λ e. (kind_of e ≡ OutOfMemory)
        ⊎ (asked_of (map N.text words.entry.now) ≡ None)) }
{
    match parser.try_get_matches_from_mut(words) {
        Ok(matches) => match asked_in_subcommand(&matches) {
            Some(task) => Ok(task),
            None => Err(parser.error(ErrorKind::InvalidValue, why_none(&matches))?),
        },
        Err(error) => Err(error),
    }
}

/// What the words of a command line ask for. The first word is the program's name.
///
/// # Errors
///
/// The parser's, with its text: a word that has no place, an option that stands twice or is beyond its limit, a name
/// that is missing, a request for help or for the version; and want of memory.
pub fn task_of<'a, N: AsStr>(alloc: Global, words: &'a [N]) -> Result<Task<'a>, Error>
    ensures asked { IfOk result (λ t. asked_of (map N.text words.entry.now) ≡ Some (asked_by t)) }
    ensures usable { IfOk result IsUsable }
    ensures refused { IfErr result (λ e. (kind_of e ≡ OutOfMemory)
        ⊎ (asked_of (map N.text words.entry.now) ≡ None)) }
{
    let mut parser = accq_words(alloc)?;
    asked_of(&mut parser, words)
}
