//! The words that a command line can have.

ghost use Rattle.std.specs.Prelude.{◌≡◌, ◌<◌, ◌^◌, codes, false, IfOk};
ghost use Rattle.clap.specs.Words.{app_of, rule_of};
ghost use Rattle.clap.specs.declared.builder.command.Command.TheViews.{out-Command as fields_of};
ghost use Rattle.acc_base.specs.declared.config.TheConstants.{MAX_DEVICES};
ghost use Rattle.accq.specs.Words.{accq_app, check_app, explain_app, explore_app, flag_rule, name_rule, number_rule, optional_number_rule, optional_rule, replay_app, run_app, steps_app, test_app, with_options};

use crate::help;
use acc_base::{MAX_CAPACITY, MAX_DEVICES, MAX_ROOM};
use clap::{Arg, ArgAction, Command, value_parser};
use std::alloc::{AllocError, Global};

/// How many states an exploration may keep.
pub(crate) const MAX_STATES: u32 = 10_000_000;

/// How many events a prefix may have that an exploration tells: as many as a schedule.
pub(crate) const MAX_DEPTH: u32 = 1_000_000;

// An option with a number from 1 to the most that a run may have.
fn number<'a>(alloc: Global, name: &'a str, help: &'a str, default: &'a str, most: u64) -> Arg<'a>
    requires { most < 2 ^ 63 }
    ensures rule { rule_of result ≡ number_rule name.entry.now default.entry.now most }
    ensures local { result.global ≡ false }
{
    optional_number(alloc, name, help, most).default_value(default)
}

// An option with a number from 1 to the most, which may be missing.
fn optional_number<'a>(alloc: Global, name: &'a str, help: &'a str, most: u64) -> Arg<'a>
    requires { most < 2 ^ 63 }
    ensures rule { rule_of result ≡ optional_number_rule name.entry.now most }
    ensures local { result.global ≡ false }
{
    Arg::new(alloc, name)
        .long(name)
        .value_name("N")
        .value_parser(value_parser!(u64).range(1..=most as i64))
        .help(help)
}

// How many devices there are.
fn devices<'a>(alloc: Global) -> Arg<'a>
    ensures rule { rule_of result ≡ number_rule (codes "devices") (codes "1") MAX_DEVICES }
    ensures local { result.global ≡ false }
{
    number(
        alloc,
        "devices",
        "How many devices there are",
        "1",
        u64::from(MAX_DEVICES),
    )
}

// A name that has to be there.
fn name<'a>(alloc: Global, id: &'a str, help: &'a str) -> Arg<'a>
    ensures rule { rule_of result ≡ name_rule id.entry.now }
    ensures local { result.global ≡ false }
{
    Arg::new(alloc, id)
        .required(true)
        .action(ArgAction::Set)
        .help(help)
}

// A name that may be missing.
fn optional<'a>(alloc: Global, id: &'a str, help: &'a str) -> Arg<'a>
    ensures rule { rule_of result ≡ optional_rule id.entry.now }
    ensures local { result.global ≡ false }
{
    Arg::new(alloc, id).action(ArgAction::Set).help(help)
}

// A flag.
fn flag<'a>(alloc: Global, name: &'a str, help: &'a str) -> Arg<'a>
    ensures rule { rule_of result ≡ flag_rule name.entry.now }
    ensures local { result.global ≡ false }
{
    Arg::new(alloc, name)
        .long(name)
        .action(ArgAction::SetTrue)
        .help(help)
}

// The options of a replay, a run or cases, behind the words that there are already.
fn with_options<'a>(alloc: Global, words: Command<'a>) -> Result<Command<'a>, AllocError>
    requires { (fields_of words).has_globals ≡ false }
    ensures app { IfOk result (λ c. app_of c ≡ with_options (app_of words.entry)) }
    ensures local { IfOk result (λ c. (fields_of c).has_globals ≡ false) }
{
    words
        .arg(devices(alloc))?
        .arg(number(
            alloc,
            "cells",
            "How many cells may be present on each device at once",
            "4194304",
            MAX_CAPACITY,
        ))?
        .arg(number(
            alloc,
            "room",
            "How many batches each queue holds that it hasn't taken",
            "64",
            u64::from(MAX_ROOM),
        ))
}

// The words behind `replay`.
fn replay_words<'a>(alloc: Global) -> Result<Command<'a>, AllocError>
    ensures app { IfOk result (λ c. app_of c ≡ replay_app) }
    ensures local { IfOk result (λ c. (fields_of c).has_globals ≡ false) }
{
    let words = Command::new(alloc, "replay")
        .about("Replays a script under a schedule")
        .after_help(help::REPLAY)
        .arg(name(alloc, "SCRIPT", "The file of the script"))?
        .arg(name(alloc, "SCHEDULE", "The file of the schedule"))?;
    with_options(alloc, words)
}

// The words behind `run`.
fn run_words<'a>(alloc: Global) -> Result<Command<'a>, AllocError>
    ensures app { IfOk result (λ c. app_of c ≡ run_app) }
    ensures local { IfOk result (λ c. (fields_of c).has_globals ≡ false) }
{
    let words = Command::new(alloc, "run")
        .about("Runs a script by threads")
        .after_help(help::RUN)
        .arg(name(alloc, "SCRIPT", "The file of the script"))?
        .arg(flag(
            alloc,
            "progress",
            "While it runs, tells on a terminal how many batches each queue has performed",
        ))?;
    with_options(alloc, words)
}

// The words behind `steps`.
fn steps_words<'a>(alloc: Global) -> Result<Command<'a>, AllocError>
    ensures app { IfOk result (λ c. app_of c ≡ steps_app) }
    ensures local { IfOk result (λ c. (fields_of c).has_globals ≡ false) }
{
    let words = Command::new(alloc, "steps")
        .about("Replays a script under a schedule, and tells what each event did")
        .after_help(help::STEPS)
        .arg(name(
            alloc,
            "SCRIPT",
            "The file of the script, or of a script, a line %% and a schedule",
        ))?
        .arg(optional(alloc, "SCHEDULE", "The file of the schedule"))?
        .arg(flag(alloc, "idle", "Tells the events that did nothing too"))?
        .arg(flag(
            alloc,
            "picture",
            "Draws the events that did something, as SVG, in place of lines and report",
        ))?;
    with_options(alloc, words)
}

// The words behind `explore`.
fn explore_words<'a>(alloc: Global) -> Result<Command<'a>, AllocError>
    ensures app { IfOk result (λ c. app_of c ≡ explore_app) }
    ensures local { IfOk result (λ c. (fields_of c).has_globals ≡ false) }
{
    let words = Command::new(alloc, "explore")
        .about("Tells all reports that a script can have, each with a schedule")
        .after_help(help::EXPLORE)
        .arg(name(alloc, "SCRIPT", "The file of the script"))?
        .arg(optional(
            alloc,
            "SCHEDULE",
            "The file of a schedule, behind which the runs go on",
        ))?
        .arg(number(
            alloc,
            "states",
            "How many states are kept at most",
            "1000000",
            u64::from(MAX_STATES),
        ))?
        .arg(flag(alloc, "close", "The owner may close at any point"))?
        .arg(flag(
            alloc,
            "short",
            "Tells each report on one line, without a schedule, and nothing else",
        ))?
        .arg(optional_number(
            alloc,
            "depth",
            "In place of reports tells the schedules of so many events behind which they come",
            u64::from(MAX_DEPTH),
        ))?;
    with_options(alloc, words)
}

// The words behind `check`.
fn check_words<'a>(alloc: Global) -> Result<Command<'a>, AllocError>
    ensures app { IfOk result (λ c. app_of c ≡ check_app) }
    ensures local { IfOk result (λ c. (fields_of c).has_globals ≡ false) }
{
    Command::new(alloc, "check")
        .about("Tells what is wrong with a script or a schedule")
        .after_help(help::CHECK)
        .arg(name(
            alloc,
            "SCRIPT",
            "The file of the script, or of a script, a line %% and a schedule",
        ))?
        .arg(optional(alloc, "SCHEDULE", "The file of the schedule"))?
        .arg(devices(alloc))
}

// The word behind `explain`.
fn explain_words<'a>(alloc: Global) -> Result<Command<'a>, AllocError>
    ensures app { IfOk result (λ c. app_of c ≡ explain_app) }
    ensures local { IfOk result (λ c. (fields_of c).has_globals ≡ false) }
{
    Command::new(alloc, "explain")
        .about("Tells what a fault is, and what to do about it")
        .after_help(help::EXPLAIN)
        .arg(name(
            alloc,
            "WORD",
            "A fault's number or name, or a kind of fault of a text",
        ))
}

// The words behind `test`.
fn test_words<'a>(alloc: Global) -> Result<Command<'a>, AllocError>
    ensures app { IfOk result (λ c. app_of c ≡ test_app) }
    ensures local { IfOk result (λ c. (fields_of c).has_globals ≡ false) }
{
    let words = Command::new(alloc, "test")
        .about("Replays all cases of a folder, and compares what comes with their reports")
        .after_help(help::TEST)
        .arg(name(alloc, "FOLDER", "The folder of the cases"))?
        .arg(flag(
            alloc,
            "bless",
            "Writes what comes of each case into its report",
        ))?;
    with_options(alloc, words)
}

/// The words that there can be.
///
/// # Errors
///
/// Where memory is refused.
pub fn accq_words<'a>(alloc: Global) -> Result<Command<'a>, AllocError>
    ensures { IfOk result (λ c. app_of c ≡ accq_app) }
{
    Command::new(alloc, "accq")
        .version("0.1.0, for OpenACC API 3.0")
        .about(help::ABOUT)
        .override_usage(help::USAGE)
        .after_help(help::PROGRAM)
        .subcommand_required(true)
        .subcommand(replay_words(alloc)?)?
        .subcommand(run_words(alloc)?)?
        .subcommand(steps_words(alloc)?)?
        .subcommand(explore_words(alloc)?)?
        .subcommand(check_words(alloc)?)?
        .subcommand(explain_words(alloc)?)?
        .subcommand(test_words(alloc)?)
}
