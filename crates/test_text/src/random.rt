//! Random loops: threads leave what a schedule leaves.

use crate::answers::{ENDED, check_answer};
use crate::threads::check_run;
use acc_driver::{OpenGate, Options, Remains, replay_one};
use std::alloc::{AllocError, Global};
use std::process::Abort;
use std::test::Fail;

/// Numbers that look random, each made from the one before.
#[derive(Drop)]
struct Dice {
    state: u64,
}

impl Dice {
    // The next number, of 31 bits.
    fn roll(&mut self) -> u64 {
        self.state = self
            .state
            .wrapping_mul(6_364_136_223_846_793_005)
            .wrapping_add(1_442_695_040_888_963_407);
        self.state >> 33
    }
}

/// Hosts of a script, of which two share a device: one that leaves its arrays to the loops, and one that has entered them.
const HOSTS: u32 = 4;

fn has_entered(host: u32) -> bool {
    HOSTS / 2 <= host
}

/// How often a host has a loop on each of its pairs of arrays.
const ROUNDS: u32 = 5;

/// Pairs of arrays of a host, x and y with its number and that of the pair. Its array r is only read by loops.
const PAIRS: u32 = 5;

const OPTIONS: Options = Options {
    devices: 2,
    ..Options::DEFAULT
};

/// A pair of arrays of a host.
#[derive(Clone, Copy)]
struct Pair {
    host: u32,
    number: u32,
}

// A part of an expression: a number, the index, a cell near it of r, or the cell there of x or y.
fn part(alloc: Global, dice: &mut Dice, pair: Pair) -> Result<String, AllocError> {
    let Pair { host, number } = pair;
    let near = dice.roll() % 3;
    let any = dice.roll();
    match dice.roll() % 7 {
        0 => format!(in alloc; "{near}"),
        1 => format!(in alloc; "{any}"),
        2 => format!(in alloc; "i"),
        3 => format!(in alloc; "r{host}[i + {near}]"),
        4 => format!(in alloc; "r{host}[i - {near}]"),
        5 => format!(in alloc; "x{host}{number}[i]"),
        _ => format!(in alloc; "-y{host}{number}[i]"),
    }
}

fn operator(dice: &mut Dice) -> &'static str {
    match dice.roll() % 12 {
        0 | 1 => "+",
        2 | 3 => "-",
        4 | 5 => "*",
        6 => "<",
        7 => "<=",
        8 => ">",
        9 => ">=",
        10 => "==",
        _ => "!=",
    }
}

// One to four parts, with parentheses or without; at times a choice by what they give.
fn expression(alloc: Global, dice: &mut Dice, pair: Pair) -> Result<String, AllocError> {
    let mut text = part(alloc, dice, pair)?;
    for _ in 0..dice.roll() % 4 {
        let next = part(alloc, dice, pair)?;
        let operator = operator(dice);
        text = match dice.roll() % 3 {
            0 => format!(in alloc; "({text}) {operator} {next}")?,
            1 => format!(in alloc; "{next} {operator} ({text})")?,
            _ => format!(in alloc; "{text} {operator} {next}")?,
        };
    }
    if dice.roll() % 4 == 0 {
        let first = part(alloc, dice, pair)?;
        let second = part(alloc, dice, pair)?;
        text = format!(in alloc; "{text} ? {first} : {second}")?;
    }
    Ok(text)
}

// The async clause of a loop, if it has one.
fn queue(alloc: Global, dice: &mut Dice) -> Result<String, AllocError> {
    let value = dice.roll() % 6;
    match dice.roll() % 8 {
        0 => Ok(String::new(alloc)),
        1 => format!(in alloc; " async"),
        _ => format!(in alloc; " async({value})"),
    }
}

// Puts a text behind another one.
fn put(text: &mut String, more: String) -> Result<(), AllocError> {
    text.push_str(more.as_str())
}

// A loop that assigns both arrays of a pair, from none to 27 of their cells.
fn put_loop(
    alloc: Global,
    dice: &mut Dice,
    pair: Pair,
    text: &mut String,
) -> Result<(), AllocError> {
    let Pair { host, number } = pair;
    let queue = queue(alloc, dice)?;
    let lo = (dice.roll() % 10).wrapping_add(2);
    let hi = lo.wrapping_add(dice.roll() % 28);
    let first = expression(alloc, dice, pair)?;
    let second = expression(alloc, dice, pair)?;
    let lines = format!(in alloc;
        "#pragma acc parallel loop{queue}\nfor (i = {lo}; i < {hi}; i++) {{ x{host}{number}[i] = {first}; y{host}{number}[i] = {second}; }}\n"
    )?;
    put(text, lines)
}

// All arrays of a host, as a list.
fn arrays_of(alloc: Global, host: u32) -> Result<String, AllocError> {
    let mut names = format!(in alloc; "r{host}")?;
    for number in 0..PAIRS {
        let pair = format!(in alloc; ",x{host}{number},y{host}{number}")?;
        put(&mut names, pair)?;
    }
    Ok(names)
}

// A directive with all arrays of a host, where it has entered them.
fn put_entered(alloc: Global, host: u32, words: &str, text: &mut String) -> Result<(), AllocError> {
    if has_entered(host) {
        let names = arrays_of(alloc, host)?;
        put(text, format!(in alloc; "#pragma acc {words}({names})\n")?)?;
    }
    Ok(())
}

// A loop on each pair. When all are performed the arrays are printed, and a cell of r changes.
fn put_round(
    alloc: Global,
    dice: &mut Dice,
    host: u32,
    text: &mut String,
) -> Result<(), AllocError> {
    for number in 0..PAIRS {
        put_loop(alloc, dice, Pair { host, number }, text)?;
    }
    text.push_str("#pragma acc wait\n")?;
    put_entered(alloc, host, "update self", text)?;
    for number in 0..PAIRS {
        let prints = format!(in alloc; "print(x{host}{number});\nprint(y{host}{number});\n")?;
        put(text, prints)?;
    }
    let (cell, value) = (dice.roll() % 40, dice.roll());
    put(text, format!(in alloc; "r{host}[{cell}] = {value};\n")?)?;
    put_entered(alloc, host, "update device", text)
}

// A host with its rounds.
fn put_host(
    alloc: Global,
    dice: &mut Dice,
    host: u32,
    text: &mut String,
) -> Result<(), AllocError> {
    let device = host % 2;
    let first = format!(in alloc; "host {{\nacc_set_device_num({device});\n")?;
    put(text, first)?;
    put_entered(alloc, host, "enter data copyin", text)?;
    for _ in 0..ROUNDS {
        put_round(alloc, dice, host, text)?;
    }
    put_entered(alloc, host, "exit data delete", text)?;
    text.push_str("}\n")
}

// The arrays of a host, forty cells each, of which those of r have values.
fn put_arrays(
    alloc: Global,
    dice: &mut Dice,
    host: u32,
    text: &mut String,
) -> Result<(), AllocError> {
    put(text, format!(in alloc; "long r{host}[40] = {{0")?)?;
    for _ in 1..40u32 {
        let sign = if dice.roll() % 2 == 0 { "-" } else { "" };
        let value = dice.roll().wrapping_mul(dice.roll());
        put(text, format!(in alloc; ",{sign}{value}")?)?;
    }
    text.push_str("};\n")?;
    for number in 0..PAIRS {
        let pair = format!(in alloc; "long x{host}{number}[40];\nlong y{host}{number}[40];\n")?;
        put(text, pair)?;
    }
    Ok(())
}

// A script of a hundred loops.
fn script_of(alloc: Global, seed: u64) -> Result<String, AllocError> {
    let mut dice = Dice { state: seed };
    let mut text = String::new(alloc);
    for host in 0..HOSTS {
        put_arrays(alloc, &mut dice, host, &mut text)?;
    }
    for host in 0..HOSTS {
        put_host(alloc, &mut dice, host, &mut text)?;
    }
    Ok(text)
}

// What a replay writes under a schedule that performs all.
fn replayed(rt: &impl Abort, alloc: Global, script: &str) -> Result<Vec<u8>, AllocError> {
    let input = format!(in alloc; "{script}%%\nround 1000\n")?;
    let mut reader = input.as_bytes();
    let mut written = Vec::new(alloc);
    let answer = replay_one(
        alloc,
        &mut reader,
        OPTIONS,
        &mut written,
        &mut Remains::nothing(),
    );
    check_answer(rt, answer, ENDED);
    Ok(written)
}

/// Two thousand loops of four hosts at a time.
#[test]
fn random_loops_leave_what_a_schedule_leaves(rt: HostRuntime) -> Result<(), Fail> {
    for seed in 0..20u64 {
        let script = script_of(rt.alloc(), seed)?;
        let report = replayed(&rt, rt.alloc(), script.as_str())?;
        check_run(
            &rt,
            rt.alloc(),
            script.as_bytes(),
            OPTIONS,
            &OpenGate,
            ENDED,
            report.as_slice(),
        );
    }
    Ok(())
}
