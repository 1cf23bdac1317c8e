//! The program between its words, its files and its streams, and the status that it ends with.

ghost use Rattle.std.specs.Prelude.{◌≡◌, ◌≤◌, ◌<◌, map, length};
ghost use Rattle.accq.specs.Statuses.{InputReplayed, TellsWords, status_after, status_checked, status_explored, status_shown, status_tested};
ghost use Rattle.accq.specs.Words.{asked_of};

use crate::cases::test_folder;
use crate::checks::check_files;
use crate::command::{Task, task_of};
use crate::explain::explain;
use crate::explorations::explore_files;
use crate::replays::{replay_files, replay_input, run_file};
use crate::steps::show_steps;
use crate::store::{Folders, Store};
use crate::told::{told, told_words};
use acc_cases::{Folder, Tally, TestFault};
use acc_driver::{CheckFault, DriverFault, Ended, Explored, Monitor, Remains, Watcher};
use std::alloc::Global;
use std::convert::AsStr;
use std::io::{Read, Write};
use std::sync::Wait;
use std::thread::Threads;

/// What the program does, for its words behind its own name. Without words it replays the input with the default
/// options; the words `replay SCRIPT SCHEDULE`, with options, replay two files, and `run SCRIPT`, with options, runs the
/// script of a file by threads, and shows the meter, if there is one, how far the run has come, where `--progress` is among
/// them. The report goes to the output, and the answer is 0, or 1 where a host was refused. A
/// fault of a text or of the words is answered by 2, all else by 3, and told to the errors: by one line, or for the words
/// by the parser's own text. What a run left is put into `remains`. The words `steps SCRIPT SCHEDULE` replay two files and show what each
/// event did, before the report or, with `--picture`, in a picture, and are answered so too. The words `explore SCRIPT`, with options, tell all reports that the script can have, or, with a schedule behind the script's name, those
/// that it can have behind that: the answer is 0 where there is one and no host was refused in it, 1 for several or where one was, and 3
/// where so many states were to be kept that there may be more; the meter, if there is one, is shown how many are found. With `--depth N` among
/// them they tell in place of reports the schedules of N events behind which these come, for others to explore on from: the answer is 0, or 3
/// where so many states were to be kept that some are shorter. The words `check SCRIPT SCHEDULE`, or `check` and one
/// name, run nothing: the answer is 0 where nothing is wrong with these files, and 2 where what is wrong is told to the output.
/// With `explain` and a word it is told what the guide says of the fault that the word names; the answer is 2 where it names none.
/// The words `test FOLDER`, with options, test all cases of a folder, and tell the output of each: the answer is 0 where none fails,
/// and else 1; with `--bless` among them what comes of a case is written into its report.
pub fn status_of<
    T: Threads + Wait + Sync,
    F: Read + Drop,
    D: Folder + Drop,
    S: Store<F> + Folders<D>,
    N: AsStr,
    R: Read,
    W: Write,
    E: Write,
    M: Monitor + Watcher + Sync,
>(
    rt: &T,
    alloc: Global,
    words: &[N],
    files: &S,
    input: &mut R,
    output: &mut W,
    errors: &mut E,
    meter: Option<&M>,
    remains: &mut Remains,
) -> u8
    ensures input { length words.now ≤ 1
        → InputReplayed (R.remaining input.old) (W.contents output.old)
        (W.contents output.new) result }
    ensures words { 1 < length words.now
        → TellsWords (asked_of (map N.text words.now)) (S.holds files.now) (S.opens files.now)
        (S.files_in files.now) (W.contents output.old) (W.contents output.new) result }
    ensures unread { 1 < length words.now → input.new ≡ input.old }
    ensures quiet { result < 2 → errors.new ≡ errors.old }
{
    if words.len() <= 1 {
        return status_after(replay_input(alloc, input, output, remains), errors);
    }
    match task_of(alloc, words) {
        Ok(Task::Replay(asked)) => {
            let answer = replay_files(alloc, &asked, files, output, remains);
            status_after(answer, errors)
        }
        Ok(Task::Run(asked)) => {
            let answer = run_file(rt, alloc, &asked, files, output, meter, remains);
            status_after(answer, errors)
        }
        Ok(Task::Steps(asked)) => {
            let answer = show_steps(alloc, &asked, files, output, remains);
            status_shown(answer, errors)
        }
        Ok(Task::Explore(asked)) => {
            let answer = explore_files(alloc, &asked, files, output, &meter);
            status_explored(answer, errors)
        }
        Ok(Task::Check(asked)) => {
            let answer = check_files(alloc, &asked, files, output);
            status_checked(answer, errors)
        }
        Ok(Task::Explain(asked)) => explain(asked.word, output, errors),
        Ok(Task::Test(asked)) => {
            let answer = test_folder(alloc, &asked, files, output);
            status_tested(answer, asked.folder, errors)
        }
        Err(error) => told_words(&error, errors),
    }
}

// The status of an answer, whose fault is told.
fn status_after<E: Write>(answer: Result<Ended, DriverFault>, errors: &mut E) -> u8
    ensures status { result ≡ status_after answer }
    ensures quiet { result < 2 → errors.new ≡ errors.old }
{
    match answer {
        Ok(ended) => u8::from(ended.refused),
        Err(fault) => told(fault, errors),
    }
}

/// The status of steps, whose fault is told.
pub(crate) fn status_shown<E: Write>(
    answer: Result<Option<Ended>, DriverFault>,
    errors: &mut E,
) -> u8
    ensures status { result ≡ status_shown answer }
    ensures quiet { result < 2 → errors.new ≡ errors.old }
{
    match answer {
        Ok(Some(ended)) => status_after(Ok(ended), errors),
        Ok(None) => {
            let _ = errors.write_all(b"accq: too long for a picture\n");
            3
        }
        Err(fault) => told(fault, errors),
    }
}

/// The status of an exploration, whose fault is told.
pub(crate) fn status_explored<E: Write>(answer: Result<Explored, DriverFault>, errors: &mut E) -> u8
    ensures status { result ≡ status_explored answer }
    ensures quiet { result < 2 → errors.new ≡ errors.old }
{
    match answer {
        Ok(Explored::Reports(counts)) if !counts.whole => 3,
        Ok(Explored::Reports(counts)) => u8::from(counts.refused || counts.reports != 1),
        Ok(Explored::Prefixes(count)) if !count.whole => 3,
        Ok(Explored::Prefixes(_)) => 0,
        Err(fault) => told(fault, errors),
    }
}

// The status of a check, whose fault is told.
fn status_checked<E: Write>(answer: Result<bool, CheckFault>, errors: &mut E) -> u8
    ensures status { result ≡ status_checked answer.entry }
    ensures quiet { result < 2 → errors.new ≡ errors.old }
{
    match answer {
        Ok(true) => 0,
        Ok(false) => 2,
        Err(fault) => {
            let _ = writeln!(errors, "accq: {fault}");
            3
        }
    }
}

// The status of a test of a folder, whose fault is told.
fn status_tested<E: Write>(answer: Result<Tally, TestFault>, folder: &str, errors: &mut E) -> u8
    ensures status { result ≡ status_tested answer }
    ensures quiet { result < 2 → errors.new ≡ errors.old }
{
    match answer {
        Ok(tally) => u8::from(tally.failed > 0),
        Err(TestFault::Folder) => {
            let _ = writeln!(errors, "accq: cannot read {folder}");
            3
        }
        Err(fault) => {
            let _ = writeln!(errors, "accq: {fault}");
            3
        }
    }
}
