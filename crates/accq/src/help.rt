//! What `--help` tells, of the program and of each subcommand.

/// What the program is.
pub const ABOUT: &str =
    "accq replays a script of hosts and OpenACC directives under a schedule, or runs it by threads, or\nexplores all that can happen, and reports what it means: what is present with its counters, and\nwhat each queue has performed.";

/// The ways to call the program.
pub const USAGE: &str =
    "accq replay [OPTIONS] <SCRIPT> <SCHEDULE>\n       accq run [OPTIONS] <SCRIPT>\n       accq steps [OPTIONS] <SCRIPT> [SCHEDULE]\n       accq explore [OPTIONS] <SCRIPT> [SCHEDULE]\n       accq check [OPTIONS] <SCRIPT> [SCHEDULE]\n       accq explain <WORD>\n       accq test [OPTIONS] <FOLDER>\n       accq < INPUT\n       accq --help";

/// What stands behind the program's options.
pub const PROGRAM: &str =
    "Example: a script in question.acc, and a schedule `round 20` in question.schedule\n    accq check question.acc question.schedule\n    accq replay question.acc question.schedule\n    accq run question.acc\n    accq steps question.acc question.schedule\n    accq explore question.acc\n    accq explain PartlyPresent\n    accq test examples\n\nWithout words accq replays standard input: a script, a line %%, and a schedule.\n\nStatus: 0; 1 where a host was refused, a case failed or a script has several reports; 2 for a fault\nof the script, the schedule or the words; 3 for a fault of a file, of memory or of the run, and where\nan exploration stopped. docs/GUIDE.md tells how to ask a question and to read the report,\ndocs/LANGUAGE.md all that scripts, schedules and reports can say.";

/// What stands behind the options of `replay`.
pub const REPLAY: &str =
    "A replay does what its schedule says, line by line, and then reports. The same script under the same\nschedule always gives the same report.\n\nExample: a script in question.acc, and a schedule `round 20` in question.schedule\n    accq replay question.acc question.schedule --devices 2";

/// What stands behind the options of `run`.
pub const RUN: &str =
    "A replay does what its schedule says, and so always gives the same report. In a run each host and\neach queue has a thread of its own, and the system decides who is first: what depends on that may\nbe reported in another way each time. A directive that a full queue refuses is tried again, and at\nthe end all that was placed is performed.\n\nWith --progress a terminal shows how far the run has come: `1/noval:3` says that queue noval of\ndevice 1 has performed three batches.\n\nExample: accq run question.acc --devices 2";

/// What stands behind the options of `steps`.
pub const STEPS: &str =
    "A line has the number of the event among all of the schedule, the schedule's line, who went on, of a\nhost the line of its statement, and what that did. Behind the lines stands the report of `replay`.\nWith --idle an event that did nothing has a line too, and of a queue it tells what it waits for.\n\nWith --picture standard output gets an SVG of up to 2,000 events in place of lines and report: a lane\nfor each host and queue, a box for each event with its line as a title, an arrow from what is awaited.\n\nExample: accq steps question.acc question.schedule --picture > question.svg";

/// What stands behind the options of `explore`.
pub const EXPLORE: &str =
    "Hosts and queues go on in every order, from the start or from where the schedule leads, until none\ncan. Each different report is told once, with the shortest schedule that leads there, which `replay`\ntakes; the last line tells whether these are all. A schedule in the file of the script is left aside.\nThe owner doesn't close, unless --close says that it may at any point.\n\nWith --depth the schedules of N events are told, or of fewer where none can go on, behind which all\nreports come: each is a second file for an exploration of its own, on any machine.\n\nStatus: 0 where there is one report and no host was refused in it, 1 for more or where one was, 3\nwhere so many states were kept that there may be more. With --depth it is 0, or 3 where that made\nsome shorter.\n\nExample: accq explore question.acc --states 100000";

/// What stands behind the options of `check`.
pub const CHECK: &str =
    "Nothing is run. Where nothing is wrong, nothing is told, and the status is 0. Else standard output\ntells the place, its line with a mark below it, and what could stand there, and the status is 2.\nThe schedule is checked once the script is one, for its hosts and for as many devices as there are.\nWithout a second file the one file may hold a script, a line %%, and a schedule.\n\nExample: accq check question.acc question.schedule --devices 2";

/// What stands behind the options of `explain`.
pub const EXPLAIN: &str =
    "The words are those by which faults are told: `refused 9 F6 PartlyPresent` in a report has F6 and\nPartlyPresent, and `accq: script line 8: Form` has Form. Capital and small letters are the same. The\ntext is that of docs/GUIDE.md. Of another word all words are told, and the status is 2.\n\nExample: accq explain F6";

/// What stands behind the options of `test`.
pub const TEST: &str =
    "A case has a name. NAME.acc is its script and NAME.schedule its schedule, or both stand in NAME.acc, with\na line %% between them. NAME.options, if it is there, is a line of options. NAME.report is what is wanted:\nthe report, or the line that tells a fault of a text. Each case is told by a line, with the difference\nwhere something else came; the last line has the counts. The status is 1 where a case failed.\n\nWith --bless what came is put into NAME.report, where that has something else or isn't there. The\noptions here are those of each case whose own line of options says nothing else.\n\nExample: accq test examples";
