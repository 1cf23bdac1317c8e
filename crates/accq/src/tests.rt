//! Tests over words, files, and readers and writers that fail.

ghost use Rattle.std.specs.Prelude.{None};

use crate::meter::{MAX_SEATS, put_line};
use crate::status::status_of;
use crate::store::Store;
use crate::told::{told, told_no_text};
use acc_base::QUEUES;
use acc_driver::{DriverFault, Monitor, NoMonitor, Reader, Remains, Watcher};
use std::alloc::Global;
use std::io::{Error, ErrorKind, Read, Result, Write};
use std::process::Abort;
use std::sync::Wait;
use std::sync::atomic::{AtomicU64, Ordering};
use std::test::Fail;
use std::thread::Threads;

/// A reader, or a writer, that fails.
#[derive(Drop)]
pub(crate) struct Broken;

impl Read for Broken {
    fn read(&mut self, _buffer: &mut [u8]) -> Result<usize> {
        Err(Error::from(ErrorKind::Other))
    }
}

impl Write for Broken {
    fn write(&mut self, _bytes: &[u8]) -> Result<usize> {
        Err(Error::from(ErrorKind::Other))
    }

    fn flush(&mut self) -> Result<()> {
        Err(Error::from(ErrorKind::Other))
    }
}

/// A writer that takes all bytes, and can't send them on.
#[derive(Drop)]
pub(crate) struct Stuck;

impl Write for Stuck {
    fn write(&mut self, bytes: &[u8]) -> Result<usize> {
        Ok(bytes.len())
    }

    fn flush(&mut self) -> Result<()> {
        Err(Error::from(ErrorKind::Other))
    }
}

/// A writer that takes so many bytes, and then fails.
#[derive(Drop)]
pub(crate) struct Narrow {
    pub(crate) room: usize,
    pub(crate) taken: usize,
}

impl Write for Narrow {
    fn write(&mut self, bytes: &[u8]) -> Result<usize> {
        let left = self.room.saturating_sub(self.taken);
        if left == 0 {
            return Err(Error::from(ErrorKind::Other));
        }
        let count = left.min(bytes.len());
        self.taken = self.taken.saturating_add(count);
        Ok(count)
    }

    fn flush(&mut self) -> Result<()> {
        Ok(())
    }
}

/// No meter.
pub(crate) const NOBODY: Option<&NoMonitor> = None;

/// A meter that counts how often it was told that the run or the exploration is over.
#[derive(Drop)]
struct Ends {
    count: AtomicU64,
}

impl Monitor for Ends {
    fn show(&self, _reader: &mut Reader) {}

    fn end(&self) {
        self.count.fetch_add(1, Ordering::SeqCst);
    }
}

impl Watcher for Ends {
    fn found(&self, _states: u32) {}

    fn end(&self) {
        self.count.fetch_add(1, Ordering::SeqCst);
    }
}

/// A file of bytes, or one that can be opened and not read, as a folder.
#[derive(Drop)]
pub(crate) enum Sheet {
    Bytes(&'static [u8]),
    Unreadable,
}

impl Read for Sheet {
    fn read(&mut self, buffer: &mut [u8]) -> Result<usize> {
        match self {
            Sheet::Bytes(left) => left.read(buffer),
            Sheet::Unreadable => Err(Error::from(ErrorKind::Other)),
        }
    }
}

pub(crate) const SCRIPT: &[u8] =
    b"long a[2];\nhost {\n#pragma acc enter data create(a) async(1)\n#pragma acc update device(a) async(1)\nacc_set_device_num(1);\nprint(acc_get_num_devices());\n}\n";

/// Two hosts write a cell, and one of them prints it.
const WRITERS: &[u8] = b"long a[1];\nhost {\na[0] = 1;\n}\nhost {\na[0] = 2;\nprint(a);\n}\n";

/// A loop doubles an array that is present, and the array is copied out.
const DOUBLED: &[u8] =
    b"long a[4] = {1,2,3,4};\nhost {\n#pragma acc enter data copyin(a)\n#pragma acc parallel loop present(a)\nfor (i = 0; i < 4; i++) a[i] = a[i] * 2;\n#pragma acc exit data copyout(a)\nprint(a);\n}\n";

pub(crate) const SCHEDULE: &[u8] = b"host 0 4\nround 5\n";

/// A script and a schedule.
const BOTH: &[u8] = b"long a[1];\nhost {\n}\n%%\nround 1\n";

/// A script, and a schedule whose second line is no line of schedules.
const WRONG_BELOW: &[u8] = b"long a[1];\nhost {\n}\n%%\nround 1\nrounds 2\n";

/// A few files.
#[derive(Drop)]
pub(crate) struct Shelf;

impl Store<Sheet> for Shelf {
    ghost holds = { λ _ _. None };

    ghost opens = { λ _ _. None };

    fn open(&self, name: &str) -> Option<Sheet> {
        match name {
            "script" => Some(Sheet::Bytes(SCRIPT)),
            "schedule" => Some(Sheet::Bytes(SCHEDULE)),
            "writers" => Some(Sheet::Bytes(WRITERS)),
            "doubled" => Some(Sheet::Bytes(DOUBLED)),
            "faulty" => Some(Sheet::Bytes(b"long a[01];\n")),
            "empty" => Some(Sheet::Bytes(b"")),
            "both" => Some(Sheet::Bytes(BOTH)),
            "wrong_below" => Some(Sheet::Bytes(WRONG_BELOW)),
            "second_host" => Some(Sheet::Bytes(b"round 1\nhost 1\n")),
            "second_device" => Some(Sheet::Bytes(b"take 1 0\n")),
            "one_step" => Some(Sheet::Bytes(b"take 0 sync\n")),
            "first_prefix" => Some(Sheet::Bytes(b"host 0\nhost 1\n")),
            "second_prefix" => Some(Sheet::Bytes(b"host 1\nhost 0\n")),
            "third_prefix" => Some(Sheet::Bytes(b"host 1 2\n")),
            "folder" => Some(Sheet::Unreadable),
            _ => None,
        }
    }
}

/// Words, an input for where there are none, with the status and what is written to the output and to the errors.
#[derive(Clone, Copy)]
pub(crate) struct Told {
    pub(crate) words: &'static [&'static str],
    pub(crate) input: &'static [u8],
    pub(crate) status: u8,
    pub(crate) output: &'static [u8],
    pub(crate) errors: &'static [u8],
}

const INPUTS: &[Told] = &[
    Told {
        words: &["accq"],
        input: b"",
        status: 0,
        output: b"end\n",
        errors: b"",
    },
    Told {
        words: &[],
        input: b"long a[1];\nhost {\nprint(a[1:1]);\n}\n%%\nround 1\n",
        status: 1,
        output: b"host 0\nrefused 3 F4 BadRange\nend\n",
        errors: b"",
    },
    Told {
        words: &["accq"],
        input: b"long a[01];\n%%\nround 0\n",
        status: 2,
        output: b"",
        errors: b"accq: script line 1: Form\n",
    },
    Told {
        words: &["accq"],
        input: b"%%\n\nround 0\n",
        status: 2,
        output: b"",
        errors: b"accq: schedule line 2: Limit\n",
    },
];

pub(crate) const ON_ONE: &[u8] =
    b"host 0\nrefused 5 F2 BadDevice\npresent 0 a[0:2] s 0 d 1\nqueue 0 1 batches 2 operations 2 of 2\nend\n";

const ON_TWO: &[u8] =
    b"host 0\n2\ndone\npresent 0 a[0:2] s 0 d 1\nqueue 0 1 batches 2 operations 2 of 2\nend\n";

const IN_ONE_PLACE: &[u8] =
    b"host 0\nrefused 4 F12 QueueFull\npresent 0 a[0:2] s 0 d 1\nqueue 0 1 batches 1 operations 1 of 1\nend\n";

const IN_ONE_CELL: &[u8] = b"host 0\nrefused 3 F8 DeviceFull\nend\n";

const FILES: &[Told] = &[
    Told {
        words: &["accq", "replay", "script", "schedule"],
        input: b"",
        status: 1,
        output: ON_ONE,
        errors: b"",
    },
    Told {
        words: &["accq", "replay", "script", "schedule", "--devices", "2"],
        input: b"",
        status: 0,
        output: ON_TWO,
        errors: b"",
    },
    Told {
        words: &["accq", "replay", "--room=1", "script", "schedule"],
        input: b"",
        status: 1,
        output: IN_ONE_PLACE,
        errors: b"",
    },
    Told {
        words: &["accq", "replay", "script", "--cells", "01", "schedule"],
        input: b"",
        status: 1,
        output: IN_ONE_CELL,
        errors: b"",
    },
    Told {
        words: &[
            "accq",
            "replay",
            "script",
            "empty",
            "--devices",
            "2",
            "--room=1",
        ],
        input: b"",
        status: 0,
        output: b"host 0\nunfinished\nend\n",
        errors: b"",
    },
    Told {
        words: &["accq", "replay", "empty", "faulty"],
        input: b"",
        status: 2,
        output: b"",
        errors: b"accq: schedule line 1: Form\n",
    },
    Told {
        words: &["accq", "replay", "faulty", "folder"],
        input: b"",
        status: 2,
        output: b"",
        errors: b"accq: script line 1: Form\n",
    },
    // both are opened before one is read
    Told {
        words: &["accq", "replay", "faulty", "missing"],
        input: b"",
        status: 3,
        output: b"",
        errors: b"accq: cannot read\n",
    },
    Told {
        words: &["accq", "replay", "missing", "schedule"],
        input: b"",
        status: 3,
        output: b"",
        errors: b"accq: cannot read\n",
    },
    Told {
        words: &["accq", "replay", "folder", "schedule"],
        input: b"",
        status: 3,
        output: b"",
        errors: b"accq: cannot read\n",
    },
    Told {
        words: &["accq", "replay", "script", "folder"],
        input: b"",
        status: 3,
        output: b"",
        errors: b"accq: cannot read\n",
    },
];

/// Runs, and files that aren't run: one that holds no script, one that isn't there, and one that can't be read. With room for one
/// batch a directive that finds the queue full is tried again.
const RUNS: &[Told] = &[
    Told {
        words: &["accq", "run", "doubled"],
        input: b"",
        status: 0,
        output: b"host 0\n2 4 6 8\ndone\nqueue 0 sync batches 3 operations 5 of 5\nend\n",
        errors: b"",
    },
    Told {
        words: &["accq", "run", "script"],
        input: b"",
        status: 1,
        output: ON_ONE,
        errors: b"",
    },
    Told {
        words: &["accq", "run", "--devices=2", "script", "--room", "1"],
        input: b"",
        status: 0,
        output: ON_TWO,
        errors: b"",
    },
    Told {
        words: &["accq", "run", "script", "--cells", "01"],
        input: b"",
        status: 1,
        output: IN_ONE_CELL,
        errors: b"",
    },
    Told {
        words: &["accq", "run", "empty"],
        input: b"",
        status: 0,
        output: b"end\n",
        errors: b"",
    },
    Told {
        words: &["accq", "run", "faulty"],
        input: b"",
        status: 2,
        output: b"",
        errors: b"accq: script line 1: Form\n",
    },
    Told {
        words: &["accq", "run", "missing"],
        input: b"",
        status: 3,
        output: b"",
        errors: b"accq: cannot read\n",
    },
    Told {
        words: &["accq", "run", "folder"],
        input: b"",
        status: 3,
        output: b"",
        errors: b"accq: cannot read\n",
    },
];

// What the program answers and writes.
pub(crate) fn answered<T: Threads + Wait + Sync>(
    rt: &T,
    alloc: Global,
    case: &Told,
) -> (u8, Vec<u8>, Vec<u8>) {
    let mut input = case.input;
    let mut output = Vec::new(alloc);
    let mut errors = Vec::new(alloc);
    let status = status_of(
        rt,
        alloc,
        case.words,
        &Shelf,
        &mut input,
        &mut output,
        &mut errors,
        NOBODY,
        &mut Remains::nothing(),
    );
    (status, output, errors)
}

// It ended with this status, and wrote this.
pub(crate) fn check_told(rt: &impl Abort, status: u8, written: &[u8], wanted: u8, text: &[u8]) {
    assert_eq!(rt; (status, written), (wanted, text));
}

pub(crate) fn check_case<T: Abort + Threads + Wait + Sync>(rt: &T, alloc: Global, case: &Told) {
    let (status, output, errors) = answered(rt, alloc, case);
    check_told(rt, status, output.as_slice(), case.status, case.output);
    check_told(rt, status, errors.as_slice(), case.status, case.errors);
}

#[test]
fn words_and_inputs_have_their_status(rt: HostRuntime) -> std::result::Result<(), Fail> {
    for cases in [INPUTS, FILES, RUNS] {
        for case in cases {
            check_case(&rt, rt.alloc(), case);
        }
    }
    Ok(())
}

// The text begins so.
pub(crate) fn check_begin(rt: &impl Abort, text: &[u8], begin: &[u8]) {
    assert!(rt; text.starts_with(begin));
}

// A fault that no input of these tests has is told so.
fn check_fault(rt: &impl Abort, alloc: Global, fault: DriverFault, text: &[u8]) {
    let mut errors = Vec::new(alloc);
    let status = told(fault, &mut errors);
    check_told(rt, status, errors.as_slice(), 3, text);
}

#[test]
fn what_never_came_so_far_is_told(rt: HostRuntime) -> std::result::Result<(), Fail> {
    check_fault(
        &rt,
        rt.alloc(),
        DriverFault::Memory,
        b"accq: out of memory\n",
    );
    let mut errors = Vec::new(rt.alloc());
    assert_eq!(rt; told_no_text(&mut errors), 2);
    check_begin(&rt, errors.as_slice(), b"error: invalid UTF-8");
    Ok(())
}

// How often a run with these words tells a meter that it is over.
fn ends_told<T: Abort + Threads + Wait + Sync>(rt: &T, alloc: Global, words: &[&str]) -> u64 {
    let ends = Ends {
        count: AtomicU64::new(0),
    };
    let mut output = Vec::new(alloc);
    let mut errors = Vec::new(alloc);
    let _ = status_of(
        rt,
        alloc,
        words,
        &Shelf,
        &mut Broken,
        &mut output,
        &mut errors,
        Some(&ends),
        &mut Remains::nothing(),
    );
    assert!(rt; errors.is_empty());
    ends.count.load(Ordering::SeqCst)
}

/// A meter is told of a run that is to be told, and of no other; and of an exploration.
#[test]
fn a_run_is_told(rt: HostRuntime) -> std::result::Result<(), Fail> {
    let alloc = rt.alloc();
    assert_eq!(rt;
        ends_told(&rt, alloc, &["accq", "run", "doubled", "--progress"]),
        1
    );
    assert_eq!(rt; ends_told(&rt, alloc, &["accq", "run", "doubled"]), 0);
    assert_eq!(rt; ends_told(&rt, alloc, &["accq", "explore", "doubled"]), 1);
    Ok(())
}

/// A line tells of each queue that has performed a batch.
#[test]
fn a_line_tells_of_queues(rt: HostRuntime) -> std::result::Result<(), Fail> {
    let mut performed = [0u64; MAX_SEATS];
    let mut line = Vec::new(rt.alloc());
    put_line(&mut line, &performed)?;
    assert!(rt; line.as_slice() == b"performed:".as_slice());
    performed[0] = 12;
    performed[2] = 1;
    performed[usize::from(QUEUES) + 1] = 3;
    put_line(&mut line, &performed)?;
    let wanted = b"performed:performed: 0/sync:12 0/0:1 1/noval:3";
    assert!(rt; line.as_slice() == wanted.as_slice());
    Ok(())
}
