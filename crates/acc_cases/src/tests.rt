//! Lines of options, differences, and folders of cases, each with what is told of them.

use crate::difference::{Mark, difference_of};
use crate::folder::{Folder, FolderFault};
use crate::hunks::put_hunks;
use crate::options::{OptionsFault, options_of};
use crate::run::{Tally, TestFault, test_all};
use acc_driver::Options;
use std::alloc::Global;
use std::io::{self, Write};
use std::process::Abort;
use std::test::Fail;

// A folder in memory: its files, and the name of one that can't be read or written.
#[derive(Drop)]
struct Shelf<'a> {
    alloc: Global,
    files: Vec<(String, Vec<u8>)>,
    broken: &'a str,
}

impl<'a> Folder for Shelf<'a> {
    ghost use Rattle.std.specs.Prelude.{None};

    ghost files = { λ _. None };

    fn names(&self, alloc: Global) -> Result<Vec<String>, FolderFault> {
        if self.broken == "." {
            return Err(FolderFault::Unusable);
        }
        let mut names = Vec::new(alloc);
        for (name, _) in &self.files {
            let Ok(name) = String::from_str(alloc, name.as_str()) else {
                return Err(FolderFault::Memory);
            };
            if names.push(name).is_err() {
                return Err(FolderFault::Memory);
            }
        }
        Ok(names)
    }

    fn read(&self, alloc: Global, name: &str) -> Result<Vec<u8>, FolderFault> {
        if name == self.broken {
            return Err(FolderFault::Unusable);
        }
        for (own, bytes) in &self.files {
            if own.as_str() == name {
                return Vec::from_slice(alloc, bytes.as_slice()).map_err(|_| FolderFault::Memory);
            }
        }
        Err(FolderFault::Missing)
    }

    fn write(&mut self, name: &str, bytes: &[u8]) -> Result<(), FolderFault> {
        if name == self.broken {
            return Err(FolderFault::Unusable);
        }
        let Ok(written) = Vec::from_slice(self.alloc, bytes) else {
            return Err(FolderFault::Memory);
        };
        self.files.retain(|(own, _)| own.as_str() != name);
        let Ok(own) = String::from_str(self.alloc, name) else {
            return Err(FolderFault::Memory);
        };
        self.files
            .push((own, written))
            .map_err(|_| FolderFault::Memory)
    }
}

// A folder with these files.
fn make_shelf<'a>(
    alloc: Global,
    files: &[(&str, &[u8])],
    broken: &'a str,
) -> io::Result<Shelf<'a>> {
    let mut shelf = Shelf {
        alloc,
        files: Vec::new(alloc),
        broken,
    };
    for (name, bytes) in files {
        shelf.files.push((
            String::from_str(alloc, name)?,
            Vec::from_slice(alloc, bytes)?,
        ))?;
    }
    Ok(shelf)
}

/// A script that prints what its array has.
const SCRIPT: &[u8] = b"long a[2] = {1, 2};\nhost { print(a); }\n";

/// The same, with a schedule behind it.
const WHOLE: &[u8] = b"long a[2] = {1, 2};\nhost { print(a); }\n%%\nround 9\n";

/// Its report.
const REPORT: &[u8] = b"host 0\n1 2\ndone\nend\n";

/// How many devices there are.
const DEVICES: &[u8] = b"host { print(acc_get_num_devices()); }\n%%\nround 9\n";

/// Files of cases, not in their order.
const FILES: &[(&str, &[u8])] = &[
    ("two.acc", WHOLE),
    ("two.schedule", b"round 9\n"),
    ("two.report", REPORT),
    ("README.md", b"# Cases\n"),
    ("a.acc", WHOLE),
    ("a.report", REPORT),
    ("a-b.acc", SCRIPT),
    ("a-b.schedule", b"round 9\n"),
    ("a-b.report", REPORT),
    ("devices.acc", DEVICES),
    ("devices.options", b"--room 4 --devices 2\n"),
    ("devices.report", b"host 0\n2\ndone\nend\n"),
    ("differs.acc", WHOLE),
    ("differs.report", b"host 0\n1 3\ndone\nend"),
    ("lost.schedule", b"round 9\n"),
    ("lost.report", REPORT),
    ("mistake.acc", b"int a[2];\n%%\nround 9\n"),
    ("mistake.report", b"accq: script line 1: Form\n"),
    ("new.acc", WHOLE),
    ("options.acc", WHOLE),
    ("options.options", b"--hosts 2"),
    ("options.report", REPORT),
    ("alone.acc", SCRIPT),
    ("alone.report", REPORT),
    ("shut.acc", WHOLE),
    ("shut.report", REPORT),
];

/// What is told of them, where `shut.report` can't be read.
const TOLD: &[u8] =
    b"ok a\nok a-b\nFAILED alone: cannot read alone.schedule\nok devices\nFAILED differs\n--- differs.report\n+++ differs\n@@ -1,4 +1,4 @@\n host 0\n-1 3\n+1 2\n done\n-end\n\\ No newline at end of file\n+end\nFAILED lost: cannot read lost.acc\nok mistake\nFAILED new: cannot read new.report\nFAILED options: options.options: --hosts cannot stand there\nFAILED shut: cannot read shut.report\nFAILED two: a schedule in two.acc, and one in two.schedule\n4 passed, 7 failed\n";

/// What is told of them where what comes is written.
const CHANGED: &[u8] =
    b"ok a\nok a-b\nFAILED alone: cannot read alone.schedule\nok devices\nchanged differs\nFAILED lost: cannot read lost.acc\nok mistake\nchanged new\nFAILED options: options.options: --hosts cannot stand there\nFAILED shut: cannot read shut.report\nFAILED two: a schedule in two.acc, and one in two.schedule\n6 passed, 5 failed\n";

// A folder's cases are told so.
fn check_told(
    rt: &impl Abort,
    alloc: Global,
    folder: &mut Shelf,
    common: Options,
    bless: bool,
    wanted: &[u8],
    tally: Tally,
) {
    let mut written = Vec::new(alloc);
    let counts = test_all(alloc, folder, common, bless, &mut written);
    assert_eq!(rt; written.as_slice(), wanted);
    assert_eq!(rt; counts, Ok(tally));
}

#[test]
fn each_case_is_told(rt: HostRuntime) -> Result<(), Fail> {
    let mut folder = make_shelf(rt.alloc(), FILES, "shut.report")?;
    let tally = Tally {
        passed: 4,
        failed: 7,
    };
    check_told(
        &rt,
        rt.alloc(),
        &mut folder,
        Options::DEFAULT,
        false,
        TOLD,
        tally,
    );
    assert_eq!(&rt; folder.files.len(), FILES.len());
    Ok(())
}

#[test]
fn reports_are_written_anew(rt: HostRuntime) -> Result<(), Fail> {
    let mut folder = make_shelf(rt.alloc(), FILES, "shut.report")?;
    let tally = Tally {
        passed: 6,
        failed: 5,
    };
    check_told(
        &rt,
        rt.alloc(),
        &mut folder,
        Options::DEFAULT,
        true,
        CHANGED,
        tally,
    );
    for name in ["differs.report", "new.report"] {
        let written = folder
            .read(rt.alloc(), name)
            .unwrap_or(Vec::new(rt.alloc()));
        assert_eq!(&rt; written.as_slice(), REPORT, "{name}");
    }
    assert_eq!(&rt; folder.files.len(), FILES.len() + 1);
    Ok(())
}

/// Files of two cases that ask how many devices there are: one says it itself.
const COUNTED: &[(&str, &[u8])] = &[
    ("own.acc", DEVICES),
    ("own.options", b"--devices 2"),
    ("own.report", b"host 0\n2\ndone\nend\n"),
    ("room.acc", DEVICES),
    ("room.options", b"--room 4"),
    ("room.report", b"host 0\n3\ndone\nend\n"),
    ("silent.acc", DEVICES),
    ("silent.report", b"host 0\n3\ndone\nend\n"),
];

#[test]
fn options_of_a_case_go_before_common_ones(rt: HostRuntime) -> Result<(), Fail> {
    let mut folder = make_shelf(rt.alloc(), COUNTED, "")?;
    let Options { cells, room, .. } = Options::DEFAULT;
    let common = Options {
        devices: 3,
        cells,
        room,
    };
    let tally = Tally {
        passed: 3,
        failed: 0,
    };
    let wanted = b"ok own\nok room\nok silent\n3 passed, 0 failed\n";
    check_told(&rt, rt.alloc(), &mut folder, common, false, wanted, tally);
    Ok(())
}

#[test]
fn a_folder_that_is_not_listed_is_told(rt: HostRuntime) -> Result<(), Fail> {
    let mut folder = make_shelf(rt.alloc(), FILES, ".")?;
    let mut written = Vec::new(rt.alloc());
    let told = test_all(
        rt.alloc(),
        &mut folder,
        Options::DEFAULT,
        false,
        &mut written,
    );
    assert_eq!(&rt; told, Err(TestFault::Folder));
    assert_eq!(&rt; written.len(), 0);
    Ok(())
}

#[test]
fn a_full_writer_ends_it(rt: HostRuntime) -> Result<(), Fail> {
    let mut folder = make_shelf(rt.alloc(), FILES, "")?;
    let mut room = [0u8; 8];
    let mut writer = room.as_mut_slice();
    let told = test_all(
        rt.alloc(),
        &mut folder,
        Options::DEFAULT,
        false,
        &mut writer,
    );
    assert_eq!(&rt; told, Err(TestFault::Output));
    Ok(())
}

/// Lines of options, each with the word that can't stand there, or with what it says.
const LINES: &[(&[u8], Result<Options, &[u8]>)] = &[
    (b"", Ok(Options::DEFAULT)),
    (b" \t\r\n", Ok(Options::DEFAULT)),
    (
        b"--devices 4 --cells 4294967296 --room 1024",
        Ok(Options {
            devices: 4,
            cells: 4_294_967_296,
            room: 1024,
        }),
    ),
    (
        b"  --room\t01 --devices 1\n",
        Ok(Options {
            devices: 1,
            cells: 4_194_304,
            room: 1,
        }),
    ),
    (b"--devices 0", Err(b"--devices")),
    (b"--room 2 --devices 5", Err(b"--devices")),
    (b"--cells 4294967297", Err(b"--cells")),
    (b"--cells 99999999999999999999", Err(b"--cells")),
    (b"--room 1025", Err(b"--room")),
    (b"--room +3", Err(b"--room")),
    (b"--room", Err(b"--room")),
    (b"--devices 2 --devices 2", Err(b"--devices")),
    (b"2 --devices 2", Err(b"2")),
    (b"--devices=2", Err(b"--devices=2")),
    (b"\xFF 2", Err(b"\xFF")),
    (b"--room \xFF", Err(b"--room")),
];

#[test]
fn lines_of_options_are_read(rt: HostRuntime) -> Result<(), Fail> {
    for (line, wanted) in LINES {
        let said = match options_of(rt.alloc(), line, Options::DEFAULT) {
            Ok(options) => Ok(options),
            Err(OptionsFault::Word(word)) => Err(word),
            Err(OptionsFault::Memory) => Err(b"".as_slice()),
        };
        assert_eq!(&rt; said, *wanted);
    }
    Ok(())
}

/// Two texts, and their difference in hunks.
const HUNKS: &[(&[u8], &[u8], &[u8])] = &[
    (b"a\n", b"a\n", b""),
    (b"", b"a\n", b"@@ -0,0 +1 @@\n+a\n"),
    (b"a\n", b"", b"@@ -1 +0,0 @@\n-a\n"),
    (
        b"a",
        b"a\n",
        b"@@ -1 +1 @@\n-a\n\\ No newline at end of file\n+a\n",
    ),
    (
        b"a\nb",
        b"x\nb",
        b"@@ -1,2 +1,2 @@\n-a\n+x\n b\n\\ No newline at end of file\n",
    ),
    (
        b"a\nb\nc\nd\ne\nf\ng\nh\ni\n",
        b"a\nb\nc\nd\nx\nf\ng\nh\ni\n",
        b"@@ -2,7 +2,7 @@\n b\n c\n d\n-e\n+x\n f\n g\n h\n",
    ),
    (
        b"a\nb\nc\nd\ne\nf\ng\nh\n",
        b"a\nb\nc\nd\ne\nx\nf\ng\nh\n",
        b"@@ -3,6 +3,7 @@\n c\n d\n e\n+x\n f\n g\n h\n",
    ),
    // six lines between two changes, and seven
    (
        b"a\nb\nc\nd\ne\nf\ng\nh\ni\nj\n",
        b"a\nx\nc\nd\ne\nf\ng\nh\ny\nj\n",
        b"@@ -1,10 +1,10 @@\n a\n-b\n+x\n c\n d\n e\n f\n g\n h\n-i\n+y\n j\n",
    ),
    (
        b"a\nb\nc\nd\ne\nf\ng\nh\ni\nj\nk\n",
        b"a\nx\nc\nd\ne\nf\ng\nh\ni\ny\nk\n",
        b"@@ -1,5 +1,5 @@\n a\n-b\n+x\n c\n d\n e\n@@ -7,5 +7,5 @@\n g\n h\n i\n-j\n+y\n k\n",
    ),
    // as many lines as can be are of both
    (
        b"a\nb\nc\nd\n",
        b"b\nd\nx\n",
        b"@@ -1,4 +1,3 @@\n-a\n b\n-c\n d\n+x\n",
    ),
    (
        b"a\nb\nc\na\nb\nb\na\n",
        b"c\nb\na\nb\na\nc\n",
        b"@@ -1,7 +1,6 @@\n-a\n-b\n c\n-a\n b\n+a\n b\n a\n+c\n",
    ),
];

// The difference of two texts in hunks, behind their names.
fn hunks_of(alloc: Global, wanted: &[u8], came: &[u8]) -> io::Result<Vec<u8>> {
    let lines = difference_of(alloc, wanted, came)?;
    let mut written = Vec::new(alloc);
    put_hunks("n", lines.as_slice(), &mut written)?;
    Ok(written)
}

#[test]
fn differences_are_laid_out_in_hunks(rt: HostRuntime) -> Result<(), Fail> {
    for (wanted, came, hunks) in HUNKS {
        let written = hunks_of(rt.alloc(), wanted, came)?;
        let mut told = Vec::from_slice(rt.alloc(), b"--- n.report\n+++ n\n")?;
        told.extend_from_slice(hunks)?;
        assert_eq!(&rt; written.as_slice(), told.as_slice());
    }
    Ok(())
}

// A text of so many lines, each with its number and what is behind it.
fn numbered(alloc: Global, count: u32, behind: &str) -> io::Result<Vec<u8>> {
    let mut text = Vec::new(alloc);
    writeln!(&mut text, "first")?;
    for number in 0..count {
        writeln!(&mut text, "{number}{behind}")?;
    }
    writeln!(&mut text, "last")?;
    Ok(text)
}

#[test]
fn where_much_differs_all_of_it_is_replaced(rt: HostRuntime) -> Result<(), Fail> {
    let wanted = numbered(rt.alloc(), 20_000, "")?;
    let came = numbered(rt.alloc(), 20_000, "x")?;
    let lines = difference_of(rt.alloc(), wanted.as_slice(), came.as_slice())?;
    assert_eq!(&rt; lines.len(), 40_002);
    for (at, mark) in [
        (0, Mark::Both),
        (1, Mark::Wanted),
        (20_000, Mark::Wanted),
        (20_001, Mark::Came),
        (40_000, Mark::Came),
        (40_001, Mark::Both),
    ] {
        assert!(&rt;
            lines.get(at).map_or(false, |line| line.mark == mark),
            "at {at}"
        );
    }
    Ok(())
}
