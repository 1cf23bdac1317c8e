//! Tests of folders of cases.

ghost use Rattle.std.specs.Prelude.{None};

use crate::store::Folders;
use crate::tests::{Shelf, Told, check_case};
use crate::tests_of_streams::check_writers;
use acc_cases::{Folder, FolderFault};
use std::alloc::{AllocError, Global};
use std::test::Fail;

/// A folder in memory, which takes what is written, and keeps nothing of it; or one that isn't there.
#[derive(Drop)]
pub(crate) enum Drawer {
    Files(&'static [(&'static str, &'static [u8])]),
    Missing,
}

impl Folder for Drawer {
    ghost files = { λ _. None };

    fn names(&self, alloc: Global) -> Result<Vec<String>, FolderFault> {
        let Drawer::Files(files) = self else {
            return Err(FolderFault::Missing);
        };
        let mut names = Vec::new(alloc);
        for (name, _) in *files {
            let Ok(name) = String::from_str(alloc, name) else {
                return Err(FolderFault::Memory);
            };
            if names.push(name).is_err() {
                return Err(FolderFault::Memory);
            }
        }
        Ok(names)
    }

    fn read(&self, alloc: Global, name: &str) -> Result<Vec<u8>, FolderFault> {
        let Drawer::Files(files) = self else {
            return Err(FolderFault::Missing);
        };
        for (own, bytes) in *files {
            if *own == name {
                return Vec::from_slice(alloc, bytes).map_err(|_| FolderFault::Memory);
            }
        }
        Err(FolderFault::Missing)
    }

    fn write(&mut self, _name: &str, _bytes: &[u8]) -> Result<(), FolderFault> {
        Ok(())
    }
}

/// How many devices there are.
const DEVICES: &[u8] = b"host { print(acc_get_num_devices()); }\n%%\nround 9\n";

/// A case that passes with one device, and one that says itself that it has two.
const FILES: &[(&str, &[u8])] = &[
    ("one.acc", DEVICES),
    ("one.report", b"host 0\n1\ndone\nend\n"),
    ("two.acc", DEVICES),
    ("two.options", b"--devices 2\n"),
    ("two.report", b"host 0\n2\ndone\nend\n"),
];

impl Folders<Drawer> for Shelf {
    ghost files_in = { λ _ _. None };

    fn folder(&self, name: &str) -> Result<Drawer, AllocError> {
        match name {
            "cases" => Ok(Drawer::Files(FILES)),
            "empty" => Ok(Drawer::Files(&[])),
            _ => Ok(Drawer::Missing),
        }
    }
}

/// What is told where there are three devices, and the first case fails.
const FAILED: &[u8] =
    b"FAILED one\n--- one.report\n+++ one\n@@ -1,4 +1,4 @@\n host 0\n-1\n+3\n done\n end\nok two\n1 passed, 1 failed\n";

const TESTS: &[Told] = &[
    Told {
        words: &["accq", "test", "cases"],
        input: b"",
        status: 0,
        output: b"ok one\nok two\n2 passed, 0 failed\n",
        errors: b"",
    },
    Told {
        words: &["accq", "test", "cases", "--devices", "3"],
        input: b"",
        status: 1,
        output: FAILED,
        errors: b"",
    },
    Told {
        words: &["accq", "test", "--devices=3", "--bless", "cases"],
        input: b"",
        status: 0,
        output: b"changed one\nok two\n2 passed, 0 failed\n",
        errors: b"",
    },
    Told {
        words: &["accq", "test", "empty"],
        input: b"",
        status: 0,
        output: b"0 passed, 0 failed\n",
        errors: b"",
    },
    Told {
        words: &["accq", "test", "missing"],
        input: b"",
        status: 3,
        output: b"",
        errors: b"accq: cannot read missing\n",
    },
];

#[test]
fn folders_have_their_status(rt: HostRuntime) -> Result<(), Fail> {
    for case in TESTS {
        check_case(&rt, rt.alloc(), case);
    }
    Ok(())
}

/// An output that takes nothing, one that ends within a line, and one that can't send on.
#[test]
fn outcomes_that_do_not_go_out_have_status_three(rt: HostRuntime) -> Result<(), Fail> {
    let words: &[&str] = &["accq", "test", "cases"];
    check_writers(&rt, rt.alloc(), words, 9);
    Ok(())
}
