//! Folders of the system.

use crate::disk::{DiskFolder, name_of};
use crate::folder::FolderFault;
use crate::run::{Tally, TestFault, test_all};
use acc_driver::Options;
use std::alloc::Global;
use std::fs;
use std::fs::DirEntry;
use std::io::{Error, ErrorKind, Result as IoResult};
use std::os::unix::fs::symlink;
use std::process::Abort;
use std::test::Fail;

/// A folder where the test runs.
const PATH: &str = "folder-of-cases";

// One case of a folder passes, and none fails; and this is told.
fn check_folder(
    rt: &impl Abort,
    alloc: Global,
    folder: &mut DiskFolder,
    bless: bool,
    wanted: &[u8],
) {
    let mut written = Vec::new(alloc);
    let counts = test_all(alloc, folder, Options::DEFAULT, bless, &mut written);
    let tally = Tally {
        passed: 1,
        failed: 0,
    };
    assert_eq!(rt; written.as_slice(), wanted);
    assert_eq!(rt; counts, Ok(tally));
}

#[test]
fn folders_of_the_system_are_read_and_written(rt: HostRuntime) -> Result<(), Fail> {
    // what a run of this test that was cut off may have left
    let _ = fs::remove_dir_all(&rt, PATH);
    fs::create_dir_all(&rt, PATH)?;
    fs::write(
        &rt,
        "folder-of-cases/a.acc",
        "host { print(acc_get_num_devices()); }\n",
    )?;
    fs::write(&rt, "folder-of-cases/a.schedule", "round 9\n")?;
    let mut folder = DiskFolder::new(&rt, PATH)?;
    check_folder(
        &rt,
        rt.alloc(),
        &mut folder,
        true,
        b"changed a\n1 passed, 0 failed\n",
    );
    let report = fs::read_to_string(&rt, "folder-of-cases/a.report")?;
    assert_eq!(&rt; report.as_str(), "host 0\n1\ndone\nend\n");
    check_folder(
        &rt,
        rt.alloc(),
        &mut folder,
        false,
        b"ok a\n1 passed, 0 failed\n",
    );
    fs::remove_dir_all(&rt, PATH)?;
    let mut written = Vec::new(rt.alloc());
    let told = test_all(
        rt.alloc(),
        &mut folder,
        Options::DEFAULT,
        false,
        &mut written,
    );
    assert_eq!(&rt; told, Err(TestFault::Folder));
    Ok(())
}

/// A folder of files that have no end.
const ENDLESS: &str = "folder-of-endless-cases";

#[test]
fn files_without_an_end_are_read_to_their_limit(rt: HostRuntime) -> Result<(), Fail> {
    let _ = fs::remove_dir_all(&rt, ENDLESS);
    fs::create_dir_all(&rt, ENDLESS)?;
    symlink(&rt, "/dev/zero", "folder-of-endless-cases/a.acc")?;
    fs::write(&rt, "folder-of-endless-cases/a.schedule", "")?;
    fs::write(
        &rt,
        "folder-of-endless-cases/a.report",
        "accq: script line 1: Limit\n",
    )?;
    fs::write(&rt, "folder-of-endless-cases/b.acc", "%%\n")?;
    symlink(&rt, "/dev/zero", "folder-of-endless-cases/b.options")?;
    let mut folder = DiskFolder::new(&rt, ENDLESS)?;
    let mut written = Vec::new(rt.alloc());
    let told = test_all(
        rt.alloc(),
        &mut folder,
        Options::DEFAULT,
        false,
        &mut written,
    );
    let wanted: &[u8] = b"ok a\nFAILED b: cannot read b.options\n1 passed, 1 failed\n";
    assert_eq!(&rt; written.as_slice(), wanted);
    assert!(&rt; told.is_ok());
    fs::remove_dir_all(&rt, ENDLESS)?;
    Ok(())
}

fn check_name(
    rt: &impl Abort,
    alloc: Global,
    kind: ErrorKind,
    wanted: Result<Option<String>, FolderFault>,
) {
    let entry: IoResult<DirEntry> = Err(Error::from(kind));
    assert_eq!(rt; name_of(alloc, &entry), wanted);
}

/// A name that isn't UTF-8 doesn't keep a folder from being listed.
#[test]
fn names_that_are_not_utf8_are_passed_over(rt: HostRuntime) -> Result<(), Fail> {
    let alloc = rt.alloc();
    check_name(&rt, alloc, ErrorKind::InvalidFilename, Ok(None));
    check_name(
        &rt,
        alloc,
        ErrorKind::PermissionDenied,
        Err(FolderFault::Unusable),
    );
    Ok(())
}
