//! Folders of the system.

ghost use Rattle.std.specs.Prelude.{None};

use crate::fault::Kind;
use crate::folder::{Folder, FolderFault};
use acc_driver::INPUT_LIMIT;
use std::alloc::{AllocError, Allocator, Global};
use std::fs;
use std::fs::{DirEntry, File, Files};
use std::io::{Error, ErrorKind, Read, Result as IoResult};

/// A folder of the system, by its path. No contract knows what it holds. Of a file that is no report at most `INPUT_LIMIT` bytes
/// are read, by which a text is known to be too long; a line of options that has as many can't be read.
#[derive(Drop)]
pub struct DiskFolder<'a> {
    rt: &'a HostRuntime,
    path: String,
}

impl<'a> DiskFolder<'a> {
    /// The folder of a path, be it there or not.
    ///
    /// # Errors
    ///
    /// `AllocError` for want of memory.
    pub fn new(rt: &'a HostRuntime, path: &str) -> Result<Self, AllocError> {
        Ok(DiskFolder {
            rt,
            path: String::from_str(rt.alloc(), path)?,
        })
    }

    // The path of a file in it.
    fn path_of(&self, name: &str) -> Result<String, FolderFault> {
        match format!(in self.rt.alloc(); "{}/{name}", self.path.as_str()) {
            Ok(path) => Ok(path),
            Err(_) => Err(FolderFault::Memory),
        }
    }
}

// What an error of the system says of a file or a folder.
fn fault_of(error: &Error) -> FolderFault {
    match error.kind() {
        ErrorKind::NotFound => FolderFault::Missing,
        ErrorKind::OutOfMemory => FolderFault::Memory,
        _ => FolderFault::Unusable,
    }
}

/// The name of an entry of a folder; none where it isn't UTF-8, which no case's file is.
///
/// # Errors
///
/// What the error of the system says; `Memory` for want of memory.
pub(crate) fn name_of<R: Files, A: Allocator>(
    alloc: Global,
    entry: &IoResult<DirEntry<R, A>>,
) -> Result<Option<String>, FolderFault> {
    match entry {
        Ok(entry) => match String::from_str(alloc, entry.file_name()) {
            Ok(name) => Ok(Some(name)),
            Err(_) => Err(FolderFault::Memory),
        },
        Err(error) if error.kind() == ErrorKind::InvalidFilename => Ok(None),
        Err(error) => Err(fault_of(error)),
    }
}

// The bytes of a file, up to the limit.
fn read_up_to(alloc: Global, file: File, limit: usize) -> Result<Vec<u8>, FolderFault> {
    let mut bytes = Vec::new(alloc);
    match file.take(limit as u64).read_to_end(&mut bytes) {
        Ok(_) => Ok(bytes),
        Err(error) => Err(fault_of(&error)),
    }
}

impl<'a> Folder for DiskFolder<'a> {
    ghost files = { λ _. None };

    fn names(&self, alloc: Global) -> Result<Vec<String>, FolderFault> {
        let entries = match fs::read_dir(self.rt, self.path.as_str()) {
            Ok(entries) => entries,
            Err(error) => return Err(fault_of(&error)),
        };
        let mut names = Vec::new(alloc);
        for entry in entries {
            if let Some(name) = name_of(alloc, &entry)? {
                let Ok(()) = names.push(name) else {
                    return Err(FolderFault::Memory);
                };
            }
        }
        Ok(names)
    }

    fn read(&self, alloc: Global, name: &str) -> Result<Vec<u8>, FolderFault> {
        let path = self.path_of(name)?;
        let file = match File::open(self.rt, path) {
            Ok(file) => file,
            Err(error) => return Err(fault_of(&error)),
        };
        if name.ends_with(Kind::Report.ending()) {
            return read_up_to(alloc, file, usize::MAX);
        }
        let bytes = read_up_to(alloc, file, INPUT_LIMIT)?;
        if name.ends_with(Kind::Line.ending()) && bytes.len() == INPUT_LIMIT {
            return Err(FolderFault::Unusable);
        }
        Ok(bytes)
    }

    fn write(&mut self, name: &str, bytes: &[u8]) -> Result<(), FolderFault> {
        let path = self.path_of(name)?;
        match fs::write(self.rt, path, bytes) {
            Ok(()) => Ok(()),
            Err(error) => Err(fault_of(&error)),
        }
    }
}
