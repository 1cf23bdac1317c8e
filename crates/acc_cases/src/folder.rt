//! A folder of files.

ghost use Rattle.std.specs.Prelude.{◌≡◌, ℕ, List, Option, OnOk, Some};
ghost use Rattle.acc_cases.specs.Folders.{File, Known, ListsFiles, ReadsFile, with_file};

use std::alloc::Global;

/// Why a file of a folder isn't read or written, or the folder isn't listed.
#[derive(Clone, Copy, Debug, PartialEq, Eq)]
pub enum FolderFault {
    /// There is no file of this name.
    Missing,
    /// It can't be read or written.
    Unusable,
    Memory,
}

/// A folder of files, each with a name of its own.
pub trait Folder {
    /// The files, where they are known.
    ghost files: { Self → Option (List File) };

    /// The names of the files, in any order.
    ///
    /// # Errors
    ///
    /// `Unusable` where the folder can't be listed, and `Memory` for want of memory.
    fn names(&self, alloc: Global) -> Result<Vec<String>, FolderFault>
        ensures { Known (files self.now) (λ fs. ListsFiles fs result) };

    /// The bytes of a file.
    ///
    /// # Errors
    ///
    /// `Missing` where there is none of this name, `Unusable` where it can't be read to its end, and `Memory` for want of memory.
    fn read(&self, alloc: Global, name: &str) -> Result<Vec<u8>, FolderFault>
        ensures { Known (files self.now) (λ fs. ReadsFile fs name.now result) };

    /// Makes a file of these bytes, in the place of the one of this name if there is one.
    ///
    /// # Errors
    ///
    /// `Unusable` where it can't be written, and `Memory` for want of memory. The file may then have any bytes.
    fn write(&mut self, name: &str, bytes: &[u8]) -> Result<(), FolderFault>
        ensures { OnOk result (Known (files self.old) (λ fs.
            files self.new ≡ Some (with_file fs name.now bytes.now))) };
}
