//! Files and folders by their names.

ghost use Rattle.std.specs.Prelude.{◌≡◌, ℕ, Bool, List, Option, None, Some, IfOk, IfSome, is_some};
ghost use Rattle.acc_cases.specs.Folders as folders;

use acc_cases::{DiskFolder, Folder};
use std::alloc::AllocError;
use std::fs::File;
use std::io::Read;

/// Where files are opened by their names.
pub trait Store<F: Read> {
    /// The bytes of the file with a name, where they are known.
    ghost holds: { Self → List ℕ → Option (List ℕ) };

    /// Whether the file with a name can be opened, where that is known.
    ghost opens: { Self → List ℕ → Option Bool };

    /// The file with this name, from its first byte on; `None` where it can't be opened.
    fn open(&self, name: &str) -> Option<F>
        ensures bytes { IfSome result (λ file.
            IfSome (holds self.now name.now) (λ bytes. F.remaining file ≡ Some bytes)) }
        ensures opened { IfSome (opens self.now name.now) (λ can. is_some result ≡ can) };
}

/// Where folders are found by their names.
pub trait Folders<D: Folder> {
    /// The files of the folder with a name, where they are known.
    ghost files_in: { Self → List ℕ → Option (List folders.File) };

    /// The folder with this name, be it there or not.
    ///
    /// # Errors
    ///
    /// `AllocError` for want of memory.
    fn folder(&self, name: &str) -> Result<D, AllocError>
        ensures { IfOk result (λ folder.
            IfSome (files_in self.now name.now) (λ fs. D.files folder ≡ Some fs)) };
}

/// The files and the folders of the system. No contract knows what they hold.
#[derive(Drop)]
pub struct Disk<'a> {
    pub rt: &'a HostRuntime,
}

impl<'a> Store<File> for Disk<'a> {
    ghost holds = { λ _ _. None };

    ghost opens = { λ _ _. None };

    fn open(&self, name: &str) -> Option<File> {
        File::open(self.rt, name).ok()
    }
}

impl<'a> Folders<DiskFolder<'a>> for Disk<'a> {
    ghost files_in = { λ _ _. None };

    fn folder(&self, name: &str) -> Result<DiskFolder<'a>, AllocError> {
        DiskFolder::new(self.rt, name)
    }
}
