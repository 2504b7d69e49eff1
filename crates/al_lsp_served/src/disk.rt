// What is read of folders.
ghost use Rattle.std.specs.Prelude.{◌≡◌, ℕ, List, IfOk, map};
ghost use Rattle.al_lsp_served.specs.Overlays.{file_of};

use al_base::NoMemory;
use std::alloc::Global;

/// A file of a folder.
pub struct SourceFile {
    pub name: String,
    pub text: Vec<u8>,
}

impl Drop for SourceFile {
    fn drop(self) {
        let SourceFile { name: _, text: _ } = self;
    }
}

/// What is in a folder.
pub struct Contents {
    pub files: Vec<SourceFile>,
    /// What can't be read, in words.
    pub faults: Vec<String>,
}

impl Drop for Contents {
    fn drop(self) {
        let Contents {
            files: _,
            faults: _,
        } = self;
    }
}

impl Contents {
    /// The files, and what can't be read.
    pub fn into_parts(self) -> (Vec<SourceFile>, Vec<String>)
        ensures { result ≡ (self.files, self.faults) }
    {
        let Contents { files, faults } = self;
        (files, faults)
    }
}

/// Folders on a disk.
pub trait Folders {
    /// Which files the disk may have in a folder.
    ghost has: { Self → List ℕ → List (List ℕ × List ℕ) → Type 0 };

    /// The sources in a folder, and not in the folders in it.
    ///
    /// # Errors
    ///
    /// `NoMemory` where memory was wanted and not given; what can't be read is said in the contents.
    fn read(&self, alloc: Global, folder: &str) -> Result<Contents, NoMemory>
        ensures { IfOk result (λ contents. has self.now folder.now (map file_of contents.files.items)) };
}
