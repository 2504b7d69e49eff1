// What is read from folders and files, and written to them.
ghost use Rattle.std.specs.Prelude.{IfOk, OnOk};

use std::alloc::Global;
use std::io;

/// What is at a path.
#[derive(Clone, Copy, Debug, PartialEq, Eq)]
pub enum PathKind {
    File,
    Folder,
    /// A pipe, a socket or a device.
    Other,
}

/// The number of bytes of a file, and when it was last changed, in nanoseconds since 1970.
#[derive(Clone, Copy, Debug, PartialEq, Eq)]
pub struct Stamp {
    pub size: u64,
    pub changed: u64,
}

/// What is at a path after all links; and the stamp, if it is a file and the disk has one.
#[derive(Clone, Copy, Debug, PartialEq, Eq)]
pub struct Status {
    pub kind: PathKind,
    pub stamp: Option<Stamp>,
}

/// The names in a folder.
#[derive(Drop)]
pub struct Listing {
    /// The names that end as those of sources do, in order.
    pub names: Vec<String>,
    /// The names of the folders in it, without links.
    pub others: Vec<String>,
    /// The number of names that aren't UTF-8.
    pub unnamed: u64,
}

impl Listing {
    /// The names of sources, and the number of names that aren't UTF-8.
    pub fn into_names(self) -> (Vec<String>, u64) {
        let Listing {
            names,
            others: _,
            unnamed,
        } = self;
        (names, unnamed)
    }
}

/// A disk, and the clock of its machine. Each function gives the machine's error if it fails.
pub trait Disk {
    ghost use Rattle.std.specs.Prelude.{ℕ, List};

    /// The contents of the file at this path were made these bytes. A disk needn't say more of it.
    ghost holds: { Self → List ℕ → List ℕ → Type 0 } = { λ _ _ _. Unit {0} };

    /// The file at this path gave these bytes, of which it was asked for at most so many. A disk needn't say more of it.
    ghost gives: { Self → List ℕ → ℕ → List ℕ → Type 0 } = { λ _ _ _ _. Unit {0} };

    /// The names in a folder; those of folders only if `others`.
    ///
    /// # Errors
    ///
    /// The machine's error.
    fn list(&self, alloc: Global, folder: &str, others: bool) -> io::Result<Listing>;

    /// What is at a path. No file is opened.
    ///
    /// # Errors
    ///
    /// The machine's error.
    fn status(&self, path: &str) -> io::Result<Status>;

    /// The first bytes of a file, at most `most`.
    ///
    /// # Errors
    ///
    /// The machine's error.
    fn read(&self, alloc: Global, path: &str, most: u64) -> io::Result<Vec<u8>>
        ensures { IfOk result (λ bytes. gives self.now path.now most bytes.items) };

    /// Makes these bytes the contents of a file.
    ///
    /// # Errors
    ///
    /// The machine's error.
    fn write(&mut self, path: &str, bytes: &[u8]) -> io::Result<()>
        ensures { OnOk result (holds self.new path.now bytes.now) };

    /// The present moment, in nanoseconds since 1970.
    ///
    /// # Errors
    ///
    /// The machine's error.
    fn now(&self) -> io::Result<u64>;

    /// The milliseconds that passed since some moment.
    ///
    /// # Errors
    ///
    /// The machine's error.
    fn millis(&self) -> io::Result<u64>;
}
