// The disk of the machine.
use al_folder::has_source_ending;
use al_folder_served::{Disk, LineSource, Listing, PathKind, Stamp, Status};
use std::alloc::Global;
use std::fs::{DirEntry, Metadata, ReadDir};
use std::io;
use std::io::{BufRead, Read};
use std::rt::{Clock, Files};
use std::time::{Instant, SystemTime, UNIX_EPOCH};

/// The disk of the machine, and its clock.
pub struct Host<'a, R> {
    rt: &'a R,
    start: Instant,
}

impl<R> Drop for Host<'_, R> {
    fn drop(self) {
        let Host { rt: _, start: _ } = self;
    }
}

impl<'a, R: Clock> Host<'a, R> {
    /// The disk of a machine.
    ///
    /// # Errors
    ///
    /// The machine's error if its clock can't be read.
    pub fn new(rt: &'a R) -> io::Result<Host<'a, R>> {
        let start = Instant::now(rt)?;
        Ok(Host { rt, start })
    }
}

impl<R: Files + Clock + AllocGlobal + Clone + Drop> Disk for Host<'_, R> {
    fn list(&self, alloc: Global, folder: &str, others: bool) -> io::Result<Listing> {
        let mut listing = Listing {
            names: Vec::new(alloc),
            others: Vec::new(alloc),
            unnamed: 0,
        };
        let entries: ReadDir<R> = std::fs::read_dir(self.rt, folder)?;
        for entry in entries {
            match entry {
                Ok(entry) => add_name(alloc, &mut listing, &entry, others)?,
                Err(e) if e.kind() == io::ErrorKind::InvalidFilename => {
                    listing.unnamed = listing.unnamed.saturating_add(1);
                }
                Err(e) => return Err(e),
            }
        }
        listing.names.sort()?;
        listing.others.sort()?;
        Ok(listing)
    }

    fn status(&self, path: &str) -> io::Result<Status> {
        let told = std::fs::metadata(self.rt, path)?;
        Ok(Status {
            kind: kind_of(&told),
            stamp: stamp_of(&told),
        })
    }

    fn read(&self, alloc: Global, path: &str, most: u64) -> io::Result<Vec<u8>> {
        let file = std::fs::open(self.rt, path)?;
        let mut bytes = Vec::new(alloc);
        file.take(most).read_to_end(&mut bytes)?;
        Ok(bytes)
    }

    fn write(&mut self, path: &str, bytes: &[u8]) -> io::Result<()> {
        std::fs::write(self.rt, path, bytes)
    }

    fn now(&self) -> io::Result<u64> {
        Ok(since_1970(SystemTime::now(self.rt)?))
    }

    fn millis(&self) -> io::Result<u64> {
        let passed = self.start.elapsed(self.rt)?;
        let millis = passed.as_secs().saturating_mul(1000);
        Ok(millis.saturating_add(u64::from(passed.subsec_millis())))
    }
}

// Adds the name of an entry of a folder.
fn add_name<R: Files + Clone + Drop>(
    alloc: Global,
    listing: &mut Listing,
    entry: &DirEntry<R>,
    others: bool,
) -> io::Result<()> {
    let name = entry.file_name();
    if has_source_ending(name.as_bytes()) {
        listing.names.push(String::from_str(alloc, name)?)?;
    } else if others && entry.file_type()?.is_dir() {
        listing.others.push(String::from_str(alloc, name)?)?;
    }
    Ok(())
}

// What there is, by what the machine says.
fn kind_of(told: &Metadata) -> PathKind {
    if told.is_file() {
        PathKind::File
    } else if told.is_dir() {
        PathKind::Folder
    } else {
        PathKind::Other
    }
}

// The stamp of a file, if the machine has one.
fn stamp_of(told: &Metadata) -> Option<Stamp> {
    match told.modified() {
        Ok(changed) => Some(Stamp {
            size: told.len(),
            changed: since_1970(changed),
        }),
        Err(_) => None,
    }
}

// The nanoseconds since 1970 at a time.
fn since_1970(time: SystemTime) -> u64 {
    match time.duration_since(UNIX_EPOCH) {
        Ok(passed) => passed
            .as_secs()
            .saturating_mul(1_000_000_000)
            .saturating_add(u64::from(passed.subsec_nanos())),
        Err(_) => 0,
    }
}

/// The lines that a reader reads.
pub struct Lines<B> {
    reader: B,
}

impl<B: Drop> Drop for Lines<B> {
    fn drop(self) {
        let Lines { reader: _ } = self;
    }
}

impl<B> Lines<B> {
    /// The lines that this reader reads.
    pub fn new(reader: B) -> Lines<B> {
        Lines { reader }
    }
}

impl<B: BufRead> LineSource for Lines<B> {
    fn next_line(&mut self, alloc: Global) -> io::Result<Option<Vec<u8>>> {
        let mut line = Vec::new(alloc);
        let count = self.reader.read_until(b'\n', &mut line)?;
        if count == 0 {
            return Ok(None);
        }
        if line.last() == Some(&b'\n') {
            let _end = line.pop();
        }
        Ok(Some(line))
    }
}
