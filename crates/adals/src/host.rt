// The disk of the machine.
use al_base::{MAX_TEXT, NoMemory, is_file_name};
use al_lsp_served::{Contents, Folders, SourceFile};
use std::alloc::Global;
use std::fs::{DirEntry, ReadDir};
use std::io;
use std::io::Read;
use std::rt::Files;

/// The disk of the machine.
#[derive(Drop)]
pub struct Host<'a, R> {
    rt: &'a R,
}

impl<'a, R> Host<'a, R> {
    pub fn new(rt: &'a R) -> Host<'a, R> {
        Host { rt }
    }
}

impl<R: Files + AllocGlobal + Clone + Drop> Folders for Host<'_, R> {
    // Nothing is known of what a machine has.
    ghost has = { λ disk folder files. Unit {0} };

    fn read(&self, alloc: Global, folder: &str) -> Result<Contents, NoMemory> {
        let mut contents = Contents {
            files: Vec::new(alloc),
            faults: Vec::new(alloc),
        };
        match names_in(self.rt, alloc, folder) {
            Ok(names) => read_all(self.rt, alloc, folder, names, &mut contents)?,
            Err(e) => add_fault(alloc, &mut contents, folder, e)?,
        }
        Ok(contents)
    }
}

// Says that something can't be read.
fn add_fault(
    alloc: Global,
    contents: &mut Contents,
    path: &str,
    error: io::Error,
) -> Result<(), NoMemory> {
    if error.kind() == io::ErrorKind::OutOfMemory {
        return Err(NoMemory);
    }
    let fault = format!(in alloc; "{path} can't be read: {error}")?;
    contents.faults.push(fault)?;
    Ok(())
}

// The names in a folder that a source may have, in their order.
fn names_in<R: Files + AllocGlobal + Clone + Drop>(
    rt: &R,
    alloc: Global,
    folder: &str,
) -> io::Result<Vec<String>> {
    let mut names = Vec::new(alloc);
    let entries: ReadDir<R> = std::fs::read_dir(rt, folder)?;
    for entry in entries {
        match entry {
            Ok(entry) => add_name(alloc, &mut names, &entry)?,
            Err(e) if e.kind() == io::ErrorKind::InvalidFilename => {}
            Err(e) => return Err(e),
        }
    }
    names.sort()?;
    Ok(names)
}

fn add_name<R: Files + Clone + Drop>(
    alloc: Global,
    names: &mut Vec<String>,
    entry: &DirEntry<R>,
) -> io::Result<()> {
    let name = entry.file_name();
    if is_file_name(name.as_bytes()) {
        names.push(String::from_str(alloc, name)?)?;
    }
    Ok(())
}

// Reads these files of a folder.
fn read_all<R: Files + AllocGlobal>(
    rt: &R,
    alloc: Global,
    folder: &str,
    names: Vec<String>,
    contents: &mut Contents,
) -> Result<(), NoMemory> {
    for name in names {
        let path = format!(in alloc; "{folder}/{name}")?;
        match text_of(rt, alloc, path.as_str()) {
            Ok(text) => contents.files.push(SourceFile { name, text })?,
            Err(e) => {
                drop(name);
                add_fault(alloc, contents, path.as_str(), e)?;
            }
        }
    }
    Ok(())
}

// The text of a file, one byte more than a library takes at most; of what is no file an error.
fn text_of<R: Files + AllocGlobal>(rt: &R, alloc: Global, path: &str) -> io::Result<Vec<u8>> {
    if !std::fs::metadata(rt, path)?.is_file() {
        return Err(io::Error::from(io::ErrorKind::InvalidInput));
    }
    let file = std::fs::open(rt, path)?;
    let mut text = Vec::new(alloc);
    file.take(MAX_TEXT as u64 + 1).read_to_end(&mut text)?;
    Ok(text)
}
