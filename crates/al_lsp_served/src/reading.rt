// What is read of folders.
ghost use Rattle.std.specs.Prelude.{◌≡◌, ℕ, [], List, IfOk, OnOk, IsOk, fold, map, string_bytes};
ghost use Rattle.al_lsp_served.specs.Overlays.{file_of, with_read, AreGathered};

use crate::disk::{Contents, Folders, SourceFile};
use al_base::{Files, NoMemory, Refusal};
use std::alloc::Global;

/// What was read of folders: the texts, and in which folder each is.
pub struct Reading {
    pub texts: Files,
    pub places: Files,
}

impl Drop for Reading {
    fn drop(self) {
        let Reading {
            texts: _,
            places: _,
        } = self;
    }
}

// Says that a file is left out.
fn add_fault(
    alloc: Global,
    faults: &mut Vec<String>,
    folder: &str,
    name: &str,
    why: &str,
) -> Result<(), NoMemory> {
    let fault = format!(in alloc; "{folder}/{name} is left out: {why}")?;
    faults.push(fault)?;
    Ok(())
}

// Why a library doesn't take a file.
fn why_refused(refusal: Refusal) -> Result<&'static str, NoMemory>
    ensures { IsOk result → refusal ≡ Refusal.NoMemory → ⊥ }
{
    match refusal {
        Refusal::TextTooLong => Ok("it has more than 1048576 bytes"),
        Refusal::TooManyFiles => Ok("there are more than 4096 sources"),
        Refusal::NoMemory => Err(NoMemory),
        _ => Ok("a source's name is one or more of a-z 0-9 _ ~ - and then .ads or .adb"),
    }
}

// Says that a library doesn't take a file.
fn add_refusal(
    alloc: Global,
    faults: &mut Vec<String>,
    folder: &str,
    name: &str,
    refusal: Refusal,
) -> Result<(), NoMemory>
    ensures { IsOk result → refusal ≡ Refusal.NoMemory → ⊥ }
{
    let why = why_refused(refusal)?;
    add_fault(alloc, faults, folder, name, why)
}

// Adds faults.
fn add_all(faults: &mut Vec<String>, more: Vec<String>) -> Result<(), NoMemory> {
    for fault in more {
        faults.push(fault)?;
    }
    Ok(())
}

impl Reading {
    /// The texts, and the folder of each file.
    pub fn into_parts(self) -> (Files, Files)
        ensures { result ≡ (self.texts, self.places) }
    {
        let Reading { texts, places } = self;
        (texts, places)
    }

    fn new(alloc: Global) -> Reading
        ensures { result.texts ≡ [] }
    {
        Reading {
            texts: Files::new(alloc),
            places: Files::new(alloc),
        }
    }

    // Adds a file; of two files of one name the first stays.
    fn add(
        &mut self,
        alloc: Global,
        folder: &str,
        file: &SourceFile,
        faults: &mut Vec<String>,
    ) -> Result<(), NoMemory>
        ensures { OnOk result (self.new.texts ≡ with_read self.old.texts (file_of file.now)) }
    {
        let name = file.name.as_str();
        if self.texts.get(name.as_bytes()).is_some() {
            return add_fault(alloc, faults, folder, name, "another folder has the name");
        }
        let text = Vec::from_slice(alloc, file.text.as_slice())?;
        match self.texts.put(name.as_bytes(), text) {
            Ok(()) => self.add_place(alloc, folder, name, faults),
            Err(refusal) => add_refusal(alloc, faults, folder, name, refusal),
        }
    }

    // Adds the folder of a file.
    fn add_place(
        &mut self,
        alloc: Global,
        folder: &str,
        name: &str,
        faults: &mut Vec<String>,
    ) -> Result<(), NoMemory>
        ensures { self.new.texts ≡ self.old.texts }
    {
        let place = Vec::from_slice(alloc, folder.as_bytes())?;
        match self.places.put(name.as_bytes(), place) {
            Ok(()) => Ok(()),
            Err(refusal) => add_refusal(alloc, faults, folder, name, refusal),
        }
    }

    // Adds the files of a folder.
    fn add_files(
        &mut self,
        alloc: Global,
        folder: &str,
        files: &[SourceFile],
        faults: &mut Vec<String>,
    ) -> Result<(), NoMemory>
        ensures { OnOk result (self.new.texts ≡ fold with_read self.old.texts (map file_of files.now)) }
    {
        for file in files {
            self.add(alloc, folder, file, faults)?;
        }
        Ok(())
    }

    // Adds what is in a folder.
    fn add_folder<D: Folders>(
        &mut self,
        alloc: Global,
        disk: &D,
        folder: &str,
        faults: &mut Vec<String>,
    ) -> Result<(), NoMemory>
        ensures { OnOk result ((list : List (List ℕ × List ℕ)) × (D.has disk.now folder.now list × (self.new.texts ≡ fold with_read self.old.texts list))) }
    {
        let (files, more) = disk.read(alloc, folder)?.into_parts();
        let added = self.add_files(alloc, folder, files.as_slice(), faults);
        drop(files);
        added?;
        add_all(faults, more)
    }
}

/// Reads these folders, and adds to `faults` what is left out.
///
/// # Errors
///
/// `NoMemory` where memory was wanted and not given.
pub fn read_all<D: Folders>(
    alloc: Global,
    disk: &D,
    folders: &[String],
    faults: &mut Vec<String>,
) -> Result<Reading, NoMemory>
    ensures { IfOk result (λ reading. AreGathered (D.has disk.now) (map string_bytes folders.now) reading.texts) }
{
    let mut reading = Reading::new(alloc);
    for folder in folders {
        reading.add_folder(alloc, disk, folder.as_str(), faults)?;
    }
    Ok(reading)
}
