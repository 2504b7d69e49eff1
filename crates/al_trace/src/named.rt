// What tasks, protected objects and places of a run are called in a report: by the sources if they are there, else by numbers.
use crate::names::{Names, push_source, unit_word};
use crate::sources::Lexemes;
use al_base::{FileKey, Files, NoMemory};
use al_link_image::{Image, ImageObject};
use al_tasks::World;
use std::alloc::{AllocError, Global};

// The most lexemes of a barrier that are printed.
const BARRIER: usize = 12;

/// The sources that a program was built of, and their folders; none if it was loaded from a file.
#[derive(Clone, Copy)]
pub struct ReadSources<'a> {
    pub texts: &'a Files,
    /// The folder of each source.
    pub folders: &'a Files,
}

/// The names in a report of a run.
pub struct Named<'a> {
    alloc: Global,
    names: Names,
    world: &'a World,
    sources: ReadSources<'a>,
}

impl Drop for Named<'_> {
    fn drop(self) {
        let Named {
            alloc: _,
            names: _,
            world: _,
            sources: _,
        } = self;
    }
}

impl<'a> Named<'a> {
    /// The names in a report of a run of this image.
    ///
    /// # Errors
    ///
    /// `NoMemory` if memory runs out.
    pub fn new(
        alloc: Global,
        image: &Image,
        world: &'a World,
        sources: ReadSources<'a>,
    ) -> Result<Named<'a>, NoMemory> {
        let names = Names::new(alloc, image)?;
        Ok(Named {
            alloc,
            names,
            world,
            sources,
        })
    }

    /// Adds the name of a task, which isn't the environment task, and that of its unit.
    ///
    /// # Errors
    ///
    /// `NoMemory` if memory runs out.
    pub fn push_task(&self, out: &mut String, number: u32) -> Result<(), NoMemory> {
        out.push_str("task ")?;
        self.push_task_name(out, number)?;
        let unit = unit_word(self.names.unit_of_task(number));
        write!(out, " of {unit}")?;
        Ok(())
    }

    // Adds the name of a task; its number if there is no source.
    fn push_task_name(&self, out: &mut String, number: u32) -> Result<(), NoMemory> {
        if let Some((text, line)) = self.source_at(self.names.place_of_task(number)) {
            let lexemes = Lexemes::of(self.alloc, text)?;
            if let Some(name) = lexemes.task_before(line) {
                out.push_str(lexemes.spelling(name))?;
                return Ok(());
            }
        }
        write!(out, "{number}")?;
        Ok(())
    }

    /// Adds the name of a protected object; its number if there is no source.
    ///
    /// # Errors
    ///
    /// `NoMemory` if memory runs out.
    pub fn push_object(&self, out: &mut String, number: u32) -> Result<(), NoMemory> {
        if let Some((text, line)) = self.source_at(self.names.place_of_object(number)) {
            let lexemes = Lexemes::of(self.alloc, text)?;
            if let Some(name) = lexemes.object_before(line) {
                out.push_str(lexemes.spelling(name))?;
                return Ok(());
            }
        }
        write!(out, "object {number}")?;
        Ok(())
    }

    /// Adds the name of the entry of a protected object, and what its barrier is, if there is a source.
    ///
    /// # Errors
    ///
    /// `NoMemory` if memory runs out.
    pub fn push_entry(&self, out: &mut String, number: u32) -> Result<(), NoMemory> {
        if let Some((text, line)) = self.source_at(self.names.place_of_object(number)) {
            let lexemes = Lexemes::of(self.alloc, text)?;
            if let Some(name) = lexemes.object_before(line) {
                push_entry_of(out, &lexemes, name)?;
                return Ok(());
            }
        }
        write!(out, "the entry of object {number}, whose barrier is false")?;
        Ok(())
    }

    /// Adds the file and the line of the code at a place.
    ///
    /// # Errors
    ///
    /// `NoMemory` if memory runs out.
    pub fn push_place(&self, out: &mut String, place: usize) -> Result<(), NoMemory> {
        let (unit, line) = self.world.source_of(place);
        let unit = self.names.unit(unit);
        self.push_folder(out, unit)?;
        push_source(out, unit, line)?;
        Ok(())
    }

    // Adds the folder of a unit's file, if that isn't the current one.
    fn push_folder(&self, out: &mut String, unit: Option<&ImageObject>) -> Result<(), NoMemory> {
        let Some(folder) = held_of(self.sources.folders, unit) else {
            return Ok(());
        };
        if folder == b".".as_slice() || folder.is_empty() {
            return Ok(());
        }
        let folder = String::from_utf8_lossy(self.alloc, folder)?;
        out.push_str(folder.as_str())?;
        if !folder.ends_with('/') {
            out.push_str("/")?;
        }
        Ok(())
    }

    // The source of the code at a place, and the line in it.
    fn source_at(&self, place: Option<u32>) -> Option<(&'a [u8], u32)> {
        let (unit, line) = self.world.source_of(place? as usize);
        let line = line?;
        let text = held_of(self.sources.texts, self.names.unit(unit))?;
        Some((text, line))
    }
}

// What these files hold for a unit's file.
fn held_of<'a>(files: &'a Files, unit: Option<&ImageObject>) -> Option<&'a [u8]> {
    let unit = unit?;
    let file = FileKey::of(unit.name.as_slice(), unit.kind)?;
    files.get(file.as_slice())
}

// Adds the name of the entry of the protected object with this name, and its barrier.
fn push_entry_of(out: &mut String, lexemes: &Lexemes<'_>, object: usize) -> Result<(), AllocError> {
    let entry = lexemes.entry_after(object).unwrap_or(object);
    out.push_str("entry ")?;
    out.push_str(lexemes.spelling(entry))?;
    out.push_str(" of ")?;
    out.push_str(lexemes.spelling(object))?;
    out.push_str(", whose barrier")?;
    push_barrier(out, lexemes, object)?;
    out.push_str(" is false")
}

// Adds the barrier of the entry of the protected object with this name, between commas, if it is short.
fn push_barrier(out: &mut String, lexemes: &Lexemes<'_>, object: usize) -> Result<(), AllocError> {
    let Some((first, end)) = lexemes.barrier_after(object) else {
        return Ok(());
    };
    if end.saturating_sub(first) > BARRIER {
        return Ok(());
    }
    out.push_str(",")?;
    for at in first..end {
        out.push_str(" ")?;
        out.push_str(lexemes.spelling(at))?;
    }
    out.push_str(",")
}
