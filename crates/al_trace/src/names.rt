// What tasks and protected objects are called: an image has their numbers, and the units that their code is in.
ghost use Rattle.std.specs.Prelude.{◌≡◌};
ghost use Rattle.al_trace.specs.Words.{exception_word, state_word};

use al_base::{FileKey, Name, NoMemory};
use al_instr::{Instr, Protected};
use al_link_image::{Image, ImageObject, Region};
use al_machine::Exception;
use al_tasks::TaskState;
use std::alloc::{AllocError, Global};

/// The units of an image's tasks and protected objects.
pub struct Names {
    objects: Vec<ImageObject>,
    regions: Vec<Region>,
    tasks: Vec<u32>,
    protected: Vec<Option<u32>>,
}

impl Drop for Names {
    fn drop(self) {
        let Names {
            objects: _,
            regions: _,
            tasks: _,
            protected: _,
        } = self;
    }
}

// The last unit whose code begins at the place or before it.
fn unit_before(objects: &[ImageObject], place: u32) -> Option<&ImageObject> {
    let mut found = None;
    for object in objects {
        if object.place <= place {
            found = Some(object);
        }
    }
    found
}

fn copies(alloc: Global, objects: &[ImageObject]) -> Result<Vec<ImageObject>, NoMemory> {
    let mut copies = Vec::new(alloc);
    for object in objects {
        let name = Name::from_slice(alloc, object.name.as_slice())?;
        copies.push(ImageObject {
            kind: object.kind,
            name,
            place: object.place,
        })?;
    }
    Ok(copies)
}

impl Names {
    /// Of an image: each task begins at the place that the instruction names which creates it, in the order of these; and an object is
    /// entered first in the code of its body.
    ///
    /// # Errors
    ///
    /// `NoMemory` if memory runs out.
    pub fn new(alloc: Global, image: &Image) -> Result<Names, NoMemory> {
        let objects = copies(alloc, image.objects())?;
        let mut tasks = Vec::new(alloc);
        let mut protected = Vec::new(alloc);
        protected.resize(image.protected().len(), None)?;
        find(alloc, image, &mut tasks, &mut protected)?;
        let regions = Vec::from_slice(alloc, image.protected())?;
        Ok(Names {
            objects,
            regions,
            tasks,
            protected,
        })
    }

    /// How many tasks the code creates besides the environment task.
    pub fn tasks(&self) -> u32 {
        number_of(self.tasks.len())
    }

    /// The protected objects by their numbers.
    pub fn regions(&self) -> &[Region] {
        self.regions.as_slice()
    }

    /// The unit of a number among the image's.
    pub fn unit(&self, number: Option<usize>) -> Option<&ImageObject> {
        self.objects.get(number?)
    }

    /// The place at which the code of the task of a number begins; none of the environment task.
    pub fn place_of_task(&self, number: u32) -> Option<u32> {
        let index = (number as usize).checked_sub(1)?;
        self.tasks.get(index).copied()
    }

    /// The unit whose code has the task of a number; none of the environment task.
    pub fn unit_of_task(&self, number: u32) -> Option<&ImageObject> {
        unit_before(self.objects.as_slice(), self.place_of_task(number)?)
    }

    /// The first place at which the protected object of a number is entered, which is in the code of its body.
    pub fn place_of_object(&self, number: u32) -> Option<u32> {
        *self.protected.get(number as usize)?
    }

    /// The unit whose code has the body of the protected object of a number.
    pub fn unit_of_object(&self, number: u32) -> Option<&ImageObject> {
        unit_before(self.objects.as_slice(), self.place_of_object(number)?)
    }
}

/// The number at an index; those of tasks and objects are far below the greatest.
pub(crate) fn number_of(index: usize) -> u32 {
    u32::try_from(index).unwrap_or(u32::MAX)
}

// Finds the places at which tasks begin, and those at which objects are entered first.
fn find(
    alloc: Global,
    image: &Image,
    tasks: &mut Vec<u32>,
    protected: &mut Vec<Option<u32>>,
) -> Result<(), NoMemory> {
    let instructions = image.instructions(alloc)?;
    let mut bytes = Vec::new(alloc);
    let mut here = 0u32;
    for instruction in instructions.as_slice() {
        match instruction {
            Instr::Task { place, priority: _ } => tasks.push(*place)?,
            Instr::Protected(Protected::Enter | Protected::EnterEntry, object) => {
                enter(protected, *object, here)
            }
            _ => {}
        }
        here = after(instruction, here, &mut bytes)?;
    }
    Ok(())
}

// The place after an instruction; the buffer is for its bytes.
fn after(instruction: &Instr, place: u32, bytes: &mut Vec<u8>) -> Result<u32, NoMemory> {
    bytes.clear();
    instruction.encode(bytes)?;
    match u32::try_from(bytes.len()) {
        Ok(size) => Ok(place.saturating_add(size)),
        Err(_) => Ok(place),
    }
}

// An object is entered at a place.
fn enter(protected: &mut Vec<Option<u32>>, object: u32, place: u32) {
    if let Some(slot) = protected.get_mut(object as usize) {
        if slot.is_none() {
            *slot = Some(place);
        }
    }
}

/// What a task is doing, in a word.
pub fn state_word(state: TaskState) -> &'static str
    ensures { result.now ≡ state_word state }
{
    match state {
        TaskState::Running => "running",
        TaskState::Ready => "ready",
        TaskState::Created => "created",
        TaskState::Activating => "activating",
        TaskState::Delayed(_) => "delayed",
        TaskState::Waiting(_) => "waiting",
        TaskState::Ended => "ended",
    }
}

/// The name of an exception, in lower case.
pub fn exception_word(exception: Exception) -> &'static str
    ensures { result.now ≡ exception_word exception }
{
    match exception {
        Exception::Constraint => "constraint_error",
        Exception::Program => "program_error",
        Exception::Storage => "storage_error",
    }
}

/// The name of a unit; `-` if there is none.
pub fn unit_word(unit: Option<&ImageObject>) -> &str {
    match unit {
        Some(unit) => text_of(unit.name.as_slice()),
        None => "-",
    }
}

// Bytes as text. Names have only letters, digits, underlines and dots.
fn text_of(bytes: &[u8]) -> &str {
    match std::str::from_utf8(bytes) {
        Ok(text) => text,
        Err(_) => "-",
    }
}

/// Where in the sources: FILE:LINE, or the file alone if the line isn't known.
///
/// # Errors
///
/// `AllocError` if memory runs out.
pub fn push_source(
    out: &mut String,
    unit: Option<&ImageObject>,
    line: Option<u32>,
) -> Result<(), AllocError> {
    push_file(out, unit)?;
    match line {
        None => Ok(()),
        Some(line) => write!(out, ":{line}"),
    }
}

// The name of the file that holds the unit.
fn push_file(out: &mut String, unit: Option<&ImageObject>) -> Result<(), AllocError> {
    let Some(unit) = unit else {
        return out.push_str("-");
    };
    let name = unit.name.as_slice();
    if name.len() > 251 {
        return out.push_str(text_of(name));
    }
    match FileKey::of(name, unit.kind) {
        Some(file) => out.push_str(text_of(file.as_slice())),
        None => out.push_str(text_of(name)),
    }
}

/// A name without dots, which part the names of scopes.
///
/// # Errors
///
/// `AllocError` if memory runs out.
pub fn push_flat(out: &mut String, name: &str) -> Result<(), AllocError> {
    for letter in name.chars() {
        match letter {
            '.' => out.push_str("__")?,
            _ => out.push(letter)?,
        }
    }
    Ok(())
}
