// Files with images.
ghost use Rattle.std.specs.Prelude.{◌≡◌, ◌⊎◌, ℕ, Bool, false, true, List, [], ◌∷◌, IfOk, OnOk};
ghost use Rattle.al_session_stream.specs.Output.{Adds};
ghost use Rattle.al_folder_served.specs.Runs.{IsLoaded, RunsBytes, RunsImage, WritesNext};
ghost use Rattle.al_folder_served.specs.Told.{IsRefused, error_told};
ghost use Rattle.al_folder_served.specs.declared.request.Form.TheVariants.{Text};

use crate::disk::{Disk, PathKind};
use crate::failure::Failure;
use crate::request::{LoadRequest, Pace, Request};
use crate::running::{Run, run_image};
use crate::screen::Screen;
use crate::sources::Sources;
use al_folder::{Ending, has_source_ending};
use al_link_image::{Image, LinkFault};
use al_session_stream::Sink;
use std::alloc::Global;
use std::io;

// The largest number of bytes that are read of an image. Code and lines are far below it.
const MAX_IMAGE: u64 = 268_435_456;

// The bytes that each image begins with.
const MARK: &[u8] = b"ADLI";

/// Runs the image in a file.
///
/// # Errors
///
/// A [`Failure`] if an output can't be written or memory runs out.
pub fn load<D: Disk, O: Sink, E: Sink, N: Run>(
    alloc: Global,
    disk: &D,
    screen: &mut Screen<O, E>,
    run: &mut N,
    request: LoadRequest<'_>,
) -> Result<Ending, Failure>
    ensures { N.shows_nothing run.old → IfOk result (IsLoaded (D.gives disk.now request.entry.file.now MAX_IMAGE) (λ bytes. RunsBytes request.entry.pace.tick request.entry.pace.steps bytes [] (WritesNext O.written O.faults O.waits screen.old.output.sink screen.old.output.so_far) (λ told. screen.old.form ≡ Text → WritesNext E.written E.faults E.waits screen.old.error.sink screen.old.error.so_far told)) (IsRefused request.entry.file.now (WritesNext E.written E.faults E.waits screen.old.error.sink screen.old.error.so_far))) }
{
    match disk.read(alloc, request.file, MAX_IMAGE) {
        Ok(bytes) => run_bytes(alloc, screen, run, request, bytes.as_slice()),
        Err(e) => {
            tell_fault(alloc, screen, request.file, b" can't be read: ", e)?;
            Ok(Ending::NotBuilt)
        }
    }
}

// Runs the image of these bytes.
fn run_bytes<O: Sink, E: Sink, N: Run>(
    alloc: Global,
    screen: &mut Screen<O, E>,
    run: &mut N,
    request: LoadRequest<'_>,
    bytes: &[u8],
) -> Result<Ending, Failure>
    ensures { N.shows_nothing run.old → IfOk result (λ ending. RunsBytes request.entry.pace.tick request.entry.pace.steps bytes.now [] (WritesNext O.written O.faults O.waits screen.old.output.sink screen.old.output.so_far) (λ told. screen.old.form ≡ Text → WritesNext E.written E.faults E.waits screen.old.error.sink screen.old.error.so_far told) ending ⊎ IsRefused request.entry.file.now (WritesNext E.written E.faults E.waits screen.old.error.sink screen.old.error.so_far) ending) }
{
    match Image::read(alloc, bytes) {
        Ok(image) => run_loaded(alloc, screen, run, &image, request.pace),
        Err(LinkFault::NoMemory) => Err(Failure::Memory),
        Err(_) => {
            let why = b" isn't an image, or is a damaged one";
            tell_refused(screen, request.file, why)?;
            Ok(Ending::NotBuilt)
        }
    }
}

// Shows an image without sources, and runs it.
fn run_loaded<O: Sink, E: Sink, N: Run>(
    alloc: Global,
    screen: &mut Screen<O, E>,
    run: &mut N,
    image: &Image,
    pace: Pace,
) -> Result<Ending, Failure>
    ensures { N.shows_nothing run.old → IfOk result (RunsImage pace.tick pace.steps image.now [] (WritesNext O.written O.faults O.waits screen.old.output.sink screen.old.output.so_far) (λ told. screen.old.form ≡ Text → WritesNext E.written E.faults E.waits screen.old.error.sink screen.old.error.so_far told)) }
{
    let sources = Sources::new(alloc);
    let runs = run.show(screen, image, &sources.texts)?;
    if !runs {
        return Ok(Ending::Done);
    }
    run_image(alloc, screen, run, &sources, image, pace)
}

/// Writes the image's bytes to a file, unless something else is there. Gives whether it was written; if not, the cause was printed.
///
/// # Errors
///
/// A [`Failure`] if an output can't be written or memory runs out.
pub fn save<D: Disk, O: Sink, E: Sink>(
    alloc: Global,
    disk: &mut D,
    screen: &mut Screen<O, E>,
    request: &Request<'_>,
    file: &str,
    bytes: &[u8],
) -> Result<bool, Failure>
    ensures refused { IfOk result (λ is_written. is_written ≡ false → (rest : List (List ℕ)) × Adds E.written E.faults E.waits screen.old.error.sink screen.new.error.sink screen.old.error.so_far screen.new.error.so_far (error_told screen.old.is_open file.now rest)) }
    ensures written { IfOk result (λ is_written. is_written ≡ true → D.holds disk.new file.now bytes.now × (screen.new.error ≡ screen.old.error)) }
    ensures quiet { (screen.new.output ≡ screen.old.output) × (screen.new.form ≡ screen.old.form) }
{
    if !request.force {
        if let Some(why) = refusal_of(alloc, disk, file)? {
            tell_refused(screen, file, why)?;
            return Ok(false);
        }
    }
    match disk.write(file, bytes) {
        Ok(()) => Ok(true),
        Err(e) => {
            tell_fault(alloc, screen, file, b" can't be written: ", e)?;
            Ok(false)
        }
    }
}

// Why no image is written to this file; `None` if one is.
fn refusal_of<D: Disk>(
    alloc: Global,
    disk: &D,
    file: &str,
) -> Result<Option<&'static [u8]>, Failure> {
    if has_source_ending(file.as_bytes()) {
        return Ok(Some(b" has the name of a source; --force writes an image there"));
    }
    let Ok(status) = disk.status(file) else {
        return Ok(None);
    };
    if !matches!(status.kind, PathKind::File) {
        return Ok(Some(b" isn't a file; --force writes an image there"));
    }
    match disk.read(alloc, file, 4) {
        Ok(front) if front.as_slice() == MARK || front.is_empty() => Ok(None),
        Err(e) if e.kind() == io::ErrorKind::OutOfMemory => Err(Failure::Memory),
        _ => Ok(Some(b" isn't an image; --force writes over it")),
    }
}

// Prints why no image is read from this file, or written to it.
fn tell_refused<O: Sink, E: Sink>(
    screen: &mut Screen<O, E>,
    file: &str,
    why: &[u8],
) -> Result<(), Failure>
    ensures told { Adds E.written E.faults E.waits screen.old.error.sink screen.new.error.sink screen.old.error.so_far screen.new.error.so_far (error_told screen.old.is_open file.now (why.now ∷ [])) }
    ensures quiet { (screen.new.output ≡ screen.old.output) × (screen.new.form ≡ screen.old.form) }
{
    screen.tell_line(&[b"error: ", file.as_bytes(), why])
}

// Prints that something can't be done with a file.
fn tell_fault<O: Sink, E: Sink>(
    alloc: Global,
    screen: &mut Screen<O, E>,
    file: &str,
    what: &[u8],
    error: io::Error,
) -> Result<(), Failure>
    ensures told { OnOk result ((why : List ℕ) × Adds E.written E.faults E.waits screen.old.error.sink screen.new.error.sink screen.old.error.so_far screen.new.error.so_far (error_told screen.old.is_open file.now (what.now ∷ why ∷ []))) }
    ensures quiet { (screen.new.output ≡ screen.old.output) × (screen.new.form ≡ screen.old.form) }
{
    let why = format!(in alloc; "{error}")?;
    screen.tell_line(&[b"error: ", file.as_bytes(), what, why.as_bytes()])
}
