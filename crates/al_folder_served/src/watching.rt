// A library that is built again and again, as lines of the standard input ask for it.
ghost use Rattle.std.specs.Prelude.{◌≡◌, ◌↔◌, ◌++◌, ℕ, List, Some, None, Ok, IfOk, OnOk, false, true, map};
ghost use Rattle.al_base.specs.Batch.{key_of};
ghost use Rattle.al_base.specs.declared.unit_key.UnitKey.{UnitKey};
ghost use Rattle.al_session_stream.specs.Output.{Adds};
ghost use Rattle.al_folder.specs.Words.{watch_word};
ghost use Rattle.al_folder.specs.declared.words.WatchWord.TheVariants.{Quit, Unknown};
ghost use Rattle.al_folder.specs.Progress.{progress_line};
ghost use Rattle.al_folder_served.specs.Runs.{WritesNext};
ghost use Rattle.al_folder_served.specs.Told.{asks_checked, checked_told, line_end, without_return, words_text};
ghost use Rattle.al_folder_served.specs.UnitReasons.{TellsWhy, asks_why};
ghost use Rattle.al_folder_served.specs.declared.request.Form.TheVariants.{Text};
ghost use Rattle.al_folder_served.specs.declared.telling.Progress.{Progress};
ghost use Rattle.al_session_served.specs.Library.{empty};
ghost use Rattle.al_folder_served.specs.Sources.{Holds, IsBuiltFrom};

use crate::bringing::bring;
use crate::building::{Uses, build, finish_build};
use crate::disk::Disk;
use crate::explaining::report_progress;
use crate::failure::Failure;
use crate::index::Told;
use crate::library::FolderLibrary;
use crate::reading::read_sources;
use crate::request::{Pace, Request};
use crate::running::Run;
use crate::screen::Screen;
use crate::sources::Sources;
use crate::telling::{Progress, tell_checked, tell_parts};
use crate::unchanged::are_unchanged;
use crate::unit_reasons::{asks_why, tell_why};
use al_base::{Name, Refusal};
use al_folder::{Ending, ImageChange, WatchWord, image_change, watch_word};
use al_session_served::Outcome;
use al_session_stream::Sink;
use std::alloc::Global;
use std::io;

// The largest number of lines of the standard input that are read.
const MOST_LINES: u64 = 1_000_000;

// The number of steps after which a run ends that a line asks for, without `--steps`. An interrupt would end the watch too.
const WATCH_STEPS: u32 = 100_000_000;

/// What a watch keeps: the sources that its library holds, and the names that were reported.
#[derive(Drop)]
struct Kept<'a> {
    sources: Sources,
    told: Told,
    unit: &'a Name,
}

/// The source of the lines that ask for something.
pub trait LineSource {
    /// The next line, without its end; `None` at the end of the input.
    ///
    /// # Errors
    ///
    /// The machine's error if the input can't be read.
    fn next_line(&mut self, alloc: Global) -> io::Result<Option<Vec<u8>>>;
}

/// Builds the folders, and at each line of the standard input does what it asks for.
///
/// # Errors
///
/// A [`Failure`] if an output can't be written, the input or the clock can't be read, or memory runs out.
pub fn watch<L: FolderLibrary, D: Disk, O: Sink, E: Sink, N: Run, S: LineSource>(
    alloc: Global,
    disk: &mut D,
    screen: &mut Screen<O, E>,
    run: &mut N,
    library: &mut L,
    request: &Request<'_>,
    unit: &Name,
    input: &mut S,
) -> Result<Ending, Failure>
    requires { L.state library.old ≡ empty }
{
    let mut kept = Kept {
        sources: Sources::new(alloc),
        told: Told::new(alloc),
        unit,
    };
    let uses = uses_of(request);
    build_again(alloc, disk, screen, run, library, request, &mut kept, uses)?;
    for _line in 0..MOST_LINES {
        let Some(line) = line_of(alloc, input)? else {
            break;
        };
        if !serve_line(
            alloc,
            disk,
            screen,
            run,
            library,
            request,
            &mut kept,
            line.as_slice(),
        )? {
            break;
        }
    }
    Ok(Ending::Done)
}

fn line_of<S: LineSource>(alloc: Global, input: &mut S) -> Result<Option<Vec<u8>>, Failure> {
    match input.next_line(alloc) {
        Ok(line) => Ok(line),
        Err(e) if e.kind() == io::ErrorKind::OutOfMemory => Err(Failure::Memory),
        Err(_) => Err(Failure::Input),
    }
}

// What a build of a watch does with the program; a run has an end.
fn uses_of(request: &Request<'_>) -> Uses {
    Uses {
        order: request.order,
        run: request.run,
        pace: Pace {
            tick: request.pace.tick,
            steps: Some(request.pace.steps.unwrap_or(WATCH_STEPS)),
        },
    }
}

// The line without a CR at its end, which terminals of other systems send before LF.
fn without_return(line: &[u8]) -> &[u8]
    ensures { result.now ≡ without_return line.now }
{
    match line.strip_suffix(b"\r".as_slice()) {
        Some(front) => front,
        None => line,
    }
}

// Does what the line asks for. Gives whether more may be asked for.
fn serve_line<L: FolderLibrary, D: Disk, O: Sink, E: Sink, N: Run>(
    alloc: Global,
    disk: &mut D,
    screen: &mut Screen<O, E>,
    run: &mut N,
    library: &mut L,
    request: &Request<'_>,
    kept: &mut Kept<'_>,
    line: &[u8],
) -> Result<bool, Failure>
    requires { Holds (L.state library.old) kept.old.sources.texts }
    ensures holds { OnOk result (Holds (L.state library.new) kept.new.sources.texts) }
    ensures quit { IfOk result (λ more. (more ≡ false) ↔ (watch_word (without_return line.now) ≡ Quit)) }
    ensures unknown { watch_word (without_return line.now) ≡ Unknown → asks_checked (without_return line.now) ≡ false → asks_why (without_return line.now) ≡ None → Adds E.written E.faults E.waits screen.old.error.sink screen.new.error.sink screen.old.error.so_far screen.new.error.so_far (line_end screen.old.is_open ++ words_text) }
    ensures checked { watch_word (without_return line.now) ≡ Unknown → asks_checked (without_return line.now) ≡ true → (units : List UnitKey) × L.are_checked library.old units × Adds E.written E.faults E.waits screen.old.error.sink screen.new.error.sink screen.old.error.so_far screen.new.error.so_far (checked_told screen.old.is_open (map key_of units)) }
    ensures why { watch_word (without_return line.now) ≡ Unknown → asks_checked (without_return line.now) ≡ false → (name : List ℕ) → asks_why (without_return line.now) ≡ Some name → OnOk result (TellsWhy (L.is_why library.old) (Adds E.written E.faults E.waits screen.old.error.sink screen.new.error.sink screen.old.error.so_far screen.new.error.so_far) screen.old.is_open name) }
    ensures quiet { watch_word (without_return line.now) ≡ Unknown → screen.new.output ≡ screen.old.output }
{
    let mut uses = uses_of(request);
    match watch_word(without_return(line)) {
        WatchWord::Build => {}
        WatchWord::Run => uses.run = true,
        WatchWord::Order => uses.order = true,
        WatchWord::Obsolete => {
            list_obsolete(alloc, disk, screen, library, request, kept)?;
            return Ok(true);
        }
        WatchWord::Quit => return Ok(false),
        WatchWord::Unknown => {
            tell_asked(alloc, screen, library, without_return(line))?;
            return Ok(true);
        }
    }
    build_again(alloc, disk, screen, run, library, request, kept, uses)?;
    Ok(true)
}

// Prints the units that the last build checked, or why it checked one or not, if the line asks for that, and else which words there are.
fn tell_asked<L: FolderLibrary, O: Sink, E: Sink>(
    alloc: Global,
    screen: &mut Screen<O, E>,
    library: &L,
    line: &[u8],
) -> Result<(), Failure>
    ensures unknown { asks_checked line.now ≡ false → asks_why line.now ≡ None → Adds E.written E.faults E.waits screen.old.error.sink screen.new.error.sink screen.old.error.so_far screen.new.error.so_far (line_end screen.old.is_open ++ words_text) }
    ensures checked { asks_checked line.now ≡ true → (units : List UnitKey) × L.are_checked library.now units × Adds E.written E.faults E.waits screen.old.error.sink screen.new.error.sink screen.old.error.so_far screen.new.error.so_far (checked_told screen.old.is_open (map key_of units)) }
    ensures why { asks_checked line.now ≡ false → (name : List ℕ) → asks_why line.now ≡ Some name → OnOk result (TellsWhy (L.is_why library.now) (Adds E.written E.faults E.waits screen.old.error.sink screen.new.error.sink screen.old.error.so_far screen.new.error.so_far) screen.old.is_open name) }
    ensures quiet { screen.new.output ≡ screen.old.output }
{
    if line == b"checked".as_slice() {
        return tell_checked(screen, library.last_checked());
    }
    if let Some(name) = asks_why(line) {
        return tell_why(alloc, screen, library, name);
    }
    tell_words(screen)
}

// Prints which words there are.
fn tell_words<O: Sink, E: Sink>(screen: &mut Screen<O, E>) -> Result<(), Failure>
    ensures told { Adds E.written E.faults E.waits screen.old.error.sink screen.new.error.sink screen.old.error.so_far screen.new.error.so_far (line_end screen.old.is_open ++ words_text) }
    ensures quiet { screen.new.output ≡ screen.old.output }
{
    screen.tell_line(&[
        b"the words are run, order, checked, why UNIT, obsolete and quit, and an empty line builds",
    ])
}

// Reads the folders again, and gives the library what has changed. Gives whether all could be read; if not, the library is as before.
fn read_again<L: FolderLibrary, D: Disk, O: Sink, E: Sink>(
    alloc: Global,
    disk: &D,
    screen: &mut Screen<O, E>,
    library: &mut L,
    request: &Request<'_>,
    kept: &mut Kept<'_>,
) -> Result<bool, Failure>
    requires { Holds (L.state library.old) kept.old.sources.texts }
    ensures holds { OnOk result (Holds (L.state library.new) kept.new.sources.texts) }
    ensures kept { result ≡ Ok false → (library.new ≡ library.old) × (kept.new.sources ≡ kept.old.sources) }
{
    if are_unchanged(alloc, disk, request, &kept.sources)? {
        return Ok(true);
    }
    let now = read_sources(
        alloc,
        disk,
        screen,
        request,
        kept.unit,
        &mut kept.told,
        &kept.sources,
    )?;
    if !now.are_whole {
        return Ok(false);
    }
    bring(alloc, library, &kept.sources.texts, &now.texts)?;
    kept.sources = now;
    Ok(true)
}

// Reads the folders again, builds, prints what was done, and uses the program.
fn build_again<L: FolderLibrary, D: Disk, O: Sink, E: Sink, N: Run>(
    alloc: Global,
    disk: &mut D,
    screen: &mut Screen<O, E>,
    run: &mut N,
    library: &mut L,
    request: &Request<'_>,
    kept: &mut Kept<'_>,
    uses: Uses,
) -> Result<(), Failure>
    requires { Holds (L.state library.old) kept.old.sources.texts }
    ensures { OnOk result (Holds (L.state library.new) kept.new.sources.texts) }
{
    let start = millis(disk)?;
    if !read_again(alloc, disk, screen, library, request, kept)? {
        return Ok(());
    }
    build_read(
        alloc, disk, screen, run, library, request, kept, uses, start,
    )
}

// Builds the sources that were read, prints what that did in the milliseconds since this moment, and uses the program.
fn build_read<L: FolderLibrary, D: Disk, O: Sink, E: Sink, N: Run>(
    alloc: Global,
    disk: &mut D,
    screen: &mut Screen<O, E>,
    run: &mut N,
    library: &mut L,
    request: &Request<'_>,
    kept: &Kept<'_>,
    uses: Uses,
    start: u64,
) -> Result<(), Failure>
    requires { Holds (L.state library.old) kept.now.sources.texts }
    ensures built { OnOk result (IsBuiltFrom L.meaning (L.state library.new) kept.now.sources.texts kept.now.unit.now) }
    ensures told { screen.old.form ≡ Text → OnOk result ((p : Progress) × WritesNext E.written E.faults E.waits screen.old.error.sink screen.old.error.so_far (line_end screen.old.is_open ++ progress_line p.checked p.sources p.change p.millis)) }
{
    let sources = &kept.sources;
    let progress = timed_build(disk, library, sources, kept.unit, start)?;
    report_progress(alloc, screen, progress)?;
    let _ending = finish_build(alloc, disk, screen, run, library, request, sources, uses)?;
    Ok(())
}

/// The milliseconds that passed since some moment.
///
/// # Errors
///
/// `Clock` if the clock can't be read.
pub fn millis<D: Disk>(disk: &D) -> Result<u64, Failure> {
    match disk.millis() {
        Ok(millis) => Ok(millis),
        Err(_) => Err(Failure::Clock),
    }
}

/// Builds. Gives what that did, in the milliseconds since this moment.
///
/// # Errors
///
/// `Clock` if the clock can't be read; `Memory` if memory runs out.
pub fn timed_build<L: FolderLibrary, D: Disk>(
    disk: &D,
    library: &mut L,
    sources: &Sources,
    unit: &Name,
    start: u64,
) -> Result<Progress, Failure>
    requires { Holds (L.state library.old) sources.now.texts }
    ensures holds { Holds (L.state library.new) sources.now.texts }
    ensures built { OnOk result (IsBuiltFrom L.meaning (L.state library.new) sources.now.texts unit.now) }
{
    let change = rebuild(library, sources, unit)?;
    let passed = millis(disk)?.saturating_sub(start);
    Ok(Progress {
        checked: library.last_checked().len(),
        sources: sources.texts.len(),
        change,
        millis: passed as usize,
    })
}

// Builds. Gives what that did to the image.
fn rebuild<L: FolderLibrary>(
    library: &mut L,
    sources: &Sources,
    unit: &Name,
) -> Result<ImageChange, Failure>
    requires { Holds (L.state library.old) sources.now.texts }
    ensures holds { Holds (L.state library.new) sources.now.texts }
    ensures built { OnOk result (IsBuiltFrom L.meaning (L.state library.new) sources.now.texts unit.now) }
{
    let had = image_units(library).is_some();
    build(library, sources, unit)?;
    let written = library.patched();
    match image_units(library) {
        Some(units) => Ok(image_change(had, true, written, units)),
        None => Ok(image_change(had, false, written, 0)),
    }
}

// The number of units in the image of the last build, if it gave one.
fn image_units<L: FolderLibrary>(library: &L) -> Option<usize> {
    match library.last()?.outcome {
        Outcome::Made(order, _) => Some(order.len()),
        _ => None,
    }
}

// Reads the folders again, and lists the units that are obsolete since the last build.
fn list_obsolete<L: FolderLibrary, D: Disk, O: Sink, E: Sink>(
    alloc: Global,
    disk: &D,
    screen: &mut Screen<O, E>,
    library: &mut L,
    request: &Request<'_>,
    kept: &mut Kept<'_>,
) -> Result<(), Failure>
    requires { Holds (L.state library.old) kept.old.sources.texts }
    ensures { OnOk result (Holds (L.state library.new) kept.new.sources.texts) }
{
    if !read_again(alloc, disk, screen, library, request, kept)? {
        return Ok(());
    }
    match library.obsolete() {
        Ok(units) if units.is_empty() => screen.tell_line(&[b"no unit is obsolete"]),
        Ok(units) => tell_parts(screen, units.as_slice()),
        Err(Refusal::NotBuilt) => screen.tell_line(&[b"nothing was built"]),
        Err(_) => Err(Failure::Memory),
    }
}
