// What builds and runs print: diagnostics with notes, or objects for other programs.
ghost use Rattle.std.specs.Prelude.{◌≡◌, ◌++◌, false, true, OnOk};
ghost use Rattle.al_session_stream.specs.Output.{Adds};
ghost use Rattle.al_folder.specs.Progress.{progress_line};
ghost use Rattle.al_folder_served.specs.Sources.{Holds, IsBuiltFrom, gave_last};
ghost use Rattle.al_folder_served.specs.Told.{line_end, end_told, last_told, was_faulty};
ghost use Rattle.al_folder_served.specs.declared.request.Form.TheVariants.{Text, Sarif};

use crate::building::build;
use crate::disk::Disk;
use crate::failure::Failure;
use crate::library::FolderLibrary;
use crate::request::{Form, Request};
use crate::screen::Screen;
use crate::sources::Sources;
use crate::telling::{Progress, tell_build, tell_end, tell_progress};
use crate::watching::{millis, timed_build};
use al_base::{Diagnostic, Files, Name};
use al_folder::{ImageChange, RunEnd};
use al_report::{
    Noted, build_line, causes_of, counts_of, diagnostic_line, end_line, noted_of, sarif_text,
};
use al_session_served::Outcome;
use al_session_stream::Sink;
use std::alloc::Global;

/// Prints why the last build gave no program, if it gave none: diagnostics with notes, and at the end the units that weren't checked; plain
/// diagnostics if they are asked for; or objects for other programs.
///
/// # Errors
///
/// A [`Failure`] if an output can't be written or memory runs out.
pub fn report_build<L: FolderLibrary, O: Sink, E: Sink>(
    alloc: Global,
    screen: &mut Screen<O, E>,
    library: &L,
    sources: &Sources,
    request: &Request<'_>,
) -> Result<(), Failure>
    ensures told { screen.old.form ≡ Text → request.now.plain ≡ true → Adds E.written E.faults E.waits screen.old.error.sink screen.new.error.sink screen.old.error.so_far screen.new.error.so_far (last_told screen.old.is_open sources.now.folders sources.now.texts true (gave_last (L.state library.now))) }
    ensures others { was_faulty (gave_last (L.state library.now)) ≡ false → Adds E.written E.faults E.waits screen.old.error.sink screen.new.error.sink screen.old.error.so_far screen.new.error.so_far (last_told screen.old.is_open sources.now.folders sources.now.texts request.now.plain (gave_last (L.state library.now))) }
    ensures quiet { screen.new.output ≡ screen.old.output }
{
    if screen.form == Form::Text && request.plain {
        return tell_build(screen, library, sources, true);
    }
    report_last(alloc, screen, library, sources, request)
}

fn report_last<L: FolderLibrary, O: Sink, E: Sink>(
    alloc: Global,
    screen: &mut Screen<O, E>,
    library: &L,
    sources: &Sources,
    request: &Request<'_>,
) -> Result<(), Failure>
    ensures others { was_faulty (gave_last (L.state library.now)) ≡ false → Adds E.written E.faults E.waits screen.old.error.sink screen.new.error.sink screen.old.error.so_far screen.new.error.so_far (last_told screen.old.is_open sources.now.folders sources.now.texts request.now.plain (gave_last (L.state library.now))) }
    ensures quiet { screen.new.output ≡ screen.old.output }
{
    let Some(built) = library.last() else {
        return Ok(());
    };
    match built.outcome {
        Outcome::Faulty(found) => report_found(alloc, screen, sources, request, found),
        _ => tell_build(screen, library, sources, request.plain),
    }
}

// Prints these diagnostics of the sources, in the form that is asked for.
fn report_found<O: Sink, E: Sink>(
    alloc: Global,
    screen: &mut Screen<O, E>,
    sources: &Sources,
    request: &Request<'_>,
    found: &[Diagnostic],
) -> Result<(), Failure>
    ensures { screen.new.output ≡ screen.old.output }
{
    let told = noted_of(alloc, &sources.texts, found, request.all, !request.plain)?;
    match screen.form {
        Form::Text => report_text(alloc, screen, sources, request, found, told.as_slice()),
        Form::Json => report_lines(alloc, screen, sources, told.as_slice()),
        Form::Sarif => report_document(alloc, screen, sources, told.as_slice()),
    }
}

fn report_text<O: Sink, E: Sink>(
    alloc: Global,
    screen: &mut Screen<O, E>,
    sources: &Sources,
    request: &Request<'_>,
    found: &[Diagnostic],
    told: &[Noted<'_>],
) -> Result<(), Failure>
    ensures { screen.new.output ≡ screen.old.output }
{
    let causes = causes_of(alloc, &sources.texts, found)?;
    screen.begin();
    screen.error.say_report(
        &sources.folders,
        &sources.texts,
        request.plain,
        told,
        counts_of(found),
        causes.as_slice(),
    );
    screen.end()
}

fn report_lines<O: Sink, E: Sink>(
    alloc: Global,
    screen: &mut Screen<O, E>,
    sources: &Sources,
    told: &[Noted<'_>],
) -> Result<(), Failure>
    ensures { screen.new.output ≡ screen.old.output }
{
    for noted in told {
        report_line(alloc, screen, sources, noted)?;
    }
    Ok(())
}

fn report_line<O: Sink, E: Sink>(
    alloc: Global,
    screen: &mut Screen<O, E>,
    sources: &Sources,
    noted: &Noted<'_>,
) -> Result<(), Failure>
    ensures { screen.new.output ≡ screen.old.output }
{
    let line = diagnostic_line(alloc, &sources.folders, &sources.texts, noted)?;
    screen.tell_line(&[line.as_bytes()])
}

fn report_document<O: Sink, E: Sink>(
    alloc: Global,
    screen: &mut Screen<O, E>,
    sources: &Sources,
    told: &[Noted<'_>],
) -> Result<(), Failure>
    ensures { screen.new.output ≡ screen.old.output }
{
    let text = sarif_text(alloc, &sources.folders, &sources.texts, told)?;
    screen.tell_line(&[text.as_bytes()])
}

/// Prints what a build did, if the form is for people or one object a line.
///
/// # Errors
///
/// A [`Failure`] if an output can't be written or memory runs out.
pub fn report_progress<O: Sink, E: Sink>(
    alloc: Global,
    screen: &mut Screen<O, E>,
    progress: Progress,
) -> Result<(), Failure>
    ensures told { screen.old.form ≡ Text → Adds E.written E.faults E.waits screen.old.error.sink screen.new.error.sink screen.old.error.so_far screen.new.error.so_far (line_end screen.old.is_open ++ progress_line progress.checked progress.sources progress.change progress.millis) }
    ensures silent { screen.old.form ≡ Sarif → screen.new.error ≡ screen.old.error }
    ensures quiet { screen.new.output ≡ screen.old.output }
{
    match screen.form {
        Form::Text => tell_progress(screen, progress),
        Form::Json => report_built(alloc, screen, progress),
        Form::Sarif => Ok(()),
    }
}

// Prints what a build did, as a JSON object.
fn report_built<O: Sink, E: Sink>(
    alloc: Global,
    screen: &mut Screen<O, E>,
    progress: Progress,
) -> Result<(), Failure>
    ensures { screen.new.output ≡ screen.old.output }
{
    let has_image = !matches!(progress.change, ImageChange::Absent);
    let line = build_line(
        alloc,
        progress.checked,
        progress.sources,
        has_image,
        progress.millis,
    )?;
    screen.tell_line(&[line.as_bytes()])
}

/// Prints how a run ended. The files of its units are in these folders.
///
/// # Errors
///
/// A [`Failure`] if an output can't be written or memory runs out.
pub fn report_end<O: Sink, E: Sink>(
    alloc: Global,
    screen: &mut Screen<O, E>,
    folders: &Files,
    end: &RunEnd,
) -> Result<(), Failure>
    ensures told { screen.old.form ≡ Text → Adds E.written E.faults E.waits screen.old.error.sink screen.new.error.sink screen.old.error.so_far screen.new.error.so_far (end_told screen.old.is_open folders.now end.now) }
    ensures quiet { screen.new.output ≡ screen.old.output }
{
    if screen.form != Form::Json {
        return tell_end(screen, folders, end);
    }
    let line = end_line(alloc, folders, end)?;
    screen.tell_line(&[line.as_bytes()])
}

/// Builds a main unit of the sources that the library holds, and prints what the build did if JSON objects are asked for.
///
/// # Errors
///
/// A [`Failure`] if an output can't be written, the clock can't be read or memory runs out.
pub fn build_one<L: FolderLibrary, D: Disk, O: Sink, E: Sink>(
    alloc: Global,
    disk: &D,
    screen: &mut Screen<O, E>,
    library: &mut L,
    sources: &Sources,
    unit: &Name,
) -> Result<(), Failure>
    requires { Holds (L.state library.old) sources.now.texts }
    ensures holds { Holds (L.state library.new) sources.now.texts }
    ensures built { OnOk result (IsBuiltFrom L.meaning (L.state library.new) sources.now.texts unit.now) }
{
    if screen.form != Form::Json {
        return build(library, sources, unit);
    }
    let start = millis(disk)?;
    let progress = timed_build(disk, library, sources, unit, start)?;
    report_built(alloc, screen, progress)
}
