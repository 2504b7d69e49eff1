// What builds and runs print.
ghost use Rattle.std.specs.Prelude.{◌≡◌, ◌-◌, ◌^◌, ◌<◌, ◌++◌, IsOk, map};
ghost use Rattle.al_base.specs.Batch.{finding_of, key_of};
ghost use Rattle.al_session_stream.specs.Output.{Adds};
ghost use Rattle.al_session_served.specs.Outcomes.{outcome_model};
ghost use Rattle.al_folder.specs.Diagnostics.{diagnostics_text};
ghost use Rattle.al_folder_served.specs.Orders.{order_text};
ghost use Rattle.al_folder.specs.Parts.{part_lines};
ghost use Rattle.al_folder.specs.Progress.{progress_line};
ghost use Rattle.al_folder_served.specs.Sources.{gave_last};
ghost use Rattle.al_folder_served.specs.Told.{line_end, build_text, checked_told, last_told, is_silent, end_told};

use crate::failure::Failure;
use crate::library::FolderLibrary;
use crate::reasons::Reasons;
use crate::screen::Screen;
use crate::sources::Sources;
use crate::voice::Voice;
use al_base::{Diagnostic, Files, UnitKey};
use al_folder::{
    ImageChange, RunEnd, emit_cycle, emit_diagnostics, emit_no_body, emit_no_main, emit_no_subunit,
    emit_too_large,
};
use al_session_served::{Built, Outcome};
use al_session_stream::{Device, Sink};

/// Prints why the last build gave no program, if it gave none.
///
/// # Errors
///
/// A [`Failure`] if an output can't be written.
pub fn tell_build<L: FolderLibrary, O: Sink, E: Sink>(
    screen: &mut Screen<O, E>,
    library: &L,
    sources: &Sources,
    is_plain: bool,
) -> Result<(), Failure>
    ensures told { Adds E.written E.faults E.waits screen.old.error.sink screen.new.error.sink screen.old.error.so_far screen.new.error.so_far (last_told screen.old.is_open sources.now.folders sources.now.texts is_plain (gave_last (L.state library.now))) }
    ensures quiet { screen.new.output ≡ screen.old.output }
{
    let Some(built) = library.last() else {
        return Ok(());
    };
    if built.outcome.image().is_some() {
        return Ok(());
    }
    screen.begin();
    say_built(&mut screen.error, sources, is_plain, &built);
    screen.end()
}

// Writes why there is no program.
fn say_built<K: Sink>(voice: &mut Voice<K>, sources: &Sources, is_plain: bool, built: &Built<'_>)
    ensures { Adds K.written K.faults K.waits voice.old.sink voice.new.sink voice.old.so_far voice.new.so_far (build_text sources.now.folders sources.now.texts is_plain built.now.main.now (outcome_model built.now.outcome)) }
{
    voice.so_far = emit_built(voice.so_far, &mut voice.sink, sources, is_plain, built);
}

// Writes why there is no program.
fn emit_built<K: Sink>(
    so_far: Result<(), Device>,
    writer: &mut K,
    sources: &Sources,
    is_plain: bool,
    built: &Built<'_>,
) -> Result<(), Device>
    requires { IsOk so_far → K.faults writer.old < 2 ^ 64 - 1 }
    ensures faults { IsOk result → IsOk so_far × (K.faults writer.new ≡ K.faults writer.old) }
    ensures adds { Adds K.written K.faults K.waits writer.old writer.new so_far result (build_text sources.now.folders sources.now.texts is_plain built.now.main.now (outcome_model built.now.outcome)) }
{
    match built.outcome {
        Outcome::Faulty(found) => emit_found(so_far, writer, sources, is_plain, found),
        Outcome::NoMain => emit_no_main(so_far, writer, built.main),
        Outcome::NoBody(name) => emit_no_body(so_far, writer, name),
        Outcome::NoSubunit(name) => emit_no_subunit(so_far, writer, name),
        Outcome::Cycle(lines) => emit_cycle(so_far, writer, lines),
        Outcome::TooLarge(_) => emit_too_large(so_far, writer),
        Outcome::Made(_, _) => so_far,
    }
}

// Writes the errors of the sources.
fn emit_found<K: Sink>(
    so_far: Result<(), Device>,
    writer: &mut K,
    sources: &Sources,
    is_plain: bool,
    found: &[Diagnostic],
) -> Result<(), Device>
    requires { IsOk so_far → K.faults writer.old < 2 ^ 64 - 1 }
    ensures faults { IsOk result → IsOk so_far × (K.faults writer.new ≡ K.faults writer.old) }
    ensures adds { Adds K.written K.faults K.waits writer.old writer.new so_far result (diagnostics_text sources.now.folders sources.now.texts is_plain (map finding_of found.now)) }
{
    emit_diagnostics(
        so_far,
        writer,
        &sources.folders,
        &sources.texts,
        is_plain,
        found,
    )
}

// Whether nothing is printed for such an end of a run.
fn is_silent(end: &RunEnd) -> bool
    ensures { result ≡ is_silent end.now }
{
    match end {
        RunEnd::Finished => true,
        RunEnd::Idle => false,
        RunEnd::Spent => false,
        RunEnd::Stuck => false,
        RunEnd::Raised {
            exception: _,
            unit: _,
            line: _,
        } => false,
    }
}

/// Prints how a run ended. The files of its units are in these folders.
///
/// # Errors
///
/// A [`Failure`] if an output can't be written.
pub fn tell_end<O: Sink, E: Sink>(
    screen: &mut Screen<O, E>,
    folders: &Files,
    end: &RunEnd,
) -> Result<(), Failure>
    ensures told { Adds E.written E.faults E.waits screen.old.error.sink screen.new.error.sink screen.old.error.so_far screen.new.error.so_far (end_told screen.old.is_open folders.now end.now) }
    ensures quiet { screen.new.output ≡ screen.old.output }
{
    if is_silent(end) {
        return Ok(());
    }
    screen.begin();
    screen.error.say_end(folders, end);
    screen.end()
}

/// What a build did.
#[derive(Clone, Copy)]
pub struct Progress {
    /// The number of units that it checked, and of sources.
    pub checked: usize,
    pub sources: usize,
    pub change: ImageChange,
    pub millis: usize,
}

/// Prints what a build did.
///
/// # Errors
///
/// A [`Failure`] if an output can't be written.
pub fn tell_progress<O: Sink, E: Sink>(
    screen: &mut Screen<O, E>,
    progress: Progress,
) -> Result<(), Failure>
    ensures told { Adds E.written E.faults E.waits screen.old.error.sink screen.new.error.sink screen.old.error.so_far screen.new.error.so_far (line_end screen.old.is_open ++ progress_line progress.checked progress.sources progress.change progress.millis) }
    ensures quiet { screen.new.output ≡ screen.old.output }
{
    screen.begin();
    screen.error.say_progress(
        progress.checked,
        progress.sources,
        progress.change,
        progress.millis,
    );
    screen.end()
}

/// Prints an order of elaboration with its reasons on the standard output.
///
/// # Errors
///
/// A [`Failure`] if an output can't be written.
pub fn put_order<O: Sink, E: Sink>(
    screen: &mut Screen<O, E>,
    order: &[Reasons],
) -> Result<(), Failure>
    ensures put { Adds O.written O.faults O.waits screen.old.output.sink screen.new.output.sink screen.old.output.so_far screen.new.output.so_far (order_text order.now) }
    ensures quiet { (screen.new.error ≡ screen.old.error) × (screen.new.is_open ≡ screen.old.is_open) }
    ensures form { screen.new.form ≡ screen.old.form }
{
    screen.output.say_order(order);
    screen.end_put()
}

/// Prints a line for each part of a unit on the standard error.
///
/// # Errors
///
/// A [`Failure`] if an output can't be written.
pub fn tell_parts<O: Sink, E: Sink>(
    screen: &mut Screen<O, E>,
    keys: &[UnitKey],
) -> Result<(), Failure>
    ensures told { Adds E.written E.faults E.waits screen.old.error.sink screen.new.error.sink screen.old.error.so_far screen.new.error.so_far (line_end screen.old.is_open ++ part_lines (map key_of keys.now)) }
    ensures quiet { screen.new.output ≡ screen.old.output }
{
    screen.begin();
    screen.error.say_parts(keys);
    screen.end()
}

/// Prints the units that a build checked on the standard error.
///
/// # Errors
///
/// A [`Failure`] if an output can't be written.
pub fn tell_checked<O: Sink, E: Sink>(
    screen: &mut Screen<O, E>,
    units: &[UnitKey],
) -> Result<(), Failure>
    ensures told { Adds E.written E.faults E.waits screen.old.error.sink screen.new.error.sink screen.old.error.so_far screen.new.error.so_far (checked_told screen.old.is_open (map key_of units.now)) }
    ensures quiet { screen.new.output ≡ screen.old.output }
{
    if units.is_empty() {
        return screen.tell_line(&[b"no unit was checked"]);
    }
    tell_parts(screen, units)
}
