// One build, and the uses of its program.
ghost use Rattle.std.specs.Prelude.{◌≡◌, Bool, false, true, List, None, Some, IfOk, IfSome, OnOk, IsSome, map};
ghost use Rattle.std.specs.Option.{option_map};
ghost use Rattle.al_base.specs.Batch.{key_of};
ghost use Rattle.al_folder_served.specs.declared.reasons.Reasons.{Reasons};
ghost use Rattle.al_folder_served.specs.Orders.{order_text};
ghost use Rattle.al_session_stream.specs.Output.{Adds};
ghost use Rattle.al_session_served.specs.Library.{empty};
ghost use Rattle.al_folder.specs.declared.status.Ending.TheVariants.{Done, NotBuilt};
ghost use Rattle.al_folder_served.specs.Sources.{Holds, IsBuilt, IsBuiltFrom, gave_last, image_in, order_in};
ghost use Rattle.al_folder_served.specs.Told.{EndsSaved, IsSaved, IsSavedIf, PutsOrder, last_told, was_faulty, worse_of};
ghost use Rattle.al_folder_served.specs.Runs.{RunsBytes, WritesNext};
ghost use Rattle.al_folder_served.specs.declared.request.Form.TheVariants.{Text};

use crate::bringing::bring;
use crate::depends::print_depends;
use crate::disk::Disk;
use crate::explaining::{build_one, report_build};
use crate::failure::Failure;
use crate::image_files::save;
use crate::index::Told;
use crate::library::FolderLibrary;
use crate::reading::read_sources;
use crate::request::{Pace, Request};
use crate::running::{Run, run_image};
use crate::screen::Screen;
use crate::sources::Sources;
use crate::telling::put_order;
use al_base::{Files, Name, UnitKey};
use al_folder::Ending;
use al_session_stream::Sink;
use std::alloc::Global;

/// The uses of a program that was built.
#[derive(Clone, Copy)]
pub struct Uses {
    pub order: bool,
    pub run: bool,
    pub pace: Pace,
}

/// Builds a main unit of the folders once, with an empty library, and does what is asked for; or prints its files. It builds if all sources could be
/// read.
///
/// # Errors
///
/// A [`Failure`] if an output can't be written or memory runs out.
pub fn build_once<L: FolderLibrary, D: Disk, O: Sink, E: Sink, N: Run>(
    alloc: Global,
    disk: &mut D,
    screen: &mut Screen<O, E>,
    run: &mut N,
    library: &mut L,
    request: &Request<'_>,
    unit: &Name,
    told: &mut Told,
) -> Result<Ending, Failure>
    requires { L.state library.old ≡ empty }
{
    let none = Sources::new(alloc);
    let sources = read_sources(alloc, disk, screen, request, unit, told, &none)?;
    if !sources.are_whole {
        return Ok(Ending::NotBuilt);
    }
    if let Some(form) = request.depends {
        print_depends(alloc, screen, unit, &sources, form)?;
        return Ok(Ending::Done);
    }
    let before = Files::new(alloc);
    bring(alloc, library, &before, &sources.texts)?;
    build_one(alloc, disk, screen, library, &sources, unit)?;
    let uses = Uses {
        order: request.order,
        run: request.run,
        pace: request.pace,
    };
    finish_build(alloc, disk, screen, run, library, request, &sources, uses)
}

/// Builds a main unit of the sources that the library holds.
///
/// # Errors
///
/// `Memory` if memory runs out.
pub fn build<L: FolderLibrary>(
    library: &mut L,
    sources: &Sources,
    unit: &Name,
) -> Result<(), Failure>
    requires { Holds (L.state library.old) sources.now.texts }
    ensures holds { Holds (L.state library.new) sources.now.texts }
    ensures built { OnOk result (IsBuiltFrom L.meaning (L.state library.new) sources.now.texts unit.now) }
{
    library.build(unit.as_slice())?;
    Ok(())
}

/// The first ending unless it is `Done`, and else the second.
pub fn worse_of(first: Ending, second: Ending) -> Ending
    ensures { result ≡ worse_of first second }
{
    match first {
        Ending::Done => second,
        _ => first,
    }
}

/// Reports the result of the last build, which is of these sources, and uses the program. If there is none, the ending is `NotBuilt`.
///
/// # Errors
///
/// A [`Failure`] if an output can't be written or memory runs out.
pub fn finish_build<L: FolderLibrary, D: Disk, O: Sink, E: Sink, N: Run>(
    alloc: Global,
    disk: &mut D,
    screen: &mut Screen<O, E>,
    run: &mut N,
    library: &L,
    request: &Request<'_>,
    sources: &Sources,
    uses: Uses,
) -> Result<Ending, Failure>
    requires { IsBuilt L.meaning (L.state library.now) sources.now.texts }
    ensures without { image_in (gave_last (L.state library.now)) ≡ None → IfOk result (λ ending. ending ≡ NotBuilt) }
    ensures told { image_in (gave_last (L.state library.now)) ≡ None → screen.old.form ≡ Text → request.now.plain ≡ true → Adds E.written E.faults E.waits screen.old.error.sink screen.new.error.sink screen.old.error.so_far screen.new.error.so_far (last_told screen.old.is_open sources.now.folders sources.now.texts true (gave_last (L.state library.now))) }
    ensures others { image_in (gave_last (L.state library.now)) ≡ None → was_faulty (gave_last (L.state library.now)) ≡ false → Adds E.written E.faults E.waits screen.old.error.sink screen.new.error.sink screen.old.error.so_far screen.new.error.so_far (last_told screen.old.is_open sources.now.folders sources.now.texts request.now.plain (gave_last (L.state library.now))) }
    ensures quiet { image_in (gave_last (L.state library.now)) ≡ None → screen.new.output ≡ screen.old.output }
    ensures done { IsSome (image_in (gave_last (L.state library.now))) → request.now.image ≡ None → uses.run ≡ false → IfOk result (λ ending. ending ≡ Done) }
    ensures ordered { IsSome (image_in (gave_last (L.state library.now))) → uses.order ≡ true → OnOk result (PutsOrder L.are_reasons sources.now.texts (order_in (gave_last (L.state library.now))) (WritesNext O.written O.faults O.waits screen.old.output.sink screen.old.output.so_far)) }
    ensures saved { IfSome (image_in (gave_last (L.state library.now))) (λ bytes. IfOk result (EndsSaved request.now.image (λ file. IsSaved (D.holds disk.new) file.now bytes (WritesNext E.written E.faults E.waits screen.old.error.sink screen.old.error.so_far)) uses.run)) }
    ensures ran { IfSome (image_in (gave_last (L.state library.now))) (λ bytes. N.shows_nothing run.old → uses.order ≡ false → request.now.image ≡ None → uses.run ≡ true → IfOk result (RunsBytes uses.pace.tick uses.pace.steps bytes sources.now.folders (WritesNext O.written O.faults O.waits screen.old.output.sink screen.old.output.so_far) (λ told. screen.old.form ≡ Text → WritesNext E.written E.faults E.waits screen.old.error.sink screen.old.error.so_far told))) }
{
    match image_bytes(library) {
        Some(bytes) => use_program(
            alloc, disk, screen, run, library, request, sources, uses, bytes,
        ),
        None => {
            report_build(alloc, screen, library, sources, request)?;
            Ok(Ending::NotBuilt)
        }
    }
}

// The bytes of the image of the last build, if there was a build and it gave one.
fn image_bytes<L: FolderLibrary>(library: &L) -> Option<&[u8]>
    ensures { option_map (λ bytes. bytes.now) result ≡ image_in (gave_last (L.state library.now)) }
{
    library.last()?.outcome.image()
}

// Prints the order, writes the image of these bytes and runs the program, each if it is asked for.
fn use_program<L: FolderLibrary, D: Disk, O: Sink, E: Sink, N: Run>(
    alloc: Global,
    disk: &mut D,
    screen: &mut Screen<O, E>,
    run: &mut N,
    library: &L,
    request: &Request<'_>,
    sources: &Sources,
    uses: Uses,
    bytes: &[u8],
) -> Result<Ending, Failure>
    requires { image_in (gave_last (L.state library.now)) ≡ Some bytes.now }
    ensures done { request.now.image ≡ None → uses.run ≡ false → IfOk result (λ ending. ending ≡ Done) }
    ensures ordered { uses.order ≡ true → OnOk result (PutsOrder L.are_reasons sources.now.texts (order_in (gave_last (L.state library.now))) (WritesNext O.written O.faults O.waits screen.old.output.sink screen.old.output.so_far)) }
    ensures saved { IfOk result (EndsSaved request.now.image (λ file. IsSaved (D.holds disk.new) file.now bytes.now (WritesNext E.written E.faults E.waits screen.old.error.sink screen.old.error.so_far)) uses.run) }
    ensures ran { N.shows_nothing run.old → uses.order ≡ false → request.now.image ≡ None → uses.run ≡ true → IfOk result (RunsBytes uses.pace.tick uses.pace.steps bytes.now sources.now.folders (WritesNext O.written O.faults O.waits screen.old.output.sink screen.old.output.so_far) (λ told. screen.old.form ≡ Text → WritesNext E.written E.faults E.waits screen.old.error.sink screen.old.error.so_far told)) }
{
    print_asked_order(alloc, screen, library, &sources.texts, uses.order)?;
    let saved = save_program(alloc, disk, screen, request, bytes)?;
    let runs = show_program(screen, run, library, &sources.texts)?;
    if !runs {
        return Ok(saved);
    }
    let ran = run_program(alloc, screen, run, library, sources, uses)?;
    Ok(worse_of(saved, ran))
}

// Prints the order of elaboration of the last build, which is of these sources, if that is asked for.
fn print_asked_order<L: FolderLibrary, O: Sink, E: Sink>(
    alloc: Global,
    screen: &mut Screen<O, E>,
    library: &L,
    texts: &Files,
    is_asked: bool,
) -> Result<(), Failure>
    ensures put { is_asked ≡ true → OnOk result (PutsOrder L.are_reasons texts.now (order_in (gave_last (L.state library.now))) (Adds O.written O.faults O.waits screen.old.output.sink screen.new.output.sink screen.old.output.so_far screen.new.output.so_far)) }
    ensures none { is_asked ≡ false → screen.new.output ≡ screen.old.output }
    ensures quiet { (screen.new.error ≡ screen.old.error) × (screen.new.form ≡ screen.old.form) }
{
    if is_asked {
        return print_last_order(alloc, screen, library, texts);
    }
    Ok(())
}

// Prints the order of elaboration of the last build, which is of these sources.
fn print_last_order<L: FolderLibrary, O: Sink, E: Sink>(
    alloc: Global,
    screen: &mut Screen<O, E>,
    library: &L,
    texts: &Files,
) -> Result<(), Failure>
    ensures put { OnOk result (PutsOrder L.are_reasons texts.now (order_in (gave_last (L.state library.now))) (Adds O.written O.faults O.waits screen.old.output.sink screen.new.output.sink screen.old.output.so_far screen.new.output.so_far)) }
    ensures quiet { (screen.new.error ≡ screen.old.error) × (screen.new.form ≡ screen.old.form) }
{
    let Some(built) = library.last() else {
        return Ok(());
    };
    match built.outcome.order() {
        Some(order) => print_order(alloc, screen, library, texts, order),
        None => Ok(()),
    }
}

// Prints an order of elaboration of these sources.
fn print_order<L: FolderLibrary, O: Sink, E: Sink>(
    alloc: Global,
    screen: &mut Screen<O, E>,
    library: &L,
    texts: &Files,
    order: &[UnitKey],
) -> Result<(), Failure>
    ensures put { OnOk result ((reasons : List Reasons) × L.are_reasons texts.now (map key_of order.now) reasons × Adds O.written O.faults O.waits screen.old.output.sink screen.new.output.sink screen.old.output.so_far screen.new.output.so_far (order_text reasons)) }
    ensures quiet { (screen.new.error ≡ screen.old.error) × (screen.new.form ≡ screen.old.form) }
{
    let reasons = library.reasons(alloc, texts, order)?;
    put_order(screen, reasons.as_slice())
}

// Writes the image, if that is asked for.
fn save_program<D: Disk, O: Sink, E: Sink>(
    alloc: Global,
    disk: &mut D,
    screen: &mut Screen<O, E>,
    request: &Request<'_>,
    bytes: &[u8],
) -> Result<Ending, Failure>
    ensures none { request.now.image ≡ None → IfOk result (λ ending. ending ≡ Done) × (screen.new.error ≡ screen.old.error) }
    ensures saved { IfOk result (IsSavedIf request.now.image (λ file. IsSaved (D.holds disk.new) file.now bytes.now (WritesNext E.written E.faults E.waits screen.old.error.sink screen.old.error.so_far))) }
    ensures quiet { (screen.new.output ≡ screen.old.output) × (screen.new.form ≡ screen.old.form) }
{
    let Some(file) = request.image else {
        return Ok(Ending::Done);
    };
    let is_written = save(alloc, disk, screen, request, file, bytes)?;
    if !is_written {
        return Ok(Ending::NotBuilt);
    }
    Ok(Ending::Done)
}

// Shows the program of the last build, which is of these sources. Gives whether it is to be run if that is asked for.
fn show_program<L: FolderLibrary, O: Sink, E: Sink, N: Run>(
    screen: &mut Screen<O, E>,
    run: &mut N,
    library: &L,
    texts: &Files,
) -> Result<bool, Failure>
    ensures { N.shows_nothing run.old → IfOk result (λ runs. (runs ≡ true) × (screen.new ≡ screen.old)) }
{
    match library.image() {
        Some(image) => run.show(screen, image, texts),
        None => Ok(true),
    }
}

// Runs the program of the last build, if that is asked for.
fn run_program<L: FolderLibrary, O: Sink, E: Sink, N: Run>(
    alloc: Global,
    screen: &mut Screen<O, E>,
    run: &mut N,
    library: &L,
    sources: &Sources,
    uses: Uses,
) -> Result<Ending, Failure>
    ensures done { uses.run ≡ false → IfOk result (λ ending. ending ≡ Done) }
    ensures ran { IfSome (image_in (gave_last (L.state library.now))) (λ bytes. uses.run ≡ true → IfOk result (RunsBytes uses.pace.tick uses.pace.steps bytes sources.now.folders (WritesNext O.written O.faults O.waits screen.old.output.sink screen.old.output.so_far) (λ told. screen.old.form ≡ Text → WritesNext E.written E.faults E.waits screen.old.error.sink screen.old.error.so_far told))) }
{
    if !uses.run {
        return Ok(Ending::Done);
    }
    match library.image() {
        Some(image) => run_image(alloc, screen, run, sources, image, uses.pace),
        None => Ok(Ending::NotBuilt),
    }
}
