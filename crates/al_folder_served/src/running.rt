// Runs of images, whose output is written as it comes.
ghost use Rattle.std.specs.Prelude.{◌≡◌, ◌≢◌, ◌⊎◌, ◌≤◌, ◌-◌, ℕ, true, List, Some, IfOk, IfSome, MatchBool, OnOk};
ghost use Rattle.std.specs.Option.{option_copied, option_map};
ghost use Rattle.al_session_stream.specs.Output.{Adds};
ghost use Rattle.al_tasks.specs.Partitions.{part_of_run};
ghost use Rattle.al_tasks.specs.declared.event.Status.TheVariants.{Going};
ghost use Rattle.al_folder_served.specs.Runs.{HasRun, RunsImage, WritesNext, end_of, raised_in};
ghost use Rattle.al_folder_served.specs.declared.request.Form.TheVariants.{Text};

use crate::explaining::report_end;
use crate::failure::Failure;
use crate::request::Pace;
use crate::screen::Screen;
use crate::sources::Sources;
use al_base::{Files, Name, NoMemory, UnitKey};
use al_folder::{Ending, RunEnd, ending_of};
use al_link_image::{Image, ImageObject};
use al_machine::Exception;
use al_session_stream::Sink;
use al_tasks::{Status, World};
use std::alloc::Global;

/// The largest number of steps of a part of a run.
pub const PART: u64 = 1_000_000;

/// How a program is run: part by part, by somebody who may look at each event.
pub trait Run {
    /// It shows nothing of a program before it is run.
    ghost shows_nothing: { Self → Type 0 };

    /// Shows a program that was built of these sources, or loaded. Gives whether it is to be run if that is asked for.
    ///
    /// # Errors
    ///
    /// A [`Failure`] if an output can't be written or memory runs out.
    fn show<O: Sink, E: Sink>(
        &mut self,
        screen: &mut Screen<O, E>,
        image: &Image,
        texts: &Files,
    ) -> Result<bool, Failure>
        ensures { shows_nothing self.old → IfOk result (λ runs. (runs ≡ true) × (screen.new ≡ screen.old)) };

    /// Called before the first event.
    ///
    /// # Errors
    ///
    /// `NoMemory` if the allocator refuses memory.
    fn begin(&mut self, image: &Image, world: &World) -> Result<(), NoMemory>;

    /// Runs at most `steps` events, with a tick of the clock after every `tick` instructions, of which `since` came after the last tick. Gives how
    /// many came after the last tick at the end. Who looks on changes nothing of the run.
    ///
    /// # Errors
    ///
    /// `NoMemory` if the allocator refuses memory.
    fn go_on(
        &mut self,
        world: &mut World,
        steps: u64,
        tick: u32,
        since: u64,
    ) -> Result<u64, NoMemory>
        requires steps { steps ≤ PART }
        requires since { since ≤ tick }
        ensures ran { IfOk result (λ last. (last, world.new) ≡ part_of_run steps tick since world.old) }
        ensures few { IfOk result (λ last. last ≤ tick) };

    /// Called when the run of a program of these sources has ended and its end was printed: prints what else there is.
    ///
    /// # Errors
    ///
    /// A [`Failure`] if an output can't be written or memory runs out.
    fn tell<O: Sink, E: Sink>(
        &mut self,
        screen: &mut Screen<O, E>,
        image: &Image,
        world: &World,
        sources: &Sources,
    ) -> Result<(), Failure>;
}

/// Runs an image of these sources, and prints how the run ended.
///
/// # Errors
///
/// A [`Failure`] if an output can't be written or memory runs out.
pub fn run_image<O: Sink, E: Sink, N: Run>(
    alloc: Global,
    screen: &mut Screen<O, E>,
    run: &mut N,
    sources: &Sources,
    image: &Image,
    pace: Pace,
) -> Result<Ending, Failure>
    ensures { IfOk result (RunsImage pace.tick pace.steps image.now sources.now.folders (WritesNext O.written O.faults O.waits screen.old.output.sink screen.old.output.so_far) (λ told. screen.old.form ≡ Text → WritesNext E.written E.faults E.waits screen.old.error.sink screen.old.error.so_far told)) }
{
    let mut world = World::load(alloc, image)?;
    run.begin(image, &world)?;
    run_world(screen, run, &mut world, pace)?;
    let end = end_of(alloc, image.objects(), world.status())?;
    report_end(alloc, screen, &sources.folders, &end)?;
    run.tell(screen, image, &world, sources)?;
    Ok(ending_of(&end))
}

// Runs a program in parts until it ends or its steps are used up. After each part its output is written and forgotten. Each part starts with the
// number of instructions since the last tick, so the parts are the same as the run in one.
fn run_world<O: Sink, E: Sink, N: Run>(
    screen: &mut Screen<O, E>,
    run: &mut N,
    world: &mut World,
    pace: Pace,
) -> Result<(), Failure>
    ensures put { OnOk result ((text : List ℕ) × HasRun pace.tick pace.steps world.old text world.new × Adds O.written O.faults O.waits screen.old.output.sink screen.new.output.sink screen.old.output.so_far screen.new.output.so_far text) }
    ensures quiet { OnOk result (screen.new.error ≡ screen.old.error) }
    ensures form { OnOk result (screen.new.form ≡ screen.old.form) }
{
    let mut since = 0u64;
    let mut left = pace.steps;
    for _part in 0..u64::MAX {
        let steps = part_of(left);
        since = run.go_on(world, steps, pace.tick, since)?;
        screen.put_run(world.output())?;
        world.let_go();
        left = left_after(left, steps);
        if is_over(left, world.status()) {
            return Ok(());
        }
    }
    Ok(())
}

// Whether no part of a run is left.
fn is_over(left: Option<u32>, status: Status) -> bool
    ensures { MatchBool result ((left ≡ Some 0) ⊎ (status ≢ Going)) ((left ≢ Some 0) × (status ≡ Going)) }
{
    left == Some(0) || !matches!(status, Status::Going)
}

// The number of steps of the next part.
fn part_of(left: Option<u32>) -> u64
    ensures part { result ≤ PART }
    ensures left { IfSome left (λ n. result ≤ n) }
{
    match left {
        Some(left) => PART.min(u64::from(left)),
        None => PART,
    }
}

// The number of steps that are left.
fn left_after(left: Option<u32>, steps: u64) -> Option<u32>
    ensures { result ≡ option_map (λ n. n - steps) left }
{
    let left = left?;
    match u32::try_from(steps) {
        Ok(steps) => Some(left.saturating_sub(steps)),
        Err(_) => Some(0),
    }
}

// The end of a run in which an exception was raised in the code of this unit.
fn raised_in(
    alloc: Global,
    exception: Exception,
    object: Option<&ImageObject>,
    line: Option<u32>,
) -> Result<RunEnd, NoMemory>
    ensures { IfOk result (λ end. end ≡ raised_in exception (option_copied object.entry) line) }
{
    let Some(object) = object else {
        return Ok(RunEnd::Stuck);
    };
    let name = Name::from_slice(alloc, object.name.as_slice())?;
    let unit = UnitKey {
        name,
        kind: object.kind,
    };
    Ok(RunEnd::Raised {
        exception,
        unit,
        line,
    })
}

// The end of a run whose image has these units.
fn end_of(alloc: Global, objects: &[ImageObject], status: Status) -> Result<RunEnd, NoMemory>
    ensures { IfOk result (λ end. end ≡ end_of objects.now status) }
{
    match status {
        Status::Going => Ok(RunEnd::Spent),
        Status::Finished => Ok(RunEnd::Finished),
        Status::Idle => Ok(RunEnd::Idle),
        Status::Stuck => Ok(RunEnd::Stuck),
        Status::Raised { kind, unit, line } => raised_in(alloc, kind, objects.get(unit), line),
    }
}
