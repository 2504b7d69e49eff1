// Runs of images.
ghost use Rattle.std.specs.Prelude.{◌≡◌, IfOk};
ghost use Rattle.al_tasks.specs.WorldRuns.{end_of, raised_in, run_of, run_model};
ghost use Rattle.std.specs.Option.{option_copied};

use crate::{Status, World};
use al_base::{Name, NoMemory, UnitKey};
use al_link_image::{Image, ImageObject};
use al_machine::Exception;
use std::alloc::Global;

/// How a run ended.
#[derive(Drop)]
pub enum RunEnd {
    /// All tasks have ended.
    Finished,
    /// No task is ready or delayed, and some haven't ended.
    Idle,
    /// The number of events that was allowed is used up.
    Spent,
    /// The image is damaged.
    Stuck,
    /// An exception was raised in the code of this unit, on this line of its source if the image has lines.
    Raised {
        exception: Exception,
        unit: UnitKey,
        line: Option<u32>,
    },
}

/// The output of a run, and how it ended.
#[derive(Drop)]
pub struct RunReport {
    /// The output, in bytes.
    pub output: Vec<u8>,
    /// How it ended.
    pub ended: RunEnd,
}

/// The end of a run in which an exception was raised in the code of a unit.
fn raised_in(
    alloc: Global,
    exception: Exception,
    object: Option<&ImageObject>,
    line: Option<u32>,
) -> Result<RunEnd, NoMemory>
    ensures { IfOk result (λ ended. ended ≡ raised_in exception (option_copied object.entry) line) }
{
    match object {
        None => Ok(RunEnd::Stuck),
        Some(object) => {
            let name = Name::from_slice(alloc, object.name.as_slice())?;
            let kind = object.kind;
            let unit = UnitKey { name, kind };
            Ok(RunEnd::Raised {
                exception,
                unit,
                line,
            })
        }
    }
}

/// The end of a run whose image has these units.
fn end_of(alloc: Global, objects: &[ImageObject], status: Status) -> Result<RunEnd, NoMemory>
    ensures { IfOk result (λ ended. ended ≡ end_of objects.now status) }
{
    match status {
        Status::Going => Ok(RunEnd::Spent),
        Status::Finished => Ok(RunEnd::Finished),
        Status::Idle => Ok(RunEnd::Idle),
        Status::Raised { kind, unit, line } => raised_in(alloc, kind, objects.get(unit), line),
        Status::Stuck => Ok(RunEnd::Stuck),
    }
}

/// Runs an image from its start, for at most `steps` events, with a tick of the clock after every `tick` instructions.
///
/// # Errors
///
/// `NoMemory` if the allocator refuses memory.
pub fn run(alloc: Global, image: &Image, tick: u32, steps: u64) -> Result<RunReport, NoMemory>
    ensures { IfOk result (λ ran. run_model ran ≡ run_of image.now tick steps) }
{
    let mut world = World::load(alloc, image)?;
    world.tick_run(steps, u64::from(tick))?;
    let output = Vec::from_slice(alloc, world.output())?;
    let ended = end_of(alloc, image.objects(), world.status())?;
    Ok(RunReport { output, ended })
}
