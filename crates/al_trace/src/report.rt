// Where tasks are when a run has ended: a line a task, and why Program_Error was raised.
use crate::named::{Named, ReadSources};
use al_base::NoMemory;
use al_link_image::Image;
use al_machine::Exception;
use al_tasks::{ErrorCause, Status, TaskLook, TaskState, World};
use std::alloc::Global;

// The environment task and 63 others.
const TASKS: u32 = 64;

/// What is printed after the end of a run of a program with tasks that didn't finish: why Program_Error was raised, which task ran out of storage, and
/// a line for each task with its name, its priority, its state, and the line of the source that it is at. Nothing is printed of a program without
/// tasks.
///
/// # Errors
///
/// `NoMemory` if memory runs out.
pub fn task_report(
    alloc: Global,
    image: &Image,
    world: &World,
    sources: ReadSources<'_>,
) -> Result<String, NoMemory> {
    let mut out = String::new(alloc);
    if image.tasks() == 0 || matches!(world.status(), Status::Finished | Status::Stuck) {
        return Ok(out);
    }
    let named = Named::new(alloc, image, world, sources)?;
    push_why(&mut out, &named, world)?;
    for number in 0..world.created().min(TASKS).saturating_add(1) {
        if let Some(look) = world.look(number) {
            push_task(&mut out, &named, &look)?;
        }
    }
    Ok(out)
}

// Why the exception was raised that ended the run, and in which task.
fn push_why(out: &mut String, named: &Named<'_>, world: &World) -> Result<(), NoMemory> {
    let Status::Raised {
        kind,
        unit: _,
        line: _,
    } = world.status()
    else {
        return Ok(());
    };
    out.push_str("in ")?;
    push_name(out, named, world.running().unwrap_or(0))?;
    match kind {
        Exception::Program => push_cause(out, named, world.cause())?,
        Exception::Storage => out.push_str(", whose stack is full")?,
        Exception::Constraint => {}
    }
    out.push_str("\n")?;
    Ok(())
}

fn push_cause(out: &mut String, named: &Named<'_>, cause: ErrorCause) -> Result<(), NoMemory> {
    match cause {
        ErrorCause::AboveCeiling {
            object,
            ceiling,
            level,
        } => {
            write!(out, ": the ceiling {ceiling} of ")?;
            named.push_object(out, object)?;
            write!(out, " is below its priority, {level}")?;
            Ok(())
        }
        ErrorCause::Again(object) => {
            out.push_str(": it calls ")?;
            named.push_object(out, object)?;
            Ok(out.push_str(" from inside it")?)
        }
        ErrorCause::SecondCaller(object) => {
            out.push_str(": another task waits at the entry of ")?;
            named.push_object(out, object)
        }
        ErrorCause::Blocking(object) => {
            out.push_str(": it would wait or put something out inside ")?;
            named.push_object(out, object)
        }
        ErrorCause::Other => Ok(()),
    }
}

// Where a task is.
fn push_task(out: &mut String, named: &Named<'_>, look: &TaskLook) -> Result<(), NoMemory> {
    let level = look.level;
    out.push_str("  ")?;
    push_name(out, named, look.number)?;
    write!(out, " (priority {level}) ")?;
    push_state(out, named, look.state)?;
    push_where(out, named, look)
}

// The line that a task is at, unless it has ended.
fn push_where(out: &mut String, named: &Named<'_>, look: &TaskLook) -> Result<(), NoMemory> {
    if !matches!(look.state, TaskState::Ended) {
        out.push_str(", ")?;
        named.push_place(out, look.place)?;
    }
    Ok(out.push_str("\n")?)
}

fn push_name(out: &mut String, named: &Named<'_>, number: u32) -> Result<(), NoMemory> {
    if number == 0 {
        return Ok(out.push_str("environment task")?);
    }
    named.push_task(out, number)
}

fn push_state(out: &mut String, named: &Named<'_>, state: TaskState) -> Result<(), NoMemory> {
    match state {
        TaskState::Running => Ok(out.push_str("is running")?),
        TaskState::Ready => Ok(out.push_str("is ready")?),
        TaskState::Created => Ok(out.push_str("isn't started yet")?),
        TaskState::Activating => Ok(out.push_str("waits until all tasks have started")?),
        TaskState::Delayed(moment) => Ok(write!(out, "is delayed until {moment} ms")?),
        TaskState::Waiting(object) => {
            out.push_str("waits at ")?;
            named.push_entry(out, object)
        }
        TaskState::Ended => Ok(out.push_str("has ended")?),
    }
}
