// Traces as trace events in JSON, as Perfetto reads them: a track a task, a slice for each state and in it one for the object that the task is
// inside, and instants for ticks and exceptions. Times are microseconds; each slice has the numbers of the events that began and ended it.
use crate::names::{Names, exception_word, push_source, state_word, unit_word};
use crate::rows::Row;
use al_tasks::{Status, TaskLook};
use std::alloc::AllocError;

// The track of the clock; those of tasks are one more than their numbers, at most 64.
const CLOCK: u32 = 100;

/// A moment: nanoseconds and events from the start.
#[derive(Clone, Copy)]
pub(crate) struct Stamp {
    pub(crate) nanos: u64,
    pub(crate) events: u64,
}

/// The names of the tracks.
pub(crate) fn push_opening(out: &mut String, names: &Names) -> Result<(), AllocError> {
    out.push_str(
        "[\n{\"ph\":\"M\",\"name\":\"process_name\",\"pid\":1,\"args\":{\"name\":\"program\"}}",
    )?;
    push_track(out, CLOCK, "clock")?;
    push_track(out, 1, "environment task")?;
    for index in 0..names.tasks() {
        push_task(out, names, index)?;
    }
    Ok(())
}

fn push_track(out: &mut String, track: u32, name: &str) -> Result<(), AllocError> {
    write!(
        out,
        ",\n{{\"ph\":\"M\",\"name\":\"thread_name\",\"pid\":1,\"tid\":{track},\"args\":{{\"name\":\"{name}\"}}}}"
    )
}

fn push_task(out: &mut String, names: &Names, index: u32) -> Result<(), AllocError> {
    let number = index.saturating_add(1);
    let track = number.saturating_add(1);
    let unit = unit_word(names.unit_of_task(number));
    write!(
        out,
        ",\n{{\"ph\":\"M\",\"name\":\"thread_name\",\"pid\":1,\"tid\":{track},\"args\":{{\"name\":\"task {number} of {unit}\"}}}}"
    )
}

// What each event begins with: its kind, its time, its track and the number of the event.
fn push_head(out: &mut String, kind: &str, at: Stamp, track: u32) -> Result<(), AllocError> {
    let micros = at.nanos / 1000;
    let part = at.nanos % 1000;
    let events = at.events;
    write!(
        out,
        ",\n{{\"ph\":\"{kind}\",\"ts\":{micros}.{part:03},\"pid\":1,\"tid\":{track},\"args\":{{\"event\":{events}"
    )
}

fn track_of(look: &TaskLook) -> u32 {
    look.number.saturating_add(1)
}

/// A tick of the clock.
pub(crate) fn push_tick(out: &mut String, at: Stamp) -> Result<(), AllocError> {
    push_head(out, "i", at, CLOCK)?;
    out.push_str("},\"s\":\"t\",\"name\":\"tick\"}")
}

/// The slices of a task that end, and those that begin.
pub(crate) fn push_row(out: &mut String, row: &Row<'_>, at: Stamp) -> Result<(), AllocError> {
    let turned = row.has_turned();
    if !turned && !row.has_moved() {
        return Ok(());
    }
    if let Some(before) = row.before {
        push_ends(out, &before, turned, at)?;
    }
    if turned {
        push_state(out, row, at)?;
    }
    push_inside(out, &row.now, at)
}

// The ends of a task's slices: that of the object that it is inside, and that of its state.
fn push_ends(
    out: &mut String,
    look: &TaskLook,
    with_state: bool,
    at: Stamp,
) -> Result<(), AllocError> {
    if look.object.is_some() {
        push_end_of_slice(out, look, at)?;
    }
    if with_state {
        push_end_of_slice(out, look, at)?;
    }
    Ok(())
}

fn push_end_of_slice(out: &mut String, look: &TaskLook, at: Stamp) -> Result<(), AllocError> {
    push_head(out, "E", at, track_of(look))?;
    out.push_str("}}")
}

fn push_state(out: &mut String, row: &Row<'_>, at: Stamp) -> Result<(), AllocError> {
    let state = state_word(row.now.state);
    let level = row.now.level;
    push_head(out, "B", at, track_of(&row.now))?;
    write!(out, ",\"priority\":{level},\"at\":\"")?;
    push_source(out, row.unit, row.line)?;
    write!(out, "\"}},\"name\":\"{state}\"}}")
}

fn push_inside(out: &mut String, look: &TaskLook, at: Stamp) -> Result<(), AllocError> {
    let Some(object) = look.object else {
        return Ok(());
    };
    let level = look.level;
    push_head(out, "B", at, track_of(look))?;
    write!(
        out,
        ",\"priority\":{level}}},\"name\":\"inside object {object}\"}}"
    )
}

/// An exception that ends the run.
pub(crate) fn push_end(
    out: &mut String,
    status: Status,
    running: u32,
    at: Stamp,
) -> Result<(), AllocError> {
    let Status::Raised {
        kind,
        unit: _,
        line: _,
    } = status
    else {
        return Ok(());
    };
    let exception = exception_word(kind);
    push_head(out, "i", at, running.saturating_add(1))?;
    write!(out, "}},\"s\":\"p\",\"name\":\"{exception}\"}}")
}

/// The ends of all slices of a task.
pub(crate) fn push_last(out: &mut String, look: &TaskLook, at: Stamp) -> Result<(), AllocError> {
    push_ends(out, look, true, at)
}

/// The end of the trace.
pub(crate) fn push_close(out: &mut String) -> Result<(), AllocError> {
    out.push_str("\n]\n")
}
