// Traces as text: a line for each change, `EVENTS TICKS WHAT`.
ghost use Rattle.std.specs.Prelude.{◌≡◌, ◌++◌, OnOk, string_bytes};
ghost use Rattle.al_trace.specs.Texts.{moment_text, tick_line, until_text, inside_text, doing_text, end_text, end_line};

use crate::moment::Moment;
use crate::names::{Names, exception_word, number_of, push_source, state_word};
use crate::rows::Row;
use al_tasks::{Status, TaskState};
use std::alloc::AllocError;

/// What the trace is of.
pub(crate) fn push_opening(out: &mut String, names: &Names) -> Result<(), AllocError> {
    out.push_str("# events, ticks, and what changed\n")?;
    for index in 0..names.tasks() {
        push_task(out, names, index)?;
    }
    for (number, region) in names.regions().iter().enumerate() {
        push_object(out, names, number, region.ceiling)?;
    }
    Ok(())
}

fn push_task(out: &mut String, names: &Names, index: u32) -> Result<(), AllocError> {
    let number = index.saturating_add(1);
    write!(out, "# task {number} of ")?;
    push_source(out, names.unit_of_task(number), None)?;
    out.push_str("\n")
}

fn push_object(
    out: &mut String,
    names: &Names,
    number: usize,
    ceiling: u32,
) -> Result<(), AllocError> {
    write!(out, "# object {number} of ")?;
    push_source(out, names.unit_of_object(number_of(number)), None)?;
    write!(out, ", ceiling {ceiling}\n")
}

fn push_moment(out: &mut String, moment: Moment) -> Result<(), AllocError>
    ensures { OnOk result (string_bytes out.new ≡ string_bytes out.old ++ moment_text moment) }
{
    let events = moment.events;
    let ticks = moment.ticks;
    write!(out, "{events} {ticks} ")
}

/// A tick of the clock.
pub(crate) fn push_tick(out: &mut String, moment: Moment) -> Result<(), AllocError>
    ensures { OnOk result (string_bytes out.new ≡ string_bytes out.old ++ tick_line moment) }
{
    push_moment(out, moment)?;
    out.push_str("tick\n")
}

/// A task that has another state or priority, or is inside another object.
pub(crate) fn push_row(out: &mut String, row: &Row<'_>) -> Result<(), AllocError> {
    push_moment(out, row.moment)?;
    push_doing(out, row)?;
    push_source(out, row.unit, row.line)?;
    out.push_str("\n")
}

fn push_doing(out: &mut String, row: &Row<'_>) -> Result<(), AllocError>
    ensures { OnOk result (string_bytes out.new ≡ string_bytes out.old ++ doing_text row.entry.now.now) }
{
    let number = row.now.number;
    let state = state_word(row.now.state);
    let level = row.now.level;
    write!(out, "task {number} {state}")?;
    push_until(out, row.now.state)?;
    write!(out, ", priority {level}, ")?;
    push_inside(out, row.now.object)
}

// Until when, or at which object.
fn push_until(out: &mut String, state: TaskState) -> Result<(), AllocError>
    ensures { OnOk result (string_bytes out.new ≡ string_bytes out.old ++ until_text state) }
{
    match state {
        TaskState::Delayed(moment) => write!(out, " until {moment}"),
        TaskState::Waiting(object) => write!(out, " at object {object}"),
        _ => Ok(()),
    }
}

fn push_inside(out: &mut String, object: Option<u32>) -> Result<(), AllocError>
    ensures { OnOk result (string_bytes out.new ≡ string_bytes out.old ++ inside_text object) }
{
    match object {
        Some(object) => write!(out, "inside object {object}, "),
        None => Ok(()),
    }
}

// How the run ended, with the number of the task that was running.
fn push_status(out: &mut String, status: Status, running: u32) -> Result<(), AllocError>
    ensures { OnOk result (string_bytes out.new ≡ string_bytes out.old ++ end_text status running) }
{
    match status {
        Status::Going => out.push_str("the steps are spent\n"),
        Status::Finished => out.push_str("finished\n"),
        Status::Idle => out.push_str("idle\n"),
        Status::Stuck => write!(out, "task {running} stuck\n"),
        Status::Raised {
            kind,
            unit: _,
            line: _,
        } => {
            let exception = exception_word(kind);
            write!(out, "task {running} raised {exception}\n")
        }
    }
}

/// How the run ended, with the number of the task that was running.
pub(crate) fn push_end(
    out: &mut String,
    moment: Moment,
    status: Status,
    running: u32,
) -> Result<(), AllocError>
    ensures { OnOk result (string_bytes out.new ≡ string_bytes out.old ++ end_line moment status running) }
{
    push_moment(out, moment)?;
    push_status(out, status, running)
}
