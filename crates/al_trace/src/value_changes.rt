// Traces as value change dumps (IEEE 1364, clause 18), in nanoseconds: a group a task with its state, its priority and the object that it is
// inside, a group an object with its owner, and the clock. Names are strings, a kind of variable that GTKWave adds to the standard's.
use crate::moment::Moment;
use crate::names::{Names, number_of, push_flat, state_word, unit_word};
use crate::rows::Row;
use al_tasks::World;
use std::alloc::AllocError;

/// The variables, with no value yet.
pub(crate) fn push_opening(out: &mut String, names: &Names) -> Result<(), AllocError> {
    out.push_str("$comment a tick of the clock is a millisecond $end\n$timescale 1 ns $end\n")?;
    out.push_str("$scope module program $end\n$var real 64 clock clock $end\n")?;
    for number in 0..names.tasks().saturating_add(1) {
        push_task(out, names, number)?;
    }
    for number in 0..names.regions().len() {
        push_object(out, names, number_of(number))?;
    }
    push_values(out, names)
}

fn push_task(out: &mut String, names: &Names, number: u32) -> Result<(), AllocError> {
    push_scope(out, "task", number, unit_word(names.unit_of_task(number)))?;
    write!(out, "$var string 1 s{number} state $end\n")?;
    write!(out, "$var real 64 p{number} priority $end\n")?;
    write!(out, "$var string 1 i{number} inside $end\n$upscope $end\n")
}

fn push_object(out: &mut String, names: &Names, number: u32) -> Result<(), AllocError> {
    push_scope(
        out,
        "object",
        number,
        unit_word(names.unit_of_object(number)),
    )?;
    write!(out, "$var string 1 o{number} owner $end\n$upscope $end\n")
}

fn push_scope(out: &mut String, kind: &str, number: u32, unit: &str) -> Result<(), AllocError> {
    write!(out, "$scope module {kind}_{number}")?;
    if unit != "-" {
        out.push_str("_")?;
        push_flat(out, unit)?;
    }
    out.push_str(" $end\n")
}

// The first values: no task is created, and nobody is inside anything.
fn push_values(out: &mut String, names: &Names) -> Result<(), AllocError> {
    out.push_str("$upscope $end\n$enddefinitions $end\n#0\n$dumpvars\nr0 clock\n")?;
    for number in 0..names.tasks().saturating_add(1) {
        write!(out, "sabsent s{number}\nr0 p{number}\ns- i{number}\n")?;
    }
    for number in 0..names.regions().len() {
        write!(out, "s- o{number}\n")?;
    }
    out.push_str("$end\n")
}

/// The time from which on values hold.
pub(crate) fn push_time(out: &mut String, nanos: u64) -> Result<(), AllocError> {
    write!(out, "#{nanos}\n")
}

/// A tick of the clock.
pub(crate) fn push_tick(out: &mut String, moment: Moment) -> Result<(), AllocError> {
    let ticks = moment.ticks;
    write!(out, "r{ticks} clock\n")
}

/// What has changed of a task, and who is inside the objects that it left and entered.
pub(crate) fn push_row(out: &mut String, row: &Row<'_>, world: &World) -> Result<(), AllocError> {
    push_state(out, row)?;
    if row.has_moved() {
        push_inside(out, row)?;
        push_owner(out, row.object_before(), world)?;
        push_owner(out, row.now.object, world)?;
    }
    Ok(())
}

fn push_state(out: &mut String, row: &Row<'_>) -> Result<(), AllocError> {
    let number = row.now.number;
    let state = state_word(row.now.state);
    let level = row.now.level;
    if row.has_turned() {
        write!(out, "s{state} s{number}\n")?;
    }
    if row.has_risen() {
        write!(out, "r{level} p{number}\n")?;
    }
    Ok(())
}

fn push_inside(out: &mut String, row: &Row<'_>) -> Result<(), AllocError> {
    let number = row.now.number;
    match row.now.object {
        Some(object) => write!(out, "sobject_{object} i{number}\n"),
        None => write!(out, "s- i{number}\n"),
    }
}

fn push_owner(out: &mut String, object: Option<u32>, world: &World) -> Result<(), AllocError> {
    let Some(object) = object else {
        return Ok(());
    };
    match world.owner(object) {
        Some(task) => write!(out, "stask_{task} o{object}\n"),
        None => write!(out, "s- o{object}\n"),
    }
}
