// Loops by their schemes, and their exits (ARM 5.5, 5.7).
ghost use Rattle.std.specs.Prelude.{◌≡◌, OnOk, option_map};
ghost use Rattle.al_view_typed.specs.ExpressionViews.{typed_model};
ghost use Rattle.al_code.specs.Written.{written};
ghost use Rattle.al_code.specs.ExprPieces.{guarded};
ghost use Rattle.al_code.specs.Loops.{bounds_code, compare_code, exit_code, high_word, leave_code, low_word, mark_check, marked_code, step_operator, turn_code, while_code};

use crate::{
    Construct, JumpCondition, Output, Target, emit_check, emit_load_slot, emit_number, emit_plain,
    emit_sized, emit_store_slot, emit_unless_zero, emit_value,
};
use al_base::NoMemory;
use al_instr::{Plain, Sized};
use al_view::Bounds;
use al_view_typed::Typed;

/// Writes the exit from the loop that is `loops` loops further out.
pub(crate) fn emit_exit(out: &mut Output, loops: u32) -> Result<(), NoMemory>
    ensures { OnOk result (out.new ≡ written out.old (exit_code loops)) }
{
    out.emit_leaving(JumpCondition::Always, Target::Loop(loops))
}

/// Writes the exit from the loop if the word on top is 0.
pub(crate) fn emit_while(out: &mut Output) -> Result<(), NoMemory>
    ensures { OnOk result (out.new ≡ written out.old while_code) }
{
    out.emit_leaving(JumpCondition::IfZero, Target::Loop(0))
}

/// Writes the exit from the loop that is `loops` loops further out if the word on top isn't 0.
pub(crate) fn emit_exit_unless_zero(out: &mut Output, loops: u32) -> Result<(), NoMemory>
    ensures { OnOk result (out.new ≡ written out.old (guarded (exit_code loops))) }
{
    let first = out.leaving();
    emit_unless_zero(out)?;
    emit_exit(out, loops)?;
    out.close(first, Construct::Test)?;
    Ok(())
}

/// Writes `exit [when condition];` of the loop that is `loops` loops further out.
#[tactic(auto, using(crate::proofs::Writing::written_append))]
pub(crate) fn emit_leave(
    out: &mut Output,
    depth: u32,
    loops: u32,
    condition: &Option<Typed>,
) -> Result<(), NoMemory>
    ensures { OnOk result (out.new ≡ written out.old (leave_code depth loops (option_map typed_model condition.now))) }
{
    match condition {
        None => emit_exit(out, loops),
        Some(condition) => {
            emit_value(out, depth, condition)?;
            emit_exit_unless_zero(out, loops)
        }
    }
}

/// Writes the comparison of two words of the frame.
#[tactic(auto, using(crate::proofs::Writing::written_append), unfolding(crate::specs::Loops::compare_code))]
fn emit_compare(out: &mut Output, left: u32, right: u32, operator: Plain) -> Result<(), NoMemory>
    ensures { OnOk result (out.new ≡ written out.old (compare_code left right operator)) }
{
    emit_load_slot(out, left)?;
    emit_load_slot(out, right)?;
    emit_plain(out, operator)
}

/// Writes the bounds of a `for` loop, and the exit if its range is null.
#[tactic(auto, using(crate::proofs::Writing::written_append), unfolding(crate::specs::Loops::bounds_code))]
pub(crate) fn emit_bounds(
    out: &mut Output,
    depth: u32,
    is_reverse: bool,
    low: &Typed,
    high: &Typed,
    parameter: u32,
    last: u32,
) -> Result<(), NoMemory>
    ensures { OnOk result (out.new ≡ written out.old (bounds_code depth is_reverse (typed_model low.now) (typed_model high.now) parameter last)) }
{
    let begin = low_word(is_reverse, parameter, last);
    let end = high_word(is_reverse, parameter, last);
    emit_value(out, depth, low)?;
    emit_store_slot(out, begin)?;
    emit_value(out, depth, high)?;
    emit_store_slot(out, end)?;
    emit_compare(out, begin, end, Plain::AtMost)?;
    emit_while(out)
}

fn low_word(is_reverse: bool, parameter: u32, last: u32) -> u32
    ensures { result ≡ low_word is_reverse parameter last }
{
    if is_reverse { last } else { parameter }
}

fn high_word(is_reverse: bool, parameter: u32, last: u32) -> u32
    ensures { result ≡ high_word is_reverse parameter last }
{
    if is_reverse { parameter } else { last }
}

/// Writes the check of a bound against the range of the mark, if there is one.
#[tactic(auto, using(crate::proofs::Writing::written_append), unfolding(crate::specs::Loops::mark_check))]
fn emit_mark_check(out: &mut Output, mark: &Option<Bounds>, word: u32) -> Result<(), NoMemory>
    ensures { OnOk result (out.new ≡ written out.old (mark_check mark.now word)) }
{
    emit_load_slot(out, word)?;
    emit_check(out, mark)?;
    emit_sized(out, Sized::Drop, 1)
}

/// Writes the checks of both bounds of a loop with a mark.
#[tactic(auto, using(crate::proofs::Writing::written_append, crate::proofs::Writing::written_nothing), unfolding(crate::specs::Loops::marked_code))]
pub(crate) fn emit_marked(
    out: &mut Output,
    mark: &Option<Bounds>,
    parameter: u32,
    last: u32,
) -> Result<(), NoMemory>
    ensures { OnOk result (out.new ≡ written out.old (marked_code mark.now parameter last)) }
{
    match mark {
        None => Ok(()),
        Some(_) => {
            emit_mark_check(out, mark, parameter)?;
            emit_mark_check(out, mark, last)
        }
    }
}

/// Writes the end of a round: an exit if the parameter has its last value, or else its next value.
#[tactic(auto, using(crate::proofs::Writing::written_append), unfolding(crate::specs::Loops::turn_code))]
pub(crate) fn emit_turn(
    out: &mut Output,
    is_reverse: bool,
    parameter: u32,
    last: u32,
) -> Result<(), NoMemory>
    ensures { OnOk result (out.new ≡ written out.old (turn_code is_reverse parameter last)) }
{
    emit_compare(out, parameter, last, Plain::Equal)?;
    emit_exit_unless_zero(out, 0)?;
    emit_load_slot(out, parameter)?;
    emit_number(out, 1)?;
    emit_plain(out, step_operator(is_reverse))?;
    emit_store_slot(out, parameter)
}

fn step_operator(is_reverse: bool) -> Plain
    ensures { result ≡ step_operator is_reverse }
{
    if is_reverse {
        Plain::Subtract
    } else {
        Plain::Add
    }
}
