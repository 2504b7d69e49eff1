// Simple statements (ARM 5.2, 6.5, 9.6).
ghost use Rattle.std.specs.Prelude.{◌≡◌, ◌++◌, OnOk, option_map};
ghost use Rattle.al_instr.specs.declared.numbers.Plain.TheVariants.{Sleep};
ghost use Rattle.al_view_typed.specs.ExpressionViews.{name_model, typed_model, value_model};
ghost use Rattle.al_code.specs.Written.{written};
ghost use Rattle.al_code.specs.ExprPieces.{one};
ghost use Rattle.al_code.specs.Templates.{value_of};
ghost use Rattle.al_code.specs.Statements.{assignment_code, return_code, unlocked_code};

use crate::routine::Routine;
use crate::{
    JumpCondition, Output, Target, emit_address, emit_checked, emit_plain, emit_sized, emit_value,
};
use al_base::NoMemory;
use al_instr::{Plain, Sized};
use al_view_typed::{CheckedValue, Typed, TypedName};

/// Writes an assignment (ARM 5.2).
#[tactic(auto, using(crate::proofs::Writing::written_append))]
pub(crate) fn emit_assignment(
    out: &mut Output,
    depth: u32,
    target: &TypedName,
    words: u32,
    value: &CheckedValue,
) -> Result<(), NoMemory>
    ensures { OnOk result (out.new ≡ written out.old (assignment_code depth (name_model target.now) words (value_model value.now))) }
{
    emit_checked(out, depth, value)?;
    emit_address(out, depth, target)?;
    emit_sized(out, Sized::Store, words)
}

/// Writes a return statement (ARM 6.5).
#[tactic(auto, using(crate::proofs::Writing::written_append))]
pub(crate) fn emit_return(
    out: &mut Output,
    routine: Routine,
    value: &Option<CheckedValue>,
    words: u32,
) -> Result<(), NoMemory>
    ensures { OnOk result (out.new ≡ written out.old (return_code routine (option_map value_model value.now) words)) }
{
    match value {
        None => out.emit_leaving(JumpCondition::Always, Target::Routine),
        Some(value) => {
            emit_checked(out, routine.depth, value)?;
            emit_unlocked(out, routine.unlocks)?;
            emit_sized(out, Sized::Return, words)
        }
    }
}

/// Writes that a protected function leaves its object before it returns.
#[tactic(auto, using(crate::proofs::Writing::written_nothing))]
fn emit_unlocked(out: &mut Output, unlocks: bool) -> Result<(), NoMemory>
    ensures { OnOk result (out.new ≡ written out.old (unlocked_code unlocks)) }
{
    if unlocks {
        return emit_plain(out, Plain::Leave);
    }
    Ok(())
}

/// Writes `delay until moment;` (ARM 9.6).
#[tactic(auto, using(crate::proofs::Writing::written_append))]
pub(crate) fn emit_delay(out: &mut Output, depth: u32, moment: &Typed) -> Result<(), NoMemory>
    ensures { OnOk result (out.new ≡ written out.old (value_of depth (typed_model moment.now) ++ one Sleep)) }
{
    emit_value(out, depth, moment)?;
    emit_plain(out, Plain::Sleep)
}
