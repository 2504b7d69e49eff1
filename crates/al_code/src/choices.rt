// The choices of case statements (ARM 5.4).
ghost use Rattle.std.specs.Prelude.{◌≡◌, ◌++◌, OnOk};
ghost use Rattle.std.specs.List.{flat_map};
ghost use Rattle.al_view_typed.specs.ExpressionViews.{typed_model};
ghost use Rattle.al_code.specs.Written.{written};
ghost use Rattle.al_code.specs.ExprPieces.{store_slot};
ghost use Rattle.al_code.specs.Templates.{value_of};
ghost use Rattle.al_code.specs.Statements.{choice_code, choices_code, other_choice_code};

use crate::{Output, emit_load_slot, emit_number, emit_plain, emit_store_slot, emit_value};
use al_base::NoMemory;
use al_instr::Plain;
use al_view::Bounds;
use al_view_typed::Typed;

/// Writes that the selector's value is kept.
#[tactic(auto, using(crate::proofs::Writing::written_append))]
pub(crate) fn emit_selector(
    out: &mut Output,
    depth: u32,
    selector: &Typed,
    word: u32,
) -> Result<(), NoMemory>
    ensures { OnOk result (out.new ≡ written out.old (value_of depth (typed_model selector.now) ++ store_slot word)) }
{
    emit_value(out, depth, selector)?;
    emit_store_slot(out, word)
}

/// Writes the test whether the kept value is within the bounds of any choice.
#[tactic(auto, using(crate::proofs::Writing::written_append, crate::proofs::Writing::written_nothing))]
pub(crate) fn emit_choices(out: &mut Output, word: u32, choices: &[Bounds]) -> Result<(), NoMemory>
    ensures { OnOk result (out.new ≡ written out.old (choices_code word choices.now)) }
{
    match choices.split_first() {
        None => Ok(()),
        Some((first, others)) => {
            emit_choice(out, word, first)?;
            emit_other_choices(out, word, others)
        }
    }
}

fn emit_other_choices(out: &mut Output, word: u32, choices: &[Bounds]) -> Result<(), NoMemory>
    ensures { OnOk result (out.new ≡ written out.old (flat_map (other_choice_code word) choices.now)) }
{
    for choice in choices {
        emit_other_choice(out, word, choice)?;
    }
    Ok(())
}

#[tactic(auto, using(crate::proofs::Writing::written_append), unfolding(crate::specs::Statements::other_choice_code))]
fn emit_other_choice(out: &mut Output, word: u32, choice: &Bounds) -> Result<(), NoMemory>
    ensures { OnOk result (out.new ≡ written out.old (other_choice_code word choice.now)) }
{
    emit_choice(out, word, choice)?;
    emit_plain(out, Plain::Or)
}

#[tactic(auto, using(crate::proofs::Writing::written_append), unfolding(crate::specs::Statements::choice_code))]
fn emit_choice(out: &mut Output, word: u32, choice: &Bounds) -> Result<(), NoMemory>
    ensures { OnOk result (out.new ≡ written out.old (choice_code word choice.now)) }
{
    emit_load_slot(out, word)?;
    emit_number(out, choice.low)?;
    emit_plain(out, Plain::AtLeast)?;
    emit_load_slot(out, word)?;
    emit_number(out, choice.high)?;
    emit_plain(out, Plain::AtMost)?;
    emit_plain(out, Plain::And)
}
