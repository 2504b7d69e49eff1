// Operators, written after their operands (ARM 4.5).
ghost use Rattle.std.specs.Prelude.{◌≡◌, OnOk};
ghost use Rattle.al_code.specs.Written.{written};
ghost use Rattle.al_code.specs.Templates.{above_code, below_code, binary_code, index_code, kept_code, negation_code, step_code, unary_code};

use crate::Output;
use crate::pieces::{emit_load_slot, emit_number, emit_plain, emit_sized, emit_store_slot};
use al_base::NoMemory;
use al_instr::{Instr, Plain, Sized};
use al_view::Bounds;
use al_view_typed::{BinaryOperator, Conversion, UnaryOperator};

/// Writes an operator with one operand.
#[tactic(auto, using(crate::proofs::Writing::written_nothing))]
pub(crate) fn emit_unary(out: &mut Output, operator: UnaryOperator) -> Result<(), NoMemory>
    ensures { OnOk result (out.new ≡ written out.old (unary_code operator)) }
{
    match operator {
        UnaryOperator::Plus => Ok(()),
        UnaryOperator::Minus => emit_plain(out, Plain::Negate),
        UnaryOperator::Abs => emit_plain(out, Plain::Absolute),
        UnaryOperator::Not => emit_plain(out, Plain::Not),
    }
}

/// Writes an operator on two operands of so many words.
#[tactic(auto, using(crate::proofs::Writing::written_append))]
pub(crate) fn emit_binary(
    out: &mut Output,
    operator: BinaryOperator,
    words: u32,
) -> Result<(), NoMemory>
    ensures { OnOk result (out.new ≡ written out.old (binary_code operator words)) }
{
    match operator {
        BinaryOperator::And => emit_plain(out, Plain::And),
        BinaryOperator::Or => emit_plain(out, Plain::Or),
        BinaryOperator::Xor => emit_plain(out, Plain::Xor),
        BinaryOperator::Equal => emit_plain(out, Plain::Equal),
        BinaryOperator::NotEqual => emit_plain(out, Plain::NotEqual),
        BinaryOperator::Less => emit_plain(out, Plain::Less),
        BinaryOperator::LessOrEqual => emit_plain(out, Plain::AtMost),
        BinaryOperator::Greater => emit_plain(out, Plain::Greater),
        BinaryOperator::GreaterOrEqual => emit_plain(out, Plain::AtLeast),
        BinaryOperator::Plus => emit_plain(out, Plain::Add),
        BinaryOperator::Minus => emit_plain(out, Plain::Subtract),
        BinaryOperator::Times => emit_plain(out, Plain::Multiply),
        BinaryOperator::Divide => emit_plain(out, Plain::Divide),
        BinaryOperator::Mod => emit_plain(out, Plain::Modulo),
        BinaryOperator::Rem => emit_plain(out, Plain::Remainder),
        BinaryOperator::Power => emit_plain(out, Plain::Power),
        BinaryOperator::SameWords => emit_sized(out, Sized::Same, words),
        BinaryOperator::OtherWords => {
            emit_sized(out, Sized::Same, words)?;
            emit_plain(out, Plain::Not)
        }
    }
}

/// Writes the `not` of a membership test.
#[tactic(auto, using(crate::proofs::Writing::written_nothing))]
pub(crate) fn emit_negation(out: &mut Output, is_negated: bool) -> Result<(), NoMemory>
    ensures { OnOk result (out.new ≡ written out.old (negation_code is_negated)) }
{
    if is_negated {
        return emit_plain(out, Plain::Not);
    }
    Ok(())
}

/// Writes that the value of a membership test is kept.
#[tactic(auto, using(crate::proofs::Writing::written_append), unfolding(crate::specs::Templates::kept_code))]
pub(crate) fn emit_kept(out: &mut Output, word: u32) -> Result<(), NoMemory>
    ensures { OnOk result (out.new ≡ written out.old (kept_code word)) }
{
    emit_store_slot(out, word)?;
    emit_load_slot(out, word)
}

/// Writes the comparison of the kept value with the low bound.
#[tactic(auto, using(crate::proofs::Writing::written_append), unfolding(crate::specs::Templates::above_code))]
pub(crate) fn emit_above(out: &mut Output, word: u32) -> Result<(), NoMemory>
    ensures { OnOk result (out.new ≡ written out.old (above_code word)) }
{
    emit_plain(out, Plain::AtLeast)?;
    emit_load_slot(out, word)
}

/// Writes the comparison of the kept value with the high bound.
#[tactic(auto, using(crate::proofs::Writing::written_append), unfolding(crate::specs::Templates::below_code))]
pub(crate) fn emit_below(out: &mut Output) -> Result<(), NoMemory>
    ensures { OnOk result (out.new ≡ written out.old below_code) }
{
    emit_plain(out, Plain::AtMost)?;
    emit_plain(out, Plain::And)
}

/// Writes the address of a component, after the address of the array and the index.
pub(crate) fn emit_index(out: &mut Output, bounds: &Bounds, words: u32) -> Result<(), NoMemory>
    ensures { OnOk result (out.new ≡ written out.old (index_code bounds.now words)) }
{
    out.put(&Instr::Index {
        low: bounds.low,
        high: bounds.high,
        words,
    })
}

/// Writes what an attribute does to its operand (ARM 3.5(22, 25)).
#[tactic(auto, using(crate::proofs::Writing::written_append, crate::proofs::Writing::written_nothing), unfolding(crate::specs::Templates::step_code))]
pub(crate) fn emit_step(out: &mut Output, conversion: Conversion) -> Result<(), NoMemory>
    ensures { OnOk result (out.new ≡ written out.old (step_code conversion)) }
{
    match conversion {
        Conversion::Succ => {
            emit_number(out, 1)?;
            emit_plain(out, Plain::Add)
        }
        Conversion::Pred => {
            emit_number(out, 1)?;
            emit_plain(out, Plain::Subtract)
        }
        _ => Ok(()),
    }
}
