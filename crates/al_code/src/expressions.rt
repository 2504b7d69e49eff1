// Names, expressions and calls: the part that recurses.
ghost use Rattle.std.specs.Prelude.{◌≡◌, ◌++◌, OnOk, map};
ghost use Rattle.al_view_typed.specs.ExpressionViews.{actual_model, actuals_of, call_model, form_model, name_model, typed_model, value_model, values_of};
ghost use Rattle.al_code.specs.Written.{written};
ghost use Rattle.al_code.specs.Chains.{sign_code};
ghost use Rattle.al_code.specs.ExprPieces.{times};
ghost use Rattle.al_code.specs.Templates.{address_of, all_passed_code, call_code, checked_code, components_code, converted_code, form_code, index_code, passed_code, short_code, value_of, variable_code, variables_code};

use crate::calls::{emit_copies, emit_flag, emit_formal, emit_mark, emit_routine};
use crate::chain::{Chain, Sign, chain_of};
use crate::codeless::is_codeless_value;
use crate::operators::{
    emit_above, emit_below, emit_binary, emit_index, emit_kept, emit_negation, emit_step,
    emit_unary,
};
use crate::parts::{Part, Parts, parts_of};
use crate::pieces::{
    emit_check, emit_join, emit_number, emit_place, emit_plain, emit_sized, emit_store_slot,
    emit_unless_zero,
};
use crate::{Construct, Output};
use al_base::NoMemory;
use al_instr::{Plain, Sized};
use al_view::Bounds;
use al_view_typed::{
    Actual, CheckedValue, Conversion, Form, ShortCircuit, Typed, TypedCall, TypedName,
};

/// Writes the value of an expression, in a body of nesting depth `depth`. A chain of operators takes no stack for each of them.
///
/// # Errors
/// `NoMemory` if the allocator refuses memory.
#[cycle(expression)]
#[tactic(auto, using(crate::proofs::Writing::written_append, crate::proofs::ChainLemmas::next_written, crate::proofs::ChainLemmas::popped_below))]
pub fn emit_value(out: &mut Output, depth: u32, typed: &Typed) -> Result<(), NoMemory>
    ensures { OnOk result (out.new ≡ written out.old (value_of depth (typed_model typed.now))) }
{
    let Some(chain) = chain_of(out.alloc(), typed)? else {
        return emit_single(out, depth, typed);
    };
    let Chain { first, mut joints } = chain;
    emit_value(out, depth, first)?;
    while let Some(joint) = joints.pop() {
        emit_joint(out, depth, joint.sign, joint.right)?;
    }
    Ok(())
}

/// Writes what follows the left operand of a link.
#[cycle(expression)]
#[tactic(auto, using(crate::proofs::Writing::written_append))]
fn emit_joint(out: &mut Output, depth: u32, sign: Sign, right: &Typed) -> Result<(), NoMemory>
    ensures { OnOk result (out.new ≡ written out.old (sign_code sign (value_of depth (typed_model right.now)))) }
{
    match sign {
        Sign::Operator(operator, words) => {
            emit_value(out, depth, right)?;
            emit_binary(out, operator, words)
        }
        Sign::ShortCircuit(operator) => emit_short(out, depth, operator, right),
    }
}

/// Writes the value of an expression that is no chain.
#[cycle(expression)]
#[tactic(auto, using(crate::proofs::ExprLayers::typed_layers))]
fn emit_single(out: &mut Output, depth: u32, typed: &Typed) -> Result<(), NoMemory>
    ensures { OnOk result (out.new ≡ written out.old (value_of depth (typed_model typed.now))) }
{
    match &typed.labels.value {
        Some(value) => emit_number(out, value.word),
        None => emit_form(out, depth, typed.labels.words, &typed.form),
    }
}

#[cycle(expression)]
#[tactic(auto, using(crate::proofs::Writing::written_append, crate::proofs::Writing::written_nothing, crate::proofs::ExprLayers::typed_words, al_view_typed::proofs::ExpressionsMade::literal_made, al_view_typed::proofs::ExpressionsMade::named_made, al_view_typed::proofs::ExpressionsMade::unary_made, al_view_typed::proofs::ExpressionsMade::binary_made, al_view_typed::proofs::ExpressionsMade::converted_made, al_view_typed::proofs::ExpressionsMade::clock_made, al_view_typed::proofs::ExpressionsMade::short_circuit_made, al_view_typed::proofs::ExpressionsMade::membership_made, al_view_typed::proofs::ExpressionsMade::others_made, al_view_typed::proofs::ExpressionsMade::aggregate_made, al_view_typed::proofs::ExpressionsMade::call_form_made))]
fn emit_form(out: &mut Output, depth: u32, words: u32, form: &Form) -> Result<(), NoMemory>
    ensures { OnOk result (out.new ≡ written out.old (form_code depth words (form_model form.now))) }
{
    match form {
        Form::Literal(value) => emit_number(out, value.word),
        Form::Named(name) => {
            emit_address(out, depth, name)?;
            emit_sized(out, Sized::Load, words)
        }
        Form::Unary(operator, operand) => {
            emit_value(out, depth, operand)?;
            emit_unary(out, *operator)
        }
        Form::Binary(operator, left, right) => {
            emit_value(out, depth, left)?;
            emit_value(out, depth, right)?;
            emit_binary(out, *operator, left.labels.words)
        }
        Form::Converted(conversion, value) => emit_converted(out, depth, value, *conversion),
        Form::Clock => emit_plain(out, Plain::Now),
        Form::ShortCircuit(operator, left, right) => {
            emit_value(out, depth, left)?;
            emit_short(out, depth, *operator, right)
        }
        Form::Membership {
            value,
            is_negated,
            low,
            high,
            slot,
        } => {
            emit_value(out, depth, value)?;
            emit_kept(out, *slot)?;
            emit_value(out, depth, low)?;
            emit_above(out, *slot)?;
            emit_value(out, depth, high)?;
            emit_below(out)?;
            emit_negation(out, *is_negated)
        }
        Form::Aggregate(values) => emit_components(out, depth, values),
        Form::Others(count, value) => emit_times(out, depth, value, *count),
        Form::Call(call) => emit_call(out, depth, call),
    }
}

/// Writes the address of an object or of a part of one. A name with many parts takes no stack for each of them.
///
/// # Errors
/// `NoMemory` if the allocator refuses memory.
#[cycle(expression)]
#[tactic(auto, using(crate::proofs::Writing::written_append))]
pub fn emit_address(out: &mut Output, depth: u32, name: &TypedName) -> Result<(), NoMemory>
    ensures { OnOk result (out.new ≡ written out.old (address_of depth (name_model name.now))) }
{
    let Parts { object, mut parts } = parts_of(out.alloc(), name)?;
    emit_place(out, depth, object)?;
    while let Some(part) = parts.pop() {
        match part {
            Part::Selected(offset) => emit_sized(out, Sized::Field, offset)?,
            Part::Indexed(index, bounds, words) => {
                emit_element(out, depth, index, bounds, words)?;
            }
        }
    }
    Ok(())
}

/// Writes the step from the address of an array to that of a component, which has so many words.
#[cycle(expression)]
#[tactic(auto, using(crate::proofs::Writing::written_append))]
fn emit_element(
    out: &mut Output,
    depth: u32,
    index: &Typed,
    bounds: &Bounds,
    words: u32,
) -> Result<(), NoMemory>
    ensures { OnOk result (out.new ≡ written out.old (value_of depth (typed_model index.now) ++ index_code bounds.now words)) }
{
    emit_value(out, depth, index)?;
    emit_index(out, bounds, words)
}

/// Writes a value with its check.
///
/// # Errors
/// `NoMemory` if the allocator refuses memory.
#[cycle(expression)]
#[tactic(auto, using(crate::proofs::Writing::written_append, crate::proofs::Writing::written_nothing, crate::proofs::ExprLayers::value_layers))]
pub fn emit_checked(out: &mut Output, depth: u32, value: &CheckedValue) -> Result<(), NoMemory>
    ensures { OnOk result (out.new ≡ written out.old (checked_code depth (value_model value.now))) }
{
    emit_value(out, depth, &value.value)?;
    emit_check(out, &value.bounds)
}

/// Writes what follows the left operand of a short-circuit form (ARM 4.5.1(7)).
#[cycle(expression)]
fn emit_short(
    out: &mut Output,
    depth: u32,
    operator: ShortCircuit,
    right: &Typed,
) -> Result<(), NoMemory>
    ensures { OnOk result (out.new ≡ written out.old (short_code operator (value_of depth (typed_model right.now)))) }
{
    let first = out.leaving();
    emit_unless_zero(out)?;
    match operator {
        ShortCircuit::AndThen => {
            emit_value(out, depth, right)?;
            emit_join(out)?;
            out.close(first, Construct::Test)?;
            emit_number(out, 0)?;
            out.close(first, Construct::Choice)?;
            Ok(())
        }
        ShortCircuit::OrElse => {
            emit_number(out, 1)?;
            emit_join(out)?;
            out.close(first, Construct::Test)?;
            emit_value(out, depth, right)?;
            out.close(first, Construct::Choice)?;
            Ok(())
        }
    }
}

/// Writes what a conversion, a qualified expression or an attribute does to its operand.
#[cycle(expression)]
#[tactic(auto, using(crate::proofs::Writing::written_append, crate::proofs::ExprLayers::value_layers))]
fn emit_converted(
    out: &mut Output,
    depth: u32,
    value: &CheckedValue,
    conversion: Conversion,
) -> Result<(), NoMemory>
    ensures { OnOk result (out.new ≡ written out.old (converted_code depth conversion (value_model value.now))) }
{
    emit_value(out, depth, &value.value)?;
    emit_step(out, conversion)?;
    emit_check(out, &value.bounds)
}

/// Writes a value so many times. A value without code gives none, and past the limit nothing more is written.
#[cycle(expression)]
fn emit_times(
    out: &mut Output,
    depth: u32,
    value: &CheckedValue,
    count: u32,
) -> Result<(), NoMemory>
    ensures { OnOk result (out.new ≡ written out.old (times count (checked_code depth (value_model value.now)))) }
{
    if is_codeless_value(value) {
        return Ok(());
    }
    for _i in 0..count {
        if out.is_large() {
            return Ok(());
        }
        emit_checked(out, depth, value)?;
    }
    Ok(())
}

/// Writes values one after another.
#[cycle(expression)]
fn emit_components(out: &mut Output, depth: u32, values: &[CheckedValue]) -> Result<(), NoMemory>
    ensures { OnOk result (out.new ≡ written out.old (components_code depth (values_of (map value_model values.now)))) }
{
    for value in values {
        emit_checked(out, depth, value)?;
    }
    Ok(())
}

/// Writes a call (ARM 6.4).
///
/// # Errors
/// `NoMemory` if the allocator refuses memory.
#[cycle(expression)]
#[tactic(auto, using(crate::proofs::Writing::written_append, crate::proofs::Writing::written_nothing, crate::proofs::ExprLayers::call_layers))]
pub fn emit_call(out: &mut Output, depth: u32, call: &TypedCall) -> Result<(), NoMemory>
    ensures { OnOk result (out.new ≡ written out.old (call_code depth (call_model call.now))) }
{
    emit_flag(out, depth, &call.flag)?;
    emit_variables(out, depth, &call.actuals)?;
    emit_mark(out, depth, &call.callee)?;
    emit_all_passed(out, depth, &call.actuals)?;
    emit_routine(out, &call.callee, call.words)?;
    emit_copies(out, &call.actuals)
}

#[cycle(expression)]
fn emit_variables(out: &mut Output, depth: u32, actuals: &[Actual]) -> Result<(), NoMemory>
    ensures { OnOk result (out.new ≡ written out.old (variables_code depth (actuals_of (map actual_model actuals.now)))) }
{
    for actual in actuals {
        emit_variable(out, depth, actual)?;
    }
    Ok(())
}

#[cycle(expression)]
#[tactic(auto, using(crate::proofs::Writing::written_append, crate::proofs::Writing::written_nothing, al_view_typed::proofs::ExpressionsMade::in_made, al_view_typed::proofs::ExpressionsMade::variable_made))]
fn emit_variable(out: &mut Output, depth: u32, actual: &Actual) -> Result<(), NoMemory>
    ensures { OnOk result (out.new ≡ written out.old (variable_code depth (actual_model actual.now))) }
{
    match actual {
        Actual::In(_) => Ok(()),
        Actual::Variable { name, slot, .. } => {
            emit_address(out, depth, name)?;
            emit_store_slot(out, *slot)
        }
    }
}

#[cycle(expression)]
fn emit_all_passed(out: &mut Output, depth: u32, actuals: &[Actual]) -> Result<(), NoMemory>
    ensures { OnOk result (out.new ≡ written out.old (all_passed_code depth (actuals_of (map actual_model actuals.now)))) }
{
    for actual in actuals {
        emit_passed(out, depth, actual)?;
    }
    Ok(())
}

#[cycle(expression)]
#[tactic(auto, using(crate::proofs::Writing::written_append, crate::proofs::Writing::written_nothing, al_view_typed::proofs::ExpressionsMade::in_made, al_view_typed::proofs::ExpressionsMade::variable_made))]
fn emit_passed(out: &mut Output, depth: u32, actual: &Actual) -> Result<(), NoMemory>
    ensures { OnOk result (out.new ≡ written out.old (passed_code depth (actual_model actual.now))) }
{
    match actual {
        Actual::In(value) => emit_checked(out, depth, value),
        Actual::Variable {
            name,
            words,
            mode,
            formal,
            ..
        } => {
            emit_address(out, depth, name)?;
            emit_sized(out, Sized::Load, *words)?;
            emit_formal(out, *mode, formal)
        }
    }
}
