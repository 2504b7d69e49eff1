// The words that temporaries of an expression take.
ghost use Rattle.std.specs.Prelude.{◌≡◌, if◌then◌else◌, map};
ghost use Rattle.al_view_typed.specs.ExpressionViews.{actual_model, actuals_of, call_model, form_model, name_model, typed_model, value_model, values_of};
ghost use Rattle.al_overload_slots.specs.Slots.{actual_after, actual_numbered, actuals_after, actuals_numbered, after, call_after, call_numbered, form_after, form_numbered, name_after, name_numbered, next_word, numbered, value_after, value_numbered, values_after, values_numbered};

use crate::temporary::takes;
use crate::turn::{
    ascend, ascend_operand, descend, descend_operand, form_leans, has_prefix, leans, no_name,
    no_operand, put_right, take_right,
};
use al_view_typed::{Actual, CheckedValue, Form, Typed, TypedCall, TypedName};

/// The word after this one; if this is the last one that there is, this one.
fn next(word: u32) -> u32
    ensures { result ≡ next_word word }
{
    word.saturating_add(1)
}

/// Gives each temporary of an expression its word, from this one on, in source order. The result is the next word. If there is no
/// temporary, the expression isn't entered, so that a chain of operators takes no stack.
#[cycle(slots)]
#[tactic(auto, using(crate::proofs::Unchanged::stays))]
pub fn number_slots(typed: &mut Typed, word: u32) -> u32
    ensures tree { typed_model typed.new ≡ numbered word (typed_model typed.old) }
    ensures word { result ≡ after word (typed_model typed.old) }
{
    if takes(typed) {
        number_typed(typed, word)
    } else {
        word
    }
}

/// Gives words to the left operands by a loop, and to the right ones on the way back.
#[cycle(slots)]
fn number_typed(typed: &mut Typed, word: u32) -> u32
    ensures tree { typed_model typed.new ≡ numbered word (typed_model typed.old) }
    ensures word { result ≡ after word (typed_model typed.old) }
{
    let mut passed = no_operand();
    'down: while leans(typed) {
        descend_operand(typed, &mut passed);
    }
    let is_static = typed.labels.value.is_some();
    let mut word = number_first(&mut typed.form, is_static, word);
    'up: while form_leans(&passed.form) {
        ascend_operand(typed, &mut passed);
        let mut right = no_operand();
        take_right(typed, &mut right);
        word = number_slots(&mut right, word);
        put_right(typed, &mut right);
    }
    word
}

/// Gives words within an expression that isn't an operator with two operands.
#[cycle(slots)]
fn number_first(form: &mut Form, is_static: bool, word: u32) -> u32
    ensures tree { form_model form.new ≡ (if is_static then form_model form.old else form_numbered word (form_model form.old)) }
    ensures word { result ≡ (if is_static then word else form_after word (form_model form.old)) }
{
    if is_static {
        return word;
    }
    number_form(form, word)
}

/// Gives words to a left operand, which isn't searched for temporaries again.
#[cycle(slots)]
fn number_left(operand: &mut Box<Typed>, word: u32) -> u32
    ensures tree { typed_model operand.new.value ≡ numbered word (typed_model operand.old.value) }
    ensures word { result ≡ after word (typed_model operand.old.value) }
{
    number_typed(operand, word)
}

/// Gives words to an operand in its box.
#[cycle(slots)]
fn number_operand(operand: &mut Box<Typed>, word: u32) -> u32
    ensures tree { typed_model operand.new.value ≡ numbered word (typed_model operand.old.value) }
    ensures word { result ≡ after word (typed_model operand.old.value) }
{
    number_slots(operand, word)
}

#[cycle(slots)]
#[tactic(auto, using(al_view_typed::proofs::ExpressionsMade::literal_made, al_view_typed::proofs::ExpressionsMade::named_made, al_view_typed::proofs::ExpressionsMade::unary_made, al_view_typed::proofs::ExpressionsMade::binary_made, al_view_typed::proofs::ExpressionsMade::converted_made, al_view_typed::proofs::ExpressionsMade::clock_made, al_view_typed::proofs::ExpressionsMade::short_circuit_made, al_view_typed::proofs::ExpressionsMade::membership_made, al_view_typed::proofs::ExpressionsMade::others_made, al_view_typed::proofs::ExpressionsMade::aggregate_made, al_view_typed::proofs::ExpressionsMade::call_form_made))]
fn number_form(form: &mut Form, word: u32) -> u32
    ensures tree { form_model form.new ≡ form_numbered word (form_model form.old) }
    ensures word { result ≡ form_after word (form_model form.old) }
{
    match form {
        Form::Literal(_) => word,
        Form::Named(name) => number_name(name, word),
        Form::Unary(_operator, operand) => number_operand(operand, word),
        Form::Binary(_operator, left, right) => {
            let word = number_left(left, word);
            number_operand(right, word)
        }
        Form::ShortCircuit(_operator, left, right) => {
            let word = number_left(left, word);
            number_operand(right, word)
        }
        Form::Membership {
            value,
            is_negated: _is_negated,
            low,
            high,
            slot,
        } => {
            *slot = word;
            let word = number_operand(value, next(word));
            let word = number_operand(low, word);
            number_operand(high, word)
        }
        Form::Converted(_conversion, value) => number_boxed(value, word),
        Form::Aggregate(values) => number_values(values, word),
        Form::Others(_count, value) => number_boxed(value, word),
        Form::Call(call) => number_call(call, word),
        Form::Clock => word,
    }
}

/// Gives words to the indexes of a name. What comes before a component is processed by a loop, and indexes get their words on the way back.
#[cycle(slots)]
fn number_name(name: &mut TypedName, word: u32) -> u32
    ensures tree { name_model name.new ≡ name_numbered word (name_model name.old) }
    ensures word { result ≡ name_after word (name_model name.old) }
{
    let mut passed = no_name();
    'down: while has_prefix(name) {
        descend(name, &mut passed);
    }
    let mut word = word;
    'up: while has_prefix(&passed) {
        ascend(name, &mut passed);
        match name {
            TypedName::Object { .. } => {}
            TypedName::Component { .. } => {}
            TypedName::Indexed { index, .. } => word = number_operand(index, word),
        }
    }
    word
}

#[cycle(slots)]
#[tactic(auto, using(crate::proofs::Layers::value_layers, al_view_typed::proofs::ExpressionsMade::value_made))]
fn number_value(value: &mut CheckedValue, word: u32) -> u32
    ensures tree { value_model value.new ≡ value_numbered word (value_model value.old) }
    ensures word { result ≡ value_after word (value_model value.old) }
{
    number_slots(&mut value.value, word)
}

/// Gives words to a value in its box.
#[cycle(slots)]
fn number_boxed(value: &mut Box<CheckedValue>, word: u32) -> u32
    ensures tree { value_model value.new.value ≡ value_numbered word (value_model value.old.value) }
    ensures word { result ≡ value_after word (value_model value.old.value) }
{
    number_value(value, word)
}

#[cycle(slots)]
#[tactic(auto, using(crate::proofs::Gathered::values_end_word, crate::proofs::Gathered::values_end_tree))]
fn number_values(values: &mut Vec<CheckedValue>, word: u32) -> u32
    ensures tree { values_of (map value_model values.new.items) ≡ values_numbered word (values_of (map value_model values.old.items)) }
    ensures word { result ≡ values_after word (values_of (map value_model values.old.items)) }
{
    let mut after = word;
    for value in values.iter_mut() {
        after = number_value(value, after);
    }
    after
}

#[cycle(slots)]
#[tactic(auto, using(al_view_typed::proofs::ExpressionsMade::in_made, al_view_typed::proofs::ExpressionsMade::variable_made))]
fn number_actual(actual: &mut Actual, word: u32) -> u32
    ensures tree { actual_model actual.new ≡ actual_numbered word (actual_model actual.old) }
    ensures word { result ≡ actual_after word (actual_model actual.old) }
{
    match actual {
        Actual::In(value) => number_value(value, word),
        Actual::Variable { name, slot, .. } => {
            *slot = word;
            number_name(name, next(word))
        }
    }
}

#[cycle(slots)]
#[tactic(auto, using(crate::proofs::Gathered::actuals_end_word, crate::proofs::Gathered::actuals_end_tree))]
fn number_actuals(actuals: &mut Vec<Actual>, word: u32) -> u32
    ensures tree { actuals_of (map actual_model actuals.new.items) ≡ actuals_numbered word (actuals_of (map actual_model actuals.old.items)) }
    ensures word { result ≡ actuals_after word (actuals_of (map actual_model actuals.old.items)) }
{
    let mut after = word;
    for actual in actuals.iter_mut() {
        after = number_actual(actual, after);
    }
    after
}

/// Gives each temporary of a call its word, from this one on, in source order. The result is the next word.
#[cycle(slots)]
#[tactic(auto, using(crate::proofs::Layers::call_layers, al_view_typed::proofs::ExpressionsMade::call_made))]
pub fn number_call(call: &mut TypedCall, word: u32) -> u32
    ensures tree { call_model call.new ≡ call_numbered word (call_model call.old) }
    ensures word { result ≡ call_after word (call_model call.old) }
{
    number_actuals(&mut call.actuals, word)
}
