// Whether an expression has temporaries at all. Few have, so that mostly a chain of operators is only searched, by a loop.
ghost use Rattle.std.specs.Prelude.{◌≡◌, ◌||◌, IfSome, map};
ghost use Rattle.al_overload_slots.specs.Temporaries.{IsBelow, actual_takes, actuals_take, call_takes, form_takes, name_takes, takes, value_takes, values_take};
ghost use Rattle.al_view_typed.specs.ExpressionViews.{actual_model, actuals_of, call_model, form_model, name_model, typed_model, value_model, values_of};

use al_view_typed::{Actual, CheckedValue, Form, Typed, TypedCall, TypedName};

/// The operands of an operator that has two.
#[derive(Drop)]
struct Operands<'a> {
    left: &'a Typed,
    right: &'a Typed,
}

/// The operands of an expression that is computed, if it has two.
#[tactic(auto, using(crate::proofs::Layers::typed_layers, al_view_typed::proofs::ExpressionsMade::binary_made, al_view_typed::proofs::ExpressionsMade::short_circuit_made))]
fn operands_of(typed: &Typed) -> Option<Operands<'_>>
    ensures takes { IfSome result (λ o. takes (typed_model typed.now) ≡ (takes (typed_model o.right.now) || takes (typed_model o.left.now))) }
    ensures below { IfSome result (λ o. IsBelow typed.now o.left.now × IsBelow typed.now o.right.now) }
{
    if typed.labels.value.is_some() {
        return None;
    }
    match &typed.form {
        Form::Binary(_, left, right) => Some(Operands { left, right }),
        Form::ShortCircuit(_, left, right) => Some(Operands { left, right }),
        _ => None,
    }
}

/// Whether an expression has temporaries. Left operands are processed by a loop.
#[cycle(takes)]
pub(crate) fn takes(typed: &Typed) -> bool
    ensures { result ≡ takes (typed_model typed.now) }
{
    let mut rest = typed;
    while let Some(operands) = operands_of(rest) {
        if takes(operands.right) {
            return true;
        }
        rest = operands.left;
    }
    first_takes(rest)
}

#[cycle(takes)]
#[tactic(auto, using(crate::proofs::Layers::typed_layers))]
fn first_takes(typed: &Typed) -> bool
    ensures { result ≡ takes (typed_model typed.now) }
{
    if typed.labels.value.is_some() {
        return false;
    }
    form_takes(&typed.form)
}

#[cycle(takes)]
#[tactic(auto, using(al_view_typed::proofs::ExpressionsMade::literal_made, al_view_typed::proofs::ExpressionsMade::named_made, al_view_typed::proofs::ExpressionsMade::unary_made, al_view_typed::proofs::ExpressionsMade::binary_made, al_view_typed::proofs::ExpressionsMade::converted_made, al_view_typed::proofs::ExpressionsMade::clock_made, al_view_typed::proofs::ExpressionsMade::short_circuit_made, al_view_typed::proofs::ExpressionsMade::membership_made, al_view_typed::proofs::ExpressionsMade::others_made, al_view_typed::proofs::ExpressionsMade::aggregate_made, al_view_typed::proofs::ExpressionsMade::call_form_made))]
fn form_takes(form: &Form) -> bool
    ensures { result ≡ form_takes (form_model form.now) }
{
    match form {
        Form::Literal(_) => false,
        Form::Named(name) => name_takes(name),
        Form::Unary(_, operand) => takes(operand),
        Form::Binary(_, left, right) => takes(right) || takes(left),
        Form::ShortCircuit(_, left, right) => takes(right) || takes(left),
        Form::Membership { .. } => true,
        Form::Converted(_, value) => value_takes(value),
        Form::Aggregate(values) => values_take(values.as_slice()),
        Form::Others(_, value) => value_takes(value),
        Form::Call(call) => call_takes(call),
        Form::Clock => false,
    }
}

#[cycle(takes)]
#[tactic(auto, using(al_view_typed::proofs::ExpressionsMade::object_made, al_view_typed::proofs::ExpressionsMade::component_made, al_view_typed::proofs::ExpressionsMade::indexed_made))]
fn name_takes(name: &TypedName) -> bool
    ensures { result ≡ name_takes (name_model name.now) }
{
    let mut rest = name;
    loop {
        rest = match rest {
            TypedName::Object { .. } => return false,
            TypedName::Component { whole, .. } => whole,
            TypedName::Indexed { array, index, .. } => {
                if takes(index) {
                    return true;
                }
                array
            }
        };
    }
}

#[cycle(takes)]
#[tactic(auto, using(crate::proofs::Layers::value_layers))]
fn value_takes(value: &CheckedValue) -> bool
    ensures { result ≡ value_takes (value_model value.now) }
{
    takes(&value.value)
}

#[cycle(takes)]
fn values_take(values: &[CheckedValue]) -> bool
    ensures { result ≡ values_take (values_of (map value_model values.now)) }
{
    for value in values {
        if value_takes(value) {
            return true;
        }
    }
    false
}

#[cycle(takes)]
#[tactic(auto, using(al_view_typed::proofs::ExpressionsMade::in_made, al_view_typed::proofs::ExpressionsMade::variable_made))]
fn actual_takes(actual: &Actual) -> bool
    ensures { result ≡ actual_takes (actual_model actual.now) }
{
    match actual {
        Actual::In(value) => value_takes(value),
        Actual::Variable { .. } => true,
    }
}

#[cycle(takes)]
fn actuals_take(actuals: &[Actual]) -> bool
    ensures { result ≡ actuals_take (actuals_of (map actual_model actuals.now)) }
{
    for actual in actuals {
        if actual_takes(actual) {
            return true;
        }
    }
    false
}

#[cycle(takes)]
#[tactic(auto, using(crate::proofs::Layers::call_layers))]
fn call_takes(call: &TypedCall) -> bool
    ensures { result ≡ call_takes (call_model call.now) }
{
    actuals_take(call.actuals.as_slice())
}
