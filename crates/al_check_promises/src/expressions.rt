// The links that expressions use.
ghost use Rattle.std.specs.Prelude.{◌≡◌, ◌++◌, IfSome, map, option_map};
ghost use Rattle.std.specs.List.{list_all};
ghost use Rattle.al_view_typed.specs.ExpressionViews.{actual_model, actuals_of, call_model, form_model, name_model, typed_model, value_model, values_of};
ghost use Rattle.al_check_promises.specs.Depths.{IsBelow};
ghost use Rattle.al_view_typed.specs.Uses.{actual_uses, actuals_uses, called_uses, callee_uses, form_uses, name_uses, some_uses, typed_uses, value_uses, values_uses};

use crate::test::LinkTest;
use crate::views::{flag_passes, place_passes};
use al_view::LinkKind;
use al_view_typed::{Actual, Callee, CheckedValue, Form, Typed, TypedCall, TypedName};

/// The operands of an operator that has two.
#[derive(Drop)]
struct Operands<'a> {
    left: &'a Typed,
    right: &'a Typed,
}

/// The operands of an operator, if it has two.
#[tactic(auto, using(crate::proofs::Layers::typed_layers, al_view_typed::proofs::ExpressionsMade::binary_made, al_view_typed::proofs::ExpressionsMade::short_circuit_made))]
fn operands_of(typed: &Typed) -> Option<Operands<'_>>
    ensures uses { IfSome result (λ o. typed_uses (typed_model typed.now) ≡ typed_uses (typed_model o.left.now) ++ typed_uses (typed_model o.right.now)) }
    ensures below { IfSome result (λ o. IsBelow typed.now o.left.now × IsBelow typed.now o.right.now) }
{
    match &typed.form {
        Form::Binary(_, left, right) => Some(Operands { left, right }),
        Form::ShortCircuit(_, left, right) => Some(Operands { left, right }),
        _ => None,
    }
}

/// Whether all links that an expression uses pass the test. A loop goes down the left operands, so a chain of operators takes no stack for each of
/// them.
#[cycle(uses)]
#[tactic(auto, using(crate::proofs::Layers::typed_layers, crate::proofs::Listed::second_fails, crate::proofs::Listed::first_decides))]
pub(crate) fn typed_passes<T: LinkTest>(typed: &Typed, test: &T) -> bool
    ensures { result ≡ list_all (T.passing test.now) (typed_uses (typed_model typed.now)) }
{
    let mut rest = typed;
    while let Some(operands) = operands_of(rest) {
        if !typed_passes(operands.right, test) {
            return false;
        }
        rest = operands.left;
    }
    form_passes(&rest.form, test)
}

#[cycle(uses)]
#[tactic(auto, using(al_view_typed::proofs::ExpressionsMade::literal_made, al_view_typed::proofs::ExpressionsMade::named_made, al_view_typed::proofs::ExpressionsMade::unary_made, al_view_typed::proofs::ExpressionsMade::binary_made, al_view_typed::proofs::ExpressionsMade::converted_made, al_view_typed::proofs::ExpressionsMade::clock_made, al_view_typed::proofs::ExpressionsMade::short_circuit_made, al_view_typed::proofs::ExpressionsMade::membership_made, al_view_typed::proofs::ExpressionsMade::others_made, al_view_typed::proofs::ExpressionsMade::aggregate_made, al_view_typed::proofs::ExpressionsMade::call_form_made))]
fn form_passes<T: LinkTest>(form: &Form, test: &T) -> bool
    ensures { result ≡ list_all (T.passing test.now) (form_uses (form_model form.now)) }
{
    match form {
        Form::Literal(_) => true,
        Form::Named(name) => name_passes(name, test),
        Form::Unary(_, operand) => typed_passes(operand, test),
        Form::Binary(_, left, right) => typed_passes(left, test) && typed_passes(right, test),
        Form::ShortCircuit(_, left, right) => {
            typed_passes(left, test) && typed_passes(right, test)
        }
        Form::Membership {
            value,
            is_negated: _,
            low,
            high,
            slot: _,
        } => {
            if !typed_passes(value, test) {
                return false;
            }
            typed_passes(low, test) && typed_passes(high, test)
        }
        Form::Converted(_, value) => value_passes(value, test),
        Form::Aggregate(values) => values_pass(values.as_slice(), test),
        Form::Others(_, value) => value_passes(value, test),
        Form::Call(call) => call_passes(call, test),
        Form::Clock => true,
    }
}

#[cycle(uses)]
#[tactic(auto, using(crate::proofs::Listed::second_fails, crate::proofs::Listed::first_decides, al_view_typed::proofs::ExpressionsMade::object_made, al_view_typed::proofs::ExpressionsMade::component_made, al_view_typed::proofs::ExpressionsMade::indexed_made))]
pub(crate) fn name_passes<T: LinkTest>(name: &TypedName, test: &T) -> bool
    ensures { result ≡ list_all (T.passing test.now) (name_uses (name_model name.now)) }
{
    let mut rest = name;
    loop {
        rest = match rest {
            TypedName::Object {
                place,
                is_constant: _,
            } => return place_passes(LinkKind::Data, place, test),
            TypedName::Component { whole, offset: _ } => whole,
            TypedName::Indexed {
                array,
                index,
                bounds: _,
                words: _,
            } => {
                if !typed_passes(index, test) {
                    return false;
                }
                array
            }
        };
    }
}

#[cycle(uses)]
#[tactic(auto, using(crate::proofs::Layers::value_layers))]
pub(crate) fn value_passes<T: LinkTest>(value: &CheckedValue, test: &T) -> bool
    ensures { result ≡ list_all (T.passing test.now) (value_uses (value_model value.now)) }
{
    typed_passes(&value.value, test)
}

#[cycle(uses)]
fn values_pass<T: LinkTest>(values: &[CheckedValue], test: &T) -> bool
    ensures { result ≡ list_all (T.passing test.now) (values_uses (values_of (map value_model values.now))) }
{
    for value in values {
        if !value_passes(value, test) {
            return false;
        }
    }
    true
}

#[cycle(uses)]
#[tactic(auto, using(al_view_typed::proofs::ExpressionsMade::in_made, al_view_typed::proofs::ExpressionsMade::variable_made))]
fn actual_passes<T: LinkTest>(actual: &Actual, test: &T) -> bool
    ensures { result ≡ list_all (T.passing test.now) (actual_uses (actual_model actual.now)) }
{
    match actual {
        Actual::In(value) => value_passes(value, test),
        Actual::Variable { name, .. } => name_passes(name, test),
    }
}

#[cycle(uses)]
fn actuals_pass<T: LinkTest>(actuals: &[Actual], test: &T) -> bool
    ensures { result ≡ list_all (T.passing test.now) (actuals_uses (actuals_of (map actual_model actuals.now))) }
{
    for actual in actuals {
        if !actual_passes(actual, test) {
            return false;
        }
    }
    true
}

/// Whether the code or the gate of a called subprogram or entry passes the test.
fn callee_passes<T: LinkTest>(callee: &Callee, test: &T) -> bool
    ensures { result ≡ list_all (T.passing test.now) (callee_uses callee.now) }
{
    match callee {
        Callee::Subprogram { symbol, .. } => test.passes(LinkKind::Code, symbol),
        Callee::Protected(symbol) => test.passes(LinkKind::Code, symbol),
        Callee::Entry(symbol) => test.passes(LinkKind::Gate, symbol),
    }
}

#[cycle(uses)]
#[tactic(auto, using(crate::proofs::Layers::call_layers))]
pub(crate) fn call_passes<T: LinkTest>(call: &TypedCall, test: &T) -> bool
    ensures { result ≡ list_all (T.passing test.now) (called_uses (call_model call.now)) }
{
    callee_passes(&call.callee, test)
        && flag_passes(&call.flag, test)
        && actuals_pass(call.actuals.as_slice(), test)
}

/// Whether the links of an expression pass the test, if there is an expression.
pub(crate) fn some_typed_passes<T: LinkTest>(typed: &Option<Typed>, test: &T) -> bool
    ensures { result ≡ list_all (T.passing test.now) (some_uses typed_uses (option_map typed_model typed.now)) }
{
    match typed {
        Some(typed) => typed_passes(typed, test),
        None => true,
    }
}

/// Whether the links of a value pass the test, if there is a value.
pub(crate) fn some_value_passes<T: LinkTest>(value: &Option<CheckedValue>, test: &T) -> bool
    ensures { result ≡ list_all (T.passing test.now) (some_uses value_uses (option_map value_model value.now)) }
{
    match value {
        Some(value) => value_passes(value, test),
        None => true,
    }
}
