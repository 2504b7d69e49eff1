// Values that have no code.
ghost use Rattle.std.specs.Prelude.{◌≡◌, map};
ghost use Rattle.al_code.specs.Codeless.{are_codeless, is_codeless, is_codeless_form, is_codeless_value, keeps_value};
ghost use Rattle.al_view_typed.specs.ExpressionViews.{form_model, typed_model, value_model, values_of};

use al_view_typed::{CheckedValue, Conversion, Form, Typed};

/// Whether a conversion leaves its operand's value as it is, without code.
fn keeps_value(conversion: Conversion) -> bool
    ensures { result ≡ keeps_value conversion }
{
    match conversion {
        Conversion::Succ => false,
        Conversion::Pred => false,
        Conversion::ToType => true,
        Conversion::Qualification => true,
        Conversion::Pos => true,
        Conversion::Val => true,
        Conversion::Milliseconds => true,
    }
}

#[cycle(codeless)]
#[tactic(auto, using(crate::proofs::ExprLayers::typed_layers))]
fn is_codeless(typed: &Typed) -> bool
    ensures { result ≡ is_codeless (typed_model typed.now) }
{
    typed.labels.value.is_none() && is_codeless_form(&typed.form)
}

#[cycle(codeless)]
#[tactic(auto, using(al_view_typed::proofs::ExpressionsMade::literal_made, al_view_typed::proofs::ExpressionsMade::named_made, al_view_typed::proofs::ExpressionsMade::unary_made, al_view_typed::proofs::ExpressionsMade::binary_made, al_view_typed::proofs::ExpressionsMade::converted_made, al_view_typed::proofs::ExpressionsMade::clock_made, al_view_typed::proofs::ExpressionsMade::short_circuit_made, al_view_typed::proofs::ExpressionsMade::membership_made, al_view_typed::proofs::ExpressionsMade::others_made, al_view_typed::proofs::ExpressionsMade::aggregate_made, al_view_typed::proofs::ExpressionsMade::call_form_made))]
fn is_codeless_form(form: &Form) -> bool
    ensures { result ≡ is_codeless_form (form_model form.now) }
{
    match form {
        Form::Converted(conversion, value) => keeps_value(*conversion) && is_codeless_value(value),
        Form::Aggregate(values) => are_codeless(values),
        Form::Others(count, value) => *count == 0 || is_codeless_value(value),
        Form::Literal(_) => false,
        Form::Named(_) => false,
        Form::Unary(_, _) => false,
        Form::Binary(_, _, _) => false,
        Form::ShortCircuit(_, _, _) => false,
        Form::Membership { .. } => false,
        Form::Call(_) => false,
        Form::Clock => false,
    }
}

/// Whether a value has no code, not even for its check, as a value without components.
#[cycle(codeless)]
#[tactic(auto, using(crate::proofs::ExprLayers::value_layers))]
pub(crate) fn is_codeless_value(value: &CheckedValue) -> bool
    ensures { result ≡ is_codeless_value (value_model value.now) }
{
    value.bounds.is_none() && is_codeless(&value.value)
}

#[cycle(codeless)]
fn are_codeless(values: &[CheckedValue]) -> bool
    ensures { result ≡ are_codeless (values_of (map value_model values.now)) }
{
    for value in values {
        if !is_codeless_value(value) {
            return false;
        }
    }
    true
}
