// Expressions that must be static (ARM 4.9).
ghost use Rattle.std.specs.Prelude.{◌≡◌};
ghost use Rattle.al_view_typed.specs.ExpressionViews.{typed_model};
ghost use Rattle.al_decl_judged.specs.StaticPieces.{place_label, static_of, static_range, value_label, wanted_at};

use crate::StaticRange;
use al_base::Place;
use al_base_fault::{CheckResult, CheckRule, Fault, both};
use al_view::{Bounds, StaticValue};
use al_view_typed::Typed;

/// The value of an expression, if it is static.
#[tactic(auto, using(crate::proofs::Layers::value_layer))]
pub(crate) fn value_label(expression: &Typed) -> Option<StaticValue>
    ensures { result ≡ value_label (typed_model expression.now) }
{
    expression.labels.value
}

/// The place where an expression begins.
#[tactic(auto, using(crate::proofs::Layers::place_layer))]
pub fn place_label(expression: &Typed) -> Place
    ensures { result ≡ place_label (typed_model expression.now) }
{
    expression.labels.place
}

fn wanted_at(place: Place, value: Option<StaticValue>) -> CheckResult<StaticValue>
    ensures { result ≡ wanted_at place value }
{
    match value {
        Some(value) => Ok(value),
        None => {
            let rule = CheckRule::NotStatic;
            Err(Fault { place, rule })
        }
    }
}

/// The value of an expression that must be static.
/// # Errors
/// E304 at its first token if it isn't static.
pub fn static_of(expression: &Typed) -> CheckResult<StaticValue>
    ensures { result ≡ static_of (typed_model expression.now) }
{
    wanted_at(place_label(expression), value_label(expression))
}

/// A range whose bounds must be static.
/// # Errors
/// E304 at the first bound that isn't static.
pub fn static_range(low: &Typed, high: &Typed) -> CheckResult<StaticRange>
    ensures { result ≡ static_range (typed_model low.now) (typed_model high.now) }
{
    match both(static_of(low), static_of(high)) {
        Ok(bounds) => Ok(StaticRange {
            bounds: Bounds {
                low: bounds.0.word,
                high: bounds.1.word,
            },
            low: place_label(low),
            high: place_label(high),
        }),
        Err(fault) => Err(fault),
    }
}
