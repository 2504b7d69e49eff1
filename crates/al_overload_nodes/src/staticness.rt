// Expressions that must be static (ARM 4.9).
ghost use Rattle.std.specs.Prelude.{◌≡◌};
ghost use Rattle.al_base_fault.specs.Judging.{map_ok};
ghost use Rattle.al_overload_nodes.specs.Static.{checked_as, stands_there, unless_static, expected_after};
ghost use Rattle.al_overload_nodes.specs.Views.{reading_model};
ghost use Rattle.al_view_typed.specs.ExpressionViews.{typed_model};

use crate::{Reading, checked};
use al_base::Place;
use al_base_fault::{CheckResult, CheckRule, Fault, unless};
use al_static::Known;
use al_view_typed::Typed;

/// What is expected of an expression besides its type.
#[derive(Clone, Copy)]
pub(crate) enum Staticness {
    Any,
    /// It must be static.
    Static,
}

/// E304 at the first token of what isn't static; what is static and has no value has E405.
fn unless_static(place: Place, known: Known) -> Option<Fault>
    ensures { result ≡ unless_static place known }
{
    match known {
        Known::Value(_) => None,
        Known::Fails(_) => None,
        Known::Open(_) => Some(Fault {
            place,
            rule: CheckRule::NotStatic,
        }),
    }
}

/// Whether a fault is at that place.
fn stands_there(place: Place, found: Option<Fault>) -> bool
    ensures { result ≡ stands_there place found }
{
    match found {
        Some(fault) => fault.place.line == place.line && fault.place.col == place.col,
        None => false,
    }
}

/// What is expected of a context that must be static and begins there. `found` is the first fault in the prefixes of its attributes: a
/// fault at its first token says that it has no interpretation.
pub(crate) fn expected_after(place: Place, found: Option<Fault>) -> Staticness
    ensures { result ≡ expected_after place found }
{
    if stands_there(place, found) {
        return Staticness::Any;
    }
    Staticness::Static
}

/// What has an interpretation and begins there: its labelled tree, or the first of the rules that it breaks, those of contexts inside it
/// included.
pub(crate) fn checked_as(expected: Staticness, place: Place, reading: Reading) -> CheckResult<Typed>
    ensures { map_ok typed_model result ≡ checked_as expected place (reading_model reading) }
{
    match expected {
        Staticness::Any => checked(reading),
        Staticness::Static => {
            let fault = unless_static(place, reading.known);
            unless(fault, checked(reading))
        }
    }
}
