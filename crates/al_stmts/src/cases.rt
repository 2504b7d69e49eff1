// The selector of a case statement with its choices.
ghost use Rattle.std.specs.Prelude.{◌≡◌, ◌↔◌, IfOk, IsTrue};
ghost use Rattle.al_base_fault.specs.Judging.{map_ok};
ghost use Rattle.al_view_typed.specs.ExpressionViews.{typed_model};
ghost use Rattle.al_stmts.specs.Cases.{RightFor, bounds_of, held_against, held_by, right_or_told, selected};

use crate::choices::CaseChoices;
use crate::{Selector, are_right};
use al_base::{NoMemory, Place};
use al_base_fault::{CheckResult, CheckRule, Fault, unless};
use al_view::Bounds;
use al_view_typed::Typed;
use std::alloc::Global;

/// What the choices of a selector are compared with: the range of its nominal subtype, if it has one, or else that of its whole type (ARM
/// 5.4(7 to 9)).
#[tactic(auto, using(crate::proofs::Layers::typed_bounds))]
pub fn selector_of(selector: &Typed, whole: Bounds) -> Selector
    ensures { result ≡ held_against (bounds_of (typed_model selector.now)) whole }
{
    match selector.labels.bounds {
        Some(bounds) => Selector::OfSubtype(bounds),
        None => Selector::OfType(whole),
    }
}

/// What the choices of a selector are compared with, if it has no fault.
#[tactic(auto, using(crate::proofs::Layers::typed_bounds))]
fn held_by(selector: &CheckResult<Typed>, whole: Bounds) -> Option<Selector>
    ensures { result ≡ held_by (map_ok typed_model selector.now) whole }
{
    match selector {
        Ok(selector) => Some(selector_of(selector, whole)),
        Err(_) => None,
    }
}

/// Whether the choices of a case statement are right for its selector, of a type with these bounds (ARM 5.4(5 to 10)). If the selector has
/// a fault, they always are.
/// # Errors
/// `NoMemory` if the allocator refuses memory.
pub fn choices_are_right(
    alloc: Global,
    selector: &CheckResult<Typed>,
    whole: Bounds,
    choices: &CaseChoices,
) -> Result<bool, NoMemory>
    ensures { IfOk result (λ right. IsTrue right ↔ RightFor (held_by (map_ok typed_model selector.now) whole) choices.now.alternatives) }
{
    match held_by(selector, whole) {
        Some(held) => are_right(alloc, choices.alternatives.as_slice(), held),
        None => Ok(true),
    }
}

/// The selector of a case statement, by the first fault of its choices and by whether they are right for it.
/// # Errors
/// The first of the fault of the selector and that of its choices; if there is none, E503 at `case` if the choices aren't right.
#[tactic(auto, using(crate::proofs::Seen::seen_unless))]
pub fn checked_selector(
    place: Place,
    selector: CheckResult<Typed>,
    fault: Option<Fault>,
    are_right: bool,
) -> CheckResult<Typed>
    ensures { map_ok typed_model result ≡ selected place (map_ok typed_model selector) fault are_right }
{
    match unless(fault, selector) {
        Ok(selector) => with_choices(place, selector, are_right),
        Err(fault) => Err(fault),
    }
}

fn with_choices(place: Place, selector: Typed, are_right: bool) -> CheckResult<Typed>
    ensures { map_ok typed_model result ≡ right_or_told place are_right (typed_model selector) }
{
    if are_right {
        return Ok(selector);
    }
    let rule = CheckRule::BadChoices;
    Err(Fault { place, rule })
}
