// The one interpretation of a complete context, or what is wrong with it (ARM 8.6(29 to 31)).
ghost use Rattle.std.specs.Prelude.{◌≡◌, IfOk};
ghost use Rattle.al_overload.specs.Counts.{label_of, plain};
ghost use Rattle.al_base_fault.specs.Judging.{map_ok};
ghost use Rattle.al_overload.specs.Meanings.{nothing_fits, resolved, several_fit};

use crate::{Expected, Expression, Interpretation, Labelled, interpret};
use al_base::{NoMemory, Place};
use al_base_fault::{CheckResult, CheckRule, Fault};
use std::alloc::Global;

/// E402 at this place.
pub fn nothing_fits(place: Place) -> Fault
    ensures { result ≡ nothing_fits place }
{
    Fault {
        place,
        rule: CheckRule::NoInterpretation,
    }
}

fn several_fit(place: Place) -> Fault
    ensures { result ≡ several_fit place }
{
    Fault {
        place,
        rule: CheckRule::Ambiguous,
    }
}

/// What the expression of a complete context means, if this is wanted of it. Its first token is at `place`. `missing` is the fault of a
/// name in its source that denotes nothing, or nothing of the right kind.
/// # Errors
/// `NoMemory` if the allocator refuses memory. The inner error is `missing`, if there is one; else E402 at `place` if no interpretation is
/// acceptable, and E403 there if several are.
#[tactic(auto, using(crate::proofs::MeaningLemmas::meaning_none, crate::proofs::MeaningLemmas::meaning_one, crate::proofs::MeaningLemmas::meaning_several))]
pub fn resolve(
    alloc: Global,
    place: Place,
    missing: Option<Fault>,
    expression: &Expression,
    expected: &Expected,
) -> Result<CheckResult<Labelled>, NoMemory>
    ensures { IfOk result (λ checked. map_ok label_of checked ≡ resolved place missing (plain expression.now) expected.now) }
{
    if let Some(fault) = missing {
        return Ok(Err(fault));
    }
    match interpret(alloc, expression, expected)? {
        Interpretation::Nothing => Ok(Err(nothing_fits(place))),
        Interpretation::One(labelled) => Ok(Ok(labelled)),
        Interpretation::Several => Ok(Err(several_fit(place))),
    }
}
