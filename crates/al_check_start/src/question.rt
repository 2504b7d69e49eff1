// Questions for a property of another unit.
ghost use Rattle.std.specs.Prelude.{◌≡◌, ◌∷◌, [], true, false, List, IfOk, OnOk};
ghost use Rattle.al_base.specs.declared.unit_key.UnitKey.{UnitKey};
ghost use Rattle.al_view.specs.Symbols.{same_unit};
ghost use Rattle.al_query.specs.Answers.{names_told, units_named};
ghost use Rattle.al_query.specs.Asked.{AsksOf, by_property};
ghost use Rattle.al_query.specs.Known.{has_unit, known_after, told_by};
ghost use Rattle.al_query.specs.Reads.{FromAnswers};
ghost use Rattle.al_query.specs.AnsweredNames.{AreTold};
ghost use Rattle.al_query.specs.declared.query.Query.TheVariants.{Of};
ghost use Rattle.al_check_start.specs.Starts.{OnlyOthers, asked_of};

use al_base::{NoMemory, UnitKey};
use al_query::{Answer, AnswerKind, Answers, Property, Query, Recorder};
use al_view::{copied_unit, is_unit};
use std::alloc::Global;

/// The answer of another unit to the question for a property. If `own` is that unit itself, it isn't asked.
pub(crate) fn ask_another<A: Answers>(
    alloc: Global,
    own: &UnitKey,
    unit: &UnitKey,
    property: Property,
    recorder: &mut Recorder<A>,
) -> Result<Answer, NoMemory>
    requires { by_property recorder.old.log (Of unit.now property) ≡ true }
    ensures asked { recorder.new.asked ≡ recorder.old.asked }
    ensures answered { IfOk result (λ answer. FromAnswers recorder.old.log recorder.new.log (λ t. answer ≡ asked_of t own.now unit.now property)) }
    ensures asks { OnOk result (AsksOf (unit.now ∷ []) by_property recorder.old.log recorder.new.log) }
    ensures others { OnOk result (OnlyOthers own.now recorder.old.log recorder.new.log) }
    ensures named { IfOk result (λ answer. (known : List UnitKey) (u : UnitKey) → has_unit (units_named answer) u ≡ true → has_unit (known_after known recorder.new.log) u ≡ true) }
    ensures names_answered { IfOk result (λ answer. AreTold recorder.new.log (names_told answer)) }
    ensures half { IfOk result (λ answer. (known : List UnitKey) (u : UnitKey) → same_unit own.now unit.now ≡ false → has_unit (told_by (Of unit.now property) answer) u ≡ true → has_unit (known_after known recorder.new.log) u ≡ true) }
{
    if is_unit(own, unit) {
        let nothing = Answer::new(alloc, AnswerKind::Nothing)?;
        return Ok(nothing);
    }
    let unit = copied_unit(alloc, unit)?;
    let query = Query::Of { unit, property };
    let answer = recorder.ask(&query)?;
    Ok(answer)
}
