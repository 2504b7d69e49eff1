// The two halves of library units: declaration and body.
ghost use Rattle.std.specs.Prelude.{◌≡◌, ◌∷◌, [], ◌++◌, IfOk, OnOk};
ghost use Rattle.std.specs.List.{flat_map};
ghost use Rattle.al_query.specs.Asked.{AsksOf, by_property};
ghost use Rattle.al_query.specs.Reads.{FromAnswers};
ghost use Rattle.al_check_start.specs.Starts.{AreLearned, OnlyOthers, half_kind, half_of};

use crate::question::ask_another;
use al_base::{Name, NoMemory, UnitKey, UnitKind};
use al_query::{AnswerKind, Answers, Property, Recorder};
use al_view::is_unit;
use std::alloc::Global;

/// The other half of a unit, if the answer for this half makes it known. If there is no declaration, a body may act as one (ARM 10.1.4(4)); a body
/// that exists makes its declaration known.
fn half_kind(kind: UnitKind, answer: &AnswerKind) -> Option<UnitKind>
    ensures { result ≡ half_kind kind answer.now }
{
    match (kind, answer) {
        (UnitKind::Decl, AnswerKind::Nothing) => Some(UnitKind::Body),
        (UnitKind::Body, AnswerKind::Kind(_)) => Some(UnitKind::Decl),
        _ => None,
    }
}

/// Adds the other half of a unit.
fn add_half<A: Answers>(
    alloc: Global,
    own: &UnitKey,
    unit: &UnitKey,
    halves: &mut Vec<UnitKey>,
    recorder: &mut Recorder<A>,
) -> Result<(), NoMemory>
    ensures asked { recorder.new.asked ≡ recorder.old.asked }
    ensures answered { OnOk result (FromAnswers recorder.old.log recorder.new.log (λ t. halves.new.items ≡ halves.old.items ++ half_of t own.now unit.now)) }
    ensures asks { OnOk result (AsksOf (unit.now ∷ []) by_property recorder.old.log recorder.new.log) }
    ensures others { OnOk result (OnlyOthers own.now recorder.old.log recorder.new.log) }
    ensures learned { OnOk result (AreLearned recorder.old.log halves.old.items → AreLearned recorder.new.log halves.new.items) }
{
    if is_unit(own, unit) {
        return Ok(());
    }
    let answer = ask_another(alloc, own, unit, Property::Kind, recorder)?;
    match half_kind(unit.kind, answer.kind()) {
        Some(kind) => {
            let name = Name::from_slice(alloc, unit.name.as_slice())?;
            halves.push(UnitKey { name, kind })?;
            Ok(())
        }
        None => Ok(()),
    }
}

/// The other halves of these units, as far as they are known.
pub(crate) fn halves_of<A: Answers>(
    alloc: Global,
    own: &UnitKey,
    units: &[UnitKey],
    recorder: &mut Recorder<A>,
) -> Result<Vec<UnitKey>, NoMemory>
    ensures asked { recorder.new.asked ≡ recorder.old.asked }
    ensures answered { IfOk result (λ halves. FromAnswers recorder.old.log recorder.new.log (λ t. halves.items ≡ flat_map (half_of t own.now) units.now)) }
    ensures asks { OnOk result (AsksOf units.now by_property recorder.old.log recorder.new.log) }
    ensures others { OnOk result (OnlyOthers own.now recorder.old.log recorder.new.log) }
    ensures learned { IfOk result (λ halves. AreLearned recorder.new.log halves.items) }
{
    let mut halves = Vec::new(alloc);
    for unit in units {
        add_half(alloc, own, unit, &mut halves, recorder)?;
    }
    Ok(halves)
}
