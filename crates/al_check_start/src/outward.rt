// The units that enclose a unit, from the inside out.
ghost use Rattle.std.specs.Prelude.{◌≡◌, ◌∷◌, [], true, IfOk, OnOk, List};
ghost use Rattle.al_base.specs.declared.unit_key.UnitKey.{UnitKey};
ghost use Rattle.al_query.specs.Answers.{parent_of};
ghost use Rattle.al_query.specs.Asked.{AsksOf, by_property};
ghost use Rattle.al_query.specs.Known.{AreKnown, body, has_unit, known_after};
ghost use Rattle.al_query_outcome.specs.ReadsLaw.{subunit};
ghost use Rattle.al_query.specs.Reads.{FromAnswers};
ghost use Rattle.al_query.specs.declared.query.Property.TheVariants.{Parent};
ghost use Rattle.al_check_start.specs.Starts.{IsKnown, OnlyOthers, as_list, asked_of, key, outward, parent_body};

use crate::question::ask_another;
use al_base::{Name, NoMemory, UnitKey, UnitKind};
use al_query::{Answers, Property, Recorder};
use al_view::copied_unit;
use std::alloc::Global;

/// The parent of a unit, by its own answer.
fn parent_at<A: Answers>(
    alloc: Global,
    own: &UnitKey,
    unit: &UnitKey,
    recorder: &mut Recorder<A>,
) -> Result<Option<UnitKey>, NoMemory>
    ensures asked { recorder.new.asked ≡ recorder.old.asked }
    ensures answered { IfOk result (λ parent. FromAnswers recorder.old.log recorder.new.log (λ t. parent ≡ parent_of (asked_of t own.now unit.now Parent))) }
    ensures asks { OnOk result (AsksOf (unit.now ∷ []) by_property recorder.old.log recorder.new.log) }
    ensures others { OnOk result (OnlyOthers own.now recorder.old.log recorder.new.log) }
    ensures known { IfOk result (λ parent. (known : List UnitKey) → IsKnown (known_after known recorder.new.log) parent) }
{
    let answer = ask_another(alloc, own, unit, Property::Parent, recorder)?;
    match answer.parent() {
        Some(parent) => Ok(Some(copied_unit(alloc, parent)?)),
        None => Ok(None),
    }
}

/// The units on the way from `first` through the parents, itself first: at most `most` of them.
pub(crate) fn outward_from<A: Answers>(
    alloc: Global,
    own: &UnitKey,
    first: Option<UnitKey>,
    most: usize,
    recorder: &mut Recorder<A>,
) -> Result<Vec<UnitKey>, NoMemory>
    ensures asked { recorder.new.asked ≡ recorder.old.asked }
    ensures answered { IfOk result (λ units. FromAnswers recorder.old.log recorder.new.log (λ t. units.items ≡ outward t own.now most first)) }
    ensures asks { OnOk result (AsksOf (as_list first) by_property recorder.old.log recorder.new.log) }
    ensures others { OnOk result (OnlyOthers own.now recorder.old.log recorder.new.log) }
    ensures known { IfOk result (λ units. AreKnown (known_after (as_list first) recorder.new.log) units.items) }
{
    let mut units = Vec::new(alloc);
    let mut next = first;
    for _i in 0..most {
        let Some(unit) = next else {
            return Ok(units);
        };
        next = parent_at(alloc, own, &unit, recorder)?;
        units.push(unit)?;
    }
    Ok(units)
}

/// The body in which a subunit's stub is, by the name of that body: the library body, or else the subunit.
pub(crate) fn parent_body_of<A: Answers>(
    alloc: Global,
    own: &UnitKey,
    name: &[u8],
    recorder: &mut Recorder<A>,
) -> Result<UnitKey, NoMemory>
    ensures asked { recorder.new.asked ≡ recorder.old.asked }
    ensures answered { IfOk result (λ unit. FromAnswers recorder.old.log recorder.new.log (λ t. unit ≡ parent_body t own.now name.now)) }
    ensures asks { OnOk result (AsksOf (body name.now ∷ []) by_property recorder.old.log recorder.new.log) }
    ensures others { OnOk result (OnlyOthers own.now recorder.old.log recorder.new.log) }
    ensures is { IfOk result (λ unit. has_unit (body name.now ∷ subunit name.now ∷ []) unit ≡ true) }
{
    let unit = unit_named(alloc, name, UnitKind::Body)?;
    let answer = ask_another(alloc, own, &unit, Property::Kind, recorder)?;
    match answer.own_view() {
        Some(_) => Ok(unit),
        None => {
            let unit = unit_named(alloc, name, UnitKind::Sub)?;
            Ok(unit)
        }
    }
}

/// The unit with this name and kind.
fn unit_named(alloc: Global, name: &[u8], kind: UnitKind) -> Result<UnitKey, NoMemory>
    ensures { IfOk result (λ unit. unit ≡ key name.now kind) }
{
    let name = Name::from_slice(alloc, name)?;
    Ok(UnitKey { name, kind })
}
