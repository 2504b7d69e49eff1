// The units that with clauses mention.
ghost use Rattle.std.specs.Prelude.{◌≡◌, ◌∷◌, [], ◌++◌, map, IfOk, OnOk};
ghost use Rattle.std.specs.List.{flat_map};
ghost use Rattle.al_query.specs.Answers.{declaration};
ghost use Rattle.al_query.specs.Asked.{AsksOf, by_property};
ghost use Rattle.al_query.specs.Reads.{FromAnswers};
ghost use Rattle.al_check_start.specs.Starts.{AreLearned, OnlyOthers, declarations, mentions_of};

use crate::question::ask_another;
use al_base::{Name, NoMemory, UnitKey, UnitKind};
use al_query::{Answers, Property, Recorder};
use al_unit_graph::lineage;
use std::alloc::Global;

/// Adds the declaration of a library unit.
pub(crate) fn add_declaration(
    alloc: Global,
    name: &[u8],
    units: &mut Vec<UnitKey>,
) -> Result<(), NoMemory>
    ensures { OnOk result (units.new.items ≡ units.old.items ++ declaration name.now ∷ []) }
{
    let name = Name::from_slice(alloc, name)?;
    let kind = UnitKind::Decl;
    units.push(UnitKey { name, kind })?;
    Ok(())
}

/// Adds the declarations of a library unit's ancestors and its own.
pub(crate) fn add_declarations(
    alloc: Global,
    name: &[u8],
    units: &mut Vec<UnitKey>,
) -> Result<(), NoMemory>
    ensures { OnOk result (units.new.items ≡ units.old.items ++ declarations name.now) }
{
    let names = lineage(alloc, name)?;
    for name in names.as_slice() {
        add_declaration(alloc, name, units)?;
    }
    Ok(())
}

/// Adds the declarations of these units, each after its ancestors'.
fn add_all(alloc: Global, named: &[UnitKey], units: &mut Vec<UnitKey>) -> Result<(), NoMemory>
    ensures { OnOk result (units.new.items ≡ units.old.items ++ flat_map (λ u. declarations u.name) named.now) }
{
    for unit in named {
        add_declarations(alloc, unit.name.as_slice(), units)?;
    }
    Ok(())
}

/// Adds the units that the with clauses of a unit mention.
fn add_mentions<A: Answers>(
    alloc: Global,
    own: &UnitKey,
    unit: &UnitKey,
    mentions: &mut Vec<UnitKey>,
    recorder: &mut Recorder<A>,
) -> Result<(), NoMemory>
    ensures asked { recorder.new.asked ≡ recorder.old.asked }
    ensures answered { OnOk result (FromAnswers recorder.old.log recorder.new.log (λ t. mentions.new.items ≡ mentions.old.items ++ mentions_of t own.now unit.now)) }
    ensures asks { OnOk result (AsksOf (unit.now ∷ []) by_property recorder.old.log recorder.new.log) }
    ensures others { OnOk result (OnlyOthers own.now recorder.old.log recorder.new.log) }
    ensures learned { OnOk result (AreLearned recorder.old.log mentions.old.items → AreLearned recorder.new.log mentions.new.items) }
{
    let answer = ask_another(alloc, own, unit, Property::Context, recorder)?;
    match answer.context() {
        Some(context) => {
            add_all(alloc, context.withs.as_slice(), mentions)?;
            Ok(())
        }
        None => Ok(()),
    }
}

/// The units that the with clauses of these units mention.
pub(crate) fn mentions_of_each<A: Answers>(
    alloc: Global,
    own: &UnitKey,
    units: &[UnitKey],
    recorder: &mut Recorder<A>,
) -> Result<Vec<UnitKey>, NoMemory>
    ensures asked { recorder.new.asked ≡ recorder.old.asked }
    ensures answered { IfOk result (λ mentions. FromAnswers recorder.old.log recorder.new.log (λ t. mentions.items ≡ flat_map (mentions_of t own.now) units.now)) }
    ensures asks { OnOk result (AsksOf units.now by_property recorder.old.log recorder.new.log) }
    ensures others { OnOk result (OnlyOthers own.now recorder.old.log recorder.new.log) }
    ensures learned { IfOk result (λ mentions. AreLearned recorder.new.log mentions.items) }
{
    let mut mentions = Vec::new(alloc);
    for unit in units {
        add_mentions(alloc, own, unit, &mut mentions, recorder)?;
    }
    Ok(mentions)
}
