// The private types of the units that enclose a unit.
ghost use Rattle.std.specs.Prelude.{◌≡◌, ◌∷◌, [], ◌++◌, IfOk, OnOk};
ghost use Rattle.std.specs.List.{flat_map};
ghost use Rattle.al_query.specs.Asked.{AsksOf, by_property};
ghost use Rattle.al_query.specs.Reads.{FromAnswers};
ghost use Rattle.al_query.specs.AnsweredNames.{AreTold};
ghost use Rattle.al_query_outcome.specs.ReadsLaw.{named_by};
ghost use Rattle.al_unit_graph.specs.Views.{header_model};
ghost use Rattle.al_check_start.specs.PrivateNames.{names_known, names_of};
ghost use Rattle.al_check_start.specs.Starts.{OnlyOthers};

use crate::known::{units_round, with_halves};
use crate::question::ask_another;
use al_base::{Name, NoMemory, UnitKey};
use al_query::{Answers, Property, Recorder};
use al_unit_graph::Header;
use std::alloc::Global;

/// Adds these names.
fn add_all(alloc: Global, more: &[Name], names: &mut Vec<Name>) -> Result<(), NoMemory>
    ensures { OnOk result (names.new.items ≡ names.old.items ++ more.now) }
{
    for name in more {
        let name = Name::from_slice(alloc, name.as_slice())?;
        names.push(name)?;
    }
    Ok(())
}

/// Adds the private types of another unit.
fn add_names<A: Answers>(
    alloc: Global,
    own: &UnitKey,
    unit: &UnitKey,
    names: &mut Vec<Name>,
    recorder: &mut Recorder<A>,
) -> Result<(), NoMemory>
    ensures asked { recorder.new.asked ≡ recorder.old.asked }
    ensures answered { OnOk result (FromAnswers recorder.old.log recorder.new.log (λ t. names.new.items ≡ names.old.items ++ names_of t own.now unit.now)) }
    ensures asks { OnOk result (AsksOf (unit.now ∷ []) by_property recorder.old.log recorder.new.log) }
    ensures others { OnOk result (OnlyOthers own.now recorder.old.log recorder.new.log) }
    ensures names_answered { OnOk result (AreTold recorder.old.log names.old.items → AreTold recorder.new.log names.new.items) }
{
    let answer = ask_another(alloc, own, unit, Property::Context, recorder)?;
    add_all(alloc, answer.private_types(), names)?;
    Ok(())
}

/// The private types of these units.
fn names_of_each<A: Answers>(
    alloc: Global,
    own: &UnitKey,
    units: &[UnitKey],
    recorder: &mut Recorder<A>,
) -> Result<Vec<Name>, NoMemory>
    ensures asked { recorder.new.asked ≡ recorder.old.asked }
    ensures answered { IfOk result (λ names. FromAnswers recorder.old.log recorder.new.log (λ t. names.items ≡ flat_map (names_of t own.now) units.now)) }
    ensures asks { OnOk result (AsksOf units.now by_property recorder.old.log recorder.new.log) }
    ensures others { OnOk result (OnlyOthers own.now recorder.old.log recorder.new.log) }
    ensures names_answered { IfOk result (λ names. AreTold recorder.new.log names.items) }
{
    let mut names = Vec::new(alloc);
    for unit in units {
        add_names(alloc, own, unit, &mut names, recorder)?;
    }
    Ok(names)
}

/// The private types whose full views a unit may see: those of the units that enclose it (ARM 7.3, 8.2). Each name is in a recorded answer.
///
/// # Errors
/// `NoMemory` if the allocator refuses memory.
#[tactic(auto, unfolding(crate::specs::PrivateNames::names_known))]
pub fn names_known<A: Answers>(
    alloc: Global,
    unit: &UnitKey,
    header: &Header,
    recorder: &mut Recorder<A>,
) -> Result<Vec<Name>, NoMemory>
    ensures asked { recorder.new.asked ≡ recorder.old.asked }
    ensures answered { IfOk result (λ names. FromAnswers recorder.old.log recorder.new.log (λ t. names.items ≡ names_known t unit.now (header_model header.now))) }
    ensures asks { OnOk result (AsksOf (named_by (header_model header.now)) by_property recorder.old.log recorder.new.log) }
    ensures others { OnOk result (OnlyOthers unit.now recorder.old.log recorder.new.log) }
    ensures names_answered { IfOk result (λ names. AreTold recorder.new.log names.items) }
{
    let round = units_round(alloc, unit, header, recorder)?;
    let both = with_halves(alloc, unit, round, recorder)?;
    let names = names_of_each(alloc, unit, both.as_slice(), recorder)?;
    Ok(names)
}
