// Private types of the ancestors of a declaration.
ghost use Rattle.std.specs.Prelude.{◌≡◌, ◌∷◌, [], ◌++◌, map, IfOk, OnOk};
ghost use Rattle.std.specs.List.{flat_map};
ghost use Rattle.al_query.specs.Answers.{names_told};
ghost use Rattle.al_scope.specs.UnitPlaces.{ancestor_units};
ghost use Rattle.al_query.specs.Reads.{FromAnswers};
ghost use Rattle.al_query.specs.declared.query.Property.TheVariants.{Context};
ghost use Rattle.al_query.specs.declared.query.Query.TheVariants.{Of};
ghost use Rattle.al_check_start.specs.UnitsAt.{hidden_at, named_in, private_names_of};

use al_base::{Name, NoMemory, UnitKey, UnitKind};
use al_query::{Answers, Property, Query, Recorder};
use al_scope::{OwnText, PrivateName, ancestors_of};
use al_view::{Seq, copied_unit};
use std::alloc::Global;

fn add_name(
    alloc: Global,
    unit: &UnitKey,
    name: &Name,
    hidden: &mut Seq<PrivateName>,
) -> Result<(), NoMemory>
    ensures { OnOk result (hidden.new ≡ hidden.old ++ named_in unit.now name.now ∷ []) }
{
    let unit = copied_unit(alloc, unit)?;
    let name = Name::from_slice(alloc, name.as_slice())?;
    hidden.push(PrivateName { unit, name })?;
    Ok(())
}

fn add_names(
    alloc: Global,
    unit: &UnitKey,
    names: &[Name],
    hidden: &mut Seq<PrivateName>,
) -> Result<(), NoMemory>
    ensures { OnOk result (hidden.new ≡ hidden.old ++ map (named_in unit.now) names.now) }
{
    for name in names {
        add_name(alloc, unit, name, hidden)?;
    }
    Ok(())
}

/// Adds the private types that a unit's visible part declares.
fn add_unit<A: Answers>(
    alloc: Global,
    unit: &UnitKey,
    hidden: &mut Seq<PrivateName>,
    recorder: &mut Recorder<A>,
) -> Result<(), NoMemory>
    ensures asked { recorder.new.asked ≡ recorder.old.asked }
    ensures answered { OnOk result (FromAnswers recorder.old.log recorder.new.log (λ t. hidden.new ≡ hidden.old ++ private_names_of t unit.now)) }
{
    let query = Query::Of {
        unit: copied_unit(alloc, unit)?,
        property: Property::Context,
    };
    let answer = recorder.ask(&query)?;
    add_names(alloc, unit, answer.private_types(), hidden)
}

fn add_units<A: Answers>(
    alloc: Global,
    units: &[UnitKey],
    hidden: &mut Seq<PrivateName>,
    recorder: &mut Recorder<A>,
) -> Result<(), NoMemory>
    ensures asked { recorder.new.asked ≡ recorder.old.asked }
    ensures answered { OnOk result (FromAnswers recorder.old.log recorder.new.log (λ t. hidden.new ≡ hidden.old ++ flat_map (private_names_of t) units.now)) }
{
    for unit in units {
        add_unit(alloc, unit, hidden, recorder)?;
    }
    Ok(())
}

/// The private types of the ancestors of the declaration with this name.
fn of_ancestors<A: Answers>(
    alloc: Global,
    name: &[u8],
    recorder: &mut Recorder<A>,
) -> Result<Seq<PrivateName>, NoMemory>
    ensures asked { recorder.new.asked ≡ recorder.old.asked }
    ensures answered { IfOk result (λ hidden. FromAnswers recorder.old.log recorder.new.log (λ t. hidden ≡ flat_map (private_names_of t) (ancestor_units name.now))) }
{
    let ancestors = ancestors_of(alloc, name)?;
    let mut hidden = Seq::empty(alloc);
    add_units(alloc, ancestors.as_slice(), &mut hidden, recorder)?;
    Ok(hidden)
}

/// For a declaration, the private types of its ancestors: its visible part may see their full views, and doesn't show them (ARM 7.3(5), 10.1.1(12)).
pub(crate) fn hidden_at<A: Answers>(
    alloc: Global,
    own: &OwnText,
    recorder: &mut Recorder<A>,
) -> Result<Seq<PrivateName>, NoMemory>
    ensures asked { recorder.new.asked ≡ recorder.old.asked }
    ensures answered { IfOk result (λ hidden. FromAnswers recorder.old.log recorder.new.log (λ t. hidden ≡ hidden_at t own.now)) }
{
    match own.unit.kind {
        UnitKind::Decl => of_ancestors(alloc, own.unit.name.as_slice(), recorder),
        UnitKind::Body => Ok(Seq::empty(alloc)),
        UnitKind::Sub => Ok(Seq::empty(alloc)),
    }
}
