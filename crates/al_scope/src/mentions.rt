// The library units that are mentioned at the start of a unit's source.
ghost use Rattle.std.specs.Prelude.{◌≡◌, ◌∷◌, [], ◌++◌, IfOk, OnOk, is_ok, true};
ghost use Rattle.std.specs.List.{flat_map};
ghost use Rattle.al_unit_graph.specs.Names.{lineage};
ghost use Rattle.al_query.specs.Asked.{AsksOf, by_property};
ghost use Rattle.al_query.specs.Reads.{FromAnswers};
ghost use Rattle.al_scope.specs.UnitPlaces.{ancestor_units, asked_units, library_name, lineages, mentioned_names, own_declaration, stub_units, withs_of};

use crate::UnitPart;
use crate::own::OwnText;
use crate::parts::property_of;
use crate::unit_place::{add_declaration, ancestors_of, library_name_of};
use al_base::{Name, NoMemory, UnitKey};
use al_query::{Answers, Property, Recorder};
use al_unit_graph::lineage;
use al_view::copied_unit;
use std::alloc::Global;

/// Adds a name.
fn add_name(alloc: Global, name: &[u8], names: &mut Vec<Name>) -> Result<(), NoMemory>
    ensures { OnOk result (names.new.items ≡ names.old.items ++ name.now ∷ []) }
{
    let name = Name::from_slice(alloc, name)?;
    names.push(name)?;
    Ok(())
}

/// Adds the names of the unit's ancestors and its own.
fn add_lineage(alloc: Global, name: &[u8], names: &mut Vec<Name>) -> Result<(), NoMemory>
    ensures { OnOk result (names.new.items ≡ names.old.items ++ lineage name.now) }
{
    let slices = lineage(alloc, name)?;
    for slice in slices.as_slice() {
        add_name(alloc, slice, names)?;
    }
    Ok(())
}

/// Adds the names of the units and of their ancestors. Of no units it takes no memory.
fn add_lineages(alloc: Global, units: &[UnitKey], names: &mut Vec<Name>) -> Result<(), NoMemory>
    ensures is { OnOk result (names.new.items ≡ names.old.items ++ lineages units.now) }
    ensures takes_none { units.now ≡ [] → is_ok result ≡ true }
{
    for unit in units {
        add_lineage(alloc, unit.name.as_slice(), names)?;
    }
    Ok(())
}

/// Adds the names that the with clauses of a unit mention.
fn add_withs<A: Answers>(
    alloc: Global,
    unit: &UnitKey,
    names: &mut Vec<Name>,
    recorder: &mut Recorder<A>,
) -> Result<(), NoMemory>
    ensures asked { recorder.new.asked ≡ recorder.old.asked }
    ensures answered { OnOk result (FromAnswers recorder.old.log recorder.new.log (λ t. names.new.items ≡ names.old.items ++ lineages (withs_of t unit.now))) }
    ensures asks { OnOk result (AsksOf (unit.now ∷ []) by_property recorder.old.log recorder.new.log) }
{
    let query = property_of(alloc, unit, Property::Context)?;
    let answer = recorder.ask(&query)?;
    match answer.context() {
        Some(context) => {
            add_lineages(alloc, context.withs.as_slice(), names)?;
            Ok(())
        }
        None => Ok(()),
    }
}

/// Adds the names that the with clauses of the units mention. Of no units it takes no memory.
fn add_each_withs<A: Answers>(
    alloc: Global,
    units: &[UnitKey],
    names: &mut Vec<Name>,
    recorder: &mut Recorder<A>,
) -> Result<(), NoMemory>
    ensures asked { recorder.new.asked ≡ recorder.old.asked }
    ensures answered { OnOk result (FromAnswers recorder.old.log recorder.new.log (λ t. names.new.items ≡ names.old.items ++ flat_map (λ u. lineages (withs_of t u)) units.now)) }
    ensures asks { OnOk result (AsksOf units.now by_property recorder.old.log recorder.new.log) }
    ensures takes_none { units.now ≡ [] → is_ok result ≡ true }
{
    for unit in units {
        add_withs(alloc, unit, names, recorder)?;
    }
    Ok(())
}

/// Adds the units whose region a body continues at the stub.
fn add_stub(alloc: Global, stub: &UnitPart, units: &mut Vec<UnitKey>) -> Result<(), NoMemory>
    ensures { OnOk result (units.new.items ≡ units.old.items ++ stub_units stub.now) }
{
    add_declaration(alloc, &stub.unit, units)?;
    let unit = copied_unit(alloc, &stub.unit)?;
    units.push(unit)?;
    Ok(())
}

/// Adds the units whose regions bodies continue at the stubs. Of no stubs it takes no memory.
fn add_stubs(alloc: Global, stubs: &[UnitPart], units: &mut Vec<UnitKey>) -> Result<(), NoMemory>
    ensures is { OnOk result (units.new.items ≡ units.old.items ++ flat_map stub_units stubs.now) }
    ensures takes_none { stubs.now ≡ [] → is_ok result ≡ true }
{
    for stub in stubs {
        add_stub(alloc, stub, units)?;
    }
    Ok(())
}

/// The units that are asked: the ancestors, the bodies round a subunit, and the declarations of bodies. If there are none, it takes no
/// memory.
/// # Errors
/// `NoMemory` if the allocator refuses memory.
pub fn asked_units(alloc: Global, own: &OwnText) -> Result<Vec<UnitKey>, NoMemory>
    ensures is { IfOk result (λ units. units.items ≡ asked_units own.now) }
    ensures takes_none { ancestor_units (library_name own.now) ≡ [] → own.now.stubs ≡ [] → own_declaration own.now.unit ≡ [] → is_ok result ≡ true }
{
    let mut units = ancestors_of(alloc, library_name_of(own))?;
    add_stubs(alloc, own.stubs.as_slice(), &mut units)?;
    add_declaration(alloc, &own.unit, &mut units)?;
    Ok(units)
}

/// The names of the library units that are mentioned at the start of a unit's source, one possibly several times (ARM 10.1.2(6 to 8),
/// 10.1.6). The caller mentions each of them with its view.
/// # Errors
/// `NoMemory` if the allocator refuses memory.
pub fn mentioned<A: Answers>(
    alloc: Global,
    own: &OwnText,
    recorder: &mut Recorder<A>,
) -> Result<Vec<Name>, NoMemory>
    ensures asked { recorder.new.asked ≡ recorder.old.asked }
    ensures answered { IfOk result (λ names. FromAnswers recorder.old.log recorder.new.log (λ t. names.items ≡ mentioned_names t own.now)) }
    ensures asks { IfOk result (λ _. AsksOf (asked_units own.now) by_property recorder.old.log recorder.new.log) }
{
    let library = library_name_of(own);
    let mut names = Vec::new(alloc);
    add_lineage(alloc, library, &mut names)?;
    add_lineages(alloc, own.withs.as_slice(), &mut names)?;
    let units = asked_units(alloc, own)?;
    add_each_withs(alloc, units.as_slice(), &mut names, recorder)?;
    Ok(names)
}
