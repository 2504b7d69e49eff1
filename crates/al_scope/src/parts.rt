// Regions that continue parts of units.
ghost use Rattle.std.specs.Prelude.{◌≡◌, ◌+◌, ◌<◌, [], ◌∷◌, ◌++◌, IfOk, OnOk, is_ok, length, true};
ghost use Rattle.std.specs.List.{flat_map};
ghost use Rattle.al_query.specs.Asked.{AsksOf, by_property};
ghost use Rattle.al_query.specs.Reads.{FromAnswers};
ghost use Rattle.al_query.specs.declared.query.Query.TheVariants.{Of};
ghost use Rattle.al_scope.specs.Places.{part_units};
ghost use Rattle.al_scope.specs.UnitPlaces.{continued, entered_as, part_uses, told_types, with_clauses};

use crate::clauses::use_context;
use crate::{Scope, UnitPart};
use al_base::{Name, NoMemory, UnitKey};
use al_query::{Answers, Property, Query, Recorder};
use al_view::{Seq, Symbol, copied_unit};
use std::alloc::Global;

/// A copy of a part of a unit.
/// # Errors
/// `NoMemory` if the allocator refuses memory.
pub fn copied_part(alloc: Global, part: &UnitPart) -> Result<UnitPart, NoMemory>
    ensures { IfOk result (λ copy. copy ≡ part.now) }
{
    Ok(UnitPart {
        unit: copied_unit(alloc, &part.unit)?,
        part: part.part.copy(alloc)?,
    })
}

/// Copies of parts of units. Of no parts it takes no memory.
fn copied_parts(alloc: Global, parts: &[UnitPart]) -> Result<Seq<UnitPart>, NoMemory>
    ensures is { IfOk result (λ copy. copy ≡ parts.now) }
    ensures takes_none { parts.now ≡ [] → is_ok result ≡ true }
{
    let mut copy = Seq::empty(alloc);
    for part in parts {
        let part = copied_part(alloc, part)?;
        copy.push(part)?;
    }
    Ok(copy)
}

/// The question for a property of a unit.
/// # Errors
/// `NoMemory` if the allocator refuses memory.
pub fn property_of(alloc: Global, unit: &UnitKey, property: Property) -> Result<Query, NoMemory>
    ensures { IfOk result (λ query. query ≡ Of unit.now property) }
{
    Ok(Query::Of {
        unit: copied_unit(alloc, unit)?,
        property,
    })
}

/// The use clauses that the innermost region has because it continues the part.
/// # Errors
/// `NoMemory` if the allocator refuses memory.
pub fn use_part<A: Answers>(
    alloc: Global,
    scope: &mut Scope,
    part: &UnitPart,
    recorder: &mut Recorder<A>,
) -> Result<(), NoMemory>
    requires { 0 < length scope.old.regions }
    ensures asked { recorder.new.asked ≡ recorder.old.asked }
    ensures answered { IfOk result (λ _. FromAnswers recorder.old.log recorder.new.log (λ t. scope.new.regions ≡ with_clauses (part_uses t part.now) scope.old.regions)) }
    ensures asks { IfOk result (λ _. AsksOf (part.now.unit ∷ []) by_property recorder.old.log recorder.new.log) }
    ensures depth { length scope.new.regions ≡ length scope.old.regions }
    ensures mentioned { scope.new.mentioned ≡ scope.old.mentioned }
{
    let query = property_of(alloc, &part.unit, Property::Context)?;
    let answer = recorder.ask(&query)?;
    match answer.context() {
        Some(context) => {
            use_context(alloc, scope, context, &part.part)?;
            Ok(())
        }
        None => Ok(()),
    }
}

/// The use clauses that the innermost region has because it continues the parts. Of no parts it takes no memory.
fn use_parts<A: Answers>(
    alloc: Global,
    scope: &mut Scope,
    parts: &[UnitPart],
    recorder: &mut Recorder<A>,
) -> Result<(), NoMemory>
    requires { 0 < length scope.old.regions }
    ensures asked { recorder.new.asked ≡ recorder.old.asked }
    ensures answered { IfOk result (λ _. FromAnswers recorder.old.log recorder.new.log (λ t. scope.new.regions ≡ with_clauses (flat_map (part_uses t) parts.now) scope.old.regions)) }
    ensures asks { IfOk result (λ _. AsksOf (part_units parts.now) by_property recorder.old.log recorder.new.log) }
    ensures depth { length scope.new.regions ≡ length scope.old.regions }
    ensures mentioned { scope.new.mentioned ≡ scope.old.mentioned }
    ensures takes_none { parts.now ≡ [] → is_ok result ≡ true }
{
    for part in parts {
        use_part(alloc, scope, part, recorder)?;
    }
    Ok(())
}

/// Adds these names. Of no names it takes no memory.
fn add_names(alloc: Global, more: &[Name], names: &mut Vec<Name>) -> Result<(), NoMemory>
    ensures { OnOk result (names.new.items ≡ names.old.items ++ more.now) }
{
    for name in more {
        let name = Name::from_slice(alloc, name.as_slice())?;
        names.push(name)?;
    }
    Ok(())
}

/// Adds the private types that the context of the part's unit names.
fn add_told<A: Answers>(
    alloc: Global,
    part: &UnitPart,
    names: &mut Vec<Name>,
    recorder: &mut Recorder<A>,
) -> Result<(), NoMemory>
    ensures asked { recorder.new.asked ≡ recorder.old.asked }
    ensures answered { OnOk result (FromAnswers recorder.old.log recorder.new.log (λ t. names.new.items ≡ names.old.items ++ told_types t part.now)) }
    ensures asks { OnOk result (AsksOf (part.now.unit ∷ []) by_property recorder.old.log recorder.new.log) }
{
    let query = property_of(alloc, &part.unit, Property::Context)?;
    let answer = recorder.ask(&query)?;
    add_names(alloc, answer.private_types(), names)?;
    Ok(())
}

/// The private types that the contexts of the parts' units name. Of no parts it takes no memory.
fn told_types<A: Answers>(
    alloc: Global,
    parts: &[UnitPart],
    recorder: &mut Recorder<A>,
) -> Result<Vec<Name>, NoMemory>
    ensures asked { recorder.new.asked ≡ recorder.old.asked }
    ensures answered { IfOk result (λ names. FromAnswers recorder.old.log recorder.new.log (λ t. names.items ≡ flat_map (told_types t) parts.now)) }
    ensures asks { IfOk result (λ _. AsksOf (part_units parts.now) by_property recorder.old.log recorder.new.log) }
{
    let mut names = Vec::new(alloc);
    for part in parts {
        add_told(alloc, part, &mut names, recorder)?;
    }
    Ok(names)
}

/// Enters a region that continues the parts, of that construct if there is one.
/// # Errors
/// `NoMemory` if the allocator refuses memory.
pub fn enter_as(
    scope: &mut Scope,
    construct: Option<Symbol>,
    parts: Seq<UnitPart>,
) -> Result<(), NoMemory>
    ensures regions { IfOk result (λ _. scope.new.regions ≡ scope.old.regions ++ entered_as construct parts scope.old.regions ∷ []) }
    ensures depth { IfOk result (λ _. length scope.new.regions ≡ length scope.old.regions + 1) }
    ensures mentioned { scope.new.mentioned ≡ scope.old.mentioned }
{
    match construct {
        Some(symbol) => scope.enter_construct(symbol, parts)?,
        None => scope.enter(parts)?,
    }
    Ok(())
}

/// Enters a region that continues the parts, of that construct if there is one. The use clauses of the other parts hold in it, and their
/// units say which private types they declare.
/// # Errors
/// `NoMemory` if the allocator refuses memory.
pub fn continue_parts<A: Answers>(
    alloc: Global,
    scope: &mut Scope,
    construct: Option<Symbol>,
    parts: &[UnitPart],
    used: &[UnitPart],
    recorder: &mut Recorder<A>,
) -> Result<(), NoMemory>
    ensures asked { recorder.new.asked ≡ recorder.old.asked }
    ensures answered { IfOk result (λ _. FromAnswers recorder.old.log recorder.new.log (λ t. scope.new.regions ≡ continued t construct parts.now used.now scope.old.regions)) }
    ensures asks { IfOk result (λ _. AsksOf (part_units used.now) by_property recorder.old.log recorder.new.log) }
    ensures depth { IfOk result (λ _. length scope.new.regions ≡ length scope.old.regions + 1) }
    ensures mentioned { scope.new.mentioned ≡ scope.old.mentioned }
{
    let copy = copied_parts(alloc, parts)?;
    enter_as(scope, construct, copy)?;
    let names = told_types(alloc, used, recorder)?;
    scope.tell(Seq::new(names));
    use_parts(alloc, scope, used, recorder)?;
    Ok(())
}
