// The start of the private part of a package's declaration, or of the declarative part of a subprogram body that acts as one.
ghost use Rattle.std.specs.Prelude.{◌≡◌, ◌<◌, [], ◌∷◌, ◌||◌, IfOk, None, is_ok, length, true, if◌then◌else◌};
ghost use Rattle.al_view.specs.declared.part.Part.TheVariants.{Private};
ghost use Rattle.al_query.specs.Asked.{AsksOf, by_property};
ghost use Rattle.al_query.specs.Reads.{FromAnswers};
ghost use Rattle.al_scope.specs.UnitPlaces.{ancestor_units, asked_units, library_name, opened, outward_opened, own_declaration, part_of, private_regions, some_private, with_part_of};

use crate::own::OwnText;
use crate::parts::use_part;
use crate::unit_place::{
    ancestors_of, library_name_of, nearer_than, sees_private_part, sees_private_parts, symbol_from,
};
use crate::{Scope, UnitPart};
use al_base::{NoMemory, UnitKey};
use al_query::{Answers, Recorder};
use al_view::{Part, Symbol, copied_unit};
use std::alloc::Global;

/// The private part of the unit.
fn private_part_of(alloc: Global, unit: &UnitKey) -> Result<UnitPart, NoMemory>
    ensures { IfOk result (λ part. part ≡ part_of unit.now Private) }
{
    Ok(UnitPart {
        unit: copied_unit(alloc, unit)?,
        part: Part::Private,
    })
}

/// The region of that construct, if there is one, continues the part too. If there is no construct, it takes no memory.
fn add_part(scope: &mut Scope, construct: Option<Symbol>, part: UnitPart) -> Result<(), NoMemory>
    ensures regions { IfOk result (λ _. scope.new.regions ≡ with_part_of construct part scope.old.regions) }
    ensures depth { length scope.new.regions ≡ length scope.old.regions }
    ensures mentioned { scope.new.mentioned ≡ scope.old.mentioned }
    ensures takes_none { construct ≡ None → is_ok result ≡ true }
{
    match construct {
        Some(symbol) => scope.add_part(&symbol, part)?,
        None => {}
    }
    Ok(())
}

/// The private part of an ancestor is seen from here on, with its use clauses.
fn open<A: Answers>(
    alloc: Global,
    scope: &mut Scope,
    unit: &UnitKey,
    recorder: &mut Recorder<A>,
) -> Result<(), NoMemory>
    requires { 0 < length scope.old.regions }
    ensures asked { recorder.new.asked ≡ recorder.old.asked }
    ensures answered { IfOk result (λ _. FromAnswers recorder.old.log recorder.new.log (λ t. scope.new.regions ≡ opened t unit.now scope.old.regions)) }
    ensures asks { IfOk result (λ _. AsksOf (unit.now ∷ []) by_property recorder.old.log recorder.new.log) }
    ensures depth { length scope.new.regions ≡ length scope.old.regions }
    ensures mentioned { scope.new.mentioned ≡ scope.old.mentioned }
{
    let symbol = symbol_from(alloc, unit, recorder)?;
    let added = private_part_of(alloc, unit)?;
    add_part(scope, symbol, added)?;
    let used = private_part_of(alloc, unit)?;
    use_part(alloc, scope, &used, recorder)?;
    Ok(())
}

/// Opens the private part of an ancestor, unless the place saw it before; then it takes no memory.
fn open_unless_model<A: Answers>(
    alloc: Global,
    scope: &mut Scope,
    unit: &UnitKey,
    sees: bool,
    nearer: &[UnitKey],
    recorder: &mut Recorder<A>,
) -> Result<(), NoMemory>
    requires { 0 < length scope.old.regions }
    ensures asked { recorder.new.asked ≡ recorder.old.asked }
    ensures answered { IfOk result (λ _. FromAnswers recorder.old.log recorder.new.log (λ t. scope.new.regions ≡ (if sees || some_private t nearer.now then scope.old.regions else opened t unit.now scope.old.regions))) }
    ensures asks { IfOk result (λ _. AsksOf (unit.now ∷ nearer.now) by_property recorder.old.log recorder.new.log) }
    ensures depth { length scope.new.regions ≡ length scope.old.regions }
    ensures mentioned { scope.new.mentioned ≡ scope.old.mentioned }
    ensures takes_none { sees ≡ true → is_ok result ≡ true }
{
    if sees_private_part(alloc, sees, nearer, recorder)? {
        return Ok(());
    }
    open(alloc, scope, unit, recorder)?;
    Ok(())
}

/// Opens the private parts of the ancestors that weren't seen before, the farthest first. If the place saw them all, or there are none, it
/// takes no memory.
fn open_each<A: Answers>(
    alloc: Global,
    scope: &mut Scope,
    units: &[UnitKey],
    sees: bool,
    recorder: &mut Recorder<A>,
) -> Result<(), NoMemory>
    requires { 0 < length scope.old.regions }
    ensures asked { recorder.new.asked ≡ recorder.old.asked }
    ensures answered { IfOk result (λ _. FromAnswers recorder.old.log recorder.new.log (λ t. scope.new.regions ≡ outward_opened t sees units.now scope.old.regions)) }
    ensures asks { IfOk result (λ _. AsksOf units.now by_property recorder.old.log recorder.new.log) }
    ensures depth { length scope.new.regions ≡ length scope.old.regions }
    ensures mentioned { scope.new.mentioned ≡ scope.old.mentioned }
    ensures takes_none { sees ≡ true → is_ok result ≡ true }
    ensures takes_none_of_none { units.now ≡ [] → is_ok result ≡ true }
{
    for i in 0..units.len() {
        let unit = &units[i];
        let nearer = nearer_than(units, i);
        open_unless_model(alloc, scope, unit, sees, nearer, recorder)?;
    }
    Ok(())
}

/// Makes the private parts of the ancestors visible from here on, with the use clauses in them (ARM 8.2(5), 8.4(7)). The place is in the
/// unit's own region, where the private part of a package's declaration begins, or after the profile of a subprogram body that acts as a
/// declaration. If there are no ancestors, it takes no memory, except for the body of a library unit.
/// # Errors
/// `NoMemory` if the allocator refuses memory.
pub fn enter_private_part<A: Answers>(
    alloc: Global,
    scope: &mut Scope,
    own: &OwnText,
    recorder: &mut Recorder<A>,
) -> Result<(), NoMemory>
    requires { 0 < length scope.old.regions }
    ensures asked { recorder.new.asked ≡ recorder.old.asked }
    ensures answered { IfOk result (λ _. FromAnswers recorder.old.log recorder.new.log (λ t. scope.new.regions ≡ private_regions t own.now scope.old.regions)) }
    ensures asks { IfOk result (λ _. AsksOf (asked_units own.now) by_property recorder.old.log recorder.new.log) }
    ensures depth { length scope.new.regions ≡ length scope.old.regions }
    ensures mentioned { scope.new.mentioned ≡ scope.old.mentioned }
    ensures takes_none { ancestor_units (library_name own.now) ≡ [] → own_declaration own.now.unit ≡ [] → is_ok result ≡ true }
{
    let units = ancestors_of(alloc, library_name_of(own))?;
    let sees = sees_private_parts(alloc, own, recorder)?;
    open_each(alloc, scope, units.as_slice(), sees, recorder)?;
    Ok(())
}
