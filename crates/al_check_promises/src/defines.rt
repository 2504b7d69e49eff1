// The links that labelled units define.
ghost use Rattle.std.specs.Prelude.{◌≡◌, map, OnOk};
ghost use Rattle.std.specs.List.{flat_map, list_all};
ghost use Rattle.al_view.specs.ViewUses.{link};
ghost use Rattle.al_view_typed.specs.UnitTrees.{body_model, unit_model};
ghost use Rattle.al_view_typed.specs.Uses.{body_defines, protected_defines, unit_defines};
ghost use Rattle.al_check_promises.specs.Links.{Gains};

use crate::link_set::LinkSet;
use crate::shown::add_entry;
use crate::test::LinkTest;
use al_base::NoMemory;
use al_view::LinkKind;
use al_view_typed::{BodyKind, DataPlace, ProtectedWords, TypedBody, TypedUnit};

/// Whether the links that a body defines pass the test: for an entry its gate and the body after it, else its code.
#[tactic(auto, unfolding(al_view_typed::specs::UnitTrees::body_model))]
fn body_passes<T: LinkTest>(body: &TypedBody, test: &T) -> bool
    ensures { result ≡ list_all (T.passing test.now) (body_defines (body_model body.now).symbol (body_model body.now).kind) }
{
    match &body.kind {
        BodyKind::Entry { .. } => {
            test.passes(LinkKind::Gate, &body.symbol)
                && test.passes(LinkKind::EntryBody, &body.symbol)
        }
        BodyKind::Procedure { .. } => test.passes(LinkKind::Code, &body.symbol),
        BodyKind::Function { .. } => test.passes(LinkKind::Code, &body.symbol),
        BodyKind::Task => test.passes(LinkKind::Code, &body.symbol),
        BodyKind::ProtectedProcedure { .. } => test.passes(LinkKind::Code, &body.symbol),
        BodyKind::ProtectedFunction { .. } => test.passes(LinkKind::Code, &body.symbol),
    }
}

fn bodies_pass<T: LinkTest>(bodies: &[TypedBody], test: &T) -> bool
    ensures { result ≡ list_all (T.passing test.now) (flat_map (λ b. body_defines b.symbol b.kind) (map body_model bodies.now)) }
{
    for body in bodies {
        if !body_passes(body, test) {
            return false;
        }
    }
    true
}

fn places_pass<T: LinkTest>(kind: LinkKind, places: &[DataPlace], test: &T) -> bool
    ensures { result ≡ list_all (T.passing test.now) (map (λ p. link kind p.symbol) places.now) }
{
    for place in places {
        if !test.passes(kind, &place.symbol) {
            return false;
        }
    }
    true
}

fn object_passes<T: LinkTest>(object: &ProtectedWords, test: &T) -> bool
    ensures { result ≡ list_all (T.passing test.now) (protected_defines object.now) }
{
    test.passes(LinkKind::Data, &object.symbol) && test.passes(LinkKind::Protected, &object.symbol)
}

fn objects_pass<T: LinkTest>(objects: &[ProtectedWords], test: &T) -> bool
    ensures { result ≡ list_all (T.passing test.now) (flat_map protected_defines objects.now) }
{
    for object in objects {
        if !object_passes(object, test) {
            return false;
        }
    }
    true
}

/// Whether all links that a labelled unit defines pass the test.
#[tactic(auto, unfolding(al_view_typed::specs::UnitTrees::unit_model, al_view_typed::specs::Uses::unit_defines))]
pub fn defines_pass<T: LinkTest>(unit: &TypedUnit, test: &T) -> bool
    ensures { result ≡ list_all (T.passing test.now) (unit_defines (unit_model unit.now)) }
{
    bodies_pass(unit.bodies.as_slice(), test)
        && places_pass(LinkKind::Data, unit.objects.as_slice(), test)
        && places_pass(LinkKind::Flag, unit.flags.as_slice(), test)
        && objects_pass(unit.protected_objects.as_slice(), test)
}

/// Adds the links that a body defines.
#[tactic(auto, unfolding(al_view_typed::specs::UnitTrees::body_model))]
fn add_body(set: &mut LinkSet, body: &TypedBody) -> Result<(), NoMemory>
    ensures { OnOk result (Gains set.old set.new (body_defines (body_model body.now).symbol (body_model body.now).kind)) }
{
    match &body.kind {
        BodyKind::Entry { .. } => add_entry(set, &body.symbol),
        BodyKind::Procedure { .. } => set.insert(LinkKind::Code, &body.symbol),
        BodyKind::Function { .. } => set.insert(LinkKind::Code, &body.symbol),
        BodyKind::Task => set.insert(LinkKind::Code, &body.symbol),
        BodyKind::ProtectedProcedure { .. } => set.insert(LinkKind::Code, &body.symbol),
        BodyKind::ProtectedFunction { .. } => set.insert(LinkKind::Code, &body.symbol),
    }
}

fn add_bodies(set: &mut LinkSet, bodies: &[TypedBody]) -> Result<(), NoMemory>
    ensures { OnOk result (Gains set.old set.new (flat_map (λ b. body_defines (body_model b).symbol (body_model b).kind) bodies.now)) }
{
    for body in bodies {
        add_body(set, body)?;
    }
    Ok(())
}

fn add_places(set: &mut LinkSet, kind: LinkKind, places: &[DataPlace]) -> Result<(), NoMemory>
    ensures { OnOk result (Gains set.old set.new (map (λ p. link kind p.symbol) places.now)) }
{
    for place in places {
        set.insert(kind, &place.symbol)?;
    }
    Ok(())
}

#[tactic(auto, using(crate::proofs::Gained::gains_both))]
fn add_object(set: &mut LinkSet, object: &ProtectedWords) -> Result<(), NoMemory>
    ensures { OnOk result (Gains set.old set.new (protected_defines object.now)) }
{
    set.insert(LinkKind::Data, &object.symbol)?;
    set.insert(LinkKind::Protected, &object.symbol)
}

#[tactic(auto, using(crate::proofs::Gained::gains_both))]
fn add_objects(set: &mut LinkSet, objects: &[ProtectedWords]) -> Result<(), NoMemory>
    ensures { OnOk result (Gains set.old set.new (flat_map protected_defines objects.now)) }
{
    for object in objects {
        add_object(set, object)?;
    }
    Ok(())
}

/// Adds all links that a labelled unit defines.
///
/// # Errors
/// `NoMemory` if the allocator refuses memory.
pub fn add_defines(set: &mut LinkSet, unit: &TypedUnit) -> Result<(), NoMemory>
    ensures { OnOk result (Gains set.old set.new (unit_defines (unit_model unit.now))) }
{
    add_bodies(set, unit.bodies.as_slice())?;
    add_places(set, LinkKind::Data, unit.objects.as_slice())?;
    add_places(set, LinkKind::Flag, unit.flags.as_slice())?;
    add_objects(set, unit.protected_objects.as_slice())
}
