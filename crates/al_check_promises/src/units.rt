// The links that labelled units use.
ghost use Rattle.std.specs.Prelude.{◌≡◌, map, option_map};
ghost use Rattle.std.specs.List.{flat_map, list_all};
ghost use Rattle.al_view_typed.specs.StatementViews.{statement_model};
ghost use Rattle.al_view_typed.specs.UnitTrees.{body_model, elaboration_model, unit_model};
ghost use Rattle.al_view_typed.specs.declared.unit.BodyKind.TheVariants as kinds;
ghost use Rattle.al_view_typed.specs.Uses.{body_uses, elaboration_uses, entry_uses, kind_uses, some_uses, statement_uses, unit_uses};
ghost use Rattle.al_check_promises.specs.Rules.{permits};

use crate::declarations::declarations_pass;
use crate::rule::LinkRule;
use crate::statements::statement_passes;
use crate::test::LinkTest;
use crate::views::place_passes;
use al_view::{LinkKind, ObjectPlace, Symbol};
use al_view_typed::{BodyKind, Elaboration, EntryOf, TypedBody, TypedStatement, TypedUnit};

fn statements_pass(statements: &[TypedStatement], test: &LinkRule) -> bool
    ensures { result ≡ list_all (permits test.now) (flat_map statement_uses (map statement_model statements.now)) }
{
    for statement in statements {
        if !statement_passes(statement, test) {
            return false;
        }
    }
    true
}

#[tactic(auto, unfolding(al_view_typed::specs::UnitTrees::elaboration_model))]
fn elaboration_passes(elaboration: &Elaboration, test: &LinkRule) -> bool
    ensures { result ≡ list_all (permits test.now) (elaboration_uses (elaboration_model elaboration.now)) }
{
    declarations_pass(elaboration.declarations.as_slice(), test)
        && statements_pass(elaboration.statements.as_slice(), test)
}

fn some_elaboration_passes(elaboration: &Option<Elaboration>, test: &LinkRule) -> bool
    ensures { result ≡ list_all (permits test.now) (some_uses elaboration_uses (option_map elaboration_model elaboration.now)) }
{
    match elaboration {
        Some(elaboration) => elaboration_passes(elaboration, test),
        None => true,
    }
}

/// Whether the links of a protected object's entry pass the test: its body, and the component that is its barrier.
fn entry_passes(entry: &Option<EntryOf>, test: &LinkRule) -> bool
    ensures { result ≡ list_all (permits test.now) (some_uses entry_uses entry.now) }
{
    match entry {
        Some(entry) => {
            test.passes(LinkKind::EntryBody, &entry.entry)
                && place_passes(LinkKind::Data, &entry.barrier, test)
        }
        None => true,
    }
}

/// Whether the links that the body of an entry uses pass the test.
fn barrier_passes(body: &Symbol, object: &Symbol, barrier: &ObjectPlace, test: &LinkRule) -> bool
    ensures { result ≡ list_all (permits test.now) (kind_uses body.now (kinds.Entry object.now barrier.now)) }
{
    test.passes(LinkKind::Protected, object)
        && test.passes(LinkKind::EntryBody, body)
        && place_passes(LinkKind::Data, barrier, test)
}

/// Whether the links with which a body enters and leaves a protected object pass the test.
fn kind_passes(body: &Symbol, kind: &BodyKind, test: &LinkRule) -> bool
    ensures { result ≡ list_all (permits test.now) (kind_uses body.now kind.now) }
{
    match kind {
        BodyKind::Procedure { .. } => true,
        BodyKind::Function { .. } => true,
        BodyKind::Task => true,
        BodyKind::ProtectedProcedure { object, entry, .. } => {
            test.passes(LinkKind::Protected, object) && entry_passes(entry, test)
        }
        BodyKind::ProtectedFunction { object, .. } => test.passes(LinkKind::Protected, object),
        BodyKind::Entry { object, barrier } => barrier_passes(body, object, barrier, test),
    }
}

#[tactic(auto, unfolding(al_view_typed::specs::UnitTrees::body_model))]
fn body_passes(body: &TypedBody, test: &LinkRule) -> bool
    ensures { result ≡ list_all (permits test.now) (body_uses (body_model body.now)) }
{
    kind_passes(&body.symbol, &body.kind, test) && elaboration_passes(&body.inside, test)
}

fn bodies_pass(bodies: &[TypedBody], test: &LinkRule) -> bool
    ensures { result ≡ list_all (permits test.now) (flat_map body_uses (map body_model bodies.now)) }
{
    for body in bodies {
        if !body_passes(body, test) {
            return false;
        }
    }
    true
}

/// Whether all links that a labelled unit uses pass the test.
#[tactic(auto, unfolding(al_view_typed::specs::UnitTrees::unit_model, al_view_typed::specs::Uses::unit_uses))]
pub fn uses_pass(unit: &TypedUnit, test: &LinkRule) -> bool
    ensures { result ≡ list_all (permits test.now) (unit_uses (unit_model unit.now)) }
{
    some_elaboration_passes(&unit.elaboration, test) && bodies_pass(unit.bodies.as_slice(), test)
}
