// The entry of a protected object, with its barrier.
ghost use Rattle.std.specs.Prelude.{◌≡◌, map, IfOk};
ghost use Rattle.al_check_declared.specs.Barriers.{entry_among, entry_by, entry_of, first_barrier, own_barrier, own_entry};
ghost use Rattle.al_decl_judged.specs.Completing.{is_entry};
ghost use Rattle.al_tree.specs.StatementViews.{operation_bodies_of, operation_body_model};

use crate::barrier::barrier_of;
use al_base::NoMemory;
use al_tree::OperationBody;
use al_view::{CallKind, ObjectPlace, Operation, ProtectedView, Symbol};
use al_view_predefined::StandardTypes;
use al_view_typed::EntryOf;
use std::alloc::Global;

fn is_entry(call: &CallKind) -> bool
    ensures { result ≡ is_entry call.now }
{
    match call {
        CallKind::Entry => true,
        CallKind::Operator { of_type: _ } => false,
        CallKind::Subprogram { depth: _ } => false,
        CallKind::Predefined => false,
        CallKind::Protected => false,
    }
}

fn own_entry(alloc: Global, operation: &Operation) -> Result<Option<Symbol>, NoMemory>
    ensures { IfOk result (λ symbol. symbol ≡ own_entry operation.now) }
{
    if is_entry(&operation.subprogram.call) {
        let symbol = operation.subprogram.symbol.copy(alloc)?;
        return Ok(Some(symbol));
    }
    Ok(None)
}

/// The entry among the operations: there is one at most.
fn entry_among(alloc: Global, operations: &[Operation]) -> Result<Option<Symbol>, NoMemory>
    ensures { IfOk result (λ symbol. symbol ≡ entry_among operations.now) }
{
    for operation in operations {
        let found = own_entry(alloc, operation)?;
        if found.is_some() {
            return Ok(found);
        }
    }
    Ok(None)
}

/// The barrier of an entry's body, if it is right.
#[tactic(auto, using(al_tree::proofs::StatementsMade::operation_body_subprogram_model, al_tree::proofs::StatementsMade::operation_body_entry_model))]
fn own_barrier(
    alloc: Global,
    standard: &StandardTypes,
    object: &ProtectedView,
    body: &OperationBody,
) -> Result<Option<ObjectPlace>, NoMemory>
    ensures { IfOk result (λ place. place ≡ own_barrier object.now (operation_body_model body.now)) }
{
    match body {
        OperationBody::SubprogramOperation(_, _) => Ok(None),
        OperationBody::EntryOperation(_, _, barrier, _) => {
            barrier_of(alloc, standard, object, barrier)
        }
    }
}

/// The first barrier that is right.
fn first_barrier(
    alloc: Global,
    standard: &StandardTypes,
    object: &ProtectedView,
    bodies: &[OperationBody],
) -> Result<Option<ObjectPlace>, NoMemory>
    ensures { IfOk result (λ place. place ≡ first_barrier object.now (operation_bodies_of (map operation_body_model bodies.now))) }
{
    for body in bodies {
        let found = own_barrier(alloc, standard, object, body)?;
        if found.is_some() {
            return Ok(found);
        }
    }
    Ok(None)
}

fn entry_by(symbol: Option<Symbol>, barrier: Option<ObjectPlace>) -> Option<EntryOf>
    ensures { result ≡ entry_by symbol barrier }
{
    match symbol {
        Some(entry) => match barrier {
            Some(barrier) => Some(EntryOf { entry, barrier }),
            None => None,
        },
        None => None,
    }
}

/// The entry of an object with its barrier, if the bodies hold one for it whose barrier is right (ARM 9.5.2).
pub(crate) fn entry_of(
    alloc: Global,
    standard: &StandardTypes,
    object: &ProtectedView,
    bodies: &[OperationBody],
) -> Result<Option<EntryOf>, NoMemory>
    ensures { IfOk result (λ entry. entry ≡ entry_of object.now (operation_bodies_of (map operation_body_model bodies.now))) }
{
    let symbol = entry_among(alloc, object.operations.as_slice())?;
    let barrier = first_barrier(alloc, standard, object, bodies)?;
    Ok(entry_by(symbol, barrier))
}
