// What is declared in bodies.
ghost use Rattle.std.specs.Prelude.{◌≡◌, ◌++◌, ◌∷◌, [], map, OnOk};
ghost use Rattle.al_tree.specs.DeclarationViews.{specification_model};
ghost use Rattle.al_tree.specs.Lexemes.{identifier_label, place_label};
ghost use Rattle.al_tree.specs.StatementViews.{body_model, handled_model, item_model, items_of, operation_bodies_of, operation_body_model};
ghost use Rattle.al_lsp_outline.specs.Bodies.{body_declared, ended, handled_declared, item_declared, items_declared, operation_declared, operations_declared};

use crate::declared::{Declared, DeclaredKind, add_named, deeper, last_of};
use crate::parts::{add_common, add_protected, add_subprogram};
use al_base::{NoMemory, Place};
use al_tree::{DeclaredStatements, Identifier, Item, OperationBody, Specification, SubprogramBody};

/// Adds what a declarative part declares.
#[cycle(bodies)]
pub(crate) fn add_items(
    list: &mut Vec<Declared>,
    depth: u32,
    items: &[Item],
) -> Result<(), NoMemory>
    ensures { OnOk result (list.new.items ≡ list.old.items ++ items_declared depth (items_of (map item_model items.now))) }
{
    for item in items {
        add_item(list, depth, item)?;
    }
    Ok(())
}

/// Adds a subprogram's body and what it declares.
#[cycle(bodies)]
#[tactic(auto, using(crate::proofs::Layers::body_layers))]
pub(crate) fn add_body(
    list: &mut Vec<Declared>,
    depth: u32,
    specification: &Specification,
    body: &SubprogramBody,
) -> Result<(), NoMemory>
    ensures { OnOk result (list.new.items ≡ list.old.items ++ body_declared depth (specification_model specification.now) (body_model body.now)) }
{
    add_subprogram(list, depth, specification, body.end.end)?;
    add_items(list, deeper(depth), body.items.as_slice())
}

// Adds the body of a task or of an entry and what it declares.
#[cycle(bodies)]
#[tactic(auto, using(crate::proofs::Layers::handled_layers))]
fn add_handled(
    list: &mut Vec<Declared>,
    kind: DeclaredKind,
    depth: u32,
    name: &Identifier,
    inside: &DeclaredStatements,
) -> Result<(), NoMemory>
    ensures { OnOk result (list.new.items ≡ list.old.items ++ handled_declared kind depth (identifier_label name.now) (handled_model inside.now)) }
{
    add_ended(list, kind, depth, name, inside.end.end)?;
    add_items(list, deeper(depth), inside.items.as_slice())
}

#[cycle(bodies)]
#[tactic(auto, using(al_tree::proofs::StatementsMade::operation_body_subprogram_model, al_tree::proofs::StatementsMade::operation_body_entry_model))]
fn add_operation(
    list: &mut Vec<Declared>,
    depth: u32,
    operation: &OperationBody,
) -> Result<(), NoMemory>
    ensures { OnOk result (list.new.items ≡ list.old.items ++ operation_declared depth (operation_body_model operation.now)) }
{
    match operation {
        OperationBody::SubprogramOperation(of, body) => add_body(list, depth, of, body),
        OperationBody::EntryOperation(_, name, _, inside) => {
            add_handled(list, DeclaredKind::Entry, depth, name, inside)
        }
    }
}

#[cycle(bodies)]
fn add_operations(
    list: &mut Vec<Declared>,
    depth: u32,
    operations: &[OperationBody],
) -> Result<(), NoMemory>
    ensures { OnOk result (list.new.items ≡ list.old.items ++ operations_declared depth (operation_bodies_of (map operation_body_model operations.now))) }
{
    for operation in operations {
        add_operation(list, depth, operation)?;
    }
    Ok(())
}

#[cycle(bodies)]
#[tactic(auto, using(al_tree::proofs::StatementsMade::item_common_model, al_tree::proofs::StatementsMade::item_subprogram_model, al_tree::proofs::StatementsMade::item_stub_model, al_tree::proofs::StatementsMade::item_body_model, al_tree::proofs::StatementsMade::item_task_model, al_tree::proofs::StatementsMade::item_task_body_model, al_tree::proofs::StatementsMade::item_protected_model, al_tree::proofs::StatementsMade::item_protected_body_model))]
fn add_item(list: &mut Vec<Declared>, depth: u32, item: &Item) -> Result<(), NoMemory>
    ensures { OnOk result (list.new.items ≡ list.old.items ++ item_declared depth (item_model item.now)) }
{
    match item {
        Item::CommonItem(of) => add_common(list, depth, of),
        Item::SubprogramItem(of) => add_subprogram(list, depth, of, last_of(of)),
        Item::StubItem(of, separate) => add_subprogram(list, depth, of, *separate),
        Item::BodyItem(of, body) => add_body(list, depth, of, body),
        Item::TaskItem(of) => add_named(list, DeclaredKind::Task, depth, &of.name),
        Item::TaskBodyItem(_, name, inside) => {
            add_handled(list, DeclaredKind::Task, depth, name, inside)
        }
        Item::ProtectedItem(_, of) => add_protected(list, depth, of),
        Item::ProtectedBodyItem(_, name, operations, end) => {
            add_ended(list, DeclaredKind::Protected, depth, name, end.end)?;
            add_operations(list, deeper(depth), operations.as_slice())
        }
    }
}

// Adds what an identifier declares, whose declaration has these last words.
fn add_ended(
    list: &mut Vec<Declared>,
    kind: DeclaredKind,
    depth: u32,
    name: &Identifier,
    last: Place,
) -> Result<(), NoMemory>
    ensures { OnOk result (list.new.items ≡ list.old.items ++ ended kind depth (identifier_label name.now) (place_label last) ∷ []) }
{
    let place = name.place;
    list.push(Declared {
        kind,
        depth,
        first: place,
        name: place,
        last,
    })?;
    Ok(())
}
