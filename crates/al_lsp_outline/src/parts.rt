// What is declared alike in packages and in bodies.
ghost use Rattle.std.specs.Prelude.{◌≡◌, ◌++◌, map, OnOk};
ghost use Rattle.std.specs.List.{flat_map};
ghost use Rattle.al_tree.specs.DeclarationViews.{common_model, component_model, components_model, declaration_model, object_form_model, protected_component_model, protected_model, protected_operation_model, specification_model, type_definition_model, type_model};
ghost use Rattle.al_tree.specs.Lexemes.{place_label};
ghost use Rattle.al_lsp_outline.specs.Parts.{common_declared, component_declared, components_declared, declaration_declared, definition_kind, definition_last, inner_declared, private_components, object_kind, operation_declared, protected_component_declared, protected_declared, subprogram_declared, type_declared};

use crate::declared::{
    Declared, DeclaredKind, add_all_named, add_compound, add_named, deeper, last_of, name_of,
};
use al_base::{NoMemory, Place};
use al_tree::{
    CommonDeclaration, ComponentDeclaration, Components, Declaration, ObjectForm,
    ProtectedComponent, ProtectedDefinition, ProtectedOperation, Specification, TypeDeclaration,
    TypeDefinition,
};

/// Adds a subprogram whose declaration has these last words.
pub(crate) fn add_subprogram(
    list: &mut Vec<Declared>,
    depth: u32,
    specification: &Specification,
    last: Place,
) -> Result<(), NoMemory>
    ensures { OnOk result (list.new.items ≡ list.old.items ++ subprogram_declared depth (specification_model specification.now) (place_label last)) }
{
    let name = name_of(specification);
    add_compound(list, DeclaredKind::Subprogram, depth, name, last)
}

fn object_kind(form: &ObjectForm) -> DeclaredKind
    ensures { result ≡ object_kind (object_form_model form.now) }
{
    match form {
        ObjectForm::Typed(false, _, _) => DeclaredKind::Variable,
        ObjectForm::Typed(true, _, _) => DeclaredKind::Constant,
        ObjectForm::Number(_) => DeclaredKind::Constant,
    }
}

fn definition_kind(definition: &TypeDefinition) -> DeclaredKind
    ensures { result ≡ definition_kind (type_definition_model definition.now) }
{
    match definition {
        TypeDefinition::Enumeration(_, _) => DeclaredKind::Enumeration,
        TypeDefinition::Integer(_) => DeclaredKind::Type,
        TypeDefinition::NullRecord => DeclaredKind::Type,
        TypeDefinition::Private(_) => DeclaredKind::Type,
        TypeDefinition::Array(_) => DeclaredKind::Type,
        TypeDefinition::Record(_, _) => DeclaredKind::Type,
    }
}

// A place in a definition behind which the next semicolon ends it, if it has semicolons inside.
fn definition_last(definition: &TypeDefinition, name: Place) -> Place
    ensures { place_label result ≡ definition_last (type_definition_model definition.now) (place_label name) }
{
    match definition {
        TypeDefinition::Record(_, end) => *end,
        TypeDefinition::Integer(_) => name,
        TypeDefinition::NullRecord => name,
        TypeDefinition::Private(_) => name,
        TypeDefinition::Enumeration(_, _) => name,
        TypeDefinition::Array(_) => name,
    }
}

fn add_component(
    list: &mut Vec<Declared>,
    depth: u32,
    component: &ComponentDeclaration,
) -> Result<(), NoMemory>
    ensures { OnOk result (list.new.items ≡ list.old.items ++ component_declared depth (component_model component.now)) }
{
    add_all_named(list, DeclaredKind::Component, depth, &component.names)
}

fn add_each_component(
    list: &mut Vec<Declared>,
    depth: u32,
    components: &[ComponentDeclaration],
) -> Result<(), NoMemory>
    ensures { OnOk result (list.new.items ≡ list.old.items ++ flat_map (component_declared depth) (map component_model components.now)) }
{
    for component in components {
        add_component(list, depth, component)?;
    }
    Ok(())
}

fn add_components(
    list: &mut Vec<Declared>,
    depth: u32,
    components: &Components,
) -> Result<(), NoMemory>
    ensures { OnOk result (list.new.items ≡ list.old.items ++ components_declared depth (components_model components.now)) }
{
    match components {
        Components::Null => Ok(()),
        Components::Declared(first, others) => {
            add_component(list, depth, first)?;
            add_each_component(list, depth, others.as_slice())
        }
    }
}

// Adds the literals or the components of a type.
fn add_inner(
    list: &mut Vec<Declared>,
    depth: u32,
    definition: &TypeDefinition,
) -> Result<(), NoMemory>
    ensures { OnOk result (list.new.items ≡ list.old.items ++ inner_declared depth (type_definition_model definition.now)) }
{
    match definition {
        TypeDefinition::Enumeration(_, literals) => {
            add_all_named(list, DeclaredKind::Literal, depth, literals)
        }
        TypeDefinition::Record(components, _) => add_components(list, depth, components),
        TypeDefinition::Integer(_) => Ok(()),
        TypeDefinition::NullRecord => Ok(()),
        TypeDefinition::Private(_) => Ok(()),
        TypeDefinition::Array(_) => Ok(()),
    }
}

fn add_type(
    list: &mut Vec<Declared>,
    depth: u32,
    declaration: &TypeDeclaration,
) -> Result<(), NoMemory>
    ensures { OnOk result (list.new.items ≡ list.old.items ++ type_declared depth (type_model declaration.now)) }
{
    let place = declaration.name.place;
    list.push(Declared {
        kind: definition_kind(&declaration.definition),
        depth,
        first: place,
        name: place,
        last: definition_last(&declaration.definition, place),
    })?;
    add_inner(list, deeper(depth), &declaration.definition)
}

/// Adds what packages and bodies declare alike.
pub(crate) fn add_common(
    list: &mut Vec<Declared>,
    depth: u32,
    declaration: &CommonDeclaration,
) -> Result<(), NoMemory>
    ensures { OnOk result (list.new.items ≡ list.old.items ++ common_declared depth (common_model declaration.now)) }
{
    match declaration {
        CommonDeclaration::Object(of) => {
            add_all_named(list, object_kind(&of.form), depth, &of.names)
        }
        CommonDeclaration::Type(of) => add_type(list, depth, of),
        CommonDeclaration::Subtype(of) => add_named(list, DeclaredKind::Subtype, depth, &of.name),
        CommonDeclaration::Use(_) => Ok(()),
        CommonDeclaration::Pragma(_) => Ok(()),
    }
}

fn add_operation(
    list: &mut Vec<Declared>,
    depth: u32,
    operation: &ProtectedOperation,
) -> Result<(), NoMemory>
    ensures { OnOk result (list.new.items ≡ list.old.items ++ operation_declared depth (protected_operation_model operation.now)) }
{
    match operation {
        ProtectedOperation::Subprogram(of) => add_subprogram(list, depth, of, last_of(of)),
        ProtectedOperation::Entry(_, name) => add_named(list, DeclaredKind::Entry, depth, name),
    }
}

fn add_operations(
    list: &mut Vec<Declared>,
    depth: u32,
    operations: &[ProtectedOperation],
) -> Result<(), NoMemory>
    ensures { OnOk result (list.new.items ≡ list.old.items ++ flat_map (operation_declared depth) (map protected_operation_model operations.now)) }
{
    for operation in operations {
        add_operation(list, depth, operation)?;
    }
    Ok(())
}

fn add_protected_component(
    list: &mut Vec<Declared>,
    depth: u32,
    component: &ProtectedComponent,
) -> Result<(), NoMemory>
    ensures { OnOk result (list.new.items ≡ list.old.items ++ protected_component_declared depth (protected_component_model component.now)) }
{
    add_all_named(list, DeclaredKind::Component, depth, &component.names)
}

fn add_protected_components(
    list: &mut Vec<Declared>,
    depth: u32,
    components: &[ProtectedComponent],
) -> Result<(), NoMemory>
    ensures { OnOk result (list.new.items ≡ list.old.items ++ flat_map (protected_component_declared depth) (map protected_component_model components.now)) }
{
    for component in components {
        add_protected_component(list, depth, component)?;
    }
    Ok(())
}

// The components of a protected object.
fn private_components(definition: &ProtectedDefinition) -> &[ProtectedComponent]
    ensures { map protected_component_model result.now ≡ private_components (protected_model definition.now) }
{
    match &definition.private_part {
        Some(part) => part.components.as_slice(),
        None => &[],
    }
}

/// Adds a protected object, its operations and its components.
pub(crate) fn add_protected(
    list: &mut Vec<Declared>,
    depth: u32,
    definition: &ProtectedDefinition,
) -> Result<(), NoMemory>
    ensures { OnOk result (list.new.items ≡ list.old.items ++ protected_declared depth (protected_model definition.now)) }
{
    let place = definition.name.place;
    list.push(Declared {
        kind: DeclaredKind::Protected,
        depth,
        first: place,
        name: place,
        last: definition.end,
    })?;
    let inside = deeper(depth);
    add_operations(list, inside, definition.operations.as_slice())?;
    add_protected_components(list, inside, private_components(definition))
}

fn add_declaration(
    list: &mut Vec<Declared>,
    depth: u32,
    declaration: &Declaration,
) -> Result<(), NoMemory>
    ensures { OnOk result (list.new.items ≡ list.old.items ++ declaration_declared depth (declaration_model declaration.now)) }
{
    match declaration {
        Declaration::Common(of) => add_common(list, depth, of),
        Declaration::Subprogram(of) => add_subprogram(list, depth, of, last_of(of)),
        Declaration::Task(of) => add_named(list, DeclaredKind::Task, depth, &of.name),
        Declaration::Protected(_, of) => add_protected(list, depth, of),
    }
}

/// Adds the declarations of a part of a package.
pub(crate) fn add_declarations(
    list: &mut Vec<Declared>,
    depth: u32,
    declarations: &[Declaration],
) -> Result<(), NoMemory>
    ensures { OnOk result (list.new.items ≡ list.old.items ++ flat_map (declaration_declared depth) (map declaration_model declarations.now)) }
{
    for declaration in declarations {
        add_declaration(list, depth, declaration)?;
    }
    Ok(())
}
