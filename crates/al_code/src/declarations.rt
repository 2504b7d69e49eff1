// The code of declarations (ARM 3.11).
ghost use Rattle.std.specs.Prelude.{◌≡◌, [], ◌∷◌, OnOk, map, option_map};
ghost use Rattle.std.specs.List.{flat_map, list_any};
ghost use Rattle.al_view.specs.ViewUses.{link};
ghost use Rattle.al_view.specs.declared.link.LinkKind.TheVariants.{Code, Data};
ghost use Rattle.al_instr.specs.declared.instruction.Instr.TheVariants.{Seed, Task};
ghost use Rattle.al_view_typed.specs.DeclarationTrees.{component_value_model, declaration_model, form_model};
ghost use Rattle.al_view_typed.specs.ExpressionViews.{value_model};
ghost use Rattle.al_code.specs.Pieces.Piece.{Using};
ghost use Rattle.al_code.specs.Written.{written};
ghost use Rattle.al_code.specs.Marks.{component_has_code, declaration_has_code, flag_has_code, is_some_of};
ghost use Rattle.al_code.specs.Declarations.{declaration_code, component_code, declaration_form_code, declarations_code, elaborated_code, object_code, seed_code, subprogram_code};

use crate::marks::emit_mark;
use crate::{Output, emit_checked, emit_flag_place, emit_number, emit_place, emit_sized};
use al_base::NoMemory;
use al_instr::{Instr, Sized};
use al_view::{LinkKind, ObjectPlace, Priority, Symbol};
use al_view_typed::{CheckedValue, ComponentValue, DeclarationForm, TypedDeclaration};

fn is_flag_in_frame(place: &ObjectPlace) -> bool
    ensures { result ≡ flag_has_code place.now }
{
    match place {
        ObjectPlace::Frame { .. } => true,
        ObjectPlace::Static { .. } => false,
    }
}

/// Whether components that are declared together have code for their first value.
fn has_components(component: &ComponentValue) -> bool
    ensures { result ≡ is_some_of component.now.places }
{
    !component.places.as_slice().is_empty()
}

/// Whether components of a protected object have code for their first values.
fn components_have_code(values: &[ComponentValue]) -> bool
    ensures { result ≡ list_any component_has_code (map component_value_model values.now) }
{
    for value in values {
        if has_components(value) {
            return true;
        }
    }
    false
}

/// Whether a declaration has code.
fn has_code(form: &DeclarationForm) -> bool
    ensures { result ≡ declaration_has_code (form_model form.now) }
{
    match form {
        DeclarationForm::Objects { places, .. } => !places.as_slice().is_empty(),
        DeclarationForm::Subprogram(flag) => is_flag_in_frame(flag),
        DeclarationForm::Elaborated(_) => true,
        DeclarationForm::Task { .. } => true,
        DeclarationForm::Protected { values, .. } => components_have_code(values),
    }
}

/// Whether some of these declarations have code.
pub(crate) fn declarations_have_code(declarations: &[TypedDeclaration]) -> bool
    ensures { result ≡ list_any (λ d. declaration_has_code d.form) (map declaration_model declarations.now) }
{
    for declaration in declarations {
        if has_code(&declaration.form) {
            return true;
        }
    }
    false
}

/// Writes a declaration, with its line if it has code.
#[tactic(auto, using(crate::proofs::Writing::written_append))]
fn emit_marked(out: &mut Output, depth: u32, declaration: &TypedDeclaration) -> Result<(), NoMemory>
    ensures { OnOk result (out.new ≡ written out.old (declaration_code depth (declaration_model declaration.now))) }
{
    emit_mark(out, has_code(&declaration.form), declaration.line)?;
    emit_declaration(out, depth, &declaration.form)
}

/// Writes declarations one after another, in a body of nesting depth `depth`.
pub(crate) fn emit_declarations(
    out: &mut Output,
    depth: u32,
    declarations: &[TypedDeclaration],
) -> Result<(), NoMemory>
    ensures { OnOk result (out.new ≡ written out.old (declarations_code depth (map declaration_model declarations.now))) }
{
    for declaration in declarations {
        emit_marked(out, depth, declaration)?;
    }
    Ok(())
}

fn emit_declaration(out: &mut Output, depth: u32, form: &DeclarationForm) -> Result<(), NoMemory>
    ensures { OnOk result (out.new ≡ written out.old (declaration_form_code depth (form_model form.now))) }
{
    match form {
        DeclarationForm::Objects {
            places,
            words,
            value,
        } => emit_objects(out, depth, places.as_slice(), *words, value),
        DeclarationForm::Subprogram(flag) => emit_subprogram(out, depth, flag),
        DeclarationForm::Elaborated(flag) => emit_elaborated(out, depth, flag),
        DeclarationForm::Task { symbol, priority } => emit_task(out, symbol, *priority),
        DeclarationForm::Protected { symbol, values } => {
            emit_components(out, depth, symbol, values)
        }
    }
}

/// Writes the first values of objects: their value, or zeros (ARM 3.3.1).
fn emit_objects(
    out: &mut Output,
    depth: u32,
    places: &[ObjectPlace],
    words: u32,
    value: &Option<CheckedValue>,
) -> Result<(), NoMemory>
    ensures { OnOk result (out.new ≡ written out.old (flat_map (object_code depth words (option_map value_model value.now)) places.now)) }
{
    for place in places {
        emit_object(out, depth, place, words, value)?;
    }
    Ok(())
}

#[tactic(auto, using(crate::proofs::Writing::written_append))]
fn emit_object(
    out: &mut Output,
    depth: u32,
    place: &ObjectPlace,
    words: u32,
    value: &Option<CheckedValue>,
) -> Result<(), NoMemory>
    ensures { OnOk result (out.new ≡ written out.old (object_code depth words (option_map value_model value.now) place.now)) }
{
    match value {
        Some(value) => {
            emit_checked(out, depth, value)?;
            emit_place(out, depth, place)?;
            emit_sized(out, Sized::Store, words)
        }
        None => {
            emit_place(out, depth, place)?;
            emit_sized(out, Sized::Zero, words)
        }
    }
}

/// Writes that a flag in a frame is false at first (ARM 3.11(10)).
#[tactic(auto, using(crate::proofs::Writing::written_append, crate::proofs::Writing::written_nothing), unfolding(crate::specs::Declarations::subprogram_code))]
fn emit_subprogram(out: &mut Output, depth: u32, flag: &ObjectPlace) -> Result<(), NoMemory>
    ensures { OnOk result (out.new ≡ written out.old (subprogram_code depth flag.now)) }
{
    match flag {
        ObjectPlace::Frame { .. } => {
            emit_flag_place(out, depth, flag)?;
            emit_sized(out, Sized::Zero, 1)
        }
        ObjectPlace::Static { .. } => Ok(()),
    }
}

/// Writes that a body is elaborated from here on.
#[tactic(auto, using(crate::proofs::Writing::written_append), unfolding(crate::specs::Declarations::elaborated_code))]
fn emit_elaborated(out: &mut Output, depth: u32, flag: &ObjectPlace) -> Result<(), NoMemory>
    ensures { OnOk result (out.new ≡ written out.old (elaborated_code depth flag.now)) }
{
    emit_number(out, 1)?;
    emit_flag_place(out, depth, flag)?;
    emit_sized(out, Sized::Store, 1)
}

/// Writes the creation of a task (ARM 9.1).
fn emit_task(out: &mut Output, symbol: &Symbol, priority: Priority) -> Result<(), NoMemory>
    ensures { OnOk result (out.new ≡ written out.old (Using (Task 0 priority) (link Code symbol.now) ∷ [])) }
{
    let priority = priority.level() as u32;
    let task = Instr::Task { place: 0, priority };
    out.emit_using(&task, LinkKind::Code, symbol)
}

/// Writes the first values of the components of a protected object (ARM 9.4).
fn emit_components(
    out: &mut Output,
    depth: u32,
    symbol: &Symbol,
    values: &[ComponentValue],
) -> Result<(), NoMemory>
    ensures { OnOk result (out.new ≡ written out.old (flat_map (component_code depth symbol.now) (map component_value_model values.now))) }
{
    for value in values {
        emit_component(out, depth, symbol, value)?;
    }
    Ok(())
}

/// Writes the first values of components that are declared together. Each of them evaluates the expression (ARM 3.3.1(7)).
fn emit_component(
    out: &mut Output,
    depth: u32,
    symbol: &Symbol,
    component: &ComponentValue,
) -> Result<(), NoMemory>
    ensures { OnOk result (out.new ≡ written out.old (component_code depth symbol.now (component_value_model component.now))) }
{
    emit_seeds(
        out,
        depth,
        symbol,
        component.words,
        &component.value,
        component.places.as_slice(),
    )
}

fn emit_seeds(
    out: &mut Output,
    depth: u32,
    symbol: &Symbol,
    words: u32,
    value: &CheckedValue,
    places: &[u32],
) -> Result<(), NoMemory>
    ensures { OnOk result (out.new ≡ written out.old (flat_map (seed_code depth symbol.now words (value_model value.now)) places.now)) }
{
    for word in places {
        emit_seeded(out, depth, symbol, words, value, *word)?;
    }
    Ok(())
}

#[tactic(auto, using(crate::proofs::Writing::written_append))]
fn emit_seeded(
    out: &mut Output,
    depth: u32,
    symbol: &Symbol,
    words: u32,
    value: &CheckedValue,
    word: u32,
) -> Result<(), NoMemory>
    ensures { OnOk result (out.new ≡ written out.old (seed_code depth symbol.now words (value_model value.now) word)) }
{
    emit_checked(out, depth, value)?;
    emit_seed(out, symbol, word, words)
}

/// Writes that the words on top become the first value of a component, from this word of the object on.
fn emit_seed(out: &mut Output, symbol: &Symbol, word: u32, words: u32) -> Result<(), NoMemory>
    ensures { OnOk result (out.new ≡ written out.old (Using (Seed word words) (link Data symbol.now) ∷ [])) }
{
    let seed = Instr::Seed { place: word, words };
    out.emit_using(&seed, LinkKind::Data, symbol)
}
