// The object of a labelled unit.
ghost use Rattle.std.specs.Prelude.{◌≡◌, ◌≤◌, [], ◌++◌, IfOk, OnOk, length, map, option_map};
ghost use Rattle.std.specs.List.{flat_map};
ghost use Rattle.std.specs.Option.{option_map_or};
ghost use Rattle.al_view.specs.ViewUses.{link};
ghost use Rattle.al_view_typed.specs.DeclarationTrees.{declaration_model, form_model};
ghost use Rattle.al_view_typed.specs.UnitTrees.{body_model, elaboration_model, unit_model};
ghost use Rattle.al_view_typed.specs.WellFormed.{IsWellFormed};
ghost use Rattle.al_instr.specs.Lines.{line_table};
ghost use Rattle.al_code.specs.Written.{written};
ghost use Rattle.al_code.specs.ObjectOf.{data_addresses, is_task, object_of, place_address, protected_addresses, region_of, tasks_in, tasks_of};
ghost use Rattle.al_code.specs.Routines.{body_code, elaboration_code, unit_code};

use crate::bodies::{emit_body, emit_elaboration};
use crate::images::word_of;
use crate::{Output, Written};
use al_base::NoMemory;
use al_code_object::{Address, Compiled, Object, Region};
use al_instr::{LineEntry, line_table};
use al_view::{LinkKind, LinkSymbol, Symbol};
use al_view_typed::{
    DataPlace, DeclarationForm, Elaboration, ProtectedWords, TypedBody, TypedDeclaration, TypedUnit,
};
use std::alloc::Global;

/// The object of a labelled unit without errors: its code, the symbols that are used and defined in it, its words, its tasks, its protected objects
/// and its lines. `Object::Large` if the code is longer than that of any image.
///
/// # Errors
/// `NoMemory` if the allocator refuses memory.
pub fn emit(alloc: Global, unit: &TypedUnit) -> Result<Object, NoMemory>
    requires { IsWellFormed (unit_model unit.now) }
    ensures { IfOk result (λ object. object ≡ object_of (unit_model unit.now)) }
{
    let mut out = Output::new(alloc);
    emit_unit(&mut out, unit)?;
    let Some(written) = out.finish() else {
        return Ok(Object::Large);
    };
    let lines = lines_of(alloc, &written)?;
    let mut defines = written.defines;
    add_data(alloc, &mut defines, unit)?;
    let regions = regions_of(alloc, unit.protected_objects.as_slice())?;
    let tasks = word_of(task_count(&unit.elaboration));
    Ok(Object::Compiled(Compiled::new(
        written.code,
        written.uses,
        defines,
        unit.words,
        tasks,
        regions,
        lines,
    )))
}

/// The table of lines of code that was written.
fn lines_of(alloc: Global, written: &Written) -> Result<Vec<LineEntry>, NoMemory>
    ensures { IfOk result (λ lines. lines.items ≡ line_table (length written.now.code.items) written.now.lines.items) }
{
    line_table(alloc, written.lines.as_slice(), written.code.len())
}

/// Writes the elaboration of a unit, and its bodies.
#[tactic(auto, using(crate::proofs::Writing::written_append), unfolding(al_view_typed::specs::UnitTrees::unit_model, crate::specs::Routines::unit_code))]
fn emit_unit(out: &mut Output, unit: &TypedUnit) -> Result<(), NoMemory>
    ensures { OnOk result (out.new ≡ written out.old (unit_code (unit_model unit.now))) }
{
    emit_first(out, &unit.elaboration)?;
    emit_bodies(out, &unit.bodies)
}

#[tactic(auto, using(crate::proofs::Writing::written_nothing))]
fn emit_first(out: &mut Output, elaboration: &Option<Elaboration>) -> Result<(), NoMemory>
    ensures { OnOk result (out.new ≡ written out.old (option_map_or elaboration_code (option_map elaboration_model elaboration.now) [])) }
{
    match elaboration {
        None => Ok(()),
        Some(elaboration) => emit_elaboration(out, elaboration),
    }
}

fn emit_bodies(out: &mut Output, bodies: &[TypedBody]) -> Result<(), NoMemory>
    ensures { OnOk result (out.new ≡ written out.old (flat_map body_code (map body_model bodies.now))) }
{
    for body in bodies {
        emit_body(out, body)?;
    }
    Ok(())
}

/// The address of a symbol.
fn address(alloc: Global, kind: LinkKind, symbol: &Symbol, offset: u32) -> Result<Address, NoMemory>
    ensures { IfOk result (λ address. address ≡ record { symbol = link kind symbol.now; offset = offset }) }
{
    let symbol = symbol.copy(alloc)?;
    let symbol = LinkSymbol { symbol, kind };
    Ok(Address { symbol, offset })
}

/// Adds the addresses of the symbols among the unit's words.
#[tactic(auto, unfolding(al_view_typed::specs::UnitTrees::unit_model))]
fn add_data(alloc: Global, defines: &mut Vec<Address>, unit: &TypedUnit) -> Result<(), NoMemory>
    ensures { OnOk result (defines.new.items ≡ defines.old.items ++ data_addresses (unit_model unit.now)) }
{
    add_places(alloc, defines, LinkKind::Data, unit.objects.as_slice())?;
    add_places(alloc, defines, LinkKind::Flag, unit.flags.as_slice())?;
    add_protected(alloc, defines, unit.protected_objects.as_slice())
}

/// Adds the addresses of objects, or of flags.
fn add_places(
    alloc: Global,
    defines: &mut Vec<Address>,
    kind: LinkKind,
    places: &[DataPlace],
) -> Result<(), NoMemory>
    ensures { OnOk result (defines.new.items ≡ defines.old.items ++ map (place_address kind) places.now) }
{
    for place in places {
        defines.push(address(alloc, kind, &place.symbol, place.word)?)?;
    }
    Ok(())
}

/// Adds the addresses of protected objects, of their words and of their numbers.
fn add_protected(
    alloc: Global,
    defines: &mut Vec<Address>,
    objects: &[ProtectedWords],
) -> Result<(), NoMemory>
    ensures { OnOk result (defines.new.items ≡ defines.old.items ++ protected_addresses 0 objects.now) }
{
    let mut number = 0;
    for object in objects {
        defines.push(address(alloc, LinkKind::Data, &object.symbol, object.word)?)?;
        let place = word_of(number);
        defines.push(address(alloc, LinkKind::Protected, &object.symbol, place)?)?;
        number += 1;
    }
    Ok(())
}

/// The words of the unit's protected objects.
fn regions_of(alloc: Global, objects: &[ProtectedWords]) -> Result<Vec<Region>, NoMemory>
    ensures { IfOk result (λ regions. regions.items ≡ map region_of objects.now) }
{
    let mut regions = Vec::new(alloc);
    for object in objects {
        regions.push(Region {
            word: object.word,
            words: object.words,
            ceiling: object.ceiling,
        })?;
    }
    Ok(regions)
}

/// The number of tasks that an elaboration creates.
#[tactic(auto, unfolding(al_view_typed::specs::UnitTrees::elaboration_model))]
fn task_count(elaboration: &Option<Elaboration>) -> usize
    ensures { result ≡ tasks_of (option_map elaboration_model elaboration.now) }
{
    match elaboration {
        None => 0,
        Some(elaboration) => tasks_in(&elaboration.declarations),
    }
}

fn tasks_in(declarations: &[TypedDeclaration]) -> usize
    ensures { result ≡ tasks_in (map declaration_model declarations.now) }
{
    let mut count = 0;
    for declaration in declarations {
        count += of_task(&declaration.form);
    }
    count
}

fn of_task(form: &DeclarationForm) -> usize
    ensures value { result ≡ is_task (form_model form.now) }
    ensures few { result ≤ 1 }
{
    match form {
        DeclarationForm::Task { .. } => 1,
        _ => 0,
    }
}
