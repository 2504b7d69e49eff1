// What a declaration may be if its name is used in an expression (ARM 8.6).
ghost use Rattle.std.specs.Prelude.{◌≡◌, [], map, IfOk, OnOk};
ghost use Rattle.al_overload.specs.Counts.{plain};
ghost use Rattle.al_overload.specs.Candidates.{called, candidates_of, component_in, given_by, giving, indexed, is_no_value, is_root, object_candidates, string, wanted_of};
ghost use Rattle.al_view.specs.Symbols.{same_symbol};
ghost use Rattle.al_overload.specs.Labelling.{with_candidate};
ghost use Rattle.al_overload.specs.declared.types.Given.TheVariants as g;
ghost use Rattle.al_overload.specs.Candidates.{with_candidates};
ghost use Rattle.al_overload.specs.Types.{value_type};

use crate::class::value_type;
use crate::{Candidate, Expected, Expression, Given};
use al_base::{NoMemory, UnitKind};
use al_view::{
    CallKind, ObjectView, Parameter, Seq, SubprogramView, Subtype, Symbol, TypeDefinition, Types,
    View, ViewKind,
};
use al_view_predefined::StandardTypes;
use std::alloc::Global;

/// A candidate without operands that gives this.
pub(crate) fn giving(alloc: Global, given: Given) -> Candidate
    ensures { result ≡ giving given }
{
    Candidate {
        operands: Seq::empty(alloc),
        given,
        is_root: false,
    }
}

/// Whether this is the type of what is put out, which no declaration names.
fn is_string(symbol: &Symbol) -> bool
    ensures { result ≡ same_symbol string symbol.now }
{
    matches!(symbol.unit.kind, UnitKind::Decl)
        && b"standard".as_slice() == symbol.unit.name.as_slice()
        && b"string".as_slice() == symbol.name.as_slice()
        && 0 == symbol.number
}

/// What a formal parameter wants of the actual one.
fn wanted_of(
    alloc: Global,
    standard: &StandardTypes,
    types: &Types,
    parameter: &Parameter,
) -> Result<Expected, NoMemory>
    ensures { IfOk result (λ expected. expected ≡ wanted_of types.now parameter.now) }
{
    if is_string(&parameter.subtype.base) {
        return Ok(Expected::Text);
    }
    let of = value_type(alloc, standard, types, &parameter.subtype.base)?;
    Ok(Expected::Value(of))
}

/// What the formal parameters want of the actual ones, in their order.
fn wanted_all(
    alloc: Global,
    standard: &StandardTypes,
    types: &Types,
    parameters: &[Parameter],
) -> Result<Seq<Expected>, NoMemory>
    ensures { IfOk result (λ expected. expected ≡ map (wanted_of types.now) parameters.now) }
{
    let mut expected = Seq::empty(alloc);
    for parameter in parameters {
        expected.push(wanted_of(alloc, standard, types, parameter)?)?;
    }
    Ok(expected)
}

/// What a subprogram gives: a value of the result's type; for a procedure or an entry nothing.
fn given_by(
    alloc: Global,
    standard: &StandardTypes,
    types: &Types,
    result_of: &Option<Subtype>,
) -> Result<Given, NoMemory>
    ensures { IfOk result (λ given. given ≡ given_by types.now result_of.now) }
{
    match result_of {
        Some(subtype) => {
            let of = value_type(alloc, standard, types, &subtype.base)?;
            Ok(Given::Value(of))
        }
        None => Ok(Given::Nothing),
    }
}

/// Whether it is an operator of the root type.
fn is_root(root: &Symbol, call: &CallKind) -> bool
    ensures { result ≡ is_root root.now call.now }
{
    match call {
        CallKind::Operator { of_type } => of_type.is(root),
        CallKind::Subprogram { .. } => false,
        CallKind::Predefined => false,
        CallKind::Protected => false,
        CallKind::Entry => false,
    }
}

fn called(
    alloc: Global,
    standard: &StandardTypes,
    root: &Symbol,
    subprogram: &SubprogramView,
) -> Result<Candidate, NoMemory>
    ensures { IfOk result (λ candidate. candidate ≡ called root.now subprogram.now) }
{
    let types = &subprogram.types;
    let parameters = subprogram.profile.parameters.as_slice();
    let operands = wanted_all(alloc, standard, types, parameters)?;
    let given = given_by(alloc, standard, types, &subprogram.profile.result)?;
    Ok(Candidate {
        operands,
        given,
        is_root: is_root(root, &subprogram.call),
    })
}

/// Adds the candidate for a value of a type, without operands.
fn add_value(
    alloc: Global,
    standard: &StandardTypes,
    head: &mut Expression,
    types: &Types,
    symbol: &Symbol,
) -> Result<(), NoMemory>
    ensures { OnOk result (plain head.new ≡ with_candidate (plain head.old) (giving (g.Value (value_type types.now symbol.now)))) }
{
    let of = value_type(alloc, standard, types, symbol)?;
    head.add(giving(alloc, Given::Value(of)))
}

/// Adds the candidate for a component of an array, by its index (ARM 4.1.1).
fn add_component(
    alloc: Global,
    standard: &StandardTypes,
    head: &mut Expression,
    types: &Types,
    index: &Subtype,
    component: &Subtype,
) -> Result<(), NoMemory>
    ensures { OnOk result (plain head.new ≡ with_candidate (plain head.old) (indexed types.now index.now component.now)) }
{
    let of_index = value_type(alloc, standard, types, &index.base)?;
    let of = value_type(alloc, standard, types, &component.base)?;
    let mut operands = Seq::empty(alloc);
    operands.push(Expected::Value(of_index))?;
    head.add(Candidate {
        operands,
        given: Given::Value(of),
        is_root: false,
    })
}

fn add_components(
    alloc: Global,
    standard: &StandardTypes,
    head: &mut Expression,
    types: &Types,
    definition: &TypeDefinition,
) -> Result<(), NoMemory>
    ensures { OnOk result (plain head.new ≡ with_candidates (plain head.old) (component_in types.now definition.now)) }
{
    match definition {
        TypeDefinition::Array { index, component } => {
            add_component(alloc, standard, head, types, index, component)
        }
        TypeDefinition::Integer(_) => Ok(()),
        TypeDefinition::Enumeration { .. } => Ok(()),
        TypeDefinition::Record(_) => Ok(()),
        TypeDefinition::Time => Ok(()),
        TypeDefinition::Private => Ok(()),
    }
}

fn add_object(
    alloc: Global,
    standard: &StandardTypes,
    head: &mut Expression,
    object: &ObjectView,
) -> Result<(), NoMemory>
    ensures { OnOk result (plain head.new ≡ with_candidates (plain head.old) (object_candidates object.now)) }
{
    let (types, base) = (&object.types, &object.subtype.base);
    add_value(alloc, standard, head, types, base)?;
    match standard.type_of(types, base) {
        Some(of) => add_components(alloc, standard, head, types, &of.definition),
        None => Ok(()),
    }
}

/// Adds all that a declaration may be.
pub(crate) fn add_candidates(
    alloc: Global,
    standard: &StandardTypes,
    root: &Symbol,
    head: &mut Expression,
    view: &View,
) -> Result<(), NoMemory>
    ensures { OnOk result (plain head.new ≡ with_candidates (plain head.old) (candidates_of root.now view.now)) }
{
    match view.kind() {
        ViewKind::OfObject(object) => add_object(alloc, standard, head, object),
        ViewKind::OfNumber(_) => head.add(giving(alloc, Given::Universal)),
        ViewKind::OfLiteral(literal) => {
            add_value(alloc, standard, head, &literal.types, &literal.base)
        }
        ViewKind::OfSubprogram(subprogram) => {
            let candidate = called(alloc, standard, root, subprogram)?;
            head.add(candidate)
        }
        ViewKind::OfComponent => Ok(()),
        ViewKind::OfType(_) => Ok(()),
        ViewKind::OfSubtype(_) => Ok(()),
        ViewKind::OfTask(_) => Ok(()),
        ViewKind::OfProtected(_) => Ok(()),
        ViewKind::OfPackage(_) => Ok(()),
    }
}

/// Whether the declaration is no value and no call.
pub(crate) fn is_no_value(view: &View) -> bool
    ensures { result ≡ is_no_value view.now }
{
    match view.kind() {
        ViewKind::OfObject(_) => false,
        ViewKind::OfNumber(_) => false,
        ViewKind::OfLiteral(_) => false,
        ViewKind::OfSubprogram(_) => false,
        ViewKind::OfComponent => false,
        ViewKind::OfType(_) => true,
        ViewKind::OfSubtype(_) => true,
        ViewKind::OfTask(_) => true,
        ViewKind::OfProtected(_) => true,
        ViewKind::OfPackage(_) => true,
    }
}
