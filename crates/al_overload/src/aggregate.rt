// The aggregates of a type (ARM 4.3.1, 4.3.3).
ghost use Rattle.std.specs.Prelude.{◌≡◌, map, replicate, IfOk};
ghost use Rattle.std.specs.Option.{option_and_then};
ghost use Rattle.al_overload.specs.Aggregates.{bounds_of, component_wanted, has_components, has_count, operation, others, others_in, positional, positional_in, value_given, value_wanted};

use crate::heads_candidate::{of_one, operation, value_given, value_wanted};
use crate::part::{Nominal, definition_of};
use crate::{Candidate, Expected};
use al_base::NoMemory;
use al_view::{Bounds, Component, Seq, Subtype, TypeDefinition, Types};
use al_view_predefined::StandardTypes;
use std::alloc::Global;

/// The values of an index.
fn bounds_of(standard: &StandardTypes, types: &Types, index: &Subtype) -> Option<Bounds>
    ensures { result ≡ bounds_of types.now index.now }
{
    match index.bounds {
        Some(bounds) => Some(bounds),
        None => match definition_of(standard, types, index) {
            Some(definition) => definition.bounds(),
            None => None,
        },
    }
}

fn has_count(count: usize, bounds: Bounds) -> bool
    ensures { result ≡ has_count count bounds }
{
    bounds.low <= bounds.high && bounds.high.abs_diff(bounds.low) == count.saturating_sub(1) as u64
}

/// Whether an array with this index has so many components.
fn has_components(standard: &StandardTypes, types: &Types, count: usize, index: &Subtype) -> bool
    ensures { result ≡ has_components types.now count index.now }
{
    match bounds_of(standard, types, index) {
        Some(bounds) => has_count(count, bounds),
        None => false,
    }
}

/// What an array's aggregate of this many values wants of them.
#[tactic(auto, using(std::proofs::lemmas::List::replicate_more))]
fn wanted_alike(
    alloc: Global,
    standard: &StandardTypes,
    types: &Types,
    count: usize,
    component: &Subtype,
) -> Result<Seq<Expected>, NoMemory>
    ensures { IfOk result (λ expected. expected ≡ replicate count (value_wanted types.now component.now)) }
{
    let mut expected = Seq::empty(alloc);
    for _done in 0..count {
        expected.push(value_wanted(alloc, standard, types, component)?)?;
    }
    Ok(expected)
}

/// What a record's aggregate wants of its values.
fn wanted_each(
    alloc: Global,
    standard: &StandardTypes,
    types: &Types,
    components: &[Component],
) -> Result<Seq<Expected>, NoMemory>
    ensures { IfOk result (λ expected. expected ≡ map (component_wanted types.now) components.now) }
{
    let mut expected = Seq::empty(alloc);
    for component in components {
        expected.push(value_wanted(alloc, standard, types, &component.subtype)?)?;
    }
    Ok(expected)
}

fn positional_in(
    alloc: Global,
    standard: &StandardTypes,
    of: &Nominal,
    count: usize,
    definition: &TypeDefinition,
) -> Result<Option<Candidate>, NoMemory>
    ensures { IfOk result (λ found. found ≡ positional_in of.now count definition.now) }
{
    let types = &of.types;
    match definition {
        TypeDefinition::Array { index, component } => {
            if !has_components(standard, types, count, index) {
                return Ok(None);
            }
            let operands = wanted_alike(alloc, standard, types, count, component)?;
            let given = value_given(alloc, standard, types, &of.subtype)?;
            Ok(Some(operation(operands, given)))
        }
        TypeDefinition::Record(components) => {
            let operands = wanted_each(alloc, standard, types, components.as_slice())?;
            let given = value_given(alloc, standard, types, &of.subtype)?;
            Ok(Some(operation(operands, given)))
        }
        TypeDefinition::Integer(_) => Ok(None),
        TypeDefinition::Enumeration { .. } => Ok(None),
        TypeDefinition::Time => Ok(None),
        TypeDefinition::Private => Ok(None),
    }
}

fn others_in(
    alloc: Global,
    standard: &StandardTypes,
    of: &Nominal,
    definition: &TypeDefinition,
) -> Result<Option<Candidate>, NoMemory>
    ensures { IfOk result (λ found. found ≡ others_in of.now definition.now) }
{
    match definition {
        TypeDefinition::Array {
            index: _,
            component,
        } => {
            let expected = value_wanted(alloc, standard, &of.types, component)?;
            let given = value_given(alloc, standard, &of.types, &of.subtype)?;
            let candidate = of_one(alloc, expected, given)?;
            Ok(Some(candidate))
        }
        TypeDefinition::Record(_) => Ok(None),
        TypeDefinition::Integer(_) => Ok(None),
        TypeDefinition::Enumeration { .. } => Ok(None),
        TypeDefinition::Time => Ok(None),
        TypeDefinition::Private => Ok(None),
    }
}

/// The candidate for an aggregate of this many values, if an aggregate is allowed.
pub(crate) fn positional(
    alloc: Global,
    standard: &StandardTypes,
    count: usize,
    allowed: &Option<Nominal>,
) -> Result<Option<Candidate>, NoMemory>
    ensures { IfOk result (λ found. found ≡ option_and_then (positional count) allowed.now) }
{
    match allowed {
        Some(of) => match definition_of(standard, &of.types, &of.subtype) {
            Some(definition) => positional_in(alloc, standard, of, count, definition),
            None => Ok(None),
        },
        None => Ok(None),
    }
}

/// The candidate for an aggregate with `others`, if an aggregate is allowed.
pub(crate) fn others(
    alloc: Global,
    standard: &StandardTypes,
    allowed: &Option<Nominal>,
) -> Result<Option<Candidate>, NoMemory>
    ensures { IfOk result (λ found. found ≡ option_and_then others allowed.now) }
{
    match allowed {
        Some(of) => match definition_of(standard, &of.types, &of.subtype) {
            Some(definition) => others_in(alloc, standard, of, definition),
            None => Ok(None),
        },
        None => Ok(None),
    }
}
