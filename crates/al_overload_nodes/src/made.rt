// Terms whose operands were read, and terms that have none. Each is a function of its own, so that what recurses needs little of the stack.
ghost use Rattle.std.specs.Prelude.{◌≡◌, IfOk, Ok, option_map};
ghost use Rattle.al_overload.specs.Parts.{nominal};
ghost use Rattle.al_overload_nodes.specs.Names.{element_node, selected_node};
ghost use Rattle.al_overload_nodes.specs.Nodes.{literal, membership_node, misfit};
ghost use Rattle.al_overload_nodes.specs.Operators.{binary_node, short_circuit_node, signature};
ghost use Rattle.al_overload_nodes.specs.Views.{reading_model};
ghost use Rattle.al_overload.specs.PickedTypes.{indexing_of};
ghost use Rattle.al_overload_nodes.specs.Leaves.{bound_node, length_node};

use crate::{Labeller, Reading, Signature, bound_reading, length_reading, misfit};
use al_base::{NoMemory, Place};
use al_overload::Indexing;
use al_view::{Bounds, StaticValue, Subtype, SubtypeView, Symbol, Types};
use al_view_typed::{BinaryOperator, ShortCircuit};
use std::alloc::Global;

/// A term that its labelling doesn't fit.
#[inline(never)]
pub(crate) fn unfit(place: Place) -> Result<Reading, NoMemory>
    ensures { IfOk result (λ r. reading_model r ≡ misfit place) }
{
    Ok(misfit(place))
}

/// What was read, on the heap.
#[inline(never)]
pub(crate) fn kept(
    alloc: Global,
    reading: Result<Reading, NoMemory>,
) -> Result<Box<Reading>, NoMemory>
    ensures { IfOk result (λ r. reading ≡ Ok r.value) }
{
    let reading = Box::new(alloc, reading?)?;
    Ok(reading)
}

#[cold]
#[inline(never)]
pub(crate) fn kept_unfit(alloc: Global, place: Place) -> Result<Box<Reading>, NoMemory>
    ensures { IfOk result (λ r. reading_model r.value ≡ misfit place) }
{
    kept(alloc, unfit(place))
}

#[inline(never)]
pub(crate) fn read_number(
    labeller: &Labeller,
    place: Place,
    types: &Types,
    at: &Symbol,
    value: StaticValue,
) -> Result<Reading, NoMemory>
    ensures { IfOk result (λ r. reading_model r ≡ literal labeller.now.predefined.root place types.now at.now value) }
{
    labeller.literal(place, types, at, value)
}

#[inline(never)]
pub(crate) fn read_bound(
    labeller: &Labeller,
    place: Place,
    subtype: &SubtypeView,
    is_last: bool,
) -> Result<Reading, NoMemory>
    ensures { IfOk result (λ r. reading_model r ≡ bound_node labeller.now.predefined.root place subtype.now is_last) }
{
    bound_reading(labeller, place, subtype, is_last)
}

#[inline(never)]
pub(crate) fn read_length(
    labeller: &Labeller,
    place: Place,
    types: &Types,
    at: &Symbol,
    bounds: Bounds,
) -> Result<Reading, NoMemory>
    ensures { IfOk result (λ r. reading_model r ≡ length_node labeller.now.predefined.root place types.now at.now bounds) }
{
    length_reading(labeller, place, types, at, bounds)
}

/// `first operator second`.
#[inline(never)]
fn binary_of(
    labeller: &Labeller,
    place: Place,
    operator: BinaryOperator,
    of: &Signature<'_>,
    first: Box<Reading>,
    second: Box<Reading>,
) -> Result<Reading, NoMemory>
    ensures { IfOk result (λ r. reading_model r ≡ binary_node labeller.now.predefined.root place operator (signature of.now.left.now of.now.right.now of.now.result_type.now of.now.types.now) (reading_model first.value) (reading_model second.value)) }
{
    let (first, second) = (Box::into_inner(first), Box::into_inner(second));
    labeller.binary(place, operator, of, first, second)
}

/// `first operator second`, on the heap.
#[inline(never)]
pub(crate) fn kept_binary(
    labeller: &Labeller,
    place: Place,
    operator: BinaryOperator,
    of: &Signature<'_>,
    first: Box<Reading>,
    second: Box<Reading>,
) -> Result<Box<Reading>, NoMemory>
    ensures { IfOk result (λ r. reading_model r.value ≡ binary_node labeller.now.predefined.root place operator (signature of.now.left.now of.now.right.now of.now.result_type.now of.now.types.now) (reading_model first.value) (reading_model second.value)) }
{
    let reading = binary_of(labeller, place, operator, of, first, second);
    kept(labeller.alloc, reading)
}

/// `first and then second` or `first or else second`.
#[inline(never)]
fn short_circuit_of(
    labeller: &Labeller,
    place: Place,
    types: &Types,
    form: ShortCircuit,
    first: Box<Reading>,
    second: Box<Reading>,
) -> Result<Reading, NoMemory>
    ensures { IfOk result (λ r. reading_model r ≡ short_circuit_node labeller.now.predefined.root place types.now labeller.now.predefined.types.boolean.symbol form (reading_model first.value) (reading_model second.value)) }
{
    let (first, second) = (Box::into_inner(first), Box::into_inner(second));
    labeller.short_circuit(place, types, form, first, second)
}

/// `first and then second` or `first or else second`, on the heap.
#[inline(never)]
pub(crate) fn kept_short_circuit(
    labeller: &Labeller,
    place: Place,
    types: &Types,
    form: ShortCircuit,
    first: Box<Reading>,
    second: Box<Reading>,
) -> Result<Box<Reading>, NoMemory>
    ensures { IfOk result (λ r. reading_model r.value ≡ short_circuit_node labeller.now.predefined.root place types.now labeller.now.predefined.types.boolean.symbol form (reading_model first.value) (reading_model second.value)) }
{
    let reading = short_circuit_of(labeller, place, types, form, first, second);
    kept(labeller.alloc, reading)
}

/// `whole.name`.
#[inline(never)]
fn selected_of(
    labeller: &Labeller,
    place: Place,
    name: &[u8],
    part: Option<(&Subtype, &Types)>,
    whole: Box<Reading>,
) -> Result<Reading, NoMemory>
    ensures { IfOk result (λ r. reading_model r ≡ selected_node labeller.now.predefined.root place name.now (option_map (λ p. nominal p.1.now p.0.now) part.entry) (reading_model whole.value)) }
{
    let whole = Box::into_inner(whole);
    labeller.selected(place, name, part, whole)
}

/// `whole.name`, on the heap.
#[inline(never)]
pub(crate) fn kept_selected(
    labeller: &Labeller,
    place: Place,
    name: &[u8],
    part: Option<(&Subtype, &Types)>,
    whole: Box<Reading>,
) -> Result<Box<Reading>, NoMemory>
    ensures { IfOk result (λ r. reading_model r.value ≡ selected_node labeller.now.predefined.root place name.now (option_map (λ p. nominal p.1.now p.0.now) part.entry) (reading_model whole.value)) }
{
    let reading = selected_of(labeller, place, name, part, whole);
    kept(labeller.alloc, reading)
}

/// `whole (index)`.
#[inline(never)]
fn element_of(
    labeller: &Labeller,
    place: Place,
    types: &Types,
    by: &Indexing<'_>,
    whole: Box<Reading>,
    index: Box<Reading>,
) -> Result<Reading, NoMemory>
    ensures { IfOk result (λ r. reading_model r ≡ element_node labeller.now.predefined.root place types.now (indexing_of by.now.index.now by.now.bounds by.now.component.now) (reading_model whole.value) (reading_model index.value)) }
{
    let (whole, index) = (Box::into_inner(whole), Box::into_inner(index));
    labeller.element(place, types, by, whole, index)
}

/// `whole (index)`, on the heap.
#[inline(never)]
pub(crate) fn kept_element(
    labeller: &Labeller,
    place: Place,
    types: &Types,
    by: &Indexing<'_>,
    whole: Box<Reading>,
    index: Box<Reading>,
) -> Result<Box<Reading>, NoMemory>
    ensures { IfOk result (λ r. reading_model r.value ≡ element_node labeller.now.predefined.root place types.now (indexing_of by.now.index.now by.now.bounds by.now.component.now) (reading_model whole.value) (reading_model index.value)) }
{
    let reading = element_of(labeller, place, types, by, whole, index);
    kept(labeller.alloc, reading)
}

/// `value [not] in low .. high`.
#[inline(never)]
pub(crate) fn membership_of(
    labeller: &Labeller,
    place: Place,
    types: &Types,
    is_negated: bool,
    value: Box<Reading>,
    low: Box<Reading>,
    high: Box<Reading>,
) -> Result<Reading, NoMemory>
    ensures { IfOk result (λ r. reading_model r ≡ membership_node labeller.now.predefined.root place types.now labeller.now.predefined.types.boolean.symbol is_negated (reading_model value.value) (reading_model low.value) (reading_model high.value)) }
{
    let value = Box::into_inner(value);
    let (low, high) = (Box::into_inner(low), Box::into_inner(high));
    labeller.membership(place, types, is_negated, value, low, high)
}
