// Pairs of bounds and selectors, with the types that they have by themselves (ARM 3.5, 3.6(18), 5.4(4), 5.5).
ghost use Rattle.std.specs.Prelude.{◌≡◌, IfOk, [], unwrap_or};
ghost use Rattle.std.specs.Option.{option_copied};
ghost use Rattle.al_overload.specs.Counts.{label_of};
ghost use Rattle.al_base_fault.specs.Judging.{both, map_ok};
ghost use Rattle.al_overload.specs.TermViews.{term_model};
ghost use Rattle.al_view_typed.specs.ExpressionViews.{typed_model};
ghost use Rattle.al_overload_nodes.specs.Nodes.{checked};
ghost use Rattle.al_overload_nodes.specs.Views.{pair_model as typed_pair_model};
ghost use Rattle.al_overload_nodes.specs.Ranges.{bound_at, bounds_checked, bounds_checked_as, found_of, found_type, pair_of, pair_read, selector_at, selector_checked, selector_read, static_bounds_checked};
ghost use Rattle.al_overload_nodes.specs.Static.{checked_as};
ghost use Rattle.al_overload.specs.Places.{first_place};
ghost use Rattle.al_overload_nodes.specs.RangesSeen.{found_model, pair_model};
ghost use Rattle.al_overload_nodes.specs.Seen.{told_model};

use crate::context::stands_at;
use crate::meaning::interpret;
use crate::pair::together;
use crate::reading::{read, read_operand};
use crate::staticness::{Staticness, checked_as, expected_after};
use crate::{
    DeterminedType, Labeller, among, checked, everywhere, pair_type, range_type, type_told,
    types_in,
};
use al_base::NoMemory;
use al_base_fault::{CheckResult, Fault, both};
use al_overload::{Context, Labelled, Term, first_place, interpret_bounds, operand_label};
use al_view::{Seq, Symbol, Types};
use al_view_typed::Typed;
use std::alloc::Global;

/// A type with the types among which it is: none if every unit has it.
pub struct FoundType {
    /// The type.
    pub of: Symbol,
    /// The types among which it is.
    pub types: Types,
}

impl Drop for FoundType {
    fn drop(self) {
        let FoundType { of: _, types: _ } = self;
    }
}

impl FoundType {
    /// The type, and the types among which it is. It takes no memory.
    pub fn into_parts(self) -> (Symbol, Types)
        ensures { result ≡ (self.of, self.types) }
    {
        let FoundType { of, types } = self;
        (of, types)
    }
}

/// Two bounds, with the type of their range.
pub struct Pair {
    /// The low bound.
    pub low: Typed,
    /// The high bound.
    pub high: Typed,
    /// The type of their range.
    pub range: FoundType,
}

impl Drop for Pair {
    fn drop(self) {
        let Pair {
            low: _,
            high: _,
            range: _,
        } = self;
    }
}

impl Pair {
    /// The low bound, the high one and the type of their range. It takes no memory.
    pub fn into_parts(self) -> (Typed, Typed, FoundType)
        ensures { result ≡ (self.low, self.high, self.range) }
    {
        let Pair { low, high, range } = self;
        (low, high, range)
    }

    /// The type of their range alone. It takes no memory.
    pub fn into_range(self) -> FoundType
        ensures { result ≡ self.range }
    {
        let Pair {
            low: _,
            high: _,
            range,
        } = self;
        range
    }
}

/// An expression, with the type that it has by itself.
pub struct DeterminedValue {
    /// The expression.
    pub value: Typed,
    /// Its type.
    pub found: FoundType,
}

impl Drop for DeterminedValue {
    fn drop(self) {
        let DeterminedValue { value: _, found: _ } = self;
    }
}

impl DeterminedValue {
    /// The expression without its type. It takes no memory.
    pub fn into_value(self) -> Typed
        ensures { result ≡ self.value }
    {
        let DeterminedValue { value, found: _ } = self;
        value
    }
}

fn no_types(alloc: Global) -> Result<Types, NoMemory>
    ensures { IfOk result (λ types. types ≡ []) }
{
    let types = Types::new(alloc, Seq::empty(alloc))?;
    Ok(types)
}

/// A copy of the types; no types if there are none.
fn shared(alloc: Global, types: Option<&Types>) -> Result<Types, NoMemory>
    ensures { IfOk result (λ copy. copy ≡ unwrap_or (option_copied types.entry) []) }
{
    match types {
        Some(types) => {
            let copy = types.share()?;
            Ok(copy)
        }
        None => no_types(alloc),
    }
}

fn found_type(alloc: Global, determined: &DeterminedType<'_>) -> Result<FoundType, NoMemory>
    ensures { IfOk result (λ found. found ≡ found_type (told_model determined.now)) }
{
    let (of, types) = together(determined.of.copy(alloc), shared(alloc, determined.types))?;
    Ok(FoundType { of, types })
}

fn pair_of(range: FoundType, bounds: CheckResult<(Typed, Typed)>) -> CheckResult<Pair>
    ensures { map_ok pair_model result ≡ map_ok (pair_of range) (map_ok typed_pair_model bounds) }
{
    match bounds {
        Ok((low, high)) => Ok(Pair { low, high, range }),
        Err(fault) => Err(fault),
    }
}

/// A bound with the type of the pair.
fn bound_at(
    labeller: &Labeller,
    expected: Staticness,
    types: &Types,
    low: &Term,
    position: usize,
    bound: &Term,
    label: &Labelled,
    determined: &DeterminedType<'_>,
) -> Result<CheckResult<Typed>, NoMemory>
    ensures { IfOk result (λ typed. map_ok typed_model typed ≡ checked_as expected (first_place (term_model bound.now)) (bound_at labeller.now.predefined labeller.now.own types.now (term_model low.now) position (term_model bound.now) (label_of label.now) (told_model determined.now))) }
{
    let (among, of) = (types_in(types, determined), determined.of);
    let own_label = operand_label(label, position);
    let reading = read_operand(labeller, bound, first_place(low), own_label, among, of)?;
    Ok(checked_as(expected, first_place(bound), reading))
}

fn read_pair(
    labeller: &Labeller,
    expected: Staticness,
    types: &Types,
    at: &Symbol,
    low: &Term,
    high: &Term,
    label: &Labelled,
) -> Result<CheckResult<Pair>, NoMemory>
    ensures { IfOk result (λ pair. map_ok pair_model pair ≡ pair_read labeller.now.predefined labeller.now.own expected types.now at.now (term_model low.now) (term_model high.now) (label_of label.now)) }
{
    let otherwise = among(types, at);
    let determined = pair_type(labeller, otherwise, low, high, label);
    let first = bound_at(labeller, expected, types, low, 0, low, label, &determined);
    let last = bound_at(labeller, expected, types, low, 1, high, label, &determined);
    let range = found_type(labeller.alloc, &range_type(labeller, determined));
    let (range, (first, last)) = together(range, together(first, last))?;
    Ok(pair_of(range, both(first, last)))
}

fn check_bounds_as(
    labeller: &Labeller,
    expected: Staticness,
    context: &Context,
    types: &Types,
    low: &Term,
    high: &Term,
) -> Result<CheckResult<Pair>, NoMemory>
    ensures { IfOk result (λ pair. map_ok pair_model pair ≡ bounds_checked_as labeller.now.predefined labeller.now.own expected context.now types.now (term_model low.now) (term_model high.now)) }
{
    match interpret_bounds(labeller.alloc, &labeller.predefined, context, low, high)? {
        Ok(label) => {
            let at = stands_at(&labeller.predefined, context);
            let pair = read_pair(labeller, expected, types, at, low, high, &label);
            drop(label);
            pair
        }
        Err(fault) => Ok(Err(fault)),
    }
}

/// A pair of bounds, with the type of their range. A type that the context wants is among `types` or one that every unit has.
/// # Errors
/// `NoMemory` if the allocator refuses memory. The inner error is E402 or E403 at the first token of the low bound if the two have no
/// interpretation, or several; else the first fault in them.
pub fn check_bounds(
    labeller: &Labeller,
    context: &Context,
    types: &Types,
    low: &Term,
    high: &Term,
) -> Result<CheckResult<Pair>, NoMemory>
    ensures { IfOk result (λ pair. map_ok pair_model pair ≡ bounds_checked labeller.now.predefined labeller.now.own context.now types.now (term_model low.now) (term_model high.now)) }
{
    check_bounds_as(labeller, Staticness::Any, context, types, low, high)
}

/// A pair of bounds that must be static, with the type of their range. `found` is the first fault in the prefixes of their attributes.
/// # Errors
/// `NoMemory` if the allocator refuses memory. The inner error is the first of that of `check_bounds` and E304 at the first token of each
/// bound that isn't static.
pub fn check_static_bounds(
    labeller: &Labeller,
    context: &Context,
    types: &Types,
    found: Option<Fault>,
    low: &Term,
    high: &Term,
) -> Result<CheckResult<Pair>, NoMemory>
    ensures { IfOk result (λ pair. map_ok pair_model pair ≡ static_bounds_checked labeller.now.predefined labeller.now.own context.now types.now found (term_model low.now) (term_model high.now)) }
{
    let expected = expected_after(first_place(low), found);
    check_bounds_as(labeller, expected, context, types, low, high)
}

fn found_of(found: FoundType, value: CheckResult<Typed>) -> CheckResult<DeterminedValue>
    ensures { map_ok found_model result ≡ map_ok (found_of found) (map_ok typed_model value) }
{
    match value {
        Ok(value) => Ok(DeterminedValue { value, found }),
        Err(fault) => Err(fault),
    }
}

fn selector_at(
    labeller: &Labeller,
    term: &Term,
    label: &Labelled,
    determined: &DeterminedType<'_>,
) -> Result<CheckResult<DeterminedValue>, NoMemory>
    ensures { IfOk result (λ found. map_ok found_model found ≡ selector_at labeller.now.predefined labeller.now.own (term_model term.now) (label_of label.now) (told_model determined.now)) }
{
    let found = found_type(labeller.alloc, determined)?;
    let reading = read(labeller, term, label, &found.types, determined.of);
    let (found, reading) = together(Ok(found), reading)?;
    Ok(found_of(found, checked(reading)))
}

fn read_selector(
    labeller: &Labeller,
    term: &Term,
    label: &Labelled,
) -> Result<CheckResult<DeterminedValue>, NoMemory>
    ensures { IfOk result (λ found. map_ok found_model found ≡ selector_read labeller.now.predefined labeller.now.own (term_model term.now) (label_of label.now)) }
{
    match type_told(labeller, term, label) {
        Some(determined) => selector_at(labeller, term, label, &determined),
        None => selector_at(
            labeller,
            term,
            label,
            &everywhere(&labeller.predefined.root),
        ),
    }
}

/// The selector of a case statement with its type, which is the root type if it is of numbers alone.
/// # Errors
/// `NoMemory` if the allocator refuses memory. The inner error is E402 or E403 at its first token if it has no interpretation, or several;
/// else the first fault in it.
pub fn check_selector(
    labeller: &Labeller,
    term: &Term,
) -> Result<CheckResult<DeterminedValue>, NoMemory>
    ensures { IfOk result (λ found. map_ok found_model found ≡ selector_checked labeller.now.predefined labeller.now.own (term_model term.now)) }
{
    match interpret(labeller, Context::Selector, term)? {
        Ok(label) => {
            let found = read_selector(labeller, term, &label);
            drop(label);
            found
        }
        Err(fault) => Ok(Err(fault)),
    }
}
