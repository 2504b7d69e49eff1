// Steps that join parts, each of which has been checked by itself. A fault of a part is passed on.
ghost use Rattle.std.specs.Prelude.{◌≡◌, IfOk, map};
ghost use Rattle.al_base_fault.specs.Judging.{both, next, map_ok};
ghost use Rattle.al_overload_lookup.specs.Keys.{denoted};
ghost use Rattle.al_overload.specs.TermViews.{term_model};
ghost use Rattle.al_overload_readings.specs.Attributes.{attribute_named};
ghost use Rattle.al_overload_readings.specs.Readings.{ReadTree as reads, callable, marking, ranging, selected, valued};
ghost use Rattle.al_overload_readings.specs.ReadingViews.{reading_model};
ghost use Rattle.al_overload_readings.specs.TermLists.{all_model, pair_model};
ghost use Rattle.al_overload_readings.specs.Steps.{added, aggregated, applied_read, applied_to_read, grouped, joined_read, member_read, prefixed_read, qualified_read, range_member_read, repeated, started, with_attribute, with_range};
ghost use Rattle.al_tree.specs.ExpressionViews.{operator_model, prefix_model};
ghost use Rattle.al_tree.specs.Lexemes.{identifier_label};

use crate::attribute::attribute_named;
use crate::pair::{boxed, boxed_pair, together};
use crate::reading::{
    Reading, applied, applied_to, callable, marking, one_argument, ranging, selected, valued,
    with_attribute, with_range,
};
use crate::sign::{joined, prefixed};
use al_base::{NoMemory, Place};
use al_base_fault::{CheckResult, both};
use al_overload::Term;
use al_overload_lookup::Names;
use al_tree::{Identifier, InfixOperator, PrefixOperator};
use al_view::SubtypeView;
use al_view_predefined::StandardTypes;
use std::alloc::Global;

/// The term of what must be a value or a call.
/// # Errors
/// The fault of `checked`, or that of `valued`.
pub fn as_value(checked: CheckResult<Reading>) -> CheckResult<Term>
    ensures { map_ok term_model result ≡ next (map_ok reading_model checked) valued }
{
    match checked {
        Ok(reading) => valued(reading),
        Err(fault) => Err(fault),
    }
}

/// The reading of a value or a call.
/// # Errors
/// The fault of `checked`.
pub fn of_value(checked: CheckResult<Term>) -> CheckResult<Reading>
    ensures { map_ok reading_model result ≡ map_ok reads.TermRead (map_ok term_model checked) }
{
    match checked {
        Ok(term) => Ok(Reading::Value(term)),
        Err(fault) => Err(fault),
    }
}

/// A name with a selector after it.
/// # Errors
/// `NoMemory` if the allocator refuses memory. The inner error is the fault of the name, or that of `selected`.
pub fn select(
    alloc: Global,
    names: &Names,
    identifier: &Identifier,
    name: CheckResult<Reading>,
) -> Result<CheckResult<Reading>, NoMemory>
    ensures { IfOk result (λ checked. map_ok reading_model checked ≡ next (map_ok reading_model name) (selected (denoted names.now) (identifier_label identifier.now))) }
{
    match name {
        Ok(reading) => selected(alloc, names, identifier, reading),
        Err(fault) => Ok(Err(fault)),
    }
}

/// A name that arguments follow.
/// # Errors
/// `NoMemory` if the allocator refuses memory. The inner error is the fault of the name, or that of `callable`.
pub fn called(alloc: Global, name: CheckResult<Reading>) -> Result<CheckResult<Reading>, NoMemory>
    ensures { IfOk result (λ checked. map_ok reading_model checked ≡ next (map_ok reading_model name) callable) }
{
    match name {
        Ok(reading) => callable(alloc, reading),
        Err(fault) => Ok(Err(fault)),
    }
}

/// A name with one argument after it.
/// # Errors
/// `NoMemory` if the allocator refuses memory. The inner error is the earlier fault of the name and the argument.
#[tactic(auto, unfolding(crate::specs::Steps::applied_read))]
pub fn apply(
    alloc: Global,
    name: CheckResult<Reading>,
    argument: CheckResult<Term>,
) -> Result<CheckResult<Reading>, NoMemory>
    ensures { IfOk result (λ checked. map_ok reading_model checked ≡ applied_read (map_ok reading_model name) (map_ok term_model argument)) }
{
    match both(name, argument) {
        Ok((reading, argument)) => {
            let term = applied(alloc, reading, argument)?;
            Ok(Ok(Reading::Value(term)))
        }
        Err(fault) => Ok(Err(fault)),
    }
}

/// A name with several arguments after it.
/// # Errors
/// `NoMemory` if the allocator refuses memory. The inner error is the earlier fault of the name and the arguments.
#[tactic(auto, unfolding(crate::specs::Steps::applied_to_read))]
pub fn apply_to(
    alloc: Global,
    name: CheckResult<Reading>,
    arguments: CheckResult<Vec<Term>>,
) -> Result<CheckResult<Reading>, NoMemory>
    ensures { IfOk result (λ checked. map_ok reading_model checked ≡ applied_to_read (map_ok reading_model name) (map_ok all_model arguments)) }
{
    match both(name, arguments) {
        Ok((reading, arguments)) => {
            let term = applied_to(alloc, reading, arguments)?;
            Ok(Ok(Reading::Value(term)))
        }
        Err(fault) => Ok(Err(fault)),
    }
}

/// A name with an attribute after it.
/// # Errors
/// `NoMemory` if the allocator refuses memory. The inner error is the fault of the name, or that of `with_attribute`.
#[tactic(auto, unfolding(crate::specs::Steps::with_attribute))]
pub fn attribute_of(
    alloc: Global,
    standard: &StandardTypes,
    identifier: &Identifier,
    name: CheckResult<Reading>,
) -> Result<CheckResult<Reading>, NoMemory>
    ensures { IfOk result (λ checked. map_ok reading_model checked ≡ next (map_ok reading_model name) (with_attribute (attribute_named (identifier_label identifier.now).text))) }
{
    match name {
        Ok(reading) => {
            let attribute = attribute_named(identifier.name.as_slice());
            with_attribute(alloc, standard, reading, attribute)
        }
        Err(fault) => Ok(Err(fault)),
    }
}

/// A name with the Range attribute after it.
/// # Errors
/// `NoMemory` if the allocator refuses memory. The inner error is the fault of the name, or that of `with_range`.
#[tactic(auto, unfolding(crate::specs::Steps::with_range))]
pub fn range_attribute_of(
    alloc: Global,
    standard: &StandardTypes,
    name: CheckResult<Reading>,
) -> Result<CheckResult<Reading>, NoMemory>
    ensures { IfOk result (λ checked. map_ok reading_model checked ≡ next (map_ok reading_model name) with_range) }
{
    match name {
        Ok(reading) => with_range(alloc, standard, reading),
        Err(fault) => Ok(Err(fault)),
    }
}

/// The subtype that a name denotes as a mark, with its place.
/// # Errors
/// `NoMemory` if the allocator refuses memory. The inner error is the fault of the name, or that of `marking`.
pub fn as_mark(
    alloc: Global,
    name: CheckResult<Reading>,
) -> Result<CheckResult<(Place, SubtypeView)>, NoMemory>
    ensures { IfOk result (λ checked. checked ≡ next (map_ok reading_model name) marking) }
{
    match name {
        Ok(reading) => marking(alloc, reading),
        Err(fault) => Ok(Err(fault)),
    }
}

/// The subtype of a range of one part: a mark or a Range attribute.
/// # Errors
/// `NoMemory` if the allocator refuses memory. The inner error is the fault of the name, or that of `ranging`.
pub fn as_single(
    alloc: Global,
    name: CheckResult<Reading>,
) -> Result<CheckResult<SubtypeView>, NoMemory>
    ensures { IfOk result (λ checked. checked ≡ next (map_ok reading_model name) ranging) }
{
    match name {
        Ok(reading) => ranging(alloc, reading),
        Err(fault) => Ok(Err(fault)),
    }
}

/// A qualified expression: a mark with an operand in parentheses after an apostrophe.
/// # Errors
/// `NoMemory` if the allocator refuses memory. The inner error is the earlier fault of the mark and the operand.
#[tactic(auto, unfolding(crate::specs::Steps::qualified_read))]
pub fn qualify(
    alloc: Global,
    mark: CheckResult<(Place, SubtypeView)>,
    operand: CheckResult<Term>,
) -> Result<CheckResult<Reading>, NoMemory>
    ensures { IfOk result (λ checked. map_ok reading_model checked ≡ qualified_read mark (map_ok term_model operand)) }
{
    match both(mark, operand) {
        Ok(((place, subtype), operand)) => {
            let operand = boxed(alloc, operand)?;
            let term = Term::qualified(place, subtype, operand);
            Ok(Ok(Reading::Value(term)))
        }
        Err(fault) => Ok(Err(fault)),
    }
}

/// An operator before its operand.
/// # Errors
/// `NoMemory` if the allocator refuses memory. The inner error is the fault of the operand.
#[tactic(auto, unfolding(crate::specs::Steps::prefixed_read))]
pub fn operate(
    alloc: Global,
    names: &Names,
    operator: &PrefixOperator,
    operand: CheckResult<Term>,
) -> Result<CheckResult<Reading>, NoMemory>
    ensures { IfOk result (λ checked. map_ok reading_model checked ≡ prefixed_read (denoted names.now) (prefix_model operator.now) (map_ok term_model operand)) }
{
    match operand {
        Ok(operand) => {
            let term = prefixed(alloc, names, operator, operand)?;
            Ok(Ok(Reading::Value(term)))
        }
        Err(fault) => Ok(Err(fault)),
    }
}

/// An operator between its operands.
/// # Errors
/// `NoMemory` if the allocator refuses memory. The inner error is the earlier fault of the two operands.
#[tactic(auto, unfolding(crate::specs::Steps::joined_read))]
pub fn join(
    alloc: Global,
    names: &Names,
    operator: &InfixOperator,
    left: CheckResult<Term>,
    right: CheckResult<Term>,
) -> Result<CheckResult<Reading>, NoMemory>
    ensures { IfOk result (λ checked. map_ok reading_model checked ≡ joined_read (denoted names.now) (operator_model operator.now) (map_ok term_model left) (map_ok term_model right)) }
{
    match both(left, right) {
        Ok((left, right)) => {
            let term = joined(alloc, names, operator, left, right)?;
            Ok(Ok(Reading::Value(term)))
        }
        Err(fault) => Ok(Err(fault)),
    }
}

/// A membership in a subtype.
/// # Errors
/// `NoMemory` if the allocator refuses memory. The inner error is the earlier fault of the value and the subtype.
#[tactic(auto, unfolding(crate::specs::Steps::member_read))]
pub fn member(
    alloc: Global,
    is_negated: bool,
    value: CheckResult<Term>,
    range: CheckResult<SubtypeView>,
) -> Result<CheckResult<Reading>, NoMemory>
    ensures { IfOk result (λ checked. map_ok reading_model checked ≡ member_read is_negated (map_ok term_model value) range) }
{
    match both(value, range) {
        Ok((value, subtype)) => {
            let value = boxed(alloc, value)?;
            let term = Term::member(value, is_negated, subtype);
            Ok(Ok(Reading::Value(term)))
        }
        Err(fault) => Ok(Err(fault)),
    }
}

/// A membership between bounds.
/// # Errors
/// `NoMemory` if the allocator refuses memory. The inner error is the earlier fault of the value and the bounds.
#[tactic(auto, unfolding(crate::specs::Steps::range_member_read))]
pub fn range_member(
    alloc: Global,
    is_negated: bool,
    value: CheckResult<Term>,
    bounds: CheckResult<(Term, Term)>,
) -> Result<CheckResult<Reading>, NoMemory>
    ensures { IfOk result (λ checked. map_ok reading_model checked ≡ range_member_read is_negated (map_ok term_model value) (map_ok pair_model bounds)) }
{
    match both(value, bounds) {
        Ok((value, (low, high))) => {
            let bounds = boxed_pair(alloc, low, high);
            let (value, (low, high)) = together(boxed(alloc, value), bounds)?;
            let term = Term::range_member(value, is_negated, low, high);
            Ok(Ok(Reading::Value(term)))
        }
        Err(fault) => Ok(Err(fault)),
    }
}

/// A list of terms with its first term.
/// # Errors
/// `NoMemory` if the allocator refuses memory. The inner error is the fault of the term.
#[tactic(auto, unfolding(crate::specs::Steps::started))]
pub fn started(alloc: Global, term: CheckResult<Term>) -> Result<CheckResult<Vec<Term>>, NoMemory>
    ensures { IfOk result (λ checked. map_ok all_model checked ≡ started (map_ok term_model term)) }
{
    match term {
        Ok(term) => {
            let terms = one_argument(alloc, term)?;
            Ok(Ok(terms))
        }
        Err(fault) => Ok(Err(fault)),
    }
}

/// A list of terms with one more term.
/// # Errors
/// `NoMemory` if the allocator refuses memory. The inner error is the earlier fault of the list and the term.
#[tactic(auto, unfolding(crate::specs::Steps::added))]
pub fn added(
    done: CheckResult<Vec<Term>>,
    term: CheckResult<Term>,
) -> Result<CheckResult<Vec<Term>>, NoMemory>
    ensures { IfOk result (λ checked. map_ok all_model checked ≡ added (map_ok all_model done) (map_ok term_model term)) }
{
    match both(done, term) {
        Ok((mut terms, term)) => {
            terms.push(term)?;
            Ok(Ok(terms))
        }
        Err(fault) => Ok(Err(fault)),
    }
}

/// Both bounds of a range.
/// # Errors
/// The earlier fault of the two bounds.
pub fn bounds(low: CheckResult<Term>, high: CheckResult<Term>) -> CheckResult<(Term, Term)>
    ensures { map_ok pair_model result ≡ both (map_ok term_model low) (map_ok term_model high) }
{
    both(low, high)
}

/// A term in parentheses.
/// # Errors
/// `NoMemory` if the allocator refuses memory. The inner error is the fault of the term.
#[tactic(auto, unfolding(crate::specs::Steps::grouped))]
pub fn grouped(
    alloc: Global,
    place: Place,
    inner: CheckResult<Term>,
) -> Result<CheckResult<Term>, NoMemory>
    ensures { IfOk result (λ checked. map_ok term_model checked ≡ grouped place (map_ok term_model inner)) }
{
    match inner {
        Ok(inner) => {
            let inner = boxed(alloc, inner)?;
            let term = Term::group(place, inner);
            Ok(Ok(term))
        }
        Err(fault) => Ok(Err(fault)),
    }
}

/// A positional aggregate.
/// # Errors
/// The fault of its values.
#[tactic(auto, unfolding(crate::specs::Steps::aggregated))]
pub fn aggregated(place: Place, components: CheckResult<Vec<Term>>) -> CheckResult<Term>
    ensures { map_ok term_model result ≡ aggregated place (map_ok all_model components) }
{
    match components {
        Ok(components) => Ok(Term::aggregate(place, components)),
        Err(fault) => Err(fault),
    }
}

/// `(others => component)`.
/// # Errors
/// `NoMemory` if the allocator refuses memory. The inner error is the fault of the component.
#[tactic(auto, unfolding(crate::specs::Steps::repeated))]
pub fn repeated(
    alloc: Global,
    place: Place,
    component: CheckResult<Term>,
) -> Result<CheckResult<Term>, NoMemory>
    ensures { IfOk result (λ checked. map_ok term_model checked ≡ repeated place (map_ok term_model component)) }
{
    match component {
        Ok(component) => {
            let component = boxed(alloc, component)?;
            let term = Term::others(place, component);
            Ok(Ok(term))
        }
        Err(fault) => Ok(Err(fault)),
    }
}
