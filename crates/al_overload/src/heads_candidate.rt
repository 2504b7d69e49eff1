// The candidates of constructs that have one at most (ARM 4.1 to 4.7).
ghost use Rattle.std.specs.Prelude.{◌≡◌, [], ◌∷◌, IfOk, option_map};
ghost use Rattle.std.specs.Option.{option_and_then};
ghost use Rattle.al_overload.specs.Counts.{plain, plain_all};
ghost use Rattle.al_overload.specs.Aggregates.{operation, value_given, value_wanted};
ghost use Rattle.al_overload.specs.HeadsHeads.{attribute, concatenation, indexing, indexing_in, mark_given, mark_wanted, membership, possible, selection, short_circuit};
ghost use Rattle.al_overload.specs.Parts.{nominal};

use crate::everywhere::Predefined;
use crate::part::{component_of, definition_of};
use crate::{Candidate, Expected, Expression, Given, Operands, value_type};
use al_base::NoMemory;
use al_view::{Seq, Subtype, SubtypeView, TypeDefinition, Types};
use al_view_predefined::StandardTypes;
use al_view_typed::Conversion;
use std::alloc::Global;

/// What wants a value of this subtype's type.
pub(crate) fn value_wanted(
    alloc: Global,
    standard: &StandardTypes,
    types: &Types,
    subtype: &Subtype,
) -> Result<Expected, NoMemory>
    ensures { IfOk result (λ expected. expected ≡ value_wanted types.now subtype.now) }
{
    let of = value_type(alloc, standard, types, &subtype.base)?;
    Ok(Expected::Value(of))
}

/// What gives a value of this subtype's type.
pub(crate) fn value_given(
    alloc: Global,
    standard: &StandardTypes,
    types: &Types,
    subtype: &Subtype,
) -> Result<Given, NoMemory>
    ensures { IfOk result (λ given. given ≡ value_given types.now subtype.now) }
{
    let of = value_type(alloc, standard, types, &subtype.base)?;
    Ok(Given::Value(of))
}

/// A candidate that wants these operands and gives this.
pub(crate) fn operation(operands: Seq<Expected>, given: Given) -> Candidate
    ensures { result ≡ operation operands given }
{
    Candidate {
        operands,
        given,
        is_root: false,
    }
}

/// A candidate that gives this of no operands.
pub(crate) fn giving(alloc: Global, given: Given) -> Candidate
    ensures { result ≡ operation [] given }
{
    operation(Seq::empty(alloc), given)
}

/// A candidate that gives this of one operand.
pub(crate) fn of_one(alloc: Global, operand: Expected, given: Given) -> Result<Candidate, NoMemory>
    ensures { IfOk result (λ candidate. candidate ≡ operation (operand ∷ []) given) }
{
    let mut operands = Seq::empty(alloc);
    operands.push(operand)?;
    Ok(operation(operands, given))
}

/// A candidate that gives this of two operands.
pub(crate) fn of_two(
    alloc: Global,
    left: Expected,
    right: Expected,
    given: Given,
) -> Result<Candidate, NoMemory>
    ensures { IfOk result (λ candidate. candidate ≡ operation (left ∷ right ∷ []) given) }
{
    let mut operands = Seq::empty(alloc);
    operands.push(left)?;
    operands.push(right)?;
    Ok(operation(operands, given))
}

/// A head with this candidate, or with none.
pub(crate) fn possible(
    alloc: Global,
    candidate: Option<Candidate>,
    operands: Operands,
) -> Result<Expression, NoMemory>
    ensures { IfOk result (λ head. plain head ≡ possible candidate (plain_all operands)) }
{
    let mut head = Expression::new(alloc, operands);
    match candidate {
        Some(candidate) => {
            head.add(candidate)?;
            Ok(head)
        }
        None => Ok(head),
    }
}

/// What wants a value of the mark's type.
pub(crate) fn mark_wanted(
    alloc: Global,
    predefined: &Predefined,
    mark: &SubtypeView,
) -> Result<Expected, NoMemory>
    ensures { IfOk result (λ expected. expected ≡ mark_wanted mark.now) }
{
    value_wanted(alloc, &predefined.standard, &mark.types, &mark.subtype)
}

/// What gives a value of the mark's type.
pub(crate) fn mark_given(
    alloc: Global,
    predefined: &Predefined,
    mark: &SubtypeView,
) -> Result<Given, NoMemory>
    ensures { IfOk result (λ given. given ≡ mark_given mark.now) }
{
    value_given(alloc, &predefined.standard, &mark.types, &mark.subtype)
}

/// The candidate for `S'Succ (X)` and `S'Pred (X)`: a value of S's type of another one.
fn neighbour(
    alloc: Global,
    predefined: &Predefined,
    mark: &SubtypeView,
) -> Result<Option<Candidate>, NoMemory>
    ensures { IfOk result (λ found. found ≡ Some (operation (mark_wanted mark.now ∷ []) (mark_given mark.now))) }
{
    let expected = mark_wanted(alloc, predefined, mark)?;
    let given = mark_given(alloc, predefined, mark)?;
    let candidate = of_one(alloc, expected, given)?;
    Ok(Some(candidate))
}

/// The candidate for an attribute of a scalar subtype with an argument (ARM 3.5(22, 25), 3.5.5).
pub(crate) fn attribute(
    alloc: Global,
    predefined: &Predefined,
    conversion: Conversion,
    mark: &SubtypeView,
) -> Result<Option<Candidate>, NoMemory>
    ensures { IfOk result (λ found. found ≡ attribute conversion mark.now) }
{
    match conversion {
        Conversion::Pos => {
            let expected = mark_wanted(alloc, predefined, mark)?;
            let candidate = of_one(alloc, expected, Given::Universal)?;
            Ok(Some(candidate))
        }
        Conversion::Val => {
            let given = mark_given(alloc, predefined, mark)?;
            let candidate = of_one(alloc, Expected::AnyInteger, given)?;
            Ok(Some(candidate))
        }
        Conversion::Succ => neighbour(alloc, predefined, mark),
        Conversion::Pred => neighbour(alloc, predefined, mark),
        Conversion::ToType => Ok(None),
        Conversion::Qualification => Ok(None),
        Conversion::Milliseconds => Ok(None),
    }
}

/// The candidate for a membership in a subtype of a discrete type (ARM 4.5.2(3)).
pub(crate) fn membership(
    alloc: Global,
    predefined: &Predefined,
    mark: &SubtypeView,
) -> Result<Option<Candidate>, NoMemory>
    ensures { IfOk result (λ found. found ≡ membership predefined.now mark.now) }
{
    let of = value_type(alloc, &predefined.standard, &mark.types, &mark.subtype.base)?;
    if !of.class.is_discrete() {
        return Ok(None);
    }
    let boolean = predefined.types.boolean.copy(alloc)?;
    let candidate = of_one(alloc, Expected::Value(of), Given::Value(boolean))?;
    Ok(Some(candidate))
}

/// The candidate for a short circuit (ARM 4.5.1(1)).
pub(crate) fn short_circuit(alloc: Global, predefined: &Predefined) -> Result<Candidate, NoMemory>
    ensures { IfOk result (λ candidate. candidate ≡ short_circuit predefined.now) }
{
    let left = predefined.types.boolean.copy(alloc)?;
    let right = predefined.types.boolean.copy(alloc)?;
    let whole = predefined.types.boolean.copy(alloc)?;
    of_two(
        alloc,
        Expected::Value(left),
        Expected::Value(right),
        Given::Value(whole),
    )
}

/// The candidate for `&` of what is put out.
pub(crate) fn concatenation(alloc: Global) -> Result<Candidate, NoMemory>
    ensures { IfOk result (λ candidate. candidate ≡ concatenation) }
{
    of_two(alloc, Expected::Text, Expected::Text, Given::Text)
}

/// The candidate for the component of that name of what has this nominal subtype (ARM 4.1.3).
fn selection_of(
    alloc: Global,
    standard: &StandardTypes,
    name: &[u8],
    types: &Types,
    subtype: &Subtype,
) -> Result<Option<Candidate>, NoMemory>
    ensures { IfOk result (λ found. found ≡ selection name.now (nominal types.now subtype.now)) }
{
    match component_of(standard, name, types, subtype) {
        Some(component) => {
            let expected = value_wanted(alloc, standard, types, subtype)?;
            let given = value_given(alloc, standard, types, component)?;
            let candidate = of_one(alloc, expected, given)?;
            Ok(Some(candidate))
        }
        None => Ok(None),
    }
}

/// The head of a selected component, if what comes before the dot is an object or a part of one.
pub(crate) fn selection(
    alloc: Global,
    standard: &StandardTypes,
    name: &[u8],
    whole: Option<(&Subtype, &Types)>,
) -> Result<Option<Candidate>, NoMemory>
    ensures { IfOk result (λ found. found ≡ option_and_then (selection name.now) (option_map (λ part. nominal part.1.now part.0.now) whole.entry)) }
{
    match whole {
        Some((subtype, types)) => selection_of(alloc, standard, name, types, subtype),
        None => Ok(None),
    }
}

fn indexing_in(
    alloc: Global,
    standard: &StandardTypes,
    types: &Types,
    subtype: &Subtype,
    definition: &TypeDefinition,
) -> Result<Option<Candidate>, NoMemory>
    ensures { IfOk result (λ found. found ≡ indexing_in (nominal types.now subtype.now) definition.now) }
{
    match definition {
        TypeDefinition::Array { index, component } => {
            let array = value_wanted(alloc, standard, types, subtype)?;
            let index = value_wanted(alloc, standard, types, index)?;
            let given = value_given(alloc, standard, types, component)?;
            let candidate = of_two(alloc, array, index, given)?;
            Ok(Some(candidate))
        }
        TypeDefinition::Record(_) => Ok(None),
        TypeDefinition::Integer(_) => Ok(None),
        TypeDefinition::Enumeration { .. } => Ok(None),
        TypeDefinition::Time => Ok(None),
        TypeDefinition::Private => Ok(None),
    }
}

/// The head of an indexed component, if what comes before the index is an object or a part of one (ARM 4.1.1).
pub(crate) fn indexing(
    alloc: Global,
    standard: &StandardTypes,
    whole: Option<(&Subtype, &Types)>,
) -> Result<Option<Candidate>, NoMemory>
    ensures { IfOk result (λ found. found ≡ option_and_then indexing (option_map (λ part. nominal part.1.now part.0.now) whole.entry)) }
{
    match whole {
        Some((subtype, types)) => match definition_of(standard, types, subtype) {
            Some(definition) => indexing_in(alloc, standard, types, subtype, definition),
            None => Ok(None),
        },
        None => Ok(None),
    }
}
