// What is known of an expression from what is known of its operands (ARM 4.9).
ghost use Rattle.std.specs.Prelude.{◌≡◌, ◌&&◌, if◌then◌else◌};
ghost use Rattle.std.specs.Option.{option_copied};
ghost use Rattle.al_base_fault.specs.Faults.{earlier};
ghost use Rattle.al_static.specs.Combining.{binary, converted, decided, failure_at, failure_in, is_static, joined, membership, named, short_circuit, static_at, unary, undecided, untested};

use crate::operator::{
    binary_value, converted_value, decides, is_member, is_scalar, keeps_static, unary_value,
};
use crate::word::bit;
use al_base::Place;
use al_base_fault::{CheckRule, Fault, earlier};
use al_view::{Bounds, StaticValue};
use al_view_typed::{BinaryOperator, Conversion, ShortCircuit, UnaryOperator};

/// What is known of an expression.
#[derive(Clone, Copy)]
pub enum Known {
    /// It is static and has this value.
    Value(StaticValue),
    /// It is static and has no value, as its evaluation would raise Constraint_Error (ARM 4.9(34)). This is the place of its first token.
    Fails(Place),
    /// It isn't static. This is the first of the largest static expressions in it that have no value, if any.
    Open(Option<Fault>),
}

/// A static expression without a value, whose first token is at this place.
fn failure_at(place: Place) -> Fault
    ensures { result ≡ failure_at place }
{
    Fault {
        place,
        rule: CheckRule::StaticFailure,
    }
}

/// The static expression that begins here and has this value, if any.
fn static_at(place: Place, word: Option<i64>) -> Known
    ensures { result ≡ static_at place word }
{
    match word {
        Some(word) => Known::Value(StaticValue { word }),
        None => Known::Fails(place),
    }
}

/// An expression that begins here, of two operands, at least one of which has no value.
fn joined(place: Place, left: Known, right: Known) -> Known
    ensures { result ≡ joined place left right }
{
    if left.is_static() && right.is_static() {
        Known::Fails(place)
    } else {
        Known::Open(earlier(left.failure(), right.failure()))
    }
}

/// A membership test that begins here, of a value and two bounds, at least one of which has no value.
fn untested(place: Place, value: Known, low: Known, high: Known) -> Known
    ensures { result ≡ untested place value low high }
{
    if value.is_static() && low.is_static() && high.is_static() {
        return Known::Fails(place);
    }
    Known::Open(earlier(value.failure(), earlier(low.failure(), high.failure())))
}

impl Known {
    /// Whether the expression is static, with a value or without.
    pub fn is_static(self) -> bool
        ensures { result ≡ is_static self }
    {
        match self {
            Known::Value(_) => true,
            Known::Fails(_) => true,
            Known::Open(_) => false,
        }
    }

    /// The first failure in an expression that is part of none that is static.
    pub fn failure(self) -> Option<Fault>
        ensures { result ≡ failure_in self }
    {
        match self {
            Known::Value(_) => None,
            Known::Fails(place) => Some(failure_at(place)),
            Known::Open(fault) => fault,
        }
    }

    /// The name of an object. A constant with a static value has that value; for another object, what fails in its indices.
    pub fn named(value: Option<StaticValue>, failure: Option<Fault>) -> Known
        ensures { result ≡ named value failure }
    {
        match value {
            Some(value) => Known::Value(value),
            None => Known::Open(failure),
        }
    }

    /// `operator operand`, which begins here.
    pub fn unary(place: Place, operator: UnaryOperator, operand: Known) -> Known
        ensures { result ≡ unary place operator operand }
    {
        match operand {
            Known::Value(value) => static_at(place, unary_value(operator, value.word)),
            Known::Fails(_) => Known::Fails(place),
            Known::Open(fault) => Known::Open(fault),
        }
    }

    /// `left operator right`, which begins here.
    pub fn binary(place: Place, operator: BinaryOperator, left: Known, right: Known) -> Known
        ensures { result ≡ binary place operator left right }
    {
        if !is_scalar(operator) {
            return Known::Open(earlier(left.failure(), right.failure()));
        }
        match (left, right) {
            (Known::Value(left), Known::Value(right)) => {
                static_at(place, binary_value(operator, left.word, right.word))
            }
            (left, right) => joined(place, left, right),
        }
    }

    /// A conversion, a qualified expression, or an attribute or function that is like one, which begins here: of this operand, checked
    /// against this range.
    pub fn converted(
        place: Place,
        conversion: Conversion,
        bounds: Option<Bounds>,
        operand: Known,
    ) -> Known
        ensures { result ≡ converted place conversion bounds operand }
    {
        if !keeps_static(conversion) {
            return Known::Open(operand.failure());
        }
        match operand {
            Known::Value(value) => {
                static_at(place, converted_value(conversion, bounds, value.word))
            }
            Known::Fails(_) => Known::Fails(place),
            Known::Open(fault) => Known::Open(fault),
        }
    }

    /// `value [not] in low .. high`, which begins here.
    pub fn membership(
        place: Place,
        is_negated: bool,
        value: Known,
        low: Known,
        high: Known,
    ) -> Known
        ensures { result ≡ membership place is_negated value low high }
    {
        match (value, low, high) {
            (Known::Value(value), Known::Value(low), Known::Value(high)) => {
                let word = bit(is_member(is_negated, value.word, low.word, high.word));
                Known::Value(StaticValue { word })
            }
            (value, low, high) => untested(place, value, low, high),
        }
    }

    /// `left and then right` or `left or else right`, which begins here.
    pub fn short_circuit(place: Place, form: ShortCircuit, left: Known, right: Known) -> Known
        ensures { result ≡ short_circuit place form left right }
    {
        match left {
            Known::Value(value) => {
                if decides(form, value.word) {
                    decided(value, right)
                } else {
                    undecided(place, right)
                }
            }
            Known::Fails(_) => joined(place, left, right),
            Known::Open(_) => joined(place, left, right),
        }
    }
}

/// If the left operand decides, nothing fails in the right one, which isn't evaluated (ARM 4.9(33)).
fn decided(value: StaticValue, right: Known) -> Known
    ensures { result ≡ decided value right }
{
    if right.is_static() {
        Known::Value(value)
    } else {
        Known::Open(None)
    }
}

/// If the left operand doesn't decide, the right one is the value.
fn undecided(place: Place, right: Known) -> Known
    ensures { result ≡ undecided place right }
{
    match right {
        Known::Value(value) => Known::Value(value),
        Known::Fails(_) => Known::Fails(place),
        Known::Open(fault) => Known::Open(fault),
    }
}
