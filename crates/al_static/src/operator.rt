// What predefined operators and attributes give of static operands (ARM 4.5, 3.5.5).
ghost use Rattle.std.specs.Prelude.{◌≡◌};
ghost use Rattle.al_static.specs.Operators.{binary_value, changed, converted_value, decides, is_member, is_scalar, keeps_static, unary_value, within};

use crate::word::{bit, divided, is_true, modulus, power, remainder};
use al_view::Bounds;
use al_view_typed::{BinaryOperator, Conversion, ShortCircuit, UnaryOperator};

/// What an operator gives of one operand, if that is a word.
#[tactic(auto, using(crate::proofs::WordLemmas::word_of_some), unfolding(crate::specs::Operators::unary_value))]
pub(crate) fn unary_value(operator: UnaryOperator, a: i64) -> Option<i64>
    ensures { result ≡ unary_value operator a }
{
    match operator {
        UnaryOperator::Plus => Some(a),
        UnaryOperator::Minus => a.checked_neg(),
        UnaryOperator::Abs => a.checked_abs(),
        UnaryOperator::Not => Some(bit(!is_true(a))),
    }
}

/// What an operator gives of the left operand and the right one, if there is such a word.
#[tactic(auto, using(crate::proofs::WordLemmas::word_of_some), unfolding(crate::specs::Operators::binary_value))]
pub(crate) fn binary_value(operator: BinaryOperator, a: i64, b: i64) -> Option<i64>
    ensures { result ≡ binary_value operator a b }
{
    match operator {
        BinaryOperator::And => Some(bit(is_true(a) && is_true(b))),
        BinaryOperator::Or => Some(bit(is_true(a) || is_true(b))),
        BinaryOperator::Xor => Some(bit(is_true(a) != is_true(b))),
        BinaryOperator::Equal => Some(bit(a == b)),
        BinaryOperator::NotEqual => Some(bit(a != b)),
        BinaryOperator::Less => Some(bit(a < b)),
        BinaryOperator::LessOrEqual => Some(bit(a <= b)),
        BinaryOperator::Greater => Some(bit(b < a)),
        BinaryOperator::GreaterOrEqual => Some(bit(b <= a)),
        BinaryOperator::Plus => a.checked_add(b),
        BinaryOperator::Minus => a.checked_sub(b),
        BinaryOperator::Times => a.checked_mul(b),
        BinaryOperator::Divide => divided(a, b),
        BinaryOperator::Mod => modulus(a, b),
        BinaryOperator::Rem => remainder(a, b),
        BinaryOperator::Power => power(a, b),
        BinaryOperator::SameWords => None,
        BinaryOperator::OtherWords => None,
    }
}

/// Whether the operands are seen to be scalar.
#[tactic(auto, unfolding(crate::specs::Operators::is_scalar))]
pub(crate) fn is_scalar(operator: BinaryOperator) -> bool
    ensures { result ≡ is_scalar operator }
{
    !matches!(
        operator,
        BinaryOperator::SameWords | BinaryOperator::OtherWords
    )
}

/// The value, if it is in the range or there is no range.
fn within(bounds: Option<Bounds>, word: i64) -> Option<i64>
    ensures { result ≡ within bounds word }
{
    match bounds {
        Some(bounds) => {
            if bounds.low <= word && word <= bounds.high {
                Some(word)
            } else {
                None
            }
        }
        None => Some(word),
    }
}

/// What an attribute or conversion makes of a value, before it is checked against a range.
#[tactic(auto, using(crate::proofs::WordLemmas::word_of_some), unfolding(crate::specs::Operators::changed))]
fn changed(conversion: Conversion, word: i64) -> Option<i64>
    ensures { result ≡ changed conversion word }
{
    match conversion {
        Conversion::ToType => Some(word),
        Conversion::Qualification => Some(word),
        Conversion::Pos => Some(word),
        Conversion::Val => Some(word),
        Conversion::Succ => word.checked_add(1),
        Conversion::Pred => word.checked_sub(1),
        Conversion::Milliseconds => Some(word),
    }
}

/// What an attribute or conversion gives of a value, if that is within the range.
pub(crate) fn converted_value(
    conversion: Conversion,
    bounds: Option<Bounds>,
    word: i64,
) -> Option<i64>
    ensures { result ≡ converted_value conversion bounds word }
{
    within(bounds, changed(conversion, word)?)
}

/// Whether the attribute or conversion makes a static expression of a static one.
#[tactic(auto, unfolding(crate::specs::Operators::keeps_static))]
pub(crate) fn keeps_static(conversion: Conversion) -> bool
    ensures { result ≡ keeps_static conversion }
{
    !matches!(conversion, Conversion::Milliseconds)
}

/// Whether a value lies in a range, or doesn't, as the test asks.
pub(crate) fn is_member(is_negated: bool, word: i64, low: i64, high: i64) -> bool
    ensures { result ≡ is_member is_negated word low high }
{
    is_negated != (low <= word && word <= high)
}

/// Whether the left operand alone decides.
pub(crate) fn decides(form: ShortCircuit, word: i64) -> bool
    ensures { result ≡ decides form word }
{
    match form {
        ShortCircuit::AndThen => !is_true(word),
        ShortCircuit::OrElse => is_true(word),
    }
}
