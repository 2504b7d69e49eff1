// Operators (ARM 4.5): which compute with numbers alone, and which are visible everywhere.
ghost use Rattle.std.specs.Prelude.{◌≡◌};
ghost use Rattle.al_view_predefined.specs.Operators.{spelling};
ghost use Rattle.al_view.specs.Interfaces.{views_of};
ghost use Rattle.al_overload.specs.Signs.{binary_sign, unary_sign};
ghost use Rattle.al_overload.specs.Universal.{computes_one, computes_two, is_number, is_position, is_sole_number};

use crate::everywhere::Predefined;
use al_view::{View, ViewKind};
use al_view_predefined::OperatorSymbol;
use al_view_typed::{BinaryOperator, Conversion, UnaryOperator};

fn unary_sign(operator: UnaryOperator) -> OperatorSymbol
    ensures { result ≡ unary_sign operator }
{
    match operator {
        UnaryOperator::Plus => OperatorSymbol::Plus,
        UnaryOperator::Minus => OperatorSymbol::Minus,
        UnaryOperator::Abs => OperatorSymbol::Abs,
        UnaryOperator::Not => OperatorSymbol::Not,
    }
}

fn binary_sign(operator: BinaryOperator) -> OperatorSymbol
    ensures { result ≡ binary_sign operator }
{
    match operator {
        BinaryOperator::And => OperatorSymbol::And,
        BinaryOperator::Or => OperatorSymbol::Or,
        BinaryOperator::Xor => OperatorSymbol::Xor,
        BinaryOperator::Equal => OperatorSymbol::Equal,
        BinaryOperator::NotEqual => OperatorSymbol::NotEqual,
        BinaryOperator::Less => OperatorSymbol::Less,
        BinaryOperator::LessOrEqual => OperatorSymbol::LessOrEqual,
        BinaryOperator::Greater => OperatorSymbol::Greater,
        BinaryOperator::GreaterOrEqual => OperatorSymbol::GreaterOrEqual,
        BinaryOperator::Plus => OperatorSymbol::Plus,
        BinaryOperator::Minus => OperatorSymbol::Minus,
        BinaryOperator::Times => OperatorSymbol::Times,
        BinaryOperator::Divide => OperatorSymbol::Divide,
        BinaryOperator::Mod => OperatorSymbol::Mod,
        BinaryOperator::Rem => OperatorSymbol::Rem,
        BinaryOperator::Power => OperatorSymbol::Power,
        BinaryOperator::SameWords => OperatorSymbol::Equal,
        BinaryOperator::OtherWords => OperatorSymbol::NotEqual,
    }
}

/// The operators of the root type before an operand.
pub(crate) fn unary_roots(predefined: &Predefined, operator: UnaryOperator) -> &[View]
    ensures { result.now ≡ views_of predefined.now.operators (spelling (unary_sign operator)) }
{
    predefined.operators.views(unary_sign(operator).spelling())
}

/// The operators of the root type between two operands.
pub(crate) fn binary_roots(predefined: &Predefined, operator: BinaryOperator) -> &[View]
    ensures { result.now ≡ views_of predefined.now.operators (spelling (binary_sign operator)) }
{
    predefined.operators.views(binary_sign(operator).spelling())
}

/// Whether an operator before a number gives a number.
pub fn computes_one(operator: UnaryOperator) -> bool
    ensures { result ≡ computes_one operator }
{
    match operator {
        UnaryOperator::Plus => true,
        UnaryOperator::Minus => true,
        UnaryOperator::Abs => true,
        UnaryOperator::Not => false,
    }
}

/// Whether an operator between two numbers gives a number.
pub fn computes_two(operator: BinaryOperator) -> bool
    ensures { result ≡ computes_two operator }
{
    match operator {
        BinaryOperator::Plus => true,
        BinaryOperator::Minus => true,
        BinaryOperator::Times => true,
        BinaryOperator::Divide => true,
        BinaryOperator::Mod => true,
        BinaryOperator::Rem => true,
        BinaryOperator::Power => true,
        BinaryOperator::And => false,
        BinaryOperator::Or => false,
        BinaryOperator::Xor => false,
        BinaryOperator::Equal => false,
        BinaryOperator::NotEqual => false,
        BinaryOperator::Less => false,
        BinaryOperator::LessOrEqual => false,
        BinaryOperator::Greater => false,
        BinaryOperator::GreaterOrEqual => false,
        BinaryOperator::SameWords => false,
        BinaryOperator::OtherWords => false,
    }
}

fn is_number(view: &View) -> bool
    ensures { result ≡ is_number view.now }
{
    match view.kind() {
        ViewKind::OfNumber(_) => true,
        ViewKind::OfObject(_) => false,
        ViewKind::OfLiteral(_) => false,
        ViewKind::OfSubprogram(_) => false,
        ViewKind::OfComponent => false,
        ViewKind::OfType(_) => false,
        ViewKind::OfSubtype(_) => false,
        ViewKind::OfTask(_) => false,
        ViewKind::OfProtected(_) => false,
        ViewKind::OfPackage(_) => false,
    }
}

/// Whether a named number is all that is visible.
pub fn is_sole_number(visible: &[View]) -> bool
    ensures { result ≡ is_sole_number visible.now }
{
    match visible {
        [] => false,
        [view] => is_number(view),
        [_, _, ..] => false,
    }
}

/// Whether the attribute gives a position, as `S'Pos (X)` does.
pub fn is_position(conversion: Conversion) -> bool
    ensures { result ≡ is_position conversion }
{
    match conversion {
        Conversion::Pos => true,
        Conversion::ToType => false,
        Conversion::Qualification => false,
        Conversion::Val => false,
        Conversion::Succ => false,
        Conversion::Pred => false,
        Conversion::Milliseconds => false,
    }
}
