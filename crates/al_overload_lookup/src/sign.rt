// Signs of operators (ARM 4.5).
ghost use Rattle.std.specs.Prelude.{◌≡◌};
ghost use Rattle.std.specs.Option.{option_copied};
ghost use Rattle.al_overload_lookup.specs.TextNames.{adding_sign, logical_sign, multiplying_sign, operator_sign, prefix_sign, relational_sign};
ghost use Rattle.al_tree.specs.ExpressionViews.{adding_model, logical_model, multiplying_model, operator_model, prefix_model, relational_model};

use al_tree::{
    AddingOperator, InfixOperator, LogicalOperator, MultiplyingOperator, PrefixOperator,
    RelationalOperator, Sign,
};

pub(crate) fn prefix_sign(operator: &PrefixOperator) -> &'static [u8]
    ensures { result.now ≡ prefix_sign (prefix_model operator.now) }
{
    match operator {
        PrefixOperator::Sign(sign) => match sign {
            Sign::Plus(_) => b"+",
            Sign::Minus(_) => b"-",
        },
        PrefixOperator::Absolute(_) => b"abs",
        PrefixOperator::Negation(_) => b"not",
    }
}

fn logical_sign(operator: LogicalOperator) -> Option<&'static [u8]>
    ensures { option_copied result ≡ logical_sign (logical_model operator) }
{
    match operator {
        LogicalOperator::And => Some(b"and"),
        LogicalOperator::Or => Some(b"or"),
        LogicalOperator::Xor => Some(b"xor"),
        LogicalOperator::AndThen => None,
        LogicalOperator::OrElse => None,
    }
}

fn relational_sign(operator: RelationalOperator) -> &'static [u8]
    ensures { result.now ≡ relational_sign (relational_model operator) }
{
    match operator {
        RelationalOperator::Equal => b"=",
        RelationalOperator::NotEqual => b"/=",
        RelationalOperator::Less => b"<",
        RelationalOperator::LessOrEqual => b"<=",
        RelationalOperator::Greater => b">",
        RelationalOperator::GreaterOrEqual => b">=",
    }
}

fn adding_sign(operator: AddingOperator) -> Option<&'static [u8]>
    ensures { option_copied result ≡ adding_sign (adding_model operator) }
{
    match operator {
        AddingOperator::Plus(_) => Some(b"+"),
        AddingOperator::Minus(_) => Some(b"-"),
        AddingOperator::Concatenate => None,
    }
}

fn multiplying_sign(operator: MultiplyingOperator) -> &'static [u8]
    ensures { result.now ≡ multiplying_sign (multiplying_model operator) }
{
    match operator {
        MultiplyingOperator::Times => b"*",
        MultiplyingOperator::Divide => b"/",
        MultiplyingOperator::Mod => b"mod",
        MultiplyingOperator::Rem => b"rem",
    }
}

/// The sign under which an operator is declared. Short-circuit forms and `&` are declared nowhere.
pub(crate) fn operator_sign(operator: &InfixOperator) -> Option<&'static [u8]>
    ensures { option_copied result ≡ operator_sign (operator_model operator.now) }
{
    match operator {
        InfixOperator::Logical(operator) => logical_sign(*operator),
        InfixOperator::Relational(operator) => Some(relational_sign(*operator)),
        InfixOperator::Adding(operator) => adding_sign(*operator),
        InfixOperator::Multiplying(operator) => Some(multiplying_sign(*operator)),
        InfixOperator::Power => Some(b"**"),
    }
}
