// The place where the context of an argument begins, by the form of what comes before it.
ghost use Rattle.std.specs.Prelude.{◌≡◌};
ghost use Rattle.al_overload_values.specs.Prefixes.{is_attribute, may_be_mark};
ghost use Rattle.al_tree.specs.ExpressionViews.{expression_model, part_model};

use al_overload_readings::is_selector;
use al_tree::{Expression, NamePart};

#[tactic(auto, using(al_tree::proofs::ExpressionsMade::part_selector_model, al_tree::proofs::ExpressionsMade::part_arguments_model, al_tree::proofs::ExpressionsMade::part_attribute_model, al_tree::proofs::ExpressionsMade::part_range_attribute_model, al_tree::proofs::ExpressionsMade::part_operand_model))]
fn is_attribute(part: &NamePart) -> bool
    ensures { result ≡ is_attribute (part_model part.now) }
{
    match part {
        NamePart::Attribute(_) => true,
        NamePart::Selector(_) => false,
        NamePart::Arguments(_, _, _) => false,
        NamePart::RangeAttribute => false,
        NamePart::Operand(_) => false,
    }
}

/// Whether an argument after it may be one of a conversion or of Image. For a chain of indexes this is decided by the last part and the
/// selectors before it, so that what each prefix of the chain may be isn't computed.
#[tactic(auto, using(crate::proofs::Marks::longer_may_be, crate::proofs::Marks::prefixed_is_none, crate::proofs::Marks::infix_is_none, crate::proofs::Marks::member_is_none, al_tree::proofs::ExpressionsMade::expression_numeric_model, al_tree::proofs::ExpressionsMade::expression_text_model, al_tree::proofs::ExpressionsMade::expression_name_model, al_tree::proofs::ExpressionsMade::expression_longer_model, al_tree::proofs::ExpressionsMade::expression_prefixed_model, al_tree::proofs::ExpressionsMade::expression_infix_model, al_tree::proofs::ExpressionsMade::expression_member_model, al_tree::proofs::ExpressionsMade::expression_group_model))]
pub(crate) fn may_be_mark(expression: &Expression) -> bool
    ensures { result ≡ may_be_mark (expression_model expression.now) }
{
    let mut rest = expression;
    loop {
        rest = match rest {
            Expression::Name(_) => return true,
            Expression::Longer(longer) => {
                if is_attribute(&longer.part) {
                    return true;
                }
                if !is_selector(&longer.part) {
                    return false;
                }
                &longer.prefix
            }
            Expression::Numeric(_) => return false,
            Expression::Text(_) => return false,
            Expression::Prefixed(_) => return false,
            Expression::Infix(_) => return false,
            Expression::Member(_) => return false,
            Expression::Group(_) => return false,
        };
    }
}
