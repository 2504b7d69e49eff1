// The places where expressions begin.
ghost use Rattle.std.specs.Prelude.{◌≡◌};
ghost use Rattle.al_overload_lookup.specs.Places.{first_place, group_place, place_of, prefix_place};
ghost use Rattle.al_tree.specs.ExpressionViews.{expression_model, group_model, prefix_model};

use al_base::Place;
use al_tree::{Expression, Group, PrefixOperator, Sign};

/// The place of a prefix operator.
pub fn prefix_place(operator: &PrefixOperator) -> Place
    ensures { result ≡ prefix_place (prefix_model operator.now) }
{
    match operator {
        PrefixOperator::Sign(sign) => match sign {
            Sign::Plus(place) => *place,
            Sign::Minus(place) => *place,
        },
        PrefixOperator::Absolute(place) => *place,
        PrefixOperator::Negation(place) => *place,
    }
}

/// The place of the left parenthesis.
#[tactic(auto, using(al_tree::proofs::ExpressionsMade::group_positional_model, al_tree::proofs::ExpressionsMade::group_others_aggregate_model))]
pub fn group_place(group: &Group) -> Place
    ensures { result ≡ group_place (group_model group.now) }
{
    match group {
        Group::Positional(opening, _, _) => *opening,
        Group::OthersAggregate(opening, _) => *opening,
    }
}

/// The first token of an expression.
#[tactic(auto, using(crate::proofs::FirstPlaces::longer_place, crate::proofs::FirstPlaces::prefixed_place, crate::proofs::FirstPlaces::infix_place, crate::proofs::FirstPlaces::member_place, al_tree::proofs::ExpressionsMade::expression_numeric_model, al_tree::proofs::ExpressionsMade::expression_text_model, al_tree::proofs::ExpressionsMade::expression_name_model, al_tree::proofs::ExpressionsMade::expression_longer_model, al_tree::proofs::ExpressionsMade::expression_prefixed_model, al_tree::proofs::ExpressionsMade::expression_infix_model, al_tree::proofs::ExpressionsMade::expression_member_model, al_tree::proofs::ExpressionsMade::expression_group_model))]
pub fn first_place(expression: &Expression) -> Place
    ensures { result ≡ first_place (expression_model expression.now) }
{
    let mut rest = expression;
    loop {
        rest = match rest {
            Expression::Longer(longer) => &longer.prefix,
            Expression::Infix(infix) => &infix.left,
            Expression::Member(member) => &member.left,
            Expression::Numeric(literal) => return literal.place,
            Expression::Text(literal) => return literal.place,
            Expression::Name(identifier) => return identifier.place,
            Expression::Prefixed(prefixed) => return prefix_place(&prefixed.operator),
            Expression::Group(group) => return group_place(group),
        };
    }
}
