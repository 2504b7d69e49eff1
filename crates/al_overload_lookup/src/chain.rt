// Expressions that begin with an operand or a name: `A - B + C` has `A - B` at the left of its `+`, and `A (1).C` has `A (1)` before its
// dot.
ghost use Rattle.std.specs.Prelude.{◌≡◌, ◌++◌, IfOk, IfSome, MatchOption, false};
ghost use Rattle.al_overload_lookup.specs.Keys.{key_of};
ghost use Rattle.al_overload_lookup.specs.Chains.{AreWithin, IsBelow, IsLeft, chained_names, leans, link_key, link_names};
ghost use Rattle.al_overload_lookup.specs.TextNames.{names_in};
ghost use Rattle.al_tree.specs.ExpressionViews.{expression_model};

use al_base::NoMemory;
use al_tree::{Expression, Infix, Longer, Member};
use std::alloc::Global;

/// What comes after the left operand or the prefix of an expression.
#[derive(Drop)]
pub(crate) enum Link<'a> {
    /// The last part of a name.
    Part(&'a Longer),
    /// An operator and its right operand.
    Operator(&'a Infix),
    /// What a value is tested against.
    Test(&'a Member),
}

/// An expression: what it begins with, and what comes after that. The last link in source order comes first.
#[derive(Drop)]
pub(crate) struct Chain<'a> {
    pub(crate) first: &'a Expression,
    pub(crate) links: Vec<Link<'a>>,
}

/// The last link of an expression, and what comes before it.
#[tactic(auto, using(crate::proofs::Chained::longer_split, crate::proofs::NameKeys::longer_key, crate::proofs::NameKeys::infix_key, crate::proofs::NameKeys::member_key, crate::proofs::Chained::infix_split, crate::proofs::Chained::member_split, crate::proofs::Chained::prefixed_leans, al_tree::proofs::ExpressionsMade::expression_numeric_model, al_tree::proofs::ExpressionsMade::expression_text_model, al_tree::proofs::ExpressionsMade::expression_name_model, al_tree::proofs::ExpressionsMade::expression_longer_model, al_tree::proofs::ExpressionsMade::expression_prefixed_model, al_tree::proofs::ExpressionsMade::expression_infix_model, al_tree::proofs::ExpressionsMade::expression_member_model, al_tree::proofs::ExpressionsMade::expression_group_model))]
fn last_link(expression: &Expression) -> Option<(Link<'_>, &Expression)>
    ensures names { MatchOption result (leans (expression_model expression.now) ≡ false) (λ l. names_in (expression_model expression.now) ≡ names_in (expression_model l.1.now) ++ link_names (key_of (expression_model l.1.now)) l.0) }
    ensures key { IfSome result (λ l. key_of (expression_model expression.now) ≡ link_key (key_of (expression_model l.1.now)) l.0) }
    ensures below { IfSome result (λ l. IsBelow expression.now l.0 × IsLeft expression.now l.1.now) }
{
    match expression {
        Expression::Longer(longer) => Some((Link::Part(longer), &longer.prefix)),
        Expression::Infix(infix) => Some((Link::Operator(infix), &infix.left)),
        Expression::Member(member) => Some((Link::Test(member), &member.left)),
        Expression::Numeric(_) => None,
        Expression::Text(_) => None,
        Expression::Name(_) => None,
        Expression::Prefixed(_) => None,
        Expression::Group(_) => None,
    }
}

/// The links of an expression.
pub(crate) fn chain_of(alloc: Global, expression: &Expression) -> Result<Chain<'_>, NoMemory>
    ensures names { IfOk result (λ c. names_in (expression_model c.first.now) ++ chained_names (key_of (expression_model c.first.now)) c.links.items ≡ names_in (expression_model expression.now)) }
    ensures within { IfOk result (λ c. AreWithin expression.now c.first.now c.links.items) }
    ensures first { IfOk result (λ c. leans (expression_model c.first.now) ≡ false) }
{
    let mut links = Vec::new(alloc);
    let mut rest = expression;
    while let Some((link, left)) = last_link(rest) {
        links.push(link)?;
        rest = left;
    }
    Ok(Chain { first: rest, links })
}
