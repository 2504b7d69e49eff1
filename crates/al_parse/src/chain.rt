// Operands that are joined by operators of one level (ARM 4.4).
ghost use Rattle.std.specs.Prelude.{◌≡◌};
ghost use Rattle.al_tree_grammar.specs.Reading.{begins, first};
ghost use Rattle.al_tree.specs.Lexemes.{lexemes};
ghost use Rattle.al_parse.specs.Chains.{link_rule};

use crate::expr_start::{begins_added, begins_multiplied, begins_operator};
use al_lex::Token;
use al_tree::LogicalOperator;

/// What joins the operands of a chain.
#[derive(Clone, Copy)]
pub(crate) enum Chain {
    /// Multiplying operators, and factors.
    Product,
    /// Adding operators, and terms.
    Sum,
    /// A single logical operator, and relations.
    Logical(LogicalOperator),
}

/// Whether one more operator of the chain comes next, as far as its first word says.
#[tactic(auto, unfolding(al_tree_syntax::specs::Expressions::adding_rule, al_tree_syntax::specs::Expressions::multiplying_rule))]
pub(crate) fn begins_link(source: &[u8], tokens: &[Token], links: Chain) -> bool
    ensures { result ≡ begins (first (link_rule links)) (lexemes source.now tokens.now) }
{
    match links {
        Chain::Product => begins_multiplied(source, tokens),
        Chain::Sum => begins_added(source, tokens),
        Chain::Logical(operator) => begins_operator(source, tokens, operator),
    }
}
