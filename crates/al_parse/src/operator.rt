// Operators.
ghost use Rattle.std.specs.Prelude.{◌∷◌, [], option_map};
ghost use Rattle.al_tree_grammar.specs.Grammar.Rule.{Opt};
ghost use Rattle.al_tree_syntax.specs.ExpressionTrees.{adding_token, multiplying_token, not_tokens, relational_token, sign_tokens};
ghost use Rattle.al_tree_syntax.specs.Expressions.{adding_rule, multiplying_rule, relational_rule};
ghost use Rattle.al_tree_syntax.specs.Notation.{◌∣◌, any};
ghost use Rattle.al_tree_syntax.specs.Symbols.Symbol.{Minus, Not, Plus};
ghost use Rattle.al_tree.specs.ExpressionViews.{adding_model, logical_model, multiplying_model, relational_model, sign_model};
ghost use Rattle.al_tree.specs.Lexemes.{lexemes, place_label};
ghost use Rattle.al_parse.specs.Logical.{Decides};
ghost use Rattle.al_parse.specs.Parses.{Gives, Took, reading};

use crate::expr_start::begins_relation;
use crate::expr_step::{expect, skip, skip_at};
use crate::stop::Stop;
use al_base::Place;
use al_lex::Token;
use al_tree::{
    AddingOperator, LogicalOperator, MultiplyingOperator, RelationalOperator, Sign, Symbol,
};

/// A multiplying operator (ARM 4.5.5).
#[tactic(auto, unfolding(al_tree_syntax::specs::Expressions::multiplying_rule))]
pub(crate) fn multiplying_operator<'a>(
    source: &[u8],
    tokens: &'a [Token],
) -> Result<(MultiplyingOperator, &'a [Token]), Stop>
    ensures { Gives (λ x. multiplying_token (multiplying_model x.0) ∷ []) (λ x. lexemes source.now x.1.now) result (lexemes source.now tokens.now) (reading 0 multiplying_rule (lexemes source.now tokens.now)) }
{
    if let Some(rest) = skip(source, tokens, Symbol::Asterisk) {
        return Ok((MultiplyingOperator::Times, rest));
    }
    if let Some(rest) = skip(source, tokens, Symbol::Slash) {
        return Ok((MultiplyingOperator::Divide, rest));
    }
    if let Some(rest) = skip(source, tokens, Symbol::Mod) {
        return Ok((MultiplyingOperator::Mod, rest));
    }
    let rest = expect(source, tokens, Symbol::Rem)?;
    Ok((MultiplyingOperator::Rem, rest))
}

/// A relational operator (ARM 4.5.2).
#[tactic(auto, unfolding(al_tree_syntax::specs::Expressions::relational_rule))]
pub(crate) fn relational_operator<'a>(
    source: &[u8],
    tokens: &'a [Token],
) -> Result<(RelationalOperator, &'a [Token]), Stop>
    ensures { Gives (λ x. relational_token (relational_model x.0) ∷ []) (λ x. lexemes source.now x.1.now) result (lexemes source.now tokens.now) (reading 0 relational_rule (lexemes source.now tokens.now)) }
{
    if let Some(rest) = skip(source, tokens, Symbol::Equal) {
        return Ok((RelationalOperator::Equal, rest));
    }
    if let Some(rest) = skip(source, tokens, Symbol::NotEqual) {
        return Ok((RelationalOperator::NotEqual, rest));
    }
    if let Some(rest) = skip(source, tokens, Symbol::Less) {
        return Ok((RelationalOperator::Less, rest));
    }
    if let Some(rest) = skip(source, tokens, Symbol::LessOrEqual) {
        return Ok((RelationalOperator::LessOrEqual, rest));
    }
    if let Some(rest) = skip(source, tokens, Symbol::Greater) {
        return Ok((RelationalOperator::Greater, rest));
    }
    let rest = expect(source, tokens, Symbol::GreaterOrEqual)?;
    Ok((RelationalOperator::GreaterOrEqual, rest))
}

/// An adding operator (ARM 4.5.3).
#[tactic(auto, unfolding(al_tree_syntax::specs::Expressions::adding_rule))]
pub(crate) fn adding_operator<'a>(
    source: &[u8],
    tokens: &'a [Token],
) -> Result<(AddingOperator, &'a [Token]), Stop>
    ensures { Gives (λ x. adding_token (adding_model x.0) ∷ []) (λ x. lexemes source.now x.1.now) result (lexemes source.now tokens.now) (reading 0 adding_rule (lexemes source.now tokens.now)) }
{
    if let Some((place, rest)) = skip_at(source, tokens, Symbol::Plus) {
        return Ok((AddingOperator::Plus(place), rest));
    }
    if let Some((place, rest)) = skip_at(source, tokens, Symbol::Minus) {
        return Ok((AddingOperator::Minus(place), rest));
    }
    let rest = expect(source, tokens, Symbol::Ampersand)?;
    Ok((AddingOperator::Concatenate, rest))
}

/// The `not` before `in`, if there is one (ARM 4.4(3)).
pub(crate) fn negation<'a>(source: &[u8], tokens: &'a [Token]) -> (Option<Place>, &'a [Token])
    ensures { Took (not_tokens (option_map place_label result.0)) (lexemes source.now result.1.now) (lexemes source.now tokens.now) (reading 0 (Opt (any Not)) (lexemes source.now tokens.now)) }
{
    match skip_at(source, tokens, Symbol::Not) {
        Some((place, rest)) => (Some(place), rest),
        None => (None, tokens),
    }
}

/// The sign before a simple expression, if there is one (ARM 4.5.4).
pub(crate) fn sign<'a>(source: &[u8], tokens: &'a [Token]) -> (Option<Sign>, &'a [Token])
    ensures { Took (sign_tokens (sign_model result.0)) (lexemes source.now result.1.now) (lexemes source.now tokens.now) (reading 0 (Opt (any Plus ∣ any Minus)) (lexemes source.now tokens.now)) }
{
    if let Some((place, rest)) = skip_at(source, tokens, Symbol::Plus) {
        return (Some(Sign::Plus(place)), rest);
    }
    match skip_at(source, tokens, Symbol::Minus) {
        Some((place, rest)) => (Some(Sign::Minus(place)), rest),
        None => (None, tokens),
    }
}

/// The logical operator after the first relation of an expression, if there is one (ARM 4.4(2)). `and` and `and then` differ by the
/// token after the `and`, and so do `or` and `or else`.
#[tactic(auto, unfolding(crate::specs::Logical::logical_rule, al_tree_syntax::specs::Expressions::identifier_rule, al_tree_syntax::specs::Expressions::name_rule, al_tree_syntax::specs::Expressions::parentheses_rule, al_tree_syntax::specs::Expressions::primary_rule, al_tree_syntax::specs::Expressions::factor_rule, al_tree_syntax::specs::Expressions::term_rule, al_tree_syntax::specs::Expressions::simple_expression_rule, al_tree_syntax::specs::Expressions::relation_rule, al_tree_syntax::specs::Expressions::and_rule, al_tree_syntax::specs::Expressions::or_rule, al_tree_syntax::specs::Expressions::xor_rule))]
pub(crate) fn logical_operator<'a>(
    source: &[u8],
    tokens: &'a [Token],
) -> Result<Option<(LogicalOperator, &'a [Token])>, Stop>
    ensures { Decides (λ x. logical_model x.0) (λ x. lexemes source.now x.1.now) result (lexemes source.now tokens.now) }
{
    if let Some(rest) = skip(source, tokens, Symbol::And) {
        if begins_relation(source, rest) {
            return Ok(Some((LogicalOperator::And, rest)));
        }
        let rest = expect(source, rest, Symbol::Then)?;
        return Ok(Some((LogicalOperator::AndThen, rest)));
    }
    if let Some(rest) = skip(source, tokens, Symbol::Or) {
        if begins_relation(source, rest) {
            return Ok(Some((LogicalOperator::Or, rest)));
        }
        let rest = expect(source, rest, Symbol::Else)?;
        return Ok(Some((LogicalOperator::OrElse, rest)));
    }
    match skip(source, tokens, Symbol::Xor) {
        Some(rest) => Ok(Some((LogicalOperator::Xor, rest))),
        None => Ok(None),
    }
}
