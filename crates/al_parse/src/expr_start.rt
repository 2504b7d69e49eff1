// What the next token begins.
ghost use Rattle.std.specs.Prelude.{◌≡◌};
ghost use Rattle.al_tree_grammar.specs.Reading.{begins, first, mem};
ghost use Rattle.al_tree_syntax.specs.Expressions.{adding_rule, expressions_rule, membership_rule, multiplying_rule, primary_rule, relation_rule, relational_rule, selection_rule};
ghost use Rattle.al_tree_syntax.specs.Notation.{◌∣◌};
ghost use Rattle.al_tree_syntax.specs.Symbols.{number};
ghost use Rattle.al_tree.specs.Lexemes.{lexemes};
ghost use Rattle.al_tree.specs.Symbols.{symbol_model};
ghost use Rattle.al_tree.specs.ExpressionViews.{logical_model};
ghost use Rattle.al_parse.specs.Logical.{after_rule};
ghost use Rattle.al_parse.specs.Names.{goes_on, part_rule};

use crate::expr_step::{is_next, skip};
use al_lex::Token;
use al_tree::{LogicalOperator, Symbol, symbol_of};

/// A primary begins with this symbol.
#[tactic(auto, unfolding(al_tree_syntax::specs::Expressions::identifier_rule, al_tree_syntax::specs::Expressions::name_rule, al_tree_syntax::specs::Expressions::parentheses_rule, al_tree_syntax::specs::Expressions::primary_rule))]
fn opens_primary(symbol: Symbol) -> bool
    ensures { result ≡ mem (number (symbol_model symbol)) (first primary_rule) }
{
    matches!(
        symbol,
        Symbol::Identifier | Symbol::Number | Symbol::StringLiteral | Symbol::LeftParenthesis
    )
}

/// The next token begins a primary.
#[tactic(auto, unfolding(al_tree_syntax::specs::Expressions::identifier_rule, al_tree_syntax::specs::Expressions::name_rule, al_tree_syntax::specs::Expressions::parentheses_rule, al_tree_syntax::specs::Expressions::primary_rule))]
pub(crate) fn begins_primary(source: &[u8], tokens: &[Token]) -> bool
    ensures { result ≡ begins (first primary_rule) (lexemes source.now tokens.now) }
{
    match tokens.split_first() {
        Some((first, _)) => opens_primary(symbol_of(first)),
        None => false,
    }
}

/// A relation, and so an expression, begins with this symbol.
#[tactic(auto, unfolding(al_tree_syntax::specs::Expressions::identifier_rule, al_tree_syntax::specs::Expressions::name_rule, al_tree_syntax::specs::Expressions::parentheses_rule, al_tree_syntax::specs::Expressions::primary_rule, al_tree_syntax::specs::Expressions::factor_rule, al_tree_syntax::specs::Expressions::term_rule, al_tree_syntax::specs::Expressions::simple_expression_rule, al_tree_syntax::specs::Expressions::relation_rule))]
fn opens_relation(symbol: Symbol) -> bool
    ensures { result ≡ mem (number (symbol_model symbol)) (first relation_rule) }
{
    matches!(
        symbol,
        Symbol::Identifier
            | Symbol::Number
            | Symbol::StringLiteral
            | Symbol::LeftParenthesis
            | Symbol::Plus
            | Symbol::Minus
            | Symbol::Abs
            | Symbol::Not
    )
}

/// The next token begins a relation, and so an expression.
#[tactic(auto, unfolding(al_tree_syntax::specs::Expressions::identifier_rule, al_tree_syntax::specs::Expressions::name_rule, al_tree_syntax::specs::Expressions::parentheses_rule, al_tree_syntax::specs::Expressions::primary_rule, al_tree_syntax::specs::Expressions::factor_rule, al_tree_syntax::specs::Expressions::term_rule, al_tree_syntax::specs::Expressions::simple_expression_rule, al_tree_syntax::specs::Expressions::relation_rule))]
pub(crate) fn begins_relation(source: &[u8], tokens: &[Token]) -> bool
    ensures { result ≡ begins (first relation_rule) (lexemes source.now tokens.now) }
{
    match tokens.split_first() {
        Some((first, _)) => opens_relation(symbol_of(first)),
        None => false,
    }
}

/// The next token begins an expression.
#[tactic(auto, unfolding(al_tree_syntax::specs::Expressions::identifier_rule, al_tree_syntax::specs::Expressions::name_rule, al_tree_syntax::specs::Expressions::parentheses_rule, al_tree_syntax::specs::Expressions::primary_rule, al_tree_syntax::specs::Expressions::factor_rule, al_tree_syntax::specs::Expressions::term_rule, al_tree_syntax::specs::Expressions::simple_expression_rule, al_tree_syntax::specs::Expressions::relation_rule, al_tree_syntax::specs::Expressions::expression_rule, al_tree_syntax::specs::Expressions::expressions_rule))]
pub(crate) fn begins_expressions(source: &[u8], tokens: &[Token]) -> bool
    ensures { result ≡ begins (first expressions_rule) (lexemes source.now tokens.now) }
{
    match tokens.split_first() {
        Some((first, _)) => opens_relation(symbol_of(first)),
        None => false,
    }
}

/// Whether a selector, or what is between parentheses after a name, begins with this symbol.
#[tactic(auto, unfolding(al_tree_syntax::specs::Expressions::selection_rule))]
fn opens_selection(symbol: Symbol) -> bool
    ensures { result ≡ mem (number (symbol_model symbol)) (first selection_rule) }
{
    matches!(symbol, Symbol::Dot | Symbol::LeftParenthesis)
}

/// Whether the next token begins a selector, or what is between parentheses after a name.
#[tactic(auto, unfolding(al_tree_syntax::specs::Expressions::selection_rule))]
pub(crate) fn begins_selection(source: &[u8], tokens: &[Token]) -> bool
    ensures { result ≡ begins (first selection_rule) (lexemes source.now tokens.now) }
{
    match tokens.split_first() {
        Some((first, _)) => opens_selection(symbol_of(first)),
        None => false,
    }
}

/// A part of a name begins with this symbol.
#[tactic(auto, unfolding(crate::specs::Names::part_rule))]
fn opens_part(symbol: Symbol) -> bool
    ensures { result ≡ mem (number (symbol_model symbol)) (first part_rule) }
{
    matches!(
        symbol,
        Symbol::Dot | Symbol::LeftParenthesis | Symbol::Apostrophe
    )
}

/// The next token begins a part of a name.
#[tactic(auto, unfolding(crate::specs::Names::part_rule))]
pub(crate) fn begins_part(source: &[u8], tokens: &[Token]) -> bool
    ensures { result ≡ begins (first part_rule) (lexemes source.now tokens.now) }
{
    match tokens.split_first() {
        Some((first, _)) => opens_part(symbol_of(first)),
        None => false,
    }
}

/// Whether another factor of a term comes after this symbol.
#[tactic(auto, unfolding(al_tree_syntax::specs::Expressions::multiplying_rule))]
fn opens_multiplied(symbol: Symbol) -> bool
    ensures { result ≡ mem (number (symbol_model symbol)) (first multiplying_rule) }
{
    matches!(
        symbol,
        Symbol::Asterisk | Symbol::Slash | Symbol::Mod | Symbol::Rem
    )
}

/// The next token is a multiplying operator.
#[tactic(auto, unfolding(al_tree_syntax::specs::Expressions::multiplying_rule))]
pub(crate) fn begins_multiplied(source: &[u8], tokens: &[Token]) -> bool
    ensures { result ≡ begins (first multiplying_rule) (lexemes source.now tokens.now) }
{
    match tokens.split_first() {
        Some((first, _)) => opens_multiplied(symbol_of(first)),
        None => false,
    }
}

/// Whether another term of a simple expression comes after this symbol.
#[tactic(auto, unfolding(al_tree_syntax::specs::Expressions::adding_rule))]
fn opens_added(symbol: Symbol) -> bool
    ensures { result ≡ mem (number (symbol_model symbol)) (first adding_rule) }
{
    matches!(symbol, Symbol::Plus | Symbol::Minus | Symbol::Ampersand)
}

/// The next token is an adding operator.
#[tactic(auto, unfolding(al_tree_syntax::specs::Expressions::adding_rule))]
pub(crate) fn begins_added(source: &[u8], tokens: &[Token]) -> bool
    ensures { result ≡ begins (first adding_rule) (lexemes source.now tokens.now) }
{
    match tokens.split_first() {
        Some((first, _)) => opens_added(symbol_of(first)),
        None => false,
    }
}

/// Whether the right side of a comparison comes after this symbol.
#[tactic(auto, unfolding(al_tree_syntax::specs::Expressions::relational_rule))]
fn opens_compared(symbol: Symbol) -> bool
    ensures { result ≡ mem (number (symbol_model symbol)) (first relational_rule) }
{
    matches!(
        symbol,
        Symbol::Equal
            | Symbol::NotEqual
            | Symbol::Less
            | Symbol::LessOrEqual
            | Symbol::Greater
            | Symbol::GreaterOrEqual
    )
}

/// The next token is a relational operator.
#[tactic(auto, unfolding(al_tree_syntax::specs::Expressions::relational_rule))]
pub(crate) fn begins_compared(source: &[u8], tokens: &[Token]) -> bool
    ensures { result ≡ begins (first relational_rule) (lexemes source.now tokens.now) }
{
    match tokens.split_first() {
        Some((first, _)) => opens_compared(symbol_of(first)),
        None => false,
    }
}

/// What makes more than a simple expression of a relation begins with this symbol.
#[tactic(auto, unfolding(al_tree_syntax::specs::Expressions::relational_rule, al_tree_syntax::specs::Expressions::membership_rule))]
fn opens_related(symbol: Symbol) -> bool
    ensures { result ≡ mem (number (symbol_model symbol)) (first (relational_rule ∣ membership_rule)) }
{
    matches!(
        symbol,
        Symbol::Equal
            | Symbol::NotEqual
            | Symbol::Less
            | Symbol::LessOrEqual
            | Symbol::Greater
            | Symbol::GreaterOrEqual
            | Symbol::Not
            | Symbol::In
    )
}

/// The next token makes more than a simple expression of a relation.
#[tactic(auto, unfolding(al_tree_syntax::specs::Expressions::relational_rule, al_tree_syntax::specs::Expressions::membership_rule))]
pub(crate) fn begins_related(source: &[u8], tokens: &[Token]) -> bool
    ensures { result ≡ begins (first (relational_rule ∣ membership_rule)) (lexemes source.now tokens.now) }
{
    match tokens.split_first() {
        Some((first, _)) => opens_related(symbol_of(first)),
        None => false,
    }
}

/// Whether a name goes on here: with a selector, with what is between parentheses, or with an attribute. After a `'` it is the next
/// token that distinguishes an attribute from a qualified expression.
#[tactic(auto, unfolding(al_tree_syntax::specs::Expressions::identifier_rule, al_tree_syntax::specs::Expressions::designator_rule))]
pub(crate) fn goes_on(source: &[u8], tokens: &[Token]) -> bool
    ensures { result ≡ goes_on (lexemes source.now tokens.now) }
{
    if begins_selection(source, tokens) {
        return true;
    }
    match skip(source, tokens, Symbol::Apostrophe) {
        Some(rest) => {
            is_next(source, rest, Symbol::Identifier) || is_next(source, rest, Symbol::Range)
        }
        None => false,
    }
}

/// Whether one more relation comes here after this operator, as far as the operator's first word says.
pub(crate) fn begins_operator(source: &[u8], tokens: &[Token], operator: LogicalOperator) -> bool
    ensures { result ≡ begins (first (after_rule (logical_model operator))) (lexemes source.now tokens.now) }
{
    match operator {
        LogicalOperator::And | LogicalOperator::AndThen => is_next(source, tokens, Symbol::And),
        LogicalOperator::Or | LogicalOperator::OrElse => is_next(source, tokens, Symbol::Or),
        LogicalOperator::Xor => is_next(source, tokens, Symbol::Xor),
    }
}
