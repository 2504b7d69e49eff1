// Names and expressions (ARM 4.1 to 4.5). They nest in one another, in parentheses alone.
ghost use Rattle.std.specs.Prelude.{◌≡◌, ◌∷◌, ◌++◌, IfOk, false, option_map, true};
ghost use Rattle.al_tree_grammar.specs.Grammar.{each};
ghost use Rattle.al_tree_grammar.specs.Grammar.Rule.{Many, One, Opt, Seq};
ghost use Rattle.al_tree_syntax.specs.Constructs.Construct.{Arguments};
ghost use Rattle.al_tree_syntax.specs.ExpressionTrees.{expression_tokens, group_tokens, logical_tokens, name_tokens, not_tokens, operator_tokens, part_rank, part_tokens, simple_tokens, stands};
ghost use Rattle.al_tree_syntax.specs.ExpressionTrees.Level.{FactorLevel, NameLevel, PrimaryLevel, RelationLevel, SimpleLevel, TermLevel};
ghost use Rattle.al_tree_syntax.specs.Expressions.{expression_rule, expressions_rule, factor_rule, membership_rule, name_rest_rule, name_rule, parentheses_rule, primary_rule, relation_rule, simple_expression_rule, term_rule};
ghost use Rattle.al_tree_syntax.specs.Notation.{◌⨾◌, opens_at, the};
ghost use Rattle.al_tree_syntax.specs.Symbols.{Symbol as symbols, is_labelled, number};
ghost use Rattle.al_tree_syntax.specs.Symbols.Symbol.{Comma as comma, DoubleDot, In as within, LeftParenthesis};
ghost use Rattle.al_tree_syntax.specs.Words.{labelled, word};
ghost use Rattle.al_tree.specs.ExpressionViews.{bound_tokens, expression_model, group_model, logical_model, operator_model, part_model};
ghost use Rattle.al_tree.specs.Lexemes.{identifier_label, lexemes, place_label};
ghost use Rattle.al_tree.specs.Symbols.{symbol_model};
ghost use Rattle.al_parse.specs.Chains.{Joins, level_of, link_rule};
ghost use Rattle.al_parse.specs.Logical.{after_rule};
ghost use Rattle.al_parse.specs.Names.{GivesParts, part_rule};
ghost use Rattle.al_parse.specs.Parses.{Behind, Gives, reading};

use crate::chain::{Chain, begins_link};
use crate::expr_start::{
    begins_compared, begins_expressions, begins_part, begins_primary, begins_related, goes_on,
};
use crate::expr_step::{
    enter_at, expect, identifier, is_next, number, skip, skip_at, string, word_at,
};
use crate::keep::{append, boxed, signed};
use crate::operator::{
    adding_operator, logical_operator, multiplying_operator, negation, relational_operator, sign,
};
use crate::read_or_drop;
use crate::stop::Stop;
use al_base::Place;
use al_lex::Token;
use al_tree::{
    Expression, Group, Identifier, Infix, InfixOperator, LogicalOperator, Longer, Member, NamePart,
    PrefixOperator, Prefixed, Symbol,
};
use std::alloc::Global;

/// Relations joined by one logical operator (ARM 4.4(2)).
///
/// # Errors
///
/// `Fault` with the number of tokens that are left where no sentence goes on; `Memory` if the allocator refuses memory.
#[cycle(expression)]
#[tactic(auto, unfolding(al_tree_syntax::specs::Expressions::expression_rule, crate::specs::Logical::logical_rule), using(crate::proofs::Levels::relation_in_chain))]
pub fn expression<'a>(
    alloc: Global,
    source: &[u8],
    depth: u32,
    tokens: &'a [Token],
) -> Result<(Expression, &'a [Token]), Stop>
    ensures { Gives (λ x. expression_tokens (expression_model x.0)) (λ x. lexemes source.now x.1.now) result (lexemes source.now tokens.now) (reading depth expression_rule (lexemes source.now tokens.now)) }
{
    let (first, rest) = relation(alloc, source, depth, tokens)?;
    match read_or_drop!(logical_operator(source, rest), first) {
        None => Ok((first, rest)),
        Some((operator, rest)) => {
            let (second, rest) = read_or_drop!(relation(alloc, source, depth, rest), first);
            let joined = Infix::new(first, InfixOperator::Logical(operator), second);
            let joined = Expression::infix(boxed(alloc, joined)?);
            let (whole, rest) = chain(
                alloc,
                source,
                depth,
                joined,
                rest,
                Chain::Logical(operator),
            )?;
            Ok((whole, rest))
        }
    }
}

/// What is at the left with the operators and operands of the chain that come after it.
#[cycle(expression)]
fn chain<'a>(
    alloc: Global,
    source: &[u8],
    depth: u32,
    left: Expression,
    tokens: &'a [Token],
    links: Chain,
) -> Result<(Expression, &'a [Token]), Stop>
    requires { stands (level_of links) (expression_model left) ≡ true }
    ensures read { Behind (expression_tokens (expression_model left)) (λ x. expression_tokens (expression_model x.0)) (λ x. lexemes source.now x.1.now) result (lexemes source.now tokens.now) (reading depth (Many (link_rule links)) (lexemes source.now tokens.now)) }
    ensures level { IfOk result (λ x. stands (level_of links) (expression_model x.0) ≡ true) }
{
    let mut whole = left;
    let mut rest = tokens;
    'more: while begins_link(source, rest, links) {
        let (operator, right, after) = read_or_drop!(
            link(alloc, source, depth, rest, links),
            whole
        );
        let operation = Infix::new(whole, operator, right);
        whole = Expression::infix(boxed(alloc, operation)?);
        rest = after;
    }
    Ok((whole, rest))
}

/// An operator of the chain, and its right operand.
#[cycle(expression)]
#[tactic(auto, unfolding(al_tree_syntax::specs::Expressions::adding_rule, al_tree_syntax::specs::Expressions::multiplying_rule), using(crate::proofs::Levels::product_joins, crate::proofs::Levels::sum_joins, crate::proofs::Levels::logical_joins))]
fn link<'a>(
    alloc: Global,
    source: &[u8],
    depth: u32,
    tokens: &'a [Token],
    links: Chain,
) -> Result<(InfixOperator, Expression, &'a [Token]), Stop>
    ensures read { Gives (λ x. operator_tokens (operator_model x.0) ++ expression_tokens (expression_model x.1)) (λ x. lexemes source.now x.2.now) result (lexemes source.now tokens.now) (reading depth (link_rule links) (lexemes source.now tokens.now)) }
    ensures level { IfOk result (λ x. Joins (level_of links) (operator_model x.0) (expression_model x.1)) }
{
    match links {
        Chain::Product => {
            let (operator, rest) = multiplying_operator(source, tokens)?;
            let (right, rest) = factor(alloc, source, depth, rest)?;
            Ok((InfixOperator::Multiplying(operator), right, rest))
        }
        Chain::Sum => {
            let (operator, rest) = adding_operator(source, tokens)?;
            let (right, rest) = term(alloc, source, depth, rest)?;
            Ok((InfixOperator::Adding(operator), right, rest))
        }
        Chain::Logical(operator) => {
            let (right, rest) = after_operator(alloc, source, depth, tokens, operator)?;
            Ok((InfixOperator::Logical(operator), right, rest))
        }
    }
}

/// A relation after the operator.
#[cycle(expression)]
fn after_operator<'a>(
    alloc: Global,
    source: &[u8],
    depth: u32,
    tokens: &'a [Token],
    operator: LogicalOperator,
) -> Result<(Expression, &'a [Token]), Stop>
    ensures read { Gives (λ x. logical_tokens (logical_model operator) ++ expression_tokens (expression_model x.0)) (λ x. lexemes source.now x.1.now) result (lexemes source.now tokens.now) (reading depth (after_rule (logical_model operator)) (lexemes source.now tokens.now)) }
    ensures level { IfOk result (λ x. stands RelationLevel (expression_model x.0) ≡ true) }
{
    match operator {
        LogicalOperator::And => after_word(alloc, source, depth, tokens, Symbol::And),
        LogicalOperator::AndThen => after_words(
            alloc,
            source,
            depth,
            tokens,
            Symbol::And,
            Symbol::Then,
        ),
        LogicalOperator::Or => after_word(alloc, source, depth, tokens, Symbol::Or),
        LogicalOperator::OrElse => after_words(
            alloc,
            source,
            depth,
            tokens,
            Symbol::Or,
            Symbol::Else,
        ),
        LogicalOperator::Xor => after_word(alloc, source, depth, tokens, Symbol::Xor),
    }
}

/// A relation after two reserved words.
#[cycle(expression)]
fn after_words<'a>(
    alloc: Global,
    source: &[u8],
    depth: u32,
    tokens: &'a [Token],
    first: Symbol,
    second: Symbol,
) -> Result<(Expression, &'a [Token]), Stop>
    requires first { is_labelled (symbol_model first) ≡ false }
    requires second { is_labelled (symbol_model second) ≡ false }
    ensures read { Gives (λ x. word (symbol_model first) ∷ word (symbol_model second) ∷ expression_tokens (expression_model x.0)) (λ x. lexemes source.now x.1.now) result (lexemes source.now tokens.now) (reading depth (Seq (One (number (symbol_model first))) (Seq (One (number (symbol_model second))) relation_rule)) (lexemes source.now tokens.now)) }
    ensures level { IfOk result (λ x. stands RelationLevel (expression_model x.0) ≡ true) }
{
    let rest = expect(source, tokens, first)?;
    after_word(alloc, source, depth, rest, second)
}

/// A relation after a reserved word.
#[cycle(expression)]
fn after_word<'a>(
    alloc: Global,
    source: &[u8],
    depth: u32,
    tokens: &'a [Token],
    symbol: Symbol,
) -> Result<(Expression, &'a [Token]), Stop>
    requires { is_labelled (symbol_model symbol) ≡ false }
    ensures read { Gives (λ x. word (symbol_model symbol) ∷ expression_tokens (expression_model x.0)) (λ x. lexemes source.now x.1.now) result (lexemes source.now tokens.now) (reading depth (Seq (One (number (symbol_model symbol))) relation_rule) (lexemes source.now tokens.now)) }
    ensures level { IfOk result (λ x. stands RelationLevel (expression_model x.0) ≡ true) }
{
    let rest = expect(source, tokens, symbol)?;
    let (right, rest) = relation(alloc, source, depth, rest)?;
    Ok((right, rest))
}

/// A simple expression, a comparison or a membership test (ARM 4.4(3)).
#[cycle(expression)]
#[tactic(auto, unfolding(al_tree_syntax::specs::Expressions::relation_rule, al_tree_syntax::specs::Expressions::relational_rule, al_tree_syntax::specs::Expressions::membership_rule), using(crate::proofs::Levels::simple_is_relation))]
fn relation<'a>(
    alloc: Global,
    source: &[u8],
    depth: u32,
    tokens: &'a [Token],
) -> Result<(Expression, &'a [Token]), Stop>
    ensures read { Gives (λ x. expression_tokens (expression_model x.0)) (λ x. lexemes source.now x.1.now) result (lexemes source.now tokens.now) (reading depth relation_rule (lexemes source.now tokens.now)) }
    ensures level { IfOk result (λ x. stands RelationLevel (expression_model x.0) ≡ true) }
{
    let (left, rest) = simple(alloc, source, depth, tokens)?;
    if !begins_related(source, rest) {
        return Ok((left, rest));
    }
    if begins_compared(source, rest) {
        let (operator, rest) = read_or_drop!(relational_operator(source, rest), left);
        let (right, rest) = read_or_drop!(simple(alloc, source, depth, rest), left);
        let comparison = Infix::new(left, InfixOperator::Relational(operator), right);
        return Ok((Expression::infix(boxed(alloc, comparison)?), rest));
    }
    let (not, low, high, rest) = read_or_drop!(membership(alloc, source, depth, rest), left);
    let member = Member::new(left, not, low, high);
    Ok((Expression::member(boxed(alloc, member)?), rest))
}

/// What a membership test has after its left side: its `not`, and a subtype or both bounds of a range.
#[cycle(expression)]
#[tactic(auto, unfolding(al_tree_syntax::specs::Expressions::membership_rule))]
fn membership<'a>(
    alloc: Global,
    source: &[u8],
    depth: u32,
    tokens: &'a [Token],
) -> Result<(Option<Place>, Expression, Option<Expression>, &'a [Token]), Stop>
    ensures read { Gives (λ x. not_tokens (option_map place_label x.0) ++ word within ∷ (expression_tokens (expression_model x.1) ++ bound_tokens (option_map expression_model x.2))) (λ x. lexemes source.now x.3.now) result (lexemes source.now tokens.now) (reading depth membership_rule (lexemes source.now tokens.now)) }
    ensures level { IfOk result (λ x. stands SimpleLevel (expression_model x.1) ≡ true) }
{
    let (not, rest) = negation(source, tokens);
    let rest = expect(source, rest, Symbol::In)?;
    let (low, rest) = simple(alloc, source, depth, rest)?;
    let (high, rest) = read_or_drop!(upper_bound(alloc, source, depth, rest), low);
    Ok((not, low, high, rest))
}

/// The bound of a range after `..`, if there is one.
#[cycle(expression)]
fn upper_bound<'a>(
    alloc: Global,
    source: &[u8],
    depth: u32,
    tokens: &'a [Token],
) -> Result<(Option<Expression>, &'a [Token]), Stop>
    ensures { Gives (λ x. bound_tokens (option_map expression_model x.0)) (λ x. lexemes source.now x.1.now) result (lexemes source.now tokens.now) (reading depth (Opt (the DoubleDot ⨾ simple_expression_rule)) (lexemes source.now tokens.now)) }
{
    match skip(source, tokens, Symbol::DoubleDot) {
        None => Ok((None, tokens)),
        Some(rest) => {
            let (bound, rest) = simple_expression(alloc, source, depth, rest)?;
            Ok((Some(bound), rest))
        }
    }
}

/// Terms with adding operators between them, perhaps with a sign before the first (ARM 4.4(4)).
///
/// # Errors
///
/// `Fault` with the number of tokens that are left where no sentence goes on; `Memory` if the allocator refuses memory.
#[cycle(expression)]
#[tactic(auto, using(crate::proofs::Levels::stands_there))]
pub fn simple_expression<'a>(
    alloc: Global,
    source: &[u8],
    depth: u32,
    tokens: &'a [Token],
) -> Result<(Expression, &'a [Token]), Stop>
    ensures { Gives (λ x. simple_tokens (expression_model x.0)) (λ x. lexemes source.now x.1.now) result (lexemes source.now tokens.now) (reading depth simple_expression_rule (lexemes source.now tokens.now)) }
{
    let (whole, rest) = simple(alloc, source, depth, tokens)?;
    Ok((whole, rest))
}

/// Reads a simple expression.
#[cycle(expression)]
#[tactic(auto, unfolding(al_tree_syntax::specs::Expressions::simple_expression_rule))]
fn simple<'a>(
    alloc: Global,
    source: &[u8],
    depth: u32,
    tokens: &'a [Token],
) -> Result<(Expression, &'a [Token]), Stop>
    ensures read { Gives (λ x. expression_tokens (expression_model x.0)) (λ x. lexemes source.now x.1.now) result (lexemes source.now tokens.now) (reading depth simple_expression_rule (lexemes source.now tokens.now)) }
    ensures level { IfOk result (λ x. stands SimpleLevel (expression_model x.0) ≡ true) }
{
    let (sign, rest) = sign(source, tokens);
    let (first, rest) = term(alloc, source, depth, rest)?;
    let left = signed(alloc, sign, first)?;
    let (whole, rest) = chain(alloc, source, depth, left, rest, Chain::Sum)?;
    Ok((whole, rest))
}

/// Factors with multiplying operators between them (ARM 4.4(5)).
#[cycle(expression)]
#[tactic(auto, unfolding(al_tree_syntax::specs::Expressions::term_rule), using(crate::proofs::Levels::factor_is_term))]
fn term<'a>(
    alloc: Global,
    source: &[u8],
    depth: u32,
    tokens: &'a [Token],
) -> Result<(Expression, &'a [Token]), Stop>
    ensures read { Gives (λ x. expression_tokens (expression_model x.0)) (λ x. lexemes source.now x.1.now) result (lexemes source.now tokens.now) (reading depth term_rule (lexemes source.now tokens.now)) }
    ensures level { IfOk result (λ x. stands TermLevel (expression_model x.0) ≡ true) }
{
    let (first, rest) = factor(alloc, source, depth, tokens)?;
    let (whole, rest) = chain(alloc, source, depth, first, rest, Chain::Product)?;
    Ok((whole, rest))
}

/// A primary, a power, or a primary after `abs` or `not` (ARM 4.4(6)).
#[cycle(expression)]
#[tactic(auto, unfolding(al_tree_syntax::specs::Expressions::factor_rule, al_tree_syntax::specs::Expressions::primary_rule, al_tree_syntax::specs::Expressions::name_rule, al_tree_syntax::specs::Expressions::identifier_rule, al_tree_syntax::specs::Expressions::parentheses_rule), using(crate::proofs::Levels::primary_is_factor))]
fn factor<'a>(
    alloc: Global,
    source: &[u8],
    depth: u32,
    tokens: &'a [Token],
) -> Result<(Expression, &'a [Token]), Stop>
    ensures read { Gives (λ x. expression_tokens (expression_model x.0)) (λ x. lexemes source.now x.1.now) result (lexemes source.now tokens.now) (reading depth factor_rule (lexemes source.now tokens.now)) }
    ensures level { IfOk result (λ x. stands FactorLevel (expression_model x.0) ≡ true) }
{
    if begins_primary(source, tokens) {
        let (base, rest) = primary(alloc, source, depth, tokens)?;
        let Some(rest) = skip(source, rest, Symbol::DoubleAsterisk) else {
            return Ok((base, rest));
        };
        let (exponent, rest) = read_or_drop!(primary(alloc, source, depth, rest), base);
        let power = Infix::new(base, InfixOperator::Power, exponent);
        return Ok((Expression::infix(boxed(alloc, power)?), rest));
    }
    if let Some((place, rest)) = skip_at(source, tokens, Symbol::Abs) {
        let (operand, rest) = primary(alloc, source, depth, rest)?;
        let absolute = Prefixed::new(PrefixOperator::Absolute(place), operand);
        return Ok((Expression::prefixed(boxed(alloc, absolute)?), rest));
    }
    let (place, rest) = word_at(source, tokens, Symbol::Not)?;
    let (operand, rest) = primary(alloc, source, depth, rest)?;
    let negated = Prefixed::new(PrefixOperator::Negation(place), operand);
    Ok((Expression::prefixed(boxed(alloc, negated)?), rest))
}

/// A literal, a name, or what is between parentheses (ARM 4.4(7)).
#[cycle(expression)]
#[tactic(auto, unfolding(al_tree_syntax::specs::Expressions::primary_rule, al_tree_syntax::specs::Expressions::name_rule, al_tree_syntax::specs::Expressions::identifier_rule))]
fn primary<'a>(
    alloc: Global,
    source: &[u8],
    depth: u32,
    tokens: &'a [Token],
) -> Result<(Expression, &'a [Token]), Stop>
    ensures read { Gives (λ x. expression_tokens (expression_model x.0)) (λ x. lexemes source.now x.1.now) result (lexemes source.now tokens.now) (reading depth primary_rule (lexemes source.now tokens.now)) }
    ensures level { IfOk result (λ x. stands PrimaryLevel (expression_model x.0) ≡ true) }
{
    if let Some((literal, rest)) = number(source, tokens) {
        return Ok((Expression::numeric(literal), rest));
    }
    if is_next(source, tokens, Symbol::StringLiteral) {
        let (literal, rest) = string(alloc, source, tokens)?;
        return Ok((Expression::text(boxed(alloc, literal)?), rest));
    }
    if is_next(source, tokens, Symbol::Identifier) {
        return name(alloc, source, depth, tokens);
    }
    let (inner, rest) = parentheses(alloc, source, depth, tokens)?;
    Ok((Expression::group(boxed(alloc, inner)?), rest))
}

/// A name (ARM 4.1), or a qualified expression (ARM 4.7), which begins with one.
#[cycle(expression)]
#[tactic(auto, unfolding(crate::specs::Names::qualified_rule), using(crate::proofs::Levels::name_is_primary))]
fn name<'a>(
    alloc: Global,
    source: &[u8],
    depth: u32,
    tokens: &'a [Token],
) -> Result<(Expression, &'a [Token]), Stop>
    ensures read { Gives (λ x. expression_tokens (expression_model x.0)) (λ x. lexemes source.now x.1.now) result (lexemes source.now tokens.now) (reading depth name_rule (lexemes source.now tokens.now)) }
    ensures level { IfOk result (λ x. stands PrimaryLevel (expression_model x.0) ≡ true) }
{
    let (name, rest) = object_name(alloc, source, depth, tokens)?;
    let Some(rest) = skip(source, rest, Symbol::Apostrophe) else {
        return Ok((name, rest));
    };
    let (operand, rest) = read_or_drop!(parentheses(alloc, source, depth, rest), name);
    let qualified = Longer::new(name, NamePart::operand(operand));
    Ok((Expression::longer(boxed(alloc, qualified)?), rest))
}

/// A name. A `'` that a qualified expression has is left.
#[cycle(expression)]
fn object_name<'a>(
    alloc: Global,
    source: &[u8],
    depth: u32,
    tokens: &'a [Token],
) -> Result<(Expression, &'a [Token]), Stop>
    ensures read { GivesParts (λ x. expression_tokens (expression_model x.0)) (λ x. lexemes source.now x.1.now) result depth name_rule (lexemes source.now tokens.now) }
    ensures level { IfOk result (λ x. stands NameLevel (expression_model x.0) ≡ true) }
{
    let (first, after) = identifier(alloc, source, tokens)?;
    let mut name = Expression::name(first);
    let mut rest = after;
    'more: while goes_on(source, rest) {
        let (part, after) = read_or_drop!(part(alloc, source, depth, rest), name);
        let longer = Longer::new(name, part);
        name = Expression::longer(boxed(alloc, longer)?);
        rest = after;
    }
    Ok((name, rest))
}

/// A selector, what is between parentheses, or an attribute (ARM 4.1.1, 4.1.3, 4.1.4, 4.6, 6.4).
#[cycle(expression)]
#[tactic(auto, unfolding(crate::specs::Names::part_rule, al_tree_syntax::specs::Expressions::identifier_rule, al_tree_syntax::specs::Expressions::designator_rule))]
fn part<'a>(
    alloc: Global,
    source: &[u8],
    depth: u32,
    tokens: &'a [Token],
) -> Result<(NamePart, &'a [Token]), Stop>
    ensures read { Gives (λ x. part_tokens (part_model x.0)) (λ x. lexemes source.now x.1.now) result (lexemes source.now tokens.now) (reading depth part_rule (lexemes source.now tokens.now)) }
    ensures level { IfOk result (λ x. part_rank (part_model x.0) ≡ 0) }
{
    if let Some(rest) = skip(source, tokens, Symbol::Dot) {
        let (selector, rest) = identifier(alloc, source, rest)?;
        return Ok((NamePart::selector(selector), rest));
    }
    if is_next(source, tokens, Symbol::LeftParenthesis) {
        return arguments(alloc, source, depth, tokens);
    }
    let rest = expect(source, tokens, Symbol::Apostrophe)?;
    if is_next(source, rest, Symbol::Identifier) {
        let (designator, rest) = identifier(alloc, source, rest)?;
        return Ok((NamePart::attribute(designator), rest));
    }
    let rest = expect(source, rest, Symbol::Range)?;
    Ok((NamePart::range_attribute(), rest))
}

/// Indexes, arguments of a call or the operand of a conversion, between their parentheses.
#[cycle(expression)]
#[tactic(auto, unfolding(al_tree_syntax::specs::Rules::grammar, al_tree_syntax::specs::Rules::inside, al_tree_syntax::specs::Constructs::construct_at))]
fn arguments<'a>(
    alloc: Global,
    source: &[u8],
    depth: u32,
    tokens: &'a [Token],
) -> Result<(NamePart, &'a [Token]), Stop>
    ensures read { Gives (λ x. part_tokens (part_model x.0)) (λ x. lexemes source.now x.1.now) result (lexemes source.now tokens.now) (reading depth (opens_at LeftParenthesis Arguments) (lexemes source.now tokens.now)) }
    ensures level { IfOk result (λ x. part_rank (part_model x.0) ≡ 0) }
{
    let (inner, opening, rest) = enter_at(source, depth, tokens, Symbol::LeftParenthesis)?;
    let (first, others, rest) = expressions(alloc, source, inner, rest)?;
    let rest = read_or_drop!(expect(source, rest, Symbol::RightParenthesis), first);
    Ok((NamePart::arguments(opening, first, others), rest))
}

/// What is between parentheses that come after no name: an expression, or an aggregate (ARM 4.3.3).
#[cycle(expression)]
#[tactic(auto, unfolding(al_tree_syntax::specs::Expressions::parentheses_rule, al_tree_syntax::specs::Rules::grammar, al_tree_syntax::specs::Rules::inside, al_tree_syntax::specs::Constructs::construct_at))]
fn parentheses<'a>(
    alloc: Global,
    source: &[u8],
    depth: u32,
    tokens: &'a [Token],
) -> Result<(Group, &'a [Token]), Stop>
    ensures { Gives (λ x. group_tokens (group_model x.0)) (λ x. lexemes source.now x.1.now) result (lexemes source.now tokens.now) (reading depth parentheses_rule (lexemes source.now tokens.now)) }
{
    let (inner, opening, rest) = enter_at(source, depth, tokens, Symbol::LeftParenthesis)?;
    if begins_expressions(source, rest) {
        let (first, others, rest) = expressions(alloc, source, inner, rest)?;
        let rest = expect(source, rest, Symbol::RightParenthesis)?;
        return Ok((Group::positional(opening, first, others), rest));
    }
    let rest = expect(source, rest, Symbol::Others)?;
    let rest = expect(source, rest, Symbol::Arrow)?;
    let (value, rest) = expression(alloc, source, inner, rest)?;
    let rest = expect(source, rest, Symbol::RightParenthesis)?;
    Ok((Group::others_aggregate(opening, value), rest))
}

/// At least one expression, with commas between them.
#[cycle(expression)]
#[tactic(auto, unfolding(al_tree_syntax::specs::Expressions::expressions_rule))]
fn expressions<'a>(
    alloc: Global,
    source: &[u8],
    depth: u32,
    tokens: &'a [Token],
) -> Result<(Expression, Vec<Expression>, &'a [Token]), Stop>
    ensures { Gives (λ x. expression_tokens (expression_model x.0) ++ each (λ e. word comma ∷ expression_tokens (expression_model e)) x.1.items) (λ x. lexemes source.now x.2.now) result (lexemes source.now tokens.now) (reading depth expressions_rule (lexemes source.now tokens.now)) }
{
    let (first, rest) = expression(alloc, source, depth, tokens)?;
    let (others, rest) = read_or_drop!(more_expressions(alloc, source, depth, rest), first);
    Ok((first, others, rest))
}

/// Expressions, each after a comma.
#[cycle(expression)]
fn more_expressions<'a>(
    alloc: Global,
    source: &[u8],
    depth: u32,
    tokens: &'a [Token],
) -> Result<(Vec<Expression>, &'a [Token]), Stop>
    ensures { Gives (λ x. each (λ e. word comma ∷ expression_tokens (expression_model e)) x.0.items) (λ x. lexemes source.now x.1.now) result (lexemes source.now tokens.now) (reading depth (Many (the comma ⨾ expression_rule)) (lexemes source.now tokens.now)) }
{
    let mut expressions = Vec::new(alloc);
    let mut rest = tokens;
    'more: while let Some(after) = skip(source, rest, Symbol::Comma) {
        let (expression, after) = expression(alloc, source, depth, after)?;
        append(&mut expressions, expression)?;
        rest = after;
    }
    Ok((expressions, rest))
}

/// The name that begins with this identifier, as a statement has it: a qualified expression isn't allowed there.
///
/// # Errors
///
/// `Fault` with the number of tokens that are left where no sentence goes on; `Memory` if the allocator refuses memory.
#[tactic(auto, using(crate::proofs::Levels::stands_there))]
pub fn name_from<'a>(
    alloc: Global,
    source: &[u8],
    depth: u32,
    first: Identifier,
    tokens: &'a [Token],
) -> Result<(Expression, &'a [Token]), Stop>
    ensures { Gives (λ x. name_tokens (expression_model x.0)) (λ x. lexemes source.now x.1.now) result (labelled symbols.Identifier (identifier_label first) ∷ lexemes source.now tokens.now) (reading depth name_rest_rule (lexemes source.now tokens.now)) }
{
    let mut name = Expression::name(first);
    let mut rest = tokens;
    'more: while begins_part(source, rest) {
        let (part, after) = read_or_drop!(part(alloc, source, depth, rest), name);
        let longer = Longer::new(name, part);
        name = Expression::longer(boxed(alloc, longer)?);
        rest = after;
    }
    Ok((name, rest))
}
