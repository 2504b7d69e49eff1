// Ranges (ARM 3.5, 3.6.1).
ghost use Rattle.al_tree_syntax.specs.DeclarationTrees.{discrete_range_tokens, range_tokens};
ghost use Rattle.al_tree_syntax.specs.Expressions.{discrete_range_rule, range_rule};
ghost use Rattle.al_tree.specs.DeclarationViews.{discrete_range_model, range_model};
ghost use Rattle.al_tree.specs.Lexemes.{lexemes};
ghost use Rattle.al_parse.specs.Parses.{Gives, reading};

use crate::descent::simple_expression;
use crate::expr_step::{expect, is_next, skip};
use crate::keep::boxed;
use crate::read_or_drop;
use crate::stop::Stop;
use al_lex::Token;
use al_tree::{DiscreteRange, Range, Symbol};
use std::alloc::Global;

/// `range low .. high` (ARM 3.5(3))
///
/// # Errors
///
/// `Fault` with the number of tokens that are left where no sentence goes on; `Memory` if the allocator refuses memory.
#[tactic(auto, unfolding(al_tree_syntax::specs::Expressions::range_rule))]
pub fn range<'a>(
    alloc: Global,
    source: &[u8],
    depth: u32,
    tokens: &'a [Token],
) -> Result<(Box<Range>, &'a [Token]), Stop>
    ensures { Gives (λ x. range_tokens (range_model x.0.value)) (λ x. lexemes source.now x.1.now) result (lexemes source.now tokens.now) (reading depth range_rule (lexemes source.now tokens.now)) }
{
    let rest = expect(source, tokens, Symbol::Range)?;
    let (low, rest) = simple_expression(alloc, source, depth, rest)?;
    let rest = read_or_drop!(expect(source, rest, Symbol::DoubleDot), low);
    let (high, rest) = read_or_drop!(simple_expression(alloc, source, depth, rest), low);
    Ok((boxed(alloc, Range { low, high })?, rest))
}

/// A subtype's name, both bounds, or a subtype's name with both bounds after it (ARM 3.6.1(2)).
///
/// # Errors
///
/// `Fault` with the number of tokens that are left where no sentence goes on; `Memory` if the allocator refuses memory.
#[tactic(auto, unfolding(al_tree_syntax::specs::Expressions::discrete_range_rule, al_tree_syntax::specs::Expressions::range_rule))]
pub fn discrete_range<'a>(
    alloc: Global,
    source: &[u8],
    depth: u32,
    tokens: &'a [Token],
) -> Result<(DiscreteRange, &'a [Token]), Stop>
    ensures { Gives (λ x. discrete_range_tokens (discrete_range_model x.0)) (λ x. lexemes source.now x.1.now) result (lexemes source.now tokens.now) (reading depth discrete_range_rule (lexemes source.now tokens.now)) }
{
    let (low, rest) = simple_expression(alloc, source, depth, tokens)?;
    if let Some(rest) = skip(source, rest, Symbol::DoubleDot) {
        let (high, rest) = read_or_drop!(simple_expression(alloc, source, depth, rest), low);
        return Ok((
            DiscreteRange::Bounds(boxed(alloc, Range { low, high })?),
            rest,
        ));
    }
    if is_next(source, rest, Symbol::Range) {
        let (bounds, rest) = read_or_drop!(range(alloc, source, depth, rest), low);
        return Ok((DiscreteRange::MarkRange(low, bounds), rest));
    }
    Ok((DiscreteRange::Mark(low), rest))
}
