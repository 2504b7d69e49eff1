// Lists of identifiers and of compound names.
ghost use Rattle.std.specs.Prelude.{◌≡◌, ◌∷◌, false, map};
ghost use Rattle.al_tree_grammar.specs.Grammar.{each};
ghost use Rattle.al_tree_grammar.specs.Grammar.Rule.{Many, One, Seq};
ghost use Rattle.al_tree_syntax.specs.DeclarationTrees.{after, compound_tokens, compounds_tokens, identifiers_tokens};
ghost use Rattle.al_tree_syntax.specs.Expressions.{compound_name_rule, compound_names_rule, identifier_rule, identifiers_rule};
ghost use Rattle.al_tree_syntax.specs.Notation.{◌⨾◌, the};
ghost use Rattle.al_tree_syntax.specs.Symbols.{is_labelled, number};
ghost use Rattle.al_tree_syntax.specs.Symbols.Symbol.{Comma as comma};
ghost use Rattle.al_tree_syntax.specs.Words.{word};
ghost use Rattle.al_tree.specs.DeclarationViews.{compound_model, compounds_model, identifiers_model};
ghost use Rattle.al_tree.specs.Lexemes.{identifier_label, lexemes};
ghost use Rattle.al_tree.specs.Symbols.{symbol_model};
ghost use Rattle.al_parse.specs.Parses.{Gives, reading};

use crate::expr_step::{identifier, skip};
use crate::keep::append;
use crate::stop::Stop;
use al_lex::Token;
use al_tree::{CompoundName, CompoundNames, Identifier, Identifiers, Symbol};
use std::alloc::Global;

/// `identifier {, identifier}`
///
/// # Errors
///
/// `Fault` with the number of tokens that are left where no sentence goes on; `Memory` if the allocator refuses memory.
#[tactic(auto, unfolding(al_tree_syntax::specs::Expressions::identifier_rule, al_tree_syntax::specs::Expressions::identifiers_rule))]
pub fn identifiers<'a>(
    alloc: Global,
    source: &[u8],
    tokens: &'a [Token],
) -> Result<(Identifiers, &'a [Token]), Stop>
    ensures { Gives (λ x. identifiers_tokens (identifiers_model x.0)) (λ x. lexemes source.now x.1.now) result (lexemes source.now tokens.now) (reading 0 identifiers_rule (lexemes source.now tokens.now)) }
{
    let (first, rest) = identifier(alloc, source, tokens)?;
    let (others, rest) = more_identifiers(alloc, source, rest, Symbol::Comma)?;
    Ok((Identifiers { first, others }, rest))
}

/// `identifier {. identifier}` (ARM 4.1.3, 6.1, 10.1.1)
///
/// # Errors
///
/// `Fault` with the number of tokens that are left where no sentence goes on; `Memory` if the allocator refuses memory.
#[tactic(auto, unfolding(al_tree_syntax::specs::Expressions::identifier_rule, al_tree_syntax::specs::Expressions::compound_name_rule))]
pub fn compound_name<'a>(
    alloc: Global,
    source: &[u8],
    tokens: &'a [Token],
) -> Result<(CompoundName, &'a [Token]), Stop>
    ensures { Gives (λ x. compound_tokens (compound_model x.0)) (λ x. lexemes source.now x.1.now) result (lexemes source.now tokens.now) (reading 0 compound_name_rule (lexemes source.now tokens.now)) }
{
    let (first, rest) = identifier(alloc, source, tokens)?;
    let (selectors, rest) = more_identifiers(alloc, source, rest, Symbol::Dot)?;
    Ok((CompoundName { first, selectors }, rest))
}

/// `compound name {, compound name}`
///
/// # Errors
///
/// `Fault` with the number of tokens that are left where no sentence goes on; `Memory` if the allocator refuses memory.
#[tactic(auto, unfolding(al_tree_syntax::specs::Expressions::compound_names_rule))]
pub fn compound_names<'a>(
    alloc: Global,
    source: &[u8],
    tokens: &'a [Token],
) -> Result<(CompoundNames, &'a [Token]), Stop>
    ensures { Gives (λ x. compounds_tokens (compounds_model x.0)) (λ x. lexemes source.now x.1.now) result (lexemes source.now tokens.now) (reading 0 compound_names_rule (lexemes source.now tokens.now)) }
{
    let (first, rest) = compound_name(alloc, source, tokens)?;
    let (others, rest) = more_names(alloc, source, rest)?;
    Ok((CompoundNames { first, others }, rest))
}

/// Compound names, each after a comma.
fn more_names<'a>(
    alloc: Global,
    source: &[u8],
    tokens: &'a [Token],
) -> Result<(Vec<CompoundName>, &'a [Token]), Stop>
    ensures { Gives (λ x. each (λ n. word comma ∷ compound_tokens n) (map compound_model x.0.items)) (λ x. lexemes source.now x.1.now) result (lexemes source.now tokens.now) (reading 0 (Many (the comma ⨾ compound_name_rule)) (lexemes source.now tokens.now)) }
{
    let mut names = Vec::new(alloc);
    let mut rest = tokens;
    'more: while let Some(after) = skip(source, rest, Symbol::Comma) {
        let (name, after) = compound_name(alloc, source, after)?;
        append(&mut names, name)?;
        rest = after;
    }
    Ok((names, rest))
}

/// Identifiers, each after this symbol.
fn more_identifiers<'a>(
    alloc: Global,
    source: &[u8],
    tokens: &'a [Token],
    separator: Symbol,
) -> Result<(Vec<Identifier>, &'a [Token]), Stop>
    requires { is_labelled (symbol_model separator) ≡ false }
    ensures { Gives (λ x. after (symbol_model separator) (map identifier_label x.0.items)) (λ x. lexemes source.now x.1.now) result (lexemes source.now tokens.now) (reading 0 (Many (Seq (One (number (symbol_model separator))) identifier_rule)) (lexemes source.now tokens.now)) }
{
    let mut others = Vec::new(alloc);
    let mut rest = tokens;
    'more: while let Some(after) = skip(source, rest, separator) {
        let (other, after) = identifier(alloc, source, after)?;
        append(&mut others, other)?;
        rest = after;
    }
    Ok((others, rest))
}
