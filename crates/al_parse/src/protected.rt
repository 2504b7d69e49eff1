// Protected units in a declarative part, and the bodies of their operations (ARM 9.4, 9.5.2).
ghost use Rattle.al_tree_grammar.specs.Grammar.{each};
ghost use Rattle.al_tree_grammar.specs.Grammar.Rule.{Many, Room};
ghost use Rattle.al_parse.specs.Parses.{Gives, reading};
ghost use Rattle.al_tree_syntax.specs.Constructs.{Construct as constructs, place};
ghost use Rattle.al_tree_syntax.specs.DeclarationTrees.{identifier_token};
ghost use Rattle.al_tree_syntax.specs.Declarations.{operation_body_rule, protected_body_rule, specification_rule};
ghost use Rattle.al_tree_syntax.specs.Notation.{opens, ◌⨾◌};
ghost use Rattle.al_tree_syntax.specs.Rules.{grammar};
ghost use Rattle.al_tree_syntax.specs.StatementTrees.{item_tokens, named_end_tokens, operation_body_tokens};
ghost use Rattle.al_tree_syntax.specs.Symbols.{Symbol as symbols};
ghost use Rattle.al_tree_syntax.specs.Words.{labelled, word};
ghost use Rattle.al_tree.specs.Lexemes.{identifier_label, lexemes, place_label};
ghost use Rattle.al_tree.specs.StatementViews.{item_model, named_end_model, operation_body_model};
ghost use Rattle.std.specs.Prelude.{◌++◌, ◌∷◌};

use crate::body::{declared_statements, proper_body};
use crate::specification::{named_end, protected_definition};
use crate::start::{is_operation_body_next, is_protected_next, is_subprogram_body_next};
use crate::{Stop, append, enter_at, expect, expression, identifier, read_or_drop};
use al_base::Place;
use al_lex::Token;
use al_tree::{Identifier, Item, NamedEnd, OperationBody, Symbol};
use std::alloc::Global;

/// What comes after `protected`: a declaration or a body (ARM 9.4).
#[cycle(body)]
#[tactic(auto, unfolding(al_tree_syntax::specs::Rules::grammar, al_tree_syntax::specs::Rules::inside, al_tree_syntax::specs::Constructs::construct_at))]
pub(crate) fn protected_item<'a>(
    alloc: Global,
    source: &[u8],
    depth: u32,
    opening: Place,
    tokens: &'a [Token],
) -> Result<(Item, &'a [Token]), Stop>
    ensures { Gives (λ x. item_tokens (item_model x.0)) (λ x. lexemes source.now x.1.now) result (labelled symbols.Protected (place_label opening) ∷ lexemes source.now tokens.now) (reading depth (grammar (place constructs.ProtectedUnit)) (lexemes source.now tokens.now)) }
{
    if is_protected_next(source, tokens) {
        let (definition, rest) = protected_definition(alloc, source, depth, tokens)?;
        return Ok((Item::protected(opening, definition), rest));
    }
    let rest = expect(source, tokens, Symbol::Body)?;
    let (name, operations, end, rest) = protected_body(alloc, source, depth, rest)?;
    Ok((Item::protected_body(opening, name, operations, end), rest))
}

/// What comes after `protected body`.
#[cycle(body)]
#[tactic(auto, unfolding(al_tree_syntax::specs::Declarations::protected_body_rule, al_tree_syntax::specs::Expressions::identifier_rule))]
fn protected_body<'a>(
    alloc: Global,
    source: &[u8],
    depth: u32,
    tokens: &'a [Token],
) -> Result<(Identifier, Vec<OperationBody>, NamedEnd, &'a [Token]), Stop>
    ensures { Gives (λ x. identifier_token (identifier_label x.0) ∷ word symbols.Is ∷ (each (λ y. operation_body_tokens (operation_body_model y)) x.1.items ++ named_end_tokens (named_end_model x.2))) (λ x. lexemes source.now x.3.now) result (lexemes source.now tokens.now) (reading depth protected_body_rule (lexemes source.now tokens.now)) }
{
    let (name, rest) = identifier(alloc, source, tokens)?;
    let rest = read_or_drop!(expect(source, rest, Symbol::Is), name);
    let (operations, rest) = read_or_drop!(operation_bodies(alloc, source, depth, rest), name);
    let (end, rest) = read_or_drop!(named_end(alloc, source, rest), (name, operations));
    Ok((name, operations, end, rest))
}

/// The bodies in a protected body.
#[cycle(body)]
fn operation_bodies<'a>(
    alloc: Global,
    source: &[u8],
    depth: u32,
    tokens: &'a [Token],
) -> Result<(Vec<OperationBody>, &'a [Token]), Stop>
    ensures { Gives (λ x. each (λ y. operation_body_tokens (operation_body_model y)) x.0.items) (λ x. lexemes source.now x.1.now) result (lexemes source.now tokens.now) (reading depth (Many operation_body_rule) (lexemes source.now tokens.now)) }
{
    let mut items = Vec::new(alloc);
    let mut rest = tokens;
    'more: while is_operation_body_next(source, rest) {
        let (next, after) = operation_body(alloc, source, depth, rest)?;
        append(&mut items, next)?;
        rest = after;
    }
    Ok((items, rest))
}

/// A body in a protected body: of a subprogram or of an entry.
#[cycle(body)]
#[tactic(auto, unfolding(al_tree_syntax::specs::Declarations::operation_body_rule))]
fn operation_body<'a>(
    alloc: Global,
    source: &[u8],
    depth: u32,
    tokens: &'a [Token],
) -> Result<(OperationBody, &'a [Token]), Stop>
    ensures { Gives (λ x. operation_body_tokens (operation_body_model x.0)) (λ x. lexemes source.now x.1.now) result (lexemes source.now tokens.now) (reading depth operation_body_rule (lexemes source.now tokens.now)) }
{
    if is_subprogram_body_next(source, tokens) {
        let (body, rest) = protected_subprogram(alloc, source, depth, tokens)?;
        return Ok((body, rest));
    }
    let (inner, opening, rest) = enter_at(source, depth, tokens, Symbol::Entry)?;
    let (body, rest) = entry_body(alloc, source, inner, opening, rest)?;
    Ok((body, rest))
}

/// The body of a subprogram in a protected body, if one more construct may be open.
#[cycle(body)]
fn protected_subprogram<'a>(
    alloc: Global,
    source: &[u8],
    depth: u32,
    tokens: &'a [Token],
) -> Result<(OperationBody, &'a [Token]), Stop>
    ensures { Gives (λ x. operation_body_tokens (operation_body_model x.0)) (λ x. lexemes source.now x.1.now) result (lexemes source.now tokens.now) (reading depth (Room (specification_rule ⨾ opens symbols.Is constructs.SubprogramBody)) (lexemes source.now tokens.now)) }
{
    if depth == 0 {
        return Err(Stop::Fault(tokens.len()));
    }
    let (specification, body, rest) = proper_body(alloc, source, depth, tokens)?;
    Ok((OperationBody::subprogram(specification, body), rest))
}

/// What comes after `entry` (ARM 9.5.2).
#[cycle(body)]
#[tactic(auto, unfolding(al_tree_syntax::specs::Rules::grammar, al_tree_syntax::specs::Rules::inside, al_tree_syntax::specs::Constructs::construct_at, al_tree_syntax::specs::Expressions::identifier_rule))]
fn entry_body<'a>(
    alloc: Global,
    source: &[u8],
    depth: u32,
    opening: Place,
    tokens: &'a [Token],
) -> Result<(OperationBody, &'a [Token]), Stop>
    ensures { Gives (λ x. operation_body_tokens (operation_body_model x.0)) (λ x. lexemes source.now x.1.now) result (labelled symbols.Entry (place_label opening) ∷ lexemes source.now tokens.now) (reading depth (grammar (place constructs.EntryBody)) (lexemes source.now tokens.now)) }
{
    let (name, rest) = identifier(alloc, source, tokens)?;
    let rest = read_or_drop!(expect(source, rest, Symbol::When), name);
    let (barrier, rest) = read_or_drop!(expression(alloc, source, depth, rest), name);
    let rest = read_or_drop!(expect(source, rest, Symbol::Is), (name, barrier));
    let (statements, rest) = read_or_drop!(
        declared_statements(alloc, source, depth, rest),
        (name, barrier)
    );
    Ok((
        OperationBody::entry(opening, name, barrier, statements),
        rest,
    ))
}
