// The parts of statements and bodies that hold no statements (ARM 5.1 to 5.5, 6.5, 9.6, 10.1.3).
ghost use Rattle.al_tree_grammar.specs.Grammar.{each, maybe};
ghost use Rattle.al_tree_grammar.specs.Grammar.Rule.{Many, Opt};
ghost use Rattle.al_tree_grammar.specs.Reading.{first};
ghost use Rattle.al_parse.specs.Parses.{Gives, reading};
ghost use Rattle.al_tree_syntax.specs.DeclarationTrees.{compound_tokens, initial_tokens, specification_tokens};
ghost use Rattle.al_tree_syntax.specs.Declarations.{initial_rule};
ghost use Rattle.al_tree_syntax.specs.ExpressionTrees.{expression_tokens};
ghost use Rattle.al_tree_syntax.specs.Expressions.{compound_name_rule, expression_rule, identifier_rule, name_rest_rule};
ghost use Rattle.al_tree_syntax.specs.Notation.{any, parted, the, ◌⨾◌};
ghost use Rattle.al_tree_syntax.specs.StatementTrees.{choice_tokens, compound_end_tokens, item_tokens, loop_end_tokens, statement_tokens, when_tokens};
ghost use Rattle.al_tree_syntax.specs.Statements.{choice_rule, delay_rule, exit_rule, return_rule};
ghost use Rattle.al_tree_syntax.specs.Symbols.{Symbol as symbols, is_labelled};
ghost use Rattle.al_tree_syntax.specs.Words.{labelled, word};
ghost use Rattle.al_tree.specs.DeclarationViews.{compound_model, specification_model};
ghost use Rattle.al_tree.specs.ExpressionViews.{expression_model};
ghost use Rattle.al_tree.specs.Lexemes.{has_text, identifier_label, lexemes, place_label};
ghost use Rattle.al_tree.specs.StatementViews.{choice_model, compound_end_model, item_model, loop_end_model, statement_model};
ghost use Rattle.al_tree.specs.Symbols.{symbol_model};
ghost use Rattle.std.specs.Prelude.{[], false, option_map, true, ◌++◌, ◌∷◌, ◌≡◌};

use crate::declaration::initial;
use crate::specification::end_name;
use crate::start::is_expression_next;
use crate::{
    Stop, append, boxed, compound_name, discrete_range, expect, expression, is_next, name_from,
    read_or_drop, skip, word_at,
};
use al_base::Place;
use al_lex::Token;
use al_tree::{
    Assignment, Choice, CompoundEnd, CompoundName, DelayStatement, ExitStatement, Expression,
    Identifier, Item, LoopEnd, ReturnStatement, Specification, Statement, Symbol,
};
use std::alloc::Global;

/// A call or an assignment, after the identifier that its name begins with (ARM 5.2, 6.4).
pub(crate) fn call_or_assignment<'a>(
    alloc: Global,
    source: &[u8],
    depth: u32,
    first: Identifier,
    tokens: &'a [Token],
) -> Result<(Statement, &'a [Token]), Stop>
    ensures { Gives (λ x. statement_tokens (statement_model x.0)) (λ x. lexemes source.now x.1.now) result (labelled symbols.Identifier (identifier_label first) ∷ lexemes source.now tokens.now) (reading depth (name_rest_rule ⨾ Opt initial_rule ⨾ the symbols.Semicolon) (lexemes source.now tokens.now)) }
{
    let (name, rest) = name_from(alloc, source, depth, first, tokens)?;
    let (value, rest) = read_or_drop!(assigned(alloc, source, depth, rest), name);
    match value {
        None => Ok((Statement::call(name), rest)),
        Some(value) => {
            let statement = Assignment {
                target: name,
                value,
            };
            Ok((Statement::assignment(boxed(alloc, statement)?), rest))
        }
    }
}

/// `[:= value];`
fn assigned<'a>(
    alloc: Global,
    source: &[u8],
    depth: u32,
    tokens: &'a [Token],
) -> Result<(Option<Expression>, &'a [Token]), Stop>
    ensures { Gives (λ x. maybe initial_tokens (option_map expression_model x.0) ++ word symbols.Semicolon ∷ []) (λ x. lexemes source.now x.1.now) result (lexemes source.now tokens.now) (reading depth (Opt initial_rule ⨾ the symbols.Semicolon) (lexemes source.now tokens.now)) }
{
    let (value, rest) = initial(alloc, source, depth, tokens)?;
    let rest = read_or_drop!(expect(source, rest, Symbol::Semicolon), value);
    Ok((value, rest))
}

/// `[value]`
fn returned<'a>(
    alloc: Global,
    source: &[u8],
    depth: u32,
    tokens: &'a [Token],
) -> Result<(Option<Expression>, &'a [Token]), Stop>
    ensures { Gives (λ x. maybe expression_tokens (option_map expression_model x.0)) (λ x. lexemes source.now x.1.now) result (lexemes source.now tokens.now) (reading depth (Opt expression_rule) (lexemes source.now tokens.now)) }
{
    if !is_expression_next(source, tokens) {
        return Ok((None, tokens));
    }
    let (value, rest) = expression(alloc, source, depth, tokens)?;
    Ok((Some(value), rest))
}

/// ARM 6.5
#[tactic(auto, unfolding(al_tree_syntax::specs::Statements::return_rule))]
pub(crate) fn return_statement<'a>(
    alloc: Global,
    source: &[u8],
    depth: u32,
    tokens: &'a [Token],
) -> Result<(Statement, &'a [Token]), Stop>
    ensures { Gives (λ x. statement_tokens (statement_model x.0)) (λ x. lexemes source.now x.1.now) result (lexemes source.now tokens.now) (reading depth return_rule (lexemes source.now tokens.now)) }
{
    let (opening, rest) = word_at(source, tokens, Symbol::Return)?;
    let (value, rest) = returned(alloc, source, depth, rest)?;
    let rest = read_or_drop!(expect(source, rest, Symbol::Semicolon), value);
    let statement = boxed(alloc, ReturnStatement { opening, value })?;
    Ok((Statement::returning(statement), rest))
}

/// `[when condition]`
fn exit_condition<'a>(
    alloc: Global,
    source: &[u8],
    depth: u32,
    tokens: &'a [Token],
) -> Result<(Option<Expression>, &'a [Token]), Stop>
    ensures { Gives (λ x. maybe when_tokens (option_map expression_model x.0)) (λ x. lexemes source.now x.1.now) result (lexemes source.now tokens.now) (reading depth (Opt (the symbols.When ⨾ expression_rule)) (lexemes source.now tokens.now)) }
{
    match skip(source, tokens, Symbol::When) {
        None => Ok((None, tokens)),
        Some(rest) => {
            let (condition, rest) = expression(alloc, source, depth, rest)?;
            Ok((Some(condition), rest))
        }
    }
}

/// ARM 5.7
#[tactic(auto, unfolding(al_tree_syntax::specs::Statements::exit_rule, al_tree_syntax::specs::Expressions::identifier_rule))]
pub(crate) fn exit_statement<'a>(
    alloc: Global,
    source: &[u8],
    depth: u32,
    tokens: &'a [Token],
) -> Result<(Statement, &'a [Token]), Stop>
    ensures { Gives (λ x. statement_tokens (statement_model x.0)) (λ x. lexemes source.now x.1.now) result (lexemes source.now tokens.now) (reading depth exit_rule (lexemes source.now tokens.now)) }
{
    let (opening, rest) = word_at(source, tokens, Symbol::Exit)?;
    let (name, rest) = end_name(alloc, source, rest)?;
    let (condition, rest) = read_or_drop!(exit_condition(alloc, source, depth, rest), name);
    let rest = read_or_drop!(expect(source, rest, Symbol::Semicolon), (name, condition));
    let statement = ExitStatement {
        opening,
        name,
        condition,
    };
    Ok((Statement::exit(boxed(alloc, statement)?), rest))
}

/// ARM 9.6
#[tactic(auto, unfolding(al_tree_syntax::specs::Statements::delay_rule))]
pub(crate) fn delay_statement<'a>(
    alloc: Global,
    source: &[u8],
    depth: u32,
    tokens: &'a [Token],
) -> Result<(Statement, &'a [Token]), Stop>
    ensures { Gives (λ x. statement_tokens (statement_model x.0)) (λ x. lexemes source.now x.1.now) result (lexemes source.now tokens.now) (reading depth delay_rule (lexemes source.now tokens.now)) }
{
    let (opening, rest) = word_at(source, tokens, Symbol::Delay)?;
    let rest = expect(source, rest, Symbol::Until)?;
    let (moment, rest) = expression(alloc, source, depth, rest)?;
    let rest = read_or_drop!(expect(source, rest, Symbol::Semicolon), moment);
    let statement = boxed(alloc, DelayStatement { opening, moment })?;
    Ok((Statement::delay(statement), rest))
}

/// A choice of a case statement.
#[tactic(auto, unfolding(al_tree_syntax::specs::Statements::choice_rule))]
fn choice<'a>(
    alloc: Global,
    source: &[u8],
    depth: u32,
    tokens: &'a [Token],
) -> Result<(Choice, &'a [Token]), Stop>
    ensures { Gives (λ x. choice_tokens (choice_model x.0)) (λ x. lexemes source.now x.1.now) result (lexemes source.now tokens.now) (reading depth choice_rule (lexemes source.now tokens.now)) }
{
    if let Some(rest) = skip(source, tokens, Symbol::Others) {
        return Ok((Choice::Others, rest));
    }
    let (range, rest) = discrete_range(alloc, source, depth, tokens)?;
    Ok((Choice::Range(range), rest))
}

/// `{| choice}`
fn more_choices<'a>(
    alloc: Global,
    source: &[u8],
    depth: u32,
    tokens: &'a [Token],
) -> Result<(Vec<Choice>, &'a [Token]), Stop>
    ensures { Gives (λ x. each (λ y. word symbols.VerticalLine ∷ choice_tokens (choice_model y)) x.0.items) (λ x. lexemes source.now x.1.now) result (lexemes source.now tokens.now) (reading depth (Many (the symbols.VerticalLine ⨾ choice_rule)) (lexemes source.now tokens.now)) }
{
    let mut items = Vec::new(alloc);
    let mut rest = tokens;
    'more: while let Some(after) = skip(source, rest, Symbol::VerticalLine) {
        let (next, after) = choice(alloc, source, depth, after)?;
        append(&mut items, next)?;
        rest = after;
    }
    Ok((items, rest))
}

/// `choice {| choice}`
pub(crate) fn choices<'a>(
    alloc: Global,
    source: &[u8],
    depth: u32,
    tokens: &'a [Token],
) -> Result<(Choice, Vec<Choice>, &'a [Token]), Stop>
    ensures { Gives (λ x. choice_tokens (choice_model x.0) ++ each (λ c. word symbols.VerticalLine ∷ choice_tokens (choice_model c)) x.1.items) (λ x. lexemes source.now x.2.now) result (lexemes source.now tokens.now) (reading depth (parted symbols.VerticalLine choice_rule) (lexemes source.now tokens.now)) }
{
    let (first, rest) = choice(alloc, source, depth, tokens)?;
    let (others, rest) = read_or_drop!(more_choices(alloc, source, depth, rest), first);
    Ok((first, others, rest))
}

/// `end loop [name];`
#[tactic(auto, unfolding(al_tree_syntax::specs::Expressions::identifier_rule))]
pub(crate) fn loop_end<'a>(
    alloc: Global,
    source: &[u8],
    tokens: &'a [Token],
) -> Result<(LoopEnd, &'a [Token]), Stop>
    ensures { Gives (λ x. loop_end_tokens (loop_end_model x.0)) (λ x. lexemes source.now x.1.now) result (lexemes source.now tokens.now) (reading 0 (any symbols.End ⨾ any symbols.Loop ⨾ Opt identifier_rule ⨾ the symbols.Semicolon) (lexemes source.now tokens.now)) }
{
    let (end, rest) = word_at(source, tokens, Symbol::End)?;
    let (closing, rest) = word_at(source, rest, Symbol::Loop)?;
    let (end_name, rest) = end_name(alloc, source, rest)?;
    let rest = read_or_drop!(expect(source, rest, Symbol::Semicolon), end_name);
    Ok((
        LoopEnd {
            end,
            closing,
            end_name,
        },
        rest,
    ))
}

/// `end [name];` of a library unit or a subprogram.
#[tactic(auto, unfolding(al_tree_syntax::specs::Expressions::compound_name_rule, al_tree_syntax::specs::Expressions::identifier_rule))]
pub(crate) fn compound_end<'a>(
    alloc: Global,
    source: &[u8],
    tokens: &'a [Token],
) -> Result<(CompoundEnd, &'a [Token]), Stop>
    ensures { Gives (λ x. compound_end_tokens (compound_end_model x.0)) (λ x. lexemes source.now x.1.now) result (lexemes source.now tokens.now) (reading 0 (any symbols.End ⨾ Opt compound_name_rule ⨾ the symbols.Semicolon) (lexemes source.now tokens.now)) }
{
    let (end, rest) = word_at(source, tokens, Symbol::End)?;
    let (end_name, rest) = end_compound(alloc, source, rest)?;
    let rest = read_or_drop!(expect(source, rest, Symbol::Semicolon), end_name);
    Ok((CompoundEnd { end, end_name }, rest))
}

/// `[name]` of a library unit or a subprogram.
#[tactic(auto, unfolding(al_tree_syntax::specs::Expressions::compound_name_rule, al_tree_syntax::specs::Expressions::identifier_rule))]
fn end_compound<'a>(
    alloc: Global,
    source: &[u8],
    tokens: &'a [Token],
) -> Result<(Option<CompoundName>, &'a [Token]), Stop>
    ensures { Gives (λ x. maybe compound_tokens (option_map compound_model x.0)) (λ x. lexemes source.now x.1.now) result (lexemes source.now tokens.now) (reading 0 (Opt compound_name_rule) (lexemes source.now tokens.now)) }
{
    if !is_next(source, tokens, Symbol::Identifier) {
        return Ok((None, tokens));
    }
    let (name, rest) = compound_name(alloc, source, tokens)?;
    Ok((Some(name), rest))
}

/// `end`, this word and a semicolon.
pub(crate) fn closing_words<'a>(
    source: &[u8],
    closing: Symbol,
    tokens: &'a [Token],
) -> Result<(Place, Place, &'a [Token]), Stop>
    requires labelled { is_labelled (symbol_model closing) ≡ true }
    requires word { has_text (symbol_model closing) ≡ false }
    ensures { Gives (λ x. labelled symbols.End (place_label x.0) ∷ labelled (symbol_model closing) (place_label x.1) ∷ word symbols.Semicolon ∷ []) (λ x. lexemes source.now x.2.now) result (lexemes source.now tokens.now) (reading 0 (any symbols.End ⨾ any (symbol_model closing) ⨾ the symbols.Semicolon) (lexemes source.now tokens.now)) }
{
    let (end, rest) = word_at(source, tokens, Symbol::End)?;
    let (last, rest) = word_at(source, rest, closing)?;
    let rest = expect(source, rest, Symbol::Semicolon)?;
    Ok((end, last, rest))
}

/// `is separate;` (ARM 10.1.3)
pub(crate) fn stub<'a>(
    source: &[u8],
    specification: Specification,
    tokens: &'a [Token],
) -> Result<(Item, &'a [Token]), Stop>
    ensures { Gives (λ x. item_tokens (item_model x.0)) (λ x. lexemes source.now x.1.now) result (specification_tokens (specification_model specification) ++ lexemes source.now tokens.now) (reading 0 (the symbols.Is ⨾ any symbols.Separate ⨾ the symbols.Semicolon) (lexemes source.now tokens.now)) }
{
    let rest = expect(source, tokens, Symbol::Is)?;
    let (separate, rest) = word_at(source, rest, Symbol::Separate)?;
    let rest = expect(source, rest, Symbol::Semicolon)?;
    Ok((Item::stub(specification, separate), rest))
}
