// Statements, declarative parts and bodies, which hold each other (ARM 3.11, 5, 6.3, 9.1).
ghost use Rattle.al_tree_grammar.specs.Grammar.{each};
ghost use Rattle.al_tree_grammar.specs.Grammar.Rule.{Many, Opt, Room, RoomOr};
ghost use Rattle.al_parse.specs.Parses.{Gives, reading};
ghost use Rattle.al_tree_syntax.specs.Constructs.{Construct as constructs, place};
ghost use Rattle.al_tree_syntax.specs.DeclarationTrees.{identifier_token, specification_tokens};
ghost use Rattle.al_tree_syntax.specs.Declarations.{item_rule, specification_rule, subprogram_rule, task_rule};
ghost use Rattle.al_tree_syntax.specs.Notation.{any, opens, opens_at, the, ◌∣◌, ◌⨾◌};
ghost use Rattle.al_tree_syntax.specs.Rules.{grammar};
ghost use Rattle.al_tree_syntax.specs.StatementTrees.{alternative_tokens, block_tokens, body_tokens, branch_tokens, else_tokens, handled_tokens, item_tokens, loop_end_tokens, loop_tokens, named_end_tokens, statement_tokens, statements_tokens};
ghost use Rattle.al_tree_syntax.specs.Statements.{alternative_rule, block_rule, branch_rule, declare_rule, for_rule, loop_rule, named_rule, plain_block_rule, plain_loop_rule, statement_rule, statements_rule, while_rule};
ghost use Rattle.al_tree_syntax.specs.Symbols.{Symbol as symbols};
ghost use Rattle.al_tree_syntax.specs.Units.{subprogram_body_rule};
ghost use Rattle.al_tree_syntax.specs.Words.{labelled, word};
ghost use Rattle.al_tree.specs.DeclarationViews.{specification_model};
ghost use Rattle.al_tree.specs.Lexemes.{identifier_label, lexemes, place_label};
ghost use Rattle.al_tree.specs.StatementViews.{alternative_model, block_model, body_model, branch_model, case_model, else_of, elsif_tokens, handled_model, if_model, item_model, loop_end_model, loop_model, named_end_model, statement_model, statements_model};
ghost use Rattle.std.specs.Prelude.{option_map, ◌++◌, ◌∷◌};

use crate::declaration::common_declaration;
use crate::protected::protected_item;
use crate::specification::{named_end, specification, task_declaration};
use crate::start::{
    is_common_next, is_item_next, is_loop_next, is_rest_next, is_statement_next,
    is_subprogram_next, is_task_next,
};
use crate::statement::{
    call_or_assignment, choices, closing_words, compound_end, delay_statement, exit_statement,
    loop_end, return_statement, stub,
};
use crate::step::flag;
use crate::{
    Stop, append, boxed, discrete_range, enter, enter_at, expect, expression, identifier, is_next,
    read_or_drop, skip, skip_at, word_at,
};
use al_base::Place;
use al_lex::Token;
use al_tree::{
    Alternative, BlockStatement, Branch, CaseStatement, DeclaredStatements, ElsifBranch,
    Identifier, IfStatement, Item, LoopEnd, LoopStatement, NamedEnd, Specification, Statement,
    Statements, SubprogramBody, Symbol, TaskDeclaration,
};
use std::alloc::Global;

/// Statements, one at least (ARM 5.1).
#[cycle(body)]
#[tactic(auto, unfolding(al_tree_syntax::specs::Statements::statements_rule))]
pub(crate) fn statements<'a>(
    alloc: Global,
    source: &[u8],
    depth: u32,
    tokens: &'a [Token],
) -> Result<(Statements, &'a [Token]), Stop>
    ensures { Gives (λ x. statements_tokens (statements_model x.0)) (λ x. lexemes source.now x.1.now) result (lexemes source.now tokens.now) (reading depth statements_rule (lexemes source.now tokens.now)) }
{
    let (first, rest) = statement(alloc, source, depth, tokens)?;
    let (others, rest) = read_or_drop!(more_statements(alloc, source, depth, rest), first);
    Ok((Statements::new(first, others), rest))
}

#[cycle(body)]
fn more_statements<'a>(
    alloc: Global,
    source: &[u8],
    depth: u32,
    tokens: &'a [Token],
) -> Result<(Vec<Statement>, &'a [Token]), Stop>
    ensures { Gives (λ x. each (λ y. statement_tokens (statement_model y)) x.0.items) (λ x. lexemes source.now x.1.now) result (lexemes source.now tokens.now) (reading depth (Many statement_rule) (lexemes source.now tokens.now)) }
{
    let mut items = Vec::new(alloc);
    let mut rest = tokens;
    'more: while is_statement_next(source, rest) {
        let (next, after) = statement(alloc, source, depth, rest)?;
        append(&mut items, next)?;
        rest = after;
    }
    Ok((items, rest))
}

/// A statement (ARM 5.1).
#[cycle(body)]
#[tactic(auto, unfolding(al_tree_syntax::specs::Statements::statement_rule, al_tree_syntax::specs::Expressions::identifier_rule, al_tree_syntax::specs::Statements::return_rule, al_tree_syntax::specs::Statements::exit_rule, al_tree_syntax::specs::Statements::delay_rule))]
fn statement<'a>(
    alloc: Global,
    source: &[u8],
    depth: u32,
    tokens: &'a [Token],
) -> Result<(Statement, &'a [Token]), Stop>
    ensures { Gives (λ x. statement_tokens (statement_model x.0)) (λ x. lexemes source.now x.1.now) result (lexemes source.now tokens.now) (reading depth statement_rule (lexemes source.now tokens.now)) }
{
    if let Some(rest) = skip(source, tokens, Symbol::Null) {
        let rest = expect(source, rest, Symbol::Semicolon)?;
        return Ok((Statement::null(), rest));
    }
    if is_next(source, tokens, Symbol::Identifier) {
        let (name, rest) = identifier(alloc, source, tokens)?;
        let (statement, rest) = named_statement(alloc, source, depth, name, rest)?;
        return Ok((statement, rest));
    }
    if is_next(source, tokens, Symbol::Return) {
        let (statement, rest) = return_statement(alloc, source, depth, tokens)?;
        return Ok((statement, rest));
    }
    if is_next(source, tokens, Symbol::Exit) {
        let (statement, rest) = exit_statement(alloc, source, depth, tokens)?;
        return Ok((statement, rest));
    }
    if is_next(source, tokens, Symbol::Delay) {
        let (statement, rest) = delay_statement(alloc, source, depth, tokens)?;
        return Ok((statement, rest));
    }
    let (statement, rest) = compound_statement(alloc, source, depth, tokens)?;
    Ok((statement, rest))
}

/// What comes after the identifier that a statement begins with: a call, an assignment, or a loop or block of that name.
#[cycle(body)]
#[tactic(auto, unfolding(al_tree_syntax::specs::Statements::named_rule))]
fn named_statement<'a>(
    alloc: Global,
    source: &[u8],
    depth: u32,
    name: Identifier,
    tokens: &'a [Token],
) -> Result<(Statement, &'a [Token]), Stop>
    ensures { Gives (λ x. statement_tokens (statement_model x.0)) (λ x. lexemes source.now x.1.now) result (labelled symbols.Identifier (identifier_label name) ∷ lexemes source.now tokens.now) (reading depth named_rule (lexemes source.now tokens.now)) }
{
    if is_rest_next(source, tokens) {
        let (statement, rest) = call_or_assignment(alloc, source, depth, name, tokens)?;
        return Ok((statement, rest));
    }
    let (statement, rest) = labelled_statement(alloc, source, depth, name, tokens)?;
    Ok((statement, rest))
}

/// A colon, and a loop or block of this name, if one more construct may be open.
#[cycle(body)]
fn labelled_statement<'a>(
    alloc: Global,
    source: &[u8],
    depth: u32,
    name: Identifier,
    tokens: &'a [Token],
) -> Result<(Statement, &'a [Token]), Stop>
    ensures { Gives (λ x. statement_tokens (statement_model x.0)) (λ x. lexemes source.now x.1.now) result (labelled symbols.Identifier (identifier_label name) ∷ lexemes source.now tokens.now) (reading depth (Room (the symbols.Colon ⨾ (loop_rule ∣ block_rule))) (lexemes source.now tokens.now)) }
{
    if depth == 0 {
        return Err(Stop::Fault(tokens.len()));
    }
    let (statement, rest) = after_label(alloc, source, depth, name, tokens)?;
    Ok((statement, rest))
}

/// A colon, and a loop or block of this name.
#[cycle(body)]
fn after_label<'a>(
    alloc: Global,
    source: &[u8],
    depth: u32,
    name: Identifier,
    tokens: &'a [Token],
) -> Result<(Statement, &'a [Token]), Stop>
    ensures { Gives (λ x. statement_tokens (statement_model x.0)) (λ x. lexemes source.now x.1.now) result (labelled symbols.Identifier (identifier_label name) ∷ lexemes source.now tokens.now) (reading depth (the symbols.Colon ⨾ (loop_rule ∣ block_rule)) (lexemes source.now tokens.now)) }
{
    let rest = read_or_drop!(expect(source, tokens, Symbol::Colon), name);
    if is_loop_next(source, rest) {
        let (statement, rest) = read_or_drop!(loop_statement(alloc, source, depth, rest), name);
        return Ok((
            Statement::looping(Some(name), boxed(alloc, statement)?),
            rest,
        ));
    }
    let (statement, rest) = read_or_drop!(block_statement(alloc, source, depth, rest), name);
    Ok((Statement::block(Some(name), boxed(alloc, statement)?), rest))
}

/// A statement that holds others.
#[cycle(body)]
fn compound_statement<'a>(
    alloc: Global,
    source: &[u8],
    depth: u32,
    tokens: &'a [Token],
) -> Result<(Statement, &'a [Token]), Stop>
    ensures { Gives (λ x. statement_tokens (statement_model x.0)) (λ x. lexemes source.now x.1.now) result (lexemes source.now tokens.now) (reading depth (opens_at symbols.If constructs.IfStatement ∣ opens_at symbols.Case constructs.CaseStatement ∣ loop_rule ∣ block_rule) (lexemes source.now tokens.now)) }
{
    if is_next(source, tokens, Symbol::If) {
        let (inner, opening, rest) = enter_at(source, depth, tokens, Symbol::If)?;
        let (statement, rest) = if_statement(alloc, source, inner, opening, rest)?;
        return Ok((Statement::branching(boxed(alloc, statement)?), rest));
    }
    if is_next(source, tokens, Symbol::Case) {
        let (inner, opening, rest) = enter_at(source, depth, tokens, Symbol::Case)?;
        let (statement, rest) = case_statement(alloc, source, inner, opening, rest)?;
        return Ok((Statement::case(boxed(alloc, statement)?), rest));
    }
    if is_loop_next(source, tokens) {
        let (statement, rest) = loop_statement(alloc, source, depth, tokens)?;
        return Ok((Statement::looping(None, boxed(alloc, statement)?), rest));
    }
    let (statement, rest) = block_statement(alloc, source, depth, tokens)?;
    Ok((Statement::block(None, boxed(alloc, statement)?), rest))
}

/// What comes after `if` (ARM 5.3).
#[cycle(body)]
#[tactic(auto, unfolding(al_tree_syntax::specs::Rules::grammar, al_tree_syntax::specs::Rules::inside, al_tree_syntax::specs::Constructs::construct_at, al_tree_syntax::specs::Statements::if_rule))]
fn if_statement<'a>(
    alloc: Global,
    source: &[u8],
    depth: u32,
    opening: Place,
    tokens: &'a [Token],
) -> Result<(IfStatement, &'a [Token]), Stop>
    ensures { Gives (λ x. statement_tokens (if_model x.0)) (λ x. lexemes source.now x.1.now) result (labelled symbols.If (place_label opening) ∷ lexemes source.now tokens.now) (reading depth (grammar (place constructs.IfStatement)) (lexemes source.now tokens.now)) }
{
    let (first, rest) = branch(alloc, source, depth, tokens)?;
    let (others, rest) = read_or_drop!(elsifs(alloc, source, depth, rest), first);
    let (otherwise, rest) = read_or_drop!(otherwise(alloc, source, depth, rest), (first, others));
    let (end, closing, rest) = read_or_drop!(
        closing_words(source, Symbol::If, rest),
        (first, others, otherwise)
    );
    Ok((
        IfStatement::new(opening, first, others, otherwise, end, closing),
        rest,
    ))
}

/// `condition then statements`
#[cycle(body)]
#[tactic(auto, unfolding(al_tree_syntax::specs::Statements::branch_rule))]
fn branch<'a>(
    alloc: Global,
    source: &[u8],
    depth: u32,
    tokens: &'a [Token],
) -> Result<(Branch, &'a [Token]), Stop>
    ensures { Gives (λ x. branch_tokens (branch_model x.0)) (λ x. lexemes source.now x.1.now) result (lexemes source.now tokens.now) (reading depth branch_rule (lexemes source.now tokens.now)) }
{
    let (condition, rest) = expression(alloc, source, depth, tokens)?;
    let rest = read_or_drop!(expect(source, rest, Symbol::Then), condition);
    let (statements, rest) = read_or_drop!(statements(alloc, source, depth, rest), condition);
    Ok((Branch::new(condition, statements), rest))
}

/// A branch after `elsif`.
#[cycle(body)]
fn elsif<'a>(
    alloc: Global,
    source: &[u8],
    depth: u32,
    tokens: &'a [Token],
) -> Result<(ElsifBranch, &'a [Token]), Stop>
    ensures { Gives (λ x. elsif_tokens x.0) (λ x. lexemes source.now x.1.now) result (lexemes source.now tokens.now) (reading depth (any symbols.Elsif ⨾ branch_rule) (lexemes source.now tokens.now)) }
{
    let (opening, rest) = word_at(source, tokens, Symbol::Elsif)?;
    let (branch, rest) = branch(alloc, source, depth, rest)?;
    Ok((ElsifBranch::new(opening, branch), rest))
}

/// Branches after `elsif`.
#[cycle(body)]
fn elsifs<'a>(
    alloc: Global,
    source: &[u8],
    depth: u32,
    tokens: &'a [Token],
) -> Result<(Vec<ElsifBranch>, &'a [Token]), Stop>
    ensures { Gives (λ x. each elsif_tokens x.0.items) (λ x. lexemes source.now x.1.now) result (lexemes source.now tokens.now) (reading depth (Many (any symbols.Elsif ⨾ branch_rule)) (lexemes source.now tokens.now)) }
{
    let mut items = Vec::new(alloc);
    let mut rest = tokens;
    'more: while is_next(source, rest, Symbol::Elsif) {
        let (next, after) = elsif(alloc, source, depth, rest)?;
        append(&mut items, next)?;
        rest = after;
    }
    Ok((items, rest))
}

/// `[else statements]`
#[cycle(body)]
fn otherwise<'a>(
    alloc: Global,
    source: &[u8],
    depth: u32,
    tokens: &'a [Token],
) -> Result<(Option<Statements>, &'a [Token]), Stop>
    ensures { Gives (λ x. else_tokens (else_of (option_map statements_model x.0))) (λ x. lexemes source.now x.1.now) result (lexemes source.now tokens.now) (reading depth (Opt (the symbols.Else ⨾ statements_rule)) (lexemes source.now tokens.now)) }
{
    match skip(source, tokens, Symbol::Else) {
        None => Ok((None, tokens)),
        Some(rest) => {
            let (statements, rest) = statements(alloc, source, depth, rest)?;
            Ok((Some(statements), rest))
        }
    }
}

/// What comes after `case` (ARM 5.4).
#[cycle(body)]
#[tactic(auto, unfolding(al_tree_syntax::specs::Rules::grammar, al_tree_syntax::specs::Rules::inside, al_tree_syntax::specs::Constructs::construct_at, al_tree_syntax::specs::Statements::case_rule))]
fn case_statement<'a>(
    alloc: Global,
    source: &[u8],
    depth: u32,
    opening: Place,
    tokens: &'a [Token],
) -> Result<(CaseStatement, &'a [Token]), Stop>
    ensures { Gives (λ x. statement_tokens (case_model x.0)) (λ x. lexemes source.now x.1.now) result (labelled symbols.Case (place_label opening) ∷ lexemes source.now tokens.now) (reading depth (grammar (place constructs.CaseStatement)) (lexemes source.now tokens.now)) }
{
    let (selector, rest) = expression(alloc, source, depth, tokens)?;
    let rest = read_or_drop!(expect(source, rest, Symbol::Is), selector);
    let (first, rest) = read_or_drop!(alternative(alloc, source, depth, rest), selector);
    let (others, rest) = read_or_drop!(
        more_alternatives(alloc, source, depth, rest),
        (selector, first)
    );
    let (end, closing, rest) = read_or_drop!(
        closing_words(source, Symbol::Case, rest),
        (selector, first, others)
    );
    Ok((
        CaseStatement::new(opening, selector, first, others, end, closing),
        rest,
    ))
}

/// `when choice {| choice} => statements`
#[cycle(body)]
#[tactic(auto, unfolding(al_tree_syntax::specs::Statements::alternative_rule))]
fn alternative<'a>(
    alloc: Global,
    source: &[u8],
    depth: u32,
    tokens: &'a [Token],
) -> Result<(Alternative, &'a [Token]), Stop>
    ensures { Gives (λ x. alternative_tokens (alternative_model x.0)) (λ x. lexemes source.now x.1.now) result (lexemes source.now tokens.now) (reading depth alternative_rule (lexemes source.now tokens.now)) }
{
    let rest = expect(source, tokens, Symbol::When)?;
    let (first, others, rest) = choices(alloc, source, depth, rest)?;
    let rest = read_or_drop!(expect(source, rest, Symbol::Arrow), (first, others));
    let (statements, rest) = read_or_drop!(statements(alloc, source, depth, rest), (first, others));
    Ok((Alternative::new(first, others, statements), rest))
}

#[cycle(body)]
fn more_alternatives<'a>(
    alloc: Global,
    source: &[u8],
    depth: u32,
    tokens: &'a [Token],
) -> Result<(Vec<Alternative>, &'a [Token]), Stop>
    ensures { Gives (λ x. each (λ y. alternative_tokens (alternative_model y)) x.0.items) (λ x. lexemes source.now x.1.now) result (lexemes source.now tokens.now) (reading depth (Many alternative_rule) (lexemes source.now tokens.now)) }
{
    let mut items = Vec::new(alloc);
    let mut rest = tokens;
    'more: while is_next(source, rest, Symbol::When) {
        let (next, after) = alternative(alloc, source, depth, rest)?;
        append(&mut items, next)?;
        rest = after;
    }
    Ok((items, rest))
}

/// ARM 5.5
#[cycle(body)]
#[tactic(auto, unfolding(al_tree_syntax::specs::Statements::loop_rule, al_tree_syntax::specs::Rules::grammar, al_tree_syntax::specs::Rules::inside, al_tree_syntax::specs::Constructs::construct_at))]
fn loop_statement<'a>(
    alloc: Global,
    source: &[u8],
    depth: u32,
    tokens: &'a [Token],
) -> Result<(LoopStatement, &'a [Token]), Stop>
    ensures { Gives (λ x. loop_tokens (loop_model x.0)) (λ x. lexemes source.now x.1.now) result (lexemes source.now tokens.now) (reading depth loop_rule (lexemes source.now tokens.now)) }
{
    if is_next(source, tokens, Symbol::Loop) {
        let (inner, opening, rest) = enter_at(source, depth, tokens, Symbol::Loop)?;
        let (statements, end, rest) = loop_body(alloc, source, inner, rest)?;
        return Ok((LoopStatement::plain_loop(opening, statements, end), rest));
    }
    if is_next(source, tokens, Symbol::While) {
        let (inner, opening, rest) = enter_at(source, depth, tokens, Symbol::While)?;
        let (statement, rest) = while_loop(alloc, source, inner, opening, rest)?;
        return Ok((statement, rest));
    }
    let (inner, opening, rest) = enter_at(source, depth, tokens, Symbol::For)?;
    let (statement, rest) = for_loop(alloc, source, inner, opening, rest)?;
    Ok((statement, rest))
}

#[cycle(body)]
#[tactic(auto, unfolding(al_tree_syntax::specs::Statements::plain_loop_rule, al_tree_syntax::specs::Expressions::identifier_rule))]
fn loop_body<'a>(
    alloc: Global,
    source: &[u8],
    depth: u32,
    tokens: &'a [Token],
) -> Result<(Statements, LoopEnd, &'a [Token]), Stop>
    ensures { Gives (λ x. statements_tokens (statements_model x.0) ++ loop_end_tokens (loop_end_model x.1)) (λ x. lexemes source.now x.2.now) result (lexemes source.now tokens.now) (reading depth plain_loop_rule (lexemes source.now tokens.now)) }
{
    let (statements, rest) = statements(alloc, source, depth, tokens)?;
    let (end, rest) = read_or_drop!(loop_end(alloc, source, rest), statements);
    Ok((statements, end, rest))
}

#[cycle(body)]
#[tactic(auto, unfolding(al_tree_syntax::specs::Statements::while_rule))]
fn while_loop<'a>(
    alloc: Global,
    source: &[u8],
    depth: u32,
    opening: Place,
    tokens: &'a [Token],
) -> Result<(LoopStatement, &'a [Token]), Stop>
    ensures { Gives (λ x. loop_tokens (loop_model x.0)) (λ x. lexemes source.now x.1.now) result (labelled symbols.While (place_label opening) ∷ lexemes source.now tokens.now) (reading depth while_rule (lexemes source.now tokens.now)) }
{
    let (condition, rest) = expression(alloc, source, depth, tokens)?;
    let (body, rest) = read_or_drop!(word_at(source, rest, Symbol::Loop), condition);
    let (statements, end, rest) = read_or_drop!(loop_body(alloc, source, depth, rest), condition);
    Ok((
        LoopStatement::while_loop(opening, condition, body, statements, end),
        rest,
    ))
}

#[cycle(body)]
#[tactic(auto, unfolding(al_tree_syntax::specs::Statements::for_rule, al_tree_syntax::specs::Expressions::identifier_rule))]
fn for_loop<'a>(
    alloc: Global,
    source: &[u8],
    depth: u32,
    opening: Place,
    tokens: &'a [Token],
) -> Result<(LoopStatement, &'a [Token]), Stop>
    ensures { Gives (λ x. loop_tokens (loop_model x.0)) (λ x. lexemes source.now x.1.now) result (labelled symbols.For (place_label opening) ∷ lexemes source.now tokens.now) (reading depth for_rule (lexemes source.now tokens.now)) }
{
    let (parameter, rest) = identifier(alloc, source, tokens)?;
    let rest = read_or_drop!(expect(source, rest, Symbol::In), parameter);
    let (is_reverse, rest) = flag(source, rest, Symbol::Reverse);
    let (range, rest) = read_or_drop!(discrete_range(alloc, source, depth, rest), parameter);
    let (body, rest) = read_or_drop!(word_at(source, rest, Symbol::Loop), (parameter, range));
    let (statements, end, rest) = read_or_drop!(
        loop_body(alloc, source, depth, rest),
        (parameter, range)
    );
    Ok((
        LoopStatement::for_loop(opening, parameter, is_reverse, range, body, statements, end),
        rest,
    ))
}

/// ARM 5.6
#[cycle(body)]
#[tactic(auto, unfolding(al_tree_syntax::specs::Statements::block_rule, al_tree_syntax::specs::Rules::grammar, al_tree_syntax::specs::Rules::inside, al_tree_syntax::specs::Constructs::construct_at))]
fn block_statement<'a>(
    alloc: Global,
    source: &[u8],
    depth: u32,
    tokens: &'a [Token],
) -> Result<(BlockStatement, &'a [Token]), Stop>
    ensures { Gives (λ x. block_tokens (block_model x.0)) (λ x. lexemes source.now x.1.now) result (lexemes source.now tokens.now) (reading depth block_rule (lexemes source.now tokens.now)) }
{
    if is_next(source, tokens, Symbol::Declare) {
        let (inner, opening, rest) = enter_at(source, depth, tokens, Symbol::Declare)?;
        let (statements, rest) = declared_statements(alloc, source, inner, rest)?;
        return Ok((BlockStatement::declare_block(opening, statements), rest));
    }
    let (inner, opening, rest) = enter_at(source, depth, tokens, Symbol::Begin)?;
    let (statements, end, rest) = plain_block(alloc, source, inner, rest)?;
    Ok((BlockStatement::plain_block(opening, statements, end), rest))
}

/// What comes after `begin`.
#[cycle(body)]
#[tactic(auto, unfolding(al_tree_syntax::specs::Statements::plain_block_rule, al_tree_syntax::specs::Expressions::identifier_rule))]
fn plain_block<'a>(
    alloc: Global,
    source: &[u8],
    depth: u32,
    tokens: &'a [Token],
) -> Result<(Statements, NamedEnd, &'a [Token]), Stop>
    ensures { Gives (λ x. statements_tokens (statements_model x.0) ++ named_end_tokens (named_end_model x.1)) (λ x. lexemes source.now x.2.now) result (lexemes source.now tokens.now) (reading depth plain_block_rule (lexemes source.now tokens.now)) }
{
    let (statements, rest) = statements(alloc, source, depth, tokens)?;
    let (end, rest) = read_or_drop!(named_end(alloc, source, rest), statements);
    Ok((statements, end, rest))
}

/// `declarations begin statements end [name];`
#[cycle(body)]
#[tactic(auto, unfolding(al_tree_syntax::specs::Statements::declare_rule))]
pub(crate) fn declared_statements<'a>(
    alloc: Global,
    source: &[u8],
    depth: u32,
    tokens: &'a [Token],
) -> Result<(DeclaredStatements, &'a [Token]), Stop>
    ensures { Gives (λ x. handled_tokens (handled_model x.0)) (λ x. lexemes source.now x.1.now) result (lexemes source.now tokens.now) (reading depth declare_rule (lexemes source.now tokens.now)) }
{
    let (items, rest) = items(alloc, source, depth, tokens)?;
    let (begin, rest) = read_or_drop!(word_at(source, rest, Symbol::Begin), items);
    let (statements, end, rest) = read_or_drop!(plain_block(alloc, source, depth, rest), items);
    Ok((DeclaredStatements::new(items, begin, statements, end), rest))
}

/// A declarative part (ARM 3.11).
#[cycle(body)]
pub(crate) fn items<'a>(
    alloc: Global,
    source: &[u8],
    depth: u32,
    tokens: &'a [Token],
) -> Result<(Vec<Item>, &'a [Token]), Stop>
    ensures { Gives (λ x. each (λ y. item_tokens (item_model y)) x.0.items) (λ x. lexemes source.now x.1.now) result (lexemes source.now tokens.now) (reading depth (Many item_rule) (lexemes source.now tokens.now)) }
{
    let mut items = Vec::new(alloc);
    let mut rest = tokens;
    'more: while is_item_next(source, rest) {
        let (next, after) = item(alloc, source, depth, rest)?;
        append(&mut items, next)?;
        rest = after;
    }
    Ok((items, rest))
}

/// An item of a declarative part.
#[cycle(body)]
#[tactic(auto, unfolding(al_tree_syntax::specs::Declarations::item_rule))]
fn item<'a>(
    alloc: Global,
    source: &[u8],
    depth: u32,
    tokens: &'a [Token],
) -> Result<(Item, &'a [Token]), Stop>
    ensures { Gives (λ x. item_tokens (item_model x.0)) (λ x. lexemes source.now x.1.now) result (lexemes source.now tokens.now) (reading depth item_rule (lexemes source.now tokens.now)) }
{
    if is_common_next(source, tokens) {
        let (declaration, rest) = common_declaration(alloc, source, depth, tokens)?;
        return Ok((Item::common(declaration), rest));
    }
    if is_subprogram_next(source, tokens) {
        let (specification, rest) = specification(alloc, source, depth, tokens)?;
        let (item, rest) = completion(alloc, source, depth, specification, rest)?;
        return Ok((item, rest));
    }
    if let Some((opening, rest)) = skip_at(source, tokens, Symbol::Task) {
        let (item, rest) = task_item(alloc, source, depth, opening, rest)?;
        return Ok((item, rest));
    }
    let (inner, opening, rest) = enter_at(source, depth, tokens, Symbol::Protected)?;
    let (item, rest) = protected_item(alloc, source, inner, opening, rest)?;
    Ok((item, rest))
}

/// What comes after the specification of a subprogram: a declaration, a stub or a body.
#[cycle(body)]
#[tactic(auto, unfolding(al_tree_syntax::specs::Declarations::subprogram_rule))]
fn completion<'a>(
    alloc: Global,
    source: &[u8],
    depth: u32,
    specification: Specification,
    tokens: &'a [Token],
) -> Result<(Item, &'a [Token]), Stop>
    ensures { Gives (λ x. item_tokens (item_model x.0)) (λ x. lexemes source.now x.1.now) result (specification_tokens (specification_model specification) ++ lexemes source.now tokens.now) (reading depth subprogram_rule (lexemes source.now tokens.now)) }
{
    if let Some(rest) = skip(source, tokens, Symbol::Semicolon) {
        return Ok((Item::subprogram(specification), rest));
    }
    let (item, rest) = body_or_stub(alloc, source, depth, specification, tokens)?;
    Ok((item, rest))
}

/// A body, or a stub; only a stub if no more construct may be open.
#[cycle(body)]
fn body_or_stub<'a>(
    alloc: Global,
    source: &[u8],
    depth: u32,
    specification: Specification,
    tokens: &'a [Token],
) -> Result<(Item, &'a [Token]), Stop>
    ensures { Gives (λ x. item_tokens (item_model x.0)) (λ x. lexemes source.now x.1.now) result (specification_tokens (specification_model specification) ++ lexemes source.now tokens.now) (reading depth (RoomOr (opens symbols.Is constructs.BodyOrStub) (the symbols.Is ⨾ any symbols.Separate ⨾ the symbols.Semicolon)) (lexemes source.now tokens.now)) }
{
    if depth == 0 {
        let (item, rest) = stub(source, specification, tokens)?;
        return Ok((item, rest));
    }
    let (item, rest) = opened_body(alloc, source, depth, specification, tokens)?;
    Ok((item, rest))
}

/// `is`, and a stub or a body after it.
#[cycle(body)]
#[tactic(auto, unfolding(al_tree_syntax::specs::Rules::grammar, al_tree_syntax::specs::Rules::inside, al_tree_syntax::specs::Constructs::construct_at))]
fn opened_body<'a>(
    alloc: Global,
    source: &[u8],
    depth: u32,
    specification: Specification,
    tokens: &'a [Token],
) -> Result<(Item, &'a [Token]), Stop>
    ensures { Gives (λ x. item_tokens (item_model x.0)) (λ x. lexemes source.now x.1.now) result (specification_tokens (specification_model specification) ++ lexemes source.now tokens.now) (reading depth (opens symbols.Is constructs.BodyOrStub) (lexemes source.now tokens.now)) }
{
    let (inner, rest) = enter(source, depth, tokens, Symbol::Is)?;
    if let Some((separate, rest)) = skip_at(source, rest, Symbol::Separate) {
        let rest = expect(source, rest, Symbol::Semicolon)?;
        return Ok((Item::stub(specification, separate), rest));
    }
    let (body, rest) = read_or_drop!(subprogram_body(alloc, source, inner, rest), specification);
    Ok((Item::body(specification, body), rest))
}

/// What a subprogram's body has after `is` (ARM 6.3).
#[cycle(body)]
#[tactic(auto, unfolding(al_tree_syntax::specs::Units::subprogram_body_rule, al_tree_syntax::specs::Expressions::compound_name_rule, al_tree_syntax::specs::Expressions::identifier_rule))]
pub(crate) fn subprogram_body<'a>(
    alloc: Global,
    source: &[u8],
    depth: u32,
    tokens: &'a [Token],
) -> Result<(SubprogramBody, &'a [Token]), Stop>
    ensures { Gives (λ x. body_tokens (body_model x.0)) (λ x. lexemes source.now x.1.now) result (lexemes source.now tokens.now) (reading depth subprogram_body_rule (lexemes source.now tokens.now)) }
{
    let (items, rest) = items(alloc, source, depth, tokens)?;
    let (begin, rest) = read_or_drop!(word_at(source, rest, Symbol::Begin), items);
    let (statements, rest) = read_or_drop!(statements(alloc, source, depth, rest), items);
    let (end, rest) = read_or_drop!(compound_end(alloc, source, rest), (items, statements));
    Ok((SubprogramBody::new(items, begin, statements, end), rest))
}

/// The body of a subprogram (ARM 6.3).
#[cycle(body)]
#[tactic(auto, unfolding(al_tree_syntax::specs::Rules::grammar, al_tree_syntax::specs::Rules::inside, al_tree_syntax::specs::Constructs::construct_at))]
pub(crate) fn proper_body<'a>(
    alloc: Global,
    source: &[u8],
    depth: u32,
    tokens: &'a [Token],
) -> Result<(Specification, SubprogramBody, &'a [Token]), Stop>
    ensures { Gives (λ x. specification_tokens (specification_model x.0) ++ word symbols.Is ∷ body_tokens (body_model x.1)) (λ x. lexemes source.now x.2.now) result (lexemes source.now tokens.now) (reading depth (specification_rule ⨾ opens symbols.Is constructs.SubprogramBody) (lexemes source.now tokens.now)) }
{
    let (specification, rest) = specification(alloc, source, depth, tokens)?;
    let (inner, rest) = read_or_drop!(enter(source, depth, rest, Symbol::Is), specification);
    let (body, rest) = read_or_drop!(subprogram_body(alloc, source, inner, rest), specification);
    Ok((specification, body, rest))
}

/// What comes after `task`: a declaration or a body (ARM 9.1).
#[cycle(body)]
fn task_item<'a>(
    alloc: Global,
    source: &[u8],
    depth: u32,
    opening: Place,
    tokens: &'a [Token],
) -> Result<(Item, &'a [Token]), Stop>
    ensures { Gives (λ x. item_tokens (item_model x.0)) (λ x. lexemes source.now x.1.now) result (labelled symbols.Task (place_label opening) ∷ lexemes source.now tokens.now) (reading depth (task_rule ∣ opens symbols.Body constructs.TaskBody) (lexemes source.now tokens.now)) }
{
    if is_task_next(source, tokens) {
        let (name, aspect, rest) = task_declaration(alloc, source, depth, tokens)?;
        return Ok((
            Item::task(TaskDeclaration {
                opening,
                name,
                aspect,
            }),
            rest,
        ));
    }
    let (inner, rest) = enter(source, depth, tokens, Symbol::Body)?;
    let (name, statements, rest) = task_body(alloc, source, inner, rest)?;
    Ok((Item::task_body(opening, name, statements), rest))
}

/// What comes after `task body`.
#[cycle(body)]
#[tactic(auto, unfolding(al_tree_syntax::specs::Rules::grammar, al_tree_syntax::specs::Rules::inside, al_tree_syntax::specs::Constructs::construct_at, al_tree_syntax::specs::Expressions::identifier_rule))]
fn task_body<'a>(
    alloc: Global,
    source: &[u8],
    depth: u32,
    tokens: &'a [Token],
) -> Result<(Identifier, DeclaredStatements, &'a [Token]), Stop>
    ensures { Gives (λ x. identifier_token (identifier_label x.0) ∷ word symbols.Is ∷ handled_tokens (handled_model x.1)) (λ x. lexemes source.now x.2.now) result (lexemes source.now tokens.now) (reading depth (grammar (place constructs.TaskBody)) (lexemes source.now tokens.now)) }
{
    let (name, rest) = identifier(alloc, source, tokens)?;
    let rest = read_or_drop!(expect(source, rest, Symbol::Is), name);
    let (statements, rest) = read_or_drop!(declared_statements(alloc, source, depth, rest), name);
    Ok((name, statements, rest))
}
