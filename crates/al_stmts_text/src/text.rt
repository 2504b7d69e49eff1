// The walk over statements, blocks and bodies.
ghost use Rattle.std.specs.Prelude.{◌≡◌, IfOk, OnOk, map, option_map};
ghost use Rattle.al_base_fault.specs.Judging.{map_ok};
ghost use Rattle.al_query.specs.Reads.{FromAnswers};
ghost use Rattle.al_tree.specs.DeclarationViews.{specification_model};
ghost use Rattle.al_tree.specs.ExpressionViews.{expression_model};
ghost use Rattle.al_tree.specs.Lexemes.{identifier_label, place_label};
ghost use Rattle.al_tree.specs.StatementViews.{alternative_model, alternatives_of, block_model, body_model, branch_model, case_model, elsif_model, elsifs_of, else_of, handled_model, if_model, item_model, items_of, loop_model, more_statements_of, named_end_model, operation_bodies_of, operation_body_model, statement_model, statements_model};
ghost use Rattle.al_view_typed.specs.StatementViews.{scheme_model};
ghost use Rattle.al_stmts.specs.Steps.{in_loop};
ghost use Rattle.al_stmts.specs.Views.{effects_model};
ghost use Rattle.al_stmts.specs.Walking.{alternative_walked, alternatives_walked, body_walked, branch_walked, closed, elsifs_walked, else_walked, end_of, entry_walked, for_walked, handled_walked, inner_block_walked, inner_loop_walked, inside_after, item_walked, items_walked, loop_walked, more_walked, operation_walked, operations_walked, part_after, statement_walked, statements_walked, task_walked, walked_after, walked_body};
ghost use Rattle.al_stmts_text.specs.Parts.{all_alternatives, all_branches, declared_entered, declared_headed, declared_inside, object_walked, opened_walked, subprogram_entered, subprogram_headed, subprogram_inside};
ghost use Rattle.al_stmts.specs.WalkedViews.{all_model, branching_model, choosing_model, inside_model, one_model, part_model};

use crate::analyzer::Analyzer;
use crate::assignments::walk_assignment;
use crate::bodies::{enter_body, finish_body, finish_object};
use crate::calls::walk_call;
use crate::heads::{case_head, for_head, while_head};
use crate::items::{declared_item, object_item, stub_item, subprogram_item, task_item};
use crate::plain::{walk_delay, walk_exit, walk_null};
use crate::regions::{broken_loop, close_part, finish_block, left_region};
use crate::returns::walk_return;
use al_base::{NoMemory, Place};
use al_base_fault::CheckResult;
use al_stmts::{
    BodyExtent, Enclosing, WalkedAlternatives, WalkedBranches, WalkedInside, WalkedPart,
    WalkedStatement, WalkedStatements, end_of, end_of_named, has_return, named_extent, named_line,
    no_return_fault, subprogram_extent,
};
use al_tree::{
    Alternative, BlockStatement, Branch, CaseStatement, DeclaredStatements, ElsifBranch,
    Expression, Identifier, IfStatement, Item, LoopStatement, NamedEnd, OperationBody,
    Specification, Statement, Statements, SubprogramBody,
};
use al_view_typed::{LoopScheme, TypedDeclaration};
use std::alloc::Global;

/// Statements, one after another until the list of faults has ended (ARM 5.1).
/// # Errors
/// `NoMemory` if the allocator refuses memory.
#[cycle(walk)]
pub fn check_statements<R: Analyzer>(
    analyzer: &mut R,
    enclosing: &mut Enclosing,
    statements: &Statements,
) -> Result<WalkedStatements, NoMemory>
    ensures asked { R.asked analyzer.new ≡ R.asked analyzer.old }
    ensures kept { enclosing.new ≡ enclosing.old }
    ensures answered { IfOk result (λ done. FromAnswers (R.log analyzer.old) (R.log analyzer.new) (λ t. (R.env analyzer.new, all_model done) ≡ statements_walked (R.reading t) enclosing.old (R.env analyzer.old) (statements_model statements.now))) }
{
    let first = check_statement(analyzer, enclosing, &statements.first)?;
    let mut so_far = WalkedStatements::first(enclosing.alloc(), first)?;
    match more_statements(analyzer, enclosing, &statements.others, &mut so_far) {
        Ok(()) => Ok(so_far),
        Err(error) => Err(error),
    }
}

/// The statements after the first one.
#[cycle(walk)]
fn more_statements<R: Analyzer>(
    analyzer: &mut R,
    enclosing: &mut Enclosing,
    others: &[Statement],
    so_far: &mut WalkedStatements,
) -> Result<(), NoMemory>
    ensures asked { R.asked analyzer.new ≡ R.asked analyzer.old }
    ensures kept { enclosing.new ≡ enclosing.old }
    ensures answered { OnOk result (FromAnswers (R.log analyzer.old) (R.log analyzer.new) (λ t. (R.env analyzer.new, all_model so_far.new) ≡ walked_after (R.env analyzer.old, all_model so_far.old) (more_walked (R.reading t) enclosing.old (R.env analyzer.old) (more_statements_of (map statement_model others.now))))) }
{
    for statement in others {
        if so_far.is_ended() {
            return Ok(());
        }
        let one = check_statement(analyzer, enclosing, statement)?;
        so_far.add(one)?;
    }
    Ok(())
}

/// A statement.
#[cycle(walk)]
fn check_statement<R: Analyzer>(
    analyzer: &mut R,
    enclosing: &mut Enclosing,
    statement: &Statement,
) -> Result<WalkedStatement, NoMemory>
    ensures asked { R.asked analyzer.new ≡ R.asked analyzer.old }
    ensures kept { enclosing.new ≡ enclosing.old }
    ensures answered { IfOk result (λ done. FromAnswers (R.log analyzer.old) (R.log analyzer.new) (λ t. (R.env analyzer.new, one_model done) ≡ statement_walked (R.reading t) enclosing.old (R.env analyzer.old) (statement_model statement.now))) }
{
    match statement {
        Statement::Null => walk_null(enclosing),
        Statement::Assignment(inner) => walk_assignment(analyzer, enclosing, inner),
        Statement::Call(name) => walk_call(analyzer, enclosing, name),
        Statement::Return(inner) => walk_return(analyzer, enclosing, inner),
        Statement::Exit(inner) => walk_exit(analyzer, enclosing, inner),
        Statement::Delay(inner) => walk_delay(analyzer, enclosing, inner),
        Statement::If(inner) => check_if(analyzer, enclosing, inner),
        Statement::Case(inner) => check_case(analyzer, enclosing, inner),
        Statement::Loop(name, inner) => check_loop(analyzer, enclosing, inner, name),
        Statement::Block(name, inner) => check_block(analyzer, enclosing, inner, name),
    }
}

/// An if statement (ARM 5.3).
#[cycle(walk)]
fn check_if<R: Analyzer>(
    analyzer: &mut R,
    enclosing: &mut Enclosing,
    statement: &IfStatement,
) -> Result<WalkedStatement, NoMemory>
    ensures asked { R.asked analyzer.new ≡ R.asked analyzer.old }
    ensures kept { enclosing.new ≡ enclosing.old }
    ensures answered { IfOk result (λ done. FromAnswers (R.log analyzer.old) (R.log analyzer.new) (λ t. (R.env analyzer.new, one_model done) ≡ statement_walked (R.reading t) enclosing.old (R.env analyzer.old) (if_model statement.now))) }
{
    let mut so_far = WalkedBranches::new(enclosing.alloc());
    match check_branches(analyzer, enclosing, statement, &mut so_far) {
        Ok(()) => so_far.finish(enclosing.alloc(), statement.opening.line as usize),
        Err(error) => Err(error),
    }
}

/// All branches of an if statement.
#[cycle(walk)]
fn check_branches<R: Analyzer>(
    analyzer: &mut R,
    enclosing: &mut Enclosing,
    statement: &IfStatement,
    so_far: &mut WalkedBranches,
) -> Result<(), NoMemory>
    ensures asked { R.asked analyzer.new ≡ R.asked analyzer.old }
    ensures kept { enclosing.new ≡ enclosing.old }
    ensures answered { OnOk result (FromAnswers (R.log analyzer.old) (R.log analyzer.new) (λ t. (R.env analyzer.new, branching_model so_far.new) ≡ all_branches (R.reading t) enclosing.old (R.env analyzer.old, branching_model so_far.old) statement.now)) }
{
    let line = statement.opening.line as usize;
    check_branch(analyzer, enclosing, &statement.first, line, so_far)?;
    more_branches(analyzer, enclosing, &statement.others, so_far)?;
    check_otherwise(analyzer, enclosing, &statement.otherwise, so_far)
}

/// A branch, with the line of its `if` or `elsif`.
#[cycle(walk)]
fn check_branch<R: Analyzer>(
    analyzer: &mut R,
    enclosing: &mut Enclosing,
    branch: &Branch,
    line: usize,
    so_far: &mut WalkedBranches,
) -> Result<(), NoMemory>
    ensures asked { R.asked analyzer.new ≡ R.asked analyzer.old }
    ensures kept { enclosing.new ≡ enclosing.old }
    ensures answered { OnOk result (FromAnswers (R.log analyzer.old) (R.log analyzer.new) (λ t. (R.env analyzer.new, branching_model so_far.new) ≡ branch_walked (R.reading t) enclosing.old (R.env analyzer.old, branching_model so_far.old) line (branch_model branch.now))) }
{
    let condition = analyzer.condition(&branch.condition)?;
    match check_statements(analyzer, enclosing, &branch.statements) {
        Ok(inner) => so_far.add(line, condition, inner),
        Err(error) => {
            drop(condition);
            Err(error)
        }
    }
}

/// The branches after the first one.
#[cycle(walk)]
fn more_branches<R: Analyzer>(
    analyzer: &mut R,
    enclosing: &mut Enclosing,
    others: &[ElsifBranch],
    so_far: &mut WalkedBranches,
) -> Result<(), NoMemory>
    ensures asked { R.asked analyzer.new ≡ R.asked analyzer.old }
    ensures kept { enclosing.new ≡ enclosing.old }
    ensures answered { OnOk result (FromAnswers (R.log analyzer.old) (R.log analyzer.new) (λ t. (R.env analyzer.new, branching_model so_far.new) ≡ elsifs_walked (R.reading t) enclosing.old (R.env analyzer.old, branching_model so_far.old) (elsifs_of (map elsif_model others.now)))) }
{
    for other in others {
        if so_far.is_ended() {
            return Ok(());
        }
        let line = other.opening.line as usize;
        check_branch(analyzer, enclosing, &other.branch, line, so_far)?;
    }
    Ok(())
}

/// The statements after `else`.
#[cycle(walk)]
fn check_otherwise<R: Analyzer>(
    analyzer: &mut R,
    enclosing: &mut Enclosing,
    otherwise: &Option<Statements>,
    so_far: &mut WalkedBranches,
) -> Result<(), NoMemory>
    ensures asked { R.asked analyzer.new ≡ R.asked analyzer.old }
    ensures kept { enclosing.new ≡ enclosing.old }
    ensures answered { OnOk result (FromAnswers (R.log analyzer.old) (R.log analyzer.new) (λ t. (R.env analyzer.new, branching_model so_far.new) ≡ else_walked (R.reading t) enclosing.old (R.env analyzer.old, branching_model so_far.old) (else_of (option_map statements_model otherwise.now)))) }
{
    match otherwise {
        Some(statements) => {
            if so_far.is_ended() {
                return Ok(());
            }
            let inner = check_statements(analyzer, enclosing, statements)?;
            so_far.add_otherwise(inner)
        }
        None => Ok(()),
    }
}

/// A case statement (ARM 5.4).
#[cycle(walk)]
fn check_case<R: Analyzer>(
    analyzer: &mut R,
    enclosing: &mut Enclosing,
    statement: &CaseStatement,
) -> Result<WalkedStatement, NoMemory>
    ensures asked { R.asked analyzer.new ≡ R.asked analyzer.old }
    ensures kept { enclosing.new ≡ enclosing.old }
    ensures answered { IfOk result (λ done. FromAnswers (R.log analyzer.old) (R.log analyzer.new) (λ t. (R.env analyzer.new, one_model done) ≡ statement_walked (R.reading t) enclosing.old (R.env analyzer.old) (case_model statement.now))) }
{
    let opening = statement.opening;
    let selector = &statement.selector;
    let mut so_far = case_head(
        analyzer,
        enclosing.alloc(),
        opening,
        selector,
        &statement.first,
        &statement.others,
    )?;
    match check_alternatives(analyzer, enclosing, statement, &mut so_far) {
        Ok(()) => so_far.finish(enclosing.alloc(), opening.line as usize),
        Err(error) => {
            drop(so_far);
            Err(error)
        }
    }
}

/// All alternatives of a case statement.
#[cycle(walk)]
fn check_alternatives<R: Analyzer>(
    analyzer: &mut R,
    enclosing: &mut Enclosing,
    statement: &CaseStatement,
    so_far: &mut WalkedAlternatives,
) -> Result<(), NoMemory>
    ensures asked { R.asked analyzer.new ≡ R.asked analyzer.old }
    ensures kept { enclosing.new ≡ enclosing.old }
    ensures answered { OnOk result (FromAnswers (R.log analyzer.old) (R.log analyzer.new) (λ t. (R.env analyzer.new, choosing_model so_far.new) ≡ all_alternatives (R.reading t) enclosing.old (R.env analyzer.old, choosing_model so_far.old) statement.now)) }
{
    check_alternative(analyzer, enclosing, &statement.first, so_far)?;
    more_alternatives(analyzer, enclosing, &statement.others, so_far)
}

/// An alternative.
#[cycle(walk)]
fn check_alternative<R: Analyzer>(
    analyzer: &mut R,
    enclosing: &mut Enclosing,
    alternative: &Alternative,
    so_far: &mut WalkedAlternatives,
) -> Result<(), NoMemory>
    ensures asked { R.asked analyzer.new ≡ R.asked analyzer.old }
    ensures kept { enclosing.new ≡ enclosing.old }
    ensures answered { OnOk result (FromAnswers (R.log analyzer.old) (R.log analyzer.new) (λ t. (R.env analyzer.new, choosing_model so_far.new) ≡ alternative_walked (R.reading t) enclosing.old (R.env analyzer.old, choosing_model so_far.old) (alternative_model alternative.now))) }
{
    let inner = check_statements(analyzer, enclosing, &alternative.statements)?;
    so_far.add(enclosing.alloc(), inner)
}

/// The alternatives after the first one.
#[cycle(walk)]
fn more_alternatives<R: Analyzer>(
    analyzer: &mut R,
    enclosing: &mut Enclosing,
    others: &[Alternative],
    so_far: &mut WalkedAlternatives,
) -> Result<(), NoMemory>
    ensures asked { R.asked analyzer.new ≡ R.asked analyzer.old }
    ensures kept { enclosing.new ≡ enclosing.old }
    ensures answered { OnOk result (FromAnswers (R.log analyzer.old) (R.log analyzer.new) (λ t. (R.env analyzer.new, choosing_model so_far.new) ≡ alternatives_walked (R.reading t) enclosing.old (R.env analyzer.old, choosing_model so_far.old) (alternatives_of (map alternative_model others.now)))) }
{
    for alternative in others {
        if so_far.is_ended() {
            return Ok(());
        }
        check_alternative(analyzer, enclosing, alternative, so_far)?;
    }
    Ok(())
}

/// A loop, with its name if it has one (ARM 5.5).
#[cycle(walk)]
fn check_loop<R: Analyzer>(
    analyzer: &mut R,
    enclosing: &mut Enclosing,
    inner: &LoopStatement,
    name: &Option<Identifier>,
) -> Result<WalkedStatement, NoMemory>
    ensures asked { R.asked analyzer.new ≡ R.asked analyzer.old }
    ensures kept { enclosing.new ≡ enclosing.old }
    ensures answered { IfOk result (λ done. FromAnswers (R.log analyzer.old) (R.log analyzer.new) (λ t. (R.env analyzer.new, one_model done) ≡ inner_loop_walked (R.reading t) enclosing.old (R.env analyzer.old) (option_map identifier_label name.now) (loop_model inner.now))) }
{
    match inner {
        LoopStatement::PlainLoop(opening, statements, end) => {
            let scheme = Ok(LoopScheme::Forever);
            check_round(
                analyzer,
                enclosing,
                statements,
                name,
                named_line(name, *opening),
                scheme,
                &end.end_name,
            )
        }
        LoopStatement::WhileLoop(opening, condition, _, statements, end) => {
            let scheme = while_head(analyzer, condition)?;
            check_round(
                analyzer,
                enclosing,
                statements,
                name,
                named_line(name, *opening),
                scheme,
                &end.end_name,
            )
        }
        LoopStatement::ForLoop(opening, parameter, is_reverse, range, _, statements, end) => {
            let scheme = for_head(analyzer, parameter, *is_reverse, range)?;
            check_for(
                analyzer,
                enclosing,
                statements,
                name,
                named_line(name, *opening),
                scheme,
                &end.end_name,
            )
        }
    }
}

/// The statements of a loop.
#[cycle(walk)]
fn check_in_loop<R: Analyzer>(
    analyzer: &mut R,
    enclosing: &mut Enclosing,
    statements: &Statements,
    name: &Option<Identifier>,
) -> Result<WalkedStatements, NoMemory>
    ensures asked { R.asked analyzer.new ≡ R.asked analyzer.old }
    ensures kept { enclosing.new ≡ enclosing.old }
    ensures answered { IfOk result (λ done. FromAnswers (R.log analyzer.old) (R.log analyzer.new) (λ t. (R.env analyzer.new, all_model done) ≡ statements_walked (R.reading t) (in_loop enclosing.old (option_map identifier_label name.now)) (R.env analyzer.old) (statements_model statements.now))) }
{
    enclosing.enter(name)?;
    let inner = check_statements(analyzer, enclosing, statements);
    enclosing.leave();
    inner
}

/// A loop by how often it goes round, with the line of its first word and the name at its end.
#[cycle(walk)]
fn check_round<R: Analyzer>(
    analyzer: &mut R,
    enclosing: &mut Enclosing,
    statements: &Statements,
    name: &Option<Identifier>,
    line: usize,
    scheme: CheckResult<LoopScheme>,
    end: &Option<Identifier>,
) -> Result<WalkedStatement, NoMemory>
    ensures asked { R.asked analyzer.new ≡ R.asked analyzer.old }
    ensures kept { enclosing.new ≡ enclosing.old }
    ensures answered { IfOk result (λ done. FromAnswers (R.log analyzer.old) (R.log analyzer.new) (λ t. (R.env analyzer.new, one_model done) ≡ loop_walked line (map_ok scheme_model scheme) (end_of (option_map identifier_label name.now) (option_map identifier_label end.now)) (statements_walked (R.reading t) (in_loop enclosing.old (option_map identifier_label name.now)) (R.env analyzer.old) (statements_model statements.now)))) }
{
    match check_in_loop(analyzer, enclosing, statements, name) {
        Ok(inner) => inner.into_loop(enclosing.alloc(), line, scheme, end_of(name, end)),
        Err(error) => {
            drop(scheme);
            Err(error)
        }
    }
}

/// A for loop, whose range is a declaration: after its fault nothing is checked.
#[cycle(walk)]
fn check_for<R: Analyzer>(
    analyzer: &mut R,
    enclosing: &mut Enclosing,
    statements: &Statements,
    name: &Option<Identifier>,
    line: usize,
    scheme: CheckResult<LoopScheme>,
    end: &Option<Identifier>,
) -> Result<WalkedStatement, NoMemory>
    ensures asked { R.asked analyzer.new ≡ R.asked analyzer.old }
    ensures kept { enclosing.new ≡ enclosing.old }
    ensures answered { IfOk result (λ done. FromAnswers (R.log analyzer.old) (R.log analyzer.new) (λ t. (R.env analyzer.new, one_model done) ≡ for_walked (R.reading t) (R.env analyzer.old) line (map_ok scheme_model scheme) (end_of (option_map identifier_label name.now) (option_map identifier_label end.now)) (statements_walked (R.reading t) (in_loop enclosing.old (option_map identifier_label name.now)) (R.env analyzer.old) (statements_model statements.now)))) }
{
    match scheme {
        Ok(scheme) => {
            let walked = check_round(analyzer, enclosing, statements, name, line, Ok(scheme), end)?;
            left_region(analyzer, walked)
        }
        Err(fault) => broken_loop(analyzer, enclosing.alloc(), fault),
    }
}

/// A block, with its name if it has one (ARM 5.6).
#[cycle(walk)]
fn check_block<R: Analyzer>(
    analyzer: &mut R,
    enclosing: &mut Enclosing,
    inner: &BlockStatement,
    name: &Option<Identifier>,
) -> Result<WalkedStatement, NoMemory>
    ensures asked { R.asked analyzer.new ≡ R.asked analyzer.old }
    ensures kept { enclosing.new ≡ enclosing.old }
    ensures answered { IfOk result (λ done. FromAnswers (R.log analyzer.old) (R.log analyzer.new) (λ t. (R.env analyzer.new, one_model done) ≡ inner_block_walked (R.reading t) enclosing.old (R.env analyzer.old) (option_map identifier_label name.now) (block_model inner.now))) }
{
    match inner {
        BlockStatement::PlainBlock(opening, statements, end) => {
            let inner = check_statements(analyzer, enclosing, statements)?;
            let fault = end_of(name, &end.end_name);
            inner.into_block(enclosing.alloc(), named_line(name, *opening), fault)
        }
        BlockStatement::DeclareBlock(opening, declared) => {
            check_declared(
                analyzer,
                enclosing,
                declared,
                name,
                named_line(name, *opening),
            )
        }
    }
}

/// A block with declarations.
#[cycle(walk)]
fn check_declared<R: Analyzer>(
    analyzer: &mut R,
    enclosing: &mut Enclosing,
    declared: &DeclaredStatements,
    name: &Option<Identifier>,
    line: usize,
) -> Result<WalkedStatement, NoMemory>
    ensures asked { R.asked analyzer.new ≡ R.asked analyzer.old }
    ensures kept { enclosing.new ≡ enclosing.old }
    ensures answered { IfOk result (λ done. FromAnswers (R.log analyzer.old) (R.log analyzer.new) (λ t. (R.env analyzer.new, one_model done) ≡ handled_walked (R.reading t) enclosing.old (R.env analyzer.old) (option_map identifier_label name.now) line (handled_model declared.now))) }
{
    analyzer.block_entered()?;
    let part = check_part(analyzer, enclosing.alloc(), &declared.items, declared.begin)?;
    let inside = check_after(analyzer, enclosing, &declared.statements, part)?;
    let fault = end_of(name, &declared.end.end_name);
    finish_block(analyzer, enclosing.alloc(), line, fault, inside)
}

/// The statements after a part, which aren't checked if its list of faults has ended.
/// # Errors
/// `NoMemory` if the allocator refuses memory.
#[cycle(walk)]
pub fn check_after<R: Analyzer>(
    analyzer: &mut R,
    enclosing: &mut Enclosing,
    statements: &Statements,
    part: WalkedPart,
) -> Result<WalkedInside, NoMemory>
    ensures asked { R.asked analyzer.new ≡ R.asked analyzer.old }
    ensures kept { enclosing.new ≡ enclosing.old }
    ensures answered { IfOk result (λ done. FromAnswers (R.log analyzer.old) (R.log analyzer.new) (λ t. (R.env analyzer.new, inside_model done) ≡ inside_after (R.env analyzer.old, part_model part) (statements_walked (R.reading t) enclosing.old (R.env analyzer.old) (statements_model statements.now)))) }
{
    if part.is_ended() {
        return part.without_statements(enclosing.alloc());
    }
    match check_statements(analyzer, enclosing, statements) {
        Ok(inner) => part.with_statements(inner),
        Err(error) => Err(error),
    }
}

/// A part up to its end, with E302 there if one of its declarations still waits (ARM 3.11).
/// # Errors
/// `NoMemory` if the allocator refuses memory.
#[cycle(walk)]
pub fn check_part<R: Analyzer>(
    analyzer: &mut R,
    alloc: Global,
    items: &[Item],
    end: Place,
) -> Result<WalkedPart, NoMemory>
    ensures asked { R.asked analyzer.new ≡ R.asked analyzer.old }
    ensures answered { IfOk result (λ done. FromAnswers (R.log analyzer.old) (R.log analyzer.new) (λ t. (R.env analyzer.new, part_model done) ≡ closed (R.reading t) (items_walked (R.reading t) (R.env analyzer.old) (items_of (map item_model items.now))) (place_label end))) }
{
    let mut part = WalkedPart::new(alloc);
    check_items(analyzer, alloc, items, &mut part)?;
    match close_part(analyzer, &mut part, end) {
        Ok(()) => Ok(part),
        Err(error) => Err(error),
    }
}

/// Declarations, one after another until the list of faults has ended.
/// # Errors
/// `NoMemory` if the allocator refuses memory.
#[cycle(walk)]
pub fn check_items<R: Analyzer>(
    analyzer: &mut R,
    alloc: Global,
    items: &[Item],
    so_far: &mut WalkedPart,
) -> Result<(), NoMemory>
    ensures asked { R.asked analyzer.new ≡ R.asked analyzer.old }
    ensures answered { OnOk result (FromAnswers (R.log analyzer.old) (R.log analyzer.new) (λ t. (R.env analyzer.new, part_model so_far.new) ≡ part_after (R.env analyzer.old, part_model so_far.old) (items_walked (R.reading t) (R.env analyzer.old) (items_of (map item_model items.now))))) }
{
    for item in items {
        if so_far.is_ended() {
            return Ok(());
        }
        let one = check_item(analyzer, alloc, item)?;
        so_far.add(one)?;
    }
    Ok(())
}

/// A declaration or a body.
#[cycle(walk)]
fn check_item<R: Analyzer>(
    analyzer: &mut R,
    alloc: Global,
    item: &Item,
) -> Result<WalkedPart, NoMemory>
    ensures asked { R.asked analyzer.new ≡ R.asked analyzer.old }
    ensures answered { IfOk result (λ done. FromAnswers (R.log analyzer.old) (R.log analyzer.new) (λ t. (R.env analyzer.new, part_model done) ≡ item_walked (R.reading t) (R.env analyzer.old) (item_model item.now))) }
{
    match item {
        Item::CommonItem(declaration) => declared_item(analyzer, alloc, declaration),
        Item::SubprogramItem(specification) => subprogram_item(analyzer, alloc, specification),
        Item::StubItem(specification, separate) => {
            stub_item(analyzer, alloc, specification, *separate)
        }
        Item::BodyItem(specification, body) => check_body(analyzer, alloc, body, specification),
        Item::TaskItem(task) => task_item(analyzer, alloc, task),
        Item::TaskBodyItem(opening, name, inner) => {
            check_task(analyzer, alloc, inner, *opening, name)
        }
        Item::ProtectedItem(opening, object) => object_item(analyzer, alloc, object, *opening),
        Item::ProtectedBodyItem(opening, name, operations, end) => {
            check_object(analyzer, alloc, operations, *opening, name, end)
        }
    }
}

/// The body of a protected object (ARM 9.4). If what comes before its operations is faulty, nothing after that is checked.
#[cycle(walk)]
fn check_object<R: Analyzer>(
    analyzer: &mut R,
    alloc: Global,
    operations: &Vec<OperationBody>,
    opening: Place,
    name: &Identifier,
    end: &NamedEnd,
) -> Result<WalkedPart, NoMemory>
    ensures asked { R.asked analyzer.new ≡ R.asked analyzer.old }
    ensures answered { IfOk result (λ done. FromAnswers (R.log analyzer.old) (R.log analyzer.new) (λ t. (R.env analyzer.new, part_model done) ≡ object_walked (R.reading t) (R.env analyzer.old) (place_label opening) (identifier_label name.now) operations.now.items (named_end_model end.now))) }
{
    let opened = analyzer.object_entered(opening, name, operations)?;
    match opened {
        Ok(effects) => check_opened(analyzer, alloc, operations, name, end, effects),
        Err(fault) => Ok(WalkedPart::declared(alloc, Err(fault))),
    }
}

/// The body of a protected object in the region of its operations, by what it does at its place.
#[cycle(walk)]
fn check_opened<R: Analyzer>(
    analyzer: &mut R,
    alloc: Global,
    operations: &Vec<OperationBody>,
    name: &Identifier,
    end: &NamedEnd,
    effects: Vec<TypedDeclaration>,
) -> Result<WalkedPart, NoMemory>
    ensures asked { R.asked analyzer.new ≡ R.asked analyzer.old }
    ensures answered { IfOk result (λ done. FromAnswers (R.log analyzer.old) (R.log analyzer.new) (λ t. (R.env analyzer.new, part_model done) ≡ opened_walked (R.reading t) (R.env analyzer.old) (identifier_label name.now) operations.now.items (named_end_model end.now) (effects_model effects))) }
{
    let mut part = WalkedPart::new(alloc);
    check_operations(analyzer, alloc, operations, &mut part)?;
    close_part(analyzer, &mut part, end.end)?;
    let fault = end_of_named(name, &end.end_name);
    finish_object(analyzer, effects, fault, part)
}

/// The bodies of a protected object's operations, one after another until the list of faults has ended.
#[cycle(walk)]
fn check_operations<R: Analyzer>(
    analyzer: &mut R,
    alloc: Global,
    operations: &[OperationBody],
    so_far: &mut WalkedPart,
) -> Result<(), NoMemory>
    ensures asked { R.asked analyzer.new ≡ R.asked analyzer.old }
    ensures answered { OnOk result (FromAnswers (R.log analyzer.old) (R.log analyzer.new) (λ t. (R.env analyzer.new, part_model so_far.new) ≡ part_after (R.env analyzer.old, part_model so_far.old) (operations_walked (R.reading t) (R.env analyzer.old) (operation_bodies_of (map operation_body_model operations.now))))) }
{
    for operation in operations {
        if so_far.is_ended() {
            return Ok(());
        }
        let one = check_operation(analyzer, alloc, operation)?;
        so_far.add(one)?;
    }
    Ok(())
}

/// The body of an operation of a protected object: a subprogram or an entry (ARM 9.4).
#[cycle(walk)]
fn check_operation<R: Analyzer>(
    analyzer: &mut R,
    alloc: Global,
    operation: &OperationBody,
) -> Result<WalkedPart, NoMemory>
    ensures asked { R.asked analyzer.new ≡ R.asked analyzer.old }
    ensures answered { IfOk result (λ done. FromAnswers (R.log analyzer.old) (R.log analyzer.new) (λ t. (R.env analyzer.new, part_model done) ≡ operation_walked (R.reading t) (R.env analyzer.old) (operation_body_model operation.now))) }
{
    match operation {
        OperationBody::SubprogramOperation(specification, body) => {
            check_body(analyzer, alloc, body, specification)
        }
        OperationBody::EntryOperation(opening, name, barrier, inner) => {
            check_entry(analyzer, alloc, inner, *opening, name, barrier)
        }
    }
}

/// The body of a task (ARM 9.1).
#[cycle(walk)]
fn check_task<R: Analyzer>(
    analyzer: &mut R,
    alloc: Global,
    inner: &DeclaredStatements,
    opening: Place,
    name: &Identifier,
) -> Result<WalkedPart, NoMemory>
    ensures asked { R.asked analyzer.new ≡ R.asked analyzer.old }
    ensures answered { IfOk result (λ done. FromAnswers (R.log analyzer.old) (R.log analyzer.new) (λ t. (R.env analyzer.new, part_model done) ≡ task_walked (R.reading t) (R.env analyzer.old) (place_label opening) (identifier_label name.now) (handled_model inner.now))) }
{
    let head = analyzer.task_head(name)?;
    let extent = named_extent(opening, name, &inner.end);
    headed_declared(analyzer, alloc, inner, head, extent)
}

/// The body of an entry (ARM 9.5.2).
#[cycle(walk)]
fn check_entry<R: Analyzer>(
    analyzer: &mut R,
    alloc: Global,
    inner: &DeclaredStatements,
    opening: Place,
    name: &Identifier,
    barrier: &Expression,
) -> Result<WalkedPart, NoMemory>
    ensures asked { R.asked analyzer.new ≡ R.asked analyzer.old }
    ensures answered { IfOk result (λ done. FromAnswers (R.log analyzer.old) (R.log analyzer.new) (λ t. (R.env analyzer.new, part_model done) ≡ entry_walked (R.reading t) (R.env analyzer.old) (place_label opening) (identifier_label name.now) (expression_model barrier.now) (handled_model inner.now))) }
{
    let head = analyzer.entry_head(name, barrier)?;
    let extent = named_extent(opening, name, &inner.end);
    headed_declared(analyzer, alloc, inner, head, extent)
}

/// The body of a subprogram (ARM 6.3).
/// # Errors
/// `NoMemory` if the allocator refuses memory.
#[cycle(walk)]
pub fn check_body<R: Analyzer>(
    analyzer: &mut R,
    alloc: Global,
    body: &SubprogramBody,
    specification: &Specification,
) -> Result<WalkedPart, NoMemory>
    ensures asked { R.asked analyzer.new ≡ R.asked analyzer.old }
    ensures answered { IfOk result (λ done. FromAnswers (R.log analyzer.old) (R.log analyzer.new) (λ t. (R.env analyzer.new, part_model done) ≡ body_walked (R.reading t) (R.env analyzer.old) (specification_model specification.now) (body_model body.now))) }
{
    let extent = subprogram_extent(alloc, specification, &body.end)?;
    let head = analyzer.head(specification)?;
    headed_subprogram(analyzer, alloc, body, head, extent)
}

/// The body of a subprogram after its head. If the head is faulty, nothing after it is checked.
#[cycle(walk)]
fn headed_subprogram<R: Analyzer>(
    analyzer: &mut R,
    alloc: Global,
    body: &SubprogramBody,
    head: CheckResult<Vec<TypedDeclaration>>,
    extent: BodyExtent,
) -> Result<WalkedPart, NoMemory>
    ensures asked { R.asked analyzer.new ≡ R.asked analyzer.old }
    ensures answered { IfOk result (λ done. FromAnswers (R.log analyzer.old) (R.log analyzer.new) (λ t. (R.env analyzer.new, part_model done) ≡ subprogram_headed (R.reading t) (R.env analyzer.old, map_ok effects_model head) extent body.now)) }
{
    match head {
        Ok(effects) => { entered_subprogram(analyzer, alloc, body, effects, extent) }
        Err(fault) => Ok(WalkedPart::declared(alloc, Err(fault))),
    }
}

/// The body of a subprogram whose head is right, by what it does at its place.
#[cycle(walk)]
fn entered_subprogram<R: Analyzer>(
    analyzer: &mut R,
    alloc: Global,
    body: &SubprogramBody,
    effects: Vec<TypedDeclaration>,
    extent: BodyExtent,
) -> Result<WalkedPart, NoMemory>
    ensures asked { R.asked analyzer.new ≡ R.asked analyzer.old }
    ensures answered { IfOk result (λ done. FromAnswers (R.log analyzer.old) (R.log analyzer.new) (λ t. (R.env analyzer.new, part_model done) ≡ subprogram_entered (R.reading t) (R.env analyzer.old) (effects_model effects) extent body.now)) }
{
    let mut enclosing = enter_body(analyzer, alloc)?;
    match inside_subprogram(analyzer, &mut enclosing, body) {
        Ok(inside) => {
            let returns = enclosing.returns();
            let no_return = no_return_fault(extent.end, returns.body, has_return(&body.statements));
            finish_body(analyzer, alloc, effects, extent, no_return, inside)
        }
        Err(error) => Err(error),
    }
}

/// What is inside the body of a subprogram.
#[cycle(walk)]
fn inside_subprogram<R: Analyzer>(
    analyzer: &mut R,
    enclosing: &mut Enclosing,
    body: &SubprogramBody,
) -> Result<WalkedInside, NoMemory>
    ensures asked { R.asked analyzer.new ≡ R.asked analyzer.old }
    ensures kept { enclosing.new ≡ enclosing.old }
    ensures answered { IfOk result (λ done. FromAnswers (R.log analyzer.old) (R.log analyzer.new) (λ t. (R.env analyzer.new, inside_model done) ≡ subprogram_inside (R.reading t) enclosing.old (R.env analyzer.old) body.now)) }
{
    let part = check_part(analyzer, enclosing.alloc(), &body.items, body.begin)?;
    check_after(analyzer, enclosing, &body.statements, part)
}

/// The body of a task or an entry after its head. If the head is faulty, nothing after it is checked.
#[cycle(walk)]
fn headed_declared<R: Analyzer>(
    analyzer: &mut R,
    alloc: Global,
    inner: &DeclaredStatements,
    head: CheckResult<Vec<TypedDeclaration>>,
    extent: BodyExtent,
) -> Result<WalkedPart, NoMemory>
    ensures asked { R.asked analyzer.new ≡ R.asked analyzer.old }
    ensures answered { IfOk result (λ done. FromAnswers (R.log analyzer.old) (R.log analyzer.new) (λ t. (R.env analyzer.new, part_model done) ≡ declared_headed (R.reading t) (R.env analyzer.old, map_ok effects_model head) extent inner.now)) }
{
    match head {
        Ok(effects) => { entered_declared(analyzer, alloc, inner, effects, extent) }
        Err(fault) => Ok(WalkedPart::declared(alloc, Err(fault))),
    }
}

/// The body of a task or an entry whose head is right, by what it does at its place.
#[cycle(walk)]
fn entered_declared<R: Analyzer>(
    analyzer: &mut R,
    alloc: Global,
    inner: &DeclaredStatements,
    effects: Vec<TypedDeclaration>,
    extent: BodyExtent,
) -> Result<WalkedPart, NoMemory>
    ensures asked { R.asked analyzer.new ≡ R.asked analyzer.old }
    ensures answered { IfOk result (λ done. FromAnswers (R.log analyzer.old) (R.log analyzer.new) (λ t. (R.env analyzer.new, part_model done) ≡ declared_entered (R.reading t) (R.env analyzer.old) (effects_model effects) extent inner.now)) }
{
    let mut enclosing = enter_body(analyzer, alloc)?;
    match inside_declared(analyzer, &mut enclosing, inner) {
        Ok(inside) => {
            let returns = enclosing.returns();
            let no_return = no_return_fault(
                extent.end,
                returns.body,
                has_return(&inner.statements),
            );
            finish_body(analyzer, alloc, effects, extent, no_return, inside)
        }
        Err(error) => Err(error),
    }
}

/// What is inside the body of a task or an entry.
#[cycle(walk)]
fn inside_declared<R: Analyzer>(
    analyzer: &mut R,
    enclosing: &mut Enclosing,
    inner: &DeclaredStatements,
) -> Result<WalkedInside, NoMemory>
    ensures asked { R.asked analyzer.new ≡ R.asked analyzer.old }
    ensures kept { enclosing.new ≡ enclosing.old }
    ensures answered { IfOk result (λ done. FromAnswers (R.log analyzer.old) (R.log analyzer.new) (λ t. (R.env analyzer.new, inside_model done) ≡ declared_inside (R.reading t) enclosing.old (R.env analyzer.old) inner.now)) }
{
    let part = check_part(analyzer, enclosing.alloc(), &inner.items, inner.begin)?;
    check_after(analyzer, enclosing, &inner.statements, part)
}
