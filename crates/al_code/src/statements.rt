// Statements: the part that recurses (ARM 5.1).
ghost use Rattle.std.specs.Prelude.{◌≡◌, OnOk, map};
ghost use Rattle.al_view_typed.specs.StatementViews.{alternative_model, alternatives_of, branch_model, branches_of, scheme_model, statement_form_model, statement_model, statements_of};
ghost use Rattle.al_code.specs.Written.{written};
ghost use Rattle.al_code.specs.Loops.{round_code};
ghost use Rattle.al_code.specs.Statements.{alternative_code, alternatives_code, branch_code, branches_code, others_code, statement_code, statement_form_code, statements_code};

use crate::choices::{emit_choices, emit_selector};
use crate::declarations::emit_declarations;
use crate::images::emit_output;
use crate::loops::{emit_bounds, emit_leave, emit_marked, emit_turn, emit_while};
use crate::marks::{emit_mark, has_code};
use crate::routine::Routine;
use crate::simple::{emit_assignment, emit_delay, emit_return};
use crate::{Construct, Output, emit_call, emit_join, emit_sized, emit_unless_zero, emit_value};
use al_base::NoMemory;
use al_instr::Sized;
use al_view_typed::{Alternative, Branch, LoopScheme, StatementForm, TypedStatement};

/// Writes statements one after another.
#[cycle(statement)]
pub(crate) fn emit_statements(
    out: &mut Output,
    routine: Routine,
    statements: &[TypedStatement],
) -> Result<(), NoMemory>
    ensures { OnOk result (out.new ≡ written out.old (statements_code routine (statements_of (map statement_model statements.now)))) }
{
    for statement in statements {
        emit_statement(out, routine, statement)?;
    }
    Ok(())
}

#[cycle(statement)]
#[tactic(auto, using(crate::proofs::Layers::statement_layers, crate::proofs::Writing::written_append))]
fn emit_statement(
    out: &mut Output,
    routine: Routine,
    statement: &TypedStatement,
) -> Result<(), NoMemory>
    ensures { OnOk result (out.new ≡ written out.old (statement_code routine (statement_model statement.now))) }
{
    emit_mark(out, has_code(&statement.form), statement.line)?;
    emit_statement_form(out, routine, statement.line, &statement.form)
}

#[cycle(statement)]
#[tactic(auto, using(crate::proofs::Writing::written_append, crate::proofs::Writing::written_nothing, al_view_typed::proofs::StatementsMade::null_made, al_view_typed::proofs::StatementsMade::assignment_made, al_view_typed::proofs::StatementsMade::call_made, al_view_typed::proofs::StatementsMade::put_made, al_view_typed::proofs::StatementsMade::return_made, al_view_typed::proofs::StatementsMade::exit_made, al_view_typed::proofs::StatementsMade::delay_made, al_view_typed::proofs::StatementsMade::if_made, al_view_typed::proofs::StatementsMade::case_made, al_view_typed::proofs::StatementsMade::loop_made, al_view_typed::proofs::StatementsMade::block_made))]
fn emit_statement_form(
    out: &mut Output,
    routine: Routine,
    line: usize,
    form: &StatementForm,
) -> Result<(), NoMemory>
    ensures { OnOk result (out.new ≡ written out.old (statement_form_code routine line (statement_form_model form.now))) }
{
    match form {
        StatementForm::Null => Ok(()),
        StatementForm::Assignment {
            target,
            words,
            value,
        } => emit_assignment(out, routine.depth, target, *words, value),
        StatementForm::Call(call) => emit_call(out, routine.depth, call),
        StatementForm::Put { pieces, ends_line } => {
            emit_output(out, routine.depth, pieces, *ends_line)
        }
        StatementForm::Return { value, words } => emit_return(out, routine, value, *words),
        StatementForm::Exit { loops, condition } => {
            emit_leave(out, routine.depth, *loops, condition)
        }
        StatementForm::Delay(moment) => emit_delay(out, routine.depth, moment),
        StatementForm::If {
            branches,
            otherwise,
        } => {
            let first = out.leaving();
            emit_branches(out, routine, branches)?;
            emit_statements(out, routine, otherwise)?;
            out.close(first, Construct::Choice)?;
            Ok(())
        }
        StatementForm::Case {
            selector,
            slot,
            alternatives,
            otherwise,
        } => {
            emit_selector(out, routine.depth, selector, *slot)?;
            let first = out.leaving();
            emit_alternatives(out, routine, alternatives, *slot)?;
            emit_others(out, routine, otherwise)?;
            emit_mark(out, true, line)?;
            emit_sized(out, Sized::Raise, 1)?;
            out.close(first, Construct::Choice)?;
            Ok(())
        }
        StatementForm::Loop { scheme, statements } => {
            let first = out.leaving();
            emit_round(out, routine, statements, scheme)?;
            out.close(first, Construct::Loop)?;
            Ok(())
        }
        StatementForm::Block {
            declarations,
            statements,
        } => {
            emit_declarations(out, routine.depth, declarations)?;
            emit_statements(out, routine, statements)
        }
    }
}

/// Writes branches one after another.
#[cycle(statement)]
fn emit_branches(out: &mut Output, routine: Routine, branches: &[Branch]) -> Result<(), NoMemory>
    ensures { OnOk result (out.new ≡ written out.old (branches_code routine (branches_of (map branch_model branches.now)))) }
{
    for branch in branches {
        emit_branch(out, routine, branch)?;
    }
    Ok(())
}

#[cycle(statement)]
fn emit_branch(out: &mut Output, routine: Routine, branch: &Branch) -> Result<(), NoMemory>
    ensures { OnOk result (out.new ≡ written out.old (branch_code routine (branch_model branch.now))) }
{
    emit_mark(out, true, branch.line)?;
    emit_value(out, routine.depth, &branch.condition)?;
    let first = out.leaving();
    emit_unless_zero(out)?;
    emit_statements(out, routine, &branch.statements)?;
    emit_join(out)?;
    out.close(first, Construct::Test)?;
    Ok(())
}

/// Writes alternatives one after another, by the value in a word of the frame.
#[cycle(statement)]
fn emit_alternatives(
    out: &mut Output,
    routine: Routine,
    alternatives: &[Alternative],
    word: u32,
) -> Result<(), NoMemory>
    ensures { OnOk result (out.new ≡ written out.old (alternatives_code routine word (alternatives_of (map alternative_model alternatives.now)))) }
{
    for alternative in alternatives {
        emit_alternative(out, routine, alternative, word)?;
    }
    Ok(())
}

#[cycle(statement)]
fn emit_alternative(
    out: &mut Output,
    routine: Routine,
    alternative: &Alternative,
    word: u32,
) -> Result<(), NoMemory>
    ensures { OnOk result (out.new ≡ written out.old (alternative_code routine word (alternative_model alternative.now))) }
{
    emit_choices(out, word, alternative.choices.as_slice())?;
    let first = out.leaving();
    emit_unless_zero(out)?;
    emit_statements(out, routine, &alternative.statements)?;
    emit_join(out)?;
    out.close(first, Construct::Test)?;
    Ok(())
}

/// Writes the statements of `others`, if there is that choice.
#[cycle(statement)]
fn emit_others(
    out: &mut Output,
    routine: Routine,
    statements: &[TypedStatement],
) -> Result<(), NoMemory>
    ensures { OnOk result (out.new ≡ written out.old (others_code (statements_of (map statement_model statements.now)) (statements_code routine (statements_of (map statement_model statements.now))))) }
{
    if statements.is_empty() {
        return Ok(());
    }
    emit_statements(out, routine, statements)?;
    emit_join(out)
}

/// Writes what a loop repeats.
#[cycle(statement)]
fn emit_round(
    out: &mut Output,
    routine: Routine,
    statements: &[TypedStatement],
    scheme: &LoopScheme,
) -> Result<(), NoMemory>
    ensures { OnOk result (out.new ≡ written out.old (round_code routine.depth (scheme_model scheme.now) (statements_code routine (statements_of (map statement_model statements.now))))) }
{
    match scheme {
        LoopScheme::Forever => {
            let start = out.len();
            emit_statements(out, routine, statements)?;
            out.emit_back(start)?;
            Ok(())
        }
        LoopScheme::While(condition) => {
            let start = out.len();
            emit_value(out, routine.depth, condition)?;
            emit_while(out)?;
            emit_statements(out, routine, statements)?;
            out.emit_back(start)?;
            Ok(())
        }
        LoopScheme::For {
            is_reverse,
            low,
            high,
            mark,
            parameter,
            last,
        } => {
            emit_bounds(
                out,
                routine.depth,
                *is_reverse,
                low,
                high,
                *parameter,
                *last,
            )?;
            emit_marked(out, mark, *parameter, *last)?;
            let start = out.len();
            emit_statements(out, routine, statements)?;
            emit_turn(out, *is_reverse, *parameter, *last)?;
            out.emit_back(start)?;
            Ok(())
        }
    }
}
