// Marks at which the code of a line begins.
ghost use Rattle.std.specs.Prelude.{◌≡◌, ◌||◌, map, OnOk};
ghost use Rattle.al_view_typed.specs.StatementViews.{branch_model, branches_of, piece_model, statement_form_model, statement_model, statements_of};
ghost use Rattle.al_code.specs.Written.{written};
ghost use Rattle.al_code.specs.Marks.{has_branch, has_code, is_some_of, mark_of, statements_have_code};

use crate::Output;
use crate::declarations::declarations_have_code;
use al_base::NoMemory;
use al_view_typed::{Branch, Piece, StatementForm, TypedStatement};

/// Writes the mark that the code of a line begins here, if there is any.
#[tactic(auto, using(crate::proofs::Writing::written_nothing), unfolding(crate::specs::Marks::mark_of))]
pub(crate) fn emit_mark(out: &mut Output, has_code: bool, line: usize) -> Result<(), NoMemory>
    ensures { OnOk result (out.new ≡ written out.old (mark_of has_code line)) }
{
    if has_code {
        return out.mark(line);
    }
    Ok(())
}

/// Whether something is put.
#[tactic(auto, using(crate::proofs::MarkLemmas::no_pieces, crate::proofs::MarkLemmas::some_pieces))]
fn puts(pieces: &[Piece], ends_line: bool) -> bool
    ensures { result ≡ (ends_line || is_some_of (map piece_model pieces.now)) }
{
    if pieces.is_empty() {
        return ends_line;
    }
    true
}

/// Whether there is a branch.
#[tactic(auto, using(crate::proofs::MarkLemmas::branch_there))]
fn has_branch(branches: &[Branch]) -> bool
    ensures { result ≡ has_branch (branches_of (map branch_model branches.now)) }
{
    !branches.is_empty()
}

/// Whether a statement has code.
#[cycle(coded)]
#[tactic(auto, using(al_view_typed::proofs::StatementsMade::null_made, al_view_typed::proofs::StatementsMade::assignment_made, al_view_typed::proofs::StatementsMade::call_made, al_view_typed::proofs::StatementsMade::put_made, al_view_typed::proofs::StatementsMade::return_made, al_view_typed::proofs::StatementsMade::exit_made, al_view_typed::proofs::StatementsMade::delay_made, al_view_typed::proofs::StatementsMade::if_made, al_view_typed::proofs::StatementsMade::case_made, al_view_typed::proofs::StatementsMade::loop_made, al_view_typed::proofs::StatementsMade::block_made))]
pub(crate) fn has_code(form: &StatementForm) -> bool
    ensures { result ≡ has_code (statement_form_model form.now) }
{
    match form {
        StatementForm::Null => false,
        StatementForm::Assignment { .. } => true,
        StatementForm::Call(_) => true,
        StatementForm::Put { pieces, ends_line } => puts(pieces, *ends_line),
        StatementForm::Return { .. } => true,
        StatementForm::Exit { .. } => true,
        StatementForm::Delay(_) => true,
        StatementForm::If {
            branches,
            otherwise,
        } => has_branch(branches) || have_code(otherwise),
        StatementForm::Case { .. } => true,
        StatementForm::Loop { .. } => true,
        StatementForm::Block {
            declarations,
            statements,
        } => declarations_have_code(declarations) || have_code(statements),
    }
}

/// Whether some of these statements have code.
#[cycle(coded)]
#[tactic(auto, using(crate::proofs::Layers::statement_layers))]
fn have_code(statements: &[TypedStatement]) -> bool
    ensures { result ≡ statements_have_code (statements_of (map statement_model statements.now)) }
{
    for statement in statements {
        if has_code(&statement.form) {
            return true;
        }
    }
    false
}
