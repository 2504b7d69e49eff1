// The links that statements use.
ghost use Rattle.std.specs.Prelude.{◌≡◌, map};
ghost use Rattle.std.specs.List.{flat_map, list_all};
ghost use Rattle.al_view_typed.specs.StatementViews.{alternative_model, alternatives_of, branch_model, branches_of, piece_model, scheme_model, statement_form_model, statement_model, statements_of};
ghost use Rattle.al_view_typed.specs.Uses.{alternative_uses, alternatives_uses, branch_uses, branches_uses, piece_uses, scheme_uses, statement_form_uses, statement_uses, statements_uses};
ghost use Rattle.al_check_promises.specs.Rules.{permits};

use crate::declarations::declarations_pass;
use crate::expressions::{
    call_passes, name_passes, some_typed_passes, some_value_passes, typed_passes, value_passes,
};
use crate::rule::LinkRule;
use al_view_typed::{Alternative, Branch, LoopScheme, Piece, StatementForm, TypedStatement};

fn piece_passes(piece: &Piece, test: &LinkRule) -> bool
    ensures { result ≡ list_all (permits test.now) (piece_uses (piece_model piece.now)) }
{
    match piece {
        Piece::Text(_) => true,
        Piece::IntegerImage(value) => typed_passes(value, test),
        Piece::EnumerationImage { value, names: _ } => typed_passes(value, test),
    }
}

fn pieces_pass(pieces: &[Piece], test: &LinkRule) -> bool
    ensures { result ≡ list_all (permits test.now) (flat_map piece_uses (map piece_model pieces.now)) }
{
    for piece in pieces {
        if !piece_passes(piece, test) {
            return false;
        }
    }
    true
}

fn scheme_passes(scheme: &LoopScheme, test: &LinkRule) -> bool
    ensures { result ≡ list_all (permits test.now) (scheme_uses (scheme_model scheme.now)) }
{
    match scheme {
        LoopScheme::Forever => true,
        LoopScheme::While(condition) => typed_passes(condition, test),
        LoopScheme::For { low, high, .. } => typed_passes(low, test) && typed_passes(high, test),
    }
}

#[cycle(uses)]
#[tactic(auto, using(crate::proofs::Layers::statement_layers))]
pub(crate) fn statement_passes(statement: &TypedStatement, test: &LinkRule) -> bool
    ensures { result ≡ list_all (permits test.now) (statement_uses (statement_model statement.now)) }
{
    form_passes(&statement.form, test)
}

#[cycle(uses)]
fn inner_pass(statements: &[TypedStatement], test: &LinkRule) -> bool
    ensures { result ≡ list_all (permits test.now) (statements_uses (statements_of (map statement_model statements.now))) }
{
    for statement in statements {
        if !statement_passes(statement, test) {
            return false;
        }
    }
    true
}

#[cycle(uses)]
#[tactic(auto, using(al_view_typed::proofs::StatementsMade::null_made, al_view_typed::proofs::StatementsMade::call_made, al_view_typed::proofs::StatementsMade::put_made, al_view_typed::proofs::StatementsMade::return_made, al_view_typed::proofs::StatementsMade::exit_made, al_view_typed::proofs::StatementsMade::delay_made))]
fn form_passes(form: &StatementForm, test: &LinkRule) -> bool
    ensures { result ≡ list_all (permits test.now) (statement_form_uses (statement_form_model form.now)) }
{
    match form {
        StatementForm::Null => true,
        StatementForm::Assignment {
            target,
            words: _,
            value,
        } => name_passes(target, test) && value_passes(value, test),
        StatementForm::Call(call) => call_passes(call, test),
        StatementForm::Put {
            pieces,
            ends_line: _,
        } => pieces_pass(pieces, test),
        StatementForm::Return { value, words: _ } => some_value_passes(value, test),
        StatementForm::Exit {
            loops: _,
            condition,
        } => some_typed_passes(condition, test),
        StatementForm::Delay(moment) => typed_passes(moment, test),
        StatementForm::If {
            branches,
            otherwise,
        } => branches_pass(branches, test) && inner_pass(otherwise, test),
        StatementForm::Case {
            selector,
            slot: _,
            alternatives,
            otherwise,
        } => {
            if !typed_passes(selector, test) {
                return false;
            }
            alternatives_pass(alternatives, test) && inner_pass(otherwise, test)
        }
        StatementForm::Loop { scheme, statements } => {
            scheme_passes(scheme, test) && inner_pass(statements, test)
        }
        StatementForm::Block {
            declarations,
            statements,
        } => { declarations_pass(declarations, test) && inner_pass(statements, test) }
    }
}

#[cycle(uses)]
#[tactic(auto, using(crate::proofs::Layers::branch_layers))]
fn branch_passes(branch: &Branch, test: &LinkRule) -> bool
    ensures { result ≡ list_all (permits test.now) (branch_uses (branch_model branch.now)) }
{
    typed_passes(&branch.condition, test) && inner_pass(&branch.statements, test)
}

#[cycle(uses)]
fn branches_pass(branches: &[Branch], test: &LinkRule) -> bool
    ensures { result ≡ list_all (permits test.now) (branches_uses (branches_of (map branch_model branches.now))) }
{
    for branch in branches {
        if !branch_passes(branch, test) {
            return false;
        }
    }
    true
}

#[cycle(uses)]
#[tactic(auto, using(crate::proofs::Layers::alternative_layers))]
fn alternative_passes(alternative: &Alternative, test: &LinkRule) -> bool
    ensures { result ≡ list_all (permits test.now) (alternative_uses (alternative_model alternative.now)) }
{
    inner_pass(&alternative.statements, test)
}

#[cycle(uses)]
fn alternatives_pass(alternatives: &[Alternative], test: &LinkRule) -> bool
    ensures { result ≡ list_all (permits test.now) (alternatives_uses (alternatives_of (map alternative_model alternatives.now))) }
{
    for alternative in alternatives {
        if !alternative_passes(alternative, test) {
            return false;
        }
    }
    true
}
