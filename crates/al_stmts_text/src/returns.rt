// Return statements (ARM 6.5).
ghost use Rattle.std.specs.Prelude.{◌≡◌, IfOk, option_map};
ghost use Rattle.al_base_fault.specs.declared.check_rule.CheckRule.TheVariants.{BadReturn};
ghost use Rattle.al_base_fault.specs.Faults.{fault_at};
ghost use Rattle.al_base_fault.specs.Judging.{map_ok};
ghost use Rattle.al_query.specs.Reads.{FromAnswers};
ghost use Rattle.al_tree_syntax.specs.StatementTrees.StatementTree.{ReturnStatement as ReturnTree};
ghost use Rattle.al_tree.specs.ExpressionViews.{expression_model};
ghost use Rattle.al_tree.specs.Lexemes.{place_label};
ghost use Rattle.al_view_typed.specs.StatementViews.{statement_model};
ghost use Rattle.al_stmts.specs.Simple.{returned};
ghost use Rattle.al_stmts.specs.Exits.{EnclosingLoops};
ghost use Rattle.al_stmts.specs.Walking.{alone_at, is_function, result_at, return_walked, statement_walked};
ghost use Rattle.al_stmts.specs.WalkedViews.{one_model};

use crate::analyzer::Analyzer;
use al_base::{NoMemory, Place};
use al_base_fault::{CheckResult, CheckRule, Fault};
use al_stmts::{Enclosing, EnclosingBody, ReturnContext, WalkedStatement, return_statement};
use al_tree::{Expression, ReturnStatement};
use al_view_typed::TypedStatement;

fn is_function(body: EnclosingBody) -> bool
    ensures { result ≡ is_function body }
{
    match body {
        EnclosingBody::Function => true,
        EnclosingBody::Procedure => false,
        EnclosingBody::Entry => false,
        EnclosingBody::Package => false,
        EnclosingBody::Task => false,
    }
}

/// A value after `return` that isn't wanted there.
fn unwanted(place: Place, context: ReturnContext) -> CheckResult<TypedStatement>
    ensures { map_ok statement_model result ≡ returned place context (Some (Err (fault_at place BadReturn))) }
{
    let rule = CheckRule::BadReturn;
    return_statement(place, context, Some(Err(Fault { place, rule })))
}

/// A value after `return` in a function.
fn value_returned<R: Analyzer>(
    analyzer: &mut R,
    place: Place,
    context: ReturnContext,
    value: &Expression,
) -> Result<CheckResult<TypedStatement>, NoMemory>
    ensures asked { R.asked analyzer.new ≡ R.asked analyzer.old }
    ensures answered { IfOk result (λ checked. FromAnswers (R.log analyzer.old) (R.log analyzer.new) (λ t. (loops : EnclosingLoops) → alone_at (R.env analyzer.new) (map_ok statement_model checked) ≡ result_at (R.reading t) context (R.env analyzer.old) place (expression_model value.now))) }
{
    let value = analyzer.result_value(value)?;
    Ok(return_statement(place, context, Some(value)))
}

/// A value after `return`, which is read only in a function.
fn any_value_returned<R: Analyzer>(
    analyzer: &mut R,
    place: Place,
    context: ReturnContext,
    value: &Expression,
) -> Result<CheckResult<TypedStatement>, NoMemory>
    ensures asked { R.asked analyzer.new ≡ R.asked analyzer.old }
    ensures answered { IfOk result (λ checked. FromAnswers (R.log analyzer.old) (R.log analyzer.new) (λ t. (loops : EnclosingLoops) → alone_at (R.env analyzer.new) (map_ok statement_model checked) ≡ return_walked (R.reading t) (record { returns = context; loops = loops }) (R.env analyzer.old) place (Some (expression_model value.now)))) }
{
    if is_function(context.body) {
        return value_returned(analyzer, place, context, value);
    }
    Ok(unwanted(place, context))
}

/// `return [value];` in that body (ARM 6.5), checked.
/// # Errors
/// `NoMemory` if the allocator refuses memory. The inner error is the first of E501 at `return` and the fault of the value.
pub fn check_return<R: Analyzer>(
    analyzer: &mut R,
    statement: &ReturnStatement,
    context: ReturnContext,
) -> Result<CheckResult<TypedStatement>, NoMemory>
    ensures asked { R.asked analyzer.new ≡ R.asked analyzer.old }
    ensures answered { IfOk result (λ checked. FromAnswers (R.log analyzer.old) (R.log analyzer.new) (λ t. (loops : EnclosingLoops) → alone_at (R.env analyzer.new) (map_ok statement_model checked) ≡ statement_walked (R.reading t) (record { returns = context; loops = loops }) (R.env analyzer.old) (ReturnTree (place_label statement.now.opening) (option_map expression_model statement.now.value)))) }
{
    match &statement.value {
        Some(value) => any_value_returned(analyzer, statement.opening, context, value),
        None => Ok(return_statement(statement.opening, context, None)),
    }
}

/// `return [value];` (ARM 6.5), walked over.
/// # Errors
/// `NoMemory` if the allocator refuses memory.
pub fn walk_return<R: Analyzer>(
    analyzer: &mut R,
    enclosing: &Enclosing,
    statement: &ReturnStatement,
) -> Result<WalkedStatement, NoMemory>
    ensures asked { R.asked analyzer.new ≡ R.asked analyzer.old }
    ensures answered { IfOk result (λ done. FromAnswers (R.log analyzer.old) (R.log analyzer.new) (λ t. (R.env analyzer.new, one_model done) ≡ statement_walked (R.reading t) enclosing.now (R.env analyzer.old) (ReturnTree (place_label statement.now.opening) (option_map expression_model statement.now.value)))) }
{
    let checked = check_return(analyzer, statement, enclosing.returns())?;
    WalkedStatement::alone(enclosing.alloc(), checked)
}
