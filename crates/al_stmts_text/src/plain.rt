// Null, exit and delay statements (ARM 5.1, 5.7, 9.6).
ghost use Rattle.std.specs.Prelude.{◌≡◌, IfOk, Ok, option_map};
ghost use Rattle.al_base_fault.specs.Judging.{map_ok};
ghost use Rattle.al_query.specs.Reads.{FromAnswers};
ghost use Rattle.al_tree_syntax.specs.StatementTrees.StatementTree.{ExitStatement as ExitTree, DelayStatement as DelayTree};
ghost use Rattle.al_tree.specs.ExpressionViews.{expression_model};
ghost use Rattle.al_tree.specs.Lexemes.{place_label, identifier_label};
ghost use Rattle.al_view_typed.specs.ExpressionViews.{typed_model};
ghost use Rattle.al_view_typed.specs.StatementTrees.{StatementFormTree as forms};
ghost use Rattle.al_view_typed.specs.StatementTrees.StatementTree.{Numbered};
ghost use Rattle.al_view_typed.specs.StatementViews.{statement_model};
ghost use Rattle.al_stmts.specs.Steps.{alone_of, Enclosing};
ghost use Rattle.al_stmts.specs.Walking.{statement_walked, maybe_condition, alone_at};
ghost use Rattle.al_stmts.specs.WalkedViews.{one_model};

use crate::analyzer::Analyzer;
use al_base::NoMemory;
use al_base_fault::CheckResult;
use al_stmts::{Enclosing, WalkedStatement, delay, null};
use al_tree::{DelayStatement, ExitStatement, Expression};
use al_view_typed::{Typed, TypedStatement};

/// `null;`. Its line is never seen, as it has no code (ARM 5.1(6)).
/// # Errors
/// `NoMemory` if the allocator refuses memory.
pub fn walk_null(enclosing: &Enclosing) -> Result<WalkedStatement, NoMemory>
    ensures { IfOk result (λ done. one_model done ≡ alone_of (Ok (Numbered 0 forms.NullStatement))) }
{
    WalkedStatement::alone(enclosing.alloc(), Ok(null(0)))
}

/// The condition of an exit statement, if it has one.
fn exit_condition<R: Analyzer>(
    analyzer: &mut R,
    condition: &Option<Expression>,
) -> Result<Option<CheckResult<Typed>>, NoMemory>
    ensures asked { R.asked analyzer.new ≡ R.asked analyzer.old }
    ensures answered { IfOk result (λ done. FromAnswers (R.log analyzer.old) (R.log analyzer.new) (λ t. (R.env analyzer.new, option_map (map_ok typed_model) done) ≡ maybe_condition (R.reading t) (R.env analyzer.old) (option_map expression_model condition.now))) }
{
    match condition {
        Some(condition) => {
            let checked = analyzer.condition(condition)?;
            Ok(Some(checked))
        }
        None => Ok(None),
    }
}

/// `exit [name] [when condition];` (ARM 5.7), walked over.
/// # Errors
/// `NoMemory` if the allocator refuses memory.
pub fn walk_exit<R: Analyzer>(
    analyzer: &mut R,
    enclosing: &Enclosing,
    statement: &ExitStatement,
) -> Result<WalkedStatement, NoMemory>
    ensures asked { R.asked analyzer.new ≡ R.asked analyzer.old }
    ensures answered { IfOk result (λ done. FromAnswers (R.log analyzer.old) (R.log analyzer.new) (λ t. (R.env analyzer.new, one_model done) ≡ statement_walked (R.reading t) enclosing.now (R.env analyzer.old) (ExitTree (place_label statement.now.opening) (option_map identifier_label statement.now.name) (option_map expression_model statement.now.condition)))) }
{
    let condition = exit_condition(analyzer, &statement.condition)?;
    let checked = enclosing.exit(statement.opening, &statement.name, condition);
    WalkedStatement::alone(enclosing.alloc(), checked)
}

/// `delay until moment;` (ARM 9.6), checked.
/// # Errors
/// `NoMemory` if the allocator refuses memory. The inner error is the fault of the moment.
pub fn check_delay<R: Analyzer>(
    analyzer: &mut R,
    statement: &DelayStatement,
) -> Result<CheckResult<TypedStatement>, NoMemory>
    ensures asked { R.asked analyzer.new ≡ R.asked analyzer.old }
    ensures answered { IfOk result (λ checked. FromAnswers (R.log analyzer.old) (R.log analyzer.new) (λ t. (enclosing : Enclosing) → alone_at (R.env analyzer.new) (map_ok statement_model checked) ≡ statement_walked (R.reading t) enclosing (R.env analyzer.old) (DelayTree (place_label statement.now.opening) (expression_model statement.now.moment)))) }
{
    let moment = analyzer.moment(&statement.moment)?;
    Ok(delay(statement.opening.line as usize, moment))
}

/// `delay until moment;` (ARM 9.6), walked over.
/// # Errors
/// `NoMemory` if the allocator refuses memory.
pub fn walk_delay<R: Analyzer>(
    analyzer: &mut R,
    enclosing: &Enclosing,
    statement: &DelayStatement,
) -> Result<WalkedStatement, NoMemory>
    ensures asked { R.asked analyzer.new ≡ R.asked analyzer.old }
    ensures answered { IfOk result (λ done. FromAnswers (R.log analyzer.old) (R.log analyzer.new) (λ t. (R.env analyzer.new, one_model done) ≡ statement_walked (R.reading t) enclosing.now (R.env analyzer.old) (DelayTree (place_label statement.now.opening) (expression_model statement.now.moment)))) }
{
    let checked = check_delay(analyzer, statement)?;
    WalkedStatement::alone(enclosing.alloc(), checked)
}
