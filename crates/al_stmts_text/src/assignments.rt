// Assignments (ARM 5.2).
ghost use Rattle.std.specs.Prelude.{◌≡◌, IfOk, Ok};
ghost use Rattle.al_base_fault.specs.Judging.{next, map_ok};
ghost use Rattle.al_query.specs.Reads.{FromAnswers};
ghost use Rattle.al_tree_syntax.specs.StatementTrees.StatementTree.{Assignment as AssignmentTree};
ghost use Rattle.al_tree.specs.ExpressionViews.{expression_model};
ghost use Rattle.al_view_typed.specs.ExpressionViews.{typed_model};
ghost use Rattle.al_view_typed.specs.StatementViews.{statement_model};
ghost use Rattle.al_stmts.specs.Simple.{target_of, target_model};
ghost use Rattle.al_stmts.specs.Steps.{Enclosing};
ghost use Rattle.al_stmts.specs.Walking.{alone_at, assigned_at, statement_walked};
ghost use Rattle.al_stmts.specs.WalkedViews.{one_model};

use crate::analyzer::Analyzer;
use al_base::NoMemory;
use al_base_fault::CheckResult;
use al_overload_lookup::first_place;
use al_stmts::{Enclosing, Target, WalkedStatement, assignment, target_of};
use al_tree::Assignment;
use al_view_typed::{Typed, TypedStatement};

/// A target that was read, if it is a variable.
fn found_target(found: CheckResult<Typed>) -> CheckResult<Target>
    ensures { map_ok target_model result ≡ next (map_ok typed_model found) target_of }
{
    match found {
        Ok(found) => target_of(found),
        Err(fault) => Err(fault),
    }
}

/// The value of an assignment whose target is right.
fn assign<R: Analyzer>(
    analyzer: &mut R,
    target: Target,
    statement: &Assignment,
) -> Result<CheckResult<TypedStatement>, NoMemory>
    ensures asked { R.asked analyzer.new ≡ R.asked analyzer.old }
    ensures answered { IfOk result (λ checked. FromAnswers (R.log analyzer.old) (R.log analyzer.new) (λ t. alone_at (R.env analyzer.new) (map_ok statement_model checked) ≡ assigned_at (R.reading t) (R.env analyzer.old) (expression_model statement.now.target) (expression_model statement.now.value) (Ok (target_model target)))) }
{
    let value = analyzer.source(&statement.target, &statement.value)?;
    let line = first_place(&statement.target).line as usize;
    Ok(assignment(line, target, value))
}

/// `target := value;` (ARM 5.2), checked.
/// # Errors
/// `NoMemory` if the allocator refuses memory. The inner error is the fault of the target, which is E406 if it is no variable; else that of
/// the value.
pub fn check_assignment<R: Analyzer>(
    analyzer: &mut R,
    statement: &Assignment,
) -> Result<CheckResult<TypedStatement>, NoMemory>
    ensures asked { R.asked analyzer.new ≡ R.asked analyzer.old }
    ensures answered { IfOk result (λ checked. FromAnswers (R.log analyzer.old) (R.log analyzer.new) (λ t. (enclosing : Enclosing) → alone_at (R.env analyzer.new) (map_ok statement_model checked) ≡ statement_walked (R.reading t) enclosing (R.env analyzer.old) (AssignmentTree (expression_model statement.now.target) (expression_model statement.now.value)))) }
{
    match found_target(analyzer.target(&statement.target)?) {
        Ok(target) => assign(analyzer, target, statement),
        Err(fault) => Ok(Err(fault)),
    }
}

/// `target := value;` (ARM 5.2), walked over.
/// # Errors
/// `NoMemory` if the allocator refuses memory.
pub fn walk_assignment<R: Analyzer>(
    analyzer: &mut R,
    enclosing: &Enclosing,
    statement: &Assignment,
) -> Result<WalkedStatement, NoMemory>
    ensures asked { R.asked analyzer.new ≡ R.asked analyzer.old }
    ensures answered { IfOk result (λ done. FromAnswers (R.log analyzer.old) (R.log analyzer.new) (λ t. (R.env analyzer.new, one_model done) ≡ statement_walked (R.reading t) enclosing.now (R.env analyzer.old) (AssignmentTree (expression_model statement.now.target) (expression_model statement.now.value)))) }
{
    let checked = check_assignment(analyzer, statement)?;
    WalkedStatement::alone(enclosing.alloc(), checked)
}
