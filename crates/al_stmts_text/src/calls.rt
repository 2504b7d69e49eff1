// Calls as statements (ARM 6.4, 9.5.3).
ghost use Rattle.std.specs.Prelude.{◌≡◌, IfOk};
ghost use Rattle.al_base_fault.specs.Judging.{map_ok};
ghost use Rattle.al_query.specs.Reads.{FromAnswers};
ghost use Rattle.al_tree_syntax.specs.StatementTrees.StatementTree.{CallStatement};
ghost use Rattle.al_tree.specs.ExpressionViews.{expression_model};
ghost use Rattle.al_view_typed.specs.StatementViews.{statement_model};
ghost use Rattle.al_stmts_text.specs.PerformedViews.{call_effect_model};
ghost use Rattle.al_stmts.specs.Steps.{Enclosing};
ghost use Rattle.al_stmts.specs.Walking.{alone_at, call_effect, statement_walked};
ghost use Rattle.al_stmts.specs.WalkedViews.{one_model};

use crate::analyzer::{Analyzer, CallEffect};
use al_base::NoMemory;
use al_base_fault::CheckResult;
use al_overload_lookup::first_place;
use al_stmts::{Enclosing, WalkedStatement, call, put};
use al_tree::Expression;
use al_view_typed::TypedStatement;

/// What a name alone does, as a statement.
fn performing(line: usize, done: CheckResult<CallEffect>) -> CheckResult<TypedStatement>
    ensures { map_ok statement_model result ≡ call_effect line (map_ok call_effect_model done) }
{
    match done {
        Ok(CallEffect::Called(done)) => call(line, Ok(done)),
        Ok(CallEffect::Put(pieces, ends_line)) => put(line, Ok(pieces), ends_line),
        Err(fault) => Err(fault),
    }
}

/// `name;` (ARM 6.4, 9.5.3), checked.
/// # Errors
/// `NoMemory` if the allocator refuses memory. The inner error is the fault of the call.
pub fn check_call<R: Analyzer>(
    analyzer: &mut R,
    name: &Expression,
) -> Result<CheckResult<TypedStatement>, NoMemory>
    ensures asked { R.asked analyzer.new ≡ R.asked analyzer.old }
    ensures answered { IfOk result (λ checked. FromAnswers (R.log analyzer.old) (R.log analyzer.new) (λ t. (enclosing : Enclosing) → alone_at (R.env analyzer.new) (map_ok statement_model checked) ≡ statement_walked (R.reading t) enclosing (R.env analyzer.old) (CallStatement (expression_model name.now)))) }
{
    let done = analyzer.call_effect(name)?;
    Ok(performing(first_place(name).line as usize, done))
}

/// `name;` (ARM 6.4, 9.5.3), walked over.
/// # Errors
/// `NoMemory` if the allocator refuses memory.
pub fn walk_call<R: Analyzer>(
    analyzer: &mut R,
    enclosing: &Enclosing,
    name: &Expression,
) -> Result<WalkedStatement, NoMemory>
    ensures asked { R.asked analyzer.new ≡ R.asked analyzer.old }
    ensures answered { IfOk result (λ done. FromAnswers (R.log analyzer.old) (R.log analyzer.new) (λ t. (R.env analyzer.new, one_model done) ≡ statement_walked (R.reading t) enclosing.now (R.env analyzer.old) (CallStatement (expression_model name.now)))) }
{
    let checked = check_call(analyzer, name)?;
    WalkedStatement::alone(enclosing.alloc(), checked)
}
