// A walk over statements and those inside them.
ghost use Rattle.std.specs.Prelude.{◌≡◌, map, option_map};
ghost use Rattle.al_tree.specs.StatementViews.{alternative_model, alternatives_of, block_model, case_model, elsif_model, elsifs_of, else_of, if_model, loop_model, more_statements_of, statement_model, statements_model};
ghost use Rattle.al_stmts.specs.Returning.{alternative_returns, alternatives_return, block_returns, branch_returns, elsifs_return, else_returns, has_return, is_returning, loop_returns, more_return};

use al_tree::{
    Alternative, BlockStatement, CaseStatement, ElsifBranch, IfStatement, LoopStatement, Statement,
    Statements,
};

/// Whether a return statement is among statements, or inside them, except in bodies among their declarations (ARM 6.5(4, 5)).
#[cycle(walk)]
#[tactic(auto, using(crate::proofs::ReturnsLayers::statements_layers))]
pub fn has_return(statements: &Statements) -> bool
    ensures { result ≡ has_return (statements_model statements.now) }
{
    is_returning(&statements.first) || in_more(statements.others.as_slice())
}

#[cycle(walk)]
fn in_more(statements: &[Statement]) -> bool
    ensures { result ≡ more_return (more_statements_of (map statement_model statements.now)) }
{
    let mut found = false;
    for statement in statements {
        found = found || is_returning(statement);
    }
    found
}

#[cycle(walk)]
#[tactic(auto, using(al_tree::proofs::StatementsMade::statement_null_model, al_tree::proofs::StatementsMade::statement_assignment_model, al_tree::proofs::StatementsMade::statement_call_model, al_tree::proofs::StatementsMade::statement_returning_model, al_tree::proofs::StatementsMade::statement_exit_model, al_tree::proofs::StatementsMade::statement_delay_model, al_tree::proofs::StatementsMade::statement_branching_model, al_tree::proofs::StatementsMade::statement_case_model, al_tree::proofs::StatementsMade::statement_looping_model, al_tree::proofs::StatementsMade::statement_block_model))]
fn is_returning(statement: &Statement) -> bool
    ensures { result ≡ is_returning (statement_model statement.now) }
{
    match statement {
        Statement::Null => false,
        Statement::Assignment(_) => false,
        Statement::Call(_) => false,
        Statement::Return(_) => true,
        Statement::Exit(_) => false,
        Statement::Delay(_) => false,
        Statement::If(inner) => in_if(inner),
        Statement::Case(inner) => in_case(inner),
        Statement::Loop(_, inner) => in_loop(inner),
        Statement::Block(_, inner) => in_block(inner),
    }
}

#[cycle(walk)]
#[tactic(auto, using(crate::proofs::ReturnsLayers::if_layers, crate::proofs::ReturnsLayers::branch_layers))]
fn in_if(inner: &IfStatement) -> bool
    ensures { result ≡ is_returning (if_model inner.now) }
{
    has_return(&inner.first.statements)
        || in_elsifs(inner.others.as_slice())
        || in_otherwise(&inner.otherwise)
}

#[cycle(walk)]
fn in_elsifs(branches: &[ElsifBranch]) -> bool
    ensures { result ≡ elsifs_return (elsifs_of (map elsif_model branches.now)) }
{
    let mut found = false;
    for other in branches {
        found = found || in_elsif(other);
    }
    found
}

#[cycle(walk)]
#[tactic(auto, using(crate::proofs::ReturnsLayers::elsif_layers, crate::proofs::ReturnsLayers::branch_layers))]
fn in_elsif(other: &ElsifBranch) -> bool
    ensures { result ≡ branch_returns (elsif_model other.now).1 }
{
    has_return(&other.branch.statements)
}

#[cycle(walk)]
fn in_otherwise(otherwise: &Option<Statements>) -> bool
    ensures { result ≡ else_returns (else_of (option_map statements_model otherwise.now)) }
{
    match otherwise {
        Some(statements) => has_return(statements),
        None => false,
    }
}

#[cycle(walk)]
#[tactic(auto, using(crate::proofs::ReturnsLayers::case_layers))]
fn in_case(inner: &CaseStatement) -> bool
    ensures { result ≡ is_returning (case_model inner.now) }
{
    in_alternative(&inner.first) || in_alternatives(inner.others.as_slice())
}

#[cycle(walk)]
#[tactic(auto, using(crate::proofs::ReturnsLayers::alternative_layers))]
fn in_alternative(alternative: &Alternative) -> bool
    ensures { result ≡ alternative_returns (alternative_model alternative.now) }
{
    has_return(&alternative.statements)
}

#[cycle(walk)]
fn in_alternatives(alternatives: &[Alternative]) -> bool
    ensures { result ≡ alternatives_return (alternatives_of (map alternative_model alternatives.now)) }
{
    let mut found = false;
    for alternative in alternatives {
        found = found || in_alternative(alternative);
    }
    found
}

#[cycle(walk)]
#[tactic(auto, using(al_tree::proofs::StatementsMade::loop_plain_loop_model, al_tree::proofs::StatementsMade::loop_while_loop_model, al_tree::proofs::StatementsMade::loop_for_loop_model))]
fn in_loop(inner: &LoopStatement) -> bool
    ensures { result ≡ loop_returns (loop_model inner.now) }
{
    match inner {
        LoopStatement::PlainLoop(_, statements, _) => has_return(statements),
        LoopStatement::WhileLoop(_, _, _, statements, _) => has_return(statements),
        LoopStatement::ForLoop(_, _, _, _, _, statements, _) => has_return(statements),
    }
}

#[cycle(walk)]
#[tactic(auto, using(al_tree::proofs::StatementsMade::block_declare_block_model, al_tree::proofs::StatementsMade::block_plain_block_model, crate::proofs::ReturnsLayers::handled_layers))]
fn in_block(inner: &BlockStatement) -> bool
    ensures { result ≡ block_returns (block_model inner.now) }
{
    match inner {
        BlockStatement::DeclareBlock(_, declared) => has_return(&declared.statements),
        BlockStatement::PlainBlock(_, statements, _) => has_return(statements),
    }
}
