// Blocks.
ghost use Rattle.std.specs.Prelude.{◌≡◌, IfOk, map};
ghost use Rattle.al_view_typed.specs.DeclarationTrees.{declaration_model};
ghost use Rattle.al_stmts.specs.Checking.{all_checked, one_checked};
ghost use Rattle.al_stmts.specs.LoopForms.{blocked};

use crate::checked::{CheckedStatement, CheckedStatements};
use al_base::NoMemory;
use al_base_fault::{Fault, unless};
use al_view_typed::{StatementForm, TypedDeclaration, TypedStatement};
use std::alloc::Global;

/// A block by its declarations, the fault of the name at its end, and its statements (ARM 5.6). The faults of its declarations come before
/// those of its statements, in one list.
/// # Errors
/// `NoMemory` if the allocator refuses memory.
#[tactic(auto, using(crate::proofs::Seen::seen_unless))]
pub fn block_statement(
    alloc: Global,
    line: usize,
    declarations: Vec<TypedDeclaration>,
    end: Option<Fault>,
    inner: CheckedStatements,
) -> Result<CheckedStatement, NoMemory>
    ensures { IfOk result (λ one. one_checked one ≡ blocked line (map declaration_model declarations.items) end (all_checked inner)) }
{
    let CheckedStatements { faults, statements } = inner;
    let form = StatementForm::block(declarations, statements);
    let judged = unless(end, Ok(TypedStatement::new(line, form)));
    CheckedStatement::compound(alloc, judged, faults)
}
