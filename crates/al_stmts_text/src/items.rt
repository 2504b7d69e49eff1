// Declarations without declarations or statements inside them.
ghost use Rattle.std.specs.Prelude.{◌≡◌, IfOk};
ghost use Rattle.al_query.specs.Reads.{FromAnswers};
ghost use Rattle.al_tree.specs.DeclarationViews.{common_model, protected_model, specification_model, task_model};
ghost use Rattle.al_tree.specs.Lexemes.{place_label};
ghost use Rattle.al_stmts.specs.Walking.{declared_part};
ghost use Rattle.al_stmts.specs.WalkedViews.{part_model};

use crate::analyzer::Analyzer;
use al_base::{NoMemory, Place};
use al_stmts::WalkedPart;
use al_tree::{CommonDeclaration, ProtectedDefinition, Specification, TaskDeclaration};
use std::alloc::Global;

/// A declaration, a pragma or a use clause.
/// # Errors
/// `NoMemory` if the allocator refuses memory.
pub fn declared_item<R: Analyzer>(
    analyzer: &mut R,
    alloc: Global,
    declaration: &CommonDeclaration,
) -> Result<WalkedPart, NoMemory>
    ensures asked { R.asked analyzer.new ≡ R.asked analyzer.old }
    ensures answered { IfOk result (λ done. FromAnswers (R.log analyzer.old) (R.log analyzer.new) (λ t. (R.env analyzer.new, part_model done) ≡ declared_part ((R.reading t).declared (R.env analyzer.old) (common_model declaration.now)))) }
{
    let checked = analyzer.declared(declaration)?;
    Ok(WalkedPart::declared(alloc, checked))
}

/// The declaration of a subprogram (ARM 6.1).
/// # Errors
/// `NoMemory` if the allocator refuses memory.
pub fn subprogram_item<R: Analyzer>(
    analyzer: &mut R,
    alloc: Global,
    specification: &Specification,
) -> Result<WalkedPart, NoMemory>
    ensures asked { R.asked analyzer.new ≡ R.asked analyzer.old }
    ensures answered { IfOk result (λ done. FromAnswers (R.log analyzer.old) (R.log analyzer.new) (λ t. (R.env analyzer.new, part_model done) ≡ declared_part ((R.reading t).subprogram (R.env analyzer.old) (specification_model specification.now)))) }
{
    let checked = analyzer.subprogram(specification)?;
    Ok(WalkedPart::declared(alloc, checked))
}

/// The stub of a subprogram, with the place of `separate` (ARM 10.1.3).
/// # Errors
/// `NoMemory` if the allocator refuses memory.
pub fn stub_item<R: Analyzer>(
    analyzer: &mut R,
    alloc: Global,
    specification: &Specification,
    separate: Place,
) -> Result<WalkedPart, NoMemory>
    ensures asked { R.asked analyzer.new ≡ R.asked analyzer.old }
    ensures answered { IfOk result (λ done. FromAnswers (R.log analyzer.old) (R.log analyzer.new) (λ t. (R.env analyzer.new, part_model done) ≡ declared_part ((R.reading t).stub (R.env analyzer.old) (specification_model specification.now) (place_label separate)))) }
{
    let checked = analyzer.stub(specification, separate)?;
    Ok(WalkedPart::declared(alloc, checked))
}

/// A task (ARM 9.1).
/// # Errors
/// `NoMemory` if the allocator refuses memory.
pub fn task_item<R: Analyzer>(
    analyzer: &mut R,
    alloc: Global,
    task: &TaskDeclaration,
) -> Result<WalkedPart, NoMemory>
    ensures asked { R.asked analyzer.new ≡ R.asked analyzer.old }
    ensures answered { IfOk result (λ done. FromAnswers (R.log analyzer.old) (R.log analyzer.new) (λ t. (R.env analyzer.new, part_model done) ≡ declared_part ((R.reading t).single_task (R.env analyzer.old) (task_model task.now)))) }
{
    let checked = analyzer.single_task(task)?;
    Ok(WalkedPart::declared(alloc, checked))
}

/// A protected object, with the place of `protected` (ARM 9.4).
/// # Errors
/// `NoMemory` if the allocator refuses memory.
pub fn object_item<R: Analyzer>(
    analyzer: &mut R,
    alloc: Global,
    object: &ProtectedDefinition,
    opening: Place,
) -> Result<WalkedPart, NoMemory>
    ensures asked { R.asked analyzer.new ≡ R.asked analyzer.old }
    ensures answered { IfOk result (λ done. FromAnswers (R.log analyzer.old) (R.log analyzer.new) (λ t. (R.env analyzer.new, part_model done) ≡ declared_part ((R.reading t).single_object (R.env analyzer.old) (place_label opening) (protected_model object.now)))) }
{
    let checked = analyzer.single_object(opening, object)?;
    Ok(WalkedPart::declared(alloc, checked))
}
