// Bodies, before and after what is inside them.
ghost use Rattle.std.specs.Prelude.{◌≡◌, IfOk};
ghost use Rattle.al_query.specs.Reads.{FromAnswers};
ghost use Rattle.al_stmts.specs.Views.{effects_model};
ghost use Rattle.al_stmts.specs.Readings.{giving};
ghost use Rattle.al_stmts.specs.Walking.{body_ended, body_entered, object_ended};
ghost use Rattle.al_stmts.specs.WalkedViews.{inside_model, part_model};

use crate::analyzer::Analyzer;
use al_base::NoMemory;
use al_base_fault::Fault;
use al_stmts::{BodyExtent, Enclosing, WalkedInside, WalkedPart};
use al_view_typed::TypedDeclaration;
use std::alloc::Global;

/// Enters the region of a body. The result is what its statements are in.
/// # Errors
/// `NoMemory` if the allocator refuses memory.
pub fn enter_body<R: Analyzer>(analyzer: &mut R, alloc: Global) -> Result<Enclosing, NoMemory>
    ensures asked { R.asked analyzer.new ≡ R.asked analyzer.old }
    ensures answered { IfOk result (λ done. FromAnswers (R.log analyzer.old) (R.log analyzer.new) (λ t. (R.env analyzer.new, done) ≡ body_entered (R.reading t) (R.env analyzer.old))) }
{
    analyzer.body_entered()?;
    let returns = analyzer.returns()?;
    Ok(Enclosing::new(alloc, returns))
}

/// Leaves the region of a body.
fn leave_body<R: Analyzer>(analyzer: &mut R, part: WalkedPart) -> Result<WalkedPart, NoMemory>
    ensures asked { R.asked analyzer.new ≡ R.asked analyzer.old }
    ensures answered { IfOk result (λ done. FromAnswers (R.log analyzer.old) (R.log analyzer.new) (λ t. (R.env analyzer.new, part_model done) ≡ giving ((R.reading t).body_left (R.env analyzer.old)) (part_model part))) }
{
    match analyzer.body_left() {
        Ok(()) => Ok(part),
        Err(error) => Err(error),
    }
}

/// A body after what is inside it: its tree with its labels, and what is wrong at its end.
/// # Errors
/// `NoMemory` if the allocator refuses memory.
pub fn finish_body<R: Analyzer>(
    analyzer: &mut R,
    alloc: Global,
    effects: Vec<TypedDeclaration>,
    extent: BodyExtent,
    no_return: Option<Fault>,
    inside: WalkedInside,
) -> Result<WalkedPart, NoMemory>
    ensures asked { R.asked analyzer.new ≡ R.asked analyzer.old }
    ensures answered { IfOk result (λ done. FromAnswers (R.log analyzer.old) (R.log analyzer.new) (λ t. (R.env analyzer.new, part_model done) ≡ body_ended (R.reading t) (effects_model effects) extent no_return (R.env analyzer.old, inside_model inside))) }
{
    let WalkedInside {
        faults,
        declarations,
        statements,
        bodies,
    } = inside;
    let body = analyzer.body(extent, declarations, statements)?;
    let end = extent.name_fault;
    let part = WalkedPart::of_body(alloc, effects, faults, no_return, end, body, bodies)?;
    leave_body(analyzer, part)
}

/// A protected body with the bodies of its operations, and what is wrong with the name at its end; its region is left (ARM 9.4).
/// # Errors
/// `NoMemory` if the allocator refuses memory.
pub fn finish_object<R: Analyzer>(
    analyzer: &mut R,
    effects: Vec<TypedDeclaration>,
    end: Option<Fault>,
    operations: WalkedPart,
) -> Result<WalkedPart, NoMemory>
    ensures asked { R.asked analyzer.new ≡ R.asked analyzer.old }
    ensures answered { IfOk result (λ done. FromAnswers (R.log analyzer.old) (R.log analyzer.new) (λ t. (R.env analyzer.new, part_model done) ≡ object_ended (R.reading t) (effects_model effects) end (R.env analyzer.old, part_model operations))) }
{
    match analyzer.object_left() {
        Ok(()) => Ok(operations.into_object(effects, end)),
        Err(error) => Err(error),
    }
}
