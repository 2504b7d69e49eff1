// Regions that are left, and parts that end.
ghost use Rattle.std.specs.Prelude.{◌≡◌, IfOk, OnOk};
ghost use Rattle.al_query.specs.Reads.{FromAnswers};
ghost use Rattle.al_tree.specs.Lexemes.{place_label};
ghost use Rattle.al_stmts.specs.Steps.{block_of, broken_by};
ghost use Rattle.al_stmts.specs.Units.{parts_completed};
ghost use Rattle.al_stmts.specs.Walking.{closed, region_left};
ghost use Rattle.al_stmts.specs.WalkedViews.{inside_model, one_model, part_model};

use crate::analyzer::Analyzer;
use al_base::{NoMemory, Place};
use al_base_fault::Fault;
use al_stmts::{WalkedInside, WalkedPart, WalkedStatement};
use std::alloc::Global;

/// Leaves the region of a statement that was walked over (ARM 8.1).
/// # Errors
/// `NoMemory` if the allocator refuses memory.
pub fn left_region<R: Analyzer>(
    analyzer: &mut R,
    walked: WalkedStatement,
) -> Result<WalkedStatement, NoMemory>
    ensures asked { R.asked analyzer.new ≡ R.asked analyzer.old }
    ensures answered { IfOk result (λ done. FromAnswers (R.log analyzer.old) (R.log analyzer.new) (λ t. (R.env analyzer.new, one_model done) ≡ region_left (R.reading t) (R.env analyzer.old, one_model walked))) }
{
    match analyzer.left() {
        Ok(()) => Ok(walked),
        Err(error) => {
            drop(walked);
            Err(error)
        }
    }
}

/// A for loop whose range is faulty, which ends the list of faults: its region is left.
/// # Errors
/// `NoMemory` if the allocator refuses memory.
pub fn broken_loop<R: Analyzer>(
    analyzer: &mut R,
    alloc: Global,
    fault: Fault,
) -> Result<WalkedStatement, NoMemory>
    ensures asked { R.asked analyzer.new ≡ R.asked analyzer.old }
    ensures answered { IfOk result (λ done. FromAnswers (R.log analyzer.old) (R.log analyzer.new) (λ t. (R.env analyzer.new, one_model done) ≡ region_left (R.reading t) (R.env analyzer.old, broken_by fault))) }
{
    analyzer.left()?;
    Ok(WalkedStatement::broken_by(alloc, fault))
}

/// A part up to its end: E302 there if one of its declarations still waits.
/// # Errors
/// `NoMemory` if the allocator refuses memory.
pub fn close_part<R: Analyzer>(
    analyzer: &mut R,
    part: &mut WalkedPart,
    end: Place,
) -> Result<(), NoMemory>
    ensures asked { R.asked analyzer.new ≡ R.asked analyzer.old }
    ensures answered { OnOk result (FromAnswers (R.log analyzer.old) (R.log analyzer.new) (λ t. (R.env analyzer.new, part_model part.new) ≡ closed (R.reading t) (R.env analyzer.old, part_model part.old) (place_label end))) }
{
    let missing = analyzer.missing(end)?;
    part.close(missing);
    Ok(())
}

/// Both parts of a package up to its end: E302 there if a private type has no full declaration.
/// # Errors
/// `NoMemory` if the allocator refuses memory.
pub fn complete_parts<R: Analyzer>(
    analyzer: &mut R,
    part: &mut WalkedPart,
    end: Place,
) -> Result<(), NoMemory>
    ensures asked { R.asked analyzer.new ≡ R.asked analyzer.old }
    ensures answered { OnOk result (FromAnswers (R.log analyzer.old) (R.log analyzer.new) (λ t. (R.env analyzer.new, part_model part.new) ≡ parts_completed (R.reading t) (R.env analyzer.old, part_model part.old) (place_label end))) }
{
    let incomplete = analyzer.incomplete(end)?;
    part.close(incomplete);
    Ok(())
}

/// A block after what is inside it, whose region is left.
/// # Errors
/// `NoMemory` if the allocator refuses memory.
pub fn finish_block<R: Analyzer>(
    analyzer: &mut R,
    alloc: Global,
    line: usize,
    end: Option<Fault>,
    inside: WalkedInside,
) -> Result<WalkedStatement, NoMemory>
    ensures asked { R.asked analyzer.new ≡ R.asked analyzer.old }
    ensures answered { IfOk result (λ done. FromAnswers (R.log analyzer.old) (R.log analyzer.new) (λ t. (R.env analyzer.new, one_model done) ≡ region_left (R.reading t) (R.env analyzer.old, block_of line end (inside_model inside)))) }
{
    let walked = inside.into_block(alloc, line, end)?;
    left_region(analyzer, walked)
}
