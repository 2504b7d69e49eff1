// The walk over the item of a unit, and its verdict.
ghost use Rattle.std.specs.Prelude.{◌≡◌, IfOk};
ghost use Rattle.al_tree.specs.UnitViews.{library_item_model, unit_model};
ghost use Rattle.al_query.specs.Reads.{Agrees, FromAnswers};
ghost use Rattle.al_stmts.specs.Units.{unit_walked};
ghost use Rattle.al_stmts.specs.WalkedViews.{inside_model};
ghost use Rattle.al_check_bounded.specs.Verdicts.{verdict_of};
ghost use Rattle.al_check_here.specs.Ends.{ends_of};
ghost use Rattle.al_check_reading.specs.Ada.{ada};
ghost use Rattle.al_check.specs.Ada.{ended_after, ended_text, item_walked_with, private_part_found, round_of};

use crate::start::{Begun, begun_at};
use al_base::NoMemory;
use al_check_bounded::{EndedText, UnitFacts, UnitResult, UnitVerdict, found_after};
use al_check_here::{CheckState, Ends, into_ends, into_private_part};
use al_check_reading::AdaAnalyzer;
use al_check_start::{UnitStart, check_unit};
use al_query::{Answers, Recorder};
use al_stmts::WalkedInside;
use al_tree::{CompilationUnit, LibraryItem};
use al_view::Interface;
use std::alloc::Global;

/// What the walk left, without what stayed the same during it.
fn without_text(ends: Ends) -> EndedText
    ensures { result ≡ ended_text ends }
{
    let (own, progress, completions, parts, uses, declared) = ends.into_parts();
    EndedText {
        own,
        progress,
        completions,
        parts,
        uses,
        declared,
    }
}

/// The verdict over an item whose walk has ended in this state.
fn ended_at(
    alloc: Global,
    unit_facts: UnitFacts,
    state: CheckState,
    inside: WalkedInside,
) -> Result<UnitVerdict, NoMemory>
    ensures { IfOk result (λ finding. verdict_of finding ≡ ended_after unit_facts (state, inside_model inside)) }
{
    match into_ends(alloc, state) {
        Ok(ends) => found_after(alloc, unit_facts, without_text(ends), inside),
        Err(error) => {
            drop(unit_facts);
            drop(inside);
            Err(error)
        }
    }
}

/// The verdict over an item whose walk has ended in this state, with what was asked.
fn found_by<A: Answers + Drop>(
    alloc: Global,
    unit_facts: UnitFacts,
    analyzer: AdaAnalyzer<A>,
    inside: WalkedInside,
) -> Result<UnitResult, NoMemory>
    ensures agrees { IfOk result (λ found. Agrees (A.table analyzer.recorder.asked) found.log) }
    ensures log { IfOk result (λ found. found.log ≡ analyzer.recorder.log) }
    ensures finding { IfOk result (λ found. verdict_of found.finding ≡ ended_after unit_facts (analyzer.state, inside_model inside)) }
{
    let (state, recorder) = analyzer.into_parts();
    let log = recorder.into_log();
    match ended_at(alloc, unit_facts, state, inside) {
        Ok(finding) => Ok(UnitResult { finding, log }),
        Err(error) => {
            drop(log);
            Err(error)
        }
    }
}

/// The verdict over the item of a unit, walked from this place.
fn walk<A: Answers + Drop>(
    alloc: Global,
    unit_facts: UnitFacts,
    state: CheckState,
    item: &LibraryItem,
    recorder: Recorder<A>,
) -> Result<UnitResult, NoMemory>
    ensures agrees { IfOk result (λ found. Agrees (A.table recorder.asked) found.log) }
    ensures answered { IfOk result (λ found. FromAnswers recorder.log found.log (λ t. verdict_of found.finding ≡ ended_after unit_facts (unit_walked (ada t) state (library_item_model item.now)))) }
{
    let mut analyzer = AdaAnalyzer { state, recorder };
    match check_unit(&mut analyzer, alloc, item) {
        Ok(inside) => found_by(alloc, unit_facts, analyzer, inside),
        Err(error) => {
            drop(unit_facts);
            drop(analyzer);
            Err(error)
        }
    }
}

/// What the private part of an item declares, walked from this place.
fn private_part_from<A: Answers + Drop>(
    alloc: Global,
    state: CheckState,
    item: &LibraryItem,
    recorder: Recorder<A>,
) -> Result<(Interface, Recorder<A>), NoMemory>
    ensures asked { IfOk result (λ found. found.1.asked ≡ recorder.asked) }
    ensures answered { IfOk result (λ found. FromAnswers recorder.log found.1.log (λ t. found.0 ≡ (ends_of (unit_walked (ada t) state (library_item_model item.now)).0).parts.private_part)) }
{
    let mut analyzer = AdaAnalyzer { state, recorder };
    match check_unit(&mut analyzer, alloc, item) {
        Ok(inside) => {
            drop(inside);
            let parts = analyzer.into_parts();
            let (state, recorder) = parts;
            Ok((into_private_part(alloc, state), recorder))
        }
        Err(error) => {
            drop(analyzer);
            Err(error)
        }
    }
}

/// What the private part of a unit with this start declares.
#[tactic(auto, unfolding(al_tree::specs::UnitViews::unit_model))]
pub(crate) fn private_part_found<A: Answers + Drop>(
    alloc: Global,
    tree: &CompilationUnit,
    start: UnitStart,
    recorder: Recorder<A>,
) -> Result<(Interface, Recorder<A>), NoMemory>
    ensures asked { IfOk result (λ found. found.1.asked ≡ recorder.asked) }
    ensures answered { IfOk result (λ found. FromAnswers recorder.log found.1.log (λ t. found.0 ≡ private_part_found t (unit_model tree.now) start)) }
{
    match begun_at(alloc, tree, start, Interface::new(alloc)) {
        Ok(begun) => {
            let Begun { unit_facts, state } = begun;
            drop(unit_facts);
            private_part_from(alloc, state, &tree.item, recorder)
        }
        Err(error) => {
            drop(recorder);
            Err(error)
        }
    }
}

/// The verdict over the item of a unit with this start. `private_part` is what its private part declares.
#[tactic(auto, unfolding(al_tree::specs::UnitViews::unit_model))]
pub(crate) fn walk_from<A: Answers + Drop>(
    alloc: Global,
    tree: &CompilationUnit,
    start: UnitStart,
    private_part: Interface,
    recorder: Recorder<A>,
) -> Result<UnitResult, NoMemory>
    ensures agrees { IfOk result (λ found. Agrees (A.table recorder.asked) found.log) }
    ensures answered { IfOk result (λ found. FromAnswers recorder.log found.log (λ t. verdict_of found.finding ≡ ended_after (round_of (unit_model tree.now) start) (item_walked_with t private_part (unit_model tree.now) start))) }
{
    match begun_at(alloc, tree, start, private_part) {
        Ok(begun) => {
            let Begun { unit_facts, state } = begun;
            walk(alloc, unit_facts, state, &tree.item, recorder)
        }
        Err(error) => {
            drop(recorder);
            Err(error)
        }
    }
}
