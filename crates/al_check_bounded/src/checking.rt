// The check of a unit within bounds.
ghost use Rattle.std.specs.Prelude.{◌≡◌, ◌≤◌, [], length, IfOk, OnOk};
ghost use Rattle.std.specs.Str.{bytes_eq};
ghost use Rattle.indexmap.specs.IndexSet.{insert_all};
ghost use Rattle.al_tree.specs.UnitViews.{unit_model};
ghost use Rattle.al_unit_header.specs.Units as headers;
ghost use Rattle.al_unit_graph.specs.Views.{header_model};
ghost use Rattle.al_query.specs.Asked.{AsksOf, by_property};
ghost use Rattle.al_query.specs.Reads.{Agrees, FromAnswers};
ghost use Rattle.al_query_outcome.specs.ReadsLaw.{AsksByNames, AsksOthers, named_by};
ghost use Rattle.al_query_outcome.specs.Results.{checked_model};
ghost use Rattle.al_check_bounded.specs.Bounding.{AreWordsOrTold, allowed, bounded};
ghost use Rattle.al_check_bounded.specs.Verdicts.{IsTold, NamesWithin, verdict_of};
ghost use Rattle.al_check_bounded.specs.Within.{AreBounds, IsChecked, meaning_within};
ghost use Rattle.al_query_outcome.specs.Words.{words_of};

use crate::concluding::concluded_within;
use crate::finder::UnitFinder;
use crate::finding::UnitResult;
use crate::words::{with_names, words_of};
use crate::{Bounded, Bounds, NameSet, UnitSet, replay};
use al_base::{NoMemory, UnitKey};
use al_query::{Answers, Recorder};
use al_query_outcome::Checked;
use al_tree::CompilationUnit;
use al_unit_graph::Header;
use al_view::copied_unit;
use std::alloc::Global;

/// The names that may be asked for: the words of the source, and names from answers.
fn names_of<F: UnitFinder, A: Answers>(
    alloc: Global,
    finder: &F,
    unit: &UnitKey,
    text: &[u8],
    header: &Header,
    recorder: &mut Recorder<A>,
) -> Result<NameSet, NoMemory>
    requires { length text.now ≤ 4294967294 }
    ensures asked { recorder.new.asked ≡ recorder.old.asked }
    ensures answered { IfOk result (λ names. FromAnswers recorder.old.log recorder.new.log (λ t. names ≡ insert_all bytes_eq (words_of text.now) (F.names unit.now (header_model header.now) t))) }
    ensures asks { OnOk result (AsksOf (named_by (header_model header.now)) by_property recorder.old.log recorder.new.log) }
    ensures others { OnOk result (AsksOthers unit.now recorder.old.log → AsksOthers unit.now recorder.new.log) }
    ensures names_answered { IfOk result (λ names. AreWordsOrTold (words_of text.now) recorder.new.log names) }
{
    let names_answered = finder.names_known(alloc, unit, header, recorder)?;
    let words = words_of(alloc, text)?;
    let names = with_names(alloc, words, names_answered.as_slice())?;
    Ok(names)
}

/// The bounds of a unit: the units that it knows, the words of its source, and names from answers.
fn bounds_of<F: UnitFinder, A: Answers>(
    alloc: Global,
    finder: &F,
    unit: &UnitKey,
    text: &[u8],
    header: &Header,
    recorder: &mut Recorder<A>,
) -> Result<Bounds, NoMemory>
    requires text { length text.now ≤ 4294967294 }
    requires log { recorder.old.log ≡ [] }
    ensures asked { recorder.new.asked ≡ recorder.old.asked }
    ensures bounds { IfOk result (λ bounds. AreBounds (F.units unit.now (header_model header.now)) (F.names unit.now (header_model header.now)) (header_model header.now) unit.now text.now recorder.new.log bounds) }
{
    let known = finder.units_known(alloc, unit, header, recorder)?;
    let units = UnitSet::new(alloc, known)?;
    let names = names_of(alloc, finder, unit, text, header, recorder)?;
    let unit = copied_unit(alloc, unit)?;
    Ok(Bounds {
        unit,
        known: units,
        names,
    })
}

/// The verdict over a unit, found within its bounds.
fn found_within<F: UnitFinder, A: Answers>(
    alloc: Global,
    finder: &F,
    bounds: &Bounds,
    text: &[u8],
    tree: &CompilationUnit,
    recorder: &mut Recorder<A>,
) -> Result<UnitResult, NoMemory>
    requires { length text.now ≤ 4294967294 }
    ensures asked { recorder.new.asked ≡ recorder.old.asked }
    ensures answered { IfOk result (λ found. FromAnswers recorder.old.log recorder.new.log (λ t. Agrees (bounded bounds.now t) found.log)) }
    ensures found { IfOk result (λ found. FromAnswers recorder.old.log recorder.new.log (λ t. verdict_of found.finding ≡ F.verdict bounds.now.unit text.now (unit_model tree.now) (bounded bounds.now t))) }
    ensures names { IfOk result (λ found. NamesWithin (named_by (headers.header_of (unit_model tree.now))) (verdict_of found.finding)) }
    ensures faults { IfOk result (λ found. IsTold bounds.now.unit (verdict_of found.finding)) }
    ensures asks { OnOk result (AsksOf bounds.now.known (allowed bounds.now) recorder.old.log recorder.new.log) }
    ensures others { OnOk result (AsksOthers bounds.now.unit recorder.old.log → AsksOthers bounds.now.unit recorder.new.log) }
{
    let inner = Recorder::new(
        alloc,
        Bounded {
            alloc,
            asked: recorder.source(),
            bounds,
        },
    );
    let found = finder.find(alloc, &bounds.unit, text, tree, inner)?;
    replay(bounds, &found.log, recorder)?;
    Ok(found)
}

/// Checks a unit with this source, parsed to this tree with this header: the finder asks within the unit's bounds, and its verdict is tested.
///
/// # Errors
/// `NoMemory` if the allocator refuses memory.
pub fn check_within<F: UnitFinder, A: Answers>(
    alloc: Global,
    finder: &F,
    unit: &UnitKey,
    text: &[u8],
    tree: &CompilationUnit,
    header: &Header,
    recorder: &mut Recorder<A>,
) -> Result<Checked, NoMemory>
    requires text { length text.now ≤ 4294967294 }
    requires header { header_model header.now ≡ headers.header_of (unit_model tree.now) }
    requires log { recorder.old.log ≡ [] }
    ensures asked { recorder.new.asked ≡ recorder.old.asked }
    ensures checked { IfOk result (λ checked. IsChecked unit.now (headers.header_of (unit_model tree.now)) (meaning_within F.units F.names F.verdict unit.now text.now (unit_model tree.now)) recorder.new.log (checked_model checked)) }
    ensures others { OnOk result (AsksOthers unit.now recorder.new.log) }
    ensures names { OnOk result (AsksByNames unit.now (words_of text.now) recorder.new.log) }
{
    let bounds = bounds_of(alloc, finder, unit, text, header, recorder)?;
    let found = found_within(alloc, finder, &bounds, text, tree, recorder)?;
    let checked = concluded_within(alloc, &bounds, header, found, recorder)?;
    Ok(checked)
}
