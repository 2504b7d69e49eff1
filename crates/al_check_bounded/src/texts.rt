// The check of a unit's source.
ghost use Rattle.std.specs.Prelude.{◌≡◌, [], Some, IfOk, OnOk};
ghost use Rattle.al_tree.specs.UnitViews.{unit_model};
ghost use Rattle.al_unit_graph.specs.Views.{header_model};
ghost use Rattle.al_unit_header.specs.Units as headers;
ghost use Rattle.al_query_outcome.specs.ReadsLaw.{AsksByNames, AsksOthers};
ghost use Rattle.al_query_outcome.specs.Results.{checked_model};
ghost use Rattle.al_query_outcome.specs.Words.{words_of};
ghost use Rattle.al_unit.specs.Texts.{header_in, unit_in};
ghost use Rattle.al_check_bounded.specs.Within.{IsChecked};
ghost use Rattle.al_check_bounded.specs.Meanings.{text_meaning};

use crate::{UnitFinder, check_within};
use al_base::{NoMemory, UnitKey};
use al_check_promises::laws::faults_are_reported;
use al_check_promises::not_checked;
use al_query::{Answers, Recorder};
use al_query_outcome::Checked;
use al_unit::check_text_laws::{headers_are_read, units_are_read};
use al_unit::{AdaText, ReadUnit};
use std::alloc::Global;

/// Checks a unit whose source was parsed.
fn check_read<F: UnitFinder, A: Answers>(
    alloc: Global,
    finder: &F,
    unit: &UnitKey,
    text: &AdaText,
    read: &ReadUnit,
    recorder: &mut Recorder<A>,
) -> Result<Checked, NoMemory>
    requires tree { unit_in text.now ≡ Some (unit_model read.now.tree) }
    requires header { header_model read.now.header ≡ headers.header_of (unit_model read.now.tree) }
    requires log { recorder.old.log ≡ [] }
    ensures asked { recorder.new.asked ≡ recorder.old.asked }
    ensures checked { IfOk result (λ checked. IsChecked unit.now (header_in text.now) (text_meaning F.units F.names F.verdict unit.now text.now) recorder.new.log (checked_model checked)) }
    ensures others { OnOk result (AsksOthers unit.now recorder.new.log) }
    ensures names { OnOk result (AsksByNames unit.now (words_of text.now) recorder.new.log) }
{
    units_are_read();
    headers_are_read();
    let bytes = text.as_slice();
    check_within(
        alloc,
        finder,
        unit,
        bytes,
        &read.tree,
        &read.header,
        recorder,
    )
}

/// Checks a unit with this source.
pub(crate) fn check_text<F: UnitFinder, A: Answers>(
    alloc: Global,
    finder: &F,
    unit: &UnitKey,
    text: &AdaText,
    recorder: &mut Recorder<A>,
) -> Result<Checked, NoMemory>
    requires { recorder.old.log ≡ [] }
    ensures asked { recorder.new.asked ≡ recorder.old.asked }
    ensures checked { IfOk result (λ checked. IsChecked unit.now (header_in text.now) (text_meaning F.units F.names F.verdict unit.now text.now) recorder.new.log (checked_model checked)) }
    ensures others { OnOk result (AsksOthers unit.now recorder.new.log) }
    ensures names { OnOk result (AsksByNames unit.now (words_of text.now) recorder.new.log) }
{
    faults_are_reported();
    match text.unit() {
        Some(read) => check_read(alloc, finder, unit, text, read, recorder),
        None => not_checked(alloc, unit),
    }
}
