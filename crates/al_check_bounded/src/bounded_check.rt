// The checker.
ghost use Rattle.std.specs.Prelude.{◌≡◌, [], IfOk, OnOk};
ghost use Rattle.al_query_outcome.specs.ReadsLaw.{AsksByNames, AsksOthers};
ghost use Rattle.al_base_shortage.specs.Counts.{one_more};
ghost use Rattle.al_query_outcome.specs.Results.{checked_model};
ghost use Rattle.al_check_bounded.specs.Within.{IsChecked};
ghost use Rattle.al_query_outcome.specs.Words.{words_of};
ghost use Rattle.al_unit.specs.Texts.{header_in};
ghost use Rattle.al_check_bounded.specs.Meanings.{text_meaning};

use crate::UnitFinder;
use crate::texts::check_text;
use al_base::{NoMemory, UnitKey};
use al_base_shortage::one_more;
use al_query::{Answers, Recorder};
use al_query_outcome::{Checked, UnitCheck};
use al_unit::AdaText;
use std::alloc::Global;

/// A checker of units: its finder gives verdicts, and the checks are counted.
pub struct BoundedCheck<F: UnitFinder> {
    finder: F,
    checks: u64,
}

impl<F: UnitFinder + Drop> Drop for BoundedCheck<F> {
    fn drop(self) {
        let BoundedCheck {
            finder: _,
            checks: _,
        } = self;
    }
}

impl<F: UnitFinder> BoundedCheck<F> {
    /// A checker that has made no check.
    pub fn new(finder: F) -> BoundedCheck<F>
        ensures finder { result.finder ≡ finder }
        ensures checks { result.checks ≡ 0 }
    {
        BoundedCheck { finder, checks: 0 }
    }

    /// Checks a unit, from its source as it was parsed. This holds beside what every checker promises, whatever the finder asks:
    /// - `names`: each question is for a name that is a word of the source (an operator's symbol too) or comes from an earlier answer, or is for a
    ///   property of a unit. The question what a body must complete goes to the unit's own declaration.
    ///
    /// # Errors
    /// `NoMemory` if the allocator refuses memory.
    pub fn check_unit<A: Answers>(
        &mut self,
        alloc: Global,
        unit: &UnitKey,
        text: &AdaText,
        recorder: &mut Recorder<A>,
    ) -> Result<Checked, NoMemory>
        requires { recorder.old.log ≡ [] }
        ensures asked { recorder.new.asked ≡ recorder.old.asked }
        ensures checked { IfOk result (λ checked. IsChecked unit.now (header_in text.now) (text_meaning F.units F.names F.verdict unit.now text.now) recorder.new.log (checked_model checked)) }
        ensures others { OnOk result (AsksOthers unit.now recorder.new.log) }
        ensures names { OnOk result (AsksByNames unit.now (words_of text.now) recorder.new.log) }
        ensures counted { self.new.checks ≡ one_more self.old.checks }
    {
        self.checks = one_more(self.checks);
        check_text(alloc, &self.finder, unit, text, recorder)
    }
}

impl<F: UnitFinder> UnitCheck for BoundedCheck<F> {
    ghost use Rattle.al_check_bounded.specs.Meanings.{text_meaning};

    type Text = AdaText;

    ghost meaning = { text_meaning F.units F.names F.verdict };

    ghost count = { λ c. c.checks };

    fn check<A: Answers>(
        &mut self,
        alloc: Global,
        unit: &UnitKey,
        text: &AdaText,
        recorder: &mut Recorder<A>,
    ) -> Result<Checked, NoMemory> {
        self.check_unit(alloc, unit, text, recorder)
    }

    fn checks(&self) -> u64 {
        self.checks
    }
}
