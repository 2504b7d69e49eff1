// The interface of a finder, which gives the verdict over a unit.
ghost use Rattle.std.specs.Prelude.{◌≡◌, ◌≤◌, IfOk, OnOk, length};
ghost use Rattle.al_tree.specs.UnitViews.{unit_model};
ghost use Rattle.al_unit_graph.specs.Views.{header_model};
ghost use Rattle.al_query.specs.Asked.{AsksOf, by_property};
ghost use Rattle.al_query.specs.Known.{AreKnown, known_after};
ghost use Rattle.al_query.specs.Reads.{Agrees, HoldsBy, FromAnswers};
ghost use Rattle.al_query.specs.AnsweredNames.{AreTold};
ghost use Rattle.al_query_outcome.specs.ReadsLaw.{AsksOthers, named_by};
ghost use Rattle.al_unit_header.specs.Units as headers;
ghost use Rattle.al_check_bounded.specs.Verdicts.{IsTold, NamesWithin, verdict_of};

use crate::finding::UnitResult;
use al_base::{Name, NoMemory, UnitKey};
use al_query::{Answers, Recorder};
use al_tree::CompilationUnit;
use al_unit_graph::Header;
use std::alloc::Global;

/// A finder: it gives the verdict over a unit, by what it asks of other units.
pub trait UnitFinder {
    ghost use Rattle.std.specs.Prelude.{List, ℕ};
    ghost use Rattle.al_base.specs.declared.unit_key.UnitKey.{UnitKey};
    ghost use Rattle.al_tree_syntax.specs.UnitTrees.{CompilationUnitTree};
    ghost use Rattle.al_unit_graph.specs.Headers as plain;
    ghost use Rattle.al_query.specs.declared.answer.AnswerKind.{AnswerKind};
    ghost use Rattle.al_query.specs.declared.query.Query.{Query};
    ghost use Rattle.al_check_bounded.specs.Verdicts.{Verdict};

    /// The units that may be asked for a unit with this header, under a table of answers.
    ghost units: { UnitKey → plain.Header → (Query → AnswerKind) → List UnitKey };

    /// The names from answers that may be asked for, beside the words of the unit's source, under a table of answers.
    ghost names: { UnitKey → plain.Header → (Query → AnswerKind) → List (List ℕ) };

    /// The verdict over a unit with this source, parsed to this tree, under a table of answers.
    ghost verdict: { UnitKey → List ℕ → CompilationUnitTree → (Query → AnswerKind) → Verdict };

    /// The units that may be asked. This is called before the others.
    /// - `asked`: the source of answers stays the same.
    /// - `answered`: under every table that agrees with the log these are the units.
    /// - `asks`, `others`: each question is of another unit, which the unit's source names (ARM 10.1.1(26)) or an earlier answer does.
    /// - `known`: each of these units is named by the unit's source or by a recorded answer.
    ///
    /// # Errors
    /// `NoMemory` if the allocator refuses memory.
    fn units_known<A: Answers>(
        &self,
        alloc: Global,
        unit: &UnitKey,
        header: &Header,
        recorder: &mut Recorder<A>,
    ) -> Result<Vec<UnitKey>, NoMemory>
        ensures asked { recorder.new.asked ≡ recorder.old.asked }
        ensures answered { IfOk result (λ known. FromAnswers recorder.old.log recorder.new.log (λ t. known.items ≡ units unit.now (header_model header.now) t)) }
        ensures asks { OnOk result (AsksOf (named_by (header_model header.now)) by_property recorder.old.log recorder.new.log) }
        ensures others { OnOk result (AsksOthers unit.now recorder.old.log → AsksOthers unit.now recorder.new.log) }
        ensures known { IfOk result (λ known. AreKnown (known_after (named_by (header_model header.now)) recorder.new.log) known.items) };

    /// The names that may be asked for, beside the words of the source.
    /// - `asked`, `asks`, `others`: as for `units_known`.
    /// - `answered`: under every table that agrees with the log these are the names, and each is in a recorded answer.
    ///
    /// # Errors
    /// `NoMemory` if the allocator refuses memory.
    fn names_known<A: Answers>(
        &self,
        alloc: Global,
        unit: &UnitKey,
        header: &Header,
        recorder: &mut Recorder<A>,
    ) -> Result<Vec<Name>, NoMemory>
        ensures asked { recorder.new.asked ≡ recorder.old.asked }
        ensures answered { IfOk result (λ known. FromAnswers recorder.old.log recorder.new.log (λ t. known.items ≡ names unit.now (header_model header.now) t)) }
        ensures asks { OnOk result (AsksOf (named_by (header_model header.now)) by_property recorder.old.log recorder.new.log) }
        ensures others { OnOk result (AsksOthers unit.now recorder.old.log → AsksOthers unit.now recorder.new.log) }
        ensures names_answered { IfOk result (λ known. AreTold recorder.new.log known.items) };

    /// The verdict over a unit with this source, parsed to this tree, with what was asked for it.
    /// - `agrees`: the recorded answers are those of the source of answers.
    /// - `answered`: under every table that agrees with the log the verdict is the same.
    /// - `names`: its parent and the units of its with clauses are named by its source.
    /// - `faults`: a faulty unit has at least one error, and each is in the unit's own file and has a number of the check.
    ///
    /// # Errors
    /// `NoMemory` if the allocator refuses memory.
    fn find<A: Answers + Drop>(
        &self,
        alloc: Global,
        unit: &UnitKey,
        text: &[u8],
        tree: &CompilationUnit,
        recorder: Recorder<A>,
    ) -> Result<UnitResult, NoMemory>
        requires { length text.now ≤ 4294967294 }
        ensures agrees { IfOk result (λ found. Agrees (A.table recorder.asked) found.log) }
        ensures answered { IfOk result (λ found. HoldsBy found.log (λ t. verdict_of found.finding ≡ verdict unit.now text.now (unit_model tree.now) t)) }
        ensures names { IfOk result (λ found. NamesWithin (named_by (headers.header_of (unit_model tree.now))) (verdict_of found.finding)) }
        ensures faults { IfOk result (λ found. IsTold unit.now (verdict_of found.finding)) };
}
