// The contract of a checker of one unit.
ghost use Rattle.std.specs.Prelude.{◌≡◌, List, [], ◌∷◌, ⊤, IfOk, OnOk};
ghost use Rattle.al_query.specs.Known.{Grounded, known_after};
ghost use Rattle.al_query.specs.Reads.{Agrees, HoldsBy};
ghost use Rattle.al_query.specs.declared.answer.AnswerKind.{AnswerKind};
ghost use Rattle.al_query.specs.declared.query.Query.{Query};
ghost use Rattle.al_query_outcome.specs.Defines.{DefinesOwn, DefinesParts, ShowsOnly};
ghost use Rattle.al_query_outcome.specs.ReadsLaw.{AsksByNames, AsksOthers, FaultsFit, HasCode, NamesOnly, UsesOnly, named_by};
ghost use Rattle.al_base_shortage.specs.Counts.{one_more};
ghost use Rattle.al_query_outcome.specs.Results.{checked_model};
ghost use Rattle.al_query_outcome.specs.Words.{words_of};

use crate::Checked;
use crate::text::ReadText;
use al_base::{NoMemory, UnitKey};
use al_query::{Answers, Recorder};
use std::alloc::Global;

/// Checks one unit at a time, and asks a recorder for what it needs of others.
pub trait UnitCheck {
    ghost use Rattle.std.specs.Prelude.{ℕ, List};
    ghost use Rattle.al_base.specs.declared.unit_key.UnitKey.{UnitKey};
    ghost use Rattle.al_query.specs.declared.answer.AnswerKind.{AnswerKind};
    ghost use Rattle.al_query.specs.declared.query.Query.{Query};
    ghost use Rattle.al_query_outcome.specs.Results.{Outcome};

    /// What is read of a source for a check.
    type Text: ReadText;

    /// The outcome of a unit with a source under a table. No checker's state has a part in it.
    ghost meaning: { UnitKey → List ℕ → (Query → AnswerKind) → Outcome };

    /// How many checks were made.
    ghost count: { Self → ℕ };

    /// Checks a unit with its source, as it was read. What its contract says:
    /// - `asked`: who is asked stays the same.
    /// - `meaning`: under every table that agrees with the log the outcome is the same.
    /// - `others`, `grounded`: each question is of a predefined unit, or of another unit, which this one names (ARM 10.1.1(26)) or
    ///   an earlier answer does.
    /// - `words`: it is for a property, or by a word of the source, an operator's sign too, or by the name of a private type that
    ///   an answer before it gave; that for what a body must complete is of the unit's own declaration.
    /// - `names`: the result names no unit but these and its own.
    /// - `uses`, `defines`, `shows`, `code`: what the linker needs of its labelled tree and of what it answers.
    /// - `parts`: a body defines the code that its declaration leaves to it, save that of its stubs, a subunit that of its stub, a
    ///   procedure that may be the main one its own; only a declaration that needs a body leaves code to it.
    /// - `faults`: if something is wrong, it is reported for the unit's own file.
    /// - `counted`: one more check was made, also if the allocator refused memory.
    ///
    /// # Errors
    ///
    /// `NoMemory` if the allocator refuses memory. The check is counted then too.
    fn check<A: Answers>(
        &mut self,
        alloc: Global,
        unit: &UnitKey,
        text: &Self::Text,
        recorder: &mut Recorder<A>,
    ) -> Result<Checked, NoMemory>
        requires { recorder.old.log ≡ [] }
        ensures asked { recorder.new.asked ≡ recorder.old.asked }
        ensures meaning { IfOk result (λ checked. (t : Query → AnswerKind) → Agrees t recorder.new.log → checked_model checked ≡ meaning unit.now (Self.Text.text text.now) t) }
        ensures others { OnOk result (AsksOthers unit.now recorder.new.log) }
        ensures grounded { OnOk result (Grounded (named_by (Self.Text.header (Self.Text.text text.now))) recorder.new.log) }
        ensures words { OnOk result (AsksByNames unit.now (words_of (Self.Text.text text.now)) recorder.new.log) }
        ensures names { IfOk result (λ checked. NamesOnly (unit.now ∷ known_after (named_by (Self.Text.header (Self.Text.text text.now))) recorder.new.log) (checked_model checked)) }
        ensures uses { IfOk result (λ checked. UsesOnly unit.now recorder.new.log (checked_model checked)) }
        ensures defines { IfOk result (λ checked. DefinesOwn unit.now (checked_model checked)) }
        ensures shows { IfOk result (λ checked. ShowsOnly unit.now recorder.new.log (checked_model checked)) }
        ensures parts { IfOk result (λ checked. HoldsBy recorder.new.log (λ t. DefinesParts unit.now (Self.Text.header (Self.Text.text text.now)) t (checked_model checked))) }
        ensures code { IfOk result (λ checked. HasCode unit.now (checked_model checked)) }
        ensures faults { IfOk result (λ checked. FaultsFit unit.now (checked_model checked)) }
        ensures counted { count self.new ≡ one_more (count self.old) };

    /// How many checks were made, to 2^64-1.
    fn checks(&self) -> u64
        ensures { result ≡ count self.now };
}
