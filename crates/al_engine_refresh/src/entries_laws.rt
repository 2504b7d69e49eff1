//! Laws of entries.
ghost use Rattle.std.specs.Prelude.{◌≡◌, ℕ, List};
ghost use Rattle.al_base.specs.declared.unit_key.UnitKey.{UnitKey};
ghost use Rattle.al_query.specs.declared.query.Query.{Query};
ghost use Rattle.al_query.specs.declared.answer.AnswerKind.{AnswerKind};
ghost use Rattle.al_unit_graph.specs.Headers.{Header};
ghost use Rattle.al_engine_refresh.specs.EntryLaw.{IsCurrent, KeepsLaw, TextMeaning};
ghost use Rattle.al_engine_refresh.specs.Stored.{Stored, outcome_of};

/// An entry that keeps the law, is for the unit's current source, and whose answers are as they are now, has the outcome that a check of the unit
/// now would give.
pub fn current_is_as_checked()
    ensures { (meaning : TextMeaning) (header : List ℕ → Header) (u : UnitKey) (e : Stored) → KeepsLaw meaning header u e → (text : List ℕ) (t : Query → AnswerKind) → IsCurrent e text t → outcome_of e ≡ meaning u text t }
{}
