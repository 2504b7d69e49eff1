//! Laws of settings, as contracts of functions without code.
ghost use Rattle.std.specs.Prelude.{ℕ, List, map};
ghost use Rattle.al_base.specs.Batch.{key_of};
ghost use Rattle.al_base.specs.declared.unit_key.UnitKey.{UnitKey};
ghost use Rattle.al_query.specs.declared.answer.AnswerKind.{AnswerKind};
ghost use Rattle.al_query.specs.declared.query.Query.{Query};
ghost use Rattle.al_unit_graph.specs.Headers.{Header, Library};
ghost use Rattle.al_query_outcome.specs.Equations.{IsSetting};
ghost use Rattle.al_unit_faults.specs.Reached.{IsDependenceOrder};
ghost use Rattle.al_unit_faults.specs.Read.{AreHeaded, NameParentBodies};
ghost use Rattle.al_engine_refresh.specs.Settings.{ArePredefined, library_setting};

/// A library whose files have the headers that are parsed from them is a setting for checks, by any order of dependence of its units that break no
/// rule of the graph. Ranks are places in the order. The declaration and the parent body of a name follow from the rules that the units keep.
pub fn order_is_setting()
    ensures { (header : List ℕ → Header) (lib : Library) (predefined : Query → AnswerKind) (order : List UnitKey) → AreHeaded header lib → NameParentBodies lib → ArePredefined predefined → IsDependenceOrder lib (map key_of order) → IsSetting (library_setting header lib predefined) }
{}
