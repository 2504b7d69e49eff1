//! Laws of the equations that the outcomes of a library's units solve.
ghost use Rattle.std.specs.Prelude.{◌≡◌, ℕ, List, [], ◌∷◌, Option};
ghost use Rattle.al_base.specs.declared.unit_key.UnitKey.{UnitKey};
ghost use Rattle.al_query.specs.Known.{Grounded};
ghost use Rattle.al_query.specs.declared.query.Query.{Query};
ghost use Rattle.al_query.specs.declared.answer.AnswerKind.{AnswerKind};
ghost use Rattle.al_view_typed.specs.UnitTrees.{UnitTree};
ghost use Rattle.al_query_outcome.specs.Defines.{AllAccountedDefined, AllDefined, Completes, Has, KeepsSymbols};
ghost use Rattle.al_query_outcome.specs.Equations.{IsSetting, KeepsReads, Meaning, Setting, Solves, rounds, table};
ghost use Rattle.al_query_outcome.specs.Excluded.{asks_a_body, asks_an_acting_body, client};
ghost use Rattle.al_query_outcome.specs.ReadsLaw.{named_by};
ghost use Rattle.al_query_outcome.specs.Results.{Outcome};
ghost use Rattle.al_query_outcome.specs.declared.interface.UnitInterface.{UnitInterface};

/// If a checker keeps the reads law, exactly one map from units to outcomes solves the equations of a library whose dependences are
/// acyclic.
pub fn one_map()
    ensures solves { (meaning : Meaning) (s : Setting) (is : IsSetting s) → KeepsReads meaning s.header_of → Solves meaning s (rounds meaning s is.bound) }
    ensures only { (meaning : Meaning) (s : Setting) → IsSetting s → KeepsReads meaning s.header_of → (f g : UnitKey → Option Outcome) → Solves meaning s f → Solves meaning s g → (u : UnitKey) → f u ≡ g u }
{}

/// If the needed bodies and subunits are there, a needed unit defines whatever the code of a needed unit uses, and whatever a
/// needed unit accounts for.
pub fn all_defined()
    ensures used { (meaning : Meaning) (s : Setting) → IsSetting s → (keeps : KeepsReads meaning s.header_of) (main : List ℕ) (f : UnitKey → Option Outcome) → Solves meaning s f → ((u : UnitKey) (i : UnitInterface) (tree : UnitTree) → Has f u i tree → KeepsSymbols u (keeps u (table s f)).log i tree) → Completes s main f → AllDefined s main f }
    ensures accounted { (meaning : Meaning) (s : Setting) → IsSetting s → (keeps : KeepsReads meaning s.header_of) (main : List ℕ) (f : UnitKey → Option Outcome) → Solves meaning s f → ((u : UnitKey) (i : UnitInterface) (tree : UnitTree) → Has f u i tree → KeepsSymbols u (keeps u (table s f)).log i tree) → Completes s main f → AllAccountedDefined s main f }
{}

/// A procedure M with a with clause for P may not ask for P's body if P has a declaration, also if it asked what P is before. Else
/// P's body, with a with clause for M, and M could each be sound or not as the other isn't, and two maps would solve the equations.
/// If P has no declaration, its body may act as one, and may be asked.
pub fn asks_no_body_of_a_package()
    ensures refused { Grounded (named_by client) asks_a_body → ⊥ }
    ensures acting { Grounded (named_by client) asks_an_acting_body }
{}
