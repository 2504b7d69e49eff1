//! Laws of what needed units define, as contracts of functions without code.
ghost use Rattle.std.specs.Prelude.{ℕ, List, Option};
ghost use Rattle.al_base.specs.declared.unit_key.UnitKey.{UnitKey};
ghost use Rattle.al_view_typed.specs.UnitTrees.{UnitTree};
ghost use Rattle.al_query_outcome.specs.Defines.{Completes, Has, IsClosed, KeepsSymbols};
ghost use Rattle.al_query_outcome.specs.Equations.{IsSetting, KeepsReads, Meaning, Setting, Solves, table};
ghost use Rattle.al_query_outcome.specs.Results.{Outcome};
ghost use Rattle.al_query_outcome.specs.declared.interface.UnitInterface.{UnitInterface};
ghost use Rattle.al_bind.specs.Faults.{IsComplete};
ghost use Rattle.al_engine.specs.Completing.{AreAllSound, KeepParts, ShowNoCode};

use al_query_outcome::laws::all_defined;

/// If a partition lacks no body and no subunit, and no unit has an error, the needed bodies and subunits complete all that is left to them.
pub fn completes()
    ensures { (meaning : Meaning) (s : Setting) → IsSetting s → (main : List ℕ) (f : UnitKey → Option Outcome) → Solves meaning s f → AreAllSound s f → KeepParts s f → ShowNoCode s → IsComplete s.files main → Completes s main f }
{}

/// The linker's condition holds: a needed unit defines the code of the main subprogram, and needed units define all that the code of needed units
/// uses.
pub fn all_is_defined()
    ensures { (meaning : Meaning) (s : Setting) → IsSetting s → (keeps : KeepsReads meaning s.header_of) (main : List ℕ) (f : UnitKey → Option Outcome) → Solves meaning s f → ((u : UnitKey) (i : UnitInterface) (tree : UnitTree) → Has f u i tree → KeepsSymbols u (keeps u (table s f)).log i tree) → AreAllSound s f → KeepParts s f → ShowNoCode s → IsComplete s.files main → IsClosed s main f }
{
    all_defined();
    completes();
}
