// The check of a library's units, over their entries.
ghost use Rattle.std.specs.Prelude.{◌≡◌, IfOk, IfSome, IsTrue, MatchOption, OnOk, length};
ghost use Rattle.al_unit_faults.specs.Read.{AreHeaded, NameParentBodies};
ghost use Rattle.al_query_store.specs.Keyed.{now_at, settled_at};
ghost use Rattle.al_engine_refresh.specs.EntryLaw.{AllKeepLaw};
ghost use Rattle.al_engine.specs.Kept.{IsGraphOf};
ghost use Rattle.al_engine_refresh.specs.Moves.{IsLeft};
ghost use Rattle.al_engine_refresh.specs.Settings.{ArePredefined};
ghost use Rattle.al_engine_refresh.specs.Builds.{raised};
ghost use Rattle.al_engine.specs.Rechecks.{AreReady, IsUpdated, will_be};
ghost use Rattle.al_engine.specs.RecheckEdits.{AreEdits, IsRenewal, units_of};

use crate::{EditedUnit, Rechecked, UnitCache, UnitGraph};
use al_base::NoMemory;
use al_engine_refresh::order_laws::order_is_for_builds;
use al_query::Answers;
use al_query_outcome::UnitCheck;
use al_unit_graph::Sources;

/// Checks the units of a library over their entries: each unit that is reached and has no entry for its source, or has one with an answer that
/// differs now. `graph` is the library's graph. If `edited` has units, only these were edited; then the units are checked after the first of them
/// that gives somebody another answer, and no other unit is looked at. The entries of the last build are unchanged.
/// - `updated`: which units were checked, and the entries of those that are reached. Their outcomes are the only map that solves the library's
///   equations, whatever the entries were before. It also says which entries there will be, and how many stored answers were compared.
/// - `renewed`: if the result is a renewal, all units but the edited ones have the same entries as before.
/// - `counted`: how many checks were made.
///
/// # Errors
///
/// `NoMemory` if the allocator refuses memory. The count of checks may have risen, and entries may have been made, which `cancel` drops.
pub fn check_library<C: UnitCheck, P: Answers>(
    cache: &mut UnitCache<C>,
    predefined: &P,
    sources: &Sources,
    graph: &UnitGraph,
    edited: &Option<Vec<EditedUnit>>,
) -> Result<Rechecked, NoMemory>
    requires headed { AreHeaded C.Text.header sources.now }
    requires bodies { NameParentBodies sources.now }
    requires predefined { ArePredefined (P.table predefined.now) }
    requires graph { IsGraphOf sources.now graph.now }
    requires ready { AreReady (P.table predefined.now) cache.old.store }
    requires edited { IfSome edited.now (λ edits. AreEdits C.meaning C.Text.header (P.table predefined.now) sources.now cache.old.store edits.items) }
    ensures updated { IfOk result (λ r. IsUpdated C.meaning C.Text.header (P.table predefined.now) sources.now cache.old.store cache.new.store r.checked.items r.compared) }
    ensures renewed { IfOk result (λ r. IsTrue r.is_renewal → MatchOption edited.now ⊥ (λ edits. IsRenewal (settled_at cache.old.store) (units_of edits.items) (now_at cache.new.store))) }
    ensures law { OnOk result (AllKeepLaw C.meaning C.Text.header (will_be cache.new.store)) }
    ensures counted { IfOk result (λ r. C.count cache.new.checker ≡ raised (C.count cache.old.checker) (length r.checked.items)) }
    ensures left { IsLeft cache.old.store cache.new.store }
{
    order_is_for_builds();
    cache.recheck(predefined, sources, graph.order.as_slice(), edited)
}
