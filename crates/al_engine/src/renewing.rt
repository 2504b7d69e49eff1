// A build in which only some units were edited.
ghost use Rattle.std.specs.Prelude.{◌≡◌, ◌⊎◌, ◌∷◌, ◌++◌, [], false, IfOk, IfSome, IsTrue, MatchOption, OnOk, length};
ghost use Rattle.al_base_shortage.specs.Counts.{one_more};
ghost use Rattle.al_query_outcome.specs.Equations.{is_sound};
ghost use Rattle.al_query_store.specs.Changes.{AreMarkedAsBefore, with_made};
ghost use Rattle.al_query_store.specs.Keyed.{now_at, settled_at};
ghost use Rattle.al_engine_refresh.specs.EntryLaw.{AllKeepLaw, IsCurrent, KeepsLaw};
ghost use Rattle.al_engine_refresh.specs.Stored.{Stored, log_of};
ghost use Rattle.al_engine_refresh.specs.Moves.{IsLeft, has_moved};
ghost use Rattle.al_engine_refresh.specs.Builds.{raised, results_of, text_of};
ghost use Rattle.al_engine_refresh.specs.Moving.{IsCompared, Turned, now_table};
ghost use Rattle.al_engine.specs.RecheckEdits.{AreEdits, IsRenewal, units_of};
ghost use Rattle.al_engine.specs.Rechecks.{AreReady, HasOrder, IsUpdated};

use crate::edited::EditedUnit;
use crate::rechecking::{Rechecked, recheck};
use crate::sorted::in_key_order;
use crate::walking::walk_in_order;
use al_base::{NoMemory, UnitKey};
use al_engine_refresh::{Done, KeptEntries, begun, check_anew, has_sound, text_of};
use al_query::Answers;
use al_query_outcome::UnitCheck;
use al_unit_graph::Sources;
use std::alloc::Global;

/// Whether a unit's file has this source, or no source.
pub(crate) fn has_text(sources: &Sources, unit: &UnitKey, text: &[u8]) -> bool
    ensures { text.now ≡ text_of sources.now unit.now → IsTrue result }
{
    let Some(file) = sources.file_of_unit(unit) else {
        return true;
    };
    match sources.source_at(file.as_slice()) {
        Some(source) => source.text.as_slice() == text,
        None => true,
    }
}

/// Whether the new entry of an edited unit leaves all others as they are: no stored answer differs from those of now that didn't before, and no unit
/// depends on it directly, or it is as sound as before.
fn is_unread(entries: &KeptEntries, edited: &EditedUnit, was_sound: bool) -> bool
    ensures { IsTrue result → ((edited.now.is_base ≡ false) ⊎ (is_sound (results_of (now_at entries.now) edited.now.unit) ≡ was_sound)) × AreMarkedAsBefore entries.now }
{
    if !entries.is_untouched() {
        return false;
    }
    if !edited.is_base {
        return true;
    }
    has_sound(entries, &edited.unit) == was_sound
}

/// Checks an edited unit under the present answers. Gives whether that leaves all others as they are.
///
/// # Errors
///
/// `NoMemory` if the allocator refuses memory.
pub(crate) fn check_edited<C: UnitCheck, P: Answers>(
    alloc: Global,
    checker: &mut C,
    predefined: &P,
    sources: &Sources,
    edited: &EditedUnit,
    entries: &mut KeptEntries,
    done: &mut Done,
) -> Result<bool, NoMemory>
    requires { has_moved entries.old edited.now.unit ≡ false }
    ensures made { OnOk result ((e : Stored) × KeepsLaw C.meaning C.Text.header edited.now.unit e × IsCurrent e (text_of sources.now edited.now.unit) (now_table (P.table predefined.now) entries.old) × Turned (P.table predefined.now) (with_made log_of e) edited.now.unit entries.old entries.new) }
    ensures unread { IfOk result (λ unread. IsTrue unread → ((edited.now.is_base ≡ false) ⊎ (is_sound (results_of (now_at entries.new) edited.now.unit) ≡ is_sound (results_of (now_at entries.old) edited.now.unit))) × AreMarkedAsBefore entries.new) }
    ensures checked { OnOk result (done.new.checked ≡ done.old.checked ++ edited.now.unit ∷ []) }
    ensures counted { OnOk result (C.count checker.new ≡ one_more (C.count checker.old)) }
    ensures compared { IsCompared entries.old done.old.compared → OnOk result (IsCompared entries.new done.new.compared) }
    ensures left { IsLeft entries.old entries.new }
{
    let unit = &edited.unit;
    let was_sound = has_sound(entries, unit);
    let text = text_of(alloc, sources, unit)?;
    check_anew(alloc, checker, predefined, unit, text, entries, done)?;
    Ok(is_unread(entries, edited, was_sound))
}

/// Brings the units of a library up to date if only these were edited. Each is checked under the present answers, in the order. As long as that
/// leaves all others as they are, no other unit is looked at. After the first edited unit that doesn't, all later units of the order are. The entries
/// of the last build are unchanged.
fn renew<C: UnitCheck, P: Answers>(
    alloc: Global,
    checker: &mut C,
    predefined: &P,
    sources: &Sources,
    order: &[UnitKey],
    edits: &[EditedUnit],
    entries: &mut KeptEntries,
) -> Result<Rechecked, NoMemory>
    requires ready { AreReady (P.table predefined.now) entries.old }
    requires order { HasOrder C.Text.header (P.table predefined.now) sources.now order.now }
    requires edits { AreEdits C.meaning C.Text.header (P.table predefined.now) sources.now entries.old edits.now }
    ensures updated { IfOk result (λ r. IsUpdated C.meaning C.Text.header (P.table predefined.now) sources.now entries.old entries.new r.checked.items r.compared) }
    ensures renewed { IfOk result (λ r. IsTrue r.is_renewal → IsRenewal (settled_at entries.old) (units_of edits.now) (now_at entries.new)) }
    ensures counted { IfOk result (λ r. C.count checker.new ≡ raised (C.count checker.old) (length r.checked.items)) }
    ensures left { IsLeft entries.old entries.new }
{
    let _before = checker.checks();
    let mut done = begun(alloc);
    let is_renewal = walk_in_order(
        alloc, checker, predefined, sources, order, edits, entries, &mut done,
    )?;
    let (checked, compared) = done.into_parts();
    let checked = in_key_order(alloc, checked.as_slice())?;
    Ok(Rechecked {
        checked,
        compared,
        is_renewal,
    })
}

/// Brings the units of a library up to date, in an order of dependence. If `edited` has units, only these were edited. The entries of the last build
/// are unchanged.
///
/// # Errors
///
/// `NoMemory` if the allocator refuses memory.
pub(crate) fn update<C: UnitCheck, P: Answers>(
    alloc: Global,
    checker: &mut C,
    predefined: &P,
    sources: &Sources,
    order: &[UnitKey],
    edited: &Option<Vec<EditedUnit>>,
    entries: &mut KeptEntries,
) -> Result<Rechecked, NoMemory>
    requires law { AllKeepLaw C.meaning C.Text.header (settled_at entries.old) }
    requires ready { AreReady (P.table predefined.now) entries.old }
    requires order { HasOrder C.Text.header (P.table predefined.now) sources.now order.now }
    requires edited { IfSome edited.now (λ edits. AreEdits C.meaning C.Text.header (P.table predefined.now) sources.now entries.old edits.items) }
    ensures updated { IfOk result (λ r. IsUpdated C.meaning C.Text.header (P.table predefined.now) sources.now entries.old entries.new r.checked.items r.compared) }
    ensures renewed { IfOk result (λ r. IsTrue r.is_renewal → MatchOption edited.now ⊥ (λ edits. IsRenewal (settled_at entries.old) (units_of edits.items) (now_at entries.new))) }
    ensures counted { IfOk result (λ r. C.count checker.new ≡ raised (C.count checker.old) (length r.checked.items)) }
    ensures left { IsLeft entries.old entries.new }
{
    match edited {
        Some(edits) => renew(
            alloc,
            checker,
            predefined,
            sources,
            order,
            edits.as_slice(),
            entries,
        ),
        None => recheck(alloc, checker, predefined, sources, order, entries),
    }
}
