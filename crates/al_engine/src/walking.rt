// The edited units of a library, in an order of dependence.
ghost use Rattle.std.specs.Prelude.{◌≡◌, ◌<◌, ◌++◌, ◌∷◌, ℕ, [], true, IfOk, IfSome, IsTrue, List, OnOk, length, position};
ghost use Rattle.std.specs.List.{find};
ghost use Rattle.std.specs.Option.{option_copied};
ghost use Rattle.al_base.specs.declared.unit_key.UnitKey.{UnitKey};
ghost use Rattle.al_view.specs.Symbols.{same_unit};
ghost use Rattle.al_query.specs.Known.{has_unit};
ghost use Rattle.al_query_store.specs.Keyed.{now_at, settled_at};
ghost use Rattle.al_engine_refresh.specs.Moves.{IsLeft};
ghost use Rattle.al_engine_refresh.specs.Builds.{IsBuilt, raised};
ghost use Rattle.al_engine_refresh.specs.Moving.{IsCompared, IsSteady, MarksFollow};
ghost use Rattle.al_engine.specs.RecheckEdits.{AreEdits, IsRenewal, units_of};
ghost use Rattle.al_engine.specs.Rechecks.{AreReady, HasOrder, setting_of};
ghost use Rattle.al_engine.specs.Walks.{AreInOrder};

use crate::edited::EditedUnit;
use crate::renewing::check_edited;
use al_base::{NoMemory, UnitKey};
use al_engine_refresh::{Done, KeptEntries, refresh_rest};
use al_query::Answers;
use al_query_outcome::UnitCheck;
use al_unit_graph::Sources;
use al_view::is_unit;
use std::alloc::Global;

/// The place of a unit in an order.
fn place_of(order: &[UnitKey], unit: &UnitKey) -> Option<usize>
    ensures value { result ≡ position (same_unit unit.now) order.now }
    ensures within { IfSome result (λ place. place < length order.now) }
{
    order.iter().position(|other| is_unit(unit, other))
}

/// The units of an order that come after this one, which is in it.
fn units_after<'a>(order: &'a [UnitKey], unit: &UnitKey) -> &'a [UnitKey]
    ensures { has_unit order.now unit.now ≡ true → (before : List UnitKey) × (order.now ≡ before ++ unit.now ∷ result.now) }
{
    match place_of(order, unit) {
        Some(place) => &order[place + 1..],
        None => order,
    }
}

/// The edit of a unit, if there is one.
fn edit_of<'a>(edits: &'a [EditedUnit], unit: &UnitKey) -> Option<&'a EditedUnit>
    ensures { option_copied result ≡ find (λ e. same_unit unit.now e.unit) edits.now }
{
    edits.iter().find(|edited| is_unit(unit, &edited.unit))
}

/// The edited units, each once, as they come in an order.
fn in_order(
    alloc: Global,
    order: &[UnitKey],
    edits: &[EditedUnit],
) -> Result<Vec<EditedUnit>, NoMemory>
    ensures { IfOk result (λ row. AreInOrder order.now edits.now row.items) }
{
    let mut row = Vec::new(alloc);
    for unit in order {
        if let Some(edited) = edit_of(edits, unit) {
            row.push(edited.copied(alloc)?)?;
        }
    }
    Ok(row)
}

/// Checks the edited units, which are in the given order, under the present answers. After the first that doesn't leave all others as they are, all
/// later units are brought up to date. Gives whether all leave all others as they are.
fn walk<C: UnitCheck, P: Answers>(
    alloc: Global,
    checker: &mut C,
    predefined: &P,
    sources: &Sources,
    order: &[UnitKey],
    edits: &[EditedUnit],
    row: &[EditedUnit],
    entries: &mut KeptEntries,
    done: &mut Done,
) -> Result<bool, NoMemory>
    requires ready { AreReady (P.table predefined.now) entries.old }
    requires order { HasOrder C.Text.header (P.table predefined.now) sources.now order.now }
    requires edits { AreEdits C.meaning C.Text.header (P.table predefined.now) sources.now entries.old edits.now }
    requires row { AreInOrder order.now edits.now row.now }
    requires begun { done.old.checked ≡ [] }
    ensures built { OnOk result (IsBuilt C.meaning C.Text.header (setting_of C.Text.header (P.table predefined.now) sources.now) (settled_at entries.old) (now_at entries.new) order.now done.new.checked) }
    ensures renewed { IfOk result (λ all. IsTrue all → IsRenewal (settled_at entries.old) (units_of edits.now) (now_at entries.new)) }
    ensures counted { (n : ℕ) → C.count checker.old ≡ raised n (length done.old.checked) → OnOk result (C.count checker.new ≡ raised n (length done.new.checked)) }
    ensures marks { OnOk result (MarksFollow (P.table predefined.now) entries.new) }
    ensures compared { IsCompared entries.old done.old.compared → OnOk result (IsCompared entries.new done.new.compared) }
    ensures steady { OnOk result (IsSteady sources.now done.new.checked entries.new) }
    ensures left { IsLeft entries.old entries.new }
{
    let _edits = edits;
    for edited in row {
        let is_unread = check_edited(alloc, checker, predefined, sources, edited, entries, done)?;
        if !is_unread {
            let rest = units_after(order, &edited.unit);
            refresh_rest(alloc, checker, predefined, sources, rest, entries, done)?;
            return Ok(false);
        }
    }
    Ok(true)
}

/// Checks the edited units, as [`walk`] does, whatever order they are given in.
///
/// # Errors
///
/// `NoMemory` if the allocator refuses memory.
pub(crate) fn walk_in_order<C: UnitCheck, P: Answers>(
    alloc: Global,
    checker: &mut C,
    predefined: &P,
    sources: &Sources,
    order: &[UnitKey],
    edits: &[EditedUnit],
    entries: &mut KeptEntries,
    done: &mut Done,
) -> Result<bool, NoMemory>
    requires ready { AreReady (P.table predefined.now) entries.old }
    requires order { HasOrder C.Text.header (P.table predefined.now) sources.now order.now }
    requires edits { AreEdits C.meaning C.Text.header (P.table predefined.now) sources.now entries.old edits.now }
    requires begun { done.old.checked ≡ [] }
    ensures built { OnOk result (IsBuilt C.meaning C.Text.header (setting_of C.Text.header (P.table predefined.now) sources.now) (settled_at entries.old) (now_at entries.new) order.now done.new.checked) }
    ensures renewed { IfOk result (λ all. IsTrue all → IsRenewal (settled_at entries.old) (units_of edits.now) (now_at entries.new)) }
    ensures counted { (n : ℕ) → C.count checker.old ≡ raised n (length done.old.checked) → OnOk result (C.count checker.new ≡ raised n (length done.new.checked)) }
    ensures marks { OnOk result (MarksFollow (P.table predefined.now) entries.new) }
    ensures compared { IsCompared entries.old done.old.compared → OnOk result (IsCompared entries.new done.new.compared) }
    ensures steady { OnOk result (IsSteady sources.now done.new.checked entries.new) }
    ensures left { IsLeft entries.old entries.new }
{
    if edits.len() < 2 {
        return walk(
            alloc, checker, predefined, sources, order, edits, edits, entries, done,
        );
    }
    let row = in_order(alloc, order, edits)?;
    walk(
        alloc,
        checker,
        predefined,
        sources,
        order,
        edits,
        row.as_slice(),
        entries,
        done,
    )
}
