// The places of the entries of a unit.
ghost use Rattle.std.specs.Prelude.{◌≡◌, ◌||◌, true, OnOk, is_some, if◌then◌else◌};
ghost use Rattle.al_base.specs.declared.unit_key.UnitKey.{UnitKey};
ghost use Rattle.al_view.specs.Symbols.{same_unit};
ghost use Rattle.al_query_store.specs.Units.{at_unit};
ghost use Rattle.al_query_store.specs.Keyed.{cell_at, differ, empty, now_key, put};

use al_base::{NoMemory, UnitKey};
use al_view::copied_unit;
use std::alloc::Global;
use std::collections::BTreeMap;

/// The keys of a unit's entries, the settled one's and that of the one that was made since; whether the last build reached it, and whether it
/// is reached now; and whether it leaves the library.
#[derive(Clone, Copy)]
pub struct Cell {
    /// The key of the entry that the last build settled.
    pub settled: Option<usize>,
    /// The key of the entry that was made since.
    pub made: Option<usize>,
    /// Whether the last build reached the unit.
    pub was_reached: bool,
    /// Whether the unit is reached now.
    pub is_reached: bool,
    /// Whether the unit leaves the library.
    pub leaves: bool,
}

impl Cell {
    /// A cell without entries.
    fn empty() -> Cell
        ensures { result ≡ empty }
    {
        Cell {
            settled: None,
            made: None,
            was_reached: false,
            is_reached: false,
            leaves: false,
        }
    }
}

/// The key of the entry of now: of the one that was made, or else of the settled one, if the unit is reached.
pub(crate) fn now_key(cell: Cell) -> Option<usize>
    ensures { result ≡ now_key cell }
{
    if !cell.is_reached {
        return None;
    }
    match cell.made {
        Some(key) => Some(key),
        None => cell.settled,
    }
}

/// Whether the unit moved since the last build.
pub(crate) fn has_moved(cell: Cell) -> bool
    ensures { result ≡ (is_some cell.made || cell.leaves || differ cell.was_reached cell.is_reached) }
{
    if cell.made.is_some() || cell.leaves {
        return true;
    }
    cell.was_reached != cell.is_reached
}

/// The cell of a unit; an empty one if it has none.
pub(crate) fn cell_of(cells: &BTreeMap<UnitKey, Cell>, unit: &UnitKey) -> Cell
    ensures { result ≡ cell_at cells.now.entries unit.now }
{
    match cells.get(unit) {
        Some(cell) => *cell,
        None => Cell::empty(),
    }
}

/// Gives a unit an empty cell, if it has none.
pub(crate) fn add(
    alloc: Global,
    cells: &mut BTreeMap<UnitKey, Cell>,
    unit: &UnitKey,
) -> Result<(), NoMemory>
    ensures cells { (u : UnitKey) → cell_at cells.new.entries u ≡ cell_at cells.old.entries u }
    ensures there { OnOk result (is_some (at_unit cells.new.entries unit.now) ≡ true) }
{
    if cells.contains_key(unit) {
        return Ok(());
    }
    let unit = copied_unit(alloc, unit)?;
    let Ok(_) = cells.insert(unit, Cell::empty()) else {
        return Err(NoMemory);
    };
    Ok(())
}

/// Another cell for a unit that has one. It takes no memory.
pub(crate) fn change(cells: &mut BTreeMap<UnitKey, Cell>, unit: &UnitKey, to: Cell)
    ensures { (u : UnitKey) → cell_at cells.new.entries u ≡ (if same_unit unit.now u then put (at_unit cells.old.entries u) to else cell_at cells.old.entries u) }
{
    let Some(cell) = cells.get_mut(unit) else {
        return;
    };
    *cell = to;
}

/// Takes away the cell of a unit. It takes no memory.
pub(crate) fn take_away(cells: &mut BTreeMap<UnitKey, Cell>, unit: &UnitKey)
    ensures { (u : UnitKey) → cell_at cells.new.entries u ≡ (if same_unit unit.now u then empty else cell_at cells.old.entries u) }
{
    let _cell = cells.remove(unit);
}
