// Before a build takes the units of an order: which units aren't reached any more, and which leave.
ghost use Rattle.std.specs.Prelude.{◌≡◌, ◌&&◌, false, not, IfOk, OnOk, is_some};
ghost use Rattle.al_base.specs.declared.unit_key.UnitKey.{UnitKey};
ghost use Rattle.al_query_store.specs.Units.{at_unit};
ghost use Rattle.al_query.specs.Known.{has_unit};
ghost use Rattle.al_query_store.specs.Keyed.{state};
ghost use Rattle.al_engine_refresh.specs.Moves.{AreQuiet, IsLeft, has_moved};
ghost use Rattle.al_engine_refresh.specs.Staying.{is_there};
ghost use Rattle.al_engine_refresh.specs.Moving.{IsCompared, LeftOut, Turned, left_out};

use crate::KeptEntries;
use crate::moving::{leave, turn};
use al_base::{NoMemory, UnitKey};
use al_query::Answers;
use al_query_store::UnitMap;
use al_unit_graph::Sources;
use al_view::copied_unit;
use std::alloc::Global;

/// These units as a set.
fn set_of(alloc: Global, units: &[UnitKey]) -> Result<UnitMap<bool>, NoMemory>
    ensures { IfOk result (λ set. (u : UnitKey) → is_some (at_unit set u) ≡ has_unit units.now u) }
{
    let mut set = UnitMap::new(alloc);
    for unit in units {
        set.insert(copied_unit(alloc, unit)?, true)?;
    }
    Ok(set)
}

/// Whether a set has a unit.
fn has(set: &UnitMap<bool>, unit: &UnitKey) -> bool
    ensures { result ≡ is_some (at_unit set.now unit.now) }
{
    set.get(unit).is_some()
}

/// Whether a unit has a settled entry.
fn has_settled(entries: &KeptEntries, unit: &UnitKey) -> bool
    ensures { result ≡ is_some (state entries.now unit.now).settled }
{
    entries.settled(unit).is_some()
}

/// Whether a unit has a settled entry and isn't in the library.
fn is_gone(sources: &Sources, entries: &KeptEntries, unit: &UnitKey) -> bool
    ensures { result ≡ (is_some (state entries.now unit.now).settled && not (is_there sources.now unit.now)) }
{
    has_settled(entries, unit) && !sources.has_unit(unit)
}

/// Handles one unit that has an entry. If it isn't in the library, it leaves; else if it isn't in the order, it isn't reached any more.
fn leave_one<P: Answers>(
    alloc: Global,
    predefined: &P,
    sources: &Sources,
    order: &UnitMap<bool>,
    entries: &mut KeptEntries,
    unit: &UnitKey,
    compared: &mut usize,
) -> Result<(), NoMemory>
    requires { has_moved entries.old unit.now ≡ false }
    ensures turned { OnOk result (Turned (P.table predefined.now) (left_out (is_there sources.now unit.now) (is_some (at_unit order.now unit.now))) unit.now entries.old entries.new) }
    ensures compared { IsCompared entries.old compared.old → OnOk result (IsCompared entries.new compared.new) }
    ensures left { IsLeft entries.old entries.new }
{
    if is_gone(sources, entries, unit) {
        return leave(alloc, predefined, entries, unit, compared);
    }
    if has(order, unit) {
        return Ok(());
    }
    turn(alloc, predefined, entries, unit, false, compared)
}

/// Removes the units that aren't in the library, and notes that those that aren't in the order aren't reached any more. The stored answers to
/// questions of units that moved are compared.
///
/// # Errors
/// `NoMemory` if the allocator refuses memory.
pub fn leave_out<P: Answers>(
    alloc: Global,
    predefined: &P,
    sources: &Sources,
    order: &[UnitKey],
    entries: &mut KeptEntries,
    compared: &mut usize,
) -> Result<(), NoMemory>
    requires { AreQuiet entries.old }
    ensures out { OnOk result (LeftOut (P.table predefined.now) sources.now order.now entries.old entries.new) }
    ensures compared { IsCompared entries.old compared.old → OnOk result (IsCompared entries.new compared.new) }
    ensures left { IsLeft entries.old entries.new }
{
    let set = set_of(alloc, order)?;
    let units = entries.units()?;
    for unit in units.as_slice() {
        if entries.has_moved(unit) {
            continue;
        }
        leave_one(alloc, predefined, sources, &set, entries, unit, compared)?;
    }
    Ok(())
}
