// Entries by unit.
ghost use Rattle.std.specs.Prelude.{◌≡◌, [], true, IfOk, IsTrue, OnOk, OnErr, None, is_some};
ghost use Rattle.std.specs.Map.{keys_of};
ghost use Rattle.std.specs.Option.{option_copied};
ghost use Rattle.al_base.specs.declared.unit_key.UnitKey.{UnitKey};
ghost use Rattle.al_view.specs.Symbols.{same_unit};
ghost use Rattle.al_query_store.specs.Units.{at_unit};
ghost use Rattle.al_query_store.specs.Changes.{AreMarkedAsBefore, ComparesUnit, HasAnswers, with_made};
ghost use Rattle.al_query_store.specs.Keyed.{Changes, SameStates, base_state, entry_of, is_moved, leaving, now_at, state, under, with_reached};

use crate::cell::{Cell, add, cell_of, change, has_moved, now_key};
use crate::{Held, Logged, Slots};
use al_base::{NoMemory, UnitKey};
use al_query::Answers;
use al_view::copied_unit;
use std::alloc::Global;
use std::collections::BTreeMap;
use std::marker::Model;

/// Entries of units, each with marks for its answers: as the last build settled them, and as a build made them since.
pub struct Store<E: Logged> {
    alloc: Global,
    pub(crate) cells: BTreeMap<UnitKey, Cell>,
    pub(crate) slots: Slots<E>,
}

impl<E: Logged + Drop> Drop for Store<E> {
    fn drop(self) {
        let Store {
            alloc: _,
            cells: _,
            slots: _,
        } = self;
    }
}

impl<E: Logged> Model for Store<E> {
    ghost use Rattle.std.specs.Prelude.{List};
    ghost use Rattle.al_base.specs.declared.unit_key.UnitKey.{UnitKey};
    ghost use Rattle.al_query_store.specs.Keyed.{AreCells, State, with_slots};

    ghost Value = { List (UnitKey × State E) };

    ghost view = { λ s. with_slots s.cells.entries s.slots };

    ghost invariant = { λ s. AreCells s.cells.entries s.slots };
}

/// What is held under a key, if it is one.
fn held_in<E: Logged>(slots: &Slots<E>, key: Option<usize>) -> Option<&Held<E>>
    ensures { option_copied result ≡ under slots.now key }
{
    match key {
        Some(key) => slots.get(key),
        None => None,
    }
}

/// The entry under a key, if it is one.
fn entry_in<E: Logged>(slots: &Slots<E>, key: Option<usize>) -> Option<&E>
    ensures { option_copied result ≡ entry_of (under slots.now key) }
{
    match held_in(slots, key) {
        Some(held) => Some(&held.entry),
        None => None,
    }
}

impl<E: Logged> Store<E> {
    /// A store without entries. It takes no memory.
    pub fn new(alloc: Global) -> Self
        ensures { result ≡ [] }
    {
        Store {
            alloc,
            cells: BTreeMap::new(alloc),
            slots: Slots::new(alloc),
        }
    }

    /// The settled entry of a unit. It takes no memory.
    pub fn settled(&self, unit: &UnitKey) -> Option<&Held<E>>
        ensures { option_copied result ≡ (state self.now unit.now).settled }
    {
        let cell = cell_of(&self.cells, unit);
        held_in(&self.slots, cell.settled)
    }

    /// The entry of now of a unit that is reached: the one that was made, or else the settled one. It takes no memory.
    pub fn get(&self, unit: &UnitKey) -> Option<&E>
        ensures { option_copied result ≡ now_at self.now unit.now }
    {
        let cell = cell_of(&self.cells, unit);
        entry_in(&self.slots, now_key(cell))
    }

    /// Whether the last build reached a unit. It takes no memory.
    pub fn was_reached(&self, unit: &UnitKey) -> bool
        ensures { result ≡ (state self.now unit.now).was_reached }
    {
        cell_of(&self.cells, unit).was_reached
    }

    /// Whether a unit is reached now. It takes no memory.
    pub fn is_reached(&self, unit: &UnitKey) -> bool
        ensures { result ≡ (state self.now unit.now).is_reached }
    {
        cell_of(&self.cells, unit).is_reached
    }

    /// The units of which there is something, in order.
    ///
    /// # Errors
    ///
    /// `NoMemory` if the allocator refuses memory.
    pub fn units(&self) -> Result<Vec<UnitKey>, NoMemory>
        ensures { IfOk result (λ units. units.items ≡ keys_of self.now) }
    {
        let mut units = Vec::with_capacity(self.alloc, self.cells.len())?;
        for (unit, _) in self.cells.iter() {
            units.push(copied_unit(self.alloc, unit)?)?;
        }
        Ok(units)
    }

    /// Whether a unit moved since the last build: an entry was made of it, it leaves, or it is reached by the one alone. It takes no memory.
    pub fn has_moved(&self, unit: &UnitKey) -> bool
        ensures { result ≡ is_moved (state self.now unit.now) }
    {
        let cell = cell_of(&self.cells, unit);
        has_moved(cell)
    }

    /// Holds an entry that was made of a unit, which is reached. It has no mark set.
    ///
    /// # Errors
    ///
    /// `NoMemory` if the allocator refuses memory. All is then as before.
    pub fn make(&mut self, unit: &UnitKey, entry: E) -> Result<(), NoMemory>
        requires { (state self.old unit.now).made ≡ None }
        ensures ok { OnOk result (Changes (with_made E.log entry) unit.now self.old self.new) }
        ensures err { OnErr result (SameStates self.old self.new) }
    {
        add(self.alloc, &mut self.cells, unit)?;
        let key = self.slots.insert(entry)?;
        let cell = cell_of(&self.cells, unit);
        let made = Cell {
            made: Some(key),
            is_reached: true,
            ..cell
        };
        change(&mut self.cells, unit, made);
        Ok(())
    }

    /// A unit of which there is something is reached now, or it isn't. It takes no memory.
    pub fn reach(&mut self, unit: &UnitKey, is_reached: bool)
        requires { is_some (at_unit self.old unit.now) ≡ true }
        ensures { Changes (with_reached is_reached) unit.now self.old self.new }
    {
        let cell = cell_of(&self.cells, unit);
        change(&mut self.cells, unit, Cell { is_reached, ..cell });
    }

    /// A unit of which there is something leaves the library. It takes no memory.
    pub fn leave(&mut self, unit: &UnitKey)
        requires { is_some (at_unit self.old unit.now) ≡ true }
        ensures { Changes leaving unit.now self.old self.new }
    {
        let cell = cell_of(&self.cells, unit);
        let left = Cell {
            is_reached: false,
            leaves: true,
            ..cell
        };
        change(&mut self.cells, unit, left);
    }

    /// Compares the answers of settled entries to the questions of a unit with those of now, and marks each by whether it differs.
    /// The result is how many were compared.
    ///
    /// # Errors
    ///
    /// `NoMemory` if the allocator refuses memory. All is then as before but for marks of now.
    pub fn mark<A: Answers>(&mut self, unit: &UnitKey, asked: &A) -> Result<usize, NoMemory>
        ensures marked { OnOk result (ComparesUnit E.log (A.table asked.now) unit.now self.old self.new) }
        ensures counted { IfOk result (λ n. HasAnswers E.log (λ u. true) (λ u. same_unit u unit.now) self.old n) }
        ensures base { (u : UnitKey) → base_state (state self.new u) ≡ base_state (state self.old u) }
    {
        self.slots.mark(unit, asked)
    }

    /// Whether it is known that no mark of now of a settled entry differs from the last build's. It takes no memory.
    pub fn is_untouched(&self) -> bool
        ensures { IsTrue result → AreMarkedAsBefore self.now }
    {
        self.slots.is_untouched()
    }
}
