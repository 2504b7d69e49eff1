// The end of a build.
ghost use Rattle.std.specs.Prelude.{◌≡◌, None, if◌then◌else◌};
ghost use Rattle.al_base.specs.declared.unit_key.UnitKey.{UnitKey};
ghost use Rattle.al_query.specs.Known.{has_unit};
ghost use Rattle.al_query_store.specs.Keyed.{Changes, as_before, as_now, base_state, cancelled_state, kept_state, nothing, promoted, replaced, settled_so, settled_state, state, without_made, without_settled};

use crate::Logged;
use crate::cell::{Cell, cell_of, change, take_away};
use crate::store::Store;
use al_base::UnitKey;

impl<E: Logged> Store<E> {
    /// Drops the settled entry of a unit.
    fn drop_settled(&mut self, unit: &UnitKey)
        ensures { Changes without_settled unit.now self.old self.new }
    {
        let cell = cell_of(&self.cells, unit);
        let Some(key) = cell.settled else {
            return;
        };
        let without = Cell {
            settled: None,
            ..cell
        };
        change(&mut self.cells, unit, without);
        self.slots.remove(key);
    }

    /// Drops the entry that was made of a unit.
    fn drop_made(&mut self, unit: &UnitKey)
        ensures { Changes without_made unit.now self.old self.new }
    {
        let cell = cell_of(&self.cells, unit);
        let Some(key) = cell.made else {
            return;
        };
        let without = Cell { made: None, ..cell };
        change(&mut self.cells, unit, without);
        self.slots.remove(key);
    }

    /// Settles the entry that was made of a unit, which has no settled one.
    fn promote(&mut self, unit: &UnitKey)
        requires { (state self.old unit.now).settled ≡ None }
        ensures { Changes promoted unit.now self.old self.new }
    {
        let cell = cell_of(&self.cells, unit);
        let Some(key) = cell.made else {
            return;
        };
        let settled = Cell {
            settled: Some(key),
            made: None,
            ..cell
        };
        change(&mut self.cells, unit, settled);
        self.slots.settle(key);
    }

    /// Notes that the last build reached a unit, if it is reached now. The unit no longer leaves.
    fn reached_as_now(&mut self, unit: &UnitKey)
        ensures { Changes as_now unit.now self.old self.new }
    {
        let cell = cell_of(&self.cells, unit);
        let reached = Cell {
            was_reached: cell.is_reached,
            leaves: false,
            ..cell
        };
        change(&mut self.cells, unit, reached);
    }

    /// Notes that a unit is reached now, if the last build reached it. The unit no longer leaves.
    fn reached_as_before(&mut self, unit: &UnitKey)
        ensures { Changes as_before unit.now self.old self.new }
    {
        let cell = cell_of(&self.cells, unit);
        let reached = Cell {
            is_reached: cell.was_reached,
            leaves: false,
            ..cell
        };
        change(&mut self.cells, unit, reached);
    }

    /// Takes away the cell of a unit, of which there is no entry.
    fn drop_cell(&mut self, unit: &UnitKey)
        requires settled { (state self.old unit.now).settled ≡ None }
        requires made { (state self.old unit.now).made ≡ None }
        ensures { Changes (λ s. nothing) unit.now self.old self.new }
    {
        take_away(&mut self.cells, unit);
    }

    /// Drops all that there is of a unit.
    fn drop_unit(&mut self, unit: &UnitKey)
        ensures { Changes (λ s. nothing) unit.now self.old self.new }
    {
        self.drop_settled(unit);
        self.drop_made(unit);
        self.drop_cell(unit);
    }

    /// Puts the entry that was made of a unit in the place of the settled one, if one was made.
    fn replace_settled(&mut self, unit: &UnitKey)
        ensures { Changes replaced unit.now self.old self.new }
    {
        let cell = cell_of(&self.cells, unit);
        if cell.made.is_none() {
            return;
        }
        self.drop_settled(unit);
        self.promote(unit);
    }

    /// Settles what was made of a unit that stays.
    fn settle_made(&mut self, unit: &UnitKey)
        ensures { Changes settled_so unit.now self.old self.new }
    {
        self.replace_settled(unit);
        self.reached_as_now(unit);
    }

    /// Settles what was made of a unit.
    fn settle_unit(&mut self, unit: &UnitKey)
        ensures { Changes settled_state unit.now self.old self.new }
    {
        let cell = cell_of(&self.cells, unit);
        if cell.leaves {
            self.drop_unit(unit)
        } else {
            self.settle_made(unit)
        }
    }

    /// Drops what was made of a unit.
    fn cancel_unit(&mut self, unit: &UnitKey)
        ensures { Changes cancelled_state unit.now self.old self.new }
    {
        self.drop_made(unit);
        self.reached_as_before(unit);
    }

    /// A build of which these units moved has answered: what it made is settled, what it reached is what the last build reached, who leaves
    /// is gone, and its marks are those of the last build. It takes no memory.
    pub fn settle(&mut self, moved: &[UnitKey])
        ensures { (u : UnitKey) → state self.new u ≡ kept_state (if has_unit moved.now u then settled_state (state self.old u) else state self.old u) }
    {
        self.settle_units(moved);
        self.keep_marks();
    }

    /// The marks of now are those of the last build from here on.
    fn keep_marks(&mut self)
        ensures { (u : UnitKey) → state self.new u ≡ kept_state (state self.old u) }
    {
        self.slots.keep_marks();
    }

    /// The marks of now are those of the last build again.
    fn put_back_marks(&mut self)
        ensures { (u : UnitKey) → state self.new u ≡ base_state (state self.old u) }
    {
        self.slots.put_back_marks();
    }

    /// Settles what was made of these units.
    fn settle_units(&mut self, moved: &[UnitKey])
        ensures { (u : UnitKey) → state self.new u ≡ (if has_unit moved.now u then settled_state (state self.old u) else state self.old u) }
    {
        for unit in moved {
            self.settle_unit(unit);
        }
    }

    /// Drops what was made of these units.
    fn cancel_units(&mut self, moved: &[UnitKey])
        ensures { (u : UnitKey) → state self.new u ≡ (if has_unit moved.now u then cancelled_state (state self.old u) else state self.old u) }
    {
        for unit in moved {
            self.cancel_unit(unit);
        }
    }

    /// A build in which these units moved ran out of memory: what it made is dropped, and the marks of now are those of the last
    /// build. It takes no memory.
    pub fn cancel(&mut self, moved: &[UnitKey])
        ensures { (u : UnitKey) → state self.new u ≡ base_state (if has_unit moved.now u then cancelled_state (state self.old u) else state self.old u) }
    {
        self.cancel_units(moved);
        self.put_back_marks();
    }
}
