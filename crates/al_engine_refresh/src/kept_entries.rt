// Entries of units during a build.
ghost use Rattle.std.specs.Prelude.{◌≡◌, [], true, IfOk, IsTrue, OnErr, OnOk, None, is_some};
ghost use Rattle.std.specs.Map.{keys_of};
ghost use Rattle.std.specs.Option.{option_copied};
ghost use Rattle.al_base.specs.declared.unit_key.UnitKey.{UnitKey};
ghost use Rattle.al_view.specs.Symbols.{same_unit};
ghost use Rattle.al_query_store.specs.Units.{at_unit};
ghost use Rattle.al_engine_refresh.specs.Stored.{log_of};
ghost use Rattle.al_engine_refresh.specs.Moves.{has_moved};
ghost use Rattle.al_query_store.specs.Changes.{AreMarkedAsBefore, ComparesUnit, HasAnswers, with_made};
ghost use Rattle.al_query_store.specs.Keyed.{Changes, SameStates, base_state, cancelled_state, kept_state, leaving, now_at, settled_state, state, with_reached};

use crate::Entry;
use al_base::{NoMemory, UnitKey};
use al_query::Answers;
use al_query_store::{Held, Store};
use al_view::copied_unit;
use std::alloc::Global;
use std::marker::Model;

/// Entries of units, with marks for their answers: the *settled* ones of the last build, and those that a build has made since. Units that moved
/// since the last build are noted, so the end of a build looks only at them.
pub struct KeptEntries {
    alloc: Global,
    store: Store<Entry>,
    moved: Vec<UnitKey>,
}

// Written out: a crate above then drops entries by this call, and needn't prove again how each kind of tree is dropped.
impl Drop for KeptEntries {
    fn drop(self) {
        let KeptEntries {
            alloc: _,
            store: _,
            moved: _,
        } = self;
    }
}

impl Model for KeptEntries {
    ghost use Rattle.std.specs.Prelude.{List};
    ghost use Rattle.std.specs.Coded.{codes};
    ghost use Rattle.al_base.specs.declared.unit_key.UnitKey.{UnitKey};
    ghost use Rattle.al_view_typed.specs.contracts.expression.Typed as expression;
    ghost use Rattle.al_view_typed.specs.contracts.statement.TypedStatement as statement;
    ghost use Rattle.al_engine_refresh.specs.Stored.{Stored};
    ghost use Rattle.al_query_store.specs.Keyed.{State};
    ghost use Rattle.al_engine_refresh.specs.Moves.{AreQuietBut};

    ghost Value = { List (UnitKey × State Stored) };

    ghost coded = { Prim.hlevel (codes, expression.the_row.coded, statement.the_row.coded) };

    ghost view = { λ k. k.store };

    ghost invariant = { λ k. AreQuietBut k.moved.items k.store };
}

impl KeptEntries {
    /// Entries of no unit. It takes no memory.
    pub fn new(alloc: Global) -> Self
        ensures { result ≡ [] }
    {
        KeptEntries {
            alloc,
            store: Store::new(alloc),
            moved: Vec::new(alloc),
        }
    }

    /// The settled entry of a unit, with its marks. It takes no memory.
    pub fn settled(&self, unit: &UnitKey) -> Option<&Held<Entry>>
        ensures { option_copied result ≡ (state self.now unit.now).settled }
    {
        self.store.settled(unit)
    }

    /// The current entry of a unit that is reached: the one that was made, or else the settled one. It takes no memory.
    pub fn get(&self, unit: &UnitKey) -> Option<&Entry>
        ensures { option_copied result ≡ now_at self.now unit.now }
    {
        self.store.get(unit)
    }

    /// Whether a unit is reached now. It takes no memory.
    pub fn is_reached(&self, unit: &UnitKey) -> bool
        ensures { result ≡ (state self.now unit.now).is_reached }
    {
        self.store.is_reached(unit)
    }

    /// The units that have an entry or a note, in order.
    ///
    /// # Errors
    /// `NoMemory` if the allocator refuses memory.
    pub fn units(&self) -> Result<Vec<UnitKey>, NoMemory>
        ensures { IfOk result (λ units. units.items ≡ keys_of self.now) }
    {
        self.store.units()
    }

    /// Whether a unit moved since the last build. It takes no memory.
    pub fn has_moved(&self, unit: &UnitKey) -> bool
        ensures { result ≡ has_moved self.now unit.now }
    {
        self.store.has_moved(unit)
    }

    /// Holds an entry that was made of a unit, which is then reached. No mark of it is set.
    ///
    /// # Errors
    ///
    /// `NoMemory` if the allocator refuses memory; nothing changes then.
    pub fn make(&mut self, unit: &UnitKey, entry: Entry) -> Result<(), NoMemory>
        requires { (state self.old unit.now).made ≡ None }
        ensures ok { OnOk result (Changes (with_made log_of entry) unit.now self.old self.new) }
        ensures err { OnErr result (SameStates self.old self.new) }
    {
        let moved = copied_unit(self.alloc, unit)?;
        self.moved.push(moved)?;
        self.store.make(unit, entry)?;
        Ok(())
    }

    /// Notes whether a unit that has an entry or a note is reached now.
    ///
    /// # Errors
    ///
    /// `NoMemory` if the allocator refuses memory; nothing changes then.
    pub fn reach(&mut self, unit: &UnitKey, is_reached: bool) -> Result<(), NoMemory>
        requires { is_some (at_unit self.old unit.now) ≡ true }
        ensures ok { OnOk result (Changes (with_reached is_reached) unit.now self.old self.new) }
        ensures err { OnErr result (SameStates self.old self.new) }
    {
        let moved = copied_unit(self.alloc, unit)?;
        self.moved.push(moved)?;
        self.store.reach(unit, is_reached);
        Ok(())
    }

    /// Notes that a unit that has an entry or a note leaves the library.
    ///
    /// # Errors
    ///
    /// `NoMemory` if the allocator refuses memory; nothing changes then.
    pub fn leave(&mut self, unit: &UnitKey) -> Result<(), NoMemory>
        requires { is_some (at_unit self.old unit.now) ≡ true }
        ensures ok { OnOk result (Changes leaving unit.now self.old self.new) }
        ensures err { OnErr result (SameStates self.old self.new) }
    {
        let moved = copied_unit(self.alloc, unit)?;
        self.moved.push(moved)?;
        self.store.leave(unit);
        Ok(())
    }

    /// Compares the answers that settled entries store for questions of a unit with its current answers, and marks each by whether it differs. Gives
    /// how many were compared.
    ///
    /// # Errors
    ///
    /// `NoMemory` if the allocator refuses memory; then only current marks may have changed.
    pub fn mark<A: Answers>(&mut self, unit: &UnitKey, asked: &A) -> Result<usize, NoMemory>
        ensures marked { OnOk result (ComparesUnit log_of (A.table asked.now) unit.now self.old self.new) }
        ensures counted { IfOk result (λ n. HasAnswers log_of (λ u. true) (λ u. same_unit u unit.now) self.old n) }
        ensures base { (u : UnitKey) → base_state (state self.new u) ≡ base_state (state self.old u) }
    {
        self.store.mark(unit, asked)
    }

    /// Whether it is known that each current mark of a settled entry is as in the last build. It takes no memory.
    pub fn is_untouched(&self) -> bool
        ensures { IsTrue result → AreMarkedAsBefore self.now }
    {
        self.store.is_untouched()
    }

    /// Ends a build that has answered: the entries that it made are settled, the units that it reached are those of the last build, units that left
    /// have no entry, and its marks are those of the last build. It takes no memory.
    pub fn settle(&mut self)
        ensures { (u : UnitKey) → state self.new u ≡ kept_state (settled_state (state self.old u)) }
    {
        self.store.settle(self.moved.as_slice());
        self.moved.clear();
    }

    /// Ends a build that ran out of memory: the entries that it made are dropped, and all is as the last build left it. It takes no memory.
    pub fn cancel(&mut self)
        ensures { (u : UnitKey) → state self.new u ≡ base_state (cancelled_state (state self.old u)) }
    {
        self.store.cancel(self.moved.as_slice());
        self.moved.clear();
    }
}
