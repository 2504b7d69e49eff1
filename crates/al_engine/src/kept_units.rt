// What is kept from build to build.
ghost use Rattle.std.specs.Prelude.{◌≡◌, [], Some, IfOk, IfSome, IsTrue, MatchOption, OnOk, length};
ghost use Rattle.al_base.specs.declared.unit_key.UnitKey.{UnitKey};
ghost use Rattle.al_query_store.specs.Keyed.{kept_state, now_at, settled_at, settled_state, state};
ghost use Rattle.al_engine_refresh.specs.EntryLaw.{AllKeepLaw};
ghost use Rattle.al_engine_refresh.specs.Stored.{Stored};
ghost use Rattle.al_engine_refresh.specs.Moves.{IsLeft, left_by_last};
ghost use Rattle.al_engine_refresh.specs.Builds.{raised, text_of};
ghost use Rattle.al_engine.specs.Rechecks.{AreReady, HasOrder, IsUpdated, will_be};
ghost use Rattle.al_engine.specs.RecheckEdits.{AreEdits, IsRenewal, units_of};

use crate::edited::EditedUnit;
use crate::rechecking::Rechecked;
use crate::renewing::{has_text, update};
use al_base::{NoMemory, UnitKey};
use al_engine_refresh::KeptEntries;
use al_query::Answers;
use al_query_outcome::UnitCheck;
use al_unit_graph::Sources;
use std::alloc::Global;
use std::marker::Model;

/// A checker, and an entry of each unit that it checked and that is still kept. Every entry keeps the reads law, whatever happened.
pub struct UnitCache<C: UnitCheck> {
    alloc: Global,
    checker: C,
    entries: KeptEntries,
}

impl<C: UnitCheck + Drop> Drop for UnitCache<C> {
    fn drop(self) {
        let UnitCache {
            alloc: _,
            checker: _,
            entries: _,
        } = self;
    }
}

impl<C: UnitCheck> Model for UnitCache<C> {
    ghost use Rattle.std.specs.Coded.{codes};
    ghost use Rattle.al_view_typed.specs.contracts.expression.Typed as expression;
    ghost use Rattle.al_view_typed.specs.contracts.statement.TypedStatement as statement;
    ghost use Rattle.al_engine.specs.UnitCache.{Kept};
    ghost use Rattle.al_query_store.specs.Keyed.{settled_at};
    ghost use Rattle.al_engine_refresh.specs.EntryLaw.{AllKeepLaw};

    ghost Value = { Kept C };

    ghost coded = { Prim.hlevel (codes, expression.the_row.coded, statement.the_row.coded) };

    ghost view = { λ k. record { checker = k.checker; store = k.entries } };

    ghost invariant = { λ k. AllKeepLaw C.meaning C.Text.header (settled_at k.entries) };
}

impl<C: UnitCheck> UnitCache<C> {
    /// No entry. It takes no memory.
    pub fn new(alloc: Global, checker: C) -> Self
        ensures checker { result.checker ≡ checker }
        ensures store { result.store ≡ [] }
    {
        UnitCache {
            alloc,
            checker,
            entries: KeptEntries::new(alloc),
        }
    }

    /// Recalls that every entry keeps the reads law.
    pub fn keep_the_law(&self)
        ensures { AllKeepLaw C.meaning C.Text.header (settled_at self.now.store) }
    {
        let _entries = &self.entries;
    }

    /// How many checks were made, to 2^64-1.
    pub fn checks(&self) -> u64
        ensures { result ≡ C.count self.now.checker }
    {
        self.checker.checks()
    }

    /// Whether a unit has an entry for another source than its file has.
    pub fn is_edited(&self, sources: &Sources, unit: &UnitKey) -> bool
        ensures { IsTrue result → (e : Stored) × (settled_at self.now.store unit.now ≡ Some e) × (e.text ≡ text_of sources.now unit.now → ⊥) }
    {
        match self.entries.settled(unit) {
            Some(held) => !has_text(sources, unit, held.entry.text()),
            None => false,
        }
    }

    /// The entries, including those made since the last build.
    pub fn entries(&self) -> &KeptEntries
        ensures { result.now ≡ self.now.store }
    {
        &self.entries
    }

    /// Brings the units of a library up to date, in an order of dependence. If `edited` has units, only these were edited; then the units are checked
    /// after the first of them that gives somebody another answer, and no other unit is looked at. The entries of the last build are unchanged until
    /// [`Self::settle`] or [`Self::cancel`].
    /// - `updated`: which units were checked, which entries there are and will be, and how many stored answers were compared.
    /// - `renewed`: if the result is a renewal, all other units have the same entries as before.
    ///
    /// # Errors
    ///
    /// `NoMemory` if the allocator refuses memory. The count of checks may have risen, and entries may have been made, which [`Self::cancel`] drops.
    pub fn recheck<P: Answers>(
        &mut self,
        predefined: &P,
        sources: &Sources,
        order: &[UnitKey],
        edited: &Option<Vec<EditedUnit>>,
    ) -> Result<Rechecked, NoMemory>
        requires ready { AreReady (P.table predefined.now) self.old.store }
        requires order { HasOrder C.Text.header (P.table predefined.now) sources.now order.now }
        requires edited { IfSome edited.now (λ edits. AreEdits C.meaning C.Text.header (P.table predefined.now) sources.now self.old.store edits.items) }
        ensures updated { IfOk result (λ r. IsUpdated C.meaning C.Text.header (P.table predefined.now) sources.now self.old.store self.new.store r.checked.items r.compared) }
        ensures renewed { IfOk result (λ r. IsTrue r.is_renewal → MatchOption edited.now ⊥ (λ edits. IsRenewal (settled_at self.old.store) (units_of edits.items) (now_at self.new.store))) }
        ensures law { OnOk result (AllKeepLaw C.meaning C.Text.header (will_be self.new.store)) }
        ensures counted { IfOk result (λ r. C.count self.new.checker ≡ raised (C.count self.old.checker) (length r.checked.items)) }
        ensures left { IsLeft self.old.store self.new.store }
    {
        update(
            self.alloc,
            &mut self.checker,
            predefined,
            sources,
            order,
            edited,
            &mut self.entries,
        )
    }

    /// Settles a build that gave an answer: its entries are those of the last build from here on, and so are the units that it reached. It takes no
    /// memory.
    pub fn settle(&mut self)
        requires { AllKeepLaw C.meaning C.Text.header (will_be self.old.store) }
        ensures checker { self.new.checker ≡ self.old.checker }
        ensures settled { (u : UnitKey) → state self.new.store u ≡ kept_state (settled_state (state self.old.store u)) }
    {
        self.entries.settle();
    }

    /// Cancels a build that ran out of memory: its entries are dropped, and everything is as the last build left it. It takes no memory.
    pub fn cancel(&mut self)
        ensures checker { self.new.checker ≡ self.old.checker }
        ensures cancelled { (u : UnitKey) → state self.new.store u ≡ left_by_last (state self.old.store u) }
    {
        self.entries.cancel();
    }
}
