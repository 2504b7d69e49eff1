// The readers of all units' answers.
ghost use Rattle.std.specs.Prelude.{◌≡◌, [], ◌||◌, ◌&&◌, not, true, false, OnOk, OnErr, IfOk};
ghost use Rattle.std.specs.List.{list_any};
ghost use Rattle.std.specs.List.Sorted.{IsStrictlySortedBy};
ghost use Rattle.al_base.specs.declared.unit_key.UnitKey.{UnitKey};
ghost use Rattle.al_query.specs.Queries.{same_query, unit_of};
ghost use Rattle.al_query.specs.declared.query.Query.{Query};
ghost use Rattle.al_query_store.specs.declared.place.Place.{Place};
ghost use Rattle.al_query_store.specs.Reads.{place_cmp, reads, same_place};

use crate::place::Place;
use crate::questions::Questions;
use al_base::{NoMemory, UnitKey};
use al_query::Query;
use al_view::copied_unit;
use std::alloc::Global;
use std::collections::{BTreeMap, BTreeSet};
use std::marker::Model;

/// An index from each question to the places of the stored answers to it. It is ordered by the units that are asked.
pub struct Readers {
    alloc: Global,
    units: BTreeMap<UnitKey, Questions>,
}

impl Drop for Readers {
    fn drop(self) {
        let Readers { alloc: _, units: _ } = self;
    }
}

impl Model for Readers {
    ghost use Rattle.std.specs.Prelude.{List};
    ghost use Rattle.std.specs.BTreeSet.{BTreeSet};
    ghost use Rattle.al_base.specs.declared.unit_key.UnitKey.{UnitKey};
    ghost use Rattle.al_query.specs.declared.query.Query.{Query};
    ghost use Rattle.al_query_store.specs.declared.place.Place.{Place};

    ghost Value = { List (UnitKey × List (Query × BTreeSet Place)) };

    ghost view = { λ r. r.units.entries };
}

impl Readers {
    /// An index without questions. It takes no memory.
    pub fn new(alloc: Global) -> Self
        ensures { (q : Query) (p : Place) → reads result q p ≡ false }
    {
        Readers {
            alloc,
            units: BTreeMap::new(alloc),
        }
    }

    /// Adds a place of an answer to a question.
    ///
    /// # Errors
    ///
    /// `NoMemory` if the allocator refuses memory. Nothing has changed then.
    pub fn add(&mut self, query: &Query, place: Place) -> Result<(), NoMemory>
        ensures ok { OnOk result ((q : Query) (p : Place) → reads self.new q p ≡ (reads self.old q p || (same_query query.now q && same_place place p))) }
        ensures err { OnErr result ((q : Query) (p : Place) → reads self.new q p ≡ reads self.old q p) }
    {
        let alloc = self.alloc;
        if let Some(questions) = self.units.get_mut(query.unit()) {
            questions.add(alloc, query, place)?;
            return Ok(());
        }
        let mut questions = Questions::new(alloc);
        questions.add(alloc, query, place)?;
        self.units
            .insert(copied_unit(alloc, query.unit())?, questions)?;
        Ok(())
    }

    /// Removes a place of an answer to a question. It takes no memory.
    pub fn remove(&mut self, query: &Query, place: Place)
        ensures { (q : Query) (p : Place) → reads self.new q p ≡ (reads self.old q p && not (same_query query.now q && same_place place p)) }
    {
        let Some(questions) = self.units.get_mut(query.unit()) else {
            return;
        };
        questions.remove(query, place);
    }

    /// The places of all answers to questions of a unit, and maybe of others, each once.
    ///
    /// # Errors
    ///
    /// `NoMemory` if the allocator refuses memory.
    pub fn of_unit(&self, unit: &UnitKey) -> Result<Vec<Place>, NoMemory>
        ensures found { IfOk result (λ places. (q : Query) (p : Place) → unit_of q ≡ unit.now → reads self.now q p ≡ true → list_any (same_place p) places.items ≡ true) }
        ensures apart { IfOk result (λ places. IsStrictlySortedBy place_cmp places.items) }
    {
        let Some(questions) = self.units.get(unit) else {
            return Ok(Vec::new(self.alloc));
        };
        let mut set = BTreeSet::new(self.alloc);
        questions.gather(&mut set)?;
        let list = listed(self.alloc, &set)?;
        Ok(list)
    }
}

/// The places of a set, in order.
fn listed(alloc: Global, set: &BTreeSet<Place>) -> Result<Vec<Place>, NoMemory>
    ensures items { IfOk result (λ list. list.items ≡ set.now.keys) }
    ensures apart { IfOk result (λ list. IsStrictlySortedBy place_cmp list.items) }
{
    let mut list = Vec::with_capacity(alloc, set.len())?;
    for place in set.iter() {
        list.push(*place)?;
    }
    Ok(list)
}
