// The questions of one unit with the places of their answers.
ghost use Rattle.std.specs.Prelude.{◌≡◌, [], ◌||◌, ◌&&◌, not, true, OnOk, OnErr};
ghost use Rattle.std.specs.List.{list_any};
ghost use Rattle.al_query.specs.Queries.{same_query};
ghost use Rattle.al_query.specs.declared.query.Query.{Query};
ghost use Rattle.al_query_store.specs.declared.place.Place.{Place};
ghost use Rattle.al_query_store.specs.Reads.{any_has, has, same_place};

use crate::place::Place;
use al_base::NoMemory;
use al_query::Query;
use std::alloc::Global;
use std::collections::{BTreeSet, HashMap};
use std::marker::Model;

/// Questions, each with the places of its answers.
pub struct Questions {
    by_query: HashMap<Query, BTreeSet<Place>>,
}

impl Drop for Questions {
    fn drop(self) {
        let Questions { by_query: _ } = self;
    }
}

impl Model for Questions {
    ghost use Rattle.std.specs.Prelude.{List};
    ghost use Rattle.std.specs.BTreeSet.{BTreeSet};
    ghost use Rattle.al_query.specs.declared.query.Query.{Query};
    ghost use Rattle.al_query_store.specs.declared.place.Place.{Place};

    ghost Value = { List (Query × BTreeSet Place) };

    ghost view = { λ q. q.by_query.entries };
}

impl Questions {
    /// An index without questions. It takes no memory.
    pub fn new(alloc: Global) -> Self
        ensures { result ≡ [] }
    {
        Questions {
            by_query: HashMap::new(alloc),
        }
    }

    /// Adds a place of an answer to a question.
    ///
    /// # Errors
    ///
    /// `NoMemory` if the allocator refuses memory. Nothing has changed then.
    pub fn add(&mut self, alloc: Global, query: &Query, place: Place) -> Result<(), NoMemory>
        ensures ok { OnOk result ((q : Query) (p : Place) → has self.new q p ≡ (has self.old q p || (same_query query.now q && same_place place p))) }
        ensures err { OnErr result ((q : Query) (p : Place) → has self.new q p ≡ has self.old q p) }
    {
        if let Some(places) = self.by_query.get_mut(query) {
            places.insert(place)?;
            return Ok(());
        }
        let mut places = BTreeSet::new(alloc);
        places.insert(place)?;
        self.by_query.insert(query.copy(alloc)?, places)?;
        Ok(())
    }

    /// Removes a place of an answer to a question. It takes no memory.
    pub fn remove(&mut self, query: &Query, place: Place)
        ensures { (q : Query) (p : Place) → has self.new q p ≡ (has self.old q p && not (same_query query.now q && same_place place p)) }
    {
        let Some(places) = self.by_query.get_mut(query) else {
            return;
        };
        let _was = places.remove(&place);
    }

    /// Adds the places of all answers to a set.
    pub(crate) fn gather(&self, set: &mut BTreeSet<Place>) -> Result<(), NoMemory>
        ensures { OnOk result ((p : Place) → any_has self.now p ≡ true → list_any (same_place p) set.new.keys ≡ true) }
    {
        for (_, places) in self.by_query.iter() {
            add_all(set, places)?;
        }
        Ok(())
    }
}

/// Adds places to a set.
fn add_all(set: &mut BTreeSet<Place>, places: &BTreeSet<Place>) -> Result<(), NoMemory>
    ensures { OnOk result ((p : Place) → list_any (same_place p) set.new.keys ≡ (list_any (same_place p) set.old.keys || list_any (same_place p) places.now.keys)) }
{
    for place in places.iter() {
        set.insert(*place)?;
    }
    Ok(())
}
