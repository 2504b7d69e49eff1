// The marks of the answers to a unit's questions.
ghost use Rattle.std.specs.Prelude.{◌≡◌, ◌<◌, ◌&&◌, IfOk, OnOk, Some, filter, length};
ghost use Rattle.std.specs.List.{list_any};
ghost use Rattle.slab.specs.Slab.{get, with_value};
ghost use Rattle.al_query_store.specs.Reads.{same_place};
ghost use Rattle.al_query_store.specs.Marking.{Differs, IsMarked, IsSized, answer_at, answer_in, is_of};
ghost use Rattle.al_query_store.specs.Stored.{AreUntouched, SameBase, with_mark};
ghost use Rattle.al_query_store.specs.declared.slots.Held.{Held};

use crate::Place;
use crate::logged::Logged;
use crate::slots::Held;
use al_base::{NoMemory, UnitKey};
use al_query::Answers;
use al_view::{Same, is_unit};
use slab::Slab;

/// Whether a stored answer of a settled entry differs from the one of now, if it is to a question of the unit.
fn compare<E: Logged, A: Answers>(
    held: &Held<E>,
    unit: &UnitKey,
    at: usize,
    asked: &A,
) -> Result<Option<bool>, NoMemory>
    ensures { IfOk result (Differs (A.table asked.now) unit.now (answer_in E.log (Some held.now) at)) }
{
    if !held.is_settled {
        return Ok(None);
    }
    let Some((query, answer)) = held.entry.log().at(at) else {
        return Ok(None);
    };
    if !is_unit(query.unit(), unit) {
        return Ok(None);
    }
    let now = asked.ask(query)?;
    Ok(Some(!now.is_same(answer)))
}

/// Sets the mark of now of the answer at a place.
fn set_mark<E>(entries: &mut Slab<Held<E>>, place: &Place, differs: bool)
    requires { (h : Held E) → get entries.old place.now.entry ≡ Some h → place.now.at < length h.marks.now }
    ensures { (h : Held E) → get entries.old place.now.entry ≡ Some h → entries.new ≡ with_value entries.old place.now.entry (with_mark h place.now.at differs) }
{
    if let Some(held) = entries.get_mut(place.entry) {
        held.marks.set(place.at, differs);
    }
}

/// Compares an answer that is stored at a place with that of now, and marks it by whether it differs. The entry's key is noted if
/// the mark changes. The result says whether the answer is to a question of the unit.
fn mark_place<E: Logged, A: Answers>(
    entries: &mut Slab<Held<E>>,
    touched: &mut Vec<usize>,
    unit: &UnitKey,
    place: &Place,
    asked: &A,
) -> Result<bool, NoMemory>
    requires sized { IsSized E.log entries.old }
    requires untouched { AreUntouched entries.old touched.old.items }
    ensures sized { IsSized E.log entries.new }
    ensures untouched { AreUntouched entries.new touched.new.items }
    ensures base { SameBase entries.old entries.new }
    ensures did { IfOk result (λ did. did ≡ is_of unit.now (answer_at E.log entries.old place.now)) }
    ensures marked { OnOk result (IsMarked E.log (A.table asked.now) (λ p. is_of unit.now (answer_at E.log entries.old p) && same_place p place.now) entries.old entries.new) }
{
    let Some(held) = entries.get(place.entry) else {
        return Ok(false);
    };
    let Some(differs) = compare(held, unit, place.at, asked)? else {
        return Ok(false);
    };
    if held.marks.is_now(place.at, differs) {
        return Ok(true);
    }
    touched.push(place.entry)?;
    set_mark(entries, place, differs);
    Ok(true)
}

/// Compares and marks the answers at each of these places. The result is how many were compared.
pub(crate) fn mark_places<E: Logged, A: Answers>(
    entries: &mut Slab<Held<E>>,
    touched: &mut Vec<usize>,
    unit: &UnitKey,
    places: &[Place],
    asked: &A,
) -> Result<usize, NoMemory>
    requires sized { IsSized E.log entries.old }
    requires untouched { AreUntouched entries.old touched.old.items }
    ensures sized { IsSized E.log entries.new }
    ensures untouched { AreUntouched entries.new touched.new.items }
    ensures base { SameBase entries.old entries.new }
    ensures counted { IfOk result (λ n. n ≡ length (filter (λ p. is_of unit.now (answer_at E.log entries.old p)) places.now)) }
    ensures marked { OnOk result (IsMarked E.log (A.table asked.now) (λ p. is_of unit.now (answer_at E.log entries.old p) && list_any (same_place p) places.now) entries.old entries.new) }
{
    let mut compared = 0;
    for place in places {
        if mark_place(entries, touched, unit, place, asked)? {
            compared += 1;
        }
    }
    Ok(compared)
}
