// Units that move in a build: the stored answers to their questions are compared with their current ones.
ghost use Rattle.std.specs.Prelude.{◌≡◌, ℕ, true, false, IfOk, IsTrue, None, OnErr, OnOk, is_some};
ghost use Rattle.std.specs.Option.{option_map};
ghost use Rattle.al_base.specs.declared.unit_key.UnitKey.{UnitKey};
ghost use Rattle.al_view.specs.Symbols.{same_unit};
ghost use Rattle.al_query_store.specs.Units.{at_unit};
ghost use Rattle.al_query_store.specs.Changes.{ComparesUnit, HasAnswers, with_made};
ghost use Rattle.al_query_store.specs.Keyed.{base_state, leaving, now_at, state, with_reached};
ghost use Rattle.al_engine_refresh.specs.Stored.{log_of, outcome_of};
ghost use Rattle.al_engine_refresh.specs.Moves.{IsLeft, has_moved};
ghost use Rattle.al_engine_refresh.specs.Builds.{present, raised, results_of};
ghost use Rattle.al_engine_refresh.specs.Moving.{IsCompared, Turned};

use crate::present::is_predefined;
use crate::{Entry, KeptEntries};
use al_base::{NoMemory, UnitKey};
use al_query::{Answer, Answers, Query};
use al_query_outcome::no_answer;
use std::alloc::Global;

/// The current answers of one unit and of the predefined units.
#[derive(Drop)]
struct OneUnitAnswers<'a, P: Answers> {
    alloc: Global,
    predefined: &'a P,
    entry: Option<Entry>,
}

impl<P: Answers> Answers for OneUnitAnswers<'_, P> {
    ghost table = { λ t. present (P.table t.predefined.now) (λ u. option_map outcome_of t.entry) };

    fn ask(&self, query: &Query) -> Result<Answer, NoMemory> {
        if is_predefined(query.unit()) {
            return self.predefined.ask(query);
        }
        match &self.entry {
            Some(entry) => entry.answer(self.alloc, query),
            None => no_answer(self.alloc, query),
        }
    }
}

/// The current entry of a unit, shared; none if the unit isn't reached.
fn shared(entries: &KeptEntries, unit: &UnitKey) -> Result<Option<Entry>, NoMemory>
    ensures { IfOk result (λ entry. entry ≡ now_at entries.now unit.now) }
{
    match entries.get(unit) {
        Some(entry) => Ok(Some(entry.share()?)),
        None => Ok(None),
    }
}

/// The sum of the two, at most 2^64-1.
fn raised_by(count: usize, more: usize) -> usize
    ensures { result ≡ raised count more }
{
    count.saturating_add(more)
}

/// Compares the stored answers to questions of a unit with its current answers, and marks those that differ.
fn compare<P: Answers>(
    alloc: Global,
    predefined: &P,
    entries: &mut KeptEntries,
    unit: &UnitKey,
    compared: &mut usize,
) -> Result<(), NoMemory>
    ensures marked { OnOk result (ComparesUnit log_of (present (P.table predefined.now) (λ u. results_of (now_at entries.old) unit.now)) unit.now entries.old entries.new) }
    ensures counted { OnOk result ((n : ℕ) × HasAnswers log_of (λ u. true) (λ u. same_unit u unit.now) entries.old n × (compared.new ≡ raised compared.old n)) }
    ensures base { (u : UnitKey) → base_state (state entries.new u) ≡ base_state (state entries.old u) }
{
    let entry = shared(entries, unit)?;
    let answers = OneUnitAnswers {
        alloc,
        predefined,
        entry,
    };
    let count = entries.mark(unit, &answers)?;
    *compared = raised_by(*compared, count);
    Ok(())
}

/// Notes whether a unit is reached now. If that changes, the unit moves.
pub(crate) fn turn<P: Answers>(
    alloc: Global,
    predefined: &P,
    entries: &mut KeptEntries,
    unit: &UnitKey,
    is_reached: bool,
    compared: &mut usize,
) -> Result<(), NoMemory>
    requires unmoved { has_moved entries.old unit.now ≡ false }
    requires settled { IsTrue is_reached → is_some (state entries.old unit.now).settled ≡ true }
    ensures turned { OnOk result (Turned (P.table predefined.now) (with_reached is_reached) unit.now entries.old entries.new) }
    ensures compared { IsCompared entries.old compared.old → OnOk result (IsCompared entries.new compared.new) }
    ensures left { IsLeft entries.old entries.new }
{
    if entries.is_reached(unit) == is_reached {
        return Ok(());
    }
    entries.reach(unit, is_reached)?;
    compare(alloc, predefined, entries, unit, compared)
}

/// Holds an entry that was made of a unit, which moves.
pub(crate) fn add_made<P: Answers>(
    alloc: Global,
    predefined: &P,
    entries: &mut KeptEntries,
    unit: &UnitKey,
    entry: Entry,
    compared: &mut usize,
) -> Result<(), NoMemory>
    requires unmoved { has_moved entries.old unit.now ≡ false }
    ensures turned { OnOk result (Turned (P.table predefined.now) (with_made log_of entry) unit.now entries.old entries.new) }
    ensures compared { IsCompared entries.old compared.old → OnOk result (IsCompared entries.new compared.new) }
    ensures left { IsLeft entries.old entries.new }
{
    entries.make(unit, entry)?;
    compare(alloc, predefined, entries, unit, compared)
}

/// Removes a unit that leaves the library, which moves.
pub(crate) fn leave<P: Answers>(
    alloc: Global,
    predefined: &P,
    entries: &mut KeptEntries,
    unit: &UnitKey,
    compared: &mut usize,
) -> Result<(), NoMemory>
    requires unmoved { has_moved entries.old unit.now ≡ false }
    requires there { is_some (at_unit entries.old unit.now) ≡ true }
    ensures turned { OnOk result (Turned (P.table predefined.now) leaving unit.now entries.old entries.new) }
    ensures compared { IsCompared entries.old compared.old → OnOk result (IsCompared entries.new compared.new) }
    ensures left { IsLeft entries.old entries.new }
{
    entries.leave(unit)?;
    compare(alloc, predefined, entries, unit, compared)
}
