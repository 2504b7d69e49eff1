// The current answers during a build.
ghost use Rattle.std.specs.Prelude.{◌≡◌, IfOk, map};
ghost use Rattle.std.specs.List.{list_all};
ghost use Rattle.std.specs.Option.{option_copied, option_map};
ghost use Rattle.al_base.specs.Batch.{key_of};
ghost use Rattle.al_query.specs.Known.{has_unit, predefined_units};
ghost use Rattle.al_unit_graph.specs.Library.{source_at};
ghost use Rattle.al_query_store.specs.Keyed.{now_at};
ghost use Rattle.al_query_outcome.specs.Equations.{entry, is_sound};
ghost use Rattle.al_engine_refresh.specs.Stored.{outcome_of};
ghost use Rattle.al_engine_refresh.specs.Builds.{has_sound_dependences, present, results_of, text_of};

use crate::{Entry, KeptEntries};
use al_base::{NoMemory, UnitKey};
use al_query::{Answer, Answers, Query};
use al_query_outcome::{Checked, no_answer};
use al_unit_graph::Sources;
use std::alloc::Global;
use std::rc::Rc;

/// The answers of the predefined units, and of the units that are reached now.
pub struct Present<'a, P: Answers> {
    /// The allocator of answers.
    pub alloc: Global,
    /// The predefined units.
    pub predefined: &'a P,
    /// The entries so far.
    pub entries: &'a KeptEntries,
}

impl<'a, P: Answers> Drop for Present<'a, P> {
    fn drop(self) {
        let Present {
            alloc: _,
            predefined: _,
            entries: _,
        } = self;
    }
}

impl<P: Answers> Answers for Present<'_, P> {
    ghost table = { λ p. present (P.table p.predefined.now) (results_of (now_at p.entries.now)) };

    fn ask(&self, query: &Query) -> Result<Answer, NoMemory> {
        if is_predefined(query.unit()) {
            return self.predefined.ask(query);
        }
        match self.entries.get(query.unit()) {
            Some(entry) => entry.answer(self.alloc, query),
            None => no_answer(self.alloc, query),
        }
    }
}

/// Whether a unit is predefined (ARM A.2).
pub(crate) fn is_predefined(unit: &UnitKey) -> bool
    ensures { result ≡ has_unit predefined_units unit.now }
{
    let is_declaration = unit.kind == al_base::UnitKind::Decl;
    let name = unit.name.as_slice();
    is_declaration
        && (name == b"standard".as_slice()
            || name == b"ada".as_slice()
            || name == b"ada.text_io".as_slice()
            || name == b"ada.real_time".as_slice())
}

/// Whether there is an entry, and it has no errors.
fn is_sound(held: Option<&Entry>) -> bool
    ensures { result ≡ is_sound (option_map outcome_of (option_copied held.entry)) }
{
    match held {
        Some(entry) => match entry.checked() {
            Checked::Faulty(_) => false,
            Checked::Sound(_, _) => true,
        },
        None => false,
    }
}

/// Whether a unit has a current entry without errors.
pub fn has_sound(entries: &KeptEntries, unit: &UnitKey) -> bool
    ensures { result ≡ is_sound (results_of (now_at entries.now) unit.now) }
{
    is_sound(entries.get(unit))
}

/// Whether each of these units has a current entry without errors.
fn all_sound(entries: &KeptEntries, units: &[UnitKey]) -> bool
    ensures { result ≡ list_all (λ u. is_sound (results_of (now_at entries.now) u)) units.now }
{
    units.iter().all(|unit| has_sound(entries, unit))
}

/// Whether each unit that this unit depends on directly has a current entry without errors.
pub(crate) fn rests_on_sound(
    sources: &Sources,
    entries: &KeptEntries,
    unit: &UnitKey,
) -> Result<bool, NoMemory>
    ensures { IfOk result (λ rests. rests ≡ has_sound_dependences sources.now (results_of (now_at entries.now)) unit.now) }
{
    let units = sources.direct(unit)?;
    Ok(all_sound(entries, units.as_slice()))
}

/// The source in a unit's file, shared; no bytes if it has no file.
///
/// # Errors
///
/// `NoMemory` if the allocator refuses memory.
pub fn text_of(alloc: Global, sources: &Sources, unit: &UnitKey) -> Result<Rc<Vec<u8>>, NoMemory>
    ensures { IfOk result (λ text. text.value.items ≡ text_of sources.now unit.now) }
{
    let file = al_base::file_name_of(alloc, unit)?;
    match sources.source_at(file.as_slice()) {
        Some(source) => Ok(source.text.clone()?),
        None => Ok(Rc::new(alloc, Vec::new(alloc))?),
    }
}
