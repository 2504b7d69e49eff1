// One unit of a build.
ghost use Rattle.std.specs.Prelude.{◌≡◌, ◌∷◌, ◌++◌, ◌↔◌, [], true, false, IfOk, IsTrue, OnOk, List, is_some};
ghost use Rattle.al_base.specs.declared.unit_key.UnitKey.{UnitKey};
ghost use Rattle.al_query.specs.Known.{has_unit};
ghost use Rattle.al_query.specs.declared.answer.AnswerKind.{AnswerKind};
ghost use Rattle.al_query.specs.declared.query.Query.{Query};
ghost use Rattle.al_base_shortage.specs.Counts.{one_more};
ghost use Rattle.al_view.specs.Symbols.{same_unit};
ghost use Rattle.al_query_store.specs.Marking.{MarksTell};
ghost use Rattle.al_query_store.specs.Changes.{AreMarkedNow, with_made};
ghost use Rattle.al_query_store.specs.Keyed.{base_state, now_at, settled_at, state};
ghost use Rattle.al_engine_refresh.specs.EntryLaw.{HasCurrent, IsCurrent, KeepsLaw};
ghost use Rattle.al_engine_refresh.specs.Stored.{Stored, log_of};
ghost use Rattle.al_engine_refresh.specs.Moves.{IsLeft, has_moved};
ghost use Rattle.al_engine_refresh.specs.Builds.{has_sound_dependences, results_of, text_of};
ghost use Rattle.al_engine_refresh.specs.Handling.{Handled, within};
ghost use Rattle.al_engine_refresh.specs.Moving.{IsCompared, IsSteady, MarksFollow, Turned, now_table};

use crate::moving::{add_made, turn};
use crate::present::{Present, rests_on_sound, text_of};
use crate::{Entry, KeptEntries};
use al_base::{NoMemory, UnitKey};
use al_query::{Answers, Recorder};
use al_query_outcome::{ReadText, UnitCheck};
use al_query_store::Held;
use al_query_store::slots_laws::marks_are_tests;
use al_unit_graph::Sources;
use al_view::{Seq, copied_unit};
use std::alloc::Global;
use std::rc::Rc;

/// Whether an entry may be used again: it is for this source, and none of its current marks is set. No question is asked.
fn may_be_used(held: &Held<Entry>, text: &[u8]) -> bool
    ensures { (t : Query → AnswerKind) → MarksTell t (log_of held.now.entry) held.now.marks.now → IsTrue result ↔ IsCurrent held.now.entry text.now t }
{
    marks_are_tests();
    if held.entry.text() != text {
        return false;
    }
    !held.marks.any()
}

/// Whether the settled entry of a unit may be used again: it is for this source, and none of its answers differs now.
fn has_current(entries: &KeptEntries, unit: &UnitKey, text: &[u8]) -> bool
    ensures current { (t : Query → AnswerKind) → AreMarkedNow log_of t entries.now → IsTrue result ↔ HasCurrent (settled_at entries.now unit.now) text.now t }
    ensures there { IsTrue result → is_some (state entries.now unit.now).settled ≡ true }
{
    match entries.settled(unit) {
        Some(held) => may_be_used(held, text),
        None => false,
    }
}

/// A new entry of a unit whose source was parsed, by a check that asks these answers.
fn check_read<C: UnitCheck, A: Answers + Drop>(
    alloc: Global,
    checker: &mut C,
    unit: &UnitKey,
    text: Rc<Vec<u8>>,
    read: &C::Text,
    asked: A,
) -> Result<Entry, NoMemory>
    requires { C.Text.text read.now ≡ text.value.items }
    ensures keeps { IfOk result (λ entry. KeepsLaw C.meaning C.Text.header unit.now entry) }
    ensures current { IfOk result (λ entry. IsCurrent entry text.value.items (A.table asked)) }
    ensures counted { OnOk result (C.count checker.new ≡ one_more (C.count checker.old)) }
{
    let mut recorder = Recorder::new(alloc, asked);
    let checked = checker.check(alloc, unit, read, &mut recorder)?;
    let log = recorder.into_log();
    Entry::new(alloc, text, log, checked)
}

/// A new entry of a unit with this source, which is parsed for it, by a check that asks these answers.
///
/// # Errors
///
/// `NoMemory` if the allocator refuses memory.
fn check_unit<C: UnitCheck, A: Answers + Drop>(
    alloc: Global,
    checker: &mut C,
    unit: &UnitKey,
    text: Rc<Vec<u8>>,
    asked: A,
) -> Result<Entry, NoMemory>
    ensures keeps { IfOk result (λ entry. KeepsLaw C.meaning C.Text.header unit.now entry) }
    ensures current { IfOk result (λ entry. IsCurrent entry text.value.items (A.table asked)) }
    ensures counted { OnOk result (C.count checker.new ≡ one_more (C.count checker.old)) }
{
    let read = C::Text::read(alloc, text.clone()?)?;
    check_read(alloc, checker, unit, text, &read, asked)
}

/// A new entry of a unit with this source, by the answers of the units that are reached now.
fn check_now<C: UnitCheck, P: Answers>(
    alloc: Global,
    checker: &mut C,
    predefined: &P,
    unit: &UnitKey,
    text: Rc<Vec<u8>>,
    entries: &KeptEntries,
) -> Result<Entry, NoMemory>
    ensures keeps { IfOk result (λ entry. KeepsLaw C.meaning C.Text.header unit.now entry) }
    ensures current { IfOk result (λ entry. IsCurrent entry text.value.items (now_table (P.table predefined.now) entries.now)) }
    ensures counted { OnOk result (C.count checker.new ≡ one_more (C.count checker.old)) }
{
    let asked = Present {
        alloc,
        predefined,
        entries,
    };
    check_unit(alloc, checker, unit, text, asked)
}

/// The units that a build has checked so far, in its order, and how many stored answers it has compared.
pub struct Done {
    /// The units that were checked.
    pub checked: Seq<UnitKey>,
    /// The number of stored answers that were compared.
    pub compared: usize,
}

impl Drop for Done {
    fn drop(self) {
        let Done {
            checked: _,
            compared: _,
        } = self;
    }
}

impl Done {
    /// The units that were checked, and how many stored answers were compared.
    pub fn into_parts(self) -> (Seq<UnitKey>, usize)
        ensures { result ≡ (self.checked, self.compared) }
    {
        let Done { checked, compared } = self;
        (checked, compared)
    }
}

/// Checks a unit again if all that it depends on is without errors, and holds the entry that is made of it.
///
/// # Errors
/// `NoMemory` if the allocator refuses memory.
pub fn check_anew<C: UnitCheck, P: Answers>(
    alloc: Global,
    checker: &mut C,
    predefined: &P,
    unit: &UnitKey,
    text: Rc<Vec<u8>>,
    entries: &mut KeptEntries,
    done: &mut Done,
) -> Result<(), NoMemory>
    requires { has_moved entries.old unit.now ≡ false }
    ensures made { OnOk result ((e : Stored) × KeepsLaw C.meaning C.Text.header unit.now e × IsCurrent e text.value.items (now_table (P.table predefined.now) entries.old) × Turned (P.table predefined.now) (with_made log_of e) unit.now entries.old entries.new) }
    ensures checked { OnOk result (done.new.checked ≡ done.old.checked ++ unit.now ∷ []) }
    ensures counted { OnOk result (C.count checker.new ≡ one_more (C.count checker.old)) }
    ensures compared { IsCompared entries.old done.old.compared → OnOk result (IsCompared entries.new done.new.compared) }
    ensures left { IsLeft entries.old entries.new }
{
    done.checked.push(copied_unit(alloc, unit)?)?;
    let entry = check_now(alloc, checker, predefined, unit, text, entries)?;
    add_made(alloc, predefined, entries, unit, entry, &mut done.compared)
}

/// Brings one unit up to date: it isn't reached, or its entry is used again, or it is checked. If it moved by that, the stored answers to its
/// questions are compared.
/// - `handled`: what becomes of it, among the units that are done.
/// - `marks`: the current marks say which stored answers differ.
/// - `steady`: an entry was made of it if, and only if, it was checked.
/// - `compared`: the stored answers that were compared are those to its questions, if it moved.
pub(crate) fn refresh_unit<C: UnitCheck, P: Answers>(
    alloc: Global,
    checker: &mut C,
    predefined: &P,
    sources: &Sources,
    unit: &UnitKey,
    entries: &mut KeptEntries,
    done: &mut Done,
) -> Result<(), NoMemory>
    requires { has_moved entries.old unit.now ≡ false }
    ensures handled { (before : List UnitKey) → has_unit before unit.now ≡ false → MarksFollow (P.table predefined.now) entries.old → OnOk result (Handled C.meaning C.Text.header unit.now (text_of sources.now unit.now) (has_sound_dependences sources.now (results_of (now_at entries.old)) unit.now) (now_table (P.table predefined.now) entries.old) (settled_at entries.old unit.now) (record { at = within before (now_at entries.old); checked = done.old.checked; count = C.count checker.old }) (record { at = within (before ++ unit.now ∷ []) (now_at entries.new); checked = done.new.checked; count = C.count checker.new })) }
    ensures marks { MarksFollow (P.table predefined.now) entries.old → OnOk result (MarksFollow (P.table predefined.now) entries.new) }
    ensures others { OnOk result ((u : UnitKey) → same_unit unit.now u ≡ false → base_state (state entries.new u) ≡ base_state (state entries.old u)) }
    ensures steady { IsSteady sources.now done.old.checked entries.old → OnOk result (IsSteady sources.now done.new.checked entries.new) }
    ensures compared { IsCompared entries.old done.old.compared → OnOk result (IsCompared entries.new done.new.compared) }
    ensures left { IsLeft entries.old entries.new }
{
    if !rests_on_sound(sources, entries, unit)? {
        return turn(alloc, predefined, entries, unit, false, &mut done.compared);
    }
    let text = text_of(alloc, sources, unit)?;
    if has_current(entries, unit, text.as_slice()) {
        return turn(alloc, predefined, entries, unit, true, &mut done.compared);
    }
    check_anew(alloc, checker, predefined, unit, text, entries, done)
}
