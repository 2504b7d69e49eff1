// Why a build checks a unit, or doesn't.
ghost use Rattle.std.specs.Prelude.{◌≡◌, Some, None, IfOk, IfSome, MatchOption, slice_get};
ghost use Rattle.std.specs.Option.{option_copied};
ghost use Rattle.al_query_store.specs.Keyed.{entry_of, settled_at};
ghost use Rattle.al_query_store.specs.Marking.{MarksTell};
ghost use Rattle.al_engine_refresh.specs.Builds.{text_of};
ghost use Rattle.al_engine_refresh.specs.Moving.{MarksFollow, now_table};
ghost use Rattle.al_engine_refresh.specs.Stored.{log_of};
ghost use Rattle.al_engine.specs.Reasons.{AreReasons, IsFirstSet, IsReason};

use al_base::{NoMemory, UnitKey};
use al_engine_refresh::{Entry, KeptEntries, Present, text_of};
use al_query::{Answer, Answers, Query, ReadLog};
use al_query_store::{Held, Marks};
use al_unit_graph::Sources;
use std::alloc::Global;

/// A question that the last check of a unit asked, with the answer that it had and the one of now.
pub struct Change {
    pub query: Query,
    pub before: Answer,
    pub now: Answer,
}

impl Drop for Change {
    fn drop(self) {
        let Change {
            query: _,
            before: _,
            now: _,
        } = self;
    }
}

/// Why a unit is checked, or that it needn't be.
pub enum Reason {
    /// It has no entry.
    New,
    /// Its entry is for another source.
    Text,
    /// Its entry is for its source; this is the first of its answers that differs now.
    Answered(Change),
    /// Its entry is for its source, and none of its answers differs now. There are so many.
    Current(usize),
}

impl Drop for Reason {
    fn drop(self) {
        match self {
            Reason::New => {}
            Reason::Text => {}
            Reason::Answered(_) => {}
            Reason::Current(_) => {}
        }
    }
}

/// The place of the first answer that differs now, among the first `count`.
fn first_of(marks: &Marks, count: usize) -> Option<usize>
    ensures { IsFirstSet marks.entry.now.now count result }
{
    for at in 0..count {
        if marks.is_now(at, true) {
            return Some(at);
        }
    }
    None
}

/// What was asked at a place of a log, with the answer of then and that of now.
fn change_at<A: Answers>(
    alloc: Global,
    log: &ReadLog,
    at: usize,
    asked: &A,
) -> Result<Option<Change>, NoMemory>
    ensures { IfOk result (λ found. MatchOption found (slice_get log.now at ≡ None) (λ c. (slice_get log.now at ≡ Some (c.query, c.before)) × (c.now ≡ A.table asked.now c.query))) }
{
    let Some(read) = log.at(at) else {
        return Ok(None);
    };
    let (query, before) = read;
    Ok(Some(Change {
        query: query.copy(alloc)?,
        before: before.share()?,
        now: asked.ask(query)?,
    }))
}

/// Whether an entry for its source needn't be checked, or else which answer differs first.
fn changed<A: Answers>(alloc: Global, held: &Held<Entry>, asked: &A) -> Result<Reason, NoMemory>
    requires { MarksTell (A.table asked.now) (log_of held.now.entry) held.now.marks.now }
    ensures { IfOk result (λ reason. IsReason (A.table asked.now) held.now.entry.text (Some held.now.entry) reason) }
{
    let log = held.entry.log();
    let count = log.len();
    let Some(at) = first_of(&held.marks, count) else {
        return Ok(Reason::Current(count));
    };
    match change_at(alloc, log, at, asked)? {
        Some(change) => Ok(Reason::Answered(change)),
        None => Ok(Reason::Current(count)),
    }
}

/// Why a unit with this source is checked if this is what is held of it, or that it needn't be. What is held has marks that say which of its answers
/// differ from those that can be asked.
///
/// # Errors
///
/// `NoMemory` if the allocator refuses memory.
pub fn reason_of<A: Answers>(
    alloc: Global,
    held: Option<&Held<Entry>>,
    text: &[u8],
    asked: &A,
) -> Result<Reason, NoMemory>
    requires { IfSome held (λ h. MarksTell (A.table asked.now) (log_of h.now.entry) h.now.marks.now) }
    ensures { IfOk result (λ reason. IsReason (A.table asked.now) text.now (entry_of (option_copied held.entry)) reason) }
{
    let Some(held) = held else {
        return Ok(Reason::New);
    };
    if held.entry.text() != text {
        return Ok(Reason::Text);
    }
    changed(alloc, held, asked)
}

/// Why a unit of a library is checked, or that it needn't be.
fn reason_at<P: Answers>(
    alloc: Global,
    predefined: &P,
    sources: &Sources,
    entries: &KeptEntries,
    unit: &UnitKey,
) -> Result<Reason, NoMemory>
    requires { MarksFollow (P.table predefined.now) entries.now }
    ensures { IfOk result (λ reason. IsReason (now_table (P.table predefined.now) entries.now) (text_of sources.now unit.now) (settled_at entries.now unit.now) reason) }
{
    let text = text_of(alloc, sources, unit)?;
    let asked = Present {
        alloc,
        predefined,
        entries,
    };
    reason_of(alloc, entries.settled(unit), text.as_slice(), &asked)
}

/// Why each of these units of a library is checked, in their order.
///
/// # Errors
///
/// `NoMemory` if the allocator refuses memory.
pub fn reasons_of<P: Answers>(
    alloc: Global,
    predefined: &P,
    sources: &Sources,
    entries: &KeptEntries,
    units: &[UnitKey],
) -> Result<Vec<Reason>, NoMemory>
    requires { MarksFollow (P.table predefined.now) entries.now }
    ensures { IfOk result (λ reasons. AreReasons (now_table (P.table predefined.now) entries.now) sources.now (settled_at entries.now) units.now reasons.items) }
{
    let mut reasons = Vec::with_capacity(alloc, units.len())?;
    for unit in units {
        reasons.push(reason_at(alloc, predefined, sources, entries, unit)?)?;
    }
    Ok(reasons)
}
