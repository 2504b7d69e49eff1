// All units of a build, in an order of dependence.
ghost use Rattle.std.specs.Prelude.{◌≡◌, ◌++◌, [], ℕ, Bool, true, false, IfOk, List, None, OnOk, length};
ghost use Rattle.std.specs.List.{IsDistinct};
ghost use Rattle.al_base.specs.declared.unit_key.UnitKey.{UnitKey};
ghost use Rattle.al_view.specs.Symbols.{same_unit};
ghost use Rattle.al_query.specs.Known.{has_unit};
ghost use Rattle.al_query_outcome.specs.Equations.{IsSetting};
ghost use Rattle.al_query_store.specs.Keyed.{now_at, settled_at};
ghost use Rattle.al_engine_refresh.specs.EntryLaw.{AllKeepLaw};
ghost use Rattle.al_engine_refresh.specs.Moves.{AreQuiet, IsLeft, has_moved};
ghost use Rattle.al_engine_refresh.specs.Staying.{is_there};
ghost use Rattle.al_engine_refresh.specs.Builds.{IsBuilt, IsOrder, raised, setting};
ghost use Rattle.al_engine_refresh.specs.Handling.{within};
ghost use Rattle.al_engine_refresh.specs.Moving.{IsCompared, IsSteady, MarksFollow};
ghost use Rattle.al_engine_refresh.specs.Progress.{Progress};

use crate::KeptEntries;
use crate::leaving::leave_out;
use crate::unit::{Done, refresh_unit};
use al_base::{NoMemory, UnitKey};
use al_query::Answers;
use al_query_outcome::UnitCheck;
use al_unit_graph::Sources;
use al_view::Seq;
use std::alloc::Global;

/// Nothing is done yet.
pub fn begun(alloc: Global) -> Done
    ensures { result ≡ record { checked = []; compared = 0 } }
{
    Done {
        checked: Seq::empty(alloc),
        compared: 0,
    }
}

/// Brings the rest of a library's units up to date, in an order of dependence, after those in `done`. If a unit is reached, and its source and all
/// its answers are as they were, its settled entry is used again; else it is checked, and an entry is made of it. Settled entries stay as they are.
/// - `built`: if the units in `done` are as a build of the whole order leaves them, all units are.
/// - `counted`: the checker's count grows by the number of units checked.
/// - `marks`: the current marks say which stored answers differ from current ones.
/// - `compared`: the stored answers that were compared are those to questions of units that moved.
/// - `steady`: an entry was made of each unit that was checked, and of no other; units that aren't in the library leave.
///
/// # Errors
///
/// `NoMemory` if the allocator refuses memory; some of the units may be up to date then.
pub fn refresh_rest<C: UnitCheck, P: Answers>(
    alloc: Global,
    checker: &mut C,
    predefined: &P,
    sources: &Sources,
    rest: &[UnitKey],
    entries: &mut KeptEntries,
    done: &mut Done,
) -> Result<(), NoMemory>
    requires marks { MarksFollow (P.table predefined.now) entries.old }
    requires once { IsDistinct same_unit rest.now }
    requires unmoved { (u : UnitKey) → has_unit rest.now u ≡ true → has_moved entries.old u ≡ false }
    ensures built { (before : List UnitKey) (is_faultless : UnitKey → Bool) → let s = setting C.Text.header sources.now is_faultless (P.table predefined.now) in (is : IsSetting s) → IsOrder s is.rank (before ++ rest.now) → AllKeepLaw C.meaning C.Text.header (settled_at entries.old) → Progress C.meaning C.Text.header sources.now is_faultless (P.table predefined.now) is (settled_at entries.old) (within before (now_at entries.old)) before rest.now done.old.checked → ((u : UnitKey) → has_unit (before ++ rest.now) u ≡ false → now_at entries.old u ≡ None) → OnOk result (IsBuilt C.meaning C.Text.header s (settled_at entries.old) (now_at entries.new) (before ++ rest.now) done.new.checked) }
    ensures counted { (n : ℕ) → C.count checker.old ≡ raised n (length done.old.checked) → OnOk result (C.count checker.new ≡ raised n (length done.new.checked)) }
    ensures marks { OnOk result (MarksFollow (P.table predefined.now) entries.new) }
    ensures compared { IsCompared entries.old done.old.compared → OnOk result (IsCompared entries.new done.new.compared) }
    ensures steady { IsSteady sources.now done.old.checked entries.old → OnOk result (IsSteady sources.now done.new.checked entries.new) }
    ensures left { IsLeft entries.old entries.new }
{
    for unit in rest {
        refresh_unit(alloc, checker, predefined, sources, unit, entries, done)?;
    }
    Ok(())
}

/// Brings the units of a library up to date, in an order of dependence. If a unit is reached, and its source and all its answers are as they were,
/// its settled entry is used again; else it is checked, and an entry is made of it. Settled entries stay as they are.
/// - `built`: the outcomes are the one map that solves the library's equations, whatever the settled entries are that keep the law. A unit is
///   checked if, and only if, it is reached and has no settled entry for its source, or one with an answer that differs now.
/// - `counted`: the checker's count grows by the number of units checked.
/// - `marks`: the current marks say which stored answers differ from current ones.
/// - `compared`: the stored answers that were compared are those to questions of units that moved.
/// - `steady`: an entry was made of each unit that was checked, and of no other; units that aren't in the library leave.
///
/// # Errors
/// `NoMemory` if the allocator refuses memory.
pub fn refresh<C: UnitCheck, P: Answers>(
    alloc: Global,
    checker: &mut C,
    predefined: &P,
    sources: &Sources,
    order: &[UnitKey],
    entries: &mut KeptEntries,
) -> Result<Done, NoMemory>
    requires quiet { AreQuiet entries.old }
    requires marks { MarksFollow (P.table predefined.now) entries.old }
    requires once { IsDistinct same_unit order.now }
    requires there { (u : UnitKey) → has_unit order.now u ≡ true → is_there sources.now u ≡ true }
    ensures built { (is_faultless : UnitKey → Bool) → let s = setting C.Text.header sources.now is_faultless (P.table predefined.now) in (is : IsSetting s) → IsOrder s is.rank order.now → AllKeepLaw C.meaning C.Text.header (settled_at entries.old) → IfOk result (λ r. IsBuilt C.meaning C.Text.header s (settled_at entries.old) (now_at entries.new) order.now r.checked) }
    ensures counted { IfOk result (λ r. C.count checker.new ≡ raised (C.count checker.old) (length r.checked)) }
    ensures marks { OnOk result (MarksFollow (P.table predefined.now) entries.new) }
    ensures compared { IfOk result (λ r. IsCompared entries.new r.compared) }
    ensures steady { IfOk result (λ r. IsSteady sources.now r.checked entries.new) }
    ensures left { IsLeft entries.old entries.new }
{
    let _before = checker.checks();
    let mut done = begun(alloc);
    leave_out(
        alloc,
        predefined,
        sources,
        order,
        entries,
        &mut done.compared,
    )?;
    refresh_rest(
        alloc, checker, predefined, sources, order, entries, &mut done,
    )?;
    Ok(done)
}
