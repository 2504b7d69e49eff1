// A build over the parts of a library.
ghost use Rattle.std.specs.Prelude.{◌≡◌, IfOk, IfSome, OnErr, OnOk, length, map};
ghost use Rattle.al_base.specs.Batch.{key_of};
ghost use Rattle.al_unit_graph.specs.Traces.{AreReadAlike};
ghost use Rattle.al_unit_faults.specs.Obsolete.{obsolete_of};
ghost use Rattle.al_engine.specs.Gave.{files_reported};
ghost use Rattle.al_query_store.specs.Keyed.{SameStates, settled_at};
ghost use Rattle.al_engine_refresh.specs.Moves.{IsLeft};
ghost use Rattle.al_engine_refresh.specs.Builds.{raised};
ghost use Rattle.al_engine.specs.GraphGraphs.{HaveSameHeaders};
ghost use Rattle.al_engine.specs.Kept.{IsGraphOf};
ghost use Rattle.al_engine.specs.Texts.{HaveTextsBut};
ghost use Rattle.al_engine_refresh.specs.Settings.{ArePredefined};
ghost use Rattle.al_engine.specs.Rechecks.{AreReady, setting_of};
ghost use Rattle.al_engine.specs.Batches.{IsCompiled};
ghost use Rattle.al_engine.specs.Patches.{IsPatched, linked_in};
ghost use Rattle.al_engine.specs.Prepared.{IsPrepared};
ghost use Rattle.al_engine.specs.Rebuilds.{IsKept, IsRebuilt};
ghost use Rattle.al_engine.specs.Graphs.{AreElaborations};
ghost use Rattle.al_engine.specs.States.{AreReadFor, IsSettledBy};

use crate::edits::edited_now;
use crate::graphs::{alike, graph_now, main_of, order_now, orders_now};
use crate::last_build::LastBuild;
use crate::orders::KnownOrder;
use crate::read_files::ReadFiles;
use crate::rebuild_laws::rebuilds_are_compiled;
use crate::{
    Compiled, Edited, PreparedBuild, Rebuilt, Standing, UnitCache, UnitGraph, files_reported,
    prepare,
};
use al_base::{Files, Name, NoMemory, UnitKey};
use al_query::Answers;
use al_query_outcome::UnitCheck;
use al_unit_faults::obsolete;
use std::alloc::Global;
use std::rc::Rc;

/// A build that is done except for its image, with the graph of its units and orders of elaboration.
#[derive(Drop)]
struct Begun {
    graph: Rc<UnitGraph>,
    orders: Vec<Rc<KnownOrder>>,
    prepared: PreparedBuild,
}

/// Begins a build of files that are read. `gave` is what the last build gave. The graph of the units and the order of elaboration are taken over from
/// it if the headers are known to be the same. If only `edited` files have other sources, the units are checked after the first of them that gives
/// somebody another answer, and no other unit is looked at.
fn begin<R: ReadFiles, C: UnitCheck, P: Answers>(
    alloc: Global,
    cache: &mut UnitCache<C>,
    predefined: &P,
    last: &Option<LastBuild<R>>,
    gave: &Rebuilt,
    read: &R,
    edited: Option<Edited>,
    main: &[u8],
) -> Result<Begun, NoMemory>
    requires reading { AreReadFor C.Text.header R.library }
    requires predefined { ArePredefined (P.table predefined.now) }
    requires last { IfSome last.now (λ b. IsGraphOf (R.library (R.files b.read)) b.graph.value × AreElaborations (R.library (R.files b.read)) (map (λ o. o.value) b.orders.items)) }
    requires ready { AreReady (P.table predefined.now) cache.old.store }
    requires settled { IfSome last.now (λ b. IsSettledBy C.meaning C.Text.header (P.table predefined.now) R.library cache.old.store (record { files = R.files b.read; main = b.main; gave = gave.now })) }
    requires edited { IfSome edited (λ e. IfSome last.now (λ b. HaveSameHeaders (R.library (R.files b.read)) (R.library (R.files read.now)) × HaveTextsBut (R.library (R.files b.read)) (R.library (R.files read.now)) e)) }
    ensures graph { IfOk result (λ b. IsGraphOf (R.library (R.files read.now)) b.graph.value) }
    ensures orders { IfOk result (λ b. AreElaborations (R.library (R.files read.now)) (map (λ o. o.value) b.orders.items)) }
    ensures prepared { IfOk result (λ b. IsPrepared C.meaning C.Text.header (P.table predefined.now) (R.library (R.files read.now)) main.now gave.now cache.old.store b.prepared.base b.prepared.planned cache.new.store b.prepared.checked.items b.prepared.reasons.items b.prepared.compared) }
    ensures counted { IfOk result (λ b. C.count cache.new.checker ≡ raised (C.count cache.old.checker) (length b.prepared.checked.items)) }
    ensures left { IsLeft cache.old.store cache.new.store }
{
    let found = alike(alloc, read, last, edited);
    let (same, edited) = found;
    let graph = graph_now(alloc, read, same)?;
    let order = order_now(main, read, same);
    let known = edited_now(alloc, cache, predefined, read, same, &edited, gave)?;
    let (edits, is_clean) = known;
    let standing = Standing {
        is_clean,
        main: main_of(same),
    };
    let sources = read.sources();
    let prepared = prepare(
        alloc, cache, predefined, sources, main, &graph, order, &edits, standing, gave,
    )?;
    let orders = orders_now(alloc, main, read, same, order.is_some(), &prepared.planned)?;
    Ok(Begun {
        graph,
        orders,
        prepared,
    })
}

/// Builds a main unit of files that are read, over the entries of units and what the last build gave. `edited` says, if it is known, which sources
/// differ from those of that build.
fn build_read<R: ReadFiles, C: UnitCheck, P: Answers>(
    alloc: Global,
    cache: &mut UnitCache<C>,
    predefined: &P,
    last: &Option<LastBuild<R>>,
    gave: &mut Rebuilt,
    read: R,
    edited: Option<Edited>,
    main: &[u8],
) -> Result<LastBuild<R>, NoMemory>
    requires reading { AreReadFor C.Text.header R.library }
    requires predefined { ArePredefined (P.table predefined.now) }
    requires last { IfSome last.now (λ b. IsGraphOf (R.library (R.files b.read)) b.graph.value × AreElaborations (R.library (R.files b.read)) (map (λ o. o.value) b.orders.items)) }
    requires ready { AreReady (P.table predefined.now) cache.old.store }
    requires settled { IfSome last.now (λ b. IsSettledBy C.meaning C.Text.header (P.table predefined.now) R.library cache.old.store (record { files = R.files b.read; main = b.main; gave = gave.old })) }
    requires edited { IfSome edited (λ e. IfSome last.now (λ b. HaveSameHeaders (R.library (R.files b.read)) (R.library (R.files read)) × HaveTextsBut (R.library (R.files b.read)) (R.library (R.files read)) e)) }
    ensures files { IfOk result (λ b. R.files b.read ≡ R.files read) }
    ensures graph { IfOk result (λ b. IsGraphOf (R.library (R.files b.read)) b.graph.value) }
    ensures orders { IfOk result (λ b. AreElaborations (R.library (R.files b.read)) (map (λ o. o.value) b.orders.items)) }
    ensures main { IfOk result (λ b. b.main ≡ main.now) }
    ensures rebuilt { OnOk result ((is : IsRebuilt C.meaning C.Text.header (P.table predefined.now) (R.library (R.files read)) main.now (settled_at cache.old.store) (settled_at cache.new.store) gave.new) × IsKept (P.table predefined.now) (R.library (R.files read)) cache.old.store cache.new.store is.made gave.new) }
    ensures right { IfOk result (λ b. IsCompiled C.meaning (setting_of C.Text.header (P.table predefined.now) (R.library (R.files b.read))) b.main gave.new.compiled) }
    ensures counted { OnOk result (C.count cache.new.checker ≡ raised (C.count cache.old.checker) (length gave.new.checked)) }
    ensures patched { OnOk result (IsPatched (linked_in gave.old.compiled) (linked_in gave.new.compiled) gave.new.patched) }
    ensures err { OnErr result (IsLeft cache.old.store cache.new.store × (gave.new ≡ gave.old)) }
{
    rebuilds_are_compiled();
    let name = Name::from_slice(alloc, main)?;
    let begun = begin(alloc, cache, predefined, last, gave, &read, edited, main)?;
    let Begun {
        graph,
        orders,
        prepared,
    } = begun;
    prepared.finish(alloc, cache, gave)?;
    Ok(LastBuild {
        read,
        graph,
        main: name,
        orders,
    })
}

/// Builds a main unit as [`build_read`] does. If the allocator refuses memory, the entries are as before.
///
/// # Errors
///
/// `NoMemory` if the allocator refuses memory.
pub(crate) fn build_or_cancel<R: ReadFiles, C: UnitCheck, P: Answers>(
    alloc: Global,
    cache: &mut UnitCache<C>,
    predefined: &P,
    last: &Option<LastBuild<R>>,
    gave: &mut Rebuilt,
    read: R,
    edited: Option<Edited>,
    main: &[u8],
) -> Result<LastBuild<R>, NoMemory>
    requires reading { AreReadFor C.Text.header R.library }
    requires predefined { ArePredefined (P.table predefined.now) }
    requires last { IfSome last.now (λ b. IsGraphOf (R.library (R.files b.read)) b.graph.value × AreElaborations (R.library (R.files b.read)) (map (λ o. o.value) b.orders.items)) }
    requires ready { AreReady (P.table predefined.now) cache.old.store }
    requires settled { IfSome last.now (λ b. IsSettledBy C.meaning C.Text.header (P.table predefined.now) R.library cache.old.store (record { files = R.files b.read; main = b.main; gave = gave.old })) }
    requires edited { IfSome edited (λ e. IfSome last.now (λ b. HaveSameHeaders (R.library (R.files b.read)) (R.library (R.files read)) × HaveTextsBut (R.library (R.files b.read)) (R.library (R.files read)) e)) }
    ensures files { IfOk result (λ b. R.files b.read ≡ R.files read) }
    ensures graph { IfOk result (λ b. IsGraphOf (R.library (R.files b.read)) b.graph.value) }
    ensures orders { IfOk result (λ b. AreElaborations (R.library (R.files b.read)) (map (λ o. o.value) b.orders.items)) }
    ensures main { IfOk result (λ b. b.main ≡ main.now) }
    ensures rebuilt { OnOk result ((is : IsRebuilt C.meaning C.Text.header (P.table predefined.now) (R.library (R.files read)) main.now (settled_at cache.old.store) (settled_at cache.new.store) gave.new) × IsKept (P.table predefined.now) (R.library (R.files read)) cache.old.store cache.new.store is.made gave.new) }
    ensures right { IfOk result (λ b. IsCompiled C.meaning (setting_of C.Text.header (P.table predefined.now) (R.library (R.files b.read))) b.main gave.new.compiled) }
    ensures counted { OnOk result (C.count cache.new.checker ≡ raised (C.count cache.old.checker) (length gave.new.checked)) }
    ensures patched { OnOk result (IsPatched (linked_in gave.old.compiled) (linked_in gave.new.compiled) gave.new.patched) }
    ensures err { OnErr result (SameStates cache.old.store cache.new.store × (gave.new ≡ gave.old)) }
{
    match build_read(alloc, cache, predefined, last, gave, read, edited, main) {
        Ok(last) => Ok(last),
        Err(NoMemory) => {
            cache.cancel();
            Err(NoMemory)
        }
    }
}

/// The units of the present files that are obsolete since the last build.
///
/// # Errors
///
/// `NoMemory` if the allocator refuses memory.
pub(crate) fn obsolete_since<R: ReadFiles>(
    alloc: Global,
    last: &LastBuild<R>,
    gave: &Compiled,
    now: &Files,
) -> Result<Vec<UnitKey>, NoMemory>
    requires { AreReadAlike (R.library (R.files last.now.read)) (R.library now.now) }
    ensures { IfOk result (λ units. map key_of units.items ≡ obsolete_of (R.library (R.files last.now.read)) (files_reported gave.now) (R.library now.now)) }
{
    let read = R::after(alloc, now, &last.read)?;
    let faulty = files_reported(alloc, gave)?;
    let units = obsolete(alloc, last.read.sources(), &faulty, read.sources())?;
    Ok(units)
}
