// The units that were edited since the last build, if nothing else was.
ghost use Rattle.std.specs.Prelude.{◌≡◌, ℕ, [], List, false, None, IfOk, IfSome, IsTrue, map};
ghost use Rattle.std.specs.List.{Contains};
ghost use Rattle.al_base.specs.Batch.{Finding, finding_of};
ghost use Rattle.al_unit_faults.specs.FilesSeen.{file_faults_model};
ghost use Rattle.al_unit_graph.specs.Headers.{key_of_unit};
ghost use Rattle.al_unit_graph.specs.Views.{header_model};
ghost use Rattle.al_query_outcome.specs.Equations.{unit_named};
ghost use Rattle.al_query_store.specs.Units.{at_unit};
ghost use Rattle.al_query_store.specs.Keyed.{settled_at};
ghost use Rattle.al_engine_refresh.specs.Builds.{results_of, text_of};
ghost use Rattle.al_engine.specs.GraphGraphs.{HaveSameGraph};
ghost use Rattle.al_engine.specs.Kept.{IsGraphOf};
ghost use Rattle.al_engine.specs.Texts.{HaveTextsBut};
ghost use Rattle.al_engine_refresh.specs.Settings.{ArePredefined};
ghost use Rattle.al_engine.specs.RecheckEdits.{AreEdits, IsForAnother, units_of};
ghost use Rattle.al_engine.specs.BatchRenewals.{KeepsPartition};
ghost use Rattle.al_engine.specs.Earlier.{KeepsEarlier};
ghost use Rattle.al_engine.specs.Renewed.{IsCleanBut};
ghost use Rattle.al_engine.specs.Edits.{AreEditedIn, AreIn, HasReachedAll, Holds, IsEdited};
ghost use Rattle.al_engine.specs.States.{AreReadFor, IsSettledBy};

use crate::graph_laws::graphs_go_by_headers;
use crate::last_build::LastBuild;
use crate::read_files::ReadFiles;
use crate::{Edited, EditedUnit, Rebuilt, UnitCache, UnitGraph, diagnostics_of};
use al_base::{Diagnostic, Name, NoMemory, UnitKey};
use al_engine_refresh::order_laws::order_is_for_builds;
use al_query::Answers;
use al_query_outcome::UnitCheck;
use al_unit_faults::FileFaults;
use al_unit_graph::{Header, Sources, kind_of};
use std::alloc::Global;

/// The unit that has this header.
fn unit_of(alloc: Global, header: &Header) -> Result<UnitKey, NoMemory>
    ensures { IfOk result (λ unit. unit ≡ unit_named (key_of_unit (header_model header.now))) }
{
    Ok(UnitKey {
        name: Name::from_slice(alloc, header.name.as_slice())?,
        kind: kind_of(header.form),
    })
}

/// The unit in a file.
fn unit_in(alloc: Global, sources: &Sources, file: &[u8]) -> Result<Option<UnitKey>, NoMemory>
    ensures { IfOk result (λ found. IfSome found (λ unit. Holds sources.now file.now unit)) }
{
    match sources.unit_in(file) {
        Some(header) => Ok(Some(unit_of(alloc, header)?)),
        None => Ok(None),
    }
}

/// Whether no file breaks a rule of the graph.
fn break_none(faults: &[FileFaults]) -> bool
    ensures { IsTrue result → ((f : List ℕ × List Finding) → Contains (map file_faults_model faults.now) f → f.1 ≡ []) }
{
    for file in faults {
        if !file.faults.is_empty() {
            return false;
        }
    }
    true
}

/// Whether none of the errors says that a unit wasn't reached.
fn are_reached(found: &[Diagnostic]) -> bool
    ensures { IsTrue result → ((f : Finding) → Contains (map finding_of found.now) f → f.code ≡ 208 → ⊥) }
{
    for diagnostic in found {
        if diagnostic.code == 208 {
            return false;
        }
    }
    true
}

/// Whether a build of files with this graph, which found these errors, reached each unit.
fn has_reached_all(graph: &UnitGraph, found: &[Diagnostic]) -> bool
    ensures { IsTrue result → HasReachedAll graph.now (map finding_of found.now) }
{
    break_none(graph.faults.as_slice()) && are_reached(found)
}

/// Whether all errors are in the edited files.
fn are_in(found: &[Diagnostic], edited: &Edited) -> bool
    ensures { IsTrue result → AreIn edited.now (map finding_of found.now) }
{
    for diagnostic in found {
        if !edited.has(diagnostic.file.as_slice()) {
            return false;
        }
    }
    true
}

/// The unit, and whether another one depends on it directly, if its entry is for another source than its present one.
fn edited_unit<C: UnitCheck>(
    cache: &UnitCache<C>,
    sources: &Sources,
    graph: &UnitGraph,
    unit: UnitKey,
) -> Option<EditedUnit>
    ensures edited { IfSome result (λ e. IsForAnother (settled_at cache.now.store e.unit) (text_of sources.now e.unit)) }
    ensures unit { IfSome result (λ e. e.unit ≡ unit) }
    ensures base { IfSome result (λ e. e.is_base ≡ false → at_unit graph.now.bases e.unit ≡ None) }
{
    if !cache.is_edited(sources, &unit) {
        return None;
    }
    let is_base = graph.bases.get(&unit).is_some();
    Some(EditedUnit { unit, is_base })
}

/// The unit in a file, as [`edited_unit`] gives it; `None` if the file has no unit.
fn edited_in<C: UnitCheck>(
    alloc: Global,
    cache: &UnitCache<C>,
    sources: &Sources,
    graph: &UnitGraph,
    file: &[u8],
) -> Result<Option<EditedUnit>, NoMemory>
    ensures { IfOk result (λ found. IfSome found (IsEdited sources.now (settled_at cache.now.store) graph.now file.now)) }
{
    match unit_in(alloc, sources, file)? {
        Some(unit) => Ok(edited_unit(cache, sources, graph, unit)),
        None => Ok(None),
    }
}

/// The units in these files; `None` if a file has no unit, or a unit has no entry for another source than its present one.
fn edited_units<C: UnitCheck>(
    alloc: Global,
    cache: &UnitCache<C>,
    sources: &Sources,
    graph: &UnitGraph,
    files: &[Name],
) -> Result<Option<Vec<EditedUnit>>, NoMemory>
    ensures { IfOk result (λ found. IfSome found (λ edits. AreEditedIn sources.now (settled_at cache.now.store) graph.now files.now edits.items)) }
{
    let mut edits = Vec::new(alloc);
    for file in files {
        let Some(edited) = edited_in(alloc, cache, sources, graph, file.as_slice())? else {
            return Ok(None);
        };
        edits.push(edited)?;
    }
    Ok(Some(edits))
}

/// The units that were edited since the last build, with whether another one depends on each directly; `None` if more was edited, or if that build
/// didn't reach each unit. The second result says whether that build found errors only in the edited units.
///
/// # Errors
///
/// `NoMemory` if the allocator refuses memory.
pub(crate) fn edited_now<R: ReadFiles, C: UnitCheck, P: Answers>(
    alloc: Global,
    cache: &UnitCache<C>,
    predefined: &P,
    read: &R,
    same: Option<&LastBuild<R>>,
    edited: &Edited,
    gave: &Rebuilt,
) -> Result<(Option<Vec<EditedUnit>>, bool), NoMemory>
    requires reading { AreReadFor C.Text.header R.library }
    requires predefined { ArePredefined (P.table predefined.now) }
    requires graph { IfSome same (λ b. IsGraphOf (R.library (R.files b.now.read)) b.now.graph.value) }
    requires settled { IfSome same (λ b. IsSettledBy C.meaning C.Text.header (P.table predefined.now) R.library cache.now.store (record { files = R.files b.now.read; main = b.now.main; gave = gave.now })) }
    requires headers { IfSome same (λ b. HaveSameGraph (R.library (R.files b.now.read)) (R.library (R.files read.now))) }
    requires texts { IfSome same (λ b. HaveTextsBut (R.library (R.files b.now.read)) (R.library (R.files read.now)) edited.now) }
    ensures renewable { IfOk result (λ found. IfSome found.0 (λ edits. AreEdits C.meaning C.Text.header (P.table predefined.now) (R.library (R.files read.now)) cache.now.store edits.items)) }
    ensures clean { IfOk result (λ found. IsTrue found.1 → IfSome found.0 (λ edits. IsCleanBut (R.library (R.files read.now)) (settled_at cache.now.store) (units_of edits.items))) }
    ensures kept { IfOk result (λ found. IfSome found.0 (λ _. IfSome same.entry (λ b. KeepsPartition (R.library (R.files read.now)) (results_of (settled_at cache.now.store)) b.now.main gave.now.compiled × KeepsEarlier (R.library (R.files read.now)) (results_of (settled_at cache.now.store)) gave.now.earlier))) }
{
    order_is_for_builds();
    graphs_go_by_headers();
    let _predefined = predefined;
    let Some(build) = same else {
        return Ok((None, false));
    };
    let found = diagnostics_of(&gave.compiled);
    if !has_reached_all(&build.graph, found) {
        return Ok((None, false));
    }
    let sources = read.sources();
    let edits = edited_units(alloc, cache, sources, &build.graph, edited.files.as_slice())?;
    Ok((edits, are_in(found, edited)))
}
