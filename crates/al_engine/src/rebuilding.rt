// A build of a library's units over their entries.
ghost use Rattle.std.specs.Prelude.{ℕ, ◌≡◌, ◌∷◌, [], true, false, List, IfOk, IfSome, IsTrue, MatchOption, None, OnErr, OnOk, length, map};
ghost use Rattle.std.specs.List.{list_all};
ghost use Rattle.std.specs.Map.{keys_of};
ghost use Rattle.al_base.specs.Batch.{key_of};
ghost use Rattle.al_base.specs.FileNames.{file_name_of};
ghost use Rattle.al_base.specs.declared.unit_key.UnitKey.{UnitKey};
ghost use Rattle.al_bind.specs.Binding.{IsElaboration};
ghost use Rattle.al_unit_faults.specs.FilesSeen.{file_faults_model};
ghost use Rattle.al_unit_faults.specs.GraphFaults.{file_faults};
ghost use Rattle.al_query.specs.Known.{has_unit};
ghost use Rattle.al_unit_graph.specs.Headers.{Header, Library};
ghost use Rattle.al_unit_faults.specs.Read.{AreHeaded, NameParentBodies};
ghost use Rattle.al_query.specs.declared.answer.AnswerKind.{AnswerKind};
ghost use Rattle.al_query.specs.declared.query.Query.{Query};
ghost use Rattle.al_query_outcome.specs.Equations.{is_sound};
ghost use Rattle.al_engine_refresh.specs.EntryLaw.{AllKeepLaw};
ghost use Rattle.al_query_store.specs.Keyed.{now_at, settled_at};
ghost use Rattle.al_engine_refresh.specs.Moves.{Entries, IsLeft};
ghost use Rattle.al_engine.specs.Kept.{IsGraphOf};
ghost use Rattle.al_engine_refresh.specs.Settings.{ArePredefined};
ghost use Rattle.al_engine_refresh.specs.Builds.{raised, results_of};
ghost use Rattle.al_engine_refresh.specs.Found.{AreToldAlone, findings_of};
ghost use Rattle.al_engine.specs.Objects.{AreCoded};
ghost use Rattle.al_engine.specs.Patches.{IsPatched, linked_in};
ghost use Rattle.al_engine.specs.Plans.{IsClosedPlan, IsPlanned};
ghost use Rattle.al_engine.specs.BatchRenewals.{KeepsPartition};
ghost use Rattle.al_engine.specs.Earlier.{IsBase, IsBehind, KeepsEarlier, base_at, over};
ghost use Rattle.al_engine.specs.Rechecks.{AreReady, will_be};
ghost use Rattle.al_engine.specs.RecheckEdits.{AreEdits, units_of};
ghost use Rattle.al_engine.specs.Prepared.{IsPrepared};
ghost use Rattle.al_engine.specs.Rebuilds.{IsKept, IsRebuilt};
ghost use Rattle.al_engine.specs.Renewed.{IsCleanBut};

use crate::batch_renewing::base_of;
use crate::closed_laws::partitions_are_closed;
use crate::concluding::conclude;
use crate::earlier::{Base, Earlier};
use crate::reasons::{Reason, reasons_of};
use crate::{Compiled, EditedUnit, Planned, UnitCache, UnitGraph, check_library, plan, renewed};
use al_base::{FileKey, NoMemory, UnitKey};
use al_engine_refresh::{KeptEntries, has_sound};
use al_query::Answers;
use al_query_outcome::UnitCheck;
use al_unit_faults::FileFaults;
use al_unit_graph::Sources;
use al_view::Seq;
use std::alloc::Global;

/// The result of a build.
pub struct Rebuilt {
    /// The result of compiling the files for the main unit.
    pub compiled: Compiled,
    /// The units that were checked, by unit and kind.
    pub checked: Seq<UnitKey>,
    /// Why each of them was checked.
    pub reasons: Seq<Reason>,
    /// How many stored answers were compared with those of now, to 2^64-1.
    pub compared: usize,
    /// The number of units whose code was written into the image of the build before.
    pub patched: usize,
    /// The program of an earlier build, if this one gave no image, and one unit alone was edited since that one.
    pub earlier: Option<Earlier>,
}

impl Drop for Rebuilt {
    fn drop(self) {
        let Rebuilt {
            compiled: _,
            checked: _,
            reasons: _,
            compared: _,
            patched: _,
            earlier: _,
        } = self;
    }
}

impl Rebuilt {
    /// The result before the first build: no image. It takes no memory.
    pub fn nothing(alloc: Global) -> Rebuilt
        ensures { linked_in result.compiled ≡ None }
    {
        Rebuilt {
            compiled: Compiled::Faulty(Vec::new(alloc)),
            checked: Seq::empty(alloc),
            reasons: Seq::empty(alloc),
            compared: 0,
            patched: 0,
            earlier: None,
        }
    }

    /// The earlier result, if it is the one in question and is there, or else the last one.
    fn base(&self, is_earlier: bool) -> &Compiled
        ensures { result.now ≡ base_at self.now is_earlier }
    {
        if !is_earlier {
            return &self.compiled;
        }
        match &self.earlier {
            Some(earlier) => &earlier.compiled,
            None => &self.compiled,
        }
    }
}

/// How the last build relates to this one, apart from the edited units.
#[derive(Clone, Copy)]
pub struct Standing<'a> {
    /// It found errors only in the edited units.
    pub is_clean: bool,
    /// Its main unit, if its files have the same graph.
    pub main: Option<&'a [u8]>,
}

/// A build that is done except for the image: what is to be linked, from which result it goes on, the units that were checked, by unit and kind, why
/// each of them was checked, and how many stored answers were compared.
pub struct PreparedBuild {
    pub planned: Planned,
    pub base: Option<Base>,
    pub checked: Vec<UnitKey>,
    pub reasons: Vec<Reason>,
    pub compared: usize,
}

impl Drop for PreparedBuild {
    fn drop(self) {
        let PreparedBuild {
            planned: _,
            base: _,
            checked: _,
            reasons: _,
            compared: _,
        } = self;
    }
}

/// The edited units, if all others have the same entries as before.
fn renewed_units(edited: &Option<Vec<EditedUnit>>, is_renewal: bool) -> Option<&[EditedUnit]>
    ensures { IfSome result (λ edits. IsTrue is_renewal × MatchOption edited.now ⊥ (λ e. e.items ≡ edits.now)) }
{
    match edited {
        Some(edits) => if is_renewal {
            Some(edits.as_slice())
        } else {
            None
        },
        None => None,
    }
}

/// Whether these units have no errors.
fn are_sound(entries: &KeptEntries, edits: &[EditedUnit]) -> bool
    ensures { result ≡ list_all (λ e. is_sound (results_of (now_at entries.now) e.unit)) edits.now }
{
    edits.iter().all(|edited| has_sound(entries, &edited.unit))
}

/// Whether only some units have other entries than before, these have no errors, and there were no others before.
fn is_clean(entries: &KeptEntries, was_clean: bool, renewed: Option<&[EditedUnit]>) -> bool
    ensures clean { IsTrue result → IsTrue was_clean }
    ensures sound { IsTrue result → MatchOption renewed.entry ⊥ (λ edits. (u : UnitKey) → has_unit (units_of edits.now) u ≡ true → is_sound (results_of (now_at entries.now) u) ≡ true) }
{
    if !was_clean {
        return false;
    }
    match renewed {
        Some(edits) => are_sound(entries, edits),
        None => false,
    }
}

/// The edited unit, if exactly one has another entry than before.
fn alone_in(renewed: Option<&[EditedUnit]>) -> Option<&UnitKey>
    ensures { IfSome result (λ unit. MatchOption renewed.entry ⊥ (λ edits. units_of edits.now ≡ unit.now ∷ [])) }
{
    let edits = renewed?;
    let (edited, others) = edits.split_first()?;
    if others.is_empty() {
        Some(&edited.unit)
    } else {
        None
    }
}

/// What is to be linked if one unit alone has another entry than in the result from which a build goes on, and the files have no errors: everything is
/// as then except for that unit's object. `None` if that isn't so.
fn renewed_plan(
    alloc: Global,
    sources: &Sources,
    entries: &KeptEntries,
    main: &[u8],
    base: &Option<Base>,
    gave: &Rebuilt,
) -> Result<Option<Planned>, NoMemory>
    requires coded { AreCoded (now_at entries.now) }
    requires clean { findings_of sources.now (results_of (now_at entries.now)) ≡ [] }
    requires base { IfSome base.now (IsBase sources.now (results_of (now_at entries.now)) gave.now) }
    ensures { IfOk result (λ found. IfSome found (IsPlanned sources.now (results_of (now_at entries.now)) main.now (over gave.now base.now))) }
{
    let Some(base) = base else {
        return Ok(None);
    };
    if base.main.as_slice() != main {
        return Ok(None);
    }
    let before = gave.base(base.is_earlier);
    renewed(alloc, sources, entries, main, before, &base.unit)
}

/// The unit that alone has another entry than before, if it is known that there were no errors but in it.
fn faulty_alone(was_clean: bool, unit: Option<&UnitKey>) -> Option<&UnitKey>
    ensures { IfSome result (λ u. IsTrue was_clean × MatchOption unit.entry ⊥ (λ v. u.now ≡ v.now)) }
{
    if was_clean { unit } else { None }
}

/// The file of a unit, if there is a unit.
fn file_of(sources: &Sources, unit: Option<&UnitKey>) -> Option<FileKey>
    ensures { IfSome result (λ file. MatchOption unit.entry ⊥ (λ u. file ≡ file_name_of (key_of u.now))) }
{
    match unit {
        Some(unit) => sources.file_of_unit(unit),
        None => None,
    }
}

/// The name of a file, if there is one.
fn name_of(file: &Option<FileKey>) -> Option<&[u8]>
    ensures { IfSome result (λ name. MatchOption file.now ⊥ (λ file. file ≡ name.now)) }
{
    match file {
        Some(file) => Some(file.as_slice()),
        None => None,
    }
}

/// The result of compiling the files for a main unit, up to the image, as `plan` gives it, over the result from which a build goes on. If it is known
/// that there are no errors, they aren't looked for; if there can be none but in one unit, only in its file.
fn plan_over(
    alloc: Global,
    sources: &Sources,
    entries: &KeptEntries,
    faults: &[FileFaults],
    main: &[u8],
    known: Option<&[UnitKey]>,
    is_clean: bool,
    faulty: Option<&UnitKey>,
    base: &Option<Base>,
    gave: &Rebuilt,
) -> Result<Planned, NoMemory>
    requires faults { map file_faults_model faults.now ≡ map (λ file. (file, file_faults sources.now file)) (keys_of sources.now) }
    requires coded { AreCoded (now_at entries.now) }
    requires known { IfSome known (λ order. IsElaboration sources.now main.now (map key_of order.now)) }
    requires clean { IsTrue is_clean → findings_of sources.now (results_of (now_at entries.now)) ≡ [] }
    requires faulty { IfSome faulty (λ u. AreToldAlone sources.now (results_of (now_at entries.now)) (file_name_of (key_of u.now))) }
    requires base { IfSome base.now (IsBase sources.now (results_of (now_at entries.now)) gave.now) }
    ensures { IfOk result (IsPlanned sources.now (results_of (now_at entries.now)) main.now (over gave.now base.now)) }
{
    if is_clean {
        let found = renewed_plan(alloc, sources, entries, main, base, gave)?;
        if let Some(planned) = found {
            return Ok(planned);
        }
    }
    let file = file_of(sources, faulty);
    let alone = name_of(&file);
    let planned = plan(
        alloc, sources, entries, faults, main, known, is_clean, alone,
    )?;
    Ok(planned)
}

/// The result of compiling the files for a main unit, up to the image, and the result from which the build goes on. If only some units have other
/// entries than before, and no errors, then errors aren't looked for; if it is one unit, an earlier result is used again, and errors are looked for in
/// its file alone.
fn plan_now(
    alloc: Global,
    sources: &Sources,
    entries: &KeptEntries,
    faults: &[FileFaults],
    main: &[u8],
    known: Option<&[UnitKey]>,
    edits: Option<&[EditedUnit]>,
    standing: Standing<'_>,
    gave: &Rebuilt,
) -> Result<(Planned, Option<Base>), NoMemory>
    requires faults { map file_faults_model faults.now ≡ map (λ file. (file, file_faults sources.now file)) (keys_of sources.now) }
    requires coded { AreCoded (now_at entries.now) }
    requires known { IfSome known (λ order. IsElaboration sources.now main.now (map key_of order.now)) }
    requires clean { IsTrue standing.is_clean → IfSome edits (λ e. IsCleanBut sources.now (settled_at entries.now) (units_of e.now)) }
    requires others { IfSome edits (λ e. (w : UnitKey) → has_unit (units_of e.now) w ≡ false → now_at entries.now w ≡ settled_at entries.now w) }
    requires kept { IfSome standing.main (λ last. IfSome edits (λ _. KeepsPartition sources.now (results_of (settled_at entries.now)) last.now gave.now.compiled × KeepsEarlier sources.now (results_of (settled_at entries.now)) gave.now.earlier)) }
    ensures planned { IfOk result (λ p. IsPlanned sources.now (results_of (now_at entries.now)) main.now (over gave.now p.1) p.0) }
    ensures base { IfOk result (λ p. IfSome p.1 (IsBase sources.now (results_of (now_at entries.now)) gave.now)) }
{
    let clean = is_clean(entries, standing.is_clean, edits);
    let unit = alone_in(edits);
    let base = base_of(alloc, sources, entries, standing.main, unit, gave)?;
    let faulty = faulty_alone(standing.is_clean, unit);
    let planned = plan_over(
        alloc, sources, entries, faults, main, known, clean, faulty, &base, gave,
    )?;
    Ok((planned, base))
}

/// Does everything of a build of a main unit except its image: it checks each unit that is reached and has no entry for its source, or one with an
/// answer that differs now, and compiles what all units give then. `graph` is the library's graph, and `known` the order of elaboration, if that is
/// known. `edited` are the only edited units since a build that reached each unit, `standing` says how that build relates to this one, and `gave`
/// is its result. The entries of the last build are unchanged.
/// - `prepared`: which units were checked, the result of compiling up to the image, and which entries there will be. If there is something to link,
///   its units define the main subprogram's code and all that they use.
/// - `counted`: how many checks were made.
///
/// # Errors
///
/// `NoMemory` if the allocator refuses memory. The count of checks may have risen, and entries may have been made, which `cancel` drops.
pub fn prepare<C: UnitCheck, P: Answers>(
    alloc: Global,
    cache: &mut UnitCache<C>,
    predefined: &P,
    sources: &Sources,
    main: &[u8],
    graph: &UnitGraph,
    known: Option<&[UnitKey]>,
    edited: &Option<Vec<EditedUnit>>,
    standing: Standing<'_>,
    gave: &Rebuilt,
) -> Result<PreparedBuild, NoMemory>
    requires headed { AreHeaded C.Text.header sources.now }
    requires bodies { NameParentBodies sources.now }
    requires predefined { ArePredefined (P.table predefined.now) }
    requires graph { IsGraphOf sources.now graph.now }
    requires known { IfSome known (λ order. IsElaboration sources.now main.now (map key_of order.now)) }
    requires ready { AreReady (P.table predefined.now) cache.old.store }
    requires edited { IfSome edited.now (λ edits. AreEdits C.meaning C.Text.header (P.table predefined.now) sources.now cache.old.store edits.items) }
    requires clean { IsTrue standing.is_clean → IfSome edited.now (λ edits. IsCleanBut sources.now (settled_at cache.old.store) (units_of edits.items)) }
    requires kept { IfSome standing.main (λ last. IfSome edited.now (λ _. KeepsPartition sources.now (results_of (settled_at cache.old.store)) last.now gave.now.compiled × KeepsEarlier sources.now (results_of (settled_at cache.old.store)) gave.now.earlier)) }
    ensures prepared { IfOk result (λ p. IsPrepared C.meaning C.Text.header (P.table predefined.now) sources.now main.now gave.now cache.old.store p.base p.planned cache.new.store p.checked.items p.reasons.items p.compared) }
    ensures counted { IfOk result (λ p. C.count cache.new.checker ≡ raised (C.count cache.old.checker) (length p.checked.items)) }
    ensures left { IsLeft cache.old.store cache.new.store }
{
    partitions_are_closed();
    let given = check_library(cache, predefined, sources, graph, edited)?;
    let edits = renewed_units(edited, given.is_renewal);
    let (checked, compared) = given.into_parts();
    let faults = graph.faults.as_slice();
    let entries = cache.entries();
    let found = plan_now(
        alloc, sources, entries, faults, main, known, edits, standing, gave,
    )?;
    let (planned, base) = found;
    let reasons = reasons_of(alloc, predefined, sources, entries, checked.as_slice())?;
    Ok(PreparedBuild {
        planned,
        base,
        checked,
        reasons,
        compared,
    })
}

impl PreparedBuild {
    /// Ends a build. The image is the last thing that takes memory: it is linked in the place of the last build's, if that gave one, or in that of the
    /// earlier one, if the build goes on from it. Then the build's entries are settled, whether the files have errors or not.
    /// - `rebuilt`: which units were checked, the result of compiling, which entries there are then, and how many stored answers were compared.
    /// - `patched`: the number of units whose code was written into the image.
    ///
    /// # Errors
    ///
    /// `NoMemory` if the allocator refuses memory. The result of the last build is then as before, and so are the entries, once the build is
    /// cancelled.
    pub fn finish<C: UnitCheck>(
        self,
        alloc: Global,
        cache: &mut UnitCache<C>,
        gave: &mut Rebuilt,
    ) -> Result<(), NoMemory>
        requires law { AllKeepLaw C.meaning C.Text.header (will_be cache.old.store) }
        requires closed { IsClosedPlan (over gave.old self.base) self.planned }
        requires behind { IfSome self.base (IsBehind gave.old) }
        ensures rebuilt { OnOk result ((header : List ℕ → Header) (predefined : Query → AnswerKind) (lib : Library) (main : List ℕ) (old : Entries) → IsLeft old cache.old.store → IsPrepared C.meaning header predefined lib main gave.old old self.base self.planned cache.old.store self.checked.items self.reasons.items self.compared → (is : IsRebuilt C.meaning header predefined lib main (settled_at old) (settled_at cache.new.store) gave.new) × IsKept predefined lib old cache.new.store is.made gave.new) }
        ensures patched { OnOk result (IsPatched (linked_in gave.old.compiled) (linked_in gave.new.compiled) gave.new.patched) }
        ensures checked { OnOk result (gave.new.checked ≡ self.checked.items) }
        ensures checker { cache.new.checker ≡ cache.old.checker }
        ensures err { OnErr result ((cache.new.store ≡ cache.old.store) × (gave.new ≡ gave.old)) }
    {
        let PreparedBuild {
            planned,
            base,
            checked,
            reasons,
            compared,
        } = self;
        let patched = conclude(alloc, planned, base, gave)?;
        gave.patched = patched;
        gave.checked = Seq::new(checked);
        gave.reasons = Seq::new(reasons);
        gave.compared = compared;
        cache.settle();
        Ok(())
    }
}
