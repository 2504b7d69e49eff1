// What is to be linked if exactly one unit has another object than in the partition before.
ghost use Rattle.std.specs.Prelude.{◌≡◌, true, false, [], None, map, slice_set, IfOk, IfSome, IsTrue, MatchOption};
ghost use Rattle.al_base.specs.declared.unit_key.UnitKey.{UnitKey};
ghost use Rattle.al_view.specs.Symbols.{same_unit};
ghost use Rattle.al_query_outcome.specs.Equations.{is_sound};
ghost use Rattle.al_query_store.specs.Keyed.{now_at, settled_at};
ghost use Rattle.al_engine_refresh.specs.Found.{findings_of};
ghost use Rattle.al_engine_refresh.specs.Builds.{results_of};
ghost use Rattle.al_engine.specs.Objects.{AreCoded};
ghost use Rattle.al_engine.specs.ObjectsSeen.{object_model};
ghost use Rattle.al_engine.specs.Plans.{IsPlanned};
ghost use Rattle.al_engine.specs.BatchRenewals.{KeepsBut, KeepsPartition, renewed};
ghost use Rattle.al_engine.specs.Earlier.{IsBase, KeepsEarlier};
ghost use Rattle.al_engine.specs.Patches.{linked_in};

use crate::compiled::Compiled;
use crate::earlier::{Base, Earlier};
use crate::names::main_symbol;
use crate::objects::{UnitObject, object_at};
use crate::planned::{Planned, Renewal};
use crate::rebuilding::Rebuilt;
use al_base::{Name, NoMemory, UnitKey};
use al_engine_refresh::KeptEntries;
use al_query_outcome::Checked;
use al_unit_graph::Sources;
use al_view::{copied_unit, is_unit};
use std::alloc::Global;
use std::rc::Rc;

/// The place of a unit among these; `None` if it is at no place, or at two.
fn place_of(objects: &[Rc<UnitObject>], unit: &Rc<UnitObject>) -> Option<usize>
    ensures { IfSome result (λ at. renewed (object_model unit.now) (map object_model objects.now) ≡ slice_set (map object_model objects.now) at (object_model unit.now)) }
{
    let mut found = None;
    for at in 0..objects.len() {
        if is_unit(&unit.key, &objects[at].key) {
            if found.is_some() {
                return None;
            }
            found = Some(at);
        }
    }
    found
}

/// Whether the last build found no error in a unit.
fn was_sound(entries: &KeptEntries, unit: &UnitKey) -> bool
    ensures { IsTrue result → is_sound (results_of (settled_at entries.now) unit.now) ≡ true }
{
    match entries.settled(unit) {
        Some(held) => match held.entry.checked() {
            Checked::Faulty(_) => false,
            Checked::Sound(_, _) => true,
        },
        None => false,
    }
}

/// Whether a result of compiling has no image.
fn has_none(compiled: &Compiled) -> bool
    ensures { IsTrue result → linked_in compiled.now ≡ None }
{
    match compiled {
        Compiled::Faulty(_) | Compiled::Unbound(_) | Compiled::TooLarge(_) => true,
        Compiled::Made(_) => false,
    }
}

/// The last build's result, of this main unit, as what a build goes on from; `None` if that build found an error in the unit.
fn last_base(
    alloc: Global,
    entries: &KeptEntries,
    main: &[u8],
    unit: &UnitKey,
) -> Result<Option<Base>, NoMemory>
    ensures base { IfOk result (λ found. IfSome found (λ b. (b.is_earlier ≡ false) × (b.main ≡ main.now) × (b.unit ≡ unit.now))) }
    ensures sound { IfOk result (λ found. IfSome found (λ b. is_sound (results_of (settled_at entries.now) b.unit) ≡ true)) }
{
    if !was_sound(entries, unit) {
        return Ok(None);
    }
    Ok(Some(Base {
        is_earlier: false,
        main: Name::from_slice(alloc, main)?,
        unit: copied_unit(alloc, unit)?,
    }))
}

/// The earlier result as what a build goes on from, if its unit is this one.
fn earlier_base(
    alloc: Global,
    earlier: &Option<Earlier>,
    unit: &UnitKey,
) -> Result<Option<Base>, NoMemory>
    ensures { IfOk result (λ found. IfSome found (λ b. (b.is_earlier ≡ true) × (b.unit ≡ unit.now) × MatchOption earlier.now ⊥ (λ k. (k.unit ≡ unit.now) × (b.main ≡ k.main)))) }
{
    let Some(earlier) = earlier else {
        return Ok(None);
    };
    if !is_unit(&earlier.unit, unit) {
        return Ok(None);
    }
    Ok(Some(Base {
        is_earlier: true,
        main: Name::from_slice(alloc, earlier.main.as_slice())?,
        unit: copied_unit(alloc, unit)?,
    }))
}

/// What a build goes on from, if one unit alone has another entry than in the last build, whose files have the same graph: the result of that build,
/// which was of the main unit `last`, if it has an image; or else the result that was kept behind it. `None` if there is neither, or nothing is known
/// of the last build.
///
/// # Errors
///
/// `NoMemory` if the allocator refuses memory.
pub(crate) fn base_of(
    alloc: Global,
    sources: &Sources,
    entries: &KeptEntries,
    last: Option<&[u8]>,
    unit: Option<&UnitKey>,
    gave: &Rebuilt,
) -> Result<Option<Base>, NoMemory>
    requires others { IfSome unit (λ u. (w : UnitKey) → same_unit u.now w ≡ false → now_at entries.now w ≡ settled_at entries.now w) }
    requires kept { IfSome last (λ main. IfSome unit (λ _. KeepsPartition sources.now (results_of (settled_at entries.now)) main.now gave.now.compiled × KeepsEarlier sources.now (results_of (settled_at entries.now)) gave.now.earlier)) }
    ensures { IfOk result (λ base. IfSome base (IsBase sources.now (results_of (now_at entries.now)) gave.now)) }
{
    let _sources = sources;
    let Some(main) = last else {
        return Ok(None);
    };
    let Some(unit) = unit else {
        return Ok(None);
    };
    if has_none(&gave.compiled) {
        return earlier_base(alloc, &gave.earlier, unit);
    }
    last_base(alloc, entries, main, unit)
}

/// What is to be linked if the files have no error, and one unit alone has another entry than when there was this result: the other units keep their
/// objects. `None` if that has no image.
///
/// # Errors
///
/// `NoMemory` if the allocator refuses memory.
pub fn renewed(
    alloc: Global,
    sources: &Sources,
    entries: &KeptEntries,
    main: &[u8],
    before: &Compiled,
    unit: &UnitKey,
) -> Result<Option<Planned>, NoMemory>
    requires coded { AreCoded (now_at entries.now) }
    requires clean { findings_of sources.now (results_of (now_at entries.now)) ≡ [] }
    requires kept { KeepsBut sources.now (results_of (now_at entries.now)) main.now unit.now before.now }
    ensures { IfOk result (λ found. IfSome found (IsPlanned sources.now (results_of (now_at entries.now)) main.now before.now)) }
{
    let Compiled::Made(program) = before else {
        return Ok(None);
    };
    let Some(object) = object_at(alloc, entries, unit)? else {
        return Ok(None);
    };
    let Some(at) = place_of(program.objects.as_slice(), &object) else {
        return Ok(None);
    };
    let main = main_symbol(alloc, sources, main)?;
    Ok(Some(Planned::Renewed(Renewal { main, at, object })))
}
