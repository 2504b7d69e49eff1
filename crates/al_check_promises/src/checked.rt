// Results that their own check has tested.
ghost use Rattle.std.specs.Prelude.{◌≡◌, ◌&&◌, IfOk, IsTrue, true, if◌then◌else◌};
ghost use Rattle.al_view_typed.specs.UnitTrees.{unit_model};
ghost use Rattle.al_query_outcome.specs.Results.{checked_model, Faulty as Wrong, Sound};
ghost use Rattle.al_query_outcome.specs.Tables.{interface_of};
ghost use Rattle.al_check_promises.specs.SelfChecks.{is_kept, not_checked, self_checked};

use crate::faults::not_checked;
use crate::tested::is_kept;
use al_base::{NoMemory, UnitKey};
use al_query_outcome::{Checked, Parts, Properties, UnitInterface};
use al_view::View;
use al_view_typed::TypedUnit;
use std::alloc::Global;

/// A unit without errors: what it says of itself, what its parts declare, and its labelled tree.
#[derive(Drop)]
pub struct SoundUnit {
    /// What it says of itself.
    pub properties: Properties,
    /// What its parts declare, and its stubs.
    pub parts: Parts,
    /// Its labelled tree.
    pub tree: TypedUnit,
}

/// The result of the check of a unit without errors.
fn made(alloc: Global, sound: SoundUnit) -> Result<Checked, NoMemory>
    ensures { IfOk result (λ checked. checked_model checked ≡ Sound (interface_of sound.properties sound.parts) (unit_model sound.tree)) }
{
    let SoundUnit {
        properties,
        parts,
        tree,
    } = sound;
    match UnitInterface::new(alloc, properties, parts) {
        Ok(interface) => Ok(Checked::Sound(interface, tree)),
        Err(error) => {
            drop(tree);
            Err(error)
        }
    }
}

/// The result of the check of a unit without errors if it keeps the promises; else E700.
fn answered(
    alloc: Global,
    unit: &UnitKey,
    kept: bool,
    sound: SoundUnit,
) -> Result<Checked, NoMemory>
    ensures { IfOk result (λ checked. checked_model checked ≡ (if kept then Sound (interface_of sound.properties sound.parts) (unit_model sound.tree) else Wrong (not_checked unit.now))) }
{
    if kept {
        made(alloc, sound)
    } else {
        drop(sound);
        not_checked(alloc, unit)
    }
}

fn both_hold(kept: bool, complete: bool) -> bool
    ensures { result ≡ (kept && complete) }
{
    kept && complete
}

/// Whether a result is what the check promises, which isn't tested once more where it is known.
fn is_still_kept(
    alloc: Global,
    unit: &UnitKey,
    shown: &[View],
    known_kept: bool,
    sound: &SoundUnit,
) -> Result<bool, NoMemory>
    requires { IsTrue known_kept → is_kept unit.now shown.now (interface_of sound.now.properties sound.now.parts) (unit_model sound.now.tree) ≡ true }
    ensures { IfOk result (λ kept. kept ≡ is_kept unit.now shown.now (interface_of sound.now.properties sound.now.parts) (unit_model sound.now.tree)) }
{
    if known_kept {
        return Ok(true);
    }
    is_kept(alloc, unit, shown, sound)
}

/// The result of a check in which no fault was found, where it is what the check promises: it uses and shows nothing of other units but
/// what these views show; what it uses and shows of its own is defined, left to its body, or the code of a stub; there is code for it; and
/// it completes what it must, as was tested before. Else E700, as something is compiled that can't be yet. Where it is known to be kept, that
/// isn't tested once more.
pub fn self_checked(
    alloc: Global,
    unit: &UnitKey,
    shown: &[View],
    known_kept: bool,
    complete: bool,
    sound: SoundUnit,
) -> Result<Checked, NoMemory>
    requires { IsTrue known_kept → is_kept unit.now shown.now (interface_of sound.properties sound.parts) (unit_model sound.tree) ≡ true }
    ensures { IfOk result (λ checked. checked_model checked ≡ self_checked unit.now shown.now complete (interface_of sound.properties sound.parts) (unit_model sound.tree)) }
{
    match is_still_kept(alloc, unit, shown, known_kept, &sound) {
        Ok(kept) => answered(alloc, unit, both_hold(kept, complete), sound),
        Err(error) => {
            drop(sound);
            Err(error)
        }
    }
}
