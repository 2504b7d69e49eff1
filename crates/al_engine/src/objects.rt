// The objects of units in which no error was found.
ghost use Rattle.std.specs.Prelude.{◌≡◌, ◌++◌, ◌∷◌, [], map, Some, IfOk, MatchOption, OnOk};
ghost use Rattle.al_query_store.specs.Keyed.{now_at};
ghost use Rattle.al_query_outcome.specs.ReadsLaw.{HasCode};
ghost use Rattle.al_query_outcome.specs.Results.{checked_model};
ghost use Rattle.al_engine_refresh.specs.Builds.{results_of};
ghost use Rattle.al_engine.specs.Objects.{AreCoded, objects_at, objects_of};
ghost use Rattle.al_engine.specs.ObjectsSeen.{object_model};

use al_base::{NoMemory, UnitKey};
use al_code::emit;
use al_code_object::Object;
use al_engine_refresh::KeptEntries;
use al_query_outcome::Checked;
use al_view::copied_unit;
use std::alloc::Global;
use std::rc::Rc;

/// A unit with its object.
pub(crate) struct UnitObject {
    pub key: UnitKey,
    pub object: Object,
}

impl Drop for UnitObject {
    fn drop(self) {
        let UnitObject { key: _, object: _ } = self;
    }
}

/// A unit with the object that is made from its labelled tree, if its check found no error. It can be shared.
fn object_in(
    alloc: Global,
    key: &UnitKey,
    checked: &Checked,
) -> Result<Option<Rc<UnitObject>>, NoMemory>
    requires { HasCode key.now (checked_model checked.now) }
    ensures { IfOk result (λ found. MatchOption found (objects_of key.now (Some (checked_model checked.now)) ≡ []) (λ unit. objects_of key.now (Some (checked_model checked.now)) ≡ object_model unit ∷ [])) }
{
    match checked {
        Checked::Faulty(_) => Ok(None),
        Checked::Sound(_, tree) => {
            let object = emit(alloc, tree)?;
            let key = copied_unit(alloc, key)?;
            Ok(Some(Rc::new(alloc, UnitObject { key, object })?))
        }
    }
}

/// A unit with its object, if it has an entry from which code can be made.
///
/// # Errors
///
/// `NoMemory` if the allocator refuses memory.
pub(crate) fn object_at(
    alloc: Global,
    entries: &KeptEntries,
    key: &UnitKey,
) -> Result<Option<Rc<UnitObject>>, NoMemory>
    requires { AreCoded (now_at entries.now) }
    ensures { IfOk result (λ found. MatchOption found (objects_of key.now (results_of (now_at entries.now) key.now) ≡ []) (λ unit. objects_of key.now (results_of (now_at entries.now) key.now) ≡ object_model unit ∷ [])) }
{
    match entries.get(key) {
        Some(entry) => object_in(alloc, key, entry.checked()),
        None => Ok(None),
    }
}

/// Adds the object of a unit, if it has an entry from which code can be made.
fn add_object(
    alloc: Global,
    entries: &KeptEntries,
    key: &UnitKey,
    objects: &mut Vec<Rc<UnitObject>>,
) -> Result<(), NoMemory>
    requires { AreCoded (now_at entries.now) }
    ensures { OnOk result (map object_model objects.new.items ≡ map object_model objects.old.items ++ objects_of key.now (results_of (now_at entries.now) key.now)) }
{
    match object_at(alloc, entries, key)? {
        Some(object) => {
            objects.push(object)?;
            Ok(())
        }
        None => Ok(()),
    }
}

/// The objects of these units, in their order.
///
/// # Errors
///
/// `NoMemory` if the allocator refuses memory.
pub(crate) fn objects_at(
    alloc: Global,
    entries: &KeptEntries,
    units: &[UnitKey],
) -> Result<Vec<Rc<UnitObject>>, NoMemory>
    requires { AreCoded (now_at entries.now) }
    ensures { IfOk result (λ objects. map object_model objects.items ≡ objects_at (results_of (now_at entries.now)) units.now) }
{
    let mut objects = Vec::new(alloc);
    for unit in units {
        add_object(alloc, entries, unit, &mut objects)?;
    }
    Ok(objects)
}
