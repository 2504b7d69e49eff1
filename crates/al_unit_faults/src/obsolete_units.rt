// Which units are obsolete (ARM 10.1.4(5, 7)).
ghost use Rattle.std.specs.Prelude.{◌≡◌, ◌||◌, not, map, IfOk};
ghost use Rattle.std.specs.Option.{option_map};
ghost use Rattle.al_base.specs.Batch.{key_of};
ghost use Rattle.al_unit_graph.specs.Dependence.{listed};
ghost use Rattle.al_unit_graph.specs.Orders.{names_model};
ghost use Rattle.al_unit_faults.specs.Wanted.{AreTouched, obsolete_by, ListsObsolete};

use crate::by_file::key_of_header;
use crate::wanted::WantedFiles;
use al_base::{NoMemory, UnitKey};
use al_unit_graph::{KeySet, Sources};
use std::alloc::Global;
use std::collections::BTreeSet;

/// A flag for each of the files, which is set if a file that it meets is changed; more flags may follow. Each file and each name
/// that a unit asks for is looked at once.
fn touched(
    alloc: Global,
    built: &Sources,
    now: &Sources,
    files: &[&[u8]],
) -> Result<Vec<bool>, NoMemory>
    ensures { IfOk result (λ flags. AreTouched built.now now.now (map (λ f. f.now) files.now) flags.items) }
{
    let wanted = WantedFiles::of(alloc, now, files)?;
    let changed = wanted.changed(built, now)?;
    let graph = wanted.graph()?;
    let flags = graph.reaching(changed.as_slice())?;
    Ok(flags)
}

/// A unit is obsolete if it wasn't one, its file had a diagnostic, or a file that it meets is changed.
fn differs(was_unit: bool, is_faulty: bool, is_touched: bool) -> bool
    ensures { result ≡ (not was_unit || (is_faulty || is_touched)) }
{
    !was_unit || is_faulty || is_touched
}

/// The unit of a file, if it wasn't sound in the older library, its file had a diagnostic there, or a file that it meets is
/// changed.
fn obsolete_unit(
    alloc: Global,
    built: &Sources,
    faulty: &BTreeSet<Vec<u8>>,
    now: &Sources,
    file: &[u8],
    is_touched: bool,
) -> Result<Option<UnitKey>, NoMemory>
    ensures { IfOk result (λ key. listed (option_map key_of key) ≡ obsolete_by built.now (names_model faulty.now.keys) now.now file.now is_touched) }
{
    let Some(header) = now.unit_in(file) else {
        return Ok(None);
    };
    let key = key_of_header(alloc, header)?;
    let was_unit = built.has_unit(&key);
    let is_obsolete = differs(was_unit, faulty.contains(file), is_touched);
    if is_obsolete { Ok(Some(key)) } else { Ok(None) }
}

/// The units that are obsolete since an older library in which the files of these names had a diagnostic, in the order of their
/// keys. Each file, and each name that a unit asks for, is looked at once.
///
/// # Errors
///
/// `NoMemory` if the allocator refuses memory.
pub fn obsolete(
    alloc: Global,
    built: &Sources,
    faulty: &BTreeSet<Vec<u8>>,
    now: &Sources,
) -> Result<Vec<UnitKey>, NoMemory>
    ensures { IfOk result (λ keys. ListsObsolete built.now (names_model faulty.now.keys) now.now (map key_of keys.items)) }
{
    let files = now.file_names()?;
    let touched = touched(alloc, built, now, files.as_slice())?;
    let mut keys = KeySet::new(alloc);
    for (i, file) in files.iter().enumerate() {
        if let Some(key) = obsolete_unit(alloc, built, faulty, now, file, touched[i])? {
            keys.insert(key)?;
        }
    }
    let list = keys.into_keys()?;
    Ok(list)
}
