// Lists of diagnostics.
ghost use Rattle.std.specs.Prelude.{◌≡◌, ◌++◌, ◌∷◌, [], ℕ, List, map, IfOk, OnOk};
ghost use Rattle.al_base.specs.Batch.{finding_of};
ghost use Rattle.al_unit_faults.specs.Orders.{ascending};
ghost use Rattle.al_unit_faults.specs.Spots.{finding_at, spot_of};
ghost use Rattle.al_engine_refresh.specs.Found.{checked_findings};

use al_base::{Diagnostic, Name, NoMemory, Place};
use std::alloc::Global;
use std::collections::BTreeSet;

/// Adds a diagnostic at a place of a file.
pub(crate) fn add(
    alloc: Global,
    file: &[u8],
    place: Place,
    code: u16,
    found: &mut Vec<Diagnostic>,
) -> Result<(), NoMemory>
    ensures { OnOk result (map finding_of found.new.items ≡ map finding_of found.old.items ++ finding_at file.now (place.line, place.col, code) ∷ []) }
{
    let file = Name::from_slice(alloc, file)?;
    found.push(Diagnostic { file, place, code })?;
    Ok(())
}

/// Adds diagnostics.
pub(crate) fn add_all(
    alloc: Global,
    more: &[Diagnostic],
    found: &mut Vec<Diagnostic>,
) -> Result<(), NoMemory>
    ensures { OnOk result (map finding_of found.new.items ≡ map finding_of found.old.items ++ map finding_of more.now) }
{
    for d in more {
        add(alloc, d.file.as_slice(), d.place, d.code, found)?;
    }
    Ok(())
}

/// The line, the column and the number of each diagnostic, in order, without duplicates.
fn spots(alloc: Global, found: &[Diagnostic]) -> Result<BTreeSet<(u32, u32, u16)>, NoMemory>
    ensures { IfOk result (λ spots. (file : List ℕ) → map (finding_at file) spots.keys ≡ checked_findings file found.now) }
{
    let mut spots = BTreeSet::new(alloc);
    for d in found {
        spots.insert((d.place.line, d.place.col, d.code))?;
    }
    Ok(spots)
}

/// Adds the diagnostics that a check gave for a file, by place and number, without duplicates.
pub(crate) fn add_ascending(
    alloc: Global,
    file: &[u8],
    faults: &[Diagnostic],
    found: &mut Vec<Diagnostic>,
) -> Result<(), NoMemory>
    ensures { OnOk result (map finding_of found.new.items ≡ map finding_of found.old.items ++ checked_findings file.now faults.now) }
{
    let spots = spots(alloc, faults)?;
    for spot in spots.iter() {
        let (line, col, code) = *spot;
        add(alloc, file, Place { line, col }, code, found)?;
    }
    Ok(())
}
