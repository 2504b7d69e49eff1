// What is found wrong with a file, in order.
ghost use Rattle.std.specs.Prelude.{◌≡◌, ◌++◌, ℕ, List, map, IfOk, OnOk};
ghost use Rattle.std.specs.List.{Contains};
ghost use Rattle.al_base.specs.Batch.{Finding, finding_of};
ghost use Rattle.al_unit_faults.specs.Orders.{ascending};
ghost use Rattle.al_unit_faults.specs.Spots.{finding_at, spot_of};

use al_base::{Diagnostic, Name, NoMemory, Place};
use std::alloc::Global;
use std::collections::BTreeSet;

/// The line, the column and the number of each, in order, none twice.
fn spots(alloc: Global, found: &[Diagnostic]) -> Result<BTreeSet<(u32, u32, u16)>, NoMemory>
    ensures { IfOk result (λ spots. (file : List ℕ) → map (finding_at file) spots.keys ≡ ascending (map (λ d. finding_at file (spot_of d)) found.now)) }
{
    let mut spots = BTreeSet::new(alloc);
    for d in found {
        spots.insert((d.place.line, d.place.col, d.code))?;
    }
    Ok(spots)
}

/// Adds what is found wrong with a file by place and number, none twice.
pub(crate) fn add_ascending(
    alloc: Global,
    file: &[u8],
    found: &[Diagnostic],
    all: &mut Vec<Diagnostic>,
) -> Result<(), NoMemory>
    requires { (f : Finding) → Contains (map finding_of found.now) f → f.file ≡ file.now }
    ensures { OnOk result (map finding_of all.new.items ≡ map finding_of all.old.items ++ ascending (map finding_of found.now)) }
{
    let spots = spots(alloc, found)?;
    for spot in spots.iter() {
        let (line, col, code) = *spot;
        let file = Name::from_slice(alloc, file)?;
        let place = Place { line, col };
        all.push(Diagnostic { file, place, code })?;
    }
    Ok(())
}
