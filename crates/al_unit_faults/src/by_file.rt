// The units of a library, by file.
ghost use Rattle.std.specs.Prelude.{◌≡◌, map, IfOk};
ghost use Rattle.al_base.specs.Batch.{key_of};
ghost use Rattle.al_unit_graph.specs.Headers.{key_of_unit};
ghost use Rattle.al_unit_graph.specs.Views.{header_model};
ghost use Rattle.al_unit_faults.specs.Units.{unit_model, unit_of_file, units_of};

use al_base::{Name, NoMemory, UnitKey};
use al_unit_graph::{Header, Sources, kind_of};
use std::alloc::Global;

/// The key of the unit that a file holds.
pub(crate) fn key_of_header(alloc: Global, header: &Header) -> Result<UnitKey, NoMemory>
    ensures { IfOk result (λ key. key_of key ≡ key_of_unit (header_model header.now)) }
{
    Ok(UnitKey {
        name: Name::from_slice(alloc, header.name.as_slice())?,
        kind: kind_of(header.form),
    })
}

/// A file and the unit that it holds, if it is sound.
fn unit_of_file(
    alloc: Global,
    sources: &Sources,
    file: &[u8],
) -> Result<(Name, Option<UnitKey>), NoMemory>
    ensures { IfOk result (λ unit. unit_model unit ≡ unit_of_file sources.now file.now) }
{
    let name = Name::from_slice(alloc, file)?;
    match sources.unit_in(file) {
        Some(header) => Ok((name, Some(key_of_header(alloc, header)?))),
        None => Ok((name, None)),
    }
}

/// Each file, in the order of the names, and the unit that it holds, if it is sound.
///
/// # Errors
///
/// `NoMemory` if the allocator refuses memory.
#[tactic(auto, unfolding(crate::specs::Units::units_of))]
pub fn units(alloc: Global, sources: &Sources) -> Result<Vec<(Name, Option<UnitKey>)>, NoMemory>
    ensures { IfOk result (λ units. map unit_model units.items ≡ units_of sources.now) }
{
    let files = sources.file_names()?;
    let mut units = Vec::new(alloc);
    for file in &files {
        units.push(unit_of_file(alloc, sources, file)?)?;
    }
    Ok(units)
}
