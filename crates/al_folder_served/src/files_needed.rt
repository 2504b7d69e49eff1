// The files of the units that a source names.
use crate::failure::Failure;
use crate::needed::units_named;
use al_base::{FileKey, UnitKind};
use std::alloc::Global;

/// Adds the files of the units that a source names, and of these units' ancestors.
///
/// # Errors
///
/// `Memory` if memory runs out.
pub fn add_needed(alloc: Global, text: &[u8], files: &mut Vec<String>) -> Result<(), Failure> {
    for name in units_named(alloc, text)? {
        let bytes = name.as_slice();
        add_files(alloc, bytes, files)?;
        for at in 0..bytes.len() {
            if bytes[at] == b'.' {
                add_files(alloc, &bytes[..at], files)?;
            }
        }
    }
    Ok(())
}

/// Adds the files of a unit.
///
/// # Errors
///
/// `Memory` if memory runs out.
pub fn add_files(alloc: Global, unit: &[u8], files: &mut Vec<String>) -> Result<(), Failure> {
    add_file(alloc, unit, UnitKind::Body, files)?;
    add_file(alloc, unit, UnitKind::Decl, files)
}

fn add_file(
    alloc: Global,
    unit: &[u8],
    kind: UnitKind,
    files: &mut Vec<String>,
) -> Result<(), Failure> {
    if let Some(file) = FileKey::of(unit, kind) {
        files.push(String::from_utf8_lossy(alloc, file.as_slice())?)?;
    }
    Ok(())
}

/// The name of the file of a unit's body; the unit's own name if that would be too long for a file.
///
/// # Errors
///
/// `Memory` if memory runs out.
pub fn body_file(alloc: Global, unit: &[u8]) -> Result<String, Failure> {
    match FileKey::of(unit, UnitKind::Body) {
        Some(file) => Ok(String::from_utf8_lossy(alloc, file.as_slice())?),
        None => Ok(String::from_utf8_lossy(alloc, unit)?),
    }
}
