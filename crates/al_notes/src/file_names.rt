// Names of files and of units.
use crate::near::plain;
use crate::predefined::is_predefined;
use crate::said::folded;
use al_base::{Name, UnitKey, UnitKind, file_name_of};
use std::alloc::{AllocError, Global};

/// The file of a unit's declaration.
///
/// # Errors
///
/// `AllocError` if memory runs out.
pub fn declaration_file(alloc: Global, unit: &[u8]) -> Result<Vec<u8>, AllocError> {
    file_of(alloc, unit, UnitKind::Decl)
}

/// The file of a unit's body, or of a subunit.
///
/// # Errors
///
/// `AllocError` if memory runs out.
pub fn body_file(alloc: Global, unit: &[u8]) -> Result<Vec<u8>, AllocError> {
    file_of(alloc, unit, UnitKind::Body)
}

fn file_of(alloc: Global, unit: &[u8], kind: UnitKind) -> Result<Vec<u8>, AllocError> {
    let name = Name::new(folded(alloc, unit)?);
    match file_name_of(alloc, &UnitKey { name, kind }) {
        Ok(name) => Vec::from_slice(alloc, name.as_slice()),
        Err(_no_memory) => Err(AllocError),
    }
}

/// The unit that a file's name is of.
///
/// # Errors
///
/// `AllocError` if memory runs out.
pub fn unit_of_file(alloc: Global, file: &[u8]) -> Result<Vec<u8>, AllocError> {
    let mut unit = Vec::from_slice(alloc, stem(file))?;
    for byte in unit.iter_mut() {
        if matches!(*byte, b'-' | b'~') {
            *byte = b'.';
        }
    }
    Ok(unit)
}

/// A file's name without its ending.
pub fn stem(file: &[u8]) -> &[u8] {
    file.get(..file.len().saturating_sub(4)).unwrap_or(file)
}

/// Whether a file, or a predefined unit, is one of that unit: its declaration, its body.
pub fn is_file_of(file: &[u8], unit: &[u8]) -> bool {
    let name = if is_predefined(file) {
        file
    } else {
        stem(file)
    };
    if name.len() != unit.len() {
        return false;
    }
    for (one, other) in name.iter().zip(unit.iter()) {
        if plain(*one) != plain(*other) {
            return false;
        }
    }
    true
}

/// Whether a file is of a file's unit, or of a unit above it.
pub fn is_above(file: &[u8], of: &[u8]) -> bool {
    match stem(of).strip_prefix(stem(file)) {
        Some([] | [b'-' | b'~', ..]) => true,
        _ => false,
    }
}

/// Whether a file's name is that of a body or a subunit.
pub fn is_body_file(file: &[u8]) -> bool {
    matches!(file.last(), Some(b'b'))
}

/// The parent of a unit, if its name has one.
pub fn parent_of(unit: &[u8]) -> Option<&[u8]> {
    let mut dot = None;
    for (at, byte) in unit.iter().enumerate() {
        if *byte == b'.' {
            dot = Some(at);
        }
    }
    unit.get(..dot?)
}
