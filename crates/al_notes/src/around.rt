// The files whose declarations can be seen in a file.
use crate::context::withs_of;
use crate::file_names::{body_file, declaration_file, is_body_file, parent_of, unit_of_file};
use crate::predefined::is_predefined;
use crate::said::folded;
use al_base::Files;
use al_sketch::Sketch;
use std::alloc::{AllocError, Global};

/// What is named in a file's context clause; of the file that is asked for, Standard, its declaration and the units above it too.
///
/// # Errors
///
/// `AllocError` if memory runs out.
pub fn files_around(
    alloc: Global,
    texts: &Files,
    file: &[u8],
    sketch: &Sketch,
    is_first: bool,
) -> Result<Vec<Vec<u8>>, AllocError> {
    let mut names = Vec::new(alloc);
    if is_first {
        names.push(Vec::from_slice(alloc, b"standard")?)?;
        add_above(alloc, texts, file, &mut names)?;
    }
    add_withs(alloc, texts, sketch, &mut names)?;
    Ok(names)
}

// Adds the declaration of the unit, and of the units above it.
fn add_above(
    alloc: Global,
    texts: &Files,
    file: &[u8],
    names: &mut Vec<Vec<u8>>,
) -> Result<(), AllocError> {
    let unit = unit_of_file(alloc, file)?;
    let mut above = Some(unit.as_slice());
    for _above in 0..32 {
        let Some(name) = above else {
            break;
        };
        let may_be_body = name.len() < unit.len() && is_body_file(file);
        add_file(alloc, texts, name, may_be_body, names)?;
        above = parent_of(name);
    }
    Ok(())
}

// Adds the file of a unit's declaration, if there is one, or else that of its body where that may be.
fn add_file(
    alloc: Global,
    texts: &Files,
    unit: &[u8],
    may_be_body: bool,
    names: &mut Vec<Vec<u8>>,
) -> Result<(), AllocError> {
    if has_declaration(alloc, texts, unit)? {
        names.push(declaration_file(alloc, unit)?)?;
    } else if may_be_body {
        names.push(body_file(alloc, unit)?)?;
    }
    Ok(())
}

// Whether a unit's declaration is there.
fn has_declaration(alloc: Global, texts: &Files, unit: &[u8]) -> Result<bool, AllocError> {
    let file = declaration_file(alloc, unit)?;
    Ok(texts.get(file.as_slice()).is_some())
}

// Adds the units that with clauses name.
fn add_withs(
    alloc: Global,
    texts: &Files,
    sketch: &Sketch,
    names: &mut Vec<Vec<u8>>,
) -> Result<(), AllocError> {
    for unit in withs_of(alloc, sketch)?.iter() {
        add_unit(alloc, texts, unit, names)?;
    }
    Ok(())
}

fn add_unit(
    alloc: Global,
    texts: &Files,
    unit: &[u8],
    names: &mut Vec<Vec<u8>>,
) -> Result<(), AllocError> {
    let lower = folded(alloc, unit)?;
    if is_predefined(lower.as_slice()) {
        names.push(lower)?;
        return Ok(());
    }
    add_file(alloc, texts, unit, true, names)
}

/// The files that a file needs by its context clause and by its name: its declaration, those above it, and those that are named.
///
/// # Errors
///
/// If out of memory.
pub fn needs_of(
    alloc: Global,
    texts: &Files,
    file: &[u8],
    text: &[u8],
) -> Result<Vec<Vec<u8>>, AllocError> {
    let sketch = Sketch::of(alloc, text)?;
    files_around(alloc, texts, file, &sketch, true)
}
