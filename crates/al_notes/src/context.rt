// What context clauses and use clauses name.
use al_sketch::Sketch;
use std::alloc::{AllocError, Global};

/// The names in a source's with clauses.
///
/// # Errors
///
/// `AllocError` if memory runs out.
pub fn withs_of<'a>(alloc: Global, sketch: &'a Sketch) -> Result<Vec<&'a [u8]>, AllocError> {
    let mut names = Vec::new(alloc);
    let end = match sketch.scopes().get(1) {
        Some(unit) => unit.start,
        None => sketch.len(),
    };
    for index in 0..end.min(sketch.len()) {
        let is_first = index == 0 || sketch.is(index.saturating_sub(1), b";");
        if is_first && sketch.is(index, b"with") {
            add_names(sketch, index, &mut names)?;
        }
    }
    Ok(names)
}

/// Adds the packages that use clauses before a lexeme name.
///
/// # Errors
///
/// `AllocError` if memory runs out.
pub fn add_used<'a>(
    sketch: &'a Sketch,
    end: usize,
    names: &mut Vec<&'a [u8]>,
) -> Result<(), AllocError> {
    for index in 0..end.min(sketch.len()) {
        if sketch.is(index, b"use") {
            add_names(sketch, index, names)?;
        }
    }
    Ok(())
}

// Adds the names behind a word, up to the semicolon.
fn add_names<'a>(
    sketch: &'a Sketch,
    word: usize,
    names: &mut Vec<&'a [u8]>,
) -> Result<(), AllocError> {
    let mut at = word.saturating_add(1);
    for _name in 0..sketch.len() {
        if !sketch.is_identifier(at) {
            break;
        }
        let end = sketch.name_end(at);
        names.push(sketch.words(at, end))?;
        if !sketch.is(end, b",") {
            break;
        }
        at = end.saturating_add(1);
    }
    Ok(())
}
