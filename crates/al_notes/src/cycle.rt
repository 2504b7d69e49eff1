// E203: how a unit depends on itself.
use crate::context::withs_of;
use crate::file_names::{declaration_file, parent_of, unit_of_file};
use crate::said::Said;
use crate::view::View;
use crate::words::is_same;
use crate::{add, note};
use al_sketch::Sketch;
use std::alloc::AllocError;

/// How many units are gone through at most.
const MOST: usize = 200;

// A unit's declaration on the way, and the one that led to it.
struct Step {
    file: Vec<u8>,
    from: usize,
}

impl Drop for Step {
    fn drop(self) {
        let Step { file: _, from: _ } = self;
    }
}

/// Tells the units of a cycle one by one, as far as declarations make it.
pub fn cycle(view: &View<'_>, said: &mut Said) {
    let mut steps: Vec<Step> = Vec::new(view.alloc);
    if let Some(last) = said.made_some(find_cycle(view, &mut steps)) {
        tell_cycle(view, steps.as_slice(), last, said);
    }
}

fn tell_cycle(view: &View<'_>, steps: &[Step], last: usize, said: &mut Said) {
    said.add(view.file);
    for many in (0..steps.len()).rev() {
        if let Some(file) = file_before(steps, last, many) {
            add!(said; b" depends on ", file, b", which");
        }
    }
    note!(said; b" depends on ", view.file)
}

// The file of the step that many before one, if that isn't the first.
fn file_before(steps: &[Step], last: usize, many: usize) -> Option<&[u8]> {
    let mut at = last;
    for _step in 0..many {
        at = steps.get(at)?.from;
    }
    if at == 0 {
        return None;
    }
    Some(steps.get(at)?.file.as_slice())
}

// Goes through the units that the diagnostic's one depends on, the nearest first, up to one that depends on it.
fn find_cycle(view: &View<'_>, steps: &mut Vec<Step>) -> Result<Option<usize>, AllocError> {
    let file = Vec::from_slice(view.alloc, view.file)?;
    steps.push(Step { file, from: 0 })?;
    for number in 0..MOST {
        let Some(step) = steps.get(number) else {
            break;
        };
        let named = named_by(view, step.file.as_slice())?;
        for file in named.iter() {
            if is_same(file.as_slice(), view.file) {
                return Ok(Some(number));
            }
        }
        add(steps, named, number)?;
    }
    Ok(None)
}

fn add(steps: &mut Vec<Step>, named: Vec<Vec<u8>>, from: usize) -> Result<(), AllocError> {
    for file in named {
        if steps.len() < MOST && !is_among(steps.as_slice(), file.as_slice()) {
            steps.push(Step { file, from })?;
        }
    }
    Ok(())
}

fn is_among(steps: &[Step], file: &[u8]) -> bool {
    for step in steps {
        if is_same(step.file.as_slice(), file) {
            return true;
        }
    }
    false
}

// The declarations that a file's context clause names, and its parent's.
fn named_by(view: &View<'_>, file: &[u8]) -> Result<Vec<Vec<u8>>, AllocError> {
    let mut named = Vec::new(view.alloc);
    if let Some(text) = view.texts.get(file) {
        add_withs(view, text, &mut named)?;
        add_parent(view, file, &mut named)?;
    }
    Ok(named)
}

// Adds the declarations that a source's context clause names.
fn add_withs(view: &View<'_>, text: &[u8], named: &mut Vec<Vec<u8>>) -> Result<(), AllocError> {
    let sketch = Sketch::of(view.alloc, text)?;
    for unit in withs_of(view.alloc, &sketch)?.iter() {
        add_declaration(view, unit, named)?;
    }
    Ok(())
}

// Adds the declaration of the parent of a file's unit.
fn add_parent(view: &View<'_>, file: &[u8], named: &mut Vec<Vec<u8>>) -> Result<(), AllocError> {
    let unit = unit_of_file(view.alloc, file)?;
    match parent_of(unit.as_slice()) {
        Some(parent) => add_declaration(view, parent, named),
        None => Ok(()),
    }
}

fn add_declaration(
    view: &View<'_>,
    unit: &[u8],
    named: &mut Vec<Vec<u8>>,
) -> Result<(), AllocError> {
    let file = declaration_file(view.alloc, unit)?;
    named.push(file)?;
    Ok(())
}
