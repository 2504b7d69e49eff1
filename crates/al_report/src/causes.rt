// For which faulty files units weren't checked.
use crate::noted::is_dependent;
use al_base::{Diagnostic, Files};
use al_notes::needs_of;
use std::alloc::{AllocError, Global};
use std::collections::BTreeMap;

/// How many causes there are at most.
const MOST: usize = 5;

/// A faulty file, and how many units weren't checked for it.
pub struct Cause {
    pub file: Vec<u8>,
    pub units: usize,
}

impl Drop for Cause {
    fn drop(self) {
        let Cause { file: _, units: _ } = self;
    }
}

/// The faulty files for which units weren't checked, those with most units first, at most five: a unit counts for each that it depends on,
/// by way of others too, as far as sources tell.
///
/// # Errors
///
/// If out of memory.
pub fn causes_of(
    alloc: Global,
    texts: &Files,
    found: &[Diagnostic],
) -> Result<Vec<Cause>, AllocError> {
    let needs = needs_of_dependents(alloc, texts, found)?;
    let mut causes: Vec<Cause> = Vec::new(alloc);
    let mut last: &[u8] = &[];
    for diagnostic in found {
        let file = diagnostic.file.as_slice();
        if is_dependent(diagnostic) || file == last || causes.len() >= MOST {
            continue;
        }
        last = file;
        let units = count_reaching(alloc, &needs, file)?;
        if units > 0 {
            let file = Vec::from_slice(alloc, file)?;
            causes.push(Cause { file, units })?;
        }
    }
    Ok(causes)
}

// Of each unit that wasn't checked, the files that it needs.
fn needs_of_dependents(
    alloc: Global,
    texts: &Files,
    found: &[Diagnostic],
) -> Result<BTreeMap<Vec<u8>, Vec<Vec<u8>>>, AllocError> {
    let mut needs = BTreeMap::new(alloc);
    for diagnostic in found {
        if is_dependent(diagnostic) {
            let file = diagnostic.file.as_slice();
            let text = texts.get(file).unwrap_or(&[]);
            let named = needs_of(alloc, texts, file, text)?;
            let name = Vec::from_slice(alloc, file)?;
            needs.insert(name, named)?;
        }
    }
    Ok(needs)
}

// How many of these files need a file, by way of others among them too.
fn count_reaching(
    alloc: Global,
    needs: &BTreeMap<Vec<u8>, Vec<Vec<u8>>>,
    file: &[u8],
) -> Result<usize, AllocError> {
    let mut reached: BTreeMap<Vec<u8>, ()> = BTreeMap::new(alloc);
    reached.insert(Vec::from_slice(alloc, file)?, ())?;
    for _round in 0..64 {
        let before = reached.len();
        for (name, named) in needs.iter() {
            if reached.get(name.as_slice()).is_none() && needs_one(named.as_slice(), &reached) {
                reached.insert(Vec::from_slice(alloc, name.as_slice())?, ())?;
            }
        }
        if reached.len() == before {
            break;
        }
    }
    Ok(reached.len().saturating_sub(1))
}

fn needs_one(named: &[Vec<u8>], reached: &BTreeMap<Vec<u8>, ()>) -> bool {
    for name in named {
        if reached.get(name.as_slice()).is_some() {
            return true;
        }
    }
    false
}
