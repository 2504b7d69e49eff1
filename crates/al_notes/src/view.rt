// What notes on one diagnostic are made from.
use crate::file_names::{is_file_of, stem};
use crate::near::Mark;
use crate::predefined::is_predefined;
use crate::said::Said;
use crate::words::is_same;
use al_base::Files;
use al_expected::Grammar;
use al_sketch::{Declared, Sketch};
use al_subset::Subset;
use std::alloc::{AllocError, Global};

/// A diagnostic's file, the lexeme at its place, and what can be seen from there.
#[derive(Clone, Copy)]
pub struct View<'a> {
    pub alloc: Global,
    pub texts: &'a Files,
    /// What is declared in the files that are looked into: its own, its declaration's, those above it, and those that with clauses name.
    pub declared: &'a [Found<'a>],
    /// The packages that use clauses before the place name, and those of the declarations above.
    pub used: &'a [&'a [u8]],
    /// All files, for near names of units.
    pub marks: &'a [Mark],
    pub subset: &'a Subset,
    /// The rules, for a syntax error.
    pub grammar: Option<&'a Grammar>,
    pub file: &'a [u8],
    pub sketch: &'a Sketch,
    pub at: usize,
}

/// A declaration of one of the files.
#[derive(Clone, Copy)]
pub struct Found<'a> {
    pub file: &'a [u8],
    pub sketch: &'a Sketch,
    pub declared: Declared,
}

impl<'a> Found<'a> {
    /// Its name, as it is written.
    pub fn name(&self) -> &'a [u8] {
        self.sketch.word(self.declared.name)
    }

    /// Whether that is its name.
    pub fn is_named(&self, name: &[u8]) -> bool {
        self.sketch.is(self.declared.name, name)
    }

    /// Whether the definition of this type begins with a word.
    pub fn begins_with(&self, word: &[u8]) -> bool {
        self.sketch.is(self.declared.name.saturating_add(2), word)
    }

    /// Whether it is of that unit, and not inside anything else there.
    pub fn is_in_unit(&self, unit: &[u8]) -> bool {
        self.declared.scope > 0
            && self.sketch.is_outermost(self.declared.scope)
            && is_file_of(self.file, unit)
    }

    /// Goes on with where it is declared: at FILE:LINE; of a predefined one in its unit.
    pub fn add_place(&self, said: &mut Said) {
        said.add(if is_predefined(self.file) {
            b"in "
        } else {
            b"at "
        });
        self.add_spot(said);
    }

    /// Goes on with FILE:LINE of its name; of a predefined one with its unit.
    pub fn add_spot(&self, said: &mut Said) {
        if is_predefined(self.file) {
            said.add(self.unit());
        } else {
            said.add_place(self.file, self.sketch.line(self.declared.name));
        }
    }

    /// The library unit that its file holds, as it is written there.
    pub fn unit(&self) -> &'a [u8] {
        match self.sketch.declared().first() {
            Some(unit) => {
                let first = self.sketch.name_start(unit.name);
                self.sketch.words(first, unit.name.saturating_add(1))
            }
            None => stem(self.file),
        }
    }

    /// The mark of its subtype, as it is written.
    pub fn mark(&self) -> &'a [u8] {
        let (from, to) = self.declared.mark;
        if to == 0 {
            &[]
        } else {
            self.sketch.words(from, to)
        }
    }
}

impl<'a> View<'a> {
    /// The lexeme at the place, as it is written.
    pub fn word(&self) -> &'a [u8] {
        self.sketch.word(self.at)
    }

    /// Whether a declaration is of the diagnostic's file.
    pub fn has(&self, found: &Found<'_>) -> bool {
        is_same(found.file, self.file)
    }

    /// Whether a use clause at the place makes visible what a file's unit declares.
    pub fn is_used(&self, file: &[u8]) -> bool {
        for unit in self.used {
            if is_file_of(file, unit) {
                return true;
            }
        }
        false
    }

    /// The declaration of the diagnostic's file whose name is at a lexeme.
    pub fn own(&self, name: usize) -> Option<&'a Found<'a>> {
        for found in self.declared {
            if found.declared.name == name && self.has(found) {
                return Some(found);
            }
        }
        None
    }
}

/// Adds what a file declares.
///
/// # Errors
///
/// `AllocError` if memory runs out.
pub fn add_declared<'a>(
    file: &'a [u8],
    sketch: &'a Sketch,
    all: &mut Vec<Found<'a>>,
) -> Result<(), AllocError> {
    for declared in sketch.declared() {
        all.push(Found {
            file,
            sketch,
            declared: *declared,
        })?;
    }
    Ok(())
}
