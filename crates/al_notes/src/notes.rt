// Notes on a diagnostic.
use crate::around::files_around;
use crate::context::add_used;
use crate::file_names::{is_above, unit_of_file};
use crate::near::Mark;
use crate::predefined::predefined_text;
use crate::said::Said;
use crate::telling::tell;
use crate::view::{Found, View, add_declared};
use crate::words::is_same;
use al_base::{Diagnostic, Files};
use al_expected::Grammar;
use al_sketch::Sketch;
use al_subset::Subset;
use std::alloc::{AllocError, Global};
use std::collections::BTreeMap;

/// A file that was read, or a predefined unit.
struct Source {
    name: Vec<u8>,
    sketch: Sketch,
}

impl Drop for Source {
    fn drop(self) {
        let Source { name: _, sketch: _ } = self;
    }
}

/// Makes notes on diagnostics of some files.
pub struct Notes<'a> {
    alloc: Global,
    texts: &'a Files,
    /// What was read so far, and at which number it is.
    sources: Vec<Source>,
    numbers: BTreeMap<Vec<u8>, usize>,
    /// What isn't in the subset, once a diagnostic was seen; the rules, once a syntax error was.
    subset: Option<Subset>,
    grammar: Option<Grammar>,
    /// All files, once a unit was missing.
    marks: Vec<Mark>,
}

impl<'a> Drop for Notes<'a> {
    fn drop(self) {
        let Notes {
            alloc: _,
            texts: _,
            sources: _,
            numbers: _,
            subset: _,
            grammar: _,
            marks: _,
        } = self;
    }
}

impl<'a> Notes<'a> {
    /// Notes on diagnostics of these files. It takes no memory.
    pub fn over(alloc: Global, texts: &'a Files) -> Notes<'a> {
        Notes {
            alloc,
            texts,
            sources: Vec::new(alloc),
            numbers: BTreeMap::new(alloc),
            subset: None,
            grammar: None,
            marks: Vec::new(alloc),
        }
    }

    /// What is said of a diagnostic, a line each, without its `note: `.
    ///
    /// # Errors
    ///
    /// If out of memory.
    pub fn of(&mut self, found: &Diagnostic) -> Result<Vec<Vec<u8>>, AllocError> {
        self.load_tables(found.code)?;
        let around = self.load_around(found.file.as_slice(), found.code)?;
        let mut said = Said::new(self.alloc);
        self.say(found, around.as_slice(), &mut said)?;
        said.into_lines()
    }

    // Says what there is to say of a diagnostic, whose file is the first of these.
    fn say(
        &mut self,
        found: &Diagnostic,
        around: &[usize],
        said: &mut Said,
    ) -> Result<(), AllocError> {
        let Some(source) = source_at(self.sources.as_slice(), around.first()) else {
            return Ok(());
        };
        let Some(subset) = self.subset.as_ref() else {
            return Ok(());
        };
        let grammar = self.grammar.as_ref();
        let at = source.sketch.first_at(found.place.line, found.place.col);
        let declared = declared_in(self.alloc, self.sources.as_slice(), around)?;
        let used = used_at(self.alloc, self.sources.as_slice(), around, at)?;
        let view = view_of(
            self,
            source,
            subset,
            grammar,
            declared.as_slice(),
            used.as_slice(),
            at,
        );
        tell(&view, found.code, said);
        Ok(())
    }

    // Reads a file, or a predefined unit, unless it was read already; its number, if there is one.
    fn load(&mut self, file: &[u8]) -> Result<Option<usize>, AllocError> {
        if let Some(number) = self.numbers.get(file) {
            return Ok(Some(*number));
        }
        let found = match self.texts.get(file) {
            Some(text) => Some(text),
            None => predefined_text(file),
        };
        match found {
            Some(text) => self.read(file, text),
            None => Ok(None),
        }
    }

    fn read(&mut self, file: &[u8], text: &[u8]) -> Result<Option<usize>, AllocError> {
        let number = self.sources.len();
        let sketch = Sketch::of(self.alloc, text)?;
        let name = Vec::from_slice(self.alloc, file)?;
        self.sources.push(Source { name, sketch })?;
        let name = Vec::from_slice(self.alloc, file)?;
        self.numbers.insert(name, number)?;
        Ok(Some(number))
    }

    // Has the tables ready that notes on a code need.
    fn load_tables(&mut self, code: u16) -> Result<(), AllocError> {
        if self.subset.is_none() {
            self.subset = Some(Subset::new(self.alloc)?);
        }
        if code == 101 && self.grammar.is_none() {
            self.grammar = Some(Grammar::new(self.alloc)?);
        }
        if matches!(code, 202 | 205) {
            self.load_marks()?;
        }
        Ok(())
    }

    fn load_marks(&mut self) -> Result<(), AllocError> {
        if !self.marks.is_empty() {
            return Ok(());
        }
        let Ok(files) = self.texts.list() else {
            return Err(AllocError);
        };
        for (file, _text) in files.iter() {
            self.add_mark(file)?;
        }
        Ok(())
    }

    fn add_mark(&mut self, file: &[u8]) -> Result<(), AllocError> {
        let unit = unit_of_file(self.alloc, file)?;
        self.marks.push(Mark::of(unit))?;
        Ok(())
    }

    // Reads a file, and those whose declarations can be seen in it; their numbers, its own first.
    fn load_around(&mut self, file: &[u8], code: u16) -> Result<Vec<usize>, AllocError> {
        let mut around = Vec::new(self.alloc);
        let Some(own) = self.load(file)? else {
            return Ok(around);
        };
        around.push(own)?;
        if code < 200 {
            return Ok(around);
        }
        for next in 0..MOST_AROUND {
            self.load_named(file, next, &mut around)?;
        }
        Ok(around)
    }

    // Reads what is named in one of those files: in the file itself, and in the declarations above it.
    fn load_named(
        &mut self,
        file: &[u8],
        next: usize,
        around: &mut Vec<usize>,
    ) -> Result<(), AllocError> {
        let Some(source) = source_at(self.sources.as_slice(), around.get(next)) else {
            return Ok(());
        };
        let name = source.name.as_slice();
        if next > 0 && !is_above(name, file) {
            return Ok(());
        }
        let named = files_around(self.alloc, self.texts, name, &source.sketch, next == 0)?;
        for other in named.iter() {
            self.add_around(other.as_slice(), around)?;
        }
        Ok(())
    }

    // Reads a file and adds its number, unless it is there.
    fn add_around(&mut self, file: &[u8], around: &mut Vec<usize>) -> Result<(), AllocError> {
        let number = self.load(file)?;
        if let Some(number) = number {
            if around.len() < MOST_AROUND && !around.contains(&number) {
                around.push(number)?;
            }
        }
        Ok(())
    }
}

// What notes on a diagnostic of that source are made from.
fn view_of<'v>(
    notes: &'v Notes<'_>,
    source: &'v Source,
    subset: &'v Subset,
    grammar: Option<&'v Grammar>,
    declared: &'v [Found<'v>],
    used: &'v [&'v [u8]],
    at: usize,
) -> View<'v> {
    View {
        alloc: notes.alloc,
        texts: notes.texts,
        declared,
        used,
        marks: notes.marks.as_slice(),
        subset,
        grammar,
        file: source.name.as_slice(),
        sketch: &source.sketch,
        at,
    }
}

fn source_at<'b>(sources: &'b [Source], number: Option<&usize>) -> Option<&'b Source> {
    sources.get(*number?)
}

// What these files declare.
fn declared_in<'b>(
    alloc: Global,
    sources: &'b [Source],
    around: &[usize],
) -> Result<Vec<Found<'b>>, AllocError> {
    let mut declared = Vec::new(alloc);
    for number in around {
        if let Some(source) = sources.get(*number) {
            add_declared(source.name.as_slice(), &source.sketch, &mut declared)?;
        }
    }
    Ok(declared)
}

// What use clauses name: those before a lexeme of the first of these files, and those of the declarations above it.
fn used_at<'b>(
    alloc: Global,
    sources: &'b [Source],
    around: &[usize],
    at: usize,
) -> Result<Vec<&'b [u8]>, AllocError> {
    let mut used = Vec::new(alloc);
    let Some(own) = source_at(sources, around.first()) else {
        return Ok(used);
    };
    add_used(&own.sketch, at, &mut used)?;
    for number in around {
        if let Some(source) = sources.get(*number) {
            let is_own = is_same(source.name.as_slice(), own.name.as_slice());
            if !is_own && is_above(source.name.as_slice(), own.name.as_slice()) {
                add_used(&source.sketch, source.sketch.len(), &mut used)?;
            }
        }
    }
    Ok(used)
}

/// How many files are read for one diagnostic at most.
const MOST_AROUND: usize = 64;
