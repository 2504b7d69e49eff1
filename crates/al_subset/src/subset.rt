// The tables of the subset, read once.
use crate::constructs::{Construct, add_constructs};
use crate::fitting::told_by;
use crate::patterns::{MISTAKES, PATTERNS, Pattern, add_patterns};
use crate::units::{NAMES, UNITS, Unknown, add_names, named, unit_named};
use al_sketch::Sketch;
use std::alloc::{AllocError, Global};

/// What of Ada isn't in the subset.
pub struct Subset {
    mistakes: Vec<Pattern>,
    patterns: Vec<Pattern>,
    constructs: Vec<Construct>,
    names: Vec<Unknown>,
    units: Vec<Unknown>,
}

impl Drop for Subset {
    fn drop(self) {
        let Subset {
            mistakes: _,
            patterns: _,
            constructs: _,
            names: _,
            units: _,
        } = self;
    }
}

impl Subset {
    /// All tables.
    ///
    /// # Errors
    ///
    /// `AllocError` if memory runs out.
    pub fn new(alloc: Global) -> Result<Subset, AllocError> {
        let mut subset = Subset {
            mistakes: Vec::new(alloc),
            patterns: Vec::new(alloc),
            constructs: Vec::new(alloc),
            names: Vec::new(alloc),
            units: Vec::new(alloc),
        };
        subset.read()?;
        Ok(subset)
    }

    fn read(&mut self) -> Result<(), AllocError> {
        add_patterns(MISTAKES, &mut self.mistakes)?;
        add_patterns(PATTERNS, &mut self.patterns)?;
        add_constructs(&mut self.constructs)?;
        add_names(NAMES, &mut self.names)?;
        add_names(UNITS, &mut self.units)
    }

    /// What isn't Ada at the lexeme of a syntax error, if that is known.
    pub fn mistake_at(&self, sketch: &Sketch, fault: usize) -> Option<&'static str> {
        told_by(self.mistakes.as_slice(), sketch, fault)
    }

    /// The construct outside the subset that a source has at the lexeme of a syntax error, if one is known.
    pub fn construct_at(&self, sketch: &Sketch, fault: usize) -> Option<Construct> {
        self.construct(told_by(self.patterns.as_slice(), sketch, fault)?)
    }

    /// The construct of a key.
    pub fn construct(&self, key: &str) -> Option<Construct> {
        for construct in self.constructs.iter() {
            if construct.key == key {
                return Some(*construct);
            }
        }
        None
    }

    /// The names of Standard and of predefined units that Ada has and the subset doesn't.
    pub fn names(&self) -> &[Unknown] {
        self.names.as_slice()
    }

    /// One of these names, in any case of letters.
    pub fn name(&self, name: &[u8]) -> Option<Unknown> {
        named(self.names.as_slice(), name)
    }

    /// A library unit that Ada has and the subset doesn't: itself, or one above it.
    pub fn unit(&self, name: &[u8]) -> Option<Unknown> {
        unit_named(self.units.as_slice(), name)
    }
}
