// Names that are nearly those that were written.
use crate::said::folded;
use std::alloc::{AllocError, Global};
use strsim::osa_distance;

/// The name of a file's unit, and which letters it has.
pub struct Mark {
    pub name: Vec<u8>,
    pub letters: u64,
}

impl Drop for Mark {
    fn drop(self) {
        let Mark {
            name: _,
            letters: _,
        } = self;
    }
}

impl Mark {
    /// The mark of a unit's name.
    pub fn of(name: Vec<u8>) -> Mark {
        let letters = letters_of(name.as_slice());
        Mark { name, letters }
    }
}

// Which letters a name has: a bit for each letter, or for two of them.
fn letters_of(name: &[u8]) -> u64 {
    let mut letters = 0u64;
    for letter in name {
        letters |= 1u64 << (plain(*letter) & 63);
    }
    letters
}

/// The nearest of the names that were seen to one that was written.
pub struct Nearest {
    alloc: Global,
    wanted: String,
    /// Which letters it has.
    letters: u64,
    /// How many edits the nearest one is away at most.
    most: usize,
    name: Option<Vec<u8>>,
    /// Whether it is out of memory.
    is_short: bool,
}

impl Drop for Nearest {
    fn drop(self) {
        let Nearest {
            alloc: _,
            wanted: _,
            letters: _,
            most: _,
            name: _,
            is_short: _,
        } = self;
    }
}

impl Nearest {
    /// No name is near yet to the one that was written.
    ///
    /// # Errors
    ///
    /// `AllocError` if memory runs out.
    pub fn to(alloc: Global, wanted: &[u8]) -> Result<Nearest, AllocError> {
        let most = match wanted.len() {
            0..=2 => 0,
            3..=5 => 1,
            _ => 2,
        };
        Ok(Nearest {
            alloc,
            wanted: folded_text(alloc, wanted)?,
            letters: letters_of(wanted),
            most,
            name: None,
            is_short: false,
        })
    }

    /// Whether a name, or the name of its file, may be nearer than those before it, by its letters.
    pub fn may_be(&self, name: &[u8], letters: u64) -> bool {
        let wanted = self.wanted.as_bytes();
        // An edit takes a letter away at most, and adds one.
        let others = (self.letters ^ letters).count_ones() as usize;
        self.most > 0
            && name.len().abs_diff(wanted.len()) <= self.most
            && others <= self.most.saturating_add(self.most)
            && lacking(wanted, name, self.most) <= self.most
            && lacking(name, wanted, self.most) <= self.most
    }

    /// Sees a name: it is the nearest from now on, if it is nearer than those before it.
    pub fn see(&mut self, name: &[u8]) {
        if self.may_be(name, letters_of(name)) && self.look(name).is_err() {
            self.is_short = true;
        }
    }

    fn look(&mut self, name: &[u8]) -> Result<(), AllocError> {
        let distance = self.distance_to(name)?;
        if distance > 0 && distance <= self.most {
            self.name = Some(Vec::from_slice(self.alloc, name)?);
            self.most = distance.saturating_sub(1);
        }
        Ok(())
    }

    // How many edits a name is away.
    fn distance_to(&self, name: &[u8]) -> Result<usize, AllocError> {
        let text = folded_text(self.alloc, name)?;
        osa_distance(self.alloc, self.wanted.as_str(), text.as_str())
    }

    /// The nearest name, if one is near.
    ///
    /// # Errors
    ///
    /// `AllocError` if memory ran out for one.
    pub fn into_name(self) -> Result<Option<Vec<u8>>, AllocError> {
        let Nearest {
            alloc: _,
            wanted: _,
            letters: _,
            most: _,
            name,
            is_short,
        } = self;
        if is_short { Err(AllocError) } else { Ok(name) }
    }
}

// A name in lower case.
fn folded_text(alloc: Global, name: &[u8]) -> Result<String, AllocError> {
    let lower = folded(alloc, name)?;
    String::from_utf8_lossy(alloc, lower.as_slice())
}

// How many letters of the second name are not among those of the first one at most so many places away, counted to one more than the places:
// so many edits or more are between the names, if the edits are no more than the places.
fn lacking(first: &[u8], second: &[u8], places: usize) -> usize {
    let mut lacking = 0usize;
    for (at, letter) in second.iter().enumerate() {
        if first.get(at) != Some(letter) && !has_near(first, at, places, plain(*letter)) {
            lacking = lacking.saturating_add(1);
            if lacking > places {
                break;
            }
        }
    }
    lacking
}

// Whether a name has a letter at most so many places away from a place.
fn has_near(name: &[u8], at: usize, places: usize, letter: u8) -> bool {
    for place in at.saturating_sub(places)..at.saturating_add(places).saturating_add(1) {
        if let Some(other) = name.get(place) {
            if plain(*other) == letter {
                return true;
            }
        }
    }
    false
}

/// A letter in lower case, and the dot of a unit's name for what a file's name has in place of it.
pub fn plain(letter: u8) -> u8 {
    match letter {
        b'-' | b'~' => b'.',
        _ => letter.to_ascii_lowercase(),
    }
}
