// Which sources are in which folders.
use crate::failure::Failure;
use std::alloc::Global;
use std::collections::{BTreeMap, BTreeSet};

/// The sources of some folders by name, each with the number of its folder.
#[derive(Drop)]
pub struct Index {
    pub places: BTreeMap<String, usize>,
    /// The sources that are in a second folder too, with the number of that folder.
    pub doubles: BTreeMap<String, usize>,
    /// The names that were listed.
    pub listed: Vec<u8>,
    /// Whether each folder could be read.
    pub is_whole: bool,
}

impl Index {
    /// No sources.
    pub fn new(alloc: Global) -> Index {
        Index {
            places: BTreeMap::new(alloc),
            doubles: BTreeMap::new(alloc),
            listed: Vec::new(alloc),
            is_whole: true,
        }
    }

    /// The names that were listed. They are taken out.
    pub fn take_listed(&mut self, alloc: Global) -> Vec<u8> {
        std::mem::replace(&mut self.listed, Vec::new(alloc))
    }

    /// Adds a source of a folder.
    ///
    /// # Errors
    ///
    /// `Memory` if memory runs out.
    pub fn add(&mut self, name: String, folder: usize) -> Result<(), Failure> {
        if self.places.contains_key(name.as_str()) {
            let _before = self.doubles.insert(name, folder)?;
        } else {
            let _before = self.places.insert(name, folder)?;
        }
        Ok(())
    }
}

/// The names that were reported, so that a watch reports each once.
#[derive(Drop)]
pub struct Told {
    names: BTreeSet<String>,
}

impl Told {
    /// No names.
    pub fn new(alloc: Global) -> Told {
        Told {
            names: BTreeSet::new(alloc),
        }
    }

    /// Whether a name is new. It isn't afterwards.
    ///
    /// # Errors
    ///
    /// `Memory` if memory runs out.
    pub fn is_new(&mut self, name: String) -> Result<bool, Failure> {
        Ok(self.names.insert(name)?)
    }
}
