// Sets of names.
ghost use Rattle.std.specs.Prelude.{◌≡◌, [], IfOk, OnOk};
ghost use Rattle.std.specs.List.{list_any};
ghost use Rattle.std.specs.Str.{bytes_eq};
ghost use Rattle.indexmap.specs.IndexSet.{insert_key};

use al_base::{Name, NoMemory};
use indexmap::IndexSet;
use std::alloc::Global;
use std::marker::Model;

/// A set of names: each is in it once, in the order of insertion, and is found by hashing.
pub struct NameSet {
    names: IndexSet<Name>,
}

impl Drop for NameSet {
    fn drop(self) {
        let NameSet { names: _ } = self;
    }
}

impl Model for NameSet {
    ghost use Rattle.std.specs.Prelude.{List, ℕ};

    ghost Value = { List (List ℕ) };

    ghost view = { λ s. s.names.keys };
}

impl NameSet {
    /// The empty set. It takes no memory.
    pub fn new(alloc: Global) -> Self
        ensures { result ≡ [] }
    {
        NameSet {
            names: IndexSet::new(alloc),
        }
    }

    /// The names, in their order.
    pub fn as_slice(&self) -> &[Name]
        ensures { result.now ≡ self.now }
    {
        self.names.as_slice()
    }

    /// Whether the name is in the set.
    pub fn contains(&self, name: &Name) -> bool
        ensures { result ≡ list_any (bytes_eq name.now) self.now }
    {
        self.names.contains(name)
    }

    /// Adds a name, unless it is in the set.
    ///
    /// # Errors
    /// `NoMemory` if the allocator refuses memory.
    pub fn insert(&mut self, name: Name) -> Result<(), NoMemory>
        ensures { OnOk result (self.new ≡ insert_key bytes_eq self.old name) }
    {
        self.names.insert(name)?;
        Ok(())
    }

    /// A copy of the set.
    ///
    /// # Errors
    /// `NoMemory` if the allocator refuses memory.
    pub fn copy(&self, alloc: Global) -> Result<NameSet, NoMemory>
        ensures { IfOk result (λ copy. copy ≡ self.now) }
    {
        let mut copy = NameSet::new(alloc);
        for name in self.names.as_slice() {
            let name = Name::from_slice(alloc, name.as_slice())?;
            copy.insert(name)?;
        }
        Ok(copy)
    }
}
