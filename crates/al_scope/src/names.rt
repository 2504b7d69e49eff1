// Sets of names.
ghost use Rattle.std.specs.Prelude.{◌≡◌, [], OnErr, OnOk};
ghost use Rattle.std.specs.List.{list_any};
ghost use Rattle.std.specs.Str.{bytes_eq};
ghost use Rattle.std.specs.BTreeSet.{insert_key};
ghost use Rattle.al_base.specs.Files.{name_cmp};

use al_base::NoMemory;
use std::alloc::Global;
use std::collections::BTreeSet;
use std::marker::Model;

/// Names in the order of their bytes, each once. A name is found without a walk.
pub struct NameSet {
    alloc: Global,
    names: BTreeSet<Vec<u8>>,
}

impl Drop for NameSet {
    fn drop(self) {
        let NameSet { alloc: _, names: _ } = self;
    }
}

impl Model for NameSet {
    ghost use Rattle.std.specs.Prelude.{List, ℕ};
    ghost use Rattle.al_scope.specs.NameSets.{names_of};

    ghost Value = { List (List ℕ) };

    ghost view = { λ s. names_of s.names.keys };
}

impl NameSet {
    /// An empty set. It takes no memory.
    pub fn new(alloc: Global) -> Self
        ensures { result ≡ [] }
    {
        NameSet {
            alloc,
            names: BTreeSet::new(alloc),
        }
    }

    /// Whether the set has the name.
    pub fn contains(&self, name: &[u8]) -> bool
        ensures { result ≡ list_any (bytes_eq name.now) self.now }
    {
        self.names.contains(name)
    }

    /// Adds a name, unless the set has it.
    /// # Errors
    /// `NoMemory` if the allocator refuses memory; the set is unchanged then.
    pub fn insert(&mut self, name: &[u8]) -> Result<(), NoMemory>
        ensures ok { OnOk result (self.new ≡ insert_key name_cmp self.old name.now) }
        ensures err { OnErr result (self.new ≡ self.old) }
    {
        let name = Vec::from_slice(self.alloc, name)?;
        self.names.insert(name)?;
        Ok(())
    }
}
