// Keys of units, each once.
ghost use Rattle.std.specs.Prelude.{◌≡◌, [], map, IfOk, OnOk};
ghost use Rattle.al_base.specs.Batch.{key_of};
ghost use Rattle.al_unit_graph.specs.Closures.{is_same_key, with_item, with_items, AreAlike};

use al_base::{Name, NoMemory, UnitKey, UnitKind};
use std::alloc::Global;
use std::collections::BTreeSet;

/// Keys of units, each once, in the order in which they came, and as a set.
#[derive(Drop)]
pub(crate) struct KeyList {
    alloc: Global,
    pub(crate) keys: Vec<UnitKey>,
    seen: BTreeSet<(Vec<u8>, UnitKind)>,
}

/// A copy of the key.
pub(crate) fn copy_of(alloc: Global, key: &UnitKey) -> Result<UnitKey, NoMemory>
    ensures { IfOk result (λ copy. key_of copy ≡ key_of key.now) }
{
    Ok(UnitKey {
        name: Name::from_slice(alloc, key.name.as_slice())?,
        kind: key.kind,
    })
}

impl KeyList {
    /// A list without keys.
    pub(crate) fn new(alloc: Global) -> Self
        ensures keys { result.keys.items ≡ [] }
        ensures seen { result.seen.keys ≡ [] }
    {
        KeyList {
            alloc,
            keys: Vec::new(alloc),
            seen: BTreeSet::new(alloc),
        }
    }

    /// Adds a key, if it isn't there yet.
    fn add(&mut self, key: &UnitKey) -> Result<(), NoMemory>
        requires { AreAlike is_same_key (map (λ s. (s.0.items, s.1)) self.old.seen.keys) (map key_of self.old.keys.items) }
        ensures keys { OnOk result (map key_of self.new.keys.items ≡ with_item is_same_key (map key_of self.old.keys.items) (key_of key.now)) }
        ensures seen { OnOk result (AreAlike is_same_key (map (λ s. (s.0.items, s.1)) self.new.seen.keys) (map key_of self.new.keys.items)) }
    {
        let name = Vec::from_slice(self.alloc, key.name.as_slice())?;
        let is_new = self.seen.insert((name, key.kind))?;
        if !is_new {
            return Ok(());
        }
        let copy = copy_of(self.alloc, key)?;
        self.keys.push(copy)?;
        Ok(())
    }

    /// Adds the keys that aren't there yet.
    pub(crate) fn add_all(&mut self, more: &[UnitKey]) -> Result<(), NoMemory>
        requires { AreAlike is_same_key (map (λ s. (s.0.items, s.1)) self.old.seen.keys) (map key_of self.old.keys.items) }
        ensures keys { OnOk result (map key_of self.new.keys.items ≡ with_items is_same_key (map key_of self.old.keys.items) (map key_of more.now)) }
        ensures seen { OnOk result (AreAlike is_same_key (map (λ s. (s.0.items, s.1)) self.new.seen.keys) (map key_of self.new.keys.items)) }
    {
        for key in more {
            self.add(key)?;
        }
        Ok(())
    }
}
