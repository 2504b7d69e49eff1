// Keys of units in order.
ghost use Rattle.std.specs.Prelude.{◌≡◌, [], map, IfOk, OnOk};
ghost use Rattle.std.specs.BTreeSet.{insert_key};
ghost use Rattle.al_base.specs.Batch.{key_of};
ghost use Rattle.al_unit_graph.specs.Orders.{key_cmp};

use al_base::{Name, NoMemory, UnitKey, UnitKind};
use std::alloc::Global;
use std::collections::BTreeSet;
use std::marker::Model;

/// Keys of units, each once: by the bytes of the names, and of one name the declaration, the body, the subunit.
#[derive(Drop)]
pub struct KeySet {
    alloc: Global,
    keys: BTreeSet<(Vec<u8>, UnitKind)>,
}

impl Model for KeySet {
    ghost use Rattle.std.specs.Prelude.{List};
    ghost use Rattle.al_base.specs.Batch.{Key};
    ghost use Rattle.al_unit_graph.specs.Orders.{keys_model};

    ghost Value = { List Key };

    ghost view = { λ s. keys_model s.keys.keys };
}

impl KeySet {
    /// A set without keys.
    pub fn new(alloc: Global) -> Self
        ensures { result ≡ [] }
    {
        KeySet {
            alloc,
            keys: BTreeSet::new(alloc),
        }
    }

    /// Adds a key, unless it is there.
    ///
    /// # Errors
    ///
    /// `NoMemory` if the allocator refuses memory. What the set then has isn't specified.
    pub fn insert(&mut self, key: UnitKey) -> Result<(), NoMemory>
        ensures { OnOk result (self.new ≡ insert_key key_cmp self.old (key_of key)) }
    {
        let UnitKey { name, kind } = key;
        let name = name.into_vec(self.alloc)?;
        self.keys.insert((name, kind))?;
        Ok(())
    }

    /// The keys in their order.
    ///
    /// # Errors
    ///
    /// `NoMemory` if the allocator refuses memory.
    pub fn into_keys(self) -> Result<Vec<UnitKey>, NoMemory>
        ensures { IfOk result (λ keys. map key_of keys.items ≡ self) }
    {
        let KeySet { alloc, keys } = self;
        let mut list = Vec::new(alloc);
        for (name, kind) in keys {
            list.push(UnitKey {
                name: Name::new(name),
                kind,
            })?;
        }
        Ok(list)
    }
}
