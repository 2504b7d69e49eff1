// A map from units to values.
ghost use Rattle.std.specs.Prelude.{◌≡◌, [], map, IfOk, OnOk, OnErr, Some, if◌then◌else◌};
ghost use Rattle.std.specs.Option.{option_copied};
ghost use Rattle.al_base.specs.declared.unit_key.UnitKey.{UnitKey};
ghost use Rattle.al_view.specs.Symbols.{same_unit};
ghost use Rattle.al_query_store.specs.Units.{at_unit};

use al_base::{NoMemory, UnitKey};
use std::alloc::Global;
use std::collections::BTreeMap;
use std::marker::Model;

/// A finite map from units to values, in the order of the units: by the bytes of the names, and of one name the declaration, the
/// body, the subunit.
pub struct UnitMap<T> {
    alloc: Global,
    values: BTreeMap<UnitKey, T>,
}

impl<T: Drop> Drop for UnitMap<T> {
    fn drop(self) {
        let UnitMap {
            alloc: _,
            values: _,
        } = self;
    }
}

impl<T> Model for UnitMap<T> {
    ghost use Rattle.std.specs.Prelude.{List};
    ghost use Rattle.al_base.specs.declared.unit_key.UnitKey.{UnitKey};

    ghost Value = { List (UnitKey × T) };

    ghost view = { λ m. m.values.entries };
}

impl<T: Drop> UnitMap<T> {
    /// A map without units. It takes no memory.
    pub fn new(alloc: Global) -> Self
        ensures { result ≡ [] }
    {
        UnitMap {
            alloc,
            values: BTreeMap::new(alloc),
        }
    }

    /// The value at a unit. It takes no memory.
    pub fn get(&self, unit: &UnitKey) -> Option<&T>
        ensures { option_copied result ≡ at_unit self.now unit.now }
    {
        self.values.get(unit)
    }

    /// Sets the value of a unit. The unit may be new.
    ///
    /// # Errors
    ///
    /// `NoMemory` if the allocator refuses memory. Nothing has changed then.
    pub fn insert(&mut self, unit: UnitKey, value: T) -> Result<(), NoMemory>
        ensures ok { OnOk result ((u : UnitKey) → at_unit self.new u ≡ (if same_unit unit u then Some value else at_unit self.old u)) }
        ensures err { OnErr result (self.new ≡ self.old) }
    {
        let Ok(_) = self.values.insert(unit, value) else {
            return Err(NoMemory);
        };
        Ok(())
    }

    /// The units with their values, in order.
    ///
    /// # Errors
    ///
    /// `NoMemory` if the allocator refuses memory.
    pub fn list(&self) -> Result<Vec<(&UnitKey, &T)>, NoMemory>
        ensures { IfOk result (λ list. map (λ e. (e.0.now, e.1.now)) list.items ≡ self.now) }
    {
        let mut list = Vec::with_capacity(self.alloc, self.values.len())?;
        for (unit, value) in self.values.iter() {
            list.push((unit, value))?;
        }
        Ok(list)
    }
}
