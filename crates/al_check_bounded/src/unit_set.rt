// Lists of units in which each is found by hashing.
ghost use Rattle.std.specs.Prelude.{◌≡◌, IfOk};
ghost use Rattle.al_check_bounded.specs.UnitLists.{AreAlike};
ghost use Rattle.al_query.specs.Known.{has_unit};

use al_base::{NoMemory, UnitKey};
use al_view::copied_unit;
use indexmap::IndexSet;
use std::alloc::Global;
use std::marker::Model;

/// A list of units in the order given. A unit is found by hashing.
pub struct UnitSet {
    listed: Vec<UnitKey>,
    /// The units of the list, each once.
    index: IndexSet<UnitKey>,
}

impl Drop for UnitSet {
    fn drop(self) {
        let UnitSet {
            listed: _,
            index: _,
        } = self;
    }
}

impl Model for UnitSet {
    ghost use Rattle.std.specs.Prelude.{List};
    ghost use Rattle.al_base.specs.declared.unit_key.UnitKey.{UnitKey};
    ghost use Rattle.al_check_bounded.specs.UnitLists.{AreAlike};

    ghost Value = { List UnitKey };

    ghost view = { λ s. s.listed.items };

    ghost invariant = { λ s. AreAlike s.index.keys s.listed.items };
}

/// The set of these units.
fn index_of(alloc: Global, units: &[UnitKey]) -> Result<IndexSet<UnitKey>, NoMemory>
    ensures { IfOk result (λ index. AreAlike index.keys units.now) }
{
    let mut index = IndexSet::new(alloc);
    for unit in units {
        let unit = copied_unit(alloc, unit)?;
        index.insert(unit)?;
    }
    Ok(index)
}

fn copied_units(alloc: Global, units: &[UnitKey]) -> Result<Vec<UnitKey>, NoMemory>
    ensures { IfOk result (λ copy. copy.items ≡ units.now) }
{
    let mut copy = Vec::new(alloc);
    for unit in units {
        let unit = copied_unit(alloc, unit)?;
        copy.push(unit)?;
    }
    Ok(copy)
}

impl UnitSet {
    /// The list of these units.
    ///
    /// # Errors
    /// `NoMemory` if the allocator refuses memory.
    pub fn new(alloc: Global, units: Vec<UnitKey>) -> Result<Self, NoMemory>
        ensures { IfOk result (λ set. set ≡ units.items) }
    {
        match index_of(alloc, units.as_slice()) {
            Ok(index) => Ok(UnitSet {
                listed: units,
                index,
            }),
            Err(failed) => Err(failed),
        }
    }

    /// The units, in their order.
    pub fn as_slice(&self) -> &[UnitKey]
        ensures { result.now ≡ self.now }
    {
        self.listed.as_slice()
    }

    /// Whether the unit is in the list.
    pub fn contains(&self, unit: &UnitKey) -> bool
        ensures { result ≡ has_unit self.now unit.now }
    {
        self.index.contains(unit)
    }

    /// A copy of the list.
    ///
    /// # Errors
    /// `NoMemory` if the allocator refuses memory.
    pub fn copy(&self, alloc: Global) -> Result<UnitSet, NoMemory>
        ensures { IfOk result (λ copy. copy ≡ self.now) }
    {
        let units = copied_units(alloc, self.listed.as_slice())?;
        UnitSet::new(alloc, units)
    }
}
