// What types and code are known by.
ghost use Rattle.std.specs.Prelude.{◌≡◌, IfOk};
ghost use Rattle.al_view.specs.Symbols.{same_symbol};

use crate::unit::{copied_unit, is_unit};
use al_base::{Name, NoMemory, UnitKey, same_bytes};
use std::alloc::Global;

/// What a declaration of a unit is known by in every unit. A type is the one that has its symbol (ARM 3.2(1)). Symbols are
/// ordered by unit, name and number.
#[derive(PartialEq, Eq, PartialOrd, Ord, Hash)]
pub struct Symbol {
    /// The unit whose source declares it.
    pub unit: UnitKey,
    /// The name in lower case; for an operator its symbol.
    pub name: Name,
    /// How many declarations of that name come before it in that unit, in all its parts and in all bodies there.
    pub number: usize,
}

impl Drop for Symbol {
    fn drop(self) {
        let Symbol {
            unit: _,
            name: _,
            number: _,
        } = self;
    }
}

impl Symbol {
    /// Whether two symbols are one.
    pub fn is(&self, other: &Symbol) -> bool
        ensures { result ≡ same_symbol self.now other.now }
    {
        is_unit(&self.unit, &other.unit)
            && same_bytes(self.name.as_slice(), other.name.as_slice())
            && self.number == other.number
    }

    /// A copy of the symbol.
    ///
    /// # Errors
    ///
    /// `NoMemory` if the allocator refuses memory.
    pub fn copy(&self, alloc: Global) -> Result<Symbol, NoMemory>
        ensures { IfOk result (λ copy. copy ≡ self.now) }
    {
        let unit = copied_unit(alloc, &self.unit)?;
        let name = self.name.copy(alloc)?;
        Ok(Symbol {
            unit,
            name,
            number: self.number,
        })
    }
}
