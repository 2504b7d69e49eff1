// A unit that was edited.
ghost use Rattle.std.specs.Prelude.{◌≡◌, IfOk};

use al_base::{NoMemory, UnitKey};
use al_view::copied_unit;
use std::alloc::Global;

/// A unit whose source was edited since the last build, and whether another unit depends on it directly.
pub struct EditedUnit {
    pub unit: UnitKey,
    pub is_base: bool,
}

impl Drop for EditedUnit {
    fn drop(self) {
        let EditedUnit {
            unit: _,
            is_base: _,
        } = self;
    }
}

impl EditedUnit {
    /// A copy.
    ///
    /// # Errors
    ///
    /// `NoMemory` if the allocator refuses memory.
    pub(crate) fn copied(&self, alloc: Global) -> Result<EditedUnit, NoMemory>
        ensures { IfOk result (λ copy. copy ≡ self.now) }
    {
        Ok(EditedUnit {
            unit: copied_unit(alloc, &self.unit)?,
            is_base: self.is_base,
        })
    }
}
