// What the units of a library answer.
ghost use Rattle.std.specs.Prelude.{◌≡◌};

use super::Engine;
use crate::read_files::ReadFiles;
use al_engine_refresh::Present;
use al_query::Answers;
use al_query_outcome::UnitCheck;

impl<R: ReadFiles, C: UnitCheck, P: Answers> Engine<R, C, P> {
    /// What the predefined units answer, and the units as the last build left them. It takes no memory.
    pub fn present(&self) -> Present<'_, P>
        ensures predefined { result.predefined.now ≡ self.now.predefined }
        ensures entries { result.entries.now ≡ self.now.cache.store }
    {
        Present {
            alloc: self.alloc,
            predefined: &self.predefined,
            entries: self.cache.entries(),
        }
    }
}
