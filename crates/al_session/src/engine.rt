// The library of a session.
ghost use Rattle.std.specs.Prelude.{◌≡◌, IfOk};
ghost use Rattle.al_session_served.specs.Library.{empty};

use crate::Served;
use al_base::NoMemory;
use al_engine_files::query_predefined_laws::units_are_predefined;
use al_engine_files::{AdaFiles, PredefinedUnits};
use al_query_outcome::UnitCheck;
use al_unit::AdaText;
use al_unit::check_text_laws::headers_are_read;
use std::alloc::Global;

/// A library of Ada units over a checker: its files, what is kept of its units, and its last build.
pub type Engine<C> = Served<AdaFiles, C, PredefinedUnits>;

/// A library without files and builds, over any checker of parsed Ada units.
///
/// # Errors
///
/// `NoMemory` if the allocator refuses memory.
pub fn new_engine<C: UnitCheck<Text = AdaText> + Drop>(
    alloc: Global,
    checker: C,
) -> Result<Engine<C>, NoMemory>
    ensures { IfOk result (λ library. library ≡ empty) }
{
    AdaFiles::are_read();
    headers_are_read();
    units_are_predefined();
    match PredefinedUnits::new(alloc) {
        Ok(predefined) => Ok(Served::new(alloc, checker, predefined)),
        Err(NoMemory) => {
            drop(checker);
            Err(NoMemory)
        }
    }
}
