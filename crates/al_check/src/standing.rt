// The state in which the walk over a unit begins, for those who walk over it once more.
ghost use Rattle.std.specs.Prelude.{◌≡◌};

use crate::start::{Begun, begun_at};
use al_base::{NoMemory, UnitKey};
use al_check_here::CheckState;
use al_check_start::unit_at;
use al_query::{Answers, Recorder};
use al_tree::CompilationUnit;
use al_view::Interface;
use std::alloc::Global;

/// The state in which the check walks over the item of a unit; none if its context clause has an error.
///
/// # Errors
///
/// `NoMemory` if the allocator refuses memory.
pub fn state_at<A: Answers>(
    alloc: Global,
    unit: &UnitKey,
    tree: &CompilationUnit,
    recorder: &mut Recorder<A>,
) -> Result<Option<CheckState>, NoMemory>
    ensures asked { recorder.new.asked ≡ recorder.old.asked }
{
    match unit_at(alloc, unit, tree, recorder)? {
        Ok(start) => {
            let Begun { unit_facts, state } = begun_at(alloc, tree, start, Interface::new(alloc))?;
            drop(unit_facts);
            Ok(Some(state))
        }
        Err(_) => Ok(None),
    }
}
