// E700: the unit can't be compiled yet.
ghost use Rattle.std.specs.Prelude.{◌≡◌, IfOk};
ghost use Rattle.al_query_outcome.specs.Results.{checked_model, Faulty as Wrong};
ghost use Rattle.al_check_promises.specs.SelfChecks.{not_checked};

use al_base::{Diagnostic, NoMemory, Place, UnitKey, file_name_of};
use al_query_outcome::Checked;
use al_view::Seq;
use std::alloc::Global;

/// The diagnostic E700 at the first place of the unit's file.
///
/// # Errors
/// `NoMemory` if the allocator refuses memory.
pub fn not_yet(alloc: Global, unit: &UnitKey) -> Result<Seq<Diagnostic>, NoMemory>
    ensures { IfOk result (λ faults. faults ≡ not_checked unit.now) }
{
    let file = file_name_of(alloc, unit)?;
    let place = Place { line: 1, col: 1 };
    let mut faults = Seq::empty(alloc);
    faults.push(Diagnostic {
        file,
        place,
        code: 700,
    })?;
    Ok(faults)
}

/// E700 as the result of a check.
///
/// # Errors
/// `NoMemory` if the allocator refuses memory.
pub fn not_checked(alloc: Global, unit: &UnitKey) -> Result<Checked, NoMemory>
    ensures { IfOk result (λ checked. checked_model checked ≡ Wrong (not_checked unit.now)) }
{
    let faults = not_yet(alloc, unit)?;
    Ok(Checked::Faulty(faults))
}
