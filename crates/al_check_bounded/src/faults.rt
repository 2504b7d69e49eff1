// Errors as diagnostics of the unit's own file.
ghost use Rattle.std.specs.Prelude.{◌≡◌, IfOk, map};
ghost use Rattle.al_check_bounded.specs.Made.{fault_in, faults_in, or_not_yet};

use al_base::{Diagnostic, NoMemory, UnitKey, file_name_of};
use al_base_fault::Fault;
use al_check_promises::not_yet;
use al_stmts::FaultList;
use al_view::Seq;
use std::alloc::Global;

/// The diagnostic for an error in the unit's own file.
///
/// # Errors
/// `NoMemory` if the allocator refuses memory.
pub fn diagnostic(alloc: Global, unit: &UnitKey, fault: &Fault) -> Result<Diagnostic, NoMemory>
    ensures { IfOk result (λ d. d ≡ fault_in unit.now fault.now) }
{
    let file = file_name_of(alloc, unit)?;
    Ok(Diagnostic {
        file,
        place: fault.place,
        code: fault.rule.number(),
    })
}

fn diagnostics(alloc: Global, unit: &UnitKey, faults: &[Fault]) -> Result<Seq<Diagnostic>, NoMemory>
    ensures { IfOk result (λ ds. ds ≡ map (fault_in unit.now) faults.now) }
{
    let mut found = Seq::empty(alloc);
    for fault in faults {
        let diagnostic = diagnostic(alloc, unit, fault)?;
        found.push(diagnostic)?;
    }
    Ok(found)
}

/// The diagnostics for all errors of a list, each in the unit's own file.
///
/// # Errors
/// `NoMemory` if the allocator refuses memory.
pub fn faults_in(
    alloc: Global,
    unit: &UnitKey,
    faults: FaultList,
) -> Result<Seq<Diagnostic>, NoMemory>
    ensures { IfOk result (λ ds. ds ≡ faults_in unit.now faults) }
{
    let all = faults.into_faults()?;
    diagnostics(alloc, unit, all.as_slice())
}

/// These diagnostics, or E700 if there are none.
fn or_not_yet(
    alloc: Global,
    unit: &UnitKey,
    wrong: Seq<Diagnostic>,
) -> Result<Seq<Diagnostic>, NoMemory>
    ensures { IfOk result (λ ds. ds ≡ or_not_yet unit.now wrong) }
{
    if wrong.as_slice().is_empty() {
        drop(wrong);
        not_yet(alloc, unit)
    } else {
        Ok(wrong)
    }
}

/// The diagnostics for all errors of a list, each in the unit's own file; E700 if there are none.
pub(crate) fn wrong_or_not_yet(
    alloc: Global,
    unit: &UnitKey,
    faults: FaultList,
) -> Result<Seq<Diagnostic>, NoMemory>
    ensures { IfOk result (λ ds. ds ≡ or_not_yet unit.now (faults_in unit.now faults)) }
{
    let wrong = faults_in(alloc, unit, faults)?;
    or_not_yet(alloc, unit, wrong)
}
