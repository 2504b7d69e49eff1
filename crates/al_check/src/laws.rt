//! Laws of verdicts, as contracts of functions without code.
ghost use Rattle.al_check.specs.Laws.{ItemFaultsAreReported, SoundUnitsHaveNoFault, StartFaultsAreReported};

/// The verdict over a unit has all its errors: the error of its start, or all errors of its item.
pub fn faults_are_reported()
    ensures start { StartFaultsAreReported }
    ensures item { ItemFaultsAreReported }
{}

/// Only a unit without errors has an interface.
pub fn sound_units_have_no_fault()
    ensures { SoundUnitsHaveNoFault }
{}
