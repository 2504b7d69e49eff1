// Laws of the faults that are reported.
ghost use Rattle.al_overload_readings.specs.Laws.{FirstFaultsAreReported, MissingNamesAreReported, OwnFaultsAreReported};

/// An identifier alone under which nothing is visible has E401. Of two operands the first fault is reported, whatever the operator between
/// them is; of one operand its own.
pub fn first_faults_are_reported()
    ensures missing { MissingNamesAreReported }
    ensures first { FirstFaultsAreReported }
    ensures own { OwnFaultsAreReported }
{}
