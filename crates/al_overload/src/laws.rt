// Laws of interpretations.
ghost use Rattle.al_overload.specs.Meanings.{FaultsTellWhy, OneIsAcceptable};

/// An expression has a meaning if, and only if, one interpretation is acceptable; that is its meaning (ARM 8.6(30)).
pub fn one_is_acceptable()
    ensures { OneIsAcceptable }
{}

/// An expression has E402 if, and only if, no interpretation is acceptable, and E403 if, and only if, two or more are.
pub fn faults_tell_why()
    ensures { FaultsTellWhy }
{}
