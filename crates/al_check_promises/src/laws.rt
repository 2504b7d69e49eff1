//! What is known of tested results.
ghost use Rattle.al_check_promises.specs.Laws.{FaultsAreReported, NotYetIsReported, OnlyRecorded, PartsAreCompleted, WhatIsTestedKeeps};

/// A result that was tested uses, defines and shows what the check of its unit promises, whatever views the check was shown.
pub fn what_is_tested_keeps()
    ensures { WhatIsTestedKeeps }
{}

/// A tested result completes what it must, by the answers of the table that the test used.
pub fn parts_are_completed()
    ensures { PartsAreCompleted }
{}

/// A result with errors keeps the promises if each error is one that a check may report. E700 may be reported for each unit.
pub fn faults_are_reported()
    ensures faults { FaultsAreReported }
    ensures not_yet { NotYetIsReported }
{}

/// Views that come from the answers of every table that agrees with a log come from the log's recorded answers: the table that knows only these
/// agrees with the log.
pub fn only_recorded()
    ensures { OnlyRecorded }
{}
