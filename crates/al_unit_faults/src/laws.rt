// Laws of the definitions. The functions do nothing: their contracts are the laws.
ghost use Rattle.al_unit_faults.specs.Parts.{PartsAreReported};
ghost use Rattle.al_unit_faults.specs.Private.{MentionsAreDecided};
ghost use Rattle.al_unit_faults.specs.Cycles.{DependencesAreAll};
ghost use Rattle.al_unit_faults.specs.Laws.{FileFaultsAreBroken, GraphFaultsAreBroken, GraphFaultsAscend};

/// The library unit that is computed for a unit is the one of which it is part, as a relation states it.
pub fn parts_are_reported()
    ensures { PartsAreReported }
{}

/// The units that may mention the private children of a unit are computed as the relation states them.
pub fn mentions_are_decided()
    ensures { MentionsAreDecided }
{}

/// What is computed of the units that a unit depends on is all of them.
pub fn dependences_are_all()
    ensures { DependencesAreAll }
{}

/// What is found wrong with a file as a unit is exactly what breaks a rule, each of which is stated by itself.
pub fn file_faults_are_broken()
    ensures { FileFaultsAreBroken }
{}

/// What is found wrong with the units of a library is exactly what breaks a rule, each of which is stated by itself.
pub fn graph_faults_are_broken()
    ensures { GraphFaultsAreBroken }
{}

/// What is found wrong is ordered by file, place and number, and nothing is there twice.
pub fn graph_faults_ascend()
    ensures { GraphFaultsAscend }
{}
