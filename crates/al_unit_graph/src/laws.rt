// Laws of the definitions. The functions do nothing: their contracts are the laws.
ghost use Rattle.al_unit_graph.specs.FaultLists.{NameFaultsAreMisnames, OwnFaultsAreBroken};
ghost use Rattle.al_unit_graph.specs.Traces.{TracesAreTouched};

/// Two libraries that read equal sources alike give a file the same trace exactly if none of the files that it meets in the second
/// has another source in the first, or is there in one of the two alone.
pub fn traces_are_touched()
    ensures { TracesAreTouched }
{}

/// What is found wrong with the name of a file's unit is just what breaks a rule of names.
pub fn name_faults_are_misnames()
    ensures { NameFaultsAreMisnames }
{}

/// What is found wrong with a unit by itself and with what it names is exactly what breaks one of these rules, each of which is
/// stated by itself.
pub fn own_faults_are_broken()
    ensures { OwnFaultsAreBroken }
{}
