// Laws of the definitions, each a function that does nothing and whose contract is the law.
ghost use Rattle.al_code.specs.Division.{EachFallsIntoRoutines};
ghost use Rattle.al_code.specs.LineLaws.{TreesTellCode};

/// The code of a unit consists of its routines, in the order of its bodies: each begins at its symbol's place, and each jump leads to an instruction
/// of its own routine.
#[tactic(auto, using(crate::proofs::Divided::each_falls_into_routines))]
pub fn code_falls_into_routines()
    ensures { EachFallsIntoRoutines }
{}

/// The labelled trees say which statements and declarations have code, and so an entry for their line.
#[tactic(auto, using(crate::proofs::Coded::trees_tell_code))]
pub fn trees_tell_code()
    ensures { TreesTellCode }
{}
