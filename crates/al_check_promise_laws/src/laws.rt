//! What the check of a unit promises, as contracts of functions without code.
ghost use Rattle.al_check_promise_laws.specs.Promises.{MainsAreAccounted, OnlyDeclarationsLeave, TreesAreTheUnits, TreesAreWellFormed};

/// The labelled tree that the check of a unit gives is that of the unit.
pub fn trees_are_the_units()
    ensures { TreesAreTheUnits }
{}

/// What a unit leaves to be completed, a declaration leaves that needs a body.
pub fn only_declarations_leave()
    ensures { OnlyDeclarationsLeave }
{}

/// The code of a procedure that can be the main one is defined by the unit, or left to its body.
pub fn mains_are_accounted()
    ensures { MainsAreAccounted }
{}

/// What the labelled tree has lies in the unit's words, as long as these haven't run out.
pub fn trees_are_well_formed()
    ensures { TreesAreWellFormed }
{}
