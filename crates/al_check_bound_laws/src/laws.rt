//! The laws that nothing is cut, as contracts of functions without code.
ghost use Rattle.al_check_bound_laws.specs.Cuts.{NothingIsCut, OutcomesAreWhole};

/// Whatever other units answer, what is found in a source within the bounds of what a check may ask is what is found by all that they answer.
pub fn nothing_is_cut()
    ensures { NothingIsCut }
{}

/// The outcome of a unit is what is concluded from that: bounds are in the test of a result alone.
pub fn outcomes_are_whole()
    ensures { OutcomesAreWhole }
{}
