//! A law of the units that are in an image, as the contract of a function without code.
ghost use Rattle.al_engine.specs.Whole.{NeededArePlaced};

/// If no unit of the library breaks a rule, and all units on which units depend are there, then the units in the image of a partition are exactly the
/// units of the library that it needs.
pub fn needed_are_placed()
    ensures { NeededArePlaced }
{}
