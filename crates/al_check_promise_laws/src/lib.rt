//! What the check of a unit promises of its result follows from its definitions: it holds of every unit, every source and every table of answers.
//!
//! - `trees_are_the_units`: the labelled tree is that of the unit (`Found` and `TreeUnits` in proofs/).
//! - `only_declarations_leave`: only a declaration that needs a body leaves code to it. Whatever stands in a text, what is open after it is what
//!   was open before it (`Walks`, `AdaWalks`), so what waits at the end of a body is what waited around it (`BodiesLeft`); a package in which
//!   nothing is completed by a body leaves nothing (`PackagesLeft`, `LeftLaws`).
//! - `mains_are_accounted`: a procedure that can be the main one has its code, or leaves it to its body (`MainLaws`), under the name of the unit,
//!   since identifiers have no dots (`Dots`, `SimpleWords`).
//! - `trees_are_well_formed`: what the labelled tree has lies in the unit's words, as long as these haven't run out (`WordWalks`, `AdaWords`,
//!   `WordLaws`).
#![tactic(auto)]

pub mod laws;
