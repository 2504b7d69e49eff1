//! Laws of declarations, in the words of the Manual.
ghost use Rattle.al_decl_judged.specs.Laws.{ComponentsAreApart, ConstraintsNarrow, IndexesLieInside, NumbersCountHomonyms, TypesAreThere, TypesStandOnce};

/// A declaration's number is how many declarations of its name come before it.
pub fn numbers_count_homonyms()
    ensures { NumbersCountHomonyms }
{}

/// A constraint is right if, and only if, each value of its range lies in the mark's (ARM 3.5(6)).
pub fn constraints_narrow()
    ensures { ConstraintsNarrow }
{}

/// An index of a value of an array's range is below the number of its components.
pub fn indexes_lie_inside()
    ensures { IndexesLieInside }
{}

/// The components of a record begin after those before them, and end within its words.
pub fn components_are_apart()
    ensures { ComponentsAreApart }
{}

/// If two lists of types are joined, no type is in the result twice.
pub fn types_stand_once()
    ensures { TypesStandOnce }
{}

/// If each type comes after all types that it is made of in two lists, it does so in the joined list.
pub fn types_are_there()
    ensures { TypesAreThere }
{}
