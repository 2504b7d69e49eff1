// A law of homographs.
ghost use Rattle.al_decl.specs.Laws.{LiteralsAreHomographsOfFixed};

/// A literal of a type of which a region has nothing else is a homograph of exactly what may not be overloaded there (ARM 8.3(8)).
pub fn a_literal_is_a_homograph_of_what_is_fixed()
    ensures { LiteralsAreHomographsOfFixed }
{}
