//! Laws of headers that are read in sources, as contracts of functions without code.
ghost use Rattle.al_engine_files.specs.Headed.{TextsAreHeaded};

/// A file has the header that is read in its source, and exactly the subunits among the files have a parent body (ARM 10.1.3(8)).
pub fn texts_are_headed()
    ensures { TextsAreHeaded }
{}
