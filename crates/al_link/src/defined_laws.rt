//! Laws of the linker's look-ups. Each is a function that does nothing: its contract is the law.
ghost use Rattle.al_link.specs.DefinedSymbols.{ClosedImagesHaveNoDefault};

/// In an image of units that define all that is looked up, each operand counts from the place at which a unit defines its symbol, and the main
/// subprogram that is called is at the place at which a unit defines it.
pub fn closed_images_have_no_default()
    ensures { ClosedImagesHaveNoDefault }
{}
