//! Laws of what is read, as contracts of functions without code.
ghost use Rattle.al_unit.specs.Texts.{HeadersAreRead, UnitsAreRead};

/// If a source is read as a unit, the header is that of its tree.
pub fn headers_are_read()
    ensures { HeadersAreRead }
{}

/// A source in which there is a unit can be read, and is read as that unit.
pub fn units_are_read()
    ensures { UnitsAreRead }
{}
