// Laws of the definitions. The functions do nothing: their contracts are the laws.
ghost use Rattle.al_unit_header.specs.Laws.{BodiesAreNeeded};

/// A package needs a body exactly if a body completes one of its declarations, or the pragma Elaborate_Body comes in it before
/// every declaration, without an argument or with the last identifier of the package's name.
pub fn bodies_are_needed()
    ensures { BodiesAreNeeded }
{}
