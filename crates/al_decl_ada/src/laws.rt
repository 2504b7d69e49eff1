//! Laws of the parts of declarations.
ghost use Rattle.al_decl_ada.specs.Priorities.{NoFaultInsideHidesIt};

/// No fault in a context inside the expression of a priority hides that the priority isn't static.
pub fn no_fault_inside_hides_a_priority()
    ensures { NoFaultInsideHidesIt }
{}
