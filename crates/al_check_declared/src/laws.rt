//! What is known of a region that isn't entered anew.
ghost use Rattle.al_check_declared.specs.Laws.{RenewedIsEnteredAnew};

/// A region that already has the form that a body sees is as if it were entered anew for that body.
pub fn a_region_of_that_form_is_as_if_entered_anew()
    ensures { RenewedIsEnteredAnew }
{}
