//! What is known of the views that a unit is shown.
ghost use Rattle.al_check_bounded.specs.Questions.{ShownViewsAreAnswered};

/// Each view that a unit is shown is in an answer of the table.
pub fn shown_views_are_answered()
    ensures { ShownViewsAreAnswered }
{}
