// What the test means.
ghost use Rattle.al_stmts_right_choices.specs.Laws.{TheTestDecides};

/// The test holds if, and only if, the choices are right.
pub fn the_test_decides()
    ensures { TheTestDecides }
{}
