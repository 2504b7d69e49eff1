//! A law of marks. The function does nothing: its contract is the law.
ghost use Rattle.al_query_store.specs.Marking.{MarksAreTests};

/// If each mark of a log says whether its answer differs from a table's, the table agrees with the log exactly if no mark is set.
pub fn marks_are_tests()
    ensures { MarksAreTests }
{}
