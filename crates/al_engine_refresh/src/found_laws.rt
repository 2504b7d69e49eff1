//! Laws of diagnostics, as contracts of functions without code.
ghost use Rattle.al_engine_refresh.specs.Ascending.{FindingsAscend};

/// The diagnostics of a build are sorted by file, place and number, without duplicates, whatever the outcomes of the units are.
pub fn findings_ascend()
    ensures { FindingsAscend }
{}
