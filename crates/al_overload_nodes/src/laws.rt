//! Laws of labelled trees.
ghost use Rattle.al_overload_nodes.specs.ActualFaults.{MillisecondsAreLikeOthers};

/// A fault in the actual parameter of Milliseconds is reported at its own place, as for a call of any function.
pub fn milliseconds_are_like_others()
    ensures { MillisecondsAreLikeOthers }
{}
