//! A law of what depends on headers, as the contract of a function without code.
ghost use Rattle.al_engine.specs.GraphGraphs.{GraphsGoByHeaders};

/// Libraries with the same headers have the same graph: the same errors, orders of dependence and orders of elaboration.
pub fn graphs_go_by_headers()
    ensures { GraphsGoByHeaders }
{}
