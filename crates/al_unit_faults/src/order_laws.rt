//! Laws of units that break no rule of the graph, as contracts of functions without code.
ghost use Rattle.std.specs.Prelude.{List};
ghost use Rattle.al_base.specs.Batch.{Key};
ghost use Rattle.al_unit_graph.specs.Headers.{Library};
ghost use Rattle.al_unit_faults.specs.OrderLaws.{AreRanked, AreThere};
ghost use Rattle.al_unit_faults.specs.Reached.{IsDependenceOrder};

/// Which declaration and which parent body a name has, if its units break no rule of the graph.
pub fn faultless_units_are_there()
    ensures { (lib : Library) → AreThere lib }
{}

/// The places in an order of dependence are ranks: no unit that breaks no rule depends on itself.
pub fn order_gives_ranks()
    ensures { (lib : Library) (order : List Key) → IsDependenceOrder lib order → AreRanked lib order }
{}
