// Laws of what nodes reach, as contracts of functions without code.
ghost use Rattle.std.specs.Prelude.{ℕ, Bool, List, IsTrue};
ghost use Rattle.std.specs.List.{Contains};
ghost use Rattle.al_base_graph.specs.Graphs.{Step, Reaches, IsReached, HoldsReached};
ghost use Rattle.al_base_graph.specs.Closing.{ClosingIsReached};

/// What leads to a node that leads on, leads there too.
pub fn reaching_is_transitive()
    ensures { (g : List (List ℕ)) (a b c : ℕ) → Reaches g a b → Reaches g b c → Reaches g a c }
{}

/// What some nodes reach is the least set that holds them and the successors of each node that it holds: the starts are reached,
/// a step from a reached node leads to a reached node, and each set that is so has all that is reached.
pub fn reached_is_least()
    ensures starts { (g : List (List ℕ)) (starts : List ℕ) (a : ℕ) → Contains starts a → IsReached g starts a }
    ensures steps { (g : List (List ℕ)) (starts : List ℕ) (a b : ℕ) → IsReached g starts a → Step g a b → IsReached g starts b }
    ensures least { (g : List (List ℕ)) (starts : List ℕ) (held : ℕ → Bool) → HoldsReached g starts held → (a : ℕ) → IsReached g starts a → IsTrue (held a) }
{}

/// The list that is computed of what is reached from some items has all that is in the least set that holds them and what one
/// step leads to, and nothing else.
pub fn closing_is_reached<T>()
    ensures { ClosingIsReached T }
{}
