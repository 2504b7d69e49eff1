// Laws of orders and cycles, as contracts of functions without code.
ghost use Rattle.std.specs.Prelude.{◌≡◌, ℕ, ◌<◌, Bool, IsTrue, List, length, slice_index_or};
ghost use Rattle.al_base_graph.specs.Graphs.{Step};
ghost use Rattle.al_base_graph.specs.Orders.{IsOrder, IsStuck, IsCycle, AreDistinct, EachHasOneBefore, next_in};

/// An order has each node once, and each of its predecessors before it.
pub fn order_obeys()
    ensures once { (g : List (List ℕ)) (order : List ℕ) → IsOrder g order → AreDistinct order }
    ensures before { (g : List (List ℕ)) (order : List ℕ) → IsOrder g order → (i b : ℕ) → i < length order → Step g (slice_index_or order i 0) b → (j : ℕ) × (j < i) × (slice_index_or order j 0 ≡ b) }
{}

/// There is one order at most.
pub fn order_is_unique()
    ensures { (g : List (List ℕ)) (one two : List ℕ) → IsOrder g one → IsOrder g two → one ≡ two }
{}

/// The stuck nodes are the greatest set of nodes each of which has a predecessor in the set.
pub fn stuck_is_greatest()
    ensures has_one { (g : List (List ℕ)) (a : ℕ) → IsStuck g a → (b : ℕ) × Step g a b × IsStuck g b }
    ensures greatest { (g : List (List ℕ)) (held : ℕ → Bool) → EachHasOneBefore g held → (a : ℕ) → IsTrue (held a) → IsStuck g a }
    ensures nodes { (g : List (List ℕ)) (a : ℕ) → IsStuck g a → a < length g }
{}

/// If there is an order, no node is stuck.
pub fn ordered_is_not_stuck()
    ensures { (g : List (List ℕ)) (order : List ℕ) → IsOrder g order → (a : ℕ) → IsStuck g a → ⊥ }
{}

/// Each node of a cycle is stuck, and has the next one as a predecessor; the last one has the first.
pub fn cycle_is_of_steps()
    ensures stuck { (g : List (List ℕ)) (cycle : List ℕ) → IsCycle g cycle → (i : ℕ) → i < length cycle → IsStuck g (slice_index_or cycle i 0) }
    ensures steps { (g : List (List ℕ)) (cycle : List ℕ) → IsCycle g cycle → (i : ℕ) → i < length cycle → Step g (slice_index_or cycle i 0) (next_in cycle i) }
{}

/// There is one cycle at most.
pub fn cycle_is_unique()
    ensures { (g : List (List ℕ)) (one two : List ℕ) → IsCycle g one → IsCycle g two → one ≡ two }
{}
