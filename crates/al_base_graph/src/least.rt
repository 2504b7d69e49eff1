// The least of the nodes that have predecessors which aren't placed.
ghost use Rattle.std.specs.Prelude.{◌≡◌, ℕ, ◌<◌, length, slice_index, MatchOption};
ghost use Rattle.std.specs.List.{All, Contains};
ghost use Rattle.al_base_graph.specs.Orders.{IsLeast};

// The least of all nodes that have predecessors which aren't placed.
pub(crate) fn least_open(missing: &[usize]) -> Option<usize>
    ensures { MatchOption result (All (λ count. count ≡ 0) missing.now) (IsLeast (λ a. 0 < slice_index missing.now a)) }
{
    for (node, count) in missing.iter().enumerate() {
        if *count > 0 {
            return Some(node);
        }
    }
    None
}

// The least of some nodes that have predecessors which aren't placed. At least one of them must be such a node.
pub(crate) fn least_open_of(nodes: &[usize], missing: &[usize]) -> usize
    requires nodes_in { All (λ node. node < length missing.now) nodes.now }
    requires some { (a : ℕ) × Contains nodes.now a × (0 < slice_index missing.now a) }
    ensures { IsLeast (λ a. Contains nodes.now a × (0 < slice_index missing.now a)) result }
{
    let mut least = missing.len();
    for node in nodes {
        if missing[*node] > 0 && *node < least {
            least = *node;
        }
    }
    least
}
