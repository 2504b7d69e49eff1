// What a dependence comes from.
ghost use Rattle.std.specs.Prelude.{◌≡◌};
ghost use Rattle.al_folder_served.specs.Why.{is_parent, why_of};

use al_unit_graph::parent_of;

/// What a dependence of an item comes from.
#[derive(Clone, Copy)]
pub enum Why {
    /// The item is the body of the other one.
    Completed,
    /// The other one is its parent.
    Parent,
    /// A with clause names the other one or a descendant of it.
    With,
}

// Whether the second name is that of the first one's parent.
fn is_parent(name: &[u8], other: &[u8]) -> bool
    ensures { result ≡ is_parent name.now other.now }
{
    match parent_of(name) {
        Some(parent) => parent == other,
        None => false,
    }
}

/// What the dependence of an item with the first name on a declaration with the second one comes from.
pub fn why_of(name: &[u8], other: &[u8]) -> Why
    ensures { result ≡ why_of name.now other.now }
{
    if name == other {
        Why::Completed
    } else if is_parent(name, other) {
        Why::Parent
    } else {
        Why::With
    }
}
