// Names of units by their last identifiers.
ghost use Rattle.std.specs.Prelude.{◌≡◌, ◌+◌, drop};
ghost use Rattle.al_query_outcome.specs.Left.{last_of};

use al_unit_graph::parent_of;

/// What comes after a prefix and a dot; nothing if there is no more.
fn after(name: &[u8], prefix: usize) -> &[u8]
    ensures { result.now ≡ drop (prefix + 1) name.now }
{
    if prefix < name.len() {
        return &name[prefix + 1..];
    }
    &[]
}

/// What comes after the last dot of a unit's full name.
pub fn last_of(name: &[u8]) -> &[u8]
    ensures { result.now ≡ last_of name.now }
{
    match parent_of(name) {
        Some(parent) => after(name, parent.len()),
        None => name,
    }
}
