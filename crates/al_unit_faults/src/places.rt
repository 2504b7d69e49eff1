// The places of units in the order of keys.
ghost use Rattle.std.specs.Prelude.{◌≡◌, ◌<◌, ◌≤◌, length, map, IfOk, MatchOption};
ghost use Rattle.std.specs.List.{All, Contains};
ghost use Rattle.std.specs.List.Sorted.{IsStrictlySortedBy};
ghost use Rattle.al_base.specs.Batch.{key_of};
ghost use Rattle.al_unit_graph.specs.Orders.{key_cmp, kind_place};
ghost use Rattle.al_unit_faults.specs.Steps.{IsAt, key_at};

use al_base::{Name, NoMemory, UnitKey, UnitKind};
use std::alloc::Global;
use std::cmp::Ordering;

fn rank(kind: UnitKind) -> u8
    ensures { result ≡ kind_place kind }
{
    match kind {
        UnitKind::Decl => 0,
        UnitKind::Body => 1,
        UnitKind::Sub => 2,
    }
}

/// Compares by the bytes of the names; of one name the declaration comes first, then the body, then the subunit.
fn compare(key: &UnitKey, other: &UnitKey) -> Ordering
    ensures { result ≡ key_cmp (key_of key.now) (key_of other.now) }
{
    key.name
        .as_slice()
        .cmp(other.name.as_slice())
        .then(rank(key.kind).cmp(&rank(other.kind)))
}

/// The place of a unit among some in order.
pub(crate) fn place_of(units: &[UnitKey], key: &UnitKey) -> Option<usize>
    requires { IsStrictlySortedBy key_cmp (map key_of units.now) }
    ensures { MatchOption result (Contains (map key_of units.now) (key_of key.now) → ⊥) (IsAt (map key_of units.now) (key_of key.now)) }
{
    let mut low = 0;
    let mut high = units.len();
    'places: while low < high {
        let middle = low + (high - low) / 2;
        match compare(&units[middle], key) {
            Ordering::Less => low = middle + 1,
            Ordering::Equal => return Some(middle),
            Ordering::Greater => high = middle,
        }
    }
    None
}

/// A copy of the key.
fn copy_of(alloc: Global, key: &UnitKey) -> Result<UnitKey, NoMemory>
    ensures { IfOk result (λ copy. key_of copy ≡ key_of key.now) }
{
    Ok(UnitKey {
        name: Name::from_slice(alloc, key.name.as_slice())?,
        kind: key.kind,
    })
}

/// The units at these places.
pub(crate) fn units_at(
    alloc: Global,
    units: &[UnitKey],
    places: &[usize],
) -> Result<Vec<UnitKey>, NoMemory>
    requires { All (λ i. i < length units.now) places.now }
    ensures { IfOk result (λ keys. map key_of keys.items ≡ map (key_at (map key_of units.now)) places.now) }
{
    let mut keys = Vec::new(alloc);
    for place in places {
        keys.push(copy_of(alloc, &units[*place])?)?;
    }
    Ok(keys)
}
