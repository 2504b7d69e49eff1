// Whether code can be made of a labelled unit.
ghost use Rattle.std.specs.Prelude.{◌≡◌, ◌+◌, ◌&&◌, nat_le, nat_lt};
ghost use Rattle.std.specs.List.{list_all};
ghost use Rattle.al_view.specs.Symbols.{same_unit};
ghost use Rattle.al_view_typed.specs.UnitTrees.{unit_model};
ghost use Rattle.al_check_promises.specs.SelfChecks.{is_well_formed};

use al_base::UnitKey;
use al_view::is_unit;
use al_view_typed::{DataPlace, ProtectedWords, TypedUnit};

fn begin_within(places: &[DataPlace], words: u32) -> bool
    ensures { result ≡ list_all (λ p. nat_le p.word words) places.now }
{
    places.iter().all(|place| place.word <= words)
}

fn lie_within(flags: &[DataPlace], words: u32) -> bool
    ensures { result ≡ list_all (λ p. nat_lt p.word words) flags.now }
{
    flags.iter().all(|flag| flag.word < words)
}

fn ends_within(object: &ProtectedWords, words: u32) -> bool
    ensures { result ≡ nat_le (object.now.word + object.now.words) words }
{
    let end = u64::from(object.word) + u64::from(object.words);
    end <= u64::from(words)
}

fn end_within(objects: &[ProtectedWords], words: u32) -> bool
    ensures { result ≡ list_all (λ p. nat_le (p.word + p.words) words) objects.now }
{
    objects.iter().all(|object| ends_within(object, words))
}

/// Whether the objects, flags and protected objects of a labelled unit are within its words.
#[tactic(auto, unfolding(al_view_typed::specs::UnitTrees::unit_model))]
fn is_well_formed(tree: &TypedUnit) -> bool
    ensures { result ≡ is_well_formed (unit_model tree.now) }
{
    begin_within(tree.objects.as_slice(), tree.words)
        && lie_within(tree.flags.as_slice(), tree.words)
        && end_within(tree.protected_objects.as_slice(), tree.words)
}

/// Whether a labelled unit is this unit, and there is code for it.
#[tactic(auto, unfolding(al_view_typed::specs::UnitTrees::unit_model))]
pub(crate) fn has_code(unit: &UnitKey, tree: &TypedUnit) -> bool
    ensures { result ≡ (same_unit (unit_model tree.now).unit unit.now && is_well_formed (unit_model tree.now)) }
{
    is_unit(&tree.unit, unit) && is_well_formed(tree)
}
