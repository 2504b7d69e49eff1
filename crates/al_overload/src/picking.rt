// Which declaration a candidate's number means.
ghost use Rattle.std.specs.Prelude.{◌≡◌, option_map};
ghost use Rattle.al_overload.specs.Picks.{NumbersMeanCandidates, candidate_count, object_count, pick};

use al_view::{ObjectView, TypeDefinition, View, ViewKind};
use al_view_predefined::StandardTypes;

fn count_of_definition(definition: &TypeDefinition) -> usize
    ensures { result ≡ object_count definition.now }
{
    match definition {
        TypeDefinition::Array { .. } => 2,
        TypeDefinition::Integer(_) => 1,
        TypeDefinition::Enumeration { .. } => 1,
        TypeDefinition::Record(_) => 1,
        TypeDefinition::Time => 1,
        TypeDefinition::Private => 1,
    }
}

/// How many candidates an object gives: an object of an array type may be itself or one of its components.
fn object_count(standard: &StandardTypes, object: &ObjectView) -> usize
    ensures { result ≡ candidate_count (ViewKind.OfObject object.now) }
{
    match standard.type_of(&object.types, &object.subtype.base) {
        Some(of) => count_of_definition(&of.definition),
        None => 1,
    }
}

/// How many candidates a declaration gives.
fn candidate_count(standard: &StandardTypes, view: &View) -> usize
    ensures { result ≡ candidate_count view.now }
{
    match view.kind() {
        ViewKind::OfObject(object) => object_count(standard, object),
        ViewKind::OfNumber(_) => 1,
        ViewKind::OfLiteral(_) => 1,
        ViewKind::OfSubprogram(_) => 1,
        ViewKind::OfComponent => 0,
        ViewKind::OfType(_) => 0,
        ViewKind::OfSubtype(_) => 0,
        ViewKind::OfTask(_) => 0,
        ViewKind::OfProtected(_) => 0,
        ViewKind::OfPackage(_) => 0,
    }
}

/// The declaration whose candidate has this number, and which of its candidates it is.
pub fn pick<'a>(
    standard: &StandardTypes,
    number: usize,
    visible: &'a [View],
) -> Option<(&'a ViewKind, usize)>
    ensures { option_map (λ picked. (picked.0.now, picked.1)) result ≡ pick number visible.now }
{
    let mut left = number;
    for view in visible {
        let count = candidate_count(standard, view);
        if left < count {
            return Some((view.kind(), left));
        }
        left -= count;
    }
    None
}

/// The candidate with a number, among all that some declarations may be, is the one that `pick` finds for that number.
pub fn numbers_mean_candidates()
    ensures { NumbersMeanCandidates }
{}
