// Whether two headers are the same except for places.
ghost use Rattle.std.specs.Prelude.{◌≡◌, IsTrue, map};
ghost use Rattle.std.specs.Option.{option_map};
ghost use Rattle.al_unit_graph.specs.Views.{contents_model, header_model, mention_model};
ghost use Rattle.al_engine.specs.GraphGraphs.{unplaced, unplaced_contents, unplaced_mention};
ghost use Rattle.al_engine.specs.Headers.{HaveSameLists, HaveSameNames, HaveSameProperties};

use al_base::Name;
use al_unit_graph::{Contents, Header, Mention};

// Whether two names are the same.
fn same_name(a: &Name, b: &Name) -> bool
    ensures { IsTrue result → a.now ≡ b.now }
{
    a.as_slice() == b.as_slice()
}

/// Whether these are the same names in the same order.
fn same_names(a: &[Name], b: &[Name]) -> bool
    ensures { IsTrue result → a.now ≡ b.now }
{
    a == b
}

/// Whether the same names are mentioned in the same order.
fn same_mentions(a: &[Mention], b: &[Mention]) -> bool
    ensures { IsTrue result → map unplaced_mention (map mention_model a.now) ≡ map unplaced_mention (map mention_model b.now) }
{
    if a.len() != b.len() {
        return false;
    }
    for (i, mention) in a.iter().enumerate() {
        if !same_name(&mention.name, &b[i].name) {
            return false;
        }
    }
    true
}

/// Whether both name the same parent body, or none (ARM 10.1.3(8)).
fn same_parent_body(a: &Option<Mention>, b: &Option<Mention>) -> bool
    ensures { IsTrue result → option_map unplaced_mention (option_map mention_model a.now) ≡ option_map unplaced_mention (option_map mention_model b.now) }
{
    match (a, b) {
        (Some(a), Some(b)) => same_name(&a.name, &b.name),
        (None, None) => true,
        (Some(_), None) => false,
        (None, Some(_)) => false,
    }
}

/// Whether the units have the same name and the same parent body.
fn have_same_names(a: &Header, b: &Header) -> bool
    ensures { IsTrue result → HaveSameNames (unplaced (header_model a.now)) (unplaced (header_model b.now)) }
{
    same_name(&a.name, &b.name)
        && same_name(&a.designator, &b.designator)
        && same_parent_body(&a.parent_body, &b.parent_body)
}

/// Whether the units have the same form and the same properties.
fn have_same_properties(a: &Header, b: &Header) -> bool
    ensures { IsTrue result → HaveSameProperties (unplaced (header_model a.now)) (unplaced (header_model b.now)) }
{
    a.form == b.form
        && a.is_private == b.is_private
        && a.needs_body == b.needs_body
        && a.has_elaborate_body == b.has_elaborate_body
        && a.is_parameterless_procedure == b.is_parameterless_procedure
}

/// Whether the units name the same units, and have the same stubs and pragmas.
fn have_same_lists(a: &Header, b: &Header) -> bool
    ensures { IsTrue result → HaveSameLists (unplaced (header_model a.now)) (unplaced (header_model b.now)) }
{
    same_mentions(a.mentions.as_slice(), b.mentions.as_slice())
        && same_names(a.stubs.as_slice(), b.stubs.as_slice())
        && same_names(a.elaborate.as_slice(), b.elaborate.as_slice())
        && same_names(a.elaborate_all.as_slice(), b.elaborate_all.as_slice())
}

// Whether two headers are the same except for places.
fn same_header(a: &Header, b: &Header) -> bool
    ensures { IsTrue result → unplaced (header_model a.now) ≡ unplaced (header_model b.now) }
{
    have_same_names(a, b) && have_same_properties(a, b) && have_same_lists(a, b)
}

/// Whether two sources are read as the same except for places: a unit with the same header, or no unit.
pub(crate) fn same_contents(a: &Contents, b: &Contents) -> bool
    ensures { IsTrue result → unplaced_contents (contents_model a.now) ≡ unplaced_contents (contents_model b.now) }
{
    match (a, b) {
        (Contents::Headed(a), Contents::Headed(b)) => same_header(a, b),
        (Contents::Unread(_, _), Contents::Unread(_, _)) => true,
        (Contents::Headed(_), Contents::Unread(_, _)) => false,
        (Contents::Unread(_, _), Contents::Headed(_)) => false,
    }
}
