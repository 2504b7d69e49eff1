// Questions, as they are printed.
ghost use Rattle.std.specs.Prelude.{◌≡◌, ◌++◌, OnOk};
ghost use Rattle.al_why.specs.Questions.{property_back, property_front, question_words};

use crate::pieces::add_between;
use al_base::NoMemory;
use al_query::{Property, Query};

/// Adds what is asked: a name of a unit, or a property of it.
pub(crate) fn add_question(text: &mut Vec<u8>, query: &Query) -> Result<(), NoMemory>
    ensures { OnOk result (text.new.items ≡ text.old.items ++ question_words query.now) }
{
    match query {
        Query::Named {
            unit,
            part: _,
            name,
        } => add_between(text, unit.name.as_slice(), b".", name.as_slice()),
        Query::Of { unit, property } => add_between(
            text,
            property_front(*property),
            unit.name.as_slice(),
            property_back(*property),
        ),
    }
}

// The words before the name of a unit that is asked for a property.
fn property_front(property: Property) -> &'static [u8]
    ensures { result.now ≡ property_front property }
{
    match property {
        Property::Kind => b"what ",
        Property::Parent => b"the parent of ",
        Property::IsPrivate => b"whether ",
        Property::Context => b"the context of ",
        Property::NeedsBody => b"whether ",
        Property::Completions => b"what the body of ",
    }
}

// The words after it.
fn property_back(property: Property) -> &'static [u8]
    ensures { result.now ≡ property_back property }
{
    match property {
        Property::Kind => b" is",
        Property::Parent => b"",
        Property::IsPrivate => b" is private",
        Property::Context => b"",
        Property::NeedsBody => b" needs a body",
        Property::Completions => b" completes",
    }
}
