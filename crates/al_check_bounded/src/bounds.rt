// Bounds on what a unit may ask.
ghost use Rattle.std.specs.Prelude.{◌≡◌};
ghost use Rattle.al_query.specs.Answers.{declaration};
ghost use Rattle.al_query.specs.Queries.{unit_of};
ghost use Rattle.al_view.specs.Symbols.{same_unit};
ghost use Rattle.al_query_outcome.specs.ReadsLaw.{is_by_names};
ghost use Rattle.al_check_bounded.specs.Bounding.{bounded, may_ask};

use crate::{NameSet, UnitSet};
use al_base::{NoMemory, UnitKey, UnitKind};
use al_query::{Answer, Answers, Property, Query};
use al_query_outcome::no_answer;
use al_view::is_unit;
use std::alloc::Global;

/// The questions that a unit may ask.
pub struct Bounds {
    /// The unit that asks. It isn't asked itself.
    pub unit: UnitKey,
    /// The units that it knows.
    pub known: UnitSet,
    /// The names that it may ask for: the words of its source, and names from answers.
    pub names: NameSet,
}

impl Drop for Bounds {
    fn drop(self) {
        let Bounds {
            unit: _,
            known: _,
            names: _,
        } = self;
    }
}

/// Whether the first unit is the declaration with the other one's name.
fn is_declaration_of(unit: &UnitKey, other: &UnitKey) -> bool
    ensures { result ≡ same_unit unit.now (declaration other.now.name) }
{
    matches!(unit.kind, UnitKind::Decl) && unit.name.as_slice() == other.name.as_slice()
}

impl Bounds {
    /// Whether the question is for one of the names, or for a property. What a body must complete may be asked only of the unit's own declaration.
    fn is_by_names(&self, query: &Query) -> bool
        ensures { result ≡ is_by_names self.now.unit self.now.names query.now }
    {
        match query {
            Query::Named { name, .. } => self.names.contains(name),
            Query::Of {
                unit,
                property: Property::Completions,
            } => is_declaration_of(unit, &self.unit),
            Query::Of { .. } => true,
        }
    }

    /// Whether the question may be asked: it is of a known unit other than the one that asks, and for one of the names or for a property.
    pub fn may_ask(&self, query: &Query) -> bool
        ensures { result ≡ may_ask self.now query.now }
    {
        let unit = query.unit();
        self.known.contains(unit) && !is_unit(&self.unit, unit) && self.is_by_names(query)
    }
}

/// A source of answers within bounds. A question that may not be asked isn't asked: its answer is that of a unit that doesn't exist.
pub struct Bounded<'a, A: Answers> {
    /// The allocator of answers that aren't asked for.
    pub alloc: Global,
    /// The source of answers.
    pub asked: &'a A,
    /// The bounds.
    pub bounds: &'a Bounds,
}

// Written out: a derived `Drop` would require that the source of answers can be dropped, though only a reference to it is held.
impl<A: Answers> Drop for Bounded<'_, A> {
    fn drop(self) {
        let Bounded {
            alloc: _,
            asked: _,
            bounds: _,
        } = self;
    }
}

impl<A: Answers> Answers for Bounded<'_, A> {
    ghost table = { λ b. bounded b.bounds.now (A.table b.asked.now) };

    fn ask(&self, query: &Query) -> Result<Answer, NoMemory> {
        if self.bounds.may_ask(query) {
            return self.asked.ask(query);
        }
        no_answer(self.alloc, query)
    }
}
