// Questions of units.
ghost use Rattle.std.specs.Prelude.{◌≡◌, IfOk};
ghost use Rattle.al_query.specs.Queries.{unit_of, same_query};

use al_base::{Name, NoMemory, UnitKey};
use al_view::{Part, copied_unit, is_unit};
use std::alloc::Global;

/// What every unit can be asked for.
#[derive(Clone, Copy)]
pub enum Property {
    /// What the unit is, by its own view (ARM 10.1.1).
    Kind,
    /// The parent unit (ARM 10.1.1(10)).
    Parent,
    /// Whether the unit is private (ARM 10.1.1(12)).
    IsPrivate,
    /// The with and use clauses as resolved (ARM 10.1.2, 8.4).
    Context,
    /// Whether the unit needs a body (ARM 7.2(4)).
    NeedsBody,
    /// What the unit's body must complete (ARM 3.11.1).
    Completions,
}

/// A question of a unit.
pub enum Query {
    /// What a part of it declares under a name.
    Named {
        unit: UnitKey,
        part: Part,
        name: Name,
    },
    /// A question for one of the unit's properties.
    Of {
        unit: UnitKey,
        property: Property,
    },
}

impl Drop for Query {
    fn drop(self) {
        match self {
            Query::Named {
                unit: _,
                part: _,
                name: _,
            } => {}
            Query::Of {
                unit: _,
                property: _,
            } => {}
        }
    }
}

impl Query {
    /// The unit that is asked about.
    pub fn unit(&self) -> &UnitKey
        ensures { result.now ≡ unit_of self.now }
    {
        match self {
            Query::Named { unit, .. } => unit,
            Query::Of { unit, .. } => unit,
        }
    }

    /// Whether two questions are one.
    pub fn is(&self, other: &Query) -> bool
        ensures { result ≡ same_query self.now other.now }
    {
        match (self, other) {
            (
                Query::Named { unit, part, name },
                Query::Named {
                    unit: of,
                    part: in_part,
                    name: by,
                },
            ) => { is_unit(unit, of) && part.is(in_part) && name.as_slice() == by.as_slice() }
            (
                Query::Of { unit, property },
                Query::Of {
                    unit: of,
                    property: other,
                },
            ) => { is_unit(unit, of) && *property == *other }
            _ => false,
        }
    }

    /// A copy of the question.
    ///
    /// # Errors
    ///
    /// `NoMemory` if the allocator refuses memory.
    pub fn copy(&self, alloc: Global) -> Result<Query, NoMemory>
        ensures { IfOk result (λ copy. copy ≡ self.now) }
    {
        match self {
            Query::Named { unit, part, name } => Ok(Query::Named {
                unit: copied_unit(alloc, unit)?,
                part: part.copy(alloc)?,
                name: Name::from_slice(alloc, name.as_slice())?,
            }),
            Query::Of { unit, property } => Ok(Query::Of {
                unit: copied_unit(alloc, unit)?,
                property: *property,
            }),
        }
    }
}
