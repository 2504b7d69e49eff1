// The questions that may show a unit what it uses of others.
ghost use Rattle.std.specs.Prelude.{◌≡◌, ◌&&◌};
ghost use Rattle.std.specs.List.{list_any};
ghost use Rattle.std.specs.Str.{bytes_eq};
ghost use Rattle.al_query.specs.Known.{has_unit};
ghost use Rattle.al_check_bounded.specs.Questions.{has_part, is_wanted};

use crate::name_set::NameSet;
use crate::unit_set::UnitSet;
use al_base::{Name, UnitKey};
use al_query::{Property, Query};
use al_view::{Part, Seq};

/// The questions that may show a unit what it uses of others: for each of `units` what it is, what its body must complete, and each of `names` in
/// each of its parts and before each of `stubs`.
pub struct Wanted {
    /// The units that are asked.
    pub units: UnitSet,
    /// The names of the stubs.
    pub stubs: Seq<Name>,
    /// The names that are asked for.
    pub names: NameSet,
}

impl Drop for Wanted {
    fn drop(self) {
        let Wanted {
            units: _,
            stubs: _,
            names: _,
        } = self;
    }
}

fn is_one_of(name: &[u8], names: &[Name]) -> bool
    ensures { result ≡ list_any (bytes_eq name.now) names.now }
{
    names.iter().any(|other| name == other.as_slice())
}

impl Wanted {
    fn has_part(&self, part: &Part) -> bool
        ensures { result ≡ has_part self.now.stubs part.now }
    {
        match part {
            Part::Visible => true,
            Part::Private => true,
            Part::Body => true,
            Part::Stub(stub) => is_one_of(stub.as_slice(), self.stubs.as_slice()),
        }
    }

    fn has_name(&self, unit: &UnitKey, part: &Part, name: &Name) -> bool
        ensures { result ≡ (has_unit self.now.units unit.now && (has_part self.now.stubs part.now && list_any (bytes_eq name.now) self.now.names)) }
    {
        self.units.contains(unit) && self.has_part(part) && self.names.contains(name)
    }

    /// Whether the question is one of these.
    pub(crate) fn is_wanted(&self, query: &Query) -> bool
        ensures { result ≡ is_wanted self.now query.now }
    {
        match query {
            Query::Named { unit, part, name } => self.has_name(unit, part, name),
            Query::Of {
                unit,
                property: Property::Kind,
            } => self.units.contains(unit),
            Query::Of {
                unit,
                property: Property::Completions,
            } => self.units.contains(unit),
            Query::Of { .. } => false,
        }
    }
}
