// What a unit's own source says.
ghost use Rattle.std.specs.Prelude.{◌≡◌};
ghost use Rattle.std.specs.List.{list_any};
ghost use Rattle.std.specs.Str.{bytes_eq};

use crate::UnitPart;
use al_base::UnitKey;
use al_query::UseClause;
use al_view::{Seq, Symbol};

/// What a unit's own source says of its place, which no other unit is asked for.
#[derive(Drop)]
pub struct OwnText {
    /// The unit.
    pub unit: UnitKey,
    /// The unit's own symbol: of a body that of its declaration, of a subunit that of the subprogram whose stub it replaces.
    pub symbol: Symbol,
    /// Whether it is a package or the body of one, rather than a subprogram.
    pub is_package: bool,
    /// Whether it is a private unit (ARM 10.1.1(12)).
    pub is_private: bool,
    /// For a subunit the stubs round it, outermost first, each by what comes before it in its body (ARM 10.1.3(8)): that of the library
    /// unit's body, and one for each subunit round this one. A library unit has none.
    pub stubs: Seq<UnitPart>,
    /// The units that its with clauses name.
    pub withs: Seq<UnitKey>,
    /// The use clauses of its context clause, as resolved.
    pub uses: Seq<UseClause>,
}

impl OwnText {
    /// Whether a pragma Elaborate or Elaborate_All of the context clause may name that unit, in lower case: one of its with clauses must
    /// name it (ARM 10.2.1). That a with clause mentions it as an ancestor alone is not enough (a choice).
    pub fn may_elaborate(&self, unit_name: &[u8]) -> bool
        ensures { result ≡ list_any (λ u. bytes_eq unit_name.now u.name) self.now.withs }
    {
        self.withs
            .as_slice()
            .iter()
            .any(|unit| unit_name == unit.name.as_slice())
    }
}
