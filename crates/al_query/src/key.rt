// Questions as keys of a map.
ghost use Rattle.std.specs.Prelude.{IsTrue};
ghost use Rattle.std.specs.Cmp.{partial_equiv_from_equiv};
ghost use Rattle.al_query.specs.Hashing.{hashed};
ghost use Rattle.al_query.specs.Queries.{same_query};
ghost use Rattle.al_query.specs.QueryLaws.{same_query-equiv, hashed-same};

use crate::query::Query;
use std::hash::{Hash, Hasher};

impl PartialEq for Query {
    ghost eq = { same_query };

    ghost laws = { partial_equiv_from_equiv same_query-equiv };

    fn eq(&self, other: &Query) -> bool {
        self.is(other)
    }
}

impl Eq for Query {
    ghost laws = { same_query-equiv };
}

impl Hash for Query {
    ghost hash_input = { hashed };

    ghost respects_eq = { hashed-same };

    fn hash<H: Hasher>(&self, state: &mut H) {
        state.write(self.unit().name.as_slice());
        if let Query::Named { name, .. } = self {
            state.write(name.as_slice());
        }
    }
}
