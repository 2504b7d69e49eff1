// A source of Ada.
ghost use Rattle.std.specs.Prelude.{◌≡◌, IfSome, option_map};
ghost use Rattle.al_tree.specs.UnitViews.{unit_model};
ghost use Rattle.al_unit_graph.specs.Views.{header_model};
ghost use Rattle.al_unit_header.specs.Units as headers;
ghost use Rattle.al_unit.specs.Texts.{unit_in};

use crate::read_unit::{ReadUnit, unit_in};
use al_base::NoMemory;
use al_query_outcome::ReadText;
use std::alloc::Global;
use std::marker::Model;
use std::rc::Rc;

/// A source of Ada with the unit that was read in it, if it is one. The bytes are shared.
pub struct AdaText {
    bytes: Rc<Vec<u8>>,
    unit: Option<ReadUnit>,
}

impl Drop for AdaText {
    fn drop(self) {
        let AdaText { bytes: _, unit: _ } = self;
    }
}

impl Model for AdaText {
    ghost use Rattle.std.specs.Prelude.{ℕ, List};
    ghost use Rattle.al_unit.specs.Read.{IsReadIn};

    ghost Value = { List ℕ };

    ghost view = { λ t. t.bytes.value.items };

    ghost invariant = { λ t. IsReadIn t.bytes.value.items t.unit };
}

impl AdaText {
    /// The bytes of the source.
    pub fn as_slice(&self) -> &[u8]
        ensures { result.now ≡ self.now }
    {
        self.bytes.as_slice()
    }

    /// The unit that was read in the source; none if it is no unit, or has more bytes than can be read.
    pub fn unit(&self) -> Option<&ReadUnit>
        ensures tree { option_map (λ u. unit_model u.now.tree) result ≡ unit_in self.now }
        ensures header { IfSome result (λ u. header_model u.now.header ≡ headers.header_of (unit_model u.now.tree)) }
    {
        match &self.unit {
            Some(unit) => Some(unit),
            None => None,
        }
    }
}

impl ReadText for AdaText {
    ghost use Rattle.al_unit.specs.Texts.{header_in};

    ghost header = { header_in };

    ghost text = { λ t. t };

    fn read(alloc: Global, bytes: Rc<Vec<u8>>) -> Result<Self, NoMemory> {
        let unit = unit_in(alloc, bytes.as_slice())?;
        Ok(AdaText { bytes, unit })
    }
}
