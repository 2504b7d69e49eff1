// Sources of the small language, as their check takes them.
ghost use Rattle.std.specs.Prelude.{◌≡◌};

use al_base::NoMemory;
use al_query_outcome::ReadText;
use std::alloc::Global;
use std::marker::Model;
use std::rc::Rc;

/// A source of the small language, of which nothing is read before its check.
#[derive(Drop)]
pub struct ToyText {
    bytes: Rc<Vec<u8>>,
}

impl Model for ToyText {
    ghost use Rattle.std.specs.Prelude.{ℕ, List};

    ghost Value = { List ℕ };

    ghost view = { λ t. t.bytes.value.items };
}

impl ToyText {
    /// The bytes of the source.
    pub fn as_slice(&self) -> &[u8]
        ensures { result.now ≡ self.now }
    {
        self.bytes.as_slice()
    }
}

impl ReadText for ToyText {
    ghost use Rattle.al_engine_toy.specs.Toys.{header_in};

    ghost header = { header_in };

    ghost text = { λ t. t };

    fn read(alloc: Global, bytes: Rc<Vec<u8>>) -> Result<Self, NoMemory> {
        let _ = alloc;
        Ok(ToyText { bytes })
    }
}
