// What an image is made of.
ghost use Rattle.std.specs.Prelude.{◌≡◌};

use al_base::{Name, UnitKind};
use al_instr::LineEntry;

/// The words of a protected object among the data words, and its ceiling.
#[derive(Clone, Copy)]
pub struct Region {
    /// Its first word among the data words, from 0.
    pub address: u32,
    /// How many words it has.
    pub words: u32,
    /// The ceiling (ARM D.3).
    pub ceiling: u32,
}

/// The unit of an object, and where its code begins, in bytes from the beginning of the code.
pub struct ImageObject {
    /// Which part of the unit it is.
    pub kind: UnitKind,
    /// The name of the unit in lower case.
    pub name: Name,
    /// The first byte of its code, from 0.
    pub place: u32,
}

impl Drop for ImageObject {
    fn drop(self) {
        let ImageObject {
            kind: _,
            name: _,
            place: _,
        } = self;
    }
}

/// The parts of an image, which may not yet be within its limits; the code by its bytes.
pub struct ImageParts {
    /// How many tasks there are.
    pub tasks: u32,
    /// How many data words there are.
    pub data_words: u32,
    /// The protected objects.
    pub protected: Vec<Region>,
    /// The objects, in the order of their code.
    pub objects: Vec<ImageObject>,
    /// The code.
    pub code: Vec<u8>,
    /// The table of lines: from which places on the code is of which lines; none in an image of version 1.
    pub lines: Option<Vec<LineEntry>>,
}

impl Drop for ImageParts {
    fn drop(self) {
        let ImageParts {
            tasks: _,
            data_words: _,
            protected: _,
            objects: _,
            code: _,
            lines: _,
        } = self;
    }
}

impl ImageParts {
    /// The bytes of the code. It takes no memory.
    pub fn into_code(self) -> Vec<u8>
        ensures { result ≡ self.code }
    {
        let ImageParts {
            tasks: _,
            data_words: _,
            protected: _,
            objects: _,
            code,
            lines: _,
        } = self;
        code
    }
}
