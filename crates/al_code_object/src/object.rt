// Objects.
ghost use Rattle.std.specs.Prelude.{◌≡◌, ◌≤◌, length};
ghost use Rattle.al_code_object.specs.Objects.{Keeps};

use al_instr::LineEntry;
use al_view::{LinkSymbol, Priority};
use std::marker::Model;

/// The place of a symbol: so many bytes after the beginning of the unit's code, one of the unit's words, or one of its protected
/// objects.
pub struct Address {
    /// The symbol.
    pub symbol: LinkSymbol,
    /// The bytes before it in the unit's code, its word, or the number of the protected object.
    pub offset: u32,
}

impl Drop for Address {
    fn drop(self) {
        let Address {
            symbol: _,
            offset: _,
        } = self;
    }
}

/// The place of an operand that counts from the place of a symbol.
pub struct Relocation {
    /// The place of the operand in the unit's code, in bytes.
    pub place: u32,
    /// The symbol whose place is added.
    pub symbol: LinkSymbol,
}

impl Drop for Relocation {
    fn drop(self) {
        let Relocation {
            place: _,
            symbol: _,
        } = self;
    }
}

/// The words of the components of a protected object in the words of its unit, and its ceiling (ARM D.3), which is 0 to 30.
#[derive(Clone, Copy)]
pub struct Region {
    /// The first word, counted in its unit.
    pub word: u32,
    /// How many words the components take.
    pub words: u32,
    /// The ceiling.
    pub ceiling: Priority,
}

/// The code of a unit and what the linker must know of it.
#[derive(Drop)]
pub struct Compiled {
    code: Vec<u8>,
    uses: Vec<Relocation>,
    defines: Vec<Address>,
    data_words: u32,
    tasks: u32,
    protected: Vec<Region>,
    lines: Vec<LineEntry>,
}

/// What a unit leaves for the linker.
pub enum Object {
    /// The unit has no object: its code is longer than that of any image.
    Large,
    /// The unit has this object.
    Compiled(Compiled),
}

impl Drop for Object {
    fn drop(self) {
        match self {
            Object::Large => {}
            Object::Compiled(_) => {}
        }
    }
}

impl Model for Compiled {
    ghost use Rattle.al_code_object.specs.Objects.{CompiledCode, Keeps};

    ghost Value = { CompiledCode };

    ghost view = { λ o. record { code = o.code.items; uses = o.uses.items; defines = o.defines.items; data_words = o.data_words; tasks = o.tasks; protected = o.protected.items; lines = o.lines.items } };

    ghost invariant = { λ o. Keeps (record { code = o.code.items; uses = o.uses.items; defines = o.defines.items; data_words = o.data_words; tasks = o.tasks; protected = o.protected.items; lines = o.lines.items }) };
}

impl Compiled {
    /// The code of a unit, the places of the symbols that it uses and defines, how many words and tasks it has, its protected
    /// objects, and the places at which its lines begin.
    pub fn new(
        code: Vec<u8>,
        uses: Vec<Relocation>,
        defines: Vec<Address>,
        data_words: u32,
        tasks: u32,
        protected: Vec<Region>,
        lines: Vec<LineEntry>,
    ) -> Compiled
        requires { Keeps (record { code = code.items; uses = uses.items; defines = defines.items; data_words = data_words; tasks = tasks; protected = protected.items; lines = lines.items }) }
        ensures { result ≡ record { code = code.items; uses = uses.items; defines = defines.items; data_words = data_words; tasks = tasks; protected = protected.items; lines = lines.items } }
    {
        Compiled {
            code,
            uses,
            defines,
            data_words,
            tasks,
            protected,
            lines,
        }
    }

    /// What each of them keeps. It does nothing.
    pub fn keeps(&self)
        ensures { Keeps self.now }
    {
        let _words = self.tasks;
    }

    /// The bytes of its instructions, with the operands that the linker fills in as they count from their symbols.
    pub fn code(&self) -> &[u8]
        ensures value { result.now ≡ self.now.code }
        ensures within { length result.now ≤ 16777216 }
    {
        self.code.as_slice()
    }

    /// The places at which symbols are used, in their order.
    pub fn uses(&self) -> &[Relocation]
        ensures { result.now ≡ self.now.uses }
    {
        self.uses.as_slice()
    }

    /// The places of the symbols that the unit defines.
    pub fn defines(&self) -> &[Address]
        ensures { result.now ≡ self.now.defines }
    {
        self.defines.as_slice()
    }

    /// How many words its objects and flags take.
    pub fn data_words(&self) -> u32
        ensures { result ≡ self.now.data_words }
    {
        self.data_words
    }

    /// How many tasks it has.
    pub fn tasks(&self) -> u32
        ensures { result ≡ self.now.tasks }
    {
        self.tasks
    }

    /// The unit's protected objects, by their numbers.
    pub fn protected(&self) -> &[Region]
        ensures { result.now ≡ self.now.protected }
    {
        self.protected.as_slice()
    }

    /// The table of lines: from which places on the code is of which lines of the unit's source.
    pub fn lines(&self) -> &[LineEntry]
        ensures { result.now ≡ self.now.lines }
    {
        self.lines.as_slice()
    }
}
