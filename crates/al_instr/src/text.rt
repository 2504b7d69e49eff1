// Text that a program puts out.
ghost use Rattle.std.specs.Prelude.{◌≡◌, ◌<◌, ◌∷◌, ◌++◌, [], length, option_map, slice_get, IfOk, OnOk};

use al_base::NoMemory;
use std::alloc::Global;
use std::marker::Model;

/// Bytes that are put out, fewer than 2^32 of them.
#[derive(Drop)]
pub struct Text {
    bytes: Vec<u8>,
}

impl Model for Text {
    ghost use Rattle.std.specs.Prelude.{List, ℕ, ◌<◌, length};

    ghost Value = { List ℕ };

    ghost view = { λ t. t.bytes.items };

    ghost invariant = { λ t. length t.bytes.items < 4294967296 };
}

impl Text {
    /// A text with a copy of these bytes.
    ///
    /// # Errors
    ///
    /// `NoMemory` if the allocator refuses memory.
    pub fn from_slice(alloc: Global, bytes: &[u8]) -> Result<Self, NoMemory>
        requires { length bytes.now < 4294967296 }
        ensures { IfOk result (λ text. text ≡ bytes.now) }
    {
        let bytes = Vec::from_slice(alloc, bytes)?;
        Ok(Text { bytes })
    }

    /// The bytes of the text.
    pub fn as_slice(&self) -> &[u8]
        ensures value { result.now ≡ self.now }
        ensures within { length result.now < 4294967296 }
    {
        self.bytes.as_slice()
    }
}

/// The bytes of a literal's name, fewer than 256 of them.
pub struct Word {
    bytes: Vec<u8>,
}

impl Drop for Word {
    fn drop(self) {
        let Word { bytes: _ } = self;
    }
}

impl Model for Word {
    ghost use Rattle.std.specs.Prelude.{List, ℕ, ◌<◌, length};

    ghost Value = { List ℕ };

    ghost view = { λ t. t.bytes.items };

    ghost invariant = { λ t. length t.bytes.items < 256 };
}

impl Word {
    /// The name of these bytes.
    ///
    /// # Errors
    ///
    /// `NoMemory` if the allocator refuses memory.
    pub fn from_slice(alloc: Global, bytes: &[u8]) -> Result<Self, NoMemory>
        requires { length bytes.now < 256 }
        ensures { IfOk result (λ word. word ≡ bytes.now) }
    {
        let bytes = Vec::from_slice(alloc, bytes)?;
        Ok(Word { bytes })
    }

    /// The bytes of the name.
    pub fn as_slice(&self) -> &[u8]
        ensures value { result.now ≡ self.now }
        ensures within { length result.now < 256 }
    {
        self.bytes.as_slice()
    }
}

/// The names of literals by their numbers, fewer than 2^32 of them.
pub struct Words {
    words: Vec<Word>,
}

impl Drop for Words {
    fn drop(self) {
        let Words { words: _ } = self;
    }
}

impl Model for Words {
    ghost use Rattle.std.specs.Prelude.{List, ℕ, ◌<◌, length};

    ghost Value = { List (List ℕ) };

    ghost view = { λ w. w.words.items };

    ghost invariant = { λ w. length w.words.items < 4294967296 };
}

impl Words {
    /// A list without names.
    pub fn new(alloc: Global) -> Words
        ensures { result ≡ [] }
    {
        Words {
            words: Vec::new(alloc),
        }
    }

    /// Adds a name at the end.
    ///
    /// # Errors
    ///
    /// `NoMemory` if the allocator refuses memory. What the names then are isn't specified.
    pub fn push(&mut self, word: Word) -> Result<(), NoMemory>
        requires { length self.old < 4294967295 }
        ensures { OnOk result (self.new ≡ self.old ++ word ∷ []) }
    {
        self.words.push(word)?;
        Ok(())
    }

    /// How many there are.
    pub fn len(&self) -> usize
        ensures value { result ≡ length self.now }
        ensures within { result < 4294967296 }
    {
        self.words.len()
    }

    /// The name of this number.
    pub fn get(&self, number: usize) -> Option<&[u8]>
        ensures { option_map (λ word. word.now) result ≡ slice_get self.now number }
    {
        let word = self.words.get(number)?;
        Some(word.as_slice())
    }

    /// All of them.
    pub(crate) fn as_slice(&self) -> &[Word]
        ensures { result.now ≡ self.now }
    {
        self.words.as_slice()
    }
}
