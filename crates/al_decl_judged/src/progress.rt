// What the declarations of a unit have taken so far.
ghost use Rattle.std.specs.Prelude.{◌≡◌, IfOk, OnOk};
ghost use Rattle.al_decl_judged.specs.Progressing.{after_flag, after_object, after_protected, is_library_level, next_place, symbol_of, type_counted, type_symbol, with_counted};

use crate::names::TypeName;
use crate::{Homonyms, Words, next_symbol};
use al_base::{NoMemory, UnitKey};
use al_view::{ObjectPlace, Priority, Seq, Symbol};
use al_view_typed::{DataPlace, ProtectedWords};
use std::alloc::Global;

/// How far the check of a unit's source has come: what the declarations before a place have taken.
pub struct Progress {
    /// The unit.
    pub unit: UnitKey,
    /// In how many bodies the place is; 0 is library level, which has no frame.
    pub depth: u32,
    /// The next words of the innermost frame and of the unit.
    pub words: Words,
    /// How many declarations of each name there are in the unit.
    pub homonyms: Homonyms,
    /// The unit's objects, by their first words.
    pub objects: Seq<DataPlace>,
    /// The unit's flags, by their words.
    pub flags: Seq<DataPlace>,
    /// The unit's protected objects, by the words of their components.
    pub protected_objects: Seq<ProtectedWords>,
}

impl Drop for Progress {
    fn drop(self) {
        let Progress {
            unit: _,
            depth: _,
            words: _,
            homonyms: _,
            objects: _,
            flags: _,
            protected_objects: _,
        } = self;
    }
}

impl Progress {
    /// The unit, the next words, and the unit's objects, flags and protected objects. It takes no memory.
    pub fn into_parts(
        self,
    ) -> (
        UnitKey,
        Words,
        Seq<DataPlace>,
        Seq<DataPlace>,
        Seq<ProtectedWords>,
    )
        ensures { result ≡ (self.unit, self.words, self.objects, self.flags, self.protected_objects) }
    {
        let Progress {
            unit,
            depth: _,
            words,
            homonyms: _,
            objects,
            flags,
            protected_objects,
        } = self;
        (unit, words, objects, flags, protected_objects)
    }

    /// Whether what is declared here is at library level.
    pub fn is_library_level(&self) -> bool
        ensures { result ≡ is_library_level self.now }
    {
        self.depth == 0
    }

    /// Counts one more declaration of a name. The result is its symbol.
    /// # Errors
    /// `NoMemory` if the allocator refuses memory.
    pub fn next_symbol(&mut self, alloc: Global, name: &[u8]) -> Result<Symbol, NoMemory>
        ensures symbol { IfOk result (λ symbol. symbol ≡ symbol_of self.old name.now) }
        ensures counted { OnOk result (self.new ≡ with_counted self.old name.now) }
    {
        next_symbol(alloc, &self.unit, &mut self.homonyms, name)
    }

    /// The symbol of a type that is declared: that of the private type that it completes, or else that of a new declaration of its name.
    /// # Errors
    /// `NoMemory` if the allocator refuses memory.
    pub fn type_symbol(&mut self, alloc: Global, name: &TypeName) -> Result<Symbol, NoMemory>
        ensures symbol { IfOk result (λ symbol. symbol ≡ type_symbol self.old name.now) }
        ensures counted { OnOk result (self.new ≡ type_counted self.old name.now) }
    {
        match &name.partial {
            Some(symbol) => symbol.copy(alloc),
            None => self.next_symbol(alloc, name.defining.name.as_slice()),
        }
    }

    /// Counts one more declaration of a name that has no symbol.
    /// # Errors
    /// `NoMemory` if the allocator refuses memory.
    pub fn count(&mut self, name: &[u8]) -> Result<(), NoMemory>
        ensures { OnOk result (self.new ≡ with_counted self.old name.now) }
    {
        self.homonyms.number(name)?;
        Ok(())
    }

    /// The place of the next object or flag: in the unit's words, or in the innermost frame.
    /// # Errors
    /// `NoMemory` if the allocator refuses memory.
    pub fn next_place(&self, alloc: Global, symbol: &Symbol) -> Result<ObjectPlace, NoMemory>
        ensures { IfOk result (λ place. place ≡ next_place self.now symbol.now) }
    {
        if self.is_library_level() {
            let symbol = symbol.copy(alloc)?;
            return Ok(ObjectPlace::Static { symbol, word: 0 });
        }
        Ok(ObjectPlace::Frame {
            depth: self.depth,
            word: self.words.frame,
        })
    }

    /// Takes this many words for an object at the next place.
    /// # Errors
    /// `NoMemory` if the allocator refuses memory.
    pub fn take_object(
        &mut self,
        alloc: Global,
        symbol: &Symbol,
        words: u32,
    ) -> Result<(), NoMemory>
        ensures { OnOk result (self.new ≡ after_object self.old symbol.now words) }
    {
        if self.is_library_level() {
            let symbol = symbol.copy(alloc)?;
            let word = self.words.take_data(words);
            self.objects.push(DataPlace { symbol, word })?;
            return Ok(());
        }
        let _ = self.words.take_frame(words);
        Ok(())
    }

    /// Takes one word for a flag at the next place.
    /// # Errors
    /// `NoMemory` if the allocator refuses memory.
    pub fn take_flag(&mut self, alloc: Global, symbol: &Symbol) -> Result<(), NoMemory>
        ensures { OnOk result (self.new ≡ after_flag self.old symbol.now) }
    {
        if self.is_library_level() {
            let symbol = symbol.copy(alloc)?;
            let word = self.words.take_data(1);
            self.flags.push(DataPlace { symbol, word })?;
            return Ok(());
        }
        let _ = self.words.take_frame(1);
        Ok(())
    }

    /// Takes the words of a protected object at the next place: the word of its flag, and after it this many words for its components (ARM
    /// 9.4).
    /// # Errors
    /// `NoMemory` if the allocator refuses memory.
    pub fn take_protected(
        &mut self,
        alloc: Global,
        symbol: &Symbol,
        words: u32,
        ceiling: Priority,
    ) -> Result<(), NoMemory>
        ensures { OnOk result (self.new ≡ after_protected self.old symbol.now words ceiling) }
    {
        self.take_flag(alloc, symbol)?;
        let symbol = symbol.copy(alloc)?;
        let word = self.words.take_data(words);
        self.protected_objects.push(ProtectedWords {
            symbol,
            word,
            words,
            ceiling,
        })?;
        Ok(())
    }
}
