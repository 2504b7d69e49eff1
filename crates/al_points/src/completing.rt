// What is visible at a place whose text is being typed.
use crate::looking::meant_at;
use crate::named::{bytes_between, bytes_of, is_identifier, name_at, tokens_of};
use crate::words::words_of;
use crate::world::{Unit, World, unit_in};
use al_base::{Name, NoMemory, UnitKey, UnitKind, folded};
use al_query::Answers;
use al_unit_header::header_of;
use std::alloc::Global;
use std::collections::BTreeSet;

/// A name that is visible at a place.
pub struct Proposed {
    /// In lower case.
    pub name: Vec<u8>,
    /// Its first declaration in Ada's words.
    pub words: Vec<u8>,
}

impl Drop for Proposed {
    fn drop(self) {
        let Proposed { name: _, words: _ } = self;
    }
}

// What may stand behind the identifier that is typed so that the text is a unit.
const ENDINGS: [&[u8]; 5] = [b"", b";", b");", b" := 0;", b" then null; end if;"];

fn is_word(byte: u8) -> bool {
    byte.is_ascii_alphanumeric() || byte == b'_'
}

// Where the word begins that ends at an offset.
fn word_start(text: &[u8], offset: usize) -> usize {
    let mut start = offset.min(text.len());
    for _ in 0..text.len() {
        if start == 0 || start > text.len() || !is_word(text[start - 1]) {
            return start;
        }
        start -= 1;
    }
    start
}

// The text with these bytes in place of the word that ends at an offset.
fn repaired(
    alloc: Global,
    text: &[u8],
    start: usize,
    offset: usize,
    ending: &[u8],
) -> Result<Vec<u8>, NoMemory> {
    let offset = offset.min(text.len());
    let mut whole = Vec::from_slice(alloc, &text[..start.min(offset)])?;
    whole.extend_from_slice(b"Typed_Here")?;
    whole.extend_from_slice(ending)?;
    whole.extend_from_slice(&text[offset..])?;
    Ok(whole)
}

// Adds a word in lower case, if it begins so.
fn add_word(
    alloc: Global,
    word: &[u8],
    prefix: &[u8],
    words: &mut BTreeSet<Vec<u8>>,
) -> Result<(), NoMemory> {
    let word = folded(alloc, word)?.into_vec(alloc)?;
    if word.as_slice().starts_with(prefix) {
        words.insert(word)?;
    }
    Ok(())
}

// The identifiers of a text that begin so, in lower case.
fn add_words(
    alloc: Global,
    text: &[u8],
    prefix: &[u8],
    words: &mut BTreeSet<Vec<u8>>,
) -> Result<(), NoMemory> {
    let tokens = tokens_of(alloc, text)?;
    for token in tokens.as_slice() {
        if is_identifier(token) {
            add_word(alloc, bytes_of(text, token), prefix, words)?;
        }
    }
    Ok(())
}

// What Standard and the predefined packages declare.
const PREDEFINED: &[u8] =
    b"Integer Natural Positive Boolean True False Ada Text_IO Put Put_Line New_Line Real_Time Clock Time Time_Span Milliseconds Microseconds Standard";

impl<A: Answers> World<'_, A> {
    // Adds the identifiers that begin so in the declaration of a unit and of those that it is a child of, and in its body.
    fn add_unit_words(
        &self,
        name: &[u8],
        prefix: &[u8],
        words: &mut BTreeSet<Vec<u8>>,
    ) -> Result<(), NoMemory> {
        for end in 0..name.len() {
            if name[end] == b'.' {
                self.add_words_of(&name[..end], prefix, words)?;
            }
        }
        self.add_words_of(name, prefix, words)
    }

    // .. in the declaration and the body of this unit alone.
    fn add_words_of(
        &self,
        name: &[u8],
        prefix: &[u8],
        words: &mut BTreeSet<Vec<u8>>,
    ) -> Result<(), NoMemory> {
        for kind in [UnitKind::Decl, UnitKind::Body] {
            let name = Name::from_slice(self.alloc, name)?;
            if let Some(text) = self.text_of(&UnitKey { name, kind }) {
                add_words(self.alloc, text, prefix, words)?;
            }
        }
        Ok(())
    }

    // The identifiers that may be visible in a unit and begin so.
    fn words_in(
        &self,
        text: &[u8],
        unit: &Unit,
        prefix: &[u8],
    ) -> Result<BTreeSet<Vec<u8>>, NoMemory> {
        let mut words = BTreeSet::new(self.alloc);
        add_words(self.alloc, text, prefix, &mut words)?;
        add_words(self.alloc, PREDEFINED, prefix, &mut words)?;
        let header = header_of(self.alloc, &unit.tree)?;
        self.add_unit_words(header.name.as_slice(), prefix, &mut words)?;
        for mention in header.mentions.as_slice() {
            self.add_unit_words(mention.name.as_slice(), prefix, &mut words)?;
        }
        Ok(words)
    }

    /// The names that are visible at an offset of a text and begin with the word that ends there, behind a dot those that are selected; in alphabetical
    /// order. None where the text is no unit, whatever may stand behind that word.
    ///
    /// # Errors
    ///
    /// `NoMemory` if the allocator refuses memory.
    pub fn proposed(&self, text: &[u8], offset: usize) -> Result<Vec<Proposed>, NoMemory> {
        let start = word_start(text, offset);
        for ending in ENDINGS {
            let whole = repaired(self.alloc, text, start, offset, ending)?;
            if let Some(unit) = unit_in(self.alloc, whole.as_slice())? {
                let prefix = folded(self.alloc, bytes_between(text, start, offset))?;
                return self.proposed_in(whole.as_slice(), &unit, start, prefix.as_slice());
            }
        }
        Ok(Vec::new(self.alloc))
    }

    fn proposed_in(
        &self,
        text: &[u8],
        unit: &Unit,
        start: usize,
        prefix: &[u8],
    ) -> Result<Vec<Proposed>, NoMemory> {
        let mut list = Vec::new(self.alloc);
        let Some(typed) = name_at(self.alloc, text, start)? else {
            return Ok(list);
        };
        let mut names = Vec::new(self.alloc);
        for word in self.words_in(text, unit, prefix)?.iter() {
            if word.as_slice() != b"typed_here".as_slice() {
                names.push(typed.with_last(self.alloc, word.as_slice())?)?;
            }
        }
        let found = meant_at(
            self.alloc,
            &unit.key,
            &unit.tree,
            self.table,
            names.as_slice(),
        )?;
        for (name, meaning) in names.as_slice().iter().zip(found.as_slice()) {
            if let Some(view) = meaning.found.views.as_slice().first() {
                let words = words_of(self.alloc, name.last.as_slice(), view)?;
                let name = Vec::from_slice(self.alloc, name.last.as_slice())?;
                list.push(Proposed { name, words })?;
            }
        }
        Ok(list)
    }
}
