// What a client may ask of texts.
use al_base::{Files, NoMemory, Place};
use al_lsp::Counting;
use serde_json::Value;
use std::alloc::Global;

/// A unit of a text.
pub struct UnitName {
    /// Its full name in lower case.
    pub name: Vec<u8>,
    /// The protocol's number of what it is.
    pub kind: u64,
    /// The place of its name.
    pub place: Place,
}

impl Drop for UnitName {
    fn drop(self) {
        let UnitName {
            name: _,
            kind: _,
            place: _,
        } = self;
    }
}

/// A place in a file.
pub struct Site {
    pub file: Vec<u8>,
    pub place: Place,
}

impl Drop for Site {
    fn drop(self) {
        let Site { file: _, place: _ } = self;
    }
}

/// A declaration that a name may mean.
pub struct Meant {
    /// Where it stands; nothing where no file has it.
    pub site: Option<Site>,
    /// The declaration in words.
    pub words: Vec<u8>,
}

impl Drop for Meant {
    fn drop(self) {
        let Meant { site: _, words: _ } = self;
    }
}

/// A name that may stand at a place.
pub struct Proposed {
    pub name: Vec<u8>,
    /// Its first declaration in words.
    pub words: Vec<u8>,
}

impl Drop for Proposed {
    fn drop(self) {
        let Proposed { name: _, words: _ } = self;
    }
}

/// Knows what texts declare, and what names mean there.
pub trait Points {
    /// What a text declares, as the protocol lists it (`DocumentSymbol[]`) for a client that counts so.
    ///
    /// # Errors
    ///
    /// `NoMemory` where memory was wanted and not given.
    fn outline(&self, alloc: Global, counting: Counting, text: &[u8]) -> Result<Value, NoMemory>;

    /// The unit of a text, if it is one.
    ///
    /// # Errors
    ///
    /// `NoMemory` where memory was wanted and not given.
    fn unit(&self, alloc: Global, text: &[u8]) -> Result<Option<UnitName>, NoMemory>;

    /// The declarations that the name at an offset of a text may mean, where files have these texts.
    ///
    /// # Errors
    ///
    /// `NoMemory` where memory was wanted and not given.
    fn meant(
        &self,
        alloc: Global,
        texts: &Files,
        text: &[u8],
        offset: usize,
    ) -> Result<Vec<Meant>, NoMemory>;

    /// Where names stand that may mean one of these declarations.
    ///
    /// # Errors
    ///
    /// `NoMemory` where memory was wanted and not given.
    fn references(
        &self,
        alloc: Global,
        texts: &Files,
        text: &[u8],
        offset: usize,
    ) -> Result<Vec<Site>, NoMemory>;

    /// The names that are visible at an offset of a text and begin with the word that ends there.
    ///
    /// # Errors
    ///
    /// `NoMemory` where memory was wanted and not given.
    fn proposed(
        &self,
        alloc: Global,
        texts: &Files,
        text: &[u8],
        offset: usize,
    ) -> Result<Vec<Proposed>, NoMemory>;
}
