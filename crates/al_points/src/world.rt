// Units by their texts and the answers of a library.
use al_base::{FileKey, Files, NoMemory, UnitKey};
use al_query::Answers;
use al_tree::CompilationUnit;
use al_unit::read;
use al_unit_graph::kind_of;
use al_unit_header::header_of;
use std::alloc::Global;

/// The texts of a library, and what its units answer.
pub struct World<'a, A: Answers> {
    pub alloc: Global,
    pub table: &'a A,
    pub texts: &'a Files,
}

impl<A: Answers> Drop for World<'_, A> {
    fn drop(self) {
        let World {
            alloc: _,
            table: _,
            texts: _,
        } = self;
    }
}

/// A source of more bytes is no unit.
const MAX_SOURCE: usize = 4_294_967_294;

/// A unit with its tree.
pub(crate) struct Unit {
    pub key: UnitKey,
    pub tree: CompilationUnit,
}

impl Drop for Unit {
    fn drop(self) {
        let Unit { key: _, tree: _ } = self;
    }
}

// The key of a unit.
fn key_of(alloc: Global, tree: &CompilationUnit) -> Result<UnitKey, NoMemory> {
    let header = header_of(alloc, tree)?;
    Ok(UnitKey {
        name: header.name.copy(alloc)?,
        kind: kind_of(header.form),
    })
}

/// The unit of a text, if it is one.
pub(crate) fn unit_in(alloc: Global, text: &[u8]) -> Result<Option<Unit>, NoMemory> {
    if text.len() > MAX_SOURCE {
        return Ok(None);
    }
    let Some(tree) = read(alloc, text)?.into_unit() else {
        return Ok(None);
    };
    let key = key_of(alloc, &tree)?;
    Ok(Some(Unit { key, tree }))
}

impl<A: Answers> World<'_, A> {
    /// The text of a unit, if the library has its file.
    pub(crate) fn text_of(&self, unit: &UnitKey) -> Option<&[u8]> {
        let file = FileKey::of(unit.name.as_slice(), unit.kind)?;
        self.texts.get(file.as_slice())
    }

    /// A unit of the library, if its file has it.
    pub(crate) fn unit(&self, key: &UnitKey) -> Result<Option<Unit>, NoMemory> {
        match self.text_of(key) {
            Some(text) => unit_in(self.alloc, text),
            None => Ok(None),
        }
    }
}
