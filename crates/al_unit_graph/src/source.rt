// The files of a library, and what they are read as.
ghost use Rattle.std.specs.Prelude.{◌≡◌, ◌≤◌, [], length, map, true, None, IfOk, IfSome, MatchOption, OnOk};
ghost use Rattle.std.specs.Map.{keys_of};
ghost use Rattle.std.specs.Option.{option_map};
ghost use Rattle.std.specs.BTreeMap.{insert_entry};
ghost use Rattle.al_base.specs.Batch.{key_of};
ghost use Rattle.al_base.specs.FileNames.{file_name_of};
ghost use Rattle.al_base.specs.Files.{name_cmp};
ghost use Rattle.al_unit_graph.specs.Library.{source_at, unit_at, is_unit};
ghost use Rattle.al_unit_graph.specs.Views.{source_model};

use crate::header::Header;
use al_base::{FileKey, Name, NoMemory, Place, UnitKey, UnitKind};
use std::alloc::Global;
use std::collections::BTreeMap;
use std::marker::Model;
use std::rc::Rc;

/// What the source in a file is read as.
pub enum Contents {
    /// A compilation unit.
    Headed(Header),
    /// The place and the number of the first lexical fault, or else of the syntax fault.
    Unread(Place, u16),
}

impl Drop for Contents {
    fn drop(self) {
        match self {
            Contents::Headed(_) => {}
            Contents::Unread(_, _) => {}
        }
    }
}

/// The source in a file, and what it is read as.
pub struct Source {
    /// The bytes of the file.
    pub text: Rc<Vec<u8>>,
    /// What they are read as.
    pub contents: Contents,
}

impl Drop for Source {
    fn drop(self) {
        let Source {
            text: _,
            contents: _,
        } = self;
    }
}

/// The files of a library, by name. What a file holds can be shared with another library.
pub struct Sources {
    pub(crate) alloc: Global,
    files: BTreeMap<Vec<u8>, Rc<Source>>,
}

impl Drop for Sources {
    fn drop(self) {
        let Sources { alloc: _, files: _ } = self;
    }
}

impl Model for Sources {
    ghost use Rattle.al_unit_graph.specs.Headers.{Library};
    ghost use Rattle.al_unit_graph.specs.Library.{HasShortNames};
    ghost use Rattle.al_unit_graph.specs.Views.{library_of};

    ghost Value = { Library };

    ghost view = { λ s. library_of s.files.entries };

    ghost invariant = { λ s. HasShortNames (library_of s.files.entries) };
}

impl Sources {
    /// A map without files.
    pub fn new(alloc: Global) -> Self
        ensures { result ≡ [] }
    {
        Sources {
            alloc,
            files: BTreeMap::new(alloc),
        }
    }

    /// Sets what a file holds. The file may be new.
    ///
    /// # Errors
    ///
    /// `NoMemory` if the allocator refuses memory. What the map then has isn't specified.
    pub fn insert(&mut self, file: Name, source: Rc<Source>) -> Result<(), NoMemory>
        requires { length file ≤ 255 }
        ensures { OnOk result (self.new ≡ insert_entry name_cmp self.old file (source_model source.value)) }
    {
        let bytes = file.into_vec(self.alloc)?;
        let Ok(_) = self.files.insert(bytes, source) else {
            return Err(NoMemory);
        };
        Ok(())
    }

    /// What a file holds, as it can be shared.
    pub fn shared_at(&self, file: &[u8]) -> Option<&Rc<Source>>
        ensures source { option_map (λ source. source_model source.now.value) result ≡ source_at self.now file.now }
        ensures short { IfSome result (λ _. length file.now ≤ 255) }
    {
        self.files.get(file)
    }

    /// What a file holds.
    pub fn source_at(&self, file: &[u8]) -> Option<&Source>
        ensures source { option_map (λ source. source_model source.now) result ≡ source_at self.now file.now }
        ensures short { IfSome result (λ _. length file.now ≤ 255) }
    {
        match self.shared_at(file) {
            None => None,
            Some(source) => Some(&**source),
        }
    }

    /// What the file holds in which this part of the unit of the name is looked for. It takes no memory.
    pub(crate) fn source_of(&self, name: &[u8], kind: UnitKind) -> Option<&Source>
        ensures { option_map (λ source. source_model source.now) result ≡ source_at self.now (file_name_of (name.now, kind)) }
    {
        let _ = &self.files;
        match FileKey::of(name, kind) {
            Some(file) => self.source_at(file.as_slice()),
            None => None,
        }
    }

    /// The name of the file in which the library has the unit. It takes no memory.
    pub fn file_of_unit(&self, key: &UnitKey) -> Option<FileKey>
        ensures { MatchOption result (unit_at self.now (key_of key.now) ≡ None) (λ file. (file ≡ file_name_of (key_of key.now)) × (is_unit self.now (key_of key.now) ≡ true)) }
    {
        let _ = &self.files;
        match FileKey::of(key.name.as_slice(), key.kind) {
            Some(file) => { if self.has_unit(key) { Some(file) } else { None } }
            None => None,
        }
    }

    /// The names of the files, in the order of their bytes.
    ///
    /// # Errors
    ///
    /// `NoMemory` if the allocator refuses memory.
    pub fn file_names(&self) -> Result<Vec<&[u8]>, NoMemory>
        ensures { IfOk result (λ names. map (λ n. n.now) names.items ≡ keys_of self.now) }
    {
        let mut names = Vec::with_capacity(self.alloc, self.files.len())?;
        for (name, _) in self.files.iter() {
            names.push(name.as_slice())?;
        }
        Ok(names)
    }
}
